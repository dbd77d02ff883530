//! Turns with a pump.
ghost use Rattle.std.specs.Prelude.{◌≡◌, length};
ghost use Rattle.std.specs.List.{All};
ghost use Rattle.turn_io.specs.EndLists.{IsIdle, chain_table, chain_end_table};
ghost use Rattle.processor.specs.Manning.{IsRunnable};

use super::stands::{Ways, first_station, readied};
use super::*;
use crate::pumps::{Pumped, make_pump};
use proc_chain::{ChainEnd, Chained};
use quajects::AnyQuaject;
use std::test::*;

/// A pump whose chain begins at this position, with an end of each of its queues and of its chain, and another end of
/// the chain.
fn split_pump<R: Abort>(rt: &R, alloc: Global, at: u32) -> (Ways, ChainEnd<AnyQuaject>)
    ensures one { length result.0.chains.items ≡ 1 }
    ensures other { All (λ chain. chain_end_table result.1 ≡ chain_table chain) result.0.chains.items
        × IsIdle result.1 }
{
    let Pumped {
        queues,
        small,
        chain,
        mut end,
    } = make_pump(rt, alloc, at);
    let other = chain.split(&mut end);
    let (Ok(chains), Ok(ends)) = (vec![in alloc; chain], vec![in alloc; end]) else {
        panic!(rt; "memory")
    };
    let ways = Ways {
        queues,
        small,
        large: Vec::new(alloc),
        chains,
        ends,
    };
    (ways, other)
}

/// The objects that the processors of a plan share, with two queues and a pump from the first to the second, whose
/// chain begins at this position; the station of this one, with an element ready for each thread; and another end of
/// the chain.
fn stand_pumped<R: Abort + Wait>(
    rt: &R,
    alloc: Global,
    plan: BootPlan,
    p: Processor,
    at: u32,
) -> (Shared, Station, ChainEnd<AnyQuaject>)
    ensures station { IsRunnable result.0 p result.1.parts }
    ensures one { length result.0.chains.items ≡ 1 }
    ensures other { All (λ chain. chain_end_table result.2 ≡ chain_table chain) result.0.chains.items
        × IsIdle result.2 }
{
    let (ways, other) = split_pump(rt, alloc, at);
    let Ok((shared, station)) = first_station(rt, alloc, plan, (0, 0), ways) else {
        panic!(rt; "memory")
    };
    let station = readied(rt, &shared, station, p);
    (shared, station, other)
}

const PUMPED: &[u8] = b"synthesis 1
queue in
queue out
pump p in out
thread a
poke p
say in hi
poke p
hear out
hear out
";

/// A chain at its last position takes one more note. The next poke is refused for good, and its step is tried in each
/// turn of its thread.
#[test]
fn pokes_past_the_last_position(rt: HostRuntime) {
    let plan = parse_boot(rt.alloc(), PUMPED).expect(&rt, "script");
    let p = processor(&rt, 0);
    let (shared, station, _other) = stand_pumped(&rt, rt.alloc(), plan, p, 4294967294);
    let station = run(&rt, &shared, station, p, 6, &mut NoGate);
    let ended = close_all(&rt, shared, station.into_parts());
    check_states(&rt, &ended, &[ready(2)]);
    assert!(rt; ended.heard.len() == 0);
}

const MANY_POKES: &[u8] = b"synthesis 1
queue in
queue out
pump p in out
thread a
poke p
poke p
poke p
poke p
poke p
poke p
poke p
poke p
poke p
poke p
poke p
poke p
poke p
poke p
poke p
poke p
poke p
poke p
poke p
poke p
poke p
poke p
poke p
poke p
poke p
poke p
poke p
poke p
poke p
poke p
poke p
poke p
";

/// While another end has the Turn and hasn't served it, a thread's pokes are left to it, 31 after the end's own note.
/// The next is refused, because the chain is full. Its step is tried again, and is done once the notes are served.
#[test]
fn pokes_of_a_full_chain(rt: HostRuntime) {
    let plan = parse_boot(rt.alloc(), MANY_POKES).expect(&rt, "script");
    let p = processor(&rt, 0);
    let (shared, station, other) = stand_pumped(&rt, rt.alloc(), plan, p, 0);
    let mut other = other;
    let chain = &shared.chains.as_slice()[0];
    let turn = match chain.try_chain(&mut other, 9) {
        Ok(Chained::Run(turn)) => turn,
        Ok(Chained::Left) => panic!(rt; "left"),
        Err(_) => panic!(rt; "refused"),
    };
    let station = run(&rt, &shared, station, p, 33, &mut NoGate);
    let ran = chain.serve_all(&rt, &mut other, &shared.queues, turn);
    assert!(rt; ran == 32);
    let station = run(&rt, &shared, station, p, 1, &mut NoGate);
    let ended = close_all(&rt, shared, station.into_parts());
    check_states(&rt, &ended, &[at(Place::Free, 32)]);
}
