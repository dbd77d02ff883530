//! Ends that are joined at the close, and what each table closes with.
ghost use Rattle.std.specs.Prelude.{◌≡◌, ◌+◌, length};
ghost use Rattle.std.specs.List.{All};
ghost use Rattle.boot_objects.specs.Comings.{FitsHome};
ghost use Rattle.turn_io.specs.EndLists.{AreEndsOf, AreChainEndsOf, AreChainsOver, end_share, share_at};
ghost use Rattle.turn_io.specs.QueueEnds.{AreQueueEndsOf};
ghost use Rattle.proc_chain.specs.Handles.{IsOnlyEnd};
ghost use Rattle.quajects.specs.Ports.{IsEndAt};
ghost use Rattle.table_theory.specs.Sharing.{IsWhole};

use crate::pumps::{Pumped, make_pump};
use boot_data::plan::QueueIndex;
use boot_objects::*;
use claim_queue::{ClaimQueue, Closed, QueueEnd};
use event_theory::OutOfMemory;
use meters::Meters;
use proc_chain::{ChainEnd, ProcChain};
use quajects::{AnyQuaject, Came, Home, Queues};
use std::alloc::Global;
use std::panic::Expect;
use std::process::Abort;
use std::sync::Wait;
use std::test::*;
use thread_table::{Place, Places, ThreadTable};
use turn_io::{LineRoom, NoGate, QueueEnds, poke};

/// A small queue with an end of it, and its only other end.
#[derive(Drop)]
struct Shared {
    world: Queues,
    ends: QueueEnds,
    other: QueueEnd<64>,
    ghost fit: { AreQueueEndsOf world ends },
    ghost at: { IsEndAt world.small.items 0 other },
    ghost one: { length world.small.items ≡ 1 },
    ghost whole: { IsWhole (share_at ends.small.items 0 + end_share other) },
}

fn shared_queue(alloc: Global) -> Result<Shared, OutOfMemory> {
    let (queue, mut end) = ClaimQueue::new(alloc, 0)?;
    let other = queue.split(&mut end);
    let mut small = Vec::new(alloc);
    small.push(queue)?;
    let world = Queues {
        small,
        large: Vec::new(alloc),
    };
    let mut small = Vec::new(alloc);
    small.push(end)?;
    let ends = QueueEnds {
        small,
        large: Vec::new(alloc),
    };
    Ok(Shared { world, ends, other })
}

/// A pump with an end of each of its two queues and the only end of its chain, in lists.
#[derive(Drop)]
struct Whole {
    world: Queues,
    ends: QueueEnds,
    chains: Vec<ProcChain<AnyQuaject>>,
    chain_ends: Vec<ChainEnd<AnyQuaject>>,
    ghost fit: { AreQueueEndsOf world ends },
    ghost two: { length world.small.items ≡ 2 },
    ghost chains_fit: { AreChainEndsOf chains.items chain_ends.items },
    ghost one: { length chains.items ≡ 1 },
    ghost over: { AreChainsOver world chains.items },
    ghost whole: { All IsOnlyEnd chain_ends.items },
}

fn whole_pump<R: Abort>(rt: &R, alloc: Global) -> Result<Whole, OutOfMemory> {
    let Pumped {
        queues: world,
        small,
        chain,
        end,
    } = make_pump(rt, alloc, 0);
    let ends = QueueEnds {
        small,
        large: Vec::new(alloc),
    };
    let mut chains = Vec::new(alloc);
    chains.push(chain)?;
    let mut chain_ends = Vec::new(alloc);
    chain_ends.push(end)?;
    Ok(Whole {
        world,
        ends,
        chains,
        chain_ends,
    })
}

/// Two lines are said at the one small queue, and the first is heard. Then the queue is shut.
fn say_hear_and_shut<R: Abort>(rt: &R, world: &Queues, ends: &mut QueueEnds)
    requires one { length world.now.small.items ≡ 1 }
    requires ends { AreQueueEndsOf world.now ends.old }
    ensures ends { AreQueueEndsOf world.now ends.new }
    ensures share { share_at ends.new.small.items 0 ≡ share_at ends.old.small.items 0 }
{
    let queue = QueueIndex::Small(0);
    assert!(rt; ends.say(world, queue, &[104, 105, 10], 0, &mut NoGate) == Ok(()));
    assert!(rt; ends.say(world, queue, &[33, 10], 0, &mut NoGate) == Ok(()));
    let mut room = LineRoom::new();
    assert!(rt; ends.hear(world, queue, &mut room, 0, &mut NoGate) == Ok(()));
    assert!(rt; room.line.as_slice() == [104, 105, 10].as_slice());
    assert!(rt; ends.shut(world, queue));
}

/// Joins the two ends of the only queue, and closes it.
fn join_and_close<R: Abort>(
    rt: &R,
    alloc: Global,
    queues: Vec<ClaimQueue<64>>,
    ends: Vec<QueueEnd<64>>,
    other: QueueEnd<64>,
) -> Vec<Closed<64>>
    requires one { length queues.items ≡ 1 }
    requires fit { AreEndsOf queues.items ends.items }
    requires at { IsEndAt queues.items 0 other }
    requires whole { IsWhole (share_at ends.items 0 + end_share other) }
{
    let mut ends = ends;
    join_at(queues.as_slice(), ends.as_mut_slice(), 0, other);
    let room = Vec::with_capacity(alloc, 1).expect(rt, "memory");
    close_queues(queues, ends, room)
}

/// A line that was said at the one end is heard at the other, and the two are one end at the close.
#[test]
fn closes_queues(rt: HostRuntime) -> Result<(), Fail> {
    let Shared { world, ends, other } = shared_queue(rt.alloc())?;
    let mut ends = ends;
    say_hear_and_shut(&rt, &world, &mut ends);
    let closed = join_and_close(&rt, rt.alloc(), world.small, ends.small, other);
    assert!(rt; closed.len() == 1);
    let [queue] = closed.as_slice() else {
        panic!(rt; "one")
    };
    assert!(rt; (queue.first, queue.put, queue.taken) == (0, 5, 3));
    assert!(rt; queue.left.as_slice() == [Some(33), Some(10)].as_slice());
    Ok(())
}

/// Says a line at the first of two small queues.
fn say_first<R: Abort>(rt: &R, world: &Queues, ends: &mut QueueEnds)
    requires two { length world.now.small.items ≡ 2 }
    requires ends { AreQueueEndsOf world.now ends.old }
    ensures { AreQueueEndsOf world.now ends.new }
{
    let said = ends.say(world, QueueIndex::Small(0), &[104, 10], 0, &mut NoGate);
    assert!(rt; said == Ok(()));
}

/// Pokes the only chain, and retires it.
fn poke_and_retire<R: Abort + Wait>(
    rt: &R,
    alloc: Global,
    world: &Queues,
    chains: Vec<ProcChain<AnyQuaject>>,
    ends: Vec<ChainEnd<AnyQuaject>>,
) -> Vec<Home>
    requires one { length chains.items ≡ 1 }
    requires fit { AreChainEndsOf chains.items ends.items }
    requires over { AreChainsOver world.now chains.items }
    requires whole { All IsOnlyEnd ends.items }
    ensures { All (FitsHome world.now) result.items }
{
    let mut ends = ends;
    let poked = poke(rt, world, chains.as_slice(), &mut ends, 0, 0, &mut NoGate);
    assert!(rt; poked.is_ok());
    let room = Vec::with_capacity(alloc, 1).expect(rt, "memory");
    retire_all(chains, ends, room)
}

/// Brings home what was retired: its numbers.
fn bring_each_home<R: Abort>(
    rt: &R,
    alloc: Global,
    world: &Queues,
    ends: &mut QueueEnds,
    homes: Vec<Home>,
) -> Vec<Came>
    requires ends { AreQueueEndsOf world.now ends.old }
    requires fits { All (FitsHome world.now) homes.items }
{
    let room = Vec::with_capacity(alloc, homes.len()).expect(rt, "memory");
    bring_all_home(world, ends, homes, room)
}

/// A pump that moved a line comes home with its numbers, and its ends are joined.
#[test]
fn retires_a_pump(rt: HostRuntime) -> Result<(), Fail> {
    let Whole {
        world,
        ends,
        chains,
        chain_ends,
    } = whole_pump(&rt, rt.alloc())?;
    let mut ends = ends;
    say_first(&rt, &world, &mut ends);
    let homes = poke_and_retire(&rt, rt.alloc(), &world, chains, chain_ends);
    assert!(rt; homes.len() == 1);
    let counts = bring_each_home(&rt, rt.alloc(), &world, &mut ends, homes);
    let [came] = counts.as_slice() else {
        panic!(rt; "one")
    };
    assert!(rt; (came.chained(), came.left(), came.notes()) == (1, 0, 1));
    assert!(rt; (came.taken(), came.put(), came.held()) == (2, 2, 0));
    Ok(())
}

/// Asserts that all elements are free and have done nothing.
fn assert_free<R: Abort>(rt: &R, places: &Places) {
    assert!(rt; places.places == [Place::Free; 64]);
    assert!(rt; places.pcs == [0; 64]);
    assert!(rt; places.pending == [0; 64]);
    assert!(rt; places.stops == 0);
}

#[test]
fn closes_tables(rt: HostRuntime) -> Result<(), Fail> {
    let (threads, hand) = ThreadTable::new(rt.alloc())?;
    assert_free(&rt, &close_threads(threads, hand));
    let (meters, mut seat) = Meters::new(rt.alloc(), 7)?;
    assert!(rt; meters.tick(&mut seat, 3, 5) == 0);
    assert!(rt; meters.advance(&mut seat) == Ok(8));
    let metered = close_meters(meters, seat);
    assert!(rt; metered.gauges == [0, 0, 0, 5, 0, 0, 0, 0]);
    assert!(rt; (metered.clock, metered.alarms.len()) == (8, 0));
    Ok(())
}
