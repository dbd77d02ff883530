//! Steps and moves that find no position left, and a clock with no tick left.
ghost use Rattle.std.specs.Prelude.{◌≤◌};

use super::stands::{Ways, first_station, make_queues, readied};
use super::*;
use std::test::*;

/// Element queues that have 64 positions left each, and a clock at 0.
const LAST: (u32, u32) = (4294967231, 0);

/// One queue that has positions left for two items, and no chain.
fn late_queue(alloc: Global) -> Result<Ways, OutOfMemory> {
    let (queue, end) = ClaimQueue::new(alloc, 4294967293)?;
    let mut queues = Vec::new(alloc);
    queues.push(queue)?;
    let mut small = Vec::new(alloc);
    small.push(end)?;
    Ok(Ways {
        queues: Queues {
            small: queues,
            large: Vec::new(alloc),
        },
        small,
        large: Vec::new(alloc),
        chains: Vec::new(alloc),
        ends: Vec::new(alloc),
    })
}

/// Runs this many turns of processor 0 over a plan and these queues, and compares the states of the first threads. The
/// element queues begin at this position, and the clock at this tick.
fn check_on<R: Abort + Wait>(
    rt: &R,
    alloc: Global,
    plan: BootPlan,
    begin: (u32, u32),
    ways: Ways,
    turns: u32,
    states: &[State],
) -> AtEnd
    requires { begin.0 ≤ 4294967231 }
{
    let p = processor(rt, 0);
    let Ok((shared, station)) = first_station(rt, alloc, plan, begin, ways) else {
        panic!(rt; "memory")
    };
    let station = readied(rt, &shared, station, p);
    let station = run(rt, &shared, station, p, turns, &mut NoGate);
    let ended = close_all(rt, shared, station.into_parts());
    check_states(rt, &ended, states);
    ended
}

/// Runs this many turns of processor 0 over a script, with queues at 0, and compares the states of the first threads.
fn check_late<R: Abort + Wait>(
    rt: &R,
    alloc: Global,
    script: &[u8],
    begin: (u32, u32),
    turns: u32,
    states: &[State],
) -> AtEnd
    requires { begin.0 ≤ 4294967231 }
{
    let plan = parse_boot(alloc, script).expect(rt, "script");
    let Ok(ways) = make_queues(alloc, plan.queues.as_slice().len()) else {
        panic!(rt; "memory")
    };
    check_on(rt, alloc, plan, begin, ways, turns, states)
}

fn held(done: u64) -> State {
    at(Place::Held, done)
}

const LATE_PIPE: &[u8] = b"synthesis 2
pipe p 0 1
thread a
say p x
say p
thread b
hear p
hear p
";

/// A say that finds no position left is refused for good. Its element doesn't wait at the pipe, but is tried again.
#[test]
fn says_past_the_last_position(rt: HostRuntime) {
    let plan = parse_boot(rt.alloc(), LATE_PIPE).expect(&rt, "script");
    let Ok(ways) = late_queue(rt.alloc()) else {
        panic!(rt; "memory")
    };
    let states = [ready(1), waits(0, 1)];
    let ended = check_on(&rt, rt.alloc(), plan, (0, 0), ways, 6, &states);
    assert!(rt; ended.heard.len() == 1);
}

const ONE_STEP: &[u8] = b"synthesis 1
thread a
pass
";

const NO_STEP: &[u8] = b"synthesis 1
thread a
";

/// If the free elements have no position left, an element that is to be retired stays in the hand. It doesn't matter
/// whether it had a turn or no step.
#[test]
fn held_in_place_of_retired(rt: HostRuntime) {
    check_late(&rt, rt.alloc(), ONE_STEP, LAST, 1, &[held(1)]);
    check_late(&rt, rt.alloc(), NO_STEP, LAST, 1, &[held(0)]);
    check_late(&rt, rt.alloc(), NO_STEP, LAST, 4, &[held(0)]);
}

const NOTHING_SAID: &[u8] = b"synthesis 1
queue q
thread a
hear q
";

/// The ready ring has 64 positions: one in which the element was first made ready, and one for each of 63 turns. After
/// the next turn the element stays in the hand.
#[test]
fn held_in_place_of_ready(rt: HostRuntime) {
    check_late(&rt, rt.alloc(), NOTHING_SAID, LAST, 63, &[ready(0)]);
    check_late(&rt, rt.alloc(), NOTHING_SAID, LAST, 64, &[held(0)]);
    check_late(&rt, rt.alloc(), NOTHING_SAID, LAST, 70, &[held(0)]);
}

const OLD_ALARM: &[u8] = b"synthesis 2
thread a
alarm 2 a 3
pass
pass
";

/// At its last tick the clock stays, and an alarm that is due fires all the same.
#[test]
fn last_tick(rt: HostRuntime) {
    let states = [signalled(ready(1), 8, 0)];
    let ended = check_late(&rt, rt.alloc(), OLD_ALARM, (0, 4294967295), 1, &states);
    let metered = &ended.metered;
    assert!(rt; (metered.clock, metered.alarms.len()) == (4294967295, 0));
}
