//! A station that is split for another processor, and joined again.
ghost use Rattle.std.specs.Prelude.{◌≡◌};
ghost use Rattle.turn_io.specs.EndLists.{AreEndsOf};
ghost use Rattle.processor.specs.Manning.{IsRunnable};
ghost use Rattle.stations.specs.Partings.{AreDivisible};
ghost use Rattle.processor.specs.Stations.{ArePartsOf};

use super::stands::{first_station, make_queues, readied};
use super::*;
use stations::split_station;
use std::test::*;

/// A station for one more processor, split off this one, with no element on the processor.
fn split_for<R: Abort>(
    rt: &R,
    alloc: Global,
    shared: &Shared,
    station: Station,
    q: Processor,
) -> (Station, Station)
    requires parts { ArePartsOf shared.now station.parts }
    requires divisible { AreDivisible station.parts }
    ensures heard { result.0.parts.heard ≡ station.parts.heard }
    ensures parts { ArePartsOf shared.now result.0.parts }
    ensures station { IsRunnable shared.now q result.1.parts }
{
    let mut station = freed(rt, station, q);
    let Ok(other) = split_station(alloc, shared, &mut station, 1 << q.number()) else {
        panic!(rt; "memory")
    };
    (station, freed(rt, other, q))
}

/// The objects that two processors of a plan without ttys, pumps and switches share, and the station of each: an
/// element is ready for each thread.
pub(super) fn stand_two<R: Abort + Wait>(
    rt: &R,
    alloc: Global,
    plan: BootPlan,
    p: Processor,
    q: Processor,
) -> (Shared, Station, Station)
    ensures { IsRunnable result.0 p result.1.parts × IsRunnable result.0 q result.2.parts }
{
    let Ok(ways) = make_queues(alloc, plan.queues.as_slice().len()) else {
        panic!(rt; "memory")
    };
    let Ok((shared, first)) = first_station(rt, alloc, plan, (0, 0), ways) else {
        panic!(rt; "memory")
    };
    let (first, other) = split_for(rt, alloc, &shared, first, q);
    let one = readied(rt, &shared, first, p);
    (shared, one, other)
}

/// Closes the last queue of a list: how many items were put, and taken, and are left.
fn close_last<R: Abort>(
    rt: &R,
    queues: Vec<ClaimQueue<64>>,
    ends: Vec<QueueEnd<64>>,
) -> (u32, u32, usize)
    requires { AreEndsOf queues.items ends.items }
{
    let (mut queues, mut ends) = (queues, ends);
    let (Some(queue), Some(end)) = (queues.pop(), ends.pop()) else {
        panic!(rt; "a queue")
    };
    let Ok(closed) = queue.close(end) else {
        panic!(rt; "queue")
    };
    (closed.put, closed.taken, closed.left.len())
}

const BOTH: &[u8] = b"synthesis 2
queue q
gauge g
thread a
say q xy
thread b
hear q
tick g 3
more a
signal b 4
tick g 2
";

/// The work of two stations is in one once they are joined: the line that the one said and the other heard, the signal
/// that the other delivered, and the ticks of both. The line that the other heard is returned; and all closes.
#[test]
fn split_and_joined(rt: HostRuntime) {
    let plan = parse_boot(rt.alloc(), BOTH).expect(&rt, "script");
    let (p, q) = (processor(&rt, 0), processor(&rt, 1));
    let (shared, one, other) = stand_two(&rt, rt.alloc(), plan, p, q);
    let one = run(&rt, &shared, one, p, 1, &mut NoGate);
    let other = run(&rt, &shared, other, q, 1, &mut NoGate);
    let one = run(&rt, &shared, one, p, 1, &mut NoGate);
    let other = run(&rt, &shared, other, q, 1, &mut NoGate);
    let one = run(&rt, &shared, one, p, 1, &mut NoGate);
    let (mut one, heard, mask) = reported(one, 1);
    assert!(rt; (heard, mask) == (0, 0));
    let (other, heard, mask) = reported(other, 1);
    assert!(rt; (heard, mask) == (1, 16));
    let lines = join_station(&shared, &mut one, other);
    check_lines(&rt, &lines, &[(1, 0, b"xy\n")]);
    let ended = close_all(&rt, shared, one.into_parts());
    assert!(rt; ended.heard.len() == 0);
    let other = signalled(at(Place::Free, 2), 16, 0);
    check_states(&rt, &ended, &[at(Place::Free, 3), other]);
    assert!(rt; ended.metered.gauges[0] == 5);
    assert!(rt; close_last(&rt, ended.queues, ended.ends) == (3, 3, 0));
}
