ghost use Rattle.std.specs.Prelude.{◌≡◌, length};
ghost use Rattle.std.specs.List.{All};
ghost use Rattle.turn_io.specs.EndLists.{AreEndsOf, AreChainEndsOf, AreChainsOver, IsDivisible, IsChainDivisible};
ghost use Rattle.turn_io.specs.QueueEnds.{AreQueueEndsOf};

use super::fixtures::{
    Chain, End, Poker, Pumped, Recorder, SIXTY_FOUR, TwoQueues, Watcher, close_queue, make_pump,
    pokes_by, pokes_it, puts, puts_by, room_for, shuts_it, takes, takes_by, turn_for, two_queues,
};
use arrayvec::ArrayVec;
use boot_data::plan::QueueIndex;
use claim_queue::{ClaimQueue, ClaimRefusal, QueueEnd, TakeRefusal};
use event_theory::OutOfMemory;
use proc_chain::ChainRefusal;
use quajects::Queues;
use stations::*;
use std::alloc::Global;
use std::panic::Expect;
use std::process::Abort;
use std::sync::Wait;
use std::test::*;
use turn_io::*;

/// The first and the second small queue, and the first large one.
const FIRST: QueueIndex = QueueIndex::Small(0);

const SECOND: QueueIndex = QueueIndex::Small(1);

const LARGE: QueueIndex = QueueIndex::Large(0);

/// A line goes through one queue, by one end.
#[test]
fn says_and_hears_at_one_end(rt: HostRuntime) {
    let (queue, mut end) = ClaimQueue::<64>::new(rt.alloc(), 0).expect(&rt, "memory");
    let mut gate = Recorder::new(rt.alloc());
    assert!(rt; say(&queue, &mut end, &[104, 10], 3, &mut gate) == Ok(()));
    let mut line = ArrayVec::new();
    assert!(rt; hear(&queue, &mut end, &mut line, 4, &mut gate) == Ok(()));
    assert!(rt; line.as_slice() == [104, 10].as_slice());
    let points = [
        (3, Point::Claimed),
        (3, Point::Raised),
        (4, Point::TakeAnswered),
    ];
    assert!(rt; gate.points.as_slice() == points.as_slice());
}

#[test]
fn says_and_hears(rt: HostRuntime) {
    let TwoQueues { world, ends } = two_queues(&rt, rt.alloc());
    let mut ends = ends;
    let mut gate = Recorder::new(rt.alloc());
    assert!(rt; puts_by(&world, &mut ends, SECOND, &[104, 105, 10], 3, &mut gate) == Ok(()));
    let none = takes_by(&world, &mut ends, FIRST, &[], 4, &mut gate);
    assert!(rt; none == (Err(TakeRefusal::Empty { at: 0 }), true));
    let heard = takes_by(&world, &mut ends, SECOND, &[104, 105, 10], 3, &mut gate);
    assert!(rt; heard == (Ok(()), true));
    let points = [
        (3, Point::Claimed),
        (3, Point::Raised),
        (4, Point::TakeAnswered),
        (3, Point::TakeAnswered),
    ];
    assert!(rt; gate.points.as_slice() == points.as_slice());
}

/// A line is said in the second queue: the watcher finds it claimed and not raised, and then raised.
fn watch_a_say<R: Abort>(rt: &R, world: &Queues, ends: &mut QueueEnds, gate: &mut Watcher)
    requires two { length world.now.small.items ≡ 2 }
    requires ends { AreQueueEndsOf world.now ends.old }
    ensures { AreQueueEndsOf world.now ends.new }
{
    assert!(rt; puts_by(world, ends, SECOND, &[104, 105, 10], 0, gate) == Ok(()));
    let full = Err(ClaimRefusal::Full { head: 3, tail: 0 });
    let between = [
        (Point::Claimed, full, Err(TakeRefusal::Empty { at: 0 }), 0),
        (Point::Raised, full, Ok(()), 3),
    ];
    assert!(rt; gate.seen.as_slice() == between.as_slice());
}

/// A line is heard from the second queue: the watcher finds it taken.
fn watch_a_hear<R: Abort>(rt: &R, world: &Queues, ends: &mut QueueEnds, gate: &mut Watcher)
    requires two { length world.now.small.items ≡ 2 }
    requires ends { AreQueueEndsOf world.now ends.old }
    ensures { AreQueueEndsOf world.now ends.new }
{
    gate.seen.clear();
    assert!(rt; takes_by(world, ends, SECOND, &[10], 0, gate) == (Ok(()), true));
    let following = [(Point::TakeAnswered, Ok(()), Ok(()), 64)];
    assert!(rt; gate.seen.as_slice() == following.as_slice());
}

/// Other ends find the line claimed and not raised, then raised; and then a line taken.
#[test]
fn gate_between_the_parts(rt: HostRuntime) {
    let TwoQueues { world, ends } = two_queues(&rt, rt.alloc());
    let mut ends = ends;
    let room = room_for(&rt, rt.alloc(), &world);
    let others = split_queue_ends_into(&world, &mut ends, room);
    let mut gate = Watcher {
        world: &world,
        ends: others,
        small: 1,
        seen: Vec::new(rt.alloc()),
    };
    watch_a_say(&rt, &world, &mut ends, &mut gate);
    assert!(rt; puts(&world, &mut ends, SECOND, &[10]) == Ok(()));
    watch_a_hear(&rt, &world, &mut ends, &mut gate);
}

/// As many items as a large queue has places.
const FULL: &[u64] = &[7; 256];

#[test]
fn large_queues(rt: HostRuntime) {
    let TwoQueues { world, ends } = two_queues(&rt, rt.alloc());
    let mut ends = ends;
    assert!(rt; puts(&world, &mut ends, LARGE, FULL) == Ok(()));
    assert!(rt; puts(&world, &mut ends, FIRST, FULL) == Err(ClaimRefusal::TooLong));
    assert!(rt; takes(&world, &mut ends, LARGE, FULL));
}

/// One item more than a small queue has places.
const TOO_LONG: &[u64] = &[7; 65];

#[test]
fn refused_lines(rt: HostRuntime) {
    let TwoQueues { world, ends } = two_queues(&rt, rt.alloc());
    let mut ends = ends;
    let mut gate = Recorder::new(rt.alloc());
    assert!(rt; puts_by(&world, &mut ends, FIRST, SIXTY_FOUR, 0, &mut gate) == Ok(()));
    let full = puts_by(&world, &mut ends, FIRST, &[10], 0, &mut gate);
    assert!(rt; full == Err(ClaimRefusal::Full { head: 64, tail: 0 }));
    let long = puts_by(&world, &mut ends, SECOND, TOO_LONG, 0, &mut gate);
    assert!(rt; long == Err(ClaimRefusal::TooLong));
    let empty = puts_by(&world, &mut ends, SECOND, &[], 0, &mut gate);
    assert!(rt; empty == Err(ClaimRefusal::NoItems));
    assert!(rt; gate.points.len() == 2);
}

#[test]
fn shuts(rt: HostRuntime) {
    let TwoQueues { world, ends } = two_queues(&rt, rt.alloc());
    let mut ends = ends;
    assert!(rt; shuts_it(&world, &mut ends, SECOND));
    assert!(rt; !shuts_it(&world, &mut ends, SECOND));
    assert!(rt; puts(&world, &mut ends, SECOND, &[10]) == Err(ClaimRefusal::Closed));
    let heard = takes_by(&world, &mut ends, SECOND, &[], 0, &mut NoGate);
    assert!(rt; heard == (Err(TakeRefusal::Closed), true));
    assert!(rt; puts(&world, &mut ends, FIRST, &[10]) == Ok(()));
    assert!(rt; shuts_it(&world, &mut ends, LARGE));
    assert!(rt; puts(&world, &mut ends, LARGE, &[10]) == Err(ClaimRefusal::Closed));
}

/// A pump moves the line that was said; without a line it runs its note all the same.
#[test]
fn pokes(rt: HostRuntime) {
    let Pumped {
        world,
        ends,
        chains,
        chain_ends,
        other: _,
    } = make_pump(rt.alloc()).expect(&rt, "memory");
    let (mut ends, mut chain_ends) = (ends, chain_ends);
    let mut gate = Recorder::new(rt.alloc());
    let list = chains.as_slice();
    assert!(rt; puts(&world, &mut ends, FIRST, &[104, 10]) == Ok(()));
    let poked = pokes_by(&rt, &world, list, &mut chain_ends, 5, &mut gate);
    assert!(rt; poked == Ok(Poked::Ran { notes: 1 }));
    assert!(rt; takes(&world, &mut ends, SECOND, &[104, 10]));
    let poked = pokes_by(&rt, &world, list, &mut chain_ends, 5, &mut gate);
    assert!(rt; poked == Ok(Poked::Ran { notes: 1 }));
    let points = [(5, Point::Chained), (5, Point::Chained)];
    assert!(rt; gate.points.as_slice() == points.as_slice());
}

/// Pokes this often, and returns the number of notes that were left to another end.
fn left_to_another<R: Wait>(
    rt: &R,
    world: &Queues,
    chains: &[Chain],
    ends: &mut Vec<End>,
    count: u32,
) -> u32
    requires ends { AreChainEndsOf chains.now ends.old.items × (length chains.now ≡ 1) }
    requires world { AreChainsOver world.now chains.now }
    ensures { AreChainEndsOf chains.now ends.new.items }
{
    let mut left = 0u32;
    for _ in 0..count {
        if pokes_it(rt, world, chains, ends) == Ok(Poked::Left) {
            left = left.wrapping_add(1);
        }
    }
    left
}

/// Another end has the Turn: 31 more notes are left to it, the next finds the chain full, and it runs all 32.
#[test]
fn left_and_full(rt: HostRuntime) {
    let Pumped {
        world,
        ends: _,
        chains,
        chain_ends,
        other,
    } = make_pump(rt.alloc()).expect(&rt, "memory");
    let (mut chain_ends, mut other) = (chain_ends, other);
    let list = chains.as_slice();
    let chain = &list[0];
    let turn = turn_for(&rt, chain, &mut other, 9);
    let left = left_to_another(&rt, &world, list, &mut chain_ends, 31);
    let poked = pokes_it(&rt, &world, list, &mut chain_ends);
    let ran = chain.serve_all(&rt, &mut other, &world, turn);
    assert!(rt; (left, ran) == (31, 32));
    assert!(rt; poked == Err(ChainRefusal::Full { head: 32, tail: 0 }));
    let poked = pokes_it(&rt, &world, list, &mut chain_ends);
    assert!(rt; poked == Ok(Poked::Ran { notes: 1 }));
}

/// The gate is called when the note is chained and the Turn isn't served: a note of another end is left to it, and then
/// it runs both.
#[test]
fn gate_before_the_turn(rt: HostRuntime) {
    let Pumped {
        world,
        ends: _,
        chains,
        chain_ends,
        other: _,
    } = make_pump(rt.alloc()).expect(&rt, "memory");
    let mut chain_ends = chain_ends;
    let list = chains.as_slice();
    let others = split_chain_ends(rt.alloc(), list, &mut chain_ends).expect(&rt, "memory");
    let mut gate = Poker {
        rt: &rt,
        world: &world,
        chains: list,
        ends: others,
        poked: Vec::new(rt.alloc()),
    };
    let poked = pokes_by(&rt, &world, list, &mut chain_ends, 5, &mut gate);
    assert!(rt; poked == Ok(Poked::Ran { notes: 2 }));
    let left = [Ok(Poked::Left)];
    assert!(rt; gate.poked.as_slice() == left.as_slice());
}

/// A line that is said at the other ends is heard at these, and all ends are joined again.
#[test]
fn splits_and_joins(rt: HostRuntime) {
    let TwoQueues { world, ends } = two_queues(&rt, rt.alloc());
    let mut ends = ends;
    let room = room_for(&rt, rt.alloc(), &world);
    let mut others = split_queue_ends_into(&world, &mut ends, room);
    assert!(rt; (others.small.len(), others.large.len()) == (2, 2));
    assert!(rt; puts(&world, &mut others, SECOND, &[104, 10]) == Ok(()));
    assert!(rt; takes(&world, &mut ends, SECOND, &[104, 10]));
    join_queue_ends(&world, &mut ends, others);
    let (mut queues, mut ends) = (world.small, ends.small);
    let (Some(queue), Some(end)) = (queues.pop(), ends.pop()) else {
        panic!(rt; "two")
    };
    let closed = close_queue(&rt, queue, end);
    assert!(rt; (closed.put, closed.taken, closed.left.len()) == (2, 2, 0));
}

/// With ample memory each chain gets another end, which pokes as the first does, and is joined again.
#[test]
fn chain_ends_split_and_joined(rt: HostRuntime) {
    let Pumped {
        world,
        ends: _,
        chains,
        chain_ends,
        other: _,
    } = make_pump(rt.alloc()).expect(&rt, "memory");
    let mut chain_ends = chain_ends;
    let list = chains.as_slice();
    let Ok(others) = split_chain_ends(rt.alloc(), list, &mut chain_ends) else {
        panic!(rt; "ample memory")
    };
    let mut others = others;
    assert!(rt; others.len() == 1);
    let poked = pokes_it(&rt, &world, list, &mut others);
    assert!(rt; poked == Ok(Poked::Ran { notes: 1 }));
    join_chain_ends(list, &mut chain_ends, others);
    assert!(rt; chain_ends.len() == 1);
    let poked = pokes_it(&rt, &world, list, &mut chain_ends);
    assert!(rt; poked == Ok(Poked::Ran { notes: 1 }));
}

/// Splits the ends and joins them again. If an allocation is refused, the ends are unchanged, and go on.
fn ends_split_or_not<R: Abort>(
    rt: &R,
    alloc: Global,
    queues: &[ClaimQueue<64>],
    ends: &mut Vec<QueueEnd<64>>,
)
    requires { AreEndsOf queues.now ends.old.items × All IsDivisible ends.old.items }
    ensures { AreEndsOf queues.now ends.new.items }
{
    match split_ends(alloc, queues, ends) {
        Ok(others) => join_ends(queues, ends, others),
        Err(error) => assert!(rt; error == OutOfMemory),
    }
}

/// Splits the ends of chains and joins them again. If an allocation is refused, the ends are unchanged, and go on.
fn chain_ends_split_or_not<R: Abort>(rt: &R, alloc: Global, chains: &[Chain], ends: &mut Vec<End>)
    requires { AreChainEndsOf chains.now ends.old.items × All IsChainDivisible ends.old.items }
    ensures { AreChainEndsOf chains.now ends.new.items }
{
    match split_chain_ends(alloc, chains, ends) {
        Ok(others) => join_chain_ends(chains, ends, others),
        Err(error) => assert!(rt; error == OutOfMemory),
    }
}

fn split_and_poke<R: Abort + Wait>(rt: &R, alloc: Global, pumped: Pumped) {
    let Pumped {
        world,
        ends,
        chains,
        chain_ends,
        other: _,
    } = pumped;
    let (mut ends, mut chain_ends) = (ends, chain_ends);
    let list = chains.as_slice();
    ends_split_or_not(rt, alloc, world.small.as_slice(), &mut ends.small);
    assert!(rt; puts(&world, &mut ends, FIRST, &[10]) == Ok(()));
    chain_ends_split_or_not(rt, alloc, list, &mut chain_ends);
    assert!(rt; pokes_it(rt, &world, list, &mut chain_ends) == Ok(Poked::Ran { notes: 1 }));
}

#[test]
fn memory_may_run_out(rt: HostRuntime) {
    let mut made = false;
    for _ in 0..12u8 {
        match make_pump(rt.alloc()) {
            Ok(pumped) => {
                split_and_poke(&rt, rt.alloc(), pumped);
                made = true;
            }
            Err(error) => assert!(rt; error == OutOfMemory),
        }
    }
    assert!(rt; made);
}
