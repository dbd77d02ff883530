ghost use Rattle.std.specs.Prelude.{◌≡◌};
ghost use Rattle.batch_queue.specs.Handles.{IsEndOf};

use crate::fixtures::{Room, close_queue, is_printed, new_queue};
use crate::rows::*;
use crate::scripts::{Act, Script, does, plays, plays_in_turn};
use batch_queue::*;
use event_theory::OutOfMemory;
use std::alloc::Global;
use std::process::Abort;
use std::sync::Wait;
use std::test::*;

fn plays_all<R: Abort + Wait>(rt: &R, alloc: Global, scripts: &[Script]) {
    for script in scripts {
        plays(rt, alloc, script);
        plays_in_turn(rt, alloc, script);
    }
}

#[test]
fn edges_of_one_and_two_places(rt: HostRuntime) {
    plays_all(&rt, rt.alloc(), EDGES_OF_1);
    plays_all(&rt, rt.alloc(), EDGES_OF_2);
}

#[test]
fn whole_batches_in_one_and_two_places(rt: HostRuntime) {
    plays_all(&rt, rt.alloc(), WHOLE_OF_1);
    plays_all(&rt, rt.alloc(), WHOLE_OF_2);
}

#[test]
fn buffers_at_one_and_two_places(rt: HostRuntime) {
    plays_all(&rt, rt.alloc(), BUFFERS_OF_1);
    plays_all(&rt, rt.alloc(), BUFFERS_OF_2);
}

#[test]
fn shut_queues_of_one_and_two_places(rt: HostRuntime) {
    plays_all(&rt, rt.alloc(), SHUT_OF_1);
    plays_all(&rt, rt.alloc(), SHUT_OF_2);
}

#[test]
fn parts_in_one_and_two_places(rt: HostRuntime) {
    plays_all(&rt, rt.alloc(), PARTED_OF_1);
    plays_all(&rt, rt.alloc(), PARTED_OF_2);
}

#[test]
fn takings_by_twos_of_one_and_two_places(rt: HostRuntime) {
    plays_all(&rt, rt.alloc(), BY_TWOS_OF_1);
    plays_all(&rt, rt.alloc(), BY_TWOS_OF_2);
}

#[test]
fn edges_of_four_places(rt: HostRuntime) {
    plays_all(&rt, rt.alloc(), EDGES_OF_4);
}

#[test]
fn whole_batches_in_four_places(rt: HostRuntime) {
    plays_all(&rt, rt.alloc(), WHOLE_OF_4);
}

#[test]
fn buffers_at_four_places(rt: HostRuntime) {
    plays_all(&rt, rt.alloc(), BUFFERS_OF_4);
}

#[test]
fn shut_queues_of_four_places(rt: HostRuntime) {
    plays_all(&rt, rt.alloc(), SHUT_OF_4);
}

#[test]
fn parts_in_four_places(rt: HostRuntime) {
    plays_all(&rt, rt.alloc(), PARTED_OF_4);
}

#[test]
fn takings_by_twos_of_four_places(rt: HostRuntime) {
    plays_all(&rt, rt.alloc(), BY_TWOS_OF_4);
}

#[test]
fn edges_of_eight_places(rt: HostRuntime) {
    plays_all(&rt, rt.alloc(), EDGES_OF_8);
}

#[test]
fn whole_batches_in_eight_places(rt: HostRuntime) {
    plays_all(&rt, rt.alloc(), WHOLE_OF_8);
}

#[test]
fn buffers_at_eight_places(rt: HostRuntime) {
    plays_all(&rt, rt.alloc(), BUFFERS_OF_8);
}

#[test]
fn shut_queues_of_eight_places(rt: HostRuntime) {
    plays_all(&rt, rt.alloc(), SHUT_OF_8);
}

#[test]
fn parts_in_eight_places(rt: HostRuntime) {
    plays_all(&rt, rt.alloc(), PARTED_OF_8);
}

#[test]
fn takings_by_twos_of_eight_places(rt: HostRuntime) {
    plays_all(&rt, rt.alloc(), BY_TWOS_OF_8);
}

/// The calls of an end before it is dropped.
const PUT_AND_TAKEN: [Act; 2] = [Act::PutSome(&[7, 8], Ok((0, 2))), Act::Take(2, Ok(&[7, 8]))];

/// The calls of another end after that.
const PUT_AND_TAKEN_AGAIN: [Act; 4] = [
    Act::Len(0),
    Act::PutSome(&[1, 2, 3, 4, 5], Ok((2, 4))),
    Act::Put(&[6], Err(PutRefusal::Full { head: 6, free: 2 })),
    Act::Take(4, Ok(&[1, 2, 3, 4])),
];

/// The close is refused: the queue and the end come back, with the number of the other ends.
fn must_be_open<R: Abort>(rt: &R, queue: BatchQueue, end: BatchEnd) -> (BatchQueue, BatchEnd, u64)
    requires { IsEndOf queue end }
    ensures { (result.0 ≡ queue) × IsEndOf result.0 result.1 }
{
    match queue.close(end) {
        Ok(_closed) => panic!(rt; "open"),
        Err((queue, end, open)) => (queue, end, open.others),
    }
}

#[test]
fn open_ends(rt: HostRuntime) {
    let (queue, mut a) = new_queue(&rt, rt.alloc(), Room::Of4);
    let b = queue.split(&mut a);
    let c = queue.split(&mut a);
    let (queue, mut a, two) = must_be_open(&rt, queue, a);
    queue.join(&mut a, b);
    let (queue, mut a, one) = must_be_open(&rt, queue, a);
    assert!(rt; (two, one) == (2, 1));
    queue.join(&mut a, c);
    let closed = close_queue(&rt, queue, a);
    assert!(rt; (closed.put, closed.taken, closed.left.len()) == (0, 0, 0));
}

const LOOKS: Script = Script {
    room: Room::Of4,
    acts: &[
        Act::Look(0, 0, 0, false),
        Act::Put(&[1, 2], Ok(0)),
        Act::Look(0, 2, 2, false),
        Act::Put(&[3], Ok(2)),
        Act::Look(0, 3, 3, false),
        Act::Take(2, Ok(&[1, 2])),
        Act::Look(2, 3, 3, false),
        // A full ring, whose window begins at 2.
        Act::Put(&[4, 5, 6], Ok(3)),
        Act::Look(2, 6, 6, false),
        // A batch that is parted.
        Act::TakeSome(2, Ok(&[3, 4])),
        Act::Look(4, 6, 6, false),
        Act::Shut(true),
        Act::Look(4, 6, 6, true),
        Act::Take(4, Ok(&[5, 6])),
        Act::Look(6, 6, 6, true),
    ],
    put: 6,
    taken: 6,
    left: &[],
};

/// A look finds the tail, how far items are published, the head, and whether the queue is shut.
#[test]
fn looks(rt: HostRuntime) {
    plays(&rt, rt.alloc(), &LOOKS);
}

/// If an end is dropped, the others go on with the queue, and it can't be closed any more.
#[test]
fn dropped_end(rt: HostRuntime) {
    let (queue, mut a) = new_queue(&rt, rt.alloc(), Room::Of4);
    let mut b = queue.split(&mut a);
    let mut dropped = queue.split(&mut a);
    does(&rt, &queue, &mut dropped, &PUT_AND_TAKEN);
    drop(dropped);
    does(&rt, &queue, &mut b, &PUT_AND_TAKEN_AGAIN);
    let (queue, mut a, two) = must_be_open(&rt, queue, a);
    queue.join(&mut a, b);
    let (queue, mut a, one) = must_be_open(&rt, queue, a);
    assert!(rt; (two, one) == (2, 1));
    does(
        &rt,
        &queue,
        &mut a,
        &[
            Act::Put(&[9], Ok(6)),
            Act::Take(1, Ok(&[9])),
            Act::Shut(true),
            Act::Take(1, Err(TakeRefusal::Closed)),
        ],
    );
    let (_queue, _end, one) = must_be_open(&rt, queue, a);
    assert!(rt; one == 1);
}

/// If all ends are joined, the close succeeds: it is proved that no other answer comes, and not tried.
fn split_and_joined(alloc: Global) -> Result<Closed, OutOfMemory> {
    let (queue, mut a) = BatchQueue::new(alloc, Room::Of4.places())?;
    let b = queue.split(&mut a);
    let c = queue.split(&mut a);
    queue.join(&mut a, b);
    queue.join(&mut a, c);
    match queue.close(a) {
        Ok(closed) => Ok(closed),
        Err(_) => unreachable!(),
    }
}

#[test]
fn joined_ends_close(rt: HostRuntime) {
    let Ok(closed) = split_and_joined(rt.alloc()) else {
        panic!(rt; "no memory")
    };
    assert!(rt; (closed.put, closed.taken, closed.left.len()) == (0, 0, 0));
}

/// If an allocation is refused, there is no queue, and a later try makes one.
#[test]
fn memory_may_run_out(rt: HostRuntime) {
    let mut made = false;
    for _ in 0..3 {
        match BatchQueue::new(rt.alloc(), Room::Of4.places()) {
            Ok((queue, mut end)) => {
                does(&rt, &queue, &mut end, &PUT_AND_TAKEN);
                made = true;
            }
            Err(error) => assert!(rt; error == OutOfMemory),
        }
    }
    assert!(rt; made);
}

const PUT_WORDS: &[(PutRefusal, &str)] = &[
    (PutRefusal::NoItems, "no items"),
    (PutRefusal::TooLong, "more items than places"),
    (PutRefusal::Closed, "the queue is shut"),
    (PutRefusal::Spent, "no positions left"),
    (
        PutRefusal::Full { head: 9, free: 5 },
        "full at head 9, free 5",
    ),
    (PutRefusal::Lost { head: 8 }, "lost, head 8"),
];

const TAKE_WORDS: &[(TakeRefusal, &str)] = &[
    (TakeRefusal::Empty { at: 6 }, "nothing published at 6"),
    (
        TakeRefusal::ShortBuffer { at: 3, count: 4 },
        "a batch of 4 at 3",
    ),
    (TakeRefusal::Lost { tail: 7 }, "lost, tail 7"),
    (TakeRefusal::Closed, "the queue is shut and empty"),
];

/// Two refusals are equal exactly if they are the same, with the same numbers.
#[test]
fn refusals_are_compared(rt: HostRuntime) {
    for (at, (one, _)) in PUT_WORDS.iter().enumerate() {
        for (place, (other, _)) in PUT_WORDS.iter().enumerate() {
            assert!(rt; (one == other) == (at == place));
        }
    }
    for (at, (one, _)) in TAKE_WORDS.iter().enumerate() {
        for (place, (other, _)) in TAKE_WORDS.iter().enumerate() {
            assert!(rt; (one == other) == (at == place));
        }
    }
    assert!(rt; PutRefusal::Full { head: 9, free: 5 } != PutRefusal::Full { head: 9, free: 6 });
    assert!(rt; PutRefusal::Lost { head: 8 } != PutRefusal::Lost { head: 9 });
    assert!(rt; TakeRefusal::Empty { at: 6 } != TakeRefusal::Empty { at: 7 });
    assert!(rt;
        TakeRefusal::ShortBuffer { at: 3, count: 4 } != TakeRefusal::ShortBuffer { at: 3, count: 5 }
    );
}

/// Each refusal is printed in its words, with its numbers.
#[test]
fn refusals_are_printed(rt: HostRuntime) {
    for (refusal, words) in PUT_WORDS {
        assert!(rt; is_printed(rt.alloc(), *refusal, words));
    }
    for (refusal, words) in TAKE_WORDS {
        assert!(rt; is_printed(rt.alloc(), *refusal, words));
    }
    let open = OpenEnds { others: 3 };
    assert!(rt; is_printed(rt.alloc(), open, "3 other ends are not joined"));
}
