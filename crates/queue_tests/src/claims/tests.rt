ghost use Rattle.claim_queue.specs.Handles.{IsEndOf};

use crate::claims::scripts::{Act, Four, Script, closes, does, new_four, plays};
use crate::fixtures::is_reported;
use arrayvec::ArrayVec;
use claim_queue::*;
use event_theory::OutOfMemory;
use std::alloc::Global;
use std::process::Abort;
use std::test::*;

// The example of the crate's first page.
#[test]
fn example(rt: HostRuntime) -> Result<(), Fail> {
    let (queue, mut taker) = ClaimQueue::<4>::new(rt.alloc(), 0)?;
    let mut putter = queue.split(&mut taker);
    assert!(rt; queue.try_put(&mut putter, &[104, 105, 10]) == Ok(0));
    let full = ClaimRefusal::Full { head: 3, tail: 0 };
    assert!(rt; queue.try_put(&mut putter, &[33, 10]) == Err(full));
    let mut line = ArrayVec::new();
    assert!(rt; queue.try_take_line(&mut taker, &mut line) == Ok(3));
    assert!(rt; line.as_slice() == [104, 105, 10].as_slice());
    assert!(rt; queue.shut(&mut putter));
    assert!(rt; queue.try_put(&mut putter, &[33]) == Err(ClaimRefusal::Closed));
    assert!(rt; queue.try_take(&mut taker) == Err(TakeRefusal::Closed));
    queue.join(&mut taker, putter);
    let Ok(closed) = queue.close(taker) else {
        panic!(rt; "open ends")
    };
    assert!(rt; (closed.put, closed.taken) == (3, 3));
    Ok(())
}

const ONE_END_ALONE: Script = Script {
    first: 0,
    acts: &[
        Act::Put(&[10, 11], Ok(0)),
        Act::Put(&[12, 13], Ok(2)),
        Act::Put(&[14], Err(ClaimRefusal::Full { head: 4, tail: 0 })),
        Act::Take(Ok(10)),
        Act::Put(&[14], Ok(4)),
        Act::Put(&[], Err(ClaimRefusal::NoItems)),
        Act::Put(&[1, 2, 3, 4, 5], Err(ClaimRefusal::TooLong)),
        Act::Take(Ok(11)),
        Act::Take(Ok(12)),
        Act::Take(Ok(13)),
        Act::Take(Ok(14)),
        Act::Take(Err(TakeRefusal::Empty { at: 5 })),
        Act::Put(&[1, 2, 3, 4], Ok(5)),
        Act::Put(&[5], Err(ClaimRefusal::Full { head: 9, tail: 5 })),
    ],
    put: 9,
    taken: 5,
    left: &[Some(1), Some(2), Some(3), Some(4)],
};

/// In an empty queue, and in the same queue when it is full.
const RUNS_THAT_NEVER_FIT: Script = Script {
    first: 0,
    acts: &[
        Act::Put(&[], Err(ClaimRefusal::NoItems)),
        Act::Put(&[1, 2, 3, 4, 5], Err(ClaimRefusal::TooLong)),
        Act::Take(Err(TakeRefusal::Empty { at: 0 })),
        Act::Put(&[10, 11], Ok(0)),
        Act::Put(&[12, 13], Ok(2)),
        Act::Put(&[14], Err(ClaimRefusal::Full { head: 4, tail: 0 })),
        Act::Put(&[], Err(ClaimRefusal::NoItems)),
        Act::Put(&[1, 2, 3, 4, 5], Err(ClaimRefusal::TooLong)),
    ],
    put: 4,
    taken: 0,
    left: &[Some(10), Some(11), Some(12), Some(13)],
};

const RUNS_THAT_NEVER_FIT_AGAIN: Script = Script {
    first: 0,
    acts: &[
        Act::Put(&[1, 2, 10], Ok(0)),
        Act::Line(Ok(3), &[1, 2, 10]),
        Act::Put(&[], Err(ClaimRefusal::NoItems)),
        Act::Put(&[3, 4, 5, 6, 7], Err(ClaimRefusal::TooLong)),
        Act::PutAgain(&[], Err(ClaimRefusal::NoItems)),
        Act::PutAgain(&[3, 4, 5, 6, 7], Err(ClaimRefusal::TooLong)),
        Act::Take(Err(TakeRefusal::Empty { at: 3 })),
        Act::Put(&[3, 4, 5, 6], Ok(3)),
    ],
    put: 7,
    taken: 3,
    left: &[Some(3), Some(4), Some(5), Some(6)],
};

const SPENT_BEFORE_FULL: Script = Script {
    first: 4_294_967_291,
    acts: &[
        Act::Put(&[1, 2, 3, 4], Ok(4_294_967_291)),
        Act::Put(&[5], Err(ClaimRefusal::Spent)),
    ],
    put: 4,
    taken: 0,
    left: &[Some(1), Some(2), Some(3), Some(4)],
};

const PUT_ALONE: Script = Script {
    first: 0,
    acts: &[
        Act::PutAgain(&[1], Ok(0)),
        Act::PutAgain(&[1, 2, 3, 4, 5], Err(ClaimRefusal::TooLong)),
    ],
    put: 1,
    taken: 0,
    left: &[Some(1)],
};

const LAST_POSITIONS: Script = Script {
    first: 4_294_967_292,
    acts: &[
        Act::Put(&[1, 2, 3, 4], Err(ClaimRefusal::Spent)),
        Act::Put(&[1, 2, 3], Ok(4_294_967_292)),
        Act::Put(&[4], Err(ClaimRefusal::Spent)),
        Act::Take(Ok(1)),
        Act::Take(Ok(2)),
        Act::Take(Ok(3)),
        Act::Take(Err(TakeRefusal::Empty { at: 4_294_967_295 })),
        Act::Put(&[4], Err(ClaimRefusal::Spent)),
    ],
    put: 3,
    taken: 3,
    left: &[],
};

const LINES: Script = Script {
    first: 0,
    acts: &[
        Act::Put(&[97, 10, 98], Ok(0)),
        Act::Line(Ok(2), &[97, 10]),
        Act::Line(Err(TakeRefusal::Empty { at: 3 }), &[]),
        Act::Put(&[99, 100, 101], Ok(3)),
        Act::Line(Ok(4), &[98, 99, 100, 101]),
        Act::Line(Err(TakeRefusal::Empty { at: 6 }), &[]),
    ],
    put: 6,
    taken: 6,
    left: &[],
};

const SHUT_QUEUE: Script = Script {
    first: 0,
    acts: &[
        Act::Put(&[1, 2], Ok(0)),
        Act::Shut(true),
        Act::Shut(false),
        Act::Put(&[3], Err(ClaimRefusal::Closed)),
        Act::Put(&[], Err(ClaimRefusal::NoItems)),
        Act::Take(Ok(1)),
        Act::Take(Ok(2)),
        Act::Take(Err(TakeRefusal::Closed)),
    ],
    put: 2,
    taken: 2,
    left: &[],
};

#[test]
fn one_end_alone(rt: HostRuntime) {
    plays(&rt, rt.alloc(), &ONE_END_ALONE);
}

#[test]
fn runs_that_never_fit(rt: HostRuntime) {
    plays(&rt, rt.alloc(), &RUNS_THAT_NEVER_FIT);
}

/// This also holds of a queue that had items, and is empty again.
#[test]
fn runs_that_never_fit_again(rt: HostRuntime) {
    plays(&rt, rt.alloc(), &RUNS_THAT_NEVER_FIT_AGAIN);
}

#[test]
fn spent_before_full(rt: HostRuntime) {
    plays(&rt, rt.alloc(), &SPENT_BEFORE_FULL);
}

#[test]
fn put_alone(rt: HostRuntime) {
    plays(&rt, rt.alloc(), &PUT_ALONE);
}

#[test]
fn last_positions(rt: HostRuntime) {
    plays(&rt, rt.alloc(), &LAST_POSITIONS);
}

#[test]
fn lines(rt: HostRuntime) {
    plays(&rt, rt.alloc(), &LINES);
}

#[test]
fn shut_queue(rt: HostRuntime) {
    plays(&rt, rt.alloc(), &SHUT_QUEUE);
}

#[test]
fn dropped_claim(rt: HostRuntime) {
    let (queue, mut end) = new_four(&rt, rt.alloc(), 0);
    let Ok(mut claim) = queue.try_claim(&mut end, &[7, 8, 9]) else {
        panic!(rt; "claim")
    };
    let raised = queue.raise_next(&mut end, &mut claim);
    assert!(rt; (raised, claim.start(), claim.raised()) == (true, 0, 1));
    assert!(rt; claim.items() == [7, 8, 9].as_slice());
    drop(claim);
    closes(&rt, queue, end, (0, 3, 0), &[Some(7), None, None]);
}

/// While a claim has nothing raised, an item after it is put, and none is taken.
const BEHIND_A_CLAIM: [Act; 2] = [
    Act::Put(&[3], Ok(2)),
    Act::Take(Err(TakeRefusal::Empty { at: 0 })),
];

const ALL_RAISED: [Act; 4] = [
    Act::Take(Ok(1)),
    Act::Take(Ok(2)),
    Act::Take(Ok(3)),
    Act::Take(Err(TakeRefusal::Empty { at: 3 })),
];

#[test]
fn raised_later_claim_first(rt: HostRuntime) {
    let (queue, mut a) = new_four(&rt, rt.alloc(), 0);
    let mut b = queue.split(&mut a);
    let Ok(mut first) = queue.try_claim(&mut a, &[1, 2]) else {
        panic!(rt; "claim")
    };
    does(&rt, &queue, &mut b, &BEHIND_A_CLAIM);
    let one = queue.raise_next(&mut a, &mut first);
    let two = queue.raise_next(&mut a, &mut first);
    let three = queue.raise_next(&mut a, &mut first);
    assert!(rt; (one, two, three) == (true, true, false));
    does(&rt, &queue, &mut a, &ALL_RAISED);
}

#[test]
fn open_ends(rt: HostRuntime) {
    let (queue, mut a) = new_four(&rt, rt.alloc(), 0);
    let b = queue.split(&mut a);
    let Err((queue, mut a, open)) = queue.close(a) else {
        panic!(rt; "open")
    };
    assert!(rt; open.others == 1);
    queue.join(&mut a, b);
    closes(&rt, queue, a, (0, 0, 0), &[]);
}

/// The number of the other ends, for which the queue isn't closed.
fn must_be_open<R: Abort>(rt: &R, queue: Four, end: QueueEnd<4>) -> (Four, QueueEnd<4>, u64)
    requires { IsEndOf queue end }
    ensures { IsEndOf result.0 result.1 }
{
    match queue.close(end) {
        Ok(_closed) => panic!(rt; "open"),
        Err((queue, end, open)) => (queue, end, open.others),
    }
}

#[test]
fn dropped_end(rt: HostRuntime) {
    let (queue, mut a) = new_four(&rt, rt.alloc(), 0);
    drop(queue.split(&mut a));
    let (queue, mut a, before) = must_be_open(&rt, queue, a);
    does(
        &rt,
        &queue,
        &mut a,
        &[Act::Put(&[1], Ok(0)), Act::Take(Ok(1))],
    );
    let (_queue, _a, after) = must_be_open(&rt, queue, a);
    assert!(rt; (before, after) == (1, 1));
}

const BEHIND_A_CLAIM_OF_ONE: [Act; 3] = [
    Act::Put(&[2, 3, 4], Ok(1)),
    Act::Put(&[5], Err(ClaimRefusal::Full { head: 4, tail: 0 })),
    Act::Take(Err(TakeRefusal::Empty { at: 0 })),
];

#[test]
fn claim_never_raised(rt: HostRuntime) {
    let (queue, mut a) = new_four(&rt, rt.alloc(), 0);
    let mut b = queue.split(&mut a);
    drop(queue.try_claim(&mut a, &[1]));
    does(&rt, &queue, &mut b, &BEHIND_A_CLAIM_OF_ONE);
    queue.join(&mut a, b);
    let left = [None, Some(2), Some(3), Some(4)];
    closes(&rt, queue, a, (0, 4, 0), &left);
}

#[test]
fn shut_over_a_claim(rt: HostRuntime) {
    let (queue, mut end) = new_four(&rt, rt.alloc(), 0);
    drop(queue.try_claim(&mut end, &[9]));
    let was_open = queue.shut(&mut end);
    let none = queue.try_take(&mut end);
    assert!(rt; (was_open, none) == (true, Err(TakeRefusal::Empty { at: 0 })));
}

/// If all ends are joined, the queue is closed: that no other answer comes is proved, not tried.
fn split_and_joined(alloc: Global) -> Result<Closed<4>, OutOfMemory> {
    let (queue, mut a) = Four::new(alloc, 7)?;
    let b = queue.split(&mut a);
    let c = queue.split(&mut a);
    queue.join(&mut a, b);
    queue.join(&mut a, c);
    match queue.close(a) {
        Ok(closed) => Ok(closed),
        Err(_) => unreachable!(),
    }
}

#[test]
fn joined_ends_close(rt: HostRuntime) {
    let Ok(closed) = split_and_joined(rt.alloc()) else {
        panic!(rt; "no memory")
    };
    assert!(rt; (closed.first, closed.put, closed.taken, closed.left.len()) == (7, 0, 0, 0));
}

/// If an allocation is refused, there is no queue, and a later try makes one.
#[test]
fn memory_may_run_out(rt: HostRuntime) {
    let mut made = false;
    for _ in 0..3 {
        match Four::new(rt.alloc(), 0) {
            Ok((queue, mut end)) => {
                does(
                    &rt,
                    &queue,
                    &mut end,
                    &[Act::Put(&[1], Ok(0)), Act::Take(Ok(1))],
                );
                made = true;
            }
            Err(error) => assert!(rt; error == OutOfMemory),
        }
    }
    assert!(rt; made);
}

const CLAIM_MESSAGES: &[(ClaimRefusal, &str)] = &[
    (ClaimRefusal::NoItems, "no items"),
    (ClaimRefusal::TooLong, "more items than places"),
    (ClaimRefusal::Closed, "the queue is shut"),
    (ClaimRefusal::Spent, "no positions left"),
    (
        ClaimRefusal::Full { head: 9, tail: 5 },
        "full at head 9, tail 5",
    ),
    (ClaimRefusal::Lost { head: 8 }, "lost, head 8"),
];

const TAKING_MESSAGES: &[(TakeRefusal, &str)] = &[
    (TakeRefusal::Empty { at: 6 }, "nothing raised at 6"),
    (TakeRefusal::Lost { tail: 7 }, "lost, tail 7"),
    (TakeRefusal::Closed, "the queue is shut and empty"),
];

/// Each refusal is reported in its words, with its numbers.
#[test]
fn refusals_are_reported(rt: HostRuntime) {
    for (refusal, words) in CLAIM_MESSAGES {
        assert!(rt; is_reported(rt.alloc(), *refusal, words));
    }
    for (refusal, words) in TAKING_MESSAGES {
        assert!(rt; is_reported(rt.alloc(), *refusal, words));
    }
    let open = OpenEnds { others: 3 };
    assert!(rt; is_reported(rt.alloc(), open, "3 other ends are not joined"));
}
