//! Looks at a queue: how deep it is, whether it is shut, and whether a claim that is not raised holds it up.
use crate::claims::scripts::{Act, Script, does, new_four, plays};
use claim_queue::*;
use std::test::*;

const LOOKS: Script = Script {
    first: 0,
    acts: &[
        // Empty.
        Act::Look(0, 0, 0, false),
        Act::Put(&[1, 2], Ok(0)),
        Act::Look(0, 2, 2, false),
        // Full.
        Act::Put(&[3, 4], Ok(2)),
        Act::Look(0, 4, 4, false),
        Act::Take(Ok(1)),
        Act::Look(1, 3, 4, false),
        // Full again, over the end of the ring.
        Act::Put(&[5], Ok(4)),
        Act::Look(1, 4, 5, false),
        Act::Take(Ok(2)),
        Act::Take(Ok(3)),
        Act::Take(Ok(4)),
        Act::Look(4, 1, 5, false),
        Act::Shut(true),
        Act::Look(4, 1, 5, true),
        Act::Take(Ok(5)),
        Act::Look(5, 0, 5, true),
    ],
    put: 5,
    taken: 5,
    left: &[],
};

/// Items are put up to the last position, and no position is left.
const LOOKS_AT_THE_LAST_POSITIONS: Script = Script {
    first: 4_294_967_292,
    acts: &[
        Act::Look(4_294_967_292, 0, 4_294_967_292, false),
        Act::Put(&[1, 2, 3], Ok(4_294_967_292)),
        Act::Look(4_294_967_292, 3, 4_294_967_295, false),
        Act::Take(Ok(1)),
        Act::Shut(true),
        Act::Look(4_294_967_293, 2, 4_294_967_295, true),
    ],
    put: 3,
    taken: 1,
    left: &[Some(2), Some(3)],
};

#[test]
fn looks(rt: HostRuntime) {
    plays(&rt, rt.alloc(), &LOOKS);
}

#[test]
fn looks_at_the_last_positions(rt: HostRuntime) {
    plays(&rt, rt.alloc(), &LOOKS_AT_THE_LAST_POSITIONS);
}

/// After the claim of the positions 1 and 2 an item is put, at 3. While the claim isn't raised, only the item before
/// the claim counts.
const OVER_A_CLAIM: [Act; 3] = [
    Act::Look(0, 1, 3, false),
    Act::Put(&[4], Ok(3)),
    Act::Look(0, 1, 4, false),
];

const AFTER_ONE_RAISE: [Act; 1] = [Act::Look(0, 2, 4, false)];

const AFTER_ALL_RAISES: [Act; 4] = [
    Act::Look(0, 4, 4, false),
    Act::Take(Ok(1)),
    Act::Take(Ok(2)),
    Act::Look(2, 2, 4, false),
];

#[test]
fn looks_over_a_claim(rt: HostRuntime) {
    let (queue, mut a) = new_four(&rt, rt.alloc(), 0);
    let mut b = queue.split(&mut a);
    does(&rt, &queue, &mut a, &[Act::Put(&[1], Ok(0))]);
    let Ok(mut claim) = queue.try_claim(&mut a, &[2, 3]) else {
        panic!(rt; "claim")
    };
    does(&rt, &queue, &mut b, &OVER_A_CLAIM);
    let one = queue.raise_next(&mut a, &mut claim);
    does(&rt, &queue, &mut b, &AFTER_ONE_RAISE);
    let two = queue.raise_next(&mut a, &mut claim);
    assert!(rt; (one, two) == (true, true));
    does(&rt, &queue, &mut b, &AFTER_ALL_RAISES);
}

const ONE_ROUND: [Act; 5] = [
    Act::Put(&[1, 2, 3, 4], Ok(0)),
    Act::Take(Ok(1)),
    Act::Take(Ok(2)),
    Act::Take(Ok(3)),
    Act::Take(Ok(4)),
];

/// The flag of position 4 is that of position 0, and of the round before.
const HELD_UP_IN_THE_SECOND_ROUND: [Act; 6] = [
    Act::Look(4, 0, 5, false),
    Act::Put(&[6, 7, 8], Ok(5)),
    Act::Look(4, 0, 8, false),
    Act::Take(Err(TakeRefusal::Empty { at: 4 })),
    Act::Shut(true),
    Act::Look(4, 0, 8, true),
];

/// A claim that is never raised holds up the queue for good, and each look says so.
#[test]
fn looks_at_a_claim_never_raised(rt: HostRuntime) {
    let (queue, mut end) = new_four(&rt, rt.alloc(), 0);
    does(&rt, &queue, &mut end, &ONE_ROUND);
    drop(queue.try_claim(&mut end, &[5]));
    does(&rt, &queue, &mut end, &HELD_UP_IN_THE_SECOND_ROUND);
}

/// As many items are put as positions are left, and a put of one more is Spent.
#[test]
fn positions_left(rt: HostRuntime) {
    let (queue, mut end) = new_four(&rt, rt.alloc(), 4_294_967_290);
    assert!(rt; queue.look(&mut end).positions_left() == 5);
    let put = queue.try_put(&mut end, &[1, 2]);
    assert!(rt; (put, queue.look(&mut end).positions_left()) == (Ok(4_294_967_290), 3));
    let more = queue.try_put(&mut end, &[3, 4, 5, 6]);
    assert!(rt; (more, queue.look(&mut end).positions_left()) == (Err(ClaimRefusal::Spent), 3));
    let taken = queue.try_take(&mut end);
    assert!(rt; (taken, queue.look(&mut end).positions_left()) == (Ok(1), 3));
    let last = queue.try_put(&mut end, &[3, 4, 5]);
    assert!(rt; (last, queue.look(&mut end).positions_left()) == (Ok(4_294_967_292), 0));
    assert!(rt; queue.try_put(&mut end, &[7]) == Err(ClaimRefusal::Spent));
}
