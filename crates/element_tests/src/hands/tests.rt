ghost use Rattle.std.specs.Prelude.{◌≡◌, ℕ, MatchResult};
ghost use Rattle.thread_table.specs.Handles.{view_of, IsHandOf, IsSameHand};
ghost use Rattle.turn_dispatch.specs.Countings.{counted_step};
ghost use Rattle.turn_dispatch.specs.Dispatches.{mask_of};
ghost use Rattle.turn_dispatch.specs.Holdings.{IsFree};
ghost use Rattle.turn_dispatch.specs.Tallies.{AddsToTally, followed_by, no_events, one_delivery, one_signal};

use crate::fixtures::{alarm_at, begins, processor, signal, wait_queue};
use crate::hands::scripts::{Act, does, plays};
use arrayvec::ArrayVec;
use event_theory::{Element, Processor, Signal, WaitNumber};
use meters::{AdvanceRefusal, Meters};
use std::panic::Expect;
use std::sync::Wait;
use std::test::*;
use thread_table::{Hand, Place, ThreadTable};
use turn_dispatch::*;

/// One turn with a step that is done, in which the element sends itself a signal and wakes all that wait. Proved, not
/// tested: the step that is counted is the one that was begun, and no other event is made.
fn turn<R: Wait>(
    rt: &R,
    threads: &ThreadTable,
    hand: &mut Hand,
    p: Processor,
    signals: &mut [u16; 64],
    wait: WaitNumber,
    signal: Signal,
) -> Result<(Begun, Counted), Idle>
    requires table { IsHandOf threads.now hand.old }
    requires free { IsFree p (view_of hand.old) }
    ensures free { IsFree p (view_of hand.new) }
    ensures adds { MatchResult result
        (λ r. AddsToTally (followed_by (one_delivery r.0.element (mask_of r.0.delivered)) (followed_by (one_signal r.0.element signal)
        (counted_step r.1 r.0.element r.0.number))) (view_of hand.old) (view_of hand.new))
        (λ idle. AddsToTally no_events (view_of hand.old) (view_of hand.new)) }
    ensures handle { IsSameHand hand.old hand.new }
{
    let begun = match begin(rt, threads, hand, signals) {
        Ok(begun) => begun,
        Err(idle) => return Err(idle),
    };
    put_on(threads, hand, p, begun.element);
    threads.signal(hand, begun.element, signal);
    wake(rt, threads, hand, wait);
    let counted = count(threads, hand, begun.element, true);
    let element = take_off(threads, hand, p);
    make_ready(rt, threads, hand, element);
    Ok((begun, counted))
}

#[test]
fn turns_of_one(rt: HostRuntime) {
    let (threads, mut hand) = begins(&rt, rt.alloc(), 0);
    let (p, w, s) = (processor(&rt, 2), wait_queue(&rt, 4), signal(&rt, 3));
    let mut signals = [0; 64];
    does(
        &rt,
        &threads,
        &mut hand,
        &[Act::Free(0), Act::Ready(0, true)],
    );
    let e = Element::default();
    let first = Begun {
        element: e,
        delivered: Ok(0),
        number: 0,
    };
    let second = Begun {
        element: e,
        delivered: Ok(8),
        number: 1,
    };
    if !hand.serves(p) {
        panic!(rt; "not served");
    }
    if hand.on_processor(p).is_some() {
        panic!(rt; "busy");
    }
    let answer = turn(&rt, &threads, &mut hand, p, &mut signals, w, s);
    assert!(rt; answer == Ok((first, Counted::Done(1))));
    assert!(rt; signals[0] == 0);
    let answer = turn(&rt, &threads, &mut hand, p, &mut signals, w, s);
    assert!(rt; answer == Ok((second, Counted::Done(2))));
    assert!(rt; (signals[0], signals[1]) == (8, 0));
    let Ok(closed) = threads.close(hand) else {
        panic!(rt; "close")
    };
    assert!(rt; (closed.pcs[0], closed.pending[0]) == (2, 8));
    assert!(rt; closed.places[0] == Place::Ready);
}

const STOPPED_AND_STARTED: &[Act] = &[
    Act::Free(0),
    Act::Idle,
    Act::Undone(0),
    Act::Ready(0, true),
    Act::Stop(0),
    Act::Start(0, Resumed::Cleared),
    Act::Start(0, Resumed::NotStopped),
    Act::Stop(0),
    Act::Parked(0),
    Act::Idle,
    Act::Start(0, Resumed::Ready),
    Act::Begin(0, 0),
    Act::Retire(0, true),
];

#[test]
fn stopped_and_started(rt: HostRuntime) {
    let places = [(0, Place::Free)];
    plays(&rt, rt.alloc(), 0, STOPPED_AND_STARTED, &places);
}

const WAITS_AND_WAKES: &[Act] = &[
    Act::Ticket(15, 0),
    Act::Free(0),
    Act::WaitAt(0, 15, 0, Waited::Waiting),
    Act::Free(1),
    Act::WaitIn(1, 15, true),
    Act::Wake(15, 3, 3),
    Act::Begin(0, 0),
    Act::WaitAt(
        0,
        15,
        0,
        Waited::Moved {
            mark: 1,
            ready: true,
        },
    ),
    Act::Begin(1, 0),
    Act::Retire(1, true),
    Act::Begin(0, 0),
];

#[test]
fn waits_and_wakes(rt: HostRuntime) {
    let places = [(0, Place::Held), (1, Place::Free)];
    plays(&rt, rt.alloc(), 0, WAITS_AND_WAKES, &places);
}

/// The first position of element queues that have 128 positions left each.
const LAST: u32 = 4_294_967_167;

/// Each element is made ready and retired. Then the free elements and the ready ring have 64 positions less each.
const NO_POSITION_LEFT: &[Act] = &[
    Act::Passes(64),
    Act::Free(0),
    Act::Retire(0, false),
    Act::WaitIn(0, 0, true),
    Act::ReadyRest(63),
    Act::Begin(1, 0),
    Act::Ready(1, true),
    Act::Begin(2, 0),
    Act::Ready(2, false),
    Act::Wake(0, 1, 0),
];

#[test]
fn no_position_left(rt: HostRuntime) {
    let places = [
        (0, Place::Held),
        (1, Place::Ready),
        (2, Place::Held),
        (63, Place::Ready),
    ];
    plays(&rt, rt.alloc(), LAST, NO_POSITION_LEFT, &places);
}

/// If the ready ring has no position left, an element that is started stays in the hand, and so does one that is woken.
/// If a wait queue has none, an element that would wait there stays in the hand too.
const HELD_BY_WHO_STARTS_IT: &[Act] = &[
    Act::Free(0),
    Act::Readies(0, 128),
    Act::Ready(0, false),
    Act::Stop(0),
    Act::Park(0),
    Act::Start(0, Resumed::Held),
    Act::Waits(0, 7, 128),
    Act::Ticket(7, 128),
    Act::WaitAt(0, 7, 128, Waited::Spent),
    Act::WaitIn(0, 7, false),
];

#[test]
fn held_by_who_starts_it(rt: HostRuntime) {
    let places = [(0, Place::Held), (1, Place::Free)];
    plays(&rt, rt.alloc(), LAST, HELD_BY_WHO_STARTS_IT, &places);
}

#[test]
fn alarms_that_are_due(rt: HostRuntime) {
    let (threads, mut hand) = ThreadTable::new(rt.alloc()).expect(&rt, "memory");
    let (meters, mut seat) = Meters::new(rt.alloc(), 4_294_967_293).expect(&rt, "memory");
    let alarm = &alarm_at(4_294_967_294, 5, 2).expect(&rt, "alarm");
    assert!(rt; meters.try_set(&mut seat, *alarm) == Ok(0));
    let mut fired = ArrayVec::new();
    let advanced = tend_alarms(&threads, &mut hand, &meters, &mut seat, &mut fired);
    assert!(rt; advanced == Ok(4_294_967_294));
    assert!(rt; fired.as_slice() == [*alarm].as_slice());
    let advanced = tend_alarms(&threads, &mut hand, &meters, &mut seat, &mut fired);
    assert!(rt; (advanced, fired.len()) == (Ok(4_294_967_295), 0));
    let advanced = tend_alarms(&threads, &mut hand, &meters, &mut seat, &mut fired);
    assert!(rt; (advanced, fired.len()) == (Err(AdvanceRefusal::Spent), 0));
    let Ok(closed) = threads.close(hand) else {
        panic!(rt; "close")
    };
    assert!(rt; (closed.pending[5], closed.pending[4]) == (4, 0));
}
