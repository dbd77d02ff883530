ghost use Rattle.std.specs.Prelude.{◌≡◌, ◌+◌, true, false, Some, IfOk, IfSome};
ghost use Rattle.thread_table.specs.Handles.{view_of, IsHandOf, IsSameHand};
ghost use Rattle.thread_table.specs.Rules.{has, serves, running};

use crate::fixtures::{begins, closes, element, is_reported, part, processor, wait_queue};
use crate::tables::scripts::{Act, does, free, plays};
use event_theory::{Element, OutOfMemory, Processor, WaitNumber};
use std::alloc::Global;
use std::panic::Expect;
use std::process::Abort;
use std::sync::Wait;
use std::test::*;
use thread_table::*;

/// Wakes all, and then takes off what the hand has on a processor. Proved, not tested: the hand still serves the
/// processor, and the same element is on it. The mask of the woken elements is returned too.
fn wake_and_take_off<R: Wait>(
    rt: &R,
    table: &ThreadTable,
    hand: &mut Hand,
    wait: WaitNumber,
    processor: Processor,
) -> (u64, Result<Element, ProcessorEmpty>)
    requires table { IsHandOf table.now hand.old }
    requires mine { serves (view_of hand.old) processor ≡ true }
    ensures stood { IfOk result.1 (λ element. running (view_of hand.old) processor ≡ Some element) }
    ensures handle { IsSameHand hand.old hand.new }
{
    let woken = table.wake_all(rt, hand, wait);
    (woken, table.off(hand, processor))
}

/// Looks at an element's signals, and then takes off what the hand has on a processor. Proved, not tested: the hand
/// still serves the processor, and the same element is on it. The mask of the signals is returned too.
fn look_and_take_off(
    table: &ThreadTable,
    hand: &mut Hand,
    element: Element,
    processor: Processor,
) -> (u16, Result<Element, ProcessorEmpty>)
    requires table { IsHandOf table.now hand.old }
    requires mine { serves (view_of hand.old) processor ≡ true }
    ensures stood { IfOk result.1 (λ element. running (view_of hand.old) processor ≡ Some element) }
    ensures handle { IsSameHand hand.old hand.new }
{
    let pending = table.pending(hand, element);
    (pending, table.off(hand, processor))
}

/// Notifies, and tries once to take. Proved, not tested: an element that was taken wasn't held before, and is held now.
fn notify_and_try(
    table: &ThreadTable,
    hand: &mut Hand,
    wait: WaitNumber,
) -> Result<Option<Element>, NextRefusal>
    requires table { IsHandOf table.now hand.old }
    ensures taken { IfOk result (λ woken. IfSome woken (λ element. (has (view_of hand.old) element ≡ false)
        × (has (view_of hand.new) element ≡ true))) }
    ensures handle { IsSameHand hand.old hand.new }
{
    let head = table.notify(hand, wait);
    table.try_wake_before(hand, wait, head)
}

/// The number of steps, and then one more step. Proved, not tested: no other hand counts a step between the two.
fn count_on(table: &ThreadTable, hand: &mut Hand, element: Element) -> (u64, Result<u64, Spent>)
    requires table { IsHandOf table.now hand.old }
    requires mine { has (view_of hand.old) element ≡ true }
    ensures counted { IfOk result.1 (λ number. number ≡ result.0 + 1) }
    ensures handle { IsSameHand hand.old hand.new }
{
    let count = table.pc(hand, element);
    (count, table.step_done(hand, element))
}

const PROCESSORS: &[Act] = &[
    Act::Free(0),
    Act::On(0, 0, Ok(())),
    Act::Free(1),
    Act::On(0, 1, Err(ProcessorBusy)),
    Act::Stop(0),
    Act::Off(0, Some(0)),
    Act::Off(0, None),
    Act::Park(0, true),
    Act::Start(0, Started::Held),
    Act::Start(0, Started::NotStopped),
    Act::Stop(0),
    Act::Start(0, Started::Cleared),
    Act::Park(0, false),
];

/// Whether the hand serves the one processor, and not the other.
fn serves_one(hand: &Hand, one: Processor, other: Processor) -> bool {
    hand.serves(one) && !hand.serves(other)
}

/// Joins one hand with another.
fn joins(table: &ThreadTable, hand: &mut Hand, other: Hand)
    requires { IsHandOf table.now hand.old × IsHandOf table.now other }
    ensures { IsSameHand hand.old hand.new }
{
    table.join(hand, other);
}

#[test]
fn processors_and_stops(rt: HostRuntime) {
    let (table, mut first) = ThreadTable::new(rt.alloc()).expect(&rt, "memory");
    let a = &mut first;
    let (p0, p1) = (processor(&rt, 0), processor(&rt, 1));
    let b = part(&table, a, p1).expect(&rt, "part");
    assert!(rt; serves_one(a, p0, p1));
    assert!(rt; serves_one(&b, p1, p0));
    does(&rt, &table, a, PROCESSORS);
    joins(&table, a, b);
    assert!(rt; a.serves(p1));
}

const SIGNALS: &[Act] = &[
    Act::Free(0),
    Act::Wait(0, 2),
    Act::Signal(0, 3, Signalled::Raised),
    Act::Signal(0, 3, Signalled::Merged),
    Act::NoneReady,
    Act::Wake(2, 0),
    Act::Deliver(0, 8),
    Act::Deliver(0, 0),
];

#[test]
fn signals(rt: HostRuntime) {
    let places = [(0, Place::Held)];
    plays(&rt, rt.alloc(), 0, SIGNALS, &places);
}

const PENDING_ANYWHERE: &[Act] = &[
    Act::Pending(0, 0),
    Act::Signal(0, 0, Signalled::Raised),
    Act::Signal(0, 15, Signalled::Raised),
    Act::Pending(0, 32_769),
    Act::Pending(1, 0),
    Act::Free(0),
    Act::Pending(0, 32_769),
    Act::On(3, 0, Ok(())),
    Act::Signal(0, 4, Signalled::Raised),
    Act::Pending(0, 32_785),
    Act::Stop(0),
    Act::Pending(0, 32_785),
    Act::Off(3, Some(0)),
    Act::Park(0, true),
    Act::Pending(0, 32_785),
    Act::Signal(0, 4, Signalled::Merged),
    Act::Start(0, Started::Held),
    Act::Wait(0, 7),
    Act::Pending(0, 32_785),
    Act::Wake(7, 0),
    Act::Ready(0),
    Act::Pending(0, 32_785),
    Act::Next(0),
    Act::Deliver(0, 32_785),
    Act::Pending(0, 0),
    Act::Stop(0),
    Act::Pending(0, 0),
];

/// A look at an element's pending signals, bit s for signal s, finds them wherever the element is, and leaves them.
#[test]
fn pending_anywhere(rt: HostRuntime) {
    let places = [(0, Place::Held), (1, Place::Free)];
    let closed = plays(&rt, rt.alloc(), 0, PENDING_ANYWHERE, &places);
    assert!(rt; (closed.stops, closed.pending[0]) == (1, 0));
}

const SIXTEEN_SIGNALS: &[Act] = &[
    Act::Signal(0, 0, Signalled::Raised),
    Act::Pending(0, 1),
    Act::Signal(0, 1, Signalled::Raised),
    Act::Pending(0, 3),
    Act::Signal(0, 2, Signalled::Raised),
    Act::Pending(0, 7),
    Act::Signal(0, 3, Signalled::Raised),
    Act::Pending(0, 15),
    Act::Signal(0, 4, Signalled::Raised),
    Act::Pending(0, 31),
    Act::Signal(0, 5, Signalled::Raised),
    Act::Pending(0, 63),
    Act::Signal(0, 6, Signalled::Raised),
    Act::Pending(0, 127),
    Act::Signal(0, 7, Signalled::Raised),
    Act::Pending(0, 255),
    Act::Signal(0, 8, Signalled::Raised),
    Act::Pending(0, 511),
    Act::Signal(0, 9, Signalled::Raised),
    Act::Pending(0, 1_023),
    Act::Signal(0, 10, Signalled::Raised),
    Act::Pending(0, 2_047),
    Act::Signal(0, 11, Signalled::Raised),
    Act::Pending(0, 4_095),
    Act::Signal(0, 12, Signalled::Raised),
    Act::Pending(0, 8_191),
    Act::Signal(0, 13, Signalled::Raised),
    Act::Pending(0, 16_383),
    Act::Signal(0, 14, Signalled::Raised),
    Act::Pending(0, 32_767),
    Act::Signal(0, 15, Signalled::Raised),
    Act::Pending(0, 65_535),
];

/// The two hands of a new table, of which the second serves no processor.
fn two_hands<R: Abort>(rt: &R, alloc: Global) -> (ThreadTable, Hand, Hand)
    ensures { IsHandOf result.0 result.1 × IsHandOf result.0 result.2 }
{
    let (table, mut first) = ThreadTable::new(alloc).expect(rt, "memory");
    let other = table.split(&mut first, 0);
    (table, first, other)
}

/// Whether this element is taken off the processor, and all sixteen signals were pending before.
fn takes_off_signalled(table: &ThreadTable, hand: &mut Hand, e: Element, p: Processor) -> bool
    requires { IsHandOf table.now hand.old }
    ensures { IsSameHand hand.old hand.new }
{
    hand.serves(p) && look_and_take_off(table, hand, e, p) == (65_535, Ok(e))
}

/// A hand can look at what it has on a processor: all sixteen signals, each by its bit, which another hand sends.
#[test]
fn pending_on_a_processor(rt: HostRuntime) {
    let (table, mut a, mut b) = two_hands(&rt, rt.alloc());
    let (p, e) = (processor(&rt, 5), element(&rt, 0));
    does(
        &rt,
        &table,
        &mut a,
        &[Act::Free(0), Act::On(5, 0, Ok(())), Act::Pending(0, 0)],
    );
    does(&rt, &table, &mut b, SIXTEEN_SIGNALS);
    assert!(rt; takes_off_signalled(&table, &mut a, e, p));
    does(
        &rt,
        &table,
        &mut a,
        &[Act::Deliver(0, 65_535), Act::Pending(0, 0)],
    );
    does(&rt, &table, &mut b, &[Act::Pending(0, 0)]);
    joins(&table, &mut a, b);
    closes(&rt, table, a, &[(0, Place::Held)]);
}

const READY_IN_TURN: &[Act] = &[
    Act::Free(0),
    Act::Free(1),
    Act::Free(2),
    Act::Ready(0),
    Act::Ready(1),
    Act::Ready(2),
    Act::Next(0),
    Act::Ready(0),
    Act::Next(1),
];

#[test]
fn ready_in_turn(rt: HostRuntime) {
    let places = [(0, Place::Ready), (1, Place::Held), (2, Place::Ready)];
    plays(&rt, rt.alloc(), 0, READY_IN_TURN, &places);
}

const FIRST_IN_FIRST_OUT: &[Act] = &[
    Act::Free(0),
    Act::Free(1),
    Act::Free(2),
    Act::Free(3),
    Act::Free(4),
    Act::Free(5),
    Act::Ready(2),
    Act::Ready(0),
    Act::Ready(1),
    Act::Next(2),
    Act::Next(0),
    Act::Next(1),
    Act::NoneReady,
    Act::Wait(5, 3),
    Act::Wait(4, 3),
    Act::Wake(3, 5),
    Act::Wait(5, 3),
    Act::WakeAll(3, 48),
];

#[test]
fn first_in_first_out(rt: HostRuntime) {
    let places = [(4, Place::Held), (5, Place::Held), (6, Place::Free)];
    plays(&rt, rt.alloc(), 0, FIRST_IN_FIRST_OUT, &places);
}

const LAST_POSITIONS: &[Act] = &[
    Act::Free(0),
    Act::Retire(0, Err(MoveRefusal::Spent)),
    Act::Ready(0),
    Act::Next(0),
];

#[test]
fn last_positions(rt: HostRuntime) {
    let places = [(0, Place::Held), (1, Place::Free)];
    plays(&rt, rt.alloc(), 4_294_967_231, LAST_POSITIONS, &places);
}

const TICKETS: &[Act] = &[
    Act::Free(0),
    Act::Ticket(2, 0),
    Act::WakeAll(2, 0),
    Act::WaitAt(0, 2, 0, Err(MoveRefusal::Moved { mark: 1 })),
    Act::WaitAt(0, 2, 1, Ok(())),
    Act::WakeAll(2, 1),
];

#[test]
fn tickets(rt: HostRuntime) {
    let places = [(0, Place::Held), (1, Place::Free)];
    plays(&rt, rt.alloc(), 0, TICKETS, &places);
}

const TWO_WAIT: &[Act] = &[
    Act::Free(0),
    Act::Free(1),
    Act::Wait(0, 2),
    Act::Wait(1, 2),
    Act::WakeAll(2, 3),
    Act::On(0, 0, Ok(())),
];

/// Wakes all, which are none, and takes off the element on a processor, which the hand has to serve.
fn wakes_none_and_takes_off<R: Wait>(
    rt: &R,
    table: &ThreadTable,
    hand: &mut Hand,
    wait: WaitNumber,
    p: Processor,
) -> Option<Element>
    requires { IsHandOf table.now hand.old }
    ensures { IsSameHand hand.old hand.new }
{
    if !hand.serves(p) {
        return None;
    }
    match wake_and_take_off(rt, table, hand, wait, p) {
        (0, Ok(element)) => Some(element),
        _ => None,
    }
}

/// Whether the hand holds the element all the time, and counts its first step.
fn counts_first(table: &ThreadTable, hand: &mut Hand, element: Element) -> bool
    requires { IsHandOf table.now hand.old }
    ensures { IsSameHand hand.old hand.new }
{
    if !hand.holds(element) {
        return false;
    }
    let counted = count_on(table, hand, element);
    counted == (0, Ok(1)) && hand.holds(element) && table.pc(hand, element) == 1
}

/// Whether all elements from this number on are free, and have done nothing.
fn are_free(closed: &Places, first: usize) -> bool {
    for e in first..64 {
        if (closed.places[e], closed.pcs[e]) != (Place::Free, 0) {
            return false;
        }
    }
    true
}

#[test]
fn wakes_all(rt: HostRuntime) {
    let (table, mut a) = begins(&rt, rt.alloc(), 0);
    let (w2, p0) = (wait_queue(&rt, 2), processor(&rt, 0));
    does(&rt, &table, &mut a, TWO_WAIT);
    let e0 = wakes_none_and_takes_off(&rt, &table, &mut a, w2, p0).expect(&rt, "empty");
    assert!(rt; counts_first(&table, &mut a, e0));
    let closed = closes(&rt, table, a, &[(0, Place::Held), (1, Place::Held)]);
    assert!(rt; are_free(&closed, 2));
    assert!(rt; (closed.pcs[0], closed.pcs[1], closed.stops) == (1, 0, 0));
}

const THREE_WAIT: &[Act] = &[
    Act::Free(0),
    Act::Free(1),
    Act::Free(2),
    Act::Wait(2, 5),
    Act::Wait(0, 5),
    Act::Wait(1, 5),
    Act::WakeAll(5, 7),
    Act::WakeAll(5, 0),
    Act::Wait(1, 5),
    Act::WakeAll(5, 2),
];

/// Three elements that wait are all woken at once, and none is woken again.
#[test]
fn three_wake_once(rt: HostRuntime) {
    let places = [(0, Place::Held), (1, Place::Held), (2, Place::Held)];
    plays(&rt, rt.alloc(), 0, THREE_WAIT, &places);
}

const NOTIFIED: &[Act] = &[
    Act::Free(0),
    Act::Free(1),
    Act::Free(2),
    Act::Wait(1, 4),
    Act::Wait(0, 4),
    Act::Notify(4, 2),
    Act::Wait(2, 4),
    Act::Ticket(4, 1),
    Act::WakeBefore(4, 2, Ok(Some(1))),
    Act::WakeBefore(4, 2, Ok(Some(0))),
    Act::WakeBefore(4, 2, Ok(None)),
];

/// Two elements that waited at the notify are taken, and one that came after it still waits.
#[test]
fn notified_are_taken(rt: HostRuntime) {
    let places = [(0, Place::Held), (1, Place::Held), (2, Place::Wait(4))];
    plays(&rt, rt.alloc(), 0, NOTIFIED, &places);
}

/// Whether a notify and one try take this element, or none.
fn takes_notified(
    table: &ThreadTable,
    hand: &mut Hand,
    wait: WaitNumber,
    wanted: Option<Element>,
) -> bool
    requires { IsHandOf table.now hand.old }
    ensures { IsSameHand hand.old hand.new }
{
    notify_and_try(table, hand, wait) == Ok(wanted)
}

/// A notify and one try take the first of two elements that wait.
#[test]
fn one_is_taken(rt: HostRuntime) {
    let (table, mut first) = begins(&rt, rt.alloc(), 0);
    let (a, w2) = (&mut first, wait_queue(&rt, 2));
    does(&rt, &table, a, &TWO_WAIT[..4]);
    assert!(rt; takes_notified(&table, a, w2, Some(element(&rt, 0))));
    assert!(rt; takes_notified(&table, a, w2, Some(element(&rt, 1))));
    assert!(rt; takes_notified(&table, a, w2, None));
    closes(&rt, table, first, &[(0, Place::Held), (1, Place::Held)]);
}

const NOTIFIED_LATE: &[Act] = &[
    Act::Notify(15, 4_294_967_231),
    Act::WakeBefore(15, 4_294_967_231, Ok(None)),
    Act::Free(0),
    Act::Wait(0, 15),
    Act::Notify(15, 4_294_967_232),
    Act::WakeBefore(15, 4_294_967_232, Ok(Some(0))),
    Act::WakeBefore(15, 4_294_967_232, Ok(None)),
    Act::WakeBefore(15, 4_294_967_295, Err(NextRefusal::NoneReady)),
    Act::Ticket(15, 2),
];

/// A notify returns a position, counted from the table's first one; at the head and after it there is nothing to take.
#[test]
fn late_positions_are_notified(rt: HostRuntime) {
    let places = [(0, Place::Held), (1, Place::Free)];
    plays(&rt, rt.alloc(), 4_294_967_231, NOTIFIED_LATE, &places);
}

/// The number of the other hands, for which the table isn't closed.
fn must_be_open<R: Abort>(rt: &R, table: ThreadTable, hand: Hand) -> (ThreadTable, Hand, u64)
    requires { IsHandOf table hand }
    ensures { (result.0 ≡ table) × IsHandOf result.0 result.1 }
{
    match table.close(hand) {
        Ok(_) => panic!(rt; "closed"),
        Err((table, hand, open)) => (table, hand, open.others),
    }
}

#[test]
fn hands_to_join(rt: HostRuntime) {
    let (table, first, mut b) = two_hands(&rt, rt.alloc());
    assert!(rt; free(&table, &mut b, 0));
    let (table, mut first, others) = must_be_open(&rt, table, first);
    assert!(rt; others == 1);
    joins(&table, &mut first, b);
    assert!(rt; first.holds(element(&rt, 0)));
    let places = [(0, Place::Held), (63, Place::Free)];
    closes(&rt, table, first, &places);
}

/// If all hands are joined, the table is closed. Proved, not tested: there is no other result.
fn split_and_joined(alloc: Global) -> Result<Places, OutOfMemory> {
    let (table, mut a) = ThreadTable::new(alloc)?;
    let b = table.split(&mut a, 0);
    let c = table.split(&mut a, 0);
    table.join(&mut a, b);
    table.join(&mut a, c);
    match table.close(a) {
        Ok(closed) => Ok(closed),
        Err(_) => unreachable!(),
    }
}

#[test]
fn joined_hands_close(rt: HostRuntime) -> Result<(), Fail> {
    let closed = split_and_joined(rt.alloc())?;
    for e in 0..64usize {
        assert!(rt; (closed.places[e], closed.pcs[e], closed.pending[e]) == (Place::Free, 0, 0));
    }
    assert!(rt; closed.stops == 0);
    Ok(())
}

const STOPPED_AT_THE_CLOSE: &[Act] = &[
    Act::Free(0),
    Act::Free(1),
    Act::Free(2),
    Act::Free(3),
    Act::Stop(0),
    Act::Park(0, true),
    Act::Signal(0, 3, Signalled::Raised),
    Act::On(7, 1, Ok(())),
    Act::Wait(2, 15),
    Act::Ready(3),
];

#[test]
fn stopped_at_the_close(rt: HostRuntime) {
    let places = [
        (0, Place::Stopped),
        (1, Place::Processor(7)),
        (2, Place::Wait(15)),
        (3, Place::Ready),
    ];
    let closed = plays(&rt, rt.alloc(), 0, STOPPED_AT_THE_CLOSE, &places);
    assert!(rt; (closed.stops, closed.pending[0], closed.pending[1]) == (1, 8, 0));
}

/// If an allocation fails there is no table, and a later try makes one.
#[test]
fn memory_may_run_out(rt: HostRuntime) {
    let mut made = false;
    for _ in 0..3 {
        match ThreadTable::new(rt.alloc()) {
            Ok((table, mut hand)) => {
                assert!(rt; free(&table, &mut hand, 0));
                made = true;
            }
            Err(error) => assert!(rt; error == OutOfMemory),
        }
    }
    assert!(rt; made);
}

const TAKING_MESSAGES: &[(NextRefusal, &str)] = &[
    (NextRefusal::NoneReady, "nothing is raised at the tail"),
    (
        NextRefusal::Lost { seen: 5 },
        "another hand moved the tail to 5",
    ),
];

const MOVE_MESSAGES: &[(MoveRefusal, &str)] = &[
    (MoveRefusal::Spent, "the queue's positions are spent"),
    (
        MoveRefusal::Lost {
            seen: 4_294_967_303,
        },
        "another hand changed the head word to 4294967303",
    ),
    (
        MoveRefusal::Moved { mark: 6 },
        "the number of notifies is 6",
    ),
];

/// The message of each refusal has its words and its number.
#[test]
fn refusals_are_reported(rt: HostRuntime) {
    let alloc = rt.alloc();
    for (refusal, words) in TAKING_MESSAGES {
        assert!(rt; is_reported(alloc, *refusal, words));
    }
    for (refusal, words) in MOVE_MESSAGES {
        assert!(rt; is_reported(alloc, *refusal, words));
    }
    let lost = Lost { seen: 65_536 };
    assert!(rt; is_reported(alloc, lost, "another hand changed the state word to 65536"));
    assert!(rt; is_reported(alloc, ProcessorBusy, "an element is on the processor"));
    assert!(rt; is_reported(alloc, ProcessorEmpty, "no element is on the processor"));
    assert!(rt; is_reported(alloc, Spent, "the element's steps are spent"));
    let open = OpenEnds { others: 3 };
    assert!(rt; is_reported(alloc, open, "3 other ends are not joined"));
}
