//! Scripts: a hand's calls on a thread table, each with its result, and functions that run them.
ghost use Rattle.std.specs.Prelude.{◌≡◌, ◌≤◌, true};
ghost use Rattle.thread_table.specs.Handles.{view_of, IsHandOf, IsSameHand};
ghost use Rattle.thread_table.specs.Rules.{has};

use crate::fixtures::{begins, closes, element, processor, signal, wait_queue};
use event_theory::Element;
use std::alloc::Global;
use std::process::Abort;
use std::sync::Wait;
use thread_table::*;

/// A call of a hand, with its result. Elements, wait queues, processors and signals are given by their numbers.
#[derive(Clone, Copy)]
pub(crate) enum Act {
    /// This element is the next free one; the next ready one.
    Free(u8),
    Next(u8),
    NoneReady,
    /// The element that is held is made ready, waits in this wait queue, or waits there at a ticket, or is retired.
    Ready(u8),
    Wait(u8, u8),
    WaitAt(u8, u8, u32, Result<(), MoveRefusal>),
    Retire(u8, Result<(), MoveRefusal>),
    /// The ticket of a wait queue; the first element there; the mask of all elements there.
    Ticket(u8, u32),
    Wake(u8, u8),
    WakeAll(u8, u64),
    /// The head that a notify of a wait queue finds; the result of a try to take there before a position.
    Notify(u8, u32),
    WakeBefore(u8, u32, Result<Option<u8>, NextRefusal>),
    /// The element is put on this processor; an element is taken off it.
    On(u8, u8, Result<(), ProcessorBusy>),
    Off(u8, Option<u8>),
    /// The stop bit, which was clear, is set; the element is parked or not; the element is started.
    Stop(u8),
    Park(u8, bool),
    Start(u8, Started),
    /// The signal of this number; the mask of the signals that are delivered.
    Signal(u8, u8, Signalled),
    Deliver(u8, u16),
    /// The mask of the signals that are pending, wherever the element is.
    Pending(u8, u16),
}

/// Takes the next free element, which has to be this one.
pub(crate) fn free(table: &ThreadTable, hand: &mut Hand, element: u8) -> bool
    requires { IsHandOf table.now hand.old }
    ensures { IsSameHand hand.old hand.new }
{
    table.try_free(hand).map(Element::number) == Ok(element)
}

/// Moves an element, which the hand has to hold, to the ready ring, a wait queue or the free elements.
fn moves<R: Abort>(
    rt: &R,
    table: &ThreadTable,
    hand: &mut Hand,
    element: Element,
    act: &Act,
) -> Result<(), MoveRefusal>
    requires table { IsHandOf table.now hand.old }
    requires held { has (view_of hand.old) element ≡ true }
    ensures { IsSameHand hand.old hand.new }
{
    match act {
        Act::Ready(_) => table.try_ready(hand, element),
        Act::Wait(_, w) => table.try_wait(hand, element, wait_queue(rt, *w)),
        Act::WaitAt(_, w, ticket, _) => {
            table.try_wait_at(hand, element, wait_queue(rt, *w), *ticket)
        }
        _ => table.try_retire(hand, element),
    }
}

/// Moves an element, which the hand has to hold, and checks the result.
fn is_moved<R: Abort>(
    rt: &R,
    table: &ThreadTable,
    hand: &mut Hand,
    number: u8,
    act: &Act,
    wanted: Result<(), MoveRefusal>,
) -> bool
    requires { IsHandOf table.now hand.old }
    ensures { IsSameHand hand.old hand.new }
{
    let element = element(rt, number);
    if !hand.holds(element) {
        return false;
    }
    let answer = moves(rt, table, hand, element, act);
    answer == wanted && hand.holds(element) == answer.is_err()
}

/// Puts an element, which the hand has to hold, on a processor, which it has to serve.
fn puts_on<R: Abort>(
    rt: &R,
    table: &ThreadTable,
    hand: &mut Hand,
    p: u8,
    e: u8,
    wanted: Result<(), ProcessorBusy>,
) -> bool
    requires { IsHandOf table.now hand.old }
    ensures { IsSameHand hand.old hand.new }
{
    let (p, e) = (processor(rt, p), element(rt, e));
    if !hand.serves(p) {
        return false;
    }
    if !hand.holds(e) {
        return false;
    }
    let answer = table.on(hand, p, e);
    answer == wanted
        && hand.holds(e) == answer.is_err()
        && (answer.is_err() || hand.on_processor(p) == Some(e))
}

/// Takes off the element on a processor, which the hand has to serve.
fn takes_off<R: Abort>(
    rt: &R,
    table: &ThreadTable,
    hand: &mut Hand,
    p: u8,
    wanted: Option<u8>,
) -> bool
    requires { IsHandOf table.now hand.old }
    ensures { IsSameHand hand.old hand.new }
{
    let p = processor(rt, p);
    if !hand.serves(p) {
        return false;
    }
    table.off(hand, p).ok().map(Element::number) == wanted && hand.on_processor(p).is_none()
}

/// Parks an element that the hand has to hold, or finds its stop bit clear.
fn parks<R: Abort>(rt: &R, table: &ThreadTable, hand: &mut Hand, e: u8, parked: bool) -> bool
    requires { IsHandOf table.now hand.old }
    ensures { IsSameHand hand.old hand.new }
{
    let element = element(rt, e);
    if !hand.holds(element) {
        return false;
    }
    table.try_park(hand, element) == Ok(parked) && hand.holds(element) == !parked
}

/// Delivers the signals of an element, which the hand has to hold.
fn delivers<R: Abort>(rt: &R, table: &ThreadTable, hand: &mut Hand, e: u8, mask: u16) -> bool
    requires { IsHandOf table.now hand.old }
    ensures { IsSameHand hand.old hand.new }
{
    let element = element(rt, e);
    if !hand.holds(element) {
        return false;
    }
    table.try_deliver(hand, element) == Ok(mask)
}

/// Tries to take before a position of a wait queue, and checks the result.
fn wakes_before<R: Abort>(
    rt: &R,
    table: &ThreadTable,
    hand: &mut Hand,
    w: u8,
    head: u32,
    wanted: Result<Option<u8>, NextRefusal>,
) -> bool
    requires { IsHandOf table.now hand.old }
    ensures { IsSameHand hand.old hand.new }
{
    let answer = table.try_wake_before(hand, wait_queue(rt, w), head);
    answer.map(|woken| woken.map(Element::number)) == wanted
}

/// Whether the call of an act with an element has the act's result.
fn tends<R: Abort>(rt: &R, table: &ThreadTable, hand: &mut Hand, act: &Act) -> bool
    requires { IsHandOf table.now hand.old }
    ensures { IsSameHand hand.old hand.new }
{
    match act {
        Act::Ready(e) => is_moved(rt, table, hand, *e, act, Ok(())),
        Act::Wait(e, _) => is_moved(rt, table, hand, *e, act, Ok(())),
        Act::WaitAt(e, _, _, wanted) => is_moved(rt, table, hand, *e, act, *wanted),
        Act::Retire(e, wanted) => is_moved(rt, table, hand, *e, act, *wanted),
        Act::Stop(e) => table.stop(hand, element(rt, *e)),
        Act::Park(e, parked) => parks(rt, table, hand, *e, *parked),
        Act::Start(e, started) => table.try_start(hand, element(rt, *e)) == Ok(*started),
        Act::Signal(e, s, signalled) => {
            table.signal(hand, element(rt, *e), signal(rt, *s)) == *signalled
        }
        Act::Deliver(e, mask) => delivers(rt, table, hand, *e, *mask),
        Act::Pending(e, mask) => table.pending(hand, element(rt, *e)) == *mask,
        _ => false,
    }
}

/// Whether the call of an act with queues, processors, or elements that the hand need not hold has the act's result.
fn as_said<R: Abort + Wait>(rt: &R, table: &ThreadTable, hand: &mut Hand, act: &Act) -> bool
    requires { IsHandOf table.now hand.old }
    ensures { IsSameHand hand.old hand.new }
{
    match act {
        Act::Free(e) => free(table, hand, *e),
        Act::Next(e) => table.try_next(hand).map(Element::number) == Ok(*e),
        Act::NoneReady => table.try_next(hand) == Err(NextRefusal::NoneReady),
        Act::Ticket(w, ticket) => table.ticket(hand, wait_queue(rt, *w)) == *ticket,
        Act::Wake(w, e) => table
            .try_wake(hand, wait_queue(rt, *w))
            .map(Element::number)
            == Ok(*e),
        Act::WakeAll(w, mask) => table.wake_all(rt, hand, wait_queue(rt, *w)) == *mask,
        Act::Notify(w, head) => table.notify(hand, wait_queue(rt, *w)) == *head,
        Act::WakeBefore(w, head, wanted) => wakes_before(rt, table, hand, *w, *head, *wanted),
        Act::On(p, e, wanted) => puts_on(rt, table, hand, *p, *e, *wanted),
        Act::Off(p, wanted) => takes_off(rt, table, hand, *p, *wanted),
        _ => tends(rt, table, hand, act),
    }
}

/// Makes these calls of the hand in order, and checks each result.
pub(crate) fn does<R: Abort + Wait>(rt: &R, table: &ThreadTable, hand: &mut Hand, acts: &[Act])
    requires { IsHandOf table.now hand.old }
    ensures { IsSameHand hand.old hand.new }
{
    for (at, act) in acts.iter().enumerate() {
        assert!(rt; as_said(rt, table, hand, act), "act {at}");
    }
}

/// The only hand of a table makes all these calls, and the table is closed. These elements are in these places then.
pub(crate) fn plays<R: Abort + Wait>(
    rt: &R,
    alloc: Global,
    first: u32,
    acts: &[Act],
    places: &[(usize, Place)],
) -> Places
    requires { first ≤ 4294967231 }
{
    let (table, mut hand) = begins(rt, alloc, first);
    does(rt, &table, &mut hand, acts);
    closes(rt, table, hand, places)
}
