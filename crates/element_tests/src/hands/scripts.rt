//! Scripts: a hand's calls on the elements of a thread table, each with its result, and functions that run them.
ghost use Rattle.std.specs.Prelude.{◌≡◌, ◌≤◌, true, IfSome};
ghost use Rattle.thread_table.specs.Handles.{view_of, IsHandOf, IsSameHand};
ghost use Rattle.thread_table.specs.Rules.{has};

use crate::fixtures::{begins, closes, element, wait_queue};
use event_theory::{Element, WaitNumber};
use std::alloc::Global;
use std::process::Abort;
use std::sync::Wait;
use thread_table::{Hand, NextRefusal, Place, ThreadTable};
use turn_dispatch::*;

/// A call of a hand, with its result. Elements and wait queues are given by their numbers.
pub(crate) enum Act {
    /// This element is the next free one.
    Free(u8),
    /// A turn begins with this element, which has done so many steps; or with none; or it parks this element.
    Begin(u8, u64),
    Idle,
    Parked(u8),
    /// The step of an element that is held isn't done.
    Undone(u8),
    /// An element that is held is made ready, retired, or waits in this wait queue, or stays held; or waits at a
    /// ticket.
    Ready(u8, bool),
    Retire(u8, bool),
    WaitIn(u8, u8, bool),
    WaitAt(u8, u8, u32, Waited),
    /// The ticket of a wait queue; the masks of the elements that are taken there and made ready.
    Ticket(u8, u32),
    Wake(u8, u64, u64),
    /// The stop bit, which was clear, is set; an element that is held is parked; an element is started.
    Stop(u8),
    Park(u8),
    Start(u8, Resumed),
    /// Repeated so often: a free element is made ready, begun and retired; the element is made ready and begun; it
    /// waits in the wait queue and is woken; a free element is made ready.
    Passes(u32),
    Readies(u8, u32),
    Waits(u8, u8, u32),
    ReadyRest(u32),
}

/// Takes a free element.
fn freed(threads: &ThreadTable, hand: &mut Hand) -> Option<Element>
    requires { IsHandOf threads.now hand.old }
    ensures held { IfSome result (λ element. has (view_of hand.new) element ≡ true) }
    ensures handle { IsSameHand hand.old hand.new }
{
    let Ok(element) = threads.try_free(hand) else {
        return None;
    };
    if hand.holds(element) {
        Some(element)
    } else {
        None
    }
}

/// Takes a ready element that nobody stopped, with its number of steps done.
fn begun<R: Wait>(rt: &R, threads: &ThreadTable, hand: &mut Hand) -> Option<(Element, u64)>
    requires { IsHandOf threads.now hand.old }
    ensures held { IfSome result (λ r. has (view_of hand.new) r.0 ≡ true) }
    ensures handle { IsSameHand hand.old hand.new }
{
    let mut signals = [0; 64];
    match begin(rt, threads, hand, &mut signals) {
        Ok(begun) => Some((begun.element, begun.number)),
        Err(_) => None,
    }
}

/// Takes free elements, makes them ready, takes them from there and retires them, so often. False if one of these calls
/// is refused.
fn passes<R: Wait>(rt: &R, threads: &ThreadTable, hand: &mut Hand, times: u32) -> bool
    requires { IsHandOf threads.now hand.old }
    ensures { IsSameHand hand.old hand.new }
{
    for _ in 0..times {
        let Some(element) = freed(threads, hand) else {
            return false;
        };
        if !make_ready(rt, threads, hand, element) {
            return false;
        }
        let Some((element, _)) = begun(rt, threads, hand) else {
            return false;
        };
        if !retire(rt, threads, hand, element) {
            return false;
        }
    }
    true
}

/// Makes an element ready that the hand holds, and takes it again, so often. False if one of these calls is refused.
fn readies<R: Wait>(
    rt: &R,
    threads: &ThreadTable,
    hand: &mut Hand,
    element: Element,
    times: u32,
) -> bool
    requires { IsHandOf threads.now hand.old }
    ensures { IsSameHand hand.old hand.new }
{
    for _ in 0..times {
        if !hand.holds(element) {
            return false;
        }
        if !make_ready(rt, threads, hand, element) {
            return false;
        }
        if begun(rt, threads, hand).is_none() {
            return false;
        }
    }
    true
}

/// Puts an element that the hand holds in a wait queue, and wakes it, so often. False if it isn't held, or is refused.
fn waits<R: Wait>(
    rt: &R,
    threads: &ThreadTable,
    hand: &mut Hand,
    element: Element,
    wait: WaitNumber,
    times: u32,
) -> bool
    requires { IsHandOf threads.now hand.old }
    ensures { IsSameHand hand.old hand.new }
{
    for _ in 0..times {
        if !hand.holds(element) {
            return false;
        }
        if !wait_in(rt, threads, hand, element, wait) {
            return false;
        }
        wake(rt, threads, hand, wait);
    }
    true
}

/// Makes so many free elements ready. False if one of these calls is refused.
fn readies_rest<R: Wait>(rt: &R, threads: &ThreadTable, hand: &mut Hand, times: u32) -> bool
    requires { IsHandOf threads.now hand.old }
    ensures { IsSameHand hand.old hand.new }
{
    for _ in 0..times {
        let Some(element) = freed(threads, hand) else {
            return false;
        };
        if !make_ready(rt, threads, hand, element) {
            return false;
        }
    }
    true
}

/// Makes one call with an element that the hand has to hold.
fn does_with<R: Abort + Wait>(
    rt: &R,
    threads: &ThreadTable,
    hand: &mut Hand,
    number: u8,
    act: &Act,
) -> bool
    requires { IsHandOf threads.now hand.old }
    ensures { IsSameHand hand.old hand.new }
{
    let e = element(rt, number);
    if !hand.holds(e) {
        return false;
    }
    match act {
        Act::Undone(_) => count(threads, hand, e, false) == Counted::Undone,
        Act::Ready(_, goes) => {
            make_ready(rt, threads, hand, e) == *goes && hand.holds(e) == !*goes
        }
        Act::Retire(_, goes) => retire(rt, threads, hand, e) == *goes && hand.holds(e) == !*goes,
        Act::WaitIn(_, w, goes) => {
            wait_in(rt, threads, hand, e, wait_queue(rt, *w)) == *goes && hand.holds(e) == !*goes
        }
        Act::WaitAt(_, w, ticket, waited) => {
            wait_at(rt, threads, hand, e, wait_queue(rt, *w), *ticket) == *waited
        }
        Act::Park(_) => threads.try_park(hand, e) == Ok(true) && !hand.holds(e),
        _ => false,
    }
}

/// Whether a turn that begins has this result.
fn is_idle<R: Wait>(rt: &R, threads: &ThreadTable, hand: &mut Hand, idle: Idle) -> bool
    requires { IsHandOf threads.now hand.old }
    ensures { IsSameHand hand.old hand.new }
{
    let mut signals = [0; 64];
    begin(rt, threads, hand, &mut signals) == Err(idle)
}

/// Whether the calls of an act that is repeated so often all have their results.
fn does_often<R: Abort + Wait>(rt: &R, threads: &ThreadTable, hand: &mut Hand, act: &Act) -> bool
    requires { IsHandOf threads.now hand.old }
    ensures { IsSameHand hand.old hand.new }
{
    match act {
        Act::Passes(times) => passes(rt, threads, hand, *times),
        Act::Readies(e, times) => readies(rt, threads, hand, element(rt, *e), *times),
        Act::Waits(e, w, times) => {
            waits(
                rt,
                threads,
                hand,
                element(rt, *e),
                wait_queue(rt, *w),
                *times,
            )
        }
        Act::ReadyRest(times) => readies_rest(rt, threads, hand, *times),
        _ => false,
    }
}

/// Whether the call of an act has the act's result.
fn as_said<R: Abort + Wait>(rt: &R, threads: &ThreadTable, hand: &mut Hand, act: &Act) -> bool
    requires { IsHandOf threads.now hand.old }
    ensures { IsSameHand hand.old hand.new }
{
    match act {
        Act::Free(e) => freed(threads, hand).map(Element::number) == Some(*e),
        Act::Begin(e, done) => begun(rt, threads, hand) == Some((element(rt, *e), *done)),
        Act::Idle => is_idle(
            rt,
            threads,
            hand,
            Idle::NothingReady(NextRefusal::NoneReady),
        ),
        Act::Parked(e) => is_idle(rt, threads, hand, Idle::Parked(element(rt, *e))),
        Act::Undone(e)
        | Act::Ready(e, _)
        | Act::Retire(e, _)
        | Act::WaitIn(e, _, _)
        | Act::WaitAt(e, _, _, _)
        | Act::Park(e) => does_with(rt, threads, hand, *e, act),
        Act::Ticket(w, ticket) => threads.ticket(hand, wait_queue(rt, *w)) == *ticket,
        Act::Wake(w, taken, ready) => {
            let woken = wake(rt, threads, hand, wait_queue(rt, *w));
            (woken.taken, woken.ready) == (*taken, *ready)
        }
        Act::Stop(e) => threads.stop(hand, element(rt, *e)),
        Act::Start(e, resumed) => start(rt, threads, hand, element(rt, *e)) == Ok(*resumed),
        _ => does_often(rt, threads, hand, act),
    }
}

/// Makes these calls of the hand in order, and checks each result.
pub(crate) fn does<R: Abort + Wait>(rt: &R, threads: &ThreadTable, hand: &mut Hand, acts: &[Act])
    requires { IsHandOf threads.now hand.old }
    ensures { IsSameHand hand.old hand.new }
{
    for (at, act) in acts.iter().enumerate() {
        assert!(rt; as_said(rt, threads, hand, act), "act {at}");
    }
}

/// The only hand of a table makes all these calls, and the table is closed. These elements are in these places then.
pub(crate) fn plays<R: Abort + Wait>(
    rt: &R,
    alloc: Global,
    first: u32,
    acts: &[Act],
    places: &[(usize, Place)],
)
    requires { first ≤ 4294967231 }
{
    let (threads, mut hand) = begins(rt, alloc, first);
    does(rt, &threads, &mut hand, acts);
    closes(rt, threads, hand, places);
}
