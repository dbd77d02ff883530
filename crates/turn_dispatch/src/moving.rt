//! Moves of an element that the hand holds, retried if another hand was first.
ghost use Rattle.std.specs.Prelude.{◌≡◌, true};
ghost use Rattle.thread_table.specs.Layout.{ready_ring, free_ring, wait_ring};
ghost use Rattle.thread_table.specs.Answers.{MoveAnswer};
ghost use Rattle.thread_table.specs.Handles.{view_of, call_of, IsHandOf, IsSameHand};
ghost use Rattle.thread_table.specs.Keeping.{Keeps};
ghost use Rattle.thread_table.specs.Rules.{done_at, has};
ghost use Rattle.turn_dispatch.specs.Holdings.{Steady};
ghost use Rattle.turn_dispatch.specs.Sendings.{Sent, WaitedAt, HoldsUnless, ring_of, retired, has_gone};
ghost use Rattle.turn_dispatch.specs.Tallies.{AddsToTally, no_events};

use crossbeam_utils::Backoff;
use event_theory::{Element, WaitNumber};
use std::sync::Wait;
use thread_table::{Hand, MoveRefusal, ThreadTable};

// The element queue that an element is moved to.
#[derive(Drop)]
enum Target {
    Ready,
    Free,
    Wait(WaitNumber),
}

/// The result of a wait with a ticket.
#[derive(Clone, Copy, Debug, PartialEq, Eq)]
pub enum Waited {
    /// The element is in the wait queue.
    Waiting,
    /// The wait queue's number of notifies is this one, not the ticket, so the element was made ready. If it is not
    /// `ready`, the ready ring has no position left, and the hand holds the element.
    Moved { mark: u32, ready: bool },
    /// The wait queue has no position left, and the hand holds the element.
    Spent,
}

// One try.
fn try_send(
    threads: &ThreadTable,
    hand: &mut Hand,
    target: &Target,
    element: Element,
) -> Result<(), MoveRefusal>
    requires table { IsHandOf threads.now hand.old }
    requires held { has (view_of hand.old) element ≡ true }
    ensures moved { MoveAnswer (call_of hand.old) (view_of hand.old) (ring_of target.now) element result
        (view_of hand.new) }
    ensures handle { IsSameHand hand.old hand.new }
{
    match target {
        Target::Ready => threads.try_ready(hand, element),
        Target::Free => threads.try_retire(hand, element),
        Target::Wait(wait) => threads.try_wait(hand, element, *wait),
    }
}

// Retries until no other hand was first.
fn send<R: Wait>(
    rt: &R,
    threads: &ThreadTable,
    hand: &mut Hand,
    target: &Target,
    element: Element,
) -> bool
    requires table { IsHandOf threads.now hand.old }
    requires held { has (view_of hand.old) element ≡ true }
    ensures sent { Sent (call_of hand.old) (ring_of target.now) element result (view_of hand.old) (view_of hand.new) }
    ensures handle { IsSameHand hand.old hand.new }
{
    let backoff = Backoff::new();
    for _ in rt.forever() {
        match try_send(threads, hand, target, element) {
            Ok(()) => return true,
            Err(MoveRefusal::Spent) => return false,
            Err(MoveRefusal::Lost { seen: _ }) => backoff.spin(),
            Err(MoveRefusal::Moved { mark: _ }) => unreachable!(),
        }
    }
    unreachable!()
}

/// Puts an element that the hand holds into the ready ring, and retries if another hand was first. Returns false if the
/// ring has no position left: the hand then still holds the element.
///
/// Condition: the hand holds the element, which `Hand::holds` reports.
pub fn make_ready<R: Wait>(rt: &R, threads: &ThreadTable, hand: &mut Hand, element: Element) -> bool
    requires table { IsHandOf threads.now hand.old }
    requires held { has (view_of hand.old) element ≡ true }
    ensures frame { Keeps (view_of hand.old) (view_of hand.new) }
    ensures holds { HoldsUnless result element (view_of hand.old) (view_of hand.new) }
    ensures adds { AddsToTally no_events (view_of hand.old) (view_of hand.new) }
    ensures steady { Steady (view_of hand.old) (view_of hand.new) }
    ensures sent { Sent (call_of hand.old) ready_ring element result (view_of hand.old) (view_of hand.new) }
    ensures handle { IsSameHand hand.old hand.new }
{
    send(rt, threads, hand, &Target::Ready, element)
}

/// Adds an element that the hand holds to the free elements, as `make_ready` adds one to the ready ring.
pub fn retire<R: Wait>(rt: &R, threads: &ThreadTable, hand: &mut Hand, element: Element) -> bool
    requires table { IsHandOf threads.now hand.old }
    requires held { has (view_of hand.old) element ≡ true }
    ensures frame { Keeps (view_of hand.old) (view_of hand.new) }
    ensures holds { HoldsUnless result element (view_of hand.old) (view_of hand.new) }
    ensures adds { AddsToTally (retired result element (done_at (view_of hand.old).seen.object element)) (view_of hand.old)
        (view_of hand.new) }
    ensures steady { Steady (view_of hand.old) (view_of hand.new) }
    ensures sent { Sent (call_of hand.old) free_ring element result (view_of hand.old) (view_of hand.new) }
    ensures handle { IsSameHand hand.old hand.new }
{
    send(rt, threads, hand, &Target::Free, element)
}

/// Puts an element that the hand holds into a wait queue, as `make_ready` puts one into the ready ring.
pub fn wait_in<R: Wait>(
    rt: &R,
    threads: &ThreadTable,
    hand: &mut Hand,
    element: Element,
    wait: WaitNumber,
) -> bool
    requires table { IsHandOf threads.now hand.old }
    requires held { has (view_of hand.old) element ≡ true }
    ensures frame { Keeps (view_of hand.old) (view_of hand.new) }
    ensures holds { HoldsUnless result element (view_of hand.old) (view_of hand.new) }
    ensures adds { AddsToTally no_events (view_of hand.old) (view_of hand.new) }
    ensures steady { Steady (view_of hand.old) (view_of hand.new) }
    ensures sent { Sent (call_of hand.old) (wait_ring wait) element result (view_of hand.old) (view_of hand.new) }
    ensures handle { IsSameHand hand.old hand.new }
{
    send(rt, threads, hand, &Target::Wait(wait), element)
}

// Retries until no other hand was first, and makes the element ready if the ticket is out of date.
fn wait_or_ready<R: Wait>(
    rt: &R,
    threads: &ThreadTable,
    hand: &mut Hand,
    element: Element,
    wait: WaitNumber,
    ticket: u32,
) -> Waited
    requires table { IsHandOf threads.now hand.old }
    requires held { has (view_of hand.old) element ≡ true }
    ensures waited { WaitedAt (call_of hand.old) wait element ticket result (view_of hand.old) (view_of hand.new) }
    ensures handle { IsSameHand hand.old hand.new }
{
    let backoff = Backoff::new();
    for _ in rt.forever() {
        match threads.try_wait_at(hand, element, wait, ticket) {
            Ok(()) => return Waited::Waiting,
            Err(MoveRefusal::Spent) => return Waited::Spent,
            Err(MoveRefusal::Lost { seen: _ }) => backoff.spin(),
            Err(MoveRefusal::Moved { mark }) => {
                let ready = make_ready(rt, threads, hand, element);
                return Waited::Moved { mark, ready };
            }
        }
    }
    unreachable!()
}

/// Puts an element that the hand holds into a wait queue, if the ticket is still its number of notifies. It retries if
/// another hand put an element first. If the number is another, the element is made ready.
pub fn wait_at<R: Wait>(
    rt: &R,
    threads: &ThreadTable,
    hand: &mut Hand,
    element: Element,
    wait: WaitNumber,
    ticket: u32,
) -> Waited
    requires table { IsHandOf threads.now hand.old }
    requires held { has (view_of hand.old) element ≡ true }
    ensures frame { Keeps (view_of hand.old) (view_of hand.new) }
    ensures holds { HoldsUnless (has_gone result) element (view_of hand.old) (view_of hand.new) }
    ensures adds { AddsToTally no_events (view_of hand.old) (view_of hand.new) }
    ensures steady { Steady (view_of hand.old) (view_of hand.new) }
    ensures waited { WaitedAt (call_of hand.old) wait element ticket result (view_of hand.old) (view_of hand.new) }
    ensures handle { IsSameHand hand.old hand.new }
{
    wait_or_ready(rt, threads, hand, element, wait, ticket)
}
