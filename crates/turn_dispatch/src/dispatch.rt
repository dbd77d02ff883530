//! How a turn begins: with an element from the ready ring, or with none.
ghost use Rattle.std.specs.Prelude.{◌≡◌, ◌<◌, true, IfOk, MatchResult};
ghost use Rattle.thread_table.specs.Answers.{DeliverAnswer};
ghost use Rattle.thread_table.specs.Entries.{HoldsMore};
ghost use Rattle.thread_table.specs.Handles.{view_of, call_of, IsHandOf, IsSameHand};
ghost use Rattle.thread_table.specs.Keeping.{Keeps};
ghost use Rattle.thread_table.specs.Rules.{done_at, has};
ghost use Rattle.turn_dispatch.specs.Dispatches.{Awake, Began, WasIdle, IdleHolds, mask_of};
ghost use Rattle.turn_dispatch.specs.Holdings.{Shows, Steady};
ghost use Rattle.turn_dispatch.specs.Tallies.{AddsToTally, no_events, one_delivery, delivery};

use crate::moving::make_ready;
use event_theory::Element;
use std::sync::Wait;
use thread_table::{Hand, Lost, NextRefusal, ThreadTable};

/// An element that a turn has at hand.
#[derive(Clone, Copy, Debug, PartialEq, Eq)]
pub struct Begun {
    pub element: Element,
    /// The signals that were delivered, bit s for signal s. Lost if another hand changed the state word first, and then
    /// none was delivered.
    pub delivered: Result<u16, Lost>,
    /// How many steps the element has done.
    pub number: u64,
}

/// Why a turn has no element at hand.
#[derive(Clone, Copy, Debug, PartialEq, Eq)]
pub enum Idle {
    /// None was taken from the ready ring.
    NothingReady(NextRefusal),
    /// The element's stop bit was set, and the element is in its stop cell.
    Parked(Element),
    /// The element's stop bit was set, but another hand changed the state word first, so the element was made ready. If
    /// it is not `ready`, the ready ring has no position left, and the hand holds the element.
    ParkLost {
        element: Element,
        lost: Lost,
        ready: bool,
    },
}

// Takes an element from the ready ring whose stop bit is clear.
fn awake<R: Wait>(rt: &R, threads: &ThreadTable, hand: &mut Hand) -> Result<Element, Idle>
    requires table { IsHandOf threads.now hand.old }
    ensures held { IfOk result (λ element. has (view_of hand.new) element ≡ true) }
    ensures woken { MatchResult result
        (λ element. Awake (call_of hand.old) element (view_of hand.old) (view_of hand.new))
        (λ idle. WasIdle (call_of hand.old) idle (view_of hand.old) (view_of hand.new)) }
    ensures handle { IsSameHand hand.old hand.new }
{
    let element = match threads.try_next(hand) {
        Ok(element) => element,
        Err(refusal) => return Err(Idle::NothingReady(refusal)),
    };
    match threads.try_park(hand, element) {
        Ok(false) => Ok(element),
        Ok(true) => Err(Idle::Parked(element)),
        Err(lost) => {
            let ready = make_ready(rt, threads, hand, element);
            Err(Idle::ParkLost {
                element,
                lost,
                ready,
            })
        }
    }
}

// Delivers the element's signals.
fn deliver(
    threads: &ThreadTable,
    hand: &mut Hand,
    element: Element,
    signals: &mut [u16; 64],
) -> Result<u16, Lost>
    requires table { IsHandOf threads.now hand.old }
    requires held { has (view_of hand.old) element ≡ true }
    ensures held { has (view_of hand.new) element ≡ true }
    ensures signals { Shows (delivery element (mask_of result)) signals.old signals.new }
    ensures delivered { DeliverAnswer (call_of hand.old) (view_of hand.old) element result (view_of hand.new) }
    ensures handle { IsSameHand hand.old hand.new }
{
    let delivered = threads.try_deliver(hand, element);
    if let Ok(mask) = delivered {
        signals[usize::from(element.number())] |= mask;
    }
    delivered
}

/// Begins a turn: takes the oldest element of the ready ring and parks it if its stop bit is set. Otherwise it delivers
/// the element's signals, which are added to the element's mask in `signals`, and reads how many steps the element has
/// done. The hand then holds the element in addition to what it held.
///
/// An element whose park was lost is made ready, with retries if another hand was first.
pub fn begin<R: Wait>(
    rt: &R,
    threads: &ThreadTable,
    hand: &mut Hand,
    signals: &mut [u16; 64],
) -> Result<Begun, Idle>
    requires table { IsHandOf threads.now hand.old }
    ensures frame { Keeps (view_of hand.old) (view_of hand.new) }
    ensures holds { MatchResult result (λ begun. HoldsMore begun.element (view_of hand.old) (view_of hand.new))
        (λ idle. IdleHolds idle (view_of hand.old) (view_of hand.new)) }
    ensures held { IfOk result (λ begun. has (view_of hand.new) begun.element ≡ true) }
    ensures adds { MatchResult result
        (λ begun. AddsToTally (one_delivery begun.element (mask_of begun.delivered)) (view_of hand.old) (view_of hand.new))
        (λ idle. AddsToTally no_events (view_of hand.old) (view_of hand.new)) }
    ensures number { IfOk result (λ begun. begun.number ≡ done_at (view_of hand.new).seen.object begun.element) }
    ensures steady { Steady (view_of hand.old) (view_of hand.new) }
    ensures signals { MatchResult result
        (λ begun. Shows (delivery begun.element (mask_of begun.delivered)) signals.old signals.new)
        (λ idle. signals.new ≡ signals.old) }
    ensures begun { MatchResult result
        (λ begun. Began (call_of hand.old) begun (view_of hand.old) (view_of hand.new))
        (λ idle. WasIdle (call_of hand.old) idle (view_of hand.old) (view_of hand.new)) }
    ensures handle { IsSameHand hand.old hand.new }
{
    let element = match awake(rt, threads, hand) {
        Ok(element) => element,
        Err(idle) => return Err(idle),
    };
    let delivered = deliver(threads, hand, element, signals);
    let number = threads.pc(hand, element);
    Ok(Begun {
        element,
        delivered,
        number,
    })
}
