//! Elements that are woken or started, and made ready.
ghost use Rattle.std.specs.Prelude.{◌≡◌, ◌<◌};
ghost use Rattle.thread_table.specs.declared.layout.TheConstants.{ELEMENTS};
ghost use Rattle.thread_table.specs.Handles.{view_of, call_of, IsHandOf, IsSameHand};
ghost use Rattle.thread_table.specs.Keeping.{Keeps};
ghost use Rattle.turn_dispatch.specs.Holdings.{Steady};
ghost use Rattle.turn_dispatch.specs.Tallies.{AddsToTally, no_events};
ghost use Rattle.turn_dispatch.specs.Wakings.{Woke, HoldsWoken, AllReady, CanWake, IsMember, ResumeAnswer, ResumeHolds};

use crate::moving::make_ready;
use event_theory::{Element, WaitNumber};
use std::sync::Wait;
use thread_table::{Hand, Lost, Started, ThreadTable};

/// The elements that were woken, bit e for element e.
#[derive(Clone, Copy, Debug, PartialEq, Eq)]
pub struct Woken {
    /// Those that were taken from the wait queue.
    pub taken: u64,
    /// Those of them that are in the ready ring. The hand holds the others, because the ring has no position left.
    pub ready: u64,
}

/// The result of a start.
#[derive(Clone, Copy, Debug, PartialEq, Eq)]
pub enum Resumed {
    /// The stop bit was clear.
    NotStopped,
    /// The stop bit was cleared. The element wasn't in its stop cell.
    Cleared,
    /// The stop bit was cleared, and the element, which was in its stop cell, is in the ready ring.
    Ready,
    /// The stop bit was cleared, and the hand holds the element, which was in its stop cell, because the ready ring has
    /// no position left.
    Held,
}

// Makes each element of a mask ready, which the hand holds, the lowest number first. Returns the mask of those that
// are.
fn ready_all<R: Wait>(rt: &R, threads: &ThreadTable, hand: &mut Hand, taken: u64) -> u64
    requires table { IsHandOf threads.now hand.old }
    requires held { CanWake taken (view_of hand.old) }
    ensures sent { AllReady (call_of hand.old) (record { taken = taken; ready = result }) (view_of hand.old) ELEMENTS
        (view_of hand.new) }
    ensures handle { IsSameHand hand.old hand.new }
{
    let mut ready = 0;
    for number in 0..64u8 {
        if let Some(element) = member(taken, number) {
            if make_ready(rt, threads, hand, element) {
                ready |= 1u64 << number;
            }
        }
    }
    ready
}

/// Makes one notify of a wait queue, takes its elements as `ThreadTable::wake_all` does, and makes each of them ready,
/// the lowest number first.
///
/// Waits for the hands that claimed a place before the notify and have not raised it.
pub fn wake<R: Wait>(rt: &R, threads: &ThreadTable, hand: &mut Hand, wait: WaitNumber) -> Woken
    requires table { IsHandOf threads.now hand.old }
    ensures frame { Keeps (view_of hand.old) (view_of hand.new) }
    ensures holds { HoldsWoken result (view_of hand.old) (view_of hand.new) }
    ensures adds { AddsToTally no_events (view_of hand.old) (view_of hand.new) }
    ensures steady { Steady (view_of hand.old) (view_of hand.new) }
    ensures woken { Woke (call_of hand.old) wait result (view_of hand.old) (view_of hand.new) }
    ensures handle { IsSameHand hand.old hand.new }
{
    let taken = threads.wake_all(rt, hand, wait);
    let ready = ready_all(rt, threads, hand, taken);
    Woken { taken, ready }
}

// Clears the stop bit, and makes the element ready if the hand then holds it.
fn resume<R: Wait>(
    rt: &R,
    threads: &ThreadTable,
    hand: &mut Hand,
    element: Element,
) -> Result<Resumed, Lost>
    requires table { IsHandOf threads.now hand.old }
    ensures started { ResumeAnswer (call_of hand.old) element result (view_of hand.old) (view_of hand.new) }
    ensures handle { IsSameHand hand.old hand.new }
{
    match threads.try_start(hand, element) {
        Err(lost) => Err(lost),
        Ok(Started::NotStopped) => Ok(Resumed::NotStopped),
        Ok(Started::Cleared) => Ok(Resumed::Cleared),
        Ok(Started::Held) => {
            if make_ready(rt, threads, hand, element) {
                Ok(Resumed::Ready)
            } else {
                Ok(Resumed::Held)
            }
        }
    }
}

/// Clears the stop bit of an element, and makes the element ready if it was in its stop cell. It retries if another
/// hand was first. Lost if another hand changed the state word first: the stop bit was set, and nothing was done.
pub fn start<R: Wait>(
    rt: &R,
    threads: &ThreadTable,
    hand: &mut Hand,
    element: Element,
) -> Result<Resumed, Lost>
    requires table { IsHandOf threads.now hand.old }
    ensures frame { Keeps (view_of hand.old) (view_of hand.new) }
    ensures holds { ResumeHolds element result (view_of hand.old) (view_of hand.new) }
    ensures adds { AddsToTally no_events (view_of hand.old) (view_of hand.new) }
    ensures steady { Steady (view_of hand.old) (view_of hand.new) }
    ensures started { ResumeAnswer (call_of hand.old) element result (view_of hand.old) (view_of hand.new) }
    ensures handle { IsSameHand hand.old hand.new }
{
    resume(rt, threads, hand, element)
}

// The element with this number, if it is in the mask.
fn member(mask: u64, number: u8) -> Option<Element>
    requires { number < ELEMENTS }
    ensures { IsMember mask number result }
{
    if mask >> number & 1 == 1 {
        Element::new(number)
    } else {
        None
    }
}
