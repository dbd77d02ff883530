//! An element on a processor that the hand serves, and off it.
ghost use Rattle.std.specs.Prelude.{◌≡◌, ◌≢◌, true, Some, None, slice_set};
ghost use Rattle.thread_table.specs.Handles.{view_of, call_of, IsHandOf, IsSameHand};
ghost use Rattle.thread_table.specs.Rules.{has, serves, running};
ghost use Rattle.thread_table.specs.Answers.{PutsOn, TakesOff};
ghost use Rattle.thread_table.specs.Entries.{HoldsMore, HoldsLess};
ghost use Rattle.turn_dispatch.specs.Holdings.{IsFree, IsOn, KeepsBut, Steady};
ghost use Rattle.turn_dispatch.specs.Tallies.{AddsToTally, no_events};

use event_theory::{Element, Processor};
use thread_table::{Hand, ThreadTable};

/// Puts an element that the hand holds on a processor that it serves and that has no element, by one step.
pub fn put_on(threads: &ThreadTable, hand: &mut Hand, processor: Processor, element: Element)
    requires table { IsHandOf threads.now hand.old }
    requires held { has (view_of hand.old) element ≡ true }
    requires free { IsFree processor (view_of hand.old) }
    ensures there { IsOn processor element (view_of hand.new) }
    ensures frame { KeepsBut (slice_set (view_of hand.old).own.on processor (Some element)) (view_of hand.old)
        (view_of hand.new) }
    ensures holds { HoldsLess element (view_of hand.old) (view_of hand.new) }
    ensures adds { AddsToTally no_events (view_of hand.old) (view_of hand.new) }
    ensures steady { Steady (view_of hand.old) (view_of hand.new) }
    ensures put { PutsOn (call_of hand.old) processor element (view_of hand.old) (view_of hand.new) }
    ensures handle { IsSameHand hand.old hand.new }
{
    let Ok(()) = threads.on(hand, processor, element) else {
        unreachable!()
    };
}

/// Takes the element off a processor that the hand serves and that has one, by one step. The hand then holds it.
pub fn take_off(threads: &ThreadTable, hand: &mut Hand, processor: Processor) -> Element
    requires table { IsHandOf threads.now hand.old }
    requires mine { serves (view_of hand.old) processor ≡ true }
    requires busy { running (view_of hand.old) processor ≢ None }
    ensures stood { running (view_of hand.old) processor ≡ Some result }
    ensures free { IsFree processor (view_of hand.new) }
    ensures frame { KeepsBut (slice_set (view_of hand.old).own.on processor None) (view_of hand.old)
        (view_of hand.new) }
    ensures holds { HoldsMore result (view_of hand.old) (view_of hand.new) }
    ensures adds { AddsToTally no_events (view_of hand.old) (view_of hand.new) }
    ensures steady { Steady (view_of hand.old) (view_of hand.new) }
    ensures taken { TakesOff (call_of hand.old) processor result (view_of hand.old) (view_of hand.new) }
    ensures handle { IsSameHand hand.old hand.new }
{
    let Ok(element) = threads.off(hand, processor) else {
        unreachable!()
    };
    element
}
