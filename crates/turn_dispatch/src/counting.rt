//! Counting the step that an element has done.
ghost use Rattle.std.specs.Prelude.{◌≡◌};
ghost use Rattle.thread_table.specs.Handles.{view_of, call_of, IsHandOf, IsSameHand};
ghost use Rattle.thread_table.specs.Keeping.{Keeps};
ghost use Rattle.thread_table.specs.Rules.{MayStep, done_at};
ghost use Rattle.turn_dispatch.specs.Countings.{CountAnswer, IsNumber, SteadyBut, counted_step};
ghost use Rattle.turn_dispatch.specs.Holdings.{HoldsSame};
ghost use Rattle.turn_dispatch.specs.Tallies.{AddsToTally};

use event_theory::Element;
use thread_table::{Hand, Spent, ThreadTable};

/// The result of counting a step.
#[derive(Clone, Copy, Debug, PartialEq, Eq)]
pub enum Counted {
    /// The step isn't done, and isn't counted.
    Undone,
    /// One more step is counted: this is now the number of steps done.
    Done(u64),
    /// The element has done 4,294,967,295 steps. No more is counted.
    Spent,
}

/// Counts one more step of an element that the hand holds or has on a processor, if the step is done.
pub fn count(threads: &ThreadTable, hand: &mut Hand, element: Element, done: bool) -> Counted
    requires table { IsHandOf threads.now hand.old }
    requires mine { MayStep (view_of hand.old) element }
    ensures frame { Keeps (view_of hand.old) (view_of hand.new) }
    ensures holds { HoldsSame (view_of hand.old) (view_of hand.new) }
    ensures adds { AddsToTally (counted_step result element (done_at (view_of hand.old).seen.object element))
        (view_of hand.old) (view_of hand.new) }
    ensures number { IsNumber result element (view_of hand.old) (view_of hand.new) }
    ensures steady { SteadyBut element (view_of hand.old) (view_of hand.new) }
    ensures counted { CountAnswer (call_of hand.old) element done (view_of hand.old) result (view_of hand.new) }
    ensures handle { IsSameHand hand.old hand.new }
{
    if !done {
        return Counted::Undone;
    }
    match threads.step_done(hand, element) {
        Ok(number) => Counted::Done(number),
        Err(Spent) => Counted::Spent,
    }
}
