//! The number of steps of its program that an element has done.
ghost use Rattle.std.specs.Prelude.{◌≡◌, [], ◌∷◌, MatchResult, IfOk, IfErr};
ghost use Rattle.event_theory.specs.declared.event.Event.TheVariants as events;
ghost use Rattle.thread_table.specs.Handles.{view_of, call_of, IsHandOf, IsSameHand};
ghost use Rattle.thread_table.specs.Rules.{MayStep};
ghost use Rattle.thread_table.specs.Keeping.{Keeps};
ghost use Rattle.thread_table.specs.Layout.{most_done};
ghost use Rattle.thread_table.specs.Client.{MadeNothing, MadeOnly, HadDone, StepFound, OnlySteps};
ghost use Rattle.thread_table.specs.Evidence.{ReadPc, DoneAnswer};

use crate::hand::{Hand, ThreadTable};
use crate::steps::{load_done, store_done};
use event_theory::Element;
use std::marker::Brand;
use thiserror::Error;

/// The element has done 4,294,967,295 steps.
#[derive(Clone, Copy, Debug, PartialEq, Eq, Error)]
#[error("the element's steps are spent")]
pub struct Spent;

impl ThreadTable {
    /// The number of steps of an element that the hand holds or has on a processor, by one load. No other hand can
    /// count a step of it before this hand's next step, so `step_done` then counts from this number.
    pub fn pc(&self, hand: &mut Hand, element: Element) -> u64
        requires { IsHandOf self.now hand.old × MayStep (view_of hand.old) element }
        ensures effect { MadeNothing (view_of hand.old) (view_of hand.new) }
        ensures result { HadDone element result (view_of hand.old) (view_of hand.new) }
        ensures frame { Keeps (view_of hand.old) (view_of hand.new) }
        ensures steps { OnlySteps 1 (view_of hand.old) (view_of hand.new) }
        ensures trace { ReadPc element (view_of hand.old) result (view_of hand.new) }
        ensures handle { IsSameHand hand.old hand.new }
    {
        // linearization point: the number of steps is loaded
        load_done::<Brand>(&self.table.shared, &mut hand.seat, element.number())
    }

    /// Counts one more step of an element that the hand holds or has on a processor, and returns the new number. Spent
    /// if the element has done 4,294,967,295 steps.
    pub fn step_done(&self, hand: &mut Hand, element: Element) -> Result<u64, Spent>
        requires { IsHandOf self.now hand.old × MayStep (view_of hand.old) element }
        ensures effect { MatchResult result
            (λ number. MadeOnly (view_of hand.old) (events.Done (call_of hand.old) element ∷ []) (view_of hand.new))
            (λ spent. MadeNothing (view_of hand.old) (view_of hand.new)) }
        ensures result { IfOk result (λ number. StepFound (call_of hand.old) element number (view_of hand.old)
            (view_of hand.new)) }
        ensures frame { Keeps (view_of hand.old) (view_of hand.new) }
        ensures error { IfErr result (λ spent. HadDone element most_done (view_of hand.old) (view_of hand.new)) }
        ensures steps { OnlySteps 2 (view_of hand.old) (view_of hand.new) }
        ensures trace { DoneAnswer (call_of hand.old) (view_of hand.old) element result (view_of hand.new) }
        ensures handle { IsSameHand hand.old hand.new }
    {
        let number = element.number();
        // linearization point of Spent; the number stays until the store, since no other hand may count a step of this
        // element
        let done = load_done::<Brand>(&self.table.shared, &mut hand.seat, number);
        if done == u32::MAX as u64 {
            return Err(Spent);
        }
        // linearization point: the step is counted; a store suffices, since no other hand writes this word now
        store_done::<Brand>(&self.table.shared, &mut hand.seat, number, done);
        Ok(done + 1)
    }
}
