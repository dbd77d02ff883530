//! Processors: a hand puts an element that it holds on a processor that it serves, and takes it off.
ghost use Rattle.std.specs.Prelude.{◌≡◌, ◌≢◌, true, Some, None, MatchResult, IfErr};
ghost use Rattle.thread_table.specs.Handles.{view_of, call_of, IsHandOf, IsSameHand};
ghost use Rattle.thread_table.specs.Rules.{has, serves, running};
ghost use Rattle.thread_table.specs.Client.{PutOn, TookOff, ServesSame, OnlySteps};
ghost use Rattle.thread_table.specs.Evidence.{PutsOn, TakesOff};

use crate::hand::{Hand, ThreadTable};
use crate::steps::{swap_off, swap_on};
use event_theory::{Element, Processor};
use std::marker::Brand;
use thiserror::Error;

/// An element is on the processor.
#[derive(Clone, Copy, Debug, PartialEq, Eq, Error)]
#[error("an element is on the processor")]
pub struct ProcessorBusy;

/// No element is on the processor.
#[derive(Clone, Copy, Debug, PartialEq, Eq, Error)]
#[error("no element is on the processor")]
pub struct ProcessorEmpty;

impl ThreadTable {
    /// Puts an element that the hand holds on a processor that it serves, by one step. It makes no step if another
    /// element is there.
    pub fn on(
        &self,
        hand: &mut Hand,
        processor: Processor,
        element: Element,
    ) -> Result<(), ProcessorBusy>
        requires table { IsHandOf self.now hand.old }
        requires mine { (has (view_of hand.old) element ≡ true) × (serves (view_of hand.old) processor ≡ true) }
        ensures effect { MatchResult result
            (λ done. PutOn (call_of hand.old) processor element (view_of hand.old) (view_of hand.new))
            (λ busy. view_of hand.new ≡ view_of hand.old) }
        ensures frame { ServesSame (view_of hand.old) (view_of hand.new) }
        ensures error { IfErr result (λ busy. running (view_of hand.old) processor ≢ None) }
        ensures steps { OnlySteps 1 (view_of hand.old) (view_of hand.new) }
        ensures trace { MatchResult result
            (λ done. (running (view_of hand.old) processor ≡ None)
            × PutsOn (call_of hand.old) processor element (view_of hand.old) (view_of hand.new))
            (λ busy. (running (view_of hand.old) processor ≢ None) × (view_of hand.new ≡ view_of hand.old)) }
        ensures handle { IsSameHand hand.old hand.new }
    {
        if let Some(_) = hand.running.get(processor.number()) {
            return Err(ProcessorBusy);
        }
        let number = element.number();
        // linearization point: the element is on the processor; no load is needed, since only the hand that serves a
        // processor writes its word
        swap_on::<Brand>(
            &self.table.shared,
            &mut hand.seat,
            processor.number(),
            number,
        );
        hand.held.set(number, false);
        hand.running.set(processor.number(), Some(element));
        Ok(())
    }

    /// Takes the element off a processor that the hand serves, by one step. The hand then holds it. It makes no step if
    /// no element is there.
    pub fn off(&self, hand: &mut Hand, processor: Processor) -> Result<Element, ProcessorEmpty>
        requires table { IsHandOf self.now hand.old }
        requires mine { serves (view_of hand.old) processor ≡ true }
        ensures effect { MatchResult result
            (λ element. TookOff (call_of hand.old) processor element (view_of hand.old) (view_of hand.new))
            (λ empty. view_of hand.new ≡ view_of hand.old) }
        ensures frame { ServesSame (view_of hand.old) (view_of hand.new) }
        ensures error { IfErr result (λ empty. running (view_of hand.old) processor ≡ None) }
        ensures steps { OnlySteps 1 (view_of hand.old) (view_of hand.new) }
        ensures trace { MatchResult result
            (λ element. (running (view_of hand.old) processor ≡ Some element)
            × TakesOff (call_of hand.old) processor element (view_of hand.old) (view_of hand.new))
            (λ empty. (running (view_of hand.old) processor ≡ None) × (view_of hand.new ≡ view_of hand.old)) }
        ensures handle { IsSameHand hand.old hand.new }
    {
        let Some(element) = hand.running.get(processor.number()) else {
            return Err(ProcessorEmpty);
        };
        let number = element.number();
        // linearization point: the element is off the processor; no load is needed, since only the hand that serves a
        // processor writes its word
        swap_off::<Brand>(
            &self.table.shared,
            &mut hand.seat,
            processor.number(),
            number,
        );
        hand.held.set(number, true);
        hand.running.set(processor.number(), None);
        Ok(element)
    }
}
