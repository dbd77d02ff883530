//! Takings: a hand takes the oldest element of the ready ring, of the free elements or of a wait queue, and holds it.
ghost use Rattle.std.specs.Prelude.{◌≡◌, ◌<◌, MatchResult, IfOk, IfErr};
ghost use Rattle.thread_table.specs.declared.layout.TheConstants.{RINGS};
ghost use Rattle.thread_table.specs.Layout.{ready_ring, free_ring, wait_ring};
ghost use Rattle.thread_table.specs.Handles.{view_of, call_of, IsHandOf, IsSameHand};
ghost use Rattle.thread_table.specs.Keeping.{Keeps};
ghost use Rattle.thread_table.specs.Client.{Took, TookOldest, WhyNotTaken, MadeNothing, OnlySteps};
ghost use Rattle.thread_table.specs.Evidence.{TakeAnswer};

use crate::hand::{Hand, ThreadTable};
use crate::layout::{FREE, READY, wait_ring};
use crate::steps::{exchange_tail, load_place, load_tail};
use crate::words::PlaceWord;
use event_theory::{Element, WaitNumber};
use std::marker::Brand;
use thiserror::Error;

/// Why an element wasn't taken.
#[derive(Clone, Copy, Debug, PartialEq, Eq, Error)]
pub enum NextRefusal {
    /// The place at the tail wasn't raised, and the tail was found again after that: the queue is empty, or a hand has
    /// claimed its first place and not yet raised it.
    #[error("nothing is raised at the tail")]
    NoneReady,
    /// Another hand took first: this is the tail that was found, past the one that was loaded.
    #[error("another hand moved the tail to {seen}")]
    Lost { seen: u64 },
}

impl ThreadTable {
    /// Takes the oldest element of the ready ring: it loads the tail and the place there, and exchanges the tail by a
    /// compare-and-swap. The hand then holds the element.
    pub fn try_next(&self, hand: &mut Hand) -> Result<Element, NextRefusal>
        requires { IsHandOf self.now hand.old }
        ensures effect { MatchResult result
            (λ element. Took (call_of hand.old) ready_ring element (view_of hand.old) (view_of hand.new))
            (λ refusal. MadeNothing (view_of hand.old) (view_of hand.new)) }
        ensures result { IfOk result (λ element. TookOldest (call_of hand.old) ready_ring element (view_of hand.old)
            (view_of hand.new)) }
        ensures frame { Keeps (view_of hand.old) (view_of hand.new) }
        ensures error { IfErr result (λ refusal. WhyNotTaken ready_ring refusal (view_of hand.old) (view_of hand.new)) }
        ensures steps { OnlySteps 3 (view_of hand.old) (view_of hand.new) }
        ensures trace { TakeAnswer (call_of hand.old) (view_of hand.old) ready_ring result (view_of hand.new) }
        ensures handle { IsSameHand hand.old hand.new }
    {
        self.take_first(hand, READY)
    }

    /// Takes the oldest of the free elements, as `try_next` does from the ready ring.
    pub fn try_free(&self, hand: &mut Hand) -> Result<Element, NextRefusal>
        requires { IsHandOf self.now hand.old }
        ensures effect { MatchResult result
            (λ element. Took (call_of hand.old) free_ring element (view_of hand.old) (view_of hand.new))
            (λ refusal. MadeNothing (view_of hand.old) (view_of hand.new)) }
        ensures result { IfOk result (λ element. TookOldest (call_of hand.old) free_ring element (view_of hand.old)
            (view_of hand.new)) }
        ensures frame { Keeps (view_of hand.old) (view_of hand.new) }
        ensures error { IfErr result (λ refusal. WhyNotTaken free_ring refusal (view_of hand.old) (view_of hand.new)) }
        ensures steps { OnlySteps 3 (view_of hand.old) (view_of hand.new) }
        ensures trace { TakeAnswer (call_of hand.old) (view_of hand.old) free_ring result (view_of hand.new) }
        ensures handle { IsSameHand hand.old hand.new }
    {
        self.take_first(hand, FREE)
    }

    /// Takes the oldest element of a wait queue, as `try_next` does from the ready ring.
    pub fn try_wake(&self, hand: &mut Hand, wait: WaitNumber) -> Result<Element, NextRefusal>
        requires { IsHandOf self.now hand.old }
        ensures effect { MatchResult result
            (λ element. Took (call_of hand.old) (wait_ring wait) element (view_of hand.old) (view_of hand.new))
            (λ refusal. MadeNothing (view_of hand.old) (view_of hand.new)) }
        ensures result { IfOk result (λ element. TookOldest (call_of hand.old) (wait_ring wait) element
            (view_of hand.old) (view_of hand.new)) }
        ensures frame { Keeps (view_of hand.old) (view_of hand.new) }
        ensures error { IfErr result (λ refusal. WhyNotTaken (wait_ring wait) refusal (view_of hand.old)
            (view_of hand.new)) }
        ensures steps { OnlySteps 3 (view_of hand.old) (view_of hand.new) }
        ensures trace { TakeAnswer (call_of hand.old) (view_of hand.old) (wait_ring wait) result (view_of hand.new) }
        ensures handle { IsSameHand hand.old hand.new }
    {
        self.take_first(hand, wait_ring(wait.number()))
    }

    // Takes the first element of an element queue.
    pub(crate) fn take_first(&self, hand: &mut Hand, ring: usize) -> Result<Element, NextRefusal>
        requires { IsHandOf self.now hand.old × (ring < RINGS) }
        ensures effect { MatchResult result
            (λ element. Took (call_of hand.old) ring element (view_of hand.old) (view_of hand.new))
            (λ refusal. MadeNothing (view_of hand.old) (view_of hand.new)) }
        ensures result { IfOk result (λ element. TookOldest (call_of hand.old) ring element (view_of hand.old)
            (view_of hand.new)) }
        ensures frame { Keeps (view_of hand.old) (view_of hand.new) }
        ensures error { IfErr result (λ refusal. WhyNotTaken ring refusal (view_of hand.old) (view_of hand.new)) }
        ensures steps { OnlySteps 3 (view_of hand.old) (view_of hand.new) }
        ensures trace { TakeAnswer (call_of hand.old) (view_of hand.old) ring result (view_of hand.new) }
        ensures handle { IsSameHand hand.old hand.new }
    {
        // the tail never goes down, so a tail that is found again has not changed in between
        let tail = load_tail(&self.table.shared, &mut hand.seat, ring);
        // linearization point of NoneReady, if the tail is found again: the place at the tail is not raised
        let place = PlaceWord::of(load_place(&self.table.shared, &mut hand.seat, ring, tail));
        if place.mark != tail + 1 {
            // the same tail means that the place was at the tail when it was loaded, so NoneReady is exact without a
            // load of the head
            let now = load_tail(&self.table.shared, &mut hand.seat, ring);
            if now == tail {
                return Err(NextRefusal::NoneReady);
            }
            return Err(NextRefusal::Lost { seen: now });
        }
        // linearization point: the place is taken; the same tail means that no hand took it since the loads, so its
        // element is the oldest
        let found = exchange_tail::<Brand>(&self.table.shared, &mut hand.seat, ring, tail);
        if found != tail {
            return Err(NextRefusal::Lost { seen: found });
        }
        let Some(element) = Element::new(place.element) else {
            unreachable!()
        };
        hand.held.set(element.number(), true);
        Ok(element)
    }
}
