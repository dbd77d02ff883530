//! Waking all that wait: in one call that waits, or by a notify and tries, none of which waits.
ghost use Rattle.std.specs.Prelude.{◌≡◌, [], ◌∷◌, MatchResult, IfOk, IfErr};
ghost use Rattle.event_theory.specs.declared.event.Event.TheVariants as events;
ghost use Rattle.thread_table.specs.Layout.{wait_ring};
ghost use Rattle.thread_table.specs.Handles.{view_of, call_of, IsHandOf, IsSameHand};
ghost use Rattle.thread_table.specs.Keeping.{Keeps};
ghost use Rattle.thread_table.specs.Client.{MadeNothing, MadeOnly, Woke, WokeAllBefore, NotifyFound, BeforeDid};
ghost use Rattle.thread_table.specs.Client.{BeforeFound, WhyNotBefore, WokeNoMore, OnlySteps, KeepsPart, TriedAlways};
ghost use Rattle.thread_table.specs.Evidence.{WokeAll, NotifiedNow, BeforeAnswer};

use crate::hand::{Hand, ThreadTable};
use crate::layout::wait_ring;
use crate::steps::{add_notify, load_tail};
use crate::takings::NextRefusal;
use crate::words::HeadWord;
use crossbeam_utils::Backoff;
use event_theory::{Element, WaitNumber};
use std::marker::Brand;
use std::sync::Wait;

impl ThreadTable {
    /// Makes one notify of a wait queue. It then takes the queue's elements until each place that was claimed before
    /// the notify is taken, by this hand or by others. Returns the mask of the elements that it took, bit e for element
    /// e. The hand then holds them beside those that it held. It takes from no other queue.
    ///
    /// Waits for the hands that claimed a place before the notify and have not raised it.
    pub fn wake_all<R: Wait>(&self, rt: &R, hand: &mut Hand, wait: WaitNumber) -> u64
        requires { IsHandOf self.now hand.old }
        ensures effect { Woke (call_of hand.old) wait result (view_of hand.old) (view_of hand.new) }
        ensures result { WokeAllBefore (call_of hand.old) wait (view_of hand.old) (view_of hand.new) }
        ensures frame { Keeps (view_of hand.old) (view_of hand.new) }
        ensures owns { KeepsPart (view_of hand.old) (view_of hand.new) }
        ensures tries { TriedAlways (call_of hand.old) wait (view_of hand.old) (view_of hand.new) }
        ensures bound { WokeNoMore (call_of hand.old) wait (view_of hand.old) (view_of hand.new) }
        ensures trace { WokeAll (call_of hand.old) (view_of hand.old) wait result (view_of hand.new) }
        ensures handle { IsSameHand hand.old hand.new }
    {
        let ring = wait_ring(wait.number());
        // linearization point of the notify: head and number of notifies are in one word, so one fetch-and-add counts
        // the notify and finds the head
        let word = add_notify::<Brand>(&self.table.shared, &mut hand.seat, wait.number());
        let head = HeadWord::of(word).head;
        let mut woken = 0;
        let backoff = Backoff::new();
        for _ in rt.forever() {
            // one load suffices, since the tail never goes down: a tail at or past `head` means that each place before
            // `head` is taken
            let tail = load_tail(&self.table.shared, &mut hand.seat, ring);
            if tail >= head {
                return woken;
            }
            match self.take_first(hand, ring) {
                Ok(element) => woken |= 1u64 << element.number(),
                Err(_) => backoff.spin(),
            }
        }
        unreachable!()
    }

    /// Makes one notify of a wait queue, by one step, which adds one to its number of notifies. Returns the head that
    /// the step found: the position after the last place that was claimed before the notify.
    ///
    /// With `try_wake_before` it wakes all and never waits: a notify, and then tries until one returns None.
    pub fn notify(&self, hand: &mut Hand, wait: WaitNumber) -> u32
        requires { IsHandOf self.now hand.old }
        ensures effect { MadeOnly (view_of hand.old) (events.NotifyWait (call_of hand.old) wait ∷ [])
            (view_of hand.new) }
        ensures result { NotifyFound (call_of hand.old) wait result (view_of hand.old) (view_of hand.new) }
        ensures frame { Keeps (view_of hand.old) (view_of hand.new) }
        ensures steps { OnlySteps 1 (view_of hand.old) (view_of hand.new) }
        ensures trace { NotifiedNow (call_of hand.old) (view_of hand.old) wait result (view_of hand.new) }
        ensures handle { IsSameHand hand.old hand.new }
    {
        // linearization point: one fetch-and-add counts the notify and finds the head
        let found = add_notify::<Brand>(&self.table.shared, &mut hand.seat, wait.number());
        HeadWord::of(found).head as u32
    }

    /// Loads the tail of a wait queue. Returns None if the tail has reached the position `head`: each place before
    /// `head` is taken. Else it takes the oldest element, as `try_wake` does, and the hand then holds it. The refusals
    /// are those of `try_wake`.
    ///
    /// If another hand takes between the load and the taking, the element may be of a place at `head` or after it.
    pub fn try_wake_before(
        &self,
        hand: &mut Hand,
        wait: WaitNumber,
        head: u32,
    ) -> Result<Option<Element>, NextRefusal>
        requires { IsHandOf self.now hand.old }
        ensures effect { MatchResult result
            (λ taken. BeforeDid (call_of hand.old) (wait_ring wait) taken (view_of hand.old) (view_of hand.new))
            (λ refusal. MadeNothing (view_of hand.old) (view_of hand.new)) }
        ensures result { IfOk result (λ taken. BeforeFound (call_of hand.old) (wait_ring wait) head taken
            (view_of hand.old) (view_of hand.new)) }
        ensures frame { Keeps (view_of hand.old) (view_of hand.new) }
        ensures error { IfErr result (λ refusal. WhyNotBefore (wait_ring wait) head refusal (view_of hand.old)
            (view_of hand.new)) }
        ensures steps { OnlySteps 4 (view_of hand.old) (view_of hand.new) }
        ensures trace { BeforeAnswer (call_of hand.old) (view_of hand.old) (wait_ring wait) head result
            (view_of hand.new) }
        ensures handle { IsSameHand hand.old hand.new }
    {
        let ring = wait_ring(wait.number());
        // linearization point of None: one load suffices, since the tail never goes down
        let reached = load_tail(&self.table.shared, &mut hand.seat, ring);
        if u64::from(head) <= reached {
            return Ok(None);
        }
        let element = self.take_first(hand, ring)?;
        Ok(Some(element))
    }
}
