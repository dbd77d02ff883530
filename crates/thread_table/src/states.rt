//! Stop bits, stop cells and signals.
ghost use Rattle.std.specs.Prelude.{◌≡◌, true, [], ◌∷◌, MatchResult, IfOk, IfErr};
ghost use Rattle.event_theory.specs.declared.event.Event.TheVariants as events;
ghost use Rattle.thread_table.specs.Handles.{view_of, call_of, IsHandOf, IsSameHand};
ghost use Rattle.thread_table.specs.Rules.{has};
ghost use Rattle.thread_table.specs.Keeping.{Keeps};
ghost use Rattle.thread_table.specs.Client.{MadeNothing, MadeOnly, StopFound, StartDid, StartFound, ParkDid};
ghost use Rattle.thread_table.specs.Client.{ParkFound, SignalFound, WerePending, DeliverDid, DeliverFound, WhyLost};
ghost use Rattle.thread_table.specs.Client.{OnlySteps, IsStopped, HasPending};
ghost use Rattle.thread_table.specs.Evidence.{StoppedNow, StartAnswer, ParkAnswer, SignalAnswer, DeliverAnswer};
ghost use Rattle.thread_table.specs.Evidence.{IsPending};

use crate::hand::{Hand, ThreadTable};
use crate::steps::{exchange_state, load_state, or_signal, or_stop};
use crate::words::StateWord;
use event_theory::{Element, Signal};
use std::marker::Brand;
use thiserror::Error;

/// Another hand changed the element's state word first: the exchange found this one, not the one that was loaded. Bits
/// 0 to 15 are the pending signals, bit 16 the stop bit, bit 17 the stop cell's.
#[derive(Clone, Copy, Debug, PartialEq, Eq, Error)]
#[error("another hand changed the state word to {seen}")]
pub struct Lost {
    pub seen: u64,
}

/// The result of a start.
#[derive(Clone, Copy, Debug, PartialEq, Eq)]
pub enum Started {
    /// The stop bit was clear. No event was made.
    NotStopped,
    /// The stop bit was cleared. The element wasn't in its stop cell.
    Cleared,
    /// The stop bit was cleared, and the hand holds the element, which was in its stop cell.
    Held,
}

/// The result of a signal.
#[derive(Clone, Copy, Debug, PartialEq, Eq)]
pub enum Signalled {
    /// The signal is pending now, and was not before.
    Raised,
    /// The signal was pending already.
    Merged,
}

impl ThreadTable {
    /// Sets the stop bit of an element, wherever it is, by one step. True if the stop bit was clear.
    pub fn stop(&self, hand: &mut Hand, element: Element) -> bool
        requires { IsHandOf self.now hand.old }
        ensures effect { MadeOnly (view_of hand.old) (events.Stop (call_of hand.old) element ∷ []) (view_of hand.new) }
        ensures result { StopFound (call_of hand.old) element result (view_of hand.old) (view_of hand.new) }
        ensures frame { Keeps (view_of hand.old) (view_of hand.new) }
        ensures steps { OnlySteps 1 (view_of hand.old) (view_of hand.new) }
        ensures trace { StoppedNow (call_of hand.old) (view_of hand.old) element result (view_of hand.new) }
        ensures handle { IsSameHand hand.old hand.new }
    {
        // linearization point: the stop bit is set; one fetch-and-or sets it and finds whether it was clear
        let word = or_stop::<Brand>(&self.table.shared, &mut hand.seat, element.number());
        let state = StateWord { word };
        !state.is_stopping()
    }

    /// Clears the stop bit of an element: it loads the state word and exchanges it by a compare-and-swap. If the
    /// element was in its stop cell, the hand then holds it.
    pub fn try_start(&self, hand: &mut Hand, element: Element) -> Result<Started, Lost>
        requires { IsHandOf self.now hand.old }
        ensures effect { MatchResult result
            (λ started. StartDid (call_of hand.old) element started (view_of hand.old) (view_of hand.new))
            (λ lost. MadeNothing (view_of hand.old) (view_of hand.new)) }
        ensures result { IfOk result (λ started. StartFound (call_of hand.old) element started (view_of hand.old)
            (view_of hand.new)) }
        ensures frame { Keeps (view_of hand.old) (view_of hand.new) }
        ensures error { IfErr result (λ lost. WhyLost IsStopped element lost.seen (view_of hand.old)
            (view_of hand.new)) }
        ensures steps { OnlySteps 2 (view_of hand.old) (view_of hand.new) }
        ensures trace { StartAnswer (call_of hand.old) (view_of hand.old) element result (view_of hand.new) }
        ensures handle { IsSameHand hand.old hand.new }
    {
        let number = element.number();
        // linearization point of NotStopped: the stop bit is clear
        let word = load_state(&self.table.shared, &mut hand.seat, number);
        let state = StateWord { word };
        if !state.is_stopping() {
            return Ok(Started::NotStopped);
        }
        let new = state.started();
        // linearization point: the element is started; all bits of its state are in one word, so the same word means
        // the same state
        let seen = exchange_state::<Brand>(&self.table.shared, &mut hand.seat, number, word, new);
        if seen != word {
            return Err(Lost { seen });
        }
        if !state.is_parked() {
            return Ok(Started::Cleared);
        }
        hand.held.set(number, true);
        Ok(Started::Held)
    }

    /// Puts an element that the hand holds into its stop cell, if its stop bit is set: it loads the state word and
    /// exchanges it by a compare-and-swap. True if the element is then in its stop cell, false if the stop bit was
    /// clear.
    pub fn try_park(&self, hand: &mut Hand, element: Element) -> Result<bool, Lost>
        requires table { IsHandOf self.now hand.old }
        requires holds { has (view_of hand.old) element ≡ true }
        ensures effect { MatchResult result
            (λ parked. ParkDid (call_of hand.old) element parked (view_of hand.old) (view_of hand.new))
            (λ lost. MadeNothing (view_of hand.old) (view_of hand.new)) }
        ensures result { IfOk result (λ parked. ParkFound (call_of hand.old) element parked (view_of hand.old)
            (view_of hand.new)) }
        ensures frame { Keeps (view_of hand.old) (view_of hand.new) }
        ensures error { IfErr result (λ lost. WhyLost IsStopped element lost.seen (view_of hand.old)
            (view_of hand.new)) }
        ensures steps { OnlySteps 2 (view_of hand.old) (view_of hand.new) }
        ensures trace { ParkAnswer (call_of hand.old) (view_of hand.old) element result (view_of hand.new) }
        ensures handle { IsSameHand hand.old hand.new }
    {
        let number = element.number();
        // linearization point of false: the stop bit is clear
        let word = load_state(&self.table.shared, &mut hand.seat, number);
        let state = StateWord { word };
        if !state.is_stopping() {
            return Ok(false);
        }
        let new = state.parked();
        // linearization point: the element is in its stop cell; the same word means that its stop bit is set
        let seen = exchange_state::<Brand>(&self.table.shared, &mut hand.seat, number, word, new);
        if seen != word {
            return Err(Lost { seen });
        }
        hand.held.set(number, false);
        Ok(true)
    }

    /// Makes a signal of an element pending, wherever the element is, by one step.
    pub fn signal(&self, hand: &mut Hand, element: Element, signal: Signal) -> Signalled
        requires { IsHandOf self.now hand.old }
        ensures effect { MadeOnly (view_of hand.old) (events.Signal (call_of hand.old) element signal ∷ [])
            (view_of hand.new) }
        ensures result { SignalFound (call_of hand.old) element signal result (view_of hand.old) (view_of hand.new) }
        ensures frame { Keeps (view_of hand.old) (view_of hand.new) }
        ensures steps { OnlySteps 1 (view_of hand.old) (view_of hand.new) }
        ensures trace { SignalAnswer (call_of hand.old) (view_of hand.old) element signal result
            (view_of hand.new) }
        ensures handle { IsSameHand hand.old hand.new }
    {
        let (number, bit) = (element.number(), signal.number());
        // linearization point: the signal is pending; one fetch-and-or sets it and finds whether it was pending
        let word = or_signal::<Brand>(&self.table.shared, &mut hand.seat, number, bit);
        let state = StateWord { word };
        if state.is_pending(bit) {
            return Signalled::Merged;
        }
        Signalled::Raised
    }

    /// The pending signals of an element, wherever it is, by one load of its state word: bit s for signal s. It changes
    /// nothing, and the signals stay pending.
    pub fn pending(&self, hand: &mut Hand, element: Element) -> u16
        requires { IsHandOf self.now hand.old }
        ensures effect { MadeNothing (view_of hand.old) (view_of hand.new) }
        ensures result { WerePending element result (view_of hand.old) (view_of hand.new) }
        ensures frame { Keeps (view_of hand.old) (view_of hand.new) }
        ensures steps { OnlySteps 1 (view_of hand.old) (view_of hand.new) }
        ensures trace { IsPending (view_of hand.old) element result (view_of hand.new) }
        ensures handle { IsSameHand hand.old hand.new }
    {
        // linearization point: the pending signals are loaded, all from one word
        let word = load_state(&self.table.shared, &mut hand.seat, element.number());
        let state = StateWord { word };
        state.pending()
    }

    /// Delivers the pending signals of an element that the hand holds: bit s for signal s. It loads the state word and
    /// exchanges it by a compare-and-swap. The signals are then no longer pending. If none was pending, it returns 0
    /// after the load.
    pub fn try_deliver(&self, hand: &mut Hand, element: Element) -> Result<u16, Lost>
        requires table { IsHandOf self.now hand.old }
        requires holds { has (view_of hand.old) element ≡ true }
        ensures effect { MatchResult result
            (λ mask. DeliverDid (call_of hand.old) element mask (view_of hand.old) (view_of hand.new))
            (λ lost. MadeNothing (view_of hand.old) (view_of hand.new)) }
        ensures result { IfOk result (λ mask. DeliverFound (call_of hand.old) element mask (view_of hand.old)
            (view_of hand.new)) }
        ensures frame { Keeps (view_of hand.old) (view_of hand.new) }
        ensures error { IfErr result (λ lost. WhyLost HasPending element lost.seen (view_of hand.old)
            (view_of hand.new)) }
        ensures steps { OnlySteps 2 (view_of hand.old) (view_of hand.new) }
        ensures trace { DeliverAnswer (call_of hand.old) (view_of hand.old) element result (view_of hand.new) }
        ensures handle { IsSameHand hand.old hand.new }
    {
        let number = element.number();
        // linearization point of 0: no signal is pending
        let word = load_state(&self.table.shared, &mut hand.seat, number);
        let state = StateWord { word };
        let pending = state.pending();
        if pending == 0 {
            return Ok(0);
        }
        let new = state.delivered();
        // linearization point: the signals are delivered; the same word means that no other signal became pending since
        // the load
        let seen = exchange_state::<Brand>(&self.table.shared, &mut hand.seat, number, word, new);
        if seen != word {
            return Err(Lost { seen });
        }
        Ok(pending)
    }
}
