//! A gate that is shown a hand and other ends together.
//!
//! The hand's list of steps is the clock of a processor's turn. A fact that a gate was shown holds of any gate, and so of
//! one that nobody here knows. So the fact that it was shown a hand and other ends together says when, in the hand's
//! list, these were in that state.
//!
//! The code does nothing there at run time: the shown values are for the proofs alone. The types of both values are
//! fixed, so that no proof can put another value in the place of one that was shown.
ghost use Rattle.processor.specs.Sights.{Sights};

use crate::turn_gate::TurnGate;
use meters::MeterSeat;
use proc_chain::ChainEnd;
use quajects::AnyQuaject;
use thread_table::Hand;
use turn_io::{ChainGate, QueueEnds, QueueGate};

/// A gate that is shown a hand and other ends together. Every gate is one. Code that is generic over a gate knows of
/// `shown` only what a call of its methods ensured. So a contract that says of a gate, of a hand and of ends that they
/// were shown says that they were there at one moment.
pub trait Watch: TurnGate + QueueGate<64> + QueueGate<256> + ChainGate {
    // The gate, as it was then, was shown this hand and these ends, as they were at one moment.
    ghost shown: { Sights Self };

    /// Shows the gate a hand and the ends of all queues, and changes nothing.
    fn show_queues(&self, hand: &Hand, ends: &QueueEnds)
        ensures { shown.queues self.now hand.now ends.now };

    /// Shows the gate a hand and the ends of all chains, and changes nothing.
    fn show_chains(&self, hand: &Hand, ends: &Vec<ChainEnd<AnyQuaject>>)
        ensures { shown.chains self.now hand.now ends.now };

    /// Shows the gate a hand and a seat of the meters, and changes nothing.
    fn show_seat(&self, hand: &Hand, seat: &MeterSeat)
        ensures { shown.seat self.now hand.now seat.now };
}

impl<G: TurnGate> Watch for G {
    ghost shown = { record {
      queues = λ gate hand ends. Unit {0};
      chains = λ gate hand ends. Unit {0};
      seat = λ gate hand seat. Unit {0};
    } };

    fn show_queues(&self, _hand: &Hand, _ends: &QueueEnds) {}

    fn show_chains(&self, _hand: &Hand, _ends: &Vec<ChainEnd<AnyQuaject>>) {}

    fn show_seat(&self, _hand: &Hand, _seat: &MeterSeat) {}
}
