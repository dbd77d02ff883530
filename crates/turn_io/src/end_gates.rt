//! Gates that are shown the end at which a step is made.
//!
//! Nothing of them runs except `Gate::between`. The shown ends are for the proofs alone, and their types are fixed, so
//! that no proof can put another value in the place of one that was shown.
ghost use Rattle.turn_io.specs.Points.{AtEnd};

use crate::gate::{Gate, Point};
use claim_queue::QueueEnd;
use proc_chain::ChainEnd;
use quajects::AnyQuaject;

/// A gate that is shown the end of a queue with N places, as the end is when the gate is called. Every gate is one. Code
/// that is generic over a gate knows of `at_end` only what a call of `at_queue` ensured. So a contract that says of a
/// gate that it was called beside an end says how far the end was.
pub trait QueueGate<const N: usize>: Gate {
    ghost use Rattle.claim_queue.specs.declared.ends.QueueEnd.{QueueEnd};

    // One call of `between`, with the end in this state, made the second gate of the first.
    ghost at_end: { AtEnd (QueueEnd N) Self };

    /// Calls `between`. The end is for the contract alone.
    fn at_queue(&mut self, end: &QueueEnd<N>, p: u8, point: Point)
        ensures called { Self.observes self.old p point self.new }
        ensures shown { at_end end.now self.old p point self.new };
}

impl<const N: usize, G: Gate> QueueGate<N> for G {
    ghost at_end = { λ end old p point new. G.observes old p point new };

    fn at_queue(&mut self, _end: &QueueEnd<N>, p: u8, point: Point) {
        self.between(p, point);
    }
}

/// A gate that is shown the end of a chain, as the end is when the gate is called. Every gate is one, and code that is
/// generic over a gate knows of `at_chain_end` only what a call of `at_chain` ensured.
pub trait ChainGate: Gate {
    ghost use Rattle.proc_chain.specs.declared.ends.ChainEnd.{ChainEnd};
    ghost use Rattle.quajects.specs.contracts.any.AnyQuajectQuaject.TheImpl.{ghosts};
    ghost use Rattle.quajects.specs.declared.any.AnyQuaject.{AnyQuaject};
    ghost use Rattle.quajects.specs.declared.world.Queues.{Queues};

    // One call of `between`, with the end in this state, made the second gate of the first.
    ghost at_chain_end: { AtEnd (ChainEnd AnyQuaject Queues ghosts) Self };

    /// Calls `between`. The end is for the contract alone.
    fn at_chain(&mut self, end: &ChainEnd<AnyQuaject>, p: u8, point: Point)
        ensures called { Self.observes self.old p point self.new }
        ensures shown { at_chain_end end.now self.old p point self.new };
}

impl<G: Gate> ChainGate for G {
    ghost at_chain_end = { λ end old p point new. G.observes old p point new };

    fn at_chain(&mut self, _end: &ChainEnd<AnyQuaject>, p: u8, point: Point) {
        self.between(p, point);
    }
}
