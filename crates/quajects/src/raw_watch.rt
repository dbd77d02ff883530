//! A handle that is shown both ends of a raw tty at one moment.
//!
//! Nothing of it runs. The shown values are for the proofs alone, and their types are fixed, so that no proof can put
//! another value in the place of one that was shown.
use crate::any::AnyQuaject;
use claim_queue::QueueEnd;
use proc_chain::ChainEnd;
use std::sync::Wait;

/// A handle that is shown the ends of a raw tty together. Every handle that may wait is one. Code that is generic over
/// a handle knows of `seen_raw` only what a call of `show_raw` ensured. So a contract that says of two ends that they
/// were shown says that they were there at one moment.
pub trait RawWatch: Wait {
    ghost use Rattle.claim_queue.specs.declared.ends.QueueEnd.{QueueEnd};
    ghost use Rattle.proc_chain.specs.declared.ends.ChainEnd.{ChainEnd};
    ghost use Rattle.quajects.specs.contracts.any.AnyQuajectQuaject.TheImpl.{ghosts};
    ghost use Rattle.quajects.specs.declared.any.AnyQuaject.{AnyQuaject};
    ghost use Rattle.quajects.specs.declared.world.Queues.{Queues};

    // The handle was shown this end of a raw queue and this end of a chain, as they were at one moment.
    ghost seen_raw: { QueueEnd 64 → ChainEnd AnyQuaject Queues ghosts → Type 0 };

    /// Shows both ends to the handle, and changes nothing.
    fn show_raw(&self, end: &QueueEnd<64>, chain: &ChainEnd<AnyQuaject>)
        ensures { seen_raw end.now chain.now };
}

impl<R: Wait> RawWatch for R {
    ghost seen_raw = { λ end chain. Unit {0} };

    fn show_raw(&self, _end: &QueueEnd<64>, _chain: &ChainEnd<AnyQuaject>) {}
}
