//! Why no whole trace was printed.

use event_theory::OutOfMemory;
use thiserror::Error;

/// Why no whole trace was printed. What was printed before is no JSON value.
#[derive(Clone, Copy, Debug, PartialEq, Eq, Error)]
pub enum TraceFault {
    /// An allocation was refused.
    #[error("no memory")]
    Memory,
    /// The writer returned an error.
    #[error("write fault")]
    Write,
}

impl From<OutOfMemory> for TraceFault {
    fn from(_e: OutOfMemory) -> TraceFault {
        TraceFault::Memory
    }
}
