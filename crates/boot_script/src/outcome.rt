//! How the replay of a list of events ends.

ghost use Rattle.std.specs.Prelude.{◌≡◌, Some};
ghost use Rattle.boot_script.specs.declared.outcome.ReplayFault.TheVariants as faults;

use crate::fault::ScriptFault;
use crate::reading::ReadFault;
use event_theory::{OutOfMemory, Refusal};
use std::error::Error as StdError;
use std::fmt;

/// The printed result of a replay: a status, and the line of the first event that isn't allowed, if there is one.
#[derive(Clone, Copy, Debug, PartialEq, Eq)]
pub enum Replayed {
    /// Each event was allowed.
    AllAllowed,
    /// The event on this line is the first that isn't allowed.
    Refused {
        /// The event's line in the script.
        line: u32,
        /// Why it isn't allowed.
        refusal: Refusal,
    },
}

/// Why a replay has ended early. Nothing was written, except if the fault is `Write`.
#[derive(Clone, Copy, Debug, PartialEq, Eq)]
pub enum ReplayFault {
    /// The script is invalid.
    Script(ScriptFault),
    /// An allocation was refused, and the script is valid.
    Memory,
    /// The reader failed, or there were more than 131,072 reads.
    Read,
    /// The writer failed. A prefix of the printed text may have been written.
    Write,
}

impl fmt::Display for ReplayFault {
    ghost use Rattle.boot_script.specs.Printed.{replay_fault_text};

    ghost output = { λ fault. Some (replay_fault_text fault) };

    fn fmt<W: fmt::Write>(&self, f: &mut fmt::Formatter<W>) -> fmt::Result {
        match self {
            ReplayFault::Script(fault) => write!(f, "{fault}"),
            ReplayFault::Memory => write!(f, "no memory"),
            ReplayFault::Read => write!(f, "read fault"),
            ReplayFault::Write => write!(f, "write fault"),
        }
    }
}

impl StdError for ReplayFault {}

impl From<ReadFault> for ReplayFault {
    ghost from_gives = { λ _ fault. fault ≡ faults.Read };

    fn from(_e: ReadFault) -> ReplayFault {
        ReplayFault::Read
    }
}

impl From<OutOfMemory> for ReplayFault {
    ghost from_gives = { λ _ fault. fault ≡ faults.Memory };

    fn from(_e: OutOfMemory) -> ReplayFault {
        ReplayFault::Memory
    }
}
