//! The outcome of a boot.

ghost use Rattle.std.specs.Prelude.{◌≡◌, Some};
ghost use Rattle.synth_kernel.specs.declared.outcome.BootFault.TheVariants as faults;

use boot_script::{ReadFault, ScriptFault};
use event_theory::OutOfMemory;
use std::error::Error as StdError;
use std::fmt;

/// The outcome of a boot whose report was printed.
#[derive(Clone, Copy, Debug, PartialEq, Eq)]
pub enum Ended {
    /// All threads have ended.
    AllEnded,
    /// So many threads have not ended.
    Unfinished { live: usize },
}

/// The reason why a boot printed no report. Nothing was written, except if the fault is `Write`.
#[derive(Clone, Copy, Debug, PartialEq, Eq)]
pub enum BootFault {
    /// The script is invalid.
    Script(ScriptFault),
    /// The script is valid, but an allocation was refused, or a thread couldn't be started.
    Memory,
    /// The reader failed, or there were more than 131,072 reads.
    Read,
    /// The writer failed. A beginning of the report may have been written.
    Write,
}

impl fmt::Display for BootFault {
    ghost use Rattle.synth_kernel.specs.Faults.{boot_fault_text};

    ghost output = { λ fault. Some (boot_fault_text fault) };

    fn fmt<W: fmt::Write>(&self, f: &mut fmt::Formatter<W>) -> fmt::Result {
        match self {
            BootFault::Script(fault) => write!(f, "{fault}"),
            BootFault::Memory => write!(f, "no memory"),
            BootFault::Read => write!(f, "read fault"),
            BootFault::Write => write!(f, "write fault"),
        }
    }
}

impl StdError for BootFault {}

impl From<ReadFault> for BootFault {
    ghost from_gives = { λ _ fault. fault ≡ faults.Read };

    fn from(_e: ReadFault) -> BootFault {
        BootFault::Read
    }
}

impl From<OutOfMemory> for BootFault {
    ghost from_gives = { λ _ fault. fault ≡ faults.Memory };

    fn from(_e: OutOfMemory) -> BootFault {
        BootFault::Memory
    }
}
