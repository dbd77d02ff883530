//! The reasons why a run ends early.
use event_theory::OutOfMemory;
use std::alloc::{AllocError, AllocFailed};
use std::io;
use std::io::ErrorKind;
use thiserror::Error;

/// The reason why a run has ended early.
#[derive(Debug, Drop, Error)]
pub enum Fault {
    /// The program has no such words.
    #[error("other words than those of a command")]
    Words,
    /// Out of memory for what is measured, or a thread could not be started.
    #[error("no memory")]
    Memory,
    /// The clock could not be read.
    #[error("the clock can't be read")]
    Clock,
    /// Standard output did not take a row.
    #[error("a row can't be written")]
    Write,
    /// The work done doesn't add up to the work that was to be measured.
    #[error("something else was done than was to be measured")]
    Miscount,
}

impl Fault {
    /// The reason why the words could not be read: one of them is not text, or there was no memory.
    pub fn of_words(error: io::Error) -> Fault {
        if error.kind() == ErrorKind::OutOfMemory {
            Fault::Memory
        } else {
            Fault::Words
        }
    }

    /// The reason why a row could not be written.
    pub fn of_row(_: io::Error) -> Fault {
        Fault::Write
    }

    /// The reason why the clock could not be read.
    pub fn of_clock(_: io::Error) -> Fault {
        Fault::Clock
    }

    /// The exit status of the run.
    pub fn status(self) -> u8 {
        match self {
            Fault::Miscount => 1,
            Fault::Words => 2,
            Fault::Memory => 3,
            Fault::Clock | Fault::Write => 5,
        }
    }
}

impl From<AllocError> for Fault {
    fn from(_: AllocError) -> Fault {
        Fault::Memory
    }
}

impl From<AllocFailed<String>> for Fault {
    fn from(_: AllocFailed<String>) -> Fault {
        Fault::Memory
    }
}

impl From<OutOfMemory> for Fault {
    fn from(_: OutOfMemory) -> Fault {
        Fault::Memory
    }
}
