//! Why an event is refused.

ghost use Rattle.std.specs.Prelude.{◌≡◌, Some};
ghost use Rattle.event_theory.specs.declared.refusal.Refusal.TheVariants as refusals;

use std::alloc::{AllocError, AllocFailed};
use std::error::Error as StdError;
use std::fmt;
use thiserror::Error;

/// Why an event is refused, with the number that a replay prints.
///
/// Refusals are checked in the order of their numbers, except for `Closed`, which is checked after `TooLong`.
/// `OutOfMemory` is checked last.
#[derive(Clone, Copy, Debug, PartialEq, Eq)]
pub enum Refusal {
    /// There is no such queue, chain, run, item, element or slot with an alarm, a note is past 65,535, or a call would
    /// join itself.
    UnknownName = 1,
    /// A claim or a taking of no item.
    NoItems = 2,
    /// More items than a run or a queue may have.
    TooLong = 3,
    /// There is no room, or the clock, or the steps of an element, are at 4,294,967,295.
    Full = 4,
    /// The run or the element on the processor is another call's, or the call owes no notify.
    NotOwner = 5,
    /// The item was raised before.
    AlreadyRaised = 6,
    /// One of the items to be taken isn't there or isn't raised, or an alarm to be fired isn't due.
    NotRaised = 7,
    /// The call doesn't hold the element.
    NotHeld = 8,
    /// An element is on the processor.
    ProcessorBusy = 9,
    /// No element is on the processor.
    ProcessorEmpty = 10,
    /// The element's stop bit is clear.
    NotStopped = 11,
    /// The gate can't be left yet.
    GateBusy = 12,
    /// The call isn't the chain's runner.
    NotRunner = 13,
    /// Storage had to grow, and there was no memory. Only `Queue`, `Chain`, `Claim`, `Raise`, `Take`, `Set`,
    /// `Fire`, `Cancel`, `WaitAt` and `Join` can be refused so.
    OutOfMemory = 14,
    /// The queue is shut.
    Closed = 15,
    /// The number of notifies isn't the ticket.
    Moved = 16,
}

impl fmt::Display for Refusal {
    ghost use Rattle.event_theory.specs.RefusalNames.{refusal_name};

    ghost output = { λ refusal. Some (refusal_name refusal) };

    fn fmt<W: fmt::Write>(&self, f: &mut fmt::Formatter<W>) -> fmt::Result {
        f.write_str(match self {
            Refusal::UnknownName => "UnknownName",
            Refusal::NoItems => "NoItems",
            Refusal::TooLong => "TooLong",
            Refusal::Full => "Full",
            Refusal::NotOwner => "NotOwner",
            Refusal::AlreadyRaised => "AlreadyRaised",
            Refusal::NotRaised => "NotRaised",
            Refusal::NotHeld => "NotHeld",
            Refusal::ProcessorBusy => "ProcessorBusy",
            Refusal::ProcessorEmpty => "ProcessorEmpty",
            Refusal::NotStopped => "NotStopped",
            Refusal::GateBusy => "GateBusy",
            Refusal::NotRunner => "NotRunner",
            Refusal::OutOfMemory => "OutOfMemory",
            Refusal::Closed => "Closed",
            Refusal::Moved => "Moved",
        })
    }
}

impl StdError for Refusal {}

impl From<AllocError> for Refusal {
    ghost from_gives = { λ _ refusal. refusal ≡ refusals.OutOfMemory };

    fn from(_e: AllocError) -> Refusal {
        Refusal::OutOfMemory
    }
}

impl<T: Drop> From<AllocFailed<T>> for Refusal {
    ghost from_gives = { λ _ refusal. refusal ≡ refusals.OutOfMemory };

    fn from(_e: AllocFailed<T>) -> Refusal {
        Refusal::OutOfMemory
    }
}

/// A growth was refused. A call with this answer has changed nothing.
#[derive(Clone, Copy, Debug, PartialEq, Eq, Error)]
#[error("no memory")]
pub struct OutOfMemory;

impl From<AllocError> for OutOfMemory {
    fn from(_e: AllocError) -> OutOfMemory {
        OutOfMemory
    }
}

impl<T: Drop> From<AllocFailed<T>> for OutOfMemory {
    fn from(_e: AllocFailed<T>) -> OutOfMemory {
        OutOfMemory
    }
}
