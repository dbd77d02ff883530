//! The clock that a recorder reads.
//!
//! A time has to have its cause, a read of the clock. `reads` carries it. Code that is generic over a timer knows of
//! `reads` only what a call of `read` ensured. So a contract that says of a time that a read gave it states that the
//! clock was read.
ghost use Rattle.std.specs.Prelude.{◌≡◌, ◌≤◌, ◌-◌, ◌^◌, ℕ, Result, ⊤, min};
ghost use Rattle.std.specs.Duration.{as_nanos};
ghost use Rattle.std.specs.declared.io.Error.{Error};
ghost use Rattle.std.specs.declared.time.Duration.{Duration};
ghost use Rattle.boot_log.specs.Clocks.{IsTimeOf};

use std::io;
use std::time::{Clock, Duration};

/// A clock that a recorder reads at the end of each turn.
pub trait TurnClock {
    // After it was read at the first number, the clock may be read at the second.
    ghost says: { Self → ℕ → ℕ → Type 0 };

    /// The time in nanoseconds since a start of the clock's own. `last` is the time that was read before.
    fn time(&self, last: u64) -> u64
        ensures said { says self.now last result }
        ensures order { last ≤ result };
}

/// A clock of which each read is known. Every clock of a handle is one.
pub trait Timer: Clock {
    // One read of this clock gave this answer.
    ghost reads: { Self → Result Duration Error → Type 0 };

    /// Reads the monotonic clock once.
    fn read(&self) -> io::Result<Duration>
        ensures { reads self.now result };
}

impl<R: Clock> Timer for R {
    ghost reads = { λ clock answer. ⊤ };

    fn read(&self) -> io::Result<Duration> {
        self.monotonic()
    }
}

/// The monotonic clock of a handle. Each time is that of one read of the clock. A time of 2^64 nanoseconds or more, some 584 years, is read as 2^64 - 1. If the
/// clock returns an error, or goes back, the last time is returned again.
impl<R: Timer> TurnClock for R {
    ghost says = { λ clock last time. (answer : Result Duration Error) × R.reads clock answer
        × IsTimeOf answer last time };

    fn time(&self, last: u64) -> u64 {
        match self.read() {
            Ok(time) => nanos_of(time).max(last),
            Err(_) => last,
        }
    }
}

// The nanoseconds of a span of time, and 2^64 - 1 if there are more.
fn nanos_of(time: Duration) -> u64
    ensures { result ≡ min (as_nanos time) (2 ^ 64 - 1) }
{
    let whole = time.as_secs().saturating_mul(1_000_000_000);
    whole.saturating_add(u64::from(time.subsec_nanos()))
}
