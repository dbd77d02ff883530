//! The calculation of a figure from the clock.
use crate::fault::Fault;
use std::fmt;
use std::rt::Clock;
use std::time::{Duration, Instant};

/// The number of tenths of a nanosecond in a second.
const TENTHS_A_SECOND: u128 = 10_000_000_000;

/// The result of a loop: its time, and the sum modulo 2^64 of what came out.
#[derive(Drop)]
pub struct Measured {
    pub time: Duration,
    pub sum: u64,
}

/// A running clock.
#[derive(Drop)]
pub struct Watch {
    start: Instant,
}

impl Watch {
    pub fn start<R: Clock>(rt: &R) -> Result<Watch, Fault> {
        let start = Instant::now(rt).map_err(Fault::of_clock)?;
        Ok(Watch { start })
    }

    /// The time since the start, with this sum of what came out.
    pub fn stop<R: Clock>(self, rt: &R, sum: u64) -> Result<Measured, Fault> {
        let time = self.start.elapsed(rt).map_err(Fault::of_clock)?;
        Ok(Measured { time, sum })
    }
}

impl Done {
    /// Tenths of a nanosecond for each thing done.
    pub fn tenths_each(&self) -> u128 {
        self.time.as_nanos().saturating_mul(10) / self.count.max(1) as u128
    }
}

impl Measured {
    /// Records that so many things were done, if the sum is the expected one.
    pub fn done(self, wanted: u64, count: u64) -> Result<Done, Fault> {
        if self.sum != wanted {
            return Err(Fault::Miscount);
        }
        Ok(Done {
            time: self.time,
            count,
        })
    }
}

/// The time of so many things that were done.
#[derive(Drop)]
pub struct Done {
    pub time: Duration,
    pub count: u64,
}

/// So many tenths, as a number with one digit after the point.
#[derive(Clone, Copy)]
pub struct Tenths(pub u128);

impl fmt::Display for Tenths {
    fn fmt<W: fmt::Write>(&self, f: &mut fmt::Formatter<W>) -> fmt::Result {
        let (whole, part) = (self.0 / 10, self.0 % 10);
        write!(f, "{whole}.{part}")
    }
}

/// The number of things in a second, if one takes so many tenths of a nanosecond.
pub fn each_second(tenths: u128) -> u128 {
    TENTHS_A_SECOND / tenths.max(1)
}
