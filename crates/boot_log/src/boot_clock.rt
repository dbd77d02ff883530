//! The clock of one boot.

ghost use Rattle.std.specs.Prelude.{◌≡◌, ◌≤◌, IfOk, vec_len};
ghost use Rattle.std.specs.List.{All};
ghost use Rattle.boot_log.specs.Recorders.{IsNewRecorder};

use crate::clock::TurnClock;
use crate::log::ALARMS;
use crate::recorder::Recorder;
use event_theory::OutOfMemory;
use std::alloc::Global;

/// A clock that the recorders of one boot read. It is spent when they are made, and hands its clock to nothing else. So
/// a call that is given one `BootClock`, and no other clock of its type, can make recorders for one boot alone.
#[derive(Drop)]
pub struct BootClock<C> {
    clock: C,
}

impl<C: TurnClock> BootClock<C> {
    /// The clock for one boot.
    pub fn new(clock: C) -> BootClock<C>
        ensures { result.clock ≡ clock }
    {
        BootClock { clock }
    }

    /// The time in nanoseconds, at or after `last`.
    pub fn time(&self, last: u64) -> u64
        ensures said { C.says self.now.clock last result }
        ensures order { last ≤ result }
    {
        self.clock.time(last)
    }

    /// So many recorders that have kept nothing, each with room for so many turns, and bytes of their lines. No turn's
    /// time is before `from`. `OutOfMemory` is returned only if an allocation was refused.
    pub fn recorders(
        self,
        alloc: Global,
        number: u8,
        from: u64,
        turns: usize,
        bytes: usize,
    ) -> Result<Vec<Recorder<C>>, OutOfMemory>
    where
        C: Copy + Drop,
        ensures many { IfOk result (λ all. vec_len all ≡ number) }
        ensures new { IfOk result (λ all. All (IsNewRecorder self.clock from
            (record { turns = turns; bytes = bytes; alarms = ALARMS })) all.items) }
    {
        let mut all = Vec::with_capacity(alloc, number as usize)?;
        for made in 0..number {
            all.push_reserved(Recorder::with_room(alloc, self.clock, from, turns, bytes)?);
        }
        Ok(all)
    }
}
