//! The clock of a boot that is recorded.
//!
//! `made` is known of a list of recorders only from the one call of `all_recorders`, which spends the clock. A contract
//! that says `made` of the recorders of a boot therefore states that no other boot had a recorder of this clock.

ghost use Rattle.std.specs.Prelude.{◌≡◌, ◌≤◌, List, IfOk, vec_len, ⊤};
ghost use Rattle.std.specs.List.{All};
ghost use Rattle.boot_log.specs.declared.recorder.Recorder.{Recorder};
ghost use Rattle.boot_log.specs.Recorders.{IsNewRecorder};

use boot_log::{ALARMS, BootClock, Recorder, TurnClock};
use event_theory::OutOfMemory;
use std::alloc::Global;

/// A clock that makes the recorders of one boot, and is handed to nothing else.
pub trait BootTimer<C: TurnClock> {
    // The clock that the recorders read.
    ghost read_by: { Self → C };

    // These are all recorders that were made.
    ghost made: { Self → List (Recorder C) → Type 0 };

    /// The time in nanoseconds, at or after `last`.
    fn boot_time(&self, last: u64) -> u64
        ensures said { C.says (read_by self.now) last result }
        ensures order { last ≤ result };

    /// So many recorders that have kept nothing, each with room for so many turns, and bytes of their lines. No turn's
    /// time is before `from`. `OutOfMemory` is returned only if an allocation was refused.
    fn all_recorders(
        self,
        alloc: Global,
        number: u8,
        from: u64,
        turns: usize,
        bytes: usize,
    ) -> Result<Vec<Recorder<C>>, OutOfMemory>
        ensures made { IfOk result (λ all. made self all.items) }
        ensures many { IfOk result (λ all. vec_len all ≡ number) }
        ensures new { IfOk result (λ all. All (IsNewRecorder (read_by self) from
            (record { turns = turns; bytes = bytes; alarms = ALARMS })) all.items) };
}

impl<C: TurnClock + Copy + Drop> BootTimer<C> for BootClock<C> {
    ghost read_by = { λ timer. timer.clock };

    ghost made = { λ timer all. ⊤ };

    fn boot_time(&self, last: u64) -> u64 {
        self.time(last)
    }

    fn all_recorders(
        self,
        alloc: Global,
        number: u8,
        from: u64,
        turns: usize,
        bytes: usize,
    ) -> Result<Vec<Recorder<C>>, OutOfMemory> {
        self.recorders(alloc, number, from, turns, bytes)
    }
}
