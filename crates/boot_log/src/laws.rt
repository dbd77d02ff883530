//! A run that was recorded: its log is the front of all turns. Lines that passed: each with its text, and once.
ghost use Rattle.std.specs.Prelude.{◌≡◌, ◌<◌, ◌^◌, ℕ, List, length, true};
ghost use Rattle.std.specs.List.{AllByRecursion};
ghost use Rattle.boot_data.specs.declared.boot_plan.BootPlan.{BootPlan};
ghost use Rattle.processor.specs.Entries.{LogEntry};
ghost use Rattle.processor.specs.Logs.{RanTurns};
ghost use Rattle.processor.specs.Points.{HookedTurns, calls};
ghost use Rattle.processor.specs.declared.shared.Shared.{Shared};
ghost use Rattle.processor.specs.declared.station.Parts.{Parts};
ghost use Rattle.boot_log.specs.declared.recorder.Recorder.{Recorder};
ghost use Rattle.boot_log.specs.Fronts.{IsRecordOf};
ghost use Rattle.boot_log.specs.Kept.{Kept, Room, nothing_kept};
ghost use Rattle.boot_log.specs.Lines.{IsKnownLine, PassOnce, are_same, passings};

use crate::clock::TurnClock;
use crate::recorder::Recorder;
use processor::{Gate, TurnGate};

/// A recorder had kept nothing before a run of fewer than 2^64 turns. After the run its log has the entry of each turn
/// up to the first for which there was no room, and the number of all others. The times are the clock's, and none is
/// before an earlier one. It is the log that the contract of the run names. The log's room stays.
pub fn runs_are_kept<C: TurnClock>()
    ensures turns { (shared : Shared) (p number : ℕ) (turns : List LogEntry) (old new : Parts) (room : Room)
        (gate gate' : Recorder C) → HookedTurns (calls ⟦<Recorder<C> as Gate>⟧.observes
        ⟦<Recorder<C> as TurnGate>⟧.learns) shared p number turns old new gate gate' → length turns < 2 ^ 64
        → gate.log ≡ nothing_kept room → IsRecordOf (C.says gate.clock) gate.last turns gate'.log }
    ensures run { (shared : Shared) (p turns : ℕ) (old new : Parts) (room : Room) (gate gate' : Recorder C)
        (ran : RanTurns (calls ⟦<Recorder<C> as Gate>⟧.observes ⟦<Recorder<C> as TurnGate>⟧.learns) shared p turns
        gate gate' old new) → turns < 2 ^ 64 → gate.log ≡ nothing_kept room
        → IsRecordOf (C.says gate.clock) gate.last ran.log gate'.log }
    ensures room { (shared : Shared) (p number : ℕ) (turns : List LogEntry) (old new : Parts)
        (gate gate' : Recorder C) → HookedTurns (calls ⟦<Recorder<C> as Gate>⟧.observes
        ⟦<Recorder<C> as TurnGate>⟧.learns) shared p number turns old new gate gate'
        → gate'.log.room ≡ gate.log.room }
{}

/// Each line that passed was put into the queue from which it was taken, with the text with which it was taken.
pub fn lines_keep_their_text()
    ensures { (plan : BootPlan) (from : ℕ) (logs : List Kept) → AllByRecursion (λ passing.
        are_same logs passing.said passing.heard ≡ true) (passings plan from logs) }
{}

/// No two lines that passed were said by one turn, or heard by one.
pub fn lines_pass_once()
    ensures { (plan : BootPlan) (from : ℕ) (logs : List Kept) → PassOnce (passings plan from logs) }
{}

/// Only threads put lines into the queue of a line that passed, and take lines from it, and each of their texts is one
/// line. The put began no later than the taking ended. Each log has all turns of its processor that ended by the end of
/// these two: it missed none, or has one that ended later.
pub fn lines_are_known()
    ensures { (plan : BootPlan) (from : ℕ) (logs : List Kept) → AllByRecursion (IsKnownLine plan from logs)
        (passings plan from logs) }
{}
