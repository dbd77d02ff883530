//! A boot whose turns are recorded.

ghost use Rattle.std.specs.Prelude.{◌≡◌, ◌≤◌, [], IfOk, Some};
ghost use Rattle.boot_script.specs.Plans.{text_plan};
ghost use Rattle.processor.specs.Points.{calls};
ghost use Rattle.boot_view.specs.Views.{HasBooted};

use crate::boot_timer::BootTimer;
use crate::command::Command;
use boot_log::{Recorder, TurnClock};
use boot_threads::{Witness, Work, Worked};
use event_theory::OutOfMemory;
use processor::{Gate, Shared, TurnGate};
use std::alloc::Global;
use std::sync::Wait;
use synth_kernel::{Booted, boot_on_with};

/// How many turns of a processor, and how many bytes of its lines, are recorded at most.
const MOST_TURNS: u32 = 50_000;

const BYTES_OF_LINES: usize = 1_000_000;

/// Boots a script, whose report is appended to `report`, and records the turns of each processor. The recorders are all
/// that the clock makes. No time of a turn is before `from`.
///
/// Conditions: there are 1 to 8 processors, and the report is empty.
pub(crate) fn boot_recorded<R, B, C>(
    rt: &R,
    clock: B,
    alloc: Global,
    from: u64,
    command: Command,
    script: &[u8],
    report: &mut Vec<u8>,
) -> Result<Booted<Recorder<C>>, OutOfMemory>
where
    R: Witness<Shared, Worked<Recorder<C>>, Work<Recorder<C>>> + Wait + Sync,
    B: BootTimer<C> + Drop,
    C: TurnClock + Send + Drop,
    requires number { (1 ≤ command.processors) × (command.processors ≤ 8) }
    requires report { report.old.items ≡ [] }
    ensures { IfOk result (HasBooted R.ran R.shown (calls ⟦<Recorder<C> as Gate>⟧.observes
        ⟦<Recorder<C> as TurnGate>⟧.learns) (B.made clock) (B.read_by clock) from command (Some script.now)
        report.new.items) }
{
    let (processors, turns) = (command.processors, command.turns);
    let most = turns.min(MOST_TURNS) as usize;
    let gates = clock.all_recorders(alloc, processors, from, most, BYTES_OF_LINES)?;
    let mut source = script;
    match boot_on_with(rt, alloc, &mut source, report, processors, turns, gates) {
        Ok(booted) => Ok(booted),
        // the script is valid, its bytes are in memory, and the report goes there
        Err(_) => Err(OutOfMemory),
    }
}
