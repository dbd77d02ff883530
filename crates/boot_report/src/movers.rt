//! The lines of pumps and switches, and the notes left in all chains.
ghost use Rattle.std.specs.Prelude.{◌≡◌, ◌≤◌, ◌%◌, ◌^◌, [], length, vec_capacity};
ghost use Rattle.std.specs.List.{sum_by};
ghost use Rattle.boot_laws.specs.Lines.{kind_of_mover};
ghost use Rattle.boot_report.specs.Made.{numbered, mover_line, left_in};

use crate::amounts::{copy_of, numbers_in};
use boot_data::plan::{Mover, PlannedMover};
use boot_data::{MoverKind, MoverLine};
use quajects::Came;

// The word of the script that declares the pump or switch.
fn kind_of(mover: &Mover) -> MoverKind
    ensures { result ≡ kind_of_mover mover.now }
{
    match mover {
        Mover::Pump { .. } => MoverKind::Pump,
        Mover::Switch { .. } => MoverKind::Switch,
    }
}

// The line of the pump or switch with this number.
fn line_of(number: usize, mover: &PlannedMover, counts: &[Came]) -> MoverLine
    ensures { result ≡ mover_line counts.now number mover.now }
{
    let quaject = numbers_in(counts, number);
    MoverLine {
        kind: kind_of(&mover.mover),
        name: copy_of(&mover.name),
        notes: quaject.notes,
        taken: quaject.taken,
        put: quaject.put,
        held: quaject.held as u64,
    }
}

/// The line of each pump and switch, in the order of the script.
pub(crate) fn mover_lines(
    movers: &[PlannedMover],
    counts: &[Came],
    lines: Vec<MoverLine>,
) -> Vec<MoverLine>
    requires room { (lines.items ≡ []) × (length movers.now ≤ vec_capacity lines) }
    ensures { result.items ≡ numbered (mover_line counts.now) 0 movers.now }
{
    let mut lines = lines;
    for (number, mover) in movers.iter().enumerate() {
        lines.push_reserved(line_of(number, mover, counts));
    }
    lines
}

/// The sum of the notes left in the chains, modulo 2^64.
pub(crate) fn all_left(counts: &[Came]) -> u64
    ensures { result ≡ sum_by left_in counts.now % 2 ^ 64 }
{
    let mut left = 0u64;
    for came in counts {
        left = left.wrapping_add(came.left() as u64);
    }
    left
}
