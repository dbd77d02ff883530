//! The lines of ttys.
ghost use Rattle.std.specs.Prelude.{◌≡◌, ◌≤◌, ◌+◌, ◌<◌, [], length, vec_capacity};
ghost use Rattle.boot_report.specs.Made.{numbered, tty_lines, typed_at};

use crate::amounts::{copy_of, counts_in, numbers_in};
use boot_data::TtyLines;
use boot_data::plan::PlannedTty;
use boot_objects::TornDown;

/// The numbers of a tty's device: the number of bytes popped, and how many of them the raw queue refused.
#[derive(Clone, Copy, Debug, PartialEq, Eq)]
pub struct Typed {
    pub popped: u64,
    pub refused: u64,
}

// The numbers of this tty's device.
fn typed_in(typed: &[Typed], tty: usize) -> Typed
    ensures { result ≡ typed_at typed.now tty }
{
    match typed.get(tty) {
        Some(typed) => *typed,
        None => Typed {
            popped: 0,
            refused: 0,
        },
    }
}

// The lines of the tty with this number.
fn lines_of(number: usize, tty: &PlannedTty, ended: &TornDown, typed: &[Typed]) -> TtyLines
    requires low { number < 2 }
    ensures { result ≡ tty_lines ended.now typed.now number tty.now }
{
    let queues = ended.plan().queues.as_slice().len();
    let movers = ended.plan().movers.as_slice().len();
    let device = typed_in(typed, number);
    let quaject = numbers_in(ended.counts(), movers + number);
    TtyLines {
        name: copy_of(&tty.name),
        typed: device.popped,
        overrun: device.refused,
        notes: quaject.notes,
        held: quaject.held as u64,
        raw: counts_in(ended.small(), queues + number),
        line: counts_in(ended.large(), number * 2),
        screen: counts_in(ended.large(), number * 2 + 1),
    }
}

/// The lines of each tty, in the order of the script. There are two at most.
pub(crate) fn lines_of_ttys(
    ended: &TornDown,
    typed: &[Typed],
    lines: Vec<TtyLines>,
) -> Vec<TtyLines>
    requires room { (lines.items ≡ []) × (length ended.now.plan.ttys ≤ vec_capacity lines) }
    ensures { result.items ≡ numbered (tty_lines ended.now typed.now) 0 ended.now.plan.ttys }
{
    let mut lines = lines;
    for (number, tty) in ended.plan().ttys.as_slice().iter().enumerate() {
        lines.push_reserved(lines_of(number, tty, ended, typed));
    }
    lines
}
