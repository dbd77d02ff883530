//! The lines of queues and pipes, and of gauges.
ghost use Rattle.std.specs.Prelude.{◌≡◌, ◌≤◌, [], length, vec_capacity};
ghost use Rattle.boot_laws.specs.Lines.{kind_of_queue};
ghost use Rattle.boot_report.specs.Made.{numbered, queue_line, gauge_line};

use crate::amounts::{copy_of, counts_in, number_in};
use boot_data::plan::{PipeWaits, PlannedQueue};
use boot_data::{GaugeLine, Name, QueueKind, QueueLine};
use claim_queue::Closed;

// The word of the script that declares a queue with these wait queues.
fn kind_of(waits: &Option<PipeWaits>) -> QueueKind
    ensures { result ≡ kind_of_queue waits.now }
{
    match waits {
        Some(_) => QueueKind::Pipe,
        None => QueueKind::Queue,
    }
}

// The line of the queue with this number.
fn line_of(number: usize, queue: &PlannedQueue, small: &[Closed<64>]) -> QueueLine
    ensures { result ≡ queue_line small.now number queue.now }
{
    QueueLine {
        kind: kind_of(&queue.waits),
        name: copy_of(&queue.name),
        items: counts_in(small, number),
    }
}

/// The line of each queue and pipe, in the order of the script.
pub(crate) fn queue_lines(
    queues: &[PlannedQueue],
    small: &[Closed<64>],
    lines: Vec<QueueLine>,
) -> Vec<QueueLine>
    requires room { (lines.items ≡ []) × (length queues.now ≤ vec_capacity lines) }
    ensures { result.items ≡ numbered (queue_line small.now) 0 queues.now }
{
    let mut lines = lines;
    for (number, queue) in queues.iter().enumerate() {
        lines.push_reserved(line_of(number, queue, small));
    }
    lines
}

/// The line of each gauge, in the order of the script.
pub(crate) fn gauge_lines(
    names: &[Name],
    values: &[u64; 8],
    lines: Vec<GaugeLine>,
) -> Vec<GaugeLine>
    requires room { (lines.items ≡ []) × (length names.now ≤ vec_capacity lines) }
    ensures lines { result.items ≡ numbered (gauge_line values.now) 0 names.now }
    ensures eight { length values.now ≡ 8 }
{
    let mut lines = lines;
    for (number, name) in names.iter().enumerate() {
        lines.push_reserved(GaugeLine {
            name: copy_of(name),
            value: number_in(values, number),
        });
    }
    lines
}
