//! The queues of which each line is one say's. No log has the lines that a pump, a switch or a tty's device moves, and
//! a text with a 0x0A in it is put by one say and taken by several hears.

ghost use Rattle.std.specs.Prelude.{◌≡◌, ◌==◌};
ghost use Rattle.std.specs.List.{list_any};
ghost use Rattle.boot_log.specs.Queues.{has_single_lines, is_moved_by, is_of_threads, is_same_queue, says_lines};

use boot_data::BootPlan;
use boot_data::plan::{Mover, PlannedMover, PlannedThread, QueueIndex, Step, Way};

/// Whether two names are of one queue.
pub(crate) fn is_same_queue(one: QueueIndex, other: QueueIndex) -> bool
    ensures { result ≡ is_same_queue one other }
{
    match (one, other) {
        (QueueIndex::Small(one), QueueIndex::Small(other)) => one == other,
        (QueueIndex::Large(one), QueueIndex::Large(other)) => one == other,
        _ => false,
    }
}

/// Whether a way leads to the queue with this number.
fn has_way_to(queue: usize, ways: &[Way]) -> bool
    ensures { result ≡ list_any (λ way. way.to == queue) ways.now }
{
    ways.iter().any(|way| way.to == queue)
}

/// Whether a pump or switch takes lines from the queue with this number, or puts lines into it.
fn is_moved_by(queue: usize, mover: &Mover) -> bool
    ensures { result ≡ is_moved_by queue mover.now }
{
    match mover {
        Mover::Pump { from, to } => *from == queue || *to == queue,
        Mover::Switch { from, other, ways } => {
            *from == queue || *other == queue || has_way_to(queue, ways.as_slice())
        }
    }
}

/// Whether one of these pumps and switches moves lines of the queue with this number.
fn is_moved(queue: usize, movers: &[PlannedMover]) -> bool
    ensures { result ≡ list_any (λ planned. is_moved_by queue planned.mover) movers.now }
{
    movers
        .iter()
        .any(|planned| is_moved_by(queue, &planned.mover))
}

/// Whether only threads put lines into this queue, and take lines from it: it is a queue or pipe of the plan, and no
/// tty's queue, and no pump or switch moves its lines.
pub(crate) fn is_of_threads(plan: &BootPlan, queue: QueueIndex) -> bool
    ensures { result ≡ is_of_threads plan.now queue }
{
    match queue {
        QueueIndex::Small(queue) => {
            queue < plan.queues.as_slice().len() && !is_moved(queue, plan.movers.as_slice())
        }
        QueueIndex::Large(_) => false,
    }
}

/// Whether there is a 0x0A in the text.
fn has_line_end(text: &[u8]) -> bool
    ensures { result ≡ list_any (λ byte. byte == 10) text.now }
{
    text.iter().any(|byte| *byte == b'\n')
}

/// Whether the step says several lines at once into the queue: its text has a 0x0A before the one that ends the line.
fn says_lines(queue: QueueIndex, step: &Step) -> bool
    ensures { result ≡ says_lines queue step.now }
{
    match step {
        Step::Say { queue: other, text } => {
            is_same_queue(*other, queue) && has_line_end(text.as_slice())
        }
        _ => false,
    }
}

/// Whether one of these steps says several lines at once into the queue.
fn program_says_lines(queue: QueueIndex, steps: &[Step]) -> bool
    ensures { result ≡ list_any (says_lines queue) steps.now }
{
    steps.iter().any(|step| says_lines(queue, step))
}

/// Whether one of these threads says several lines at once into the queue.
fn one_says_lines(queue: QueueIndex, threads: &[PlannedThread]) -> bool
    ensures { result ≡ list_any (λ thread. list_any (says_lines queue) thread.steps) threads.now }
{
    threads.iter().any(|thread| program_says_lines(queue, thread.steps.as_slice()))
}

/// Whether each text that the threads say into the queue is one line.
pub(crate) fn has_single_lines(plan: &BootPlan, queue: QueueIndex) -> bool
    ensures { result ≡ has_single_lines plan.now queue }
{
    !one_says_lines(queue, plan.threads.as_slice())
}
