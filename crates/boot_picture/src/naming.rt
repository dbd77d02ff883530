//! The names that the script gives to threads, queues, pumps, switches and gauges.

use boot_data::BootPlan;
use boot_data::plan::QueueIndex;
use event_theory::{Element, Gauge};

/// The name of a thread.
pub(crate) fn thread_name(plan: &BootPlan, thread: Element) -> &[u8] {
    match plan.threads.as_slice().get(usize::from(thread.number())) {
        Some(planned) => planned.name.as_slice(),
        None => b"",
    }
}

/// The name of a queue or a pipe.
pub(crate) fn pipe_name(plan: &BootPlan, queue: usize) -> &[u8] {
    match plan.queues.as_slice().get(queue) {
        Some(planned) => planned.name.as_slice(),
        None => b"",
    }
}

/// The name of a queue, or of the tty to which it belongs.
pub(crate) fn queue_name(plan: &BootPlan, queue: QueueIndex) -> &[u8] {
    match queue {
        QueueIndex::Small(number) => pipe_name(plan, number),
        QueueIndex::Large(number) => match plan.ttys.as_slice().get(number / 2) {
            Some(planned) => planned.name.as_slice(),
            None => b"",
        },
    }
}

/// Which of the queues of its tty a queue is; nothing for another queue.
pub(crate) fn queue_side(queue: QueueIndex) -> &'static str {
    match queue {
        QueueIndex::Small(_) => "",
        QueueIndex::Large(number) => { if number % 2 == 0 { ".line" } else { ".screen" } }
    }
}

/// The name of a pump or a switch.
pub(crate) fn mover_name(plan: &BootPlan, mover: usize) -> &[u8] {
    match plan.movers.as_slice().get(mover) {
        Some(planned) => planned.name.as_slice(),
        None => b"",
    }
}

/// The name of a gauge.
pub(crate) fn gauge_name(plan: &BootPlan, gauge: Gauge) -> &[u8] {
    match plan.gauges.as_slice().get(usize::from(gauge.number())) {
        Some(name) => name.as_slice(),
        None => b"",
    }
}
