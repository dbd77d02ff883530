//! The names that a plan gives to what turns name by numbers. What the plan lacks has an empty name.

ghost use Rattle.std.specs.Prelude.{◌≡◌};
ghost use Rattle.std.specs.List.{slice_get};
ghost use Rattle.trace_events.specs.Names.{name_of_thread, name_of_queue, name_of_tty, name_of_mover, name_of_gauge};

use boot_data::BootPlan;
use event_theory::{Element, Gauge};

/// The name of a thread.
pub(crate) fn thread_name(plan: &BootPlan, thread: Element) -> &[u8]
    ensures { result.now ≡ name_of_thread (slice_get plan.now.threads thread) }
{
    match plan.threads.as_slice().get(usize::from(thread.number())) {
        Some(thread) => thread.name.as_slice(),
        None => &[],
    }
}

/// The name of a queue or pipe.
pub(crate) fn queue_name(plan: &BootPlan, queue: usize) -> &[u8]
    ensures { result.now ≡ name_of_queue (slice_get plan.now.queues queue) }
{
    match plan.queues.as_slice().get(queue) {
        Some(queue) => queue.name.as_slice(),
        None => &[],
    }
}

/// The name of a tty.
pub(crate) fn tty_name(plan: &BootPlan, tty: usize) -> &[u8]
    ensures { result.now ≡ name_of_tty (slice_get plan.now.ttys tty) }
{
    match plan.ttys.as_slice().get(tty) {
        Some(tty) => tty.name.as_slice(),
        None => &[],
    }
}

/// The name of a pump or switch.
pub(crate) fn mover_name(plan: &BootPlan, mover: usize) -> &[u8]
    ensures { result.now ≡ name_of_mover (slice_get plan.now.movers mover) }
{
    match plan.movers.as_slice().get(mover) {
        Some(mover) => mover.name.as_slice(),
        None => &[],
    }
}

/// The name of a gauge.
pub(crate) fn gauge_name(plan: &BootPlan, gauge: Gauge) -> &[u8]
    ensures { result.now ≡ name_of_gauge (slice_get plan.now.gauges gauge) }
{
    match plan.gauges.as_slice().get(usize::from(gauge.number())) {
        Some(name) => name.as_slice(),
        None => &[],
    }
}
