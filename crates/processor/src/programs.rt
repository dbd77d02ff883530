//! The programs of the threads of a plan.
ghost use Rattle.std.specs.Prelude.{◌≡◌, ◌≤◌};
ghost use Rattle.std.specs.List.{count_by, list_any};
ghost use Rattle.processor.specs.Programs.{program, is_hear, hear_count, hears_large, one_hears_large, longest_line};

use boot_data::BootPlan;
use boot_data::plan::{PlannedThread, QueueIndex, Step};
use event_theory::Element;

// The program of the thread with this number. A thread that the plan lacks has no steps.
pub(crate) fn program_of(plan: &BootPlan, thread: Element) -> &[Step]
    ensures { result.now ≡ program plan.now thread }
{
    match plan.threads.as_slice().get(usize::from(thread.number())) {
        Some(thread) => thread.steps.as_slice(),
        None => &[],
    }
}

// How many steps hear.
fn hears_in(steps: &[Step]) -> usize
    ensures { result ≡ count_by is_hear steps.now }
{
    steps
        .iter()
        .filter(|step| matches!(**step, Step::Hear { queue: _ }))
        .count()
}

/// How many steps of a plan hear.
pub fn hears_of(plan: &BootPlan) -> usize
    ensures result { result ≡ hear_count plan.now }
    ensures few { result ≤ 4096 }
{
    let mut hears = 0;
    for thread in plan.threads.as_slice() {
        hears += hears_in(thread.steps.as_slice());
    }
    hears
}

// Whether one of the steps hears from a large queue.
fn hears_large(steps: &[Step]) -> bool
    ensures { result ≡ list_any hears_large steps.now }
{
    steps.iter().any(|step| {
        matches!(
            *step,
            Step::Hear {
                queue: QueueIndex::Large(_)
            }
        )
    })
}

// Whether a step of one of the threads hears from a large queue.
fn one_hears_large(threads: &[PlannedThread]) -> bool
    ensures { result ≡ list_any one_hears_large threads.now }
{
    threads
        .iter()
        .any(|thread| hears_large(thread.steps.as_slice()))
}

/// The most items of a line that a step of a plan can hear: 256 if one hears from a large queue, else 64.
pub fn longest_line(plan: &BootPlan) -> usize
    ensures result { result ≡ longest_line plan.now }
    ensures few { result ≤ 256 }
{
    if one_hears_large(plan.threads.as_slice()) {
        256
    } else {
        64
    }
}
