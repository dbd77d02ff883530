//! The lines of threads.
ghost use Rattle.std.specs.Prelude.{◌≡◌, ◌≤◌, [], length, vec_capacity};
ghost use Rattle.boot_report.specs.Made.{numbered, thread_line, reported, state_at, few, shown_at};

use crate::amounts::{copy_of, number_in};
use boot_data::plan::PlannedThread;
use boot_data::{ThreadLine, ThreadState};
use boot_objects::TornDown;
use event_theory::WaitNumber;
use thread_table::Place;

// The report's word for a place.
fn word_for(place: Place) -> ThreadState
    ensures { result ≡ reported place }
{
    match place {
        Place::Free => ThreadState::Ended,
        Place::Ready => ThreadState::Ready,
        Place::Wait(wait) => match WaitNumber::new(wait) {
            Some(wait) => ThreadState::Wait(wait),
            None => ThreadState::Held,
        },
        Place::Stopped => ThreadState::Stopped,
        Place::Held => ThreadState::Held,
        Place::Processor(_) => ThreadState::Held,
    }
}

// The report's word for the place of this thread.
fn state_in(places: &[Place], thread: usize) -> ThreadState
    ensures { result ≡ state_at places.now thread }
{
    match places.get(thread) {
        Some(place) => word_for(*place),
        None => ThreadState::Held,
    }
}

// A number of steps, or 2^32 - 1 if there are more.
fn steps_of(steps: u64) -> u32
    ensures { result ≡ few steps }
{
    u32::try_from(steps).unwrap_or(u32::MAX)
}

// The signals that were shown to this thread.
fn shown_in(signals: &[u16], thread: usize) -> u16
    ensures { result ≡ shown_at signals.now thread }
{
    signals.get(thread).copied().unwrap_or(0)
}

// The line of the thread with this number.
fn line_of(number: usize, thread: &PlannedThread, ended: &TornDown) -> ThreadLine
    ensures { result ≡ thread_line ended.now number thread.now }
{
    ThreadLine {
        name: copy_of(&thread.name),
        state: state_in(ended.places(), number),
        steps: steps_of(number_in(ended.pcs(), number)),
        signals: shown_in(ended.signals(), number),
    }
}

/// The line of each thread, in the order of the script.
pub(crate) fn thread_lines(ended: &TornDown, lines: Vec<ThreadLine>) -> Vec<ThreadLine>
    requires room { (lines.items ≡ []) × (length ended.now.plan.threads ≤ vec_capacity lines) }
    ensures { result.items ≡ numbered (thread_line ended.now) 0 ended.now.plan.threads }
{
    let mut lines = lines;
    for (number, thread) in ended.plan().threads.as_slice().iter().enumerate() {
        lines.push_reserved(line_of(number, thread, ended));
    }
    lines
}
