//! The figures that are measured: their names, their units, and the number of measurements.
use crate::boots::{measure_setup, measure_turns};
use crate::fault::Fault;
use crate::measure::Done;
use crate::notes::{Notes, measure_notes};
use crate::queues::{Course, Structure, measure_lines};
use crate::replays::measure_replay;
use crate::ring::measure_passes;
use crate::scripts::Script;
use std::alloc::Global;
use std::rt::Clock;
use std::sync::Wait;
use std::thread::Threads;

/// The number of measurements, of which the shortest, the middle one and the longest are reported.
const REPEATS: usize = 15;

/// The results of several measurements, in tenths of a nanosecond for each thing that was done.
#[derive(Clone, Copy)]
pub struct Spread {
    pub shortest: u128,
    pub middle: u128,
    pub longest: u128,
}

/// The measured task, with the number of a row.
#[derive(Clone, Copy)]
pub enum Task {
    /// Lines of so many items.
    Lines(Course, Structure),
    /// Notes that are handed over by so many threads.
    Notes(Notes),
    /// Passes on so many processors.
    Passes,
    /// Boots of a script on so many processors, with no turn.
    Setup(Script),
    /// Boots of a script on so many processors, with turns.
    Turns(Script),
    /// A list of so many KiB of events.
    Replay,
}

/// The unit in which a figure is reported, with the word for what is done.
pub enum Unit {
    /// Nanoseconds for each thing.
    Each(&'static str),
    /// The number of things in a second.
    Rate(&'static str),
}

/// A figure. Its row has the name, the number, and the results.
pub struct Figure {
    pub name: &'static str,
    pub task: Task,
    pub unit: Unit,
}

// One measurement. It is a fault if something else was done than is to be measured.
fn measure<R: Threads + Wait + Clock + Sync>(
    rt: &R,
    alloc: Global,
    task: Task,
    number: u8,
) -> Result<Done, Fault> {
    match task {
        Task::Lines(course, structure) => measure_lines(rt, alloc, course, structure, number),
        Task::Notes(notes) => measure_notes(rt, alloc, notes),
        Task::Passes => measure_passes(rt, alloc, number),
        Task::Setup(script) => measure_setup(rt, alloc, script, number),
        Task::Turns(script) => measure_turns(rt, alloc, script, number),
        Task::Replay => measure_replay(rt, alloc, number),
    }
}

/// The times of several measurements.
pub fn spread_of<R: Threads + Wait + Clock + Sync>(
    rt: &R,
    alloc: Global,
    task: Task,
    number: u8,
) -> Result<Spread, Fault> {
    let mut tenths = [0; REPEATS];
    for k in 0..REPEATS {
        tenths[k] = measure(rt, alloc, task, number)?.tenths_each();
    }
    tenths.sort_unstable();
    Ok(Spread {
        shortest: tenths[0],
        middle: tenths[REPEATS / 2],
        longest: tenths[REPEATS - 1],
    })
}
