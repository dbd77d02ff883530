//! Lines of items through a queue: the claim queue or the batch queue, which put and take whole lines, or the kit's
//! `ArrayQueue`.
use crate::batch::Room;
use crate::fault::Fault;
use crate::line::{line_of, sum_of};
use crate::measure::{Done, Measured};
use crate::{array, batch, claim};
use std::alloc::Global;
use std::rt::Clock;
use std::sync::Wait;
use std::thread::Threads;

/// The number of items that each measurement puts and takes: whole lines of 1, of 16 and of 64 items.
const ITEMS: u64 = 960_000;

/// The numbers of threads that put and take.
#[derive(Clone, Copy)]
pub enum Course {
    /// One thread puts and takes.
    Alone,
    /// One thread puts, and another takes.
    Pair,
    /// Two threads put, and two others take.
    Four,
}

/// The queue that is measured.
#[derive(Clone, Copy)]
pub enum Structure {
    ClaimQueue,
    BatchQueue(Room),
    ArrayQueue,
}

// The time of so many lines, and the sum of the items taken.
fn time_lines<R: Threads + Wait + Clock + Sync>(
    rt: &R,
    alloc: Global,
    course: Course,
    structure: Structure,
    line: &[u64],
    lines: u64,
) -> Result<Measured, Fault> {
    match (course, structure) {
        (Course::Alone, Structure::ClaimQueue) => claim::alone(rt, alloc, line, lines),
        (Course::Pair, Structure::ClaimQueue) => claim::pair(rt, alloc, line, lines),
        (Course::Four, Structure::ClaimQueue) => claim::four(rt, alloc, line, lines),
        (Course::Alone, Structure::BatchQueue(room)) => batch::alone(rt, alloc, room, line, lines),
        (Course::Pair, Structure::BatchQueue(room)) => batch::pair(rt, alloc, room, line, lines),
        (Course::Four, Structure::BatchQueue(room)) => batch::four(rt, alloc, room, line, lines),
        (Course::Alone, Structure::ArrayQueue) => array::alone(rt, alloc, line, lines),
        (Course::Pair, Structure::ArrayQueue) => array::pair(rt, alloc, line, lines),
        (Course::Four, Structure::ArrayQueue) => array::four(rt, alloc, line, lines),
    }
}

/// Measures lines of `length` items, 1 to 64, once.
pub fn measure_lines<R: Threads + Wait + Clock + Sync>(
    rt: &R,
    alloc: Global,
    course: Course,
    structure: Structure,
    length: u8,
) -> Result<Done, Fault> {
    let line = line_of(length as usize);
    let line = line.as_slice();
    let lines = ITEMS / length.max(1) as u64;
    let measured = time_lines(rt, alloc, course, structure, line, lines)?;
    measured.done(sum_of(line).wrapping_mul(lines), ITEMS)
}
