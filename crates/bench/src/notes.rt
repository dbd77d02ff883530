//! Notes, and their runner: a chain's quaject, or a thread that pops them from the kit's `ArrayQueue`.
use crate::array::{pop_one, push_one};
use crate::chains;
use crate::fault::Fault;
use crate::measure::{Done, Measured, Watch};
use crossbeam_queue::ArrayQueue;
use std::alloc::Global;
use std::rt::Clock;
use std::sync::Wait;
use std::thread;
use std::thread::Threads;

/// The number of notes that each measurement hands over.
const NOTES: u64 = 400_000;

/// The number of places of a chain, and so of the queue beside it.
const PLACES: usize = 32;

type Queue = ArrayQueue<u16>;

/// Adds up the notes that it runs.
#[derive(Drop)]
pub struct Runner {
    sum: u64,
}

impl Runner {
    pub fn new() -> Runner {
        Runner { sum: 0 }
    }

    /// Runs the note.
    pub fn take(&mut self, note: u16) {
        self.sum = self.sum.wrapping_add(note as u64);
    }

    /// The sum modulo 2^64 of the notes that were run.
    pub fn sum(self) -> u64 {
        self.sum
    }
}

/// The note with this number.
pub fn note_of(number: u64) -> u16 {
    (number % 1_000) as u16 + 1
}

/// The ways in which notes are handed over.
#[derive(Clone, Copy)]
pub enum Notes {
    /// One thread chains and runs them.
    ChainAlone,
    /// Two threads chain them, and run them if they have the Turn.
    ChainPair,
    /// One thread pushes and pops them.
    ArrayAlone,
    /// Two threads push them, and a third pops and runs them.
    ArrayThree,
}

fn push_notes<R: Wait>(rt: &R, queue: &Queue, notes: u64) {
    for number in 0..notes {
        push_one(rt, queue, note_of(number));
    }
}

fn run_notes<R: Wait>(rt: &R, queue: &Queue, notes: u64) -> u64 {
    let mut runner = Runner::new();
    for _ in 0..notes {
        runner.take(pop_one(rt, queue));
    }
    runner.sum()
}

// Pushes so many notes, and pops and runs each at once.
fn push_and_run<R: Wait>(rt: &R, queue: &Queue, runner: &mut Runner, notes: u64) {
    for number in 0..notes {
        push_one(rt, queue, note_of(number));
        runner.take(pop_one(rt, queue));
    }
}

fn array_alone<R: Wait + Clock>(rt: &R, alloc: Global) -> Result<Measured, Fault> {
    let queue = Queue::new(alloc, PLACES)?;
    let mut runner = Runner::new();
    let watch = Watch::start(rt)?;
    push_and_run(rt, &queue, &mut runner, NOTES);
    watch.stop(rt, runner.sum())
}

fn array_three<R: Threads + Wait + Clock + Sync>(rt: &R, alloc: Global) -> Result<Measured, Fault> {
    let queue = Queue::new(alloc, PLACES)?;
    let queue = &queue;
    let watch = Watch::start(rt)?;
    let (_pushed, sum) = thread::join(
        rt,
        move || {
            thread::join(
                rt,
                move || push_notes(rt, queue, NOTES / 2),
                move || push_notes(rt, queue, NOTES / 2),
            )
        },
        move || run_notes(rt, queue, NOTES),
    );
    watch.stop(rt, sum)
}

// The sum of the first so many notes.
fn sum_to(notes: u64) -> u64 {
    let mut sum = 0u64;
    for number in 0..notes {
        sum = sum.wrapping_add(note_of(number) as u64);
    }
    sum
}

/// Measures the notes once.
pub fn measure_notes<R: Threads + Wait + Clock + Sync>(
    rt: &R,
    alloc: Global,
    notes: Notes,
) -> Result<Done, Fault> {
    let measured = match notes {
        Notes::ChainAlone => chains::alone(rt, alloc, NOTES),
        Notes::ChainPair => chains::pair(rt, alloc, NOTES),
        Notes::ArrayAlone => array_alone(rt, alloc),
        Notes::ArrayThree => array_three(rt, alloc),
    }?;
    let wanted = match notes {
        Notes::ChainAlone | Notes::ArrayAlone => sum_to(NOTES),
        Notes::ChainPair | Notes::ArrayThree => sum_to(NOTES / 2).wrapping_mul(2),
    };
    measured.done(wanted, NOTES)
}
