//! The measured loops over the kit's `ArrayQueue`, which pushes and pops item by item.
use crate::fault::Fault;
use crate::measure::{Measured, Watch};
use crate::waits::wait_a_little;
use crossbeam_queue::ArrayQueue;
use crossbeam_utils::Backoff;
use std::alloc::Global;
use std::rt::Clock;
use std::sync::Wait;
use std::thread;
use std::thread::Threads;

type Queue = ArrayQueue<u64>;

const PLACES: usize = 256;

fn push_and_pop<R: Wait>(rt: &R, queue: &Queue, line: &[u64], lines: u64) -> u64 {
    let mut sum = 0u64;
    for _ in 0..lines {
        for item in line {
            let _full = queue.push(rt, *item);
        }
        for _ in 0..line.len() {
            if let Some(item) = queue.pop(rt) {
                sum = sum.wrapping_add(item);
            }
        }
    }
    sum
}

/// Pushes and pops the items of that many lines in one thread, one line after another.
pub fn alone<R: Wait + Clock>(
    rt: &R,
    alloc: Global,
    line: &[u64],
    lines: u64,
) -> Result<Measured, Fault> {
    let queue = Queue::new(alloc, PLACES)?;
    let watch = Watch::start(rt)?;
    let sum = push_and_pop(rt, &queue, line, lines);
    watch.stop(rt, sum)
}

/// Pushes an item. Retries while the queue is full.
pub fn push_one<R: Wait, T: Copy>(rt: &R, queue: &ArrayQueue<T>, item: T) {
    let backoff = Backoff::new();
    for _ in rt.forever() {
        if queue.push(rt, item).is_ok() {
            break;
        }
        wait_a_little(&backoff);
    }
}

/// Pops an item, once there is one.
pub fn pop_one<R: Wait, T: Copy>(rt: &R, queue: &ArrayQueue<T>) -> T {
    let backoff = Backoff::new();
    for _ in rt.forever() {
        if let Some(item) = queue.pop(rt) {
            return item;
        }
        wait_a_little(&backoff);
    }
    unreachable!()
}

fn push_all<R: Wait>(rt: &R, queue: &Queue, line: &[u64], lines: u64) {
    for _ in 0..lines {
        for item in line {
            push_one(rt, queue, *item);
        }
    }
}

fn pop_all<R: Wait>(rt: &R, queue: &Queue, length: usize, lines: u64) -> u64 {
    let mut sum = 0u64;
    for _ in 0..lines {
        for _ in 0..length {
            sum = sum.wrapping_add(pop_one(rt, queue));
        }
    }
    sum
}

/// Pushes the items of that many lines in one thread and pops them in another.
pub fn pair<R: Threads + Wait + Clock + Sync>(
    rt: &R,
    alloc: Global,
    line: &[u64],
    lines: u64,
) -> Result<Measured, Fault> {
    let queue = Queue::new(alloc, PLACES)?;
    let queue = &queue;
    let length = line.len();
    let watch = Watch::start(rt)?;
    let ((), sum) = thread::join(
        rt,
        move || push_all(rt, queue, line, lines),
        move || pop_all(rt, queue, length, lines),
    );
    watch.stop(rt, sum)
}

/// Pushes the items of that many lines in two threads and pops them in two others, a half of them in each thread.
pub fn four<R: Threads + Wait + Clock + Sync>(
    rt: &R,
    alloc: Global,
    line: &[u64],
    lines: u64,
) -> Result<Measured, Fault> {
    let queue = Queue::new(alloc, PLACES)?;
    let queue = &queue;
    let (length, half) = (line.len(), lines / 2);
    let watch = Watch::start(rt)?;
    let (_pushed, (one, other)) = thread::join(
        rt,
        move || {
            thread::join(
                rt,
                move || push_all(rt, queue, line, half),
                move || push_all(rt, queue, line, half),
            )
        },
        move || {
            thread::join(
                rt,
                move || pop_all(rt, queue, length, half),
                move || pop_all(rt, queue, length, half),
            )
        },
    );
    watch.stop(rt, one.wrapping_add(other))
}
