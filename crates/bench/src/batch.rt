//! The measured loops over the batch queue, whose batches are the lines. A line is put by `try_put`, and taken by
//! `try_take` into a buffer of the line's length.
ghost use Rattle.std.specs.Prelude.{◌≡◌, ◌<◌, ◌≤◌};
ghost use Rattle.std.specs.Thread.{IsSync};
ghost use Rattle.batch_queue.specs.Handles.{IsEndOf};
ghost use Rattle.batch_queue.specs.Layout.{IsPowerOfTwo};

use crate::fault::Fault;
use crate::line::{LONGEST, sum_of};
use crate::measure::{Measured, Watch};
use crate::waits::wait_a_little;
use batch_queue::{BatchEnd, BatchQueue};
use crossbeam_utils::Backoff;
use std::alloc::Global;
use std::rt::Clock;
use std::sync::Wait;
use std::thread;
use std::thread::Threads;

/// How many places the queue has.
#[derive(Clone, Copy)]
pub enum Room {
    Of256,
    Of4096,
}

impl Room {
    fn places(self) -> usize
        ensures { (0 < result) × (result ≤ 16_777_216) × IsPowerOfTwo result }
    {
        match self {
            Room::Of256 => 256,
            Room::Of4096 => 4_096,
        }
    }
}

// One try to take into the buffer. Returns the sum of the items that were taken, if any were.
fn try_sum(queue: &BatchQueue, end: &mut BatchEnd, buffer: &mut [u64]) -> Option<u64>
    requires { IsEndOf queue.now end.old }
    ensures { IsEndOf queue.now end.new }
{
    match queue.try_take(end, buffer) {
        Ok(count) => Some(sum_of(&buffer[..count])),
        Err(_) => None,
    }
}

fn put_and_take(queue: &BatchQueue, end: BatchEnd, line: &[u64], lines: u64) -> (BatchEnd, u64)
    requires { IsEndOf queue.now end }
    ensures { IsEndOf queue.now result.0 }
{
    let mut end = end;
    let mut sum = 0u64;
    let mut places = [0u64; LONGEST];
    let (buffer, _) = places.as_mut_slice().split_at_mut(line.len().min(LONGEST));
    for _ in 0..lines {
        let _refused = queue.try_put(&mut end, line);
        if let Some(taken) = try_sum(queue, &mut end, buffer) {
            sum = sum.wrapping_add(taken);
        }
    }
    (end, sum)
}

/// Puts and takes that many lines at one end, one line after another.
pub fn alone<R: Clock>(
    rt: &R,
    alloc: Global,
    room: Room,
    line: &[u64],
    lines: u64,
) -> Result<Measured, Fault> {
    let (queue, end) = BatchQueue::new(alloc, room.places())?;
    let watch = Watch::start(rt)?;
    let (_end, sum) = put_and_take(&queue, end, line, lines);
    watch.stop(rt, sum)
}

fn put_one<R: Wait>(rt: &R, queue: &BatchQueue, end: BatchEnd, line: &[u64]) -> BatchEnd
    requires { IsEndOf queue.now end }
    ensures { IsEndOf queue.now result }
{
    let mut end = end;
    let backoff = Backoff::new();
    for _ in rt.forever() {
        if queue.try_put(&mut end, line).is_ok() {
            break;
        }
        wait_a_little(&backoff);
    }
    end
}

// Takes into the buffer, once there is a line, and returns the sum of its items.
fn take_one<R: Wait>(
    rt: &R,
    queue: &BatchQueue,
    end: BatchEnd,
    buffer: &mut [u64],
) -> (BatchEnd, u64)
    requires { IsEndOf queue.now end }
    ensures { IsEndOf queue.now result.0 }
{
    let mut end = end;
    let backoff = Backoff::new();
    for _ in rt.forever() {
        if let Some(taken) = try_sum(queue, &mut end, buffer) {
            return (end, taken);
        }
        wait_a_little(&backoff);
    }
    unreachable!()
}

fn put_all<R: Wait>(rt: &R, queue: &BatchQueue, end: BatchEnd, line: &[u64], lines: u64) -> BatchEnd
    requires { IsEndOf queue.now end }
    ensures { IsEndOf queue.now result }
{
    let mut end = end;
    for _ in 0..lines {
        end = put_one(rt, queue, end, line);
    }
    end
}

fn take_all<R: Wait>(
    rt: &R,
    queue: &BatchQueue,
    end: BatchEnd,
    length: usize,
    lines: u64,
) -> (BatchEnd, u64)
    requires { IsEndOf queue.now end }
    ensures { IsEndOf queue.now result.0 }
{
    let mut end = end;
    let mut sum = 0u64;
    let mut places = [0u64; LONGEST];
    let (buffer, _) = places.as_mut_slice().split_at_mut(length.min(LONGEST));
    for _ in 0..lines {
        let (same, taken) = take_one(rt, queue, end, buffer);
        end = same;
        sum = sum.wrapping_add(taken);
    }
    (end, sum)
}

/// Puts that many lines in one thread and takes them in another.
pub fn pair<R: Threads + Wait + Clock + Sync>(
    rt: &R,
    alloc: Global,
    room: Room,
    line: &[u64],
    lines: u64,
) -> Result<Measured, Fault> {
    let (queue, mut giver) = BatchQueue::new(alloc, room.places())?;
    let taker = queue.split(&mut giver);
    let queue = &queue;
    let length = line.len();
    let watch = Watch::start(rt)?;
    let (_giver, (_taker, sum)) = thread::join(
        rt,
        move || -> BatchEnd
            requires { IsSync R.row × IsEndOf queue.now giver }
            ensures { IsEndOf queue.entry.now result }
        { put_all(rt, queue, giver, line, lines) },
        move || -> (BatchEnd, u64)
            requires { IsSync R.row × IsEndOf queue.now taker }
            ensures { IsEndOf queue.entry.now result.0 }
        { take_all(rt, queue, taker, length, lines) },
    );
    watch.stop(rt, sum)
}

fn put_two<R: Threads + Wait + Sync>(
    rt: &R,
    queue: &BatchQueue,
    ends: (BatchEnd, BatchEnd),
    line: &[u64],
    lines: u64,
) -> (BatchEnd, BatchEnd)
    requires { IsEndOf queue.now ends.0 × IsEndOf queue.now ends.1 }
    ensures { IsEndOf queue.now result.0 × IsEndOf queue.now result.1 }
{
    let (one, other) = ends;
    thread::join(
        rt,
        move || -> BatchEnd
            requires { IsSync R.row × IsEndOf queue.now one }
            ensures { IsEndOf queue.entry.now result }
        { put_all(rt, queue, one, line, lines) },
        move || -> BatchEnd
            requires { IsSync R.row × IsEndOf queue.now other }
            ensures { IsEndOf queue.entry.now result }
        { put_all(rt, queue, other, line, lines) },
    )
}

fn take_two<R: Threads + Wait + Sync>(
    rt: &R,
    queue: &BatchQueue,
    ends: (BatchEnd, BatchEnd),
    length: usize,
    lines: u64,
) -> ((BatchEnd, u64), (BatchEnd, u64))
    requires { IsEndOf queue.now ends.0 × IsEndOf queue.now ends.1 }
    ensures { IsEndOf queue.now result.0.0 × IsEndOf queue.now result.1.0 }
{
    let (one, other) = ends;
    thread::join(
        rt,
        move || -> (BatchEnd, u64)
            requires { IsSync R.row × IsEndOf queue.now one }
            ensures { IsEndOf queue.entry.now result.0 }
        { take_all(rt, queue, one, length, lines) },
        move || -> (BatchEnd, u64)
            requires { IsSync R.row × IsEndOf queue.now other }
            ensures { IsEndOf queue.entry.now result.0 }
        { take_all(rt, queue, other, length, lines) },
    )
}

/// Puts that many lines in two threads and takes them in two others, a half of them in each thread.
pub fn four<R: Threads + Wait + Clock + Sync>(
    rt: &R,
    alloc: Global,
    room: Room,
    line: &[u64],
    lines: u64,
) -> Result<Measured, Fault> {
    let (queue, mut giver) = BatchQueue::new(alloc, room.places())?;
    let other_giver = queue.split(&mut giver);
    let taker = queue.split(&mut giver);
    let other_taker = queue.split(&mut giver);
    let (givers, takers) = ((giver, other_giver), (taker, other_taker));
    let queue = &queue;
    let (length, half) = (line.len(), lines / 2);
    let watch = Watch::start(rt)?;
    let (_givers, taken) = thread::join(
        rt,
        move || -> (BatchEnd, BatchEnd)
            requires { IsSync R.row × IsEndOf queue.now givers.0 × IsEndOf queue.now givers.1 }
            ensures { IsEndOf queue.entry.now result.0 × IsEndOf queue.entry.now result.1 }
        { put_two(rt, queue, givers, line, half) },
        move || -> ((BatchEnd, u64), (BatchEnd, u64))
            requires { IsSync R.row × IsEndOf queue.now takers.0 × IsEndOf queue.now takers.1 }
            ensures { IsEndOf queue.entry.now result.0.0 × IsEndOf queue.entry.now result.1.0 }
        { take_two(rt, queue, takers, length, half) },
    );
    let ((_taker, one), (_other_taker, other)) = taken;
    watch.stop(rt, one.wrapping_add(other))
}
