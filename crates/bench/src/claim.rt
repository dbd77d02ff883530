//! The measured loops over the claim queue, which puts and takes whole lines.
ghost use Rattle.std.specs.Prelude.{◌≡◌, []};
ghost use Rattle.std.specs.Thread.{IsSync};
ghost use Rattle.claim_queue.specs.Handles.{IsEndOf};

use crate::fault::Fault;
use crate::line::sum_of;
use crate::measure::{Measured, Watch};
use crate::waits::wait_a_little;
use arrayvec::ArrayVec;
use claim_queue::{ClaimQueue, QueueEnd};
use crossbeam_utils::Backoff;
use std::alloc::Global;
use std::rt::Clock;
use std::sync::Wait;
use std::thread;
use std::thread::Threads;

type Queue = ClaimQueue<256>;

type End = QueueEnd<256>;

fn put_and_take(queue: &Queue, end: End, line: &[u64], lines: u64) -> (End, u64)
    requires { IsEndOf queue.now end }
    ensures { IsEndOf queue.now result.0 }
{
    let mut end = end;
    let mut sum = 0u64;
    let mut taken = ArrayVec::new();
    for _ in 0..lines {
        let _refused = queue.try_put(&mut end, line);
        let _refused = queue.try_take_line(&mut end, &mut taken);
        sum = sum.wrapping_add(sum_of(taken.as_slice()));
        taken.clear();
    }
    (end, sum)
}

/// Puts and takes that many lines at one end, one line after another.
pub fn alone<R: Clock>(rt: &R, alloc: Global, line: &[u64], lines: u64) -> Result<Measured, Fault> {
    let (queue, end) = Queue::new(alloc, 0)?;
    let watch = Watch::start(rt)?;
    let (_end, sum) = put_and_take(&queue, end, line, lines);
    watch.stop(rt, sum)
}

fn put_one<R: Wait>(rt: &R, queue: &Queue, end: End, line: &[u64]) -> End
    requires { IsEndOf queue.now end }
    ensures { IsEndOf queue.now result }
{
    let mut end = end;
    let backoff = Backoff::new();
    for _ in rt.forever() {
        if queue.try_put(&mut end, line).is_ok() {
            break;
        }
        wait_a_little(&backoff);
    }
    end
}

fn take_one<R: Wait>(rt: &R, queue: &Queue, end: End, line: &mut ArrayVec<u64, 256>) -> End
    requires { IsEndOf queue.now end × (line.old.items ≡ []) }
    ensures { IsEndOf queue.now result }
{
    let mut end = end;
    let backoff = Backoff::new();
    for _ in rt.forever() {
        if queue.try_take_line(&mut end, line).is_ok() {
            break;
        }
        wait_a_little(&backoff);
    }
    end
}

fn put_all<R: Wait>(rt: &R, queue: &Queue, end: End, line: &[u64], lines: u64) -> End
    requires { IsEndOf queue.now end }
    ensures { IsEndOf queue.now result }
{
    let mut end = end;
    for _ in 0..lines {
        end = put_one(rt, queue, end, line);
    }
    end
}

fn take_all<R: Wait>(rt: &R, queue: &Queue, end: End, lines: u64) -> (End, u64)
    requires { IsEndOf queue.now end }
    ensures { IsEndOf queue.now result.0 }
{
    let mut end = end;
    let mut sum = 0u64;
    let mut line = ArrayVec::new();
    for _ in 0..lines {
        end = take_one(rt, queue, end, &mut line);
        sum = sum.wrapping_add(sum_of(line.as_slice()));
        line.clear();
    }
    (end, sum)
}

/// Puts that many lines in one thread and takes them in another.
pub fn pair<R: Threads + Wait + Clock + Sync>(
    rt: &R,
    alloc: Global,
    line: &[u64],
    lines: u64,
) -> Result<Measured, Fault> {
    let (queue, mut giver) = Queue::new(alloc, 0)?;
    let taker = queue.split(&mut giver);
    let queue = &queue;
    let watch = Watch::start(rt)?;
    let (_giver, (_taker, sum)) = thread::join(
        rt,
        move || -> End
            requires { IsSync R.row × IsEndOf queue.now giver }
            ensures { IsEndOf queue.entry.now result }
        { put_all(rt, queue, giver, line, lines) },
        move || -> (End, u64)
            requires { IsSync R.row × IsEndOf queue.now taker }
            ensures { IsEndOf queue.entry.now result.0 }
        { take_all(rt, queue, taker, lines) },
    );
    watch.stop(rt, sum)
}

fn put_two<R: Threads + Wait + Sync>(
    rt: &R,
    queue: &Queue,
    ends: (End, End),
    line: &[u64],
    lines: u64,
) -> (End, End)
    requires { IsEndOf queue.now ends.0 × IsEndOf queue.now ends.1 }
    ensures { IsEndOf queue.now result.0 × IsEndOf queue.now result.1 }
{
    let (one, other) = ends;
    thread::join(
        rt,
        move || -> End
            requires { IsSync R.row × IsEndOf queue.now one }
            ensures { IsEndOf queue.entry.now result }
        { put_all(rt, queue, one, line, lines) },
        move || -> End
            requires { IsSync R.row × IsEndOf queue.now other }
            ensures { IsEndOf queue.entry.now result }
        { put_all(rt, queue, other, line, lines) },
    )
}

fn take_two<R: Threads + Wait + Sync>(
    rt: &R,
    queue: &Queue,
    ends: (End, End),
    lines: u64,
) -> ((End, u64), (End, u64))
    requires { IsEndOf queue.now ends.0 × IsEndOf queue.now ends.1 }
    ensures { IsEndOf queue.now result.0.0 × IsEndOf queue.now result.1.0 }
{
    let (one, other) = ends;
    thread::join(
        rt,
        move || -> (End, u64)
            requires { IsSync R.row × IsEndOf queue.now one }
            ensures { IsEndOf queue.entry.now result.0 }
        { take_all(rt, queue, one, lines) },
        move || -> (End, u64)
            requires { IsSync R.row × IsEndOf queue.now other }
            ensures { IsEndOf queue.entry.now result.0 }
        { take_all(rt, queue, other, lines) },
    )
}

/// Puts that many lines in two threads and takes them in two others, a half of them in each thread.
pub fn four<R: Threads + Wait + Clock + Sync>(
    rt: &R,
    alloc: Global,
    line: &[u64],
    lines: u64,
) -> Result<Measured, Fault> {
    let (queue, mut giver) = Queue::new(alloc, 0)?;
    let other_giver = queue.split(&mut giver);
    let taker = queue.split(&mut giver);
    let other_taker = queue.split(&mut giver);
    let (givers, takers) = ((giver, other_giver), (taker, other_taker));
    let queue = &queue;
    let half = lines / 2;
    let watch = Watch::start(rt)?;
    let (_givers, taken) = thread::join(
        rt,
        move || -> (End, End)
            requires { IsSync R.row × IsEndOf queue.now givers.0 × IsEndOf queue.now givers.1 }
            ensures { IsEndOf queue.entry.now result.0 × IsEndOf queue.entry.now result.1 }
        { put_two(rt, queue, givers, line, half) },
        move || -> ((End, u64), (End, u64))
            requires { IsSync R.row × IsEndOf queue.now takers.0 × IsEndOf queue.now takers.1 }
            ensures { IsEndOf queue.entry.now result.0.0 × IsEndOf queue.entry.now result.1.0 }
        { take_two(rt, queue, takers, half) },
    );
    let ((_taker, one), (_other_taker, other)) = taken;
    watch.stop(rt, one.wrapping_add(other))
}
