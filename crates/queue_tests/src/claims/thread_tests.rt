ghost use Rattle.std.specs.Prelude.{◌≡◌};
ghost use Rattle.std.specs.Thread.{IsSync};
ghost use Rattle.claim_queue.specs.Handles.{IsEndOf};

use crate::fixtures::close_queue;
use arrayvec::ArrayVec;
use claim_queue::*;
use std::alloc::Global;
use std::process::Abort;
use std::sync::Wait;
use std::test::*;
use std::thread;
use std::thread::Threads;

const LINES: u64 = 20_000;

type Lines = ClaimQueue<64>;

/// The lines of a taker: how often each line came, and whether each came whole and in its producer's order.
#[derive(Drop)]
struct Had {
    times: Vec<u64>,
    in_order: bool,
}

/// The mark of a line, which is never the byte 10: twice the line's number, with its producer, 0 or 1, added.
fn mark(producer: u64, line: u64) -> u64 {
    line.wrapping_mul(2)
        .wrapping_add(producer)
        .wrapping_add(1_000)
}

/// A line of 1 to 7 marks, and its end.
fn line_of(producer: u64, line: u64) -> ArrayVec<u64, 64> {
    let mut items = ArrayVec::new();
    for _ in 0..line % 7 + 1 {
        let _full = items.try_push(mark(producer, line));
    }
    let _full = items.try_push(10);
    items
}

/// Puts the line, with retries while the queue is full.
fn put_line<R: Wait>(rt: &R, queue: &Lines, end: &mut QueueEnd<64>, items: &[u64])
    requires { IsEndOf queue.now end.old }
    ensures { IsEndOf queue.now end.new }
{
    for _ in rt.forever() {
        if queue.put(rt, end, items).is_ok() {
            return;
        }
        thread::yield_now();
    }
}

fn feed<R: Wait>(rt: &R, queue: &Lines, end: QueueEnd<64>, producer: u64) -> QueueEnd<64>
    requires { IsEndOf queue.now end }
    ensures { IsEndOf queue.now result }
{
    let mut end = end;
    for line in 0..LINES {
        let items = line_of(producer, line);
        put_line(rt, queue, &mut end, items.as_slice());
    }
    end
}

impl Had {
    /// One line. `next` has for each producer the line from which on the next may come.
    fn note(&mut self, items: &[u64], next: &mut [u64; 2]) {
        let Some(first) = items.first() else {
            self.in_order = false;
            return;
        };
        let code = first.wrapping_sub(1_000);
        let (producer, line) = (code % 2, code / 2);
        let wanted = line_of(producer, line);
        let at = producer as usize;
        if wanted.as_slice() != items || line < next[at] {
            self.in_order = false;
        }
        next[at] = line.wrapping_add(1);
        if let Some(times) = self.times.get_mut(code as usize) {
            *times = times.wrapping_add(1);
        }
    }
}

fn drain<R: Wait>(rt: &R, queue: &Lines, end: QueueEnd<64>, had: Had) -> (QueueEnd<64>, Had)
    requires { IsEndOf queue.now end }
    ensures { IsEndOf queue.now result.0 }
{
    let mut end = end;
    let mut had = had;
    let mut next = [0u64; 2];
    for _ in rt.forever() {
        let mut line = ArrayVec::new();
        match queue.try_take_line(&mut end, &mut line) {
            Ok(_) => had.note(line.as_slice(), &mut next),
            Err(TakeRefusal::Closed) => break,
            Err(_) => thread::yield_now(),
        }
    }
    (end, had)
}

fn feed_two<R: Threads + Wait + Sync>(
    rt: &R,
    queue: &Lines,
    one: QueueEnd<64>,
    other: QueueEnd<64>,
) -> (QueueEnd<64>, QueueEnd<64>)
    requires { IsEndOf queue.now one × IsEndOf queue.now other }
    ensures { IsEndOf queue.now result.0 × IsEndOf queue.now result.1 }
{
    thread::join(
        rt,
        move || -> QueueEnd<64>
            requires { IsSync R.row × IsEndOf queue.now one }
            ensures { IsEndOf queue.entry.now result }
        { feed(rt, queue, one, 0) },
        move || -> QueueEnd<64>
            requires { IsSync R.row × IsEndOf queue.now other }
            ensures { IsEndOf queue.entry.now result }
        { feed(rt, queue, other, 1) },
    )
}

fn drain_two<R: Threads + Wait + Sync>(
    rt: &R,
    queue: &Lines,
    one: (QueueEnd<64>, Had),
    other: (QueueEnd<64>, Had),
) -> ((QueueEnd<64>, Had), (QueueEnd<64>, Had))
    requires { IsEndOf queue.now one.0 × IsEndOf queue.now other.0 }
    ensures { IsEndOf queue.now result.0.0 × IsEndOf queue.now result.1.0 }
{
    thread::join(
        rt,
        move || -> (QueueEnd<64>, Had)
            requires { IsSync R.row × IsEndOf queue.now one.0 }
            ensures { IsEndOf queue.entry.now result.0 }
        { drain(rt, queue, one.0, one.1) },
        move || -> (QueueEnd<64>, Had)
            requires { IsSync R.row × IsEndOf queue.now other.0 }
            ensures { IsEndOf queue.entry.now result.0 }
        { drain(rt, queue, other.0, other.1) },
    )
}

/// Puts all lines, and then shuts the queue.
fn feed_and_shut<R: Threads + Wait + Sync>(
    rt: &R,
    queue: &Lines,
    last: QueueEnd<64>,
    one: QueueEnd<64>,
    other: QueueEnd<64>,
) -> QueueEnd<64>
    requires { IsEndOf queue.now last × IsEndOf queue.now one × IsEndOf queue.now other }
    ensures { IsEndOf queue.now result }
{
    let mut last = last;
    let (one, other) = feed_two(rt, queue, one, other);
    let _was_open = queue.shut(&mut last);
    queue.join(&mut last, one);
    queue.join(&mut last, other);
    last
}

fn feed_and_drain<R: Threads + Wait + Sync>(
    rt: &R,
    queue: &Lines,
    feeders: (QueueEnd<64>, QueueEnd<64>, QueueEnd<64>),
    one: (QueueEnd<64>, Had),
    other: (QueueEnd<64>, Had),
) -> (QueueEnd<64>, ((QueueEnd<64>, Had), (QueueEnd<64>, Had)))
    requires feeders { IsEndOf queue.now feeders.0 × IsEndOf queue.now feeders.1 × IsEndOf queue.now feeders.2 }
    requires takers { IsEndOf queue.now one.0 × IsEndOf queue.now other.0 }
    ensures { IsEndOf queue.now result.0 × IsEndOf queue.now result.1.0.0 × IsEndOf queue.now result.1.1.0 }
{
    let (last, a, b) = feeders;
    thread::join(
        rt,
        move || -> QueueEnd<64>
            requires { IsSync R.row × IsEndOf queue.now last × IsEndOf queue.now a × IsEndOf queue.now b }
            ensures { IsEndOf queue.entry.now result }
        { feed_and_shut(rt, queue, last, a, b) },
        move || -> ((QueueEnd<64>, Had), (QueueEnd<64>, Had))
            requires { IsSync R.row × IsEndOf queue.now one.0 × IsEndOf queue.now other.0 }
            ensures { IsEndOf queue.entry.now result.0.0 × IsEndOf queue.entry.now result.1.0 }
        { drain_two(rt, queue, one, other) },
    )
}

fn nothing_had<R: Abort>(rt: &R, alloc: Global) -> Had {
    let Ok(times) = Vec::from_elem(alloc, 0u64, 40_000) else {
        panic!(rt; "no memory")
    };
    Had {
        times,
        in_order: true,
    }
}

/// How many lines came once, to one of the two takers.
fn came_once(one: &Had, other: &Had) -> u64 {
    let mut once = 0u64;
    for (mine, theirs) in one.times.iter().zip(other.times.iter()) {
        if mine.wrapping_add(*theirs) == 1 {
            once = once.wrapping_add(1);
        }
    }
    once
}

/// The queue is closed with its last three ends, and nothing is left in it.
fn closes<R: Abort>(
    rt: &R,
    queue: Lines,
    last: QueueEnd<64>,
    one: QueueEnd<64>,
    other: QueueEnd<64>,
)
    requires { IsEndOf queue last × IsEndOf queue one × IsEndOf queue other }
{
    let mut last = last;
    queue.join(&mut last, one);
    queue.join(&mut last, other);
    let closed = close_queue(rt, queue, last);
    assert!(rt; (closed.put, closed.left.len()) == (closed.taken, 0));
}

#[test]
fn two_put_and_two_take(rt: HostRuntime) {
    let alloc = rt.alloc();
    let Ok((queue, mut last)) = Lines::new(alloc, 0) else {
        panic!(rt; "no memory")
    };
    let a = queue.split(&mut last);
    let b = queue.split(&mut last);
    let one = (queue.split(&mut last), nothing_had(&rt, alloc));
    let other = (queue.split(&mut last), nothing_had(&rt, alloc));
    let (last, (one, other)) = feed_and_drain(&rt, &queue, (last, a, b), one, other);
    let (one, had) = one;
    let (other, more) = other;
    closes(&rt, queue, last, one, other);
    assert!(rt; had.in_order && more.in_order);
    assert!(rt; came_once(&had, &more) == 40_000);
}
