//! Three producers and two takers, each in a thread of its own.
ghost use Rattle.std.specs.Prelude.{◌≡◌, [], ◌∷◌, ◌<◌, IfOk, length, map, slice_index_or};
ghost use Rattle.std.specs.Thread.{IsSync};
ghost use Rattle.claim_queue.specs.Handles.{view_of, IsEndOf};
ghost use Rattle.spooler.specs.Doings.{HasPut};
ghost use Rattle.spooler.specs.Ends.{Puts, Takes, AreEndsOf, PutsAll};
ghost use Rattle.spooler.specs.Lines.{lines_of};
ghost use Rattle.spooler.specs.Spooled.{IsSpooled};

use crate::line::Line;
use arrayvec::ArrayVec;
use claim_queue::{ClaimQueue, QueueEnd, TakeRefusal};
use event_theory::OutOfMemory;
use std::alloc::Global;
use std::sync::Wait;
use std::thread;
use std::thread::Threads;

type Queue = ClaimQueue<64>;

type End = QueueEnd<64>;

/// The result of a taker: its end, and the lines that it took. None if it was out of memory for one of them.
type Taker = (End, Option<Vec<Line>>);

/// Puts one line, which is one claim. Retries while the queue is full.
fn put_line<R: Wait>(rt: &R, queue: &Queue, end: &mut End, line: &Line)
    requires { IsEndOf queue.now end.old }
    ensures queue { IsEndOf queue.now end.new }
    ensures put { HasPut (line.now.items.items ∷ []) (view_of end.old) (view_of end.new) }
{
    for _ in rt.forever() {
        match queue.put(rt, end, line.items.as_slice()) {
            Ok(_) => return,
            Err(_) => thread::yield_now(),
        }
    }
}

/// Puts the lines, in their order.
fn put_lines<R: Wait>(rt: &R, queue: &Queue, end: &mut End, lines: &[Line])
    requires { IsEndOf queue.now end.old }
    ensures { Puts queue.now lines.now end.old end.new }
{
    for line in lines {
        put_line(rt, queue, end, line);
    }
}

/// Takes lines until the queue is shut and empty. If it is out of memory for a line it goes on, so that no producer
/// waits for it.
fn take_lines<R: Wait>(rt: &R, alloc: Global, queue: &Queue, mut end: End) -> Taker
    requires { IsEndOf queue.now end }
    ensures { Takes queue.now end result }
{
    let (mut lines, mut kept) = (Vec::new(alloc), true);
    for _ in rt.forever() {
        let mut items = ArrayVec::new();
        match queue.try_take_line(&mut end, &mut items) {
            Ok(_) => kept = lines.push(Line { items }).is_ok() && kept,
            Err(TakeRefusal::Closed) => return (end, kept.then_some(lines)),
            Err(_) => thread::yield_now(),
        }
    }
    unreachable!()
}

/// Spools three jobs: a producer puts the lines of each, and two takers take them. When all lines are put the queue is
/// shut, and when all are taken it is closed. Each line that was put was taken once. One order of all lines has each
/// producer's lines in its order, and each taker's lines in the order in which it took them.
///
/// A queue takes 4,294,967,295 items. With more items the producers wait forever. If a thread can't be started, its
/// work is done before the work beside it. Then producers of more lines than the queue has room for may wait forever.
pub fn run_spool<R: Threads + Wait + Sync>(
    rt: &R,
    alloc: Global,
    jobs: &[Vec<Line>; 3],
) -> Result<(Vec<Line>, Vec<Line>), OutOfMemory>
    ensures { IfOk result (λ s. IsSpooled (map (λ job. lines_of job.items) jobs.now)
        (lines_of s.0.items ∷ lines_of s.1.items ∷ [])) }
{
    let (queue, mut last) = Queue::new(alloc, 0)?;
    let (a, b) = (queue.split(&mut last), queue.split(&mut last));
    let (c, d) = (queue.split(&mut last), queue.split(&mut last));
    let e = queue.split(&mut last);
    let (shared, mut ends) = (&queue, [a, b, c]);
    // The producers run beside each other; then one more end has what all of their ends had, and shuts the queue.
    let putting = move || -> End
        requires { IsSync R.row × (length jobs.now ≡ 3) × IsEndOf shared.now last × AreEndsOf shared.now ends }
        ensures { IsEndOf shared.entry.now result
            × PutsAll (map (λ job. lines_of job.items) jobs.entry.now) (view_of last) (map view_of ends) (view_of result) }
    {
        let put = |i: usize, end: &mut End|
            requires { (i < 3) × IsEndOf shared.now end.old }
            ensures queue { IsEndOf shared.entry.now end.new }
            ensures put { (j : _) → HasPut (lines_of (slice_index_or jobs.entry.now i j).items) (view_of end.old)
                (view_of end.new) }
        { put_lines(rt, shared, end, jobs[i].as_slice()) };
        thread::for_each_mut(rt, &mut ends, 3, &put);
        for end in ends {
            shared.join(&mut last, end);
        }
        let _was_open = shared.shut(&mut last);
        last
    };
    // The takers run beside each other.
    let taking = move || -> (Taker, Taker)
        requires { IsSync R.row × IsEndOf shared.now d × IsEndOf shared.now e }
        ensures { Takes shared.entry.now d result.0 × Takes shared.entry.now e result.1 }
    {
        let one = move || -> Taker
            requires { IsEndOf shared.now d }
            ensures { Takes shared.entry.now d result }
        { take_lines(rt, alloc, shared, d) };
        let other = move || -> Taker
            requires { IsEndOf shared.now e }
            ensures { Takes shared.entry.now e result }
        { take_lines(rt, alloc, shared, e) };
        thread::join(rt, one, other)
    };
    let (mut last, ((d, one), (e, other))) = thread::join(rt, putting, taking);
    queue.join(&mut last, d);
    queue.join(&mut last, e);
    let Ok(_closed) = queue.close(last) else {
        unreachable!()
    };
    one.zip(other).ok_or(OutOfMemory)
}
