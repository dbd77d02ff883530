//! Threads that put and take batches of random lengths. An item has its producer, its number and its place in its
//! batch. So a taker sees whether each item came once, in the order of its producer, with its whole batch.
ghost use Rattle.std.specs.Prelude.{◌≡◌};
ghost use Rattle.std.specs.Thread.{IsSync};
ghost use Rattle.batch_queue.specs.Handles.{IsEndOf};

use crate::fixtures::{Room, close_queue, new_queue};
use batch_queue::*;
use crossbeam_utils::Backoff;
use std::alloc::Global;
use std::process::Abort;
use std::sync::Wait;
use std::test::*;
use std::thread;
use std::thread::Threads;

/// The longest batch of a producer, and the most that a taker takes at once.
const MOST: usize = 1_024;

/// The content of an item: its producer, 0 or 1, its number among the items of that producer, and how many items of its
/// batch are before it and after it.
#[derive(Clone, Copy, Drop)]
struct Mark {
    producer: u64,
    number: u64,
    before: u64,
    after: u64,
}

impl Mark {
    fn to_item(self) -> u64 {
        let which = self.number.wrapping_mul(2).wrapping_add(self.producer);
        let place = self.before.wrapping_mul(1_024).wrapping_add(self.after);
        which.wrapping_mul(1_048_576).wrapping_add(place)
    }

    fn of(item: u64) -> Mark {
        let (which, place) = (item / 1_048_576, item % 1_048_576);
        Mark {
            producer: which % 2,
            number: which / 2,
            before: place / 1_024,
            after: place % 1_024,
        }
    }

    /// The other item is the next one of the same batch.
    fn leads_to(&self, other: &Mark) -> bool {
        other.producer == self.producer
            && other.number == self.number.wrapping_add(1)
            && other.before == self.before.wrapping_add(1)
            && other.after.wrapping_add(1) == self.after
    }
}

/// Random numbers (xorshift, Marsaglia 2003).
#[derive(Drop)]
struct Random {
    state: u64,
}

impl Random {
    /// A number from 1 to `most`.
    fn next(&mut self, most: u64) -> u64 {
        let mut state = self.state;
        state ^= state << 13;
        state ^= state >> 7;
        state ^= state << 17;
        self.state = state;
        state % most.max(1) + 1
    }
}

/// The number of times that a wait of `Backoff` spins before it gives the processor to others.
const SPINS: u32 = 7;

/// The number of times that a producer gives the processor to others. Then it puts no more: on a busy machine each time
/// costs the time slices of all others, so this bounds the time of a test.
const PATIENCE: u32 = 200;

/// The work of a producer: how many items it has to put, in batches of up to `most`.
#[derive(Clone, Copy, Drop)]
struct Work {
    producer: u64,
    items: u64,
    most: u64,
}

/// The result of a producer: how many items it put, their sum, how often it may still give the processor to others, and
/// whether no put was refused except for Full and Lost.
#[derive(Drop)]
struct Put {
    items: u64,
    sum: u64,
    patience: u32,
    is_right: bool,
}

/// The result of a taker: how often each item came, their sum, and whether each item came in the order of its producer,
/// and, if no batch is parted, with its whole batch.
#[derive(Drop)]
struct Had {
    times: Vec<u8>,
    is_whole: bool,
    sum: u64,
    is_right: bool,
}

/// Fills the buffer with a batch of the producer whose first item has this number. If it isn't whole, each item is
/// marked as a batch of its own, so that any front of it can be put.
fn fill(buffer: &mut [u64], producer: u64, number: u64, is_whole: bool) {
    let count = buffer.len() as u64;
    for (at, item) in buffer.iter_mut().enumerate() {
        let before = at as u64;
        let after = count.wrapping_sub(before).wrapping_sub(1);
        let mark = Mark {
            producer,
            number: number.wrapping_add(before),
            before: if is_whole { before } else { 0 },
            after: if is_whole { after } else { 0 },
        };
        *item = mark.to_item();
    }
}

impl Put {
    fn note(&mut self, items: &[u64]) {
        self.items = self.items.wrapping_add(items.len() as u64);
        for item in items {
            self.sum = self.sum.wrapping_add(*item);
        }
    }

    /// Waits for room, after this number of waits for the same room. Returns false if the producer has waited long
    /// enough.
    fn waits(&mut self, backoff: &Backoff, waited: u32) -> bool {
        if waited >= SPINS {
            if self.patience == 0 {
                return false;
            }
            self.patience -= 1;
        }
        backoff.snooze();
        true
    }
}

/// Puts the batch, and tries again while the queue is full. Returns false if the producer puts no more.
fn put_whole<R: Wait>(
    rt: &R,
    queue: &BatchQueue,
    end: &mut BatchEnd,
    items: &[u64],
    put: &mut Put,
) -> bool
    requires { IsEndOf queue.now end.old }
    ensures { IsEndOf queue.now end.new }
{
    let backoff = Backoff::new();
    let mut waited = 0u32;
    for _ in rt.forever() {
        match queue.put(rt, end, items) {
            Ok(_start) => {
                put.note(items);
                return true;
            }
            Err(PutRefusal::Full { head: _, free: _ }) => {
                if !put.waits(&backoff, waited) {
                    return false;
                }
            }
            Err(_) => {
                put.is_right = false;
                return false;
            }
        }
        waited = waited.saturating_add(1);
    }
    unreachable!()
}

/// Puts the items front by front, each as long as there is room. Returns false if the producer puts no more.
fn put_fronts<R: Wait>(
    rt: &R,
    queue: &BatchQueue,
    end: &mut BatchEnd,
    items: &[u64],
    put: &mut Put,
) -> bool
    requires { IsEndOf queue.now end.old }
    ensures { IsEndOf queue.now end.new }
{
    let mut backoff = Backoff::new();
    let mut waited = 0u32;
    let mut left = items;
    for _ in rt.forever() {
        match queue.try_put_some(end, left) {
            Ok((_start, count)) => {
                let (front, rest) = left.split_at(count.min(left.len()));
                put.note(front);
                left = rest;
                if left.is_empty() {
                    return true;
                }
                (backoff, waited) = (Backoff::new(), 0);
            }
            Err(PutRefusal::Full { head: _, free: _ } | PutRefusal::Lost { head: _ }) => {
                if !put.waits(&backoff, waited) {
                    return false;
                }
                waited = waited.saturating_add(1);
            }
            Err(_) => {
                put.is_right = false;
                return false;
            }
        }
    }
    unreachable!()
}

fn put_batch<R: Wait>(
    rt: &R,
    queue: &BatchQueue,
    end: &mut BatchEnd,
    items: &[u64],
    is_whole: bool,
    put: &mut Put,
) -> bool
    requires { IsEndOf queue.now end.old }
    ensures { IsEndOf queue.now end.new }
{
    if is_whole {
        return put_whole(rt, queue, end, items, put);
    }
    put_fronts(rt, queue, end, items, put)
}

/// Puts the items of the work, in batches of random lengths.
fn feed<R: Wait>(rt: &R, queue: &BatchQueue, end: BatchEnd, work: Work) -> (BatchEnd, Put)
    requires { IsEndOf queue.now end }
    ensures { IsEndOf queue.now result.0 }
{
    let mut end = end;
    let mut buffers = [0u64; MOST];
    let places = buffers.as_mut_slice();
    let mut random = Random {
        state: work.producer.wrapping_add(88_172_645_463_325_252),
    };
    let mut put = Put {
        items: 0,
        sum: 0,
        patience: PATIENCE,
        is_right: true,
    };
    for batch in 0..work.items {
        if put.items >= work.items {
            break;
        }
        let length = random.next(work.most).min(work.items - put.items);
        let count = (length as usize).min(places.len());
        let (buffer, _) = places.split_at_mut(count);
        let is_whole = batch % 2 == 0;
        fill(buffer, work.producer, put.items, is_whole);
        if !put_batch(rt, queue, &mut end, buffer, is_whole, &mut put) {
            break;
        }
    }
    (end, put)
}

impl Had {
    /// Notes one taking. The next item of a producer has this number or a later one.
    fn note(&mut self, items: &[u64], next: &mut [u64; 2]) {
        let mut last: Option<Mark> = None;
        for item in items {
            let mark = Mark::of(*item);
            let follows = match last {
                Some(before) if before.after > 0 => before.leads_to(&mark),
                _ => !self.is_whole || mark.before == 0,
            };
            let at = mark.producer.min(1) as usize;
            self.is_right = self.is_right && follows && mark.number >= next[at];
            next[at] = mark.number.wrapping_add(1);
            self.sum = self.sum.wrapping_add(*item);
            self.count(&mark);
            last = Some(mark);
        }
        let is_whole = self.is_whole;
        self.is_right = self.is_right && last.is_some_and(|mark| !is_whole || mark.after == 0);
    }

    fn count(&mut self, mark: &Mark) {
        let which = mark.number.wrapping_mul(2).wrapping_add(mark.producer);
        match self.times.get_mut(which as usize) {
            Some(times) => *times = times.saturating_add(1),
            None => self.is_right = false,
        }
    }
}

/// Takes until the queue is shut and empty, by the call that waits.
fn drain_waiting<R: Wait>(
    rt: &R,
    queue: &BatchQueue,
    end: BatchEnd,
    had: Had,
    most: usize,
) -> (BatchEnd, Had)
    requires { IsEndOf queue.now end }
    ensures { IsEndOf queue.now result.0 }
{
    let mut end = end;
    let mut had = had;
    let mut next = [0u64; 2];
    let mut places = [0u64; MOST];
    let (buffer, _) = places.as_mut_slice().split_at_mut(most.min(MOST));
    for _ in rt.forever() {
        match queue.take(rt, &mut end, buffer) {
            Ok(count) => had.note(buffer.get(..count).unwrap_or(&[]), &mut next),
            Err(TakeRefusal::Closed) => return (end, had),
            Err(_) => {
                had.is_right = false;
                return (end, had);
            }
        }
    }
    unreachable!()
}

/// The most items of a taking that may part a batch.
const SOME: usize = 5;

fn take_whole_or_some(
    queue: &BatchQueue,
    end: &mut BatchEnd,
    items: &mut [u64],
    is_whole: bool,
) -> Result<usize, TakeRefusal>
    requires { IsEndOf queue.now end.old }
    ensures { IsEndOf queue.now end.new }
{
    if is_whole {
        return queue.try_take(end, items);
    }
    queue.try_take_some(end, items)
}

/// Takes until the queue is shut and empty, by the calls that don't wait.
fn drain<R: Wait>(
    rt: &R,
    queue: &BatchQueue,
    end: BatchEnd,
    had: Had,
    most: usize,
) -> (BatchEnd, Had)
    requires { IsEndOf queue.now end }
    ensures { IsEndOf queue.now result.0 }
{
    let mut end = end;
    let mut had = had;
    let mut next = [0u64; 2];
    let mut places = [0u64; MOST];
    let is_whole = had.is_whole;
    let length = if is_whole { most.min(MOST) } else { SOME };
    let (buffer, _) = places.as_mut_slice().split_at_mut(length);
    let mut backoff = Backoff::new();
    for _ in rt.forever() {
        match take_whole_or_some(queue, &mut end, buffer, is_whole) {
            Ok(count) => {
                had.note(buffer.get(..count).unwrap_or(&[]), &mut next);
                backoff = Backoff::new();
            }
            Err(TakeRefusal::Closed) => return (end, had),
            Err(TakeRefusal::Empty { at: _ } | TakeRefusal::Lost { tail: _ }) => backoff.snooze(),
            Err(TakeRefusal::ShortBuffer { at: _, count: _ }) => {
                had.is_right = false;
                return (end, had);
            }
        }
    }
    unreachable!()
}

/// Puts all items, and then shuts the queue.
fn feed_and_shut<R: Wait>(rt: &R, queue: &BatchQueue, end: BatchEnd, work: Work) -> (BatchEnd, Put)
    requires { IsEndOf queue.now end }
    ensures { IsEndOf queue.now result.0 }
{
    let (mut end, put) = feed(rt, queue, end, work);
    let _was_open = queue.shut(&mut end);
    (end, put)
}

fn feed_and_drain<R: Threads + Wait + Sync>(
    rt: &R,
    queue: &BatchQueue,
    feeder: (BatchEnd, Work),
    taker: (BatchEnd, Had),
    most: usize,
) -> ((BatchEnd, Put), (BatchEnd, Had))
    requires { IsEndOf queue.now feeder.0 × IsEndOf queue.now taker.0 }
    ensures { IsEndOf queue.now result.0.0 × IsEndOf queue.now result.1.0 }
{
    let (feeder, work) = feeder;
    let (taker, had) = taker;
    thread::join(
        rt,
        move || -> (BatchEnd, Put)
            requires { IsSync R.row × IsEndOf queue.now feeder }
            ensures { IsEndOf queue.entry.now result.0 }
        { feed_and_shut(rt, queue, feeder, work) },
        move || -> (BatchEnd, Had)
            requires { IsSync R.row × IsEndOf queue.now taker }
            ensures { IsEndOf queue.entry.now result.0 }
        { drain_waiting(rt, queue, taker, had, most) },
    )
}

fn feed_two<R: Threads + Wait + Sync>(
    rt: &R,
    queue: &BatchQueue,
    one: (BatchEnd, Work),
    other: (BatchEnd, Work),
) -> ((BatchEnd, Put), (BatchEnd, Put))
    requires { IsEndOf queue.now one.0 × IsEndOf queue.now other.0 }
    ensures { IsEndOf queue.now result.0.0 × IsEndOf queue.now result.1.0 }
{
    let (one, first) = one;
    let (other, second) = other;
    thread::join(
        rt,
        move || -> (BatchEnd, Put)
            requires { IsSync R.row × IsEndOf queue.now one }
            ensures { IsEndOf queue.entry.now result.0 }
        { feed(rt, queue, one, first) },
        move || -> (BatchEnd, Put)
            requires { IsSync R.row × IsEndOf queue.now other }
            ensures { IsEndOf queue.entry.now result.0 }
        { feed(rt, queue, other, second) },
    )
}

/// Both ends put, the queue is shut, and the second end is joined into the first.
fn feed_two_and_shut<R: Threads + Wait + Sync>(
    rt: &R,
    queue: &BatchQueue,
    one: (BatchEnd, Work),
    other: (BatchEnd, Work),
) -> (BatchEnd, Put)
    requires { IsEndOf queue.now one.0 × IsEndOf queue.now other.0 }
    ensures { IsEndOf queue.now result.0 }
{
    let ((mut one, first), (other, second)) = feed_two(rt, queue, one, other);
    let _was_open = queue.shut(&mut one);
    queue.join(&mut one, other);
    let put = Put {
        items: first.items.wrapping_add(second.items),
        sum: first.sum.wrapping_add(second.sum),
        patience: 0,
        is_right: first.is_right && second.is_right,
    };
    (one, put)
}

/// One taker waits between its calls, and the other one in them.
fn drain_two<R: Threads + Wait + Sync>(
    rt: &R,
    queue: &BatchQueue,
    one: (BatchEnd, Had),
    other: (BatchEnd, Had),
    most: usize,
) -> ((BatchEnd, Had), (BatchEnd, Had))
    requires { IsEndOf queue.now one.0 × IsEndOf queue.now other.0 }
    ensures { IsEndOf queue.now result.0.0 × IsEndOf queue.now result.1.0 }
{
    let (one, first) = one;
    let (other, second) = other;
    thread::join(
        rt,
        move || -> (BatchEnd, Had)
            requires { IsSync R.row × IsEndOf queue.now one }
            ensures { IsEndOf queue.entry.now result.0 }
        { drain(rt, queue, one, first, most) },
        move || -> (BatchEnd, Had)
            requires { IsSync R.row × IsEndOf queue.now other }
            ensures { IsEndOf queue.entry.now result.0 }
        { drain_waiting(rt, queue, other, second, most) },
    )
}

fn feed_and_drain_two<R: Threads + Wait + Sync>(
    rt: &R,
    queue: &BatchQueue,
    feeders: ((BatchEnd, Work), (BatchEnd, Work)),
    takers: ((BatchEnd, Had), (BatchEnd, Had)),
    most: usize,
) -> ((BatchEnd, Put), ((BatchEnd, Had), (BatchEnd, Had)))
    requires feeders { IsEndOf queue.now feeders.0.0 × IsEndOf queue.now feeders.1.0 }
    requires takers { IsEndOf queue.now takers.0.0 × IsEndOf queue.now takers.1.0 }
    ensures { IsEndOf queue.now result.0.0 × IsEndOf queue.now result.1.0.0 × IsEndOf queue.now result.1.1.0 }
{
    let (a, b) = feeders;
    let (c, d) = takers;
    thread::join(
        rt,
        move || -> (BatchEnd, Put)
            requires { IsSync R.row × IsEndOf queue.now a.0 × IsEndOf queue.now b.0 }
            ensures { IsEndOf queue.entry.now result.0 }
        { feed_two_and_shut(rt, queue, a, b) },
        move || -> ((BatchEnd, Had), (BatchEnd, Had))
            requires { IsSync R.row × IsEndOf queue.now c.0 × IsEndOf queue.now d.0 }
            ensures { IsEndOf queue.entry.now result.0.0 × IsEndOf queue.entry.now result.1.0 }
        { drain_two(rt, queue, c, d, most) },
    )
}

/// A taker that got nothing yet, with a count for each item of either producer, of which each puts `items`.
fn nothing_had<R: Abort>(rt: &R, alloc: Global, items: u64, is_whole: bool) -> Had {
    let Ok(times) = Vec::from_elem(alloc, 0u8, items.wrapping_mul(2) as usize) else {
        panic!(rt; "no memory")
    };
    Had {
        times,
        is_whole,
        sum: 0,
        is_right: true,
    }
}

/// How many items came once, to one of the two takers.
fn came_once(one: &Had, other: &Had) -> u64 {
    let mut once = 0u64;
    for (mine, theirs) in one.times.iter().zip(other.times.iter()) {
        if mine.saturating_add(*theirs) == 1 {
            once = once.wrapping_add(1);
        }
    }
    once
}

/// Closes the queue with its only end: `items` items were put, and all are taken.
fn closes<R: Abort>(rt: &R, queue: BatchQueue, end: BatchEnd, items: u64)
    requires { IsEndOf queue end }
{
    let closed = close_queue(rt, queue, end);
    assert!(rt; (closed.put, closed.taken, closed.left.len()) == (items, items, 0));
}

/// One thread puts, and one takes.
fn one_to_one<R: Threads + Wait + Abort + Sync>(rt: &R, alloc: Global, room: Room, work: Work) {
    let (queue, mut last) = new_queue(rt, alloc, room);
    let taker = queue.split(&mut last);
    let none = nothing_had(rt, alloc, work.items, true);
    let had = nothing_had(rt, alloc, work.items, true);
    let most = room.places();
    let ((mut last, put), (taker, had)) = feed_and_drain(
        rt,
        &queue,
        (last, work),
        (taker, had),
        most,
    );
    queue.join(&mut last, taker);
    closes(rt, queue, last, put.items);
    assert!(rt; put.is_right && had.is_right);
    assert!(rt; put.sum == had.sum);
    assert!(rt; came_once(&had, &none) == put.items);
}

/// Two threads put, each as much, and two take: one of them parts batches, or none does.
fn two_to_two<R: Threads + Wait + Abort + Sync>(
    rt: &R,
    alloc: Global,
    room: Room,
    work: Work,
    is_whole: bool,
) {
    let (queue, mut last) = new_queue(rt, alloc, room);
    let second = queue.split(&mut last);
    let had = nothing_had(rt, alloc, work.items, is_whole);
    let one = (queue.split(&mut last), had);
    let had = nothing_had(rt, alloc, work.items, is_whole);
    let other = (queue.split(&mut last), had);
    let feeders = (
        (last, work),
        (
            second,
            Work {
                producer: 1,
                ..work
            },
        ),
    );
    let most = room.places();
    let ((mut last, put), ((one, had), (other, more))) = feed_and_drain_two(
        rt,
        &queue,
        feeders,
        (one, other),
        most,
    );
    queue.join(&mut last, one);
    queue.join(&mut last, other);
    closes(rt, queue, last, put.items);
    assert!(rt; put.is_right && had.is_right && more.is_right);
    assert!(rt; put.sum == had.sum.wrapping_add(more.sum));
    assert!(rt; came_once(&had, &more) == put.items);
}

fn work_of(items: u64, most: u64) -> Work {
    Work {
        producer: 0,
        items,
        most,
    }
}

#[test]
fn one_to_one_by_two_places(rt: HostRuntime) {
    one_to_one(&rt, rt.alloc(), Room::Of2, work_of(200_000, 2));
}

#[test]
fn one_to_one_by_sixteen_places(rt: HostRuntime) {
    one_to_one(&rt, rt.alloc(), Room::Of16, work_of(500_000, 16));
}

#[test]
fn one_to_one_by_many_places(rt: HostRuntime) {
    one_to_one(&rt, rt.alloc(), Room::Of1024, work_of(1_000_000, 100));
}

#[test]
fn two_to_two_by_two_places(rt: HostRuntime) {
    two_to_two(&rt, rt.alloc(), Room::Of2, work_of(100_000, 2), true);
}

#[test]
fn two_to_two_by_sixteen_places(rt: HostRuntime) {
    two_to_two(&rt, rt.alloc(), Room::Of16, work_of(250_000, 16), true);
}

#[test]
fn two_to_two_by_many_places(rt: HostRuntime) {
    two_to_two(&rt, rt.alloc(), Room::Of1024, work_of(500_000, 100), true);
}

#[test]
fn batches_are_parted_in_sixteen_places(rt: HostRuntime) {
    two_to_two(&rt, rt.alloc(), Room::Of16, work_of(250_000, 16), false);
}

#[test]
fn batches_are_parted_in_many_places(rt: HostRuntime) {
    two_to_two(&rt, rt.alloc(), Room::Of1024, work_of(500_000, 100), false);
}
