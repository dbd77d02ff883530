//! Lists of calls at a queue with their answers, and the functions that make these calls.
ghost use Rattle.batch_queue.specs.Handles.{IsEndOf};

use crate::fixtures::{Room, close_queue, new_queue};
use batch_queue::*;
use std::alloc::Global;
use std::process::Abort;
use std::sync::Wait;

/// The content of a buffer before a taking. It is no item of a script.
const NOTHING: u64 = 9_999;

/// A call at a queue, and its answer. A taking has the size of its buffer. Its answer has the items that are taken.
pub(crate) enum Act {
    Put(&'static [u64], Result<u64, PutRefusal>),
    /// The put that retries when it is lost.
    PutAgain(&'static [u64], Result<u64, PutRefusal>),
    PutSome(&'static [u64], Result<(u64, usize), PutRefusal>),
    Take(usize, Result<&'static [u64], TakeRefusal>),
    /// The taking of up to this number of items, which may part a batch.
    TakeSome(usize, Result<&'static [u64], TakeRefusal>),
    /// The taking that waits.
    TakeAgain(usize, Result<&'static [u64], TakeRefusal>),
    /// Shuts the queue, which was open or not.
    Shut(bool),
    Len(u64),
    /// The tail, the position up to which items are published, the head, and whether the queue is shut.
    Look(u64, u64, u64, bool),
}

/// Calls at a queue of this room, and what its close then has: how many items were put and taken, and those left.
pub(crate) struct Script {
    pub(crate) room: Room,
    pub(crate) acts: &'static [Act],
    pub(crate) put: u64,
    pub(crate) taken: u64,
    pub(crate) left: &'static [u64],
}

/// Returns true if the answer is the wanted one, the first of the buffer are its items, and nothing is after them.
fn has_taken(
    buffer: &[u64],
    answer: Result<usize, TakeRefusal>,
    wanted: &Result<&'static [u64], TakeRefusal>,
) -> bool {
    let count = match (answer, wanted) {
        (Ok(count), Ok(items)) if count == items.len() => count,
        (Err(refusal), Err(other)) if refusal == *other => 0,
        _ => return false,
    };
    let (front, rest) = buffer.split_at(count.min(buffer.len()));
    let items = wanted.unwrap_or(&[]);
    front == items && rest.iter().all(|it| *it == NOTHING)
}

fn takes(
    queue: &BatchQueue,
    end: &mut BatchEnd,
    most: usize,
    wanted: &Result<&'static [u64], TakeRefusal>,
) -> bool
    requires { IsEndOf queue.now end.old }
    ensures { IsEndOf queue.now end.new }
{
    let mut places = [NOTHING; 16];
    let (buffer, _) = places.as_mut_slice().split_at_mut(most.min(16));
    let answer = queue.try_take(end, buffer);
    has_taken(buffer, answer, wanted)
}

fn takes_some(
    queue: &BatchQueue,
    end: &mut BatchEnd,
    most: usize,
    wanted: &Result<&'static [u64], TakeRefusal>,
) -> bool
    requires { IsEndOf queue.now end.old }
    ensures { IsEndOf queue.now end.new }
{
    let mut places = [NOTHING; 16];
    let (buffer, _) = places.as_mut_slice().split_at_mut(most.min(16));
    let answer = queue.try_take_some(end, buffer);
    has_taken(buffer, answer, wanted)
}

fn takes_again<R: Wait>(
    rt: &R,
    queue: &BatchQueue,
    end: &mut BatchEnd,
    most: usize,
    wanted: &Result<&'static [u64], TakeRefusal>,
) -> bool
    requires { IsEndOf queue.now end.old }
    ensures { IsEndOf queue.now end.new }
{
    let mut places = [NOTHING; 16];
    let (buffer, _) = places.as_mut_slice().split_at_mut(most.min(16));
    let answer = queue.take(rt, end, buffer);
    has_taken(buffer, answer, wanted)
}

/// Makes the call, and returns true if the answer is that of the row.
fn is_answered<R: Wait>(rt: &R, queue: &BatchQueue, end: &mut BatchEnd, act: &Act) -> bool
    requires { IsEndOf queue.now end.old }
    ensures { IsEndOf queue.now end.new }
{
    match act {
        Act::Put(items, answer) => queue.try_put(end, items) == *answer,
        Act::PutAgain(items, answer) => queue.put(rt, end, items) == *answer,
        Act::PutSome(items, answer) => queue.try_put_some(end, items) == *answer,
        Act::Take(most, wanted) => takes(queue, end, *most, wanted),
        Act::TakeSome(most, wanted) => takes_some(queue, end, *most, wanted),
        Act::TakeAgain(most, wanted) => takes_again(rt, queue, end, *most, wanted),
        Act::Shut(was_open) => queue.shut(end) == *was_open,
        Act::Len(count) => queue.len(end) == *count,
        Act::Look(tail, published, head, shut) => {
            let look = queue.look(end);
            (look.tail, look.published, look.head, look.shut) == (*tail, *published, *head, *shut)
        }
    }
}

/// Makes the calls by one end.
pub(crate) fn does<R: Abort + Wait>(rt: &R, queue: &BatchQueue, end: &mut BatchEnd, acts: &[Act])
    requires { IsEndOf queue.now end.old }
    ensures { IsEndOf queue.now end.new }
{
    for (at, act) in acts.iter().enumerate() {
        let is_right = is_answered(rt, queue, end, act);
        assert!(rt; is_right, "act {at}");
    }
}

/// Closes the queue with its only end: it has what the script says.
fn closes<R: Abort>(rt: &R, queue: BatchQueue, end: BatchEnd, script: &Script)
    requires { IsEndOf queue end }
{
    assert!(rt; queue.room() == script.room.places());
    let closed = close_queue(rt, queue, end);
    assert!(rt; (closed.put, closed.taken) == (script.put, script.taken));
    assert!(rt; closed.left.len() == script.left.len());
    assert!(rt; closed.left.get(script.left.len()).is_none());
    for (at, item) in script.left.iter().enumerate() {
        assert!(rt; closed.left.get(at) == Some(*item), "item {at}");
    }
}

/// Makes the calls by one end alone.
pub(crate) fn plays<R: Abort + Wait>(rt: &R, alloc: Global, script: &Script) {
    let (queue, mut end) = new_queue(rt, alloc, script.room);
    does(rt, &queue, &mut end, script.acts);
    closes(rt, queue, end, script);
}

/// Makes the call by one of the two ends, and returns true if the answer is that of the row.
fn is_answered_in_turn<R: Wait>(
    rt: &R,
    queue: &BatchQueue,
    one: &mut BatchEnd,
    other: &mut BatchEnd,
    at: usize,
    act: &Act,
) -> bool
    requires { IsEndOf queue.now one.old × IsEndOf queue.now other.old }
    ensures { IsEndOf queue.now one.new × IsEndOf queue.now other.new }
{
    if at % 2 == 0 {
        return is_answered(rt, queue, one, act);
    }
    is_answered(rt, queue, other, act)
}

/// Makes the calls by two ends in turn.
pub(crate) fn plays_in_turn<R: Abort + Wait>(rt: &R, alloc: Global, script: &Script) {
    let (queue, mut one) = new_queue(rt, alloc, script.room);
    let mut other = queue.split(&mut one);
    for (at, act) in script.acts.iter().enumerate() {
        let is_right = is_answered_in_turn(rt, &queue, &mut one, &mut other, at, act);
        assert!(rt; is_right, "act {at}");
    }
    queue.join(&mut one, other);
    closes(rt, queue, one, script);
}
