//! The acts of ends at a queue of four places, as tables, and the code that plays them.
ghost use Rattle.claim_queue.specs.Handles.{IsDivisible, IsEndOf};

use crate::fixtures::close_queue;
use arrayvec::ArrayVec;
use claim_queue::*;
use std::alloc::Global;
use std::process::Abort;
use std::sync::Wait;

pub(crate) type Four = ClaimQueue<4>;

/// An act of an end at a queue of four places, and the answer to it.
pub(crate) enum Act {
    Put(&'static [u64], Result<u32, ClaimRefusal>),
    /// It puts the items, and retries when the head is lost.
    PutAgain(&'static [u64], Result<u32, ClaimRefusal>),
    Take(Result<u64, TakeRefusal>),
    /// It takes a line, of these items.
    Line(Result<usize, TakeRefusal>, &'static [u64]),
    /// It shuts the queue, which was open or not.
    Shut(bool),
    /// It looks at the queue: the tail, how many items are raised from there on, the head, and whether it is shut.
    Look(u32, u32, u32, bool),
}

/// The acts of one end alone at a queue, and the queue's state after them: how many items were put and taken, and those
/// left.
pub(crate) struct Script {
    pub(crate) first: u32,
    pub(crate) acts: &'static [Act],
    pub(crate) put: u32,
    pub(crate) taken: u32,
    pub(crate) left: &'static [Option<u64>],
}

pub(crate) fn new_four<R: Abort>(rt: &R, alloc: Global, first: u32) -> (Four, QueueEnd<4>)
    ensures { IsEndOf result.0 result.1 × IsDivisible result.1 }
{
    let Ok(made) = Four::new(alloc, first) else {
        panic!(rt; "no memory")
    };
    made
}

fn takes_line(
    queue: &Four,
    end: &mut QueueEnd<4>,
    answer: Result<usize, TakeRefusal>,
    items: &[u64],
) -> bool
    requires { IsEndOf queue.now end.old }
    ensures { IsEndOf queue.now end.new }
{
    let mut line = ArrayVec::new();
    queue.try_take_line(end, &mut line) == answer && line.as_slice() == items
}

pub(crate) fn does<R: Abort + Wait>(rt: &R, queue: &Four, end: &mut QueueEnd<4>, acts: &[Act])
    requires { IsEndOf queue.now end.old }
    ensures { IsEndOf queue.now end.new }
{
    for (at, act) in acts.iter().enumerate() {
        let as_said = match act {
            Act::Put(items, answer) => queue.try_put(end, items) == *answer,
            Act::PutAgain(items, answer) => queue.put(rt, end, items) == *answer,
            Act::Take(answer) => queue.try_take(end) == *answer,
            Act::Line(answer, items) => takes_line(queue, end, *answer, items),
            Act::Shut(was_open) => queue.shut(end) == *was_open,
            Act::Look(tail, raised, head, shut) => {
                let look = queue.look(end);
                (look.tail, look.raised, look.head, look.shut) == (*tail, *raised, *head, *shut)
            }
        };
        assert!(rt; as_said, "act {at}");
    }
}

/// The queue is closed with its only end: its first position, how many items were put and taken, and those left.
pub(crate) fn closes<R: Abort>(
    rt: &R,
    queue: Four,
    end: QueueEnd<4>,
    numbers: (u32, u32, u32),
    left: &[Option<u64>],
)
    requires { IsEndOf queue end }
{
    let closed = close_queue(rt, queue, end);
    assert!(rt; (closed.first, closed.put, closed.taken) == numbers);
    assert!(rt; closed.left.as_slice() == left);
}

pub(crate) fn plays<R: Abort + Wait>(rt: &R, alloc: Global, script: &Script) {
    let (queue, mut end) = new_four(rt, alloc, script.first);
    does(rt, &queue, &mut end, script.acts);
    closes(
        rt,
        queue,
        end,
        (script.first, script.put, script.taken),
        script.left,
    );
}
