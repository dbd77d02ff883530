//! The claim queue for C: each call is one of the library's, on the end that a handle holds.
ghost use Rattle.std.specs.Prelude.{◌≡◌, ◌<◌, ◌≤◌, length};
ghost use Rattle.bindings.specs.Handles.{Done, EmptyHandle, held_by, queue_of, NoneIn, LeadsTo, HoldsThen, TurnsThen};
ghost use Rattle.bindings.specs.Handles.{MadeHandle, FreedHandle, SplitHandle, JoinedHandle, MarksTell, Queue};
ghost use Rattle.bindings.specs.Handles.{IsCodeAlone};
ghost use Rattle.bindings.specs.QueueHeld.{AtSize, AtSizes, IsSize, IsNewHeld, share_of, HaveOneMark, AreOfOneQueue};
ghost use Rattle.bindings.specs.QueueCalls.{WasPut, WasTaken, TakesSome, TakesLine, WasClosed};
ghost use Rattle.bindings.specs.QueueParts.{ShutPart, DividedPart, JoinedPart, found_by, LookedAtPart};
ghost use Rattle.bindings.specs.Shares.{HasTwo, HasNoTwo};

mod closing;
pub mod held;
mod part;
mod taking;

use crate::answer::{
    BAD_NUMBER, DONE, EMPTY_HANDLE, FULL_HANDLE, OPEN, SHORT_BUFFER, SynthAnswer, SynthClosed,
    answer_of, answer_of_claim, answer_of_some, answer_of_take,
};
use crate::ends::{fill, free, join, split};
use crate::handle::Handle;
use crate::kind::Kind;
use crate::payload::Payload;
use claim_queue::QueueLook;
use held::{HeldQueue, is_size};
use loose_box::Loose;
use std::alloc::Global;

/// The result of a look at a claim queue: the tail, the head, whether the queue is shut, and how many items are raised
/// from the tail on.
#[repr(C)]
#[derive(Drop)]
pub struct SynthQueueLook {
    pub tail: u32,
    pub head: u32,
    pub raised: u32,
    pub shut: bool,
}

// The result of the look, as C has it.
fn report(found: QueueLook) -> SynthQueueLook
    ensures { found ≡ found_by result }
{
    SynthQueueLook {
        tail: found.tail,
        head: found.head,
        raised: found.raised,
        shut: found.shut,
    }
}

/// An empty queue of 64 or 256 places, whose first position is `first`. Each queue has a mark of its own.
#[unsafe(no_mangle)]
pub extern "C" fn synth_raw_queue_new_marked(
    alloc: Global,
    places: u32,
    first: u32,
    mark: u64,
    queue: &mut Handle,
) -> i32
    ensures { MadeHandle Queue (IsSize places) (IsNewHeld places first mark) queue.old queue.new result }
{
    if queue.is_full() {
        return FULL_HANDLE;
    }
    if !is_size(places) {
        return BAD_NUMBER;
    }
    let made = HeldQueue::new(alloc, places, first, mark);
    fill(alloc, made, queue)
}

/// Frees the handle, whose end is then never joined.
#[unsafe(no_mangle)]
pub extern "C" fn synth_raw_queue_free(alloc: Global, queue: &mut Handle) -> i32
    ensures { FreedHandle queue_of queue.old queue.new result }
{
    free::<HeldQueue>(alloc, queue)
}

/// A second end of the queue, for another thread.
#[unsafe(no_mangle)]
pub extern "C" fn synth_raw_queue_split(
    alloc: Global,
    queue: &mut Handle,
    other: &mut Handle,
) -> i32
    ensures { SplitHandle queue_of (λ x. HasTwo (share_of x)) (λ x. HasNoTwo (share_of x)) (AtSizes DividedPart)
        queue.old queue.new other.old other.new result }
{
    split::<HeldQueue>(alloc, queue, (), other)
}

/// Joins two ends: the first then has all that both had, and the second handle is empty.
#[unsafe(no_mangle)]
pub extern "C" fn synth_raw_queue_join(alloc: Global, queue: &mut Handle, other: &mut Handle) -> i32
    requires { MarksTell HaveOneMark AreOfOneQueue (queue_of queue.old) (queue_of other.old) }
    ensures { JoinedHandle queue_of share_of HaveOneMark (AtSizes JoinedPart)
        queue.old queue.new other.old other.new result }
{
    join::<HeldQueue>(alloc, queue, other)
}

/// `ClaimQueue::try_put`.
#[unsafe(no_mangle)]
pub extern "C" fn synth_raw_queue_try_put(queue: &mut Handle, items: &[u64]) -> SynthAnswer
    ensures empty { NoneIn queue_of queue.old queue.new (IsCodeAlone EmptyHandle result) }
    ensures put { LeadsTo queue_of queue.old queue.new (λ x y. WasPut x items.now y result) }
{
    let Some(held) = queue.find::<HeldQueue>() else {
        return answer_of(EMPTY_HANDLE);
    };
    let answer = held.try_put(items);
    answer_of_claim(answer)
}

/// `ClaimQueue::try_take`.
#[unsafe(no_mangle)]
pub extern "C" fn synth_raw_queue_try_take(queue: &mut Handle, item: &mut u64) -> SynthAnswer
    ensures empty { NoneIn queue_of queue.old queue.new (IsCodeAlone EmptyHandle result × (item.new ≡ item.old)) }
    ensures taken { LeadsTo queue_of queue.old queue.new (λ x y. WasTaken x item.old item.new y result) }
{
    let Some(held) = queue.find::<HeldQueue>() else {
        return answer_of(EMPTY_HANDLE);
    };
    let answer = held.try_take();
    match answer {
        Ok(taken) => {
            *item = taken;
            answer_of(DONE)
        }
        Err(refusal) => answer_of_take(refusal),
    }
}

/// Takes items one by one, until a taking is refused or the buffer is full. Reports a refusal only if none was taken.
#[unsafe(no_mangle)]
pub extern "C" fn synth_raw_queue_take_up_to(
    queue: &mut Handle,
    items: &mut [u64],
    count: &mut usize,
) -> SynthAnswer
    ensures empty { NoneIn queue_of queue.old queue.new
        (IsCodeAlone EmptyHandle result × (items.new ≡ items.old) × (count.new ≡ count.old)) }
    ensures taken { HoldsThen (queue_of queue.old)
        (λ x. TakesSome x items.old items.new count.old count.new (queue_of queue.new) result) }
{
    let Some(held) = queue.find::<HeldQueue>() else {
        return answer_of(EMPTY_HANDLE);
    };
    if items.len() == 0 {
        return answer_of(SHORT_BUFFER);
    }
    let (taken, refusal) = held.take_up_to(items);
    *count = taken;
    answer_of_some(taken, refusal)
}

/// `ClaimQueue::try_take_line`. The buffer has room for as many items as the queue has places, or more.
#[unsafe(no_mangle)]
pub extern "C" fn synth_raw_queue_try_take_line(
    queue: &mut Handle,
    line: &mut [u64],
    count: &mut usize,
) -> SynthAnswer
    ensures empty { NoneIn queue_of queue.old queue.new
        (IsCodeAlone EmptyHandle result × (line.new ≡ line.old) × (count.new ≡ count.old)) }
    ensures taken { HoldsThen (queue_of queue.old)
        (λ x. TakesLine x line.old line.new count.old count.new (queue_of queue.new) result) }
{
    let Some(held) = queue.find::<HeldQueue>() else {
        return answer_of(EMPTY_HANDLE);
    };
    if line.len() < held.places() {
        return answer_of(SHORT_BUFFER);
    }
    let answer = held.try_take_line(line);
    match answer {
        Ok(taken) => {
            *count = taken;
            answer_of(DONE)
        }
        Err(refusal) => answer_of_take(refusal),
    }
}

/// `ClaimQueue::shut`.
#[unsafe(no_mangle)]
pub extern "C" fn synth_raw_queue_shut(queue: &mut Handle, was_open: &mut bool) -> i32
    ensures empty { NoneIn queue_of queue.old queue.new ((result ≡ EmptyHandle) × (was_open.new ≡ was_open.old)) }
    ensures shut { TurnsThen queue_of queue.old queue.new
        (λ x y. AtSize (ShutPart was_open.new) x y × (result ≡ Done)) }
{
    let Some(held) = queue.find::<HeldQueue>() else {
        return EMPTY_HANDLE;
    };
    *was_open = held.shut();
    DONE
}

/// `ClaimQueue::look`.
#[unsafe(no_mangle)]
pub extern "C" fn synth_raw_queue_look(queue: &mut Handle, look: &mut SynthQueueLook) -> i32
    ensures empty { NoneIn queue_of queue.old queue.new ((result ≡ EmptyHandle) × (look.new ≡ look.old)) }
    ensures looked { TurnsThen queue_of queue.old queue.new
        (λ x y. AtSize (LookedAtPart (found_by look.new)) x y × (result ≡ Done)) }
{
    let Some(held) = queue.find::<HeldQueue>() else {
        return EMPTY_HANDLE;
    };
    *look = report(held.look());
    DONE
}

/// `ClaimQueue::close`, if the end has all parts of the queue. Else the handle keeps its end. The items left are in
/// the buffer, which must have room for at least as many items as the queue has places.
#[unsafe(no_mangle)]
pub extern "C" fn synth_raw_queue_close(
    alloc: Global,
    queue: &mut Handle,
    left: &mut [u64],
    closed: &mut SynthClosed,
) -> i32
    ensures empty { NoneIn queue_of queue.old queue.new
        ((result ≡ EmptyHandle) × (left.new ≡ left.old) × (closed.new ≡ closed.old)) }
    ensures closed { HoldsThen (queue_of queue.old)
        (λ x. WasClosed x left.old left.new (held_by queue.new) closed.old closed.new result) }
{
    let Some(held) = queue.find::<HeldQueue>() else {
        return EMPTY_HANDLE;
    };
    if left.len() < held.places() {
        return SHORT_BUFFER;
    }
    let (payload, room) = Loose::of(queue.take(alloc)).take_out();
    match HeldQueue::unwrap(payload).close(left) {
        Ok(reported) => {
            let _alloc = room.free();
            *closed = reported;
            DONE
        }
        Err(held) => {
            queue.put(Loose::fill(room, Payload::Queue(held)).into_box());
            OPEN
        }
    }
}
