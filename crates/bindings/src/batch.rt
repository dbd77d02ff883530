//! The batch queue for C: each call is one of the library's, on the end that a handle holds.
ghost use Rattle.std.specs.Prelude.{◌≡◌, ◌≤◌, ◌<◌, length};
ghost use Rattle.bindings.specs.Handles.{Done, EmptyHandle, held_by, batch_of, AsItWas, NoneIn, HoldsThen, TurnsThen};
ghost use Rattle.bindings.specs.Handles.{Answered, MadeHandle, FreedHandle, SplitHandle, JoinedHandle, MarksTell};
ghost use Rattle.bindings.specs.Handles.{Batch};
ghost use Rattle.bindings.specs.BatchHeld.{IsCapacity, IsNewBatch, SplitBy, Joined, AreOfOneQueue, places_of, Put};
ghost use Rattle.bindings.specs.BatchHeld.{PutSome, Took, TookUpTo, Counted, WasShut, found_by, WasLookedAt};
ghost use Rattle.bindings.specs.BatchCalls.{ReportsPut, ReportsPutSome, ReportsTake, code_of_put, positions_of_put};
ghost use Rattle.bindings.specs.BatchCalls.{IsClosedCode, WasClosed};
ghost use Rattle.bindings.specs.Shares.{HasTwo, HasNoTwo, IsOneMark};

mod closing;
pub mod held;

use crate::answer::{
    BAD_NUMBER, BROKEN, CLOSED, DONE, EMPTY, EMPTY_HANDLE, FULL, FULL_HANDLE, LOST, NO_ITEMS, OPEN,
    SHORT_BUFFER, SPENT, TOO_LONG,
};
use crate::ends::{fill, free, join, split};
use crate::handle::Handle;
use crate::kind::Kind;
use crate::payload::Payload;
use batch_queue::{PutRefusal, QueueLook, TakeRefusal};
use closing::SynthBatchClosed;
use held::HeldBatch;
use loose_box::Loose;
use std::alloc::Global;

/// The positions that a call reports. If it reports only one of them, the other is 0.
#[repr(C)]
#[derive(Drop)]
pub struct SynthPositions {
    pub head: u64,
    pub tail: u64,
}

// The code of the refusal. The positions in the refusal are written, if it has any.
fn tell_refused_put(refusal: PutRefusal, positions: &mut SynthPositions) -> i32
    ensures { (result ≡ code_of_put refusal) × (positions.new ≡ positions_of_put refusal positions.old) }
{
    match refusal {
        PutRefusal::NoItems => NO_ITEMS,
        PutRefusal::TooLong => TOO_LONG,
        PutRefusal::Closed => CLOSED,
        PutRefusal::Spent => SPENT,
        PutRefusal::Full { head, free } => {
            *positions = SynthPositions { head, tail: free };
            FULL
        }
        PutRefusal::Lost { head } => {
            *positions = SynthPositions { head, tail: 0 };
            LOST
        }
    }
}

// The code of the answer. The position of the first item is written, or the positions in the refusal.
fn tell_put(answer: Result<u64, PutRefusal>, positions: &mut SynthPositions) -> i32
    ensures { ReportsPut answer positions.old positions.new result }
{
    match answer {
        Ok(head) => {
            *positions = SynthPositions { head, tail: 0 };
            DONE
        }
        Err(refusal) => tell_refused_put(refusal, positions),
    }
}

// The code of the answer. The first item's position and the number of items are written, or the refusal's positions.
fn tell_put_some(
    answer: Result<(u64, usize), PutRefusal>,
    count: &mut usize,
    positions: &mut SynthPositions,
) -> i32
    ensures { ReportsPutSome answer count.old count.new positions.old positions.new result }
{
    match answer {
        Ok((head, put)) => {
            *count = put;
            *positions = SynthPositions { head, tail: 0 };
            DONE
        }
        Err(refusal) => tell_refused_put(refusal, positions),
    }
}

// The code of the answer. The number of the items is written, or the numbers in the refusal.
fn tell_take(
    answer: Result<usize, TakeRefusal>,
    count: &mut usize,
    positions: &mut SynthPositions,
) -> i32
    ensures { ReportsTake answer count.old count.new positions.old positions.new result }
{
    match answer {
        Ok(taken) => {
            *count = taken;
            DONE
        }
        Err(TakeRefusal::Closed) => CLOSED,
        Err(TakeRefusal::Lost { tail }) => {
            *positions = SynthPositions { head: 0, tail };
            LOST
        }
        Err(TakeRefusal::Empty { at }) => {
            *positions = SynthPositions { head: 0, tail: at };
            EMPTY
        }
        Err(TakeRefusal::ShortBuffer { at, count: long }) => {
            *count = long as usize;
            *positions = SynthPositions { head: 0, tail: at };
            SHORT_BUFFER
        }
    }
}

/// The result of a look at a batch queue: the tail, the position up to which all is published from the tail on, the
/// head, and whether the queue is shut.
#[repr(C)]
#[derive(Drop)]
pub struct SynthBatchLook {
    pub tail: u64,
    pub published: u64,
    pub head: u64,
    pub shut: bool,
}

// The code of a closed queue.
fn code_of_closed(closed: &SynthBatchClosed) -> i32
    ensures { IsClosedCode closed.now result }
{
    if closed.broken == 0 { DONE } else { BROKEN }
}

// The result of the look, as C has it.
fn report(found: QueueLook) -> SynthBatchLook
    ensures { found ≡ found_by result }
{
    SynthBatchLook {
        tail: found.tail,
        published: found.published,
        head: found.head,
        shut: found.shut,
    }
}

/// An empty queue of so many places, a power of two, 2^24 at most. Each queue has a mark of its own.
#[unsafe(no_mangle)]
pub extern "C" fn synth_raw_batch_new_marked(
    alloc: Global,
    places: usize,
    mark: u64,
    batch: &mut Handle,
) -> i32
    ensures { MadeHandle Batch (IsCapacity places) (IsNewBatch places mark) batch.old batch.new result }
{
    if batch.is_full() {
        return FULL_HANDLE;
    }
    if !HeldBatch::is_capacity(places) {
        return BAD_NUMBER;
    }
    let made = HeldBatch::new(alloc, places, mark);
    fill(alloc, made, batch)
}

/// Frees the handle, whose end is then never joined.
#[unsafe(no_mangle)]
pub extern "C" fn synth_raw_batch_free(alloc: Global, batch: &mut Handle) -> i32
    ensures { FreedHandle batch_of batch.old batch.new result }
{
    free::<HeldBatch>(alloc, batch)
}

/// A second end of the queue, for another thread.
#[unsafe(no_mangle)]
pub extern "C" fn synth_raw_batch_split(
    alloc: Global,
    batch: &mut Handle,
    other: &mut Handle,
) -> i32
    ensures { SplitHandle batch_of (λ x. HasTwo x.share) (λ x. HasNoTwo x.share) SplitBy
        batch.old batch.new other.old other.new result }
{
    split::<HeldBatch>(alloc, batch, (), other)
}

/// Joins two ends: the first then has all that both had, and the second handle is empty.
#[unsafe(no_mangle)]
pub extern "C" fn synth_raw_batch_join(alloc: Global, batch: &mut Handle, other: &mut Handle) -> i32
    requires { MarksTell (λ x z. IsOneMark x.share z.share) AreOfOneQueue (batch_of batch.old) (batch_of other.old) }
    ensures { JoinedHandle batch_of (λ x. x.share) (λ x z. IsOneMark x.share z.share) Joined
        batch.old batch.new other.old other.new result }
{
    join::<HeldBatch>(alloc, batch, other)
}

/// `BatchQueue::try_put`.
#[unsafe(no_mangle)]
pub extern "C" fn synth_raw_batch_try_put(
    batch: &mut Handle,
    items: &[u64],
    positions: &mut SynthPositions,
) -> i32
    ensures empty { NoneIn batch_of batch.old batch.new ((result ≡ EmptyHandle) × (positions.new ≡ positions.old)) }
    ensures put { HoldsThen (batch_of batch.old) (λ x. Answered (Put items.now)
        (λ answer. ReportsPut answer positions.old positions.new result) x (batch_of batch.new)) }
{
    let Some(held) = batch.find::<HeldBatch>() else {
        return EMPTY_HANDLE;
    };
    let answer = held.try_put(items);
    tell_put(answer, positions)
}

/// `BatchQueue::try_put_some`.
#[unsafe(no_mangle)]
pub extern "C" fn synth_raw_batch_try_put_some(
    batch: &mut Handle,
    items: &[u64],
    count: &mut usize,
    positions: &mut SynthPositions,
) -> i32
    ensures empty { NoneIn batch_of batch.old batch.new
        ((result ≡ EmptyHandle) × (count.new ≡ count.old) × (positions.new ≡ positions.old)) }
    ensures put { HoldsThen (batch_of batch.old) (λ x. Answered (PutSome items.now)
        (λ answer. ReportsPutSome answer count.old count.new positions.old positions.new result) x (batch_of batch.new)) }
{
    let Some(held) = batch.find::<HeldBatch>() else {
        return EMPTY_HANDLE;
    };
    let answer = held.try_put_some(items);
    tell_put_some(answer, count, positions)
}

/// `BatchQueue::try_take`.
#[unsafe(no_mangle)]
pub extern "C" fn synth_raw_batch_try_take(
    batch: &mut Handle,
    items: &mut [u64],
    count: &mut usize,
    positions: &mut SynthPositions,
) -> i32
    ensures empty { NoneIn batch_of batch.old batch.new ((result ≡ EmptyHandle) × (items.new ≡ items.old)
        × (count.new ≡ count.old) × (positions.new ≡ positions.old)) }
    ensures taken { HoldsThen (batch_of batch.old) (λ x. Answered (Took items.old items.new)
        (λ answer. ReportsTake answer count.old count.new positions.old positions.new result) x (batch_of batch.new)) }
{
    let Some(held) = batch.find::<HeldBatch>() else {
        return EMPTY_HANDLE;
    };
    let answer = held.try_take(items);
    tell_take(answer, count, positions)
}

/// `BatchQueue::try_take_some`.
#[unsafe(no_mangle)]
pub extern "C" fn synth_raw_batch_try_take_some(
    batch: &mut Handle,
    items: &mut [u64],
    count: &mut usize,
    positions: &mut SynthPositions,
) -> i32
    ensures empty { NoneIn batch_of batch.old batch.new ((result ≡ EmptyHandle) × (items.new ≡ items.old)
        × (count.new ≡ count.old) × (positions.new ≡ positions.old)) }
    ensures taken { HoldsThen (batch_of batch.old) (λ x. Answered (TookUpTo items.old items.new)
        (λ answer. ReportsTake answer count.old count.new positions.old positions.new result) x (batch_of batch.new)) }
{
    let Some(held) = batch.find::<HeldBatch>() else {
        return EMPTY_HANDLE;
    };
    let answer = held.try_take_some(items);
    tell_take(answer, count, positions)
}

/// `BatchQueue::len`.
#[unsafe(no_mangle)]
pub extern "C" fn synth_raw_batch_len(batch: &mut Handle, count: &mut u64) -> i32
    ensures empty { NoneIn batch_of batch.old batch.new ((result ≡ EmptyHandle) × (count.new ≡ count.old)) }
    ensures counted { TurnsThen batch_of batch.old batch.new (λ x y. Counted count.new x y × (result ≡ Done)) }
{
    let Some(held) = batch.find::<HeldBatch>() else {
        return EMPTY_HANDLE;
    };
    *count = held.len();
    DONE
}

/// How many places the queue has.
#[unsafe(no_mangle)]
pub extern "C" fn synth_raw_batch_capacity(batch: &mut Handle, places: &mut usize) -> i32
    ensures empty { NoneIn batch_of batch.old batch.new ((result ≡ EmptyHandle) × (places.new ≡ places.old)) }
    ensures effect { HoldsThen (batch_of batch.old)
        (λ x. AsItWas batch.old batch.new × (places.new ≡ places_of x) × (result ≡ Done)) }
{
    let Some(held) = batch.find::<HeldBatch>() else {
        return EMPTY_HANDLE;
    };
    *places = held.places();
    DONE
}

/// `BatchQueue::shut`.
#[unsafe(no_mangle)]
pub extern "C" fn synth_raw_batch_shut(batch: &mut Handle, was_open: &mut bool) -> i32
    ensures empty { NoneIn batch_of batch.old batch.new ((result ≡ EmptyHandle) × (was_open.new ≡ was_open.old)) }
    ensures shut { TurnsThen batch_of batch.old batch.new (λ x y. WasShut was_open.new x y × (result ≡ Done)) }
{
    let Some(held) = batch.find::<HeldBatch>() else {
        return EMPTY_HANDLE;
    };
    *was_open = held.shut();
    DONE
}

/// `BatchQueue::look`.
#[unsafe(no_mangle)]
pub extern "C" fn synth_raw_batch_look(batch: &mut Handle, look: &mut SynthBatchLook) -> i32
    ensures empty { NoneIn batch_of batch.old batch.new ((result ≡ EmptyHandle) × (look.new ≡ look.old)) }
    ensures looked { TurnsThen batch_of batch.old batch.new
        (λ x y. WasLookedAt (found_by look.new) x y × (result ≡ Done)) }
{
    let Some(held) = batch.find::<HeldBatch>() else {
        return EMPTY_HANDLE;
    };
    *look = report(held.look());
    DONE
}

/// `BatchQueue::close`, if the end has all parts of the queue. Else the handle keeps its end. The items left are in
/// the buffer, which must have room for at least as many items as the queue has places.
#[unsafe(no_mangle)]
pub extern "C" fn synth_raw_batch_close(
    alloc: Global,
    batch: &mut Handle,
    left: &mut [u64],
    closed: &mut SynthBatchClosed,
) -> i32
    ensures empty { NoneIn batch_of batch.old batch.new
        ((result ≡ EmptyHandle) × (left.new ≡ left.old) × (closed.new ≡ closed.old)) }
    ensures closed { HoldsThen (batch_of batch.old)
        (λ x. WasClosed x left.old left.new (held_by batch.new) closed.old closed.new result) }
{
    let Some(held) = batch.find::<HeldBatch>() else {
        return EMPTY_HANDLE;
    };
    if left.len() < held.places() {
        return SHORT_BUFFER;
    }
    let (payload, room) = Loose::of(batch.take(alloc)).take_out();
    match HeldBatch::unwrap(payload).close(left) {
        Ok(reported) => {
            let _alloc = room.free();
            let code = code_of_closed(&reported);
            *closed = reported;
            code
        }
        Err(held) => {
            batch.put(Loose::fill(room, Payload::Batch(held)).into_box());
            OPEN
        }
    }
}
