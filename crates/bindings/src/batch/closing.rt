//! Closing a batch queue.
ghost use Rattle.std.specs.Prelude.{◌≡◌, ◌<◌, ◌≤◌, length, take};
ghost use Rattle.batch_queue.specs.Handles.{IsEndOf, IsOnlyEnd};
ghost use Rattle.batch_queue.specs.Lefts.{items_left};
ghost use Rattle.bindings.specs.BatchHeld.{room_of, ClosedInto, CopiedNext, Ended, PublishedOf, Reaches};
ghost use Rattle.bindings.specs.QueueTaking.{IsKeptFrom};

use super::held::HeldBatch;
use batch_queue::{BatchEnd, BatchQueue, LeftItems};
use std::sync::Arc;

/// The totals of a closed batch queue: how many items were put, were taken and were left, and how many positions were
/// reserved by puts that never ended. The last number is 0 if each put returned.
#[repr(C)]
#[derive(Drop)]
pub struct SynthBatchClosed {
    pub put: u64,
    pub taken: u64,
    pub left: usize,
    pub broken: usize,
}

// How far published batches reach that begin with the items up to this one.
fn reach(left: &LeftItems, index: usize, past: u64) -> u64
    requires { index < length (items_left left.now) }
    ensures { Reaches left.now index past result }
{
    let Some(end) = left.published_from(index) else {
        return past;
    };
    if end <= past {
        return past;
    }
    end
}

// Copies the item of this number to a place of the buffer, if published batches reach past the item. Returns the next
// place to be filled.
fn copy_item(left: &LeftItems, index: usize, past: u64, out: &mut [u64], place: usize) -> usize
    requires { (index < length (items_left left.now)) × (place < length out.old) }
    ensures { CopiedNext left.now index past place out.old out.new result }
{
    if past <= index as u64 {
        return place;
    }
    let Some(item) = left.get(index) else {
        unreachable!()
    };
    out[place] = item;
    place + 1
}

// Copies the items left that were published to the beginning of a buffer. Returns their number.
fn copy_left(left: &LeftItems, out: &mut [u64]) -> usize
    requires { length (items_left left.now) ≤ length out.old }
    ensures number { result ≤ length (items_left left.now) }
    ensures copied { PublishedOf left.now (length (items_left left.now)) (take result out.new) }
    ensures rest { IsKeptFrom result out.old out.new }
{
    let count = left.len();
    let mut copied = 0;
    let mut past = 0;
    for i in 0..count {
        past = reach(left, i, past);
        copied = copy_item(left, i, past, out, copied);
    }
    copied
}

// Closes a queue by its only end.
fn close_queue(queue: BatchQueue, end: BatchEnd, out: &mut [u64]) -> SynthBatchClosed
    requires queue { IsEndOf queue end }
    requires only { IsOnlyEnd end }
    requires buffer { room_of queue ≤ length out.old }
    ensures { ClosedInto out.old out.new result queue end }
{
    let Ok(closed) = queue.close(end) else {
        unreachable!()
    };
    let left = copy_left(&closed.left, out);
    SynthBatchClosed {
        put: closed.put,
        taken: closed.taken,
        left,
        broken: closed.left.len() - left,
    }
}

impl HeldBatch {
    ghost use Rattle.bindings.specs.BatchHeld.{places_of};

    /// `BatchQueue::close`, when the end has all parts. Else the end is returned.
    pub fn close(self, out: &mut [u64]) -> Result<SynthBatchClosed, HeldBatch>
        requires { places_of self ≤ length out.old }
        ensures { Ended out.old out.new result self }
    {
        if self.share.parts != u64::MAX {
            return Err(self);
        }
        let HeldBatch { queue, end, share } = self;
        let queue = match Arc::try_unwrap(queue) {
            Ok(queue) => queue,
            Err(queue) => {
                return Err(HeldBatch { queue, end, share });
            }
        };
        Ok(close_queue(queue, end, out))
    }
}
