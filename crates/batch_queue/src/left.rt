//! The items that were left in a closed queue.
ghost use Rattle.std.specs.Prelude.{◌≡◌, ◌⊎◌, ◌+◌, ◌<◌, ◌≤◌, MatchOption};
ghost use Rattle.std.specs.Mem.Slots.{slots_len, IsFull};
ghost use Rattle.batch_queue.specs.Layout.{IsPowerOfTwo, width};
ghost use Rattle.batch_queue.specs.declared.layout.TheConstants.{MOST_PLACES, POSITIONS};

use crate::layout::{mark_word, place};
use crate::walk::{PUBLISHED, leads_on};
use atomic_table::Closed;
use std::alloc::Global;

/// The items that were left in a closed queue, in the order of their claims. They are in the memory of the queue, which
/// is freed when this is dropped.
pub struct LeftItems {
    closed: Closed<u64, Global>,
    room: usize,
    start: u64,
    count: usize,
    ghost full: { IsFull closed.slots × (slots_len closed.slots ≡ room) },
    ghost marked: { IsFull closed.words × (slots_len closed.words ≡ width room) },
    ghost sized: { (0 < room) × (room ≤ MOST_PLACES) × IsPowerOfTwo room },
    ghost bounded: { start + count < POSITIONS },
}

impl LeftItems {
    ghost use Rattle.std.specs.Prelude.{◌-◌, ℕ, length};
    ghost use Rattle.std.specs.List.{slice_get};
    ghost use Rattle.std.specs.Mem.Slots.{slots_items};
    ghost use Rattle.batch_queue.specs.Lefts.{IsPublishedFrom, items_left, left_from};

    pub(crate) fn new(closed: Closed<u64, Global>, room: usize, start: u64, end: u64) -> LeftItems
        requires full { IsFull closed.slots × (slots_len closed.slots ≡ room) }
        requires marked { IsFull closed.words × (slots_len closed.words ≡ width room) }
        requires sized { (0 < room) × (room ≤ MOST_PLACES) × IsPowerOfTwo room }
        requires bounded { (start ≤ end) × (end < POSITIONS) }
        ensures items { items_left result ≡ left_from room (slots_items closed.slots) start (end - start) }
        ensures made { (result.closed ≡ closed) × (result.room ≡ room) × (result.start ≡ start)
            × (result.count ≡ end - start) }
    {
        let count = (end - start) as usize;
        LeftItems {
            closed,
            room,
            start,
            count,
        }
    }

    fn into_closed(self) -> Closed<u64, Global>
        ensures { IsFull result.slots }
    {
        let LeftItems {
            closed,
            room: _,
            start: _,
            count: _,
        } = self;
        closed
    }

    /// The number of items left.
    pub fn len(&self) -> usize
        ensures { result ≡ length (items_left self.now) }
    {
        self.count
    }

    /// The item with this number among those left, if there is one.
    pub fn get(&self, index: usize) -> Option<u64>
        ensures { result ≡ slice_get (items_left self.now) index }
    {
        if index >= self.count {
            return None;
        }
        let slot = place(self.room, self.start + index as u64);
        Some(*self.closed.slots.get(slot))
    }

    /// If a batch, or the rest of one, that was published begins with the item of this number, returns the number of
    /// the item after it.
    ///
    /// Each put that returns has published its items. So each item is in such a batch, unless a put never returned: a
    /// thread that C or another language ended within a put leaves items that are in none.
    pub fn published_from(&self, index: usize) -> Option<u64>
        ensures { MatchOption result
            ((length (items_left self.now) ≤ index) ⊎ ((e : ℕ) → IsPublishedFrom self.now index e → ⊥))
            (λ e. (index < length (items_left self.now)) × IsPublishedFrom self.now index e) }
    {
        if index >= self.count {
            return None;
        }
        let position = self.start + index as u64;
        let mark = self.closed.word(mark_word(self.room, position));
        if !leads_on(PUBLISHED, position, mark) {
            return None;
        }
        Some(mark / 2 - self.start)
    }
}

impl Drop for LeftItems {
    fn drop(self) {
        let mut closed = self.into_closed();
        let count = closed.slot_count();
        for slot in 0..count {
            let _ = closed.take(slot);
        }
        closed.free();
    }
}
