//! A list whose memory is allocated when it is made, and never grows.
//!
//! Items are stored in memory that the list has. No function here takes memory except the one that makes the list. None
//! returns the allocator, the list inside or a way to make it longer.

ghost use Rattle.std.specs.Prelude.{◌≡◌, ◌<◌, ◌++◌, ◌∷◌, [], length, vec_capacity, IfOk};

use event_theory::OutOfMemory;
use std::alloc::Global;

// A list with room for a fixed number of items.
#[derive(Drop)]
pub(crate) struct FixedList<T> {
    list: Vec<T>,
}

impl<T> FixedList<T> {
    // No items, and room for none. Takes no memory.
    pub(crate) fn new(alloc: Global) -> Self
        ensures items { result.list.items ≡ [] }
        ensures room { vec_capacity result.list ≡ 0 }
    {
        FixedList {
            list: Vec::new(alloc),
        }
    }

    // No items, and room for `room` items. `OutOfMemory` is returned only if the allocation was refused.
    pub(crate) fn with_room(alloc: Global, room: usize) -> Result<Self, OutOfMemory>
        ensures items { IfOk result (λ l. l.list.items ≡ []) }
        ensures room { IfOk result (λ l. vec_capacity l.list ≡ room) }
    {
        let list = Vec::with_capacity(alloc, room)?;
        Ok(FixedList { list })
    }

    // How many items there are.
    pub(crate) fn len(&self) -> usize
        ensures { result ≡ length self.now.list.items }
    {
        self.list.len()
    }

    // The items.
    pub(crate) fn as_slice(&self) -> &[T]
        ensures value { result.now ≡ self.now.list.items }
        ensures len { length result.now ≡ length self.now.list.items }
    {
        self.list.as_slice()
    }

    // Appends an item, for which there is room.
    pub(crate) fn push(&mut self, item: T)
        requires { length self.old.list.items < vec_capacity self.old.list }
        ensures items { self.new.list.items ≡ self.old.list.items ++ item ∷ [] }
        ensures room { vec_capacity self.new.list ≡ vec_capacity self.old.list }
    {
        self.list.push_reserved(item);
    }
}
