//! The box that is taken apart.
ghost use Rattle.std.specs.Prelude.{◌≡◌};
ghost use Rattle.std.specs.Box.Ownership.{box_owns};

use std::alloc::Allocator;
use std::marker::Model;
use std_alloc::room::Vacant;

/// A box as its pointer and its allocator. It owns what the box owned: the value, and the right to free the block.
pub struct Loose<T, A: Allocator> {
    pub at: *mut T,
    pub alloc: A,
    pub ghost value: { T },
}

impl<T, A: Allocator> Model for Loose<T, A> {
    ghost also_owns = { λ l. box_owns (A.dealloc_token l.alloc) T.row l.at l.value };
}

impl<T: Drop, A: Allocator> Loose<T, A> {
    /// Takes the box apart.
    pub fn of(value: Box<T, A>) -> Loose<T, A>
        ensures { result.value ≡ value.value }
    {
        let (at, alloc) = Box::into_raw_with_allocator(value);
        Loose { at, alloc }
    }

    /// Makes the box again.
    pub fn into_box(self) -> Box<T, A>
        ensures { result.value ≡ self.value }
    {
        let Loose { at, alloc } = self;
        unsafe { Box::from_raw(alloc, at) }
    }

    // Moves the value out. The block stays, and has room for another.
    pub(crate) fn read_out(self) -> (T, Vacant<T, A>)
        ensures { result.0 ≡ self.value }
    {
        let Loose { at, alloc } = self;
        let value = unsafe { at.read() };
        (value, Vacant { ptr: at, alloc })
    }

    // Moves a value into a block that has room for it.
    pub(crate) fn write_in(room: Vacant<T, A>, value: T) -> Loose<T, A>
        ensures { result.value ≡ value }
    {
        let Vacant { ptr, alloc } = room;
        unsafe {
            ptr.write(value);
        }
        Loose { at: ptr, alloc }
    }
}
