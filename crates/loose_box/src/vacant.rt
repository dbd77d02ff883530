//! A block that has room for a value, which is filled or freed.
ghost use Rattle.std.specs.Prelude.{◌≡◌, MatchResult};

use crate::loose::Loose;
use std::alloc::Allocator;
use std_alloc::room::Vacant as Block;

/// A block that has room for a value, with the allocator that it is freed to. Other crates can't take it apart, and no
/// code can let it go: it is filled or freed.
pub struct Vacant<T, A: Allocator> {
    pub(crate) block: Block<T, A>,
}

impl<T: Drop, A: Allocator> Vacant<T, A> {
    /// A block that has room for a value. If out of memory, the allocator is returned.
    pub fn take(alloc: A) -> Result<Vacant<T, A>, A>
        ensures { MatchResult result (λ v. v.block.alloc ≡ alloc) (λ h. h ≡ alloc) }
    {
        match Block::take(alloc) {
            Ok(block) => Ok(Vacant { block }),
            Err(alloc) => Err(alloc),
        }
    }

    /// Frees the block.
    pub fn free(self) -> A
        ensures { result ≡ self.block.alloc }
    {
        let Vacant { block } = self;
        block.free()
    }
}

impl<T: Drop, A: Allocator> Loose<T, A> {
    /// Moves the value out. The block stays, and has room for another.
    pub fn take_out(self) -> (T, Vacant<T, A>)
        ensures { result.0 ≡ self.value }
    {
        let (value, block) = self.read_out();
        (value, Vacant { block })
    }

    /// Moves a value into a block that has room for it.
    pub fn fill(room: Vacant<T, A>, value: T) -> Loose<T, A>
        ensures { result.value ≡ value }
    {
        let Vacant { block } = room;
        Loose::write_in(block, value)
    }
}
