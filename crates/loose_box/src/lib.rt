//! A box on the heap as a pointer and an allocator, and back. A handle of a static library needs this: a pointer can
//! cross to C, and a box can't.
//!
//! The value of the box can be moved out, and another moved in, without an allocation. `Vacant` is a block for a value.
//! Other crates can't take the block apart or let it go: they fill it or free it.
//!
//! ```rust
//! let Ok(boxed) = Box::new(rt.alloc(), 7u64) else {
//!     panic!(rt; "no memory")
//! };
//! let (seven, room) = Loose::of(boxed).take_out();
//! let eight = Loose::fill(room, seven + 1).into_box();
//! assert!(rt; *eight == 8);
//! ```
#![tactic(auto)]

mod loose;
#[cfg(test)]
mod tests;
mod vacant;

pub use loose::Loose;
pub use vacant::Vacant;
