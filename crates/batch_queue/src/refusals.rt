//! Why nothing was put, and why nothing was taken. Refusals are checked in the order in which they are listed.
use thiserror::Error;

/// Why nothing was put.
#[derive(Clone, Copy, Debug, PartialEq, Eq, Drop, Error)]
pub enum PutRefusal {
    /// There is no item. No step was made.
    #[error("no items")]
    NoItems,
    /// There are more items than places. No step was made.
    #[error("more items than places")]
    TooLong,
    /// The queue is shut: the head that was loaded, or the head that the compare-and-swap found, has the shut mark.
    #[error("the queue is shut")]
    Closed,
    /// The items would reach the position 2^62, which no claim reaches. At a billion items a second that takes 146
    /// years.
    #[error("no positions left")]
    Spent,
    /// There was no room for so many items: `head` plus their number exceeds `free` plus the number of places. At one
    /// moment of the call the places of all positions before `free` were given back, and the place of `free` was not.
    #[error("full at head {head}, free {free}")]
    Full { head: u64, free: u64 },
    /// Another end was first. Either it claimed, and `head` is the head that the compare-and-swap found, past the one
    /// that was loaded. Or it moved the free position during the call, still not far enough, and `head` is the head
    /// that was loaded.
    #[error("lost, head {head}")]
    Lost { head: u64 },
}

/// Why nothing was taken.
#[derive(Clone, Copy, Debug, PartialEq, Eq, Drop, Error)]
pub enum TakeRefusal {
    /// Nothing was published at the tail, which is this position, and the queue was open or had something left.
    #[error("nothing published at {at}")]
    Empty { at: u64 },
    /// The batch at the tail, which is this position, or what is left of it, has `count` items, more than the buffer.
    #[error("a batch of {count} at {at}")]
    ShortBuffer { at: u64, count: u64 },
    /// Another end took first: `tail` was found, past the tail that was loaded. A taking of some items is also lost if
    /// the mark at which it parts a batch was changed meanwhile; then `tail` is the tail that was found last.
    #[error("lost, tail {tail}")]
    Lost { tail: u64 },
    /// The queue is shut, and all that was put is taken.
    #[error("the queue is shut and empty")]
    Closed,
}
