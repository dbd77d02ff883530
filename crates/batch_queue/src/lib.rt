//! A queue with many producers and many consumers. A batch of items is claimed by one compare-and-swap, published by
//! one store, taken by one compare-and-swap, and given back by one store. The items are in plain memory (Massalin 1992,
//! the buffered queues; the bursts of DPDK's rings).
//!
//! ```rust
//! let Ok((queue, mut sender)) = BatchQueue::new(rt.alloc(), 256) else {
//!     panic!(rt; "no memory")
//! };
//! let mut receiver = queue.split(&mut sender);
//! assert!(rt; queue.try_put(&mut sender, &[10, 20, 30]) == Ok(0));
//! let mut items = [0; 64];
//! assert!(rt; queue.try_take(&mut receiver, &mut items) == Ok(3));
//! assert!(rt; items[..3] == [10, 20, 30]);
//! queue.join(&mut sender, receiver);
//! let Ok(closed) = queue.close(sender) else {
//!     panic!(rt; "open ends")
//! };
//! assert!(rt; (closed.put, closed.taken, closed.left.len()) == (3, 3, 0));
//! ```
//!
//! The number of places is chosen at run time, a power of two up to 2^24. An item is a `u64`. Items are numbered by
//! positions, from the beginning of the queue on, and each position is used once: no claim reaches 2^62. The numbers in
//! an answer are positions.
//!
//! A batch is taken whole, as it was put, unless an end takes by `try_take_some`, which may part a batch: the batch is
//! then taken in pieces, side by side. Between any two steps all of its items are published, or none. If an end stalls
//! between its claim and its publication, takers can't get past its items. If an end stalls between its taking and its
//! giving back, producers can't use these places: once the other places are used up, puts are Full. An end that is
//! dropped is never joined, so the queue can't be closed any more; everything else still works.
//!
//! A queue can be made under a client's protocol (`new_as`): a condition on each end, by the batches that it put and
//! the lines that it took. A put has to meet the condition (`try_put_as`, `try_put_some_as`, `put_as`). A taking says
//! what the protocol allowed each end to put (`try_take_as`, `try_take_some_as`, `take_as`). The plain calls are those
//! of a queue that allows every put.
//!
//! `BatchRule`, `BatchState`, `EndRecord`, `HeldSlots`, `Shape` and `View` are for the proofs alone: the contracts
//! about the lists of the ends use them.
#![tactic(auto)]

mod access;
mod between;
mod close;
mod counting;
mod ends;
mod hints;
pub mod laws;
mod layout;
mod left;
mod look;
mod plays;
mod put;
mod refusals;
mod rule;
mod shares;
mod some;
mod steps;
mod take;
mod walk;

pub use between::{between_steps, ends_between_steps, protocol_between_steps};
pub use close::Closed;
pub use ends::{BatchEnd, BatchQueue};
pub use layout::MOST_PLACES;
pub use left::LeftItems;
pub use look::QueueLook;
pub use refusals::{PutRefusal, TakeRefusal};
pub use rule::{BatchRule, BatchState, EndRecord, HeldSlots, Shape, View};
pub use table_theory::OpenEnds;
