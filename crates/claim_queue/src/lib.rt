//! A queue of `N` places with many producers and many consumers. An end claims a run of places by one compare-and-swap
//! of the head, and takes items by one compare-and-swap of the tail (Massalin and Pu 1991, the queues with many
//! producers and many consumers).
//!
//! ```rust
//! let (queue, mut taker) = ClaimQueue::<4>::new(rt.alloc(), 0)?;
//! let mut putter = queue.split(&mut taker);
//! assert!(rt; queue.try_put(&mut putter, &[104, 105, 10]) == Ok(0));
//! let full = ClaimRefusal::Full { head: 3, tail: 0 };
//! assert!(rt; queue.try_put(&mut putter, &[33, 10]) == Err(full));
//! let mut line = ArrayVec::new();
//! assert!(rt; queue.try_take_line(&mut taker, &mut line) == Ok(3));
//! assert!(rt; line.as_slice() == [104, 105, 10].as_slice());
//! assert!(rt; queue.shut(&mut putter));
//! assert!(rt; queue.try_put(&mut putter, &[33]) == Err(ClaimRefusal::Closed));
//! assert!(rt; queue.try_take(&mut taker) == Err(TakeRefusal::Closed));
//! queue.join(&mut taker, putter);
//! let Ok(closed) = queue.close(taker) else {
//!     panic!(rt; "open ends")
//! };
//! assert!(rt; (closed.put, closed.taken) == (3, 3));
//! ```
//!
//! Producers claim at the *head* and takers take at the *tail* (Massalin). In `crossbeam` and in `VecDeque` the names
//! are the other way round: items leave at the head.
//!
//! `N` is 1 to 256. An item is a `u64`. Items are numbered by positions, from the first position of the queue on, and
//! each position is used once: a queue takes 4,294,967,295 items less its first position, and is then Spent. The
//! numbers in an answer are positions.
//!
//! Every end may put and take. No call except `put` waits, and no call except `new` allocates memory. `put` retries if
//! another end claimed first, and returns every other refusal. A claim that is dropped before all of it is raised
//! leaves its places unraised: nobody takes past them, and with N places claimed from the tail on, every claim is Full.
//! An end that is dropped is never joined, so the queue can't be closed any more; everything else still works.
//!
//! `look` is for monitoring: it returns how many items are in the queue, and whether a put that has not ended holds up
//! the takers.
//!
//! `ClaimRule`, `Shape`, `QueueOps` and `View` are for the proofs alone: the contracts about the lists of the ends use
//! them.
#![tactic(auto)]

mod between;
mod claim;
mod close;
mod counting;
mod ends;
pub mod laws;
mod layout;
mod look;
mod pause;
mod plays;
mod rule;
mod shares;
mod steps;
mod take;

pub use between::{between_steps, ends_between_steps, protocol_between_steps};
pub use claim::{Claim, ClaimRefusal};
pub use close::Closed;
pub use ends::{ClaimQueue, QueueEnd};
pub use look::QueueLook;
pub use pause::{NoPause, Pause, WatchedPause};
pub use rule::{ClaimRule, QueueOps, Shape, View};
pub use table_theory::OpenEnds;
pub use take::TakeRefusal;
