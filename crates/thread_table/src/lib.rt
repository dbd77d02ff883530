//! Thread elements: the ready ring, the free elements and sixteen wait queues, processors, stop cells and signals
//! (Massalin and Pu 1991; Massalin 1992).
//!
//! ```rust
//! let (table, mut waiter) = ThreadTable::new(rt.alloc())?;
//! let mut waker = table.split(&mut waiter, 0);
//! let (Ok(element), Some(pipe)) = (table.try_free(&mut waiter), WaitNumber::new(3)) else {
//!     panic!(rt; "an element of a new table is free")
//! };
//! let ticket = table.ticket(&mut waiter, pipe);
//! assert!(rt; table.wake_all(&rt, &mut waker, pipe) == 0);
//! assert!(rt; waiter.holds(element));
//! let moved = Err(MoveRefusal::Moved { mark: 1 });
//! assert!(rt; table.try_wait_at(&mut waiter, element, pipe, ticket) == moved);
//! let ticket = table.ticket(&mut waiter, pipe);
//! assert!(rt; waiter.holds(element));
//! assert!(rt; table.try_wait_at(&mut waiter, element, pipe, ticket) == Ok(()));
//! assert!(rt; table.wake_all(&rt, &mut waker, pipe) == 1 << element.number());
//! assert!(rt; waker.holds(element));
//! assert!(rt; table.try_ready(&mut waker, element) == Ok(()));
//! assert!(rt; table.try_next(&mut waiter) == Ok(element));
//! table.join(&mut waiter, waker);
//! let Ok(closed) = table.close(waiter) else {
//!     panic!(rt; "open hands")
//! };
//! assert!(rt; (closed.places[0], closed.places[1]) == (Place::Held, Place::Free));
//! ```
//!
//! A thread element describes a thread. Each of 64 elements is in exactly one place between any two atomic steps: on a
//! processor, in an element queue, in its stop cell, or held by a hand. Each thread of the program has a hand, and
//! moves the elements that it holds. All calls except `wake_all` make a bounded number of steps; `notify` and
//! `try_wake_before` do the work of `wake_all` without a wait.
//!
//! **Tickets.** A thread that checks a condition and then waits can miss a wake in between. So a wait queue's head word
//! has a number of notifies beside the head. A waiter first reads this number, its ticket, then checks the condition,
//! and then waits with the ticket. The compare-and-swap that claims its place finds the ticket in the word, or the wait
//! is refused with Moved. `wake_all` makes a notify, which adds one to the number, and then takes each element whose
//! place was claimed before the notify. So a waiter is either ahead of the notify and is woken, or has to check again.
//! This is the event count of Reed and Kanodia (1979).
//!
//! `Claimed`, `Counted`, `HandState`, `MadeEvent`, `Shape`, `ThreadRule` and `View` are for proofs alone: only the
//! table itself makes values of them.
#![tactic(auto)]

mod between;
mod close;
mod counting;
mod first_words;
mod hand;
mod laws;
pub mod layout;
mod moves;
mod places;
mod plays;
mod processors;
mod programs;
mod rule;
mod sets;
mod shares;
mod states;
mod steps;
mod takings;
mod wakes;
mod words;

pub use between::between_steps;
pub use close::Places;
pub use hand::{Hand, ThreadTable};
pub use laws::{
    answers_keep, changes_are_events, freed_stay_free, hands_stand, joins_are_true, lists_are_true,
    numbers_say, only_hands_are_never_lost, refusals_stay, takings_say,
};
pub use moves::MoveRefusal;
pub use places::Place;
pub use processors::{ProcessorBusy, ProcessorEmpty};
pub use programs::Spent;
pub use rule::{Claimed, Counted, HandState, MadeEvent, Shape, ThreadRule, View};
pub use states::{Lost, Signalled, Started};
pub use table_theory::OpenEnds;
pub use takings::NextRefusal;
