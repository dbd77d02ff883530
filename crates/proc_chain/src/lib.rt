//! Procedure chaining: work that arises while a quaject runs is chained as a note. The end that runs the quaject runs
//! the note after its present work. So the runs are serialised without a lock (Massalin and Pu 1991).
//!
//! Here the quaject is an `Adder`: for each note it adds to its sum the note and the number that is its chain's world.
//!
//! ```rust
//! let Ok((chain, mut first)) = ProcChain::new(rt.alloc(), 0, Adder { sum: 0 }, &1) else {
//!     panic!(rt; "no memory")
//! };
//! let mut second = chain.split(&mut first);
//! let turn = match chain.try_chain(&mut first, 10) {
//!     Ok(Chained::Run(turn)) => turn,
//!     Ok(Chained::Left) | Err(_) => panic!(rt; "the gate of a new chain is open"),
//! };
//! assert!(rt; first.has_turn());
//! match chain.try_chain(&mut second, 20) {
//!     Ok(Chained::Left) => {}
//!     Ok(Chained::Run(_turn)) => panic!(rt; "the first end has the Turn"),
//!     Err(_) => panic!(rt; "there is room"),
//! }
//! let ran = match chain.serve(&mut first, &1, turn, 8) {
//!     Served::Done { ran } => ran,
//!     Served::More {
//!         turn: _turn,
//!         ran: _,
//!     } => panic!(rt; "there are two notes"),
//! };
//! assert!(rt; ran == 2);
//! chain.join(&mut first, second);
//! let Ok(closed) = chain.close(first) else {
//!     panic!(rt; "open ends")
//! };
//! assert!(rt; (closed.put, closed.taken, closed.quaject.sum) == (2, 2, 32));
//! ```
//!
//! A quaject is a value with one call, `run`, which gets a note of 16 bits and the chain's world. A chain has a queue
//! of 32 notes, and a gate, which is one word with three states:
//!
//! - Idle: no end runs notes, and the quaject is in the chain.
//! - Running: one end has the Turn and the quaject, and has seen all notifies.
//! - More: one end has the Turn, and a notify came since its last round.
//!
//! `try_chain` claims a place, raises its note there and swaps the gate to More. The end whose swap found Idle has the
//! Turn, and must serve it; every other end goes on at once. `serve` swaps the gate to Running and runs the notes that
//! are raised, in their order. If none is left, a compare-and-swap sets the gate from Running to Idle. It fails if the
//! gate is More again, and then `serve` looks once more. So no note is left without an end that will run it, and no two
//! ends run notes at once.
#![tactic(auto)]

mod between;
mod chaining;
mod close;
mod counting;
mod ends;
mod held;
pub mod laws;
mod layout;
mod passing;
mod plays;
mod quaject;
mod rule;
mod running;
mod serve;
mod shares;
mod steps;
mod word;

pub use between::{between_steps, ends_between_steps};
pub use chaining::{ChainRefusal, Chained};
pub use close::ChainClosed;
pub use ends::{ChainEnd, ProcChain};
pub use held::ServedKept;
pub use quaject::{Quaject, Ran};
pub use rule::{ChainOps, ChainRule, GatedQueue, Pact, Shape, View};
pub use running::Turn;
pub use serve::Served;
pub use table_theory::OpenEnds;
