//! The theory of the tables that processors share, over plain lists: queues by their positions, what each end of an
//! object lists of them, and the ends themselves.
//!
//! A table is words that change in single atomic steps. The knowledge of its ends is in views, which exist only in
//! proofs. Each end lists the runs that it claimed, what it took, and every step that it made with what it found there.
//! Byte queues, chains and element queues are queues by their positions; each of the tables has ends that are made,
//! split, joined and counted.
#![tactic(auto)]

pub mod end_steps;
pub mod last_end;
pub mod laws;
pub mod positions;
pub mod protocol;
pub mod queues;
pub mod shares;
pub mod views;

pub use views::OpenEnds;
