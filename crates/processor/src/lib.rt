//! A processor: the ends of the kernel's objects that one processor has, and its turns.
//!
//! In a turn a processor takes a thread element from the ready ring, delivers its signals, and tries the next step of
//! its program once. Then it counts the step if it is done, and moves the element on. All that a processor does is in
//! the lists of its ends, and in what it heard and was signalled.
#![tactic(auto)]

mod laws;
mod lines;
mod outcome;
mod phases;
mod pipes;
mod programs;
mod queue_steps;
mod running;
mod sending;
mod shared;
mod station;
mod step_outcome;
mod steps;
mod ticket;
mod turn;
mod turn_gate;
mod waking;
mod watch;

pub use laws::{accounts_add, hears_are_few, steps_fit, turns_add_up};
pub use outcome::{TurnOutcome, TurnResult};
pub use phases::{HearAnswer, Moved, Rescheduled, SayAnswer, StepCounted, Ticket, Unheard, Unsaid};
pub use programs::{hears_of, longest_line};
pub use shared::Shared;
pub use station::{Parts, Station};
pub use step_outcome::StepOutcome;
pub use turn::run;
pub use turn_gate::{Plain, TurnGate};
pub use turn_io::{Gate, Point};
pub use watch::Watch;
