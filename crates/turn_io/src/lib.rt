//! The effect of one step of a thread at the ends of queues and chains: it says a line, hears one, shuts a queue or
//! pokes a quaject. A processor has one end of each queue and of each chain, in a list beside that of the queues or
//! chains.
#![tactic(auto)]

mod end_gates;
mod gate;
mod hearing;
mod items;
mod laws;
mod poking;
mod queue_ends;
mod saying;

pub use end_gates::{ChainGate, QueueGate};
pub use gate::{Gate, NoGate, Point};
pub use hearing::hear;
pub use items::item_at;
pub use laws::accounts_add;
pub use poking::{Poked, poke};
pub use queue_ends::{LineRoom, QueueEnds};
pub use saying::say;
