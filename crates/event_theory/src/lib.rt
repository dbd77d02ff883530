//! The kernel's atomic events over plain data: the effect of each on a state, which states are lawful, and the laws of
//! every schedule.
//!
//! Each event is one atomic step of the running kernel, by a call on a queue, a chain, a thread element or a meter. The
//! many-producer queue, its claims and procedure chaining are those of Massalin and Pu (1991); thread elements,
//! signals, gauges and alarms follow Massalin (1992). The crate runs no code except for names and lists: the tables
//! refine these events, and `quaject_core` applies them to what it stores.
#![tactic(auto)]

mod alarm;
mod event;
mod hold;
mod items;
pub mod laws;
mod names;
mod refusal;
mod status;

pub use alarm::Alarm;
pub use event::Event;
pub use hold::Hold;
pub use items::Items;
pub use names::{
    Call, ChainNumber, Element, Gauge, Processor, QueueName, QueueNumber, Signal, Slot, WaitNumber,
};
pub use refusal::{OutOfMemory, Refusal};
pub use status::{AlarmStatus, ChainStatus, ElementStatus, Gate, Place, QueueStatus, Status};
