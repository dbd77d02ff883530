//! The plain machine of the kernel's atomic events.
//!
//! ```rust
//! let mut core = Core::new(rt.alloc())?;
//! let (Some(call), Some(number)) = (Call::new(1), QueueNumber::new(0)) else {
//!     panic!(rt; "numbers")
//! };
//! let queue = QueueName::Bytes(number);
//! let items = Items::new([104, 10].to_vec(rt.alloc())?);
//! let (raise, take) = (
//!     Event::Raise {
//!         call,
//!         queue,
//!         run: 0,
//!         index: 0,
//!     },
//!     Event::Take {
//!         call,
//!         queue,
//!         count: 1,
//!     },
//! );
//! assert!(rt; core.apply(&Event::Queue { capacity: 4 }) == Ok(()));
//! assert!(rt; core.apply(&Event::Claim { call, queue, items }) == Ok(()));
//! assert!(rt; core.apply(&take) == Err(Refusal::NotRaised));
//! assert!(rt; core.apply(&raise) == Ok(()));
//! assert!(rt; core.apply(&take) == Ok(()));
//! let numbers = QueueStatus {
//!     capacity: 4,
//!     runs: 1,
//!     put: 2,
//!     taken: 1,
//!     left: 1,
//!     raised: 0,
//!     shut: false,
//! };
//! assert!(rt; core.status()?.queues.as_slice() == [numbers].as_slice());
//! ```
//!
//! `Core` holds a kernel's queues, chains, thread elements and meters as plain data with no atomics in it. It applies
//! the events of `event_theory` to them, and re-exports the names of that crate. An event that isn't allowed is
//! refused, and changes nothing.
#![tactic(auto)]

mod chaining;
mod elements;
mod holding;
mod machine;
mod metering;
mod placing;
mod queueing;
mod rings;
mod seats;
mod store;
mod threading;

pub use event_theory::{
    Alarm, AlarmStatus, Call, ChainNumber, ChainStatus, Element, ElementStatus, Event, Gate, Gauge,
    Items, OutOfMemory, Place, Processor, QueueName, QueueNumber, QueueStatus, Refusal, Signal,
    Slot, Status, WaitNumber, laws,
};
pub use machine::Core;
