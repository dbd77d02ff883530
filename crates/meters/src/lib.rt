//! Gauges, a clock and alarms that several threads share: each call is one atomic step, or a few, and none waits
//! (Massalin 1992, gauges and alarms).
//!
//! ```rust
//! let (meters, mut timer) = Meters::new(rt.alloc(), 0)?;
//! let mut worker = meters.split(&mut timer);
//! assert!(rt; meters.tick(&mut worker, 3, 5) == 0);
//! assert!(rt; meters.tick(&mut worker, 3, 2) == 5);
//! let (Some(element), Some(signal)) = (Element::new(9), Signal::new(4)) else {
//!     panic!(rt; "numbers")
//! };
//! let alarm = Alarm {
//!     due: 1,
//!     element,
//!     signal,
//! };
//! assert!(rt; meters.try_set(&mut worker, alarm) == Ok(0));
//! assert!(rt; meters.due(&mut timer).len() == 0);
//! assert!(rt; meters.advance(&mut timer) == Ok(1));
//! assert!(rt; meters.due(&mut timer).as_slice() == [alarm].as_slice());
//! meters.join(&mut timer, worker);
//! let Ok(metered) = meters.close(timer) else {
//!     panic!(rt; "open ends")
//! };
//! assert!(rt; metered.gauges == [0, 0, 0, 7, 0, 0, 0, 0]);
//! assert!(rt; (metered.clock, metered.alarms.len()) == (1, 0));
//! ```
//!
//! Each thread steps with an end of its own, made by `split`. The contracts speak of what an end knows: what it did,
//! every step that it made with the number that it found there, and every step that any end had made up to its own last
//! one. Once every other end is joined, `close` returns the gauges, the clock and the alarms that are left.
//!
//! There are 8 gauges of 64 bits, which wrap, and 16 slots for alarms. The clock has 32 bits, and is Spent at its last
//! number. An alarm is due once the clock has reached its tick; `due` takes out all alarms that are due, in the order
//! of their slots. The meters of `event_theory` define what each call does.
#![tactic(auto)]

mod alarms;
mod between;
mod close;
mod counting;
mod ends;
mod gauges;
pub mod laws;
mod layout;
mod plays;
mod rule;
mod shares;
mod steps;
mod word;

pub use alarms::SetRefusal;
pub use between::between_steps;
pub use close::Metered;
pub use ends::{MeterSeat, Meters};
pub use event_theory::Alarm;
pub use gauges::AdvanceRefusal;
pub use rule::{MeterOps, MeterRule, Reading, Shape, Tick, View};
pub use table_theory::OpenEnds;
pub use word::AlarmWord;
