//! The kernel's own quajects: the cooked tty, the pump and the switch, with the raw tty that feeds the first (Massalin
//! 1992). Each moves whole lines between claim queues, by one try of each kind for each note.
//!
//! ```rust
//! let (source, mut writer) = ClaimQueue::<64>::new(rt.alloc(), 0)?;
//! let (target, mut reader) = ClaimQueue::<64>::new(rt.alloc(), 0)?;
//! let (taker, putter) = (source.split(&mut writer), target.split(&mut reader));
//! let queues = Queues {
//!     small: vec![in rt.alloc(); source, target]?,
//!     large: Vec::new(rt.alloc()),
//! };
//! let mut pump = Pump::new(0, taker, 1, putter);
//! assert!(rt; queues.small[0].try_put(&mut writer, &[104, 105, 10]) == Ok(0));
//! assert!(rt; matches!(pump.run(&queues, 0), Ran::Worked));
//! let mut line = ArrayVec::new();
//! assert!(rt; queues.small[1].try_take_line(&mut reader, &mut line) == Ok(3));
//! assert!(rt; line.as_slice() == [104, 105, 10].as_slice());
//! assert!(rt; matches!(pump.run(&queues, 0), Ran::Nothing));
//! assert!(rt; (pump.notes(), pump.taken(), pump.put(), pump.held()) == (2, 3, 3, 0));
//! ```
//!
//! A line that finds no room in its target is held, and goes first at a later note. So nothing that was taken is lost.
//! A quaject is run by its chain (`proc_chain`), one note at a time; its queues are the chain's world.
#![tactic(auto)]

mod any;
mod came;
mod cooking;
mod home;
mod piping;
mod ports;
mod raw;
mod raw_watch;
mod settling;
mod switching;
mod terminal;
mod ways;
mod world;

pub use any::{AnyQuaject, Ends, Ports};
pub use came::Came;
pub use cooking::cook;
pub use home::{Home, retire};
pub use piping::Pump;
pub use ports::Port;
pub use raw::RawTty;
pub use raw_watch::RawWatch;
pub use settling::settle;
pub use switching::{GivenWay, Switch};
pub use terminal::CookedTty;
pub use world::{Pipe, Queues};
