//! The kernel: from the bytes of a boot script to the report of its boot.
//!
//! ```rust
//! let script = b"synthesis 1\nqueue out\nthread a\nsay out hi\n".as_slice();
//! let mut report = Vec::new(rt.alloc());
//! let ended = boot(&rt, rt.alloc(), script, &mut report, 1, 100);
//! assert!(rt; ended == Ok(Ended::AllEnded));
//! let printed = b"queue out put 3 taken 0 left 3\nthread a ended 1\nchained 0\n".as_slice();
//! assert!(rt; report.as_slice() == printed);
//! ```
//!
//! A boot makes all objects of the script's plan and takes all the memory that it needs. Then each processor and each
//! device has a thread of its own, while the caller types the bytes of the ttys. When all threads have stopped, their
//! ends are joined, all objects are closed, and the report is made and printed.
#![tactic(auto)]

mod booting;
mod gathering;
mod kernel;
mod laws;
mod outcome;
mod printing;
mod ready;
mod running;
mod shutting;

pub use boot_threads::{Witness, Work, Worked};
pub use kernel::{boot, boot_on, boot_on_with, boot_with};
pub use laws::turns_were_had;
pub use outcome::{BootFault, Ended};
pub use printing::Booted;
pub use processor::{Plain, Shared, TurnGate};
pub use turn_io::{Gate, NoGate, Point};
