//! The report of a boot, made from the closed objects.
//!
//! The lines of a report are allocated before the threads of a boot start (`Lines`). Sorting the lines heard and making
//! the report therefore take no memory.
#![tactic(auto)]

mod amounts;
mod heard;
mod laws;
mod lines;
mod live;
mod making;
mod movers;
mod queues;
mod sorting;
mod threads;
mod ttys;

pub use laws::{alarms_are_all, heard_lines_are_few, threads_fit};
pub use lines::Lines;
pub use live::live_of;
pub use making::{make_report, report_boot};
pub use sorting::sort_heard;
pub use ttys::Typed;
