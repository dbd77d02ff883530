//! Scripts as text: the content of their lines, their faults, and the text that is printed after a run.
//!
//! ```rust
//! let list = b"events 1\nqueue 4\nclaim c1 q0 104 10\ntake c2 q0 1\n".as_slice();
//! let mut printed = Vec::new(rt.alloc());
//! let (line, refusal) = (4, Refusal::NotRaised);
//! let answer = replay(rt.alloc(), list, &mut printed);
//! assert!(rt; answer == Ok(Replayed::Refused { line, refusal }));
//! let last_line = b"refused 4 7 NotRaised\n".as_slice();
//! assert!(rt; printed.as_slice().ends_with(last_line));
//! let (line, refusal) = (3, ScriptRefusal::NameUnknown);
//! let answer = parse_boot(rt.alloc(), b"synthesis 1\nthread a\nhear q\n");
//! assert!(rt; answer.err() == Some(ScriptFault { line, refusal }));
//! ```
//!
//! A list of events has one event a line. `parse_events` reads it, and `replay` runs it on a fresh core and prints the
//! core's status. A boot script has one declaration or step a line. `parse_boot` reads it as a plan, and `print_report`
//! prints the report of a boot. Each text has one reading or one first fault. `parse_number` reads a number as both do.
#![tactic(auto)]

mod boot;
mod boot_lines;
mod boot_words;
mod commands;
mod declared_names;
mod draft;
mod event_lines;
mod events;
pub mod exit;
mod fault;
pub mod laws;
mod names;
mod opening;
mod outcome;
mod page;
mod printing;
pub mod reading;
mod report_printing;
mod run;
pub mod spelling_laws;
mod streams;
mod text;
mod unescaping;
mod version;

pub use boot::parse_boot;
pub use boot_data::{
    AlarmCounts, BootPlan, GaugeLine, HeardLines, HeardPlace, HeardReport, ItemCounts, MoverKind,
    MoverLine, Name, QueueKind, QueueLine, Report, Text, ThreadLine, ThreadState, TtyLines, plan,
};
pub use events::parse_events;
pub use fault::{ScriptFault, ScriptRefusal};
pub use outcome::{ReplayFault, Replayed};
pub use printing::{print_refused, print_status};
pub use reading::{ReadFault, read_script};
pub use report_printing::print_report;
pub use run::{replay, replay_on};
pub use streams::{Handover, Sink, Source};
pub use text::number as parse_number;
pub use version::Version;
