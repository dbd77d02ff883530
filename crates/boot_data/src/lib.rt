//! A boot as data: the plan that a boot script says, and the report of its run.
//!
//! `boot_script` reads plans and prints reports; the kernel runs a plan and makes a report. Both have lists of bounded
//! length, and each thing that a plan names is in the plan.
#![tactic(auto)]

mod boot_plan;
mod fixed;
mod fixed_list;
mod heard;
mod kind;
pub mod plan;
mod report;

pub use boot_plan::BootPlan;
pub use fixed::{Name, Text};
pub use heard::{HeardLines, HeardPlace, HeardReport};
pub use kind::Kind;
pub use report::{
    AlarmCounts, GaugeLine, ItemCounts, MoverKind, MoverLine, QueueKind, QueueLine, Report,
    ThreadLine, ThreadState, TtyLines,
};
