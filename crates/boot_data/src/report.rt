//! The report of a boot after its turns.
//!
//! A report has one list for each kind of line, each in the order of the script, and `print_report` writes it. Queues
//! and pipes are in one list, and so are pumps and switches.

use crate::fixed::Name;
use crate::heard::HeardReport;
use event_theory::{Items, WaitNumber};

/// How many items went through a queue.
#[derive(Clone, Copy, Debug, PartialEq, Eq)]
pub struct ItemCounts {
    /// Items that were claimed.
    pub put: u64,
    /// Items that were taken.
    pub taken: u64,
    /// Items that were claimed and not taken.
    pub left: u64,
}

/// The word of the script that declares a queue.
#[derive(Clone, Copy, Debug, PartialEq, Eq)]
pub enum QueueKind {
    /// `queue`.
    Queue,
    /// `pipe`: threads wait at it.
    Pipe,
}

/// The line of a queue or a pipe.
#[derive(Drop)]
pub struct QueueLine {
    pub kind: QueueKind,
    pub name: Name,
    pub items: ItemCounts,
}

/// The four lines of a tty.
#[derive(Drop)]
pub struct TtyLines {
    pub name: Name,
    /// Bytes that were popped from its device line.
    pub typed: u64,
    /// Bytes among these that the raw queue refused.
    pub overrun: u64,
    /// Notes that ran on its cooked tty.
    pub notes: u64,
    /// Bytes of the cooked line that is held.
    pub held: u64,
    /// The queue of the bytes that were typed.
    pub raw: ItemCounts,
    /// The queue of cooked lines, for threads that hear.
    pub line: ItemCounts,
    /// The queue of the bytes that the screen shows.
    pub screen: ItemCounts,
}

/// The word of the script that declares a pump or a switch.
#[derive(Clone, Copy, Debug, PartialEq, Eq)]
pub enum MoverKind {
    /// `pump`: all lines go to one queue.
    Pump,
    /// `switch`: a line's first item chooses its queue.
    Switch,
}

/// The line of a pump or a switch.
#[derive(Drop)]
pub struct MoverLine {
    pub kind: MoverKind,
    pub name: Name,
    /// Notes that ran on it.
    pub notes: u64,
    /// Items that it took from its source.
    pub taken: u64,
    /// Items that it put in its targets.
    pub put: u64,
    /// Items of the line that it holds.
    pub held: u64,
}

/// The line of a gauge.
#[derive(Drop)]
pub struct GaugeLine {
    pub name: Name,
    /// The sum of its ticks, modulo 2^64.
    pub value: u64,
}

/// How many alarms were set, fired and left. They have a line if one was set.
#[derive(Clone, Copy, Debug, PartialEq, Eq)]
pub struct AlarmCounts {
    pub set: u64,
    pub fired: u64,
    /// Alarms that were set and did not fire.
    pub left: u64,
}

/// The state of a thread. A thread that isn't ended is live.
#[derive(Clone, Copy, Debug, PartialEq, Eq)]
pub enum ThreadState {
    /// Among the free elements, with all steps done.
    Ended,
    /// In the ready ring.
    Ready,
    /// In a wait queue.
    Wait(WaitNumber),
    /// In its own stop cell.
    Stopped,
    /// Held by a processor.
    Held,
}

/// The line of a thread.
#[derive(Drop)]
pub struct ThreadLine {
    pub name: Name,
    pub state: ThreadState,
    /// How many of its steps are done.
    pub steps: u32,
    /// Bit s is set if signal s was delivered.
    pub signals: u16,
}

/// The report of a boot.
#[derive(Drop)]
pub struct Report {
    pub queues: Items<QueueLine>,
    pub ttys: Items<TtyLines>,
    pub movers: Items<MoverLine>,
    pub gauges: Items<GaugeLine>,
    pub alarms: AlarmCounts,
    pub threads: Items<ThreadLine>,
    /// By thread in script order, then by step.
    pub heard: HeardReport,
    /// The sum of the notes left in all chains.
    pub chained: u64,
}
