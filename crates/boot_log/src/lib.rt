//! The log of a processor's turns, as values that a program can read.
//!
//! A `Recorder` is a gate that keeps the result of each turn, with the time at its end, in a `Log`. All memory is
//! allocated before the first turn. From the first turn for which there is no room, the log counts the turns that it
//! misses: it always has the front of the run. Contracts compare each entry with the processor's own log of its turns,
//! which exists in contracts alone.
//!
//! `passings_of` joins the lines that were said to those that were heard, over the logs of all processors, by their
//! texts and the clock. Pictures and traces of a boot take these logs, and show these lines. What a pump, a switch or a
//! tty's device moves is in no log, so at the queues of these no line is joined. Nor is one at a queue into which a text
//! of several lines is said, or after the first turn that a log missed.
//!
//! `runs_are_kept` says that a recorder's log is the front of its run, entry by entry, with the clock's times, and that
//! the kept and the missed turns are all turns. `lines_keep_their_text` says that no line is joined to one of another
//! queue or text, and `lines_pass_once` that none is joined twice. `lines_are_known` says that only threads use the
//! queue of a joined line, line by line, that its put began no later than its taking ended, and that no log misses a
//! turn up to both.
#![tactic(auto)]

mod boot_clock;
mod clock;
mod counted;
mod entry;
mod laws;
mod line_turn;
mod log;
mod parts;
mod passing;
mod recorder;
mod thread_queues;
mod values;

pub use boot_clock::BootClock;
pub use clock::{Timer, TurnClock};
pub use entry::{Did, Entry, HeardAnswer, Part, SaidAnswer, Tried, end_of};
pub use laws::{lines_are_known, lines_keep_their_text, lines_pass_once, runs_are_kept};
pub use line_turn::{LineTurn, Way};
pub use log::{ALARMS, Log};
pub use passing::{Passing, passings_of};
pub use recorder::Recorder;
