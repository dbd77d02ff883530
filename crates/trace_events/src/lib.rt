//! Traces of boots in the JSON object format of Chrome's trace events, which Perfetto and about:tracing open.
//!
//! A trace is one process. Each processor has a track with its turns, and so has each thread. A turn is a complete
//! event that is named by its step and the answer; its arguments are what the step named and what came of it. Idle
//! turns in a row are one event with their number. A turn starts when the one before it on its processor has ended, and
//! on the track of its thread no earlier than the thread's last turn ended, so no two events overlap on a track. An
//! instant event at the end of a processor's turns says how many were not recorded, if any. A line that passed from a
//! say to a hear is a flow from the turn of the one to the turn of the other, on their threads' tracks.
//!
//! It is proved that the text is one JSON value, that its events are a function of the logs, that no turn of a log is
//! left out, and that no two turns of a thread overlap on its track. Which say a hear is joined to is defined in
//! `boot_log`.
#![tactic(auto)]

mod events;
mod fault;
mod flows;
mod laws;
mod members;
mod micros;
mod names;
mod output;
mod texts;
mod threads;
mod trace;
mod tracks;
mod turn_args;
mod turn_names;
mod turns;

pub use fault::TraceFault;
pub use laws::{no_turn_is_left_out, no_turns_overlap};
pub use trace::print_trace;
