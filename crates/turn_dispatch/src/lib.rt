//! The work of a processor's turn at a thread element. The turn takes one from the ready ring, parks it or delivers its
//! signals, puts it on the processor, counts its step, takes it off and moves it on. Also the work of its steps at
//! other thread elements: they wake, start, and tend the alarms.
//!
//! Each function here is a sequence of the calls of `thread_table` and `meters` with one hand and one seat. Moves are
//! retried if another hand was first. Each contract says step by step what was done and why it wasn't. It also says
//! what the hand has then, and what the events in the hand's list come to.
#![tactic(auto)]

mod alarms;
mod counting;
mod dispatch;
mod laws;
mod moving;
mod placing;
mod waking;

pub use alarms::tend_alarms;
pub use counting::{Counted, count};
pub use dispatch::{Begun, Idle, begin};
pub use laws::calls_only_add;
pub use moving::{Waited, make_ready, retire, wait_at, wait_in};
pub use placing::{put_on, take_off};
pub use waking::{Resumed, Woken, start, wake};
