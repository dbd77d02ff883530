//! The wait of a thread after a failed try.
use crossbeam_utils::Backoff;
use std::hint;

/// The number of pauses: a microsecond and a half if a pause takes six nanoseconds.
const PAUSES: u32 = 256;

/// Waits long enough for the other end to put or take some lines. As a `Backoff` it yields after some waits.
pub fn wait_a_little(backoff: &Backoff) {
    for _ in 0..PAUSES {
        hint::spin_loop();
    }
    backoff.snooze();
}
