//! Turns at thread elements: pending signals, and the clock.

use super::*;
use std::test::*;

const ALARM: &[u8] = b"synthesis 2
thread a
alarm 2 a 3
pass
pass
pass
pass
pass
";

/// A turn of processor 0 is a tick of the clock, at which the alarms of this tick fire. Another processor leaves both
/// alone.
#[test]
fn clocks(rt: HostRuntime) {
    let first = booted(&rt, rt.alloc(), ALARM, 0, 4);
    check_states(&rt, &first, &[signalled(ready(4), 8, 0)]);
    assert!(rt; (first.metered.clock, first.metered.alarms.len()) == (4, 0));
    let last = booted(&rt, rt.alloc(), ALARM, 7, 4);
    check_states(&rt, &last, &[ready(4)]);
    assert!(rt; (last.metered.clock, last.metered.alarms.len()) == (0, 1));
}

const SIGNALS: &[u8] = b"synthesis 2
thread a
thread b
pass
pass
more a
signal b 2
stop b
signal b 5
start b
";

/// A stopped thread is parked with its signals pending.
#[test]
fn signals_of_a_stopped_thread(rt: HostRuntime) {
    let ended = booted(&rt, rt.alloc(), SIGNALS, 0, 5);
    let stopped = signalled(at(Place::Stopped, 1), 4, 32);
    check_states(&rt, &ended, &[ready(3), stopped]);
}
