//! The alarms of a plan.
ghost use Rattle.meters.specs.Handles.{view_of, IsSeatOf, IsSameSeat};
ghost use Rattle.meters.specs.Own.{DidSet};
ghost use Rattle.boot_threads.specs.Alarms.{DidSetAll};

use crossbeam_utils::Backoff;
use event_theory::Alarm;
use meters::{MeterSeat, Meters};
use std::sync::Wait;

// Sets an alarm. Retries if no slot was empty or another end was first.
fn set_alarm<R: Wait>(rt: &R, meters: &Meters, seat: &mut MeterSeat, alarm: &Alarm)
    requires { IsSeatOf meters.now seat.old }
    ensures set { DidSet alarm.now (view_of seat.old) (view_of seat.new) }
    ensures handle { IsSameSeat seat.old seat.new }
{
    let backoff = Backoff::new();
    for _ in rt.forever() {
        match meters.try_set(seat, *alarm) {
            Ok(_) => return,
            Err(_) => backoff.spin(),
        }
    }
}

/// Sets these alarms in their order, each with retries if no slot was empty or another end was first. A plan has at
/// most 16 alarms, so new meters have a slot for each.
pub fn set_alarms<R: Wait>(rt: &R, meters: &Meters, seat: MeterSeat, alarms: &[Alarm]) -> MeterSeat
    requires { IsSeatOf meters.now seat }
    ensures set { DidSetAll alarms.now (view_of seat) (view_of result) }
    ensures handle { IsSameSeat seat result }
{
    let mut seat = seat;
    for alarm in alarms {
        set_alarm(rt, meters, &mut seat, alarm);
    }
    seat
}
