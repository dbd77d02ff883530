//! Alarms as C has them.
ghost use Rattle.std.specs.Prelude.{◌≡◌, ◌≤◌, length, take, map, MatchOption};
ghost use Rattle.bindings.specs.SeatAlarms.{c_alarm, IsAlarm, IsNoAlarm, IsRestKept};

use event_theory::{Alarm, Element, Signal};

/// An alarm: at which tick it is due, and the signal that it is for.
#[repr(C)]
#[derive(Clone, Copy)]
pub struct SynthAlarm {
    pub due: u32,
    pub element: u32,
    pub signal: u32,
}

/// The alarm that C gave, or None if its element or its signal is out of range.
pub fn alarm_of(reported: &SynthAlarm) -> Option<Alarm>
    ensures { MatchOption result (IsNoAlarm reported.now) (λ alarm. IsAlarm reported.now × (c_alarm alarm ≡ reported.now)) }
{
    if reported.element >= 64 || reported.signal >= 16 {
        return None;
    }
    Some(Alarm {
        due: reported.due,
        element: Element::new(reported.element as u8)?,
        signal: Signal::new(reported.signal as u8)?,
    })
}

/// An alarm as it is reported to C.
pub fn told_of(alarm: &Alarm) -> SynthAlarm
    ensures { result ≡ c_alarm alarm.now }
{
    SynthAlarm {
        due: alarm.due,
        element: u32::from(alarm.element.number()),
        signal: u32::from(alarm.signal.number()),
    }
}

/// Writes alarms to the beginning of a buffer. Returns their number.
pub fn tell_alarms(alarms: &[Alarm], out: &mut [SynthAlarm]) -> usize
    requires { length alarms.now ≤ length out.old }
    ensures number { result ≡ length alarms.now }
    ensures effect { take result out.new ≡ map c_alarm alarms.now }
    ensures rest { IsRestKept result out.old out.new }
{
    for i in 0..alarms.len() {
        out[i] = told_of(&alarms[i]);
    }
    alarms.len()
}
