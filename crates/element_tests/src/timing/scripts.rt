//! Scripts: an end's calls on meters, each with its result, and functions that run them.
ghost use Rattle.meters.specs.Handles.{IsSeatOf};

use crate::fixtures::alarm_at;
use meters::*;
use std::alloc::Global;
use std::panic::Expect;
use std::process::Abort;

/// An alarm by its numbers: the tick at which it is due, its element, and its signal.
pub(crate) type Numbers = (u32, u8, u8);

/// A call of an end, with its result.
pub(crate) enum Act {
    /// The alarm is set, in this slot or not.
    Set(Numbers, Result<usize, SetRefusal>),
    /// The alarm is set in each slot from this one on, one after the other.
    SetRest(Numbers, usize),
    /// These alarms are fired, in this order.
    Fires(&'static [Numbers]),
    /// The alarm in this slot is cancelled or not.
    Cancel(usize, Numbers, bool),
    /// This is added to a gauge, which had this number before.
    Tick(usize, u64, u64),
    Gauge(usize, u64),
    Advance(Result<u32, AdvanceRefusal>),
    Clock(u32),
}

/// The calls of the only end of meters whose clock begins at this tick, and what the meters close with.
pub(crate) struct Script {
    pub(crate) first: u32,
    pub(crate) acts: &'static [Act],
    pub(crate) gauges: [u64; 8],
    pub(crate) clock: u32,
    pub(crate) alarms: &'static [Numbers],
}

fn sets(
    meters: &Meters,
    seat: &mut MeterSeat,
    numbers: Numbers,
    wanted: Result<usize, SetRefusal>,
) -> bool
    requires { IsSeatOf meters.now seat.old }
    ensures { IsSeatOf meters.now seat.new }
{
    let (due, element, signal) = numbers;
    match alarm_at(due, element, signal) {
        Some(alarm) => meters.try_set(seat, alarm) == wanted,
        None => false,
    }
}

fn sets_rest(meters: &Meters, seat: &mut MeterSeat, numbers: Numbers, first: usize) -> bool
    requires { IsSeatOf meters.now seat.old }
    ensures { IsSeatOf meters.now seat.new }
{
    for slot in first..16 {
        if !sets(meters, seat, numbers, Ok(slot)) {
            return false;
        }
    }
    true
}

/// Whether these are the alarms with these numbers, in this order.
fn are_alarms(alarms: &[Alarm], wanted: &[Numbers]) -> bool {
    if alarms.len() != wanted.len() {
        return false;
    }
    for (alarm, (due, element, signal)) in alarms.iter().zip(wanted.iter()) {
        if alarm_at(*due, *element, *signal) != Some(*alarm) {
            return false;
        }
    }
    true
}

fn fires(meters: &Meters, seat: &mut MeterSeat, wanted: &[Numbers]) -> bool
    requires { IsSeatOf meters.now seat.old }
    ensures { IsSeatOf meters.now seat.new }
{
    are_alarms(meters.due(seat).as_slice(), wanted)
}

fn cancels(
    meters: &Meters,
    seat: &mut MeterSeat,
    slot: usize,
    numbers: Numbers,
    wanted: bool,
) -> bool
    requires { IsSeatOf meters.now seat.old }
    ensures { IsSeatOf meters.now seat.new }
{
    let (due, element, signal) = numbers;
    match alarm_at(due, element, signal) {
        Some(alarm) if slot < 16 => meters.cancel(seat, slot, alarm) == wanted,
        _ => false,
    }
}

fn ticks(meters: &Meters, seat: &mut MeterSeat, gauge: usize, amount: u64, wanted: u64) -> bool
    requires { IsSeatOf meters.now seat.old }
    ensures { IsSeatOf meters.now seat.new }
{
    gauge < 8 && meters.tick(seat, gauge, amount) == wanted
}

fn has_gauge(meters: &Meters, seat: &mut MeterSeat, gauge: usize, wanted: u64) -> bool
    requires { IsSeatOf meters.now seat.old }
    ensures { IsSeatOf meters.now seat.new }
{
    gauge < 8 && meters.gauge(seat, gauge) == wanted
}

/// Whether the call of an act has the act's result.
fn as_said(meters: &Meters, seat: &mut MeterSeat, act: &Act) -> bool
    requires { IsSeatOf meters.now seat.old }
    ensures { IsSeatOf meters.now seat.new }
{
    match act {
        Act::Set(numbers, wanted) => sets(meters, seat, *numbers, *wanted),
        Act::SetRest(numbers, first) => sets_rest(meters, seat, *numbers, *first),
        Act::Fires(wanted) => fires(meters, seat, wanted),
        Act::Cancel(slot, numbers, wanted) => cancels(meters, seat, *slot, *numbers, *wanted),
        Act::Tick(gauge, amount, wanted) => ticks(meters, seat, *gauge, *amount, *wanted),
        Act::Gauge(gauge, wanted) => has_gauge(meters, seat, *gauge, *wanted),
        Act::Advance(wanted) => meters.advance(seat) == *wanted,
        Act::Clock(wanted) => meters.clock(seat) == *wanted,
    }
}

/// Makes these calls of the end in order, and checks each result.
pub(crate) fn does<R: Abort>(rt: &R, meters: &Meters, seat: &mut MeterSeat, acts: &[Act])
    requires { IsSeatOf meters.now seat.old }
    ensures { IsSeatOf meters.now seat.new }
{
    for (at, act) in acts.iter().enumerate() {
        assert!(rt; as_said(meters, seat, act), "act {at}");
    }
}

/// Closes the meters with their only end. They have the numbers and the alarms of the script then.
pub(crate) fn closes<R: Abort>(rt: &R, meters: Meters, seat: MeterSeat, script: &Script)
    requires { IsSeatOf meters seat }
{
    let Ok(metered) = meters.close(seat) else {
        panic!(rt; "close")
    };
    assert!(rt; metered.gauges == script.gauges);
    assert!(rt; metered.clock == script.clock);
    assert!(rt; are_alarms(metered.alarms.as_slice(), script.alarms));
}

/// Makes the calls of the script with the only end of new meters, and closes them.
pub(crate) fn plays<R: Abort>(rt: &R, alloc: Global, script: &Script) {
    let (meters, mut seat) = Meters::new(alloc, script.first).expect(rt, "memory");
    does(rt, &meters, &mut seat, script.acts);
    closes(rt, meters, seat, script);
}
