ghost use Rattle.std.specs.Prelude.{◌≡◌};
ghost use Rattle.std.specs.Thread.{IsSync};
ghost use Rattle.meters.specs.Handles.{IsSeatOf};

use crate::fixtures::alarm_at;
use meters::*;
use std::alloc::{AllocError, Global};
use std::test::*;
use std::thread;
use std::thread::Threads;

const TICKS: u64 = 10_000;

/// Each end sets this many alarms, due at the ticks 0, 1, 2 and so on.
const ALARMS: u64 = 2_500;

/// How often each alarm was set, and how often it was fired or cancelled, as one end saw it.
#[derive(Drop)]
struct Had {
    set: Vec<u64>,
    gone: Vec<u64>,
}

/// The number of an alarm, by its element and its tick.
fn number(alarm: &Alarm) -> usize {
    let element = u64::from(alarm.element.number());
    element
        .wrapping_mul(ALARMS)
        .wrapping_add(u64::from(alarm.due)) as usize
}

fn note(times: &mut [u64], alarm: &Alarm) {
    if let Some(count) = times.get_mut(number(alarm)) {
        *count = count.wrapping_add(1);
    }
}

/// A zero for each alarm of the four ends.
fn no_times(alloc: Global) -> Result<Vec<u64>, AllocError> {
    Vec::from_elem(alloc, 0u64, 4 * ALARMS as usize)
}

fn nothing_had(alloc: Global) -> Result<Had, AllocError> {
    let set = no_times(alloc)?;
    let gone = no_times(alloc)?;
    Ok(Had { set, gone })
}

/// Sets an alarm, moves the clock on, and cancels the alarm if its tick is even, else takes out what is due.
fn alarm_once(meters: &Meters, seat: &mut MeterSeat, had: &mut Had, alarm: &Alarm)
    requires { IsSeatOf meters.now seat.old }
    ensures { IsSeatOf meters.now seat.new }
{
    let slot = meters.try_set(seat, *alarm);
    if slot.is_ok() {
        note(had.set.as_mut_slice(), alarm);
    }
    let _clock = meters.advance(seat);
    match slot {
        Ok(slot) if alarm.due % 2 == 0 => {
            if meters.cancel(seat, slot, *alarm) {
                note(had.gone.as_mut_slice(), alarm);
            }
        }
        _ => {
            for fired in meters.due(seat).as_slice() {
                note(had.gone.as_mut_slice(), fired);
            }
        }
    }
}

/// The work of one end: its ticks, and after every fourth tick an alarm of its own.
fn work(meters: &Meters, end: (MeterSeat, Had), element: u8) -> (MeterSeat, Had)
    requires { IsSeatOf meters.now end.0 }
    ensures { IsSeatOf meters.now result.0 }
{
    let (mut seat, mut had) = end;
    for count in 0..TICKS {
        meters.tick(&mut seat, 0, 1);
        if count % 4 == 0 {
            if let Some(alarm) = alarm_at((count / 4) as u32, element, element) {
                alarm_once(meters, &mut seat, &mut had, &alarm);
            }
        }
    }
    (seat, had)
}

fn two_work<R: Threads + Sync>(
    rt: &R,
    meters: &Meters,
    one: (MeterSeat, Had),
    other: (MeterSeat, Had),
    element: u8,
) -> ((MeterSeat, Had), (MeterSeat, Had))
    requires { IsSeatOf meters.now one.0 × IsSeatOf meters.now other.0 }
    ensures { IsSeatOf meters.now result.0.0 × IsSeatOf meters.now result.1.0 }
{
    thread::join(
        rt,
        move || -> (MeterSeat, Had)
            requires { IsSeatOf meters.now one.0 }
            ensures { IsSeatOf meters.entry.now result.0 }
        { work(meters, one, element) },
        move || -> (MeterSeat, Had)
            requires { IsSeatOf meters.now other.0 }
            ensures { IsSeatOf meters.entry.now result.0 }
        { work(meters, other, element.wrapping_add(1)) },
    )
}

fn four_work<R: Threads + Sync>(
    rt: &R,
    meters: &Meters,
    a: ((MeterSeat, Had), (MeterSeat, Had)),
    b: ((MeterSeat, Had), (MeterSeat, Had)),
) -> (
    ((MeterSeat, Had), (MeterSeat, Had)),
    ((MeterSeat, Had), (MeterSeat, Had)),
)
    requires a { IsSeatOf meters.now a.0.0 × IsSeatOf meters.now a.1.0 }
    requires b { IsSeatOf meters.now b.0.0 × IsSeatOf meters.now b.1.0 }
    ensures a { IsSeatOf meters.now result.0.0.0 × IsSeatOf meters.now result.0.1.0 }
    ensures b { IsSeatOf meters.now result.1.0.0 × IsSeatOf meters.now result.1.1.0 }
{
    thread::join(
        rt,
        move || -> ((MeterSeat, Had), (MeterSeat, Had))
            requires { IsSync R.row × IsSeatOf meters.now a.0.0 × IsSeatOf meters.now a.1.0 }
            ensures { IsSeatOf meters.entry.now result.0.0 × IsSeatOf meters.entry.now result.1.0 }
        { two_work(rt, meters, a.0, a.1, 0) },
        move || -> ((MeterSeat, Had), (MeterSeat, Had))
            requires { IsSync R.row × IsSeatOf meters.now b.0.0 × IsSeatOf meters.now b.1.0 }
            ensures { IsSeatOf meters.entry.now result.0.0 × IsSeatOf meters.entry.now result.1.0 }
        { two_work(rt, meters, b.0, b.1, 2) },
    )
}

fn at(times: &[u64], number: usize) -> u64 {
    match times.get(number) {
        Some(count) => *count,
        None => 0,
    }
}

/// How many alarms were set at most once, and were fired, cancelled or left as often as set. The lists are those of all
/// ends.
fn once_each(set: [&[u64]; 4], gone: [&[u64]; 4], left: &[u64]) -> u64 {
    let mut once = 0u64;
    for number in 0..4 * ALARMS as usize {
        let mut sets = 0u64;
        let mut goes = at(left, number);
        for end in 0..4usize {
            sets = sets.wrapping_add(at(set[end], number));
            goes = goes.wrapping_add(at(gone[end], number));
        }
        if sets <= 1 && goes == sets {
            once = once.wrapping_add(1);
        }
    }
    once
}

#[test]
fn four_ends_in_four_threads(rt: HostRuntime) -> Result<(), Fail> {
    let alloc = rt.alloc();
    let (meters, mut last) = Meters::new(alloc, 0)?;
    let one = (meters.split(&mut last), nothing_had(alloc)?);
    let two = (meters.split(&mut last), nothing_had(alloc)?);
    let three = (meters.split(&mut last), nothing_had(alloc)?);
    let four = (meters.split(&mut last), nothing_had(alloc)?);
    let (a, b) = four_work(&rt, &meters, (one, two), (three, four));
    let ((one, had_one), (two, had_two)) = a;
    let ((three, had_three), (four, had_four)) = b;
    meters.join(&mut last, one);
    meters.join(&mut last, two);
    meters.join(&mut last, three);
    meters.join(&mut last, four);
    let Ok(metered) = meters.close(last) else {
        panic!(rt; "close")
    };
    assert!(rt; metered.gauges == [4 * TICKS, 0, 0, 0, 0, 0, 0, 0]);
    let mut left = no_times(alloc)?;
    for alarm in metered.alarms.as_slice() {
        note(left.as_mut_slice(), alarm);
    }
    let set = [
        had_one.set.as_slice(),
        had_two.set.as_slice(),
        had_three.set.as_slice(),
        had_four.set.as_slice(),
    ];
    let gone = [
        had_one.gone.as_slice(),
        had_two.gone.as_slice(),
        had_three.gone.as_slice(),
        had_four.gone.as_slice(),
    ];
    assert!(rt; once_each(set, gone, left.as_slice()) == 4 * ALARMS);
    assert!(rt; metered.clock > 0);
    Ok(())
}
