ghost use Rattle.std.specs.Prelude.{◌≡◌, IfOk, slice_index_or};
ghost use Rattle.event_theory.specs.declared.alarm.Alarm.{Alarm};
ghost use Rattle.meters.specs.Handles.{IsSeatOf};
ghost use Rattle.meters.specs.Views.{times};

use crate::fixtures::{alarm_at, is_reported};
use crate::timing::scripts::{Act, Numbers, Script, closes, does, plays};
use event_theory::OutOfMemory;
use meters::*;
use std::alloc::Global;
use std::panic::Expect;
use std::process::Abort;
use std::test::*;

/// Provable by a client for an end that is alone: the gauge is what the end added, the clock is as it was, no alarm is
/// left, and the close is not refused.
fn alone(alloc: Global, clock: u32) -> Result<Metered, OutOfMemory>
    ensures gauge { IfOk result (λ m. slice_index_or m.gauges 3 0 ≡ 7) }
    ensures clock { IfOk result (λ m. m.clock ≡ clock) }
    ensures alarms { IfOk result (λ m. (alarm : Alarm) → times alarm m.alarms.items ≡ 0) }
{
    let (meters, mut seat) = Meters::new(alloc, clock)?;
    meters.tick(&mut seat, 3, 5);
    meters.tick(&mut seat, 3, 2);
    let _fired = meters.due(&mut seat);
    match meters.close(seat) {
        Ok(metered) => Ok(metered),
        Err(_) => unreachable!(),
    }
}

/// Provable by a client for the clock of an end that is alone: a try to move it on is never lost, and returns the next
/// tick.
fn moves_on(alloc: Global) -> Result<u32, OutOfMemory>
    ensures { IfOk result (λ clock. clock ≡ 1) }
{
    let (meters, mut seat) = Meters::new(alloc, 0)?;
    laws::lists_are_true();
    laws::only_ends_are_never_lost();
    laws::numbers_say();
    match meters.advance(&mut seat) {
        Ok(clock) => Ok(clock),
        Err(AdvanceRefusal::Spent) => unreachable!(),
        Err(AdvanceRefusal::Lost { .. }) => unreachable!(),
    }
}

const READS: Script = Script {
    first: 9,
    acts: &[
        Act::Tick(3, 5, 0),
        Act::Gauge(3, 5),
        Act::Gauge(4, 0),
        Act::Clock(9),
        Act::Advance(Ok(10)),
        Act::Clock(10),
    ],
    gauges: [0, 0, 0, 5, 0, 0, 0, 0],
    clock: 10,
    alarms: &[],
};

/// A gauge and the clock are loaded, by one call each.
#[test]
fn a_gauge_and_the_clock_are_read(rt: HostRuntime) {
    plays(&rt, rt.alloc(), &READS);
}

#[test]
fn the_only_end(rt: HostRuntime) -> Result<(), Fail> {
    let metered = alone(rt.alloc(), 9)?;
    assert!(rt; metered.gauges == [0, 0, 0, 7, 0, 0, 0, 0]);
    assert!(rt; (metered.clock, metered.alarms.len()) == (9, 0));
    assert!(rt; moves_on(rt.alloc())? == 1);
    Ok(())
}

const NOW: Numbers = (0, 0, 1);

const LAST: Numbers = (4_294_967_294, 0, 1);

const ALARMS_ALONE: Script = Script {
    first: 0,
    acts: &[
        Act::Set(NOW, Ok(0)),
        Act::Fires(&[NOW]),
        Act::Fires(&[]),
        Act::Set(LAST, Ok(0)),
        Act::Fires(&[]),
        Act::SetRest(LAST, 1),
        Act::Set(LAST, Err(SetRefusal::NoRoom)),
        Act::Cancel(0, NOW, false),
        Act::Cancel(0, LAST, true),
        Act::Cancel(0, LAST, false),
        Act::Tick(0, 5, 0),
        Act::Tick(0, 18_446_744_073_709_551_615, 5),
        Act::Tick(0, 0, 4),
    ],
    gauges: [4, 0, 0, 0, 0, 0, 0, 0],
    clock: 0,
    alarms: &[LAST; 15],
};

#[test]
fn alarms_alone(rt: HostRuntime) -> Result<(), Fail> {
    let (meters, mut seat) = Meters::new(rt.alloc(), 0)?;
    let other = meters.split(&mut seat);
    meters.join(&mut seat, other);
    let script = &ALARMS_ALONE;
    does(&rt, &meters, &mut seat, script.acts);
    closes(&rt, meters, seat, script);
    Ok(())
}

const LAST_TICK: Script = Script {
    first: 4_294_967_294,
    acts: &[
        Act::Advance(Ok(4_294_967_295)),
        Act::Advance(Err(AdvanceRefusal::Spent)),
    ],
    gauges: [0; 8],
    clock: 4_294_967_295,
    alarms: &[],
};

#[test]
fn last_tick(rt: HostRuntime) {
    plays(&rt, rt.alloc(), &LAST_TICK);
}

const NOTHING_HAPPENED: Script = Script {
    first: 7,
    acts: &[],
    gauges: [0; 8],
    clock: 7,
    alarms: &[],
};

#[test]
fn nothing_happened(rt: HostRuntime) {
    plays(&rt, rt.alloc(), &NOTHING_HAPPENED);
}

const AT_2: Numbers = (2, 63, 15);

const AT_1: Numbers = (1, 0, 0);

const AT_0: Numbers = (0, 5, 9);

const DUE_IN_ORDER: Script = Script {
    first: 0,
    acts: &[
        Act::Set(AT_2, Ok(0)),
        Act::Set(AT_1, Ok(1)),
        Act::Set(AT_0, Ok(2)),
        Act::Advance(Ok(1)),
        Act::Fires(&[AT_1, AT_0]),
        Act::Set(AT_0, Ok(1)),
        Act::Tick(7, 3, 0),
        Act::Tick(3, 1, 0),
    ],
    gauges: [0, 0, 0, 1, 0, 0, 0, 3],
    clock: 1,
    alarms: &[AT_2, AT_0],
};

#[test]
fn due_alarms_in_the_order_of_slots(rt: HostRuntime) {
    plays(&rt, rt.alloc(), &DUE_IN_ORDER);
}

/// The number of the other ends, for which the meters aren't closed.
fn must_be_open<R: Abort>(rt: &R, meters: Meters, seat: MeterSeat) -> (Meters, MeterSeat, u64)
    requires { IsSeatOf meters seat }
    ensures { (result.0 ≡ meters) × IsSeatOf result.0 result.1 }
{
    match meters.close(seat) {
        Ok(_) => panic!(rt; "closed"),
        Err((meters, seat, open)) => (meters, seat, open.others),
    }
}

/// Joins one end with another.
fn joins(meters: &Meters, seat: &mut MeterSeat, other: MeterSeat)
    requires { IsSeatOf meters.now seat.old × IsSeatOf meters.now other }
    ensures { IsSeatOf meters.now seat.new }
{
    meters.join(seat, other);
}

/// Three ends of new meters.
fn three_ends<R: Abort>(rt: &R, alloc: Global) -> (Meters, MeterSeat, MeterSeat, MeterSeat)
    ensures { IsSeatOf result.0 result.1 × IsSeatOf result.0 result.2 × IsSeatOf result.0 result.3 }
{
    let (meters, mut seat) = Meters::new(alloc, 0).expect(rt, "memory");
    let mut a = meters.split(&mut seat);
    let b = meters.split(&mut a);
    (meters, seat, a, b)
}

/// The calls of an end before it is joined.
const JOINED: Script = Script {
    first: 0,
    acts: &[Act::Tick(0, 2, 0)],
    gauges: [2, 0, 0, 0, 0, 0, 0, 0],
    clock: 0,
    alarms: &[],
};

#[test]
fn closes_once_all_are_joined(rt: HostRuntime) {
    let (meters, seat, mut a, b) = three_ends(&rt, rt.alloc());
    let (meters, mut seat, two) = must_be_open(&rt, meters, seat);
    let script = &JOINED;
    does(&rt, &meters, &mut a, script.acts);
    joins(&meters, &mut seat, a);
    let (meters, mut seat, one) = must_be_open(&rt, meters, seat);
    assert!(rt; (two, one) == (2, 1));
    joins(&meters, &mut seat, b);
    closes(&rt, meters, seat, script);
}

#[test]
fn words_give_back_their_alarms(rt: HostRuntime) {
    let Some(alarm) = alarm_at(4_294_967_295, 63, 15) else {
        panic!(rt; "alarm")
    };
    let word = AlarmWord::of(alarm);
    assert!(rt; word.bits() == 0x8000_0f3f_ffff_ffff);
    assert!(rt; word.alarm() == Some(alarm));
    assert!(rt; word.due() == 4_294_967_295);
    assert!(rt; !word.is_empty() && AlarmWord::from_bits(0).is_empty());
    assert!(rt; AlarmWord::from_bits(0).alarm() == None);
    assert!(rt; AlarmWord::from_bits(7).alarm() == None);
    assert!(rt; AlarmWord::from_bits(word.bits() + 0x0001_0000_0000_0000).alarm() == None);
}

/// If an allocation fails there are no meters, and a later try makes them.
#[test]
fn memory_may_run_out(rt: HostRuntime) {
    let mut made = false;
    for _ in 0..3 {
        match Meters::new(rt.alloc(), 5) {
            Ok((meters, seat)) => made = meters.close(seat).is_ok(),
            Err(error) => assert!(rt; error == OutOfMemory),
        }
    }
    assert!(rt; made);
}

const ADVANCE_MESSAGES: &[(AdvanceRefusal, &str)] = &[
    (AdvanceRefusal::Spent, "no ticks left"),
    (AdvanceRefusal::Lost { clock: 9 }, "lost, clock 9"),
];

const SET_MESSAGES: &[(SetRefusal, &str)] = &[
    (SetRefusal::NoRoom, "no slot is empty"),
    (SetRefusal::Lost { slot: 3 }, "lost, slot 3"),
];

#[test]
fn refusals_are_reported(rt: HostRuntime) {
    for (refusal, words) in ADVANCE_MESSAGES {
        assert!(rt; is_reported(rt.alloc(), *refusal, words));
    }
    for (refusal, words) in SET_MESSAGES {
        assert!(rt; is_reported(rt.alloc(), *refusal, words));
    }
    let open = OpenEnds { others: 2 };
    assert!(rt; is_reported(rt.alloc(), open, "2 other ends are not joined"));
}
