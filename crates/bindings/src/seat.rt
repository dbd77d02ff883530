//! The meters for C: each call is one of the library's, on the end that a handle holds.
ghost use Rattle.std.specs.Prelude.{◌≡◌, ◌≤◌, ◌<◌};
ghost use Rattle.bindings.specs.Handles.{EmptyHandle, held_by, seat_of, NoneIn, LeadsTo, HoldsThen, WasEnded};
ghost use Rattle.bindings.specs.Handles.{MadeHandle, FreedHandle, SplitHandle, JoinedHandle, MarksTell, Seat, Done};
ghost use Rattle.bindings.specs.Handles.{TurnsThen};
ghost use Rattle.bindings.specs.Codes.{IsAnswer, IsCodeAlone};
ghost use Rattle.bindings.specs.SeatCalls.{IsTickCall, IsAdvanceCall, IsSetCall, IsCancelCall, IsDueCall};
ghost use Rattle.bindings.specs.SeatCalls.{ReportsMetered, code_of_advance, head_of_advance, code_of_set, head_of_set};
ghost use Rattle.bindings.specs.SeatCalls.{ReadGauge};
ghost use Rattle.bindings.specs.SeatHeld.{IsNewSeat, SplitBy, Joined, AreOfOneTable, Ended, WasClock};
ghost use Rattle.bindings.specs.Shares.{HasTwo, HasNoTwo, IsOneMark};

mod alarm;
pub mod held;

use crate::answer::{
    BAD_NUMBER, DONE, EMPTY_HANDLE, FULL_HANDLE, LOST, NO_ROOM, OPEN, SHORT_BUFFER, SPENT,
    SynthAnswer, answer_of, answer_with,
};
use crate::ends::{fill, free, join, split};
use crate::handle::Handle;
use crate::kind::Kind;
use crate::payload::Payload;
use alarm::{SynthAlarm, alarm_of, tell_alarms};
use held::HeldSeat;
use loose_box::Loose;
use meters::{AdvanceRefusal, Metered, SetRefusal};
use std::alloc::Global;

/// The state of meters when they were closed. The alarms are in the order of their slots; `alarms` is their number.
#[repr(C)]
#[derive(Drop)]
pub struct SynthMetered {
    pub gauges: [u64; 8],
    pub clock: u32,
    pub alarms: u32,
    pub alarm: [SynthAlarm; 16],
}

// The code of the refusal, and the clock in it.
fn answer_of_advance(refusal: AdvanceRefusal) -> SynthAnswer
    ensures { IsAnswer (code_of_advance refusal) (head_of_advance refusal) 0 result }
{
    match refusal {
        AdvanceRefusal::Spent => answer_of(SPENT),
        AdvanceRefusal::Lost { clock } => answer_with(LOST, clock),
    }
}

// The code of the refusal, and the slot in it.
fn answer_of_set(refusal: SetRefusal) -> SynthAnswer
    requires { head_of_set refusal < 16 }
    ensures { IsAnswer (code_of_set refusal) (head_of_set refusal) 0 result }
{
    match refusal {
        SetRefusal::NoRoom => answer_of(NO_ROOM),
        SetRefusal::Lost { slot } => answer_with(LOST, slot as u32),
    }
}

// The report of the library's `close`.
fn answer_of_metered(metered: &Metered) -> SynthMetered
    ensures { ReportsMetered metered.now result }
{
    let zero = SynthAlarm {
        due: 0,
        element: 0,
        signal: 0,
    };
    let mut alarm = [zero; 16];
    let alarms = tell_alarms(metered.alarms.as_slice(), &mut alarm);
    SynthMetered {
        gauges: metered.gauges,
        clock: metered.clock,
        alarms: alarms as u32,
        alarm,
    }
}

/// Gauges at 0, this clock, and no alarm. All meters have a mark of their own.
#[unsafe(no_mangle)]
pub extern "C" fn synth_raw_seat_new_marked(
    alloc: Global,
    clock: u32,
    mark: u64,
    seat: &mut Handle,
) -> i32
    ensures { MadeHandle Seat (Unit {0}) (IsNewSeat clock mark) seat.old seat.new result }
{
    if seat.is_full() {
        return FULL_HANDLE;
    }
    let made = HeldSeat::new(alloc, clock, mark);
    fill(alloc, made, seat)
}

/// Frees the handle, whose end is then never joined.
#[unsafe(no_mangle)]
pub extern "C" fn synth_raw_seat_free(alloc: Global, seat: &mut Handle) -> i32
    ensures { FreedHandle seat_of seat.old seat.new result }
{
    free::<HeldSeat>(alloc, seat)
}

/// A second end of the meters, for another thread.
#[unsafe(no_mangle)]
pub extern "C" fn synth_raw_seat_split(alloc: Global, seat: &mut Handle, other: &mut Handle) -> i32
    ensures { SplitHandle seat_of (λ x. HasTwo x.share) (λ x. HasNoTwo x.share) SplitBy
        seat.old seat.new other.old other.new result }
{
    split::<HeldSeat>(alloc, seat, (), other)
}

/// Joins two ends: the first then has all that both had, and the second handle is empty.
#[unsafe(no_mangle)]
pub extern "C" fn synth_raw_seat_join(alloc: Global, seat: &mut Handle, other: &mut Handle) -> i32
    requires { MarksTell (λ x z. IsOneMark x.share z.share) AreOfOneTable (seat_of seat.old) (seat_of other.old) }
    ensures { JoinedHandle seat_of (λ x. x.share) (λ x z. IsOneMark x.share z.share) Joined
        seat.old seat.new other.old other.new result }
{
    join::<HeldSeat>(alloc, seat, other)
}

/// `Meters::tick`. The gauges are 0 to 7.
#[unsafe(no_mangle)]
pub extern "C" fn synth_raw_seat_tick(
    seat: &mut Handle,
    gauge: u32,
    amount: u64,
    before: &mut u64,
) -> i32
    ensures empty { NoneIn seat_of seat.old seat.new ((result ≡ EmptyHandle) × (before.new ≡ before.old)) }
    ensures ticked { LeadsTo seat_of seat.old seat.new (IsTickCall gauge amount before.old before.new result) }
{
    let Some(held) = seat.find::<HeldSeat>() else {
        return EMPTY_HANDLE;
    };
    if gauge >= 8 {
        return BAD_NUMBER;
    }
    *before = held.tick(gauge as usize, amount);
    DONE
}

/// `Meters::advance`.
#[unsafe(no_mangle)]
pub extern "C" fn synth_raw_seat_advance(seat: &mut Handle, clock: &mut u32) -> SynthAnswer
    ensures empty { NoneIn seat_of seat.old seat.new (IsCodeAlone EmptyHandle result × (clock.new ≡ clock.old)) }
    ensures advanced { LeadsTo seat_of seat.old seat.new (λ x y. IsAdvanceCall x clock.old clock.new y result) }
{
    let Some(held) = seat.find::<HeldSeat>() else {
        return answer_of(EMPTY_HANDLE);
    };
    let answer = held.advance();
    match answer {
        Ok(now) => {
            *clock = now;
            answer_of(DONE)
        }
        Err(refusal) => answer_of_advance(refusal),
    }
}

/// `Meters::try_set`.
#[unsafe(no_mangle)]
pub extern "C" fn synth_raw_seat_try_set(
    seat: &mut Handle,
    alarm: &SynthAlarm,
    slot: &mut u32,
) -> SynthAnswer
    ensures empty { NoneIn seat_of seat.old seat.new (IsCodeAlone EmptyHandle result × (slot.new ≡ slot.old)) }
    ensures set { LeadsTo seat_of seat.old seat.new (λ x y. IsSetCall x alarm.now slot.old slot.new y result) }
{
    let Some(held) = seat.find::<HeldSeat>() else {
        return answer_of(EMPTY_HANDLE);
    };
    let Some(alarm) = alarm_of(alarm) else {
        return answer_of(BAD_NUMBER);
    };
    let answer = held.try_set(alarm);
    match answer {
        Ok(found) => {
            *slot = found as u32;
            answer_of(DONE)
        }
        Err(refusal) => answer_of_set(refusal),
    }
}

/// `Meters::cancel`. The slots are 0 to 15.
#[unsafe(no_mangle)]
pub extern "C" fn synth_raw_seat_cancel(
    seat: &mut Handle,
    slot: u32,
    alarm: &SynthAlarm,
    cancelled: &mut bool,
) -> i32
    ensures empty { NoneIn seat_of seat.old seat.new ((result ≡ EmptyHandle) × (cancelled.new ≡ cancelled.old)) }
    ensures cancelled { LeadsTo seat_of seat.old seat.new
        (IsCancelCall slot alarm.now cancelled.old cancelled.new result) }
{
    let Some(held) = seat.find::<HeldSeat>() else {
        return EMPTY_HANDLE;
    };
    if slot >= 16 {
        return BAD_NUMBER;
    }
    let Some(alarm) = alarm_of(alarm) else {
        return BAD_NUMBER;
    };
    *cancelled = held.cancel(slot as usize, alarm);
    DONE
}

/// `Meters::due`. The buffer has room for 16 alarms or more.
#[unsafe(no_mangle)]
pub extern "C" fn synth_raw_seat_due(
    seat: &mut Handle,
    alarms: &mut [SynthAlarm],
    count: &mut usize,
) -> i32
    ensures empty { NoneIn seat_of seat.old seat.new
        ((result ≡ EmptyHandle) × (alarms.new ≡ alarms.old) × (count.new ≡ count.old)) }
    ensures due { LeadsTo seat_of seat.old seat.new (IsDueCall alarms.old alarms.new count.old count.new result) }
{
    let Some(held) = seat.find::<HeldSeat>() else {
        return EMPTY_HANDLE;
    };
    if alarms.len() < 16 {
        return SHORT_BUFFER;
    }
    let fired = held.due();
    *count = tell_alarms(fired.as_slice(), alarms);
    DONE
}

/// `Meters::gauge`. The gauges are 0 to 7.
#[unsafe(no_mangle)]
pub extern "C" fn synth_raw_seat_gauge(seat: &mut Handle, gauge: u32, value: &mut u64) -> i32
    ensures empty { NoneIn seat_of seat.old seat.new ((result ≡ EmptyHandle) × (value.new ≡ value.old)) }
    ensures loaded { LeadsTo seat_of seat.old seat.new (ReadGauge gauge value.old value.new result) }
{
    let Some(held) = seat.find::<HeldSeat>() else {
        return EMPTY_HANDLE;
    };
    if gauge > 7 {
        return BAD_NUMBER;
    }
    *value = held.gauge(gauge as usize);
    DONE
}

/// `Meters::clock`.
#[unsafe(no_mangle)]
pub extern "C" fn synth_raw_seat_clock(seat: &mut Handle, clock: &mut u32) -> i32
    ensures empty { NoneIn seat_of seat.old seat.new ((result ≡ EmptyHandle) × (clock.new ≡ clock.old)) }
    ensures loaded { TurnsThen seat_of seat.old seat.new (λ x y. WasClock clock.new x y × (result ≡ Done)) }
{
    let Some(held) = seat.find::<HeldSeat>() else {
        return EMPTY_HANDLE;
    };
    *clock = held.clock();
    DONE
}

/// `Meters::close`, if the end has all parts of the meters. Else the handle keeps its end.
#[unsafe(no_mangle)]
pub extern "C" fn synth_raw_seat_close(
    alloc: Global,
    seat: &mut Handle,
    metered: &mut SynthMetered,
) -> i32
    ensures empty { NoneIn seat_of seat.old seat.new ((result ≡ EmptyHandle) × (metered.new ≡ metered.old)) }
    ensures closed { HoldsThen (seat_of seat.old)
        (λ x. WasEnded Seat (λ outcome. Ended outcome x) ReportsMetered (held_by seat.new) metered.old metered.new result) }
{
    let Some(_held) = seat.find::<HeldSeat>() else {
        return EMPTY_HANDLE;
    };
    let (payload, room) = Loose::of(seat.take(alloc)).take_out();
    match HeldSeat::unwrap(payload).close() {
        Ok(ended) => {
            let _alloc = room.free();
            *metered = answer_of_metered(&ended);
            DONE
        }
        Err(held) => {
            seat.put(Loose::fill(room, Payload::Seat(held)).into_box());
            OPEN
        }
    }
}
