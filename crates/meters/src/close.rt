//! Closing.
ghost use Rattle.std.specs.Prelude.{◌≡◌, List, Option, IfOk, IfErr, MatchResult};
ghost use Rattle.std.specs.Mem.Slots.{slots_items, slots_len, IsFull};
ghost use Rattle.event_theory.specs.declared.alarm.Alarm.{Alarm};
ghost use Rattle.meters.specs.Layout.{gauges_in, width};
ghost use Rattle.meters.specs.Words.{SlotsShow, standing};
ghost use Rattle.meters.specs.Client.{ChangesNothing, KeepsEnds};
ghost use Rattle.table_theory.specs.Moments.{WhyNotClosed};
ghost use Rattle.table_theory.specs.Moments.{StepsAtMost};
ghost use Rattle.meters.specs.Closings.{ClosedNow};
ghost use Rattle.meters.specs.Evidence.{WereOpen};
ghost use Rattle.meters.specs.Own.{DidNothing};

use crate::ends::{MeterSeat, Meters};
use crate::layout::{CLOCK, ENDS, FIRST_GAUGE, FIRST_SLOT, GAUGES, SLOTS};
use crate::word::AlarmWord;
use arrayvec::ArrayVec;
use atomic_table::Closed;
use event_theory::Alarm;
use std::alloc::Global;
use std::marker::Brand;
use table_theory::OpenEnds;
use table_theory::last_end::{close_by, count};

/// The meters at their end: the gauges, the clock, and the alarms in the slots, in the order of the slots.
#[derive(Drop)]
pub struct Metered {
    pub gauges: [u64; GAUGES],
    pub clock: u32,
    pub alarms: ArrayVec<Alarm, SLOTS>,
}

fn read_gauges(closed: &Closed<(), Global>) -> [u64; GAUGES]
    requires { (slots_len closed.now.words ≡ width) × IsFull closed.now.words }
    ensures { result ≡ gauges_in (slots_items closed.now.words) }
{
    let mut gauges = [0; 8];
    for gauge in 0..GAUGES {
        gauges[gauge] = closed.word(FIRST_GAUGE + gauge);
    }
    gauges
}

fn read_alarms(closed: &Closed<(), Global>) -> ArrayVec<Alarm, SLOTS>
    requires { (slots_len closed.now.words ≡ width) × IsFull closed.now.words }
    ensures { (slots : List (Option Alarm)) → SlotsShow slots (slots_items closed.now.words)
        → result.items ≡ standing slots }
{
    let mut alarms = ArrayVec::new();
    for slot in 0..SLOTS {
        if let Some(alarm) = AlarmWord::from_bits(closed.word(FIRST_SLOT + slot)).alarm() {
            alarms.push(alarm);
        }
    }
    alarms
}

impl Meters {
    ghost use Rattle.meters.specs.Handles.{view_of, first_of, IsSeatOf, IsOnlySeat, IsSameSeat};

    /// Closes the meters if every other end has been joined. Else it returns the meters, the end, and the number of the
    /// other ends. It allocates no memory.
    pub fn close(self, seat: MeterSeat) -> Result<Metered, (Meters, MeterSeat, OpenEnds)>
        requires { IsSeatOf self seat }
        ensures only { IsOnlySeat seat → MatchResult result (λ c. Unit {0}) (λ e. ⊥) }
        ensures closed { IfOk result
            (λ c. ClosedNow (first_of self) (view_of seat) c.gauges c.clock c.alarms.items) }
        ensures effect { IfErr result (λ e. ChangesNothing (view_of seat) (view_of e.1)) }
        ensures frame { IfErr result (λ e. KeepsEnds (view_of seat) (view_of e.1)) }
        ensures owns { IfErr result (λ e. DidNothing (view_of seat) (view_of e.1)) }
        ensures error { IfErr result (λ e. WhyNotClosed e.2.others (view_of seat) (view_of e.1)) }
        ensures steps { IfErr result (λ e. StepsAtMost 1 (view_of seat) (view_of e.1)) }
        ensures trace { IfErr result (λ e. WereOpen (view_of seat) e.2.others (view_of e.1)) }
        ensures handle { IfErr result (λ e. (e.0 ≡ self) × IsSameSeat seat e.1) }
    {
        let MeterSeat { seat } = seat;
        // linearization point: the number of ends is loaded; one load suffices, since it is 1 exactly if this end has
        // the whole, and then no other end makes a step
        let last = match count::<_, _, _, _, Brand>(&self.table.shared, seat, ENDS) {
            Ok(last) => last,
            Err((seat, ends)) => {
                return Err((self, MeterSeat { seat }, OpenEnds { others: ends - 1 }));
            }
        };
        let Meters { table } = self;
        let closed = close_by(table, last);
        let gauges = read_gauges(&closed);
        let clock = closed.word(CLOCK) as u32;
        let alarms = read_alarms(&closed);
        closed.free();
        Ok(Metered {
            gauges,
            clock,
            alarms,
        })
    }
}
