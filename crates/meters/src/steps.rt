//! The atomic steps, one function for each kind.
ghost use Rattle.std.specs.Prelude.{◌≡◌, ◌≢◌, ◌+◌, ◌<◌, ◌≤◌, IsTrue, IsFalse, Option, Some, None};
ghost use Rattle.table_theory.specs.Ledgers.{Looked};
ghost use Rattle.meters.specs.Layout.{clock_word, gauge_word, word_of};
ghost use Rattle.meters.specs.declared.layout.TheConstants.{GAUGES, SLOTS, TICKS, LAST_TICK};
ghost use Rattle.meters.specs.Steps.{CanStep, HasStepped};
ghost use Rattle.meters.specs.Steps.{WasTicked, WasAdvanced, WasSet, WasFired, WasCancelled, FoundIn, FoundOther};

use crate::layout::{CLOCK, FIRST_GAUGE, FIRST_SLOT};
use crate::plays::{Advances, Cancels, Finds, Fires, Sets, Ticks};
use crate::rule::{MeterRule, Shape, View};
use crate::word::AlarmWord;
use atomic_table::{Seat, Shared};
use event_theory::Alarm;

pub(crate) type Words = Shared<(), View, Shape, MeterRule>;

fn load(words: &Words, seat: &mut Seat<(), View>, word: usize) -> u64
    requires seat { (seat.old.table_id ≡ words.now.table_id) × (word < words.now.table_id.words) }
    requires live { 1 ≤ seat.old.me.0.member.ends }
    ensures seat { HasStepped seat.old seat.new }
    ensures found { Looked seat.old.me.0 word result seat.new.me.0 }
{
    words.load::<Finds>(seat, word)
}

pub(crate) fn load_clock(words: &Words, seat: &mut Seat<(), View>) -> u64
    requires seat { CanStep words.now.table_id seat.old }
    ensures seat { HasStepped seat.old seat.new }
    ensures found { Looked seat.old.me.0 clock_word result seat.new.me.0 }
    ensures clock { result ≡ seat.new.me.0.seen.object.clock }
    ensures bounded { result < TICKS }
{
    load(words, seat, CLOCK)
}

pub(crate) fn load_gauge(words: &Words, seat: &mut Seat<(), View>, gauge: usize) -> u64
    requires seat { CanStep words.now.table_id seat.old × (gauge < GAUGES) }
    ensures seat { HasStepped seat.old seat.new }
    ensures found { Looked seat.old.me.0 (gauge_word gauge) result seat.new.me.0 }
{
    load(words, seat, FIRST_GAUGE + gauge)
}

pub(crate) fn load_slot(words: &Words, seat: &mut Seat<(), View>, slot: usize) -> AlarmWord
    requires seat { CanStep words.now.table_id seat.old × (slot < SLOTS) }
    ensures seat { HasStepped seat.old seat.new }
    ensures found { (stood : Option Alarm) × (result.bits ≡ word_of stood)
        × FoundIn seat.old.me.0 slot stood seat.new.me.0 }
{
    AlarmWord::from_bits(load(words, seat, FIRST_SLOT + slot))
}

pub(crate) fn load_alarm(words: &Words, seat: &mut Seat<(), View>, slot: usize) -> Option<Alarm>
    requires seat { CanStep words.now.table_id seat.old × (slot < SLOTS) }
    ensures seat { HasStepped seat.old seat.new }
    ensures found { FoundIn seat.old.me.0 slot result seat.new.me.0 }
{
    load_slot(words, seat, slot).alarm()
}

pub(crate) fn add_to_gauge(
    words: &Words,
    seat: &mut Seat<(), View>,
    gauge: usize,
    amount: u64,
) -> u64
    requires seat { CanStep words.now.table_id seat.old × (gauge < GAUGES) }
    ensures seat { HasStepped seat.old seat.new }
    ensures ticked { WasTicked seat.old.me.0 gauge amount result seat.new.me.0 }
{
    words.fetch_add::<Ticks>(seat, FIRST_GAUGE + gauge, amount)
}

pub(crate) fn exchange_clock(words: &Words, seat: &mut Seat<(), View>, clock: u64) -> u64
    requires seat { CanStep words.now.table_id seat.old }
    requires below { clock < LAST_TICK }
    ensures seat { HasStepped seat.old seat.new }
    ensures hit { result ≡ clock → WasAdvanced seat.old.me.0 clock seat.new.me.0 }
    ensures miss { result ≢ clock → Looked seat.old.me.0 clock_word result seat.new.me.0
        × (result ≡ seat.new.me.0.seen.object.clock) }
    ensures bounded { result < TICKS }
{
    words.compare_exchange::<Advances>(seat, CLOCK, clock, clock + 1)
}

/// Sets the alarm in the slot if the slot is empty, and returns whether it was.
pub(crate) fn exchange_in(
    words: &Words,
    seat: &mut Seat<(), View>,
    slot: usize,
    alarm: Alarm,
) -> bool
    requires seat { CanStep words.now.table_id seat.old × (slot < SLOTS) }
    ensures seat { HasStepped seat.old seat.new }
    ensures hit { IsTrue result → WasSet seat.old.me.0 slot alarm seat.new.me.0 }
    ensures miss { IsFalse result → FoundOther seat.old.me.0 slot None seat.new.me.0 }
{
    let word = AlarmWord::of(alarm).bits();
    words.compare_exchange::<Sets>(seat, FIRST_SLOT + slot, 0, word) == 0
}

/// Takes the alarm, which is due, out of the slot as fired if it is there, and returns whether it was.
pub(crate) fn exchange_fired(
    words: &Words,
    seat: &mut Seat<(), View>,
    slot: usize,
    alarm: Alarm,
) -> bool
    requires seat { CanStep words.now.table_id seat.old × (slot < SLOTS) }
    requires due { alarm.due ≤ seat.old.me.0.seen.object.clock }
    ensures seat { HasStepped seat.old seat.new }
    ensures hit { IsTrue result → WasFired seat.old.me.0 slot alarm seat.new.me.0 }
    ensures miss { IsFalse result → FoundOther seat.old.me.0 slot (Some alarm) seat.new.me.0 }
{
    let word = AlarmWord::of(alarm).bits();
    words.compare_exchange::<Fires>(seat, FIRST_SLOT + slot, word, 0) == word
}

/// Takes the alarm out of the slot as cancelled if it is there, and returns whether it was.
pub(crate) fn exchange_cancelled(
    words: &Words,
    seat: &mut Seat<(), View>,
    slot: usize,
    alarm: Alarm,
) -> bool
    requires seat { CanStep words.now.table_id seat.old × (slot < SLOTS) }
    ensures seat { HasStepped seat.old seat.new }
    ensures hit { IsTrue result → WasCancelled seat.old.me.0 slot alarm seat.new.me.0 }
    ensures miss { IsFalse result → FoundOther seat.old.me.0 slot (Some alarm) seat.new.me.0 }
{
    let word = AlarmWord::of(alarm).bits();
    words.compare_exchange::<Cancels>(seat, FIRST_SLOT + slot, word, 0) == word
}
