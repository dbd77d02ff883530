//! Alarms.
ghost use Rattle.std.specs.Prelude.{◌≡◌, ◌<◌, ◌≤◌, MatchResult, MatchBool, IfOk, IfErr, [], ◌∷◌, ◌++◌, length};
ghost use Rattle.std.specs.Prelude.{Option, filter_map};
ghost use Rattle.table_theory.specs.Ledgers.{IsValidView};
ghost use Rattle.meters.specs.declared.layout.TheConstants.{SLOTS};
ghost use Rattle.meters.specs.Handles.{view_of, IsSeatOf, IsSameSeat};
ghost use Rattle.meters.specs.Client.{SetsAlarm, WereTakenBefore, WhyNotSet, CancelsAlarm, SlotHad, FiresDue};
ghost use Rattle.meters.specs.Client.{ChangesNothing, KeepsEnds};
ghost use Rattle.table_theory.specs.Moments.{StepsAtMost};
ghost use Rattle.meters.specs.Evidence.{SetNow, NotSet, CancelledNow, FiredNow};
ghost use Rattle.meters.specs.Steps.{FoundIn, Gave};
ghost use Rattle.meters.specs.Layout.{word_of};
ghost use Rattle.meters.specs.Own.{SeatView, of_meters, DidNothing, DidSet, DidCancel, DidFire};

use crate::ends::{MeterSeat, Meters};
use crate::layout::SLOTS;
use crate::steps::{
    exchange_cancelled, exchange_fired, exchange_in, load_alarm, load_clock, load_slot,
};
use crate::word::AlarmWord;
use arrayvec::ArrayVec;
use event_theory::Alarm;
use thiserror::Error;

/// Why an alarm was not set.
#[derive(Clone, Copy, Debug, PartialEq, Eq, Drop, Error)]
pub enum SetRefusal {
    /// Each of the 16 slots was loaded and found taken, one after the other. They need not have been taken all at once.
    #[error("no slot is empty")]
    NoRoom,
    /// Another end took this slot first, the first one that was found empty: the exchange found it taken.
    #[error("lost, slot {slot}")]
    Lost { slot: usize },
}

impl Meters {
    /// One try to set an alarm: it loads the slots in order up to the first that is empty, and exchanges that one by a
    /// compare-and-swap. Returns the slot, 0 to 15, by which the alarm can be cancelled.
    pub fn try_set(&self, seat: &mut MeterSeat, alarm: Alarm) -> Result<usize, SetRefusal>
        requires { IsSeatOf self.now seat.old }
        ensures effect { MatchResult result (λ slot. SetsAlarm slot alarm (view_of seat.old) (view_of seat.new))
            (λ r. ChangesNothing (view_of seat.old) (view_of seat.new)) }
        ensures result { IfOk result (λ slot. (slot < SLOTS)
            × WereTakenBefore slot (view_of seat.old) (view_of seat.new)) }
        ensures frame { KeepsEnds (view_of seat.old) (view_of seat.new) }
        ensures owns { MatchResult result (λ slot. DidSet alarm (view_of seat.old) (view_of seat.new))
            (λ r. DidNothing (view_of seat.old) (view_of seat.new)) }
        ensures error { IfErr result (λ r. WhyNotSet (view_of seat.old) r (view_of seat.new)) }
        ensures steps { StepsAtMost 17 (view_of seat.old) (view_of seat.new) }
        ensures trace { MatchResult result (λ slot. SetNow (view_of seat.old) slot alarm (view_of seat.new))
            (λ r. NotSet (view_of seat.old) r (view_of seat.new)) }
        ensures handle { IsSameSeat seat.old seat.new }
    {
        for slot in 0..SLOTS {
            // one load of each slot: NoRoom means that each slot was taken when it was loaded, not that all were taken
            // at once
            if load_alarm(&self.table.shared, &mut seat.seat, slot).is_none() {
                // linearization point: the alarm is in the slot; the slot's word is 0, so no other alarm is overwritten
                if exchange_in(&self.table.shared, &mut seat.seat, slot, alarm) {
                    return Ok(slot);
                }
                return Err(SetRefusal::Lost { slot });
            }
        }
        Err(SetRefusal::NoRoom)
    }

    /// Takes this alarm out of this slot, 0 to 15, by one compare-and-swap. True if the alarm was there; else it was
    /// fired or cancelled before, or was never there. Two equal alarms cannot be distinguished.
    pub fn cancel(&self, seat: &mut MeterSeat, slot: usize, alarm: Alarm) -> bool
        requires { IsSeatOf self.now seat.old × (slot < SLOTS) }
        ensures effect { MatchBool result (CancelsAlarm slot alarm (view_of seat.old) (view_of seat.new))
            (ChangesNothing (view_of seat.old) (view_of seat.new)) }
        ensures result { SlotHad slot alarm result (view_of seat.old) (view_of seat.new) }
        ensures frame { KeepsEnds (view_of seat.old) (view_of seat.new) }
        ensures owns { MatchBool result (DidCancel alarm (view_of seat.old) (view_of seat.new))
            (DidNothing (view_of seat.old) (view_of seat.new)) }
        ensures steps { StepsAtMost 1 (view_of seat.old) (view_of seat.new) }
        ensures trace { CancelledNow (view_of seat.old) slot alarm result (view_of seat.new) }
        ensures handle { IsSameSeat seat.old seat.new }
    {
        // linearization point: the alarm is out of the slot, or the slot has another word; the whole alarm is in one
        // word
        exchange_cancelled(&self.table.shared, &mut seat.seat, slot, alarm)
    }

    // Takes out the alarm of this slot, in which this word was found, if it is due at this tick of the clock, and puts
    // it into the list. Most slots are empty, so this is a function apart from the loop over them.
    #[inline(never)]
    fn fire(
        &self,
        seat: &mut MeterSeat,
        slot: usize,
        clock: u64,
        found: AlarmWord,
        fired: &mut ArrayVec<Alarm, SLOTS>,
    )
        requires seat { IsSeatOf self.now seat.old × (slot < SLOTS) }
        requires clock { clock ≤ (view_of seat.old).seen.object.clock }
        requires room { length fired.old.items < SLOTS }
        ensures gave { (v : SeatView) (stood : Option Alarm) → found.bits ≡ word_of stood
            → FoundIn v slot stood (view_of seat.old)
            → (alarm : Option Alarm) × Gave v clock slot alarm (view_of seat.new)
            × (fired.new.items ≡ fired.old.items ++ filter_map (λ a. a) (alarm ∷ [])) }
        ensures valid { IsValidView of_meters (view_of seat.old) → IsValidView of_meters (view_of seat.new) }
        ensures handle { IsSameSeat seat.old seat.new }
    {
        let Some(alarm) = found.alarm() else { return };
        let standing = alarm;
        if u64::from(alarm.due) > clock {
            return;
        }
        // linearization point: the alarm is fired; it is still due, since the clock never goes down
        if !exchange_fired(&self.table.shared, &mut seat.seat, slot, alarm) {
            return;
        }
        fired.push(standing);
    }

    /// Loads the clock once, and then takes out each alarm that is due at it, slots in order. Each slot is loaded, and
    /// an alarm in it that is due is taken out by one compare-and-swap. An alarm that another end takes first is passed
    /// over.
    ///
    /// An alarm that was set before the clock reached this tick, and is due at it, is taken out unless another end
    /// takes it first.
    pub fn due(&self, seat: &mut MeterSeat) -> ArrayVec<Alarm, SLOTS>
        requires { IsSeatOf self.now seat.old }
        ensures effect { FiresDue result.items (view_of seat.old) (view_of seat.new) }
        ensures frame { KeepsEnds (view_of seat.old) (view_of seat.new) }
        ensures owns { DidFire result.items (view_of seat.old) (view_of seat.new) }
        ensures steps { StepsAtMost 33 (view_of seat.old) (view_of seat.new) }
        ensures trace { FiredNow (view_of seat.old) result.items (view_of seat.new) }
        ensures handle { IsSameSeat seat.old seat.new }
    {
        let mut fired = ArrayVec::new();
        self.take_due(seat, &mut fired);
        fired
    }

    /// Does what `due` does, into a list of the caller, which then has what was taken out and nothing else. So a list
    /// can be used again and again, and none is moved.
    pub fn take_due(&self, seat: &mut MeterSeat, fired: &mut ArrayVec<Alarm, SLOTS>)
        requires { IsSeatOf self.now seat.old }
        ensures effect { FiresDue fired.new.items (view_of seat.old) (view_of seat.new) }
        ensures frame { KeepsEnds (view_of seat.old) (view_of seat.new) }
        ensures owns { DidFire fired.new.items (view_of seat.old) (view_of seat.new) }
        ensures steps { StepsAtMost 33 (view_of seat.old) (view_of seat.new) }
        ensures trace { FiredNow (view_of seat.old) fired.new.items (view_of seat.new) }
        ensures handle { IsSameSeat seat.old seat.new }
    {
        fired.clear();
        // one load of the clock suffices: an alarm that is due at it stays due, since the clock never goes down
        let clock = load_clock(&self.table.shared, &mut seat.seat);
        for slot in 0..SLOTS {
            // one load of each slot: an alarm that is set in the slot after it is left to a later call
            let found = load_slot(&self.table.shared, &mut seat.seat, slot);
            if !found.is_empty() {
                self.fire(seat, slot, clock, found, fired);
            }
        }
    }
}
