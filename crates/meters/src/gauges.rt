//! Gauges and the clock.
ghost use Rattle.std.specs.Prelude.{◌≡◌, ◌<◌, MatchResult, IfOk, IfErr, slice_index_or};
ghost use Rattle.meters.specs.declared.layout.TheConstants.{GAUGES};
ghost use Rattle.meters.specs.Layout.{gauge_word, clock_word};
ghost use Rattle.meters.specs.Handles.{view_of, IsSeatOf, IsSameSeat};
ghost use Rattle.meters.specs.Client.{AtSomeMoment, AddsToGauge, GaugeWas, ChangesNothing, KeepsEnds};
ghost use Rattle.meters.specs.Client.{MovesClock, ClockBecame, WhyNotAdvanced};
ghost use Rattle.table_theory.specs.Moments.{StepsAtMost};
ghost use Rattle.meters.specs.Evidence.{Ticked, Loaded, AdvancedNow, NotAdvanced};
ghost use Rattle.meters.specs.Own.{DidNothing, DidTick, DidAdvance};

use crate::ends::{MeterSeat, Meters};
use crate::layout::LAST_TICK;
use crate::steps::{add_to_gauge, exchange_clock, load_clock, load_gauge};
use thiserror::Error;

/// Why the clock was not moved on. The refusals are in the order in which they are checked.
#[derive(Clone, Copy, Debug, PartialEq, Eq, Drop, Error)]
pub enum AdvanceRefusal {
    /// The clock that was loaded is the last tick, 4,294,967,295. It stays there for good.
    #[error("no ticks left")]
    Spent,
    /// Another end moved the clock on first: the exchange found this clock, past the one that was loaded.
    #[error("lost, clock {clock}")]
    Lost { clock: u32 },
}

impl Meters {
    /// Adds `amount` to the gauge 0 to 7, modulo 2^64, by one step, and returns the gauge's value before.
    pub fn tick(&self, seat: &mut MeterSeat, gauge: usize, amount: u64) -> u64
        requires { IsSeatOf self.now seat.old × (gauge < GAUGES) }
        ensures effect { AddsToGauge gauge amount (view_of seat.old) (view_of seat.new) }
        ensures result { GaugeWas gauge amount result (view_of seat.old) (view_of seat.new) }
        ensures frame { KeepsEnds (view_of seat.old) (view_of seat.new) }
        ensures owns { DidTick gauge amount (view_of seat.old) (view_of seat.new) }
        ensures steps { StepsAtMost 1 (view_of seat.old) (view_of seat.new) }
        ensures trace { Ticked (view_of seat.old) gauge amount result (view_of seat.new) }
        ensures handle { IsSameSeat seat.old seat.new }
    {
        // linearization point: the amount is added; one fetch-and-add finds the value before
        add_to_gauge(&self.table.shared, &mut seat.seat, gauge, amount)
    }

    /// The value of the gauge 0 to 7, by one load.
    pub fn gauge(&self, seat: &mut MeterSeat, gauge: usize) -> u64
        requires { IsSeatOf self.now seat.old × (gauge < GAUGES) }
        ensures effect { ChangesNothing (view_of seat.old) (view_of seat.new) }
        ensures result { AtSomeMoment (view_of seat.old) (view_of seat.new) (λ m.
            slice_index_or m.gauges gauge 0 ≡ result) }
        ensures frame { KeepsEnds (view_of seat.old) (view_of seat.new) }
        ensures owns { DidNothing (view_of seat.old) (view_of seat.new) }
        ensures steps { StepsAtMost 1 (view_of seat.old) (view_of seat.new) }
        ensures trace { Loaded (view_of seat.old) (gauge_word gauge) result (view_of seat.new) }
        ensures handle { IsSameSeat seat.old seat.new }
    {
        // linearization point: the gauge is loaded
        load_gauge(&self.table.shared, &mut seat.seat, gauge)
    }

    /// The clock, by one load.
    pub fn clock(&self, seat: &mut MeterSeat) -> u32
        requires { IsSeatOf self.now seat.old }
        ensures effect { ChangesNothing (view_of seat.old) (view_of seat.new) }
        ensures result { AtSomeMoment (view_of seat.old) (view_of seat.new) (λ m. m.clock ≡ result) }
        ensures frame { KeepsEnds (view_of seat.old) (view_of seat.new) }
        ensures owns { DidNothing (view_of seat.old) (view_of seat.new) }
        ensures steps { StepsAtMost 1 (view_of seat.old) (view_of seat.new) }
        ensures trace { Loaded (view_of seat.old) clock_word result (view_of seat.new) }
        ensures handle { IsSameSeat seat.old seat.new }
    {
        // linearization point: the clock is loaded
        load_clock(&self.table.shared, &mut seat.seat) as u32
    }

    /// One try to move the clock on by one tick: it loads the clock and exchanges it for the next by a
    /// compare-and-swap. Returns the new clock.
    pub fn advance(&self, seat: &mut MeterSeat) -> Result<u32, AdvanceRefusal>
        requires { IsSeatOf self.now seat.old }
        ensures effect { MatchResult result (λ clock. MovesClock (view_of seat.old) (view_of seat.new))
            (λ r. ChangesNothing (view_of seat.old) (view_of seat.new)) }
        ensures result { IfOk result (λ clock. ClockBecame clock (view_of seat.old) (view_of seat.new)) }
        ensures frame { KeepsEnds (view_of seat.old) (view_of seat.new) }
        ensures owns { MatchResult result (λ clock. DidAdvance clock (view_of seat.old) (view_of seat.new))
            (λ r. DidNothing (view_of seat.old) (view_of seat.new)) }
        ensures error { IfErr result (λ r. WhyNotAdvanced (view_of seat.old) r (view_of seat.new)) }
        ensures steps { StepsAtMost 2 (view_of seat.old) (view_of seat.new) }
        ensures trace { MatchResult result (λ clock. AdvancedNow (view_of seat.old) clock (view_of seat.new))
            (λ r. NotAdvanced (view_of seat.old) r (view_of seat.new)) }
        ensures handle { IsSameSeat seat.old seat.new }
    {
        // linearization point of Spent: one load suffices, since the clock never leaves its last tick
        let clock = load_clock(&self.table.shared, &mut seat.seat);
        if clock == LAST_TICK {
            return Err(AdvanceRefusal::Spent);
        }
        // linearization point: the clock is moved on; the same clock means that no other end moved it on since the load
        let found = exchange_clock(&self.table.shared, &mut seat.seat, clock);
        if found != clock {
            return Err(AdvanceRefusal::Lost {
                clock: found as u32,
            });
        }
        Ok((clock + 1) as u32)
    }
}
