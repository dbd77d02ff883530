//! The meters and their ends.
ghost use Rattle.std.specs.Prelude.{◌≡◌, [], IfOk};
ghost use Rattle.meters.specs.Layout.{width};
ghost use Rattle.meters.specs.Rules.{newcomer};
ghost use Rattle.meters.specs.Client.{CountsOneMore, CountsOneLess, with_all_of, HasSeenBoth, ChangesNothing};
ghost use Rattle.table_theory.specs.Moments.{StepsAtMost};
ghost use Rattle.meters.specs.Endings.{IsNewEnd};
ghost use Rattle.meters.specs.Evidence.{SplitBy, JoinedBy};
ghost use Rattle.meters.specs.Own.{DidSplit, DidBoth, of_meters};
ghost use Rattle.meters.specs.Views.{IsPart};
ghost use Rattle.table_theory.specs.Ledgers.{IsValidView};

use crate::layout::{CLOCK, ENDS, WORDS};
use crate::rule::{MeterRule, Shape, View};
use atomic_table::{Seat, Table};
use event_theory::OutOfMemory;
use std::alloc::Global;
use std::marker::Brand;
use table_theory::end_steps::{count_down, count_up, split_off, take_in};

/// 8 gauges, a clock, and 16 slots for alarms.
///
/// All calls but `new` and `close` take them through a `&`, so threads can share them; each thread steps with an end of
/// its own. Each call is one atomic step, or a few, and never waits.
#[derive(Drop)]
pub struct Meters {
    pub(crate) table: Table<(), View, Shape, MeterRule, Global>,
    ghost sized: { (table.shared.table_id.words ≡ width) × (table.shared.table_id.slots ≡ 0) },
}

/// An end of the meters. It has no bytes.
///
/// An end's list is true. Each entry, of its own steps or of other ends' steps that it has seen, found the number that
/// its word had then. It found the meters as the step before it left them, lawful and shown by the words.
///
/// An end that is dropped can never be joined, so the meters can then never be closed; what it did stays done.
#[derive(Drop)]
pub struct MeterSeat {
    pub(crate) seat: Seat<(), View>,
    ghost bare: { seat.me.1 ≡ [] },
    ghost one: { seat.me.0.member.ends ≡ 1 },
    ghost valid: { ∥ IsValidView of_meters seat.me.0 ∥₁ },
}

impl Meters {
    ghost use Rattle.meters.specs.Handles.{view_of, first_of, IsDivisible, IsSeatOf, IsSameSeat, AreOfOneTable};

    /// Gauges at 0, the given clock, no alarm, and the only end.
    pub fn new(alloc: Global, clock: u32) -> Result<(Meters, MeterSeat), OutOfMemory>
        ensures { IfOk result (λ r. IsSeatOf r.0 r.1 × (first_of r.0 ≡ clock)
            × (view_of r.1 ≡ newcomer (record { clock = clock }))) }
    {
        let mut row = [0u64; WORDS];
        row[ENDS] = 1;
        row[CLOCK] = u64::from(clock);
        let shape = Shape {
            clock: u64::from(clock),
        };
        let (table, seat) = Table::of_words(alloc, &row, &shape)?;
        Ok((Meters { table }, MeterSeat { seat }))
    }

    /// A new end, which has done nothing. Both ends are to be joined again before the meters can be closed. Besides the
    /// step that counts the new end, the first word is loaded once, and the number found there is not used.
    ///
    /// The new end gets half of the end's share, and 2^21 parts at most. Condition: the end has two parts or more of
    /// its meters' 2^64 - 1. The first end can be split 2^43 times without a join, and each of those ends 21 times in a
    /// chain. `split_share` gives as many parts as its caller says.
    pub fn split(&self, seat: &mut MeterSeat) -> MeterSeat
        requires seat { IsSeatOf self.now seat.old }
        requires parts { IsDivisible seat.old }
        ensures effect { CountsOneMore (view_of seat.old) (view_of seat.new) }
        ensures frame { ChangesNothing (view_of seat.old) (view_of seat.new) }
        ensures owns { DidSplit (view_of seat.old) (view_of seat.new) }
        ensures born { IsNewEnd (view_of seat.old) (view_of seat.new) (view_of result) }
        ensures steps { StepsAtMost 1 (view_of seat.old) (view_of seat.new) }
        ensures trace { SplitBy (view_of seat.old) (view_of seat.new) }
        ensures handle { IsSameSeat seat.old seat.new × AreOfOneTable seat.old result }
    {
        // linearization point: the number of ends becomes one more, before the new end is made, so it is never too low
        count_up(&self.table.shared, &mut seat.seat, ENDS);
        // the first word is loaded too, and its number is not used
        let new = split_off(&self.table.shared, &mut seat.seat);
        MeterSeat { seat: new }
    }

    /// The first end then has all that both had: what they did, and their parts of the meters. Besides the step that
    /// counts one end less, the first word is loaded once, and the number found there is not used.
    pub fn join(&self, seat: &mut MeterSeat, other: MeterSeat)
        requires { IsSeatOf self.now seat.old × IsSeatOf self.now other }
        ensures effect { CountsOneLess (with_all_of (view_of seat.old) (view_of other)) (view_of seat.new) }
        ensures result { HasSeenBoth (view_of seat.old) (view_of other) (view_of seat.new) × IsPart (view_of seat.new) }
        ensures frame { ChangesNothing (with_all_of (view_of seat.old) (view_of other)) (view_of seat.new) }
        ensures owns { DidBoth (view_of seat.old) (view_of other) (view_of seat.new) }
        ensures steps { StepsAtMost 1 (with_all_of (view_of seat.old) (view_of other)) (view_of seat.new) }
        ensures trace { JoinedBy (view_of seat.old) (view_of other) (view_of seat.new) }
        ensures handle { IsSameSeat seat.old seat.new }
    {
        let MeterSeat { seat: spent } = other;
        // linearization point: the first end has what both had; the first word is loaded too, and its number is not
        // used
        take_in::<_, _, _, _, _, Brand>(&self.table.shared, &mut seat.seat, spent);
        // the number of ends becomes one less after the join, so it is never too low
        count_down(&self.table.shared, &mut seat.seat, ENDS);
    }
}
