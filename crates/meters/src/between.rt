//! The properties that hold between any two steps of any threads.

ghost use Rattle.atomic_table.specs.Table.{State};
ghost use Rattle.meters.specs.declared.rule.Shape.{Shape};
ghost use Rattle.meters.specs.declared.rule.Reading.{Reading};
ghost use Rattle.std.specs.Prelude.{◌≡◌, ◌≤◌};
ghost use Rattle.table_theory.specs.declared.views.AbsState.{AbsState};
ghost use Rattle.table_theory.specs.Ledgers.{Reaches};
ghost use Rattle.meters.specs.Own.{SeatView, of_meters};
ghost use Rattle.meters.specs.Between.{ShowsMeters};

use crate::ends::Meters;
use crate::rule::{MeterRule, Shape, View};
use atomic_table::{Shared, TableRule};

/// A state of which the rule holds has lawful meters of the core, shown by the words and by the lists of the ends.
///
/// Every atomic step of this crate keeps the rule, so it holds between any two steps, whoever makes them. And wherever
/// the steps lead, the clock never goes down.
pub fn between_steps()
    ensures shown { (key : Shape) (state : State Unit SeatView)
        → ⟦<MeterRule as TableRule<(), View, Shape>>⟧.holds key state → ShowsMeters key state }
    ensures clock { (m n : AbsState Reading) → Reaches of_meters m n → m.object.clock ≤ n.object.clock }
{}

impl Meters {
    /// The table of the meters. By its type it is under the rule of `between_steps`.
    pub fn table(&self) -> &Shared<(), View, Shape, MeterRule>
        ensures { result.now ≡ self.now.table.shared }
    {
        &self.table.shared
    }
}
