//! The properties that hold between any two steps of any threads.

ghost use Rattle.std.specs.Prelude.{◌≡◌};
ghost use Rattle.atomic_table.specs.Table.{State};
ghost use Rattle.thread_table.specs.declared.rule.Shape.{Shape};
ghost use Rattle.thread_table.specs.Own.{View};
ghost use Rattle.thread_table.specs.Between.{ShowsElements};

use crate::hand::ThreadTable;
use crate::rule::{Shape, ThreadRule, View};
use atomic_table::{Shared, TableRule};

/// A state of which the rule holds is a lawful state of the core, to which a schedule of its events led: the words show
/// its elements, each element is in exactly one place, and each hand has what its call has.
///
/// Every atomic step of this crate keeps the rule, so it holds between any two steps, whoever makes them.
pub fn between_steps()
    ensures { (key : Shape) (state : State Unit View)
        → ⟦<ThreadRule as TableRule<(), View, Shape>>⟧.holds key state → ShowsElements key state }
{}

impl ThreadTable {
    /// The table of the elements. By its type it is under the rule of `between_steps`.
    pub fn table(&self) -> &Shared<(), View, Shape, ThreadRule>
        ensures { result.now ≡ self.now.table.shared }
    {
        &self.table.shared
    }
}
