//! The state between any two steps of any threads.

ghost use Rattle.std.specs.Prelude.{◌≡◌, ℕ};
ghost use mathlib.Core.Option.{some};
ghost use lib.ListN.{get_elem?};
ghost use Rattle.atomic_table.specs.Table.{State};
ghost use Rattle.claim_queue.specs.declared.rule.Shape.{Shape};
ghost use Rattle.claim_queue.specs.Own.{View};
ghost use Rattle.claim_queue.specs.Between.{ShowsQueue, ShowsEnds};
ghost use Rattle.claim_queue.specs.Rules.{KeepsTo};

use crate::ends::ClaimQueue;
use crate::rule::{ClaimRule, Shape, View};
use atomic_table::{Shared, TableRule};
use table_theory::protocol::Protocol;

/// A state for which the rule holds is a lawful queue of the core, shown by the words and by the lists of the ends.
///
/// Every atomic step of this crate keeps the rule, so the rule holds between any two steps of any ends.
pub fn between_steps<C: Protocol>()
    ensures { (key : Shape) (state : State Unit View)
        → ⟦<ClaimRule<C> as TableRule<(), View, Shape>>⟧.holds key state → ShowsQueue key state }
{}

/// In a state for which the rule holds, the ends word is the number of ends that exist. Their steps, all in one order,
/// lead from the empty queue to the queue that is shown.
pub fn ends_between_steps<C: Protocol>()
    ensures { (key : Shape) (state : State Unit View)
        → ⟦<ClaimRule<C> as TableRule<(), View, Shape>>⟧.holds key state → ShowsEnds key state }
{}

/// In a state for which the rule holds, the protocol allows what each end put and took.
pub fn protocol_between_steps<C: Protocol>()
    ensures { (key : Shape) (state : State Unit View)
        → ⟦<ClaimRule<C> as TableRule<(), View, Shape>>⟧.holds key state
        → (j : ℕ) (v : View) → get_elem? state.views j ≡ some v → KeepsTo C.allows v }
{}

impl<const N: usize, C: Protocol> ClaimQueue<N, C> {
    /// The table of the queue. By its type, the table has the rule of `between_steps`.
    pub fn table(&self) -> &Shared<(), View, Shape, ClaimRule<C>>
        ensures { result.now ≡ self.now.table.shared }
    {
        &self.table.shared
    }
}
