//! The state between any two steps of any threads.

ghost use Rattle.std.specs.Prelude.{◌≡◌};
ghost use Rattle.atomic_table.specs.Table.{State};
ghost use Rattle.proc_chain.specs.declared.rule.Pact.{Pact};
ghost use Rattle.proc_chain.specs.declared.rule.Shape.{Shape};
ghost use Rattle.proc_chain.specs.Own.{View};
ghost use Rattle.proc_chain.specs.Between.{ShowsChain, ShowsEnds};
ghost use Rattle.proc_chain.specs.Rules.{suits, makes};

use crate::ends::ProcChain;
use crate::quaject::Quaject;
use crate::rule::{ChainRule, Pact, Shape, View};
use atomic_table::{Shared, TableRule};

/// A state for which the rule holds is a lawful chain of the core, shown by the words and by the lists of the ends. If
/// its gate is Idle, the quaject is in the chain, made by the notes taken.
///
/// Every atomic step of this crate keeps the rule, so the rule holds between any two steps of any ends.
pub fn between_steps<Q: Quaject>()
    ensures { (key : Shape (Pact Q.World Q)) (state : State Q View)
        → ⟦<ChainRule as TableRule<Q, View, Shape<Pact<Q::World, Q>>>>⟧.holds key state
        → ShowsChain (makes Q.made_by) (suits Q.fits) key state }
{}

/// In a state for which the rule holds, the words show the queue and the gate of that chain. The steps of all ends,
/// each of them real, lead to this queue and gate.
pub fn ends_between_steps<Q: Quaject>()
    ensures { (key : Shape (Pact Q.World Q)) (state : State Q View)
        → ⟦<ChainRule as TableRule<Q, View, Shape<Pact<Q::World, Q>>>>⟧.holds key state
        → (shown : ShowsChain (makes Q.made_by) (suits Q.fits) key state) × ShowsEnds key state shown.now }
{}

impl<Q: Quaject> ProcChain<Q> {
    /// The table of the chain. By its type, the table has the rule of `between_steps`.
    pub fn table(&self) -> &Shared<Q, View, Shape<Pact<Q::World, Q>>, ChainRule>
        ensures { result.now ≡ self.now.table.shared }
    {
        &self.table.shared
    }
}
