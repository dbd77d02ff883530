//! The facts that a plan guarantees to its processors: room for each line that is heard, and objects for each step. The
//! turns of a processor come to what their log says, and the work of the processors adds up.
ghost use Rattle.std.specs.Prelude.{◌≡◌, ◌≤◌, ℕ, List, length, Some};
ghost use Rattle.boot_data.specs.Hearing.{Key};
ghost use Rattle.boot_data.specs.declared.boot_plan.BootPlan.{BootPlan};
ghost use Rattle.boot_data.specs.declared.plan.Step.{Step};
ghost use Rattle.turn_io.specs.Accounts.{AddsUp};
ghost use Rattle.processor.specs.declared.shared.Shared.{Shared};
ghost use Rattle.processor.specs.declared.station.Parts.{Parts};
ghost use Rattle.processor.specs.Accounts.{◌⊕◌, nothing};
ghost use Rattle.processor.specs.Logs.{RanTurns};
ghost use Rattle.processor.specs.Manning.{IsRunnable, KeepsStation};
ghost use Rattle.processor.specs.Orders.{RanTurnsInOrder};
ghost use Rattle.processor.specs.Points.{calls};
ghost use Rattle.processor.specs.Programs.{AreHears, hear_count, program, step_of};
ghost use Rattle.processor.specs.Sights.{views};
ghost use Rattle.processor.specs.Steps.{Fits};

use crate::watch::Watch;
use turn_io::QueueGate;

/// A list of steps of a plan that hear, none of them twice, is no longer than the number of such steps in the plan.
pub fn hears_are_few()
    ensures { (plan : BootPlan) (keys : List Key) → AreHears plan keys → length keys ≤ hear_count plan }
{}

/// The queue or chain that a step of the plan names is among the shared objects, and a program has at most 64 steps.
pub fn steps_fit()
    ensures there { (shared : Shared) (thread number : ℕ) (step : Step)
        → step_of shared.plan thread number ≡ Some step → Fits shared.queues (length shared.chains.items) step }
    ensures few { (plan : BootPlan) (thread : ℕ) → length (program plan thread) ≤ 64 }
{}

/// The turns of a processor that `run` had come to the sum of their log: each turn follows the plan, and the ends did
/// what the log says. If the log has an answer that a queue is shut, the queue's end knows that. On a fresh station they
/// leave what the log says.
pub fn turns_add_up<G: Watch>()
    ensures { (shared : Shared) (p turns : ℕ) (gate gate' : G) (old new : Parts) → IsRunnable shared p old
        → KeepsStation shared p old new
        → (turned : RanTurnsInOrder
        (views G.shown ⟦<G as QueueGate<64>>⟧.at_end ⟦<G as QueueGate<256>>⟧.at_end G.at_chain_end)
        (calls G.observes G.learns) shared p turns gate gate' old new)
        → (ran : RanTurns (calls G.observes G.learns) shared p turns gate gate' old new) × (ran.log ≡ turned.log) }
{}

/// Work adds up.
pub fn accounts_add()
    ensures { AddsUp nothing (λ a b. a ⊕ b) }
{}
