//! The core.

ghost use Rattle.event_theory.specs.Lawful.{IsLawful};
ghost use Rattle.quaject_core.specs.Histories.{HasHistory};
ghost use Rattle.quaject_core.specs.ShownStates.{stored_state};

use crate::store::Store;
use event_theory::{Event, OutOfMemory, Refusal, Status};
use std::alloc::Global;

/// The plain machine: the queues, chains, thread elements and meters of a kernel, changed by one atomic event at a
/// time.
///
/// Whatever was done to a core, its state is lawful. Events led to the state from a first state, each allowed in its
/// turn. The state agrees with them: each signal became pending as often as it was delivered, and once more if it is
/// pending. Steps done and alarms are those of the events.
#[derive(Drop)]
pub struct Core {
    store: Store,
    ghost lawful: { IsLawful (stored_state store) },
    ghost history: { ∥ HasHistory (stored_state store) ∥₁ },
}

impl Core {
    ghost use Rattle.std.specs.Prelude.{◌≡◌, ℕ, ◌≤◌, false, IfOk};
    ghost use Rattle.event_theory.specs.States.{first_state, step, may_grow};
    ghost use Rattle.event_theory.specs.Results.{Changes, IsNotMemory};
    ghost use Rattle.event_theory.specs.Schedules.{AppliesAll, HadToGrow};
    ghost use Rattle.event_theory.specs.Statuses.{status_of};
    ghost use Rattle.quaject_core.specs.ShownCores.{state};

    /// A core with no queues and no chains, and with sixteen thread elements, all of them free.
    pub fn new(alloc: Global) -> Result<Core, OutOfMemory>
        ensures result { IfOk result (λ core. state core ≡ first_state 16) }
        ensures lawful { IfOk result (λ core. IsLawful (state core)) }
        ensures accounted { IfOk result (λ core. ∥ HasHistory (state core) ∥₁) }
    {
        Core::with_elements(alloc, 16)
    }

    /// A core with no queues and no chains, and with `elements` thread elements, 1 to 64, all of them free.
    pub fn with_elements(alloc: Global, elements: u8) -> Result<Core, OutOfMemory>
        requires some { 1 ≤ elements }
        requires within { elements ≤ 64 }
        ensures result { IfOk result (λ core. state core ≡ first_state elements) }
        ensures lawful { IfOk result (λ core. IsLawful (state core)) }
        ensures accounted { IfOk result (λ core. ∥ HasHistory (state core) ∥₁) }
    {
        Ok(Core {
            store: Store::new(alloc, elements)?,
        })
    }

    /// Applies one event. A refused event changes nothing.
    pub fn apply(&mut self, event: &Event) -> Result<(), Refusal>
        ensures result { Changes result (step event.now (state self.old)) (state self.old) (state self.new) }
        ensures memory { may_grow event.now ≡ false → IsNotMemory result }
        ensures lawful { IsLawful (state self.new) }
        ensures accounted { ∥ HasHistory (state self.new) ∥₁ }
    {
        self.store.apply(event)
    }

    /// Applies events in their order, up to the first that is refused, and returns the index and refusal of that event.
    pub fn run(&mut self, events: &[Event]) -> Result<(), (usize, Refusal)>
        ensures result { AppliesAll result events.now (state self.old) (state self.new) }
        ensures memory { HadToGrow result events.now }
        ensures lawful { IsLawful (state self.new) }
        ensures accounted { ∥ HasHistory (state self.new) ∥₁ }
    {
        for (index, event) in events.iter().enumerate() {
            if let Err(refusal) = self.apply(event) {
                return Err((index, refusal));
            }
        }
        Ok(())
    }

    /// The numbers of the state.
    pub fn status(&self) -> Result<Status, OutOfMemory>
        ensures { IfOk result (λ status. status ≡ status_of (state self.now)) }
    {
        self.store.status()
    }
}
