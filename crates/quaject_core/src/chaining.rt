//! A chain as the machine stores it.

ghost use Rattle.std.specs.Prelude.{◌≡◌, nat_lt};
ghost use Rattle.std.specs.List.{list_any};
ghost use Rattle.quaject_core.specs.Layout.{set_of};
ghost use Rattle.event_theory.specs.Chains.{join_set};

use crate::queueing::{StoredQueue, renamed};
use event_theory::{Call, ChainStatus, Gate, Refusal};
use std::alloc::Global;

/// The notes, the call that runs them, and for each call whether it owes a notify.
#[derive(Drop)]
pub(crate) struct StoredChain {
    notes: StoredQueue,
    gate: Gate,
    runner: Option<Call>,
    owing: [bool; 64],
}

impl StoredChain {
    ghost use Rattle.event_theory.specs.Chains.{empty_chain, is_call, claim_note, raise_note, take_note, notify, round};
    ghost use Rattle.event_theory.specs.Chains.{is_forgotten, leave, join_chain};
    ghost use Rattle.event_theory.specs.Statuses.{chain_status};
    ghost use Rattle.quaject_core.specs.ShownChains.{chain, Does};
    ghost use Rattle.event_theory.specs.Results.{IsNotMemory};

    /// A chain with no note, that nobody runs. Takes no memory.
    pub(crate) fn new(alloc: Global) -> StoredChain
        ensures { chain result ≡ empty_chain }
    {
        StoredChain {
            notes: StoredQueue::new(alloc, 32),
            gate: Gate::Idle,
            runner: None,
            owing: [false; 64],
        }
    }

    /// Appends a run of one note.
    pub(crate) fn claim(&mut self, call: Call, items: &[u64]) -> Result<(), Refusal>
        ensures { Does result (claim_note call items.now) self.old self.new }
    {
        if any_is_large(items) {
            return Err(Refusal::UnknownName);
        }
        self.notes.claim(1, call, items)
    }

    /// Raises a note. The call then owes a notify.
    pub(crate) fn raise(&mut self, call: Call, run: u32, index: u32) -> Result<(), Refusal>
        ensures { Does result (raise_note call run index) self.old self.new }
    {
        self.notes.raise(call, run, index)?;
        self.owing[usize::from(call.number())] = true;
        Ok(())
    }

    /// Whether the call runs the notes.
    fn is_runner(&self, call: Call) -> bool
        ensures { result ≡ is_call call self.now.runner }
    {
        match self.runner {
            Some(runner) => runner == call,
            None => false,
        }
    }

    /// Takes the first note that is left.
    pub(crate) fn take(&mut self, call: Call, count: u32) -> Result<(), Refusal>
        ensures { Does result (take_note call count) self.old self.new }
    {
        if self.is_runner(call) {
            return self.notes.take(1, count);
        }
        self.notes.check_take(1, count)?;
        Err(Refusal::NotRunner)
    }

    /// Whether the call owes a notify.
    fn owes(&self, call: Call) -> bool
        ensures { result ≡ set_of self.now.owing call }
    {
        self.owing[usize::from(call.number())]
    }

    /// Notifies the runner to look again. If nobody runs the notes, the call becomes the runner.
    pub(crate) fn notify(&mut self, call: Call) -> Result<(), Refusal>
        ensures change { Does result (notify call) self.old self.new }
        ensures memory { IsNotMemory result }
    {
        if !self.owes(call) {
            return Err(Refusal::NotOwner);
        }
        if self.gate == Gate::Idle {
            self.runner = Some(call);
        }
        self.gate = Gate::More;
        self.owing[usize::from(call.number())] = false;
        Ok(())
    }

    /// The runner observes the notifies so far.
    pub(crate) fn round(&mut self, call: Call) -> Result<(), Refusal>
        ensures change { Does result (round call) self.old self.new }
        ensures memory { IsNotMemory result }
    {
        if !self.is_runner(call) {
            return Err(Refusal::NotRunner);
        }
        self.gate = Gate::Running;
        Ok(())
    }

    /// Whether the first note that is left is raised and its call owes no notify.
    fn is_forgotten(&self) -> bool
        ensures { result ≡ is_forgotten (chain self.now) }
    {
        let Some(call) = self.notes.first_call() else {
            return false;
        };
        self.notes.first_are_raised(1) && !self.owes(call)
    }

    /// The runner leaves, if it has observed all notifies and no note is forgotten.
    pub(crate) fn leave(&mut self, call: Call) -> Result<(), Refusal>
        ensures change { Does result (leave call) self.old self.new }
        ensures memory { IsNotMemory result }
    {
        if self.gate == Gate::More || self.is_forgotten() {
            return Err(Refusal::GateBusy);
        }
        if !self.is_runner(call) {
            return Err(Refusal::NotRunner);
        }
        self.gate = Gate::Idle;
        self.runner = None;
        Ok(())
    }

    /// Gives the call everything that the other call claimed, runs and owes.
    pub(crate) fn join(&mut self, call: Call, other: Call)
        ensures { chain self.new ≡ join_chain call other (chain self.old) }
    {
        self.notes.join(call, other);
        self.runner = self.runner.map(|runner| renamed(call, other, runner));
        join_marks(&mut self.owing, call, other);
    }

    /// The chain's numbers.
    pub(crate) fn status(&self) -> ChainStatus
        ensures { result ≡ chain_status (chain self.now) }
    {
        let notes = self.notes.status();
        ChainStatus {
            put: notes.put,
            taken: notes.taken,
            left: notes.left,
            gate: self.gate,
        }
    }
}

/// Whether one of the items is no number of 16 bits.
fn any_is_large(items: &[u64]) -> bool
    ensures { result ≡ list_any (nat_lt 65535) items.now }
{
    items.iter().any(|item| *item > u64::from(u16::MAX))
}

/// Gives the call the mark of the other call.
fn join_marks(marks: &mut [bool; 64], call: Call, other: Call)
    ensures { set_of marks.new ≡ join_set call other (set_of marks.old) }
{
    let joined = marks[usize::from(call.number())] || marks[usize::from(other.number())];
    marks[usize::from(call.number())] = joined;
    marks[usize::from(other.number())] = false;
}
