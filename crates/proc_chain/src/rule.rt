//! The rule of the table. Its types are for the proofs alone: no program except the chain makes a value of them.
use crate::quaject::Quaject;
use atomic_table::TableRule;
use std::collections::LinkedList;
use std::snapshot::Snapshot;
use table_theory::queues::{Batch, Positions};
use table_theory::views::EndState;

/// The pact of the quaject of a chain: the world that it fits, and the quaject that was given to `new`.
#[derive(Drop)]
pub struct Pact<W, Q> {
    pub world: Snapshot<W>,
    pub opening: Snapshot<Q>,
}

/// The parameters of the rule, given when the table is made.
#[derive(Drop)]
pub struct Shape<P> {
    pub first: u64,
    pub pact: P,
}

/// The queue of notes and the gate word at one moment. Only proofs use it.
pub struct GatedQueue {
    pub queue: Positions,
    pub gate: u64,
}

/// The record of what an end did: its runs and takings in the queue of notes, and its turn. Only proofs use it.
pub struct ChainOps {
    pub runs: LinkedList<Batch>,
    pub takes: LinkedList<Batch>,
    /// It has the turn to run notes.
    pub runner: bool,
    /// If the end is the runner: how many notes were taken up to now.
    pub taken: u64,
    /// It raised a note and has not yet notified.
    pub owes: bool,
    /// As the runner it saw, since its last round, that the first note left was not raised.
    pub saw: bool,
    /// The end took in an end that had the turn while it had the turn itself: the rule says that no end ever did.
    pub doubled: bool,
}

/// The view of an end: what it did, its steps, and all ends' steps up to its own last step.
pub type View = EndState<ChainOps, GatedQueue>;

pub struct ChainRule;

impl<Q: Quaject> TableRule<Q, View, Shape<Pact<Q::World, Q>>> for ChainRule {
    ghost use Rattle.proc_chain.specs.Rules.{Rule, newcomer, suits, makes};

    ghost holds = { Rule (makes Q.made_by) (suits Q.fits) };

    ghost first = { newcomer };
}
