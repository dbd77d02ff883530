//! The rule of the table. Its types are for the proofs alone: no program except the queue makes a value of them.
use atomic_table::TableRule;
use std::collections::LinkedList;
use std::marker::PhantomData;
use table_theory::protocol::Protocol;
use table_theory::queues::{Batch, Positions};
use table_theory::views::EndState;

/// The parameters of the rule, given when the table is made.
#[derive(Drop)]
pub struct Shape {
    pub first: u64,
    pub room: u64,
}

/// The record of what an end did: its runs, each as far as it was raised, its takings, and how often it shut the queue
/// when the queue was open. Only proofs use it.
pub struct QueueOps {
    pub runs: LinkedList<Batch>,
    pub takes: LinkedList<Batch>,
    pub shuts: u64,
}

/// The view of an end: what it did, its steps, and all ends' steps up to its own last step.
pub type View = EndState<QueueOps, Positions>;

/// The rule of a queue under the client's protocol C.
pub struct ClaimRule<C> {
    client: PhantomData<C>,
}

impl<C: Protocol> TableRule<(), View, Shape> for ClaimRule<C> {
    ghost use Rattle.claim_queue.specs.Rules.{RuleWith, newcomer};

    ghost holds = { RuleWith C.allows };

    ghost first = { newcomer };
}
