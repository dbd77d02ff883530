//! The rule of the table. Its types are for the proofs alone: no program except the queue makes a value of them.
use atomic_table::TableRule;
use std::collections::LinkedList;
use std::marker::PhantomData;
use table_theory::protocol::Protocol;
use table_theory::queues::Batch;
use table_theory::views::EndState;

/// The parameters of the rule, given when the table is made.
#[derive(Drop)]
pub struct Shape {
    pub room: u64,
}

/// The positions whose slots an end holds, and their phase: 0 if it writes them, 2 if it reads them.
pub struct HeldSlots {
    pub phase: u64,
    pub start: u64,
    pub count: u64,
}

/// The record of what an end did: its runs, each claimed or published, its takings, how often it shut the queue when
/// the queue was open, how often it parted a batch, and which slots it holds. Only proofs use it.
pub struct EndRecord {
    pub runs: LinkedList<Batch>,
    pub takes: LinkedList<Batch>,
    pub shuts: u64,
    pub parts: u64,
    pub held: HeldSlots,
}

/// A queue: its batches in the order of their claims, its takings in their order, and the phase of each position. The
/// position of the next item that is taken, the first position of the window, and whether the queue is shut. The
/// positions at which batches were parted, so that a taking may end there, and the mark of each place. The phase of a
/// position is 0 from its claim on, 1 from its publication on, 2 from its taking on, and 3 after its place is given
/// back.
pub struct BatchState {
    pub room: u64,
    pub batches: LinkedList<LinkedList<u64>>,
    pub takings: LinkedList<LinkedList<u64>>,
    pub phases: LinkedList<u64>,
    pub taken: u64,
    pub freed: u64,
    pub shut: bool,
    pub parted: LinkedList<u64>,
    pub marks: LinkedList<u64>,
}

/// The view of an end: what it did, its steps, and all ends' steps up to its own last step.
pub type View = EndState<EndRecord, BatchState>;

/// The rule of a queue under the client's protocol C.
pub struct BatchRule<C> {
    client: PhantomData<C>,
}

impl<C: Protocol> TableRule<u64, View, Shape> for BatchRule<C> {
    ghost use Rattle.batch_queue.specs.Rules.{RuleWith, newcomer};

    ghost holds = { RuleWith C.allows };

    ghost first = { newcomer };
}
