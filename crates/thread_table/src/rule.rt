//! The rule of the table. Its types are for the proofs alone: only the table itself makes values of them.
use atomic_table::TableRule;
use event_theory::Event;
use std::collections::LinkedList;
use table_theory::views::EndState;

/// The parameter of the rule, set when the table is made: the first position of each element queue.
#[derive(Drop)]
pub struct Shape {
    pub first: u64,
}

/// A run of an element queue that is claimed and not yet raised.
pub struct Claimed {
    pub ring: u64,
    pub run: u64,
    pub element: u64,
}

/// How many steps an element had done.
pub struct Counted {
    pub element: u64,
    pub done: u64,
}

/// An event that a hand made, the number of the step that it counted (how many its element had done before), and the
/// signals that it delivered.
pub struct MadeEvent {
    pub event: Event,
    pub number: u64,
    pub signals: LinkedList<u64>,
}

/// A hand's own: the first position of each element queue; the elements that it holds; the processors that it serves
/// and the elements on them; the run that it has claimed and not raised; the number of steps that it has just found;
/// the events that it made; whether it has made a step since it took in a hand; whether it shared an element or a
/// processor with a hand that it took in. Only proofs speak of it.
pub struct HandState {
    pub first: u64,
    pub held: LinkedList<bool>,
    pub serves: LinkedList<bool>,
    pub on: LinkedList<Option<u64>>,
    pub claimed: Option<Claimed>,
    pub counted: Option<Counted>,
    pub made: LinkedList<MadeEvent>,
    pub fresh: bool,
    pub doubled: bool,
}

/// A hand's knowledge: what it has, its steps, and all hands' steps up to its own last one, with every join. The object
/// is the schedule: the events of all hands.
pub type View = EndState<HandState, LinkedList<Event>>;

pub struct ThreadRule;

impl TableRule<(), View, Shape> for ThreadRule {
    ghost use Rattle.thread_table.specs.Rules.{Rule, newcomer};

    ghost holds = { Rule };

    ghost first = { newcomer };
}
