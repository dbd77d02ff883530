//! The rule of the table. Its types are for the proofs alone: only the meters themselves make values of them.
use atomic_table::TableRule;
use event_theory::Alarm;
use std::collections::LinkedList;
use table_theory::views::EndState;

/// The parameter of the rule, set when the table is made: the clock then.
#[derive(Drop)]
pub struct Shape {
    pub clock: u64,
}

/// The amount that one tick added to one gauge.
pub struct Tick {
    pub gauge: u64,
    pub amount: u64,
}

/// The meters at one step: the gauges, the clock, the alarm or none in each slot, and all alarms that were set, fired
/// and cancelled up to then.
pub struct Reading {
    pub gauges: LinkedList<u64>,
    pub clock: u64,
    pub slots: LinkedList<Option<Alarm>>,
    pub set: LinkedList<Alarm>,
    pub fired: LinkedList<Alarm>,
    pub cancelled: LinkedList<Alarm>,
}

/// The record of an end: its ticks, the ticks that it moved the clock on to, and the alarms that it set, fired and
/// cancelled. Only proofs speak of it.
pub struct MeterOps {
    pub ticks: LinkedList<Tick>,
    pub advances: LinkedList<u64>,
    pub set: LinkedList<Alarm>,
    pub fired: LinkedList<Alarm>,
    pub cancelled: LinkedList<Alarm>,
}

/// The knowledge of an end: what it did, its steps, and all ends' steps up to its own last one.
pub type View = EndState<MeterOps, Reading>;

pub struct MeterRule;

impl TableRule<(), View, Shape> for MeterRule {
    ghost use Rattle.meters.specs.Rules.{Rule, newcomer};

    ghost holds = { Rule };

    ghost first = { newcomer };
}
