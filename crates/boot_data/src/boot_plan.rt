//! The plan that is read from a boot script.

ghost use Rattle.boot_data.specs.PlanLimits.{IsPlan};

use crate::fixed::Name;
use crate::plan::{PlannedMover, PlannedQueue, PlannedThread, PlannedTty};
use event_theory::{Alarm, Items};

/// The content of a boot script, each list in the order of the script.
///
/// There are at most 8 queues and pipes, 2 ttys, 4 pumps and switches, 8 gauges, 16 alarms and 64 threads. A program
/// has at most 64 steps. Whatever is named by its number exists.
#[derive(Debug, Drop)]
pub struct BootPlan {
    pub queues: Items<PlannedQueue>,
    pub ttys: Items<PlannedTty>,
    pub movers: Items<PlannedMover>,
    pub gauges: Items<Name>,
    pub alarms: Items<Alarm>,
    pub threads: Items<PlannedThread>,
    ghost within: { ∥ IsPlan (record {
      queues = queues;
      ttys = ttys;
      movers = movers;
      gauges = gauges;
      alarms = alarms;
      threads = threads;
    }) ∥₁ },
}
