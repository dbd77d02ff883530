//! The queues of a plan.
ghost use Rattle.std.specs.Prelude.{IfOk};
ghost use Rattle.boot_objects.specs.Makings.{NewQueues};

use boot_data::BootPlan;
use claim_queue::QueueEnd;
use event_theory::OutOfMemory;
use quajects::Queues;
use std::alloc::Global;

/// The queues that a plan asks for, and the only end of each.
pub(crate) type NewQueues = (Queues, Vec<QueueEnd<64>>, Vec<QueueEnd<256>>);

/// The queues that the plan asks for, each empty at 0, and the only end of each. The small ones are its queues and
/// pipes, in their order, and then each tty's raw queue. The large ones are each tty's line queue and screen queue.
/// `OutOfMemory` is returned only if an allocation was refused.
pub(crate) fn make_queues(alloc: Global, plan: &BootPlan) -> Result<NewQueues, OutOfMemory>
    ensures { IfOk result (λ r. NewQueues plan.now r.0 r.1.items r.2.items) }
{
    let ttys = plan.ttys.as_slice().len();
    Queues::new(alloc, plan.queues.as_slice().len() + ttys, ttys * 2)
}
