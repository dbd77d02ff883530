//! The quajects of a plan.
ghost use Rattle.std.specs.Prelude.{◌<◌, ◌+◌, length, IfOk};
ghost use Rattle.boot_objects.specs.Makings.{AreQueuesOf, MadeQuaject, MadeQuajects};
ghost use Rattle.boot_objects.specs.Planned.{IsPlannedAt};
ghost use Rattle.boot_objects.specs.Stocks.{CanGive, IsStock, shares};

use crate::movers::make_mover;
use crate::ttys::make_tty;
use boot_data::BootPlan;
use claim_queue::QueueEnd;
use event_theory::OutOfMemory;
use quajects::{AnyQuaject, Queues};
use std::alloc::Global;

// The quaject with this number: the pumps and switches of the plan come first, and then the cooked ttys.
fn make_quaject(
    queues: &Queues,
    small: &mut Vec<QueueEnd<64>>,
    large: &mut Vec<QueueEnd<256>>,
    plan: &BootPlan,
    number: usize,
) -> AnyQuaject
    requires number { number < length plan.now.movers + length plan.now.ttys }
    requires queues { AreQueuesOf plan.now queues.now }
    requires stock { IsStock queues.now.small.items small.old.items × IsStock queues.now.large.items large.old.items }
    requires parts { CanGive 6 (shares small.old.items) × CanGive 6 (shares large.old.items) }
    ensures { MadeQuaject queues.now (IsPlannedAt plan.now number) 6 6 small.old.items small.new.items large.old.items
        large.new.items result }
{
    let movers = plan.movers.as_slice();
    if number < movers.len() {
        make_mover(queues, small, &movers[number].mover)
    } else {
        let tty = number - movers.len();
        make_tty(
            queues,
            small,
            large,
            plan.queues.as_slice().len() + tty,
            tty,
        )
    }
}

/// The pumps and switches of the plan, in order, and then the cooked ttys, over ends split off the first ends of the
/// queues. `OutOfMemory` is returned only if an allocation was refused.
///
/// Conditions: the queues are those that the plan asks for, each with its end, and each end can be split 64 times.
pub(crate) fn make_quajects(
    alloc: Global,
    queues: &Queues,
    small: &mut Vec<QueueEnd<64>>,
    large: &mut Vec<QueueEnd<256>>,
    plan: &BootPlan,
) -> Result<Vec<AnyQuaject>, OutOfMemory>
    requires queues { AreQueuesOf plan.now queues.now }
    requires stock { IsStock queues.now.small.items small.old.items × IsStock queues.now.large.items large.old.items }
    requires parts { CanGive 64 (shares small.old.items) × CanGive 64 (shares large.old.items) }
    ensures { IfOk result (λ made. MadeQuajects queues.now plan.now (length plan.now.movers + length plan.now.ttys)
        small.old.items small.new.items large.old.items large.new.items made.items) }
{
    let many = plan.movers.as_slice().len() + plan.ttys.as_slice().len();
    let mut quajects = Vec::with_capacity(alloc, many)?;
    for number in 0..many {
        quajects.push_reserved(make_quaject(queues, small, large, plan, number));
    }
    Ok(quajects)
}
