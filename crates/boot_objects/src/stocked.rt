//! The queues, chains and devices of a plan.
ghost use Rattle.std.specs.Prelude.{IfOk};
ghost use Rattle.boot_objects.specs.Objects.{AreStocked};

use crate::chains::{Chain, End, make_chains};
use crate::device::{Device, make_devices};
use crate::quaject_list::make_quajects;
use crate::queue_list::make_queues;
use boot_data::BootPlan;
use claim_queue::QueueEnd;
use event_theory::OutOfMemory;
use quajects::Queues;
use std::alloc::Global;

/// The queues, chains and devices of a plan, and an end of each queue and chain.
#[derive(Drop)]
pub struct Stocked {
    pub queues: Queues,
    pub small: Vec<QueueEnd<64>>,
    pub large: Vec<QueueEnd<256>>,
    pub chains: Vec<Chain>,
    pub ends: Vec<End>,
    pub devices: Vec<Device>,
}

/// The plan's queues, a chain for each of its quajects, a device for each of its ttys, and an end of each queue and
/// chain. `OutOfMemory` is returned only if an allocation was refused.
pub fn make_stocked(alloc: Global, plan: &BootPlan) -> Result<Stocked, OutOfMemory>
    ensures { IfOk result (λ s. AreStocked plan.now s.queues s.small.items s.large.items s.chains.items s.ends.items
        s.devices.items) }
{
    let (queues, mut small, mut large) = make_queues(alloc, plan)?;
    let quajects = make_quajects(alloc, &queues, &mut small, &mut large, plan)?;
    let (chains, mut ends) = make_chains(alloc, &queues, quajects)?;
    let list = chains.as_slice();
    let devices = make_devices(alloc, &queues, list, &mut small, &mut ends, plan)?;
    Ok(Stocked {
        queues,
        small,
        large,
        chains,
        ends,
        devices,
    })
}
