//! The objects that the processors share.
ghost use Rattle.turn_io.specs.EndLists.{AreChainsOver};
ghost use Rattle.processor.specs.Fitting.{HasObjects};

use boot_data::BootPlan;
use meters::Meters;
use proc_chain::ProcChain;
use quajects::{AnyQuaject, Queues};
use thread_table::ThreadTable;

/// The objects that the processors of a kernel share: its queues, its chains, its thread elements, its meters and its
/// plan.
///
/// The small queues are the plan's queues and pipes, in their order, and then each tty's raw queue; the large ones are
/// each tty's line queue and screen queue. The chains are one for each pump and switch of the plan, in their order, and
/// then one for each tty. The quajects of all chains work on these queues.
#[derive(Drop)]
pub struct Shared {
    pub queues: Queues,
    pub chains: Vec<ProcChain<AnyQuaject>>,
    pub threads: ThreadTable,
    pub meters: Meters,
    pub plan: BootPlan,
    ghost world: { AreChainsOver queues chains.items },
    ghost objects: { HasObjects plan queues chains.items },
}
