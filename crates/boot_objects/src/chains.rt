//! The chains of a plan's quajects.
ghost use Rattle.std.specs.Prelude.{IfOk};
ghost use Rattle.std.specs.List.{All};
ghost use Rattle.boot_objects.specs.Makings.{MadeChain, MadeChains};
ghost use Rattle.boot_objects.specs.Planned.{IsReady};

use event_theory::OutOfMemory;
use proc_chain::{ChainEnd, ProcChain};
use quajects::{AnyQuaject, Queues};
use std::alloc::Global;

pub type Chain = ProcChain<AnyQuaject>;

pub type End = ChainEnd<AnyQuaject>;

// A chain with this quaject, and the only end of the chain.
fn make_chain(
    alloc: Global,
    queues: &Queues,
    quaject: AnyQuaject,
) -> Result<(Chain, End), OutOfMemory>
    requires { IsReady queues.now quaject }
    ensures { IfOk result (λ r. MadeChain queues.now quaject r.0 r.1) }
{
    match Chain::new(alloc, 0, quaject, queues) {
        Ok(made) => Ok(made),
        Err(_) => Err(OutOfMemory),
    }
}

/// A chain for each of these quajects, in their order, and the only end of each chain. `OutOfMemory` is returned only
/// if an allocation was refused.
///
/// Condition: the quajects work on these queues, and have done nothing.
pub(crate) fn make_chains(
    alloc: Global,
    queues: &Queues,
    quajects: Vec<AnyQuaject>,
) -> Result<(Vec<Chain>, Vec<End>), OutOfMemory>
    requires { All (IsReady queues.now) quajects.items }
    ensures { IfOk result (λ r. MadeChains queues.now quajects.items r.0.items r.1.items) }
{
    let many = quajects.len();
    let mut chains = Vec::with_capacity(alloc, many)?;
    let mut ends = Vec::with_capacity(alloc, many)?;
    for quaject in quajects {
        let (chain, end) = make_chain(alloc, queues, quaject)?;
        chains.push_reserved(chain);
        ends.push_reserved(end);
    }
    Ok((chains, ends))
}
