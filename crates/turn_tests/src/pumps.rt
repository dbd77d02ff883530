//! A pump over two queues.
ghost use Rattle.std.specs.Prelude.{◌≡◌, length};
ghost use Rattle.claim_queue.specs.Handles.{IsEndOf as IsQueueEndOf, view_of};
ghost use Rattle.claim_queue.specs.Rules.{newcomer};
ghost use Rattle.turn_io.specs.EndLists.{AreEndsOf, IsIdle};
ghost use Rattle.proc_chain.specs.Handles.{IsEndOf, IsOnlyEnd, world_of};

use claim_queue::{ClaimQueue, QueueEnd};
use proc_chain::{ChainEnd, ProcChain};
use quajects::{AnyQuaject, Pump, Queues};
use std::alloc::Global;
use std::panic::Expect;
use std::process::Abort;

/// A pump from the first of two small queues to the second, in its chain, with an end of each queue and the chain's
/// only end.
#[derive(Drop)]
pub(crate) struct Pumped {
    pub(crate) queues: Queues,
    pub(crate) small: Vec<QueueEnd<64>>,
    pub(crate) chain: ProcChain<AnyQuaject>,
    pub(crate) end: ChainEnd<AnyQuaject>,
    ghost fit: { AreEndsOf queues.small.items small.items },
    ghost two: { (length queues.small.items ≡ 2) × (length queues.large.items ≡ 0) },
    ghost over: { world_of chain ≡ queues },
    ghost only: { IsOnlyEnd end },
}

/// A small queue at 0, and its only end.
fn new_queue<R: Abort>(rt: &R, alloc: Global) -> (ClaimQueue<64>, QueueEnd<64>)
    ensures end { IsQueueEndOf result.0 result.1 }
    ensures view { view_of result.1 ≡ newcomer (record { first = 0; room = 64 }) }
{
    ClaimQueue::new(alloc, 0).expect(rt, "memory")
}

/// The chain begins at this position.
#[tactic(auto, using(quajects::proofs::Making::made_of_itself))]
pub(crate) fn make_pump<R: Abort>(rt: &R, alloc: Global, at: u32) -> Pumped
    ensures { IsEndOf result.chain result.end × IsIdle result.end }
{
    let (first, mut source) = new_queue(rt, alloc);
    let a = first.split(&mut source);
    let (second, mut target) = new_queue(rt, alloc);
    let b = second.split(&mut target);
    let Ok(small) = vec![in alloc; first, second] else {
        panic!(rt; "memory")
    };
    let queues = Queues {
        small,
        large: Vec::new(alloc),
    };
    let Ok(small) = vec![in alloc; a, b] else {
        panic!(rt; "memory")
    };
    let pump = AnyQuaject::Pump(Pump::new(0, source, 1, target));
    let Ok((chain, end)) = ProcChain::new(alloc, at, pump, &queues) else {
        panic!(rt; "memory")
    };
    Pumped {
        queues,
        small,
        chain,
        end,
    }
}
