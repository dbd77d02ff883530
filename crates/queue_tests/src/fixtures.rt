//! Queues with their ends, notes that are chained until there is room for them, and the words of a refusal.
ghost use Rattle.std.specs.Prelude.{◌≡◌, ◌≤◌, false, true};
ghost use Rattle.claim_queue.specs.Handles as queues;
ghost use Rattle.proc_chain.specs.Handles.{turn_of, world_of, IsEndOf};
ghost use Rattle.quajects.specs.Ports.{IsUnused};

use claim_queue::{ClaimQueue, Closed, QueueEnd};
use proc_chain::{ChainClosed, ChainEnd, ChainRefusal, Chained, ProcChain, Quaject, Turn};
use std::alloc::Global;
use std::fmt::Display;
use std::panic::Expect;
use std::process::Abort;
use std::sync::Wait;
use std::thread;

/// Two ends of a queue.
#[derive(Drop)]
pub(crate) struct Two<const N: usize> {
    pub(crate) mine: QueueEnd<N>,
    pub(crate) other: QueueEnd<N>,
    ghost mine_unused: { IsUnused (queues.view_of mine) },
    ghost other_unused: { IsUnused (queues.view_of other) },
}

/// A new queue with this first position, and two ends of it.
pub(crate) fn queue_with_two<R: Abort, const N: usize>(
    rt: &R,
    alloc: Global,
    first: u32,
) -> (ClaimQueue<N>, Two<N>)
    requires { (1 ≤ N) × (N ≤ 256) }
    ensures { queues.IsEndOf result.0 result.1.mine × queues.IsEndOf result.0 result.1.other }
{
    let (queue, mut mine) = ClaimQueue::new(alloc, first).expect(rt, "memory");
    let other = queue.split(&mut mine);
    (queue, Two { mine, other })
}

/// The queue is closed with its only end.
pub(crate) fn close_queue<R: Abort, const N: usize>(
    rt: &R,
    queue: ClaimQueue<N>,
    end: QueueEnd<N>,
) -> Closed<N>
    requires { queues.IsEndOf queue end }
{
    match queue.close(end) {
        Ok(closed) => closed,
        Err(_) => panic!(rt; "close"),
    }
}

/// The chain is closed with its only end, which has no Turn.
pub(crate) fn close_chain<R: Abort, Q: Quaject + Drop>(
    rt: &R,
    chain: ProcChain<Q>,
    end: ChainEnd<Q>,
) -> ChainClosed<Q>
    requires { IsEndOf chain end × (turn_of end ≡ false) }
{
    match chain.close(end) {
        Ok(closed) => closed,
        Err(_) => panic!(rt; "close"),
    }
}

/// Chains the note at an end that gets the Turn for it.
pub(crate) fn turn_for<R: Abort, Q: Quaject>(
    rt: &R,
    chain: &ProcChain<Q>,
    end: &mut ChainEnd<Q>,
    note: u16,
) -> Turn
    requires { IsEndOf chain.now end.old }
    ensures { IsEndOf chain.now end.new × (turn_of end.new ≡ true) }
{
    match chain.try_chain(end, note) {
        Ok(Chained::Run(turn)) => turn,
        Ok(Chained::Left) => panic!(rt; "left"),
        Err(_) => panic!(rt; "refused"),
    }
}

/// Chains the note, retries after Lost and Full, and serves if it got a Turn.
pub(crate) fn chain_one<R: Wait, Q: Quaject>(
    rt: &R,
    chain: &ProcChain<Q>,
    end: &mut ChainEnd<Q>,
    world: &Q::World,
    note: u16,
)
    requires { IsEndOf chain.now end.old × (turn_of end.old ≡ false) × (world_of chain.now ≡ world.now) }
    ensures { IsEndOf chain.now end.new × (turn_of end.new ≡ false) }
{
    for _ in rt.forever() {
        match chain.try_chain(end, note) {
            Ok(Chained::Run(turn)) => {
                let _ran = chain.serve_all(rt, end, world, turn);
                return;
            }
            Ok(Chained::Left) => return,
            Err(ChainRefusal::Spent) => return,
            Err(_) => thread::yield_now(),
        }
    }
}

/// Whether a refusal is reported in these words.
pub(crate) fn is_reported<T: Copy + Display>(alloc: Global, refusal: T, words: &str) -> bool {
    format!(in alloc; "{refusal}").is_ok_and(|text| text.as_str() == words)
}
