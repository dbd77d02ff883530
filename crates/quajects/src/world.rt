//! The queues that quajects and threads share.
ghost use Rattle.std.specs.Prelude.{◌≡◌, ◌≤◌, IfOk};
ghost use Rattle.quajects.specs.Worlds.{AreFresh};

use claim_queue::{ClaimQueue, QueueEnd};
use event_theory::OutOfMemory;
use std::alloc::Global;

/// The queues on which the quajects work, and which they do not own: the small queues, and the large ones, which are
/// the line and screen queues of ttys. A queue is named by its index in one of the two lists.
#[derive(Drop)]
pub struct Queues {
    pub small: Vec<ClaimQueue<64>>,
    pub large: Vec<ClaimQueue<256>>,
}

/// A small queue with two wait queues of the thread table: `readers`, for those that find nothing to take, and
/// `writers`, for those that find no room.
#[derive(Clone, Copy, Debug, PartialEq, Eq, Drop)]
pub struct Pipe {
    pub index: usize,
    pub readers: u8,
    pub writers: u8,
}

type MadeQueues<const N: usize> = (Vec<ClaimQueue<N>>, Vec<QueueEnd<N>>);

// This many empty queues at 0, each with its only end.
fn queues_of<const N: usize>(alloc: Global, count: usize) -> Result<MadeQueues<N>, OutOfMemory>
    requires { (1 ≤ N) × (N ≤ 256) }
    ensures { IfOk result (λ r. AreFresh count r.0.items r.1.items) }
{
    let mut queues = Vec::new(alloc);
    let mut ends = Vec::new(alloc);
    for i in 0..count {
        let (queue, end) = ClaimQueue::new(alloc, 0)?;
        queues.push(queue)?;
        ends.push(end)?;
    }
    Ok((queues, ends))
}

impl Queues {
    /// This many empty queues of 64 places and of 256 places, each with 0 as its first position. Also the only end of
    /// each, in the order of the queues. `OutOfMemory` is returned only if an allocation was refused.
    pub fn new(
        alloc: Global,
        small: usize,
        large: usize,
    ) -> Result<(Queues, Vec<QueueEnd<64>>, Vec<QueueEnd<256>>), OutOfMemory>
        ensures { IfOk result (λ r. AreFresh small r.0.small.items r.1.items × AreFresh large r.0.large.items
            r.2.items) }
    {
        let (small, small_ends) = queues_of::<64>(alloc, small)?;
        let (large, large_ends) = queues_of::<256>(alloc, large)?;
        Ok((Queues { small, large }, small_ends, large_ends))
    }
}
