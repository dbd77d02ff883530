//! A second list of queue ends, for another owner: split off, and joined again.
ghost use Rattle.std.specs.Prelude.{◌≡◌, ◌≤◌, [], length, vec_capacity, IfOk, IfErr};
ghost use Rattle.std.specs.List.{All};
ghost use Rattle.turn_io.specs.EndLists.{AreEndsOf, AreSameEnds, IsDivisible};
ghost use Rattle.turn_io.specs.QueueEnds.{AreQueueEndsOf, AreSameQueueEnds};
ghost use Rattle.stations.specs.Splits.{AreQueuesDivisible, AreQueuesSplit, AreQueuesJoined, HaveRoomFor};
ghost use Rattle.stations.specs.Splits.{AreSplit, AreJoined};

use claim_queue::{ClaimQueue, QueueEnd};
use event_theory::OutOfMemory;
use quajects::Queues;
use std::alloc::Global;
use turn_io::{QueueEnds, item_at};

/// A new end of each queue, in the order of the queues, split off from the one in the list. The new ends go into
/// `born`, which is empty and has room for them, so it allocates no memory.
///
/// Conditions: the ends are those of the queues, in their order, and each has two parts or more of its queue's
/// 2^64 - 1.
pub fn split_ends_into<const N: usize>(
    queues: &[ClaimQueue<N>],
    ends: &mut [QueueEnd<N>],
    born: Vec<QueueEnd<N>>,
) -> Vec<QueueEnd<N>>
    requires ends { AreEndsOf queues.now ends.old }
    requires parts { All IsDivisible ends.old }
    requires room { (born.items ≡ []) × (length queues.now ≤ vec_capacity born) }
    ensures split { AreSplit ends.old ends.new result.items }
    ensures born { AreEndsOf queues.now result.items }
    ensures ends { AreEndsOf queues.now ends.new }
    ensures handle { AreSameEnds ends.old ends.new }
{
    let mut born = born;
    for i in 0..queues.len() {
        let end = queues[i].split(item_at(ends, i));
        born.push_reserved(end);
    }
    born
}

/// A new end of each queue, as above, in a list made for them. `OutOfMemory` is returned only if its allocation was
/// refused, before any end is split; nothing has changed then.
pub fn split_ends<const N: usize>(
    alloc: Global,
    queues: &[ClaimQueue<N>],
    ends: &mut [QueueEnd<N>],
) -> Result<Vec<QueueEnd<N>>, OutOfMemory>
    requires ends { AreEndsOf queues.now ends.old }
    requires parts { All IsDivisible ends.old }
    ensures split { IfOk result (λ born. AreSplit ends.old ends.new born.items) }
    ensures born { IfOk result (λ born. AreEndsOf queues.now born.items) }
    ensures refused { IfErr result (λ e. ends.new ≡ ends.old) }
    ensures ends { AreEndsOf queues.now ends.new }
    ensures handle { AreSameEnds ends.old ends.new }
{
    let born = Vec::with_capacity(alloc, queues.len())?;
    Ok(split_ends_into(queues, ends, born))
}

/// Joins each of the other ends to the one of the same queue in the list, which then has all that both had. It
/// allocates no memory.
///
/// Condition: both lists are ends of the queues, in their order.
pub fn join_ends<const N: usize>(
    queues: &[ClaimQueue<N>],
    ends: &mut [QueueEnd<N>],
    others: Vec<QueueEnd<N>>,
)
    requires ends { AreEndsOf queues.now ends.old }
    requires others { AreEndsOf queues.now others.items }
    ensures joined { AreJoined ends.old others.entry.items ends.new }
    ensures ends { AreEndsOf queues.now ends.new }
    ensures handle { AreSameEnds ends.old ends.new }
{
    let mut i = 0usize;
    for other in others {
        queues[i].join(item_at(ends, i), other);
        i += 1;
    }
}

/// A new end of each queue, small and large, split off from the one in `ends`. The new ends go into `born`, whose lists
/// are empty and have room for them, so it allocates no memory.
///
/// Conditions: the ends are those of the queues, and each has two parts or more of its queue's 2^64 - 1.
pub fn split_queue_ends_into(queues: &Queues, ends: &mut QueueEnds, born: QueueEnds) -> QueueEnds
    requires ends { AreQueueEndsOf queues.now ends.old }
    requires parts { AreQueuesDivisible ends.old }
    requires room { HaveRoomFor queues.now born }
    ensures split { AreQueuesSplit ends.old ends.new result }
    ensures born { AreQueueEndsOf queues.now result }
    ensures handle { AreSameQueueEnds ends.old ends.new }
{
    let QueueEnds { small, large } = born;
    QueueEnds {
        small: split_ends_into(queues.small.as_slice(), ends.small.as_mut_slice(), small),
        large: split_ends_into(queues.large.as_slice(), ends.large.as_mut_slice(), large),
    }
}

/// Joins each of the other ends to the one of the same queue in `ends`, which then has all that both had. It allocates
/// no memory.
///
/// Condition: both are ends of the queues.
pub fn join_queue_ends(queues: &Queues, ends: &mut QueueEnds, others: QueueEnds)
    requires ends { AreQueueEndsOf queues.now ends.old }
    requires others { AreQueueEndsOf queues.now others }
    ensures joined { AreQueuesJoined ends.old others ends.new }
    ensures handle { AreSameQueueEnds ends.old ends.new }
{
    let QueueEnds { small, large } = others;
    join_ends(queues.small.as_slice(), ends.small.as_mut_slice(), small);
    join_ends(queues.large.as_slice(), ends.large.as_mut_slice(), large);
}
