//! Joins one more end to the end of an object in a list.
ghost use Rattle.std.specs.Prelude.{◌≡◌, true, false, [], ◌∷◌, Some};
ghost use Rattle.boot_objects.specs.Gains.{Gained, ChainsGained, note_stake};
ghost use Rattle.turn_io.specs.Accounts.{at_one, idle_queue, no_stake};
ghost use Rattle.turn_io.specs.EndLists.{AreChainEndsOf, AreSameChainEnds, AreEndsOf, AreSameEnds, OnEnd};
ghost use Rattle.turn_io.specs.EndLists.{end_knows_shut, knows_shut_at};
ghost use Rattle.stations.specs.Splits.{IsJoined, IsChainJoined};
ghost use Rattle.proc_chain.specs.Handles.{turn_of};
ghost use Rattle.processor.specs.RawEnds.{IsChainEndAt};
ghost use Rattle.quajects.specs.Ports.{IsEndAt, port as port_of};

use claim_queue::{ClaimQueue, QueueEnd};
use proc_chain::{ChainEnd, ProcChain};
use quajects::{AnyQuaject, Port};
use turn_io::item_at;

/// Joins one more end to the end of its queue in the list, which then has all that both had. It takes no memory.
///
/// Conditions: the ends are those of the queues, in their order, and the other end is one of the queue with this index.
pub fn join_at<const N: usize>(
    queues: &[ClaimQueue<N>],
    ends: &mut [QueueEnd<N>],
    index: usize,
    other: QueueEnd<N>,
)
    requires ends { AreEndsOf queues.now ends.old }
    requires other { IsEndAt queues.now index other }
    ensures handle { AreSameEnds ends.old ends.new }
    ensures ends { AreEndsOf queues.now ends.new }
    ensures joined { OnEnd index (λ old new. IsJoined old new other.entry) ends.old ends.new }
    ensures gained { Gained (Some (port_of index other.entry) ∷ []) ends.old ends.new }
    ensures known { end_knows_shut other.entry ≡ true → knows_shut_at ends.new index ≡ true }
{
    queues[index].join(item_at(ends, index), other);
}

// Joins the end of a port that came home, which is an end of the queue with this index.
fn join_port_in<const N: usize>(
    queues: &[ClaimQueue<N>],
    ends: &mut [QueueEnd<N>],
    index: usize,
    port: Port<N>,
)
    requires ends { AreEndsOf queues.now ends.old }
    requires other { IsEndAt queues.now index port.end }
    ensures handle { AreSameEnds ends.old ends.new }
    ensures ends { AreEndsOf queues.now ends.new }
    ensures joined { OnEnd index (λ old new. IsJoined old new port.entry.end) ends.old ends.new }
    ensures gained { Gained (Some (port_of index port.entry.end) ∷ []) ends.old ends.new }
{
    port.join_into(&queues[index], item_at(ends, index));
}

/// Joins the end of a port that came home to the end of its queue in the list.
///
/// Conditions: those of `join_at`, for the end and the index of the port.
pub fn join_port_at<const N: usize>(
    queues: &[ClaimQueue<N>],
    ends: &mut [QueueEnd<N>],
    port: Port<N>,
)
    requires ends { AreEndsOf queues.now ends.old }
    requires other { IsEndAt queues.now port.index port.end }
    ensures handle { AreSameEnds ends.old ends.new }
    ensures ends { AreEndsOf queues.now ends.new }
    ensures joined { OnEnd port.entry.index (λ old new. IsJoined old new port.entry.end) ends.old ends.new }
    ensures gained { Gained (Some port.entry ∷ []) ends.old ends.new }
{
    let index = port.index();
    join_port_in(queues, ends, index, port);
}

/// Joins one more end to the end of its chain in the list, which then has all that both had.
///
/// Conditions: the ends are those of the chains, in their order and without a Turn. The other end is one of the chain
/// with this index, without a Turn.
pub fn join_chain_at(
    chains: &[ProcChain<AnyQuaject>],
    ends: &mut [ChainEnd<AnyQuaject>],
    index: usize,
    other: ChainEnd<AnyQuaject>,
)
    requires ends { AreChainEndsOf chains.now ends.old }
    requires other { IsChainEndAt chains.now index other }
    requires idle { turn_of other ≡ false }
    ensures handle { AreSameChainEnds ends.old ends.new }
    ensures ends { AreChainEndsOf chains.now ends.new }
    ensures joined { OnEnd index (λ old new. IsChainJoined old new other) ends.old ends.new }
    ensures gained { ChainsGained (at_one (no_stake idle_queue) index (note_stake other)) ends.old ends.new }
{
    chains[index].join(item_at(ends, index), other);
}
