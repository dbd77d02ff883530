//! The ends of a quaject that came home are joined to the ends of their queues.
ghost use Rattle.std.specs.Prelude.{◌≡◌, ◌≤◌, [], ◌∷◌, length, vec_capacity};
ghost use Rattle.std.specs.List.{All};
ghost use Rattle.boot_objects.specs.Comings.{FitsHome, small_ports, large_ports};
ghost use Rattle.boot_objects.specs.Gains.{Gained, QueuesGained};
ghost use Rattle.boot_objects.specs.Retirals.{HaveRetired, IsFew};
ghost use Rattle.turn_io.specs.EndLists.{AreChainEndsOf, AreChainsOver, AreEndsOf, AreSameEnds};
ghost use Rattle.turn_io.specs.QueueEnds.{AreQueueEndsOf, AreSameQueueEnds};
ghost use Rattle.proc_chain.specs.Handles.{IsOnlyEnd};
ghost use Rattle.quajects.specs.Homes.{home_in, homes_in};
ghost use Rattle.quajects.specs.Ports.{AllFit};

use crate::closing::chains::retire_all;
use crate::closing::joining::join_port_at;
use claim_queue::{ClaimQueue, QueueEnd};
use proc_chain::{ChainEnd, ProcChain};
use quajects::{AnyQuaject, Came, Home, Port, Queues};
use turn_io::QueueEnds;

// Joins the end of a port, if there is one, to the end of its queue.
fn join_port<const N: usize>(
    queues: &[ClaimQueue<N>],
    ends: &mut [QueueEnd<N>],
    port: Option<Port<N>>,
)
    requires ends { AreEndsOf queues.now ends.old }
    requires fits { AllFit queues.now (port ∷ []) }
    ensures handle { AreSameEnds ends.old ends.new }
    ensures gained { Gained (port.entry ∷ []) ends.old ends.new }
{
    match port {
        Some(port) => join_port_at(queues, ends, port),
        None => {}
    }
}

// Joins the ends of all ports.
fn join_ports<const N: usize, const K: usize>(
    queues: &[ClaimQueue<N>],
    ends: &mut [QueueEnd<N>],
    ports: [Option<Port<N>>; K],
)
    requires few { K ≤ 6 }
    requires ends { AreEndsOf queues.now ends.old }
    requires fits { AllFit queues.now ports }
    ensures handle { AreSameEnds ends.old ends.new }
    ensures gained { Gained ports.entry ends.old ends.new }
{
    for port in ports {
        join_port(queues, ends, port);
    }
}

/// Joins the ends of a quaject that came home, each to the end of its queue. The ends here then have what the quaject's
/// ends had too. Returns the quaject's numbers. It takes no memory.
///
/// Conditions: the ends here are those of the queues, in their order. Each end of the quaject is an end of the queue that
/// it names.
pub fn bring_home(queues: &Queues, ends: &mut QueueEnds, home: Home) -> Came
    requires ends { AreQueueEndsOf queues.now ends.old }
    requires fits { FitsHome queues.now home }
    ensures handle { AreSameQueueEnds ends.old ends.new }
    ensures ends { AreQueueEndsOf queues.now ends.new }
    ensures gained { QueuesGained home.small home.large ends.old ends.new }
    ensures came { home_in result ≡ home }
{
    let ((small, large), came) = home.take_apart();
    join_ports(queues.small.as_slice(), ends.small.as_mut_slice(), small);
    join_ports(queues.large.as_slice(), ends.large.as_mut_slice(), large);
    came
}

/// Joins the ends of all quajects that came home, one quaject after the other, as `bring_home` does. The numbers go
/// into `counts`, in the order of the homes. `counts` is empty and has room for them, so it takes no memory.
///
/// Conditions: those of `bring_home`, for each.
pub fn bring_all_home(
    queues: &Queues,
    ends: &mut QueueEnds,
    homes: Vec<Home>,
    counts: Vec<Came>,
) -> Vec<Came>
    requires ends { AreQueueEndsOf queues.now ends.old }
    requires fits { All (FitsHome queues.now) homes.items }
    requires room { (counts.items ≡ []) × (length homes.items ≤ vec_capacity counts) }
    ensures handle { AreSameQueueEnds ends.old ends.new }
    ensures ends { AreQueueEndsOf queues.now ends.new }
    ensures gained { QueuesGained (small_ports homes.items) (large_ports homes.items) ends.old ends.new }
    ensures came { homes_in result.items ≡ homes.items }
{
    let mut counts = counts;
    for home in homes {
        counts.push_reserved(bring_home(queues, ends, home));
    }
    counts
}

/// Closes each chain by its only end, and brings all quajects home. Their numbers go into `counts`, in the order of the
/// chains. `homes` and `counts` are empty and have room for all, so it takes no memory.
///
/// Conditions: the queues are the world of the chains. The ends of queues are those of the queues, in their order. The
/// ends of chains are those of the chains, in their order and without a Turn, and each has the whole of its chain.
pub fn close_chains(
    queues: &Queues,
    chains: Vec<ProcChain<AnyQuaject>>,
    chain_ends: Vec<ChainEnd<AnyQuaject>>,
    ends: &mut QueueEnds,
    homes: Vec<Home>,
    counts: Vec<Came>,
) -> Vec<Came>
    requires world { AreChainsOver queues.now chains.items }
    requires chain_ends { AreChainEndsOf chains.items chain_ends.items }
    requires whole { All IsOnlyEnd chain_ends.items }
    requires ends { AreQueueEndsOf queues.now ends.old }
    requires homes_room { (homes.items ≡ []) × (length chains.items ≤ vec_capacity homes) }
    requires counts_room { (counts.items ≡ []) × (length chains.items ≤ vec_capacity counts) }
    ensures homes { HaveRetired chains.items chain_ends.items (homes_in result.items) }
    ensures few { All IsFew (homes_in result.items) }
    ensures handle { AreSameQueueEnds ends.old ends.new }
    ensures ends { AreQueueEndsOf queues.now ends.new }
    ensures gained { QueuesGained (small_ports (homes_in result.items)) (large_ports (homes_in result.items)) ends.old
        ends.new }
{
    let homes = retire_all(chains, chain_ends, homes);
    bring_all_home(queues, ends, homes, counts)
}
