//! A second list of chain ends, for another owner: split off, and joined again.
ghost use Rattle.std.specs.Prelude.{◌≡◌, ◌≤◌, [], length, vec_capacity, IfOk, IfErr};
ghost use Rattle.std.specs.List.{All};
ghost use Rattle.turn_io.specs.EndLists.{AreChainEndsOf, AreSameChainEnds, IsChainDivisible};
ghost use Rattle.stations.specs.Splits.{AreChainsSplit, AreChainsJoined};

use event_theory::OutOfMemory;
use proc_chain::{ChainEnd, ProcChain};
use quajects::AnyQuaject;
use std::alloc::Global;
use turn_io::item_at;

/// A new end of each chain, in the order of the chains and without a Turn, split off from the one in the list. The new
/// ends go into `born`, which is empty and has room for them, so it allocates no memory.
///
/// Conditions: the ends are those of the chains, in their order, without a Turn, and each has two parts or more of its
/// chain's 2^64 - 1.
pub fn split_chain_ends_into(
    chains: &[ProcChain<AnyQuaject>],
    ends: &mut [ChainEnd<AnyQuaject>],
    born: Vec<ChainEnd<AnyQuaject>>,
) -> Vec<ChainEnd<AnyQuaject>>
    requires ends { AreChainEndsOf chains.now ends.old }
    requires parts { All IsChainDivisible ends.old }
    requires room { (born.items ≡ []) × (length chains.now ≤ vec_capacity born) }
    ensures split { AreChainsSplit ends.old ends.new result.items }
    ensures born { AreChainEndsOf chains.now result.items }
    ensures ends { AreChainEndsOf chains.now ends.new }
    ensures handle { AreSameChainEnds ends.old ends.new }
{
    let mut born = born;
    for i in 0..chains.len() {
        let end = chains[i].split(item_at(ends, i));
        born.push_reserved(end);
    }
    born
}

/// A new end of each chain, as above, in a list made for them. `OutOfMemory` is returned only if its allocation was
/// refused, before any end is split; nothing has changed then.
pub fn split_chain_ends(
    alloc: Global,
    chains: &[ProcChain<AnyQuaject>],
    ends: &mut [ChainEnd<AnyQuaject>],
) -> Result<Vec<ChainEnd<AnyQuaject>>, OutOfMemory>
    requires ends { AreChainEndsOf chains.now ends.old }
    requires parts { All IsChainDivisible ends.old }
    ensures split { IfOk result (λ born. AreChainsSplit ends.old ends.new born.items) }
    ensures born { IfOk result (λ born. AreChainEndsOf chains.now born.items) }
    ensures refused { IfErr result (λ e. ends.new ≡ ends.old) }
    ensures ends { AreChainEndsOf chains.now ends.new }
    ensures handle { AreSameChainEnds ends.old ends.new }
{
    let born = Vec::with_capacity(alloc, chains.len())?;
    Ok(split_chain_ends_into(chains, ends, born))
}

/// Joins each of the other ends to the one of the same chain in the list, which then has all that both had. It
/// allocates no memory.
///
/// Condition: both lists are ends of the chains, in their order, without a Turn.
pub fn join_chain_ends(
    chains: &[ProcChain<AnyQuaject>],
    ends: &mut [ChainEnd<AnyQuaject>],
    others: Vec<ChainEnd<AnyQuaject>>,
)
    requires ends { AreChainEndsOf chains.now ends.old }
    requires others { AreChainEndsOf chains.now others.items }
    ensures joined { AreChainsJoined ends.old others.items ends.new }
    ensures ends { AreChainEndsOf chains.now ends.new }
    ensures handle { AreSameChainEnds ends.old ends.new }
{
    let mut i = 0usize;
    for other in others {
        chains[i].join(item_at(ends, i), other);
        i += 1;
    }
}
