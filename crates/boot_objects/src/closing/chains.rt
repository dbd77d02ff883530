//! Closing the chains of a list, each by its only end.
ghost use Rattle.std.specs.Prelude.{◌≡◌, ◌≤◌, [], false, length, vec_capacity};
ghost use Rattle.std.specs.List.{All};
ghost use Rattle.boot_objects.specs.Retirals.{HasRetired, HaveRetired, IsFew};
ghost use Rattle.turn_io.specs.EndLists.{AreChainEndsOf};
ghost use Rattle.proc_chain.specs.Handles.{turn_of, IsEndOf, IsOnlyEnd};

use proc_chain::{ChainEnd, ProcChain};
use quajects::{AnyQuaject, Home, retire};

// Closes a chain by its only end.
fn retire_chain(chain: ProcChain<AnyQuaject>, end: ChainEnd<AnyQuaject>) -> Home
    requires ends { IsEndOf chain end }
    requires turn { turn_of end ≡ false }
    requires whole { IsOnlyEnd end }
    ensures home { HasRetired chain end result }
    ensures few { IsFew result }
{
    match retire(chain, end) {
        Ok(home) => home,
        Err(_) => unreachable!(),
    }
}

/// Closes each chain, and returns the quajects that come home, in the order of the chains. The answers go into `homes`,
/// which is empty and has room for them, so it takes no memory.
///
/// Conditions: the ends are those of the chains, in their order and without a Turn. Each has the whole of its chain, so
/// that no other end exists.
pub fn retire_all(
    chains: Vec<ProcChain<AnyQuaject>>,
    ends: Vec<ChainEnd<AnyQuaject>>,
    homes: Vec<Home>,
) -> Vec<Home>
    requires ends { AreChainEndsOf chains.items ends.items }
    requires whole { All IsOnlyEnd ends.items }
    requires room { (homes.items ≡ []) × (length chains.items ≤ vec_capacity homes) }
    ensures homes { HaveRetired chains.items ends.items result.items }
    ensures few { All IsFew result.items }
{
    let mut homes = homes;
    let mut ends = ends.into_iter();
    for chain in chains {
        let Some(end) = ends.next() else {
            unreachable!()
        };
        homes.push_reserved(retire_chain(chain, end));
    }
    homes
}
