//! Poking a chain: note 0 is chained, and a Turn is served to its end.
ghost use Rattle.std.specs.Prelude.{◌≡◌, ◌<◌, length};
ghost use Rattle.proc_chain.specs.Handles.{world_of, IsEndOf, IsSameEnd};
ghost use Rattle.turn_io.specs.declared.gate.Point.TheVariants as points;
ghost use Rattle.turn_io.specs.Outcomes.{HasPoked, PokedAt};
ghost use Rattle.turn_io.specs.EndLists.{AreChainsOver, AreChainEndsOf, AreSameChainEnds, IsIdle, OnEnd};
ghost use Rattle.turn_io.specs.Points.{PokePoint};

use crate::end_gates::ChainGate;
use crate::gate::Point;
use crate::items::item_at;
use proc_chain::{ChainEnd, ChainRefusal, Chained, ProcChain};
use quajects::{AnyQuaject, Queues};
use std::sync::Wait;

/// The note that a poke chains.
const POKED: u16 = 0;

/// The result of a note that was chained.
#[derive(Clone, Copy, Debug, PartialEq, Eq, Drop)]
pub enum Poked {
    /// The end got the Turn and served it to its end; this many notes were run.
    Ran { notes: u64 },
    /// Another end has the Turn, and runs the note.
    Left,
}

// One try to chain a note at this end, and all that a Turn has to serve.
fn poke_end<R: Wait, G: ChainGate>(
    rt: &R,
    world: &Queues,
    chain: &ProcChain<AnyQuaject>,
    end: &mut ChainEnd<AnyQuaject>,
    p: u8,
    gate: &mut G,
) -> Result<Poked, ChainRefusal>
    requires end { IsEndOf chain.now end.old }
    requires idle { IsIdle end.old }
    requires world { world_of chain.now ≡ world.now }
    ensures handle { IsSameEnd end.old end.new }
    ensures idle { IsIdle end.new }
    ensures poked { HasPoked chain.now 0 result end.old end.new }
    ensures hook { G.observes gate.old p points.Chained gate.new }
    ensures points { PokePoint G.at_chain_end p 0 result gate.old gate.new end.old end.new }
{
    let answer = chain.try_chain(end, POKED);
    gate.at_chain(end, p, Point::Chained);
    match answer {
        Ok(chained) => match chained {
            Chained::Run(turn) => {
                let notes = chain.serve_all(rt, end, world, turn);
                Ok(Poked::Ran { notes })
            }
            Chained::Left => Ok(Poked::Left),
        },
        Err(refusal) => Err(refusal),
    }
}

/// One try to chain note 0 at the chain with this index; if it gives the Turn, the Turn is served to its end. The gate
/// is called with `Chained` after the try, whatever the answer, and before a Turn is served. Any refusal of
/// `ProcChain::try_chain` is possible, Lost too; no note is chained then, and the try isn't repeated.
///
/// Conditions: the ends are those of the chains, in their order, without a Turn; the index is one of theirs; and the
/// queues are the world of each chain.
pub fn poke<R: Wait, G: ChainGate>(
    rt: &R,
    world: &Queues,
    chains: &[ProcChain<AnyQuaject>],
    ends: &mut [ChainEnd<AnyQuaject>],
    index: usize,
    p: u8,
    gate: &mut G,
) -> Result<Poked, ChainRefusal>
    requires ends { AreChainEndsOf chains.now ends.old }
    requires known { index < length chains.now }
    requires world { AreChainsOver world.now chains.now }
    ensures hook { G.observes gate.old p points.Chained gate.new }
    ensures points { OnEnd index (PokePoint G.at_chain_end p 0 result gate.old gate.new) ends.old ends.new }
    ensures poked { PokedAt chains.now index 0 result ends.old ends.new }
    ensures ends { AreChainEndsOf chains.now ends.new }
    ensures handle { AreSameChainEnds ends.old ends.new }
{
    poke_end(rt, world, &chains[index], item_at(ends, index), p, gate)
}
