//! The ends that devices had are joined to the ends of their queues and chains.
ghost use Rattle.std.specs.Prelude.{[], ◌∷◌, length};
ghost use Rattle.boot_objects.specs.RawEnds.{AreRawsOf, TookRaws};
ghost use Rattle.processor.specs.RawEnds.{IsRawAt};
ghost use Rattle.processor.specs.Stations.{ArePartsOf};

use crate::closing::joining::{join_at, join_chain_at};
use processor::{Parts, Shared};
use quajects::RawTty;

// Joins the ends of a raw tty to the ends of the small queue and of the chain with these indexes.
fn join_raw(shared: &Shared, parts: &mut Parts, raw: usize, chain: usize, tty: RawTty)
    requires parts { ArePartsOf shared.now parts.old }
    requires its { IsRawAt shared.now raw chain tty }
    ensures parts { ArePartsOf shared.now parts.new }
    ensures took { TookRaws raw chain (tty ∷ []) parts.old parts.new }
{
    let (end, chain_end) = tty.into_parts();
    let queues = shared.queues.small.as_slice();
    join_at(queues, parts.queues.small.as_mut_slice(), raw, end);
    let chains = shared.chains.as_slice();
    join_chain_at(chains, parts.chains.as_mut_slice(), chain, chain_end);
}

/// Joins the ends of all ttys' raw ttys, as devices gave them back, to the ends of their raw queues and chains in the
/// parts. The ends in the parts then have what all had. It takes no memory.
///
/// Conditions: the parts are those of the shared objects, and the raw ttys are those of the plan's ttys, in their
/// order.
pub fn join_raws(shared: &Shared, parts: &mut Parts, ttys: Vec<RawTty>)
    requires parts { ArePartsOf shared.now parts.old }
    requires ttys { AreRawsOf shared.now ttys.items }
    ensures parts { ArePartsOf shared.now parts.new }
    ensures took { TookRaws (length shared.now.plan.queues) (length shared.now.plan.movers) ttys.items parts.old
        parts.new }
{
    let mut raw = shared.plan.queues.as_slice().len();
    let mut chain = shared.plan.movers.as_slice().len();
    for tty in ttys {
        join_raw(shared, parts, raw, chain, tty);
        raw += 1;
        chain += 1;
    }
}
