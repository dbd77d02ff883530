//! The work at queues and chains, and the stakes of ends in them, add up.
ghost use Rattle.std.specs.Prelude.{◌≡◌};
ghost use Rattle.boot_data.specs.declared.plan.QueueIndex.{QueueIndex};
ghost use Rattle.claim_queue.specs.declared.rule.QueueOps.{QueueOps};
ghost use Rattle.claim_queue.specs.Own.{nothing_did, did_both};
ghost use Rattle.turn_io.specs.Accounts.{AddsUp, Stake, at_each, both_chain, both_queue, both_stakes, idle_chain};
ghost use Rattle.turn_io.specs.Accounts.{idle_queue, lines_of, no_stake};

/// The work at a queue, at a chain and at all queues adds up, and so do the stakes of an object's ends. The lines of
/// two ends of a queue together are the lines of the one and the lines of the other.
pub fn accounts_add()
    ensures queue { AddsUp idle_queue both_queue }
    ensures queues { AddsUp (λ (q : QueueIndex). idle_queue) (at_each both_queue) }
    ensures chain { AddsUp idle_chain both_chain }
    ensures stakes { AddsUp (no_stake nothing_did) (both_stakes did_both) }
    ensures chain_stakes { AddsUp (no_stake idle_chain) (both_stakes both_chain) }
    ensures effect { (a b : Stake QueueOps)
        → lines_of (both_stakes did_both a b).did ≡ both_queue (lines_of a.did) (lines_of b.did) }
{}
