//! The count of the ends of a queue: the parts of its rule that the steps of the theory of tables use.
use crate::rule::{ClaimRule, QueueOps, Shape, View};
use table_theory::end_steps::EndsRule;
use table_theory::last_end::CountRule;
use table_theory::protocol::Protocol;
use table_theory::queues::Positions;

impl<C: Protocol> CountRule<(), View, Shape> for ClaimRule<C> {
    ghost use Rattle.table_theory.specs.Plays.{HasTallied};
    ghost use Rattle.claim_queue.specs.Layout.{ends_word};
    ghost use Rattle.claim_queue.specs.Rules.{InvHeldOf};

    ghost tallied = { λ id. HasTallied InvHeldOf ends_word };
}

impl<C: Protocol> EndsRule<(), QueueOps, Positions, Shape> for ClaimRule<C> {
    ghost use Rattle.claim_queue.specs.Own.{nothing_did, did_both};
    ghost use Rattle.claim_queue.specs.Rules.{newcomer, InvHeldOf};

    ghost suits = { InvHeldOf };

    ghost nothing = { nothing_did };

    ghost plus = { did_both };

    ghost some_view = { newcomer (record { first = 0; room = 0 }) };
}
