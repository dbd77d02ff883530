//! The count of the ends of a queue: the parts of its rule that the steps of the theory of tables use.
use crate::rule::{BatchRule, BatchState, EndRecord, Shape, View};
use table_theory::end_steps::EndsRule;
use table_theory::last_end::CountRule;
use table_theory::protocol::Protocol;

impl<C: Protocol> CountRule<u64, View, Shape> for BatchRule<C> {
    ghost use Rattle.table_theory.specs.Plays.{HasTallied};
    ghost use Rattle.batch_queue.specs.Layout.{ends_word};
    ghost use Rattle.batch_queue.specs.Rules.{InvHeldOf};

    ghost tallied = { λ id. HasTallied InvHeldOf ends_word };
}

impl<C: Protocol> EndsRule<u64, EndRecord, BatchState, Shape> for BatchRule<C> {
    ghost use Rattle.batch_queue.specs.Own.{nothing_did, did_both};
    ghost use Rattle.batch_queue.specs.Rules.{newcomer, InvHeldOf};

    ghost suits = { InvHeldOf };

    ghost nothing = { nothing_did };

    ghost plus = { did_both };

    ghost some_view = { newcomer (record { room = 0 }) };
}
