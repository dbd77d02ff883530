//! The count of the ends of a chain: the part of its rule that the theory of tables uses to look before a close.
use crate::quaject::Quaject;
use crate::rule::{ChainRule, Pact, Shape, View};
use table_theory::last_end::CountRule;

impl<Q: Quaject> CountRule<Q, View, Shape<Pact<Q::World, Q>>> for ChainRule {
    ghost use Rattle.proc_chain.specs.Steps.{HasTallied};

    ghost tallied = { λ id. HasTallied };
}
