//! The count of the ends of the meters: the parts of their rule that the steps of the theory of tables use.
use crate::rule::{MeterOps, MeterRule, Reading, Shape, View};
use table_theory::end_steps::EndsRule;
use table_theory::last_end::CountRule;

impl CountRule<(), View, Shape> for MeterRule {
    ghost use Rattle.table_theory.specs.Ledgers.{IsValidView};
    ghost use Rattle.table_theory.specs.Plays.{HasTallied};
    ghost use Rattle.meters.specs.Layout.{ends_word};
    ghost use Rattle.meters.specs.Own.{of_meters};

    ghost tallied = { λ id. HasTallied (IsValidView of_meters) ends_word };
}

impl EndsRule<(), MeterOps, Reading, Shape> for MeterRule {
    ghost use Rattle.meters.specs.Own.{nothing_did, did_both};
    ghost use Rattle.meters.specs.Rules.{newcomer, IsSound};

    ghost suits = { IsSound };

    ghost nothing = { nothing_did };

    ghost plus = { did_both };

    ghost some_view = { newcomer (record { clock = 0 }) };
}
