//! The count of the hands of a table: the part of its rule that the theory of tables uses for the load before a close.
use crate::rule::{Shape, ThreadRule, View};
use table_theory::last_end::CountRule;

impl CountRule<(), View, Shape> for ThreadRule {
    ghost use Rattle.thread_table.specs.Steps.{HasTallied};

    ghost tallied = { HasTallied };
}
