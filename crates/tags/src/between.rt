//! The place of each tag between any two steps of any threads.
ghost use Rattle.std.specs.Prelude.{◌≡◌, ◌<◌, ℕ};
ghost use Rattle.atomic_table.specs.Table.{State};
ghost use Rattle.claim_queue.specs.Between.{ShowsQueue};
ghost use Rattle.claim_queue.specs.declared.rule.Shape.{Shape};
ghost use Rattle.claim_queue.specs.Own.{View};
ghost use Rattle.table_theory.specs.Positioned.{head_of};
ghost use Rattle.tags.specs.Between.{EachOnce};
ghost use Rattle.tags.specs.Handles.{view_of, count_of, IsHolderOf};
ghost use Rattle.tags.specs.Holdings.{count_in};
ghost use Rattle.tags.specs.declared.tags.Holder.{Holder};
ghost use Rattle.tags.specs.declared.tags.Tags.{Tags};

use crate::lending::Lending;
use atomic_table::TableRule;
use claim_queue::{
    ClaimRule, Shape, View, between_steps, ends_between_steps, protocol_between_steps,
};

/// A value for which the rule of the tags' queue holds shows a queue, and each tag has one place. It is in that queue
/// once, or with one end once. Nothing is asked of the ends: the rule has the protocol, which each end keeps.
///
/// Every atomic step keeps the rule, so this holds between any two steps of any threads. Each holder has seen that all
/// tags were put, and never shut the queue.
pub fn each_tag_has_one_owner()
    ensures once { (key : Shape) (state : State Unit View)
        → ⟦<ClaimRule<Lending> as TableRule<(), View, Shape>>⟧.holds key state
        → ShowsQueue key state × ((shows : ShowsQueue key state) → EachOnce key.first shows.queue state.views) }
    ensures begun { (n : ℕ) (holder : Holder n) → count_in (view_of holder) < head_of (view_of holder).seen.object }
    ensures never_shut { (n : ℕ) (holder : Holder n) → (view_of holder).own.shuts ≡ 0 }
    ensures count { (n : ℕ) (tags : Tags n) (holder : Holder n) → IsHolderOf tags holder
        → count_in (view_of holder) ≡ count_of tags }
{
    between_steps::<Lending>();
    ends_between_steps::<Lending>();
    protocol_between_steps::<Lending>();
}
