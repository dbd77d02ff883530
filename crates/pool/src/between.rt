//! The place of each buffer between any two steps of any threads.
ghost use Rattle.std.specs.Prelude.{◌≡◌, ℕ};
ghost use Rattle.atomic_table.specs.Table.{State};
ghost use Rattle.batch_queue.specs.Between.{ShowsQueue};
ghost use Rattle.batch_queue.specs.declared.rule.Shape.{Shape};
ghost use Rattle.batch_queue.specs.Own.{View, nothing_did};
ghost use Rattle.pool.specs.Between.{EachOnce, count_in};
ghost use Rattle.pool.specs.Handles.{view_of, count_of, IsHolderOf};
ghost use Rattle.pool.specs.Holdings.{IsFair, IsStocked};
ghost use Rattle.pool.specs.declared.pool.Holder.{Holder};
ghost use Rattle.pool.specs.declared.pool.Pool.{Pool};

use crate::lending::Lending;
use atomic_table::TableRule;
use batch_queue::{BatchRule, Shape, View, between_steps, protocol_between_steps};

/// A value for which the rule of a pool's queue holds shows a queue, and each buffer has one place. It is in that queue
/// once, or with one end once. Nothing is asked of the ends: the rule has the protocol, which each end keeps.
///
/// Every atomic step keeps the rule, so this holds between any two steps of any threads. Each holder has seen how many
/// buffers the pool has. A call of a holder changes the holder's lists by one step. Before that step they are the lists
/// before the call, and after it the lists after the call.
pub fn each_buffer_has_one_owner()
    ensures once { (key : Shape) (state : State ℕ View)
        → ⟦<BatchRule<Lending> as TableRule<u64, View, Shape>>⟧.holds key state
        → ShowsQueue key state × ((shows : ShowsQueue key state)
        → EachOnce (count_in shows.queue) shows.queue state.views) }
    ensures fair { (holder : Holder) → IsFair (view_of holder) }
    ensures joined { (v : View) → v.own ≡ nothing_did → IsFair v }
    ensures stocked { (pool : Pool) (holder : Holder) → IsHolderOf pool holder
        → IsStocked (count_of pool) (view_of holder) }
{
    between_steps::<Lending>();
    protocol_between_steps::<Lending>();
}
