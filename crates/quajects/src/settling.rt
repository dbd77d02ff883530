//! Closing a queue whose ends are returned from several owners.
ghost use Rattle.std.specs.Prelude.{◌≡◌, IfOk, IfErr, MatchResult};
ghost use Rattle.std.specs.List.{All, sum_by};
ghost use Rattle.table_theory.specs.Sharing.{IsWhole};
ghost use Rattle.claim_queue.specs.Handles.{view_of, first_of, IsEndOf, IsSameEnd};
ghost use Rattle.quajects.specs.Settled.{views_of, share_of, HasAll, SettledNow, StillOpen};

use claim_queue::{ClaimQueue, Closed, OpenEnds, QueueEnd};

// Joins the other ends to the end, which then has all that they had.
fn join_all<const N: usize>(queue: &ClaimQueue<N>, end: &mut QueueEnd<N>, others: Vec<QueueEnd<N>>)
    requires end { IsEndOf queue.now end.old }
    requires others { All (IsEndOf queue.now) others.items }
    ensures joined { HasAll (views_of end.old others.entry.items) (view_of end.new) }
    ensures handle { IsSameEnd end.old end.new }
{
    for other in others {
        queue.join(end, other);
    }
}

/// Joins all these ends of a queue, and closes it. If ends are missing, it returns the queue, the end to which the
/// others were joined, and the number of missing ends. It allocates no memory.
///
/// Condition: they are ends of this queue.
pub fn settle<const N: usize>(
    queue: ClaimQueue<N>,
    end: QueueEnd<N>,
    others: Vec<QueueEnd<N>>,
) -> Result<Closed<N>, (ClaimQueue<N>, QueueEnd<N>, OpenEnds)>
    requires end { IsEndOf queue end }
    requires others { All (IsEndOf queue) others.items }
    ensures only { IsWhole (sum_by share_of (views_of end.entry others.entry.items))
        → MatchResult result (λ c. Unit {0}) (λ e. ⊥) }
    ensures closed { IfOk result (λ c. (c.first ≡ first_of queue.entry)
        × SettledNow (views_of end.entry others.entry.items) c.first c.put c.taken c.left.items) }
    ensures trace { IfErr result (λ e. StillOpen (views_of end.entry others.entry.items) e.2.others (view_of e.1)) }
    ensures handle { IfErr result (λ e. (e.0 ≡ queue.entry) × IsSameEnd end.entry e.1) }
{
    let mut end = end;
    join_all(&queue, &mut end, others);
    queue.close(end)
}
