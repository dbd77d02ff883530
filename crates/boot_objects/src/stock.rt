//! Ends that are split off for quajects and devices.
ghost use Rattle.std.specs.Prelude.{◌≡◌, ◌<◌, ◌≤◌, [], length};
ghost use Rattle.table_theory.specs.Sharing.{given, kept};
ghost use Rattle.claim_queue.specs.Handles.{IsDivisible};
ghost use Rattle.turn_io.specs.EndLists.{end_share};
ghost use Rattle.boot_objects.specs.Makings.{SplitOff};
ghost use Rattle.boot_objects.specs.Stocks.{CanGive, IsIdleEnd, IsStock, shares};

use claim_queue::{ClaimQueue, QueueEnd};

// One more end of the queue, split off from this one.
fn split_one<const N: usize>(queue: &ClaimQueue<N>, end: &mut QueueEnd<N>) -> QueueEnd<N>
    requires idle { IsIdleEnd queue.now end.old }
    requires parts { IsDivisible end.old }
    ensures idle { IsIdleEnd queue.now end.new × IsIdleEnd queue.now result }
    ensures left { end_share end.new ≡ kept (end_share end.old) }
    ensures given { end_share result ≡ given (end_share end.old) }
{
    queue.split(end)
}

/// One more end of the queue with this index, split off from the end in the stock, which has an end of each queue.
///
/// Condition: the end in the stock can be split.
pub(crate) fn split_at<const N: usize>(
    queues: &[ClaimQueue<N>],
    stock: &mut Vec<QueueEnd<N>>,
    index: usize,
) -> QueueEnd<N>
    requires named { index < length queues.now }
    requires stock { IsStock queues.now stock.old.items }
    requires parts { CanGive 1 (shares stock.old.items) }
    ensures { SplitOff queues.now index stock.old.items stock.new.items result }
{
    split_one(&queues[index], &mut stock[index])
}
