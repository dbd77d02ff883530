//! Closing the queues of a list, each by its only end.
ghost use Rattle.std.specs.Prelude.{◌≡◌, ◌≤◌, [], length, vec_capacity};
ghost use Rattle.std.specs.List.{All};
ghost use Rattle.claim_queue.specs.Handles.{IsEndOf, IsOnlyEnd};
ghost use Rattle.boot_objects.specs.ClosedQueues.{IsClosed, AreClosed};
ghost use Rattle.turn_io.specs.EndLists.{AreEndsOf};

use claim_queue::{ClaimQueue, Closed, QueueEnd};

// Closes a queue by its only end.
fn close_queue<const N: usize>(queue: ClaimQueue<N>, end: QueueEnd<N>) -> Closed<N>
    requires end { IsEndOf queue end }
    requires whole { IsOnlyEnd end }
    ensures { IsClosed queue.entry end.entry result }
{
    match queue.close(end) {
        Ok(closed) => closed,
        Err(_) => unreachable!(),
    }
}

/// Closes each queue, and returns, in the order of the queues, the number of items put, the number of items taken, and
/// the items left. The answers go into `closed`, which is empty and has room for them, so it takes no memory.
///
/// Conditions: the ends are those of the queues, in their order, and each has the whole of its queue, so that no other
/// end exists.
pub fn close_queues<const N: usize>(
    queues: Vec<ClaimQueue<N>>,
    ends: Vec<QueueEnd<N>>,
    closed: Vec<Closed<N>>,
) -> Vec<Closed<N>>
    requires ends { AreEndsOf queues.items ends.items }
    requires whole { All IsOnlyEnd ends.items }
    requires room { (closed.items ≡ []) × (length queues.items ≤ vec_capacity closed) }
    ensures { AreClosed queues.entry.items ends.entry.items result.items }
{
    let mut closed = closed;
    let mut ends = ends.into_iter();
    for queue in queues {
        let Some(end) = ends.next() else {
            unreachable!()
        };
        closed.push_reserved(close_queue(queue, end));
    }
    closed
}
