//! Items that go into a buffer of the caller's.
ghost use Rattle.std.specs.Prelude.{◌≡◌, ◌≤◌, ◌<◌, length, take, map};
ghost use Rattle.claim_queue.specs.Handles.{IsEndOf, IsSameEnd, view_of};
ghost use Rattle.bindings.specs.QueueTaking.{TookSome, IsKeptFrom, or_zero};

use arrayvec::ArrayVec;
use claim_queue::{ClaimQueue, QueueEnd, TakeRefusal};

/// Copies a line to the beginning of a buffer.
pub fn copy_line(line: &[u64], out: &mut [u64])
    requires { length line.now ≤ length out.old }
    ensures { (take (length line.now) out.new ≡ line.now) × IsKeptFrom (length line.now) out.old out.new }
{
    out[..line.len()].copy_from_slice(line);
}

/// Copies the items left to the beginning of a buffer. Returns their number.
pub fn copy_left<const N: usize>(left: &ArrayVec<Option<u64>, N>, out: &mut [u64]) -> usize
    requires { length left.now.items ≤ length out.old }
    ensures number { result ≡ length left.now.items }
    ensures copied { take result out.new ≡ map or_zero left.now.items }
    ensures rest { IsKeptFrom result out.old out.new }
{
    let left = left.as_slice();
    for i in 0..left.len() {
        out[i] = left[i].unwrap_or(0);
    }
    left.len()
}

/// Takes items one by one, until a taking is refused or the buffer is full. Returns their number, and the refusal. The
/// items are at the beginning of the buffer.
pub fn take_up_to<const N: usize>(
    queue: &ClaimQueue<N>,
    end: &mut QueueEnd<N>,
    out: &mut [u64],
) -> (usize, Option<TakeRefusal>)
    requires { IsEndOf queue.now end.old }
    ensures number { result.0 ≤ length out.old }
    ensures rest { IsKeptFrom result.0 out.old out.new }
    ensures taken { TookSome N (view_of end.old) (take result.0 out.new) (length out.old) result.1 (view_of end.new) }
    ensures handle { IsSameEnd end.old end.new }
{
    for i in 0..out.len() {
        match queue.try_take(end) {
            Ok(item) => out[i] = item,
            Err(refusal) => return (i, Some(refusal)),
        }
    }
    (out.len(), None)
}
