//! Hearing a line.
ghost use Rattle.std.specs.Prelude.{◌≡◌, ◌<◌, ◌≤◌, [], length, IfOk};
ghost use Rattle.claim_queue.specs.Handles.{IsEndOf, IsSameEnd};
ghost use Rattle.turn_io.specs.declared.gate.Point.TheVariants.{TakeAnswered};
ghost use Rattle.turn_io.specs.Outcomes.{Heard};
ghost use Rattle.turn_io.specs.Points.{HearPoint};

use crate::end_gates::QueueGate;
use crate::gate::Point;
use arrayvec::ArrayVec;
use claim_queue::{ClaimQueue, QueueEnd, TakeRefusal};

/// One try to take a line from a queue, as `ClaimQueue::try_take_line` makes it: 1 to N items, which are appended to
/// `line`. The list stays empty if the try is refused, for any reason of that call. The gate is called with
/// `TakeAnswered` after the try, whatever the answer.
///
/// Conditions: the end is one of the queue, and the list is empty.
pub fn hear<const N: usize, G: QueueGate<N>>(
    queue: &ClaimQueue<N>,
    end: &mut QueueEnd<N>,
    line: &mut ArrayVec<u64, N>,
    p: u8,
    gate: &mut G,
) -> Result<(), TakeRefusal>
    requires queue { IsEndOf queue.now end.old }
    requires empty { line.old.items ≡ [] }
    ensures handle { IsSameEnd end.old end.new }
    ensures heard { Heard line.new.items result end.old end.new }
    ensures long { IfOk result (λ done. (0 < length line.new.items) × (length line.new.items ≤ N)) }
    ensures hook { G.observes gate.old p TakeAnswered gate.new }
    ensures points { HearPoint G.at_end p gate.old gate.new end.old end.new }
{
    let answer = queue.try_take_line(end, line);
    gate.at_queue(end, p, Point::TakeAnswered);
    match answer {
        Ok(_count) => Ok(()),
        Err(refusal) => Err(refusal),
    }
}
