//! Saying a line: it is put in a queue by one claim, and raised.
ghost use Rattle.std.specs.Prelude.{◌≡◌, length};
ghost use Rattle.claim_queue.specs.Claims.{Owns};
ghost use Rattle.claim_queue.specs.Handles.{view_of, IsEndOf, IsSameEnd};
ghost use Rattle.claim_queue.specs.Puts.{RaisedFrom};
ghost use Rattle.turn_io.specs.Outcomes.{Said};
ghost use Rattle.turn_io.specs.Gates.{HookSawSay};
ghost use Rattle.turn_io.specs.Points.{SayPoints};

use crate::end_gates::QueueGate;
use crate::gate::Point;
use claim_queue::{Claim, ClaimQueue, ClaimRefusal, QueueEnd};

// Raises all items of a run that was just claimed.
fn raise_all<const N: usize>(queue: &ClaimQueue<N>, end: &mut QueueEnd<N>, claim: &mut Claim<N>)
    requires queue { IsEndOf queue.now end.old }
    requires owns { Owns (view_of end.old) claim.old.start claim.old.items.items 0 × (claim.old.raised ≡ 0) }
    ensures owns { Owns (view_of end.new) claim.old.start claim.old.items.items (length claim.old.items.items) }
    ensures raised { RaisedFrom N claim.old.start claim.old.items.items (view_of end.old) (view_of end.new)
        (length claim.old.items.items) }
    ensures handle { IsSameEnd end.old end.new }
{
    for i in 0..claim.items().len() {
        let _raised = queue.raise_next(end, claim);
    }
}

/// One try to put a line in a queue: one claim, and if it wins all its raises. The gate is called with `Claimed` after
/// the claim and before each raise, with `Raised` after the last raise, and not at all if the claim was refused. Any refusal of
/// `ClaimQueue::try_claim` is possible; nothing is put then.
///
/// Condition: the end is one of the queue.
pub fn say<const N: usize, G: QueueGate<N>>(
    queue: &ClaimQueue<N>,
    end: &mut QueueEnd<N>,
    line: &[u64],
    p: u8,
    gate: &mut G,
) -> Result<(), ClaimRefusal>
    requires { IsEndOf queue.now end.old }
    ensures handle { IsSameEnd end.old end.new }
    ensures said { Said line.now result end.old end.new }
    ensures hook { HookSawSay G.observes p result gate.old gate.new }
    ensures points { SayPoints G.at_end p line.now result gate.old gate.new end.old end.new }
{
    match queue.try_claim_as(end, line) {
        Ok(mut claim) => {
            gate.at_queue(end, p, Point::Claimed);
            raise_all(queue, end, &mut claim);
            gate.at_queue(end, p, Point::Raised);
            Ok(())
        }
        Err(refusal) => Err(refusal),
    }
}
