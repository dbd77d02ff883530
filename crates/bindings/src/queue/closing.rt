//! Closing a queue.
ghost use Rattle.std.specs.Prelude.{◌≡◌, ◌≤◌, length};
ghost use Rattle.claim_queue.specs.Handles.{IsEndOf, IsOnlyEnd, view_of};
ghost use Rattle.table_theory.specs.Listing.{AllRaised};
ghost use Rattle.bindings.specs.QueueParts.{ClosedInto, EndedPart};

use super::held::HeldQueue;
use super::part::Part;
use super::taking::copy_left;
use crate::answer::SynthClosed;
use claim_queue::{ClaimQueue, QueueEnd};
use std::sync::Arc;

// Closes a queue by its only end.
fn close_queue<const N: usize>(
    queue: ClaimQueue<N>,
    end: QueueEnd<N>,
    out: &mut [u64],
) -> SynthClosed
    requires queue { IsEndOf queue end }
    requires only { IsOnlyEnd end }
    requires raised { AllRaised (view_of end).own.runs }
    requires buffer { N ≤ length out.old }
    ensures { ClosedInto out.old out.new result N queue.entry end.entry }
{
    let Ok(closed) = queue.close(end) else {
        unreachable!()
    };
    let left = copy_left(&closed.left, out);
    SynthClosed {
        first: closed.first,
        put: closed.put,
        taken: closed.taken,
        left,
    }
}

impl<const N: usize> Part<N> {
    /// `ClaimQueue::close`, when the end has all parts. Else the end is returned.
    pub fn close(self, out: &mut [u64]) -> Result<SynthClosed, Part<N>>
        requires { N ≤ length out.old }
        ensures { EndedPart out.old out.new N result self.entry }
    {
        if self.share.parts != u64::MAX {
            return Err(self);
        }
        let Part { queue, end, share } = self;
        let queue = match Arc::try_unwrap(queue) {
            Ok(queue) => queue,
            Err(queue) => {
                return Err(Part { queue, end, share });
            }
        };
        Ok(close_queue(queue, end, out))
    }
}

impl HeldQueue {
    ghost use Rattle.bindings.specs.QueueHeld.{places_of, EndedHeld};

    /// `ClaimQueue::close`, when the end has all parts. Else the end is returned.
    pub fn close(self, out: &mut [u64]) -> Result<SynthClosed, HeldQueue>
        requires { places_of self ≤ length out.old }
        ensures { EndedHeld out.old out.new result self }
    {
        match self {
            HeldQueue::Small(part) => match part.close(out) {
                Ok(closed) => Ok(closed),
                Err(part) => Err(HeldQueue::Small(part)),
            },
            HeldQueue::Large(part) => match part.close(out) {
                Ok(closed) => Ok(closed),
                Err(part) => Err(HeldQueue::Large(part)),
            },
        }
    }
}
