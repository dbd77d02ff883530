//! A look at a queue, for monitoring: how many items are in the queue, whether the queue is shut, and whether a put
//! that has not ended holds up the takers.
ghost use Rattle.std.specs.Prelude.{◌≡◌, ◌+◌, ◌<◌, ◌≤◌, min};
ghost use Rattle.table_theory.specs.declared.positions.TheConstants.{POSITIONS};
ghost use Rattle.table_theory.specs.Positioned.{Grows, tail_of};
ghost use Rattle.claim_queue.specs.Claims.{KeepsClaims};
ghost use Rattle.claim_queue.specs.Client.{LookedAt};
ghost use Rattle.claim_queue.specs.Evidence.{HasLooked};
ghost use Rattle.claim_queue.specs.Lines.{SameLines};
ghost use Rattle.claim_queue.specs.Walks.{AreRaised, IsNotRaised, HasWalked, LookAgrees};

use crate::ends::{ClaimQueue, QueueEnd};
use crate::layout::SHUT;
use crate::steps::{load_flag, load_head, load_tail};
use table_theory::protocol::Protocol;

/// The numbers that a look at a queue found. They were loaded one after the other, and may have changed since.
#[derive(Clone, Copy, Debug, PartialEq, Eq, Drop)]
pub struct QueueLook {
    /// The position of the next item that is taken.
    pub tail: u32,
    /// The position of the next item that is claimed. It was loaded after the tail.
    pub head: u32,
    /// The queue is shut.
    pub shut: bool,
    /// The number of items that are raised from the tail on, without a gap. The count ends at the head, and at N. If
    /// the count ends earlier, the flag of the next position was not raised. Either the put of that position has not
    /// ended, and no taking gets past it, or the tail has passed the position since.
    pub raised: u32,
}

impl QueueLook {
    /// How many positions are left for claims. A claim of more items is Spent.
    pub fn positions_left(&self) -> u32
        ensures { self.now.head + result + 1 ≡ POSITIONS }
    {
        u32::MAX - self.head
    }
}

impl<const N: usize, C: Protocol> ClaimQueue<N, C> {
    ghost use Rattle.claim_queue.specs.Handles.{view_of, IsEndOf, IsSameEnd};

    // The number of items that are raised from `tail` on, without a gap, at most `most`.
    fn count_raised(&self, end: &mut QueueEnd<N>, tail: u64, most: usize) -> usize
        requires queue { IsEndOf self.now end.old }
        requires tail { ((view_of end.old).seen.object.first ≤ tail) × (tail ≤ tail_of (view_of end.old).seen.object)
            × (tail < POSITIONS) }
        requires within { most ≤ N }
        ensures grows { Grows (view_of end.old).seen.object (view_of end.new).seen.object }
        ensures most { result ≤ most }
        ensures raised { AreRaised (view_of end.new).seen.object tail result }
        ensures next { result < most → IsNotRaised (view_of end.new).seen.object (tail + result) }
        ensures trace { HasWalked N tail most result (view_of end.old) (view_of end.new) }
        ensures handle { IsSameEnd end.old end.new }
    {
        for i in 0..most {
            let position = tail + i as u64;
            // One load suffices: an item that is raised stays raised, whether or not it is then taken.
            let flag = load_flag(&self.table.shared, &mut end.seat, N, position);
            if flag != position + 1 {
                return i;
            }
        }
        most
    }

    /// Loads the tail, then the head, and then the flags from that tail on. It ends at the first flag that is not
    /// raised, at that head, or after N flags. It makes at most N + 2 loads, and changes nothing.
    pub fn look(&self, end: &mut QueueEnd<N>) -> QueueLook
        requires { IsEndOf self.now end.old }
        ensures effect { SameLines (view_of end.old) (view_of end.new) }
        ensures result { LookAgrees N result (view_of end.new).seen.object }
        ensures frame { KeepsClaims (view_of end.old) (view_of end.new) }
        ensures shuts_nothing { (view_of end.new).own.shuts ≡ (view_of end.old).own.shuts }
        ensures moments { LookedAt (view_of end.old) result (view_of end.new) }
        ensures trace { HasLooked N (view_of end.old) result (view_of end.new) }
        ensures handle { IsSameEnd end.old end.new }
    {
        // The tail is loaded first: the head never falls, so the head loaded after it is not below this tail.
        let tail = load_tail(&self.table.shared, &mut end.seat);
        let word = load_head(&self.table.shared, &mut end.seat);
        let head = word % SHUT;
        let most = N.min((head - tail) as usize);
        let raised = self.count_raised(end, tail, most);
        QueueLook {
            tail: tail as u32,
            head: head as u32,
            shut: word >= SHUT,
            raised: raised as u32,
        }
    }
}
