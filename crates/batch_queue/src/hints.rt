//! The number of places of a queue, and a hint of how many items are in the queue.
ghost use Rattle.std.specs.Prelude.{◌≡◌};
ghost use Rattle.batch_queue.specs.Client.{GoesOn, IsHeadMinusTail};
ghost use Rattle.batch_queue.specs.Evidence.{LookedAround};
ghost use Rattle.batch_queue.specs.Lines.{SameLines};

use crate::ends::{BatchEnd, BatchQueue};
use crate::layout::SHUT;
use crate::put::load_head;
use crate::take::load_tail;
use table_theory::protocol::Protocol;

impl<C: Protocol> BatchQueue<C> {
    ghost use Rattle.batch_queue.specs.Handles.{view_of, room_of, IsEndOf, IsSameEnd};

    /// The number of places of the queue.
    pub fn room(&self) -> usize
        ensures { result ≡ room_of self.now }
    {
        self.room
    }

    /// A hint of how many items are in the queue, published or not: the head minus the tail that was loaded before it.
    /// Both may have moved on when the call returns.
    pub fn len(&self, end: &mut BatchEnd) -> u64
        requires { IsEndOf self.now end.old }
        ensures effect { SameLines (view_of end.old) (view_of end.new) }
        ensures result { IsHeadMinusTail (view_of end.old) result (view_of end.new) }
        ensures frame { GoesOn (view_of end.old) (view_of end.new) }
        ensures trace { LookedAround (view_of end.old) result (view_of end.new) }
        ensures handle { IsSameEnd end.old end.new }
    {
        let words = &self.table.shared;
        // The tail is loaded first: the head never falls, so the head loaded after it is not below this tail.
        let tail = load_tail(words, &mut end.seat);
        let head = load_head(words, &mut end.seat);
        head % SHUT - tail
    }
}
