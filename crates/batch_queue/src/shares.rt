//! A split that gives as many parts as its caller says.
ghost use Rattle.std.specs.Prelude.{◌≡◌, ◌+◌};
ghost use Rattle.batch_queue.specs.Client.{GoesOn};
ghost use Rattle.batch_queue.specs.Endings.{IsNewEndWith};
ghost use Rattle.batch_queue.specs.Evidence.{SplitShare};
ghost use Rattle.batch_queue.specs.Lines.{lines_put, lines_taken, times_parted};

use crate::ends::{BatchEnd, BatchQueue};
use crate::layout::ENDS;
use std::marker::Brand;
use table_theory::end_steps::{count_up, split_share_off};
use table_theory::protocol::Protocol;

impl<C: Protocol> BatchQueue<C> {
    ghost use Rattle.batch_queue.specs.Handles.{view_of, share_of, CanGive, IsEndOf, IsSameEnd, AreOfOneQueue};

    /// A new end, as `split` makes it, that has exactly `share` parts of the queue. The end keeps the rest. An end has no
    /// bytes, so the caller keeps account of the shares: the first end has 2^64 - 1 parts, and a join adds them up.
    ///
    /// Condition: `share` is 1 or more, and the end keeps a part or more.
    pub fn split_share(&self, end: &mut BatchEnd, share: u64) -> BatchEnd
        requires queue { IsEndOf self.now end.old }
        requires parts { CanGive end.old share }
        ensures effect { (lines_put (view_of end.new) ≡ lines_put (view_of end.old))
            × (lines_taken (view_of end.new) ≡ lines_taken (view_of end.old))
            × (times_parted (view_of end.new) ≡ times_parted (view_of end.old)) }
        ensures result { IsNewEndWith share (view_of end.new) (view_of result) }
        ensures owns { (share_of result ≡ share) × (share_of end.new + share ≡ share_of end.old) }
        ensures frame { GoesOn (view_of end.old) (view_of end.new) }
        ensures trace { SplitShare share (view_of end.old) (view_of end.new) }
        ensures handle { IsSameEnd end.old end.new × AreOfOneQueue end.old result }
    {
        // linearization point: the new end is counted, before it exists, so a close cannot miss it
        count_up(&self.table.shared, &mut end.seat, ENDS);
        let seat = split_share_off::<_, _, _, _, _, Brand>(
            &self.table.shared,
            &mut end.seat,
            share,
        );
        BatchEnd { seat }
    }
}
