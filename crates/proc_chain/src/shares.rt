//! A split that gives as many parts as its caller says.
ghost use Rattle.std.specs.Prelude.{◌≡◌, ◌+◌, false};
ghost use Rattle.proc_chain.specs.Client.{OneEndMore};
ghost use Rattle.proc_chain.specs.Endings.{IsNewEndWith};
ghost use Rattle.proc_chain.specs.Evidence.{SplitShare};
ghost use Rattle.proc_chain.specs.Notes.{SameNotes};
ghost use Rattle.proc_chain.specs.Turns.{KeepsTaken};

use crate::ends::{ChainEnd, ProcChain};
use crate::quaject::Quaject;
use crate::steps::{count_up, split_share_off};
use std::marker::Brand;

impl<Q: Quaject> ProcChain<Q> {
    ghost use Rattle.proc_chain.specs.Handles.{view_of, turn_of, share_of, CanGive, IsEndOf, KeepsTurn, IsSameEnd};

    /// A new end, as `split` makes it, that has exactly `share` parts of the chain. The end keeps the rest. No end has
    /// the number of its parts, so the caller keeps account of the shares: the first end has 2^64 - 1 parts, and a join
    /// adds them up.
    ///
    /// Condition: `share` is 1 or more, and the end keeps a part or more.
    pub fn split_share(&self, end: &mut ChainEnd<Q>, share: u64) -> ChainEnd<Q>
        requires ends { IsEndOf self.now end.old }
        requires parts { CanGive end.old share }
        ensures effect { SameNotes (view_of end.old) (view_of end.new) }
        ensures count { OneEndMore (view_of end.old) (view_of end.new) }
        ensures owns { (share_of result ≡ share) × (share_of end.new + share ≡ share_of end.old) }
        ensures turns { KeepsTurn end.old end.new × (turn_of result ≡ false) }
        ensures born { IsNewEndWith share (view_of end.new) (view_of result) }
        ensures ends { IsEndOf self.now end.new × IsEndOf self.now result }
        ensures trace { SplitShare share (view_of end.old) (view_of end.new) }
        ensures handle { IsSameEnd end.old end.new × KeepsTaken (view_of end.old) (view_of end.new) }
    {
        // linearization point: the new end is counted, before it exists, so a close cannot miss it
        count_up(&self.table.shared, &mut end.seat);
        let seat = split_share_off::<_, Brand>(&self.table.shared, &mut end.seat, share);
        ChainEnd { seat, turn: false }
    }
}
