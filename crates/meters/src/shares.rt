//! A split that gives as many parts as its caller says.
ghost use Rattle.std.specs.Prelude.{◌≡◌, ◌+◌};
ghost use Rattle.meters.specs.Client.{CountsOneMore, ChangesNothing};
ghost use Rattle.table_theory.specs.Moments.{StepsAtMost};
ghost use Rattle.meters.specs.Endings.{IsNewEndWith};
ghost use Rattle.meters.specs.Evidence.{SplitShare};
ghost use Rattle.meters.specs.Own.{DidSplitShare};

use crate::ends::{MeterSeat, Meters};
use crate::layout::ENDS;
use std::marker::Brand;
use table_theory::end_steps::{count_up, split_share_off};

impl Meters {
    ghost use Rattle.meters.specs.Handles.{view_of, share_of, CanGive, IsSeatOf, IsSameSeat, AreOfOneTable};

    /// A new end, as `split` makes it, that has exactly `share` parts of the meters. The end keeps the rest. An end has no
    /// bytes, so the caller keeps account of the shares: the first end has 2^64 - 1 parts, and a join adds them up.
    ///
    /// Condition: `share` is 1 or more, and the end keeps a part or more.
    pub fn split_share(&self, seat: &mut MeterSeat, share: u64) -> MeterSeat
        requires seat { IsSeatOf self.now seat.old }
        requires parts { CanGive seat.old share }
        ensures effect { CountsOneMore (view_of seat.old) (view_of seat.new) }
        ensures frame { ChangesNothing (view_of seat.old) (view_of seat.new) }
        ensures owns { DidSplitShare share (view_of seat.old) (view_of seat.new) × (share_of result ≡ share)
            × (share_of seat.new + share ≡ share_of seat.old) }
        ensures born { IsNewEndWith share (view_of seat.new) (view_of result) }
        ensures steps { StepsAtMost 1 (view_of seat.old) (view_of seat.new) }
        ensures trace { SplitShare share (view_of seat.old) (view_of seat.new) }
        ensures handle { IsSameSeat seat.old seat.new × AreOfOneTable seat.old result }
    {
        // linearization point: the number of ends becomes one more, before the new end is made, so it is never too low
        count_up(&self.table.shared, &mut seat.seat, ENDS);
        // the first word is loaded too, and its number is not used
        let new = split_share_off::<_, _, _, _, _, Brand>(
            &self.table.shared,
            &mut seat.seat,
            share,
        );
        MeterSeat { seat: new }
    }
}
