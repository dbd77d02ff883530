//! The end that a handle of meters holds.
ghost use Rattle.std.specs.Prelude.{◌≡◌, ◌<◌, MatchOption};
ghost use Rattle.std.specs.Arc.{arc_value};
ghost use Rattle.meters.specs.Handles.{IsSeatOf, view_of};

use crate::ends::End;
use crate::share::Share;
use arrayvec::ArrayVec;
use event_theory::Alarm;
use meters::{AdvanceRefusal, MeterSeat, Metered, Meters, SetRefusal};
use std::alloc::Global;
use std::sync::Arc;

/// One end of meters that other handles share.
#[derive(Drop)]
pub struct HeldSeat {
    pub(super) meters: Arc<Meters, Global>,
    pub(super) seat: MeterSeat,
    pub(super) share: Share,
    ghost own: { IsSeatOf (arc_value meters) seat },
    ghost known: { share.parts ≡ (view_of seat).member.share },
}

impl HeldSeat {
    ghost use Rattle.bindings.specs.SeatHeld.{IsNewSeat, WasTicked, WasAdvanced, WasSet, WasCancelled, WereFired};
    ghost use Rattle.bindings.specs.SeatHeld.{WasGauge, WasClock, Ended};

    /// The only end of new meters.
    pub fn new(alloc: Global, clock: u32, mark: u64) -> Option<HeldSeat>
        ensures { MatchOption result (Unit {0}) (IsNewSeat clock mark) }
    {
        let (meters, seat) = Meters::new(alloc, clock).ok()?;
        let meters = Arc::new(alloc, meters).ok()?;
        Some(HeldSeat {
            meters,
            seat,
            share: Share::all(mark),
        })
    }

    /// `Meters::tick`.
    pub fn tick(&mut self, gauge: usize, amount: u64) -> u64
        requires { gauge < 8 }
        ensures { WasTicked gauge amount result self.old self.new }
    {
        self.meters.tick(&mut self.seat, gauge, amount)
    }

    /// `Meters::advance`.
    pub fn advance(&mut self) -> Result<u32, AdvanceRefusal>
        ensures { WasAdvanced result self.old self.new }
    {
        self.meters.advance(&mut self.seat)
    }

    /// `Meters::try_set`.
    pub fn try_set(&mut self, alarm: Alarm) -> Result<usize, SetRefusal>
        ensures { WasSet alarm result self.old self.new }
    {
        self.meters.try_set(&mut self.seat, alarm)
    }

    /// `Meters::cancel`.
    pub fn cancel(&mut self, slot: usize, alarm: Alarm) -> bool
        requires { slot < 16 }
        ensures { WasCancelled slot alarm result self.old self.new }
    {
        self.meters.cancel(&mut self.seat, slot, alarm)
    }

    /// `Meters::due`.
    pub fn due(&mut self) -> ArrayVec<Alarm, 16>
        ensures { WereFired result.items self.old self.new }
    {
        self.meters.due(&mut self.seat)
    }

    /// `Meters::gauge`.
    pub fn gauge(&mut self, gauge: usize) -> u64
        requires { gauge < 8 }
        ensures { WasGauge gauge result self.old self.new }
    {
        self.meters.gauge(&mut self.seat, gauge)
    }

    /// `Meters::clock`.
    pub fn clock(&mut self) -> u32
        ensures { WasClock result self.old self.new }
    {
        self.meters.clock(&mut self.seat)
    }

    /// `Meters::close`, when the end has all parts. Else the end is returned.
    pub fn close(self) -> Result<Metered, HeldSeat>
        ensures { Ended result self }
    {
        if self.share.parts != u64::MAX {
            return Err(self);
        }
        let HeldSeat {
            meters,
            seat,
            share,
        } = self;
        let meters = match Arc::try_unwrap(meters) {
            Ok(meters) => meters,
            Err(meters) => {
                return Err(HeldSeat {
                    meters,
                    seat,
                    share,
                });
            }
        };
        let Ok(metered) = meters.close(seat) else {
            unreachable!()
        };
        Ok(metered)
    }
}

impl End for HeldSeat {
    ghost use Rattle.bindings.specs.Shares.{HasTwo, HasNoTwo, IsOneMark};
    ghost use Rattle.bindings.specs.SeatHeld.{SplitBy, Joined, AreOfOneTable};

    type Wish = ();

    ghost share = { λ x. x.share };

    ghost MaySplit = { λ _ x. HasTwo x.share };

    ghost MayNotSplit = { λ _ x. HasNoTwo x.share };

    ghost SplitBy = { λ _. SplitBy };

    ghost HaveOneMark = { λ x z. IsOneMark x.share z.share };

    ghost AreOfOne = { AreOfOneTable };

    ghost Joined = { Joined };

    fn why_not_split(&self, _wish: ()) -> Option<i32> {
        self.share.why_not_split()
    }

    fn split(&mut self, _wish: ()) -> Option<HeldSeat> {
        let meters = Arc::try_clone(&self.meters).ok()?;
        let seat = self.meters.split(&mut self.seat);
        Some(HeldSeat {
            meters,
            seat,
            share: self.share.split(),
        })
    }

    fn may_join(&self, other: &HeldSeat) -> bool {
        self.share.may_join(&other.share)
    }

    fn join(&mut self, other: HeldSeat) {
        let HeldSeat { seat, share, .. } = other;
        self.meters.join(&mut self.seat, seat);
        self.share.join(share);
    }
}
