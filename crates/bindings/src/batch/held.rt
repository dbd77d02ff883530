//! The end that a handle of a batch queue holds.
ghost use Rattle.std.specs.Prelude.{◌≡◌, MatchBool, MatchOption};
ghost use Rattle.std.specs.Arc.{arc_value};
ghost use Rattle.batch_queue.specs.Handles.{IsEndOf, view_of};

use crate::ends::End;
use crate::share::Share;
use batch_queue::{BatchEnd, BatchQueue, MOST_PLACES, PutRefusal, QueueLook, TakeRefusal};
use std::alloc::Global;
use std::sync::Arc;

/// One end of a batch queue that other handles share.
#[derive(Drop)]
pub struct HeldBatch {
    pub(super) queue: Arc<BatchQueue, Global>,
    pub(super) end: BatchEnd,
    pub(super) share: Share,
    ghost own: { IsEndOf (arc_value queue) end },
    ghost known: { share.parts ≡ (view_of end).member.share },
}

impl HeldBatch {
    ghost use Rattle.bindings.specs.BatchHeld.{IsCapacity, IsNewBatch, places_of, Put, PutSome, Took, TookUpTo};
    ghost use Rattle.bindings.specs.BatchHeld.{Counted, WasShut, WasLookedAt};

    /// Whether a queue can have so many places: a power of two, 2^24 at most.
    pub fn is_capacity(places: usize) -> bool
        ensures { MatchBool result (IsCapacity places) (IsCapacity places → ⊥) }
    {
        if places == 0 || places > MOST_PLACES {
            return false;
        }
        if places.next_power_of_two() != places {
            return false;
        }
        true
    }

    /// The only end of an empty queue of so many places.
    pub fn new(alloc: Global, places: usize, mark: u64) -> Option<HeldBatch>
        requires { IsCapacity places }
        ensures { MatchOption result (Unit {0}) (IsNewBatch places mark) }
    {
        let (queue, end) = BatchQueue::new(alloc, places).ok()?;
        let queue = Arc::new(alloc, queue).ok()?;
        let share = Share::all(mark);
        Some(HeldBatch { queue, end, share })
    }

    /// How many places the queue has.
    pub fn places(&self) -> usize
        ensures { result ≡ places_of self.now }
    {
        self.queue.room()
    }

    /// `BatchQueue::try_put`.
    pub fn try_put(&mut self, items: &[u64]) -> Result<u64, PutRefusal>
        ensures { Put items.now result self.old self.new }
    {
        self.queue.try_put(&mut self.end, items)
    }

    /// `BatchQueue::try_put_some`.
    pub fn try_put_some(&mut self, items: &[u64]) -> Result<(u64, usize), PutRefusal>
        ensures { PutSome items.now result self.old self.new }
    {
        self.queue.try_put_some(&mut self.end, items)
    }

    /// `BatchQueue::try_take`.
    pub fn try_take(&mut self, items: &mut [u64]) -> Result<usize, TakeRefusal>
        ensures { Took items.old items.new result self.old self.new }
    {
        self.queue.try_take(&mut self.end, items)
    }

    /// `BatchQueue::try_take_some`.
    pub fn try_take_some(&mut self, items: &mut [u64]) -> Result<usize, TakeRefusal>
        ensures { TookUpTo items.old items.new result self.old self.new }
    {
        self.queue.try_take_some(&mut self.end, items)
    }

    /// `BatchQueue::len`.
    pub fn len(&mut self) -> u64
        ensures { Counted result self.old self.new }
    {
        self.queue.len(&mut self.end)
    }

    /// `BatchQueue::shut`.
    pub fn shut(&mut self) -> bool
        ensures { WasShut result self.old self.new }
    {
        self.queue.shut(&mut self.end)
    }

    /// `BatchQueue::look`.
    pub fn look(&mut self) -> QueueLook
        ensures { WasLookedAt result self.old self.new }
    {
        self.queue.look(&mut self.end)
    }
}

impl End for HeldBatch {
    ghost use Rattle.bindings.specs.Shares.{HasTwo, HasNoTwo, IsOneMark};
    ghost use Rattle.bindings.specs.BatchHeld.{SplitBy, Joined, AreOfOneQueue};

    type Wish = ();

    ghost share = { λ x. x.share };

    ghost MaySplit = { λ _ x. HasTwo x.share };

    ghost MayNotSplit = { λ _ x. HasNoTwo x.share };

    ghost SplitBy = { λ _. SplitBy };

    ghost HaveOneMark = { λ x z. IsOneMark x.share z.share };

    ghost AreOfOne = { AreOfOneQueue };

    ghost Joined = { Joined };

    fn why_not_split(&self, _wish: ()) -> Option<i32> {
        self.share.why_not_split()
    }

    fn split(&mut self, _wish: ()) -> Option<HeldBatch> {
        let queue = Arc::try_clone(&self.queue).ok()?;
        let end = self.queue.split(&mut self.end);
        let share = self.share.split();
        Some(HeldBatch { queue, end, share })
    }

    fn may_join(&self, other: &HeldBatch) -> bool {
        self.share.may_join(&other.share)
    }

    fn join(&mut self, other: HeldBatch) {
        let HeldBatch { end, share, .. } = other;
        self.queue.join(&mut self.end, end);
        self.share.join(share);
    }
}
