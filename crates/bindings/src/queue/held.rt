//! The end that a handle of a queue holds.
ghost use Rattle.std.specs.Prelude.{◌≡◌, ◌≤◌, length, MatchBool, MatchOption};
ghost use Rattle.bindings.specs.QueueHeld.{AtSize, AtSizes, IsSize, HaveOneMark, AreOfOneQueue, IsNewHeld, places_of};
ghost use Rattle.bindings.specs.QueueHeld.{share_of};
ghost use Rattle.bindings.specs.QueueParts.{PutPart, TookPart, TookLinePart, TookSomePart, ShutPart, DividedPart};
ghost use Rattle.bindings.specs.QueueParts.{JoinedPart, LookedAtPart};
ghost use Rattle.bindings.specs.Shares.{HasTwo, HasNoTwo};

use super::part::Part;
use crate::ends::End;
use claim_queue::{ClaimRefusal, QueueLook, TakeRefusal};
use std::alloc::Global;

/// An end of a queue of either size.
#[derive(Drop)]
pub enum HeldQueue {
    Small(Part<64>),
    Large(Part<256>),
}

/// Whether a queue can have so many places.
pub fn is_size(places: u32) -> bool
    ensures { MatchBool result (IsSize places) (IsSize places → ⊥) }
{
    places == 64 || places == 256
}

impl HeldQueue {
    /// The only end of an empty queue of so many places.
    pub fn new(alloc: Global, places: u32, first: u32, mark: u64) -> Option<HeldQueue>
        requires { IsSize places }
        ensures { MatchOption result (Unit {0}) (IsNewHeld places first mark) }
    {
        if places == 64 {
            return Some(HeldQueue::Small(Part::new(alloc, first, mark)?));
        }
        Some(HeldQueue::Large(Part::new(alloc, first, mark)?))
    }

    /// How many places the queue has.
    pub fn places(&self) -> usize
        ensures { result ≡ places_of self.now }
    {
        match self {
            HeldQueue::Small(_) => 64,
            HeldQueue::Large(_) => 256,
        }
    }

    /// `ClaimQueue::try_put`.
    pub fn try_put(&mut self, items: &[u64]) -> Result<u32, ClaimRefusal>
        ensures { AtSize (PutPart items.now result) self.old self.new }
    {
        match self {
            HeldQueue::Small(part) => part.try_put(items),
            HeldQueue::Large(part) => part.try_put(items),
        }
    }

    /// `ClaimQueue::try_take`.
    pub fn try_take(&mut self) -> Result<u64, TakeRefusal>
        ensures { AtSize (TookPart result) self.old self.new }
    {
        match self {
            HeldQueue::Small(part) => part.try_take(),
            HeldQueue::Large(part) => part.try_take(),
        }
    }

    /// Takes items one by one, until a taking is refused or the buffer is full.
    pub fn take_up_to(&mut self, out: &mut [u64]) -> (usize, Option<TakeRefusal>)
        ensures { AtSize (TookSomePart out.old out.new result) self.old self.new }
    {
        match self {
            HeldQueue::Small(part) => part.take_up_to(out),
            HeldQueue::Large(part) => part.take_up_to(out),
        }
    }

    /// `ClaimQueue::try_take_line`. The line is at the beginning of the buffer, and its length is the answer.
    pub fn try_take_line(&mut self, out: &mut [u64]) -> Result<usize, TakeRefusal>
        requires { places_of self.old ≤ length out.old }
        ensures { AtSize (TookLinePart out.old out.new result) self.old self.new }
    {
        match self {
            HeldQueue::Small(part) => part.try_take_line(out),
            HeldQueue::Large(part) => part.try_take_line(out),
        }
    }

    /// `ClaimQueue::shut`.
    pub fn shut(&mut self) -> bool
        ensures { AtSize (ShutPart result) self.old self.new }
    {
        match self {
            HeldQueue::Small(part) => part.shut(),
            HeldQueue::Large(part) => part.shut(),
        }
    }

    /// `ClaimQueue::look`.
    pub fn look(&mut self) -> QueueLook
        ensures { AtSize (LookedAtPart result) self.old self.new }
    {
        match self {
            HeldQueue::Small(part) => part.look(),
            HeldQueue::Large(part) => part.look(),
        }
    }
}

impl End for HeldQueue {
    type Wish = ();

    ghost share = { share_of };

    ghost MaySplit = { λ _ x. HasTwo (share_of x) };

    ghost MayNotSplit = { λ _ x. HasNoTwo (share_of x) };

    ghost SplitBy = { λ _. AtSizes DividedPart };

    ghost HaveOneMark = { HaveOneMark };

    ghost AreOfOne = { AreOfOneQueue };

    ghost Joined = { AtSizes JoinedPart };

    fn why_not_split(&self, _wish: ()) -> Option<i32> {
        match self {
            HeldQueue::Small(part) => part.share.why_not_split(),
            HeldQueue::Large(part) => part.share.why_not_split(),
        }
    }

    fn split(&mut self, _wish: ()) -> Option<HeldQueue> {
        match self {
            HeldQueue::Small(part) => Some(HeldQueue::Small(part.split()?)),
            HeldQueue::Large(part) => Some(HeldQueue::Large(part.split()?)),
        }
    }

    fn may_join(&self, other: &HeldQueue) -> bool {
        match (self, other) {
            (HeldQueue::Small(part), HeldQueue::Small(other)) => part.share.may_join(&other.share),
            (HeldQueue::Large(part), HeldQueue::Large(other)) => part.share.may_join(&other.share),
            _ => false,
        }
    }

    fn join(&mut self, other: HeldQueue) {
        match (self, other) {
            (HeldQueue::Small(part), HeldQueue::Small(other)) => part.join(other),
            (HeldQueue::Large(part), HeldQueue::Large(other)) => part.join(other),
            _ => unreachable!(),
        }
    }
}
