//! One end of a queue, whose queue other handles share.
ghost use Rattle.std.specs.Prelude.{◌≡◌, ◌≤◌, length, MatchOption};
ghost use Rattle.std.specs.Arc.{arc_value};
ghost use Rattle.claim_queue.specs.Handles.{IsEndOf, view_of};
ghost use Rattle.table_theory.specs.Listing.{AllRaised};

use super::taking::{copy_line, take_up_to};
use crate::share::Share;
use arrayvec::ArrayVec;
use claim_queue::{ClaimQueue, ClaimRefusal, QueueEnd, QueueLook, TakeRefusal};
use std::alloc::Global;
use std::sync::Arc;

/// One end of a queue that other handles share. It has raised all that it claimed.
#[derive(Drop)]
pub struct Part<const N: usize> {
    pub(super) queue: Arc<ClaimQueue<N>, Global>,
    pub(super) end: QueueEnd<N>,
    pub(super) share: Share,
    ghost own: { IsEndOf (arc_value queue) end },
    ghost known: { share.parts ≡ (view_of end).member.share },
    ghost raised: { AllRaised (view_of end).own.runs },
}

impl<const N: usize> Part<N> {
    ghost use Rattle.bindings.specs.QueueParts.{IsNewPart, PutPart, TookPart, TookLinePart, TookSomePart, ShutPart};
    ghost use Rattle.bindings.specs.QueueParts.{DividedPart, JoinedPart, IsOneQueue, LookedAtPart};
    ghost use Rattle.bindings.specs.Shares.{Fit, HasTwo};

    /// An empty queue's first and only end.
    pub fn new(alloc: Global, first: u32, mark: u64) -> Option<Part<N>>
        requires { (1 ≤ N) × (N ≤ 256) }
        ensures { MatchOption result (Unit {0}) (λ p. IsNewPart first mark N p) }
    {
        let (queue, end) = ClaimQueue::<N>::new(alloc, first).ok()?;
        let queue = Arc::new(alloc, queue).ok()?;
        let share = Share::all(mark);
        Some(Part { queue, end, share })
    }

    /// A new end of the queue, or None if no more handles can be counted.
    pub fn split(&mut self) -> Option<Part<N>>
        requires { HasTwo self.old.share }
        ensures { MatchOption result (self.new ≡ self.old) (λ born. DividedPart N self.old self.new born) }
    {
        let queue = Arc::try_clone(&self.queue).ok()?;
        let end = self.queue.split(&mut self.end);
        let share = self.share.split();
        Some(Part { queue, end, share })
    }

    /// Takes in another end of the queue.
    pub fn join(&mut self, other: Part<N>)
        requires one_queue { IsOneQueue N self.old other }
        requires parts { Fit self.old.share other.share }
        ensures { JoinedPart N self.old self.new other.entry }
    {
        let Part { end, share, .. } = other;
        self.queue.join(&mut self.end, end);
        self.share.join(share);
    }

    /// `ClaimQueue::try_put`.
    pub fn try_put(&mut self, items: &[u64]) -> Result<u32, ClaimRefusal>
        ensures { PutPart items.now result N self.old self.new }
    {
        self.queue.try_put(&mut self.end, items)
    }

    /// `ClaimQueue::try_take`.
    pub fn try_take(&mut self) -> Result<u64, TakeRefusal>
        ensures { TookPart result N self.old self.new }
    {
        self.queue.try_take(&mut self.end)
    }

    /// Repeats `ClaimQueue::try_take` until it is refused or the buffer is full.
    pub fn take_up_to(&mut self, out: &mut [u64]) -> (usize, Option<TakeRefusal>)
        ensures { TookSomePart out.old out.new result N self.old self.new }
    {
        take_up_to(&self.queue, &mut self.end, out)
    }

    /// `ClaimQueue::try_take_line`. The line is at the beginning of the buffer, and its length is the answer.
    pub fn try_take_line(&mut self, out: &mut [u64]) -> Result<usize, TakeRefusal>
        requires { N ≤ length out.old }
        ensures { TookLinePart out.old out.new result N self.old self.new }
    {
        let mut line = ArrayVec::<u64, N>::new();
        match self.queue.try_take_line(&mut self.end, &mut line) {
            Ok(taken) => {
                copy_line(line.as_slice(), out);
                Ok(taken)
            }
            Err(refusal) => Err(refusal),
        }
    }

    /// `ClaimQueue::shut`.
    pub fn shut(&mut self) -> bool
        ensures { ShutPart result N self.old self.new }
    {
        self.queue.shut(&mut self.end)
    }

    /// `ClaimQueue::look`.
    pub fn look(&mut self) -> QueueLook
        ensures { LookedAtPart result N self.old self.new }
    {
        self.queue.look(&mut self.end)
    }
}
