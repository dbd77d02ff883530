//! The ends at which a quaject takes and puts lines: an end of a queue, which queue it is, and how many items went
//! through.
ghost use Rattle.std.specs.Prelude.{◌≡◌, [], ◌++◌, ◌∷◌, if◌then◌else◌};
ghost use Rattle.table_theory.specs.Listing.{AllRaised};
ghost use Rattle.claim_queue.specs.Claims.{KeepsClaims};
ghost use Rattle.claim_queue.specs.Endings.{JoinedBy};
ghost use Rattle.claim_queue.specs.Handles.{view_of, IsEndOf, IsSameEnd};
ghost use Rattle.claim_queue.specs.Lines.{lines_put, lines_taken};
ghost use Rattle.quajects.specs.Lines.{held_line, counted};
ghost use Rattle.quajects.specs.Ports.{IsEndAt, IsUnused, port, post_of};
ghost use Rattle.quajects.specs.Tries.{TriedTake, TriedPut};

use arrayvec::ArrayVec;
use claim_queue::{ClaimQueue, QueueEnd};

/// An end of a queue that came out of a quaject, and the index of that queue. Outside of this crate nobody makes one,
/// and nobody gets its end: its only use is to be joined to another end.
#[derive(Drop)]
pub struct Port<const N: usize> {
    index: usize,
    end: QueueEnd<N>,
}

/// An end at which a quaject takes lines.
#[derive(Drop)]
pub struct Intake<const N: usize> {
    index: usize,
    end: QueueEnd<N>,
    pub(crate) taken: u64,
    ghost number: { taken ≡ counted (lines_taken (view_of end)) },
    ghost only: { lines_put (view_of end) ≡ [] },
}

/// An end at which a quaject puts lines.
#[derive(Drop)]
pub struct Outlet<const N: usize> {
    index: usize,
    end: QueueEnd<N>,
    pub(crate) put: u64,
    ghost number: { put ≡ counted (lines_put (view_of end)) },
    ghost only: { lines_taken (view_of end) ≡ [] },
    ghost raised: { AllRaised (view_of end).own.runs },
}

impl<const N: usize> Port<N> {
    /// The index of the queue to which its end belongs.
    pub fn index(&self) -> usize
        ensures { result ≡ self.now.index }
    {
        self.index
    }

    /// Joins its end to this one, which then has all that both had: their claims, what they took, and their parts of
    /// the queue.
    ///
    /// Conditions: both are ends of this queue.
    pub fn join_into(self, queue: &ClaimQueue<N>, end: &mut QueueEnd<N>)
        requires { IsEndOf queue.now end.old × IsEndOf queue.now self.end }
        ensures effect { (lines_put (view_of end.new) ≡ lines_put (view_of end.old)
            ++ lines_put (view_of self.entry.end))
            × (lines_taken (view_of end.new) ≡ lines_taken (view_of end.old) ++ lines_taken (view_of self.entry.end)) }
        ensures joined { JoinedBy (view_of end.old) (view_of self.entry.end) (view_of end.new) }
        ensures claims { KeepsClaims (view_of end.old) (view_of end.new)
            × KeepsClaims (view_of self.entry.end) (view_of end.new) }
        ensures handle { IsSameEnd end.old end.new }
    {
        queue.join(end, self.end);
    }
}

impl<const N: usize> Intake<N> {
    pub(crate) fn new(index: usize, end: QueueEnd<N>) -> Intake<N>
        requires { IsUnused (view_of end) }
        ensures { (result.index ≡ index) × (result.end ≡ end.entry) × (result.taken ≡ 0) }
    {
        Intake {
            index,
            end,
            taken: 0,
        }
    }

    pub(crate) fn into_end(self) -> QueueEnd<N>
        ensures { result ≡ self.entry.end }
    {
        self.end
    }

    pub(crate) fn into_port(self) -> Port<N>
        ensures { result ≡ port self.entry.index self.entry.end }
    {
        Port {
            index: self.index,
            end: self.end,
        }
    }

    /// One try to take a line. Returns true if one was taken.
    pub(crate) fn try_line(&mut self, queues: &[ClaimQueue<N>], line: &mut ArrayVec<u64, N>) -> bool
        requires at { IsEndAt queues.now self.old.index self.old.end }
        requires empty { line.old.items ≡ [] }
        ensures at { IsEndAt queues.now self.new.index self.new.end }
        ensures handle { post_of self.new.index self.new.end ≡ post_of self.old.index self.old.end }
        ensures tried { TriedTake N (view_of self.old.end) result line.new.items
            (view_of self.new.end) }
        ensures effect { lines_taken (view_of self.new.end) ≡ lines_taken (view_of self.old.end)
            ++ held_line line.new.items }
    {
        let source = &queues[self.index];
        let took = source.try_take_line(&mut self.end, line).is_ok();
        self.taken = self.taken.wrapping_add(line.len() as u64);
        took
    }
}

impl<const N: usize> Outlet<N> {
    pub(crate) fn new(index: usize, end: QueueEnd<N>) -> Outlet<N>
        requires { IsUnused (view_of end) }
        ensures { (result.index ≡ index) × (result.end ≡ end.entry) × (result.put ≡ 0) }
    {
        Outlet { index, end, put: 0 }
    }

    pub(crate) fn into_end(self) -> QueueEnd<N>
        ensures { result ≡ self.entry.end }
    {
        self.end
    }

    pub(crate) fn into_port(self) -> Port<N>
        ensures { result ≡ port self.entry.index self.entry.end }
    {
        Port {
            index: self.index,
            end: self.end,
        }
    }

    /// One try to put a line. Returns true if it was put.
    pub(crate) fn try_line(&mut self, queues: &[ClaimQueue<N>], line: &[u64]) -> bool
        requires at { IsEndAt queues.now self.old.index self.old.end }
        ensures at { IsEndAt queues.now self.new.index self.new.end }
        ensures handle { post_of self.new.index self.new.end ≡ post_of self.old.index self.old.end }
        ensures tried { TriedPut N (view_of self.old.end) result line.now
            (view_of self.new.end) }
        ensures effect { lines_put (view_of self.new.end) ≡ (if result then lines_put (view_of self.old.end)
            ++ line.now ∷ [] else lines_put (view_of self.old.end)) }
    {
        let target = &queues[self.index];
        let put = target.try_put(&mut self.end, line).is_ok();
        if put {
            self.put = self.put.wrapping_add(line.len() as u64);
        }
        put
    }
}
