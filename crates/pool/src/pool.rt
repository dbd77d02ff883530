//! The pool and its holders.
//!
//! A holder is an end of the pool's queue, which lists what it put and took, so it needs no list of its own. The
//! functions of `batch_queue::laws` have empty bodies. They are called because the proofs use their clauses.
//!
//! A release may be Full although the queue has a place for each buffer. A holder that is preempted within its acquire
//! keeps the places of what it takes until it runs again, while the others go round the queue. More places make that
//! rarer, and no number rules it out. So a release is repeated while it is Full, with a yield, as `give_back` does.
ghost use Rattle.std.specs.Prelude.{◌≡◌, ◌+◌, ◌<◌, ◌≤◌, ℕ, length, take, IfErr, IfOk, MatchResult};
ghost use Rattle.table_theory.specs.Ledgers.{WereOpen};
ghost use Rattle.batch_queue.specs.Client.{GoesOn, PartsOnlyIfFull, TookAllPublished, WereSome, WhyNotPut};
ghost use Rattle.batch_queue.specs.Evidence.{IsPut, JoinedBy, RefusedPut, RefusedTakeSome, SplitBy, TookSome};
ghost use Rattle.batch_queue.specs.Handles as queues;
ghost use Rattle.batch_queue.specs.Layout.{ends_word};
ghost use Rattle.batch_queue.specs.Lefts.{items_left};
ghost use Rattle.batch_queue.specs.Parts.{WhyNotTakenSome};
ghost use Rattle.pool.specs.Buffers.{all_buffers, AreBuffers};
ghost use Rattle.pool.specs.Holdings.{IsFair, Acquired, PutAllOnce, Released};

use crate::lending::Lending;
use batch_queue::laws::{joins_are_true, lists_are_true, never_below, numbers_say};
use batch_queue::{BatchEnd, BatchQueue, Closed, LeftItems, OpenEnds, PutRefusal, TakeRefusal};
use event_theory::OutOfMemory;
use std::alloc::Global;

/// The maximum number of buffers of a pool, 2^24.
pub const MOST_BUFFERS: usize = 16_777_216;

/// A pool of buffers, which are the numbers from 0 on. The free buffers are the items of a queue, in batches: first all
/// of them as one batch, and then as they were released.
#[derive(Drop)]
pub struct Pool {
    queue: BatchQueue<Lending>,
    count: usize,
    ghost some: { 0 < count },
}

/// A holder of buffers of a pool: the buffers that it acquired and did not release. It has no bytes. A dropped holder
/// keeps its buffers for good.
#[derive(Drop)]
pub struct Holder {
    end: BatchEnd,
    ghost fair: { IsFair (queues.view_of end) },
}

/// All buffers of a pool of so many.
fn all_buffers(alloc: Global, count: usize) -> Result<Vec<u64>, OutOfMemory>
    ensures { IfOk result (λ buffers. buffers.items ≡ all_buffers count) }
{
    let mut buffers = Vec::with_capacity(alloc, count)?;
    for buffer in 0..count {
        buffers.push(buffer as u64)?;
    }
    Ok(buffers)
}

impl Pool {
    ghost use Rattle.pool.specs.Handles.{view_of, count_of, room_of, IsHolderOf, IsOnlyHolder, IsDivisible};
    ghost use Rattle.pool.specs.Handles.{share_of, Holds, HoldsNone, HoldsSame, HoldsBoth, SameShare, SharesOut};
    ghost use Rattle.pool.specs.Handles.{AllThere, HasRoomFor};

    /// A pool of so many buffers, all of them free in ascending order, and its only holder, which holds none. The queue
    /// has the least power of two of places that is enough.
    ///
    /// Condition: there is a buffer, and there are at most 2^24.
    pub fn new(alloc: Global, count: usize) -> Result<(Pool, Holder), OutOfMemory>
        requires { (0 < count) × (count ≤ MOST_BUFFERS) }
        ensures pool { IfOk result (λ r. IsHolderOf r.0 r.1 × (count_of r.0 ≡ count) × HasRoomFor count (room_of r.0)) }
        ensures holder { IfOk result (λ r. IsOnlyHolder r.1 × HoldsNone r.1) }
        ensures stock { IfOk result (λ r. PutAllOnce count (view_of r.1)) }
    {
        let buffers = all_buffers(alloc, count)?;
        let (queue, mut end) = BatchQueue::new_as(alloc, count.next_power_of_two())?;
        lists_are_true();
        numbers_say();
        let Ok(_) = queue.try_put_as(&mut end, buffers.as_slice()) else {
            unreachable!()
        };
        Ok((Pool { queue, count }, Holder { end }))
    }

    /// One try to acquire free buffers: as many as are free and fit the slice, in the order in which they were
    /// released. Their numbers are then the first of the slice, each below the number of buffers of the pool. Returns
    /// how many there are. The refusals are those of `BatchQueue::try_take_some`, except Closed, since no holder shuts
    /// the queue.
    pub fn acquire(&self, holder: &mut Holder, buffers: &mut [u64]) -> Result<usize, TakeRefusal>
        requires { IsHolderOf self.now holder.old }
        ensures pool { IsHolderOf self.now holder.new }
        ensures effect { MatchResult result
            (λ n. Acquired n buffers.old buffers.new (view_of holder.old) (view_of holder.new))
            (λ r. HoldsSame holder.old holder.new × (buffers.new ≡ buffers.old)) }
        ensures result { IfOk result (λ n. AreBuffers (count_of self.now) (take n buffers.new)) }
        ensures order { IfOk result (λ n. WereSome (view_of holder.old) (take n buffers.new) (view_of holder.new)
            × TookAllPublished (view_of holder.old) (room_of self.now) (length buffers.old) n (view_of holder.new)
            × PartsOnlyIfFull (view_of holder.old) (room_of self.now) (length buffers.old) n (view_of holder.new)) }
        ensures frame { GoesOn (view_of holder.old) (view_of holder.new) }
        ensures holds { IfOk result (λ n. Holds holder.new (take n buffers.new)) }
        ensures error { IfErr result (λ r. WhyNotTakenSome (view_of holder.old) (length buffers.old) r
            (view_of holder.new)) }
        ensures trace { MatchResult result
            (λ n. TookSome (room_of self.now) (view_of holder.old) (length buffers.old) (take n buffers.new)
            (view_of holder.new))
            (λ r. RefusedTakeSome (room_of self.now) (view_of holder.old) (length buffers.old) r (view_of holder.new)) }
        ensures share { SameShare holder.old holder.new }
    {
        lists_are_true();
        self.queue.try_take_some_as(&mut holder.end, buffers)
    }

    /// One try to release buffers: all of them or none, as one batch. They are free once the call has published them.
    /// The refusals are those of `BatchQueue::try_put`. Full is possible while another holder is within an acquire: the
    /// places of the buffers that it took are not freed yet.
    ///
    /// Condition: the holder holds these buffers.
    pub fn release(&self, holder: &mut Holder, buffers: &[u64]) -> Result<(), PutRefusal>
        requires pool { IsHolderOf self.now holder.old }
        requires holds { Holds holder.old buffers.now }
        ensures pool { IsHolderOf self.now holder.new }
        ensures effect { MatchResult result (λ r. Released buffers.now (view_of holder.old) (view_of holder.new))
            (λ r. HoldsSame holder.old holder.new) }
        ensures error { IfErr result (λ r. WhyNotPut (view_of holder.old) (room_of self.now) (length buffers.now) r
            (view_of holder.new)) }
        ensures frame { GoesOn (view_of holder.old) (view_of holder.new) }
        ensures share { SameShare holder.old holder.new }
        ensures trace { MatchResult result
            (λ r. (start : ℕ) × IsPut (room_of self.now) (view_of holder.old) start buffers.now (view_of holder.new))
            (λ r. RefusedPut (room_of self.now) (view_of holder.old) (length buffers.now) r (view_of holder.new)) }
    {
        lists_are_true();
        never_below();
        self.queue.try_put_as(&mut holder.end, buffers)?;
        Ok(())
    }

    /// Splits off a new holder, which holds none. Both must be joined again before the pool can be closed; a dropped
    /// holder can never be joined.
    ///
    /// Condition: the holder's end can be split. The first holder can be split 2^43 times without a join, and each of
    /// those 21 times in a chain.
    pub fn split(&self, holder: &mut Holder) -> Holder
        requires pool { IsHolderOf self.now holder.old }
        requires parts { IsDivisible holder.old }
        ensures pool { IsHolderOf self.now holder.new × IsHolderOf self.now result }
        ensures effect { HoldsSame holder.old holder.new × HoldsNone result }
        ensures share { SharesOut holder.old holder.new result }
        ensures trace { SplitBy (view_of holder.old) (view_of holder.new) }
    {
        lists_are_true();
        let end = self.queue.split(&mut holder.end);
        Holder { end }
    }

    /// Joins the other holder to this one, which then holds what both held.
    pub fn join(&self, holder: &mut Holder, other: Holder)
        requires { IsHolderOf self.now holder.old × IsHolderOf self.now other }
        ensures pool { IsHolderOf self.now holder.new }
        ensures effect { HoldsBoth holder.old other holder.new }
        ensures share { share_of holder.new ≡ share_of holder.old + share_of other }
        ensures trace { JoinedBy (view_of holder.old) (view_of other) (view_of holder.new) }
    {
        lists_are_true();
        joins_are_true();
        let Holder { end } = other;
        self.queue.join(&mut holder.end, end);
    }

    /// Closes the pool if every other holder has been joined, and returns the free buffers. These and the buffers that
    /// the holder holds are all buffers of the pool, each once. Otherwise it returns the pool, the holder and the
    /// number of other holders.
    pub fn close(self, holder: Holder) -> Result<LeftItems, (Pool, Holder, OpenEnds)>
        requires { IsHolderOf self holder }
        ensures only { IsOnlyHolder holder → MatchResult result (λ left. Unit {0}) (λ e. ⊥) }
        ensures effect { IfOk result (λ left. AllThere (count_of self) holder (items_left left)) }
        ensures error { IfErr result (λ e. WereOpen ends_word (view_of holder) e.2.others (view_of e.1)) }
        ensures pool { IfErr result (λ e. (e.0 ≡ self) × IsHolderOf self e.1 × HoldsSame holder e.1) }
    {
        lists_are_true();
        let (Pool { queue, count }, Holder { end }) = (self, holder);
        match queue.close(end) {
            Ok(Closed { left, .. }) => Ok(left),
            Err((queue, end, open)) => Err((Pool { queue, count }, Holder { end }, open)),
        }
    }
}
