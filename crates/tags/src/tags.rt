//! The tags and their holders.
//!
//! A holder is an end of the tags' queue, which lists what it put and took, so it needs no list of its own. The
//! functions of `claim_queue::laws` have empty bodies. They are called because the proofs use their clauses.
ghost use Rattle.std.specs.Prelude.{◌≡◌, ◌+◌, ◌<◌, ◌≤◌, [], ◌∷◌, List, ℕ, map, Some, IfErr, IfOk, MatchResult};
ghost use Rattle.table_theory.specs.Ledgers.{WereOpen};
ghost use Rattle.claim_queue.specs.Client.{WereFirst, WhyNotClaimed, WhyNotTaken};
ghost use Rattle.claim_queue.specs.Evidence.{IsPut, JoinedBy, Refused, RefusedTake, SplitBy, TookItems};
ghost use Rattle.claim_queue.specs.Handles as queues;
ghost use Rattle.claim_queue.specs.Layout.{ends_word};
ghost use Rattle.claim_queue.specs.Lines.{lines_put, lines_taken};
ghost use Rattle.claim_queue.specs.Takings.{IsNone, IsOne};
ghost use Rattle.tags.specs.Holdings.{IsHolding, TookTag, GaveTag};
ghost use Rattle.tags.specs.Lending.{all_tags};

use crate::lending::Lending;
use arrayvec::ArrayVec;
use claim_queue::laws::{
    ends_list_queues, joins_are_true, lists_are_true, never_below, numbers_say,
};
use claim_queue::{ClaimQueue, ClaimRefusal, Closed, OpenEnds, QueueEnd, TakeRefusal};
use event_theory::OutOfMemory;
use std::alloc::Global;

/// The maximum number of tags.
pub const MOST_TAGS: usize = 256;

/// The tags of a device's commands, which are the numbers from 0 on. The free tags are the items of a queue: first all
/// of them as one line, and then each as it was given back.
#[derive(Drop)]
pub struct Tags<const N: usize> {
    queue: ClaimQueue<N, Lending>,
}

/// A holder of tags: those that it took and did not give back. It has no bytes. A dropped holder keeps its tags for
/// good.
#[derive(Drop)]
pub struct Holder<const N: usize> {
    end: QueueEnd<N>,
    ghost holds: { IsHolding (queues.view_of end) },
}

/// All tags, if there are so many.
fn all_tags<const N: usize>(count: usize) -> ArrayVec<u64, N>
    requires { count ≤ N }
    ensures { result.items ≡ all_tags count }
{
    let mut tags = ArrayVec::new();
    for tag in 0..count {
        tags.push(tag as u64);
    }
    tags
}

/// The tags that are left, each of which was raised.
fn left_tags<const N: usize>(left: &ArrayVec<Option<u64>, N>) -> ArrayVec<u64, N>
    ensures { (tags : List ℕ) → left.now.items ≡ map Some tags → result.items ≡ tags }
{
    let mut tags = ArrayVec::new();
    for place in left.as_slice() {
        if let Some(tag) = place {
            tags.push(*tag);
        }
    }
    tags
}

impl<const N: usize> Tags<N> {
    ghost use Rattle.tags.specs.Handles.{view_of, count_of, IsHolderOf, IsOnlyHolder, IsDivisible};
    ghost use Rattle.tags.specs.Handles.{share_of, Holds, HoldsNone, HoldsSame, HoldsBoth, SameShare, SharesOut};
    ghost use Rattle.tags.specs.Handles.{AllThere};

    /// So many tags, all of them free, and their only holder, which holds none.
    ///
    /// Condition: there is a tag, and there are at most N, which is at most 256.
    pub fn new(alloc: Global, count: usize) -> Result<(Tags<N>, Holder<N>), OutOfMemory>
        requires { (0 < count) × (count ≤ N) × (N ≤ MOST_TAGS) }
        ensures pool { IfOk result (λ r. IsHolderOf r.0 r.1 × (count_of r.0 ≡ count)) }
        ensures effect { IfOk result (λ r. (lines_put (view_of r.1) ≡ all_tags count ∷ [])
            × (lines_taken (view_of r.1) ≡ [])) }
        ensures holder { IfOk result (λ r. IsOnlyHolder r.1 × HoldsNone r.1) }
    {
        let tags: ArrayVec<u64, N> = all_tags(count);
        let (queue, mut end) = ClaimQueue::new_as(alloc, count as u32)?;
        lists_are_true();
        ends_list_queues();
        numbers_say();
        let Ok(_) = queue.try_put_as(&mut end, tags.as_slice()) else {
            unreachable!()
        };
        Ok((Tags { queue }, Holder { end }))
    }

    /// One try to take the tag that has been free for the longest time. The refusals are those of
    /// `ClaimQueue::try_take_as`. A tag is a number below the number of tags: each end that put it kept to the protocol.
    pub fn take(&self, holder: &mut Holder<N>) -> Result<u64, TakeRefusal>
        requires { IsHolderOf self.now holder.old }
        ensures pool { IsHolderOf self.now holder.new }
        ensures effect { MatchResult result (λ tag. TookTag tag (view_of holder.old) (view_of holder.new))
            (λ r. HoldsSame holder.old holder.new) }
        ensures result { IfOk result (λ tag. (tag < count_of self.now)
            × WereFirst (view_of holder.old) (tag ∷ []) (view_of holder.new)) }
        ensures holds { IfOk result (λ tag. Holds holder.new tag) }
        ensures share { SameShare holder.old holder.new }
        ensures error { IfErr result (λ r. ((view_of holder.new).own ≡ (view_of holder.old).own)
            × WhyNotTaken IsNone (view_of holder.old) r (view_of holder.new)) }
        ensures trace { MatchResult result (λ tag. TookItems N (view_of holder.old) (tag ∷ []) (view_of holder.new))
            (λ r. RefusedTake IsNone IsOne N (view_of holder.old) r (view_of holder.new)) }
    {
        lists_are_true();
        self.queue.try_take_as(&mut holder.end)
    }

    /// One try to give back a tag, which is free then. The refusals are those of `ClaimQueue::try_put` for one item.
    ///
    /// Condition: the holder holds the tag.
    pub fn give_back(&self, holder: &mut Holder<N>, tag: u64) -> Result<(), ClaimRefusal>
        requires pool { IsHolderOf self.now holder.old }
        requires holds { Holds holder.old tag }
        ensures pool { IsHolderOf self.now holder.new }
        ensures effect { MatchResult result (λ r. GaveTag tag (view_of holder.old) (view_of holder.new))
            (λ r. HoldsSame holder.old holder.new) }
        ensures share { SameShare holder.old holder.new }
        ensures error { IfErr result (λ r. ((view_of holder.new).own ≡ (view_of holder.old).own)
            × WhyNotClaimed (view_of holder.old) N 1 r (view_of holder.new)) }
        ensures trace { MatchResult result
            (λ r. (start : ℕ) × IsPut N (view_of holder.old) start (tag ∷ []) (view_of holder.new))
            (λ r. Refused N (view_of holder.old) 1 r (view_of holder.new)) }
    {
        lists_are_true();
        never_below();
        self.queue.try_put_as(&mut holder.end, &[tag])?;
        Ok(())
    }

    /// Splits off a new holder, which holds none. Both must be joined again before the tags can be closed; a dropped
    /// holder can never be joined.
    ///
    /// Condition: the holder's end can be split. The first holder can be split 2^43 times without a join, and each of
    /// those 21 times in a chain.
    pub fn split(&self, holder: &mut Holder<N>) -> Holder<N>
        requires pool { IsHolderOf self.now holder.old }
        requires parts { IsDivisible holder.old }
        ensures pool { IsHolderOf self.now holder.new × IsHolderOf self.now result }
        ensures effect { HoldsSame holder.old holder.new × HoldsNone result }
        ensures share { SharesOut holder.old holder.new result }
        ensures trace { SplitBy (view_of holder.old) (view_of holder.new) }
    {
        lists_are_true();
        let end = self.queue.split(&mut holder.end);
        Holder { end }
    }

    /// Joins the other holder to this one, which then holds what both held.
    pub fn join(&self, holder: &mut Holder<N>, other: Holder<N>)
        requires { IsHolderOf self.now holder.old × IsHolderOf self.now other }
        ensures pool { IsHolderOf self.now holder.new }
        ensures effect { HoldsBoth holder.old other.entry holder.new }
        ensures share { share_of holder.new ≡ share_of holder.old + share_of other.entry }
        ensures trace { JoinedBy (view_of holder.old) (view_of other.entry) (view_of holder.new) }
    {
        joins_are_true();
        lists_are_true();
        let Holder { end } = other;
        self.queue.join(&mut holder.end, end);
    }

    /// Closes the tags if every other holder has been joined, and returns the free tags. These and the tags that the
    /// holder holds are all tags, each once. Otherwise it returns the tags, the holder and the number of other holders.
    pub fn close(
        self,
        holder: Holder<N>,
    ) -> Result<ArrayVec<u64, N>, (Tags<N>, Holder<N>, OpenEnds)>
        requires { IsHolderOf self holder }
        ensures only { IsOnlyHolder holder.entry → MatchResult result (λ left. Unit {0}) (λ e. ⊥) }
        ensures effect { IfOk result (λ left. AllThere (count_of self.entry) holder.entry left.items) }
        ensures error { IfErr result (λ e. WereOpen ends_word (view_of holder.entry) e.2.others (view_of e.1)) }
        ensures pool { IfErr result (λ e. (e.0 ≡ self.entry) × IsHolderOf self.entry e.1
            × HoldsSame holder.entry e.1) }
    {
        lists_are_true();
        let (Tags { queue }, Holder { end }) = (self, holder);
        match queue.close(end) {
            Ok(Closed { left, .. }) => Ok(left_tags(&left)),
            Err((queue, end, open)) => Err((Tags { queue }, Holder { end }, open)),
        }
    }
}
