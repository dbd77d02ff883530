//! Claims: an end reserves a run of places by one compare-and-swap of the head, and then raises the places one by one
//! (Massalin and Pu 1991, the many-producer queue).
ghost use Rattle.std.specs.Prelude.{◌≡◌, ◌+◌, ◌*◌, ◌<◌, ◌≤◌, ℕ, true, length, MatchResult, MatchBool, IfOk, IfErr};
ghost use Rattle.std.specs.Prelude.{slice_index, slice_index_or};
ghost use Rattle.table_theory.specs.Listing.{AllRaised};
ghost use Rattle.table_theory.specs.Moments.{StepsAtMost};
ghost use Rattle.claim_queue.specs.Claims.{Owns, KeepsClaims, KeepsOthers};
ghost use Rattle.claim_queue.specs.Client.{HadRoomAt, MayPut, WhyNotClaimed, WhyNotPut, HasRaisedItem};
ghost use Rattle.claim_queue.specs.declared.claim.ClaimRefusal.TheVariants as refusals;
ghost use Rattle.claim_queue.specs.Evidence.{ClaimedItems, Refused, PausedClaim, Raised, IsPut, PutAnswer};
ghost use Rattle.claim_queue.specs.Lines.{SameLines, PutLine};
ghost use Rattle.claim_queue.specs.Pauses.{PausedBeforeLast};
ghost use Rattle.claim_queue.specs.Puts.{RaisedFrom, is_lost};

use crate::ends::{ClaimQueue, QueueEnd};
use crate::layout::SHUT;
use crate::pause::{NoPause, WatchedPause};
use crate::steps::{exchange_head, load_head, load_tail, store_data, store_flag};
use arrayvec::ArrayVec;
use crossbeam_utils::Backoff;
use std::marker::Brand;
use std::sync::Wait;
use table_theory::protocol::Protocol;
use thiserror::Error;

/// A run of places that an end claimed, and how many of them it has raised.
///
/// `raise_next` raises its places. A claim that is dropped leaves its other places unraised for good: nobody can take
/// past them, and once N places are claimed from the tail on, every claim is Full.
#[derive(Drop)]
pub struct Claim<const N: usize> {
    pub(crate) start: u32,
    pub(crate) items: ArrayVec<u64, N>,
    pub(crate) raised: usize,
    ghost within: { raised ≤ length items.items },
}

/// Why a claim was refused. The refusals are listed in the order in which they are checked.
#[derive(Clone, Copy, Debug, PartialEq, Eq, Drop, Error)]
pub enum ClaimRefusal {
    /// The run has no item. No step was made.
    #[error("no items")]
    NoItems,
    /// The run has more items than the queue has places. No step was made.
    #[error("more items than places")]
    TooLong,
    /// The queue is shut: the head that was loaded, or the head that the compare-and-swap found, has the shut mark.
    #[error("the queue is shut")]
    Closed,
    /// The run would go past the last position, 4,294,967,294. Shorter runs may still fit. No position is used again.
    #[error("no positions left")]
    Spent,
    /// There was no room for the run from this head on, by the tail that was loaded after it: `head` plus the number of
    /// items exceeds `tail` plus N. Both are positions.
    #[error("full at head {head}, tail {tail}")]
    Full { head: u32, tail: u32 },
    /// Another end claimed first: the compare-and-swap found this head, past the one that was loaded.
    #[error("lost, head {head}")]
    Lost { head: u32 },
}

impl<const N: usize> Claim<N> {
    /// The position of the first item.
    pub fn start(&self) -> u32
        ensures { result ≡ self.now.start }
    {
        self.start
    }

    /// The items, in order.
    pub fn items(&self) -> &[u64]
        ensures { result.now ≡ self.now.items.items }
    {
        self.items.as_slice()
    }

    /// How many of the items are raised.
    pub fn raised(&self) -> usize
        ensures { result ≡ self.now.raised }
    {
        self.raised
    }
}

fn copy_of<const N: usize>(items: &[u64]) -> ArrayVec<u64, N>
    requires { length items.now ≤ N }
    ensures { result.items ≡ items.now }
{
    let mut copied = ArrayVec::new();
    for item in items {
        copied.push(*item);
    }
    copied
}

// Another end claimed first.
fn was_lost(answer: &Result<u32, ClaimRefusal>) -> bool
    ensures { result ≡ is_lost answer.now }
{
    matches!(answer, Err(ClaimRefusal::Lost { head: _ }))
}

impl<const N: usize, C: Protocol> ClaimQueue<N, C> {
    ghost use Rattle.claim_queue.specs.Handles.{view_of, IsEndOf, IsSameEnd};

    /// One try to claim a place for each of the items: it loads the head, then the tail, and makes one compare-and-swap
    /// of the head. The items can be taken once they are raised. The refusals are checked in the order in which
    /// `ClaimRefusal` lists them.
    ///
    /// Condition: the protocol allows the end to put the items.
    pub fn try_claim_as(
        &self,
        end: &mut QueueEnd<N>,
        items: &[u64],
    ) -> Result<Claim<N>, ClaimRefusal>
        requires queue { IsEndOf self.now end.old }
        requires protocol { MayPut C.allows (view_of end.old) items.now }
        ensures effect { MatchResult result (λ c. PutLine items.now (view_of end.old) (view_of end.new))
            (λ r. SameLines (view_of end.old) (view_of end.new)) }
        ensures result { IfOk result (λ c. HadRoomAt (view_of end.old) N c.start (length items.now) (view_of end.new)) }
        ensures frame { KeepsClaims (view_of end.old) (view_of end.new) }
        ensures shuts_nothing { (view_of end.new).own.shuts ≡ (view_of end.old).own.shuts }
        ensures steps { StepsAtMost 3 (view_of end.old) (view_of end.new) }
        ensures owns { IfOk result (λ c. (c.items.items ≡ items.now) × (c.raised ≡ 0)
            × Owns (view_of end.new) c.start c.items.items c.raised) }
        ensures error { IfErr result (λ r. ((view_of end.new).own ≡ (view_of end.old).own)
            × WhyNotClaimed (view_of end.old) N (length items.now) r (view_of end.new)) }
        ensures shut { (view_of end.old).seen.object.shut ≡ true → 0 < length items.now → length items.now ≤ N
            → MatchResult result (λ claim. ⊥) (λ refusal. refusal ≡ refusals.Closed) }
        ensures trace { MatchResult result
            (λ c. ClaimedItems N (view_of end.old) c.start items.now (view_of end.new))
            (λ r. Refused N (view_of end.old) (length items.now) r (view_of end.new)) }
        ensures handle { IsSameEnd end.old end.new }
    {
        let first = self.claim_places(end, items, &mut NoPause)?;
        Ok(Claim {
            start: first,
            items: copy_of(items),
            raised: 0,
        })
    }

    // One try to claim places for the items, with a pause before the compare-and-swap. Returns the first position.
    fn claim_places<P: WatchedPause<N>>(
        &self,
        end: &mut QueueEnd<N>,
        items: &[u64],
        pause: &mut P,
    ) -> Result<u32, ClaimRefusal>
        requires queue { IsEndOf self.now end.old }
        requires protocol { MayPut C.allows (view_of end.old) items.now }
        ensures owns { IfOk result (λ start. Owns (view_of end.new) start items.now 0 × (length items.now ≤ N)) }
        ensures shut { (view_of end.old).seen.object.shut ≡ true → 0 < length items.now → length items.now ≤ N
            → MatchResult result (λ start. ⊥) (λ refusal. refusal ≡ refusals.Closed) }
        ensures trace { MatchResult result
            (λ start. ClaimedItems N (view_of end.old) start items.now (view_of end.new))
            (λ r. Refused N (view_of end.old) (length items.now) r (view_of end.new)) }
        ensures handle { IsSameEnd end.old end.new }
        ensures hook { MatchResult result
            (λ start. PausedBeforeLast P.paused P.paused_at end.old end.new pause.old pause.new)
            (λ r. PausedClaim (PausedBeforeLast P.paused P.paused_at end.old end.new) N (view_of end.old)
            (length items.now) r (view_of end.new) pause.old pause.new) }
    {
        let count = items.len();
        if count == 0 {
            return Err(ClaimRefusal::NoItems);
        }
        if count > N {
            return Err(ClaimRefusal::TooLong);
        }
        // linearization point of Closed, Spent and Full. One load suffices: a shut queue stays shut, and the head never
        // falls.
        let head = load_head(&self.table.shared, &mut end.seat);
        if head >= SHUT {
            return Err(ClaimRefusal::Closed);
        }
        let new = head + count as u64;
        if new >= SHUT {
            return Err(ClaimRefusal::Spent);
        }
        // Full is exact: the tail never falls, so when the head was loaded the tail was at most this one, and there was
        // no room. Room that is found remains while the head is unchanged.
        let tail = load_tail(&self.table.shared, &mut end.seat);
        if new > tail + N as u64 {
            return Err(ClaimRefusal::Full {
                head: head as u32,
                tail: tail as u32,
            });
        }
        pause.pause_at(end);
        // linearization point: the places are reserved, if the head is unchanged. No position is used again, so an
        // equal head means that no claim came in between.
        let found = exchange_head::<C, Brand>(&self.table.shared, &mut end.seat, head, new, items);
        if found == head {
            return Ok(head as u32);
        }
        if found >= SHUT {
            return Err(ClaimRefusal::Closed);
        }
        Err(ClaimRefusal::Lost { head: found as u32 })
    }

    // Stores the item with this index in the end's run, and then its flag.
    fn raise_place(&self, end: &mut QueueEnd<N>, start: u32, items: &[u64], index: usize)
        requires queue { IsEndOf self.now end.old }
        requires owns { Owns (view_of end.old) start items.now index × (length items.now ≤ N) }
        requires below { index < length items.now }
        ensures owns { Owns (view_of end.new) start items.now (index + 1) }
        ensures trace { Raised N (view_of end.old) start items.now index (view_of end.new) }
        ensures frame { KeepsOthers start (view_of end.old) (view_of end.new) }
        ensures handle { IsSameEnd end.old end.new }
    {
        let (start, item) = (start as u64, items[index]);
        // The data is stored before the flag, so an end that finds the flag finds the item. Stores suffice: no other
        // end writes the words of this place until the tail has passed it.
        store_data::<C, Brand>(&self.table.shared, &mut end.seat, N, start, index, item);
        // linearization point: the item is raised (published)
        store_flag::<C, Brand>(&self.table.shared, &mut end.seat, N, start, index);
    }

    /// Stores the next item of the claim in its data word, and then its flag, which raises the item. If all items were
    /// raised, it returns false and makes no step.
    ///
    /// Condition: the claim is the end's own.
    pub fn raise_next(&self, end: &mut QueueEnd<N>, claim: &mut Claim<N>) -> bool
        requires queue { IsEndOf self.now end.old }
        requires owns { Owns (view_of end.old) claim.old.start claim.old.items.items claim.old.raised }
        ensures effect { SameLines (view_of end.old) (view_of end.new) }
        ensures result { MatchBool result (HasRaisedItem (view_of end.old) (claim.old.start + claim.old.raised)
            (slice_index_or claim.old.items.items claim.old.raised 0) (view_of end.new))
            ((view_of end.new) ≡ (view_of end.old)) }
        ensures frame { KeepsOthers claim.old.start (view_of end.old) (view_of end.new) }
        ensures shuts_nothing { (view_of end.new).own.shuts ≡ (view_of end.old).own.shuts }
        ensures steps { StepsAtMost 2 (view_of end.old) (view_of end.new) }
        ensures owns { Owns (view_of end.new) claim.new.start claim.new.items.items claim.new.raised }
        ensures raised { MatchBool result (claim.new.raised ≡ claim.old.raised + 1)
            ((claim.old.raised ≡ length claim.old.items.items) × (claim.new.raised ≡ claim.old.raised)) }
        ensures claim { (claim.new.start ≡ claim.old.start) × (claim.new.items.items ≡ claim.old.items.items) }
        ensures trace { MatchBool result (Raised N (view_of end.old) claim.old.start claim.old.items.items
            claim.old.raised (view_of end.new)) ((view_of end.new) ≡ (view_of end.old)) }
        ensures handle { IsSameEnd end.old end.new }
    {
        let index = claim.raised;
        if index >= claim.items.len() {
            return false;
        }
        self.raise_place(end, claim.start, claim.items.as_slice(), index);
        claim.raised = index + 1;
        true
    }

    // Raises all items of a run that was just claimed.
    fn raise_all(&self, end: &mut QueueEnd<N>, start: u32, items: &[u64])
        requires queue { IsEndOf self.now end.old }
        requires owns { Owns (view_of end.old) start items.now 0 × (length items.now ≤ N) }
        ensures owns { Owns (view_of end.new) start items.now (length items.now) }
        ensures trace { RaisedFrom N start items.now (view_of end.old) (view_of end.new) (length items.now) }
        ensures frame { KeepsOthers start (view_of end.old) (view_of end.new) }
        ensures handle { IsSameEnd end.old end.new }
    {
        for i in 0..items.len() {
            self.raise_place(end, start, items, i);
        }
    }

    /// One try to claim a run; if it succeeds, all items are raised. Returns the position of the first item.
    ///
    /// Condition: the protocol allows the end to put the items.
    pub fn try_put_as(&self, end: &mut QueueEnd<N>, items: &[u64]) -> Result<u32, ClaimRefusal>
        requires queue { IsEndOf self.now end.old }
        requires protocol { MayPut C.allows (view_of end.old) items.now }
        ensures effect { MatchResult result (λ start. PutLine items.now (view_of end.old) (view_of end.new))
            (λ r. SameLines (view_of end.old) (view_of end.new)) }
        ensures result { IfOk result (λ start. HadRoomAt (view_of end.old) N start (length items.now)
            (view_of end.new)) }
        ensures frame { KeepsClaims (view_of end.old) (view_of end.new) }
        ensures shuts_nothing { (view_of end.new).own.shuts ≡ (view_of end.old).own.shuts }
        ensures steps { StepsAtMost (2 * length items.now + 3) (view_of end.old) (view_of end.new) }
        ensures owns { IfOk result (λ start. Owns (view_of end.new) start items.now (length items.now)) }
        ensures error { IfErr result (λ r. ((view_of end.new).own ≡ (view_of end.old).own)
            × WhyNotClaimed (view_of end.old) N (length items.now) r (view_of end.new)) }
        ensures raised { AllRaised (view_of end.old).own.runs → AllRaised (view_of end.new).own.runs }
        ensures shut { (view_of end.old).seen.object.shut ≡ true → 0 < length items.now → length items.now ≤ N
            → MatchResult result (λ start. ⊥) (λ refusal. refusal ≡ refusals.Closed) }
        ensures trace { MatchResult result (λ start. IsPut N (view_of end.old) start items.now (view_of end.new))
            (λ r. Refused N (view_of end.old) (length items.now) r (view_of end.new)) }
        ensures handle { IsSameEnd end.old end.new }
    {
        let start = self.claim_places(end, items, &mut NoPause)?;
        self.raise_all(end, start, items);
        Ok(start)
    }

    /// Retries `try_put` while other ends claim first. It returns every other refusal, so it returns Full if takers are
    /// slow, and never Lost.
    ///
    /// Condition: the protocol allows the end to put the items.
    pub fn put_as<R: Wait>(
        &self,
        rt: &R,
        end: &mut QueueEnd<N>,
        items: &[u64],
    ) -> Result<u32, ClaimRefusal>
        requires queue { IsEndOf self.now end.old }
        requires protocol { MayPut C.allows (view_of end.old) items.now }
        ensures effect { MatchResult result (λ start. PutLine items.now (view_of end.old) (view_of end.new))
            (λ r. SameLines (view_of end.old) (view_of end.new)) }
        ensures result { IfOk result (λ start. HadRoomAt (view_of end.old) N start (length items.now)
            (view_of end.new)) }
        ensures frame { KeepsClaims (view_of end.old) (view_of end.new) }
        ensures shuts_nothing { (view_of end.new).own.shuts ≡ (view_of end.old).own.shuts }
        ensures owns { IfOk result (λ start. Owns (view_of end.new) start items.now (length items.now)) }
        ensures error { IfErr result (λ r. ((view_of end.new).own ≡ (view_of end.old).own)
            × WhyNotPut (view_of end.old) N (length items.now) r (view_of end.new)) }
        ensures raised { AllRaised (view_of end.old).own.runs → AllRaised (view_of end.new).own.runs }
        ensures shut { (view_of end.old).seen.object.shut ≡ true → 0 < length items.now → length items.now ≤ N
            → MatchResult result (λ start. ⊥) (λ refusal. refusal ≡ refusals.Closed) }
        ensures trace { PutAnswer N (view_of end.old) items.now result (view_of end.new) }
        ensures handle { IsSameEnd end.old end.new }
    {
        let backoff = Backoff::new();
        for _ in rt.forever() {
            let answer = self.try_put_as(end, items);
            if !was_lost(&answer) {
                return answer;
            }
            backoff.spin();
        }
        unreachable!()
    }
}

impl<const N: usize> ClaimQueue<N> {
    ghost use Rattle.claim_queue.specs.Handles.{view_of, IsEndOf, IsSameEnd};

    /// One try to claim a place for each of the items: it loads the head, then the tail, and makes one compare-and-swap
    /// of the head. The items can be taken once they are raised. The refusals are checked in the order in which
    /// `ClaimRefusal` lists them.
    pub fn try_claim(&self, end: &mut QueueEnd<N>, items: &[u64]) -> Result<Claim<N>, ClaimRefusal>
        requires { IsEndOf self.now end.old }
        ensures effect { MatchResult result (λ c. PutLine items.now (view_of end.old) (view_of end.new))
            (λ r. SameLines (view_of end.old) (view_of end.new)) }
        ensures result { IfOk result (λ c. HadRoomAt (view_of end.old) N c.start (length items.now) (view_of end.new)) }
        ensures frame { KeepsClaims (view_of end.old) (view_of end.new) }
        ensures shuts_nothing { (view_of end.new).own.shuts ≡ (view_of end.old).own.shuts }
        ensures steps { StepsAtMost 3 (view_of end.old) (view_of end.new) }
        ensures owns { IfOk result (λ c. (c.items.items ≡ items.now) × (c.raised ≡ 0)
            × Owns (view_of end.new) c.start c.items.items c.raised) }
        ensures error { IfErr result (λ r. ((view_of end.new).own ≡ (view_of end.old).own)
            × WhyNotClaimed (view_of end.old) N (length items.now) r (view_of end.new)) }
        ensures shut { (view_of end.old).seen.object.shut ≡ true → 0 < length items.now → length items.now ≤ N
            → MatchResult result (λ claim. ⊥) (λ refusal. refusal ≡ refusals.Closed) }
        ensures trace { MatchResult result
            (λ c. ClaimedItems N (view_of end.old) c.start items.now (view_of end.new))
            (λ r. Refused N (view_of end.old) (length items.now) r (view_of end.new)) }
        ensures handle { IsSameEnd end.old end.new }
    {
        self.try_claim_paused(end, items, &mut NoPause)
    }

    /// `try_claim`, with a pause just before the compare-and-swap, in which another end may step. A try that is refused
    /// before its compare-and-swap does not call the pause.
    pub fn try_claim_paused<P: WatchedPause<N>>(
        &self,
        end: &mut QueueEnd<N>,
        items: &[u64],
        pause: &mut P,
    ) -> Result<Claim<N>, ClaimRefusal>
        requires { IsEndOf self.now end.old }
        ensures effect { MatchResult result (λ c. PutLine items.now (view_of end.old) (view_of end.new))
            (λ r. SameLines (view_of end.old) (view_of end.new)) }
        ensures result { IfOk result (λ c. HadRoomAt (view_of end.old) N c.start (length items.now) (view_of end.new)) }
        ensures frame { KeepsClaims (view_of end.old) (view_of end.new) }
        ensures shuts_nothing { (view_of end.new).own.shuts ≡ (view_of end.old).own.shuts }
        ensures steps { StepsAtMost 3 (view_of end.old) (view_of end.new) }
        ensures owns { IfOk result (λ c. (c.items.items ≡ items.now) × (c.raised ≡ 0)
            × Owns (view_of end.new) c.start c.items.items c.raised) }
        ensures error { IfErr result (λ r. ((view_of end.new).own ≡ (view_of end.old).own)
            × WhyNotClaimed (view_of end.old) N (length items.now) r (view_of end.new)) }
        ensures shut { (view_of end.old).seen.object.shut ≡ true → 0 < length items.now → length items.now ≤ N
            → MatchResult result (λ claim. ⊥) (λ refusal. refusal ≡ refusals.Closed) }
        ensures trace { MatchResult result
            (λ c. ClaimedItems N (view_of end.old) c.start items.now (view_of end.new))
            (λ r. Refused N (view_of end.old) (length items.now) r (view_of end.new)) }
        ensures handle { IsSameEnd end.old end.new }
        ensures hook { MatchResult result
            (λ c. PausedBeforeLast P.paused P.paused_at end.old end.new pause.old pause.new)
            (λ r. PausedClaim (PausedBeforeLast P.paused P.paused_at end.old end.new) N (view_of end.old)
            (length items.now) r (view_of end.new) pause.old pause.new) }
    {
        let start = self.claim_places(end, items, pause)?;
        Ok(Claim {
            start,
            items: copy_of(items),
            raised: 0,
        })
    }

    /// One try to claim a run; if it succeeds, all items are raised. Returns the position of the first item.
    pub fn try_put(&self, end: &mut QueueEnd<N>, items: &[u64]) -> Result<u32, ClaimRefusal>
        requires { IsEndOf self.now end.old }
        ensures effect { MatchResult result (λ start. PutLine items.now (view_of end.old) (view_of end.new))
            (λ r. SameLines (view_of end.old) (view_of end.new)) }
        ensures result { IfOk result (λ start. HadRoomAt (view_of end.old) N start (length items.now)
            (view_of end.new)) }
        ensures frame { KeepsClaims (view_of end.old) (view_of end.new) }
        ensures shuts_nothing { (view_of end.new).own.shuts ≡ (view_of end.old).own.shuts }
        ensures steps { StepsAtMost (2 * length items.now + 3) (view_of end.old) (view_of end.new) }
        ensures owns { IfOk result (λ start. Owns (view_of end.new) start items.now (length items.now)) }
        ensures error { IfErr result (λ r. ((view_of end.new).own ≡ (view_of end.old).own)
            × WhyNotClaimed (view_of end.old) N (length items.now) r (view_of end.new)) }
        ensures raised { AllRaised (view_of end.old).own.runs → AllRaised (view_of end.new).own.runs }
        ensures shut { (view_of end.old).seen.object.shut ≡ true → 0 < length items.now → length items.now ≤ N
            → MatchResult result (λ start. ⊥) (λ refusal. refusal ≡ refusals.Closed) }
        ensures trace { MatchResult result (λ start. IsPut N (view_of end.old) start items.now (view_of end.new))
            (λ r. Refused N (view_of end.old) (length items.now) r (view_of end.new)) }
        ensures handle { IsSameEnd end.old end.new }
    {
        self.try_put_as(end, items)
    }

    /// Retries `try_put` while other ends claim first. It returns every other refusal, so it returns Full if takers are
    /// slow, and never Lost.
    pub fn put<R: Wait>(
        &self,
        rt: &R,
        end: &mut QueueEnd<N>,
        items: &[u64],
    ) -> Result<u32, ClaimRefusal>
        requires { IsEndOf self.now end.old }
        ensures effect { MatchResult result (λ start. PutLine items.now (view_of end.old) (view_of end.new))
            (λ r. SameLines (view_of end.old) (view_of end.new)) }
        ensures result { IfOk result (λ start. HadRoomAt (view_of end.old) N start (length items.now)
            (view_of end.new)) }
        ensures frame { KeepsClaims (view_of end.old) (view_of end.new) }
        ensures shuts_nothing { (view_of end.new).own.shuts ≡ (view_of end.old).own.shuts }
        ensures owns { IfOk result (λ start. Owns (view_of end.new) start items.now (length items.now)) }
        ensures error { IfErr result (λ r. ((view_of end.new).own ≡ (view_of end.old).own)
            × WhyNotPut (view_of end.old) N (length items.now) r (view_of end.new)) }
        ensures raised { AllRaised (view_of end.old).own.runs → AllRaised (view_of end.new).own.runs }
        ensures shut { (view_of end.old).seen.object.shut ≡ true → 0 < length items.now → length items.now ≤ N
            → MatchResult result (λ start. ⊥) (λ refusal. refusal ≡ refusals.Closed) }
        ensures trace { PutAnswer N (view_of end.old) items.now result (view_of end.new) }
        ensures handle { IsSameEnd end.old end.new }
    {
        self.put_as(rt, end, items)
    }
}
