//! Takings of up to a given number of items. If the last batch is too long, its mark is written again at the first
//! position that will be left, before the compare-and-swap of the tail. So takers can reach each published item at any
//! time.
ghost use Rattle.std.specs.Prelude.{◌≡◌, ◌⊎◌, ◌+◌, ◌/◌, ◌<◌, ◌≤◌, ℕ, List, [], length, take};
ghost use Rattle.std.specs.Prelude.{MatchResult, IfErr, IfOk, IsTrue, IsFalse};
ghost use Rattle.table_theory.specs.Seating.{IsSame};
ghost use Rattle.batch_queue.specs.declared.layout.TheConstants.{POSITIONS};
ghost use Rattle.batch_queue.specs.declared.refusals.TakeRefusal.TheVariants as refusals;
ghost use Rattle.batch_queue.specs.Moments.{MarkChanged};
ghost use Rattle.batch_queue.specs.Object.{IsStop, IsRest, IsWithin, Grows};
ghost use Rattle.batch_queue.specs.Own.{no_slots};
ghost use Rattle.batch_queue.specs.Rules.{InvHeldOf};
ghost use Rattle.batch_queue.specs.Parts.{PartedLook, FoundRest, FoundStop, LostStop, StoppedShort};
ghost use Rattle.batch_queue.specs.Parts.{StoppedWithin, LostWithin, WhyNoStop, HasTakenSome, RefusedSomeBy};
ghost use Rattle.batch_queue.specs.Client.{ArePut, EachEndKeeps, GoesOn, PartsOnlyIfFull, TookAllPublished, WereSome};
ghost use Rattle.batch_queue.specs.Evidence.{RefusedTakeSome, TookSome};
ghost use Rattle.batch_queue.specs.Parts.{FilledSome, SameSome, WhyNotTakenSome, with_parts};
ghost use Rattle.table_theory.specs.Ledgers.{Performed};
ghost use Rattle.batch_queue.specs.Steps.{IsSeated, Stays, HasFound, HasStop};
ghost use Rattle.batch_queue.specs.Walks.{LeadsOn};

use crate::access::read_items;
use crate::ends::{BatchEnd, BatchQueue};
use crate::refusals::TakeRefusal;
use crate::rule::View;
use crate::steps::{Words, exchange_mark, exchange_tail, give_back};
use crate::take::{load_tail, why_none};
use crate::walk::{PUBLISHED, leads_on, load_mark, walk};
use atomic_table::Seat;
use std::marker::Brand;
use table_theory::protocol::Protocol;

// Parts the batch that ends at `end`, at this position, if it is not parted there. Returns true if a taking can end
// there, by what was found; if not, another end has changed the mark.
fn part<C: Protocol>(
    words: &Words<C>,
    seat: &mut Seat<u64, View>,
    room: usize,
    position: u64,
    end: u64,
) -> bool
    requires queue { IsSeated room words.now.table_id seat.old }
    requires ruled { ∥ InvHeldOf seat.old.me.0 ∥₁ }
    requires within { IsWithin seat.old.me.0.seen.object position end }
    requires near { (end ≤ position + room) × (end < POSITIONS) }
    ensures queue { IsSame seat.old seat.new × Stays seat.old.me.0 seat.new.me.0 }
    ensures slots { seat.new.me.1 ≡ seat.old.me.1 }
    ensures grows { Grows seat.old.me.0.seen.object seat.new.me.0.seen.object }
    ensures stop { IsTrue result
        → (position < seat.new.me.0.seen.object.taken) ⊎ IsStop seat.new.me.0.seen.object position }
    ensures changed { IsFalse result
        → (position < seat.new.me.0.seen.object.taken) ⊎ MarkChanged seat.old.me.0 position seat.new.me.0 }
    ensures trace { PartedLook room position end result seat.old.me.0 seat.new.me.0 }
{
    // A mark that leads on: the batch was already parted here, or the tail has passed.
    let mark = load_mark(words, seat, room, position);
    if leads_on(PUBLISHED, position, mark) {
        return true;
    }
    if mark / 2 > position {
        return false;
    }
    // linearization point: the batch is parted here, if the mark is unchanged
    let found = exchange_mark::<C, Brand>(words, seat, room, position, mark, end);
    if found == mark {
        return true;
    }
    leads_on(PUBLISHED, position, found)
}

// Parts the batch that ends at `end`, of which the positions from `at` on are published, at `last`, if the tail is
// still this one.
fn stop_within<C: Protocol>(
    words: &Words<C>,
    seat: &mut Seat<u64, View>,
    room: usize,
    tail: u64,
    at: u64,
    end: u64,
    last: u64,
) -> Result<u64, TakeRefusal>
    requires queue { IsSeated room words.now.table_id seat.old }
    requires ruled { ∥ InvHeldOf seat.old.me.0 ∥₁ }
    requires last { (tail ≤ at) × (at < last) × (last < end) }
    requires started { tail ≤ seat.old.me.0.seen.object.taken }
    requires rest { FoundRest seat.old.me.0 tail at end }
    ensures queue { IsSame seat.old seat.new × Stays seat.old.me.0 seat.new.me.0 }
    ensures slots { seat.new.me.1 ≡ seat.old.me.1 }
    ensures grows { Grows seat.old.me.0.seen.object seat.new.me.0.seen.object }
    ensures stop { MatchResult result (λ to. (to ≡ last) × HasStop seat.new.me.0 tail last)
        (λ r. (now : ℕ) × (r ≡ refusals.Lost now) × WhyNoStop tail last now seat.old.me.0 seat.new.me.0) }
    ensures trace { MatchResult result (λ to. StoppedWithin room tail last end seat.old.me.0 seat.new.me.0)
        (λ r. (now : ℕ) × (r ≡ refusals.Lost now) × LostWithin room tail last now seat.old.me.0 seat.new.me.0) }
{
    // If the tail is unchanged, the marks that were followed were true of the first items left: a batch ends at `end`.
    let now = load_tail(words, seat);
    if now != tail {
        return Err(TakeRefusal::Lost { tail: now });
    }
    if !part(words, seat, room, last, end) {
        // Another end has changed the mark: this load is only for the answer.
        let now = load_tail(words, seat);
        return Err(TakeRefusal::Lost { tail: now });
    }
    Ok(last)
}

// The position at which a taking of up to `most` items from this tail ends; the mark of the tail led on. If the
// position is within a batch, the batch is parted there.
fn find_stop<C: Protocol>(
    words: &Words<C>,
    seat: &mut Seat<u64, View>,
    room: usize,
    tail: u64,
    first: u64,
    most: u64,
) -> Result<u64, TakeRefusal>
    requires queue { IsSeated room words.now.table_id seat.old }
    requires ruled { ∥ InvHeldOf seat.old.me.0 ∥₁ }
    requires most { (0 < most) × (most ≤ room) × (tail < POSITIONS) }
    requires started { tail ≤ seat.old.me.0.seen.object.taken }
    requires first { LeadsOn 0 tail first × FoundRest seat.old.me.0 tail tail (first / 2) }
    ensures queue { IsSame seat.old seat.new × Stays seat.old.me.0 seat.new.me.0 }
    ensures slots { seat.new.me.1 ≡ seat.old.me.1 }
    ensures grows { Grows seat.old.me.0.seen.object seat.new.me.0.seen.object }
    ensures stop { MatchResult result (λ to. HasStop seat.new.me.0 tail to × (tail < to) × (to ≤ tail + most))
        (λ r. (now : ℕ) × (r ≡ refusals.Lost now) × WhyNoStop tail (tail + most) now seat.old.me.0
        seat.new.me.0) }
    ensures most { IfOk result (λ to. (to ≡ tail + most) ⊎ StoppedShort tail to seat.old.me.0 seat.new.me.0) }
    ensures trace { MatchResult result (λ to. FoundStop room tail most first to seat.old.me.0 seat.new.me.0)
        (λ r. (now : ℕ) × (r ≡ refusals.Lost now) × LostStop room tail most first now seat.old.me.0 seat.new.me.0) }
{
    let last = tail + most;
    if first / 2 > last {
        return stop_within(words, seat, room, tail, tail, first / 2, last);
    }
    // One load of each mark suffices: items that are published stay published until they are taken.
    let at = walk(words, seat, room, tail, first / 2, last, PUBLISHED);
    if at == last {
        return Ok(at);
    }
    // The mark at which the walk stopped is loaded again: nothing is published there, or its batch is too long, or the
    // batch was published meanwhile.
    let mark = load_mark(words, seat, room, at);
    if !leads_on(PUBLISHED, at, mark) {
        return Ok(at);
    }
    if mark / 2 <= last {
        return Ok(mark / 2);
    }
    stop_within(words, seat, room, tail, at, mark / 2, last)
}

// Takes up to `most` of the items that are published at the tail, and their slots. Returns the position of the first
// item, and the number of items.
fn take_some<C: Protocol>(
    words: &Words<C>,
    seat: &mut Seat<u64, View>,
    room: usize,
    most: usize,
) -> Result<(u64, usize), TakeRefusal>
    requires queue { IsSeated room words.now.table_id seat.old }
    requires bare { (seat.old.me.1 ≡ []) × (seat.old.me.0.own.held ≡ no_slots) }
    requires most { 0 < most }
    ensures queue { IsSame seat.old seat.new × Stays seat.old.me.0 seat.new.me.0 }
    ensures taken { MatchResult result (λ r. (items : List ℕ) × (length items ≡ r.1)
        × HasTakenSome room most seat.old.me.0 r.0 items seat.new.me) (λ r. seat.new.me.1 ≡ []) }
    ensures most { IfOk result (λ r. TookAllPublished seat.old.me.0 room most r.1 seat.new.me.0) }
    ensures error { IfErr result (λ r. WhyNotTakenSome seat.old.me.0 most r seat.new.me.0) }
    ensures refused { IfErr result (λ r. RefusedSomeBy (λ parts entries. Performed seat.old.me.0 entries
        (with_parts seat.old.me.0.own parts) seat.new.me.0) room most r) }
{
    // The tail never falls, and no position is used again: if the compare-and-swap finds this tail, nothing was taken
    // in between.
    let tail = load_tail(words, seat);
    // linearization point of Empty, if the tail is then found unchanged
    let first = load_mark(words, seat, room, tail);
    if !leads_on(PUBLISHED, tail, first) {
        return Err(why_none(words, seat, tail));
    }
    let most = most.min(room) as u64;
    let new = match find_stop(words, seat, room, tail, first, most) {
        Ok(new) => new,
        Err(refusal) => return Err(refusal),
    };
    // linearization point: the items are taken together, with their slots, if the tail is unchanged
    let found = exchange_tail(words, seat, tail, new);
    if found != tail {
        return Err(TakeRefusal::Lost { tail: found });
    }
    Ok((tail, (new - tail) as usize))
}

impl<C: Protocol> BatchQueue<C> {
    ghost use Rattle.batch_queue.specs.Handles.{view_of, room_of, IsEndOf, IsSameEnd};

    /// One try to take as many items as the buffer has room for, of the batches that are published side by side at the
    /// tail. If the last batch does not fit, it is parted: its other items stay published, and the next taking begins
    /// with them. The items taken are then the first items of the buffer, in order. Returns the number of items. It
    /// returns ShortBuffer only if the buffer has no room at all.
    ///
    /// At the end's last step the protocol allowed what each end put and took, so each item is one that an end was
    /// allowed to put.
    ///
    /// If no end calls this, each batch is taken whole. Otherwise a batch may be taken in several pieces, side by side
    /// and in order.
    #[inline(always)]
    pub fn try_take_some_as(
        &self,
        end: &mut BatchEnd,
        items: &mut [u64],
    ) -> Result<usize, TakeRefusal>
        requires { IsEndOf self.now end.old }
        ensures effect { MatchResult result
            (λ n. FilledSome n items.old items.new (view_of end.old) (view_of end.new))
            (λ r. SameSome (view_of end.old) (view_of end.new) × (items.new ≡ items.old)) }
        ensures result { IfOk result (λ n. WereSome (view_of end.old) (take n items.new) (view_of end.new)
            × TookAllPublished (view_of end.old) (room_of self.now) (length items.old) n (view_of end.new)
            × PartsOnlyIfFull (view_of end.old) (room_of self.now) (length items.old) n (view_of end.new)) }
        ensures protocol { IfOk result (λ n. ArePut C.allows (take n items.new)) }
        ensures kept { IfOk result (λ n. EachEndKeeps C.allows (view_of end.new)) }
        ensures error { IfErr result (λ r. WhyNotTakenSome (view_of end.old) (length items.old) r (view_of end.new)) }
        ensures frame { GoesOn (view_of end.old) (view_of end.new) }
        ensures trace { MatchResult result
            (λ n. TookSome (room_of self.now) (view_of end.old) (length items.old) (take n items.new)
            (view_of end.new))
            (λ r. RefusedTakeSome (room_of self.now) (view_of end.old) (length items.old) r (view_of end.new)) }
        ensures handle { IsSameEnd end.old end.new }
    {
        if items.is_empty() {
            return self.try_take_as(end, items);
        }
        let (words, room) = (&self.table.shared, self.room);
        let (start, count) = take_some(words, &mut end.seat, room, items.len())?;
        // Plain reads suffice: only this end holds the slots until it gives them back.
        read_items(words, &mut end.seat, room, start, count, items);
        // linearization point: the places are given back, by one store after the reads
        give_back(words, &mut end.seat, room, start, count);
        Ok(count)
    }
}

impl BatchQueue {
    ghost use Rattle.batch_queue.specs.Handles.{view_of, room_of, IsEndOf, IsSameEnd};

    /// One try to take as many items as the buffer has room for, of the batches that are published side by side at the
    /// tail. If the last batch does not fit, it is parted: its other items stay published, and the next taking begins
    /// with them. The items taken are then the first items of the buffer, in order. Returns the number of items. It
    /// returns ShortBuffer only if the buffer has no room at all.
    ///
    /// If no end calls this, each batch is taken whole. Otherwise a batch may be taken in several pieces, side by side
    /// and in order.
    pub fn try_take_some(&self, end: &mut BatchEnd, items: &mut [u64]) -> Result<usize, TakeRefusal>
        requires { IsEndOf self.now end.old }
        ensures effect { MatchResult result
            (λ n. FilledSome n items.old items.new (view_of end.old) (view_of end.new))
            (λ r. SameSome (view_of end.old) (view_of end.new) × (items.new ≡ items.old)) }
        ensures result { IfOk result (λ n. WereSome (view_of end.old) (take n items.new) (view_of end.new)
            × TookAllPublished (view_of end.old) (room_of self.now) (length items.old) n (view_of end.new)
            × PartsOnlyIfFull (view_of end.old) (room_of self.now) (length items.old) n (view_of end.new)) }
        ensures error { IfErr result (λ r. WhyNotTakenSome (view_of end.old) (length items.old) r (view_of end.new)) }
        ensures frame { GoesOn (view_of end.old) (view_of end.new) }
        ensures trace { MatchResult result
            (λ n. TookSome (room_of self.now) (view_of end.old) (length items.old) (take n items.new)
            (view_of end.new))
            (λ r. RefusedTakeSome (room_of self.now) (view_of end.old) (length items.old) r (view_of end.new)) }
        ensures handle { IsSameEnd end.old end.new }
    {
        self.try_take_some_as(end, items)
    }
}
