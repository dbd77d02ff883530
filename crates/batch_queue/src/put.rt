//! Puts: an end reserves positions by one compare-and-swap of the head, writes the items into their slots, and
//! publishes all of them by one store.
ghost use Rattle.std.specs.Prelude.{◌≡◌, ◌+◌, ◌<◌, ◌≤◌, ℕ, true, [], length, min, take, MatchResult, IfErr, IfOk};
ghost use Rattle.std.specs.Prelude.{IsFalse};
ghost use Rattle.table_theory.specs.Seating.{IsSame};
ghost use Rattle.batch_queue.specs.Client.{GoesOn, HasPut, HasUsedRoom, MayPut, MayPutFrom, MayPutSome};
ghost use Rattle.batch_queue.specs.Client.{WhyNotClaimed, WhyNotPut, WhyNotPutSome};
ghost use Rattle.batch_queue.specs.declared.layout.TheConstants.{FIRST_MARK, POSITIONS, SHUT};
ghost use Rattle.batch_queue.specs.declared.refusals.PutRefusal.TheVariants as refusals;
ghost use Rattle.batch_queue.specs.Layout.{head_word};
ghost use Rattle.batch_queue.specs.Lines.{SameLines, PutLine};
ghost use Rattle.batch_queue.specs.Moments.{claimed};
ghost use Rattle.batch_queue.specs.Own.{no_slots, OnlyLoads};
ghost use Rattle.batch_queue.specs.Evidence.{IsPut, IsPutSome, PutAnswer, RefusedPut, RefusedSome};
ghost use Rattle.batch_queue.specs.Puts.{HasClaimed, RefusedClaimBy, is_lost};
ghost use Rattle.batch_queue.specs.Rules.{InvHeldOf};
ghost use Rattle.batch_queue.specs.Steps.{IsSeated, Stays, Found};

use crate::access::write_items;
use crate::ends::{BatchEnd, BatchQueue};
use crate::layout::{HEAD, POSITIONS, SHUT};
use crate::refusals::PutRefusal;
use crate::rule::View;
use crate::steps::{Words, exchange_head, load, publish};
use crate::walk::look_free;
use atomic_table::Seat;
use crossbeam_utils::Backoff;
use std::marker::Brand;
use std::sync::Wait;
use table_theory::protocol::Protocol;

pub(crate) fn load_head<C: Protocol>(words: &Words<C>, seat: &mut Seat<u64, View>) -> u64
    requires queue { (seat.old.table_id ≡ words.now.table_id) × (FIRST_MARK ≤ words.now.table_id.words) }
    requires live { 1 ≤ seat.old.me.0.member.ends }
    ensures queue { IsSame seat.old seat.new × Stays seat.old.me.0 seat.new.me.0 }
    ensures slots { seat.new.me.1 ≡ seat.old.me.1 }
    ensures found { Found seat.old.me.0 head_word result seat.new.me.0 }
{
    load(words, seat, HEAD)
}

// Claims positions for the first of the items, as many as there is room for and no fewer than `least`, and takes their
// slots. Returns the first position, and the number of items.
//
// In line, the answer stays in registers.
#[inline(always)]
fn claim<C: Protocol>(
    words: &Words<C>,
    seat: &mut Seat<u64, View>,
    room: usize,
    items: &[u64],
    least: usize,
) -> Result<(u64, usize), PutRefusal>
    requires queue { IsSeated room words.now.table_id seat.old }
    requires bare { (seat.old.me.1 ≡ []) × (seat.old.me.0.own.held ≡ no_slots) }
    requires ruled { ∥ InvHeldOf seat.old.me.0 ∥₁ }
    requires least { (0 < least) × (least ≤ min (length items.now) room) }
    requires protocol { MayPutFrom C.allows seat.old.me.0 least (min (length items.now) room) items.now }
    ensures queue { IsSame seat.old seat.new × Stays seat.old.me.0 seat.new.me.0 }
    ensures claim { MatchResult result (λ r. (least ≤ r.1) × (r.1 ≤ length items.now)
        × HasClaimed room (min (length items.now) room) seat.old.me.0 r.0 (take r.1 items.now) seat.new.me)
        (λ r. seat.new.me.1 ≡ []) }
    ensures room { IfOk result (λ r. HasUsedRoom seat.old.me.0 room (min (length items.now) room) r.0 r.1
        seat.new.me.0) }
    ensures error { IfErr result (λ r. WhyNotClaimed seat.old.me.0 room (min (length items.now) room) least r
        seat.new.me.0) }
    ensures shut { seat.old.me.0.seen.object.shut ≡ true
        → MatchResult result (λ r. ⊥) (λ refusal. refusal ≡ refusals.Closed) }
    ensures refused { IfErr result (λ r. RefusedClaimBy (λ entries. OnlyLoads seat.old.me.0 entries seat.new.me.0) room
        (min (length items.now) room) least r) }
{
    let most = items.len().min(room);
    // linearization point of Closed and Spent. One load suffices: a shut queue stays shut, and the head never falls.
    let head = load_head(words, seat);
    if head >= SHUT {
        return Err(PutRefusal::Closed);
    }
    let new = head + most as u64;
    if new >= POSITIONS {
        return Err(PutRefusal::Spent);
    }
    // linearization point of Full: the last load of a mark in this look. The place of `free` was not given back then,
    // and the head was at least this one. Room that is found remains while the head is unchanged: the free position
    // never falls.
    let look = look_free(words, seat, room, new);
    let end = new.min(look.free + room as u64);
    if end < head + least as u64 {
        if look.moved {
            return Err(PutRefusal::Lost { head });
        }
        let free = look.free;
        return Err(PutRefusal::Full { head, free });
    }
    let count = (end - head) as usize;
    // linearization point: the positions are reserved, with their slots, if the head is unchanged. No position is used
    // again, so an equal head means that no claim came in between.
    let found = exchange_head::<C, Brand>(words, seat, head, end, &items[..count]);
    if found == head {
        return Ok((head, count));
    }
    if found >= SHUT {
        return Err(PutRefusal::Closed);
    }
    Err(PutRefusal::Lost { head: found })
}

// Another end claimed first, or moved the free position.
fn was_lost(answer: &Result<u64, PutRefusal>) -> bool
    ensures { result ≡ is_lost answer.now }
{
    matches!(answer, Err(PutRefusal::Lost { head: _ }))
}

impl<C: Protocol> BatchQueue<C> {
    ghost use Rattle.batch_queue.specs.Handles.{view_of, room_of, IsEndOf, IsSameEnd};

    /// One try to put the items as one batch: all of them or none. Returns the position of the first item. The refusals
    /// are checked in the order in which `PutRefusal` lists them.
    ///
    /// The items can be taken after the call has published them, all at one step.
    ///
    /// Condition: the protocol allows the end to put the items.
    #[inline(always)]
    pub fn try_put_as(&self, end: &mut BatchEnd, items: &[u64]) -> Result<u64, PutRefusal>
        requires queue { IsEndOf self.now end.old }
        requires protocol { MayPut C.allows (view_of end.old) items.now }
        ensures effect { MatchResult result (λ start. PutLine items.now (view_of end.old) (view_of end.new))
            (λ r. SameLines (view_of end.old) (view_of end.new)) }
        ensures result { IfOk result (λ start. HasPut (view_of end.old) start items.now (view_of end.new)) }
        ensures error { IfErr result (λ r. WhyNotPut (view_of end.old) (room_of self.now) (length items.now) r
            (view_of end.new)) }
        ensures shut { (view_of end.old).seen.object.shut ≡ true → 0 < length items.now
            → length items.now ≤ room_of self.now
            → MatchResult result (λ start. ⊥) (λ refusal. refusal ≡ refusals.Closed) }
        ensures frame { GoesOn (view_of end.old) (view_of end.new) }
        ensures trace { MatchResult result
            (λ start. IsPut (room_of self.now) (view_of end.old) start items.now (view_of end.new))
            (λ r. RefusedPut (room_of self.now) (view_of end.old) (length items.now) r (view_of end.new)) }
        ensures handle { IsSameEnd end.old end.new }
    {
        let (words, room) = (&self.table.shared, self.room);
        let count = items.len();
        if count == 0 {
            return Err(PutRefusal::NoItems);
        }
        if count > room {
            return Err(PutRefusal::TooLong);
        }
        let (start, _) = claim(words, &mut end.seat, room, items, count)?;
        // Plain writes suffice: only this end holds the slots until it publishes them.
        write_items(words, &mut end.seat, room, start, items);
        // linearization point: all items of the batch are published, by one store after their writes
        publish(words, &mut end.seat, room, start, items);
        Ok(start)
    }

    /// One try to put as many of the first items as there is room for, as one batch. Returns the position of the first
    /// item, and the number of items. It never returns TooLong, and returns Full only if there is no room for one item.
    ///
    /// Condition: the protocol allows the end to put each front of the items that it may put.
    #[inline(always)]
    pub fn try_put_some_as(
        &self,
        end: &mut BatchEnd,
        items: &[u64],
    ) -> Result<(u64, usize), PutRefusal>
        requires queue { IsEndOf self.now end.old }
        requires protocol { MayPutSome C.allows (view_of end.old) (room_of self.now) items.now }
        ensures effect { MatchResult result (λ r. (0 < r.1) × (r.1 ≤ length items.now)
            × PutLine (take r.1 items.now) (view_of end.old) (view_of end.new))
            (λ r. SameLines (view_of end.old) (view_of end.new)) }
        ensures result { IfOk result (λ r. HasPut (view_of end.old) r.0 (take r.1 items.now) (view_of end.new)
            × HasUsedRoom (view_of end.old) (room_of self.now) (min (length items.now) (room_of self.now)) r.0 r.1
            (view_of end.new)) }
        ensures error { IfErr result (λ r. WhyNotPutSome (view_of end.old) (room_of self.now) (length items.now) r
            (view_of end.new)) }
        ensures shut { (view_of end.old).seen.object.shut ≡ true → 0 < length items.now
            → MatchResult result (λ r. ⊥) (λ refusal. refusal ≡ refusals.Closed) }
        ensures frame { GoesOn (view_of end.old) (view_of end.new) }
        ensures trace { MatchResult result
            (λ r. IsPutSome (room_of self.now) (view_of end.old) r.0 r.1 items.now (view_of end.new))
            (λ r. RefusedSome (room_of self.now) (view_of end.old) (length items.now) r (view_of end.new)) }
        ensures handle { IsSameEnd end.old end.new }
    {
        if items.is_empty() {
            return Err(PutRefusal::NoItems);
        }
        let (words, room) = (&self.table.shared, self.room);
        let (start, count) = claim(words, &mut end.seat, room, items, 1)?;
        let front = &items[..count];
        // Plain writes suffice: only this end holds the slots until it publishes them.
        write_items(words, &mut end.seat, room, start, front);
        // linearization point: all items of the batch are published, by one store after their writes
        publish(words, &mut end.seat, room, start, front);
        Ok((start, count))
    }

    /// Retries `try_put_as` while it returns Lost. It returns every other refusal, so it returns Full if takers are
    /// slow, and never Lost.
    ///
    /// Condition: the protocol allows the end to put the items.
    #[inline(always)]
    pub fn put_as<R: Wait>(
        &self,
        rt: &R,
        end: &mut BatchEnd,
        items: &[u64],
    ) -> Result<u64, PutRefusal>
        requires queue { IsEndOf self.now end.old }
        requires protocol { MayPut C.allows (view_of end.old) items.now }
        ensures effect { MatchResult result (λ start. PutLine items.now (view_of end.old) (view_of end.new))
            (λ r. SameLines (view_of end.old) (view_of end.new)) }
        ensures result { IfOk result (λ start. HasPut (view_of end.old) start items.now (view_of end.new)) }
        ensures error { IfErr result (λ r. WhyNotPut (view_of end.old) (room_of self.now) (length items.now) r
            (view_of end.new)) }
        ensures retries { IsFalse (is_lost result) }
        ensures shut { (view_of end.old).seen.object.shut ≡ true → 0 < length items.now
            → length items.now ≤ room_of self.now
            → MatchResult result (λ start. ⊥) (λ refusal. refusal ≡ refusals.Closed) }
        ensures frame { GoesOn (view_of end.old) (view_of end.new) }
        ensures trace { PutAnswer (room_of self.now) (view_of end.old) items.now result (view_of end.new) }
        ensures handle { IsSameEnd end.old end.new }
    {
        let backoff = Backoff::new();
        for _ in rt.forever() {
            let answer = self.try_put_as(end, items);
            if !was_lost(&answer) {
                return answer;
            }
            backoff.spin();
        }
        unreachable!()
    }
}

impl BatchQueue {
    ghost use Rattle.batch_queue.specs.Handles.{view_of, room_of, IsEndOf, IsSameEnd};

    /// One try to put the items as one batch: all of them or none. Returns the position of the first item. The refusals
    /// are checked in the order in which `PutRefusal` lists them.
    ///
    /// The items can be taken after the call has published them, all at one step.
    pub fn try_put(&self, end: &mut BatchEnd, items: &[u64]) -> Result<u64, PutRefusal>
        requires { IsEndOf self.now end.old }
        ensures effect { MatchResult result (λ start. PutLine items.now (view_of end.old) (view_of end.new))
            (λ r. SameLines (view_of end.old) (view_of end.new)) }
        ensures result { IfOk result (λ start. HasPut (view_of end.old) start items.now (view_of end.new)) }
        ensures error { IfErr result (λ r. WhyNotPut (view_of end.old) (room_of self.now) (length items.now) r
            (view_of end.new)) }
        ensures shut { (view_of end.old).seen.object.shut ≡ true → 0 < length items.now
            → length items.now ≤ room_of self.now
            → MatchResult result (λ start. ⊥) (λ refusal. refusal ≡ refusals.Closed) }
        ensures frame { GoesOn (view_of end.old) (view_of end.new) }
        ensures trace { MatchResult result
            (λ start. IsPut (room_of self.now) (view_of end.old) start items.now (view_of end.new))
            (λ r. RefusedPut (room_of self.now) (view_of end.old) (length items.now) r (view_of end.new)) }
        ensures handle { IsSameEnd end.old end.new }
    {
        self.try_put_as(end, items)
    }

    /// One try to put as many of the first items as there is room for, as one batch. Returns the position of the first
    /// item, and the number of items. It never returns TooLong, and returns Full only if there is no room for one item.
    pub fn try_put_some(
        &self,
        end: &mut BatchEnd,
        items: &[u64],
    ) -> Result<(u64, usize), PutRefusal>
        requires { IsEndOf self.now end.old }
        ensures effect { MatchResult result (λ r. (0 < r.1) × (r.1 ≤ length items.now)
            × PutLine (take r.1 items.now) (view_of end.old) (view_of end.new))
            (λ r. SameLines (view_of end.old) (view_of end.new)) }
        ensures result { IfOk result (λ r. HasPut (view_of end.old) r.0 (take r.1 items.now) (view_of end.new)
            × HasUsedRoom (view_of end.old) (room_of self.now) (min (length items.now) (room_of self.now)) r.0 r.1
            (view_of end.new)) }
        ensures error { IfErr result (λ r. WhyNotPutSome (view_of end.old) (room_of self.now) (length items.now) r
            (view_of end.new)) }
        ensures shut { (view_of end.old).seen.object.shut ≡ true → 0 < length items.now
            → MatchResult result (λ r. ⊥) (λ refusal. refusal ≡ refusals.Closed) }
        ensures frame { GoesOn (view_of end.old) (view_of end.new) }
        ensures trace { MatchResult result
            (λ r. IsPutSome (room_of self.now) (view_of end.old) r.0 r.1 items.now (view_of end.new))
            (λ r. RefusedSome (room_of self.now) (view_of end.old) (length items.now) r (view_of end.new)) }
        ensures handle { IsSameEnd end.old end.new }
    {
        self.try_put_some_as(end, items)
    }

    /// Retries `try_put` while it returns Lost. It returns every other refusal, so it returns Full if takers are slow,
    /// and never Lost.
    pub fn put<R: Wait>(&self, rt: &R, end: &mut BatchEnd, items: &[u64]) -> Result<u64, PutRefusal>
        requires { IsEndOf self.now end.old }
        ensures effect { MatchResult result (λ start. PutLine items.now (view_of end.old) (view_of end.new))
            (λ r. SameLines (view_of end.old) (view_of end.new)) }
        ensures result { IfOk result (λ start. HasPut (view_of end.old) start items.now (view_of end.new)) }
        ensures error { IfErr result (λ r. WhyNotPut (view_of end.old) (room_of self.now) (length items.now) r
            (view_of end.new)) }
        ensures retries { IsFalse (is_lost result) }
        ensures shut { (view_of end.old).seen.object.shut ≡ true → 0 < length items.now
            → length items.now ≤ room_of self.now
            → MatchResult result (λ start. ⊥) (λ refusal. refusal ≡ refusals.Closed) }
        ensures frame { GoesOn (view_of end.old) (view_of end.new) }
        ensures trace { PutAnswer (room_of self.now) (view_of end.old) items.now result (view_of end.new) }
        ensures handle { IsSameEnd end.old end.new }
    {
        self.put_as(rt, end, items)
    }
}
