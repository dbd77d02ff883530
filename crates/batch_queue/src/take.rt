//! Takings: an end follows the marks of published batches from the tail on, and takes all of them by one
//! compare-and-swap of the tail. Then it reads their items, and gives their places back by one store.
ghost use Rattle.std.specs.Prelude.{◌≡◌, ◌⊎◌, ◌+◌, ◌<◌, ◌≤◌, ℕ, List, [], length, min, take, MatchResult, IfErr, IfOk};
ghost use Rattle.std.specs.Prelude.{IsFalse};
ghost use Rattle.table_theory.specs.Seating.{IsSame};
ghost use Rattle.batch_queue.specs.Client.{ArePut, EachEndKeeps, GoesOn, TookAllThatFit, WereFirst, WhyNotTaken};
ghost use Rattle.batch_queue.specs.declared.layout.TheConstants.{FIRST_MARK, POSITIONS};
ghost use Rattle.batch_queue.specs.Layout.{tail_word};
ghost use Rattle.batch_queue.specs.Lines.{SameLines};
ghost use Rattle.batch_queue.specs.Moments.{AtTwoMoments};
ghost use Rattle.batch_queue.specs.Object.{NoneFits};
ghost use Rattle.batch_queue.specs.Own.{no_slots, with_taking};
ghost use Rattle.batch_queue.specs.Rules.{InvHeldOf};
ghost use Rattle.batch_queue.specs.Steps.{IsSeated, Stays, Found};
ghost use Rattle.batch_queue.specs.Evidence.{RefusedTake, TakeAnswer, TookBatches};
ghost use Rattle.batch_queue.specs.Takings.{FilledBuffer, HasTaken, IsNone, IsShort, must_wait};

use crate::access::read_items;
use crate::ends::{BatchEnd, BatchQueue};
use crate::layout::{SHUT, TAIL};
use crate::put::load_head;
use crate::refusals::TakeRefusal;
use crate::rule::View;
use crate::steps::{Words, exchange_tail, give_back, load};
use crate::walk::{PUBLISHED, leads_on, load_mark, walk};
use atomic_table::Seat;
use crossbeam_utils::Backoff;
use std::sync::Wait;
use table_theory::protocol::Protocol;

pub(crate) fn load_tail<C: Protocol>(words: &Words<C>, seat: &mut Seat<u64, View>) -> u64
    requires queue { (seat.old.table_id ≡ words.now.table_id) × (FIRST_MARK ≤ words.now.table_id.words) }
    requires live { 1 ≤ seat.old.me.0.member.ends }
    ensures queue { IsSame seat.old seat.new × Stays seat.old.me.0 seat.new.me.0 }
    ensures slots { seat.new.me.1 ≡ seat.old.me.1 }
    ensures found { Found seat.old.me.0 tail_word result seat.new.me.0 }
    ensures tail { (result ≡ seat.new.me.0.seen.object.taken) × (result < POSITIONS) }
{
    load(words, seat, TAIL)
}

// Why nothing is taken at this tail: its mark showed no published batch.
pub(crate) fn why_none<C: Protocol>(
    words: &Words<C>,
    seat: &mut Seat<u64, View>,
    tail: u64,
) -> TakeRefusal
    requires queue { (seat.old.table_id ≡ words.now.table_id) × (FIRST_MARK ≤ words.now.table_id.words) }
    requires live { 1 ≤ seat.old.me.0.member.ends }
    requires bounded { tail < POSITIONS }
    ensures queue { IsSame seat.old seat.new × Stays seat.old.me.0 seat.new.me.0 }
    ensures slots { seat.new.me.1 ≡ seat.old.me.1 }
    ensures why { IsNone tail seat.old.me.0 result seat.new.me.0 }
{
    // linearization point of Closed: the queue's tail is at least `tail` and at most the head. If they are equal,
    // nothing is left, and a shut queue stays shut.
    let head = load_head(words, seat);
    if head == SHUT + tail {
        return TakeRefusal::Closed;
    }
    // Empty is exact: the tail never falls. If it is the same again, it was the same when the mark was loaded.
    let now = load_tail(words, seat);
    if now != tail {
        return TakeRefusal::Lost { tail: now };
    }
    TakeRefusal::Empty { at: tail }
}

// Why nothing is taken at this tail: its mark showed a batch of `count` items, too many for the buffer or the queue.
fn why_short<C: Protocol>(
    words: &Words<C>,
    seat: &mut Seat<u64, View>,
    tail: u64,
    count: u64,
) -> TakeRefusal
    requires queue { (seat.old.table_id ≡ words.now.table_id) × (FIRST_MARK ≤ words.now.table_id.words) }
    requires live { 1 ≤ seat.old.me.0.member.ends }
    ensures queue { IsSame seat.old seat.new × Stays seat.old.me.0 seat.new.me.0 }
    ensures slots { seat.new.me.1 ≡ seat.old.me.1 }
    ensures why { IsShort tail count seat.old.me.0 result seat.new.me.0 }
{
    // ShortBuffer is exact: the tail never falls. If it is the same again, it was the same when the mark was loaded.
    let now = load_tail(words, seat);
    if now != tail {
        return TakeRefusal::Lost { tail: now };
    }
    TakeRefusal::ShortBuffer { at: tail, count }
}

// Takes the batches that are published at the tail, as many as have no more than `most` items, and their slots. Returns
// the position of the first item, and the number of items.
fn take_batches<C: Protocol>(
    words: &Words<C>,
    seat: &mut Seat<u64, View>,
    room: usize,
    most: usize,
) -> Result<(u64, usize), TakeRefusal>
    requires queue { IsSeated room words.now.table_id seat.old }
    requires bare { (seat.old.me.1 ≡ []) × (seat.old.me.0.own.held ≡ no_slots) }
    ensures queue { IsSame seat.old seat.new × Stays seat.old.me.0 seat.new.me.0 }
    ensures taken { MatchResult result (λ r. (items : List ℕ) × (length items ≡ r.1)
        × HasTaken room most seat.old.me.0 r.0 items seat.new.me) (λ r. seat.new.me.1 ≡ []) }
    ensures most { IfOk result (λ r. (r.1 ≡ min most room) ⊎ AtTwoMoments seat.old.me.0 seat.new.me.0 (λ o later.
        (o.taken ≡ later.taken) × NoneFits o (later.taken + r.1) (later.taken + min most room)
        × (seat.new.me.0.own ≡ with_taking seat.old.me.0.own later r.1))) }
    ensures error { IfErr result (λ r. WhyNotTaken seat.old.me.0 most r seat.new.me.0) }
    ensures refused { IfErr result (λ r. RefusedTake room seat.old.me.0 most r seat.new.me.0) }
{
    // The tail never falls, and no position is used again: if the compare-and-swap finds this tail, nothing was taken
    // in between.
    let tail = load_tail(words, seat);
    // linearization point of Empty and ShortBuffer, if the tail is then found unchanged
    let first = load_mark(words, seat, room, tail);
    if !leads_on(PUBLISHED, tail, first) {
        return Err(why_none(words, seat, tail));
    }
    let most = most.min(room) as u64;
    let count = first / 2 - tail;
    if count > most {
        return Err(why_short(words, seat, tail, count));
    }
    // One load of each mark suffices: items that are published stay published until they are taken, and then the
    // compare-and-swap fails.
    let new = walk(words, seat, room, tail, first / 2, tail + most, PUBLISHED);
    // linearization point: the batches are taken together, with their slots, if the tail is unchanged
    let found = exchange_tail(words, seat, tail, new);
    if found != tail {
        return Err(TakeRefusal::Lost { tail: found });
    }
    Ok((tail, (new - tail) as usize))
}

// A taking that waits retries after this answer.
fn must_wait(answer: &Result<usize, TakeRefusal>) -> bool
    ensures { result ≡ must_wait answer.now }
{
    matches!(
        answer,
        Err(TakeRefusal::Empty { at: _ } | TakeRefusal::Lost { tail: _ })
    )
}

impl<C: Protocol> BatchQueue<C> {
    ghost use Rattle.batch_queue.specs.Handles.{view_of, room_of, IsEndOf, IsSameEnd};

    /// One try to take batches: as many whole batches as are published side by side at the tail and fit the buffer. If
    /// `try_take_some` parted the batch at the tail, the first of them is the rest of that batch. Their items are then
    /// the first items of the buffer, in order. Returns the number of items.
    ///
    /// At the end's last step the protocol allowed what each end put and took, so each item is one that an end was
    /// allowed to put.
    // In line, the answer stays in registers.
    #[inline(always)]
    pub fn try_take_as(&self, end: &mut BatchEnd, items: &mut [u64]) -> Result<usize, TakeRefusal>
        requires { IsEndOf self.now end.old }
        ensures effect { MatchResult result
            (λ n. FilledBuffer n items.old items.new (view_of end.old) (view_of end.new))
            (λ r. SameLines (view_of end.old) (view_of end.new) × (items.new ≡ items.old)) }
        ensures result { IfOk result (λ n. WereFirst (view_of end.old) (take n items.new) (view_of end.new)
            × TookAllThatFit (view_of end.old) (room_of self.now) (length items.old) n (view_of end.new)) }
        ensures protocol { IfOk result (λ n. ArePut C.allows (take n items.new)) }
        ensures kept { IfOk result (λ n. EachEndKeeps C.allows (view_of end.new)) }
        ensures error { IfErr result (λ r. WhyNotTaken (view_of end.old) (length items.old) r (view_of end.new)) }
        ensures frame { GoesOn (view_of end.old) (view_of end.new) }
        ensures trace { MatchResult result
            (λ n. TookBatches (room_of self.now) (view_of end.old) (length items.old) (take n items.new)
            (view_of end.new))
            (λ r. RefusedTake (room_of self.now) (view_of end.old) (length items.old) r (view_of end.new)) }
        ensures handle { IsSameEnd end.old end.new }
    {
        let (words, room) = (&self.table.shared, self.room);
        let (start, count) = take_batches(words, &mut end.seat, room, items.len())?;
        // Plain reads suffice: only this end holds the slots until it gives them back.
        read_items(words, &mut end.seat, room, start, count, items);
        // linearization point: the places are given back, by one store after the reads
        give_back(words, &mut end.seat, room, start, count);
        Ok(count)
    }

    /// Retries `try_take_as` while nothing is published at the tail, and while other ends take first: it waits for a
    /// batch. It returns Closed if the queue is shut and empty.
    #[inline(always)]
    pub fn take_as<R: Wait>(
        &self,
        rt: &R,
        end: &mut BatchEnd,
        items: &mut [u64],
    ) -> Result<usize, TakeRefusal>
        requires { IsEndOf self.now end.old }
        ensures effect { MatchResult result
            (λ n. FilledBuffer n items.old items.new (view_of end.old) (view_of end.new))
            (λ r. SameLines (view_of end.old) (view_of end.new) × (items.new ≡ items.old)) }
        ensures result { IfOk result (λ n. WereFirst (view_of end.old) (take n items.new) (view_of end.new)
            × TookAllThatFit (view_of end.old) (room_of self.now) (length items.old) n (view_of end.new)) }
        ensures protocol { IfOk result (λ n. ArePut C.allows (take n items.new)) }
        ensures kept { IfOk result (λ n. EachEndKeeps C.allows (view_of end.new)) }
        ensures error { IfErr result (λ r. WhyNotTaken (view_of end.old) (length items.old) r (view_of end.new)) }
        ensures retries { IsFalse (must_wait result) }
        ensures frame { GoesOn (view_of end.old) (view_of end.new) }
        ensures trace { IfOk result (λ n. TakeAnswer (room_of self.now) (view_of end.old) (length items.old)
            (take n items.new) result (view_of end.new))
            × IfErr result (λ r. TakeAnswer (room_of self.now) (view_of end.old) (length items.old) [] result
            (view_of end.new)) }
        ensures handle { IsSameEnd end.old end.new }
    {
        let backoff = Backoff::new();
        for _ in rt.forever() {
            let answer = self.try_take_as(end, items);
            if !must_wait(&answer) {
                return answer;
            }
            backoff.snooze();
        }
        unreachable!()
    }
}

impl BatchQueue {
    ghost use Rattle.batch_queue.specs.Handles.{view_of, room_of, IsEndOf, IsSameEnd};

    /// One try to take batches: as many whole batches as are published side by side at the tail and fit the buffer. If
    /// `try_take_some` parted the batch at the tail, the first of them is the rest of that batch. Their items are then
    /// the first items of the buffer, in order. Returns the number of items.
    // In line, the answer stays in registers.
    #[inline(always)]
    pub fn try_take(&self, end: &mut BatchEnd, items: &mut [u64]) -> Result<usize, TakeRefusal>
        requires { IsEndOf self.now end.old }
        ensures effect { MatchResult result
            (λ n. FilledBuffer n items.old items.new (view_of end.old) (view_of end.new))
            (λ r. SameLines (view_of end.old) (view_of end.new) × (items.new ≡ items.old)) }
        ensures result { IfOk result (λ n. WereFirst (view_of end.old) (take n items.new) (view_of end.new)
            × TookAllThatFit (view_of end.old) (room_of self.now) (length items.old) n (view_of end.new)) }
        ensures error { IfErr result (λ r. WhyNotTaken (view_of end.old) (length items.old) r (view_of end.new)) }
        ensures frame { GoesOn (view_of end.old) (view_of end.new) }
        ensures trace { MatchResult result
            (λ n. TookBatches (room_of self.now) (view_of end.old) (length items.old) (take n items.new)
            (view_of end.new))
            (λ r. RefusedTake (room_of self.now) (view_of end.old) (length items.old) r (view_of end.new)) }
        ensures handle { IsSameEnd end.old end.new }
    {
        self.try_take_as(end, items)
    }

    /// Retries `try_take` while nothing is published at the tail, and while other ends take first: it waits for a
    /// batch. It returns Closed if the queue is shut and empty.
    pub fn take<R: Wait>(
        &self,
        rt: &R,
        end: &mut BatchEnd,
        items: &mut [u64],
    ) -> Result<usize, TakeRefusal>
        requires { IsEndOf self.now end.old }
        ensures effect { MatchResult result
            (λ n. FilledBuffer n items.old items.new (view_of end.old) (view_of end.new))
            (λ r. SameLines (view_of end.old) (view_of end.new) × (items.new ≡ items.old)) }
        ensures result { IfOk result (λ n. WereFirst (view_of end.old) (take n items.new) (view_of end.new)
            × TookAllThatFit (view_of end.old) (room_of self.now) (length items.old) n (view_of end.new)) }
        ensures error { IfErr result (λ r. WhyNotTaken (view_of end.old) (length items.old) r (view_of end.new)) }
        ensures retries { IsFalse (must_wait result) }
        ensures frame { GoesOn (view_of end.old) (view_of end.new) }
        ensures trace { IfOk result (λ n. TakeAnswer (room_of self.now) (view_of end.old) (length items.old)
            (take n items.new) result (view_of end.new))
            × IfErr result (λ r. TakeAnswer (room_of self.now) (view_of end.old) (length items.old) [] result
            (view_of end.new)) }
        ensures handle { IsSameEnd end.old end.new }
    {
        self.take_as(rt, end, items)
    }
}
