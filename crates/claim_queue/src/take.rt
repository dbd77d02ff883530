//! Takings: an end reads the items that are raised from the tail on, and takes them by one compare-and-swap of the
//! tail.
ghost use Rattle.std.specs.Prelude.{◌≡◌, ◌+◌, ◌-◌, ◌*◌, ◌<◌, ◌≤◌, ◌∷◌, [], length, MatchResult, MatchBool, IfOk, IfErr};
ghost use Rattle.std.specs.Prelude.{IsFalse};
ghost use Rattle.table_theory.specs.declared.positions.TheConstants.{POSITIONS};
ghost use Rattle.table_theory.specs.Moments.{StepsAtMost};
ghost use Rattle.table_theory.specs.Positioned.{tail_of};
ghost use Rattle.claim_queue.specs.Claims.{KeepsClaims};
ghost use Rattle.claim_queue.specs.Client.{ArePut, EachEndKeeps, WereFirst, WhyNotTaken};
ghost use Rattle.claim_queue.specs.Evidence.{TookItems, RefusedTake, PausedTake};
ghost use Rattle.claim_queue.specs.Lines.{SameLines, TookLine};
ghost use Rattle.claim_queue.specs.Pauses.{PausedBeforeLast};
ghost use Rattle.claim_queue.specs.Takings.{IsLine, IsBegun, IsOne, IsNone};
ghost use Rattle.claim_queue.specs.Reads.{HasFound, IsScanned, IsStopped, IsRefusedAt};

use crate::ends::{ClaimQueue, QueueEnd};
use crate::layout::SHUT;
use crate::pause::{NoPause, WatchedPause};
use crate::steps::{exchange_tail, load_data, load_flag, load_head, load_tail};
use arrayvec::ArrayVec;
use table_theory::protocol::Protocol;
use thiserror::Error;

/// Why nothing was taken.
#[derive(Clone, Copy, Debug, PartialEq, Eq, Drop, Error)]
pub enum TakeRefusal {
    /// The place of this position was not raised, and before it there was nothing to take: no item, or no whole line.
    /// After that the tail was found unchanged, and the queue was open or had something left.
    #[error("nothing raised at {at}")]
    Empty { at: u32 },
    /// Another end took first: `tail` was found, past the tail that was loaded.
    #[error("lost, tail {tail}")]
    Lost { tail: u32 },
    /// The queue is shut, and all that was put is taken.
    #[error("the queue is shut and empty")]
    Closed,
}

impl<const N: usize, C: Protocol> ClaimQueue<N, C> {
    ghost use Rattle.claim_queue.specs.Handles.{view_of, IsEndOf, IsSameEnd};

    /// One try to take the first item left, in a queue under a client's protocol. At the end's last step the protocol
    /// allowed what each end put and took, so the item is one that an end was allowed to put.
    pub fn try_take_as(&self, end: &mut QueueEnd<N>) -> Result<u64, TakeRefusal>
        requires { IsEndOf self.now end.old }
        ensures effect { MatchResult result (λ x. TookLine (x ∷ []) (view_of end.old) (view_of end.new))
            (λ r. SameLines (view_of end.old) (view_of end.new)) }
        ensures result { IfOk result (λ x. WereFirst (view_of end.old) (x ∷ []) (view_of end.new)) }
        ensures protocol { IfOk result (λ x. ArePut C.allows (view_of end.new) (x ∷ [])) }
        ensures kept { IfOk result (λ x. EachEndKeeps C.allows (view_of end.new)) }
        ensures frame { KeepsClaims (view_of end.old) (view_of end.new) }
        ensures shuts_nothing { (view_of end.new).own.shuts ≡ (view_of end.old).own.shuts }
        ensures steps { StepsAtMost 4 (view_of end.old) (view_of end.new) }
        ensures error { IfErr result (λ r. ((view_of end.new).own ≡ (view_of end.old).own)
            × WhyNotTaken IsNone (view_of end.old) r (view_of end.new)) }
        ensures trace { MatchResult result (λ x. TookItems N (view_of end.old) (x ∷ []) (view_of end.new))
            (λ r. RefusedTake IsNone IsOne N (view_of end.old) r (view_of end.new)) }
        ensures handle { IsSameEnd end.old end.new }
    {
        self.take_first(end, &mut NoPause)
    }

    // One try to take the first item left, with a pause before the compare-and-swap.
    fn take_first<P: WatchedPause<N>>(
        &self,
        end: &mut QueueEnd<N>,
        pause: &mut P,
    ) -> Result<u64, TakeRefusal>
        requires { IsEndOf self.now end.old }
        ensures effect { MatchResult result (λ x. TookLine (x ∷ []) (view_of end.old) (view_of end.new))
            (λ r. SameLines (view_of end.old) (view_of end.new)) }
        ensures result { IfOk result (λ x. WereFirst (view_of end.old) (x ∷ []) (view_of end.new)) }
        ensures protocol { IfOk result (λ x. ArePut C.allows (view_of end.new) (x ∷ [])) }
        ensures kept { IfOk result (λ x. EachEndKeeps C.allows (view_of end.new)) }
        ensures frame { KeepsClaims (view_of end.old) (view_of end.new) }
        ensures shuts_nothing { (view_of end.new).own.shuts ≡ (view_of end.old).own.shuts }
        ensures steps { StepsAtMost 4 (view_of end.old) (view_of end.new) }
        ensures error { IfErr result (λ r. ((view_of end.new).own ≡ (view_of end.old).own)
            × WhyNotTaken IsNone (view_of end.old) r (view_of end.new)) }
        ensures trace { MatchResult result (λ x. TookItems N (view_of end.old) (x ∷ []) (view_of end.new))
            (λ r. RefusedTake IsNone IsOne N (view_of end.old) r (view_of end.new)) }
        ensures handle { IsSameEnd end.old end.new }
        ensures hook { MatchResult result
            (λ x. PausedBeforeLast P.paused P.paused_at end.old end.new pause.old pause.new)
            (λ r. PausedTake (PausedBeforeLast P.paused P.paused_at end.old end.new) N (view_of end.old) r
            (view_of end.new) pause.old pause.new) }
    {
        // The tail never falls, and no position is used again: if the compare-and-swap finds this tail, no item was
        // taken in between.
        let tail = load_tail(&self.table.shared, &mut end.seat);
        // linearization point of Empty: the item is not raised, if the tail is then found unchanged
        let flag = load_flag(&self.table.shared, &mut end.seat, N, tail);
        if flag != tail + 1 {
            return Err(self.refusal_at(end, tail, tail));
        }
        // The flag was stored after the data. The place is not written again before the tail has passed it, and then
        // the compare-and-swap fails.
        let item = load_data(&self.table.shared, &mut end.seat, N, tail);
        pause.pause_at(end);
        // linearization point: the item is taken, if the tail is unchanged
        let found = exchange_tail(&self.table.shared, &mut end.seat, tail, tail + 1);
        if found != tail {
            return Err(TakeRefusal::Lost { tail: found as u32 });
        }
        Ok(item)
    }

    // Why nothing can be taken at this tail, after the place at `at` was found not raised.
    fn refusal_at(&self, end: &mut QueueEnd<N>, tail: u64, at: u64) -> TakeRefusal
        requires queue { IsEndOf self.now end.old }
        requires bounded { (tail < POSITIONS) × (at < POSITIONS) }
        requires passed { tail ≤ tail_of (view_of end.old).seen.object }
        ensures why { IsRefusedAt (view_of end.old) tail at result (view_of end.new) }
        ensures handle { IsSameEnd end.old end.new }
    {
        // linearization point of Closed: the queue's tail is between `tail` and the head. If they are equal, nothing is
        // left, and a shut queue stays shut.
        let head = load_head(&self.table.shared, &mut end.seat);
        if head == SHUT + tail {
            return TakeRefusal::Closed;
        }
        // Empty is exact: the tail never falls. If it is the same again, it was the same when the flag was loaded.
        let now = load_tail(&self.table.shared, &mut end.seat);
        if now != tail {
            return TakeRefusal::Lost { tail: now as u32 };
        }
        TakeRefusal::Empty { at: at as u32 }
    }

    // Finds items from `tail` on, up to the end of a line. Returns false if the next place was not raised.
    fn scan(&self, end: &mut QueueEnd<N>, tail: u64, line: &mut ArrayVec<u64, N>) -> bool
        requires queue { IsEndOf self.now end.old }
        requires started { HasFound (view_of end.old) tail [] × (tail < POSITIONS) }
        requires empty { line.old.items ≡ [] }
        ensures found { HasFound (view_of end.new) tail line.new.items }
        ensures trace { MatchBool result
            (IsScanned N (view_of end.old) tail line.new.items (view_of end.new) × IsLine N line.new.items)
            (IsStopped N (view_of end.old) tail line.new.items (view_of end.new) × IsBegun N line.new.items) }
        ensures short { IsFalse result → tail + length line.new.items < POSITIONS }
        ensures handle { IsSameEnd end.old end.new }
    {
        for i in 0..N {
            let position = tail + i as u64;
            // linearization point of Empty: the item is not raised, if the tail is then found unchanged
            let flag = load_flag(&self.table.shared, &mut end.seat, N, position);
            if flag != position + 1 {
                return false;
            }
            // The flag was stored after the data. The place is not written again before the tail has passed it, and
            // then the compare-and-swap fails.
            let item = load_data(&self.table.shared, &mut end.seat, N, position);
            line.push(item);
            if item == 10 {
                return true;
            }
        }
        true
    }

    /// One try to take a line, in a queue under a client's protocol: the items up to and with the first 10, or N raised items without a 10 before the last
    /// one. They are appended to `line`, and their number is returned; if the try is refused, the list stays empty. One
    /// compare-and-swap takes all of them, so no other end takes an item between them.
    ///
    /// Condition: the list is empty.
    pub fn try_take_line_as(
        &self,
        end: &mut QueueEnd<N>,
        line: &mut ArrayVec<u64, N>,
    ) -> Result<usize, TakeRefusal>
        requires queue { IsEndOf self.now end.old }
        requires empty { line.old.items ≡ [] }
        ensures effect { MatchResult result (λ n. TookLine line.new.items (view_of end.old) (view_of end.new))
            (λ r. SameLines (view_of end.old) (view_of end.new)) }
        ensures result { IfOk result (λ n. WereFirst (view_of end.old) line.new.items (view_of end.new)) }
        ensures protocol { IfOk result (λ n. ArePut C.allows (view_of end.new) line.new.items) }
        ensures kept { IfOk result (λ n. EachEndKeeps C.allows (view_of end.new)) }
        ensures frame { KeepsClaims (view_of end.old) (view_of end.new) }
        ensures shuts_nothing { (view_of end.new).own.shuts ≡ (view_of end.old).own.shuts }
        ensures steps { IfOk result (λ n. StepsAtMost (2 * length line.new.items + 2) (view_of end.old) (view_of end.new)) }
        ensures error { IfErr result (λ r. ((view_of end.new).own ≡ (view_of end.old).own)
            × WhyNotTaken (IsBegun N) (view_of end.old) r (view_of end.new)) }
        ensures line { MatchResult result (λ n. (n ≡ length line.new.items) × IsLine N line.new.items)
            (λ r. line.new.items ≡ []) }
        ensures trace { MatchResult result (λ n. TookItems N (view_of end.old) line.new.items (view_of end.new))
            (λ r. RefusedTake (IsBegun N) (IsLine N) N (view_of end.old) r (view_of end.new)) }
        ensures handle { IsSameEnd end.old end.new }
    {
        // The tail never falls, and no position is used again: if the compare-and-swap finds this tail, no item was
        // taken in between.
        let tail = load_tail(&self.table.shared, &mut end.seat);
        if !self.scan(end, tail, line) {
            let at = tail + line.len() as u64;
            line.clear();
            return Err(self.refusal_at(end, tail, at));
        }
        let count = line.len();
        // linearization point: the items of the line are taken together, if the tail is unchanged
        let found = exchange_tail(&self.table.shared, &mut end.seat, tail, tail + count as u64);
        if found != tail {
            line.clear();
            return Err(TakeRefusal::Lost { tail: found as u32 });
        }
        Ok(count)
    }
}

impl<const N: usize> ClaimQueue<N> {
    ghost use Rattle.claim_queue.specs.Handles.{view_of, IsEndOf, IsSameEnd};

    /// One try to take the first item left.
    pub fn try_take(&self, end: &mut QueueEnd<N>) -> Result<u64, TakeRefusal>
        requires { IsEndOf self.now end.old }
        ensures effect { MatchResult result (λ x. TookLine (x ∷ []) (view_of end.old) (view_of end.new))
            (λ r. SameLines (view_of end.old) (view_of end.new)) }
        ensures result { IfOk result (λ x. WereFirst (view_of end.old) (x ∷ []) (view_of end.new)) }
        ensures frame { KeepsClaims (view_of end.old) (view_of end.new) }
        ensures shuts_nothing { (view_of end.new).own.shuts ≡ (view_of end.old).own.shuts }
        ensures steps { StepsAtMost 4 (view_of end.old) (view_of end.new) }
        ensures error { IfErr result (λ r. ((view_of end.new).own ≡ (view_of end.old).own)
            × WhyNotTaken IsNone (view_of end.old) r (view_of end.new)) }
        ensures trace { MatchResult result (λ x. TookItems N (view_of end.old) (x ∷ []) (view_of end.new))
            (λ r. RefusedTake IsNone IsOne N (view_of end.old) r (view_of end.new)) }
        ensures handle { IsSameEnd end.old end.new }
    {
        self.try_take_as(end)
    }

    /// `try_take`, with a pause just before the compare-and-swap, in which another end may step. A try that is refused
    /// before its compare-and-swap does not call the pause.
    pub fn try_take_paused<P: WatchedPause<N>>(
        &self,
        end: &mut QueueEnd<N>,
        pause: &mut P,
    ) -> Result<u64, TakeRefusal>
        requires { IsEndOf self.now end.old }
        ensures effect { MatchResult result (λ x. TookLine (x ∷ []) (view_of end.old) (view_of end.new))
            (λ r. SameLines (view_of end.old) (view_of end.new)) }
        ensures result { IfOk result (λ x. WereFirst (view_of end.old) (x ∷ []) (view_of end.new)) }
        ensures frame { KeepsClaims (view_of end.old) (view_of end.new) }
        ensures shuts_nothing { (view_of end.new).own.shuts ≡ (view_of end.old).own.shuts }
        ensures steps { StepsAtMost 4 (view_of end.old) (view_of end.new) }
        ensures error { IfErr result (λ r. ((view_of end.new).own ≡ (view_of end.old).own)
            × WhyNotTaken IsNone (view_of end.old) r (view_of end.new)) }
        ensures trace { MatchResult result (λ x. TookItems N (view_of end.old) (x ∷ []) (view_of end.new))
            (λ r. RefusedTake IsNone IsOne N (view_of end.old) r (view_of end.new)) }
        ensures handle { IsSameEnd end.old end.new }
        ensures hook { MatchResult result
            (λ x. PausedBeforeLast P.paused P.paused_at end.old end.new pause.old pause.new)
            (λ r. PausedTake (PausedBeforeLast P.paused P.paused_at end.old end.new) N (view_of end.old) r
            (view_of end.new) pause.old pause.new) }
    {
        self.take_first(end, pause)
    }

    /// One try to take a line: the items up to and with the first 10, or N raised items without a 10 before the last
    /// one. They are appended to `line`, and their number is returned; if the try is refused, the list stays empty. One
    /// compare-and-swap takes all of them, so no other end takes an item between them.
    ///
    /// Condition: the list is empty.
    pub fn try_take_line(
        &self,
        end: &mut QueueEnd<N>,
        line: &mut ArrayVec<u64, N>,
    ) -> Result<usize, TakeRefusal>
        requires queue { IsEndOf self.now end.old }
        requires empty { line.old.items ≡ [] }
        ensures effect { MatchResult result (λ n. TookLine line.new.items (view_of end.old) (view_of end.new))
            (λ r. SameLines (view_of end.old) (view_of end.new)) }
        ensures result { IfOk result (λ n. WereFirst (view_of end.old) line.new.items (view_of end.new)) }
        ensures frame { KeepsClaims (view_of end.old) (view_of end.new) }
        ensures shuts_nothing { (view_of end.new).own.shuts ≡ (view_of end.old).own.shuts }
        ensures steps { IfOk result (λ n. StepsAtMost (2 * length line.new.items + 2) (view_of end.old) (view_of end.new)) }
        ensures error { IfErr result (λ r. ((view_of end.new).own ≡ (view_of end.old).own)
            × WhyNotTaken (IsBegun N) (view_of end.old) r (view_of end.new)) }
        ensures line { MatchResult result (λ n. (n ≡ length line.new.items) × IsLine N line.new.items)
            (λ r. line.new.items ≡ []) }
        ensures trace { MatchResult result (λ n. TookItems N (view_of end.old) line.new.items (view_of end.new))
            (λ r. RefusedTake (IsBegun N) (IsLine N) N (view_of end.old) r (view_of end.new)) }
        ensures handle { IsSameEnd end.old end.new }
    {
        self.try_take_line_as(end, line)
    }
}
