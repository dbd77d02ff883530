//! Shutting and closing.
ghost use Rattle.std.specs.Prelude.{◌≡◌, ◌+◌, ◌-◌, ◌<◌, ◌≤◌, IfOk, IfErr, MatchResult};
ghost use Rattle.std.specs.Mem.Slots.{slots_items, slots_len, IsFull};
ghost use Rattle.claim_queue.specs.Claims.{KeepsClaims};
ghost use Rattle.claim_queue.specs.Client.{HasShut};
ghost use Rattle.claim_queue.specs.Closings.{ClosedNow, left_at, left_from};
ghost use Rattle.claim_queue.specs.Evidence.{ShutNow};
ghost use Rattle.table_theory.specs.Ledgers.{WereOpen};
ghost use Rattle.table_theory.specs.Moments.{StepsAtMost, WhyNotClosed};
ghost use Rattle.claim_queue.specs.declared.layout.TheConstants.{MOST_PLACES};
ghost use Rattle.table_theory.specs.declared.positions.TheConstants.{POSITIONS};
ghost use Rattle.claim_queue.specs.Layout.{width, ends_word};
ghost use Rattle.claim_queue.specs.Lines.{SameLines};

use crate::ends::{ClaimQueue, QueueEnd};
use crate::layout::{ENDS, HEAD, SHUT, TAIL, data_word, flag_word};
use crate::steps::or_head;
use arrayvec::ArrayVec;
use std::alloc::Global;
use std::marker::Brand;
use table_theory::OpenEnds;
use table_theory::last_end::{close_by, count};
use table_theory::protocol::Protocol;

/// The contents of a closed queue: its first position, how many items were put (claimed) and taken, and the items left,
/// in the order of their claims. A place that was claimed and never raised has None.
#[derive(Drop)]
pub struct Closed<const N: usize> {
    pub first: u32,
    pub put: u32,
    pub taken: u32,
    pub left: ArrayVec<Option<u64>, N>,
}

fn read_at(closed: &atomic_table::Closed<(), Global>, room: usize, position: u64) -> Option<u64>
    requires words { (slots_len closed.now.words ≡ width room) × IsFull closed.now.words × (1 ≤ room)
        × (room ≤ MOST_PLACES) }
    requires range { position < POSITIONS }
    ensures { result ≡ left_at room (slots_items closed.now.words) position }
{
    let place = position as usize;
    if closed.word(flag_word(room, place)) == position + 1 {
        Some(closed.word(data_word(room, place)))
    } else {
        None
    }
}

fn read_left<const N: usize>(
    closed: &atomic_table::Closed<(), Global>,
    tail: u64,
    head: u64,
) -> ArrayVec<Option<u64>, N>
    requires words { (slots_len closed.now.words ≡ width N) × IsFull closed.now.words × (1 ≤ N) × (N ≤ MOST_PLACES) }
    requires range { (tail ≤ head) × (head ≤ tail + N) × (head < POSITIONS) }
    ensures { result.items ≡ left_from N (slots_items closed.now.words) tail (head - tail) }
{
    let mut left = ArrayVec::new();
    for position in tail..head {
        left.push(read_at(closed, N, position));
    }
    left
}

impl<const N: usize, C: Protocol> ClaimQueue<N, C> {
    ghost use Rattle.claim_queue.specs.Handles.{view_of, first_of, IsEndOf, IsOnlyEnd, IsSameEnd};

    /// Shuts the queue for claims, for good; items that were put can still be taken. Returns true if the queue was
    /// open: only one call for a queue ever returns true.
    pub fn shut(&self, end: &mut QueueEnd<N>) -> bool
        requires { IsEndOf self.now end.old }
        ensures effect { SameLines (view_of end.old) (view_of end.new) }
        ensures result { HasShut (view_of end.old) result (view_of end.new) }
        ensures frame { KeepsClaims (view_of end.old) (view_of end.new) }
        ensures steps { StepsAtMost 1 (view_of end.old) (view_of end.new) }
        ensures trace { ShutNow (view_of end.old) result (view_of end.new) }
        ensures handle { IsSameEnd end.old end.new }
    {
        // linearization point: the queue is shut. One fetch-or suffices: it sets the mark whatever the head is, and the
        // word that it finds shows whether the queue was open.
        or_head(&self.table.shared, &mut end.seat) < SHUT
    }

    /// Closes the queue if every other end has been joined. Else it returns the queue, the end and the number of the
    /// other ends. It allocates no memory.
    pub fn close(
        self,
        end: QueueEnd<N>,
    ) -> Result<Closed<N>, (ClaimQueue<N, C>, QueueEnd<N>, OpenEnds)>
        requires { IsEndOf self end }
        ensures only { IsOnlyEnd end.entry → MatchResult result (λ c. Unit {0}) (λ e. ⊥) }
        ensures closed { IfOk result (λ c. (c.first ≡ first_of self)
            × ClosedNow (view_of end.entry) c.first c.put c.taken c.left.items) }
        ensures error { IfErr result (λ e. WhyNotClosed e.2.others (view_of end.entry) (view_of e.1)) }
        ensures frame { IfErr result (λ e. SameLines (view_of end.entry) (view_of e.1)
            × KeepsClaims (view_of end.entry) (view_of e.1)
            × ((view_of e.1).own.shuts ≡ (view_of end.entry).own.shuts)) }
        ensures trace { IfErr result (λ e. WereOpen ends_word (view_of end.entry) e.2.others (view_of e.1)) }
        ensures handle { IfErr result (λ e. (e.0 ≡ self) × IsSameEnd end.entry e.1) }
    {
        let QueueEnd { seat } = end;
        // One load suffices: if the number is 1, this is the only end, and no other end can step after the load.
        let last = match count::<_, _, _, _, Brand>(&self.table.shared, seat, ENDS) {
            Ok(last) => last,
            Err((seat, ends)) => {
                return Err((self, QueueEnd { seat }, OpenEnds { others: ends - 1 }));
            }
        };
        let ClaimQueue { table, first } = self;
        let closed = close_by(table, last);
        let head = closed.word(HEAD) % SHUT;
        let tail = closed.word(TAIL);
        let left = read_left(&closed, tail, head);
        closed.free();
        Ok(Closed {
            first,
            put: (head - first as u64) as u32,
            taken: (tail - first as u64) as u32,
            left,
        })
    }
}
