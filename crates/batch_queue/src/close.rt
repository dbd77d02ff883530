//! Shutting and closing.
ghost use Rattle.std.specs.Prelude.{◌≡◌, true, IfOk, IfErr, MatchResult};
ghost use Rattle.table_theory.specs.Ledgers.{WereOpen};
ghost use Rattle.batch_queue.specs.Client.{GoesOn, HasShut, IsLater};
ghost use Rattle.batch_queue.specs.Closings.{ClosedNow};
ghost use Rattle.batch_queue.specs.Evidence.{ShutNow};
ghost use Rattle.batch_queue.specs.Layout.{ends_word};
ghost use Rattle.batch_queue.specs.Lefts.{AllPublished, items_left};
ghost use Rattle.batch_queue.specs.Lines.{SameLines};

use crate::ends::{BatchEnd, BatchQueue};
use crate::layout::{ENDS, HEAD, SHUT, TAIL};
use crate::left::LeftItems;
use crate::steps::or_head;
use std::marker::Brand;
use table_theory::OpenEnds;
use table_theory::last_end::{close_by, count};
use table_theory::protocol::Protocol;

/// The contents of a closed queue: how many items were put and taken, and the items left, in the order of their claims.
#[derive(Drop)]
pub struct Closed {
    pub put: u64,
    pub taken: u64,
    pub left: LeftItems,
}

impl<C: Protocol> BatchQueue<C> {
    ghost use Rattle.batch_queue.specs.Handles.{view_of, IsEndOf, IsOnlyEnd, IsSameEnd};

    /// Shuts the queue for claims, for good; items that were put can still be taken. Returns true if the queue was
    /// open: only one call for a queue ever returns true.
    pub fn shut(&self, end: &mut BatchEnd) -> bool
        requires { IsEndOf self.now end.old }
        ensures effect { SameLines (view_of end.old) (view_of end.new) × ((view_of end.new).seen.object.shut ≡ true) }
        ensures result { HasShut (view_of end.old) result (view_of end.new) }
        ensures frame { IsLater (view_of end.old).seen.object (view_of end.new).seen.object }
        ensures trace { ShutNow (view_of end.old) result (view_of end.new) }
        ensures handle { IsSameEnd end.old end.new }
    {
        // linearization point: the queue is shut. One fetch-or suffices: it sets the mark whatever the head is, and the
        // word that it finds shows whether the queue was open.
        or_head(&self.table.shared, &mut end.seat) < SHUT
    }

    /// Closes the queue if every other end has been joined. Else it returns the queue, the end and the number of the
    /// other ends. It allocates no memory.
    pub fn close(self, end: BatchEnd) -> Result<Closed, (BatchQueue<C>, BatchEnd, OpenEnds)>
        requires { IsEndOf self end }
        ensures only { IsOnlyEnd end → MatchResult result (λ c. Unit {0}) (λ e. ⊥) }
        ensures effect { IfOk result (λ c. ClosedNow (view_of end) c.put c.taken (items_left c.left)) }
        ensures published { IfOk result (λ c. AllPublished c.left) }
        ensures error { IfErr result (λ e. WereOpen ends_word (view_of end) e.2.others (view_of e.1)) }
        ensures frame { IfErr result (λ e. SameLines (view_of end) (view_of e.1) × GoesOn (view_of end) (view_of e.1)) }
        ensures handle { IfErr result (λ e. (e.0 ≡ self) × IsSameEnd end e.1) }
    {
        let BatchEnd { seat } = end;
        // One load suffices: if the number is 1, this is the only end, and no other end can step after the load.
        let last = match count::<_, _, _, _, Brand>(&self.table.shared, seat, ENDS) {
            Ok(last) => last,
            Err((seat, ends)) => {
                return Err((self, BatchEnd { seat }, OpenEnds { others: ends - 1 }));
            }
        };
        let BatchQueue { table, room } = self;
        let closed = close_by(table, last);
        let put = closed.word(HEAD) % SHUT;
        let taken = closed.word(TAIL);
        let left = LeftItems::new(closed, room, taken, put);
        Ok(Closed { put, taken, left })
    }
}
