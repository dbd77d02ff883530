//! A look at a queue, for monitoring: how many items are in the queue, how many of them are published, and whether the
//! queue is shut.
ghost use Rattle.std.specs.Prelude.{◌≡◌, ◌⊎◌, ◌+◌, ◌≤◌, ◌<◌};
ghost use Rattle.table_theory.specs.Seating.{IsSame};
ghost use Rattle.batch_queue.specs.Client.{GoesOn, LookedAt};
ghost use Rattle.batch_queue.specs.Evidence.{Looked};
ghost use Rattle.batch_queue.specs.Hints.{FoundUp, IsUpTo};
ghost use Rattle.batch_queue.specs.Lines.{SameLines};
ghost use Rattle.batch_queue.specs.Moments.{AtSomeMoment};
ghost use Rattle.batch_queue.specs.Object.{Grows, phase_at};
ghost use Rattle.batch_queue.specs.Steps.{IsSeated, Stays};
ghost use Rattle.batch_queue.specs.declared.layout.TheConstants.{POSITIONS};

use crate::ends::{BatchEnd, BatchQueue};
use crate::layout::SHUT;
use crate::put::load_head;
use crate::rule::View;
use crate::steps::Words;
use crate::take::load_tail;
use crate::walk::{PUBLISHED, leads_on, load_mark, walk};
use atomic_table::Seat;
use table_theory::protocol::Protocol;

/// The positions that a look at a queue found. They were loaded one after the other, and may have moved on since.
#[derive(Clone, Copy, Debug, PartialEq, Eq, Drop)]
pub struct QueueLook {
    /// The position of the next item that is taken.
    pub tail: u64,
    /// All items before this position are published. If it stays below the head, a put that claimed this position
    /// hasn't ended.
    pub published: u64,
    /// The position of the next item that is claimed.
    pub head: u64,
    /// The queue is shut.
    pub shut: bool,
}

// Returns the tail, and the position up to which items from the tail on are found published.
fn find_published<C: Protocol>(
    words: &Words<C>,
    seat: &mut Seat<u64, View>,
    room: usize,
) -> (u64, u64)
    requires queue { IsSeated room words.now.table_id seat.old }
    ensures queue { IsSame seat.old seat.new × Stays seat.old.me.0 seat.new.me.0 }
    ensures slots { seat.new.me.1 ≡ seat.old.me.1 }
    ensures tail_at { AtSomeMoment seat.old.me.0 seat.new.me.0 (λ o. o.taken ≡ result.0) }
    ensures tail { result.0 ≤ seat.new.me.0.seen.object.taken }
    ensures up { (result.0 ≤ result.1) × IsUpTo seat.new.me.0 result.0 result.1 }
    ensures most { (result.1 ≡ result.0 + room) ⊎ AtSomeMoment seat.old.me.0 seat.new.me.0 (λ o. (result.0 < o.taken)
        ⊎ (phase_at o result.1 ≡ 0)) }
    ensures trace { FoundUp room result.0 result.1 seat.old.me.0 seat.new.me.0 }
{
    // The tail is loaded first. Items that are published stay so, whether or not they are then taken.
    let tail = load_tail(words, seat);
    let most = tail + room as u64;
    let first = load_mark(words, seat, room, tail);
    if !leads_on(PUBLISHED, tail, first) {
        return (tail, tail);
    }
    if first / 2 > most {
        return (tail, tail);
    }
    let to = walk(words, seat, room, tail, first / 2, most, PUBLISHED);
    (tail, to)
}

impl<C: Protocol> BatchQueue<C> {
    ghost use Rattle.batch_queue.specs.Handles.{view_of, room_of, IsEndOf, IsSameEnd};

    /// Loads the tail, the marks of the batches that are published from there on, and then the head. It makes at most
    /// as many loads as there are such batches, and three more.
    pub fn look(&self, end: &mut BatchEnd) -> QueueLook
        requires { IsEndOf self.now end.old }
        ensures effect { SameLines (view_of end.old) (view_of end.new) }
        ensures result { (result.tail ≤ result.published) × (result.tail ≤ result.head)
            × IsUpTo (view_of end.new) result.tail result.published }
        ensures moments { LookedAt (view_of end.old) (room_of self.now) result (view_of end.new) }
        ensures frame { GoesOn (view_of end.old) (view_of end.new) }
        ensures trace { Looked (room_of self.now) (view_of end.old) result (view_of end.new) }
        ensures handle { IsSameEnd end.old end.new }
    {
        let words = &self.table.shared;
        let (tail, published) = find_published(words, &mut end.seat, self.room);
        // The head is loaded last: it never falls, so it is not below the positions found before.
        let head = load_head(words, &mut end.seat);
        QueueLook {
            tail,
            published,
            head: head % SHUT,
            shut: head >= SHUT,
        }
    }
}
