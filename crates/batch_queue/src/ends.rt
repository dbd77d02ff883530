//! The queue and its ends.
ghost use Rattle.std.specs.Prelude.{◌≡◌, ◌+◌, ◌<◌, ◌≤◌, [], ◌++◌, IfOk};
ghost use Rattle.batch_queue.specs.Layout.{width, IsPowerOfTwo};
ghost use Rattle.batch_queue.specs.Own.{no_slots};
ghost use Rattle.batch_queue.specs.Rules.{newcomer, InvHeldOf};
ghost use Rattle.batch_queue.specs.Client.{GoesOn, IsLater};
ghost use Rattle.batch_queue.specs.Endings.{IsNewEnd};
ghost use Rattle.batch_queue.specs.Evidence.{SplitBy, JoinedBy};
ghost use Rattle.batch_queue.specs.Lines.{lines_put, lines_taken, times_parted};
ghost use Rattle.batch_queue.specs.declared.layout.TheConstants.{MOST_PLACES};

use crate::layout::{ENDS, width};
use crate::rule::{BatchRule, Shape, View};
use atomic_table::{Seat, Table};
use event_theory::OutOfMemory;
use std::alloc::Global;
use std::marker::Brand;
use table_theory::end_steps::{count_down, count_up, split_off, take_in};
use table_theory::protocol::{Free, Protocol};

/// A queue under the client's protocol C. Under `Free`, every put is allowed.
#[derive(Drop)]
pub struct BatchQueue<C: Protocol = Free> {
    pub(crate) table: Table<u64, View, Shape, BatchRule<C>, Global>,
    pub(crate) room: usize,
    ghost sized: { (table.shared.table_id.words ≡ width room) × (table.shared.table_id.slots ≡ room) },
    ghost shaped: { table.shared.key.room ≡ room },
    ghost bounded: { (0 < room) × (room ≤ MOST_PLACES) },
    ghost power: { IsPowerOfTwo room },
}

/// An end of a queue. It has no bytes.
///
/// Its list is true for its own steps and for the steps of all ends that it has seen. The step of each entry found the
/// number that its word had then. It found the queue as the previous step left it, lawful and shown by the words.
#[derive(Drop)]
pub struct BatchEnd {
    pub(crate) seat: Seat<u64, View>,
    ghost room: { seat.me.0.first.room ≡ seat.table_id.slots },
    ghost bare: { seat.me.1 ≡ [] },
    ghost idle: { seat.me.0.own.held ≡ no_slots },
    ghost one: { seat.me.0.member.ends ≡ 1 },
    ghost ruled: { ∥ InvHeldOf seat.me.0 ∥₁ },
}

impl<C: Protocol> BatchQueue<C> {
    ghost use Rattle.batch_queue.specs.Handles.{view_of, room_of, IsDivisible, IsEndOf, IsSameEnd, AreOfOneQueue};

    /// An empty queue of `room` places under the protocol C, and its only end.
    ///
    /// Condition: the number of places is a power of two, at most 2^24.
    pub fn new_as(alloc: Global, room: usize) -> Result<(BatchQueue<C>, BatchEnd), OutOfMemory>
        requires { (0 < room) × (room ≤ MOST_PLACES) × IsPowerOfTwo room }
        ensures { IfOk result (λ r. IsEndOf r.0 r.1 × (room_of r.0 ≡ room)
            × (view_of r.1 ≡ newcomer (record { room = room }))) }
    {
        let mut words = Vec::from_elem(alloc, 0u64, width(room))?;
        let row = words.as_mut_slice();
        row[ENDS] = 1;
        let slots = Vec::from_elem(alloc, 0u64, room)?;
        let shape = Shape { room: room as u64 };
        let Ok((table, seat)) = Table::new(alloc, row, slots, &shape) else {
            return Err(OutOfMemory);
        };
        Ok((BatchQueue { table, room }, BatchEnd { seat }))
    }

    /// A new end, which has put and taken nothing. Both ends must be joined again before the queue can be closed; an
    /// end that is dropped can never be joined. Besides the step that counts the new end, the first word is loaded
    /// once, and the number found there is not used.
    ///
    /// The new end gets half of the end's share, and 2^21 parts at most. Condition: the end has two or more of its
    /// queue's 2^64 - 1 parts. The first end can be split 2^43 times without a join, and each of those ends 21 times in
    /// a chain. `split_share` gives as many parts as its caller says.
    pub fn split(&self, end: &mut BatchEnd) -> BatchEnd
        requires queue { IsEndOf self.now end.old }
        requires parts { IsDivisible end.old }
        ensures effect { (lines_put (view_of end.new) ≡ lines_put (view_of end.old))
            × (lines_taken (view_of end.new) ≡ lines_taken (view_of end.old))
            × (times_parted (view_of end.new) ≡ times_parted (view_of end.old)) }
        ensures result { IsNewEnd (view_of end.old) (view_of end.new) (view_of result) }
        ensures owns { (view_of end.new).member.share + (view_of result).member.share ≡ (view_of end.old).member.share }
        ensures frame { GoesOn (view_of end.old) (view_of end.new) }
        ensures trace { SplitBy (view_of end.old) (view_of end.new) }
        ensures handle { IsSameEnd end.old end.new × AreOfOneQueue end.old result }
    {
        // linearization point: the new end is counted, before it exists, so a close cannot miss it
        count_up(&self.table.shared, &mut end.seat, ENDS);
        let seat = split_off(&self.table.shared, &mut end.seat);
        BatchEnd { seat }
    }

    /// The first end then has all that both ends had: their puts, their takings, and their parts of the queue. Besides
    /// the step that counts one end less, the first word is loaded once, and the number found there is not used.
    pub fn join(&self, end: &mut BatchEnd, other: BatchEnd)
        requires { IsEndOf self.now end.old × IsEndOf self.now other }
        ensures effect { (lines_put (view_of end.new) ≡ lines_put (view_of end.old) ++ lines_put (view_of other))
            × (lines_taken (view_of end.new) ≡ lines_taken (view_of end.old) ++ lines_taken (view_of other))
            × (times_parted (view_of end.new) ≡ times_parted (view_of end.old) + times_parted (view_of other))
            × ((view_of end.new).own.shuts ≡ (view_of end.old).own.shuts + (view_of other).own.shuts) }
        ensures owns { (view_of end.new).member.share ≡ (view_of end.old).member.share + (view_of other).member.share }
        ensures frame { IsLater (view_of end.old).seen.object (view_of end.new).seen.object
            × IsLater (view_of other).seen.object (view_of end.new).seen.object }
        ensures trace { JoinedBy (view_of end.old) (view_of other) (view_of end.new) }
        ensures handle { IsSameEnd end.old end.new }
    {
        let BatchEnd { seat } = other;
        take_in::<_, _, _, _, _, Brand>(&self.table.shared, &mut end.seat, seat);
        // linearization point: one end less is counted, after the other end was taken in
        count_down(&self.table.shared, &mut end.seat, ENDS);
    }
}

impl BatchQueue {
    ghost use Rattle.batch_queue.specs.Handles.{view_of, room_of, IsEndOf};

    /// An empty queue of `room` places, and its only end.
    ///
    /// Condition: the number of places is a power of two, at most 2^24.
    pub fn new(alloc: Global, room: usize) -> Result<(BatchQueue, BatchEnd), OutOfMemory>
        requires { (0 < room) × (room ≤ MOST_PLACES) × IsPowerOfTwo room }
        ensures { IfOk result (λ r. IsEndOf r.0 r.1 × (room_of r.0 ≡ room)
            × (view_of r.1 ≡ newcomer (record { room = room }))) }
    {
        BatchQueue::new_as(alloc, room)
    }
}
