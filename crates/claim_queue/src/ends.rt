//! The queue and its ends.
ghost use Rattle.std.specs.Prelude.{◌≡◌, ◌+◌, ◌≤◌, ◌<◌, [], ◌++◌, IfOk};
ghost use Rattle.claim_queue.specs.Rules.{newcomer, InvHeldOf};
ghost use Rattle.claim_queue.specs.Claims.{KeepsClaims};
ghost use Rattle.claim_queue.specs.Endings.{IsNewEnd};
ghost use Rattle.claim_queue.specs.Evidence.{SplitBy, JoinedBy};
ghost use Rattle.claim_queue.specs.declared.layout.TheConstants.{MOST_PLACES};
ghost use Rattle.claim_queue.specs.Layout.{width};
ghost use Rattle.claim_queue.specs.Lines.{lines_put, lines_taken};

use crate::layout::{ENDS, HEAD, TAIL, width};
use crate::rule::{ClaimRule, Shape, View};
use atomic_table::{Seat, Table};
use event_theory::OutOfMemory;
use std::alloc::Global;
use std::marker::Brand;
use table_theory::end_steps::{count_down, count_up, split_off, take_in};
use table_theory::protocol::{Free, Protocol};

/// A queue of `N` places, under the client's protocol C. Under `Free`, every put is allowed.
#[derive(Drop)]
pub struct ClaimQueue<const N: usize, C: Protocol = Free> {
    pub(crate) table: Table<(), View, Shape, ClaimRule<C>, Global>,
    pub(crate) first: u32,
    ghost sized: { (table.shared.table_id.words ≡ width N) × (table.shared.table_id.slots ≡ 0) },
    ghost shaped: { (table.shared.key.first ≡ first) × (table.shared.key.room ≡ N) },
    ghost bounded: { (1 ≤ N) × (N ≤ MOST_PLACES) },
}

/// An end of a queue. It has no bytes.
///
/// Its list is true for its own steps and for the steps of all ends that it has seen. The step of each entry found the
/// number that its word had then. It found the queue as the previous step left it, lawful and shown by the words.
#[derive(Drop)]
pub struct QueueEnd<const N: usize> {
    pub(crate) seat: Seat<(), View>,
    ghost room: { seat.me.0.first.room ≡ N },
    ghost bare: { seat.me.1 ≡ [] },
    ghost one: { seat.me.0.member.ends ≡ 1 },
    ghost ruled: { ∥ InvHeldOf seat.me.0 ∥₁ },
}

impl<const N: usize, C: Protocol> ClaimQueue<N, C> {
    ghost use Rattle.claim_queue.specs.Handles.{view_of, first_of, IsDivisible, IsEndOf, IsSameEnd, AreOfOneQueue};

    /// An empty queue under the protocol C, whose first position is `first`, and its only end.
    pub fn new_as(alloc: Global, first: u32) -> Result<(ClaimQueue<N, C>, QueueEnd<N>), OutOfMemory>
        requires { (1 ≤ N) × (N ≤ MOST_PLACES) }
        ensures { IfOk result (λ r. IsEndOf r.0 r.1 × (first_of r.0 ≡ first)
            × (view_of r.1 ≡ newcomer (record { first = first; room = N }))) }
    {
        let mut words = Vec::from_elem(alloc, 0u64, width(N))?;
        let row = words.as_mut_slice();
        row[HEAD] = first as u64;
        row[TAIL] = first as u64;
        row[ENDS] = 1;
        let shape = Shape {
            first: first as u64,
            room: N as u64,
        };
        let (table, seat) = Table::of_words(alloc, row, &shape)?;
        Ok((ClaimQueue { table, first }, QueueEnd { seat }))
    }

    /// A new end, which has claimed and taken nothing. Both ends must be joined again before the queue can be closed;
    /// an end that is dropped can never be joined. Besides the step that counts the new end, the first word is loaded
    /// once, and the number found there is not used.
    ///
    /// The new end gets half of the end's share, and 2^21 parts at most. Condition: the end has two or more of its
    /// queue's 2^64 - 1 parts. The first end can be split 2^43 times without a join, and each of those ends 21 times in
    /// a chain. `split_share` gives as many parts as its caller says.
    pub fn split(&self, end: &mut QueueEnd<N>) -> QueueEnd<N>
        requires queue { IsEndOf self.now end.old }
        requires parts { IsDivisible end.old }
        ensures effect { (lines_put (view_of end.new) ≡ lines_put (view_of end.old))
            × (lines_taken (view_of end.new) ≡ lines_taken (view_of end.old)) }
        ensures born { IsNewEnd (view_of end.old) (view_of end.new) (view_of result) }
        ensures shuts_nothing { (view_of end.new).own.shuts ≡ (view_of end.old).own.shuts }
        ensures owns { (view_of end.new).member.share + (view_of result).member.share ≡ (view_of end.old).member.share }
        ensures trace { SplitBy (view_of end.old) (view_of end.new) }
        ensures claims { KeepsClaims (view_of end.old) (view_of end.new) }
        ensures handle { IsSameEnd end.old end.new × AreOfOneQueue end.old result }
    {
        // linearization point: the new end is counted, before it exists, so a close cannot miss it
        count_up(&self.table.shared, &mut end.seat, ENDS);
        let seat = split_off(&self.table.shared, &mut end.seat);
        QueueEnd { seat }
    }

    /// The first end then has all that both ends had: their claims, their takings, and their parts of the queue.
    /// Besides the step that counts one end less, the first word is loaded once, and the number found there is not
    /// used.
    pub fn join(&self, end: &mut QueueEnd<N>, other: QueueEnd<N>)
        requires { IsEndOf self.now end.old × IsEndOf self.now other }
        ensures effect { (lines_put (view_of end.new) ≡ lines_put (view_of end.old) ++ lines_put (view_of other.entry))
            × (lines_taken (view_of end.new) ≡ lines_taken (view_of end.old) ++ lines_taken (view_of other.entry)) }
        ensures shuts { (view_of end.new).own.shuts ≡ (view_of end.old).own.shuts + (view_of other.entry).own.shuts }
        ensures owns { (view_of end.new).member.share
            ≡ (view_of end.old).member.share + (view_of other.entry).member.share }
        ensures trace { JoinedBy (view_of end.old) (view_of other.entry) (view_of end.new) }
        ensures claims { KeepsClaims (view_of end.old) (view_of end.new)
            × KeepsClaims (view_of other.entry) (view_of end.new) }
        ensures handle { IsSameEnd end.old end.new }
    {
        let QueueEnd { seat } = other;
        take_in::<_, _, _, _, _, Brand>(&self.table.shared, &mut end.seat, seat);
        // linearization point: one end less is counted, after the other end was taken in
        count_down(&self.table.shared, &mut end.seat, ENDS);
    }
}

impl<const N: usize> ClaimQueue<N> {
    ghost use Rattle.claim_queue.specs.Handles.{view_of, first_of, IsEndOf};

    /// An empty queue whose first position is `first`, and its only end.
    pub fn new(alloc: Global, first: u32) -> Result<(ClaimQueue<N>, QueueEnd<N>), OutOfMemory>
        requires { (1 ≤ N) × (N ≤ MOST_PLACES) }
        ensures { IfOk result (λ r. IsEndOf r.0 r.1 × (first_of r.0 ≡ first)
            × (view_of r.1 ≡ newcomer (record { first = first; room = N }))) }
    {
        ClaimQueue::new_as(alloc, first)
    }
}
