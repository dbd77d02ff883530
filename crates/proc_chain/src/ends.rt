//! The chain and its ends.
ghost use Rattle.std.specs.Prelude.{◌≡◌, ◌+◌, ◌||◌, [], true, false, IfOk, IfErr};
ghost use Rattle.proc_chain.specs.Layout.{width};
ghost use Rattle.proc_chain.specs.Rules.{view_from, IsValidChainView, Rests};
ghost use Rattle.proc_chain.specs.Client.{HasTheirs, OneEndMore};
ghost use Rattle.proc_chain.specs.Endings.{IsNewEnd, JoinedBy};
ghost use Rattle.proc_chain.specs.Evidence.{SplitBy, Joined};
ghost use Rattle.proc_chain.specs.Notes.{SameNotes};
ghost use Rattle.proc_chain.specs.Turns.{KeepsTaken};

use crate::layout::{ENDS, HEAD, TAIL, WORDS};
use crate::passing::{hand_over, take_in};
use crate::quaject::Quaject;
use crate::rule::{ChainRule, Pact, Shape, View};
use crate::steps::{count_down, count_up, split_off};
use atomic_table::{Seat, Table};
use event_theory::OutOfMemory;
use std::alloc::Global;
use std::marker::Brand;
use std::mem;
use std::snapshot::Snapshot;

/// A chain of up to 32 notes, a gate, and the quaject that runs the notes. The gate is Idle while the quaject is in the
/// chain. It is Running while the end with the Turn has the quaject, and More if another notify came since the last
/// round of that end.
#[derive(Drop)]
pub struct ProcChain<Q: Quaject> {
    pub(crate) table: Table<Q, View, Shape<Pact<Q::World, Q>>, ChainRule, Global>,
    pub(crate) first: u32,
    ghost sized: { (table.shared.table_id.words ≡ width) × (table.shared.table_id.slots ≡ 1) },
    ghost shaped: { table.shared.key.first ≡ first },
}

/// An end of a chain, which chains notes and, with a Turn, serves them. The end has raised all that it claimed, and
/// owes no notify. It has no bytes except the Turn's flag.
///
/// Its list is true for its own steps and for the steps of all ends that it has seen. The step of each entry found the
/// number that its word had then. It found the queue and the gate as the previous step left them, lawful and shown by
/// the words.
#[derive(Drop)]
pub struct ChainEnd<Q: Quaject> {
    pub(crate) seat: Seat<Q, View>,
    pub(crate) turn: bool,
    ghost turned: { seat.me.0.own.runner ≡ turn },
    ghost rests: { Rests seat.me.0 },
    ghost valid: { ∥ IsValidChainView seat.me.0 ∥₁ },
}

impl<Q: Quaject> ChainEnd<Q> {
    ghost use Rattle.proc_chain.specs.Handles.{turn_of};

    /// Whether the end has a Turn to serve.
    pub fn has_turn(&self) -> bool
        ensures { result ≡ turn_of self.now }
    {
        self.turn
    }
}

impl<Q: Quaject> ProcChain<Q> {
    ghost use Rattle.proc_chain.specs.Handles.{view_of, me_of, turn_of, world_of, opening_of, first_of};
    ghost use Rattle.proc_chain.specs.Handles.{IsDivisible, IsEndOf, KeepsTurn, IsSameEnd};

    /// A chain whose first position is `first`, with its gate Idle and the quaject in it, and its only end. If an
    /// allocation is refused, the quaject is returned.
    pub fn new(
        alloc: Global,
        first: u32,
        quaject: Q,
        world: &Q::World,
    ) -> Result<(ProcChain<Q>, ChainEnd<Q>), (Q, OutOfMemory)>
        requires made { Q.made_by quaject quaject [] }
        requires fits { Q.fits world.now quaject }
        ensures ok { IfOk result (λ r. IsEndOf r.0 r.1 × (first_of r.0 ≡ first) × (world_of r.0 ≡ world.now)
            × (opening_of r.0 ≡ quaject) × (turn_of r.1 ≡ false) × (view_of r.1 ≡ view_from first)) }
        ensures err { IfErr result (λ e. e.0 ≡ quaject) }
    {
        let shape = Shape {
            first: first as u64,
            pact: Pact {
                world: Snapshot::of(world),
                opening: Snapshot::of(&quaject),
            },
        };
        let mut words = [0u64; WORDS];
        words[HEAD] = first as u64;
        words[TAIL] = first as u64;
        words[ENDS] = 1;
        let mut slots = Vec::new(alloc);
        if let Err(failed) = slots.push(quaject) {
            slots.destroy_empty();
            return Err((failed.value, OutOfMemory));
        }
        match Table::new(alloc, &words, slots, &shape) {
            Ok((table, seat)) => Ok((ProcChain { table, first }, ChainEnd { seat, turn: false })),
            Err(refused) => {
                let mut slots = refused.slots;
                let Some(quaject) = slots.pop() else {
                    unreachable!()
                };
                slots.destroy_empty();
                Err((quaject, OutOfMemory))
            }
        }
    }

    /// A new end, which has chained and taken nothing and has no Turn. Both ends must be joined again before the chain
    /// can be closed; an end that is dropped can never be joined. Besides the step that counts the new end, the first
    /// word is loaded once, and the number found there is not used.
    ///
    /// The new end gets half of the end's share, and 2^21 parts at most. Condition: the end has two or more of its
    /// chain's 2^64 - 1 parts. The first end can be split 2^43 times without a join, and each of those ends 21 times in
    /// a chain. `split_share` gives as many parts as its caller says.
    pub fn split(&self, end: &mut ChainEnd<Q>) -> ChainEnd<Q>
        requires ends { IsEndOf self.now end.old }
        requires parts { IsDivisible end.old }
        ensures effect { SameNotes (view_of end.old) (view_of end.new) }
        ensures count { OneEndMore (view_of end.old) (view_of end.new) }
        ensures owns { (view_of end.new).member.share + (view_of result).member.share
            ≡ (view_of end.old).member.share }
        ensures turns { KeepsTurn end.old end.new × (turn_of result ≡ false) }
        ensures born { IsNewEnd (view_of end.old) (view_of end.new) (view_of result) }
        ensures ends { IsEndOf self.now end.new × IsEndOf self.now result }
        ensures trace { SplitBy (view_of end.old) (view_of end.new) }
        ensures handle { IsSameEnd end.old end.new × KeepsTaken (view_of end.old) (view_of end.new) }
    {
        // linearization point: the new end is counted, before it exists, so a close cannot miss it
        count_up(&self.table.shared, &mut end.seat);
        let seat = split_off(&self.table.shared, &mut end.seat);
        ChainEnd { seat, turn: false }
    }

    /// The first end then has all that both ends had: their notes, their takings, their parts of the chain, and the
    /// Turn if one of them had it. No two ends of one chain have a Turn. The first end goes on under the number of the
    /// end that had the Turn, or else under its own. Besides the step that counts one end less, the first word is
    /// loaded twice, and the numbers found there are not used.
    pub fn join(&self, end: &mut ChainEnd<Q>, other: ChainEnd<Q>)
        requires ends { IsEndOf self.now end.old × IsEndOf self.now other }
        ensures effect { HasTheirs (turn_of other) (view_of end.old) (view_of other) (view_of end.new) }
        ensures turn { turn_of end.new ≡ (turn_of other || turn_of end.old) }
        ensures one_turn { turn_of other ≡ true → turn_of end.old ≡ false }
        ensures ends { IsEndOf self.now end.new }
        ensures trace { Joined (turn_of other) (me_of end.old) (me_of other) (me_of end.new) }
        ensures handle { turn_of other ≡ false
            → IsSameEnd end.old end.new × KeepsTaken (view_of end.old) (view_of end.new) }
        ensures swapped { turn_of other ≡ true
            → IsSameEnd other end.new × KeepsTaken (view_of other) (view_of end.new) }
    {
        let mut other = other;
        if other.turn {
            mem::swap(end, &mut other);
        }
        self.take_over(end, other);
    }

    // The first end then has all that both ends had. The condition says that if the other end has a turn, the first has
    // one too: the count then shows that neither happens. A seat with the slot can't be taken in, so the other end
    // first hands over all except the slot.
    fn take_over(&self, end: &mut ChainEnd<Q>, other: ChainEnd<Q>)
        requires ends { IsEndOf self.now end.old × IsEndOf self.now other }
        requires turns { turn_of other ≡ true → turn_of end.old ≡ true }
        ensures queue { IsSameEnd end.old end.new }
        ensures none { turn_of other ≡ false }
        ensures turn { turn_of end.new ≡ turn_of end.old }
        ensures ends { IsEndOf self.now end.new }
        ensures joined { JoinedBy (view_of end.old) (view_of other) (view_of end.new)
            × ((me_of end.new).1 ≡ (me_of end.old).1) }
        ensures taken { KeepsTaken (view_of end.old) (view_of end.new) }
    {
        let ChainEnd { mut seat, turn: _ } = other;
        let rest = hand_over(&self.table.shared, &mut seat);
        take_in::<Q, Brand>(&self.table.shared, &mut end.seat, rest);
        // linearization point: one end less is counted, after the other end was taken in
        count_down(&self.table.shared, &mut end.seat);
    }
}
