//! The table of thread elements and its hands.
ghost use Rattle.std.specs.Prelude.{◌≡◌, ◌+◌, ◌≤◌, ◌<◌, [], ℕ, true, None, IfOk, length};
ghost use Rattle.thread_table.specs.declared.layout.TheConstants.{WORDS, PROCESSORS};
ghost use Rattle.thread_table.specs.Layout.{last_first};
ghost use Rattle.thread_table.specs.Rules.{newcomer, HasStood, has, serves, running};
ghost use Rattle.thread_table.specs.Client.{DidSplit, KeepsElements, PartsShare, HasBoth, AddsShare};
ghost use Rattle.thread_table.specs.Endings.{IsNewEnd};
ghost use Rattle.thread_table.specs.Evidence.{SplitBy, JoinedBy};
ghost use Rattle.thread_table.specs.Answers.{is_in};
ghost use Rattle.thread_table.specs.Telling.{IsValidHandView};

use crate::first_words::{lay_free, lay_rings};
use crate::layout::WORDS;
use crate::rule::{Shape, ThreadRule, View};
use crate::sets::{BitSet, ProcessorMap};
use crate::steps::{count_down, count_up, split_off, take_in};
use atomic_table::{Seat, Table};
use event_theory::{Element, OutOfMemory, Processor};
use std::alloc::Global;
use std::marker::Brand;

/// Sixty-four thread elements, each in exactly one place: on a processor, in the ready ring, free, in one of sixteen
/// wait queues, in its stop cell, or held by a hand. A table that is dropped, not closed, reports nothing of them.
#[derive(Drop)]
pub struct ThreadTable {
    pub(crate) table: Table<(), View, Shape, ThreadRule, Global>,
    pub(crate) first: u32,
    ghost sized: { (table.shared.table_id.words ≡ WORDS) × (table.shared.table_id.slots ≡ 0) },
    ghost shaped: { table.shared.key.first ≡ first },
}

/// The elements that one user of the table holds, the processors that it serves, and the elements that it put on them.
///
/// A hand's list is true. Each entry, of its own steps or of other hands' steps that it has seen, found the number that
/// its word had then. It found the events that the step before it left, each allowed in its turn, and words that showed
/// the state after them. Once a hand has made a step, it has what its call has in what the hand has seen.
///
/// A hand that is dropped can never be joined: what it had stays out of all others' reach, and the table can't be
/// closed.
#[derive(Drop)]
pub struct Hand {
    pub(crate) seat: Seat<(), View>,
    pub(crate) held: BitSet<64>,
    pub(crate) served: BitSet<8>,
    pub(crate) running: ProcessorMap,
    ghost bare: { seat.me.1 ≡ [] },
    ghost one: { seat.me.0.member.ends ≡ 1 },
    ghost none: { seat.me.0.own.claimed ≡ None },
    ghost fresh: { seat.me.0.own.fresh ≡ true },
    ghost holding: { held ≡ seat.me.0.own.held },
    ghost serving: { served ≡ seat.me.0.own.serves },
    ghost putting: { running ≡ seat.me.0.own.on },
    ghost valid: { ∥ IsValidHandView seat.me.0 ∥₁ },
    ghost stands: { ∥ HasStood seat.id seat.me.0 ∥₁ },
}

impl Hand {
    ghost use Rattle.thread_table.specs.Handles.{view_of};

    /// Whether the hand holds the element.
    pub fn holds(&self, element: Element) -> bool
        ensures { result ≡ has (view_of self.now) element }
    {
        self.held.contains(element.number())
    }

    /// Whether the hand serves the processor.
    pub fn serves(&self, processor: Processor) -> bool
        ensures { result ≡ serves (view_of self.now) processor }
    {
        self.served.contains(processor.number())
    }

    /// The element that the hand has on the processor.
    pub fn on_processor(&self, processor: Processor) -> Option<Element>
        ensures { result ≡ running (view_of self.now) processor }
    {
        self.running.get(processor.number())
    }
}

impl ThreadTable {
    ghost use Rattle.thread_table.specs.Handles.{view_of, first_of, IsDivisible, IsHandOf, IsSameHand, AreOfOneTable};

    /// A table in which no event was made: all elements are free, in their order, all processors are empty, and its
    /// only hand serves them. OutOfMemory if no memory can be allocated for the table's words.
    pub fn new(alloc: Global) -> Result<(ThreadTable, Hand), OutOfMemory>
        ensures { IfOk result (λ r. IsHandOf r.0 r.1 × (first_of r.0 ≡ 0)
            × (view_of r.1 ≡ newcomer (record { first = 0 }))) }
    {
        ThreadTable::new_at(alloc, 0)
    }

    /// `new`, with the first position `first`, at most 4,294,967,231, of each element queue.
    pub fn new_at(alloc: Global, first: u32) -> Result<(ThreadTable, Hand), OutOfMemory>
        requires { first ≤ last_first }
        ensures { IfOk result (λ r. IsHandOf r.0 r.1 × (first_of r.0 ≡ first)
            × (view_of r.1 ≡ newcomer (record { first = first }))) }
    {
        let mut words = Vec::from_elem(alloc, 0u64, WORDS)?;
        let row = words.as_mut_slice();
        row[0] = 1;
        lay_rings(row, first);
        lay_free(row, first);
        let shape = Shape {
            first: first as u64,
        };
        let (table, seat) = Table::of_words(alloc, row, &shape)?;
        let hand = Hand {
            seat,
            held: BitSet::from_bits(0),
            served: BitSet::from_bits(0xFF),
            running: ProcessorMap::new(),
        };
        Ok((ThreadTable { table, first }, hand))
    }

    /// A new hand, which holds nothing and serves the processors of the mask, bit p for processor p. Both hands are to
    /// be joined again before the table can be closed.
    ///
    /// The new hand gets half of the hand's share, and 2^21 parts at most. Conditions: the first hand serves the
    /// processors of the mask, which are empty, and has two parts or more of its table's 2^64 - 1. The first hand can
    /// be split 2^43 times without a join, and each of those hands 21 times in a chain. `split_share` gives as many
    /// parts as its caller says.
    pub fn split(&self, hand: &mut Hand, processors: u8) -> Hand
        requires table { IsHandOf self.now hand.old }
        requires parts { IsDivisible hand.old }
        requires empty { (p : ℕ) → p < PROCESSORS → is_in processors p ≡ true
            → (serves (view_of hand.old) p ≡ true) × (running (view_of hand.old) p ≡ None) }
        ensures effect { DidSplit processors (view_of hand.old) (view_of hand.new) (view_of result) }
        ensures frame { KeepsElements (view_of hand.old) (view_of hand.new) }
        ensures owns { PartsShare (view_of hand.old) (view_of hand.new) (view_of result) }
        ensures steps { (length (view_of hand.new).steps ≤ length (view_of hand.old).steps + 1)
            × ((view_of result).steps ≡ []) }
        ensures born { IsNewEnd processors (view_of hand.old) (view_of hand.new) (view_of result) }
        ensures trace { SplitBy processors (view_of hand.old) (view_of hand.new) }
        ensures handle { IsSameHand hand.old hand.new × AreOfOneTable hand.old result }
    {
        // linearization point: the number of hands becomes one more, before the new hand is made, so it is never too
        // low
        count_up::<Brand>(&self.table.shared, &mut hand.seat);
        // the first word is loaded too, and its number is not used
        let seat = split_off::<Brand>(&self.table.shared, &mut hand.seat, processors);
        let mask = BitSet::from_bits(processors as u64);
        hand.served = hand.served.difference(&mask);
        Hand {
            seat,
            held: BitSet::from_bits(0),
            served: mask,
            running: ProcessorMap::new(),
        }
    }

    /// The first hand then has all that both had: their elements, their processors and the elements on them, the events
    /// that they made, and their parts of the table. No element was held, and no processor served, by both.
    pub fn join(&self, hand: &mut Hand, other: Hand)
        requires { IsHandOf self.now hand.old × IsHandOf self.now other }
        ensures effect { HasBoth (view_of hand.old) (view_of other) (view_of hand.new) }
        ensures frame { (view_of hand.new).own.first ≡ (view_of hand.old).own.first }
        ensures owns { AddsShare (view_of hand.old) (view_of other) (view_of hand.new) }
        ensures steps { length (view_of hand.new).steps
            ≤ length (view_of hand.old).steps + length (view_of other).steps + 1 }
        ensures trace { JoinedBy (view_of hand.old) (view_of other) (view_of hand.new) }
        ensures handle { IsSameHand hand.old hand.new }
    {
        let Hand {
            seat,
            held,
            served,
            running,
        } = other;
        // linearization point: the join, a step on no word: the first hand has what both had
        take_in::<Brand>(&self.table.shared, &mut hand.seat, seat);
        // the number of hands becomes one less after the join, so it is never too low
        count_down::<Brand>(&self.table.shared, &mut hand.seat);
        hand.held = hand.held.union(&held);
        hand.served = hand.served.union(&served);
        hand.running = hand.running.or(&running);
    }
}
