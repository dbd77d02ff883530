//! The hand that a handle holds.
ghost use Rattle.std.specs.Prelude.{◌≡◌, ◌≢◌, ◌≤◌, None, Some, true, MatchOption};
ghost use Rattle.std.specs.Arc.{arc_value};
ghost use Rattle.thread_table.specs.Rules.{has, serves, running, MayStep};
ghost use Rattle.thread_table.specs.Handles.{IsHandOf, view_of};

use crate::answer::{BAD_NUMBER, BUSY, NOT_SERVED};
use crate::ends::End;
use crate::share::Share;
use event_theory::{Element, Processor};
use std::alloc::Global;
use std::sync::Arc;
use thread_table::{Hand, Places, Spent, ThreadTable};

/// One hand of a table of thread elements that other handles share.
#[derive(Drop)]
pub struct HeldHand {
    pub(super) table: Arc<ThreadTable, Global>,
    pub(super) hand: Hand,
    pub(super) share: Share,
    ghost own: { IsHandOf (arc_value table) hand },
    ghost known: { share.parts ≡ (view_of hand).member.share },
}

impl HeldHand {
    ghost use Rattle.bindings.specs.HandHeld.{IsNewHand, WasPutOn, WasTakenOff, WasCounted, WasDone, Ended};

    /// The only hand of a new table.
    pub fn new(alloc: Global, first: u32, mark: u64) -> Option<HeldHand>
        requires { first ≤ 4294967231 }
        ensures { MatchOption result (Unit {0}) (IsNewHand first mark) }
    {
        let (table, hand) = ThreadTable::new_at(alloc, first).ok()?;
        let table = Arc::new(alloc, table).ok()?;
        let share = Share::all(mark);
        Some(HeldHand { table, hand, share })
    }

    /// `Hand::holds`.
    pub fn holds(&self, element: Element) -> bool
        ensures { result ≡ has (view_of self.now.hand) element }
    {
        self.hand.holds(element)
    }

    /// `Hand::serves`.
    pub fn serves(&self, processor: Processor) -> bool
        ensures { result ≡ serves (view_of self.now.hand) processor }
    {
        self.hand.serves(processor)
    }

    /// `Hand::on_processor`.
    pub fn on_processor(&self, processor: Processor) -> Option<Element>
        ensures { result ≡ running (view_of self.now.hand) processor }
    {
        self.hand.on_processor(processor)
    }

    /// `ThreadTable::on`, if no element of the hand is on the processor.
    pub fn on(&mut self, processor: Processor, element: Element)
        requires mine { (has (view_of self.old.hand) element ≡ true)
            × (serves (view_of self.old.hand) processor ≡ true) }
        requires empty { running (view_of self.old.hand) processor ≡ None }
        ensures { WasPutOn processor element self.old self.new }
    {
        let Ok(()) = self.table.on(&mut self.hand, processor, element) else {
            unreachable!()
        };
    }

    /// `ThreadTable::off`, if an element of the hand is on the processor.
    pub fn off(&mut self, processor: Processor) -> Element
        requires mine { serves (view_of self.old.hand) processor ≡ true }
        requires full { running (view_of self.old.hand) processor ≢ None }
        ensures { (running (view_of self.old.hand) processor ≡ Some result)
            × WasTakenOff processor result self.old self.new }
    {
        let Ok(element) = self.table.off(&mut self.hand, processor) else {
            unreachable!()
        };
        element
    }

    /// `ThreadTable::pc`.
    pub fn pc(&mut self, element: Element) -> u64
        requires { MayStep (view_of self.old.hand) element }
        ensures { WasCounted element result self.old self.new }
    {
        self.table.pc(&mut self.hand, element)
    }

    /// `ThreadTable::step_done`.
    pub fn step_done(&mut self, element: Element) -> Result<u64, Spent>
        requires { MayStep (view_of self.old.hand) element }
        ensures { WasDone element result self.old self.new }
    {
        self.table.step_done(&mut self.hand, element)
    }

    /// `ThreadTable::close`, when the hand has all parts. Else the hand is returned.
    pub fn close(self) -> Result<Places, HeldHand>
        ensures { Ended result self }
    {
        if self.share.parts != u64::MAX {
            return Err(self);
        }
        let HeldHand { table, hand, share } = self;
        let table = match Arc::try_unwrap(table) {
            Ok(table) => table,
            Err(table) => {
                return Err(HeldHand { table, hand, share });
            }
        };
        let Ok(places) = table.close(hand) else {
            unreachable!()
        };
        Ok(places)
    }
}

impl End for HeldHand {
    ghost use Rattle.bindings.specs.HandHeld.{SplitBy, Joined, AreOfOneTable, MaySplit, MayNotSplit};
    ghost use Rattle.bindings.specs.Shares.{IsOneMark};

    type Wish = u32;

    ghost share = { λ x. x.share };

    ghost MaySplit = { MaySplit };

    ghost MayNotSplit = { MayNotSplit };

    ghost SplitBy = { SplitBy };

    ghost HaveOneMark = { λ x z. IsOneMark x.share z.share };

    ghost AreOfOne = { AreOfOneTable };

    ghost Joined = { Joined };

    fn why_not_split(&self, processors: u32) -> Option<i32> {
        if processors > 255 {
            return Some(BAD_NUMBER);
        }
        let mask = processors as u8;
        if !self.serves_all(mask) {
            return Some(NOT_SERVED);
        }
        if !self.has_none_on(mask) {
            return Some(BUSY);
        }
        self.share.why_not_split()
    }

    fn split(&mut self, processors: u32) -> Option<HeldHand> {
        let table = Arc::try_clone(&self.table).ok()?;
        let hand = self.table.split(&mut self.hand, processors as u8);
        let share = self.share.split();
        Some(HeldHand { table, hand, share })
    }

    fn may_join(&self, other: &HeldHand) -> bool {
        self.share.may_join(&other.share)
    }

    fn join(&mut self, other: HeldHand) {
        let HeldHand { hand, share, .. } = other;
        self.table.join(&mut self.hand, hand);
        self.share.join(share);
    }
}
