//! A split that gives as many parts as its caller says.
ghost use Rattle.std.specs.Prelude.{◌≡◌, ◌+◌, ◌≤◌, ◌<◌, [], ℕ, true, None, length};
ghost use Rattle.thread_table.specs.declared.layout.TheConstants.{PROCESSORS};
ghost use Rattle.thread_table.specs.Rules.{serves, running};
ghost use Rattle.thread_table.specs.Client.{DidSplit, KeepsElements};
ghost use Rattle.thread_table.specs.Endings.{IsNewEndWith};
ghost use Rattle.thread_table.specs.Evidence.{SplitShare};
ghost use Rattle.thread_table.specs.Answers.{is_in};

use crate::hand::{Hand, ThreadTable};
use crate::sets::{BitSet, ProcessorMap};
use crate::steps::{count_up, split_share_off};
use std::marker::Brand;

impl ThreadTable {
    ghost use Rattle.thread_table.specs.Handles.{view_of, share_of, CanGive, IsHandOf, IsSameHand, AreOfOneTable};

    /// A new hand, as `split` makes it, that has exactly `share` parts of the table. The hand keeps the rest. No hand has
    /// the number of its parts, so the caller keeps account of the shares: the first hand has 2^64 - 1 parts, and a join
    /// adds them up.
    ///
    /// Conditions: the first hand serves the processors of the mask, which are empty. `share` is 1 or more, and the
    /// first hand keeps a part or more.
    pub fn split_share(&self, hand: &mut Hand, processors: u8, share: u64) -> Hand
        requires table { IsHandOf self.now hand.old }
        requires parts { CanGive hand.old share }
        requires empty { (p : ℕ) → p < PROCESSORS → is_in processors p ≡ true
            → (serves (view_of hand.old) p ≡ true) × (running (view_of hand.old) p ≡ None) }
        ensures effect { DidSplit processors (view_of hand.old) (view_of hand.new) (view_of result) }
        ensures frame { KeepsElements (view_of hand.old) (view_of hand.new) }
        ensures owns { (share_of result ≡ share) × (share_of hand.new + share ≡ share_of hand.old) }
        ensures steps { (length (view_of hand.new).steps ≤ length (view_of hand.old).steps + 1)
            × ((view_of result).steps ≡ []) }
        ensures born { IsNewEndWith share processors (view_of hand.new) (view_of result) }
        ensures trace { SplitShare share processors (view_of hand.old) (view_of hand.new) }
        ensures handle { IsSameHand hand.old hand.new × AreOfOneTable hand.old result }
    {
        // linearization point: the number of hands becomes one more, before the new hand is made, so it is never too
        // low
        count_up::<Brand>(&self.table.shared, &mut hand.seat);
        // the first word is loaded too, and its number is not used
        let seat = split_share_off::<Brand>(&self.table.shared, &mut hand.seat, processors, share);
        let mask = BitSet::from_bits(processors as u64);
        hand.served = hand.served.difference(&mask);
        Hand {
            seat,
            held: BitSet::from_bits(0),
            served: mask,
            running: ProcessorMap::new(),
        }
    }
}
