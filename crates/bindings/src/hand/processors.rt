//! Looks at the eight processors of a hand.
ghost use Rattle.std.specs.Prelude.{◌≡◌, ◌≢◌, ◌≤◌, ◌<◌, MatchBool, true, false, None, Some, MatchOption};
ghost use Rattle.thread_table.specs.Rules.{MayStep};
ghost use Rattle.thread_table.specs.Answers.{is_in};
ghost use Rattle.bindings.specs.HandHeld.{view_of, serves, running, ServesAll, LacksOne, HasNoneOn, HasOneOn, HasNot};

use super::held::HeldHand;
use event_theory::{Element, Processor};

/// The processor of this number, or None if there is none.
pub fn processor_of(number: u32) -> Option<Processor>
    ensures { MatchOption result (8 ≤ number) (λ processor. (processor ≡ number) × (number < 8)) }
{
    if number >= 8 {
        return None;
    }
    Processor::new(number as u8)
}

// Whether the mask has the processor, and the hand doesn't serve it.
fn lacks(held: &HeldHand, mask: u8, p: u32) -> bool
    requires { p < 8 }
    ensures { MatchBool result ((is_in mask p ≡ true) × (serves (view_of held.now.hand) p ≡ false))
        (is_in mask p ≡ true → serves (view_of held.now.hand) p ≡ true) }
{
    let Some(processor) = processor_of(p) else {
        unreachable!()
    };
    mask >> p & 1 == 1 && !held.serves(processor)
}

// Whether the mask has the processor, and an element of the hand is on it.
fn runs(held: &HeldHand, mask: u8, p: u32) -> bool
    requires { p < 8 }
    ensures { MatchBool result ((is_in mask p ≡ true) × (running (view_of held.now.hand) p ≢ None))
        (is_in mask p ≡ true → running (view_of held.now.hand) p ≡ None) }
{
    let Some(processor) = processor_of(p) else {
        unreachable!()
    };
    mask >> p & 1 == 1 && held.on_processor(processor).is_some()
}

// Whether the hand serves the processor, and has the element on it.
fn has_on(held: &HeldHand, p: u32, element: Element) -> bool
    requires { p < 8 }
    ensures { MatchBool result
        ((serves (view_of held.now.hand) p ≡ true) × (running (view_of held.now.hand) p ≡ Some element))
        (serves (view_of held.now.hand) p ≡ true → running (view_of held.now.hand) p ≢ Some element) }
{
    let Some(processor) = processor_of(p) else {
        unreachable!()
    };
    held.serves(processor) && held.on_processor(processor) == Some(element)
}

impl HeldHand {
    /// Whether the hand serves each processor of the mask, bit p for processor p.
    pub fn serves_all(&self, mask: u8) -> bool
        ensures { MatchBool result (ServesAll mask self.now) (LacksOne mask self.now) }
    {
        for p in 0..8u32 {
            if lacks(self, mask, p) {
                return false;
            }
        }
        true
    }

    /// Whether no element of the hand is on a processor of the mask.
    pub fn has_none_on(&self, mask: u8) -> bool
        ensures { MatchBool result (HasNoneOn mask self.now) (HasOneOn mask self.now) }
    {
        for p in 0..8u32 {
            if runs(self, mask, p) {
                return false;
            }
        }
        true
    }

    /// Whether the hand holds the element or has it on a processor.
    pub fn may_step(&self, element: Element) -> bool
        ensures { MatchBool result (MayStep (view_of self.now.hand) element)
            (HasNot element self.now) }
    {
        if self.holds(element) {
            return true;
        }
        for p in 0..8u32 {
            if has_on(self, p, element) {
                return true;
            }
        }
        false
    }
}
