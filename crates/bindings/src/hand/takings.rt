//! Takings of elements, and notifies, for C.
ghost use Rattle.std.specs.Prelude.{◌≡◌, ◌+◌, ◌<◌};
ghost use Rattle.event_theory.specs.Marks.{wait_ring};
ghost use Rattle.event_theory.specs.Numbers.{u32_values};
ghost use Rattle.bindings.specs.HandTakings.{WasTaken, IsFit, code_of_next, tail_of_next, ReportsTaking, IsTakingCall};
ghost use Rattle.bindings.specs.HandTakings.{IsWakingCall, WasNotified, WasTriedBefore, IsFitBefore, ReportsBefore};
ghost use Rattle.bindings.specs.HandTakings.{IsNotifyCall, IsBeforeCall};
ghost use Rattle.bindings.specs.Handles.{EmptyHandle, hand_of, NoneIn, LeadsTo, IsCodeAlone};
ghost use Rattle.bindings.specs.Codes.{IsAnswer};

use super::held::HeldHand;
use super::numbers::wait_of;
use crate::answer::{
    ALL_WOKEN, BAD_NUMBER, DONE, EMPTY, EMPTY_HANDLE, LOST, SynthAnswer, answer_at, answer_of,
};
use crate::handle::Handle;
use event_theory::{Element, WaitNumber};
use thread_table::NextRefusal;

impl HeldHand {
    /// `ThreadTable::try_next`.
    pub fn try_next(&mut self) -> Result<Element, NextRefusal>
        ensures { WasTaken 0 result self.old self.new }
    {
        self.table.try_next(&mut self.hand)
    }

    /// `ThreadTable::try_free`.
    pub fn try_free(&mut self) -> Result<Element, NextRefusal>
        ensures { WasTaken 1 result self.old self.new }
    {
        self.table.try_free(&mut self.hand)
    }

    /// `ThreadTable::try_wake`.
    pub fn try_wake(&mut self, wait: WaitNumber) -> Result<Element, NextRefusal>
        ensures { WasTaken (wait_ring wait) result self.old self.new }
    {
        self.table.try_wake(&mut self.hand, wait)
    }

    /// `ThreadTable::notify`.
    pub fn notify(&mut self, wait: WaitNumber) -> u32
        ensures { WasNotified wait result self.old self.new }
    {
        self.table.notify(&mut self.hand, wait)
    }

    /// `ThreadTable::try_wake_before`.
    pub fn try_wake_before(
        &mut self,
        wait: WaitNumber,
        head: u32,
    ) -> Result<Option<Element>, NextRefusal>
        ensures { WasTriedBefore wait head result self.old self.new }
    {
        self.table.try_wake_before(&mut self.hand, wait, head)
    }
}

// The code of the refusal, and the tail in it.
fn answer_of_next(refusal: NextRefusal) -> SynthAnswer
    requires { tail_of_next refusal < u32_values }
    ensures { IsAnswer (code_of_next refusal) 0 (tail_of_next refusal) result }
{
    match refusal {
        NextRefusal::NoneReady => answer_of(EMPTY),
        NextRefusal::Lost { seen } => answer_at(LOST, 0, seen as u32),
    }
}

// Reports the element that was taken, or the reason why none was.
fn tell_taking(answer: Result<Element, NextRefusal>, element: &mut u32) -> SynthAnswer
    requires { IsFit answer }
    ensures { ReportsTaking answer element.old element.new result }
{
    match answer {
        Ok(taken) => {
            *element = u32::from(taken.number());
            answer_of(DONE)
        }
        Err(refusal) => answer_of_next(refusal),
    }
}

/// `ThreadTable::try_next`.
#[unsafe(no_mangle)]
pub extern "C" fn synth_raw_hand_try_next(hand: &mut Handle, element: &mut u32) -> SynthAnswer
    ensures empty { NoneIn hand_of hand.old hand.new (IsCodeAlone EmptyHandle result × (element.new ≡ element.old)) }
    ensures taken { LeadsTo hand_of hand.old hand.new (λ x y. IsTakingCall 0 x element.old element.new y result) }
{
    let Some(held) = hand.find::<HeldHand>() else {
        return answer_of(EMPTY_HANDLE);
    };
    let answer = held.try_next();
    tell_taking(answer, element)
}

/// `ThreadTable::try_free`.
#[unsafe(no_mangle)]
pub extern "C" fn synth_raw_hand_try_free(hand: &mut Handle, element: &mut u32) -> SynthAnswer
    ensures empty { NoneIn hand_of hand.old hand.new (IsCodeAlone EmptyHandle result × (element.new ≡ element.old)) }
    ensures taken { LeadsTo hand_of hand.old hand.new (λ x y. IsTakingCall 1 x element.old element.new y result) }
{
    let Some(held) = hand.find::<HeldHand>() else {
        return answer_of(EMPTY_HANDLE);
    };
    let answer = held.try_free();
    tell_taking(answer, element)
}

/// `ThreadTable::try_wake`. The wait queues are 0 to 15.
#[unsafe(no_mangle)]
pub extern "C" fn synth_raw_hand_try_wake(
    hand: &mut Handle,
    wait: u32,
    element: &mut u32,
) -> SynthAnswer
    ensures empty { NoneIn hand_of hand.old hand.new (IsCodeAlone EmptyHandle result × (element.new ≡ element.old)) }
    ensures taken { LeadsTo hand_of hand.old hand.new (λ x y. IsWakingCall wait x element.old element.new y result) }
{
    let Some(held) = hand.find::<HeldHand>() else {
        return answer_of(EMPTY_HANDLE);
    };
    let Some(wait) = wait_of(wait) else {
        return answer_of(BAD_NUMBER);
    };
    let answer = held.try_wake(wait);
    tell_taking(answer, element)
}

// Reports the element that was taken, that none is left before the position, or the reason why none was taken.
fn tell_before(answer: Result<Option<Element>, NextRefusal>, element: &mut u32) -> SynthAnswer
    requires { IsFitBefore answer }
    ensures { ReportsBefore answer element.old element.new result }
{
    match answer {
        Ok(Some(woken)) => {
            *element = u32::from(woken.number());
            answer_of(DONE)
        }
        Ok(None) => answer_of(ALL_WOKEN),
        Err(refusal) => answer_of_next(refusal),
    }
}

/// `ThreadTable::notify`. The wait queues are 0 to 15.
#[unsafe(no_mangle)]
pub extern "C" fn synth_raw_hand_notify(hand: &mut Handle, wait: u32, head: &mut u32) -> i32
    ensures empty { NoneIn hand_of hand.old hand.new ((result ≡ EmptyHandle) × (head.new ≡ head.old)) }
    ensures notified { LeadsTo hand_of hand.old hand.new (IsNotifyCall wait head.old head.new result) }
{
    let Some(held) = hand.find::<HeldHand>() else {
        return EMPTY_HANDLE;
    };
    let Some(wait) = wait_of(wait) else {
        return BAD_NUMBER;
    };
    *head = held.notify(wait);
    DONE
}

/// `ThreadTable::try_wake_before`. The wait queues are 0 to 15.
#[unsafe(no_mangle)]
pub extern "C" fn synth_raw_hand_try_wake_before(
    hand: &mut Handle,
    wait: u32,
    head: u32,
    element: &mut u32,
) -> SynthAnswer
    ensures empty { NoneIn hand_of hand.old hand.new (IsCodeAlone EmptyHandle result × (element.new ≡ element.old)) }
    ensures taken { LeadsTo hand_of hand.old hand.new (IsBeforeCall wait head element.old element.new result) }
{
    let Some(held) = hand.find::<HeldHand>() else {
        return answer_of(EMPTY_HANDLE);
    };
    let Some(wait) = wait_of(wait) else {
        return answer_of(BAD_NUMBER);
    };
    let answer = held.try_wake_before(wait, head);
    tell_before(answer, element)
}
