//! The elements of a hand, its processors, and the steps of its elements.
ghost use Rattle.std.specs.Prelude.{◌≡◌};
ghost use Rattle.bindings.specs.HandCalls.{IsHoldsCall, IsServesCall, IsOnProcessorCall, IsOnCall, IsOffCall, IsPcCall};
ghost use Rattle.bindings.specs.HandCalls.{IsStepCall};
ghost use Rattle.bindings.specs.Handles.{EmptyHandle, hand_of, NoneIn, HoldsThen, TurnsThen};

use super::held::HeldHand;
use super::numbers::element_of;
use super::processors::processor_of;
use crate::answer::{BAD_NUMBER, BUSY, DONE, EMPTY_HANDLE, NOT_HELD, NOT_SERVED, SPENT, VACANT};
use crate::handle::Handle;

fn tell_holds(held: &HeldHand, element: u32, holds: &mut bool) -> i32
    ensures { IsHoldsCall element held.now holds.old holds.new result }
{
    let Some(element) = element_of(element) else {
        return BAD_NUMBER;
    };
    *holds = held.holds(element);
    DONE
}

/// `Hand::holds`. The elements are 0 to 63.
#[unsafe(no_mangle)]
pub extern "C" fn synth_raw_hand_holds(hand: &mut Handle, element: u32, holds: &mut bool) -> i32
    ensures empty { NoneIn hand_of hand.old hand.new ((result ≡ EmptyHandle) × (holds.new ≡ holds.old)) }
    ensures effect { HoldsThen (hand_of hand.old)
        (λ x. (hand_of hand.new ≡ hand_of hand.old) × IsHoldsCall element x holds.old holds.new result) }
{
    let Some(held) = hand.find::<HeldHand>() else {
        return EMPTY_HANDLE;
    };
    tell_holds(held, element, holds)
}

fn tell_serves(held: &HeldHand, processor: u32, serves: &mut bool) -> i32
    ensures { IsServesCall processor held.now serves.old serves.new result }
{
    let Some(processor) = processor_of(processor) else {
        return BAD_NUMBER;
    };
    *serves = held.serves(processor);
    DONE
}

/// `Hand::serves`. The processors are 0 to 7.
#[unsafe(no_mangle)]
pub extern "C" fn synth_raw_hand_serves(hand: &mut Handle, processor: u32, serves: &mut bool) -> i32
    ensures empty { NoneIn hand_of hand.old hand.new ((result ≡ EmptyHandle) × (serves.new ≡ serves.old)) }
    ensures effect { HoldsThen (hand_of hand.old)
        (λ x. (hand_of hand.new ≡ hand_of hand.old) × IsServesCall processor x serves.old serves.new result) }
{
    let Some(held) = hand.find::<HeldHand>() else {
        return EMPTY_HANDLE;
    };
    tell_serves(held, processor, serves)
}

fn tell_on_processor(held: &HeldHand, processor: u32, element: &mut u32) -> i32
    ensures { IsOnProcessorCall processor held.now element.old element.new result }
{
    let Some(processor) = processor_of(processor) else {
        return BAD_NUMBER;
    };
    let Some(found) = held.on_processor(processor) else {
        return VACANT;
    };
    *element = u32::from(found.number());
    DONE
}

/// `Hand::on_processor`.
#[unsafe(no_mangle)]
pub extern "C" fn synth_raw_hand_on_processor(
    hand: &mut Handle,
    processor: u32,
    element: &mut u32,
) -> i32
    ensures empty { NoneIn hand_of hand.old hand.new ((result ≡ EmptyHandle) × (element.new ≡ element.old)) }
    ensures effect { HoldsThen (hand_of hand.old)
        (λ x. (hand_of hand.new ≡ hand_of hand.old) × IsOnProcessorCall processor x element.old element.new result) }
{
    let Some(held) = hand.find::<HeldHand>() else {
        return EMPTY_HANDLE;
    };
    tell_on_processor(held, processor, element)
}

fn put_on(held: &mut HeldHand, processor: u32, element: u32) -> i32
    ensures { IsOnCall processor element held.old held.new result }
{
    let Some(processor) = processor_of(processor) else {
        return BAD_NUMBER;
    };
    let Some(element) = element_of(element) else {
        return BAD_NUMBER;
    };
    if !held.holds(element) {
        return NOT_HELD;
    }
    if !held.serves(processor) {
        return NOT_SERVED;
    }
    if held.on_processor(processor).is_some() {
        return BUSY;
    }
    held.on(processor, element);
    DONE
}

/// `ThreadTable::on`.
#[unsafe(no_mangle)]
pub extern "C" fn synth_raw_hand_on(hand: &mut Handle, processor: u32, element: u32) -> i32
    ensures empty { NoneIn hand_of hand.old hand.new (result ≡ EmptyHandle) }
    ensures on { TurnsThen hand_of hand.old hand.new (λ x y. IsOnCall processor element x y result) }
{
    let Some(held) = hand.find::<HeldHand>() else {
        return EMPTY_HANDLE;
    };
    put_on(held, processor, element)
}

fn take_off(held: &mut HeldHand, processor: u32, element: &mut u32) -> i32
    ensures { IsOffCall processor held.old held.new element.old element.new result }
{
    let Some(processor) = processor_of(processor) else {
        return BAD_NUMBER;
    };
    if !held.serves(processor) {
        return NOT_SERVED;
    }
    if held.on_processor(processor).is_none() {
        return VACANT;
    }
    *element = u32::from(held.off(processor).number());
    DONE
}

/// `ThreadTable::off`.
#[unsafe(no_mangle)]
pub extern "C" fn synth_raw_hand_off(hand: &mut Handle, processor: u32, element: &mut u32) -> i32
    ensures empty { NoneIn hand_of hand.old hand.new ((result ≡ EmptyHandle) × (element.new ≡ element.old)) }
    ensures off { TurnsThen hand_of hand.old hand.new (λ x y. IsOffCall processor x y element.old element.new result) }
{
    let Some(held) = hand.find::<HeldHand>() else {
        return EMPTY_HANDLE;
    };
    take_off(held, processor, element)
}

fn tell_pc(held: &mut HeldHand, element: u32, steps: &mut u64) -> i32
    ensures { IsPcCall element held.old held.new steps.old steps.new result }
{
    let Some(element) = element_of(element) else {
        return BAD_NUMBER;
    };
    if !held.may_step(element) {
        return NOT_HELD;
    }
    *steps = held.pc(element);
    DONE
}

/// `ThreadTable::pc`.
#[unsafe(no_mangle)]
pub extern "C" fn synth_raw_hand_pc(hand: &mut Handle, element: u32, steps: &mut u64) -> i32
    ensures empty { NoneIn hand_of hand.old hand.new ((result ≡ EmptyHandle) × (steps.new ≡ steps.old)) }
    ensures effect { TurnsThen hand_of hand.old hand.new (λ x y. IsPcCall element x y steps.old steps.new result) }
{
    let Some(held) = hand.find::<HeldHand>() else {
        return EMPTY_HANDLE;
    };
    tell_pc(held, element, steps)
}

fn count_step(held: &mut HeldHand, element: u32, steps: &mut u64) -> i32
    ensures { IsStepCall element held.old held.new steps.old steps.new result }
{
    let Some(element) = element_of(element) else {
        return BAD_NUMBER;
    };
    if !held.may_step(element) {
        return NOT_HELD;
    }
    match held.step_done(element) {
        Ok(done) => {
            *steps = done;
            DONE
        }
        Err(_) => SPENT,
    }
}

/// `ThreadTable::step_done`.
#[unsafe(no_mangle)]
pub extern "C" fn synth_raw_hand_step_done(hand: &mut Handle, element: u32, steps: &mut u64) -> i32
    ensures empty { NoneIn hand_of hand.old hand.new ((result ≡ EmptyHandle) × (steps.new ≡ steps.old)) }
    ensures done { TurnsThen hand_of hand.old hand.new (λ x y. IsStepCall element x y steps.old steps.new result) }
{
    let Some(held) = hand.find::<HeldHand>() else {
        return EMPTY_HANDLE;
    };
    count_step(held, element, steps)
}
