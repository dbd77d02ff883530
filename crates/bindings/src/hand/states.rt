//! Stop bits, stop cells and signals for C.
ghost use Rattle.std.specs.Prelude.{◌≡◌, ◌<◌, true};
ghost use Rattle.event_theory.specs.Numbers.{u32_values};
ghost use Rattle.bindings.specs.HandStates.{WasStopped, WasStarted, WasParked, WasSignalled, WereDelivered};
ghost use Rattle.bindings.specs.HandStates.{number_of_start, is_raised, IsStateCode, ReportsLost, IsFitState};
ghost use Rattle.bindings.specs.HandStates.{ReportsStart, ReportsPark, ReportsDelivery, IsStopCall, IsStartCall};
ghost use Rattle.bindings.specs.HandStates.{IsParkCall, IsSignalCall, IsDeliverCall, HasPending, ReadPending};
ghost use Rattle.bindings.specs.Handles.{EmptyHandle, hand_of, NoneIn, LeadsTo};
ghost use Rattle.bindings.specs.HandHeld.{view_of, has};

use super::held::HeldHand;
use super::numbers::{element_of, signal_of};
use crate::answer::{BAD_NUMBER, DONE, EMPTY_HANDLE, LOST, NOT_HELD};
use crate::handle::Handle;
use event_theory::{Element, Signal};
use thread_table::{Lost, Signalled, Started};

/// The answer of a start, a park or a delivery. With `LOST`, `word` is the state word that was found: bits 0 to 15 are
/// the pending signals, bit 16 the stop bit, bit 17 the stop cell's.
#[repr(C)]
#[derive(Drop)]
pub struct SynthState {
    pub code: i32,
    pub word: u32,
}

impl HeldHand {
    /// `ThreadTable::stop`.
    pub fn stop(&mut self, element: Element) -> bool
        ensures { WasStopped element result self.old self.new }
    {
        self.table.stop(&mut self.hand, element)
    }

    /// `ThreadTable::try_start`.
    pub fn try_start(&mut self, element: Element) -> Result<Started, Lost>
        ensures { WasStarted element result self.old self.new }
    {
        self.table.try_start(&mut self.hand, element)
    }

    /// `ThreadTable::try_park`.
    pub fn try_park(&mut self, element: Element) -> Result<bool, Lost>
        requires { has (view_of self.old.hand) element ≡ true }
        ensures { WasParked element result self.old self.new }
    {
        self.table.try_park(&mut self.hand, element)
    }

    /// `ThreadTable::signal`.
    pub fn signal(&mut self, element: Element, signal: Signal) -> Signalled
        ensures { WasSignalled element signal result self.old self.new }
    {
        self.table.signal(&mut self.hand, element, signal)
    }

    /// `ThreadTable::try_deliver`.
    pub fn try_deliver(&mut self, element: Element) -> Result<u16, Lost>
        requires { has (view_of self.old.hand) element ≡ true }
        ensures { WereDelivered element result self.old self.new }
    {
        self.table.try_deliver(&mut self.hand, element)
    }

    /// `ThreadTable::pending`.
    pub fn pending(&mut self, element: Element) -> u16
        ensures { HasPending element result self.old self.new }
    {
        self.table.pending(&mut self.hand, element)
    }
}

// This code, with word 0.
fn code_alone(code: i32) -> SynthState
    ensures { IsStateCode code result }
{
    SynthState { code, word: 0 }
}

// The state word in the refusal.
fn answer_of_lost(lost: Lost) -> SynthState
    requires { lost.seen < u32_values }
    ensures { ReportsLost lost result }
{
    SynthState {
        code: LOST,
        word: lost.seen as u32,
    }
}

// The number that reports the effect of a start to C.
fn number_of(started: Started) -> u32
    ensures { result ≡ number_of_start started }
{
    match started {
        Started::NotStopped => 0,
        Started::Cleared => 1,
        Started::Held => 2,
    }
}

// Whether the signal was not pending before.
fn was_raised(signalled: Signalled) -> bool
    ensures { result ≡ is_raised signalled }
{
    match signalled {
        Signalled::Raised => true,
        Signalled::Merged => false,
    }
}

// Reports the effect of a start, or the state word that was found.
fn tell_start(answer: Result<Started, Lost>, started: &mut u32) -> SynthState
    requires { IsFitState answer }
    ensures { ReportsStart answer started.old started.new result }
{
    match answer {
        Ok(done) => {
            *started = number_of(done);
            code_alone(DONE)
        }
        Err(lost) => answer_of_lost(lost),
    }
}

// Reports whether the element is parked, or the state word that was found.
fn tell_park(answer: Result<bool, Lost>, parked: &mut bool) -> SynthState
    requires { IsFitState answer }
    ensures { ReportsPark answer parked.old parked.new result }
{
    match answer {
        Ok(stands) => {
            *parked = stands;
            code_alone(DONE)
        }
        Err(lost) => answer_of_lost(lost),
    }
}

// Reports the signals that were delivered, or the state word that was found.
fn tell_delivery(answer: Result<u16, Lost>, signals: &mut u32) -> SynthState
    requires { IsFitState answer }
    ensures { ReportsDelivery answer signals.old signals.new result }
{
    match answer {
        Ok(pending) => {
            *signals = u32::from(pending);
            code_alone(DONE)
        }
        Err(lost) => answer_of_lost(lost),
    }
}

/// `ThreadTable::stop`. The elements are 0 to 63.
#[unsafe(no_mangle)]
pub extern "C" fn synth_raw_hand_stop(hand: &mut Handle, element: u32, was_clear: &mut bool) -> i32
    ensures empty { NoneIn hand_of hand.old hand.new ((result ≡ EmptyHandle) × (was_clear.new ≡ was_clear.old)) }
    ensures stopped { LeadsTo hand_of hand.old hand.new (IsStopCall element was_clear.old was_clear.new result) }
{
    let Some(held) = hand.find::<HeldHand>() else {
        return EMPTY_HANDLE;
    };
    let Some(element) = element_of(element) else {
        return BAD_NUMBER;
    };
    *was_clear = held.stop(element);
    DONE
}

/// `ThreadTable::try_start`. The elements are 0 to 63. `started` is then 0 if the stop bit was clear, 1 if it was
/// cleared, and 2 if it was cleared and the hand holds the element.
#[unsafe(no_mangle)]
pub extern "C" fn synth_raw_hand_try_start(
    hand: &mut Handle,
    element: u32,
    started: &mut u32,
) -> SynthState
    ensures empty { NoneIn hand_of hand.old hand.new (IsStateCode EmptyHandle result × (started.new ≡ started.old)) }
    ensures started { LeadsTo hand_of hand.old hand.new (IsStartCall element started.old started.new result) }
{
    let Some(held) = hand.find::<HeldHand>() else {
        return code_alone(EMPTY_HANDLE);
    };
    let Some(element) = element_of(element) else {
        return code_alone(BAD_NUMBER);
    };
    let answer = held.try_start(element);
    tell_start(answer, started)
}

/// `ThreadTable::try_park`. The elements are 0 to 63.
#[unsafe(no_mangle)]
pub extern "C" fn synth_raw_hand_try_park(
    hand: &mut Handle,
    element: u32,
    parked: &mut bool,
) -> SynthState
    ensures empty { NoneIn hand_of hand.old hand.new (IsStateCode EmptyHandle result × (parked.new ≡ parked.old)) }
    ensures parked { LeadsTo hand_of hand.old hand.new (IsParkCall element parked.old parked.new result) }
{
    let Some(held) = hand.find::<HeldHand>() else {
        return code_alone(EMPTY_HANDLE);
    };
    let Some(element) = element_of(element) else {
        return code_alone(BAD_NUMBER);
    };
    if !held.hand.holds(element) {
        return code_alone(NOT_HELD);
    }
    let answer = held.try_park(element);
    tell_park(answer, parked)
}

/// `ThreadTable::signal`. The elements are 0 to 63, and the signals 0 to 15.
#[unsafe(no_mangle)]
pub extern "C" fn synth_raw_hand_signal(
    hand: &mut Handle,
    element: u32,
    signal: u32,
    raised: &mut bool,
) -> i32
    ensures empty { NoneIn hand_of hand.old hand.new ((result ≡ EmptyHandle) × (raised.new ≡ raised.old)) }
    ensures signalled { LeadsTo hand_of hand.old hand.new (IsSignalCall element signal raised.old raised.new result) }
{
    let Some(held) = hand.find::<HeldHand>() else {
        return EMPTY_HANDLE;
    };
    let Some(element) = element_of(element) else {
        return BAD_NUMBER;
    };
    let Some(signal) = signal_of(signal) else {
        return BAD_NUMBER;
    };
    *raised = was_raised(held.signal(element, signal));
    DONE
}

/// `ThreadTable::try_deliver`. The elements are 0 to 63.
#[unsafe(no_mangle)]
pub extern "C" fn synth_raw_hand_try_deliver(
    hand: &mut Handle,
    element: u32,
    signals: &mut u32,
) -> SynthState
    ensures empty { NoneIn hand_of hand.old hand.new (IsStateCode EmptyHandle result × (signals.new ≡ signals.old)) }
    ensures delivered { LeadsTo hand_of hand.old hand.new (IsDeliverCall element signals.old signals.new result) }
{
    let Some(held) = hand.find::<HeldHand>() else {
        return code_alone(EMPTY_HANDLE);
    };
    let Some(element) = element_of(element) else {
        return code_alone(BAD_NUMBER);
    };
    if !held.hand.holds(element) {
        return code_alone(NOT_HELD);
    }
    let answer = held.try_deliver(element);
    tell_delivery(answer, signals)
}

/// `ThreadTable::pending`. The elements are 0 to 63.
#[unsafe(no_mangle)]
pub extern "C" fn synth_raw_hand_pending(hand: &mut Handle, element: u32, signals: &mut u32) -> i32
    ensures empty { NoneIn hand_of hand.old hand.new ((result ≡ EmptyHandle) × (signals.new ≡ signals.old)) }
    ensures loaded { LeadsTo hand_of hand.old hand.new (ReadPending element signals.old signals.new result) }
{
    let Some(held) = hand.find::<HeldHand>() else {
        return EMPTY_HANDLE;
    };
    let Some(element) = element_of(element) else {
        return BAD_NUMBER;
    };
    *signals = held.pending(element) as u32;
    DONE
}
