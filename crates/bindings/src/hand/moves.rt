//! Moves of elements for C.
ghost use Rattle.std.specs.Prelude.{◌≡◌, ◌+◌, true};
ghost use Rattle.event_theory.specs.Marks.{wait_ring};
ghost use Rattle.bindings.specs.HandMoves.{WasMoved, WasWaited, WasTicket, ReportsMove, IsMoveCode, IsMovingCall};
ghost use Rattle.bindings.specs.HandMoves.{IsWaitingCall, IsTicketCall, IsWaitingAtCall};
ghost use Rattle.bindings.specs.Handles.{EmptyHandle, hand_of, NoneIn, LeadsTo};
ghost use Rattle.bindings.specs.HandHeld.{view_of, has};

use super::held::HeldHand;
use super::numbers::{element_of, wait_of};
use crate::answer::{BAD_NUMBER, DONE, EMPTY_HANDLE, LOST, MOVED, NOT_HELD, SPENT};
use crate::handle::Handle;
use event_theory::{Element, WaitNumber};
use thread_table::MoveRefusal;

/// The answer of a move. With `LOST`, `head` and `notifies` are those of the head word that was found. With `MOVED`,
/// `notifies` is the number that was found.
#[repr(C)]
#[derive(Drop)]
pub struct SynthMoved {
    pub code: i32,
    pub head: u32,
    pub notifies: u32,
}

impl HeldHand {
    /// `ThreadTable::try_ready`.
    pub fn try_ready(&mut self, element: Element) -> Result<(), MoveRefusal>
        requires { has (view_of self.old.hand) element ≡ true }
        ensures { WasMoved 0 element result self.old self.new }
    {
        self.table.try_ready(&mut self.hand, element)
    }

    /// `ThreadTable::try_retire`.
    pub fn try_retire(&mut self, element: Element) -> Result<(), MoveRefusal>
        requires { has (view_of self.old.hand) element ≡ true }
        ensures { WasMoved 1 element result self.old self.new }
    {
        self.table.try_retire(&mut self.hand, element)
    }

    /// `ThreadTable::try_wait`.
    pub fn try_wait(&mut self, element: Element, wait: WaitNumber) -> Result<(), MoveRefusal>
        requires { has (view_of self.old.hand) element ≡ true }
        ensures { WasMoved (wait_ring wait) element result self.old self.new }
    {
        self.table.try_wait(&mut self.hand, element, wait)
    }

    /// `ThreadTable::ticket`.
    pub fn ticket(&mut self, wait: WaitNumber) -> u32
        ensures { WasTicket wait result self.old self.new }
    {
        self.table.ticket(&mut self.hand, wait)
    }

    /// `ThreadTable::try_wait_at`.
    pub fn try_wait_at(
        &mut self,
        element: Element,
        wait: WaitNumber,
        ticket: u32,
    ) -> Result<(), MoveRefusal>
        requires { has (view_of self.old.hand) element ≡ true }
        ensures { WasWaited wait element ticket result self.old self.new }
    {
        self.table
            .try_wait_at(&mut self.hand, element, wait, ticket)
    }
}

// This code, with both numbers 0.
fn code_alone(code: i32) -> SynthMoved
    ensures { IsMoveCode code result }
{
    SynthMoved {
        code,
        head: 0,
        notifies: 0,
    }
}

// The code of the answer, and the numbers in it.
fn answer_of_move(answer: Result<(), MoveRefusal>) -> SynthMoved
    ensures { ReportsMove answer result }
{
    match answer {
        Ok(()) => code_alone(DONE),
        Err(MoveRefusal::Spent) => code_alone(SPENT),
        Err(MoveRefusal::Lost { seen }) => SynthMoved {
            code: LOST,
            head: (seen % 4294967296) as u32,
            notifies: (seen / 4294967296) as u32,
        },
        Err(MoveRefusal::Moved { mark }) => SynthMoved {
            code: MOVED,
            head: 0,
            notifies: mark,
        },
    }
}

/// `ThreadTable::try_ready`. The elements are 0 to 63.
#[unsafe(no_mangle)]
pub extern "C" fn synth_raw_hand_try_ready(hand: &mut Handle, element: u32) -> SynthMoved
    ensures empty { NoneIn hand_of hand.old hand.new (IsMoveCode EmptyHandle result) }
    ensures moved { LeadsTo hand_of hand.old hand.new (λ x y. IsMovingCall 0 element x y result) }
{
    let Some(held) = hand.find::<HeldHand>() else {
        return code_alone(EMPTY_HANDLE);
    };
    let Some(element) = element_of(element) else {
        return code_alone(BAD_NUMBER);
    };
    if !held.hand.holds(element) {
        return code_alone(NOT_HELD);
    }
    let answer = held.try_ready(element);
    answer_of_move(answer)
}

/// `ThreadTable::try_retire`. The elements are 0 to 63.
#[unsafe(no_mangle)]
pub extern "C" fn synth_raw_hand_try_retire(hand: &mut Handle, element: u32) -> SynthMoved
    ensures empty { NoneIn hand_of hand.old hand.new (IsMoveCode EmptyHandle result) }
    ensures moved { LeadsTo hand_of hand.old hand.new (λ x y. IsMovingCall 1 element x y result) }
{
    let Some(held) = hand.find::<HeldHand>() else {
        return code_alone(EMPTY_HANDLE);
    };
    let Some(element) = element_of(element) else {
        return code_alone(BAD_NUMBER);
    };
    if !held.hand.holds(element) {
        return code_alone(NOT_HELD);
    }
    let answer = held.try_retire(element);
    answer_of_move(answer)
}

/// `ThreadTable::try_wait`. The elements are 0 to 63, and the wait queues 0 to 15.
#[unsafe(no_mangle)]
pub extern "C" fn synth_raw_hand_try_wait(hand: &mut Handle, element: u32, wait: u32) -> SynthMoved
    ensures empty { NoneIn hand_of hand.old hand.new (IsMoveCode EmptyHandle result) }
    ensures moved { LeadsTo hand_of hand.old hand.new (λ x y. IsWaitingCall element wait x y result) }
{
    let Some(held) = hand.find::<HeldHand>() else {
        return code_alone(EMPTY_HANDLE);
    };
    let Some(element) = element_of(element) else {
        return code_alone(BAD_NUMBER);
    };
    let Some(wait) = wait_of(wait) else {
        return code_alone(BAD_NUMBER);
    };
    if !held.hand.holds(element) {
        return code_alone(NOT_HELD);
    }
    let answer = held.try_wait(element, wait);
    answer_of_move(answer)
}

/// `ThreadTable::ticket`. The wait queues are 0 to 15.
#[unsafe(no_mangle)]
pub extern "C" fn synth_raw_hand_ticket(hand: &mut Handle, wait: u32, ticket: &mut u32) -> i32
    ensures empty { NoneIn hand_of hand.old hand.new ((result ≡ EmptyHandle) × (ticket.new ≡ ticket.old)) }
    ensures loaded { LeadsTo hand_of hand.old hand.new (IsTicketCall wait ticket.old ticket.new result) }
{
    let Some(held) = hand.find::<HeldHand>() else {
        return EMPTY_HANDLE;
    };
    let Some(wait) = wait_of(wait) else {
        return BAD_NUMBER;
    };
    *ticket = held.ticket(wait);
    DONE
}

/// `ThreadTable::try_wait_at`. The elements are 0 to 63, and the wait queues 0 to 15.
#[unsafe(no_mangle)]
pub extern "C" fn synth_raw_hand_try_wait_at(
    hand: &mut Handle,
    element: u32,
    wait: u32,
    ticket: u32,
) -> SynthMoved
    ensures empty { NoneIn hand_of hand.old hand.new (IsMoveCode EmptyHandle result) }
    ensures moved { LeadsTo hand_of hand.old hand.new (λ x y. IsWaitingAtCall element wait ticket x y result) }
{
    let Some(held) = hand.find::<HeldHand>() else {
        return code_alone(EMPTY_HANDLE);
    };
    let Some(element) = element_of(element) else {
        return code_alone(BAD_NUMBER);
    };
    let Some(wait) = wait_of(wait) else {
        return code_alone(BAD_NUMBER);
    };
    if !held.hand.holds(element) {
        return code_alone(NOT_HELD);
    }
    let answer = held.try_wait_at(element, wait, ticket);
    answer_of_move(answer)
}
