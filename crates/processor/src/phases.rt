//! What came of each part of a step, in the order of the parts: the ticket that is read before the try, the try, its
//! count, and the queue to which the element goes.
//!
//! The order is in the clauses. The hand's list of steps is the clock of a turn, and the gate is shown the hand beside
//! the other ends just before and just after what is done at them (`Watch`). So the ticket was read before the try at
//! the pipe, those who wait there are woken after it, and all of the step is done between the element's coming on the
//! processor and its count.
ghost use Rattle.std.specs.Prelude.{◌≡◌, false, option_copied};
ghost use Rattle.processor.specs.Refusals.{is_shut, is_over};

use crate::step_outcome::StepOutcome;
use claim_queue::{ClaimRefusal, TakeRefusal};
use event_theory::WaitNumber;
use turn_dispatch::{Counted, Waited, Woken};

/// The number of notifies of a wait queue at a pipe, as it was before the try of a step that may have to wait there. An
/// element that waits with a number read after the try isn't woken by a notify that came in between.
#[derive(Drop)]
pub struct Ticket {
    pub(crate) wait: WaitNumber,
    pub(crate) number: u32,
}

/// A line that was not put though the queue is open, and for a pipe the ticket of those who wait for room.
#[derive(Drop)]
pub struct Unsaid {
    pub(crate) refusal: ClaimRefusal,
    pub(crate) ticket: Option<Ticket>,
    ghost opened: { is_shut refusal ≡ false },
}

/// No line was taken though one may still come, and for a pipe the ticket of those who wait for a line.
#[derive(Drop)]
pub struct Unheard {
    pub(crate) refusal: TakeRefusal,
    pub(crate) ticket: Option<Ticket>,
    ghost opened: { is_over refusal ≡ false },
}

/// The result of a try to say a line.
#[derive(Drop)]
pub enum SayAnswer {
    /// The line was put. If the queue is a pipe, those who waited for a line were then woken.
    Put(Option<Woken>),
    /// The queue is shut.
    Over,
    /// The line was not put.
    Refused(Unsaid),
}

/// The result of a try to hear a line.
#[derive(Drop)]
pub enum HearAnswer {
    /// A line was taken. If the queue is a pipe, those who waited for room were then woken.
    Taken(Option<Woken>),
    /// The queue is shut, and has nothing left. If it is a pipe, those who waited for room were then woken.
    Over(Option<Woken>),
    /// No line was taken.
    Refused(Unheard),
}

impl Unsaid {
    ghost use Rattle.processor.specs.Outcomes.{if_full};

    /// Why the line was not put.
    pub fn refusal(&self) -> ClaimRefusal
        ensures { result ≡ self.now.refusal }
    {
        self.refusal
    }

    // The ticket with which the element is to wait, if the pipe had no room for its line.
    pub(crate) fn ticket_if_full(&self) -> Option<&Ticket>
        ensures { option_copied result ≡ if_full self.now.refusal self.now.ticket }
    {
        match self.refusal {
            ClaimRefusal::Full { head: _, tail: _ } => self.ticket.as_ref(),
            _ => None,
        }
    }
}

impl Unheard {
    ghost use Rattle.processor.specs.Outcomes.{if_empty};

    /// Why no line was taken.
    pub fn refusal(&self) -> TakeRefusal
        ensures { result ≡ self.now.refusal }
    {
        self.refusal
    }

    // The ticket with which the element is to wait, if the pipe had no line.
    pub(crate) fn ticket_if_empty(&self) -> Option<&Ticket>
        ensures { option_copied result ≡ if_empty self.now.refusal self.now.ticket }
    {
        match self.refusal {
            TakeRefusal::Empty { at: _ } => self.ticket.as_ref(),
            _ => None,
        }
    }
}

/// The result of a step that was tried on a processor, and of counting the step.
#[derive(Drop)]
pub struct StepCounted {
    pub(crate) step_outcome: StepOutcome,
    pub(crate) counted: Counted,
}

impl StepCounted {
    /// The result of the step.
    pub fn step_outcome(&self) -> &StepOutcome
        ensures { result.now ≡ self.now.step_outcome }
    {
        &self.step_outcome
    }

    /// Whether the step is counted.
    pub fn counted(&self) -> Counted
        ensures { result ≡ self.now.counted }
    {
        self.counted
    }
}

/// The queue to which an element went after its turn. On false the queue has no position left, and the hand holds the
/// element.
#[derive(Clone, Copy, Debug, PartialEq, Eq)]
pub enum Moved {
    /// To the ready ring.
    Ready(bool),
    /// To the free elements: all steps are done.
    Freed(bool),
    /// To the wait queue of its step.
    Waits(bool),
    /// With its ticket to a wait queue of a pipe.
    Ticketed(Waited),
}

/// The result of a step, and the queue to which its element went after it.
#[derive(Drop)]
pub struct Rescheduled {
    pub(crate) tried: StepCounted,
    pub(crate) moved: Moved,
}

impl Rescheduled {
    /// The result of the step, and whether it is counted.
    pub fn tried(&self) -> &StepCounted
        ensures { result.now ≡ self.now.tried }
    {
        &self.tried
    }

    /// The queue to which the element went.
    pub fn moved(&self) -> Moved
        ensures { result ≡ self.now.moved }
    {
        self.moved
    }
}
