//! The result of the one try of a step.
ghost use Rattle.std.specs.Prelude.{◌≡◌, option_copied};

use crate::phases::{HearAnswer, SayAnswer, Ticket};
use boot_data::plan::QueueIndex;
use event_theory::{Element, Gauge, Signal, WaitNumber};
use proc_chain::ChainRefusal;
use thread_table::{Lost, Signalled};
use turn_dispatch::{Resumed, Woken};
use turn_io::Poked;

/// The result of the one try of a step, with the step's operands. A step is done unless it was refused.
#[derive(Drop)]
pub enum StepOutcome {
    /// A line was to be put in the queue.
    Say {
        queue: QueueIndex,
        answer: SayAnswer,
    },
    /// A line was to be taken from the queue.
    Hear {
        queue: QueueIndex,
        answer: HearAnswer,
    },
    /// The element is to wait.
    Wait {
        wait: WaitNumber,
    },
    /// Those who waited were woken.
    Wake {
        wait: WaitNumber,
        woken: Woken,
    },
    /// A signal was made pending, or was pending.
    Signal {
        thread: Element,
        signal: Signal,
        answer: Signalled,
    },
    /// The stop bit is set; it was clear before, or not.
    Stop {
        thread: Element,
        was_clear: bool,
    },
    /// The stop bit was to be cleared.
    Start {
        thread: Element,
        answer: Result<Resumed, Lost>,
    },
    /// The gauge grew by the amount, from the value before.
    Tick {
        gauge: Gauge,
        amount: u64,
        before: u64,
    },
    /// A note was to be chained to the pump or switch.
    Poke {
        mover: usize,
        answer: Result<Poked, ChainRefusal>,
    },
    Pass,
    /// The queue is shut; it was open before, or not. If it is a pipe, the elements that waited to hear, and those that
    /// waited for room, are woken.
    Close {
        queue: usize,
        was_open: bool,
        readers: Option<Woken>,
        writers: Option<Woken>,
    },
}

impl StepOutcome {
    ghost use Rattle.processor.specs.Outcomes.{is_done, sleeps_on, wait_of};

    /// Whether the step is done.
    pub fn is_done(&self) -> bool
        ensures { result ≡ is_done self.now }
    {
        match self {
            StepOutcome::Say {
                answer: SayAnswer::Refused(_),
                ..
            } => false,
            StepOutcome::Hear {
                answer: HearAnswer::Refused(_),
                ..
            } => false,
            StepOutcome::Start { answer: Err(_), .. } => false,
            StepOutcome::Poke { answer: Err(_), .. } => false,
            _ => true,
        }
    }

    /// The ticket with which the element is to wait: if a pipe had no room for its line, or no line for it.
    pub fn sleeps_on(&self) -> Option<&Ticket>
        ensures { option_copied result ≡ sleeps_on self.now }
    {
        match self {
            StepOutcome::Say {
                answer: SayAnswer::Refused(unsaid),
                ..
            } => unsaid.ticket_if_full(),
            StepOutcome::Hear {
                answer: HearAnswer::Refused(unheard),
                ..
            } => unheard.ticket_if_empty(),
            _ => None,
        }
    }

    /// The wait queue in which the element is to wait, if its step waits.
    pub fn waits_in(&self) -> Option<WaitNumber>
        ensures { result ≡ wait_of self.now }
    {
        match self {
            StepOutcome::Wait { wait } => Some(*wait),
            _ => None,
        }
    }
}
