//! The result of a turn as plain values.
ghost use Rattle.std.specs.Prelude.{◌≡◌};
ghost use Rattle.boot_log.specs.Values.{did_of, heard_of, said_of, tried_of};

use crate::entry::{Did, HeardAnswer, Part, SaidAnswer, Tried};
use processor::{HearAnswer, SayAnswer, StepOutcome, TurnOutcome, TurnResult};

// The answer to a say.
fn said_of(answer: &SayAnswer) -> SaidAnswer
    ensures { result ≡ said_of answer.now }
{
    match answer {
        SayAnswer::Put(woken) => SaidAnswer::Put(*woken),
        SayAnswer::Over => SaidAnswer::Over,
        SayAnswer::Refused(unsaid) => SaidAnswer::Refused(unsaid.refusal()),
    }
}

// The answer to a hear.
fn heard_of(answer: &HearAnswer) -> HeardAnswer
    ensures { result ≡ heard_of answer.now }
{
    match answer {
        HearAnswer::Taken(woken) => HeardAnswer::Taken(*woken),
        HearAnswer::Over(woken) => HeardAnswer::Over(*woken),
        HearAnswer::Refused(unheard) => HeardAnswer::Refused(unheard.refusal()),
    }
}

// The result of the one try of a step.
fn tried_of(outcome: &StepOutcome) -> Tried
    ensures { result ≡ tried_of outcome.now }
{
    match outcome {
        StepOutcome::Say { queue, answer } => Tried::Say {
            queue: *queue,
            answer: said_of(answer),
        },
        StepOutcome::Hear { queue, answer } => Tried::Hear {
            queue: *queue,
            answer: heard_of(answer),
        },
        StepOutcome::Wait { wait } => Tried::Wait { wait: *wait },
        StepOutcome::Wake { wait, woken } => Tried::Wake {
            wait: *wait,
            woken: *woken,
        },
        StepOutcome::Signal {
            thread,
            signal,
            answer,
        } => Tried::Signal {
            thread: *thread,
            signal: *signal,
            answer: *answer,
        },
        StepOutcome::Stop { thread, was_clear } => Tried::Stop {
            thread: *thread,
            was_clear: *was_clear,
        },
        StepOutcome::Start { thread, answer } => Tried::Start {
            thread: *thread,
            answer: *answer,
        },
        StepOutcome::Tick {
            gauge,
            amount,
            before,
        } => Tried::Tick {
            gauge: *gauge,
            amount: *amount,
            before: *before,
        },
        StepOutcome::Poke { mover, answer } => Tried::Poke {
            mover: *mover,
            answer: *answer,
        },
        StepOutcome::Pass => Tried::Pass,
        StepOutcome::Close {
            queue,
            was_open,
            readers,
            writers,
        } => Tried::Close {
            queue: *queue,
            was_open: *was_open,
            readers: *readers,
            writers: *writers,
        },
    }
}

// The result of an element's turn, if one was at hand, with the part that is the line of its step.
pub(crate) fn did_of(outcome: &TurnOutcome, line: Part) -> Did
    ensures { result ≡ did_of outcome.now line }
{
    match outcome {
        TurnOutcome::Idle(idle) => Did::Idle(*idle),
        TurnOutcome::OfElement(begun, TurnResult::Retired(freed)) => Did::Retired {
            begun: *begun,
            freed: *freed,
        },
        TurnOutcome::OfElement(begun, TurnResult::Ran(sent)) => Did::Stepped {
            begun: *begun,
            tried: tried_of(sent.tried().step_outcome()),
            counted: sent.tried().counted(),
            moved: sent.moved(),
            line,
        },
    }
}
