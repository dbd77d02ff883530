//! The words of a step and of its answer.

use crate::naming::{gauge_name, mover_name, pipe_name, queue_name, queue_side, thread_name};
use crate::phrase::Phrase;
use boot_data::BootPlan;
use boot_data::plan::QueueIndex;
use boot_log::{HeardAnswer, SaidAnswer, Tried};
use claim_queue::{ClaimRefusal, TakeRefusal};
use event_theory::OutOfMemory;
use proc_chain::ChainRefusal;
use thread_table::Signalled;
use turn_dispatch::{Resumed, Woken};
use turn_io::Poked;

/// A word, and a name after it.
fn add_named(phrase: &mut Phrase, word: &str, name: &[u8]) -> Result<(), OutOfMemory> {
    phrase.words(word)?;
    phrase.words(" ")?;
    phrase.bytes(name)
}

/// A word, and the name of a queue after it.
fn add_queue(
    phrase: &mut Phrase,
    plan: &BootPlan,
    word: &str,
    queue: QueueIndex,
) -> Result<(), OutOfMemory> {
    add_named(phrase, word, queue_name(plan, queue))?;
    phrase.words(queue_side(queue))
}

/// A step as the script has it, without the text of a say.
pub(crate) fn add_step(
    phrase: &mut Phrase,
    plan: &BootPlan,
    tried: &Tried,
) -> Result<(), OutOfMemory> {
    match tried {
        Tried::Say { queue, .. } => add_queue(phrase, plan, "say", *queue),
        Tried::Hear { queue, .. } => add_queue(phrase, plan, "hear", *queue),
        Tried::Wait { wait } => phrase.numbered("wait ", u64::from(wait.number())),
        Tried::Wake { wait, .. } => phrase.numbered("wake ", u64::from(wait.number())),
        Tried::Signal { thread, signal, .. } => {
            add_named(phrase, "signal", thread_name(plan, *thread))?;
            phrase.numbered(" ", u64::from(signal.number()))
        }
        Tried::Stop { thread, .. } => add_named(phrase, "stop", thread_name(plan, *thread)),
        Tried::Start { thread, .. } => add_named(phrase, "start", thread_name(plan, *thread)),
        Tried::Tick { gauge, amount, .. } => {
            add_named(phrase, "tick", gauge_name(plan, *gauge))?;
            phrase.numbered(" ", *amount)
        }
        Tried::Poke { mover, .. } => add_named(phrase, "poke", mover_name(plan, *mover)),
        Tried::Pass => phrase.words("pass"),
        Tried::Close { queue, .. } => add_named(phrase, "close", pipe_name(plan, *queue)),
    }
}

/// A line between quotes, without its end.
fn add_line(phrase: &mut Phrase, line: &[u8]) -> Result<(), OutOfMemory> {
    phrase.words("'")?;
    phrase.bytes(line.strip_suffix(b"\n").unwrap_or(line))?;
    phrase.words("'")
}

/// The answer to a say of this line.
fn add_said(phrase: &mut Phrase, answer: SaidAnswer, line: &[u8]) -> Result<(), OutOfMemory> {
    match answer {
        SaidAnswer::Put(_) => add_line(phrase, line),
        SaidAnswer::Over => phrase.words("shut"),
        SaidAnswer::Refused(ClaimRefusal::Full { .. }) => phrase.words("full"),
        SaidAnswer::Refused(ClaimRefusal::Lost { .. }) => phrase.words("lost"),
        SaidAnswer::Refused(_) => phrase.words("no room left"),
    }
}

/// The answer to a hear, with the line that was taken.
fn add_heard(phrase: &mut Phrase, answer: HeardAnswer, line: &[u8]) -> Result<(), OutOfMemory> {
    match answer {
        HeardAnswer::Taken(_) => add_line(phrase, line),
        HeardAnswer::Over(_) => phrase.words("shut"),
        HeardAnswer::Refused(TakeRefusal::Empty { .. }) => phrase.words("empty"),
        HeardAnswer::Refused(TakeRefusal::Lost { .. }) => phrase.words("lost"),
        HeardAnswer::Refused(TakeRefusal::Closed) => phrase.words("shut"),
    }
}

/// How many elements were woken.
fn add_woken(phrase: &mut Phrase, woken: Woken) -> Result<(), OutOfMemory> {
    phrase.numbered("woke ", u64::from(woken.taken.count_ones()))
}

/// The answer to a poke.
fn add_poked(phrase: &mut Phrase, answer: Result<Poked, ChainRefusal>) -> Result<(), OutOfMemory> {
    match answer {
        Ok(Poked::Ran { notes }) => phrase.numbered("ran ", notes),
        Ok(Poked::Left) => phrase.words("left"),
        Err(ChainRefusal::Full { .. }) => phrase.words("full"),
        Err(ChainRefusal::Lost { .. }) => phrase.words("lost"),
        Err(ChainRefusal::Spent) => phrase.words("no room left"),
    }
}

/// The result of a step; nothing for one whose result is always the same.
pub(crate) fn add_answer(
    phrase: &mut Phrase,
    tried: &Tried,
    line: &[u8],
) -> Result<(), OutOfMemory> {
    match tried {
        Tried::Say { answer, .. } => add_said(phrase, *answer, line),
        Tried::Hear { answer, .. } => add_heard(phrase, *answer, line),
        Tried::Wake { woken, .. } => add_woken(phrase, *woken),
        Tried::Signal { answer, .. } => phrase.words(match answer {
            Signalled::Raised => "pending now",
            Signalled::Merged => "was pending",
        }),
        Tried::Stop { was_clear, .. } => phrase.words(if *was_clear { "" } else { "was stopped" }),
        Tried::Start { answer, .. } => phrase.words(match answer {
            Ok(Resumed::NotStopped) => "wasn't stopped",
            Ok(Resumed::Cleared) => "goes on",
            Ok(Resumed::Ready) => "ready",
            Ok(Resumed::Held) => "held",
            Err(_) => "lost",
        }),
        Tried::Tick { before, .. } => phrase.numbered("from ", *before),
        Tried::Poke { answer, .. } => add_poked(phrase, *answer),
        Tried::Close { was_open, .. } => phrase.words(if *was_open { "" } else { "was shut" }),
        Tried::Wait { .. } | Tried::Pass => Ok(()),
    }
}
