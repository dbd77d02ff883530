//! The words of a block: those in its box, and its title.

use crate::blocks::Block;
use crate::naming::thread_name;
use crate::phrase::Phrase;
use crate::steps::{add_answer, add_step};
use boot_data::BootPlan;
use boot_log::{Did, Entry, Log};
use event_theory::{Element, Items, OutOfMemory};
use std::alloc::Global;
use turn_dispatch::Idle;

/// The words in a box: the thread, the step, and the step's answer.
#[derive(Drop)]
pub(crate) struct Wording {
    pub(crate) thread: Items<u8>,
    pub(crate) step: Items<u8>,
    pub(crate) answer: Items<u8>,
}

/// The thread of a turn, if there was one at hand.
pub(crate) fn thread_of(entry: &Entry) -> Option<Element> {
    match entry.did {
        Did::Idle(Idle::NothingReady(_)) => None,
        Did::Idle(Idle::Parked(element) | Idle::ParkLost { element, .. }) => Some(element),
        Did::Retired { begun, .. } | Did::Stepped { begun, .. } => Some(begun.element),
    }
}

/// What was done in a turn.
fn add_deed(phrase: &mut Phrase, plan: &BootPlan, entry: &Entry) -> Result<(), OutOfMemory> {
    match &entry.did {
        Did::Idle(Idle::NothingReady(_)) => phrase.words("idle"),
        Did::Idle(Idle::Parked(_)) => phrase.words("stopped"),
        Did::Idle(Idle::ParkLost { .. }) => phrase.words("not stopped"),
        Did::Retired { .. } => phrase.words("ended"),
        Did::Stepped { tried, .. } => add_step(phrase, plan, tried),
    }
}

/// What came of the step of a turn.
fn add_result(phrase: &mut Phrase, log: &Log, entry: &Entry) -> Result<(), OutOfMemory> {
    match &entry.did {
        Did::Stepped { tried, line, .. } => add_answer(phrase, tried, log.line(*line)),
        _ => Ok(()),
    }
}

/// The name of the thread of a turn; nothing if there is none.
fn name_of<'a>(plan: &'a BootPlan, entry: &Entry) -> &'a [u8] {
    match thread_of(entry) {
        Some(element) => thread_name(plan, element),
        None => b"",
    }
}

/// The words for idle turns.
fn idle_words(alloc: Global, turns: usize) -> Result<Wording, OutOfMemory> {
    let mut count = Phrase::new(alloc);
    count.number(turns as u64)?;
    let mut step = Phrase::new(alloc);
    step.words("idle")?;
    Ok(Wording {
        thread: Phrase::new(alloc).end(),
        step: step.end(),
        answer: count.end(),
    })
}

/// The words in the box of a block that begins with this turn.
pub(crate) fn words_of(
    alloc: Global,
    plan: &BootPlan,
    log: &Log,
    block: Block,
) -> Result<Wording, OutOfMemory> {
    let Some(entry) = log.entries().get(block.first) else {
        return idle_words(alloc, block.turns);
    };
    if entry.is_idle() {
        return idle_words(alloc, block.turns);
    }
    let mut thread = Phrase::new(alloc);
    thread.bytes(name_of(plan, entry))?;
    let mut step = Phrase::new(alloc);
    add_deed(&mut step, plan, entry)?;
    let mut answer = Phrase::new(alloc);
    add_result(&mut answer, log, entry)?;
    Ok(Wording {
        thread: thread.end(),
        step: step.end(),
        answer: answer.end(),
    })
}
