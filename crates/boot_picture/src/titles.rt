//! The title of a box, which says all that is known of its turns.

ghost use Rattle.std.specs.Prelude.{IfOk};
ghost use Rattle.boot_picture.specs.Lanes.{IsTitleOf};

use crate::order::Ordered;
use crate::phrase::Phrase;
use crate::wording::words_of;
use boot_data::BootPlan;
use boot_log::{Did, Entry, Log};
use event_theory::{Items, OutOfMemory};
use processor::Moved;
use std::alloc::Global;
use svg::words::numbered;
use turn_dispatch::{Begun, Counted, Waited};

/// Where an element went after its step.
fn moved_words(moved: Moved) -> &'static str {
    match moved {
        Moved::Ready(true) => "; then ready",
        Moved::Freed(true) => "; its last step, then ended",
        Moved::Waits(true) | Moved::Ticketed(Waited::Waiting) => "; then in the wait queue",
        Moved::Ticketed(Waited::Moved { ready: true, .. }) =>
            "; then ready, for the queue has changed",
        _ => "; then held by the processor",
    }
}

/// The signals that were delivered at the beginning of a turn.
fn add_delivered(phrase: &mut Phrase, begun: Begun) -> Result<(), OutOfMemory> {
    match begun.delivered {
        Ok(0) => Ok(()),
        Ok(signals) => phrase.numbered("; signals ", u64::from(signals)),
        Err(_) => phrase.words("; signals lost"),
    }
}

/// How many steps the element has done.
fn add_counted(phrase: &mut Phrase, counted: Counted) -> Result<(), OutOfMemory> {
    match counted {
        Counted::Undone => phrase.words("; not done"),
        Counted::Done(steps) => phrase.numbered("; steps done ", steps),
        Counted::Spent => phrase.words("; no more steps are counted"),
    }
}

/// What is known of a turn besides the words in its box.
fn add_more(phrase: &mut Phrase, entry: &Entry) -> Result<(), OutOfMemory> {
    match &entry.did {
        Did::Stepped {
            begun,
            counted,
            moved,
            ..
        } => {
            add_delivered(phrase, *begun)?;
            add_counted(phrase, *counted)?;
            phrase.words(moved_words(*moved))
        }
        Did::Retired { begun, .. } => add_delivered(phrase, *begun),
        Did::Idle(_) => Ok(()),
    }
}

/// The words in the box of a block, in one line.
fn add_words(
    phrase: &mut Phrase,
    alloc: Global,
    plan: &BootPlan,
    log: &Log,
    ordered: Ordered,
) -> Result<(), OutOfMemory> {
    let words = words_of(alloc, plan, log, ordered.block)?;
    if !words.thread.as_slice().is_empty() {
        phrase.bytes(words.thread.as_slice())?;
        phrase.words(": ")?;
    }
    phrase.bytes(words.step.as_slice())?;
    if words.answer.as_slice().is_empty() {
        return Ok(());
    }
    phrase.words(": ")?;
    phrase.bytes(words.answer.as_slice())
}

/// All that is known of the turns of a block, besides its number, its processor and its time.
fn details_of(
    alloc: Global,
    plan: &BootPlan,
    log: &Log,
    ordered: Ordered,
) -> Result<Items<u8>, OutOfMemory> {
    let mut phrase = Phrase::new(alloc);
    let Some(entry) = log.entries().get(ordered.block.first) else {
        return Ok(phrase.end());
    };
    if entry.is_idle() {
        phrase.numbered("idle, turns in a row ", ordered.block.turns as u64)?;
        return Ok(phrase.end());
    }
    add_words(&mut phrase, alloc, plan, log, ordered)?;
    add_more(&mut phrase, entry)?;
    Ok(phrase.end())
}

/// The title of the box of a block whose first turn ended at this time. It begins with the number of this turn, its
/// processor, and the time.
pub(crate) fn title_of(
    alloc: Global,
    plan: &BootPlan,
    log: &Log,
    ordered: Ordered,
    at: u64,
) -> Result<Items<u8>, OutOfMemory>
    ensures { IfOk result (IsTitleOf at ordered) }
{
    let details = details_of(alloc, plan, log, ordered)?;
    let processor = numbered(alloc, " on p", ordered.processor as u64)?;
    let time = numbered(alloc, ", at ", at)?;
    let mut title = numbered(alloc, "turn ", ordered.block.first as u64)?.into_vec();
    title.extend_from_slice(processor.as_slice())?;
    title.extend_from_slice(time.as_slice())?;
    title.extend_from_slice(b" ns: ")?;
    title.extend_from_slice(details.as_slice())?;
    Ok(Items::new(title))
}
