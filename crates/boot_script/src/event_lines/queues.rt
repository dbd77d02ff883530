//! Lines on queues: the commands that make and shut a byte queue, and claims, raises and takings.

ghost use Rattle.std.specs.Prelude.{◌≡◌};
ghost use Rattle.event_theory.specs.Numbers.{u32_max};
ghost use Rattle.boot_script.specs.Words.{number_of};
ghost use Rattle.boot_script.specs.Names.{byte_queue_of, call_of, queue_of};
ghost use Rattle.boot_script.specs.Grammar.{claim_words, four_words, items_of, one_word, three_words, two_words};
ghost use Rattle.boot_script.specs.Answers.{Gives};

use crate::event_lines::at_end;
use crate::fault::ScriptRefusal;
use crate::names::{byte_queue, call, queue};
use crate::text::{Words, number, number_u32};
use crate::version::Version;
use event_theory::{Event, Items};
use std::alloc::Global;

/// How many items a line may have.
const MOST_ITEMS: usize = 256;

/// `queue N`
#[tactic(auto, unfolding(crate::specs::Grammar::one_word, crate::specs::Grammar::no_words))]
pub(super) fn queue_said(words: &mut Words) -> Result<Event, ScriptRefusal>
    ensures { Gives (λ event. event) result (one_word (number_of 65535) Event.Queue words.old) }
{
    let capacity = number(words.next_word(), u64::from(u16::MAX))? as u16;
    at_end(words, Event::Queue { capacity })
}

/// All words that are left, as items. After a refused allocation the words are still checked.
fn items(alloc: Global, words: &mut Words) -> Result<Items<u64>, ScriptRefusal>
    ensures { Gives (λ items. items) result (items_of words.old) }
{
    let mut items = Vec::new(alloc);
    let mut count: usize = 0;
    let mut kept = true;
    while !words.is_done() {
        let item = number(words.next_word(), u64::MAX)?;
        count = count.saturating_add(1);
        kept = kept && items.push(item).is_ok();
    }
    if count > MOST_ITEMS {
        return Err(ScriptRefusal::TooMany);
    }
    if !kept {
        return Err(ScriptRefusal::OutOfMemory);
    }
    Ok(Items::new(items))
}

/// `claim c Q items..`
#[tactic(auto, unfolding(crate::specs::Grammar::claim_words))]
pub(super) fn claim_said(
    alloc: Global,
    version: Version,
    words: &mut Words,
) -> Result<Event, ScriptRefusal>
    ensures { Gives (λ event. event) result (claim_words version words.old) }
{
    let call = call(words.next_word())?;
    let queue = queue(version, words.next_word())?;
    let items = items(alloc, words)?;
    Ok(Event::Claim { call, queue, items })
}

/// `raise c Q run i`
#[tactic(auto, unfolding(crate::specs::Grammar::four_words, crate::specs::Grammar::no_words))]
pub(super) fn raise_said(version: Version, words: &mut Words) -> Result<Event, ScriptRefusal>
    ensures { Gives (λ event. event) result (four_words call_of (queue_of version) (number_of u32_max)
        (number_of u32_max) Event.Raise words.old) }
{
    let call = call(words.next_word())?;
    let queue = queue(version, words.next_word())?;
    let run = number_u32(words.next_word())?;
    let index = number_u32(words.next_word())?;
    at_end(
        words,
        Event::Raise {
            call,
            queue,
            run,
            index,
        },
    )
}

/// `take c Q n`
#[tactic(auto, unfolding(crate::specs::Grammar::three_words, crate::specs::Grammar::no_words))]
pub(super) fn take_said(version: Version, words: &mut Words) -> Result<Event, ScriptRefusal>
    ensures { Gives (λ event. event) result (three_words call_of (queue_of version)
        (number_of u32_max) Event.Take words.old) }
{
    let call = call(words.next_word())?;
    let queue = queue(version, words.next_word())?;
    let count = number_u32(words.next_word())?;
    at_end(words, Event::Take { call, queue, count })
}

/// `shut c q`
#[tactic(auto, unfolding(crate::specs::Grammar::two_words, crate::specs::Grammar::no_words))]
pub(super) fn shut_said(words: &mut Words) -> Result<Event, ScriptRefusal>
    ensures { Gives (λ event. event) result (two_words call_of byte_queue_of Event.Shut words.old) }
{
    let call = call(words.next_word())?;
    let queue = byte_queue(words.next_word())?;
    at_end(words, Event::Shut { call, queue })
}
