//! Lines on gauges, the clock and alarms.

ghost use Rattle.boot_script.specs.Words.{number_of};
ghost use Rattle.boot_script.specs.Names.{call_of, element_of, gauge_of, signal_of, slot_of};
ghost use Rattle.boot_script.specs.Grammar.{four_words, one_word, three_words, two_words};
ghost use Rattle.boot_script.specs.Answers.{Gives};
ghost use Rattle.event_theory.specs.Numbers.{u32_max, u64_max};

use crate::event_lines::at_end;
use crate::fault::ScriptRefusal;
use crate::names::{call, element, gauge, signal, slot};
use crate::text::{Words, number, number_u32};
use crate::version::Version;
use event_theory::Event;

/// `tick c g n`
#[tactic(auto, unfolding(crate::specs::Grammar::three_words, crate::specs::Grammar::no_words))]
pub(super) fn tick_said(words: &mut Words) -> Result<Event, ScriptRefusal>
    ensures { Gives (λ event. event) result (three_words call_of gauge_of
        (number_of u64_max) Event.Tick words.old) }
{
    let call = call(words.next_word())?;
    let gauge = gauge(words.next_word())?;
    let amount = number(words.next_word(), u64::MAX)?;
    at_end(
        words,
        Event::Tick {
            call,
            gauge,
            amount,
        },
    )
}

/// `advance c`
#[tactic(auto, unfolding(crate::specs::Grammar::one_word, crate::specs::Grammar::no_words))]
pub(super) fn advance_said(words: &mut Words) -> Result<Event, ScriptRefusal>
    ensures { Gives (λ event. event) result (one_word call_of Event.Advance words.old) }
{
    let call = call(words.next_word())?;
    at_end(words, Event::Advance { call })
}

/// `set c due e s`
#[tactic(auto, unfolding(crate::specs::Grammar::four_words, crate::specs::Grammar::no_words))]
pub(super) fn set_said(version: Version, words: &mut Words) -> Result<Event, ScriptRefusal>
    ensures { Gives (λ event. event) result (four_words call_of (number_of u32_max)
        (element_of version) signal_of Event.Set words.old) }
{
    let call = call(words.next_word())?;
    let due = number_u32(words.next_word())?;
    let element = element(version, words.next_word())?;
    let signal = signal(words.next_word())?;
    at_end(
        words,
        Event::Set {
            call,
            due,
            element,
            signal,
        },
    )
}

/// `fire c slot`
#[tactic(auto, unfolding(crate::specs::Grammar::two_words, crate::specs::Grammar::no_words))]
pub(super) fn fire_said(words: &mut Words) -> Result<Event, ScriptRefusal>
    ensures { Gives (λ event. event) result (two_words call_of slot_of Event.Fire words.old) }
{
    let call = call(words.next_word())?;
    let slot = slot(words.next_word())?;
    at_end(words, Event::Fire { call, slot })
}

/// `cancel c slot`
#[tactic(auto, unfolding(crate::specs::Grammar::two_words, crate::specs::Grammar::no_words))]
pub(super) fn cancel_said(words: &mut Words) -> Result<Event, ScriptRefusal>
    ensures { Gives (λ event. event) result (two_words call_of slot_of Event.Cancel words.old) }
{
    let call = call(words.next_word())?;
    let slot = slot(words.next_word())?;
    at_end(words, Event::Cancel { call, slot })
}
