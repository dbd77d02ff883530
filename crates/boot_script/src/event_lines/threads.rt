//! Lines on thread elements and processors.

ghost use Rattle.boot_script.specs.Words.{number_of};
ghost use Rattle.boot_script.specs.Names.{call_of, element_of, processor_of, signal_of, wait_of};
ghost use Rattle.boot_script.specs.Grammar.{four_words, three_words, two_words};
ghost use Rattle.boot_script.specs.Answers.{Gives};
ghost use Rattle.event_theory.specs.Numbers.{u32_max};

use crate::event_lines::at_end;
use crate::fault::ScriptRefusal;
use crate::names::{call, element, processor, signal, wait};
use crate::text::{Words, number_u32};
use crate::version::Version;
use event_theory::Event;

/// `on c p e`
#[tactic(auto, unfolding(crate::specs::Grammar::three_words, crate::specs::Grammar::no_words))]
pub(super) fn on_said(version: Version, words: &mut Words) -> Result<Event, ScriptRefusal>
    ensures { Gives (λ event. event) result (three_words call_of (processor_of version)
        (element_of version) Event.On words.old) }
{
    let call = call(words.next_word())?;
    let processor = processor(version, words.next_word())?;
    let element = element(version, words.next_word())?;
    at_end(
        words,
        Event::On {
            call,
            processor,
            element,
        },
    )
}

/// `off c p`
#[tactic(auto, unfolding(crate::specs::Grammar::two_words, crate::specs::Grammar::no_words))]
pub(super) fn off_said(version: Version, words: &mut Words) -> Result<Event, ScriptRefusal>
    ensures { Gives (λ event. event) result (two_words call_of (processor_of version) Event.Off words.old) }
{
    let call = call(words.next_word())?;
    let processor = processor(version, words.next_word())?;
    at_end(words, Event::Off { call, processor })
}

/// `stop c e`
#[tactic(auto, unfolding(crate::specs::Grammar::two_words, crate::specs::Grammar::no_words))]
pub(super) fn stop_said(version: Version, words: &mut Words) -> Result<Event, ScriptRefusal>
    ensures { Gives (λ event. event) result (two_words call_of (element_of version) Event.Stop words.old) }
{
    let call = call(words.next_word())?;
    let element = element(version, words.next_word())?;
    at_end(words, Event::Stop { call, element })
}

/// `park c e`
#[tactic(auto, unfolding(crate::specs::Grammar::two_words, crate::specs::Grammar::no_words))]
pub(super) fn park_said(version: Version, words: &mut Words) -> Result<Event, ScriptRefusal>
    ensures { Gives (λ event. event) result (two_words call_of (element_of version) Event.Park words.old) }
{
    let call = call(words.next_word())?;
    let element = element(version, words.next_word())?;
    at_end(words, Event::Park { call, element })
}

/// `start c e`
#[tactic(auto, unfolding(crate::specs::Grammar::two_words, crate::specs::Grammar::no_words))]
pub(super) fn start_said(version: Version, words: &mut Words) -> Result<Event, ScriptRefusal>
    ensures { Gives (λ event. event) result (two_words call_of (element_of version) Event.Start words.old) }
{
    let call = call(words.next_word())?;
    let element = element(version, words.next_word())?;
    at_end(words, Event::Start { call, element })
}

/// `signal c e s`
#[tactic(auto, unfolding(crate::specs::Grammar::three_words, crate::specs::Grammar::no_words))]
pub(super) fn signal_said(version: Version, words: &mut Words) -> Result<Event, ScriptRefusal>
    ensures { Gives (λ event. event) result (three_words call_of
        (element_of version) signal_of Event.Signal words.old) }
{
    let call = call(words.next_word())?;
    let element = element(version, words.next_word())?;
    let signal = signal(words.next_word())?;
    at_end(
        words,
        Event::Signal {
            call,
            element,
            signal,
        },
    )
}

/// `deliver c e`
#[tactic(auto, unfolding(crate::specs::Grammar::two_words, crate::specs::Grammar::no_words))]
pub(super) fn deliver_said(version: Version, words: &mut Words) -> Result<Event, ScriptRefusal>
    ensures { Gives (λ event. event) result (two_words call_of (element_of version) Event.Deliver words.old) }
{
    let call = call(words.next_word())?;
    let element = element(version, words.next_word())?;
    at_end(words, Event::Deliver { call, element })
}

/// `done c e`
#[tactic(auto, unfolding(crate::specs::Grammar::two_words, crate::specs::Grammar::no_words))]
pub(super) fn done_said(version: Version, words: &mut Words) -> Result<Event, ScriptRefusal>
    ensures { Gives (λ event. event) result (two_words call_of (element_of version) Event.Done words.old) }
{
    let call = call(words.next_word())?;
    let element = element(version, words.next_word())?;
    at_end(words, Event::Done { call, element })
}

/// `waitat c w e T`
#[tactic(auto, unfolding(crate::specs::Grammar::four_words, crate::specs::Grammar::no_words))]
pub(super) fn wait_at_said(version: Version, words: &mut Words) -> Result<Event, ScriptRefusal>
    ensures { Gives (λ event. event) result (four_words call_of (wait_of version) (element_of version)
        (number_of u32_max) Event.WaitAt words.old) }
{
    let call = call(words.next_word())?;
    let wait = wait(version, words.next_word())?;
    let element = element(version, words.next_word())?;
    let ticket = number_u32(words.next_word())?;
    at_end(
        words,
        Event::WaitAt {
            call,
            wait,
            element,
            ticket,
        },
    )
}

/// `join c d`
#[tactic(auto, unfolding(crate::specs::Grammar::two_words, crate::specs::Grammar::no_words))]
pub(super) fn join_said(words: &mut Words) -> Result<Event, ScriptRefusal>
    ensures { Gives (λ event. event) result (two_words call_of call_of Event.Join words.old) }
{
    let (call, other) = (call(words.next_word())?, call(words.next_word())?);
    at_end(words, Event::Join { call, other })
}
