//! Lines on chains, and notifies.

ghost use Rattle.boot_script.specs.Names.{call_of, chain_of, listener_of};
ghost use Rattle.boot_script.specs.Grammar.{no_words, notify_event, two_words};
ghost use Rattle.boot_script.specs.Answers.{Gives};

use crate::event_lines::at_end;
use crate::fault::ScriptRefusal;
use crate::names::{Listener, call, chain, notify_listener};
use crate::text::Words;
use crate::version::Version;
use event_theory::Event;

/// `chain`
pub(super) fn chain_said(words: &mut Words) -> Result<Event, ScriptRefusal>
    ensures { Gives (λ event. event) result (no_words Event.Chain words.old) }
{
    at_end(words, Event::Chain)
}

/// `notify c k`, and from the second version on `notify c w`
#[tactic(auto, unfolding(crate::specs::Grammar::two_words, crate::specs::Grammar::no_words))]
pub(super) fn notify_said(version: Version, words: &mut Words) -> Result<Event, ScriptRefusal>
    ensures { Gives (λ event. event) result (two_words call_of (listener_of version) notify_event words.old) }
{
    let call = call(words.next_word())?;
    let listener = notify_listener(version, words.next_word())?;
    let event = match listener {
        Listener::Chain(chain) => Event::Notify { call, chain },
        Listener::Wait(wait) => Event::NotifyWait { call, wait },
    };
    at_end(words, event)
}

/// `round c k`
#[tactic(auto, unfolding(crate::specs::Grammar::two_words, crate::specs::Grammar::no_words))]
pub(super) fn round_said(words: &mut Words) -> Result<Event, ScriptRefusal>
    ensures { Gives (λ event. event) result (two_words call_of chain_of Event.Round words.old) }
{
    let call = call(words.next_word())?;
    let chain = chain(words.next_word())?;
    at_end(words, Event::Round { call, chain })
}

/// `leave c k`
#[tactic(auto, unfolding(crate::specs::Grammar::two_words, crate::specs::Grammar::no_words))]
pub(super) fn leave_said(words: &mut Words) -> Result<Event, ScriptRefusal>
    ensures { Gives (λ event. event) result (two_words call_of chain_of Event.Leave words.old) }
{
    let call = call(words.next_word())?;
    let chain = chain(words.next_word())?;
    at_end(words, Event::Leave { call, chain })
}
