//! The reading of a line of a list of events.
//!
//! A line is a command and its words. Each command has a function, which reads its words from left to right, so that
//! the first invalid word decides the refusal.

ghost use Rattle.std.specs.Prelude.{◌≡◌, IfErr};
ghost use Rattle.std.specs.List.{list_all};
ghost use Rattle.boot_script.specs.Grammar.{no_more_of, no_words, event_of, line_event, is_printable};
ghost use Rattle.boot_script.specs.Answers.{Gives};

mod chains;
mod meters;
mod queues;
mod threads;

use crate::commands::{Command, version_command};
use crate::event_lines::chains::{chain_said, leave_said, notify_said, round_said};
use crate::event_lines::meters::{advance_said, cancel_said, fire_said, set_said, tick_said};
use crate::event_lines::queues::{claim_said, queue_said, raise_said, shut_said, take_said};
use crate::event_lines::threads::{
    deliver_said, done_said, join_said, off_said, on_said, park_said, signal_said, start_said,
    stop_said, wait_at_said,
};
use crate::fault::ScriptRefusal;
use crate::text::Words;
use crate::version::Version;
use event_theory::Event;
use std::alloc::Global;

/// No word is left; else UnknownWord.
pub(crate) fn no_more(words: &Words) -> Result<(), ScriptRefusal>
    ensures result { result ≡ no_more_of words.now }
    ensures refused { IfErr result (λ refusal. refusal ≡ ScriptRefusal.UnknownWord) }
{
    if words.is_done() {
        Ok(())
    } else {
        Err(ScriptRefusal::UnknownWord)
    }
}

/// The event, if no word is left; else UnknownWord.
#[tactic(auto, unfolding(crate::specs::Grammar::no_words))]
fn at_end(words: &Words, event: Event) -> Result<Event, ScriptRefusal>
    ensures { Gives (λ event. event) result (no_words event words.now) }
{
    no_more(words)?;
    Ok(event)
}

/// The event that a command and the words after it say.
#[tactic(auto, unfolding(crate::specs::Grammar::event_of))]
fn event_said(
    alloc: Global,
    version: Version,
    command: Command,
    words: &mut Words,
) -> Result<Event, ScriptRefusal>
    ensures { Gives (λ event. event) result (event_of version command words.old) }
{
    match command {
        Command::Queue => queue_said(words),
        Command::Chain => chain_said(words),
        Command::Claim => claim_said(alloc, version, words),
        Command::Raise => raise_said(version, words),
        Command::Take => take_said(version, words),
        Command::On => on_said(version, words),
        Command::Off => off_said(version, words),
        Command::Stop => stop_said(version, words),
        Command::Park => park_said(version, words),
        Command::Start => start_said(version, words),
        Command::Signal => signal_said(version, words),
        Command::Deliver => deliver_said(version, words),
        Command::Done => done_said(version, words),
        Command::Notify => notify_said(version, words),
        Command::Round => round_said(words),
        Command::Leave => leave_said(words),
        Command::Tick => tick_said(words),
        Command::Advance => advance_said(words),
        Command::Set => set_said(version, words),
        Command::Fire => fire_said(words),
        Command::Cancel => cancel_said(words),
        Command::Join => join_said(words),
        Command::Shut => shut_said(words),
        Command::WaitAt => wait_at_said(version, words),
    }
}

/// Each byte is 0x20 to 0x7E.
pub(crate) fn is_ascii(line: &[u8]) -> bool
    ensures { result ≡ list_all is_printable line.now }
{
    line.iter().all(|byte| (b' '..=b'~').contains(byte))
}

/// The event that a line says, or why it is refused.
#[tactic(auto, unfolding(crate::specs::Grammar::line_event))]
pub(crate) fn line_said(
    alloc: Global,
    version: Version,
    line: &[u8],
) -> Result<Event, ScriptRefusal>
    ensures { Gives (λ event. event) result (line_event version line.now) }
{
    if !is_ascii(line) {
        return Err(ScriptRefusal::NotAscii);
    }
    let mut words = Words::new(line);
    let command = version_command(version, words.next_word())?;
    event_said(alloc, version, command, &mut words)
}
