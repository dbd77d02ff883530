//! The reading of a line of a boot script.
//!
//! A line is a word and the words after it. Each word has a function, which reads the later words from left to right,
//! so that the first invalid one decides the refusal. One fault can be found only after all words: there is no room for
//! one more. It is returned when the line is added to the plan.

ghost use Rattle.std.specs.Prelude.{◌≡◌, true};
ghost use Rattle.std.specs.List.{list_all};
ghost use Rattle.boot_script.specs.BootLines.{line_of, boot_line};
ghost use Rattle.boot_script.specs.Grammar.{no_words, is_printable};

mod declarations;
mod movers;
mod steps;

use crate::boot_lines::declarations::{
    alarm_said, gauge_said, more_said, pipe_said, queue_said, thread_said, tty_said, type_said,
};
use crate::boot_lines::movers::{pump_said, switch_said};
use crate::boot_lines::steps::{
    close_said, hear_said, pass_said, poke_said, say_said, signal_said, start_said, stop_said,
    tick_said, wait_said, wake_said,
};
use crate::boot_words::{BootWord, line_word};
use crate::declared_names::{Names, TtyNumber};
use crate::event_lines::{is_ascii, no_more};
use crate::fault::ScriptRefusal;
use crate::text::Words;
use crate::unescaping::Typed;
use crate::version::Version;
use boot_data::Name;
use boot_data::plan::{PlannedMover, PlannedQueue, Step};
use event_theory::{Alarm, Element};

/// A declaration, or a step.
#[derive(Drop)]
pub(crate) enum Line<'a> {
    /// A queue or pipe.
    Queue(PlannedQueue),
    Tty(Name),
    /// The text that the device of a tty types.
    Types { tty: TtyNumber, text: Typed<'a> },
    /// A pump or switch.
    Mover(PlannedMover),
    Gauge(Name),
    Alarm(Alarm),
    Thread(Name),
    /// This thread becomes the current one again: its program gets the next steps.
    More(Element),
    Step(Step),
}

/// The line, if no word is left; else UnknownWord.
#[tactic(auto, unfolding(crate::specs::Grammar::no_words))]
fn at_end<'a>(words: &Words<'a>, said: Line<'a>) -> Result<Line<'a>, ScriptRefusal>
    ensures { result ≡ no_words said.entry words.now }
{
    no_more(words)?;
    Ok(said)
}

/// The line that a word and the words after it say.
#[tactic(auto, unfolding(crate::specs::BootLines::line_of))]
fn word_said<'a>(
    version: Version,
    names: &Names,
    word: BootWord,
    words: &mut Words<'a>,
) -> Result<Line<'a>, ScriptRefusal>
    ensures { result ≡ line_of version names.now word words.old }
{
    match word {
        BootWord::Queue => queue_said(names, words),
        BootWord::Pipe => pipe_said(version, names, words),
        BootWord::Tty => tty_said(names, words),
        BootWord::Types => type_said(names, words),
        BootWord::Pump => pump_said(names, words),
        BootWord::Switch => switch_said(names, words),
        BootWord::Gauge => gauge_said(names, words),
        BootWord::Alarm => alarm_said(names, words),
        BootWord::Thread => thread_said(names, words),
        BootWord::More => more_said(names, words),
        BootWord::Say => say_said(names, words),
        BootWord::Hear => hear_said(names, words),
        BootWord::Wait => wait_said(version, words),
        BootWord::Wake => wake_said(version, words),
        BootWord::Signal => signal_said(names, words),
        BootWord::Stop => stop_said(names, words),
        BootWord::Start => start_said(names, words),
        BootWord::Tick => tick_said(names, words),
        BootWord::Poke => poke_said(names, words),
        BootWord::Pass => pass_said(words),
        BootWord::Close => close_said(names, words),
    }
}

/// Whether each byte of a line is printable. `seen` is whether that is known already.
fn is_all_ascii(seen: bool, line: &[u8]) -> bool
    requires { seen ≡ true → list_all is_printable line.now ≡ true }
    ensures { result ≡ list_all is_printable line.now }
{
    if seen {
        return true;
    }
    is_ascii(line)
}

/// The line that a text line says, or why it is refused. `going` is whether there is a current thread, whose program
/// gets the next step. If `seen` is true, each byte is known to be printable.
#[tactic(auto, unfolding(crate::specs::BootLines::boot_line))]
pub(crate) fn line_said<'a>(
    version: Version,
    names: &Names,
    going: bool,
    seen: bool,
    line: &'a [u8],
) -> Result<Line<'a>, ScriptRefusal>
    requires { seen ≡ true → list_all is_printable line.now ≡ true }
    ensures { result ≡ boot_line version names.now going line.now }
{
    if !is_all_ascii(seen, line) {
        return Err(ScriptRefusal::NotAscii);
    }
    let mut words = Words::new(line);
    let word = line_word(version, going, words.next_word())?;
    word_said(version, names, word, &mut words)
}
