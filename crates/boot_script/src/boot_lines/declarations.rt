//! Lines that declare a queue, a tty, a gauge, an alarm or a thread.

ghost use Rattle.std.specs.Prelude.{◌≡◌, None, Some};
ghost use Rattle.event_theory.specs.Numbers.{u32_max};
ghost use Rattle.boot_script.specs.Words.{number_of};
ghost use Rattle.boot_script.specs.Names.{signal_of};
ghost use Rattle.boot_script.specs.Versions.{last_wait};
ghost use Rattle.boot_script.specs.Grammar.{one_word, three_words};
ghost use Rattle.boot_script.specs.BootNames.{number_named, new_name};
ghost use Rattle.boot_script.specs.BootLines.{type_words};
ghost use Rattle.boot_data.specs.declared.kind.Kind.TheVariants as kind;

use crate::boot_lines::{Line, at_end};
use crate::declared_names::Names;
use crate::fault::ScriptRefusal;
use crate::names::{signal, wait_number};
use crate::text::{Words, number_u32};
use crate::unescaping::typed_said;
use crate::version::Version;
use boot_data::plan::{PipeWaits, PlannedQueue};
use event_theory::Alarm;

/// `queue NAME`
#[tactic(auto, unfolding(crate::specs::Grammar::one_word, crate::specs::Grammar::no_words))]
pub(super) fn queue_said<'a>(
    names: &Names,
    words: &mut Words<'a>,
) -> Result<Line<'a>, ScriptRefusal>
    ensures { result ≡ one_word (new_name names.now)
        (λ name. Line.Queue (record { name = name; waits = None })) words.old }
{
    let name = names.new_name(words.next_word())?;
    at_end(words, Line::Queue(PlannedQueue { name, waits: None }))
}

/// `pipe NAME R W`
#[tactic(auto, unfolding(crate::specs::Grammar::three_words, crate::specs::Grammar::no_words))]
pub(super) fn pipe_said<'a>(
    version: Version,
    names: &Names,
    words: &mut Words<'a>,
) -> Result<Line<'a>, ScriptRefusal>
    ensures { result ≡ three_words (new_name names.now) (number_of (last_wait version)) (number_of (last_wait version))
        (λ name readers writers.
        Line.Queue (record { name = name; waits = Some (record { readers = readers; writers = writers }) }))
        words.old }
{
    let name = names.new_name(words.next_word())?;
    let readers = wait_number(version, words.next_word())?;
    let writers = wait_number(version, words.next_word())?;
    let waits = Some(PipeWaits { readers, writers });
    at_end(words, Line::Queue(PlannedQueue { name, waits }))
}

/// `tty NAME`
#[tactic(auto, unfolding(crate::specs::Grammar::one_word, crate::specs::Grammar::no_words))]
pub(super) fn tty_said<'a>(names: &Names, words: &mut Words<'a>) -> Result<Line<'a>, ScriptRefusal>
    ensures { result ≡ one_word (new_name names.now) Line.Tty words.old }
{
    let name = names.new_name(words.next_word())?;
    at_end(words, Line::Tty(name))
}

/// `type TTY TEXT`
#[tactic(auto, unfolding(crate::specs::BootLines::type_words))]
pub(super) fn type_said<'a>(names: &Names, words: &mut Words<'a>) -> Result<Line<'a>, ScriptRefusal>
    ensures { result ≡ type_words names.now words.old }
{
    let tty = names.tty(words.next_word())?;
    let text = typed_said(words)?;
    Ok(Line::Types { tty, text })
}

/// `gauge NAME`
#[tactic(auto, unfolding(crate::specs::Grammar::one_word, crate::specs::Grammar::no_words))]
pub(super) fn gauge_said<'a>(
    names: &Names,
    words: &mut Words<'a>,
) -> Result<Line<'a>, ScriptRefusal>
    ensures { result ≡ one_word (new_name names.now) Line.Gauge words.old }
{
    let name = names.new_name(words.next_word())?;
    at_end(words, Line::Gauge(name))
}

/// `alarm TICK THREAD S`
#[tactic(auto, unfolding(crate::specs::Grammar::three_words, crate::specs::Grammar::no_words))]
pub(super) fn alarm_said<'a>(
    names: &Names,
    words: &mut Words<'a>,
) -> Result<Line<'a>, ScriptRefusal>
    ensures { result ≡ three_words (number_of u32_max) (number_named kind.Thread names.now) signal_of
        (λ due thread signal. Line.Alarm (record { due = due; element = thread; signal = signal })) words.old }
{
    let due = number_u32(words.next_word())?;
    let element = names.thread(words.next_word())?;
    let signal = signal(words.next_word())?;
    at_end(
        words,
        Line::Alarm(Alarm {
            due,
            element,
            signal,
        }),
    )
}

/// `thread NAME`
#[tactic(auto, unfolding(crate::specs::Grammar::one_word, crate::specs::Grammar::no_words))]
pub(super) fn thread_said<'a>(
    names: &Names,
    words: &mut Words<'a>,
) -> Result<Line<'a>, ScriptRefusal>
    ensures { result ≡ one_word (new_name names.now) Line.Thread words.old }
{
    let name = names.new_name(words.next_word())?;
    at_end(words, Line::Thread(name))
}

/// `more THREAD`
#[tactic(auto, unfolding(crate::specs::Grammar::one_word, crate::specs::Grammar::no_words))]
pub(super) fn more_said<'a>(names: &Names, words: &mut Words<'a>) -> Result<Line<'a>, ScriptRefusal>
    ensures { result ≡ one_word (number_named kind.Thread names.now) Line.More words.old }
{
    let thread = names.thread(words.next_word())?;
    at_end(words, Line::More(thread))
}
