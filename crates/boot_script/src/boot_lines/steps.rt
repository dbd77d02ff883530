//! Lines that are steps of a thread's program.

ghost use Rattle.std.specs.Prelude.{◌≡◌, true};
ghost use Rattle.event_theory.specs.Numbers.{u64_max};
ghost use Rattle.boot_script.specs.Words.{number_of};
ghost use Rattle.boot_script.specs.Names.{signal_of};
ghost use Rattle.boot_script.specs.Versions.{last_wait};
ghost use Rattle.boot_script.specs.Grammar.{no_words, one_word, two_words};
ghost use Rattle.boot_script.specs.BootNames.{number_named, queue_named};
ghost use Rattle.boot_script.specs.BootLines.{say_words};

use crate::boot_lines::{Line, at_end};
use crate::declared_names::Names;
use crate::fault::ScriptRefusal;
use crate::names::{signal, wait_number};
use crate::text::{Words, number};
use crate::unescaping::text_said;
use crate::version::Version;
use boot_data::Kind;
use boot_data::plan::Step;

/// `say Q TEXT`
#[tactic(auto, unfolding(crate::specs::BootLines::say_words))]
pub(super) fn say_said<'a>(names: &Names, words: &mut Words<'a>) -> Result<Line<'a>, ScriptRefusal>
    ensures { result ≡ say_words names.now words.old }
{
    let queue = names.queue(false, words.next_word())?;
    let text = text_said(words)?;
    Ok(Line::Step(Step::Say { queue, text }))
}

/// `hear Q`
#[tactic(auto, unfolding(crate::specs::Grammar::one_word, crate::specs::Grammar::no_words))]
pub(super) fn hear_said<'a>(names: &Names, words: &mut Words<'a>) -> Result<Line<'a>, ScriptRefusal>
    ensures { result ≡ one_word (queue_named true names.now) (λ queue. Line.Step (Step.Hear queue)) words.old }
{
    let queue = names.queue(true, words.next_word())?;
    at_end(words, Line::Step(Step::Hear { queue }))
}

/// `wait W`
#[tactic(auto, unfolding(crate::specs::Grammar::one_word, crate::specs::Grammar::no_words))]
pub(super) fn wait_said<'a>(
    version: Version,
    words: &mut Words<'a>,
) -> Result<Line<'a>, ScriptRefusal>
    ensures { result ≡ one_word (number_of (last_wait version)) (λ wait. Line.Step (Step.Wait wait)) words.old }
{
    let wait = wait_number(version, words.next_word())?;
    at_end(words, Line::Step(Step::Wait { wait }))
}

/// `wake W`
#[tactic(auto, unfolding(crate::specs::Grammar::one_word, crate::specs::Grammar::no_words))]
pub(super) fn wake_said<'a>(
    version: Version,
    words: &mut Words<'a>,
) -> Result<Line<'a>, ScriptRefusal>
    ensures { result ≡ one_word (number_of (last_wait version)) (λ wait. Line.Step (Step.Wake wait)) words.old }
{
    let wait = wait_number(version, words.next_word())?;
    at_end(words, Line::Step(Step::Wake { wait }))
}

/// `signal THREAD S`
#[tactic(auto, unfolding(crate::specs::Grammar::two_words, crate::specs::Grammar::no_words))]
pub(super) fn signal_said<'a>(
    names: &Names,
    words: &mut Words<'a>,
) -> Result<Line<'a>, ScriptRefusal>
    ensures { result ≡ two_words (number_named Kind.Thread names.now) signal_of
        (λ thread signal. Line.Step (Step.Signal thread signal)) words.old }
{
    let thread = names.thread(words.next_word())?;
    let signal = signal(words.next_word())?;
    at_end(words, Line::Step(Step::Signal { thread, signal }))
}

/// `stop THREAD`
#[tactic(auto, unfolding(crate::specs::Grammar::one_word, crate::specs::Grammar::no_words))]
pub(super) fn stop_said<'a>(names: &Names, words: &mut Words<'a>) -> Result<Line<'a>, ScriptRefusal>
    ensures { result ≡ one_word (number_named Kind.Thread names.now) (λ thread. Line.Step (Step.Stop thread))
        words.old }
{
    let thread = names.thread(words.next_word())?;
    at_end(words, Line::Step(Step::Stop { thread }))
}

/// `start THREAD`
#[tactic(auto, unfolding(crate::specs::Grammar::one_word, crate::specs::Grammar::no_words))]
pub(super) fn start_said<'a>(
    names: &Names,
    words: &mut Words<'a>,
) -> Result<Line<'a>, ScriptRefusal>
    ensures { result ≡ one_word (number_named Kind.Thread names.now) (λ thread. Line.Step (Step.Start thread))
        words.old }
{
    let thread = names.thread(words.next_word())?;
    at_end(words, Line::Step(Step::Start { thread }))
}

/// `tick GAUGE N`
#[tactic(auto, unfolding(crate::specs::Grammar::two_words, crate::specs::Grammar::no_words))]
pub(super) fn tick_said<'a>(names: &Names, words: &mut Words<'a>) -> Result<Line<'a>, ScriptRefusal>
    ensures { result ≡ two_words (number_named Kind.Gauge names.now) (number_of u64_max)
        (λ gauge amount. Line.Step (Step.Tick gauge amount)) words.old }
{
    let gauge = names.gauge(words.next_word())?;
    let amount = number(words.next_word(), u64::MAX)?;
    at_end(words, Line::Step(Step::Tick { gauge, amount }))
}

/// `poke NAME`
#[tactic(auto, unfolding(crate::specs::Grammar::one_word, crate::specs::Grammar::no_words))]
pub(super) fn poke_said<'a>(names: &Names, words: &mut Words<'a>) -> Result<Line<'a>, ScriptRefusal>
    ensures { result ≡ one_word (number_named Kind.Mover names.now) (λ mover. Line.Step (Step.Poke mover)) words.old }
{
    let mover = names.number(Kind::Mover, words.next_word())?;
    at_end(words, Line::Step(Step::Poke { mover }))
}

/// `pass`
pub(super) fn pass_said<'a>(words: &mut Words<'a>) -> Result<Line<'a>, ScriptRefusal>
    ensures { result ≡ no_words (Line.Step Step.Pass) words.old }
{
    at_end(words, Line::Step(Step::Pass))
}

/// `close Q`
#[tactic(auto, unfolding(crate::specs::Grammar::one_word, crate::specs::Grammar::no_words))]
pub(super) fn close_said<'a>(
    names: &Names,
    words: &mut Words<'a>,
) -> Result<Line<'a>, ScriptRefusal>
    ensures { result ≡ one_word (number_named Kind.Queue names.now) (λ queue. Line.Step (Step.Close queue)) words.old }
{
    let queue = names.number(Kind::Queue, words.next_word())?;
    at_end(words, Line::Step(Step::Close { queue }))
}
