//! Lines that declare a pump or a switch.

ghost use Rattle.std.specs.Prelude.{◌≡◌, ℕ, List};
ghost use Rattle.boot_script.specs.Words.{word_at, words_from};
ghost use Rattle.boot_script.specs.Grammar.{three_words};
ghost use Rattle.boot_script.specs.BootNames.{number_named, new_name};
ghost use Rattle.boot_script.specs.BootLines.{AreSeen, key_of, way_of, ways_of, switch_words};

use crate::boot_lines::{Line, at_end};
use crate::declared_names::Names;
use crate::fault::ScriptRefusal;
use crate::text::Words;
use boot_data::Kind;
use boot_data::plan::{Mover, PlannedMover, Way, Ways};

/// `pump NAME FROM TO`
#[tactic(auto, unfolding(crate::specs::Grammar::three_words, crate::specs::Grammar::no_words))]
pub(super) fn pump_said<'a>(names: &Names, words: &mut Words<'a>) -> Result<Line<'a>, ScriptRefusal>
    ensures { result ≡ three_words (new_name names.now) (number_named Kind.Queue names.now)
        (number_named Kind.Queue names.now)
        (λ name from to. Line.Mover (record { name = name; mover = Mover.Pump from to })) words.old }
{
    let name = names.new_name(words.next_word())?;
    let from = names.number(Kind::Queue, words.next_word())?;
    let to = names.number(Kind::Queue, words.next_word())?;
    let mover = Mover::Pump { from, to };
    at_end(words, Line::Mover(PlannedMover { name, mover }))
}

/// The key that a word is, if no way has the key yet. Else BadName, NameTwice.
fn key(seen: &[bool; 256], word: &[u8]) -> Result<u8, ScriptRefusal>
    ensures { (keys : List ℕ) → AreSeen seen.now keys → result ≡ key_of keys word.now }
{
    match word {
        [key] => {
            if seen[usize::from(*key)] {
                Err(ScriptRefusal::NameTwice)
            } else {
                Ok(*key)
            }
        }
        _ => Err(ScriptRefusal::BadName),
    }
}

/// A way: its key, and the queue to which its lines go.
fn way(names: &Names, seen: &[bool; 256], words: &mut Words) -> Result<Way, ScriptRefusal>
    ensures said { (keys : List ℕ) → AreSeen seen.now keys
        → result ≡ way_of names.now keys (word_at 0 words.old) (word_at 1 words.old) }
    ensures rest { words.new ≡ words_from 2 words.old }
{
    let first = words.next_word();
    let second = words.next_word();
    let key = key(seen, first)?;
    let to = names.number(Kind::Queue, second)?;
    Ok(Way { key, to })
}

/// The ways of a switch, at least one. All of them are read before they are counted.
fn ways(names: &Names, words: &mut Words) -> Result<Ways, ScriptRefusal>
    ensures { result ≡ ways_of names.now words.old }
{
    if words.is_done() {
        return Err(ScriptRefusal::BadName);
    }
    let mut ways = Ways::new();
    let mut seen = [false; 256];
    let mut fits = true;
    while !words.is_done() {
        match way(names, &seen, words) {
            Ok(way) => {
                seen[usize::from(way.key)] = true;
                fits = ways.push(way) && fits;
            }
            Err(refusal) => return Err(refusal),
        }
    }
    if fits {
        Ok(ways)
    } else {
        Err(ScriptRefusal::TooMany)
    }
}

/// `switch NAME FROM OTHER KEY TO ..`
#[tactic(auto, unfolding(crate::specs::BootLines::switch_words))]
pub(super) fn switch_said<'a>(
    names: &Names,
    words: &mut Words<'a>,
) -> Result<Line<'a>, ScriptRefusal>
    ensures { result ≡ switch_words names.now words.old }
{
    let name = names.new_name(words.next_word())?;
    let from = names.number(Kind::Queue, words.next_word())?;
    let other = names.number(Kind::Queue, words.next_word())?;
    let ways = ways(names, words)?;
    let mover = Mover::Switch { from, other, ways };
    Ok(Line::Mover(PlannedMover { name, mover }))
}
