//! Lines, words and numbers: the parts of each script, whatever its words mean.
//!
//! A line ends with 0x0A, words are separated by one space, and a number is the word that prints as its own value.

ghost use Rattle.std.specs.Prelude.{◌≡◌, ◌∷◌, ◌<◌, ◌↔◌, ◌==◌, IsTrue, [], position, ◌≤◌, IfOk, IfErr, length, IfSome};
ghost use Rattle.std.specs.Prelude.{IfNone, not, true};
ghost use Rattle.std.specs.List.{join_with_byte, list_all};
ghost use Rattle.std.specs.Option.{option_copied};
ghost use Rattle.std.specs.Str.{bytes_eq};
ghost use Rattle.event_theory.specs.Numbers.{u32_max};
ghost use Rattle.boot_script.specs.Grammar.{is_printable};
ghost use Rattle.boot_script.specs.Words.{pieces, pieces_left, first_word, later_words, words_of, number_of, lines_of};

use crate::fault::ScriptRefusal;
use std::marker::Model;

/// The place of the first separator.
fn place_of(bytes: &[u8], separator: u8) -> Option<usize>
    ensures { result ≡ position (λ b. b == separator) bytes.now }
{
    bytes.iter().position(|b| *b == separator)
}

/// The bytes before the first separator, and the bytes after it if there is one.
#[tactic(auto, using(crate::proofs::Basics::Cuts::cut_at, crate::proofs::Basics::Cuts::cut_nowhere))]
pub(crate) fn cut(bytes: &[u8], separator: u8) -> (&[u8], Option<&[u8]>)
    ensures pieces { pieces separator bytes.now ≡ result.0.now ∷ pieces_left separator (option_copied result.1) }
    ensures shorter { IfSome result.1 (λ rest. length rest.now < length bytes.now) }
    ensures whole { IfNone result.1 (result.0.now ≡ bytes.now) }
{
    match place_of(bytes, separator) {
        Some(at) => (&bytes[..at], Some(&bytes[at + 1..])),
        None => (bytes, None),
    }
}

/// Whether two words are the same. They are compared from their ends on, as most names differ there.
pub(crate) fn same_word(one: &[u8], other: &[u8]) -> bool
    ensures { result ≡ bytes_eq one.now other.now }
{
    if one.len() != other.len() {
        return false;
    }
    let mut left = one.len();
    while left > 0 {
        left -= 1;
        if one[left] != other[left] {
            return false;
        }
    }
    true
}

/// The words of a line that are still to be read. Contracts see their list.
#[derive(Drop)]
pub(crate) struct Words<'a> {
    rest: Option<&'a [u8]>,
}

impl<'a> Model for Words<'a> {
    ghost use Rattle.std.specs.Prelude.{ℕ, List};
    ghost use Rattle.std.specs.Option.{option_copied};
    ghost use Rattle.boot_script.specs.Words.{pieces_left};

    ghost Value = { List (List ℕ) };

    ghost view = { λ words. pieces_left 32 (option_copied words.rest) };
}

impl<'a> Words<'a> {
    /// All words of a line.
    pub(crate) fn new(line: &'a [u8]) -> Self
        ensures { result ≡ words_of line.now }
    {
        Words { rest: Some(line) }
    }

    /// The next word; a missing word is empty.
    pub(crate) fn next_word(&mut self) -> &'a [u8]
        ensures word { result.now ≡ first_word self.old }
        ensures rest { self.new ≡ later_words self.old }
    {
        match self.rest {
            None => &[],
            Some(bytes) => {
                let (word, rest) = cut(bytes, b' ');
                self.rest = rest;
                word
            }
        }
    }

    /// The words that are left, with the spaces between them.
    pub(crate) fn text(&self) -> &'a [u8]
        ensures { result.now ≡ join_with_byte 32 self.now }
    {
        match self.rest {
            None => &[],
            Some(bytes) => bytes,
        }
    }

    /// The same words, to be read again.
    pub(crate) fn same(&self) -> Self
        ensures { result ≡ self.now }
    {
        Words { rest: self.rest }
    }

    /// Whether no word is left.
    #[tactic(auto, using(crate::proofs::Basics::Cuts::some_pieces))]
    pub(crate) fn is_done(&self) -> bool
        ensures { IsTrue result ↔ (self.now ≡ []) }
    {
        self.rest.is_none()
    }
}

/// The number that a word of a script spells, at most `most`, with no sign and no leading zero. Else `BadNumber`.
pub fn number(word: &[u8], most: u64) -> Result<u64, ScriptRefusal>
    ensures result { result ≡ number_of most word.now }
    ensures within { IfOk result (λ n. n ≤ most) }
    ensures refused { IfErr result (λ refusal. refusal ≡ ScriptRefusal.BadNumber) }
{
    if word.is_empty() {
        return Err(ScriptRefusal::BadNumber);
    }
    if word[0] == b'0' && word.len() > 1 {
        return Err(ScriptRefusal::BadNumber);
    }
    let mut value: u64 = 0;
    for byte in word {
        if !byte.is_ascii_digit() {
            return Err(ScriptRefusal::BadNumber);
        }
        let digit = u64::from(*byte - b'0');
        let Some(tens) = value.checked_mul(10) else {
            return Err(ScriptRefusal::BadNumber);
        };
        let Some(next) = tens.checked_add(digit) else {
            return Err(ScriptRefusal::BadNumber);
        };
        value = next;
    }
    if most < value {
        return Err(ScriptRefusal::BadNumber);
    }
    Ok(value)
}

/// The number that a word spells, at most 32 bits. Else `BadNumber`.
pub(crate) fn number_u32(word: &[u8]) -> Result<u32, ScriptRefusal>
    ensures result { result ≡ number_of u32_max word.now }
    ensures refused { IfErr result (λ refusal. refusal ≡ ScriptRefusal.BadNumber) }
{
    Ok(number(word, u64::from(u32::MAX))? as u32)
}

/// The first line, and the text after its end.
#[tactic(auto, using(crate::proofs::Basics::Cuts::one_line, crate::proofs::Basics::Cuts::last_line))]
pub(crate) fn first_line(text: &[u8]) -> (&[u8], &[u8])
    requires { 0 < length text.now }
    ensures lines { lines_of text.now ≡ result.0.now ∷ lines_of result.1.now }
    ensures shorter { length result.1.now < length text.now }
{
    match cut(text, b'\n') {
        (line, None) => (line, &[]),
        (line, Some(rest)) => (line, rest),
    }
}

/// Whether a byte of a line is one of 0x20 to 0x7E, which the end of a line is not.
fn is_printable(byte: u8) -> bool
    ensures { result ≡ is_printable byte }
{
    (b' '..=b'~').contains(&byte)
}

/// The place of the first byte that isn't printable.
fn place_of_other(text: &[u8]) -> Option<usize>
    ensures { result ≡ position (λ b. not (is_printable b)) text.now }
{
    text.iter().position(|b| !is_printable(*b))
}

/// The first line, the text after its end, and whether each byte of the line was seen to be printable. Most lines are
/// printable, and then one pass over the bytes also finds the end of the line.
#[tactic(auto, using(crate::proofs::Basics::Seen::line_seen, crate::proofs::Basics::Seen::text_seen, crate::proofs::Basics::Seen::ended_line, crate::proofs::Basics::Seen::only_line))]
pub(crate) fn seen_line(text: &[u8]) -> (&[u8], &[u8], bool)
    requires { 0 < length text.now }
    ensures lines { lines_of text.now ≡ result.0.now ∷ lines_of result.1.now }
    ensures shorter { length result.1.now < length text.now }
    ensures seen { result.2 ≡ true → list_all is_printable result.0.now ≡ true }
{
    match place_of_other(text) {
        Some(at) => {
            if text[at] == b'\n' {
                return (&text[..at], &text[at + 1..], true);
            }
        }
        None => return (text, &[], true),
    }
    let (line, rest) = first_line(text);
    (line, rest, false)
}
