//! The text after the other words of a line: each byte as itself, or as `\` and two digits.

ghost use Rattle.std.specs.Prelude.{◌≡◌, ◌<◌, IfOk, IfErr, Err, length};
ghost use Rattle.boot_script.specs.Texts.{before, digit_of, escape_of, bytes_of, text_of};

use crate::fault::ScriptRefusal;
use crate::text::Words;
use boot_data::Text;
use std::marker::Model;

/// The value of a digit, 0 to 9 or A to F. Else BadNumber.
fn digit(byte: u8) -> Result<u8, ScriptRefusal>
    ensures result { result ≡ digit_of byte }
    ensures within { IfOk result (λ value. value < 16) }
    ensures refused { IfErr result (λ refusal. refusal ≡ ScriptRefusal.BadNumber) }
{
    match byte {
        b'0'..=b'9' => Ok(byte - b'0'),
        b'A'..=b'F' => Ok(byte - 55),
        _ => Err(ScriptRefusal::BadNumber),
    }
}

/// The byte of two digits. Else BadNumber.
#[tactic(auto, unfolding(crate::specs::Texts::escape_of))]
fn escape(high: u8, low: u8) -> Result<u8, ScriptRefusal>
    ensures result { result ≡ escape_of high low }
    ensures refused { IfErr result (λ refusal. refusal ≡ ScriptRefusal.BadNumber) }
{
    let high = digit(high)?;
    let low = digit(low)?;
    Ok(high * 16 + low)
}

/// The first byte that a text says, and the text after it. BadNumber if a `\` is not followed by two digits.
fn next_byte(text: &[u8]) -> Result<(u8, &[u8]), ScriptRefusal>
    requires { 0 < length text.now }
    ensures next { IfOk result (λ next. bytes_of text.now ≡ before next.0 (bytes_of next.1.now)) }
    ensures shorter { IfOk result (λ next. length next.1.now < length text.now) }
    ensures refused { IfErr result (λ refusal. bytes_of text.now ≡ Err refusal) }
{
    let byte = text[0];
    let rest = &text[1..];
    if byte != b'\\' {
        return Ok((byte, rest));
    }
    if rest.len() < 2 {
        return Err(ScriptRefusal::BadNumber);
    }
    match escape(rest[0], rest[1]) {
        Ok(escaped) => Ok((escaped, &rest[2..])),
        Err(refusal) => Err(refusal),
    }
}

/// The text of the words that are left. BadNumber if a `\` is not followed by two digits; else TextTooLong, if there is
/// no room for all bytes.
pub(crate) fn text_said<const N: usize>(words: &Words) -> Result<Text<N>, ScriptRefusal>
    ensures { result ≡ text_of N words.now }
{
    let mut rest = words.text();
    let mut text = Text::new();
    let mut fits = true;
    while !rest.is_empty() {
        match next_byte(rest) {
            Ok((byte, after)) => {
                fits = text.push(byte) && fits;
                rest = after;
            }
            Err(refusal) => return Err(refusal),
        }
    }
    if fits {
        Ok(text)
    } else {
        Err(ScriptRefusal::TextTooLong)
    }
}

/// The text that a device types, as it is written in the script. Contracts see its bytes.
#[derive(Drop)]
pub(crate) struct Typed<'a> {
    words: Words<'a>,
}

impl<'a> Model for Typed<'a> {
    ghost use Rattle.std.specs.Prelude.{ℕ, List};
    ghost use Rattle.boot_script.specs.Texts.{text_of, read};

    ghost Value = { List ℕ };

    ghost view = { λ typed. read (text_of 1024 typed.words) };
}

impl<'a> Typed<'a> {
    /// The text itself.
    pub(crate) fn to_text(&self) -> Text<1024>
        ensures { result ≡ self.now }
    {
        match text_said(&self.words) {
            Ok(text) => text,
            Err(_) => Text::new(),
        }
    }
}

/// The text that a device types, of the words that are left. It is refused if `text_said` refuses the words.
pub(crate) fn typed_said<'a>(words: &Words<'a>) -> Result<Typed<'a>, ScriptRefusal>
    ensures { result ≡ text_of 1024 words.now }
{
    match text_said::<1024>(words) {
        Ok(_) => Ok(Typed {
            words: words.same(),
        }),
        Err(refusal) => Err(refusal),
    }
}
