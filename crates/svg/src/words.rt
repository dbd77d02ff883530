//! Texts of a picture, made in memory, and the lines of a script that a picture shows.

ghost use Rattle.std.specs.Prelude.{◌≡◌, ◌++◌, IfOk};
ghost use Rattle.std.specs.Fmt.{decimal};
ghost use Rattle.svg.specs.Texts.{front};

use event_theory::{Items, OutOfMemory};
use std::alloc::Global;

/// A copy of these bytes.
pub fn text_of(alloc: Global, bytes: &[u8]) -> Result<Items<u8>, OutOfMemory>
    ensures { IfOk result (λ text. text ≡ bytes.now) }
{
    Ok(Items::new(bytes.to_vec(alloc)?))
}

/// A letter, or none, and a number after it, in decimal.
pub fn numbered(alloc: Global, letter: &str, number: u64) -> Result<Items<u8>, OutOfMemory>
    ensures { IfOk result (λ text. text ≡ letter.now ++ decimal number) }
{
    let text = format!(in alloc; "{letter}{number}")?;
    Ok(Items::new(text.into_bytes()))
}

/// The front of a line, of `most` bytes; if the line is longer, two full stops end the front.
pub fn front_of(alloc: Global, line: &[u8], most: usize) -> Result<Items<u8>, OutOfMemory>
    ensures { IfOk result (λ text. text ≡ front line.now most) }
{
    if line.len() <= most {
        return text_of(alloc, line);
    }
    let mut text = line[..most].to_vec(alloc)?;
    text.extend_from_slice(b"..")?;
    Ok(Items::new(text))
}

/// The line of this number, from 1 on; nothing if there is none.
pub fn line_at(script: &[u8], number: u32) -> &[u8] {
    let mut at = 1u32;
    for line in script.split(|byte| *byte == b'\n') {
        if at == number {
            return line;
        }
        at = at.saturating_add(1);
    }
    b""
}

/// The text of the first comment; nothing if there is none.
pub fn first_comment(script: &[u8]) -> &[u8] {
    for line in script.split(|byte| *byte == b'\n') {
        if let Some(comment) = line.strip_prefix(b"# ") {
            return comment;
        }
    }
    b""
}
