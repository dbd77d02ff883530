//! The common parts of both kinds of script: their length, their first line, and the lines that say nothing.

ghost use Rattle.std.specs.Prelude.{◌≡◌, ◌≤◌, IfOk, length};
ghost use Rattle.boot_script.specs.Words.{lines_of};
ghost use Rattle.boot_script.specs.Scripts.{says_nothing, version_of, versioned, opening_of};
ghost use Rattle.boot_script.specs.Answers.{Equals};

use crate::event_lines::is_ascii;
use crate::fault::{ScriptFault, ScriptRefusal};
use crate::text::first_line;
use crate::version::{Script, Version};

/// How many bytes a script may have.
pub(crate) const MOST_BYTES: usize = 65_536;

/// Whether a line says nothing: it is empty or a comment.
pub(crate) fn is_silent(line: &[u8]) -> bool
    ensures { result ≡ says_nothing line.now }
{
    matches!(line, [] | [b'#', ..])
}

/// The version that the first line of a script names.
#[tactic(auto, unfolding(crate::specs::Scripts::version_of))]
fn version_said(script: Script, line: &[u8]) -> Result<Version, ScriptRefusal>
    ensures { result ≡ version_of script line.now }
{
    if !is_ascii(line) {
        return Err(ScriptRefusal::NotAscii);
    }
    if line == Version::One.line(script) {
        return Ok(Version::One);
    }
    if line == Version::Two.line(script) {
        return Ok(Version::Two);
    }
    if line == Version::Three.line(script) {
        return Ok(Version::Three);
    }
    Err(ScriptRefusal::NotVersion)
}

/// The version of a script, and the text after its first line.
#[tactic(auto, unfolding(crate::specs::Scripts::versioned, crate::specs::Scripts::opening_of, crate::specs::Words::lines_of))]
pub(crate) fn opening(script: Script, text: &[u8]) -> Result<(Version, &[u8]), ScriptFault>
    ensures said { Equals (λ opening. (opening.0, lines_of opening.1.now)) result (opening_of script text.now) }
    ensures few { IfOk result (λ opening. length opening.1.now ≤ 65536) }
{
    if text.len() > MOST_BYTES {
        return Err(ScriptFault {
            line: 0,
            refusal: ScriptRefusal::TooMany,
        });
    }
    if text.is_empty() {
        return Err(ScriptFault {
            line: 1,
            refusal: ScriptRefusal::NotVersion,
        });
    }
    let (first, rest) = first_line(text);
    match version_said(script, first) {
        Ok(version) => Ok((version, rest)),
        Err(refusal) => Err(ScriptFault { line: 1, refusal }),
    }
}
