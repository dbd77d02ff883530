//! Why a script is refused: the invalid line, and the reason.
//!
//! The refusals cover both kinds of scripts, so a list of events is never refused for some of them.

ghost use Rattle.std.specs.Prelude.{Some};

use std::error::Error as StdError;
use std::fmt;

/// Why a script is refused, with the number that is printed.
///
/// The first invalid line decides, and in a line the first invalid word, from left to right. A word too many is
/// reported after the faults of all other words, and `TooMany` after a word too many. `OutOfMemory` is the last of all.
#[derive(Clone, Copy, Debug, PartialEq, Eq)]
pub enum ScriptRefusal {
    /// The first line is not the first line of a known version.
    NotVersion = 1,
    /// The first word of a line is not known, or a word follows the last one.
    UnknownWord = 2,
    /// A word is not a number in its range, with no sign and no leading zero.
    BadNumber = 3,
    /// A word does not have the form of the name that is expected there.
    BadName = 4,
    /// A name is declared a second time, or a way of a switch has the key of an earlier one.
    NameTwice = 5,
    /// A name is not declared, or names something of another kind; or the text after its full stop names no such part.
    NameUnknown = 6,
    /// The text has more than 65,536 bytes, a line more items or ways than it may have, or the script more declarations
    /// or steps.
    TooMany = 7,
    /// A text is longer than allowed, or would make the text that a tty's device types longer than allowed.
    TextTooLong = 8,
    /// A line that is not a comment has a byte other than 0x20 to 0x7E.
    NotAscii = 9,
    /// An allocation was refused, and nothing is invalid.
    OutOfMemory = 10,
}

/// The first fault of a script.
#[derive(Clone, Copy, Debug, PartialEq, Eq)]
pub struct ScriptFault {
    /// The invalid line, from 1; 0 if the fault is of the text as a whole.
    pub line: u32,
    /// Why it is invalid.
    pub refusal: ScriptRefusal,
}

impl fmt::Display for ScriptRefusal {
    ghost use Rattle.boot_script.specs.RefusalNames.{script_refusal_name};

    ghost output = { λ refusal. Some (script_refusal_name refusal) };

    fn fmt<W: fmt::Write>(&self, f: &mut fmt::Formatter<W>) -> fmt::Result {
        f.write_str(match self {
            ScriptRefusal::NotVersion => "NotVersion",
            ScriptRefusal::UnknownWord => "UnknownWord",
            ScriptRefusal::BadNumber => "BadNumber",
            ScriptRefusal::BadName => "BadName",
            ScriptRefusal::NameTwice => "NameTwice",
            ScriptRefusal::NameUnknown => "NameUnknown",
            ScriptRefusal::TooMany => "TooMany",
            ScriptRefusal::TextTooLong => "TextTooLong",
            ScriptRefusal::NotAscii => "NotAscii",
            ScriptRefusal::OutOfMemory => "OutOfMemory",
        })
    }
}

impl StdError for ScriptRefusal {}

impl fmt::Display for ScriptFault {
    ghost use Rattle.boot_script.specs.Printed.{fault_text};

    ghost output = { λ fault. Some (fault_text fault) };

    fn fmt<W: fmt::Write>(&self, f: &mut fmt::Formatter<W>) -> fmt::Result {
        let line = self.line;
        let number = self.refusal as u8;
        let refusal = self.refusal;
        write!(f, "line {line}: {number} {refusal}")
    }
}

impl StdError for ScriptFault {}

impl ScriptFault {
    /// Out of memory, which is a fault of no line.
    pub(crate) const NO_MEMORY: ScriptFault = ScriptFault {
        line: 0,
        refusal: ScriptRefusal::OutOfMemory,
    };
}
