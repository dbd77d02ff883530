//! The source of a script, and the sink of a text: every reader, and every writer.
//!
//! A fault of a stream has to have its cause. `answers` and `fails` carry the cause. Code that is generic over a stream
//! knows of them only what a call ensured. A contract that names one of them therefore states that the call was made.
//! `gone` names a stream that was handed over, as it was when it was let go: no call on it came later.

ghost use Rattle.std.specs.Prelude.{◌≡◌, ◌++◌, ℕ, List, Result, ⊤, IfSome, OnOk, OnErr};
ghost use Rattle.std.specs.declared.io.Error.{Error};
ghost use Rattle.std.specs.Io.{ReadsAtMost};
ghost use Rattle.std.specs.Io.KnownBytes.{Appends, ReadConsumes};
ghost use Rattle.boot_script.specs.Printed.{end_of_line};
ghost use Rattle.boot_script.specs.StreamFaults.{IsWriteFault};

use std::fmt::Display;
use std::io;
use std::io::{Read, Write};

/// The source of a script. Every reader is one.
pub trait Source: Read {
    /// One call of `read` found the first of these readers, gave this answer, and left the second.
    ghost answers: { Self → Result ℕ Error → Self → Type 0 };

    /// Calls `read` once.
    fn ask(&mut self, buf: &mut [u8]) -> io::Result<usize>
        ensures bound { ReadsAtMost result buf.new }
        ensures bytes { ReadConsumes (Self.remaining self.old) (Self.remaining self.new) result buf.new }
        ensures answered { answers self.old result self.new };
}

impl<R: Read> Source for R {
    ghost answers = { λ _ _ _. ⊤ };

    fn ask(&mut self, buf: &mut [u8]) -> io::Result<usize> {
        self.read(buf)
    }
}

/// The sink of a text. Every writer is one.
pub trait Sink: Write {
    /// One call on the first of these writers returned an error, and left the second.
    ghost fails: { Self → Self → Type 0 };

    /// Writes a whole text, by `write_all`.
    fn write_text(&mut self, text: &[u8]) -> io::Result<()>
        ensures bytes { OnOk result (Appends (Self.contents self.old) (Self.contents self.new) text.now) }
        ensures failed { OnErr result (fails self.old self.new) };

    /// Writes the text of a value and an end of line, by `write_fmt`.
    fn write_line<D: Display + Drop>(&mut self, line: D) -> io::Result<()>
        ensures bytes { OnOk result (IfSome (D.output line) (λ text. Appends (Self.contents self.old)
            (Self.contents self.new) (text ++ end_of_line))) }
        ensures failed { OnErr result (fails self.old self.new) };
}

impl<W: Write> Sink for W {
    ghost fails = { λ _ _. ⊤ };

    fn write_text(&mut self, text: &[u8]) -> io::Result<()> {
        self.write_all(text)
    }

    fn write_line<D: Display + Drop>(&mut self, line: D) -> io::Result<()> {
        writeln!(self, "{line}")
    }
}

/// A stream that can be handed over. Every stream that can be dropped is one.
pub trait Handover: Drop {
    /// This stream was let go.
    ghost gone: { Self → Type 0 };

    /// Lets the stream go.
    fn let_go(self)
        ensures { gone self };
}

impl<S: Drop> Handover for S {
    ghost gone = { λ _. ⊤ };

    fn let_go(self) {
        drop(self);
    }
}

/// A thing that has lines to be printed.
pub trait Lines {
    /// The bytes of its lines.
    ghost text: { Self → List ℕ };

    /// Prints its lines, part by part.
    fn print<W: Sink>(&self, out: &mut W) -> io::Result<()>
        ensures effect { OnOk result (Appends (W.contents out.old) (W.contents out.new) (text self.now)) }
        ensures error { OnErr result (IsWriteFault W.fails out.new) };
}
