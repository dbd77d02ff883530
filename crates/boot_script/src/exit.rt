//! The exit status of a program that reads a list of events, and its words for standard error.

ghost use Rattle.std.specs.Prelude.{◌≡◌, ◌++◌, OnOk, OnErr};
ghost use Rattle.std.specs.Io.KnownBytes.{Appends};
ghost use Rattle.boot_script.specs.Exits.{IsExit, exit_code_of, words_of, no_memory_words};
ghost use Rattle.boot_script.specs.Printed.{end_of_line};
ghost use Rattle.boot_script.specs.StreamFaults.{IsWriteFault};

use crate::outcome::{ReplayFault, Replayed};
use crate::streams::Sink;
use std::io;

/// The exit status if the words of a program are none that it takes.
const USAGE_FAULT: u8 = 2;

/// How a run of a program has ended.
#[derive(Drop)]
pub struct Exit {
    /// The exit status.
    pub status: u8,
    /// Whether the error stream took all the words for it. An error is that of the last call on the error stream.
    pub reported: io::Result<()>,
}

/// Reports how a replay has ended.
///
/// Status 0 is returned if each event was allowed; 1 if an event was refused, or the script is invalid; 3 if memory was
/// exhausted; 5 if the reader or the writer failed.
pub fn after_replay<E: Sink>(answer: Result<Replayed, ReplayFault>, errors: &mut E) -> Exit
    ensures exit { IsExit result (exit_code_of answer) (words_of answer) (E.contents errors.old)
        (E.contents errors.new) }
    ensures error { OnErr result.reported (IsWriteFault E.fails errors.new) }
{
    Exit {
        status: status(answer),
        reported: tell(answer, errors),
    }
}

/// Reports that there is no memory, as after a replay without memory, with status 3.
pub fn no_memory<E: Sink>(errors: &mut E) -> Exit
    ensures exit { IsExit result 3 no_memory_words (E.contents errors.old) (E.contents errors.new) }
    ensures error { OnErr result.reported (IsWriteFault E.fails errors.new) }
{
    after_replay(Err(ReplayFault::Memory), errors)
}

/// Reports how a program is called, after words that it does not take, with status 2.
pub fn usage<E: Sink>(how: &str, errors: &mut E) -> Exit
    ensures exit { IsExit result 2 (how.now ++ end_of_line) (E.contents errors.old) (E.contents errors.new) }
    ensures error { OnErr result.reported (IsWriteFault E.fails errors.new) }
{
    Exit {
        status: USAGE_FAULT,
        reported: errors.write_line(how),
    }
}

/// The exit status of a replay.
fn status(answer: Result<Replayed, ReplayFault>) -> u8
    ensures { result ≡ exit_code_of answer }
{
    match answer {
        Ok(Replayed::AllAllowed) => 0,
        Ok(Replayed::Refused { .. }) | Err(ReplayFault::Script(_)) => 1,
        Err(ReplayFault::Memory) => 3,
        Err(ReplayFault::Read | ReplayFault::Write) => 5,
    }
}

/// Reports why a replay has ended early. For a replay that was printed nothing is reported.
fn tell<E: Sink>(answer: Result<Replayed, ReplayFault>, errors: &mut E) -> io::Result<()>
    ensures effect { OnOk result (Appends (E.contents errors.old) (E.contents errors.new) (words_of answer)) }
    ensures error { OnErr result (IsWriteFault E.fails errors.new) }
{
    match answer {
        Ok(_) => Ok(()),
        Err(fault) => errors.write_line(fault),
    }
}
