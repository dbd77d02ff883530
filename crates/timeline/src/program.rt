//! The exit status of each run, and the words for standard error.

ghost use Rattle.std.specs.Prelude.{◌≡◌, ◌≢◌, ℕ, map, Err, Result};
ghost use Rattle.boot_exit.specs.Exits.{HasBootCause, HasStreamFailed, boot_exit_code_of, boot_words_of};
ghost use Rattle.boot_script.specs.Exits.{IsExit};
ghost use Rattle.boot_script.specs.StreamFaults.{HasRead};
ghost use Rattle.boot_view.specs.Commands.{IsCommand, IsNoCommand};
ghost use Rattle.boot_view.specs.declared.command.Command as commands;
ghost use Rattle.processor.specs.Points.{calls};
ghost use Rattle.synth_kernel.specs.declared.outcome.BootFault.{BootFault};
ghost use Rattle.synth_kernel.specs.declared.outcome.Ended.{Ended};
ghost use Rattle.timeline.specs.Runs.{usage_words, IsViewedBy, IsViewStatus};

use boot_exit::after_boot;
use boot_log::{Recorder, TurnClock};
use boot_script::exit::Exit;
use boot_script::{Sink, Source, exit};
use boot_view::{BootTimer, Dropper, command_of, view_on};
use processor::{Gate, Shared, TurnGate};
use std::alloc::Global;
use std::io::Write;
use std::sync::Wait;
use synth_kernel::{Booted, Witness, Work, Worked};

/// Runs the program with its words.
///
/// The words are read before anything else. Status 0 is returned if all threads of the boot have ended; 1 if the script
/// is invalid; 2 if the words are no command; 3 if memory was exhausted; 4 if threads have not ended; 5 if the reader
/// or the writer failed. Under 0 and 4 the page was written. Under 1, 2 and 3 nothing was written. Under 5 the last
/// call on the reader or the writer returned an error, or there were 131,072 calls of `read`. The script is read once.
/// The boot on the page alone was recorded by this clock.
pub fn run_on<RT, B, C, R, W, E>(
    rt: &RT,
    clock: B,
    alloc: Global,
    words: &[&str],
    reader: &mut R,
    writer: &mut W,
    errors: &mut E,
) -> Exit
where
    RT: Witness<Shared, Worked<Recorder<C>>, Work<Recorder<C>>>
        + Dropper<Booted<Recorder<C>>>
        + Wait
        + Sync,
    B: BootTimer<C> + Drop,
    C: TurnClock + Send + Drop,
    R: Source,
    W: Sink,
    E: Write,
    ensures usage { IsNoCommand (map (λ word. word.now) words.now)
        → IsExit result 2 usage_words (E.contents errors.old) (E.contents errors.new) }
    ensures untouched { IsNoCommand (map (λ word. word.now) words.now) → (reader.new ≡ reader.old)
        × (writer.new ≡ writer.old) }
    ensures view { (command : commands.Command) → IsCommand (map (λ word. word.now) words.now) command
        → (answer : Result Ended BootFault)
        × IsViewedBy RT.ran RT.shown
        (calls ⟦<Recorder<C> as Gate>⟧.observes ⟦<Recorder<C> as TurnGate>⟧.learns)
        (B.made clock) RT.gone (B.read_by clock) (C.says (B.read_by clock) 0) command
        (R.remaining reader.old) answer (W.contents writer.old) (W.contents writer.new)
        × (answer ≢ Err BootFault.Read → (n : ℕ) × HasRead R.answers n reader.old reader.new)
        × HasBootCause R.answers W.fails answer reader.old reader.new writer.new
        × IsExit result (boot_exit_code_of answer) (boot_words_of answer)
        (E.contents errors.old) (E.contents errors.new) }
    ensures error { result.status ≡ 5 → HasStreamFailed R.answers W.fails reader.old reader.new writer.new }
{
    match command_of(words) {
        Some(command) => {
            let answer = view_on(rt, clock, alloc, command, reader, writer);
            after_boot(answer, errors)
        }
        None => usage(errors),
    }
}

/// As `run_on`, for streams that are handed over, with the exit status alone. Faults of the error stream are ignored.
pub fn run_main<RT, B, C, R, W, E>(
    rt: &RT,
    clock: B,
    alloc: Global,
    words: &[&str],
    mut reader: R,
    mut writer: W,
    mut errors: E,
) -> u8
where
    RT: Witness<Shared, Worked<Recorder<C>>, Work<Recorder<C>>>
        + Dropper<Booted<Recorder<C>>>
        + Wait
        + Sync,
    B: BootTimer<C> + Drop,
    C: TurnClock + Send + Drop,
    R: Source + Drop,
    W: Sink + Drop,
    E: Write + Drop,
    ensures usage { IsNoCommand (map (λ word. word.now) words.now) → result ≡ 2 }
    ensures view { (command : commands.Command) → IsCommand (map (λ word. word.now) words.now) command
        → IsViewStatus RT.ran RT.shown
        (calls ⟦<Recorder<C> as Gate>⟧.observes ⟦<Recorder<C> as TurnGate>⟧.learns)
        (B.made clock) RT.gone (B.read_by clock) (C.says (B.read_by clock) 0) command (R.remaining reader) result }
    ensures error { result ≡ 5 → (last : R) × (written : W) × HasStreamFailed R.answers W.fails reader last written }
{
    let exit = run_on(
        rt,
        clock,
        alloc,
        words,
        &mut reader,
        &mut writer,
        &mut errors,
    );
    exit.status
}

/// Reports the commands, as after words that are no command.
pub fn usage<E: Write>(errors: &mut E) -> Exit
    ensures { IsExit result 2 usage_words (E.contents errors.old) (E.contents errors.new) }
{
    exit::usage(
        "usage: timeline P TURNS [--time | --trace] < SCRIPT",
        errors,
    )
}
