//! The exit status of each run, and the words for standard error.

ghost use Rattle.std.specs.Prelude.{◌≡◌, ◌≢◌, ◌≤◌, ℕ, map, Option, Result, Err, OnErr};
ghost use Rattle.std.specs.Result.{result_ok};
ghost use Rattle.boot_exit.specs.Exits.{HasBootCause, HasStreamFailed, boot_exit_code_of, boot_words_of};
ghost use Rattle.boot_script.specs.declared.outcome.Replayed.{Replayed};
ghost use Rattle.boot_script.specs.declared.outcome.ReplayFault.{ReplayFault};
ghost use Rattle.boot_script.specs.Exits.{exit_code_of, words_of, HasCause, HasReported, IsExit};
ghost use Rattle.boot_script.specs.StreamFaults.{HasRead, IsWriteFault, LetGo};
ghost use Rattle.synth_kernel.specs.declared.outcome.Ended as endings;
ghost use Rattle.synth_kernel.specs.declared.outcome.BootFault.{BootFault};
ghost use Rattle.synth_kernel.specs.declared.printing.Booted.{Booted};
ghost use Rattle.synth_kernel.specs.Boots.{ended_in};
ghost use Rattle.synthesis.specs.Commands.{replay_command, IsBootCommand, IsNoCommand};
ghost use Rattle.synthesis.specs.Runs.{usage_words, IsReplayOf, IsBootedBy};

use crate::command::{Command, command_of};
use boot_exit::after_boot;
use boot_script::exit::Exit;
use boot_script::{Handover, ReplayFault, Sink, Source, exit, replay_on};
use std::alloc::Global;
use std::sync::Wait;
use synth_kernel::{BootFault, Booted, NoGate, Shared, Witness, Work, Worked, boot_on};

/// How a run has ended.
#[derive(Drop)]
pub struct Outcome {
    /// The exit status, and whether it was reported.
    pub exit: Exit,
    /// The result of a boot whose report was printed.
    pub booted: Option<Booted<NoGate>>,
}

/// Runs the program with its words.
///
/// The words are read before anything else. Status 0 is returned if each event of a replay was allowed, or all threads
/// of a boot have ended; 1 if an event was refused, or the script is invalid; 2 if the words are no command; 3 if
/// memory was exhausted; 4 if threads of a boot have not ended; 5 if the reader or the writer failed. Under 2, 3 and a
/// fault of the script nothing was written. Under 5 the last call on the reader or the writer returned an error, or
/// there were 131,072 calls of `read`.
pub fn run_on<
    RT: Witness<Shared, Worked<NoGate>, Work<NoGate>> + Wait + Sync,
    R: Source,
    W: Sink,
    E: Sink,
>(rt: &RT, alloc: Global, words: &[&str], reader: &mut R, writer: &mut W, errors: &mut E) -> Outcome
    ensures usage { IsNoCommand (map (λ word. word.now) words.now)
        → IsExit result.exit 2 usage_words (E.contents errors.old) (E.contents errors.new) }
    ensures untouched { IsNoCommand (map (λ word. word.now) words.now) → (reader.new ≡ reader.old)
        × (writer.new ≡ writer.old) }
    ensures replay { map (λ word. word.now) words.now ≡ replay_command → (answer : Result Replayed ReplayFault)
        × IsReplayOf (R.remaining reader.old) answer (W.contents writer.old) (W.contents writer.new)
        × HasCause R.answers W.fails answer reader.old reader.new writer.new
        × (answer ≢ Err ReplayFault.Read → (n : ℕ) × HasRead R.answers n reader.old reader.new)
        × IsExit result.exit (exit_code_of answer) (words_of answer) (E.contents errors.old) (E.contents errors.new) }
    ensures boot { (processors turns : ℕ) → IsBootCommand (map (λ word. word.now) words.now) processors turns
        → (answer : Result endings.Ended BootFault)
        × IsBootedBy RT.ran RT.shown (R.remaining reader.old) processors turns answer result.booted
        (W.contents writer.old) (W.contents writer.new)
        × HasBootCause R.answers W.fails answer reader.old reader.new writer.new
        × (answer ≢ Err BootFault.Read → (n : ℕ) × HasRead R.answers n reader.old reader.new)
        × IsExit result.exit (boot_exit_code_of answer) (boot_words_of answer)
        (E.contents errors.old) (E.contents errors.new) }
    ensures error { result.exit.status ≡ 5 → HasStreamFailed R.answers W.fails reader.old reader.new writer.new }
    ensures reported { OnErr result.exit.reported (IsWriteFault E.fails errors.new) }
{
    match command_of(words) {
        Some(Command::Replay) => Outcome {
            exit: run_replay(alloc, reader, writer, errors),
            booted: None,
        },
        Some(Command::Boot { processors, turns }) => {
            let answer = boot_on(rt, alloc, reader, writer, processors, turns);
            answer_of_boot(answer, errors)
        }
        None => Outcome {
            exit: usage(errors),
            booted: None,
        },
    }
}

/// As `run_on`, for streams that are handed over, with the exit status alone. The last step is to let all three go.
/// Faults of the error stream are ignored.
pub fn run_main<
    RT: Witness<Shared, Worked<NoGate>, Work<NoGate>> + Wait + Sync,
    R: Source + Handover,
    W: Sink + Handover,
    E: Sink + Handover,
>(rt: &RT, alloc: Global, words: &[&str], mut reader: R, mut writer: W, mut errors: E) -> u8
    ensures usage { IsNoCommand (map (λ word. word.now) words.now)
        → (result ≡ 2) × HasReported E.gone E.fails E.contents usage_words errors }
    ensures untouched { IsNoCommand (map (λ word. word.now) words.now)
        → LetGo R.gone (λ last. last ≡ reader) × LetGo W.gone (λ last. last ≡ writer) }
    ensures replay { map (λ word. word.now) words.now ≡ replay_command → (answer : Result Replayed ReplayFault)
        × LetGo R.gone (λ last. LetGo W.gone (λ written.
        IsReplayOf (R.remaining reader) answer (W.contents writer) (W.contents written)
        × HasCause R.answers W.fails answer reader last written
        × (answer ≢ Err ReplayFault.Read → (n : ℕ) × HasRead R.answers n reader last)))
        × (result ≡ exit_code_of answer) × HasReported E.gone E.fails E.contents (words_of answer) errors }
    ensures boot { (processors turns : ℕ) → IsBootCommand (map (λ word. word.now) words.now) processors turns
        → (answer : Result endings.Ended BootFault) × (booted : Option (Booted NoGate))
        × LetGo R.gone (λ last. LetGo W.gone (λ written.
        IsBootedBy RT.ran RT.shown (R.remaining reader) processors turns answer booted
        (W.contents writer) (W.contents written)
        × HasBootCause R.answers W.fails answer reader last written
        × (answer ≢ Err BootFault.Read → (n : ℕ) × HasRead R.answers n reader last)))
        × (result ≡ boot_exit_code_of answer) × HasReported E.gone E.fails E.contents (boot_words_of answer) errors }
    ensures error { result ≡ 5
        → LetGo R.gone (λ last. LetGo W.gone (HasStreamFailed R.answers W.fails reader last)) }
{
    let outcome = run_on(rt, alloc, words, &mut reader, &mut writer, &mut errors);
    let status = status_of(outcome);
    reader.let_go();
    writer.let_go();
    errors.let_go();
    status
}

/// The exit status of a run. All else that came of it is dropped.
fn status_of(outcome: Outcome) -> u8
    ensures { result ≡ outcome.exit.status }
{
    let status = outcome.exit.status;
    drop(outcome);
    status
}

/// Replays, and reports how the replay has ended.
fn run_replay<R: Source, W: Sink, E: Sink>(
    alloc: Global,
    reader: &mut R,
    writer: &mut W,
    errors: &mut E,
) -> Exit
    ensures exit { (answer : Result Replayed ReplayFault)
        × IsReplayOf (R.remaining reader.old) answer (W.contents writer.old) (W.contents writer.new)
        × HasCause R.answers W.fails answer reader.old reader.new writer.new
        × (answer ≢ Err ReplayFault.Read → (n : ℕ) × HasRead R.answers n reader.old reader.new)
        × IsExit result (exit_code_of answer) (words_of answer) (E.contents errors.old) (E.contents errors.new) }
    ensures error { OnErr result.reported (IsWriteFault E.fails errors.new) }
{
    let answer = replay_on(alloc, reader, writer);
    exit::after_replay(answer, errors)
}

/// Reports how a boot has ended.
fn answer_of_boot<E: Sink>(answer: Result<Booted<NoGate>, BootFault>, errors: &mut E) -> Outcome
    ensures exit { IsExit result.exit (boot_exit_code_of (ended_in answer)) (boot_words_of (ended_in answer))
        (E.contents errors.old) (E.contents errors.new) }
    ensures error { OnErr result.exit.reported (IsWriteFault E.fails errors.new) }
    ensures booted { result.booted ≡ result_ok answer }
{
    match answer {
        Ok(booted) => Outcome {
            exit: after_boot(Ok(booted.ended()), errors),
            booted: Some(booted),
        },
        Err(fault) => Outcome {
            exit: after_boot(Err(fault), errors),
            booted: None,
        },
    }
}

/// Reports the commands, as after words that are no command.
pub fn usage<E: Sink>(errors: &mut E) -> Exit
    ensures exit { IsExit result 2 usage_words (E.contents errors.old) (E.contents errors.new) }
    ensures error { OnErr result.reported (IsWriteFault E.fails errors.new) }
{
    exit::usage("usage: synthesis replay | synthesis boot P TURNS", errors)
}
