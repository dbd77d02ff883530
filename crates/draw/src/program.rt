//! The exit status of each run, and the words for standard error.

ghost use Rattle.std.specs.Prelude.{◌≡◌, ◌≢◌, ℕ, Err, IfOk, IfErr, IfSome, Result, OnErr};
ghost use Rattle.std.specs.Io.KnownBytes.{Keeps};
ghost use Rattle.boot_script.specs.declared.outcome.Replayed.{Replayed};
ghost use Rattle.boot_script.specs.declared.outcome.ReplayFault.{ReplayFault};
ghost use Rattle.boot_script.specs.Scripts.{text_events};
ghost use Rattle.boot_script.specs.Replays.{IsReplayFault};
ghost use Rattle.boot_script.specs.Exits.{HasCause, HasReported, IsExit, exit_code_of, words_of};
ghost use Rattle.boot_script.specs.StreamFaults.{HasRead, IsReadFault, IsWriteFault, LetGo};
ghost use Rattle.draw.specs.Drawings.{IsDrawing, IsDrawn, IsDrawingOf, usage_words};

use crate::drawing::picture;
use crate::history::replay_rows;
use boot_script::exit::Exit;
use boot_script::{
    Handover, ReplayFault, Replayed, ScriptRefusal, Sink, Source, exit, parse_events, read_script,
};
use std::alloc::Global;
use svg::print_picture;

/// One byte more than a script may have, so that a longer one is seen.
const BUFFER: usize = 65_537;

/// The page with the picture of the list of events that a text says.
fn draw_page(alloc: Global, script: &[u8]) -> Result<(Replayed, Vec<u8>), ReplayFault>
    ensures ok { IfOk result (λ drawn. IsDrawn (text_events script.now) drawn.0 drawn.1.items) }
    ensures fault { IfErr result (λ fault. IsReplayFault (text_events script.now) fault) }
    ensures unwritten { IfErr result (λ fault. fault ≢ ReplayFault.Write) }
    ensures unread { IfErr result (λ fault. fault ≢ ReplayFault.Read) }
{
    match parse_events(alloc, script) {
        Ok((elements, events)) => {
            let past = replay_rows(alloc, elements, &events)?;
            let drawn = picture(alloc, script, &past)?;
            let mut page = Vec::new(alloc);
            match print_picture(&drawn, &mut page) {
                Ok(()) => Ok((past.replayed, page)),
                Err(_) => Err(ReplayFault::Memory),
            }
        }
        Err(fault) => match fault.refusal {
            ScriptRefusal::OutOfMemory => Err(ReplayFault::Memory),
            _ => Err(ReplayFault::Script(fault)),
        },
    }
}

/// Draws a picture of the list of events that is read. After a fault other than `Write` nothing was written. `Read` and
/// `Write` are returned only as by `replay_on`, and any other answer comes only after reading has ended.
pub fn draw_on<R: Source, W: Sink>(
    alloc: Global,
    reader: &mut R,
    writer: &mut W,
) -> Result<Replayed, ReplayFault>
    ensures ok { IfOk result (λ replayed. IfSome (R.remaining reader.old) (λ bytes. IsDrawing
        (text_events bytes) replayed (W.contents writer.old) (W.contents writer.new))) }
    ensures fault { IfErr result (λ fault. IfSome (R.remaining reader.old) (λ bytes. IsReplayFault
        (text_events bytes) fault)) }
    ensures unwritten { IfErr result (λ fault. fault ≢ ReplayFault.Write
        → Keeps (W.contents writer.old) (W.contents writer.new)) }
    ensures read { IfErr result (λ fault. fault ≡ ReplayFault.Read → IsReadFault R.answers reader.old reader.new) }
    ensures trace { result ≢ Err ReplayFault.Read → (n : ℕ) × HasRead R.answers n reader.old reader.new }
    ensures write { IfErr result (λ fault. fault ≡ ReplayFault.Write → IsWriteFault W.fails writer.new) }
{
    let mut buffer = [0u8; BUFFER];
    let filled = read_script(reader, &mut buffer)?;
    let (replayed, page) = draw_page(alloc, &buffer[..filled])?;
    match writer.write_text(&page) {
        Ok(()) => Ok(replayed),
        Err(_) => Err(ReplayFault::Write),
    }
}

/// Runs the program, which takes no words.
///
/// Status 0 is returned if each event was allowed; 1 if an event was refused, or the script is invalid; 2 if there are
/// words; 3 if memory was exhausted; 5 if the reader or the writer failed. Under 2, 3 and a fault of the script nothing
/// was written.
pub fn run_on<R: Source, W: Sink, E: Sink>(
    alloc: Global,
    words: usize,
    reader: &mut R,
    writer: &mut W,
    errors: &mut E,
) -> Exit
    ensures usage { words ≢ 0 → IsExit result 2 usage_words (E.contents errors.old) (E.contents errors.new) }
    ensures untouched { words ≢ 0 → (reader.new ≡ reader.old) × (writer.new ≡ writer.old) }
    ensures drawing { words ≡ 0 → (answer : Result Replayed ReplayFault)
        × IsDrawingOf (R.remaining reader.old) answer (W.contents writer.old) (W.contents writer.new)
        × HasCause R.answers W.fails answer reader.old reader.new writer.new
        × (answer ≢ Err ReplayFault.Read → (n : ℕ) × HasRead R.answers n reader.old reader.new)
        × IsExit result (exit_code_of answer) (words_of answer) (E.contents errors.old) (E.contents errors.new) }
    ensures error { OnErr result.reported (IsWriteFault E.fails errors.new) }
{
    if words != 0 {
        return usage(errors);
    }
    exit::after_replay(draw_on(alloc, reader, writer), errors)
}

/// As `run_on`, for streams that are handed over, with the exit status alone. The last step is to let all three go.
/// Faults of the error stream are ignored.
pub fn run_main<R: Source + Handover, W: Sink + Handover, E: Sink + Handover>(
    alloc: Global,
    words: usize,
    mut reader: R,
    mut writer: W,
    mut errors: E,
) -> u8
    ensures usage { words ≢ 0 → (result ≡ 2) × HasReported E.gone E.fails E.contents usage_words errors }
    ensures untouched { words ≢ 0 → LetGo R.gone (λ last. last ≡ reader) × LetGo W.gone (λ last. last ≡ writer) }
    ensures drawing { words ≡ 0 → (answer : Result Replayed ReplayFault)
        × LetGo R.gone (λ last. LetGo W.gone (λ written.
        IsDrawingOf (R.remaining reader) answer (W.contents writer) (W.contents written)
        × HasCause R.answers W.fails answer reader last written
        × (answer ≢ Err ReplayFault.Read → (n : ℕ) × HasRead R.answers n reader last)))
        × (result ≡ exit_code_of answer) × HasReported E.gone E.fails E.contents (words_of answer) errors }
{
    let exit = run_on(alloc, words, &mut reader, &mut writer, &mut errors);
    let status = exit.status;
    drop(exit);
    reader.let_go();
    writer.let_go();
    errors.let_go();
    status
}

/// Reports how the program is called, as after words.
pub fn usage<E: Sink>(errors: &mut E) -> Exit
    ensures exit { IsExit result 2 usage_words (E.contents errors.old) (E.contents errors.new) }
    ensures error { OnErr result.reported (IsWriteFault E.fails errors.new) }
{
    exit::usage("usage: draw < LIST", errors)
}
