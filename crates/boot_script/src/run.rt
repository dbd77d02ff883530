//! Reading a list of events, running it on a fresh core, and printing the core's status.

ghost use Rattle.std.specs.Prelude.{◌≡◌, ◌≢◌, ◌≤◌, ℕ, Err, IfOk, IfErr, IfSome, OnOk, OnErr};
ghost use Rattle.std.specs.Io.KnownBytes.{Appends, Keeps};
ghost use Rattle.event_theory.specs.States.{first_state};
ghost use Rattle.quaject_core.specs.ShownCores.{state};
ghost use Rattle.boot_script.specs.Scripts.{text_events};
ghost use Rattle.boot_script.specs.Replays.{Replays, replay_text, IsReplay, IsReplayFault, Ends};
ghost use Rattle.boot_script.specs.StreamFaults.{HasRead, IsReadFault, IsWriteFault, LetGo};

use crate::events::parse_events;
use crate::fault::ScriptRefusal;
use crate::opening::MOST_BYTES;
use crate::outcome::{ReplayFault, Replayed};
use crate::printing::{print_refused, print_status};
use crate::reading::read_script;
use crate::streams::{Handover, Sink, Source};
use event_theory::{Event, Refusal, Status};
use quaject_core::Core;
use std::alloc::Global;
use std::io;

/// Applies events up to the first that is refused.
fn apply_all(core: &mut Core, events: &[(u32, Event)]) -> Result<Replayed, ReplayFault>
    ensures ok { IfOk result (λ replayed. Replays replayed events.now (state core.old) (state core.new)) }
    ensures fault { IfErr result (λ fault. fault ≡ ReplayFault.Memory) }
{
    for (line, event) in events {
        match core.apply(event) {
            Ok(()) => {}
            Err(Refusal::OutOfMemory) => return Err(ReplayFault::Memory),
            Err(refusal) => {
                return Ok(Replayed::Refused {
                    line: *line,
                    refusal,
                });
            }
        }
    }
    Ok(Replayed::AllAllowed)
}

/// Runs events on a fresh core. All memory that a replay needs is taken here.
fn run_events(
    alloc: Global,
    elements: u8,
    events: &[(u32, Event)],
) -> Result<(Replayed, Status), ReplayFault>
    requires some { 1 ≤ elements }
    requires within { elements ≤ 64 }
    ensures ok { IfOk result (λ ended. Ends ended.0 ended.1 events.now (first_state elements)) }
    ensures fault { IfErr result (λ fault. fault ≡ ReplayFault.Memory) }
{
    let mut core = Core::with_elements(alloc, elements)?;
    let replayed = apply_all(&mut core, events)?;
    let status = core.status()?;
    Ok((replayed, status))
}

/// Prints the status, and then the line of the event that was refused, if there is one.
fn print_replay<W: Sink>(replayed: Replayed, status: &Status, writer: &mut W) -> io::Result<()>
    ensures effect { OnOk result (Appends (W.contents writer.old) (W.contents writer.new)
        (replay_text replayed status.now)) }
    ensures error { OnErr result (IsWriteFault W.fails writer.new) }
{
    print_status(status, writer)?;
    match replayed {
        Replayed::AllAllowed => Ok(()),
        Replayed::Refused { line, refusal } => print_refused(line, refusal, writer),
    }
}

/// Runs the list of events that a text says on a fresh core, and prints the core's status.
fn run_text<W: Sink>(alloc: Global, text: &[u8], writer: &mut W) -> Result<Replayed, ReplayFault>
    ensures ok { IfOk result (λ replayed. IsReplay (text_events text.now) replayed (W.contents writer.old)
        (W.contents writer.new)) }
    ensures fault { IfErr result (λ fault. IsReplayFault (text_events text.now) fault) }
    ensures unwritten { IfErr result (λ fault. fault ≢ ReplayFault.Write
        → Keeps (W.contents writer.old) (W.contents writer.new)) }
    ensures unread { IfErr result (λ fault. fault ≢ ReplayFault.Read) }
    ensures write { IfErr result (λ fault. fault ≡ ReplayFault.Write → IsWriteFault W.fails writer.new) }
{
    match parse_events(alloc, text) {
        Ok((elements, events)) => {
            let (replayed, status) = run_events(alloc, elements, &events)?;
            match print_replay(replayed, &status, writer) {
                Ok(()) => Ok(replayed),
                Err(_) => Err(ReplayFault::Write),
            }
        }
        Err(fault) => match fault.refusal {
            ScriptRefusal::OutOfMemory => Err(ReplayFault::Memory),
            _ => Err(ReplayFault::Script(fault)),
        },
    }
}

/// Runs the list of events that is read on a fresh core, and prints the core's status.
///
/// The text is the status after the events before the first that isn't allowed, and then the `refused` line of this
/// event, if any. After a fault other than `Write` nothing was written. `Memory` is returned only if the text has no
/// fault. After each call of read except the last, reading went on: it read a byte or more, or was interrupted. `Read`
/// is returned only if the last call on the reader returned an error other than an interruption, or at 131,072 calls.
/// Any other answer comes only if the last call found the end, or read a byte too much. `Write` is returned only if the
/// last call on the writer returned an error.
pub fn replay_on<R: Source, W: Sink>(
    alloc: Global,
    reader: &mut R,
    writer: &mut W,
) -> Result<Replayed, ReplayFault>
    ensures ok { IfOk result (λ replayed. IfSome (R.remaining reader.old) (λ bytes. IsReplay
        (text_events bytes) replayed (W.contents writer.old) (W.contents writer.new))) }
    ensures fault { IfErr result (λ fault. IfSome (R.remaining reader.old) (λ bytes. IsReplayFault
        (text_events bytes) fault)) }
    ensures unwritten { IfErr result (λ fault. fault ≢ ReplayFault.Write
        → Keeps (W.contents writer.old) (W.contents writer.new)) }
    ensures read { IfErr result (λ fault. fault ≡ ReplayFault.Read → IsReadFault R.answers reader.old reader.new) }
    ensures trace { result ≢ Err ReplayFault.Read → (n : ℕ) × HasRead R.answers n reader.old reader.new }
    ensures write { IfErr result (λ fault. fault ≡ ReplayFault.Write → IsWriteFault W.fails writer.new) }
{
    let mut buffer = [0u8; MOST_BYTES + 1];
    let filled = read_script(reader, &mut buffer)?;
    run_text(alloc, &buffer[..filled], writer)
}

/// As `replay_on`, for a reader and a writer that are handed over. The last step is to let both go: nothing is read or
/// written after the answer or the fault.
pub fn replay<R: Source + Handover, W: Sink + Handover>(
    alloc: Global,
    mut reader: R,
    mut writer: W,
) -> Result<Replayed, ReplayFault>
    ensures ok { IfOk result (λ replayed. LetGo W.gone (λ last. IfSome (R.remaining reader) (λ bytes. IsReplay
        (text_events bytes) replayed (W.contents writer) (W.contents last)))) }
    ensures fault { IfErr result (λ fault. IfSome (R.remaining reader) (λ bytes. IsReplayFault
        (text_events bytes) fault)) }
    ensures unwritten { IfErr result (λ fault. fault ≢ ReplayFault.Write
        → LetGo W.gone (λ last. Keeps (W.contents writer) (W.contents last))) }
    ensures read { IfErr result (λ fault. fault ≡ ReplayFault.Read → LetGo R.gone (IsReadFault R.answers reader)) }
    ensures trace { result ≢ Err ReplayFault.Read → LetGo R.gone (λ last. (n : ℕ) × HasRead R.answers n reader last) }
    ensures write { IfErr result (λ fault. fault ≡ ReplayFault.Write → LetGo W.gone (IsWriteFault W.fails)) }
{
    let answer = replay_on(alloc, &mut reader, &mut writer);
    reader.let_go();
    writer.let_go();
    answer
}
