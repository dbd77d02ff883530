//! A boot, from the bytes of its script to the printed report.
ghost use Rattle.std.specs.Prelude.{◌≡◌, ◌≢◌, ◌≤◌, ℕ, List, vec_len, Err, IfOk, IfErr, IfSome};
ghost use Rattle.std.specs.Io.KnownBytes.{Keeps};
ghost use Rattle.boot_script.specs.Plans.{text_plan};
ghost use Rattle.boot_script.specs.StreamFaults.{HasRead, IsReadFault, IsWriteFault, LetGo};
ghost use Rattle.boot_objects.specs.declared.closing.all.TornDown.{TornDown};
ghost use Rattle.processor.specs.Points.{calls};
ghost use Rattle.synth_kernel.specs.Boots.{BootWithHooks, CameBackPlain, HasNumbers, IsBoot, IsBootFault};
ghost use Rattle.synth_kernel.specs.Boots.{IsRead, ended_in};

use crate::outcome::{BootFault, Ended};
use crate::printing::{Booted, boot_and_print};
use boot_data::BootPlan;
use boot_script::{Handover, ScriptRefusal, Sink, Source, parse_boot, read_script};
use boot_threads::{Witness, Work, Worked};
use event_theory::OutOfMemory;
use processor::{Shared, TurnGate};
use std::alloc::Global;
use std::sync::Wait;
use turn_io::NoGate;

/// The maximum number of bytes of a script, and one more.
const BUFFER_BYTES: usize = 65_537;

// The plan that a text says, or why there is none.
fn plan_said(alloc: Global, text: &[u8]) -> Result<BootPlan, BootFault>
    ensures read { IsRead (text_plan text.now) result }
    ensures unwritten { IfErr result (λ fault. fault ≢ BootFault.Write) }
    ensures unread { IfErr result (λ fault. fault ≢ BootFault.Read) }
{
    match parse_boot(alloc, text) {
        Ok(plan) => Ok(plan),
        Err(fault) => match fault.refusal {
            ScriptRefusal::OutOfMemory => Err(BootFault::Memory),
            _ => Err(BootFault::Script(fault)),
        },
    }
}

// The plan that is read, or why there is none.
fn read_plan<I: Source>(alloc: Global, reader: &mut I) -> Result<BootPlan, BootFault>
    ensures read { IfSome (I.remaining reader.old) (λ bytes. IsRead (text_plan bytes) result) }
    ensures unwritten { IfErr result (λ fault. fault ≢ BootFault.Write) }
    ensures error { IfErr result (λ fault. fault ≡ BootFault.Read → IsReadFault I.answers reader.old reader.new) }
    ensures trace { result ≢ Err BootFault.Read → (n : ℕ) × HasRead I.answers n reader.old reader.new }
{
    let mut buffer = [0u8; BUFFER_BYTES];
    let filled = read_script(reader, &mut buffer)?;
    plan_said(alloc, &buffer[..filled])
}

// So many gates that do nothing.
pub(crate) fn no_gates(alloc: Global, processors: u8) -> Result<Vec<NoGate>, OutOfMemory>
    ensures { IfOk result (λ gates. vec_len gates ≡ processors) }
{
    let mut gates = Vec::with_capacity(alloc, processors as usize)?;
    for number in 0..processors {
        gates.push_reserved(NoGate);
    }
    Ok(gates)
}

/// Boots the script that is read on so many processors, with so many turns on each, and prints the report. The answer
/// has both numbers, and the result of closing all, whose numbers the report has. The gates are those that do nothing.
///
/// After a fault other than `Write` nothing was written. `Memory` is returned only if the text is valid: an allocation
/// was refused, or a thread could not be started. `Read` is returned only if the last call on the reader returned an
/// error other than an interruption, or at 131,072 calls. Any other answer comes only if the last call found the end,
/// or read a byte too much. `Write` is returned only if the last call on the writer returned an error.
///
/// Condition: there are 1 to 8 processors.
pub fn boot_on<R, I, O>(
    rt: &R,
    alloc: Global,
    reader: &mut I,
    writer: &mut O,
    processors: u8,
    turns: u32,
) -> Result<Booted<NoGate>, BootFault>
where
    R: Witness<Shared, Worked<NoGate>, Work<NoGate>> + Wait + Sync,
    I: Source,
    O: Sink,
    requires { (1 ≤ processors) × (processors ≤ 8) }
    ensures numbers { IfOk result (HasNumbers processors turns) }
    ensures ok { IfOk result (λ booted. IsBoot (CameBackPlain R.ran R.shown processors turns booted.gates.items
        booted.closed) (I.remaining reader.old) booted.ended (O.contents writer.old) (O.contents writer.new)) }
    ensures fault { IfErr result (λ fault. IfSome (I.remaining reader.old) (λ bytes. IsBootFault
        (text_plan bytes) fault)) }
    ensures unwritten { IfErr result (λ fault. fault ≢ BootFault.Write
        → Keeps (O.contents writer.old) (O.contents writer.new)) }
    ensures read { IfErr result (λ fault. fault ≡ BootFault.Read → IsReadFault I.answers reader.old reader.new) }
    ensures trace { result ≢ Err BootFault.Read → (n : ℕ) × HasRead I.answers n reader.old reader.new }
    ensures write { IfErr result (λ fault. fault ≡ BootFault.Write → IsWriteFault O.fails writer.new) }
{
    let plan = read_plan(alloc, reader)?;
    let idle = no_gates(alloc, processors)?;
    boot_and_print(rt, alloc, plan, writer, processors, turns, idle)
}

/// Boots the script as `boot_on` does, with a gate for each processor, from 0 on, which the processor calls between the
/// parts of its turns. If the boot returns `Ok`, the gates come back, each at its place. Each gate was called with the
/// number of each turn, followed by the points of the turn's step, and with nothing else. The result of closing all
/// comes back too, and the report has its numbers.
///
/// Conditions: there are 1 to 8 processors, and a gate for each.
pub fn boot_on_with<R, I, O, G>(
    rt: &R,
    alloc: Global,
    reader: &mut I,
    writer: &mut O,
    processors: u8,
    turns: u32,
    gates: Vec<G>,
) -> Result<Booted<G>, BootFault>
where
    R: Witness<Shared, Worked<G>, Work<G>> + Wait + Sync,
    I: Source,
    O: Sink,
    G: TurnGate + Send + Drop,
    requires number { (1 ≤ processors) × (processors ≤ 8) }
    requires gates { vec_len gates ≡ processors }
    ensures numbers { IfOk result (HasNumbers processors turns) }
    ensures ok { IfOk result (λ booted. IsBoot (BootWithHooks R.ran R.shown (calls G.observes G.learns) turns gates.items booted.gates.items
        booted.closed) (I.remaining reader.old) booted.ended (O.contents writer.old) (O.contents writer.new)) }
    ensures fault { IfErr result (λ fault. IfSome (I.remaining reader.old) (λ bytes. IsBootFault
        (text_plan bytes) fault)) }
    ensures unwritten { IfErr result (λ fault. fault ≢ BootFault.Write
        → Keeps (O.contents writer.old) (O.contents writer.new)) }
    ensures read { IfErr result (λ fault. fault ≡ BootFault.Read → IsReadFault I.answers reader.old reader.new) }
    ensures trace { result ≢ Err BootFault.Read → (n : ℕ) × HasRead I.answers n reader.old reader.new }
    ensures write { IfErr result (λ fault. fault ≡ BootFault.Write → IsWriteFault O.fails writer.new) }
{
    let plan = read_plan(alloc, reader)?;
    boot_and_print(rt, alloc, plan, writer, processors, turns, gates)
}

// The answer of a boot alone. All else that came of the boot is dropped.
fn ended_alone<G: Drop>(answer: Result<Booted<G>, BootFault>) -> Result<Ended, BootFault>
    ensures { result ≡ ended_in answer }
{
    match answer {
        Ok(booted) => {
            let ended = booted.ended();
            // A call drops all fields. Without it the proof goes through each of them here, which takes long.
            drop(booted);
            Ok(ended)
        }
        Err(fault) => Err(fault),
    }
}

/// Boots the script as `boot_on` does, with a reader and a writer that are handed over. The last step is to let both go:
/// nothing is read or written after the answer or the fault.
///
/// Condition: there are 1 to 8 processors.
pub fn boot<R, I, O>(
    rt: &R,
    alloc: Global,
    mut reader: I,
    mut writer: O,
    processors: u8,
    turns: u32,
) -> Result<Ended, BootFault>
where
    R: Witness<Shared, Worked<NoGate>, Work<NoGate>> + Wait + Sync,
    I: Source + Handover,
    O: Sink + Handover,
    requires { (1 ≤ processors) × (processors ≤ 8) }
    ensures ok { IfOk result (λ ended. (back : List NoGate) × (closed : TornDown) × LetGo O.gone (λ last. IsBoot
        (CameBackPlain R.ran R.shown processors turns back closed) (I.remaining reader)
        ended (O.contents writer) (O.contents last))) }
    ensures fault { IfErr result (λ fault. IfSome (I.remaining reader) (λ bytes. IsBootFault (text_plan bytes)
        fault)) }
    ensures unwritten { IfErr result (λ fault. fault ≢ BootFault.Write
        → LetGo O.gone (λ last. Keeps (O.contents writer) (O.contents last))) }
    ensures read { IfErr result (λ fault. fault ≡ BootFault.Read → LetGo I.gone (IsReadFault I.answers reader)) }
    ensures trace { result ≢ Err BootFault.Read → LetGo I.gone (λ last. (n : ℕ) × HasRead I.answers n reader last) }
    ensures write { IfErr result (λ fault. fault ≡ BootFault.Write → LetGo O.gone (IsWriteFault O.fails)) }
{
    let answer = boot_on(rt, alloc, &mut reader, &mut writer, processors, turns);
    let ended = ended_alone(answer);
    reader.let_go();
    writer.let_go();
    ended
}

/// Boots the script as `boot_on_with` does, with a reader and a writer that are handed over. The last step is to let
/// both go. The gates don't come back.
///
/// Conditions: there are 1 to 8 processors, and a gate for each.
pub fn boot_with<R, I, O, G>(
    rt: &R,
    alloc: Global,
    mut reader: I,
    mut writer: O,
    processors: u8,
    turns: u32,
    gates: Vec<G>,
) -> Result<Ended, BootFault>
where
    R: Witness<Shared, Worked<G>, Work<G>> + Wait + Sync,
    I: Source + Handover,
    O: Sink + Handover,
    G: TurnGate + Send + Drop,
    requires number { (1 ≤ processors) × (processors ≤ 8) }
    requires gates { vec_len gates ≡ processors }
    ensures ok { IfOk result (λ ended. (back : List G) × (closed : TornDown) × LetGo O.gone (λ last. IsBoot
        (BootWithHooks R.ran R.shown (calls G.observes G.learns) turns gates.items back closed) (I.remaining reader)
        ended (O.contents writer) (O.contents last))) }
    ensures fault { IfErr result (λ fault. IfSome (I.remaining reader) (λ bytes. IsBootFault (text_plan bytes)
        fault)) }
    ensures unwritten { IfErr result (λ fault. fault ≢ BootFault.Write
        → LetGo O.gone (λ last. Keeps (O.contents writer) (O.contents last))) }
    ensures read { IfErr result (λ fault. fault ≡ BootFault.Read → LetGo I.gone (IsReadFault I.answers reader)) }
    ensures trace { result ≢ Err BootFault.Read → LetGo I.gone (λ last. (n : ℕ) × HasRead I.answers n reader last) }
    ensures write { IfErr result (λ fault. fault ≡ BootFault.Write → LetGo O.gone (IsWriteFault O.fails)) }
{
    let answer = boot_on_with(
        rt,
        alloc,
        &mut reader,
        &mut writer,
        processors,
        turns,
        gates,
    );
    let ended = ended_alone(answer);
    reader.let_go();
    writer.let_go();
    ended
}
