//! The view of a boot of a script: a picture of its turns, or a trace.

ghost use Rattle.std.specs.Prelude.{◌≡◌, ◌≢◌, ◌≤◌, ℕ, length, Some, Ok, Err, IfOk, IfErr, IfSome};
ghost use Rattle.std.specs.Io.KnownBytes.{Keeps};
ghost use Rattle.boot_data.specs.BootPlans.{plan_of};
ghost use Rattle.boot_log.specs.Kept.{kept_in};
ghost use Rattle.boot_script.specs.Plans.{text_plan};
ghost use Rattle.boot_script.specs.StreamFaults.{HasRead, IsReadFault, IsWriteFault};
ghost use Rattle.processor.specs.Points.{calls};
ghost use Rattle.synth_kernel.specs.Boots.{IsBootFault, IsRead};
ghost use Rattle.synth_kernel.specs.declared.outcome.BootFault.{BootFault};
ghost use Rattle.boot_view.specs.Views.{IsPageOf, IsPictureOf, IsPrinted, IsViewed, logs_in};
ghost use Rattle.trace_events.specs.Documents.{trace_text};
ghost use Rattle.trace_events.specs.Traces.{trace_events};

use crate::boot_timer::BootTimer;
use crate::booting::boot_recorded;
use crate::command::{Command, View};
use crate::dropping::Dropper;
use boot_data::BootPlan;
use boot_log::{Log, Recorder, TurnClock};
use boot_picture::{Boot, picture_of};
use boot_script::{ScriptRefusal, Sink, Source, parse_boot, read_script};
use event_theory::OutOfMemory;
use processor::{Gate, Shared, TurnGate};
use std::alloc::Global;
use std::sync::Wait;
use svg::print_picture;
use synth_kernel::{BootFault, Booted, Ended, Witness, Work, Worked};
use trace_events::print_trace;

/// One byte more than a script may have, so that a longer one is seen.
const BUFFER: usize = 65_537;

/// The plan that a text says, or why there is none.
fn plan_said(alloc: Global, text: &[u8]) -> Result<BootPlan, BootFault>
    ensures read { IsRead (text_plan text.now) result }
    ensures unwritten { IfErr result (λ fault. (fault ≢ BootFault.Write) × (fault ≢ BootFault.Read)) }
{
    match parse_boot(alloc, text) {
        Ok(plan) => Ok(plan),
        Err(fault) => match fault.refusal {
            ScriptRefusal::OutOfMemory => Err(BootFault::Memory),
            _ => Err(BootFault::Script(fault)),
        },
    }
}

/// The logs of the processors.
fn logs_of<'a, C: TurnClock>(
    alloc: Global,
    gates: &'a [Recorder<C>],
) -> Result<Vec<&'a Log>, OutOfMemory>
    ensures { IfOk result (λ logs. kept_in logs.items ≡ logs_in gates.now) }
{
    let mut logs = Vec::new(alloc);
    for gate in gates {
        logs.push(gate.log())?;
    }
    Ok(logs)
}

/// The page with the trace of a boot that has ended, and that began at this time.
fn trace_of<C: TurnClock>(
    alloc: Global,
    plan: &BootPlan,
    from: u64,
    gates: &[Recorder<C>],
) -> Result<Vec<u8>, OutOfMemory>
    requires { length gates.now ≤ 8 }
    ensures { IfOk result (λ page. page.items ≡ trace_text (trace_events plan.now from (logs_in gates.now))) }
{
    let logs = logs_of(alloc, gates)?;
    let mut page = Vec::new(alloc);
    match print_trace(alloc, plan, from, &logs, &mut page) {
        Ok(()) => Ok(page),
        Err(_) => Err(OutOfMemory),
    }
}

/// The page with the picture of a boot that has ended, with the turns at their times or not.
fn drawn_of<C: TurnClock>(
    alloc: Global,
    boot: &Boot,
    by_time: bool,
    gates: &[Recorder<C>],
) -> Result<Vec<u8>, OutOfMemory>
    requires { length gates.now ≤ 8 }
    ensures { IfOk result (λ page. IsPictureOf by_time (logs_in gates.now) page.items) }
{
    let logs = logs_of(alloc, gates)?;
    let drawn = Boot { by_time, ..*boot };
    let picture = picture_of(alloc, &drawn, &logs)?;
    let mut page = Vec::new(alloc);
    match print_picture(&picture, &mut page) {
        Ok(()) => Ok(page),
        Err(_) => Err(OutOfMemory),
    }
}

/// The page with this view of a boot that has ended, and that began at this time.
fn page_of<C: TurnClock>(
    alloc: Global,
    boot: &Boot,
    view: View,
    from: u64,
    gates: &[Recorder<C>],
) -> Result<Vec<u8>, OutOfMemory>
    requires { length gates.now ≤ 8 }
    ensures { IfOk result (λ page. IsPageOf view boot.now.plan.now from (logs_in gates.now) page.items) }
{
    match view {
        View::InOrder => drawn_of(alloc, boot, false, gates),
        View::ByTime => drawn_of(alloc, boot, true, gates),
        View::Trace => trace_of(alloc, boot.plan, from, gates),
    }
}

/// Boots a script of this plan, and returns how the boot has ended, and the page with this view of it.
///
/// Condition: there are 1 to 8 processors.
fn view_plan<R, B, C>(
    rt: &R,
    clock: B,
    alloc: Global,
    command: Command,
    script: &[u8],
    plan: &BootPlan,
) -> Result<(Ended, Vec<u8>), OutOfMemory>
where
    R: Witness<Shared, Worked<Recorder<C>>, Work<Recorder<C>>>
        + Dropper<Booted<Recorder<C>>>
        + Wait
        + Sync,
    B: BootTimer<C> + Drop,
    C: TurnClock + Send + Drop,
    requires number { (1 ≤ command.processors) × (command.processors ≤ 8) }
    requires plan { text_plan script.now ≡ Ok (plan_of plan.now) }
    ensures ok { IfOk result (λ viewed. IsViewed R.ran R.shown
        (calls ⟦<Recorder<C> as Gate>⟧.observes ⟦<Recorder<C> as TurnGate>⟧.learns)
        (B.made clock) R.gone (B.read_by clock) (C.says (B.read_by clock) 0) command (Some script.now)
        viewed.0 viewed.1.items) }
{
    let mut report = Vec::new(alloc);
    let from = clock.boot_time(0);
    let booted = boot_recorded(rt, clock, alloc, from, command, script, &mut report)?;
    let boot = Boot {
        script,
        plan,
        turns: command.turns,
        report: &report,
        // the view says so
        by_time: false,
    };
    let page = page_of(alloc, &boot, command.view, from, booted.gates());
    let ended = booted.ended();
    rt.let_go(booted);
    let page = page?;
    Ok((ended, page))
}

/// Boots a script, and returns how the boot has ended, and the page with this view of it.
///
/// Condition: there are 1 to 8 processors.
fn view_script<R, B, C>(
    rt: &R,
    clock: B,
    alloc: Global,
    command: Command,
    script: &[u8],
) -> Result<(Ended, Vec<u8>), BootFault>
where
    R: Witness<Shared, Worked<Recorder<C>>, Work<Recorder<C>>>
        + Dropper<Booted<Recorder<C>>>
        + Wait
        + Sync,
    B: BootTimer<C> + Drop,
    C: TurnClock + Send + Drop,
    requires { (1 ≤ command.processors) × (command.processors ≤ 8) }
    ensures ok { IfOk result (λ viewed. IsViewed R.ran R.shown
        (calls ⟦<Recorder<C> as Gate>⟧.observes ⟦<Recorder<C> as TurnGate>⟧.learns)
        (B.made clock) R.gone (B.read_by clock) (C.says (B.read_by clock) 0) command (Some script.now)
        viewed.0 viewed.1.items) }
    ensures fault { IfErr result (λ fault. IsBootFault (text_plan script.now) fault) }
    ensures unwritten { IfErr result (λ fault. (fault ≢ BootFault.Write) × (fault ≢ BootFault.Read)) }
{
    let plan = plan_said(alloc, script)?;
    Ok(view_plan(rt, clock, alloc, command, script, &plan)?)
}

/// Boots the script that is read, and prints this view of the boot: a picture, or a trace, of the turns that a recorder
/// on each processor has kept. The turns that are kept are the first 50,000 of each processor, and no more than have
/// lines of 1,000,000 bytes together. Times are the clock's, in nanoseconds. The clock is read before the boot, and no
/// turn's time is before that. This boot alone had recorders of the clock, and what came back of it was let go.
///
/// Returns how the boot has ended. The script was read once. After a fault other than `Write` nothing was written.
/// `Script` is returned if the script is invalid, `Memory` if an allocation was refused or a thread couldn't be started,
/// `Read` if the reader failed, and `Write` if the writer did.
///
/// Condition: there are 1 to 8 processors.
pub fn view_on<R, B, C, I, O>(
    rt: &R,
    clock: B,
    alloc: Global,
    command: Command,
    reader: &mut I,
    writer: &mut O,
) -> Result<Ended, BootFault>
where
    R: Witness<Shared, Worked<Recorder<C>>, Work<Recorder<C>>>
        + Dropper<Booted<Recorder<C>>>
        + Wait
        + Sync,
    B: BootTimer<C> + Drop,
    C: TurnClock + Send + Drop,
    I: Source,
    O: Sink,
    requires { (1 ≤ command.processors) × (command.processors ≤ 8) }
    ensures ok { IfOk result (λ ended. IsPrinted R.ran R.shown
        (calls ⟦<Recorder<C> as Gate>⟧.observes ⟦<Recorder<C> as TurnGate>⟧.learns)
        (B.made clock) R.gone (B.read_by clock) (C.says (B.read_by clock) 0) command (I.remaining reader.old) ended
        (O.contents writer.old) (O.contents writer.new)) }
    ensures fault { IfErr result (λ fault. IfSome (I.remaining reader.old) (λ bytes. IsBootFault
        (text_plan bytes) fault)) }
    ensures unwritten { IfErr result (λ fault. fault ≢ BootFault.Write
        → Keeps (O.contents writer.old) (O.contents writer.new)) }
    ensures read { IfErr result (λ fault. fault ≡ BootFault.Read → IsReadFault I.answers reader.old reader.new) }
    ensures trace { result ≢ Err BootFault.Read → (n : ℕ) × HasRead I.answers n reader.old reader.new }
    ensures write { IfErr result (λ fault. fault ≡ BootFault.Write → IsWriteFault O.fails writer.new) }
{
    let mut buffer = [0u8; BUFFER];
    let filled = read_script(reader, &mut buffer)?;
    let (ended, page) = view_script(rt, clock, alloc, command, &buffer[..filled])?;
    match writer.write_text(&page) {
        Ok(()) => Ok(ended),
        Err(_) => Err(BootFault::Write),
    }
}
