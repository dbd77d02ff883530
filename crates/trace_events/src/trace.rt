//! A whole trace: the names of its tracks, the turns of each processor, and the lines that passed.

ghost use Rattle.std.specs.Prelude.{◌≡◌, ◌<◌, ◌≤◌, ◌++◌, IfOk, OnOk, Some, codes, length, string_bytes};
ghost use Rattle.std.specs.Fmt.{decimal};
ghost use Rattle.std.specs.Io.KnownBytes.{Appends};
ghost use Rattle.json.specs.Json.{document};
ghost use Rattle.boot_log.specs.Kept.{kept_in};
ghost use Rattle.trace_events.specs.Documents.{Prints, trace_json, trace_text};
ghost use Rattle.trace_events.specs.Traces.{boot_events, log_events, numbered_events, processor_events};
ghost use Rattle.trace_events.specs.Traces.{thread_events, trace_events};
ghost use Rattle.trace_events.specs.Tracks.{slice_start};
ghost use Rattle.trace_events.specs.Turns.{missed_events};

use crate::events::{metadata_event, missed_event};
use crate::fault::TraceFault;
use crate::flows::print_flows;
use crate::output::{print_bytes, print_later};
use crate::texts::text_of;
use crate::tracks::ThreadTurns;
use crate::turns::{print_turns, processor_track};
use boot_data::BootPlan;
use boot_data::plan::PlannedThread;
use boot_log::{Log, end_of};
use event_theory::OutOfMemory;
use std::alloc::Global;
use std::io::Write;

/// The name of a processor's track.
fn processor_label(alloc: Global, processor: u8) -> Result<String, OutOfMemory>
    ensures { IfOk result (λ label. string_bytes label ≡ codes "processor " ++ decimal processor) }
{
    Ok(format!(in alloc; "processor {processor}")?)
}

/// Prints the name of a processor's track.
fn print_processor<W: Write>(alloc: Global, processor: u8, out: &mut W) -> Result<(), TraceFault>
    ensures { OnOk result (Prints (W.contents out.old) (W.contents out.new) (processor_events processor)) }
{
    let label = processor_label(alloc, processor)?;
    let track = processor_track(processor);
    let text = metadata_event(alloc, "thread_name", track, label.as_str())?;
    print_later(&text, out)
}

/// Prints the name of a thread's track.
fn print_thread<W: Write>(
    alloc: Global,
    number: usize,
    thread: &PlannedThread,
    out: &mut W,
) -> Result<(), TraceFault>
    requires { number < 64 }
    ensures { OnOk result (Prints (W.contents out.old) (W.contents out.new) (thread_events number thread.now)) }
{
    let label = text_of(alloc, thread.name.as_slice())?;
    let text = metadata_event(alloc, "thread_name", number as u64 + 11, label.as_str())?;
    print_later(&text, out)
}

/// Prints the names of all processors' tracks.
fn print_processors<W: Write>(alloc: Global, logs: &[&Log], out: &mut W) -> Result<(), TraceFault>
    requires { length logs.now ≤ 8 }
    ensures { OnOk result (Prints (W.contents out.old) (W.contents out.new)
        (numbered_events (λ processor log. processor_events processor) 0 (kept_in logs.now))) }
{
    for (processor, _) in logs.iter().enumerate() {
        print_processor(alloc, processor as u8, out)?;
    }
    Ok(())
}

/// Prints the names of all threads' tracks.
fn print_threads<W: Write>(
    alloc: Global,
    threads: &[PlannedThread],
    out: &mut W,
) -> Result<(), TraceFault>
    requires { length threads.now ≤ 64 }
    ensures { OnOk result (Prints (W.contents out.old) (W.contents out.new)
        (numbered_events thread_events 0 threads.now)) }
{
    for (number, thread) in threads.iter().enumerate() {
        print_thread(alloc, number, thread, out)?;
    }
    Ok(())
}

/// Prints how many turns of a processor were missed, if any was. The last one that was kept ended at `at`.
fn print_missed<W: Write>(
    alloc: Global,
    processor: u8,
    at: u64,
    missed: u64,
    out: &mut W,
) -> Result<(), TraceFault>
    ensures { OnOk result (Prints (W.contents out.old) (W.contents out.new) (missed_events processor at missed)) }
{
    if missed == 0 {
        return Ok(());
    }
    let text = missed_event(alloc, processor_track(processor), at, processor, missed)?;
    print_later(&text, out)
}

/// Prints the turns of a processor, and how many were missed.
fn print_log<W: Write>(
    alloc: Global,
    plan: &BootPlan,
    turns: &ThreadTurns,
    from: u64,
    processor: u8,
    log: &Log,
    out: &mut W,
) -> Result<(), TraceFault>
    ensures { OnOk result (Prints (W.contents out.old) (W.contents out.new)
        (log_events plan.now from (slice_start turns.now) processor log.now)) }
{
    let entries = log.entries();
    print_turns(alloc, plan, log, turns, processor, from, entries, out)?;
    print_missed(alloc, processor, end_of(from, entries), log.missed(), out)
}

/// Prints the turns of all processors.
fn print_logs<W: Write>(
    alloc: Global,
    plan: &BootPlan,
    turns: &ThreadTurns,
    from: u64,
    logs: &[&Log],
    out: &mut W,
) -> Result<(), TraceFault>
    requires { length logs.now ≤ 8 }
    ensures { OnOk result (Prints (W.contents out.old) (W.contents out.new)
        (numbered_events (log_events plan.now from (slice_start turns.now)) 0 (kept_in logs.now))) }
{
    for (processor, log) in logs.iter().enumerate() {
        print_log(alloc, plan, turns, from, processor as u8, log, out)?;
    }
    Ok(())
}

/// Prints the events of a boot after the name of its process.
fn print_events<W: Write>(
    alloc: Global,
    plan: &BootPlan,
    from: u64,
    logs: &[&Log],
    out: &mut W,
) -> Result<(), TraceFault>
    requires { length logs.now ≤ 8 }
    ensures { OnOk result (Prints (W.contents out.old) (W.contents out.new)
        (boot_events plan.now from (kept_in logs.now))) }
{
    let turns = ThreadTurns::of(alloc, from, logs)?;
    print_processors(alloc, logs, out)?;
    print_threads(alloc, plan.threads.as_slice(), out)?;
    print_logs(alloc, plan, &turns, from, logs, out)?;
    print_flows(alloc, plan, &turns, from, logs, out)
}

/// Prints the trace of a boot as one JSON value: the name of the process, those of the tracks, the turns, and the lines
/// that passed from a say to a hear.
///
/// `logs` has the log of each processor, from 0 on, at most 8 of them. `from` is what the clock said when the first
/// turns began, in nanoseconds. `Memory` is returned if an allocation was refused, and `Write` if the writer returned
/// an error. What was printed is then no JSON value.
pub fn print_trace<W: Write>(
    alloc: Global,
    plan: &BootPlan,
    from: u64,
    logs: &[&Log],
    out: &mut W,
) -> Result<(), TraceFault>
    requires { length logs.now ≤ 8 }
    ensures text { OnOk result (Appends (W.contents out.old) (W.contents out.new)
        (trace_text (trace_events plan.now from (kept_in logs.now)))) }
    ensures value { OnOk result (document (trace_text (trace_events plan.now from (kept_in logs.now)))
        ≡ Some (trace_json (trace_events plan.now from (kept_in logs.now)))) }
{
    let text = metadata_event(alloc, "process_name", 0, "synthesis")?;
    print_bytes(b"{\"traceEvents\":[", out)?;
    print_bytes(&text, out)?;
    print_events(alloc, plan, from, logs, out)?;
    print_bytes(b"],\"displayTimeUnit\":\"ns\"}", out)
}
