//! The events of the turns of a processor, printed one after the other.

ghost use Rattle.std.specs.Prelude.{◌≡◌, ◌≤◌, IfOk, OnOk, length};
ghost use Rattle.std.specs.List.{prefix_len};
ghost use Rattle.boot_log.specs.Idling.{is_idle};
ghost use Rattle.boot_log.specs.Kept.{part_of};
ghost use Rattle.boot_log.specs.Values.{line_part};
ghost use Rattle.trace_events.specs.Documents.{IsEvent, Prints};
ghost use Rattle.trace_events.specs.Events.{turn_json};
ghost use Rattle.trace_events.specs.TurnArgs.{turn_args};
ghost use Rattle.trace_events.specs.TurnNames.{turn_name};
ghost use Rattle.trace_events.specs.Tracks.{slice_start};
ghost use Rattle.trace_events.specs.Turns.{idle_event, processor_track, run_events, run_length, runs_events};
ghost use Rattle.trace_events.specs.Turns.{runs_of, thread_track, turn_events};

use crate::events::{begin_turn, end_args};
use crate::fault::TraceFault;
use crate::members::put_number;
use crate::output::print_later;
use crate::tracks::{ThreadTurns, thread_turn_of};
use crate::turn_args::put_turn;
use crate::turn_names::turn_name;
use boot_data::BootPlan;
use boot_log::{Entry, Log, end_of};
use event_theory::OutOfMemory;
use std::alloc::Global;
use std::io::Write;

/// The track of a processor.
pub(crate) fn processor_track(processor: u8) -> u64
    ensures { result ≡ processor_track processor }
{
    u64::from(processor) + 1
}

/// The track of a thread.
pub(crate) fn thread_track(thread: u8) -> u64
    ensures { result ≡ thread_track thread }
{
    u64::from(thread) + 11
}

/// The text of a turn on a track.
fn turn_text(
    alloc: Global,
    plan: &BootPlan,
    log: &Log,
    processor: u8,
    from: u64,
    entry: &Entry,
    track: u64,
) -> Result<Vec<u8>, OutOfMemory>
    ensures { IfOk result (λ text. IsEvent text.items (turn_json (turn_name entry.now.did) track from entry.now.at
        (turn_args plan.now processor (part_of log.now.bytes (line_part entry.now.did)) entry.now))) }
{
    let line = log.line(entry.did.line());
    let mut out = begin_turn(alloc, turn_name(entry.did), track, from, entry.at)?;
    put_turn(alloc, &mut out, plan, processor as u64, line, entry)?;
    end_args(out)
}

/// The text of idle turns in a row.
fn idle_text(
    alloc: Global,
    processor: u8,
    from: u64,
    until: u64,
    turns: u64,
) -> Result<Vec<u8>, OutOfMemory>
    ensures { IfOk result (λ text. IsEvent text.items (idle_event processor from until turns)) }
{
    let mut out = begin_turn(alloc, "idle", processor_track(processor), from, until)?;
    put_number(&mut out, "processor", processor as u64)?;
    put_number(&mut out, "turns", turns)?;
    end_args(out)
}

/// Prints a turn, on the track of its processor and on that of the element that was at hand.
fn print_turn<W: Write>(
    alloc: Global,
    plan: &BootPlan,
    log: &Log,
    turns: &ThreadTurns,
    processor: u8,
    number: usize,
    from: u64,
    entry: &Entry,
    out: &mut W,
) -> Result<(), TraceFault>
    ensures { OnOk result (Prints (W.contents out.old) (W.contents out.new)
        (turn_events plan.now log.now.bytes (slice_start turns.now) processor number from entry.now)) }
{
    let text = turn_text(
        alloc,
        plan,
        log,
        processor,
        from,
        entry,
        processor_track(processor),
    )?;
    print_later(&text, out)?;
    match thread_turn_of(processor as usize, number, from, entry) {
        Some(turn) => {
            let start = turns.slice_start(&turn);
            let text = turn_text(
                alloc,
                plan,
                log,
                processor,
                start,
                entry,
                thread_track(turn.thread),
            )?;
            print_later(&text, out)
        }
        None => Ok(()),
    }
}

/// How many idle turns these turns begin with.
fn idle_front(entries: &[Entry]) -> usize
    ensures length { result ≡ prefix_len is_idle entries.now }
    ensures within { result ≤ length entries.now }
{
    for (count, entry) in entries.iter().enumerate() {
        if !entry.is_idle() {
            return count;
        }
    }
    entries.len()
}

/// How many turns the first run has.
fn run_length(entries: &[Entry]) -> usize
    ensures length { result ≡ run_length entries.now }
    ensures within { result ≤ length entries.now }
{
    match entries {
        [] => 0,
        [first, rest @ ..] if first.is_idle() => 1 + idle_front(rest),
        _ => 1,
    }
}

/// Prints a run, whose first turn has this number.
fn print_run<W: Write>(
    alloc: Global,
    plan: &BootPlan,
    log: &Log,
    turns: &ThreadTurns,
    processor: u8,
    number: usize,
    from: u64,
    run: &[Entry],
    out: &mut W,
) -> Result<(), TraceFault>
    ensures { OnOk result (Prints (W.contents out.old) (W.contents out.new)
        (run_events plan.now log.now.bytes (slice_start turns.now) processor number from run.now)) }
{
    let [entry, ..] = run else {
        return Ok(());
    };
    if entry.is_idle() {
        let text = idle_text(alloc, processor, from, end_of(from, run), run.len() as u64)?;
        return print_later(&text, out);
    }
    print_turn(alloc, plan, log, turns, processor, number, from, entry, out)
}

/// Prints the turns of a processor. The first one starts at `from`.
pub(crate) fn print_turns<W: Write>(
    alloc: Global,
    plan: &BootPlan,
    log: &Log,
    turns: &ThreadTurns,
    processor: u8,
    from: u64,
    entries: &[Entry],
    out: &mut W,
) -> Result<(), TraceFault>
    ensures { OnOk result (Prints (W.contents out.old) (W.contents out.new)
        (runs_events plan.now log.now.bytes (slice_start turns.now) processor 0 from (runs_of entries.now))) }
{
    let mut left = entries;
    let mut number = 0;
    let mut start = from;
    while !left.is_empty() {
        let (run, later) = left.split_at(run_length(left));
        print_run(alloc, plan, log, turns, processor, number, start, run, out)?;
        start = end_of(start, run);
        number += run.len();
        left = later;
    }
    Ok(())
}
