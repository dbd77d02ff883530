//! The lines that passed from a say to a hear, as flows from the turn of the one to the turn of the other.

ghost use Rattle.std.specs.Prelude.{◌≡◌, OnOk};
ghost use Rattle.boot_log.specs.Kept.{kept_in};
ghost use Rattle.boot_log.specs.Lines.{passings};
ghost use Rattle.trace_events.specs.Documents.{Prints};
ghost use Rattle.trace_events.specs.Traces.{last_of, numbered_events, passing_events};
ghost use Rattle.trace_events.specs.Tracks.{slice_start, turn_of_line};

use crate::events::{line_end, line_start};
use crate::fault::TraceFault;
use crate::output::print_later;
use crate::tracks::{ThreadTurns, turn_of_line};
use crate::turns::thread_track;
use boot_data::BootPlan;
use boot_log::{LineTurn, Log, Passing, passings_of};
use std::alloc::Global;
use std::io::Write;

/// When the turn of a line begins on the track of its thread.
fn start_of(turns: &ThreadTurns, turn: &LineTurn) -> u64
    ensures { result ≡ slice_start turns.now (turn_of_line turn.now) }
{
    turns.slice_start(&turn_of_line(turn))
}

/// The last nanosecond of a turn on the track of its thread, or its start there if it has none.
fn last_of(turns: &ThreadTurns, turn: &LineTurn) -> u64
    ensures { result ≡ last_of (slice_start turns.now) turn.now }
{
    let start = start_of(turns, turn);
    turn.ended.saturating_sub(1).max(start)
}

/// Prints where a line starts and where it arrives.
fn print_passing<W: Write>(
    alloc: Global,
    turns: &ThreadTurns,
    number: u64,
    passing: &Passing,
    out: &mut W,
) -> Result<(), TraceFault>
    ensures { OnOk result (Prints (W.contents out.old) (W.contents out.new)
        (passing_events (slice_start turns.now) number passing.now)) }
{
    let said = thread_track(passing.said.thread.number());
    let from = start_of(turns, &passing.said);
    let start = line_start(alloc, number, said, from)?;
    print_later(&start, out)?;
    let heard = thread_track(passing.heard.thread.number());
    let until = last_of(turns, &passing.heard);
    let end = line_end(alloc, number, heard, until)?;
    print_later(&end, out)
}

/// Prints all these lines.
fn print_passings<W: Write>(
    alloc: Global,
    turns: &ThreadTurns,
    all: &[Passing],
    out: &mut W,
) -> Result<(), TraceFault>
    ensures { OnOk result (Prints (W.contents out.old) (W.contents out.new)
        (numbered_events (passing_events (slice_start turns.now)) 0 all.now)) }
{
    for (number, passing) in all.iter().enumerate() {
        print_passing(alloc, turns, number as u64, passing, out)?;
    }
    Ok(())
}

/// Prints the lines that passed from a say to a hear. The first turns of all processors began at `from`.
pub(crate) fn print_flows<W: Write>(
    alloc: Global,
    plan: &BootPlan,
    turns: &ThreadTurns,
    from: u64,
    logs: &[&Log],
    out: &mut W,
) -> Result<(), TraceFault>
    ensures { OnOk result (Prints (W.contents out.old) (W.contents out.new)
        (numbered_events (passing_events (slice_start turns.now)) 0 (passings plan.now from (kept_in logs.now)))) }
{
    let all = passings_of(alloc, plan, from, logs)?;
    print_passings(alloc, turns, &all, out)
}
