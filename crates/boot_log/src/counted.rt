//! The turns of lines that are counted: at queues that only threads use, line by line, and before any turn that a log
//! missed.

ghost use Rattle.std.specs.Prelude.{◌≡◌, IfOk};
ghost use Rattle.boot_log.specs.Counting.{has_all_until, is_counted, is_known};
ghost use Rattle.boot_log.specs.Kept.{kept_in};
ghost use Rattle.boot_log.specs.Lines.{counted_turns};

use crate::entry::end_of;
use crate::line_turn::{LineTurn, Way, all_line_turns};
use crate::log::Log;
use crate::thread_queues::{has_single_lines, is_of_threads};
use boot_data::BootPlan;
use event_theory::OutOfMemory;
use std::alloc::Global;

/// Whether the log has each turn of its processor that ended by this time: none was missed, or the last one that is
/// kept ended later. If none is kept, the missed ones began at `from`.
fn has_all_until(from: u64, time: u64, log: &Log) -> bool
    ensures { result ≡ has_all_until from time log.now }
{
    log.missed() == 0 || time < end_of(from, log.entries())
}

/// Whether the logs have each turn that ended by the end of this one.
fn is_known(from: u64, logs: &[&Log], turn: &LineTurn) -> bool
    ensures { result ≡ is_known from (kept_in logs.now) turn.now }
{
    for log in logs {
        if !has_all_until(from, turn.ended, log) {
            return false;
        }
    }
    true
}

/// Whether a turn is counted: only threads use its queue, line by line, and the logs have each turn up to its end.
fn is_counted(plan: &BootPlan, from: u64, logs: &[&Log], turn: &LineTurn) -> bool
    ensures { result ≡ is_counted plan.now from (kept_in logs.now) turn.now }
{
    is_of_threads(plan, turn.queue)
        && is_known(from, logs, turn)
        && has_single_lines(plan, turn.queue)
}

/// The turns of all lines that went this way, and that are counted, processor by processor. The first turns began at
/// `from`.
pub(crate) fn counted_turns(
    alloc: Global,
    way: Way,
    plan: &BootPlan,
    from: u64,
    logs: &[&Log],
) -> Result<Vec<LineTurn>, OutOfMemory>
    ensures { IfOk result (λ all. all.items ≡ counted_turns way plan.now from (kept_in logs.now)) }
{
    let all = all_line_turns(alloc, way, from, logs)?;
    Ok(
        all.iter()
            .copied()
            .filter(|turn| is_counted(plan, from, logs, turn))
            .collect(alloc)?,
    )
}
