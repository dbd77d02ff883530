//! The lines that passed from a say to a hear.
//!
//! A log doesn't have the positions of lines in a queue, so lines are joined by their texts. The nth taking of a text
//! from a queue is joined to the nth putting of this text into the queue, by the clock at the end of the turns, if the
//! put began no later than the taking ended. No line is joined to one of another text or of another queue.
//!
//! What a pump, a switch or a tty's device puts or takes is in no log, so at a queue that one of these uses no line is
//! joined. Nor is one at a queue into which the plan says a text of several lines: one say puts them, and several hears
//! take them. If a log missed turns, only those turns count that ended before the last one that it kept.

ghost use Rattle.std.specs.Prelude.{◌≡◌, ◌&&◌, ◌==◌, nat_le, IfOk, map};
ghost use Rattle.std.specs.List.{filter_map, find};
ghost use Rattle.boot_log.specs.Kept.{kept_in};
ghost use Rattle.boot_log.specs.Lines.{are_same, count_before, is_before, passing_of, passings, text_of};

use crate::counted::counted_turns;
use crate::line_turn::{LineTurn, Way};
use crate::log::Log;
use crate::thread_queues::is_same_queue;
use boot_data::BootPlan;
use event_theory::OutOfMemory;
use std::alloc::Global;

/// A line that passed from the turn that put it into a queue to the turn that took it.
#[derive(Clone, Copy, Debug)]
pub struct Passing {
    pub said: LineTurn,
    pub heard: LineTurn,
}

/// The text of a turn's line.
fn text_of<'a>(logs: &[&'a Log], turn: &LineTurn) -> &'a [u8]
    ensures { result.now ≡ text_of (kept_in logs.now) turn.now }
{
    match logs.get(turn.processor) {
        Some(log) => log.line(turn.line),
        None => &[],
    }
}

/// Whether two turns are of lines of one text and of one queue.
fn are_same(logs: &[&Log], one: &LineTurn, other: &LineTurn) -> bool
    ensures { result ≡ are_same (kept_in logs.now) one.now other.now }
{
    is_same_queue(one.queue, other.queue) && text_of(logs, one) == text_of(logs, other)
}

/// Whether a turn comes before another: by the clock at its end, and at one time by the processor and the turn.
fn is_before(one: &LineTurn, other: &LineTurn) -> bool
    ensures { result ≡ is_before one.now other.now }
{
    if one.ended != other.ended {
        return one.ended < other.ended;
    }
    if one.processor != other.processor {
        return one.processor < other.processor;
    }
    one.turn < other.turn
}

/// How many of these lines are of one text and queue with the line of this turn, and come before it.
fn count_before(logs: &[&Log], all: &[LineTurn], turn: &LineTurn) -> usize
    ensures { result ≡ count_before (kept_in logs.now) all.now turn.now }
{
    all.iter()
        .filter(|other| are_same(logs, other, turn) && is_before(other, turn))
        .count()
}

/// How many lines of its text and queue come before each of these.
fn counts_before(alloc: Global, logs: &[&Log], all: &[LineTurn]) -> Result<Vec<usize>, OutOfMemory>
    ensures { IfOk result (λ counts. counts.items ≡ map (count_before (kept_in logs.now) all.now) all.now) }
{
    Ok(
        all.iter()
            .map(|turn| count_before(logs, all, turn))
            .collect(alloc)?,
    )
}

/// The turn that put the line that this turn took, and that began no later than this one ended. `counts` has how many
/// of its lines come before each putting, and `before` how many come before this taking.
fn put_of(
    logs: &[&Log],
    puts: &[LineTurn],
    counts: &[usize],
    taken: &LineTurn,
    before: usize,
) -> Option<LineTurn>
    requires { counts.now ≡ map (count_before (kept_in logs.now) puts.now) puts.now }
    ensures { result ≡ find (λ put. are_same (kept_in logs.now) put taken.now
        && (count_before (kept_in logs.now) puts.now put == before) && nat_le put.began taken.now.ended) puts.now }
{
    for (number, put) in puts.iter().enumerate() {
        if are_same(logs, put, taken) && counts[number] == before && put.began <= taken.ended {
            return Some(*put);
        }
    }
    None
}

/// The line that this turn took, with the turn that put it, if a say did. `counts` has how many lines come before each
/// putting.
fn passing_of(
    logs: &[&Log],
    puts: &[LineTurn],
    counts: &[usize],
    takings: &[LineTurn],
    heard: &LineTurn,
) -> Option<Passing>
    requires { counts.now ≡ map (count_before (kept_in logs.now) puts.now) puts.now }
    ensures { result ≡ passing_of (kept_in logs.now) puts.now takings.now heard.now }
{
    let before = count_before(logs, takings, heard);
    match put_of(logs, puts, counts, heard, before) {
        Some(said) => Some(Passing {
            said,
            heard: *heard,
        }),
        None => None,
    }
}

/// The lines that passed from these puttings to these takings, in the order of the takings.
fn joined(
    alloc: Global,
    logs: &[&Log],
    puts: &[LineTurn],
    takings: &[LineTurn],
) -> Result<Vec<Passing>, OutOfMemory>
    ensures { IfOk result (λ all. all.items
        ≡ filter_map (passing_of (kept_in logs.now) puts.now takings.now) takings.now) }
{
    let counts = counts_before(alloc, logs, puts)?;
    let mut all = Vec::new(alloc);
    for heard in takings {
        if let Some(passing) = passing_of(logs, puts, &counts, takings, heard) {
            all.push(passing)?;
        }
    }
    Ok(all)
}

/// The lines that passed from a say to a hear, in the order of the turns that took them, processor by processor. The
/// first turns of all processors began at `from`.
///
/// `plan` is that of the boot, and `logs` has the log of each processor, from 0 on. A line is joined only at a queue or
/// pipe that no pump or switch takes lines from or puts lines into, and into which no thread says a text with a 0x0A in
/// it. If a log missed turns, only those turns count that ended before the last one that it kept, or none, if it kept
/// none.
pub fn passings_of(
    alloc: Global,
    plan: &BootPlan,
    from: u64,
    logs: &[&Log],
) -> Result<Vec<Passing>, OutOfMemory>
    ensures { IfOk result (λ all. all.items ≡ passings plan.now from (kept_in logs.now)) }
{
    let puts = counted_turns(alloc, Way::Put, plan, from, logs)?;
    let takings = counted_turns(alloc, Way::Taken, plan, from, logs)?;
    joined(alloc, logs, &puts, &takings)
}
