//! The turns in which a line was put into a queue, or taken from it.

ghost use Rattle.std.specs.Prelude.{◌≡◌, ◌++◌, IfOk, OnOk};
ghost use Rattle.boot_log.specs.Kept.{kept_in};
ghost use Rattle.boot_log.specs.Lines.{all_line_turns, line_turn_of, line_turns, queue_of, queue_put, queue_taken};

use crate::entry::{Did, Entry, HeardAnswer, Part, SaidAnswer, Tried};
use crate::log::Log;
use boot_data::plan::QueueIndex;
use event_theory::{Element, OutOfMemory};
use std::alloc::Global;

/// Which way a line went.
#[derive(Clone, Copy, Debug)]
pub enum Way {
    /// A say put it into a queue.
    Put,
    /// A hear took it from a queue.
    Taken,
}

/// A turn in which a line was put into a queue, or taken from it.
#[derive(Clone, Copy, Debug)]
pub struct LineTurn {
    /// The processor, by the place of its log.
    pub processor: usize,
    /// The number of the turn on its processor, from 0 on.
    pub turn: usize,
    /// The thread whose step it was.
    pub thread: Element,
    pub queue: QueueIndex,
    /// The part of the log's bytes that is the line.
    pub line: Part,
    /// When the turn began and when it ended, in nanoseconds.
    pub began: u64,
    pub ended: u64,
}

/// The queue into which a step put a line, if it did.
fn queue_put(tried: Tried) -> Option<QueueIndex>
    ensures { result ≡ queue_put tried }
{
    match tried {
        Tried::Say {
            queue,
            answer: SaidAnswer::Put(_),
        } => Some(queue),
        _ => None,
    }
}

/// The queue from which a step took a line, if it did.
fn queue_taken(tried: Tried) -> Option<QueueIndex>
    ensures { result ≡ queue_taken tried }
{
    match tried {
        Tried::Hear {
            queue,
            answer: HeardAnswer::Taken(_),
        } => Some(queue),
        _ => None,
    }
}

/// The queue through which a step passed a line this way, if it did.
fn queue_of(way: Way, tried: Tried) -> Option<QueueIndex>
    ensures { result ≡ queue_of way tried }
{
    match way {
        Way::Put => queue_put(tried),
        Way::Taken => queue_taken(tried),
    }
}

/// The turn of a line that went this way, if the entry has one.
fn line_turn_of(
    way: Way,
    processor: usize,
    turn: usize,
    began: u64,
    entry: &Entry,
) -> Option<LineTurn>
    ensures { result ≡ line_turn_of way processor turn began entry.now }
{
    match entry.did {
        Did::Stepped {
            begun,
            tried,
            line,
            ..
        } => match queue_of(way, tried) {
            Some(queue) => Some(LineTurn {
                processor,
                turn,
                thread: begun.element,
                queue,
                line,
                began,
                ended: entry.at,
            }),
            None => None,
        },
        _ => None,
    }
}

/// Appends the turns of a processor's lines that went this way. Its first turn began at `from`.
fn add_line_turns(
    all: &mut Vec<LineTurn>,
    way: Way,
    processor: usize,
    from: u64,
    entries: &[Entry],
) -> Result<(), OutOfMemory>
    ensures { OnOk result (all.new.items ≡ all.old.items ++ line_turns way processor 0 from entries.now) }
{
    let mut began = from;
    for (turn, entry) in entries.iter().enumerate() {
        if let Some(it) = line_turn_of(way, processor, turn, began, entry) {
            all.push(it)?;
        }
        began = entry.at;
    }
    Ok(())
}

/// The turns of all lines that went this way, processor by processor. The first turns began at `from`.
pub(crate) fn all_line_turns(
    alloc: Global,
    way: Way,
    from: u64,
    logs: &[&Log],
) -> Result<Vec<LineTurn>, OutOfMemory>
    ensures { IfOk result (λ all. all.items ≡ all_line_turns way from 0 (kept_in logs.now)) }
{
    let mut all = Vec::new(alloc);
    for (processor, log) in logs.iter().enumerate() {
        add_line_turns(&mut all, way, processor, from, log.entries())?;
    }
    Ok(all)
}
