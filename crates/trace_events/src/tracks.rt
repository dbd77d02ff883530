//! The tracks of threads: when each turn begins there.
//!
//! A turn is recorded at its end, and is taken to begin when the one before it on its processor ended. If its thread
//! was on another processor then, the turn begins on the thread's track when the thread's last turn ended.

ghost use Rattle.std.specs.Prelude.{◌≡◌, ◌≤◌, ◌-◌, ◌++◌, IfOk, IsPermutation, OnOk, false, length, true};
ghost use Rattle.std.specs.List.Sorted.{IsPartitionPoint, IsSortedBy};
ghost use Rattle.boot_log.specs.Kept.{kept_in};
ghost use Rattle.trace_events.specs.Tracks.{all_thread_turns, comes_before, element_of, element_taken, is_first_of};
ghost use Rattle.trace_events.specs.Tracks.{last_end, precedes, slice_start, sorts_before, thread_turn_of};
ghost use Rattle.trace_events.specs.Tracks.{thread_turns, turn_of_line};

use boot_log::{Did, Entry, LineTurn, Log};
use event_theory::OutOfMemory;
use std::alloc::Global;
use std::marker::Model;
use turn_dispatch::Idle;

/// A turn that had an element at hand.
#[derive(Clone, Copy, Debug)]
pub(crate) struct ThreadTurn {
    /// The number of the element.
    pub thread: u8,
    pub processor: usize,
    /// The number of the turn on its processor, from 0 on.
    pub number: usize,
    /// When the turn began on its processor, and when it ended.
    pub began: u64,
    pub ended: u64,
}

/// The turns of all threads, sorted by the threads, and those of a thread as they come. Contracts see the sorted list.
#[derive(Drop)]
pub(crate) struct ThreadTurns {
    sorted: Vec<ThreadTurn>,
}

impl Model for ThreadTurns {
    ghost use Rattle.std.specs.Prelude.{List};
    ghost use Rattle.std.specs.List.Sorted.{IsSortedBy};
    ghost use Rattle.trace_events.specs.declared.tracks.ThreadTurn.{ThreadTurn};
    ghost use Rattle.trace_events.specs.Tracks.{sorts_before};

    ghost Value = { List ThreadTurn };

    ghost view = { λ turns. turns.sorted.items };

    ghost invariant = { λ turns. IsSortedBy sorts_before turns.sorted.items };
}

impl ThreadTurns {
    /// The turns of threads in these logs. The first turns of all processors began at `from`.
    pub(crate) fn of(alloc: Global, from: u64, logs: &[&Log]) -> Result<Self, OutOfMemory>
        ensures { IfOk result (λ turns. IsPermutation (all_thread_turns from 0 (kept_in logs.now)) turns) }
    {
        let mut sorted = all_thread_turns(alloc, from, logs)?;
        sort(&mut sorted);
        Ok(ThreadTurns { sorted })
    }

    /// When a turn begins on the track of its thread.
    pub(crate) fn slice_start(&self, turn: &ThreadTurn) -> u64
        ensures { result ≡ slice_start self.now turn.now }
    {
        last_end(&self.sorted, turn).max(turn.began)
    }
}

/// The number of the element that a turn without one at hand took from the ready ring, if it took one.
fn element_taken(idle: Idle) -> Option<u8>
    ensures { result ≡ element_taken idle }
{
    match idle {
        Idle::NothingReady(_) => None,
        Idle::Parked(element) => Some(element.number()),
        Idle::ParkLost { element, .. } => Some(element.number()),
    }
}

/// The number of the element that was at hand, if there was one.
fn element_of(did: Did) -> Option<u8>
    ensures { result ≡ element_of did }
{
    match did {
        Did::Idle(idle) => element_taken(idle),
        Did::Retired { begun, .. } => Some(begun.element.number()),
        Did::Stepped { begun, .. } => Some(begun.element.number()),
    }
}

/// The turn of a thread that an entry is, if an element was at hand.
pub(crate) fn thread_turn_of(
    processor: usize,
    number: usize,
    began: u64,
    entry: &Entry,
) -> Option<ThreadTurn>
    ensures { result ≡ thread_turn_of processor number began entry.now }
{
    match element_of(entry.did) {
        Some(thread) => Some(ThreadTurn {
            thread,
            processor,
            number,
            began,
            ended: entry.at,
        }),
        None => None,
    }
}

/// The turn of a line, as a turn of its thread.
pub(crate) fn turn_of_line(line: &LineTurn) -> ThreadTurn
    ensures { result ≡ turn_of_line line.now }
{
    ThreadTurn {
        thread: line.thread.number(),
        processor: line.processor,
        number: line.turn,
        began: line.began,
        ended: line.ended,
    }
}

/// Appends the turns of threads on a processor, whose first turn began at `from`.
fn add_thread_turns(
    all: &mut Vec<ThreadTurn>,
    processor: usize,
    from: u64,
    entries: &[Entry],
) -> Result<(), OutOfMemory>
    ensures { OnOk result (all.new.items ≡ all.old.items ++ thread_turns processor 0 from entries.now) }
{
    let mut began = from;
    for (number, entry) in entries.iter().enumerate() {
        if let Some(turn) = thread_turn_of(processor, number, began, entry) {
            all.push(turn)?;
        }
        began = entry.at;
    }
    Ok(())
}

/// The turns of threads on all processors, whose first turns began at `from`.
fn all_thread_turns(alloc: Global, from: u64, logs: &[&Log]) -> Result<Vec<ThreadTurn>, OutOfMemory>
    ensures { IfOk result (λ all. all.items ≡ all_thread_turns from 0 (kept_in logs.now)) }
{
    let mut all = Vec::new(alloc);
    for (processor, log) in logs.iter().enumerate() {
        add_thread_turns(&mut all, processor, from, log.entries())?;
    }
    Ok(all)
}

/// Sorts turns by their threads, and those of a thread as they come.
fn sort(turns: &mut [ThreadTurn])
    ensures all { IsPermutation turns.old turns.new }
    ensures sorted { IsSortedBy sorts_before turns.new }
{
    turns.sort_unstable_by_key(|turn| (turn.thread, turn.ended, turn.processor, turn.number));
}

/// Whether a turn comes before another at one time: by the processor, and then by the number.
fn is_first_of(one: &ThreadTurn, other: &ThreadTurn) -> bool
    ensures { result ≡ is_first_of one.now other.now }
{
    if one.processor != other.processor {
        return one.processor < other.processor;
    }
    one.number < other.number
}

/// Whether a turn comes before another: by the clock at its end.
fn comes_before(one: &ThreadTurn, other: &ThreadTurn) -> bool
    ensures { result ≡ comes_before one.now other.now }
{
    if one.ended != other.ended {
        return one.ended < other.ended;
    }
    is_first_of(one, other)
}

/// Whether a turn is sorted before another: by their threads, and those of a thread as they come.
fn sorts_before(one: &ThreadTurn, other: &ThreadTurn) -> bool
    ensures { result ≡ sorts_before one.now other.now }
{
    if one.thread != other.thread {
        return one.thread < other.thread;
    }
    comes_before(one, other)
}

/// How many of these turns, which are sorted, are sorted before this one.
fn count_before(sorted: &[ThreadTurn], turn: &ThreadTurn) -> usize
    requires { IsSortedBy sorts_before sorted.now }
    ensures known { result ≤ length sorted.now }
    ensures parted { IsPartitionPoint (λ other. sorts_before other turn.now ≡ true)
        (λ other. sorts_before other turn.now ≡ false) sorted.now result }
{
    sorted.partition_point(|other| sorts_before(other, turn))
}

/// The latest end of those of these turns, which are sorted, that come before this one of its thread; 0 if none does.
fn last_end(sorted: &[ThreadTurn], turn: &ThreadTurn) -> u64
    requires { IsSortedBy sorts_before sorted.now }
    ensures { result ≡ last_end sorted.now turn.now }
{
    let count = count_before(sorted, turn);
    if count == 0 {
        return 0;
    }
    let last = sorted[count - 1];
    if last.thread == turn.thread {
        last.ended
    } else {
        0
    }
}
