//! The places of blocks: a column for each, in the order of the clock, or by the time itself.

ghost use Rattle.std.specs.Prelude.{◌≡◌, ◌≤◌, ◌<◌, max, true, false, length, IfOk};
ghost use Rattle.std.specs.List.{All, AllPairs};
ghost use Rattle.boot_picture.specs.Places.{ArePlaced, IsBefore, IsWide, blocks_of, left_place, place, scale_of};

use crate::order::{Ordered, Track, ended, last_time_of, time_of};
use crate::wording::{Wording, words_of};
use boot_data::BootPlan;
use boot_log::{Entry, Log};
use event_theory::OutOfMemory;
use std::alloc::Global;

/// The left side of the first column. The names of lanes are to the left of it.
pub(crate) const LEFT: u32 = 96;

/// How wide a letter is.
pub(crate) const LETTER: u32 = 8;

/// The space between the sides of a box and its words, both together, and the space between columns.
pub(crate) const MARGIN: u32 = 8;

const GAP: u32 = 4;

/// How many letters of a line of words are shown in a box.
pub(crate) const MOST_LETTERS: usize = 16;

/// How wide a block is on average, if the places are by the time, and how wide the picture is then.
const AVERAGE: u64 = 32;

const LEAST_WIDTH: u64 = 900;

const MOST_WIDTH: u64 = 48_000;

/// How wide the space is in which the first turns begin, if the places are by the time.
const LEAD: u32 = 64;

/// The left and the right side of a block.
#[derive(Clone, Copy)]
pub(crate) struct Bounds {
    pub(crate) left: u32,
    pub(crate) right: u32,
}

/// A block at its place.
#[derive(Drop)]
pub(crate) struct Placed {
    pub(crate) ordered: Ordered,
    pub(crate) bounds: Bounds,
    pub(crate) wording: Wording,
}

/// The times that a picture shows: when its first turn ended, and how long it is from there on, in nanoseconds, and how
/// wide.
#[derive(Clone, Copy)]
pub(crate) struct Scale {
    pub(crate) from: u64,
    pub(crate) span: u64,
    pub(crate) width: u64,
}

impl Scale {
    /// The place of a time. No place is past the right side of the widest picture.
    pub(crate) fn place(&self, at: u64) -> u32
        ensures exact { result ≡ place self.now at }
        ensures most { result ≤ 48160 }
    {
        let passed = u128::from(at.saturating_sub(self.from));
        let along = passed * u128::from(self.width) / u128::from(self.span.max(1));
        LEFT + LEAD + along.min(u128::from(MOST_WIDTH)) as u32
    }
}

/// How wide a line of words is.
fn wide(words: &[u8]) -> u32
    ensures { result ≤ 136 }
{
    let letters = words.len().min(MOST_LETTERS) as u32;
    letters * LETTER + MARGIN
}

/// How wide a box with these words is.
fn width_of(wording: &Wording) -> u32
    ensures least { 40 ≤ result }
    ensures most { result ≤ 136 }
{
    let thread = wide(wording.thread.as_slice());
    let step = wide(wording.step.as_slice());
    let answer = wide(wording.answer.as_slice());
    thread.max(step).max(answer).max(40)
}

/// The entry with which a block begins.
pub(crate) fn entry_of<'a>(tracks: &[Track<'a>], ordered: &Ordered) -> Option<&'a Entry> {
    let track = tracks.get(ordered.processor)?;
    let log: &'a Log = track.log;
    log.entries().get(ordered.block.first)
}

/// The words in the box of a block.
fn wording_of(
    alloc: Global,
    plan: &BootPlan,
    track: &Track,
    ordered: &Ordered,
) -> Result<Wording, OutOfMemory> {
    words_of(alloc, plan, track.log, ordered.block)
}

/// Places each block in a column of its own, one after the other.
///
/// Conditions: there are at most 2,000 blocks, each of one of these processors.
fn place_in_turns(
    alloc: Global,
    plan: &BootPlan,
    tracks: &[Track],
    order: &[Ordered],
) -> Result<Vec<Placed>, OutOfMemory>
    requires few { length order.now ≤ 2000 }
    requires processors { All (λ o. o.processor < length tracks.now) order.now }
    ensures { IfOk result (λ all. ArePlaced false tracks.now order.now all.items) }
{
    let mut all = Vec::new(alloc);
    let mut left = LEFT;
    for ordered in order {
        let track = &tracks[ordered.processor];
        let wording = wording_of(alloc, plan, track, ordered)?;
        let right = left.saturating_add(width_of(&wording));
        all.push(Placed {
            ordered: *ordered,
            bounds: Bounds { left, right },
            wording,
        })?;
        left = right.saturating_add(GAP);
    }
    Ok(all)
}

/// Whether a block's turns were idle.
pub(crate) fn is_idle(tracks: &[Track], ordered: &Ordered) -> bool {
    match entry_of(tracks, ordered) {
        Some(entry) => entry.is_idle(),
        None => false,
    }
}

/// The right side of a block. A block of idle turns is stretched up to where the next block of its processor begins.
fn stretched(bounds: Bounds, next: u32, idle: bool) -> u32
    ensures least { bounds.right ≤ result }
    ensures most { result ≤ max bounds.right next }
{
    if idle {
        next.saturating_sub(GAP).max(bounds.right)
    } else {
        bounds.right
    }
}

/// Stretches the blocks of idle turns up to the next block of their processor.
///
/// Condition: each block is of one of these processors.
fn stretch(alloc: Global, tracks: &[Track], all: &mut [Placed]) -> Result<(), OutOfMemory>
    requires processors { All (λ placed. placed.ordered.processor < length tracks.now) all.old }
    requires wide { All IsWide all.old }
    requires turns { AllPairs IsBefore all.old }
    ensures blocks { blocks_of all.new ≡ blocks_of all.old }
    ensures wide { All IsWide all.new }
    ensures turns { AllPairs IsBefore all.new }
{
    let mut nexts = vec![in alloc; right_of(all).saturating_add(GAP); tracks.len()]?;
    for number in (0..all.len()).rev() {
        let placed = &mut all[number];
        let idle = is_idle(tracks, &placed.ordered);
        let next = &mut nexts[placed.ordered.processor];
        placed.bounds.right = stretched(placed.bounds, *next, idle);
        *next = placed.bounds.left;
    }
    Ok(())
}

/// The right side of the last of these blocks.
pub(crate) fn right_of(all: &[Placed]) -> u32
    ensures { All (λ placed. placed.bounds.right ≤ result) all.now }
{
    let mut right = LEFT;
    for placed in all {
        right = right.max(placed.bounds.right);
    }
    right
}

/// The left side of a block: when the turn before it had ended. No log has the start of a first turn, so the first
/// block of a processor begins as far before its end as there is space before the first end of all.
fn left_of(scale: &Scale, tracks: &[Track], ordered: &Ordered) -> u32
    ensures exact { result ≡ left_place tracks.now scale.now ordered.now }
    ensures most { result ≤ 48160 }
{
    if ordered.block.first == 0 {
        return scale.place(time_of(tracks, ordered)).saturating_sub(LEAD);
    }
    scale.place(ended(tracks, ordered.processor, ordered.block.first - 1))
}

/// The times of these blocks, from the first end of a turn on.
pub(crate) fn scale_of(tracks: &[Track], order: &[Ordered]) -> Scale
    ensures { result ≡ scale_of tracks.now order.now }
{
    let mut from = u64::MAX;
    let mut to = 0;
    for ordered in order {
        from = from.min(time_of(tracks, ordered));
        to = to.max(last_time_of(tracks, ordered));
    }
    let width = (order.len() as u64).saturating_mul(AVERAGE);
    Scale {
        from,
        span: to.saturating_sub(from),
        width: width.max(LEAST_WIDTH).min(MOST_WIDTH),
    }
}

/// Places each block by the time.
///
/// Condition: each block is of one of these processors.
fn place_in_time(
    alloc: Global,
    plan: &BootPlan,
    tracks: &[Track],
    order: &[Ordered],
) -> Result<Vec<Placed>, OutOfMemory>
    requires { All (λ o. o.processor < length tracks.now) order.now }
    ensures { IfOk result (λ all. ArePlaced true tracks.now order.now all.items) }
{
    let scale = scale_of(tracks, order);
    let mut all = Vec::new(alloc);
    for ordered in order {
        let track = &tracks[ordered.processor];
        let left = left_of(&scale, tracks, ordered);
        let right = scale.place(last_time_of(tracks, ordered)).max(left + 2);
        all.push(Placed {
            ordered: *ordered,
            bounds: Bounds { left, right },
            wording: wording_of(alloc, plan, track, ordered)?,
        })?;
    }
    Ok(all)
}

/// The blocks at their places, in the order of the clock: by the time, or each in a column of its own.
///
/// Conditions: there are at most 2,000 blocks, each of one of these processors.
pub(crate) fn place_all(
    alloc: Global,
    plan: &BootPlan,
    tracks: &[Track],
    order: &[Ordered],
    by_time: bool,
) -> Result<Vec<Placed>, OutOfMemory>
    requires few { length order.now ≤ 2000 }
    requires processors { All (λ o. o.processor < length tracks.now) order.now }
    ensures { IfOk result (λ all. ArePlaced by_time tracks.now order.now all.items) }
{
    if by_time {
        return place_in_time(alloc, plan, tracks, order);
    }
    let mut all = place_in_turns(alloc, plan, tracks, order)?;
    stretch(alloc, tracks, &mut all)?;
    Ok(all)
}
