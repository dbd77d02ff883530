//! The order of all processors' blocks by the clock.

ghost use Rattle.std.specs.Prelude.{◌≡◌, ◌<◌, ◌≤◌, ◌+◌, ◌⊎◌, ℕ, length, Some, None, IfOk, IfSome};
ghost use Rattle.std.specs.List.{AllZip, slice_get};
ghost use Rattle.boot_log.specs.Kept.{kept_in};
ghost use Rattle.boot_picture.specs.declared.order.Ordered.{Ordered};
ghost use Rattle.boot_picture.specs.Orders.{AreUsed, IsLeast, IsNextIn, IsNotAfter, IsOrderOf, IsTrackOf, IsUsed};
ghost use Rattle.boot_picture.specs.Orders.{ended, last_time_of, time_of};

use crate::blocks::{Block, blocks_of};
use boot_log::Log;
use event_theory::OutOfMemory;
use std::alloc::Global;

/// How many blocks a picture shows at most.
pub(crate) const MOST_BLOCKS: usize = 2000;

/// The turns of one processor, and their blocks.
#[derive(Drop)]
pub(crate) struct Track<'a> {
    pub(crate) log: &'a Log,
    pub(crate) blocks: Vec<Block>,
}

/// A block, with the number of its processor.
#[derive(Clone, Copy)]
pub(crate) struct Ordered {
    pub(crate) processor: usize,
    pub(crate) block: Block,
}

/// The processors' turns, with their blocks.
pub(crate) fn tracks_of<'a>(alloc: Global, logs: &[&'a Log]) -> Result<Vec<Track<'a>>, OutOfMemory>
    ensures { IfOk result (λ tracks. AllZip IsTrackOf (kept_in logs.now) tracks.items) }
{
    let mut tracks = Vec::new(alloc);
    for log in logs {
        let blocks = blocks_of(alloc, log.entries())?;
        tracks.push(Track { log: *log, blocks })?;
    }
    Ok(tracks)
}

/// When a turn of a processor ended, by its number. If there is no such turn, the time is 0.
pub(crate) fn ended(tracks: &[Track], processor: usize, turn: usize) -> u64
    ensures time { result ≡ ended (slice_get tracks.now processor) turn }
    ensures past { (n : ℕ) → usize.MAX ≤ n + 1 → ended (slice_get tracks.now processor) n ≡ 0 }
{
    let Some(track) = tracks.get(processor) else {
        return 0;
    };
    match track.log.entries().get(turn) {
        Some(entry) => entry.at,
        None => 0,
    }
}

/// When the first turn of a block ended.
pub(crate) fn time_of(tracks: &[Track], ordered: &Ordered) -> u64
    ensures { result ≡ time_of tracks.now ordered.now }
{
    ended(tracks, ordered.processor, ordered.block.first)
}

/// When the last turn of a block ended.
pub(crate) fn last_time_of(tracks: &[Track], ordered: &Ordered) -> u64
    ensures { result ≡ last_time_of tracks.now ordered.now }
{
    let end = ordered.block.first.saturating_add(ordered.block.turns);
    ended(tracks, ordered.processor, end.saturating_sub(1))
}

/// The next block of a processor, if there is one. `nexts` has the number of the next block of each processor.
fn next_of(tracks: &[Track], nexts: &[usize], processor: usize) -> Option<Ordered>
    requires processor { processor < length tracks.now }
    requires nexts { length nexts.now ≡ length tracks.now }
    ensures found { IfSome result (IsNextIn tracks.now nexts.now) }
    ensures none { result ≡ None → IsUsed tracks.now nexts.now processor }
    ensures next { (o : Ordered) → IsNextIn tracks.now nexts.now o → o.processor ≡ processor → result ≡ Some o }
{
    let track = &tracks[processor];
    match track.blocks.get(nexts[processor]) {
        Some(block) => Some(Ordered {
            processor,
            block: *block,
        }),
        None => None,
    }
}

/// The earlier of two blocks, if there are any; of two at one time the first.
fn earlier(tracks: &[Track], one: Option<Ordered>, other: Option<Ordered>) -> Option<Ordered>
    ensures either { (result ≡ one) ⊎ (result ≡ other) }
    ensures none { result ≡ None → (one ≡ None) × (other ≡ None) }
    ensures least { IfSome result (λ o. IsNotAfter tracks.now o one × IsNotAfter tracks.now o other) }
{
    match (one, other) {
        (Some(first), Some(second)) => {
            if time_of(tracks, &second) < time_of(tracks, &first) {
                other
            } else {
                one
            }
        }
        (None, _) => other,
        _ => one,
    }
}

/// The earliest next block of all processors; of two at one time the one on the lower processor. `nexts` has the number
/// of the next block of each processor.
fn earliest(tracks: &[Track], nexts: &[usize]) -> Option<Ordered>
    requires { length nexts.now ≡ length tracks.now }
    ensures found { IfSome result (IsNextIn tracks.now nexts.now) }
    ensures none { result ≡ None → AreUsed tracks.now nexts.now (length tracks.now) }
    ensures least { IfSome result (IsLeast tracks.now nexts.now (length tracks.now)) }
{
    let mut found = None;
    for processor in 0..tracks.len() {
        let next = next_of(tracks, nexts, processor);
        found = earlier(tracks, found, next);
    }
    found
}

/// The blocks of all processors in the order of the clock, at most as many as a picture shows.
pub(crate) fn order_of(alloc: Global, tracks: &[Track]) -> Result<Vec<Ordered>, OutOfMemory>
    ensures { IfOk result (λ order. IsOrderOf tracks.now order.items) }
{
    let mut order = Vec::new(alloc);
    let mut nexts = vec![in alloc; 0usize; tracks.len()]?;
    while order.len() < MOST_BLOCKS {
        let Some(ordered) = earliest(tracks, &nexts) else {
            return Ok(order);
        };
        order.push(ordered)?;
        nexts[ordered.processor] += 1;
    }
    Ok(order)
}
