//! The lanes of the processors: a box for each block, with a title.

ghost use Rattle.std.specs.Prelude.{◌≡◌, ◌≤◌, ◌<◌, ◌+◌, ◌*◌, ◌++◌, ◌∷◌, [], length, OnOk};
ghost use Rattle.std.specs.List.{All};
ghost use Rattle.svg.specs.declared.shapes.Shape.{Shape};
ghost use Rattle.boot_picture.specs.Lanes.{IsBoxOf, AreBoxesDrawn};
ghost use Rattle.boot_picture.specs.Places.{IsWide};

use crate::columns::Placed;
use crate::order::{Ordered, Track, time_of};
use crate::titles::title_of;
use crate::wording::thread_of;
use boot_data::BootPlan;
use event_theory::{Element, OutOfMemory};
use svg::{Canvas, Colour};

/// How high the box of a block is.
const HIGH: u32 = 48;

/// How far the lanes of two processors are from each other.
const LANE: u32 = 60;

/// The colour of a thread. Every seventh thread has the same.
pub(crate) fn colour_of(thread: Element) -> Colour {
    match thread.number() % 7 {
        0 => Colour::Orange,
        1 => Colour::Sky,
        2 => Colour::Green,
        3 => Colour::Yellow,
        4 => Colour::Pink,
        5 => Colour::Blue,
        _ => Colour::Vermilion,
    }
}

/// The colour of the box of a block: the colour of its thread; a faint one if it is idle.
fn fill_of(track: &Track, ordered: &Ordered) -> Colour {
    match track.log.entries().get(ordered.block.first) {
        Some(entry) => match thread_of(entry) {
            Some(thread) => colour_of(thread),
            None => Colour::Faint,
        },
        None => Colour::Faint,
    }
}

/// The upper side of the lane of a processor, if the first lane is at `top`.
///
/// Conditions: both numbers are below 1,000.
pub(crate) fn lane_side(top: u32, processor: usize) -> u32
    requires top { top < 1000 }
    requires processor { processor < 1000 }
    ensures { result ≡ top + processor * 60 }
{
    top + processor as u32 * LANE
}

/// Draws the box of a block at its place. The first lane is at `top`.
fn add_box(
    canvas: &mut Canvas,
    plan: &BootPlan,
    tracks: &[Track],
    placed: &Placed,
    top: u32,
) -> Result<(), OutOfMemory>
    requires top { top < 1000 }
    requires few { length tracks.now ≤ 8 }
    requires processor { placed.now.ordered.processor < length tracks.now }
    requires wide { IsWide placed.now }
    ensures { OnOk result ((shape : Shape) × (canvas.new ≡ canvas.old ++ shape ∷ [])
        × IsBoxOf tracks.now top placed.now shape) }
{
    let ordered = placed.ordered;
    let track = &tracks[ordered.processor];
    let at = time_of(tracks, &ordered);
    let title = title_of(canvas.alloc(), plan, track.log, ordered, at)?;
    let fill = fill_of(track, &ordered);
    let left = placed.bounds.left;
    let y = lane_side(top, ordered.processor);
    canvas.titled_box(left, y, placed.bounds.right - left, HIGH, fill, title)
}

/// Draws the boxes of all blocks at their places, in their order. The first lane is at `top`.
pub(crate) fn add_boxes(
    canvas: &mut Canvas,
    plan: &BootPlan,
    tracks: &[Track],
    all: &[Placed],
    top: u32,
) -> Result<(), OutOfMemory>
    requires top { top < 1000 }
    requires few { length tracks.now ≤ 8 }
    requires processors { All (λ placed. placed.ordered.processor < length tracks.now) all.now }
    requires wide { All IsWide all.now }
    ensures { OnOk result (AreBoxesDrawn tracks.now top all.now canvas.old canvas.new) }
{
    for number in 0..all.len() {
        add_box(canvas, plan, tracks, &all[number], top)?;
    }
    Ok(())
}
