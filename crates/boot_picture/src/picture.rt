//! The picture of a boot: a lane for each processor, a lane for each thread, and the report below them.

ghost use Rattle.std.specs.Prelude.{◌≡◌, ◌≤◌, ◌-◌, ◌++◌, length, IfOk, OnOk};
ghost use Rattle.boot_log.specs.Kept.{kept_in};
ghost use Rattle.boot_picture.specs.Clear.{DrawsGround, DrawsOutside, DrawsTexts};
ghost use Rattle.boot_picture.specs.Pictures.{ShowsTurns};

use crate::arrows::arrows_of;
use crate::columns::{LEFT, Placed, place_all, scale_of};
use crate::frame::{Frame, LINE, NAMES, NOTE, PROCESSOR, THREAD, TITLE, after, frame_of};
use crate::labels::add_labels;
use crate::lanes::add_boxes;
use crate::legend::add_legend;
use crate::marks::{add_alarms, add_times};
use crate::order::{Ordered, Track, order_of, tracks_of};
use crate::phrase::Phrase;
use crate::spans::spans_of;
use crate::thread_lanes::{add_arrows, add_spans, add_thread_names};
use boot_data::BootPlan;
use boot_log::Log;
use event_theory::{Items, OutOfMemory};
use std::alloc::Global;
use svg::words::{first_comment, front_of, numbered, text_of};
use svg::{Anchor, Canvas, Colour, Picture, Shape};

/// How many letters of the title are shown.
const TITLE_LETTERS: usize = 100;

/// A boot that has ended: its script, its plan, how many turns each processor had, and its report.
#[derive(Clone, Copy)]
pub struct Boot<'a> {
    pub script: &'a [u8],
    pub plan: &'a BootPlan,
    pub turns: u32,
    pub report: &'a [u8],
    /// Whether the turns are placed by their time. Else each has a column of its own.
    pub by_time: bool,
}

/// How many turns are shown.
fn shown_in(order: &[Ordered]) -> u64 {
    let mut shown = 0u64;
    for ordered in order {
        shown = shown.saturating_add(ordered.block.turns as u64);
    }
    shown
}

/// How many turns there were.
fn all_in(tracks: &[Track]) -> u64 {
    let mut all = 0u64;
    for track in tracks {
        all = all.saturating_add(track.log.entries().len() as u64);
        all = all.saturating_add(track.log.missed());
    }
    all
}

/// The note under the title.
fn note_of(
    alloc: Global,
    boot: &Boot,
    tracks: &[Track],
    order: &[Ordered],
) -> Result<Items<u8>, OutOfMemory> {
    let mut note = Phrase::new(alloc);
    let processors = tracks.len() as u64;
    note.numbered("processors: ", processors)?;
    note.numbered(", turns on each: ", u64::from(boot.turns))?;
    note.words(if boot.by_time {
        ", placed by time"
    } else {
        ", placed in the order of the clock"
    })?;
    let (shown, all) = (shown_in(order), all_in(tracks));
    if shown != all {
        note.numbered("; the first ", shown)?;
        note.numbered(" of ", all)?;
        note.words(" turns are shown")?;
    }
    Ok(note.end())
}

/// Draws the names of the processors' lanes.
fn add_names(canvas: &mut Canvas, frame: &Frame, processors: usize) -> Result<(), OutOfMemory>
    ensures { OnOk result (DrawsGround frame.now.width frame.now.height canvas.old canvas.new) }
{
    for processor in 0..processors {
        let y = after(frame.processors, processor, PROCESSOR);
        let name = numbered(canvas.alloc(), "p", processor as u64)?;
        canvas.label(NAMES, y, Anchor::Start, name)?;
    }
    Ok(())
}

/// Draws the ground, the title and the note, and the names of the processors' lanes.
fn add_head(
    canvas: &mut Canvas,
    frame: &Frame,
    script: &[u8],
    note: Items<u8>,
    processors: usize,
) -> Result<(), OutOfMemory>
    ensures { OnOk result (DrawsGround frame.now.width frame.now.height canvas.old canvas.new) }
{
    canvas.bar(0, 0, frame.width, frame.height, Colour::White)?;
    let title = front_of(canvas.alloc(), first_comment(script), TITLE_LETTERS)?;
    canvas.text(NAMES, TITLE, Anchor::Start, Colour::Ink, title)?;
    canvas.text(NAMES, NOTE, Anchor::Start, Colour::Dim, note)?;
    add_names(canvas, frame, processors)
}

/// Draws thin lines below the lanes, in this frame.
fn add_rules(
    canvas: &mut Canvas,
    frame: &Frame,
    from: u32,
    count: usize,
    each: u32,
) -> Result<(), OutOfMemory>
    ensures { OnOk result (DrawsGround frame.now.width frame.now.height canvas.old canvas.new) }
{
    let width = frame.right.saturating_sub(LEFT).max(1);
    for number in 0..count {
        let y = after(from, number, each)
            .saturating_add(each)
            .saturating_sub(5);
        canvas.bar(LEFT, y, width, 1, Colour::Faint)?;
    }
    Ok(())
}

/// Draws the lines of the report.
fn add_report(canvas: &mut Canvas, frame: &Frame, report: &[u8]) -> Result<(), OutOfMemory>
    ensures { OnOk result (DrawsTexts canvas.old canvas.new) }
{
    let mut y = frame.report;
    for line in report.split(|byte| *byte == b'\n') {
        canvas.words(NAMES, y, line)?;
        y = y.saturating_add(LINE);
    }
    Ok(())
}

/// Draws all that lies below the boxes.
fn add_ground(
    canvas: &mut Canvas,
    frame: &Frame,
    boot: &Boot,
    tracks: &[Track],
    order: &[Ordered],
) -> Result<(), OutOfMemory>
    ensures { OnOk result (DrawsGround frame.now.width frame.now.height canvas.old canvas.new) }
{
    let note = note_of(canvas.alloc(), boot, tracks, order)?;
    add_head(canvas, frame, boot.script, note, tracks.len())?;
    add_rules(canvas, frame, frame.processors, tracks.len(), PROCESSOR)?;
    let threads = boot.plan.threads.as_slice().len();
    add_rules(canvas, frame, frame.threads, threads, THREAD)?;
    if boot.by_time {
        return add_times(canvas, frame, scale_of(tracks, order));
    }
    Ok(())
}

/// Draws all that lies above the boxes, or beside them.
fn add_rest(
    canvas: &mut Canvas,
    frame: &Frame,
    boot: &Boot,
    logs: &[&Log],
    tracks: &[Track],
    all: &[Placed],
) -> Result<(), OutOfMemory>
    ensures { OnOk result (DrawsOutside frame.now.processors (frame.now.threads - 20) canvas.old canvas.new) }
{
    let alloc = canvas.alloc();
    add_labels(canvas, frame, all)?;
    add_alarms(canvas, frame, boot.plan, tracks, all)?;
    add_thread_names(canvas, frame, boot.plan)?;
    let spans = spans_of(alloc, boot.plan, tracks, all, frame.right)?;
    add_spans(canvas, frame, &spans)?;
    let arrows = arrows_of(alloc, boot.plan, logs, all)?;
    add_arrows(canvas, frame, &arrows)?;
    add_report(canvas, frame, boot.report)?;
    add_legend(canvas, frame)
}

/// The parts of one list, and then those of another.
fn joined(below: Items<Shape>, above: Items<Shape>) -> Result<Items<Shape>, OutOfMemory>
    ensures { IfOk result (λ all. all ≡ below ++ above) }
{
    let mut all = below.into_vec();
    let mut others = above.into_vec();
    all.append(&mut others)?;
    Ok(Items::new(all))
}

/// The picture of a boot, by the log of each processor, from 0 on. Each turn has a box, except if there are more than
/// 2,000 boxes: the picture then has the first 2,000, and its head says how many turns are shown.
///
/// Condition: there are at most eight processors.
pub fn picture_of(alloc: Global, boot: &Boot, logs: &[&Log]) -> Result<Picture, OutOfMemory>
    requires { length logs.now ≤ 8 }
    ensures { IfOk result (ShowsTurns (kept_in logs.now) boot.now.by_time) }
{
    let tracks = tracks_of(alloc, logs)?;
    let order = order_of(alloc, &tracks)?;
    let placed = place_all(alloc, boot.plan, &tracks, &order, boot.by_time)?;
    let frame = frame_of(boot.plan, &placed, boot.report, tracks.len(), boot.by_time);
    let mut below = Canvas::new(alloc);
    add_ground(&mut below, &frame, boot, &tracks, &order)?;
    add_boxes(&mut below, boot.plan, &tracks, &placed, frame.processors)?;
    let mut above = Canvas::new(alloc);
    add_rest(&mut above, &frame, boot, logs, &tracks, &placed)?;
    Ok(Picture {
        width: frame.width,
        height: frame.height,
        title: text_of(alloc, first_comment(boot.script))?,
        shapes: joined(below.into_shapes(), above.into_shapes())?,
    })
}
