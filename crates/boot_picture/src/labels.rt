//! The words in the boxes of blocks.

ghost use Rattle.std.specs.Prelude.{OnOk};
ghost use Rattle.boot_picture.specs.Clear.{DrawsTexts};

use crate::columns::{Bounds, LETTER, MARGIN, MOST_LETTERS, Placed};
use crate::frame::{Frame, PROCESSOR, after};
use event_theory::OutOfMemory;
use svg::words::front_of;
use svg::{Anchor, Canvas};

/// How far a line of words is from the line above it.
const NEXT: u32 = 14;

/// How many letters fit between two sides.
pub(crate) fn letters_in(bounds: Bounds) -> usize {
    let width = bounds.right.saturating_sub(bounds.left);
    (width.saturating_sub(MARGIN) / LETTER) as usize
}

/// Draws the front of a line of words, if it fits.
fn add_line(canvas: &mut Canvas, bounds: Bounds, y: u32, words: &[u8]) -> Result<(), OutOfMemory>
    ensures { OnOk result (DrawsTexts canvas.old canvas.new) }
{
    if words.is_empty() || letters_in(bounds) < words.len().min(MOST_LETTERS) {
        return Ok(());
    }
    let most = if words.len() <= MOST_LETTERS {
        MOST_LETTERS
    } else {
        MOST_LETTERS - 2
    };
    let text = front_of(canvas.alloc(), words, most)?;
    canvas.label(
        bounds.left.saturating_add(MARGIN / 2),
        y,
        Anchor::Start,
        text,
    )
}

/// Draws the words in the box of a block.
fn add_words(canvas: &mut Canvas, placed: &Placed, y: u32) -> Result<(), OutOfMemory>
    ensures { OnOk result (DrawsTexts canvas.old canvas.new) }
{
    let bounds = placed.bounds;
    add_line(canvas, bounds, y, placed.wording.thread.as_slice())?;
    let second = y.saturating_add(NEXT);
    add_line(canvas, bounds, second, placed.wording.step.as_slice())?;
    let third = second.saturating_add(NEXT);
    add_line(canvas, bounds, third, placed.wording.answer.as_slice())
}

/// Draws the words in the boxes of all blocks.
pub(crate) fn add_labels(
    canvas: &mut Canvas,
    frame: &Frame,
    all: &[Placed],
) -> Result<(), OutOfMemory>
    ensures { OnOk result (DrawsTexts canvas.old canvas.new) }
{
    for placed in all {
        let y = after(frame.processors, placed.ordered.processor, PROCESSOR);
        add_words(canvas, placed, y)?;
    }
    Ok(())
}
