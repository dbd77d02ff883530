//! The lanes of the threads: where each was, and the lines that passed between them.

ghost use Rattle.std.specs.Prelude.{◌<◌, ◌≤◌, ◌-◌, OnOk};
ghost use Rattle.boot_picture.specs.Clear.{DrawsBelow, DrawsTexts};

use crate::arrows::Arrow;
use crate::columns::Bounds;
use crate::frame::{Frame, NAMES, THREAD, after};
use crate::labels::letters_in;
use crate::lanes::colour_of;
use crate::spans::{Place, Span};
use boot_data::BootPlan;
use event_theory::{Element, Items, OutOfMemory};
use svg::words::numbered;
use svg::{Anchor, BOX, Canvas, Colour};

/// The colour of a thread.
fn thread_colour(thread: usize) -> Colour {
    match Element::new((thread % 64) as u8) {
        Some(element) => colour_of(element),
        None => Colour::Grey,
    }
}

/// Draws a box with a name in it if it fits, and with a title.
fn add_place(
    canvas: &mut Canvas,
    bounds: Bounds,
    y: u32,
    fill: Colour,
    name: Items<u8>,
    title: Items<u8>,
) -> Result<(), OutOfMemory>
    ensures { OnOk result (DrawsBelow y canvas.old canvas.new) }
{
    let width = bounds.right.saturating_sub(bounds.left);
    canvas.titled_box(bounds.left, y, width, BOX, fill, title)?;
    if name.as_slice().len() > letters_in(bounds) {
        return Ok(());
    }
    let middle = bounds.left.saturating_add(width / 2);
    canvas.label(middle, y, Anchor::Middle, name)
}

/// Draws a bar in the middle of a lane.
fn add_bar(
    canvas: &mut Canvas,
    bounds: Bounds,
    y: u32,
    height: u32,
    fill: Colour,
) -> Result<(), OutOfMemory>
    ensures { OnOk result (DrawsBelow y canvas.old canvas.new) }
{
    let width = bounds.right.saturating_sub(bounds.left);
    let above = y.saturating_add(BOX.saturating_sub(height) / 2);
    canvas.bar(bounds.left, above, width, height, fill)
}

/// Draws a place of a thread between two sides.
pub(crate) fn add_thread_place(
    canvas: &mut Canvas,
    place: Place,
    bounds: Bounds,
    y: u32,
    colour: Colour,
) -> Result<(), OutOfMemory>
    ensures { OnOk result (DrawsBelow y canvas.old canvas.new) }
{
    let alloc = canvas.alloc();
    match place {
        Place::Ready => add_bar(canvas, bounds, y, 3, Colour::Dim),
        Place::On(processor) => {
            let name = numbered(alloc, "p", processor as u64)?;
            let title = numbered(alloc, "on processor ", processor as u64)?;
            add_place(canvas, bounds, y, colour, name, title)
        }
        Place::Waits(wait) => {
            let name = numbered(alloc, "w", u64::from(wait.number()))?;
            let title = numbered(alloc, "in wait queue ", u64::from(wait.number()))?;
            add_place(canvas, bounds, y, Colour::White, name, title)
        }
        Place::Stopped => add_bar(canvas, bounds, y, 10, Colour::Red),
        Place::Held => add_bar(canvas, bounds, y, 3, Colour::Red),
        Place::Ended => canvas.bar(bounds.left, y, 3, BOX, Colour::Ink),
    }
}

/// Draws where the threads were.
pub(crate) fn add_spans(
    canvas: &mut Canvas,
    frame: &Frame,
    spans: &[Span],
) -> Result<(), OutOfMemory>
    ensures { OnOk result (DrawsBelow frame.now.threads canvas.old canvas.new) }
{
    for span in spans {
        let y = after(frame.threads, span.thread, THREAD);
        let bounds = Bounds {
            left: span.left,
            right: span.right,
        };
        add_thread_place(canvas, span.place, bounds, y, thread_colour(span.thread))?;
    }
    Ok(())
}

/// The heights at which a line leaves the lane of its say, and comes to the lane of its hear: at the sides of these
/// lanes that face each other, or above the lane if both are one.
fn ends_of(frame: &Frame, arrow: &Arrow) -> (u32, u32)
    ensures said { frame.now.threads - 5 ≤ result.0 }
    ensures heard { frame.now.threads - 5 ≤ result.1 }
    ensures up { arrow.now.heard_by < arrow.now.said_by → frame.now.threads ≤ result.1 }
{
    let said = after(frame.threads, arrow.said_by, THREAD);
    let heard = after(frame.threads, arrow.heard_by, THREAD);
    if arrow.said_by < arrow.heard_by {
        (said.saturating_add(BOX), heard.saturating_sub(5))
    } else if arrow.said_by > arrow.heard_by {
        (said, heard.saturating_add(BOX + 5))
    } else {
        (said.saturating_sub(5), heard.saturating_sub(5))
    }
}

/// Draws the lines that passed, from lane to lane, each with a mark at its end.
pub(crate) fn add_arrows(
    canvas: &mut Canvas,
    frame: &Frame,
    arrows: &[Arrow],
) -> Result<(), OutOfMemory>
    ensures { OnOk result (DrawsBelow (frame.now.threads - 5) canvas.old canvas.new) }
{
    for arrow in arrows {
        let (from, to) = ends_of(frame, arrow);
        canvas.line(arrow.said_at, from, arrow.heard_at, to, Colour::Ink)?;
        let x = arrow.heard_at.saturating_sub(4);
        if arrow.said_by > arrow.heard_by {
            canvas.up(x, to)?;
        } else {
            canvas.down(x, to)?;
        }
    }
    Ok(())
}

/// Draws the names of the threads' lanes.
pub(crate) fn add_thread_names(
    canvas: &mut Canvas,
    frame: &Frame,
    plan: &BootPlan,
) -> Result<(), OutOfMemory>
    ensures { OnOk result (DrawsTexts canvas.old canvas.new) }
{
    for (number, thread) in plan.threads.as_slice().iter().enumerate() {
        let y = after(frame.threads, number, THREAD);
        canvas.words(NAMES, y, thread.name.as_slice())?;
    }
    Ok(())
}
