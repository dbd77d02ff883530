//! The names above the columns.

use crate::columns::{Columns, ELEMENT, QueueColumn};
use event_theory::OutOfMemory;
use svg::words::numbered;
use svg::{Anchor, Canvas, Colour};

/// How far below the picture's upper side the names are.
const NAMES: u32 = 66;

/// Draws a column's name.
fn add_name(
    canvas: &mut Canvas,
    letter: &str,
    number: usize,
    x: u32,
    anchor: Anchor,
) -> Result<(), OutOfMemory> {
    let name = numbered(canvas.alloc(), letter, number as u64)?;
    canvas.text(x, NAMES, anchor, Colour::Dim, name)
}

/// The names of queues.
fn add_queue_names(canvas: &mut Canvas, queues: &[QueueColumn]) -> Result<(), OutOfMemory> {
    for (number, column) in queues.iter().enumerate() {
        add_name(canvas, "q", number, column.left, Anchor::Start)?;
    }
    Ok(())
}

/// The names of chains.
fn add_chain_names(canvas: &mut Canvas, chains: &[u32]) -> Result<(), OutOfMemory> {
    for (number, left) in chains.iter().enumerate() {
        add_name(canvas, "k", number, *left, Anchor::Start)?;
    }
    Ok(())
}

/// The names of the elements that are shown.
fn add_element_names(canvas: &mut Canvas, shown: usize, left: u32) -> Result<(), OutOfMemory> {
    let mut x = left.saturating_add(ELEMENT / 2);
    for number in 0..shown {
        add_name(canvas, "e", number, x, Anchor::Middle)?;
        x = x.saturating_add(ELEMENT);
    }
    Ok(())
}

/// Draws the names of all columns.
pub(crate) fn add_names(canvas: &mut Canvas, columns: &Columns) -> Result<(), OutOfMemory> {
    add_queue_names(canvas, columns.queues.as_slice())?;
    add_chain_names(canvas, columns.chains.as_slice())?;
    add_element_names(canvas, columns.shown, columns.elements)
}
