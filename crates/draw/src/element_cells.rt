//! The thread elements in a row: a cell each, with a letter and a colour for its place.

use crate::columns::ELEMENT;
use event_theory::{ElementStatus, Items, OutOfMemory, Place};
use std::alloc::Global;
use svg::words::{numbered, text_of};
use svg::{Anchor, BOX, Canvas, Colour};

/// A place's colour.
fn colour(place: Place) -> Colour {
    match place {
        Place::Free => Colour::White,
        Place::Ready => Colour::Sky,
        Place::Processor(_) => Colour::Green,
        Place::Wait(_) => Colour::Pink,
        Place::Stopped => Colour::Grey,
        Place::Held(_) => Colour::Orange,
    }
}

/// A place's letter, with its number if it has one.
fn letter(alloc: Global, place: &Place) -> Result<Items<u8>, OutOfMemory> {
    match place {
        Place::Free => text_of(alloc, b"F"),
        Place::Ready => text_of(alloc, b"R"),
        Place::Processor(processor) => numbered(alloc, "P", u64::from(processor.number())),
        Place::Wait(wait) => numbered(alloc, "W", u64::from(wait.number())),
        Place::Stopped => text_of(alloc, b"S"),
        Place::Held(call) => numbered(alloc, "H", u64::from(call.number())),
    }
}

/// Draws a cell for a place.
pub(crate) fn add_place(
    canvas: &mut Canvas,
    place: Place,
    x: u32,
    y: u32,
) -> Result<(), OutOfMemory> {
    let text = letter(canvas.alloc(), &place)?;
    canvas.cell(x, y, ELEMENT, colour(place))?;
    canvas.label(x.saturating_add(ELEMENT / 2), y, Anchor::Middle, text)
}

/// Draws the mark of a stop bit that is set: a bar under the cell.
pub(crate) fn add_stop(canvas: &mut Canvas, x: u32, y: u32) -> Result<(), OutOfMemory> {
    canvas.bar(x, y.saturating_add(BOX + 2), ELEMENT, 4, Colour::Red)
}

/// Draws an element.
fn add_element(
    canvas: &mut Canvas,
    element: &ElementStatus,
    x: u32,
    y: u32,
) -> Result<(), OutOfMemory> {
    add_place(canvas, element.place, x, y)?;
    if element.stop {
        add_stop(canvas, x, y)
    } else {
        Ok(())
    }
}

/// Draws the first elements, as many as are shown.
pub(crate) fn add_elements(
    canvas: &mut Canvas,
    elements: &[ElementStatus],
    shown: usize,
    left: u32,
    y: u32,
) -> Result<(), OutOfMemory> {
    let mut x = left;
    for element in elements.iter().take(shown) {
        add_element(canvas, element, x, y)?;
        x = x.saturating_add(ELEMENT);
    }
    Ok(())
}
