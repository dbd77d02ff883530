//! The picture of a list of events: a row an event, with the state that it led to.

use crate::columns::{Columns, EVENT, MOST_LETTERS, columns_of};
use crate::element_cells::add_elements;
use crate::gates::add_chain;
use crate::history::{History, Row};
use crate::legend;
use crate::legend::add_legend;
use crate::names::add_names;
use crate::queue_boxes::add_queue;
use boot_script::Replayed;
use event_theory::{ChainStatus, Items, OutOfMemory, QueueStatus, Refusal};
use std::alloc::Global;
use svg::words::{first_comment, front_of, line_at, numbered, text_of};
use svg::{Anchor, Canvas, Colour, Picture};

/// The height of a row, and the place of its boxes in it.
const ROW: u32 = 36;

const BOXES: u32 = 9;

/// The places of the title, the note under it and the first row.
const TITLE: u32 = 22;

const NOTE: u32 = 42;

const FIRST_ROW: u32 = 72;

/// How many letters of the title are shown.
const TITLE_LETTERS: usize = 98;

/// The side of the picture at which lines' numbers end.
const NUMBERS: u32 = 12;

/// The line of an event: its number, and its text.
fn add_event(
    canvas: &mut Canvas,
    script: &[u8],
    line: u32,
    ink: Colour,
    y: u32,
) -> Result<(), OutOfMemory> {
    let base = y.saturating_add(BOXES + 13);
    let number = numbered(canvas.alloc(), "", u64::from(line))?;
    canvas.text(NUMBERS, base, Anchor::Start, Colour::Dim, number)?;
    let text = front_of(canvas.alloc(), line_at(script, line), MOST_LETTERS)?;
    canvas.text(EVENT, base, Anchor::Start, ink, text)
}

/// The queue of a row that has this number.
fn add_queue_of(
    canvas: &mut Canvas,
    row: &Row,
    columns: &Columns,
    number: usize,
    queue: &QueueStatus,
    y: u32,
) -> Result<(), OutOfMemory> {
    let Some(column) = columns.queues.as_slice().get(number) else {
        return Ok(());
    };
    match row.places.as_slice().get(number) {
        Some(left) => add_queue(canvas, queue, left.as_slice(), column, y),
        None => Ok(()),
    }
}

/// The queues of a row.
fn add_queues(
    canvas: &mut Canvas,
    row: &Row,
    columns: &Columns,
    y: u32,
) -> Result<(), OutOfMemory> {
    let queues: &[QueueStatus] = row.status.queues.as_slice();
    for (number, queue) in queues.iter().enumerate() {
        add_queue_of(canvas, row, columns, number, queue, y)?;
    }
    Ok(())
}

/// The chains of a row.
fn add_chains(
    canvas: &mut Canvas,
    chains: &[ChainStatus],
    lefts: &[u32],
    y: u32,
) -> Result<(), OutOfMemory> {
    for (chain, left) in chains.iter().zip(lefts) {
        add_chain(canvas, chain, *left, y)?;
    }
    Ok(())
}

/// A thin line over the whole width, between two rows.
fn add_rule(canvas: &mut Canvas, width: u32, y: u32) -> Result<(), OutOfMemory> {
    canvas.bar(0, y, width, 1, Colour::Faint)
}

/// The queues, the chains and the elements of a row.
fn add_status(
    canvas: &mut Canvas,
    row: &Row,
    columns: &Columns,
    y: u32,
) -> Result<(), OutOfMemory> {
    add_queues(canvas, row, columns, y)?;
    add_chains(
        canvas,
        row.status.chains.as_slice(),
        columns.chains.as_slice(),
        y,
    )?;
    add_elements(
        canvas,
        row.status.elements.as_slice(),
        columns.shown,
        columns.elements,
        y,
    )
}

/// Draws a row with its upper side here.
fn add_row(
    canvas: &mut Canvas,
    script: &[u8],
    row: &Row,
    columns: &Columns,
    y: u32,
) -> Result<(), OutOfMemory> {
    add_rule(canvas, columns.width, y)?;
    add_event(canvas, script, row.line, Colour::Ink, y)?;
    add_status(canvas, row, columns, y.saturating_add(BOXES))
}

/// The text of a refusal.
fn refusal_text(alloc: Global, refusal: Refusal) -> Result<Items<u8>, OutOfMemory> {
    let number = refusal as u8;
    let text = format!(in alloc; "refused: {number} {refusal}")?;
    Ok(Items::new(text.into_bytes()))
}

/// Draws the row of the refused event, if there is one, and returns the side where the next thing begins.
fn add_refused(
    canvas: &mut Canvas,
    script: &[u8],
    replayed: Replayed,
    columns: &Columns,
    y: u32,
) -> Result<u32, OutOfMemory> {
    let Replayed::Refused { line, refusal } = replayed else {
        return Ok(y);
    };
    add_rule(canvas, columns.width, y)?;
    add_event(canvas, script, line, Colour::Red, y)?;
    let text = refusal_text(canvas.alloc(), refusal)?;
    let base = y.saturating_add(ROW + 4);
    canvas.text(EVENT, base, Anchor::Start, Colour::Red, text)?;
    Ok(y.saturating_add(ROW + 16))
}

/// The note under the title: how many events are shown, if not all are.
fn add_note(canvas: &mut Canvas, history: &History) -> Result<(), OutOfMemory> {
    let shown = history.rows.len();
    let allowed = history.allowed;
    if shown == allowed {
        return Ok(());
    }
    let note = format!(in canvas.alloc(); "the last {shown} of {allowed} events that are allowed")?;
    let note = Items::new(note.into_bytes());
    canvas.text(NUMBERS, NOTE, Anchor::Start, Colour::Dim, note)
}

/// How many letters the longest line of a row has, up to as many as are shown.
fn letters(script: &[u8], history: &History) -> usize {
    let mut most = 12;
    for row in &history.rows {
        most = line_at(script, row.line).len().max(most);
    }
    if let Replayed::Refused { line, .. } = history.replayed {
        most = line_at(script, line).len().max(most);
    }
    most.min(MOST_LETTERS + 2)
}

/// Draws all rows, and returns the side below them.
fn add_rows(
    canvas: &mut Canvas,
    script: &[u8],
    rows: &[Row],
    columns: &Columns,
) -> Result<u32, OutOfMemory> {
    let mut y = FIRST_ROW;
    for row in rows {
        add_row(canvas, script, row, columns, y)?;
        y = y.saturating_add(ROW);
    }
    Ok(y)
}

/// How high a picture with these rows and columns is.
fn height_of(history: &History, columns: &Columns) -> u32 {
    let rows = u32::try_from(history.rows.len()).unwrap_or(u32::MAX);
    let refused = match history.replayed {
        Replayed::AllAllowed => 0,
        Replayed::Refused { .. } => ROW + 16,
    };
    let below = FIRST_ROW.saturating_add(rows.saturating_mul(ROW));
    below
        .saturating_add(refused + 24)
        .saturating_add(legend::height(columns))
}

/// Draws a white ground for the whole picture, the title, the note under it and the names of columns.
fn add_head(
    canvas: &mut Canvas,
    script: &[u8],
    history: &History,
    columns: &Columns,
    height: u32,
) -> Result<(), OutOfMemory> {
    canvas.bar(0, 0, columns.width, height, Colour::White)?;
    let shown = front_of(canvas.alloc(), first_comment(script), TITLE_LETTERS)?;
    canvas.text(NUMBERS, TITLE, Anchor::Start, Colour::Ink, shown)?;
    add_note(canvas, history)?;
    add_names(canvas, columns)
}

/// Draws the rows, the row of the refused event, a line below them, and the legend.
fn add_body(
    canvas: &mut Canvas,
    script: &[u8],
    history: &History,
    columns: &Columns,
) -> Result<(), OutOfMemory> {
    let y = add_rows(canvas, script, &history.rows, columns)?;
    let below = add_refused(canvas, script, history.replayed, columns, y)?;
    add_rule(canvas, columns.width, below)?;
    add_legend(canvas, columns, below.saturating_add(14))
}

/// The picture of the states that a list of events led to. Its title is the first comment of the script.
pub(crate) fn picture(
    alloc: Global,
    script: &[u8],
    history: &History,
) -> Result<Picture, OutOfMemory> {
    let columns = columns_of(alloc, &history.rows, letters(script, history))?;
    let height = height_of(history, &columns);
    let title = text_of(alloc, first_comment(script))?;
    let mut canvas = Canvas::new(alloc);
    add_head(&mut canvas, script, history, &columns, height)?;
    add_body(&mut canvas, script, history, &columns)?;
    Ok(Picture {
        width: columns.width,
        height,
        title,
        shapes: canvas.into_shapes(),
    })
}
