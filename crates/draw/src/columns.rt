//! The places of the columns of a picture: the events, each queue, each chain, and the thread elements.

use crate::history::Row;
use event_theory::{ElementStatus, Items, OutOfMemory, Place, QueueStatus};
use std::alloc::Global;

/// How wide a digit or a letter is, and the space between columns.
const LETTER: u32 = 8;

const GAP: u32 = 24;

/// How wide a chain's gate is, and its whole column with the number of its notes.
pub(crate) const GATE: u32 = 64;

const CHAIN: u32 = 136;

/// How wide an element's cell is.
pub(crate) const ELEMENT: u32 = 32;

/// The left side of the events' words, to the right of the line numbers, and how many letters they may have.
pub(crate) const EVENT: u32 = 56;

pub(crate) const MOST_LETTERS: usize = 36;

/// How wide the legend is.
const LEGEND: u32 = 752;

/// The columns, each by its left side.
#[derive(Drop)]
pub(crate) struct Columns {
    pub(crate) queues: Items<QueueColumn>,
    pub(crate) chains: Items<u32>,
    pub(crate) elements: u32,
    /// How many elements are shown.
    pub(crate) shown: usize,
    /// The right side of the picture.
    pub(crate) width: u32,
}

/// A queue's column: its left side, how many places it has, and how wide each of them is.
#[derive(Clone, Copy)]
pub(crate) struct QueueColumn {
    pub(crate) left: u32,
    pub(crate) places: u16,
    pub(crate) place: u32,
}

/// How wide each place of a queue is drawn.
fn place_width(places: u16) -> u32 {
    if places <= 16 {
        20
    } else if places <= 64 {
        8
    } else {
        4
    }
}

/// Whether an element is free, as at first, with nothing else to be seen of it.
fn is_plain(element: &ElementStatus) -> bool {
    matches!(element.place, Place::Free)
        && !element.stop
        && element.done == 0
        && element.pending == 0
}

/// How many elements there are up to the last one that isn't in its first state.
fn touched(elements: &[ElementStatus]) -> usize {
    let mut count = 0;
    for (number, element) in elements.iter().enumerate() {
        if !is_plain(element) {
            count = number.saturating_add(1);
        }
    }
    count
}

/// The columns of the queues from a left side on, and the left side of the next column.
fn queue_columns(
    alloc: Global,
    queues: &[QueueStatus],
    from: u32,
) -> Result<(Items<QueueColumn>, u32), OutOfMemory> {
    let mut columns = Vec::new(alloc);
    let mut left = from;
    for queue in queues {
        let places = queue.capacity;
        let place = place_width(places);
        columns.push(QueueColumn {
            left,
            places,
            place,
        })?;
        let width = u32::from(places).saturating_mul(place);
        left = left.saturating_add(width).saturating_add(GAP);
    }
    Ok((Items::new(columns), left))
}

/// The columns of `count` chains from a left side on, and the left side of the next column.
fn chain_columns(alloc: Global, count: usize, from: u32) -> Result<(Items<u32>, u32), OutOfMemory> {
    let mut columns = Vec::new(alloc);
    let mut left = from;
    for _ in 0..count {
        columns.push(left)?;
        left = left.saturating_add(CHAIN);
    }
    Ok((Items::new(columns), left))
}

/// The width of `count` things, each this wide.
fn wide(count: usize, each: u32) -> u32 {
    u32::try_from(count)
        .unwrap_or(u32::MAX)
        .saturating_mul(each)
}

/// The right side of `count` things of this width from here on, and a space.
fn following(from: u32, count: usize, each: u32) -> u32 {
    from.saturating_add(wide(count, each)).saturating_add(GAP)
}

/// How many elements these rows show.
fn shown_in(rows: &[Row]) -> usize {
    let mut shown = 0;
    for row in rows {
        shown = touched(row.status.elements.as_slice()).max(shown);
    }
    shown
}

/// The queues of the last row.
fn queues_in(rows: &[Row]) -> &[QueueStatus] {
    match rows.last() {
        Some(row) => row.status.queues.as_slice(),
        None => &[],
    }
}

/// How many chains the last row has.
fn chains_in(rows: &[Row]) -> usize {
    match rows.last() {
        Some(row) => row.status.chains.as_slice().len(),
        None => 0,
    }
}

/// The columns of a picture with these rows, whose events have at most this many letters.
pub(crate) fn columns_of(
    alloc: Global,
    rows: &[Row],
    letters: usize,
) -> Result<Columns, OutOfMemory> {
    let start = following(EVENT, letters, LETTER);
    let shown = shown_in(rows);
    let (queues, after_queues) = queue_columns(alloc, queues_in(rows), start)?;
    let (chains, elements) = chain_columns(alloc, chains_in(rows), after_queues)?;
    Ok(Columns {
        queues,
        chains,
        elements,
        shown,
        width: following(elements, shown, ELEMENT).max(LEGEND),
    })
}
