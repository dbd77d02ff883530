//! A queue's places in a row: a box each, with the marks of its head and its tail.

use crate::columns::QueueColumn;
use crate::places::Seat;
use event_theory::{OutOfMemory, QueueStatus};
use svg::words::numbered;
use svg::{Anchor, BOX, Canvas, Colour};

/// The smallest width of a box that has its call's number inside.
const ROOM_FOR_NUMBER: u32 = 20;

/// A place of a queue.
#[derive(Clone, Copy)]
pub(crate) enum PlaceState {
    /// Never claimed.
    Free,
    /// Claimed and not raised.
    Claimed,
    /// Raised and not taken.
    Raised,
    /// Taken, and free again.
    Taken,
}

impl PlaceState {
    pub(crate) fn colour(self) -> Colour {
        match self {
            PlaceState::Free => Colour::White,
            PlaceState::Claimed => Colour::Orange,
            PlaceState::Raised => Colour::Sky,
            PlaceState::Taken => Colour::Grey,
        }
    }
}

/// The seat of a place, if the place is claimed: the first one that is left lies at the tail.
fn seat_at<'a>(left: &'a [Seat], queue: &QueueStatus, place: u16) -> Option<&'a Seat> {
    let places = u64::from(queue.capacity);
    if places == 0 {
        return None;
    }
    let tail = queue.taken % places;
    let following = (u64::from(place) + places - tail) % places;
    left.get(usize::try_from(following).unwrap_or(usize::MAX))
}

/// The state of a place.
fn state_of(seat: Option<&Seat>, queue: &QueueStatus, place: u16) -> PlaceState {
    match seat {
        Some(Seat { raised: true, .. }) => PlaceState::Raised,
        Some(_) => PlaceState::Claimed,
        None if u64::from(place) < queue.put => PlaceState::Taken,
        None => PlaceState::Free,
    }
}

/// The number of the call that claimed a place, inside its box.
fn add_number(canvas: &mut Canvas, seat: &Seat, x: u32, y: u32) -> Result<(), OutOfMemory> {
    let text = numbered(canvas.alloc(), "", u64::from(seat.call.number()))?;
    canvas.label(
        x.saturating_add(ROOM_FOR_NUMBER / 2),
        y,
        Anchor::Middle,
        text,
    )
}

/// The box of one place.
fn add_place(
    canvas: &mut Canvas,
    queue: &QueueStatus,
    left: &[Seat],
    place: u16,
    width: u32,
    x: u32,
    y: u32,
) -> Result<(), OutOfMemory> {
    let seat = seat_at(left, queue, place);
    let fill = state_of(seat, queue, place).colour();
    canvas.cell(x, y, width, fill)?;
    match seat {
        Some(seat) if width >= ROOM_FOR_NUMBER => add_number(canvas, seat, x, y),
        _ => Ok(()),
    }
}

/// The left side of the place where a count of items ends.
fn side_of(column: &QueueColumn, count: u64) -> u32 {
    let places = u64::from(column.places);
    if places == 0 {
        return column.left;
    }
    let place = u32::try_from(count % places).unwrap_or(0);
    column
        .left
        .saturating_add(place.saturating_mul(column.place))
}

/// The marks: the tail, the next place to be taken, below, and the head, the next place to be claimed, above.
fn add_marks(
    canvas: &mut Canvas,
    queue: &QueueStatus,
    column: &QueueColumn,
    y: u32,
) -> Result<(), OutOfMemory> {
    let inside = column.place.saturating_sub(8) / 2;
    let tail = side_of(column, queue.taken).saturating_add(inside);
    let head = side_of(column, queue.put).saturating_add(inside);
    canvas.up(tail, y.saturating_add(BOX + 7))?;
    canvas.down(head, y.saturating_sub(7))
}

/// The boxes of all places. The answer is the right side of the boxes.
fn add_places(
    canvas: &mut Canvas,
    queue: &QueueStatus,
    left: &[Seat],
    column: &QueueColumn,
    y: u32,
) -> Result<u32, OutOfMemory> {
    let mut x = column.left;
    for place in 0..column.places {
        add_place(canvas, queue, left, place, column.place, x, y)?;
        x = x.saturating_add(column.place);
    }
    Ok(x)
}

/// The bar of a queue that is shut, at its right side.
fn add_shut(
    canvas: &mut Canvas,
    queue: &QueueStatus,
    side: u32,
    y: u32,
) -> Result<(), OutOfMemory> {
    if queue.shut {
        canvas.bar(
            side.saturating_add(3),
            y.saturating_sub(3),
            4,
            BOX + 6,
            Colour::Red,
        )
    } else {
        Ok(())
    }
}

/// Draws a queue's places at a height: their boxes, and the marks. A queue that is shut has a bar at its right side.
pub(crate) fn add_queue(
    canvas: &mut Canvas,
    queue: &QueueStatus,
    left: &[Seat],
    column: &QueueColumn,
    y: u32,
) -> Result<(), OutOfMemory> {
    let side = add_places(canvas, queue, left, column, y)?;
    add_shut(canvas, queue, side, y)?;
    add_marks(canvas, queue, column, y)
}
