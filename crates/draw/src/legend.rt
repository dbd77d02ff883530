//! The legend: the meaning of the boxes, the marks and the letters.

use crate::columns::Columns;
use crate::element_cells::{add_place, add_stop};
use crate::gates::add_gate;
use crate::queue_boxes::PlaceState;
use event_theory::{Call, Gate, OutOfMemory, Place, Processor, WaitNumber};
use svg::{BOX, Canvas, Colour};

/// How far its lines are from each other.
const LINE: u32 = 32;

/// A thing in a line of the legend.
#[derive(Clone, Copy)]
enum Sample {
    Words(&'static [u8]),
    /// A box of a queue's place.
    Box(PlaceState),
    /// The mark of a queue's head.
    Head,
    /// The mark of its tail.
    Tail,
    /// The bar of a queue that is shut.
    Shut,
    Gate(Gate),
    /// The cell of an element that is free, ready or stopped.
    Free,
    Ready,
    Stopped,
    /// The cell of an element on this processor, in this wait queue, or held by this call.
    Processor(u8),
    Wait(u8),
    Held(u8),
    /// The mark of a stop bit.
    Stop,
}

/// A line of the legend: each thing by its left side.
type Line = &'static [(u32, Sample)];

/// How wide the box of a queue's place is.
const PLACE: u32 = 20;

/// The line of queues.
#[rattlefmt::skip]
static QUEUES: [(u32, Sample); 19] = [
    (12, Sample::Words(b"queue")),
    (76, Sample::Box(PlaceState::Free)), (82, Sample::Words(b"")), (102, Sample::Words(b"free")),
    (152, Sample::Box(PlaceState::Claimed)), (158, Sample::Words(b"1")), (178, Sample::Words(b"claimed by c1")),
    (300, Sample::Box(PlaceState::Raised)), (306, Sample::Words(b"1")), (326, Sample::Words(b"raised")),
    (392, Sample::Box(PlaceState::Taken)), (398, Sample::Words(b"")), (418, Sample::Words(b"taken")),
    (478, Sample::Head), (492, Sample::Words(b"head")),
    (538, Sample::Tail), (552, Sample::Words(b"tail")),
    (602, Sample::Shut), (614, Sample::Words(b"shut")),
];

/// The line of chains.
#[rattlefmt::skip]
static GATES: [(u32, Sample); 5] = [
    (12, Sample::Words(b"gate")),
    (76, Sample::Gate(Gate::Idle)), (150, Sample::Gate(Gate::Running)), (224, Sample::Gate(Gate::More)),
    (298, Sample::Words(b"and how many notes are left")),
];

/// The line of elements.
#[rattlefmt::skip]
static ELEMENTS: [(u32, Sample); 15] = [
    (12, Sample::Words(b"element")),
    (76, Sample::Free), (114, Sample::Words(b"free")),
    (152, Sample::Ready), (190, Sample::Words(b"ready")),
    (236, Sample::Processor(1)), (274, Sample::Words(b"on p1")),
    (320, Sample::Wait(2)), (358, Sample::Words(b"in w2")),
    (404, Sample::Held(3)), (442, Sample::Words(b"held by c3")),
    (526, Sample::Stopped), (564, Sample::Words(b"stopped")),
    (634, Sample::Stop), (674, Sample::Words(b"stop bit")),
];

/// The place that a cell shows.
fn place_of(sample: Sample) -> Option<Place> {
    match sample {
        Sample::Free => Some(Place::Free),
        Sample::Ready => Some(Place::Ready),
        Sample::Stopped => Some(Place::Stopped),
        Sample::Processor(number) => Some(Place::Processor(Processor::new(number)?)),
        Sample::Wait(number) => Some(Place::Wait(WaitNumber::new(number)?)),
        Sample::Held(number) => Some(Place::Held(Call::new(number)?)),
        _ => None,
    }
}

/// Draws the cell of an element.
fn add_cell(canvas: &mut Canvas, sample: Sample, x: u32, y: u32) -> Result<(), OutOfMemory> {
    match place_of(sample) {
        Some(place) => add_place(canvas, place, x, y),
        None => Ok(()),
    }
}

/// Draws a thing.
fn add_sample(canvas: &mut Canvas, sample: Sample, x: u32, y: u32) -> Result<(), OutOfMemory> {
    match sample {
        Sample::Words(words) => canvas.words(x, y, words),
        Sample::Box(state) => canvas.cell(x, y, PLACE, state.colour()),
        Sample::Head => canvas.down(x, y.saturating_add(7)),
        Sample::Tail => canvas.up(x, y.saturating_add(12)),
        Sample::Shut => canvas.bar(x, y, 4, BOX, Colour::Red),
        Sample::Gate(gate) => add_gate(canvas, gate, x, y),
        Sample::Stop => add_stop(canvas, x, y.saturating_sub(12)),
        _ => add_cell(canvas, sample, x, y),
    }
}

/// Draws a line.
fn add_line(canvas: &mut Canvas, line: Line, y: u32) -> Result<(), OutOfMemory> {
    for (x, sample) in line {
        add_sample(canvas, *sample, *x, y)?;
    }
    Ok(())
}

/// A line if the thing that it explains is there, else none.
fn line_for(is_there: bool, line: Line) -> Line {
    if is_there { line } else { &[] }
}

/// The lines of a picture with these columns; those that it doesn't need are empty.
fn lines_of(columns: &Columns) -> [Line; 3] {
    [
        line_for(!columns.queues.as_slice().is_empty(), &QUEUES),
        line_for(!columns.chains.as_slice().is_empty(), &GATES),
        line_for(columns.shown > 0, &ELEMENTS),
    ]
}

/// Draws the lines of the legend that a picture with these columns needs, with their upper side here.
pub(crate) fn add_legend(
    canvas: &mut Canvas,
    columns: &Columns,
    y: u32,
) -> Result<(), OutOfMemory> {
    let mut y = y;
    for line in lines_of(columns) {
        if !line.is_empty() {
            add_line(canvas, line, y)?;
            y = y.saturating_add(LINE);
        }
    }
    Ok(())
}

/// How high the legend of such a picture is.
pub(crate) fn height(columns: &Columns) -> u32 {
    let mut height = 0u32;
    for line in lines_of(columns) {
        if !line.is_empty() {
            height = height.saturating_add(LINE);
        }
    }
    height
}
