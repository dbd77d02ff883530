//! The legend: the meaning of the colours, the bars and the marks.

ghost use Rattle.std.specs.Prelude.{◌-◌, OnOk};
ghost use Rattle.boot_picture.specs.Clear.{DrawsBelow};

use crate::columns::Bounds;
use crate::frame::Frame;
use crate::spans::Place;
use crate::thread_lanes::add_thread_place;
use event_theory::{OutOfMemory, WaitNumber};
use svg::{BOX, Canvas, Colour};

/// How far its lines are from each other.
const LINE: u32 = 30;

/// How wide a sample is.
const SAMPLE: u32 = 34;

/// A thing in a line of the legend.
#[derive(Clone, Copy)]
enum Sample {
    Words(&'static [u8]),
    /// The box of a turn of a thread, and the box of idle turns.
    Turn,
    Idle,
    /// The mark of an alarm.
    Alarm,
    /// A line that passed.
    Passing,
    /// The places of a thread.
    Ready,
    Processor,
    Wait,
    Stopped,
    Held,
    Ended,
}

#[rattlefmt::skip]
static PROCESSORS: [(u32, Sample); 7] = [
    (12, Sample::Words(b"processor")),
    (96, Sample::Turn), (136, Sample::Words(b"turn, in its thread's colour")),
    (376, Sample::Idle), (416, Sample::Words(b"idle turns in a row, and how many")),
    (696, Sample::Alarm), (716, Sample::Words(b"alarm fired")),
];

#[rattlefmt::skip]
static THREADS: [(u32, Sample); 13] = [
    (12, Sample::Words(b"thread")),
    (96, Sample::Processor), (136, Sample::Words(b"on processor 0")),
    (264, Sample::Ready), (304, Sample::Words(b"ready")),
    (360, Sample::Wait), (400, Sample::Words(b"in wait queue 3")),
    (536, Sample::Stopped), (576, Sample::Words(b"stopped")),
    (648, Sample::Held), (688, Sample::Words(b"held")),
    (736, Sample::Ended), (746, Sample::Words(b"ended")),
];

#[rattlefmt::skip]
static PASSINGS: [(u32, Sample); 3] = [
    (12, Sample::Words(b"line")),
    (96, Sample::Passing),
    (140, Sample::Words(b"from the say that put it to the hear that took it, without a pump or switch")),
];

/// The place of a thread that a sample shows.
fn place_of(sample: Sample) -> Option<Place> {
    match sample {
        Sample::Ready => Some(Place::Ready),
        Sample::Processor => Some(Place::On(0)),
        Sample::Wait => Some(Place::Waits(WaitNumber::new(3)?)),
        Sample::Stopped => Some(Place::Stopped),
        Sample::Held => Some(Place::Held),
        Sample::Ended => Some(Place::Ended),
        _ => None,
    }
}

/// Draws a thing.
fn add_sample(canvas: &mut Canvas, sample: Sample, x: u32, y: u32) -> Result<(), OutOfMemory>
    ensures { OnOk result (DrawsBelow y canvas.old canvas.new) }
{
    let right = x.saturating_add(SAMPLE);
    match sample {
        Sample::Words(words) => canvas.words(x, y, words),
        Sample::Turn => canvas.cell(x, y, SAMPLE, Colour::Orange),
        Sample::Idle => canvas.cell(x, y, SAMPLE, Colour::Faint),
        Sample::Alarm => canvas.bar(x, y.saturating_add(3), 12, 12, Colour::Red),
        Sample::Passing => {
            let below = y.saturating_add(BOX - 4);
            canvas.line(x, y, right, below, Colour::Ink)?;
            canvas.down(right.saturating_sub(4), below)
        }
        _ => match place_of(sample) {
            Some(place) => {
                let bounds = Bounds { left: x, right };
                add_thread_place(canvas, place, bounds, y, Colour::Orange)
            }
            None => Ok(()),
        },
    }
}

/// Draws a line.
fn add_line(canvas: &mut Canvas, line: &'static [(u32, Sample)], y: u32) -> Result<(), OutOfMemory>
    ensures { OnOk result (DrawsBelow y canvas.old canvas.new) }
{
    for (x, sample) in line {
        add_sample(canvas, *sample, *x, y)?;
    }
    Ok(())
}

/// Draws the legend.
pub(crate) fn add_legend(canvas: &mut Canvas, frame: &Frame) -> Result<(), OutOfMemory>
    ensures { OnOk result (DrawsBelow (frame.now.legend - 8) canvas.old canvas.new) }
{
    let y = frame.legend;
    canvas.bar(0, y.saturating_sub(8), frame.width, 1, Colour::Faint)?;
    add_line(canvas, &PROCESSORS, y)?;
    add_line(canvas, &THREADS, y.saturating_add(LINE))?;
    add_line(canvas, &PASSINGS, y.saturating_add(LINE + LINE))
}
