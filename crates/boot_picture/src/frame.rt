//! The places of the picture's rows: the head, the lanes, the report and the legend.

ghost use Rattle.std.specs.Prelude.{◌≡◌, ◌≤◌, ◌<◌, ◌+◌, ◌*◌};
ghost use Rattle.std.specs.List.{All};

use crate::columns::{LETTER, Placed, right_of};
use crate::lanes::lane_side;
use boot_data::BootPlan;

/// The side at which the names of lanes begin.
pub(crate) const NAMES: u32 = 12;

/// The base lines of the title and of the note under it.
pub(crate) const TITLE: u32 = 22;

pub(crate) const NOTE: u32 = 42;

/// The upper side of the marks above the lanes: the times, or the alarms.
const FIRST: u32 = 56;

/// How far the lanes of two processors, or of two threads, or two lines of words, are from each other.
pub(crate) const PROCESSOR: u32 = 60;

pub(crate) const THREAD: u32 = 28;

pub(crate) const LINE: u32 = 18;

/// How high a row of marks is, the space between parts, and how high the legend is.
const MARKS: u32 = 22;

const SPACE: u32 = 20;

const LEGEND: u32 = 110;

/// The least width.
const LEAST: u32 = 900;

/// The upper sides of the rows, and the size of the picture. There is room for marks above the lanes of the processors,
/// and the legend is the last row.
#[derive(Clone, Copy)]
pub(crate) struct Frame {
    pub(crate) times: u32,
    pub(crate) alarms: u32,
    pub(crate) processors: u32,
    pub(crate) threads: u32,
    pub(crate) report: u32,
    pub(crate) legend: u32,
    pub(crate) height: u32,
    /// The right side of the last block.
    pub(crate) right: u32,
    pub(crate) width: u32,
    ghost marks: { 23 ≤ processors },
    ghost last: { threads ≤ legend },
}

/// The side after so many rows from here on, each of this height.
pub(crate) fn after(from: u32, count: usize, each: u32) -> u32
    ensures { from ≤ result }
{
    let count = u32::try_from(count).unwrap_or(u32::MAX);
    from.saturating_add(count.saturating_mul(each))
}

/// How many lines a text has.
pub(crate) fn lines_in(text: &[u8]) -> usize {
    let mut lines = 0usize;
    for byte in text {
        if *byte == b'\n' {
            lines = lines.saturating_add(1);
        }
    }
    lines
}

/// How wide the longest line of a text is.
fn wide(text: &[u8]) -> u32 {
    let mut letters = 0usize;
    for line in text.split(|byte| *byte == b'\n') {
        letters = letters.max(line.len());
    }
    let letters = u32::try_from(letters).unwrap_or(u32::MAX);
    letters.saturating_mul(LETTER)
}

/// The places of the rows of a picture with this plan, these blocks and this report, on so many processors.
///
/// Condition: there are at most eight processors.
pub(crate) fn frame_of(
    plan: &BootPlan,
    all: &[Placed],
    report: &[u8],
    processors: usize,
    by_time: bool,
) -> Frame
    requires { processors ≤ 8 }
    ensures top { result.processors < 1000 }
    ensures lanes { result.threads ≡ result.processors + processors * 60 + 20 }
    ensures high { result.threads ≤ result.height }
    ensures wide { All (λ placed. placed.bounds.right ≤ result.width) all.now }
{
    let alarms = if by_time { FIRST + MARKS } else { FIRST };
    let has_alarms = !plan.alarms.as_slice().is_empty();
    let lanes = if has_alarms { alarms + MARKS } else { alarms } + 4;
    let threads = lane_side(lanes, processors) + SPACE;
    let below = after(threads, plan.threads.as_slice().len(), THREAD).saturating_add(SPACE);
    let legend = after(below, lines_in(report), LINE).saturating_add(SPACE);
    let right = right_of(all);
    let words = wide(report).saturating_add(NAMES);
    Frame {
        times: FIRST,
        alarms,
        processors: lanes,
        threads,
        report: below,
        legend,
        height: legend.saturating_add(LEGEND),
        right,
        width: right.max(words).saturating_add(SPACE).max(LEAST),
    }
}
