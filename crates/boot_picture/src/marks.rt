//! The marks above the lanes: the alarms that were fired, and the times.

ghost use Rattle.std.specs.Prelude.{OnOk};
ghost use Rattle.boot_picture.specs.Clear.{DrawsAbove, DrawsGround};

use crate::columns::{Bounds, LETTER, Placed, Scale, entry_of};
use crate::frame::{Frame, NAMES};
use crate::labels::letters_in;
use crate::naming::thread_name;
use crate::order::Track;
use crate::phrase::Phrase;
use boot_data::BootPlan;
use event_theory::{Alarm, Items, OutOfMemory};
use std::alloc::Global;
use svg::{Anchor, Canvas, Colour};

/// How wide and how high the mark of an alarm is.
const MARK: u32 = 12;

/// How far above the lanes it is.
const ABOVE: u32 = 23;

/// How far the marks of times are from each other at least.
const STEP: u64 = 120;

/// The thread and the signal of an alarm.
fn add_target(phrase: &mut Phrase, plan: &BootPlan, alarm: &Alarm) -> Result<(), OutOfMemory> {
    phrase.bytes(thread_name(plan, alarm.element))?;
    phrase.numbered(" ", u64::from(alarm.signal.number()))
}

/// The title of the mark of alarms: each with its tick, its thread and its signal.
fn alarms_title(
    alloc: Global,
    plan: &BootPlan,
    alarms: &[Alarm],
) -> Result<Items<u8>, OutOfMemory> {
    let mut phrase = Phrase::new(alloc);
    phrase.words("fired:")?;
    for alarm in alarms {
        phrase.numbered(" alarm ", u64::from(alarm.due))?;
        phrase.words(" ")?;
        add_target(&mut phrase, plan, alarm)?;
        phrase.words(";")?;
    }
    Ok(phrase.end())
}

/// The words beside the mark of alarms: the thread and the signal of the first, and how many more there are.
fn alarms_words(
    alloc: Global,
    plan: &BootPlan,
    alarms: &[Alarm],
) -> Result<Items<u8>, OutOfMemory> {
    let mut phrase = Phrase::new(alloc);
    if let Some(first) = alarms.first() {
        add_target(&mut phrase, plan, first)?;
        if alarms.len() > 1 {
            phrase.numbered(" +", (alarms.len() as u64).saturating_sub(1))?;
        }
    }
    Ok(phrase.end())
}

/// Draws the mark of the alarms that a turn fired, and their words if they fit.
fn add_alarm(
    canvas: &mut Canvas,
    frame: &Frame,
    plan: &BootPlan,
    alarms: &[Alarm],
    bounds: Bounds,
) -> Result<(), OutOfMemory>
    ensures { OnOk result (DrawsAbove frame.now.processors canvas.old canvas.new) }
{
    let title = alarms_title(canvas.alloc(), plan, alarms)?;
    let y = frame.processors - ABOVE;
    canvas.titled_box(bounds.left, y, MARK, MARK, Colour::Red, title)?;
    let words = alarms_words(canvas.alloc(), plan, alarms)?;
    let left = bounds.left.saturating_add(MARK);
    let beside = Bounds {
        left,
        right: bounds.right,
    };
    if letters_in(beside) < words.as_slice().len() {
        return Ok(());
    }
    canvas.label(left.saturating_add(4), frame.alarms, Anchor::Start, words)
}

/// Draws the marks of all alarms that were fired.
pub(crate) fn add_alarms(
    canvas: &mut Canvas,
    frame: &Frame,
    plan: &BootPlan,
    tracks: &[Track],
    all: &[Placed],
) -> Result<(), OutOfMemory>
    ensures { OnOk result (DrawsAbove frame.now.processors canvas.old canvas.new) }
{
    if !plan.alarms.as_slice().is_empty() {
        canvas.words(NAMES, frame.alarms, b"alarms")?;
    }
    for placed in all {
        if let (Some(track), Some(entry)) = (
            tracks.get(placed.ordered.processor),
            entry_of(tracks, &placed.ordered),
        ) {
            let alarms = track.log.alarms(entry.fired);
            if !alarms.is_empty() {
                add_alarm(canvas, frame, plan, alarms, placed.bounds)?;
            }
        }
    }
    Ok(())
}

/// The least of 1, 2, 5, 10, 20, 50 and so on that is no less than this number, or 10^19 if it is more.
fn round_up(least: u64) -> u64 {
    let mut power = 1u64;
    for _ in 0..19 {
        for step in [power, power.saturating_mul(2), power.saturating_mul(5)] {
            if step >= least {
                return step;
            }
        }
        power = power.saturating_mul(10);
    }
    power
}

/// How many nanoseconds are between two marks.
fn step_of(scale: Scale) -> u64 {
    let least = u128::from(scale.span) * u128::from(STEP) / u128::from(scale.width.max(1));
    round_up(u64::try_from(least).unwrap_or(u64::MAX))
}

/// A time since the first end of a turn, in a unit that fits the step from mark to mark.
fn time_words(alloc: Global, step: u64, passed: u64) -> Result<Items<u8>, OutOfMemory> {
    let mut phrase = Phrase::new(alloc);
    if step < 1000 {
        phrase.number(passed)?;
        phrase.words(" ns")?;
    } else if step < 1_000_000 {
        phrase.number(passed / 1000)?;
        phrase.words(" us")?;
    } else {
        phrase.number(passed / 1_000_000)?;
        phrase.words(" ms")?;
    }
    Ok(phrase.end())
}

/// Draws a time at its place along the upper side, if its words fit, and a thin line through the lanes there.
fn add_time(canvas: &mut Canvas, frame: &Frame, x: u32, words: Items<u8>) -> Result<(), OutOfMemory>
    ensures { OnOk result (DrawsGround frame.now.width frame.now.height canvas.old canvas.new) }
{
    let height = frame.threads.saturating_sub(frame.times);
    canvas.bar(x, frame.times, 1, height, Colour::Faint)?;
    let wide = u32::try_from(words.as_slice().len()).unwrap_or(u32::MAX);
    if x.saturating_add(wide.saturating_mul(LETTER)) >= frame.width {
        return Ok(());
    }
    canvas.label(x.saturating_add(4), frame.times, Anchor::Start, words)
}

/// Draws the times along the upper side.
pub(crate) fn add_times(canvas: &mut Canvas, frame: &Frame, scale: Scale) -> Result<(), OutOfMemory>
    ensures { OnOk result (DrawsGround frame.now.width frame.now.height canvas.old canvas.new) }
{
    canvas.words(NAMES, frame.times, b"time")?;
    let step = step_of(scale);
    let count = (scale.span / step.max(1)).min(1000);
    for number in 0..count + 1 {
        let passed = number.saturating_mul(step);
        let words = time_words(canvas.alloc(), step, passed)?;
        let x = scale.place(scale.from.saturating_add(passed));
        add_time(canvas, frame, x, words)?;
    }
    Ok(())
}
