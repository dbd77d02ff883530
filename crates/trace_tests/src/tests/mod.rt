//! Traces of a few turns: the turns, the lines that pass, and the whole text.

mod flows;
mod passings;
mod recorders;
mod turns;
mod whole;

use boot_data::BootPlan;
use boot_log::{Did, Entry, Log, Part, Tried};
use boot_script::parse_boot;
use event_theory::Element;
use json::{Scratch, is_valid};
use processor::Moved;
use std::alloc::Global;
use std::panic::Expect;
use std::process::Abort;
use std::test::*;
use thread_table::NextRefusal;
use trace_events::print_trace;
use turn_dispatch::{Begun, Counted, Idle};

pub(crate) const SCRIPT: &[u8] =
    b"synthesis 1\npipe in 1 2\ngauge g\nthread a\nsay in hi\nthread b\nhear in\ntick g 3\n";

pub(crate) const NO_PART: Part = Part { start: 0, len: 0 };

/// The element of this number.
pub(crate) fn element<R: Abort>(rt: &R, number: u8) -> Element {
    Element::new(number).expect(rt, "element")
}

/// A turn of an element that ended at this time.
pub(crate) fn stepped(at: u64, element: Element, tried: Tried, moved: Moved, line: Part) -> Entry {
    let begun = Begun {
        element,
        delivered: Ok(0),
        number: 0,
    };
    let counted = Counted::Done(1);
    Entry {
        at,
        tended: None,
        fired: NO_PART,
        did: Did::Stepped {
            begun,
            tried,
            counted,
            moved,
            line,
        },
    }
}

/// A turn with nothing at hand that ended at this time.
pub(crate) fn idle(at: u64) -> Entry {
    Entry {
        at,
        tended: None,
        fired: NO_PART,
        did: Did::Idle(Idle::NothingReady(NextRefusal::NoneReady)),
    }
}

/// The log of a processor with these turns, after which none was missed.
pub(crate) fn log_of(alloc: Global, entries: &[Entry], bytes: &[u8]) -> Result<Log, Fail> {
    let entries = Vec::from_slice(alloc, entries)?;
    let bytes = Vec::from_slice(alloc, bytes)?;
    Ok(Log::new(entries, bytes, Vec::new(alloc), 0))
}

/// The text of a trace whose turns began at 1,000 ns; none of more than eight processors.
pub(crate) fn traced(alloc: Global, plan: &BootPlan, logs: &[&Log]) -> Option<Vec<u8>> {
    if 8 < logs.len() {
        return None;
    }
    let mut text = Vec::new(alloc);
    print_trace(alloc, plan, 1000, logs, &mut text).ok()?;
    Some(text)
}

/// Whether a trace of these logs is one JSON value that has these events.
pub(crate) fn show(alloc: Global, logs: &[&Log], events: &[&'static str]) -> Result<bool, Fail> {
    let plan = parse_boot(alloc, SCRIPT)?;
    let Some(text) = traced(alloc, &plan, logs) else {
        return Ok(false);
    };
    let Ok(text) = str::from_utf8(&text) else {
        return Ok(false);
    };
    let mut scratch = Scratch::new(alloc);
    let valid = is_valid(text, &mut scratch)?;
    Ok(valid && events.iter().all(|event| text.contains(*event)))
}

/// Whether a trace of one processor with these turns is one JSON value that has these events.
pub(crate) fn shows(
    alloc: Global,
    entries: &[Entry],
    bytes: &[u8],
    events: &[&'static str],
) -> Result<bool, Fail> {
    let log = log_of(alloc, entries, bytes)?;
    show(alloc, &[&log], events)
}
