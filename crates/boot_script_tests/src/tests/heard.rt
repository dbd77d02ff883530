//! Lines of bytes that threads heard, and the report that reads them at their places.

ghost use Rattle.std.specs.Prelude.{◌≡◌, length, IfSome};
ghost use Rattle.boot_data.specs.Hearing.{IsPlace};

use boot_data::{HeardLines, HeardPlace, HeardReport, Name};
use event_theory::OutOfMemory;
use std::alloc::Global;

/// A line: its thread, its step, and its items.
#[derive(Clone, Copy)]
pub(super) struct Line<'a> {
    pub(super) thread: u8,
    pub(super) step: u8,
    pub(super) items: &'a [u64],
}

/// The lines of a processor that heard these; nothing if one is too long.
pub(super) fn heard_by(alloc: Global, lines: &[Line<'_>]) -> Option<HeardLines>
    ensures { IfSome result (λ heard. length heard.lines ≡ length lines.now) }
{
    if lines.len() > 65536 {
        return None;
    }
    let mut heard = HeardLines::with_room(alloc, lines.len(), 256).ok()?;
    for line in lines {
        if line.items.len() > 256 {
            return None;
        }
        heard.push(line.thread, line.step, line.items);
    }
    Some(heard)
}

/// The place of the line with this number of this processor.
fn place(processors: &[HeardLines], processor: usize, number: usize) -> Option<HeardPlace>
    ensures { IfSome result (IsPlace processors.now) }
{
    let heard = processors.get(processor)?;
    if number >= heard.len() {
        return None;
    }
    let (thread, step) = heard.key(number);
    Some(HeardPlace {
        thread,
        step,
        processor,
        number,
    })
}

/// A report of the lines that the processors heard, in this order: each by its processor and its number there.
pub(super) fn report_in(
    names: Vec<Name>,
    processors: Vec<HeardLines>,
    alloc: Global,
    order: &[(usize, usize)],
) -> Option<HeardReport> {
    let mut places = Vec::new(alloc);
    for (processor, number) in order {
        let place = place(processors.as_slice(), *processor, *number)?;
        places.push(place).ok()?;
    }
    Some(HeardReport::new(names, places, processors))
}

#[test]
fn a_line_is_kept_as_bytes(rt: HostRuntime) {
    let first = Line {
        thread: 1,
        step: 2,
        items: &[7, 300, u64::MAX],
    };
    let empty = Line {
        thread: 0,
        step: 255,
        items: &[],
    };
    let Some(heard) = heard_by(rt.alloc(), &[first, empty]) else {
        panic!(rt; "no lines")
    };
    assert!(rt; heard.len() == 2);
    assert!(rt; heard.key(0) == (1, 2) && heard.key(1) == (0, 255));
    assert!(rt; heard.bytes(0) == [7, 44, 255].as_slice());
    assert!(rt; heard.bytes(1).is_empty());
    assert!(rt; HeardLines::new(rt.alloc()).len() == 0);
}

/// A report has the name, the step and the bytes of each line; a thread without a name has an empty name.
#[test]
fn a_report_reads_lines_at_their_places(rt: HostRuntime) {
    let Some(heard) = two_lines(rt.alloc()) else {
        panic!(rt; "no report")
    };
    assert!(rt; heard.len() == 2);
    assert!(rt; heard.thread(0) == b"a".as_slice() && heard.thread(1).is_empty());
    assert!(rt; heard.step(0) == 3 && heard.step(1) == 2);
    assert!(rt; heard.bytes(0) == b"hi".as_slice() && heard.bytes(1) == b"x".as_slice());
}

/// Two lines: one that the second processor heard, and one of a thread without a name.
fn two_lines(alloc: Global) -> Option<HeardReport> {
    let other = Line {
        thread: 1,
        step: 2,
        items: &[120],
    };
    let own = Line {
        thread: 0,
        step: 3,
        items: &[104, 105],
    };
    let processors = vec![in alloc; heard_by(alloc, &[other])?, heard_by(alloc, &[own])?];
    let names = vec![in alloc; Name::of(b"a")];
    report_in(names.ok()?, processors.ok()?, alloc, &[(1, 0), (0, 0)])
}

/// If an allocation is refused, there are no lines, and the next try has them. `tools/refused/memory tests` refuses
/// each allocation of this test.
#[test]
fn heard_memory_may_run_out(rt: HostRuntime) {
    let mut made = false;
    for _ in 0..3u8 {
        match HeardLines::with_room(rt.alloc(), 1, 2) {
            Ok(mut heard) => {
                heard.push(0, 1, &[104, 105]);
                assert!(rt; heard.bytes(0) == b"hi".as_slice());
                made = true;
            }
            Err(error) => assert!(rt; error == OutOfMemory),
        }
    }
    assert!(rt; made);
}
