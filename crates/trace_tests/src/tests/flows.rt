//! The lines that pass from a say to a hear.

use super::{NO_PART, element, idle, log_of, show, stepped};
use boot_data::plan::QueueIndex;
use boot_log::{Entry, HeardAnswer, Part, SaidAnswer, Tried};
use event_theory::Element;
use processor::Moved;
use std::test::*;

/// A turn of a thread that put the part of the bytes into the pipe, or took it from it.
fn passed(at: u64, thread: Element, is_put: bool, line: Part) -> Entry {
    let queue = QueueIndex::Small(0);
    let tried = if is_put {
        Tried::Say {
            queue,
            answer: SaidAnswer::Put(None),
        }
    } else {
        Tried::Hear {
            queue,
            answer: HeardAnswer::Taken(None),
        }
    };
    stepped(at, thread, tried, Moved::Ready(true), line)
}

#[test]
fn lines_pass_between_processors(rt: HostRuntime) -> Result<(), Fail> {
    let (first, second) = (element(&rt, 0), element(&rt, 1));
    let (hi, ho) = (Part { start: 0, len: 3 }, Part { start: 3, len: 3 });
    let said = [
        passed(2000, first, true, hi),
        passed(3000, first, true, ho),
        passed(4000, first, true, hi),
    ];
    let heard = [
        idle(1500),
        passed(2500, second, false, ho),
        passed(3500, second, false, ho),
        passed(4000, second, false, hi),
        passed(4000, second, false, hi),
        passed(9000, second, false, hi),
    ];
    let bytes = b"hi\nho\n";
    let said = log_of(rt.alloc(), &said, bytes)?;
    let heard = log_of(rt.alloc(), &heard, bytes)?;
    // "ho" was put once and taken twice, and the second taking is joined to nothing, as is the third of "hi".
    let flows = [
        "\"done\":1,\"went\":\"ready\"}},{\"name\":\"line\",\"cat\":\"line\",\"ph\":\"s\",\"pid\":1,\
         \"tid\":11,\"id\":0,\"ts\":2.000},{\"name\":\"line\",\"cat\":\"line\",\"ph\":\"f\",\"pid\":1,\
         \"tid\":12,\"bp\":\"e\",\"id\":0,\"ts\":2.499},{\"name\":\"line\",\"cat\":\"line\",\"ph\":\"s\",\
         \"pid\":1,\"tid\":11,\"id\":1,\"ts\":1.000},{\"name\":\"line\",\"cat\":\"line\",\"ph\":\"f\",\
         \"pid\":1,\"tid\":12,\"bp\":\"e\",\"id\":1,\"ts\":3.999},{\"name\":\"line\",\"cat\":\"line\",\
         \"ph\":\"s\",\"pid\":1,\"tid\":11,\"id\":2,\"ts\":3.000},{\"name\":\"line\",\"cat\":\"line\",\
         \"ph\":\"f\",\"pid\":1,\"tid\":12,\"bp\":\"e\",\"id\":2,\"ts\":4.000}],\"displayTimeUnit\":\"ns\"}",
    ];
    assert!(rt; show(rt.alloc(), &[&said, &heard], &flows)?);
    Ok(())
}

#[test]
fn flows_are_within_the_slices_of_threads(rt: HostRuntime) -> Result<(), Fail> {
    let (first, second) = (element(&rt, 0), element(&rt, 1));
    let hi = Part { start: 0, len: 3 };
    let pass = |at, thread| stepped(at, thread, Tried::Pass, Moved::Ready(true), NO_PART);
    let one = [pass(2000, first), pass(4000, second)];
    let other = [
        idle(1500),
        passed(3000, first, true, hi),
        passed(4000, second, false, hi),
    ];
    let one = log_of(rt.alloc(), &one, b"")?;
    let other = log_of(rt.alloc(), &other, b"hi\n")?;
    // The say began at 1,500 on its processor, and the hear at 3,000.
    let flows = [
        "\"tid\":11,\"ts\":2.000,\"dur\":1.000,\"args\":{\"processor\":1,",
        "\"tid\":12,\"ts\":4.000,\"dur\":0.000,\"args\":{\"processor\":1,",
        "\"ph\":\"s\",\"pid\":1,\"tid\":11,\"id\":0,\"ts\":2.000},{\"name\":\"line\",\"cat\":\"line\",\"ph\":\"f\",\
         \"pid\":1,\"tid\":12,\"bp\":\"e\",\"id\":0,\"ts\":4.000}],\"displayTimeUnit\":\"ns\"}",
    ];
    assert!(rt; show(rt.alloc(), &[&one, &other], &flows)?);
    Ok(())
}
