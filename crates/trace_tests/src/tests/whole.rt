//! A trace as a whole, and a writer that fails.

use super::{SCRIPT, idle, log_of, traced};
use boot_script::parse_boot;
use std::io;
use std::io::{ErrorKind, Write};
use std::panic::Expect;
use std::test::*;
use trace_events::*;

#[test]
fn no_turn(rt: HostRuntime) -> Result<(), Fail> {
    let plan = parse_boot(rt.alloc(), SCRIPT)?;
    let text = traced(rt.alloc(), &plan, &[]).expect(&rt, "text");
    let process =
        "{\"name\":\"process_name\",\"cat\":\"__metadata\",\"ph\":\"M\",\"pid\":1,\"tid\":0,\
         \"args\":{\"name\":\"synthesis\"}}";
    let first =
        "{\"name\":\"thread_name\",\"cat\":\"__metadata\",\"ph\":\"M\",\"pid\":1,\"tid\":11,\
         \"args\":{\"name\":\"a\"}}";
    let second =
        "{\"name\":\"thread_name\",\"cat\":\"__metadata\",\"ph\":\"M\",\"pid\":1,\"tid\":12,\
         \"args\":{\"name\":\"b\"}}";
    let wanted = format!(in rt.alloc();
        "{{\"traceEvents\":[{process},{first},{second}],\"displayTimeUnit\":\"ns\"}}"
    )?;
    assert!(rt; text.as_slice() == wanted.as_bytes());
    Ok(())
}

/// A writer that fails after this many bytes.
#[derive(Drop)]
struct Full {
    left: u32,
}

impl Write for Full {
    fn write(&mut self, buf: &[u8]) -> io::Result<usize> {
        if self.left == 0 {
            return Err(io::Error::from(ErrorKind::Other));
        }
        self.left = self.left.saturating_sub(1);
        Ok(buf.len().min(1))
    }

    fn flush(&mut self) -> io::Result<()> {
        Ok(())
    }
}

#[test]
fn a_writer_fails(rt: HostRuntime) -> Result<(), Fail> {
    let plan = parse_boot(rt.alloc(), SCRIPT)?;
    let log = log_of(rt.alloc(), &[idle(1500)], b"")?;
    let logs = [&log];
    let text = traced(rt.alloc(), &plan, &logs).expect(&rt, "text");
    let length = u32::try_from(text.len()).unwrap_or(0);
    for left in 0..length {
        let mut full = Full { left };
        let answer = print_trace(rt.alloc(), &plan, 1000, &logs, &mut full);
        assert!(rt; answer == Err(TraceFault::Write));
    }
    let mut full = Full { left: length };
    let answer = print_trace(rt.alloc(), &plan, 1000, &logs, &mut full);
    assert!(rt; answer == Ok(()));
    Ok(())
}
