//! Tests of cases that no table of texts can state: values that are read, and readers and writers that fail. Statuses
//! and reports that are made of parts are also tested. `examples` has the tables.

use std::alloc::Global;
use std::fmt::Debug;
use std::io;
use std::io::Write;

mod boots;
mod examples;
mod heard;
mod printing;
mod reading;
mod replays;
mod reports;

/// Keeps the bytes of all writes, and counts the writes and those that end with the end of a line.
#[derive(Drop)]
struct Counted {
    bytes: Vec<u8>,
    writes: u32,
    whole: u32,
}

impl Counted {
    fn new(alloc: Global) -> Counted {
        Counted {
            bytes: Vec::new(alloc),
            writes: 0,
            whole: 0,
        }
    }
}

impl Write for Counted {
    fn write(&mut self, buf: &[u8]) -> io::Result<usize> {
        self.bytes.extend_from_slice(buf)?;
        self.writes = self.writes.saturating_add(1);
        if buf.ends_with(b"\n") {
            self.whole = self.whole.saturating_add(1);
        }
        Ok(buf.len())
    }

    fn flush(&mut self) -> io::Result<()> {
        Ok(())
    }
}

/// Whether `{:?}` writes a value like this.
fn shows<T: Debug>(alloc: Global, value: &T, wanted: &str) -> bool {
    format!(in alloc; "{value:?}").is_ok_and(|text| text.as_str() == wanted)
}

fn lines_of(bytes: &[u8]) -> usize {
    bytes.iter().filter(|byte| **byte == b'\n').count()
}
