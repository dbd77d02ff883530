//! Tables of texts that are read or refused. The head of each table describes how its lines are read.

use boot_script::{parse_boot, parse_events, parse_number};
use std::alloc::Global;
use std::io::Write;
use std::{fs, io};

/// The table of lists of events, and the table of boot scripts.
pub const TABLES: [&str; 2] = ["event-faults.txt", "boot-faults.txt"];

/// Adds a part of a piece that has no byte named by its number.
fn add_plain(text: &mut Vec<u8>, plain: &[u8], time: u64) -> io::Result<()> {
    for byte in plain {
        match *byte {
            b'/' => text.push(b'\n')?,
            b'@' => write!(text, "{time}")?,
            other => text.push(other)?,
        }
    }
    Ok(())
}

/// Adds a piece once, each second part of it a byte named by its number.
fn add_once(text: &mut Vec<u8>, piece: &[u8], time: u64) -> io::Result<()> {
    for (index, part) in piece.split(|byte| *byte == b'%').enumerate() {
        match parse_number(part, 255) {
            Ok(byte) if index % 2 == 1 => text.push(byte as u8)?,
            _ => add_plain(text, part, time)?,
        }
    }
    Ok(())
}

/// Adds a piece as many times as the piece specifies.
fn add_piece(text: &mut Vec<u8>, piece: &[u8]) -> io::Result<()> {
    let mut parts = piece.split(|byte| *byte == b'*');
    match (parts.next(), parts.next()) {
        (Some(times), Some(repeated)) => {
            for time in 0..parse_number(times, 65_537).unwrap_or(0) {
                add_once(text, repeated, time)?;
            }
            Ok(())
        }
        _ => add_once(text, piece, 0),
    }
}

/// Adds all pieces of a text, as a table writes it.
fn add_text(text: &mut Vec<u8>, said: &[u8]) -> io::Result<()> {
    for piece in said.split(|byte| *byte == b'|') {
        add_piece(text, piece)?;
    }
    Ok(())
}

/// A table, as far as it is read.
#[derive(Drop)]
struct Table {
    is_boot: bool,
    /// The text before each text.
    front: Vec<u8>,
    /// The expected result of each text.
    wanted: Vec<u8>,
    count: u32,
    same: bool,
}

impl Table {
    /// The first fault of a text as printed text, or `read` if there is none.
    fn fault_of(&self, alloc: Global, text: &[u8]) -> io::Result<String> {
        let fault = if self.is_boot {
            parse_boot(alloc, text).err()
        } else {
            parse_events(alloc, text).err()
        };
        Ok(match fault {
            Some(fault) => format!(in alloc; "{fault}")?,
            None => String::from_str(alloc, "read")?,
        })
    }

    /// Compares the result of a text with the expected one. Prints a result that differs.
    fn compare(&mut self, rt: &HostRuntime, said: &[u8]) -> io::Result<()> {
        let mut text = Vec::from_slice(rt.alloc(), &self.front)?;
        add_text(&mut text, said)?;
        let fault = self.fault_of(rt.alloc(), &text)?;
        self.count = self.count.saturating_add(1);
        if fault.as_bytes() != self.wanted.as_slice() {
            self.same = false;
            let shown = String::from_utf8_lossy(rt.alloc(), said)?;
            println!(rt; "{shown}: other than told here: {fault}")?;
        }
        Ok(())
    }

    /// Reads a line: a text in quotes, the expected result of the later texts, or the text before each of them.
    fn read(&mut self, rt: &HostRuntime, line: &[u8]) -> io::Result<()> {
        if let Some(quoted) = line.strip_prefix(b"\"") {
            self.compare(rt, quoted.strip_suffix(b"\"").unwrap_or(quoted))?;
        } else if let Some(wanted) = line.strip_prefix(b"= ") {
            self.wanted = Vec::from_slice(rt.alloc(), wanted)?;
        } else if let Some(front) = line.strip_prefix(b"> ") {
            self.front.clear();
            add_text(&mut self.front, front)?;
        }
        Ok(())
    }
}

/// Reads each text of a table, prints how many there are, and returns whether each result is the expected one.
pub fn compare_faults(rt: &HostRuntime, name: &str) -> io::Result<bool> {
    let mut table = Table {
        is_boot: name.starts_with("boot"),
        front: Vec::new(rt.alloc()),
        wanted: Vec::new(rt.alloc()),
        count: 0,
        same: true,
    };
    for line in fs::read(rt, name)?.split(|byte| *byte == b'\n') {
        table.read(rt, line)?;
    }
    let (count, same) = (table.count, table.same);
    println!(rt; "{name}: {count} texts")?;
    Ok(same)
}
