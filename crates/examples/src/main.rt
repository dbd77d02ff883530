//! Replays each example and each row of the table of events and refusals. Compares the printed text with the expected
//! one: an example has its status beside it. Reads each text of the tables of faults, and compares the result with the
//! expected one. Reads each boot script.
#![tactic(auto)]

mod boots;
mod faults;

use boot_script::{ReplayFault, Replayed, replay_on};
use boots::{BOOTS, read_boots};
use faults::{TABLES, compare_faults};
use std::alloc::Global;
use std::process::ExitCode;
use std::{fs, io};

/// The table of events and refusals. Each file beside the tables and the folder of boot scripts is NAME.events, a list
/// of events, or NAME.status, the text that the list prints.
const ROWS: &str = "rows.txt";

/// Whether the answer of a replay agrees with the printed text: an event was refused, none was, or nothing was printed.
fn is_as_answered(
    alloc: Global,
    replayed: &Result<Replayed, ReplayFault>,
    printed: &[u8],
) -> io::Result<bool> {
    Ok(match replayed {
        Ok(Replayed::AllAllowed) => !printed
            .split(|byte| *byte == b'\n')
            .any(|line| line.starts_with(b"refused ")),
        Ok(Replayed::Refused { line, refusal }) => {
            let number = *refusal as u8;
            let last = format!(in alloc; "\nrefused {line} {number} {refusal}\n")?;
            printed.ends_with(last.as_bytes())
        }
        Err(_) => printed.is_empty(),
    })
}

/// Replays a list, and returns whether it is read to its end and has the expected text and answer. If not, prints the
/// name and the printed text.
fn is_as_printed(
    rt: &HostRuntime,
    name: &str,
    events: &[u8],
    wanted: &[u8],
) -> io::Result<(bool, Result<Replayed, ReplayFault>)> {
    let mut reader = events;
    let mut printed = Vec::new(rt.alloc());
    let replayed = replay_on(rt.alloc(), &mut reader, &mut printed);
    let answered = is_as_answered(rt.alloc(), &replayed, wanted)?;
    if answered && reader.is_empty() && printed.as_slice() == wanted {
        return Ok((true, replayed));
    }
    let text = String::from_utf8_lossy(rt.alloc(), &printed)?;
    println!(rt; "{name}: other than printed here\n{text}")?;
    Ok((false, replayed))
}

/// Replays one example, prints whether its text is the expected one, and returns that.
fn compare(rt: &HostRuntime, name: &str) -> io::Result<bool> {
    let events = fs::read(rt, format!(in rt.alloc(); "{name}.events")?)?;
    let status = fs::read(rt, format!(in rt.alloc(); "{name}.status")?)?;
    let (same, replayed) = is_as_printed(rt, name, &events, &status)?;
    if same {
        match replayed {
            Ok(_) => println!(rt; "{name}: as printed")?,
            Err(fault) => println!(rt; "{name}: as printed, {fault}")?,
        }
    }
    Ok(same)
}

/// A row of the table: its title, its list of events, and the expected printed text.
#[derive(Drop)]
struct Row {
    title: Vec<u8>,
    events: Vec<u8>,
    wanted: Vec<u8>,
}

impl Row {
    fn new(alloc: Global) -> Row {
        Row {
            title: Vec::new(alloc),
            events: Vec::new(alloc),
            wanted: Vec::new(alloc),
        }
    }

    /// Adds a line: `## ` precedes the title, and `= ` precedes the expected text.
    fn add(&mut self, line: &[u8]) -> io::Result<()> {
        if let Some(title) = line.strip_prefix(b"## ") {
            self.title.extend_from_slice(title)?;
        } else if let Some(printed) = line.strip_prefix(b"= ") {
            self.wanted.extend_from_slice(printed)?;
            self.wanted.push(b'\n')?;
        } else {
            self.events.extend_from_slice(line)?;
            self.events.push(b'\n')?;
        }
        Ok(())
    }

    fn compare(&self, rt: &HostRuntime) -> io::Result<bool> {
        let title = String::from_utf8_lossy(rt.alloc(), &self.title)?;
        Ok(is_as_printed(rt, &title, &self.events, &self.wanted)?.0)
    }
}

/// Replays each row of the table, prints how many there are, and returns whether each prints the expected text. Rows
/// are separated by empty lines.
fn compare_rows(rt: &HostRuntime) -> io::Result<bool> {
    let table = fs::read(rt, ROWS)?;
    let mut row = Row::new(rt.alloc());
    let mut count = 0u32;
    let mut same = true;
    for line in table.split(|byte| *byte == b'\n') {
        if !line.is_empty() {
            row.add(line)?;
        } else if !row.events.is_empty() {
            same = row.compare(rt)? && same;
            count = count.saturating_add(1);
            row = Row::new(rt.alloc());
        }
    }
    println!(rt; "{count} rows")?;
    Ok(same)
}

/// The names of all files and folders of a folder, in their order.
fn files(rt: &HostRuntime, folder: &str) -> io::Result<Vec<String>> {
    let mut names = Vec::new(rt.alloc());
    for entry in fs::read_dir(rt, folder)? {
        names.push(String::from_str(rt.alloc(), entry?.file_name())?)?;
    }
    names.sort()?;
    Ok(names)
}

/// Replays the example of a file that is a list of events. Another file has to be the status of such a list, a table or
/// the folder of boot scripts; any other file is reported, and the answer is then false.
fn compare_file(rt: &HostRuntime, file: &str) -> io::Result<bool> {
    if let Some(name) = file.strip_suffix(".events") {
        return compare(rt, name);
    }
    if let Some(name) = file.strip_suffix(".status") {
        if fs::exists(rt, format!(in rt.alloc(); "{name}.events")?)? {
            return Ok(true);
        }
    }
    let is_known = file == ROWS || file == BOOTS || TABLES.contains(&file);
    if !is_known {
        println!(rt; "{file}: no example has this file")?;
    }
    Ok(is_known)
}

fn compare_all(rt: &HostRuntime) -> io::Result<bool> {
    let mut same = true;
    for file in &files(rt, ".")? {
        same = compare_file(rt, file.as_str())? && same;
    }
    for table in TABLES {
        same = compare_faults(rt, table)? && same;
    }
    same = read_boots(rt, &files(rt, BOOTS)?)? && same;
    Ok(compare_rows(rt)? && same)
}

fn main(rt: HostRuntime) -> io::Result<ExitCode> {
    Ok(if compare_all(&rt)? {
        ExitCode::SUCCESS
    } else {
        ExitCode::FAILURE
    })
}
