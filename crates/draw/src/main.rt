//! The program `draw`: prints a picture of a list of the core's events.
#![tactic(auto)]

mod columns;
mod drawing;
mod element_cells;
mod gates;
mod history;
mod legend;
mod names;
mod places;
mod program;
mod queue_boxes;

use boot_script::exit::no_memory;
use program::{run_main, usage};
use std::io::ErrorKind;
use std::process::ExitCode;
use std::{env, io};

/// Runs the program with the words that it was given, without its own name.
fn run(host: &HostRuntime) -> io::Result<u8> {
    let mut arguments = Vec::new(host.alloc());
    for argument in env::args(host)?.skip(1) {
        arguments.push(argument)?;
    }
    let (input, output, errors) = (host.stdin(), host.stdout(), host.stderr());
    Ok(run_main(host.alloc(), arguments.len(), input, output, errors))
}

fn main(rt: HostRuntime) -> ExitCode {
    ExitCode::from(match run(&rt) {
        Ok(status) => status,
        Err(error) if error.kind() == ErrorKind::OutOfMemory => no_memory(&mut rt.stderr()).status,
        // a word that is not text
        Err(_) => usage(&mut rt.stderr()).status,
    })
}
