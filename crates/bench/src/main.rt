//! The program `bench`: measures queues and chains beside the kit's `ArrayQueue`, the ready ring, boots and replays.
#![tactic(auto)]

mod array;
mod batch;
mod boots;
mod chains;
mod claim;
mod fault;
mod figures;
mod line;
mod measure;
mod notes;
mod program;
mod queues;
mod replays;
mod ring;
mod rows;
mod scripts;
mod waits;

use fault::Fault;
use program::run_command;
use std::alloc::Global;
use std::env;
use std::process::ExitCode;

/// The words that the program was given, without its own name.
fn words(rt: &HostRuntime) -> Result<Vec<String>, Fault> {
    let mut words = Vec::new(rt.alloc());
    for word in env::args(rt).map_err(Fault::of_words)?.skip(1) {
        words.push(word)?;
    }
    Ok(words)
}

fn main(rt: HostRuntime) -> ExitCode {
    let alloc: Global = rt.alloc();
    let ended = match words(&rt) {
        Ok(words) => run_command(&rt, alloc, words.as_slice()),
        Err(fault) => Err(fault),
    };
    ExitCode::from(match ended {
        Ok(()) => 0,
        Err(fault) => {
            let _ = eprintln!(rt; "bench: {fault}");
            fault.status()
        }
    })
}
