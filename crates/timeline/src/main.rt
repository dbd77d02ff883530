//! The program `timeline`: boots a script, and prints a picture of the turns of its processors, or a trace.
#![tactic(auto)]

mod program;

use boot_log::BootClock;
use boot_script::exit::no_memory;
use program::{run_main, usage};
use std::io::ErrorKind;
use std::process::ExitCode;
use std::sync::Wait;
use std::thread::Threads;
use std::{env, io};

/// Runs the program with the words that it was given, without its own name. The clock is the machine's, for one boot.
fn run<RT: Threads + Wait + Sync>(rt: &RT, host: &HostRuntime) -> io::Result<u8> {
    let mut arguments = Vec::new(host.alloc());
    for argument in env::args(host)?.skip(1) {
        arguments.push(argument)?;
    }
    let mut words = Vec::new(host.alloc());
    for argument in &arguments {
        words.push(argument.as_str())?;
    }
    let (input, output, errors) = (host.stdin(), host.stdout(), host.stderr());
    let clock = BootClock::new(host);
    Ok(run_main(rt, clock, host.alloc(), &words, input, output, errors))
}

fn main(rt: HostRuntime) -> ExitCode {
    ExitCode::from(match run(&rt, &rt) {
        Ok(status) => status,
        Err(error) if error.kind() == ErrorKind::OutOfMemory => no_memory(&mut rt.stderr()).status,
        // a word that is not text
        Err(_) => usage(&mut rt.stderr()).status,
    })
}
