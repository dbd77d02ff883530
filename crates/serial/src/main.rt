//! The program `serial`: two serial ports send bytes, each from a thread of its own, and one collector makes lines of
//! them. The ports share the collector through a chain, so no byte waits for a lock.
#![tactic(auto)]

mod collector;
mod device;

use collector::Page;
use device::collect;
use std::process::ExitCode;
use std::str;
use std::sync::Wait;
use std::thread::Threads;

const FIRST: &[u8] = b"the first port says\nthat all is well\n";

const SECOND: &[u8] =
    b"the second\nsays so\ntoo, and what stands behind the 64th byte of a line is left out, as these words are\n";

/// The reason why a run ends early.
type Fault = &'static str;

/// Prints the lines of a page, each after the name of its port.
fn print_page<R: Print>(rt: &R, port: &str, page: &Page) -> Result<(), Fault> {
    for line in page.lines.as_slice() {
        let text = str::from_utf8(line.as_slice()).unwrap_or("no text");
        println!(rt; "{port}: {text}").map_err(|_| "a line can't be written")?;
    }
    Ok(())
}

/// Collects the bytes of both ports, and prints the lines, with the numbers of the chain.
fn run<R: Threads + Wait + Print + AllocGlobal + Sync>(rt: &R) -> Result<(), Fault> {
    let closed = collect(rt, rt.alloc(), FIRST, SECOND).map_err(|_| "no memory")?;
    print_page(rt, "first", &closed.quaject.first)?;
    print_page(rt, "second", &closed.quaject.second)?;
    let (put, left) = (closed.put, closed.left.len());
    println!(rt; "{put} notes were chained, and {left} are left").map_err(
        |_| "a line can't be written",
    )
}

fn main(rt: HostRuntime) -> ExitCode {
    match run(&rt) {
        Ok(()) => ExitCode::SUCCESS,
        Err(fault) => {
            let _ = eprintln!(rt; "serial: {fault}");
            ExitCode::FAILURE
        }
    }
}
