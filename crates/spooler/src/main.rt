//! The program `spooler`: three producers put lines into one claim queue, each from a thread of its own, and two takers
//! take them out. Then all lines are printed in alphabetical order, since it is left to chance which taker has which
//! line.
#![tactic(auto)]

ghost use Rattle.std.specs.Prelude.{◌++◌, IfOk, IsPermutation};
ghost use Rattle.spooler.specs.Lines.{AreSorted};

mod line;
mod spool;

use line::Line;
use spool::run_spool;
use std::alloc::Global;
use std::process::ExitCode;
use std::sync::Wait;
use std::thread::Threads;

const ANN: [&str; 3] = ["ann 1 of 3", "ann 2 of 3", "ann 3 of 3"];

const BEN: [&str; 2] = ["ben 1 of 2", "ben 2 of 2"];

const EVE: [&str; 4] = ["eve 1 of 4", "eve 2 of 4", "eve 3 of 4", "eve 4 of 4"];

/// The reason why a run ends early.
type Fault = &'static str;

/// The lines of these texts.
fn job(alloc: Global, texts: &[&str]) -> Result<Vec<Line>, Fault> {
    let mut lines = Vec::new(alloc);
    for text in texts {
        let line = Line::of(text.as_bytes()).ok_or("a text is no line")?;
        lines.push(line).map_err(|_| "no memory")?;
    }
    Ok(lines)
}

/// All lines that were taken, each as often as it was taken, in alphabetical order. The first of two lines is the one
/// with the lesser byte at the first difference.
pub fn sorted(mut one: Vec<Line>, mut other: Vec<Line>) -> Result<Vec<Line>, Fault>
    ensures all { IfOk result (λ lines. IsPermutation (one.items ++ other.items) lines.items) }
    ensures sorted { IfOk result (λ lines. AreSorted lines.items) }
{
    one.append(&mut other).map_err(|_| "no memory")?;
    one.sort_unstable();
    Ok(one)
}

/// Spools three jobs, and prints all lines.
fn run<R: Threads + Wait + Print + AllocGlobal + Sync>(rt: &R) -> Result<(), Fault> {
    let alloc = rt.alloc();
    let jobs = [job(alloc, &ANN)?, job(alloc, &BEN)?, job(alloc, &EVE)?];
    let (one, other) = run_spool(rt, alloc, &jobs).map_err(|_| "no memory")?;
    for line in sorted(one, other)? {
        for item in line.items.as_slice() {
            print!(rt; "{}", (*item % 256) as u8 as char).map_err(|_| "a line can't be written")?;
        }
    }
    Ok(())
}

fn main(rt: HostRuntime) -> ExitCode {
    match run(&rt) {
        Ok(()) => ExitCode::SUCCESS,
        Err(fault) => {
            let _ = eprintln!(rt; "spooler: {fault}");
            ExitCode::FAILURE
        }
    }
}
