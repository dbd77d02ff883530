//! Boots with gates, of each number of turns, with streams that are handed over, and with refused allocations. The
//! built program boots more scripts, of all kinds, in `tools/test-programs`.

mod gates;
mod kinds;
mod memory;
mod passes;
mod streams;

use boot_script::Sink;
use std::alloc::Global;
use std::process::Abort;
use std::sync::Wait;
use std::thread::Threads;
use synth_kernel::*;

/// How a script ends, and what it prints.
#[derive(Clone, Copy)]
struct Wanted<'a> {
    ended: Ended,
    printed: &'a [u8],
}

/// The expected outcome if all threads end.
fn all_ended(printed: &str) -> Wanted<'_> {
    Wanted {
        ended: Ended::AllEnded,
        printed: printed.as_bytes(),
    }
}

/// The expected outcome if so many threads don't end.
fn unfinished(live: usize, printed: &str) -> Wanted<'_> {
    Wanted {
        ended: Ended::Unfinished { live },
        printed: printed.as_bytes(),
    }
}

/// Boots a script on one processor with so many turns, and asserts that it had so many.
fn boot_alone<R: Threads + Wait + Sync + Abort, O: Sink>(
    rt: &R,
    alloc: Global,
    script: &[u8],
    output: &mut O,
    turns: u32,
) -> Result<Ended, BootFault> {
    let mut reader = script;
    let booted = boot_on(rt, alloc, &mut reader, output, 1, turns)?;
    assert!(rt; booted.processors() == 1 && booted.turns() == turns);
    Ok(booted.ended())
}

/// Asserts the outcome and the output of a script that is booted on one processor with so many turns.
fn assert_boot<R: Threads + Wait + Sync + Abort>(
    rt: &R,
    alloc: Global,
    script: &str,
    turns: u32,
    wanted: Wanted<'_>,
) {
    let mut output: Vec<u8> = Vec::new(alloc);
    let Ok(ended) = boot_alone(rt, alloc, script.as_bytes(), &mut output, turns) else {
        panic!(rt; "no boot")
    };
    assert!(rt; ended == wanted.ended);
    assert!(rt; output.as_slice() == wanted.printed);
}
