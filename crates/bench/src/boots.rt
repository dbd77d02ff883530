//! Whole boots of scripts that are held in memory, from the first byte read to the last one written.
use crate::fault::Fault;
use crate::measure::{Done, Watch};
use crate::scripts::{Counted, Script, THREADS, counts_of};
use std::alloc::Global;
use std::rt::Clock;
use std::sync::Wait;
use std::thread::Threads;
use std::time::Duration;
use synth_kernel::{BootFault, Booted, NoGate, boot_on};

// The number of turns of each processor when turns are measured.
fn turns_each(script: Script, processors: u8) -> u32 {
    (script.turns() / processors.max(1) as u64).min(1_000_000) as u32
}

// Whether there was a boot. The clock is stopped by now, so what came back may be let go.
fn is_booted(booted: Result<Booted<NoGate>, BootFault>) -> bool {
    booted.is_ok()
}

// The time of a boot of this text with so many turns on each processor.
fn time_boot<R: Threads + Wait + Clock + Sync>(
    rt: &R,
    alloc: Global,
    text: &str,
    report: &mut Vec<u8>,
    processors: u8,
    turns: u32,
) -> Result<Duration, Fault> {
    let mut reader = text.as_bytes();
    let processors = processors.max(1).min(8);
    let watch = Watch::start(rt)?;
    let booted = boot_on(rt, alloc, &mut reader, report, processors, turns);
    let stopped = watch.stop(rt, 0);
    let is_booted = is_booted(booted);
    let measured = stopped?;
    if !is_booted {
        return Err(Fault::Miscount);
    }
    Ok(measured.time)
}

// The time of a boot with so many turns on each processor, and the counts of its report.
fn time_of<R: Threads + Wait + Clock + Sync>(
    rt: &R,
    alloc: Global,
    script: Script,
    processors: u8,
    turns: u32,
) -> Result<(Duration, Counted), Fault> {
    let text = script.text(alloc)?;
    let mut report = Vec::new(alloc);
    let time = time_boot(rt, alloc, text.as_str(), &mut report, processors, turns)?;
    Ok((time, counts_of(report.as_slice())))
}

/// Measures a boot on so many processors, 1 to 8, with no turn, once.
pub fn measure_setup<R: Threads + Wait + Clock + Sync>(
    rt: &R,
    alloc: Global,
    script: Script,
    processors: u8,
) -> Result<Done, Fault> {
    let (time, counted) = time_of(rt, alloc, script, processors, 0)?;
    if counted.threads != THREADS || counted.steps != 0 {
        return Err(Fault::Miscount);
    }
    Ok(Done { time, count: 1 })
}

/// Measures a boot of a script on so many processors, 1 to 8, with turns, once.
pub fn measure_turns<R: Threads + Wait + Clock + Sync>(
    rt: &R,
    alloc: Global,
    script: Script,
    processors: u8,
) -> Result<Done, Fault> {
    let each = turns_each(script, processors);
    let (time, counted) = time_of(rt, alloc, script, processors, each)?;
    let total = (each as u64).wrapping_mul(processors as u64);
    let count = done_of(script, counted, total)?;
    if processors == 1 && count != wanted_of(script, total) {
        return Err(Fault::Miscount);
    }
    Ok(Done { time, count })
}

// The number of measured things that were done: turns with a step done, lines heard, or, if no step can be done, all
// turns.
fn done_of(script: Script, counted: Counted, turns: u64) -> Result<u64, Fault> {
    let talked = counted.said.wrapping_add(counted.heard);
    let (count, right) = match script {
        Script::Pass => (counted.steps, talked == 0),
        Script::Talk => (counted.heard, talked == counted.steps),
        Script::Listen => (turns, talked == 0 && counted.steps == 0),
    };
    if !right || counted.threads != THREADS || count == 0 || count > turns {
        return Err(Fault::Miscount);
    }
    Ok(count)
}

// The number of measured things if one processor makes all turns: then each step is done at its first try.
fn wanted_of(script: Script, turns: u64) -> u64 {
    match script {
        Script::Pass | Script::Listen => turns,
        Script::Talk => turns / 2,
    }
}
