//! Lists of events that are held in memory, replayed on the plain machine.
use crate::fault::Fault;
use crate::measure::{Done, Measured, Watch};
use boot_script::{Replayed, replay_on};
use std::alloc::{AllocError, Global};
use std::rt::Clock;

// The events of one round: two items are claimed, raised and taken.
fn round(alloc: Global, run: u64) -> Result<String, AllocError> {
    format!(in alloc; "claim c1 q0 10 11\nraise c1 q0 {run} 0\nraise c1 q0 {run} 1\ntake c2 q0 2\n")
}

// Adds the events of one round if there is room for them, and returns whether there was.
fn add_round(alloc: Global, text: &mut String, room: usize, run: u64) -> Result<bool, AllocError> {
    let round = round(alloc, run)?;
    if text.len().saturating_add(round.len()) > room {
        return Ok(false);
    }
    text.push_str(round.as_str())?;
    Ok(true)
}

// The text of as many whole rounds of events as have room, and the number of its events.
fn list(alloc: Global, room: usize) -> Result<(String, u64), AllocError> {
    let mut text = "events 1\nqueue 64\n".to_string(alloc)?;
    let mut events = 1u64;
    for run in 0..4_096u64 {
        if !add_round(alloc, &mut text, room, run)? {
            break;
        }
        events = events.wrapping_add(4);
    }
    Ok((text, events))
}

// The time of a replay of this text, in which all events are to be allowed.
fn time_replay<R: Clock>(
    rt: &R,
    alloc: Global,
    text: &str,
    status: &mut Vec<u8>,
    events: u64,
) -> Result<Measured, Fault> {
    let mut reader = text.as_bytes();
    let watch = Watch::start(rt)?;
    let replayed = replay_on(alloc, &mut reader, status);
    let measured = watch.stop(rt, events)?;
    if !matches!(replayed, Ok(Replayed::AllAllowed)) {
        return Err(Fault::Miscount);
    }
    Ok(measured)
}

// Whether the status begins with this number of events.
fn counts_all(alloc: Global, status: &[u8], events: u64) -> Result<bool, AllocError> {
    let printed = format!(in alloc; "events {events}\n")?;
    Ok(status.starts_with(printed.as_str().as_bytes()))
}

// Replays the text once, with so many events.
fn replay_once<R: Clock>(
    rt: &R,
    alloc: Global,
    text: &str,
    events: u64,
) -> Result<Measured, Fault> {
    let mut status = Vec::new(alloc);
    let measured = time_replay(rt, alloc, text, &mut status, events)?;
    if !counts_all(alloc, status.as_slice(), events)? {
        return Err(Fault::Miscount);
    }
    Ok(measured)
}

/// Replays a list of so many KiB of events, 1 to 64, once.
pub fn measure_replay<R: Clock>(rt: &R, alloc: Global, size: u8) -> Result<Done, Fault> {
    let (text, events) = list(alloc, size as usize * 1_024)?;
    replay_once(rt, alloc, text.as_str(), events)?.done(events, events)
}
