//! Turns of processors over plans that are read from boot scripts: what a report doesn't contain, and what no script
//! can bring about. The program's own boots show what a report contains.
ghost use Rattle.std.specs.Prelude.{◌≡◌};
ghost use Rattle.thread_table.specs.Handles.{view_of, IsHandOf};
ghost use Rattle.meters.specs.Handles.{IsSeatOf};
ghost use Rattle.turn_dispatch.specs.Holdings.{IsFree};
ghost use Rattle.turn_io.specs.EndLists.{AreEndsOf};
ghost use Rattle.processor.specs.Stations.{ArePartsOf};

mod elements;
mod elsewhere;
mod gates;
mod memory;
mod movers;
mod pairs;
mod partings;
mod refusals;
mod stands;

use boot_data::{BootPlan, HeardLines};
use boot_script::parse_boot;
use claim_queue::{ClaimQueue, QueueEnd};
use event_theory::{OutOfMemory, Processor};
use meters::{MeterSeat, Metered, Meters};
use processor::*;
use quajects::Queues;
use stands::{must_be_free, stand};
use stations::join_station;
use std::alloc::Global;
use std::panic::Expect;
use std::process::Abort;
use std::sync::Wait;
use std::test::*;
use thread_table::{Hand, Place, Places, ThreadTable};
use turn_io::NoGate;

/// The state of a thread: its place, how many of its steps are done, and its signals: those that were delivered, and
/// those pending.
#[derive(Clone, Copy, Debug, PartialEq, Eq)]
struct State {
    place: Place,
    done: u64,
    delivered: u16,
    pending: u16,
}

fn at(place: Place, done: u64) -> State {
    State {
        place,
        done,
        delivered: 0,
        pending: 0,
    }
}

fn ready(done: u64) -> State {
    at(Place::Ready, done)
}

fn waits(wait: u8, done: u64) -> State {
    at(Place::Wait(wait), done)
}

fn ended(done: u64) -> State {
    at(Place::Free, done)
}

/// A thread's state with these signals.
fn signalled(state: State, delivered: u16, pending: u16) -> State {
    State {
        place: state.place,
        done: state.done,
        delivered,
        pending,
    }
}

/// A line that was heard: the number of the thread, the number of its step, and the bytes.
type Line<'a> = (u8, u8, &'a [u8]);

/// A thread that says a line and hears it.
const SAID: &[u8] = b"synthesis 1
queue q
thread a
say q x
hear q
";

/// The station, whose hand serves this processor, with no element on it.
fn freed<R: Abort>(rt: &R, station: Station, p: Processor) -> Station
    ensures frame { result.parts ≡ station.parts }
    ensures free { IsFree p (view_of result.parts.hand) }
{
    let parts = station.into_parts();
    must_be_free(rt, &parts.hand, p);
    Station::from_parts(parts)
}

/// How many lines the station heard, and the mask of the signals that it delivered to this element.
fn reported(station: Station, element: usize) -> (Station, usize, u16)
    ensures { result.0.parts ≡ station.parts }
{
    let parts = station.into_parts();
    let heard = parts.heard.len();
    let mask = if element < 64 {
        parts.signals[element]
    } else {
        0
    };
    (Station::from_parts(parts), heard, mask)
}

/// The objects after the turns, with the small queues and an end of each.
#[derive(Drop)]
struct AtEnd {
    places: Places,
    metered: Metered,
    heard: HeardLines,
    signals: [u16; 64],
    queues: Vec<ClaimQueue<64>>,
    ends: Vec<QueueEnd<64>>,
    ghost fit: { AreEndsOf queues.items ends.items },
}

/// Closes the thread table.
fn places_of<R: Abort>(rt: &R, threads: ThreadTable, hand: Hand) -> Places
    requires { IsHandOf threads hand }
{
    let Ok(places) = threads.close(hand) else {
        panic!(rt; "threads")
    };
    places
}

/// Closes the meters.
fn metered_of<R: Abort>(rt: &R, meters: Meters, seat: MeterSeat) -> Metered
    requires { IsSeatOf meters seat }
{
    let Ok(metered) = meters.close(seat) else {
        panic!(rt; "meters")
    };
    metered
}

/// Closes the thread table and the meters.
fn close_all<R: Abort>(rt: &R, shared: Shared, parts: Parts) -> AtEnd
    requires { ArePartsOf shared parts }
{
    let signals = parts.signals;
    AtEnd {
        places: places_of(rt, shared.threads, parts.hand),
        metered: metered_of(rt, shared.meters, parts.meters),
        heard: parts.heard,
        signals,
        queues: shared.queues.small,
        ends: parts.queues.small,
    }
}

/// The processor with this number.
fn processor<R: Abort>(rt: &R, number: u8) -> Processor {
    let Some(p) = Processor::new(number) else {
        panic!(rt; "processor")
    };
    p
}

/// Runs this many turns of the processor with this number, alone, over the plan of a script.
fn booted<R: Abort + Wait>(rt: &R, alloc: Global, script: &[u8], number: u8, turns: u32) -> AtEnd {
    let plan = parse_boot(alloc, script).expect(rt, "script");
    let p = processor(rt, number);
    let Ok((shared, station)) = stand(rt, alloc, plan, p) else {
        panic!(rt; "memory")
    };
    let station = run(rt, &shared, station, p, turns, &mut NoGate);
    close_all(rt, shared, station.into_parts())
}

/// The threads are in these states.
fn check_states<R: Abort>(rt: &R, ended: &AtEnd, states: &[State]) {
    let places = &ended.places;
    for (thread, state) in states.iter().take(64).enumerate() {
        let found = State {
            place: places.places[thread],
            done: places.pcs[thread],
            delivered: ended.signals[thread],
            pending: places.pending[thread],
        };
        assert!(rt; found == *state);
    }
}

/// These lines were heard, in this order.
fn check_lines<R: Abort>(rt: &R, heard: &HeardLines, lines: &[Line]) {
    assert!(rt; heard.len() == lines.len());
    for number in 0..heard.len() {
        let (thread, step) = heard.key(number);
        assert!(rt; (thread, step, heard.bytes(number)) == lines[number]);
    }
}
