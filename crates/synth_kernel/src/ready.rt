//! The objects of a boot before its threads start, with the memory that it takes.
ghost use Rattle.std.specs.Prelude.{◌≡◌, ◌≤◌, ◌<◌, ◌+◌, ℕ, length, map, vec_capacity, vec_len, IfOk};
ghost use Rattle.boot_data.specs.declared.boot_plan.BootPlan.{BootPlan};
ghost use Rattle.boot_report.specs.Rooms.{HasAllRoom};
ghost use Rattle.boot_threads.specs.Readiness.{AreServing, input_of};
ghost use Rattle.boot_threads.specs.Stationings.{ArePosted, CanSplit, NoneOn};
ghost use Rattle.processor.specs.Preparing.{IsPrepared};
ghost use Rattle.processor.specs.Stations.{ArePartsOf};
ghost use Rattle.synth_kernel.specs.Readies.{AreMade, HasPlaces, IsReady};
ghost use Rattle.thread_table.specs.Handles.{view_of};
ghost use Rattle.turn_dispatch.specs.Holdings.{IsFree};

use crate::gathering::Served;
use boot_data::plan::PlannedTty;
use boot_data::{BootPlan, HeardLines};
use boot_objects::{Answers, Device, Objects, make_objects};
use boot_report::{Lines, Typed};
use boot_threads::{Back, Processed, Work, add_devices, post_all, prepare_station};
use event_theory::OutOfMemory;
use processor::{Shared, Station};
use quajects::RawTty;
use spsc_line::LineIn;
use std::alloc::Global;
use std::sync::Wait;
use turn_io::Gate;

/// Room for the results of the threads, and for what is made from them.
#[derive(Drop)]
pub(crate) struct Room<G> {
    pub(crate) backs: Vec<Back<G>>,
    pub(crate) typed: Vec<LineIn>,
    pub(crate) processed: Vec<Processed<G>>,
    pub(crate) served: Vec<Served>,
    pub(crate) ttys: Vec<RawTty>,
    pub(crate) heards: Vec<HeardLines>,
    pub(crate) gates: Vec<G>,
    pub(crate) reported: Vec<Typed>,
    pub(crate) answers: Answers,
    pub(crate) report: Lines,
}

/// All objects of a boot, and the rest of the first station. The works are those of the processors, followed by those
/// of the devices. The inputs are the ends of lines at which the ttys' bytes are typed. The room is for results.
#[derive(Drop)]
pub(crate) struct Ready<G> {
    pub(crate) shared: Shared,
    pub(crate) station: Station,
    pub(crate) works: Vec<Work<G>>,
    pub(crate) inputs: Vec<LineIn>,
    pub(crate) room: Room<G>,
}

// Room for the results of so many processors and of the devices, and for no more.
fn make_room<G: Drop>(
    alloc: Global,
    shared: &Shared,
    processors: usize,
    report: Lines,
) -> Result<Room<G>, OutOfMemory>
    requires few { processors ≤ 8 }
    requires report { HasAllRoom shared.now.plan report }
    ensures { IfOk result (HasPlaces shared.now processors) }
{
    let devices = shared.plan.ttys.as_slice().len();
    let backs = Vec::with_capacity(alloc, processors + devices)?;
    let typed = Vec::with_capacity(alloc, devices)?;
    let processed = Vec::with_capacity(alloc, processors)?;
    let served = Vec::with_capacity(alloc, devices)?;
    let ttys = Vec::with_capacity(alloc, devices)?;
    let heards = Vec::with_capacity(alloc, processors)?;
    let gates = Vec::with_capacity(alloc, processors)?;
    let reported = Vec::with_capacity(alloc, devices)?;
    let answers = Answers::new(alloc, shared)?;
    Ok(Room {
        backs,
        typed,
        processed,
        served,
        ttys,
        heards,
        gates,
        reported,
        answers,
        report,
    })
}

// Takes the memory for all works, and gives the processor of each gate its work, from processor 0 on. Returns the
// station with what it has left, and the works, with room for those of the devices and for no more.
fn post_works<G: Gate + Drop>(
    alloc: Global,
    shared: &Shared,
    station: Station,
    turns: u32,
    gates: Vec<G>,
) -> Result<(Station, Vec<Work<G>>), OutOfMemory>
    requires parts { ArePartsOf shared.now station.parts }
    requires split { CanSplit 8 station.parts }
    requires free { (k : ℕ) → k < 8 → IsFree k (view_of station.parts.hand) }
    requires few { vec_len gates ≤ 8 }
    ensures parts { IfOk result (λ r. ArePartsOf shared.now r.0.parts) }
    ensures posted { IfOk result (λ r. ArePosted shared.now 0 turns gates.items station.parts r.0.parts r.1.items) }
    ensures room { IfOk result (λ r. vec_capacity r.1 ≡ vec_len gates + length shared.now.plan.ttys) }
    ensures free { IfOk result (λ r. (k : ℕ) → vec_len gates ≤ k → k < 8 → IsFree k (view_of r.0.parts.hand)) }
    ensures none_on { IfOk result (λ r. NoneOn station.parts → NoneOn r.0.parts) }
    ensures prepared { IfOk result (λ r. (plan : BootPlan) → IsPrepared plan station.parts
        → IsPrepared plan r.0.parts) }
{
    let devices = shared.plan.ttys.as_slice().len();
    let Ok(works) = Vec::with_capacity(alloc, gates.len() + devices) else {
        // A call drops all fields. Without it the proof goes through each of them here, which takes long.
        drop(station);
        return Err(OutOfMemory);
    };
    let mut station = station;
    let Ok(works) = post_all(alloc, shared, &mut station, turns, gates, works) else {
        drop(station);
        return Err(OutOfMemory);
    };
    Ok((station, works))
}

// Adds the work of each device after these works, and returns the inputs of the devices' lines too. The works have
// room, so only the inputs take memory.
fn add_works<G: Drop>(
    alloc: Global,
    ttys: &[PlannedTty],
    devices: Vec<Device>,
    works: Vec<Work<G>>,
) -> Result<(Vec<Work<G>>, Vec<LineIn>), OutOfMemory>
    requires number { vec_len devices ≡ length ttys.now }
    requires room { vec_len works + vec_len devices ≤ vec_capacity works }
    ensures works { IfOk result (λ r. AreServing ttys.now devices.items works.items r.0.items) }
    ensures lines { IfOk result (λ r. r.1.items ≡ map input_of devices.items) }
{
    let inputs = Vec::with_capacity(alloc, devices.len())?;
    Ok(add_devices(ttys, devices, works, inputs))
}

// Prepares the thread elements and the alarms of these objects, and gives each processor and each device its work.
fn give_works<R: Wait, G: Gate + Drop>(
    rt: &R,
    alloc: Global,
    objects: Objects,
    room: Room<G>,
    turns: u32,
    gates: Vec<G>,
) -> Result<Ready<G>, OutOfMemory>
    requires objects { AreMade objects }
    requires few { vec_len gates ≤ 8 }
    requires room { HasPlaces objects.shared (length gates.items) room }
    ensures { IfOk result (IsReady objects.shared.plan turns gates.items) }
{
    let Objects {
        shared,
        station,
        devices,
    } = objects;
    let station = prepare_station(rt, &shared, station);
    let Ok((station, works)) = post_works(alloc, &shared, station, turns, gates) else {
        drop(shared);
        drop(room);
        return Err(OutOfMemory);
    };
    let Ok((works, inputs)) = add_works(alloc, shared.plan.ttys.as_slice(), devices, works) else {
        drop(shared);
        drop(station);
        drop(room);
        return Err(OutOfMemory);
    };
    Ok(Ready {
        shared,
        station,
        works,
        inputs,
        room,
    })
}

/// Makes all objects of a plan, and prepares the thread elements and the alarms. Gives the processor of each gate, from
/// 0 on, and each device its work. `OutOfMemory` is returned only if an allocation was refused.
///
/// Condition: there are 8 gates at most.
pub(crate) fn get_ready<R: Wait, G: Gate + Drop>(
    rt: &R,
    alloc: Global,
    plan: BootPlan,
    turns: u32,
    gates: Vec<G>,
) -> Result<Ready<G>, OutOfMemory>
    requires { vec_len gates ≤ 8 }
    ensures { IfOk result (IsReady plan turns gates.items) }
{
    let report = Lines::new(alloc, &plan)?;
    let objects = make_objects(alloc, plan)?;
    let Ok(room) = make_room(alloc, &objects.shared, gates.len(), report) else {
        drop(objects);
        return Err(OutOfMemory);
    };
    give_works(rt, alloc, objects, room, turns, gates)
}
