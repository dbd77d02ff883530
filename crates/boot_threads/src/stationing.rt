//! A station for each processor, split off from the first.
ghost use Rattle.std.specs.Prelude.{◌≡◌, ◌+◌, ◌<◌, ◌≤◌, ℕ, [], vec_len, vec_capacity, IfOk};
ghost use Rattle.boot_data.specs.declared.boot_plan.BootPlan.{BootPlan};
ghost use Rattle.turn_dispatch.specs.Holdings.{IsFree};
ghost use Rattle.processor.specs.Stations.{ArePartsOf, AreSameParts};
ghost use Rattle.processor.specs.Preparing.{IsPrepared};
ghost use Rattle.thread_table.specs.Handles.{view_of};
ghost use Rattle.boot_threads.specs.Stationings.{CanSplit, NoneOn, IsPosted, ArePosted};

use crate::work::Work;
use event_theory::{OutOfMemory, Processor};
use processor::{Shared, Station};
use stations::split_station;
use std::alloc::Global;
use turn_io::Gate;

// A station for this processor, and its work.
fn post<G: Gate + Drop>(
    alloc: Global,
    shared: &Shared,
    station: &mut Station,
    p: Processor,
    turns: u32,
    gate: G,
) -> Result<Work<G>, OutOfMemory>
    requires parts { ArePartsOf shared.now station.old.parts }
    requires split { CanSplit 1 station.old.parts }
    requires free { (k : ℕ) → p ≤ k → k < 8 → IsFree k (view_of station.old.parts.hand) }
    ensures parts { ArePartsOf shared.now station.new.parts }
    ensures handle { AreSameParts station.old.parts station.new.parts }
    ensures posted { IfOk result (λ work. IsPosted shared.now p turns gate station.old.parts station.new.parts work) }
{
    let born = split_station(alloc, shared, station, 1 << p.number())?;
    Ok(Work::Process {
        station: born,
        p,
        turns,
        gate,
    })
}

/// Splits a station off from the first one for each gate, for the processors from 0 on. Makes the work of each: so many
/// turns. The works go into `works`, which is empty and has room for them. The first station still serves the other
/// processors, and has done what it had done. `OutOfMemory` is returned only if an allocation was refused; the stations
/// split off until then are dropped.
///
/// Conditions: the station is one of `shared`; it serves all processors, and no element is on one; each of its ends can
/// be split eight times; and there are 8 gates at most.
pub fn post_all<G: Gate + Drop>(
    alloc: Global,
    shared: &Shared,
    station: &mut Station,
    turns: u32,
    gates: Vec<G>,
    works: Vec<Work<G>>,
) -> Result<Vec<Work<G>>, OutOfMemory>
    requires parts { ArePartsOf shared.now station.old.parts }
    requires split { CanSplit 8 station.old.parts }
    requires free { (k : ℕ) → k < 8 → IsFree k (view_of station.old.parts.hand) }
    requires few { vec_len gates ≤ 8 }
    requires room { (works.items ≡ []) × (vec_len gates ≤ vec_capacity works) }
    ensures parts { ArePartsOf shared.now station.new.parts }
    ensures posted { IfOk result (λ posts. ArePosted shared.now 0 turns gates.items station.old.parts station.new.parts
        posts.items) }
    ensures room { IfOk result (λ posts. vec_capacity posts ≡ vec_capacity works) }
    ensures free { IfOk result (λ posts. (k : ℕ) → vec_len gates ≤ k → k < 8
        → IsFree k (view_of station.new.parts.hand)) }
    ensures none_on { IfOk result (λ posts. NoneOn station.old.parts → NoneOn station.new.parts) }
    ensures prepared { IfOk result (λ posts. (plan : BootPlan) → IsPrepared plan station.old.parts
        → IsPrepared plan station.new.parts) }
    ensures heard { IfOk result (λ posts. station.new.parts.heard ≡ station.old.parts.heard) }
{
    let mut works = works;
    let mut number = 0u8;
    for gate in gates {
        let Some(p) = Processor::new(number) else {
            unreachable!()
        };
        let work = post(alloc, shared, station, p, turns, gate)?;
        works.push_reserved(work);
        number += 1;
    }
    Ok(works)
}
