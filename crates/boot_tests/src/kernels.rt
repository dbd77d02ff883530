//! A whole kernel: its objects, its first station, its works, and its run.
ghost use Rattle.std.specs.Prelude.{◌≡◌, ◌+◌, ◌≤◌, All, length, vec_len};
ghost use Rattle.boot_threads.specs.Works.{MayWork};
ghost use Rattle.processor.specs.Preparing.{IsPrepared};

use crate::fixtures::room_for;
use boot_objects::{Objects, make_objects};
use boot_script::parse_boot;
use boot_threads::*;
use processor::{Shared, Station};
use spsc_line::LineIn;
use std::alloc::Global;
use std::panic::Expect;
use std::process::Abort;
use std::sync::Wait;
use std::thread::Threads;
use turn_io::NoGate;

/// Two ttys, bytes for one of them, and a thread that hears a line.
const SCRIPT: &[u8] =
    b"synthesis 3\ntty t\ntype t hi\ntty u\ngauge g\nthread v\nhear t.line\nalarm 2 v 3";

/// The objects of a kernel before its threads start.
#[derive(Drop)]
struct Kernel {
    shared: Shared,
    station: Station,
    works: Vec<Work<NoGate>>,
    lines: Vec<LineIn>,
}

/// A kernel with a processor for each gate.
fn make_kernel<R: Abort + Wait>(rt: &R, alloc: Global, gates: Vec<NoGate>, turns: u32) -> Kernel
    requires { vec_len gates ≤ 8 }
    ensures number { (vec_len result.works ≡ vec_len gates + length result.shared.plan.ttys)
        × (vec_len result.lines ≡ length result.shared.plan.ttys) }
    ensures may { All (MayWork result.shared) result.works.items }
    ensures prepared { IsPrepared result.shared.plan result.station.parts }
{
    first_is_prepared();
    first_is_ready();
    works_may_run::<NoGate>();
    let plan = parse_boot(alloc, SCRIPT).expect(rt, "script");
    let Ok(made) = make_objects(alloc, plan) else {
        panic!(rt; "memory")
    };
    let Objects {
        shared,
        station,
        devices,
    } = made;
    let works = room_for(rt, alloc, gates.len() + devices.len());
    let lines = room_for(rt, alloc, devices.len());
    let mut station = prepare_station(rt, &shared, station);
    let Ok(works) = post_all(alloc, &shared, &mut station, turns, gates, works) else {
        panic!(rt; "memory")
    };
    let (works, lines) = add_devices(shared.plan.ttys.as_slice(), devices, works, lines);
    Kernel {
        shared,
        station,
        works,
        lines,
    }
}

/// The gates of two processors.
fn two_gates<R: Abort>(rt: &R, alloc: Global) -> Vec<NoGate>
    ensures { vec_len result ≡ 2 }
{
    let Ok(gates) = vec![in alloc; NoGate, NoGate] else {
        panic!(rt; "memory")
    };
    gates
}

/// Runs the works of two processors and of the devices, and returns what comes back.
fn run_works<R: Threads + Wait + Sync + Abort>(
    rt: &R,
    alloc: Global,
    shared: &Shared,
    works: Vec<Work<NoGate>>,
    lines: Vec<LineIn>,
) -> (Vec<Back<NoGate>>, Vec<LineIn>)
    requires may { All (MayWork shared.now) works.items }
    requires number { vec_len works ≡ 2 + length shared.now.plan.ttys }
    requires lines { vec_len lines ≡ length shared.now.plan.ttys }
{
    let handles = room_for(rt, alloc, works.len());
    let backs = room_for(rt, alloc, works.len());
    let typed = room_for(rt, alloc, lines.len());
    run_kernel(rt, shared, works, 2, handles, backs, lines, typed)
}

/// How many processors came back, how many devices, and how many bytes these refused.
fn counted(backs: &[Back<NoGate>]) -> (u64, u64, u64) {
    let mut counts = (0u64, 0u64, 0u64);
    for back in backs {
        match back {
            Ok(Worked::Processed(_)) => counts.0 = counts.0.wrapping_add(1),
            Ok(Worked::Served { line: _, tty }) => {
                counts.1 = counts.1.wrapping_add(1);
                counts.2 = counts.2.wrapping_add(tty.overruns());
            }
            Err(_) => {}
        }
    }
    counts
}

/// Two processors and the devices of two ttys run, and all come back; no byte was refused.
#[test]
fn all_come_back(rt: HostRuntime) {
    let gates = two_gates(&rt, rt.alloc());
    let Kernel {
        shared,
        station: _rest,
        works,
        lines,
    } = make_kernel(&rt, rt.alloc(), gates, 3);
    let (backs, typed) = run_works(&rt, rt.alloc(), &shared, works, lines);
    assert!(rt; counted(backs.as_slice()) == (2, 2, 0));
    assert!(rt; typed.len() == 2);
}
