//! The objects of a script.

use crate::fixtures::plan_if_given;
use boot_objects::{Objects, make_objects};
use boot_script::parse_boot;
use event_theory::OutOfMemory;
use processor::{Shared, Station};
use std::alloc::Global;
use std::panic::Expect;
use std::process::Abort;
use std::test::*;

/// A script with an object of each kind.
const SCRIPT: &[u8] =
    b"synthesis 3\nqueue a\npipe b 0 1\nqueue c\npump p a b\nswitch s b c x a y b\ntty t\ntype t hi\ntty u\ngauge g\nthread v\nsay a hi\nhear t.line\npoke p\nalarm 2 v 3";

/// Asserts how many queues, chains, devices and threads there are.
fn assert_shared<R: Abort>(rt: &R, shared: &Shared, devices: usize) {
    assert!(rt; (shared.queues.small.len(), shared.queues.large.len()) == (5, 4));
    assert!(rt; (shared.chains.len(), devices) == (4, 2));
    assert!(rt; shared.plan.threads.as_slice().len() == 1);
}

/// How many ends of queues of each size a station has, and how many ends of chains.
fn count_ends(station: Station) -> (usize, usize, usize) {
    let parts = station.into_parts();
    (
        parts.queues.small.len(),
        parts.queues.large.len(),
        parts.chains.len(),
    )
}

/// Asserts how many of each there are.
fn assert_counts<R: Abort>(rt: &R, made: Objects) {
    assert_shared(rt, &made.shared, made.devices.len());
    assert!(rt; count_ends(made.station) == (5, 4, 4));
}

/// There are as many of each as the script asks for.
#[test]
fn counts_are_those_of_the_script(rt: HostRuntime) {
    let plan = parse_boot(rt.alloc(), SCRIPT).expect(&rt, "script");
    let Ok(made) = make_objects(rt.alloc(), plan) else {
        panic!(rt; "memory")
    };
    assert_counts(&rt, made);
}

/// Makes the objects once, and returns whether there was memory.
fn are_made<R: Abort>(rt: &R, alloc: Global) -> bool {
    let Some(plan) = plan_if_given(rt, alloc, SCRIPT) else {
        return false;
    };
    match make_objects(alloc, plan) {
        Ok(objects) => {
            assert_counts(rt, objects);
            true
        }
        Err(error) => {
            assert!(rt; error == OutOfMemory);
            false
        }
    }
}

/// If an allocation is refused there are no objects, and the next try has them.
#[test]
fn memory_may_run_out(rt: HostRuntime) {
    let mut made = false;
    for _ in 0..4u8 {
        made |= are_made(&rt, rt.alloc());
    }
    assert!(rt; made);
}
