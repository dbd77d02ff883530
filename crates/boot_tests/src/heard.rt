//! Sorting the lines heard, and room for a report.

use crate::fixtures::plan_if_given;
use boot_data::{BootPlan, HeardPlace};
use boot_report::*;
use event_theory::OutOfMemory;
use std::alloc::Global;
use std::process::Abort;
use std::test::*;

/// A script with a thing of each kind.
const SCRIPT: &[u8] =
    b"synthesis 3\nqueue a\npipe b 0 1\ntty t\ntype t hi\npump p a b\nswitch s b a x a\ngauge g\nthread v\nsay a hi\nhear b\nhear t.line\nalarm 2 v 3";

/// The place of a line that this processor heard, by its number.
fn place(thread: u8, step: u8, processor: usize, number: usize) -> HeardPlace {
    HeardPlace {
        thread,
        step,
        processor,
        number,
    }
}

/// Asserts that this is the place of a line of the thread and the step.
fn assert_place<R: Abort>(rt: &R, found: &HeardPlace, line: (u8, u8), at: (usize, usize)) {
    assert!(rt; (found.thread, found.step) == line);
    assert!(rt; (found.processor, found.number) == at);
}

/// The places of lines heard are sorted in place, by thread, and then by step.
#[test]
fn sorts_what_was_heard(rt: HostRuntime) {
    let mut all = [place(1, 0, 0, 0), place(0, 2, 1, 0), place(0, 1, 0, 1)];
    sort_heard(&mut all);
    let [first, second, third] = &all;
    assert_place(&rt, first, (0, 1), (0, 1));
    assert_place(&rt, second, (0, 2), (1, 0));
    assert_place(&rt, third, (1, 0), (0, 0));
}

/// Takes the room for this plan, and returns whether there was memory.
fn has_lines<R: Abort>(rt: &R, alloc: Global, plan: &BootPlan) -> bool {
    match Lines::new(alloc, plan) {
        Ok(_) => true,
        Err(error) => {
            assert!(rt; error == OutOfMemory);
            false
        }
    }
}

/// Takes the room once, and returns whether there was memory.
fn has_room<R: Abort>(rt: &R, alloc: Global) -> bool {
    match plan_if_given(rt, alloc, SCRIPT) {
        Some(plan) => has_lines(rt, alloc, &plan),
        None => false,
    }
}

/// If an allocation is refused there are no lines, and the next try has them.
#[test]
fn memory_may_run_out(rt: HostRuntime) {
    let mut made = false;
    for _ in 0..4u8 {
        made |= has_room(&rt, rt.alloc());
    }
    assert!(rt; made);
}
