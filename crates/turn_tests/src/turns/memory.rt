//! A station when memory is refused.

use super::*;
use boot_script::ScriptRefusal;
use std::test::*;

/// Boots once, and returns whether there was memory.
fn boots<R: Abort + Wait>(rt: &R, alloc: Global, p: Processor) -> bool {
    let plan = match parse_boot(alloc, SAID) {
        Ok(plan) => plan,
        Err(fault) => {
            assert!(rt; fault.refusal == ScriptRefusal::OutOfMemory);
            return false;
        }
    };
    let (shared, station) = match stand(rt, alloc, plan, p) {
        Ok(made) => made,
        Err(error) => {
            assert!(rt; error == OutOfMemory);
            return false;
        }
    };
    let station = run(rt, &shared, station, p, 2, &mut NoGate);
    let ended = close_all(rt, shared, station.into_parts());
    check_states(rt, &ended, &[at(Place::Free, 2)]);
    assert!(rt; ended.heard.len() == 1);
    true
}

/// If an allocation is refused, a boot has no memory, or goes on with the ends that were returned; others go on.
#[test]
fn memory_may_run_out(rt: HostRuntime) {
    let p = processor(&rt, 0);
    let mut booted = 0u8;
    for _ in 0..3u8 {
        if boots(&rt, rt.alloc(), p) {
            booted = booted.wrapping_add(1);
        }
    }
    assert!(rt; booted >= 2);
}
