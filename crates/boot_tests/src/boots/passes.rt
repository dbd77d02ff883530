//! A thread of passes takes as many turns as it has steps.

use super::*;
use std::test::Fail;

/// Asserts the outcome of a thread that has so many passes and so many turns.
fn assert_passes<R: Threads + Wait + Sync + Abort>(
    rt: &R,
    alloc: Global,
    script: &str,
    passes: u32,
    turns: u32,
) -> Result<(), Fail> {
    if passes <= turns {
        let printed = format!(in alloc; "thread a ended {passes}\nchained 0\n")?;
        assert_boot(rt, alloc, script, turns, all_ended(printed.as_str()));
    } else {
        let printed = format!(in alloc; "thread a ready {turns}\nchained 0\n")?;
        assert_boot(rt, alloc, script, turns, unfinished(1, printed.as_str()));
    }
    Ok(())
}

#[test]
fn each_turn_is_a_pass(rt: HostRuntime) -> Result<(), Fail> {
    let mut script = String::new(rt.alloc());
    script.push_str("synthesis 1\nthread a\n")?;
    for passes in 1..=64u32 {
        script.push_str("pass\n")?;
        for turns in 0..=65u32 {
            assert_passes(&rt, rt.alloc(), script.as_str(), passes, turns)?;
        }
    }
    Ok(())
}
