//! A boot with a refused allocation.

use super::*;
use arrayvec::ArrayVec;

const SCRIPT: &[u8] =
    b"synthesis 1\nqueue in\nqueue out\npump p in out\nthread a\nsay in hi\npoke p\nhear out\n";

const REPORT: &[u8] = b"queue in put 3 taken 3 left 0\nqueue out put 3 taken 3 left 0\n\
    pump p notes 1 taken 3 put 3 held 0\nthread a ended 3\nheard a 2 hi\\0A\nchained 0\n";

/// Asserts what is printed, and returns whether there was memory. If there was none, nothing is printed.
fn had_memory<R: Abort>(rt: &R, answer: Result<Ended, BootFault>, printed: &[u8]) -> bool {
    match answer {
        Ok(ended) => {
            assert!(rt; ended == Ended::AllEnded);
            assert!(rt; printed == REPORT);
            true
        }
        Err(fault) => {
            assert!(rt; fault == BootFault::Memory);
            assert!(rt; printed.is_empty());
            false
        }
    }
}

/// Boots once, and returns whether there was memory.
fn boots<R: Threads + Wait + Sync + Abort>(rt: &R, alloc: Global) -> bool {
    let mut output: ArrayVec<u8, 256> = ArrayVec::new();
    let answer = boot_alone(rt, alloc, SCRIPT, &mut output, 10);
    had_memory(rt, answer, output.as_slice())
}

/// If an allocation of one boot is refused, the boot is out of memory, or goes on without the allocation; the other
/// boot goes on.
#[test]
fn memory_may_run_out(rt: HostRuntime) {
    let first = boots(&rt, rt.alloc());
    assert!(rt; boots(&rt, rt.alloc()) || first);
}
