//! Streams that are handed over, and threads that are left.

use super::*;
use std::test::Fail;
use turn_io::NoGate;

#[test]
fn streams_are_handed_over(rt: HostRuntime) -> Result<(), Fail> {
    let script = b"synthesis 1\nqueue out\nthread a\nsay out hi\n".as_slice();
    let printed = b"queue out put 3 taken 0 left 3\nthread a ended 1\nchained 0\n".as_slice();
    let mut output = Vec::new(rt.alloc());
    let answer = boot(&rt, rt.alloc(), script, &mut output, 1, 100);
    assert!(rt; answer == Ok(Ended::AllEnded));
    assert!(rt; output.as_slice() == printed);
    output.clear();
    let gates = vec![in rt.alloc(); NoGate]?;
    let answer = boot_with(&rt, rt.alloc(), script, &mut output, 1, 100, gates);
    assert!(rt; answer == Ok(Ended::AllEnded));
    assert!(rt; output.as_slice() == printed);
    Ok(())
}

/// A thread that waits and one that was given no turn are live; one that has ended is not.
#[test]
fn live_threads_are_counted(rt: HostRuntime) {
    assert_boot(
        &rt,
        rt.alloc(),
        "synthesis 1\nthread a\nwait 0\npass\nthread b\nthread c\npass\npass\n",
        3,
        unfinished(
            2,
            "thread a wait0 1\nthread b ended 0\nthread c ready 1\nchained 0\n",
        ),
    );
}
