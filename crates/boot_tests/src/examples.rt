//! The example of the first page of `synth_kernel`, word for word.

use std::test::*;
use synth_kernel::{Ended, boot};

#[test]
fn a_line_that_is_said(rt: HostRuntime) {
    let script = b"synthesis 1\nqueue out\nthread a\nsay out hi\n".as_slice();
    let mut report = Vec::new(rt.alloc());
    let ended = boot(&rt, rt.alloc(), script, &mut report, 1, 100);
    assert!(rt; ended == Ok(Ended::AllEnded));
    let printed = b"queue out put 3 taken 0 left 3\nthread a ended 1\nchained 0\n".as_slice();
    assert!(rt; report.as_slice() == printed);
}
