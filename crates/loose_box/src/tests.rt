//! The example of the crate's first page.

use super::*;
use std::test::*;

#[test]
fn a_value_moved_out_and_another_moved_in(rt: HostRuntime) {
    let Ok(boxed) = Box::new(rt.alloc(), 7u64) else {
        panic!(rt; "no memory")
    };
    let (seven, room) = Loose::of(boxed).take_out();
    let eight = Loose::fill(room, seven + 1).into_box();
    assert!(rt; *eight == 8);
}
