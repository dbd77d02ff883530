//! The example of the first page of `boot_script`, word for word.

use boot_script::*;
use event_theory::Refusal;
use std::test::*;

#[test]
fn a_list_and_a_plan(rt: HostRuntime) -> Result<(), Fail> {
    let list = b"events 1\nqueue 4\nclaim c1 q0 104 10\ntake c2 q0 1\n".as_slice();
    let mut printed = Vec::new(rt.alloc());
    let (line, refusal) = (4, Refusal::NotRaised);
    let answer = replay(rt.alloc(), list, &mut printed);
    assert!(rt; answer == Ok(Replayed::Refused { line, refusal }));
    let last_line = b"refused 4 7 NotRaised\n".as_slice();
    assert!(rt; printed.as_slice().ends_with(last_line));
    let (line, refusal) = (3, ScriptRefusal::NameUnknown);
    let answer = parse_boot(rt.alloc(), b"synthesis 1\nthread a\nhear q\n");
    assert!(rt; answer.err() == Some(ScriptFault { line, refusal }));
    Ok(())
}
