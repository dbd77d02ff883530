//! What the tests of several modules make.
ghost use Rattle.std.specs.Prelude.{◌≡◌, ◌≤◌, [], vec_capacity};

use boot_data::BootPlan;
use boot_script::{ScriptRefusal, parse_boot};
use std::alloc::Global;
use std::panic::Expect;
use std::process::Abort;

/// An empty list with room for so many.
pub(crate) fn room_for<T, R: Abort>(rt: &R, alloc: Global, len: usize) -> Vec<T>
    ensures { (result.items ≡ []) × (len ≤ vec_capacity result) }
{
    Vec::with_capacity(alloc, len).expect(rt, "memory")
}

/// The plan of a script, or None if an allocation is refused.
pub(crate) fn plan_if_given<R: Abort>(rt: &R, alloc: Global, script: &[u8]) -> Option<BootPlan> {
    match parse_boot(alloc, script) {
        Ok(plan) => Some(plan),
        Err(fault) => {
            assert!(rt; fault.refusal == ScriptRefusal::OutOfMemory);
            None
        }
    }
}
