//! Times as texts.

ghost use Rattle.std.specs.Prelude.{◌≡◌, IfOk, string_bytes};
ghost use Rattle.trace_events.specs.Micros.{micros};

use event_theory::OutOfMemory;
use std::alloc::Global;

/// Nanoseconds as microseconds with three decimals.
pub(crate) fn micros_of(alloc: Global, nanos: u64) -> Result<String, OutOfMemory>
    ensures { IfOk result (λ text. string_bytes text ≡ micros nanos) }
{
    let (tenths, hundredths) = (nanos / 100 % 10, nanos / 10 % 10);
    Ok(format!(in alloc; "{}.{}{}{}", nanos / 1000, tenths, hundredths, nanos % 10)?)
}
