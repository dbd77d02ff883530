//! Members of JSON objects, each written with its key.

ghost use Rattle.std.specs.Prelude.{[], ◌∷◌};
ghost use Rattle.trace_events.specs.Objects.{Puts, numbered, timed, worded, flagged};

use crate::micros::micros_of;
use event_theory::OutOfMemory;
use json::Writer;
use std::alloc::Global;

/// A number.
pub(crate) fn put_number(out: &mut Writer, key: &'static str, n: u64) -> Result<(), OutOfMemory>
    ensures { Puts result out.old out.new (numbered key.now n ∷ []) }
{
    out.key(key)?;
    Ok(out.u64(n)?)
}

/// A text.
pub(crate) fn put_text(out: &mut Writer, key: &'static str, text: &str) -> Result<(), OutOfMemory>
    ensures { Puts result out.old out.new (worded key.now text.now ∷ []) }
{
    out.key(key)?;
    Ok(out.string(text)?)
}

/// True or false.
pub(crate) fn put_flag(out: &mut Writer, key: &'static str, flag: bool) -> Result<(), OutOfMemory>
    ensures { Puts result out.old out.new (flagged key.now flag ∷ []) }
{
    out.key(key)?;
    Ok(out.boolean(flag)?)
}

/// A time, in nanoseconds.
pub(crate) fn put_time(
    alloc: Global,
    out: &mut Writer,
    key: &'static str,
    nanos: u64,
) -> Result<(), OutOfMemory>
    ensures { Puts result out.old out.new (timed key.now nanos ∷ []) }
{
    let text = micros_of(alloc, nanos)?;
    out.key(key)?;
    Ok(out.number(text.as_str())?)
}
