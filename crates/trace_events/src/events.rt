//! The text of each kind of event.

ghost use Rattle.std.specs.Prelude.{◌≡◌, [], ◌∷◌, ◌++◌, IfOk, codes};
ghost use Rattle.json.specs.Token.{begin_object, end_object, key};
ghost use Rattle.json.specs.Print.{print};
ghost use Rattle.trace_events.specs.Objects.{IsAlone, Puts, Writes, list_tokens};
ghost use Rattle.trace_events.specs.Documents.{IsEvent};
ghost use Rattle.trace_events.specs.Events.{head, line_end_json, line_start_json, metadata_json, missed_json};
ghost use Rattle.trace_events.specs.Events.{turn_opening};

use crate::members::{put_number, put_text, put_time};
use event_theory::OutOfMemory;
use json::Writer;
use std::alloc::Global;

/// The number of the one process.
const PROCESS: u64 = 1;

/// The members that each event has.
fn put_head(
    out: &mut Writer,
    name: &'static str,
    category: &'static str,
    phase: &'static str,
    track: u64,
) -> Result<(), OutOfMemory>
    ensures { Puts result out.old out.new (head name.now category.now phase.now track) }
{
    put_text(out, "name", name)?;
    put_text(out, "cat", category)?;
    put_text(out, "ph", phase)?;
    put_number(out, "pid", PROCESS)?;
    put_number(out, "tid", track)
}

/// The beginning of an event.
fn begin_event(
    alloc: Global,
    name: &'static str,
    category: &'static str,
    phase: &'static str,
    track: u64,
) -> Result<Writer, OutOfMemory>
    ensures { IfOk result (λ out. IsAlone out
        (begin_object ∷ list_tokens (head name.now category.now phase.now track))) }
{
    let mut out = Writer::new(Vec::new(alloc));
    out.begin_object()?;
    put_head(&mut out, name, category, phase, track)?;
    Ok(out)
}

/// The beginning of an event's arguments.
fn open_args(out: &mut Writer) -> Result<(), OutOfMemory>
    ensures { Writes result out.old out.new (key (codes "args") ∷ begin_object ∷ []) }
{
    out.key("args")?;
    Ok(out.begin_object()?)
}

/// The end of an object.
fn close(out: &mut Writer) -> Result<(), OutOfMemory>
    ensures { Writes result out.old out.new (end_object ∷ []) }
{
    Ok(out.end_object()?)
}

/// The event of a name of a track, or of the process.
pub(crate) fn metadata_event(
    alloc: Global,
    kind: &'static str,
    track: u64,
    label: &str,
) -> Result<Vec<u8>, OutOfMemory>
    ensures { IfOk result (λ text. IsEvent text.items (metadata_json kind.now track label.now)) }
{
    let mut out = begin_event(alloc, kind, "__metadata", "M", track)?;
    open_args(&mut out)?;
    put_text(&mut out, "name", label)?;
    end_args(out)
}

/// A turn up to its arguments.
pub(crate) fn begin_turn(
    alloc: Global,
    name: &'static str,
    track: u64,
    from: u64,
    until: u64,
) -> Result<Writer, OutOfMemory>
    ensures { IfOk result (λ out. IsAlone out (turn_opening name.now track from until)) }
{
    let mut out = begin_event(alloc, name, "turn", "X", track)?;
    put_time(alloc, &mut out, "ts", from)?;
    put_time(alloc, &mut out, "dur", until.saturating_sub(from))?;
    open_args(&mut out)?;
    Ok(out)
}

/// The event that shows how many turns of a processor after this time are missing.
pub(crate) fn missed_event(
    alloc: Global,
    track: u64,
    at: u64,
    processor: u8,
    missed: u64,
) -> Result<Vec<u8>, OutOfMemory>
    ensures { IfOk result (λ text. IsEvent text.items (missed_json track at processor missed)) }
{
    let mut out = begin_event(alloc, "turns not recorded", "turn", "i", track)?;
    put_time(alloc, &mut out, "ts", at)?;
    put_text(&mut out, "s", "t")?;
    open_args(&mut out)?;
    put_number(&mut out, "processor", processor as u64)?;
    put_number(&mut out, "turns", missed)?;
    end_args(out)
}

/// The end of an event, after its arguments.
pub(crate) fn end_args(mut out: Writer) -> Result<Vec<u8>, OutOfMemory>
    ensures { IfOk result (λ text. text.items ≡ out.before ++ print (out.tokens ++ end_object ∷ end_object ∷ [])) }
{
    close(&mut out)?;
    close(&mut out)?;
    Ok(out.into_inner())
}

/// The event at which a line starts.
pub(crate) fn line_start(
    alloc: Global,
    id: u64,
    track: u64,
    time: u64,
) -> Result<Vec<u8>, OutOfMemory>
    ensures { IfOk result (λ text. IsEvent text.items (line_start_json id track time)) }
{
    let mut out = begin_event(alloc, "line", "line", "s", track)?;
    put_number(&mut out, "id", id)?;
    put_time(alloc, &mut out, "ts", time)?;
    close(&mut out)?;
    Ok(out.into_inner())
}

/// The event at which a line arrives.
pub(crate) fn line_end(
    alloc: Global,
    id: u64,
    track: u64,
    time: u64,
) -> Result<Vec<u8>, OutOfMemory>
    ensures { IfOk result (λ text. IsEvent text.items (line_end_json id track time)) }
{
    let mut out = begin_event(alloc, "line", "line", "f", track)?;
    put_text(&mut out, "bp", "e")?;
    put_number(&mut out, "id", id)?;
    put_time(alloc, &mut out, "ts", time)?;
    close(&mut out)?;
    Ok(out.into_inner())
}
