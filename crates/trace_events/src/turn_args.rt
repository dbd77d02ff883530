//! The arguments of a turn: what it named, and what came of it.

ghost use Rattle.std.specs.Prelude.{◌≡◌, [], ◌∷◌, codes};
ghost use Rattle.trace_events.specs.Objects.{Puts, worded};
ghost use Rattle.trace_events.specs.Names.{gauge_text};
ghost use Rattle.trace_events.specs.TurnArgs.{woken_args, line_args, claim_args, say_args, take_args, hear_args};
ghost use Rattle.trace_events.specs.TurnArgs.{poke_args, other_args, step_args, thread_args, delivered_args};
ghost use Rattle.trace_events.specs.TurnArgs.{begun_args, counted_args, went_args, retired_name, idle_args, did_args};
ghost use Rattle.trace_events.specs.TurnArgs.{tick_args, fired_args, turn_args, queue_args};
ghost use Rattle.trace_events.specs.TurnArgs.{gauge_args, mover_args, close_args, threads_args};

use crate::members::{put_number, put_text};
use crate::names::{gauge_name, mover_name, thread_name};
use crate::texts::{text_of, text_of_queue};
use crate::threads::text_of_threads;
use crate::turn_names::way_name;
use boot_data::BootPlan;
use boot_data::plan::QueueIndex;
use boot_log::{Did, Entry, HeardAnswer, SaidAnswer, Tried};
use claim_queue::{ClaimRefusal, TakeRefusal};
use event_theory::{Element, Gauge, OutOfMemory};
use json::Writer;
use meters::AdvanceRefusal;
use proc_chain::ChainRefusal;
use std::alloc::Global;
use thread_table::Lost;
use turn_dispatch::{Begun, Counted, Idle, Woken};
use turn_io::Poked;

/// The threads of a mask, by their names.
fn put_threads(
    alloc: Global,
    out: &mut Writer,
    plan: &BootPlan,
    name: &'static str,
    mask: u64,
) -> Result<(), OutOfMemory>
    ensures { Puts result out.old out.new (threads_args plan.now name.now mask) }
{
    let text = text_of_threads(alloc, plan, mask)?;
    put_text(out, name, text.as_str())
}

/// The threads that were woken, if those who wait were woken at all.
fn put_woken(
    alloc: Global,
    out: &mut Writer,
    plan: &BootPlan,
    name: &'static str,
    woken: Option<Woken>,
) -> Result<(), OutOfMemory>
    ensures { Puts result out.old out.new (woken_args plan.now name.now woken) }
{
    match woken {
        Some(woken) => put_threads(alloc, out, plan, name, woken.taken),
        None => Ok(()),
    }
}

/// A line.
fn put_line(alloc: Global, out: &mut Writer, line: &[u8]) -> Result<(), OutOfMemory>
    ensures { Puts result out.old out.new (line_args line.now) }
{
    let text = text_of(alloc, line)?;
    put_text(out, "line", text.as_str())
}

/// The positions that a refused say found.
fn put_claim(out: &mut Writer, refusal: ClaimRefusal) -> Result<(), OutOfMemory>
    ensures { Puts result out.old out.new (claim_args refusal) }
{
    match refusal {
        ClaimRefusal::Full { head, tail } => {
            put_number(out, "head", u64::from(head))?;
            put_number(out, "tail", u64::from(tail))
        }
        ClaimRefusal::Lost { head } => put_number(out, "head", u64::from(head)),
        _ => Ok(()),
    }
}

/// The answer to a say.
fn put_said(
    alloc: Global,
    out: &mut Writer,
    plan: &BootPlan,
    answer: SaidAnswer,
) -> Result<(), OutOfMemory>
    ensures { Puts result out.old out.new (say_args plan.now answer) }
{
    match answer {
        SaidAnswer::Put(woken) => put_woken(alloc, out, plan, "woken", woken),
        SaidAnswer::Over => Ok(()),
        SaidAnswer::Refused(refusal) => put_claim(out, refusal),
    }
}

/// The position that a refused hear found.
fn put_take(out: &mut Writer, refusal: TakeRefusal) -> Result<(), OutOfMemory>
    ensures { Puts result out.old out.new (take_args refusal) }
{
    match refusal {
        TakeRefusal::Empty { at } => put_number(out, "place", u64::from(at)),
        TakeRefusal::Lost { tail } => put_number(out, "tail", u64::from(tail)),
        TakeRefusal::Closed => Ok(()),
    }
}

/// The answer to a hear, and the line that was taken.
fn put_heard(
    alloc: Global,
    out: &mut Writer,
    plan: &BootPlan,
    line: &[u8],
    answer: HeardAnswer,
) -> Result<(), OutOfMemory>
    ensures { Puts result out.old out.new (hear_args plan.now line.now answer) }
{
    match answer {
        HeardAnswer::Taken(woken) => {
            put_line(alloc, out, line)?;
            put_woken(alloc, out, plan, "woken", woken)
        }
        HeardAnswer::Over(woken) => put_woken(alloc, out, plan, "woken", woken),
        HeardAnswer::Refused(refusal) => put_take(out, refusal),
    }
}

/// The answer to a poke.
fn put_poked(out: &mut Writer, answer: Result<Poked, ChainRefusal>) -> Result<(), OutOfMemory>
    ensures { Puts result out.old out.new (poke_args answer) }
{
    match answer {
        Ok(Poked::Ran { notes }) => put_number(out, "notes", notes),
        Ok(Poked::Left) | Err(ChainRefusal::Spent) => Ok(()),
        Err(ChainRefusal::Full { head, tail }) => {
            put_number(out, "head", u64::from(head))?;
            put_number(out, "tail", u64::from(tail))
        }
        Err(ChainRefusal::Lost { head }) => put_number(out, "head", u64::from(head)),
    }
}

/// A thread that a step names.
fn put_other(
    alloc: Global,
    out: &mut Writer,
    plan: &BootPlan,
    thread: Element,
) -> Result<(), OutOfMemory>
    ensures { Puts result out.old out.new (other_args plan.now thread) }
{
    let text = text_of(alloc, thread_name(plan, thread))?;
    put_text(out, "to", text.as_str())
}

/// A queue that a step names.
fn put_queue(
    alloc: Global,
    out: &mut Writer,
    plan: &BootPlan,
    queue: QueueIndex,
) -> Result<(), OutOfMemory>
    ensures { Puts result out.old out.new (queue_args plan.now queue) }
{
    let text = text_of_queue(alloc, plan, queue)?;
    put_text(out, "queue", text.as_str())
}

/// The name of a gauge.
fn put_gauge(
    alloc: Global,
    out: &mut Writer,
    plan: &BootPlan,
    gauge: Gauge,
) -> Result<(), OutOfMemory>
    ensures { Puts result out.old out.new (worded (codes "gauge") (gauge_text plan.now gauge) ∷ []) }
{
    let text = text_of(alloc, gauge_name(plan, gauge))?;
    put_text(out, "gauge", text.as_str())
}

/// A gauge that grew.
fn put_tick(
    alloc: Global,
    out: &mut Writer,
    plan: &BootPlan,
    gauge: Gauge,
    amount: u64,
    before: u64,
) -> Result<(), OutOfMemory>
    ensures { Puts result out.old out.new (gauge_args plan.now gauge amount before) }
{
    put_gauge(alloc, out, plan, gauge)?;
    put_number(out, "amount", amount)?;
    put_number(out, "before", before)
}

/// A pump or switch that was poked, and the answer.
fn put_mover(
    alloc: Global,
    out: &mut Writer,
    plan: &BootPlan,
    mover: usize,
    answer: Result<Poked, ChainRefusal>,
) -> Result<(), OutOfMemory>
    ensures { Puts result out.old out.new (mover_args plan.now mover answer) }
{
    let text = text_of(alloc, mover_name(plan, mover))?;
    put_text(out, "mover", text.as_str())?;
    put_poked(out, answer)
}

/// A queue that was closed, and the threads that were woken.
fn put_closed(
    alloc: Global,
    out: &mut Writer,
    plan: &BootPlan,
    queue: usize,
    readers: Option<Woken>,
    writers: Option<Woken>,
) -> Result<(), OutOfMemory>
    ensures { Puts result out.old out.new (close_args plan.now queue readers writers) }
{
    put_queue(alloc, out, plan, QueueIndex::Small(queue))?;
    put_woken(alloc, out, plan, "readers", readers)?;
    put_woken(alloc, out, plan, "writers", writers)
}

/// A step: what it named, and the answer.
fn put_step(
    alloc: Global,
    out: &mut Writer,
    plan: &BootPlan,
    line: &[u8],
    tried: Tried,
) -> Result<(), OutOfMemory>
    ensures { Puts result out.old out.new (step_args plan.now line.now tried) }
{
    match tried {
        Tried::Say { queue, answer } => {
            put_queue(alloc, out, plan, queue)?;
            put_line(alloc, out, line)?;
            put_said(alloc, out, plan, answer)
        }
        Tried::Hear { queue, answer } => {
            put_queue(alloc, out, plan, queue)?;
            put_heard(alloc, out, plan, line, answer)
        }
        Tried::Wait { wait } => put_number(out, "wait", u64::from(wait.number())),
        Tried::Wake { wait, woken } => {
            put_number(out, "wait", u64::from(wait.number()))?;
            put_threads(alloc, out, plan, "woken", woken.taken)
        }
        Tried::Signal { thread, signal, .. } => {
            put_other(alloc, out, plan, thread)?;
            put_number(out, "signal", u64::from(signal.number()))
        }
        Tried::Stop { thread, .. } | Tried::Start { thread, .. } => {
            put_other(alloc, out, plan, thread)
        }
        Tried::Tick {
            gauge,
            amount,
            before,
        } => put_tick(alloc, out, plan, gauge, amount, before),
        Tried::Poke { mover, answer } => put_mover(alloc, out, plan, mover, answer),
        Tried::Pass => Ok(()),
        Tried::Close {
            queue,
            readers,
            writers,
            ..
        } => put_closed(alloc, out, plan, queue, readers, writers),
    }
}

/// The thread whose turn it is.
fn put_thread(
    alloc: Global,
    out: &mut Writer,
    plan: &BootPlan,
    thread: Element,
) -> Result<(), OutOfMemory>
    ensures { Puts result out.old out.new (thread_args plan.now thread) }
{
    let text = text_of(alloc, thread_name(plan, thread))?;
    put_text(out, "thread", text.as_str())
}

/// The signals that were delivered.
fn put_delivered(out: &mut Writer, delivered: Result<u16, Lost>) -> Result<(), OutOfMemory>
    ensures { Puts result out.old out.new (delivered_args delivered) }
{
    match delivered {
        Ok(signals) => put_number(out, "signals", u64::from(signals)),
        Err(_) => Ok(()),
    }
}

/// An element whose turn was begun.
fn put_begun(
    alloc: Global,
    out: &mut Writer,
    plan: &BootPlan,
    begun: Begun,
) -> Result<(), OutOfMemory>
    ensures { Puts result out.old out.new (begun_args plan.now begun) }
{
    put_thread(alloc, out, plan, begun.element)?;
    put_number(out, "step", begun.number)?;
    put_delivered(out, begun.delivered)
}

/// How many steps are done now, if one more is counted.
fn put_counted(out: &mut Writer, counted: Counted) -> Result<(), OutOfMemory>
    ensures { Puts result out.old out.new (counted_args counted) }
{
    match counted {
        Counted::Done(number) => put_number(out, "done", number),
        Counted::Undone | Counted::Spent => Ok(()),
    }
}

/// Where an element went that was retired.
fn retired_name(freed: bool) -> &'static str
    ensures { result.now ≡ retired_name freed }
{
    if freed { "free" } else { "held" }
}

/// An element that was at hand, if there was one.
fn put_idle(alloc: Global, out: &mut Writer, plan: &BootPlan, idle: Idle) -> Result<(), OutOfMemory>
    ensures { Puts result out.old out.new (idle_args plan.now idle) }
{
    match idle {
        Idle::NothingReady(_) => Ok(()),
        Idle::Parked(element) | Idle::ParkLost { element, .. } => {
            put_thread(alloc, out, plan, element)
        }
    }
}

/// What came of an element's turn.
fn put_did(
    alloc: Global,
    out: &mut Writer,
    plan: &BootPlan,
    line: &[u8],
    did: Did,
) -> Result<(), OutOfMemory>
    ensures { Puts result out.old out.new (did_args plan.now line.now did) }
{
    match did {
        Did::Idle(idle) => put_idle(alloc, out, plan, idle),
        Did::Retired { begun, freed } => {
            put_begun(alloc, out, plan, begun)?;
            put_text(out, "went", retired_name(freed))
        }
        Did::Stepped {
            begun,
            tried,
            counted,
            moved,
            ..
        } => {
            put_begun(alloc, out, plan, begun)?;
            put_step(alloc, out, plan, line, tried)?;
            put_counted(out, counted)?;
            put_text(out, "went", way_name(moved))
        }
    }
}

/// The tick to which the clock was advanced.
fn put_clock(
    out: &mut Writer,
    tended: Option<Result<u32, AdvanceRefusal>>,
) -> Result<(), OutOfMemory>
    ensures { Puts result out.old out.new (tick_args tended) }
{
    match tended {
        Some(Ok(tick)) => put_number(out, "clock", u64::from(tick)),
        _ => Ok(()),
    }
}

/// How many alarms were fired, if any was.
fn put_fired(out: &mut Writer, fired: usize) -> Result<(), OutOfMemory>
    ensures { Puts result out.old out.new (fired_args fired) }
{
    if fired == 0 {
        Ok(())
    } else {
        put_number(out, "alarms", fired as u64)
    }
}

/// The arguments of a turn on a processor.
pub(crate) fn put_turn(
    alloc: Global,
    out: &mut Writer,
    plan: &BootPlan,
    processor: u64,
    line: &[u8],
    entry: &Entry,
) -> Result<(), OutOfMemory>
    ensures { Puts result out.old out.new (turn_args plan.now processor line.now entry.now) }
{
    put_number(out, "processor", processor)?;
    put_did(alloc, out, plan, line, entry.did)?;
    put_clock(out, entry.tended)?;
    put_fired(out, entry.fired.len)
}
