//! The name of a turn: its step, and the answer.

ghost use Rattle.std.specs.Prelude.{◌≡◌};
ghost use Rattle.trace_events.specs.TurnNames.{claim_name, say_name, hear_name, signal_name, start_name};
ghost use Rattle.trace_events.specs.TurnNames.{poke_name, step_name, idle_name, turn_name, way_name};

use boot_log::{Did, HeardAnswer, SaidAnswer, Tried};
use claim_queue::{ClaimRefusal, TakeRefusal};
use proc_chain::ChainRefusal;
use processor::Moved;
use thread_table::{Lost, Signalled};
use turn_dispatch::{Idle, Resumed, Waited};
use turn_io::Poked;

/// The name of a refused say.
fn claim_name(refusal: ClaimRefusal) -> &'static str
    ensures { result.now ≡ claim_name refusal }
{
    match refusal {
        ClaimRefusal::NoItems => "say no items",
        ClaimRefusal::TooLong => "say too long",
        ClaimRefusal::Closed => "say closed",
        ClaimRefusal::Spent => "say spent",
        ClaimRefusal::Full { .. } => "say full",
        ClaimRefusal::Lost { .. } => "say lost",
    }
}

/// The name of a say.
fn say_name(answer: SaidAnswer) -> &'static str
    ensures { result.now ≡ say_name answer }
{
    match answer {
        SaidAnswer::Put(_) => "say put",
        SaidAnswer::Over => "say over",
        SaidAnswer::Refused(refusal) => claim_name(refusal),
    }
}

/// The name of a hear.
fn hear_name(answer: HeardAnswer) -> &'static str
    ensures { result.now ≡ hear_name answer }
{
    match answer {
        HeardAnswer::Taken(_) => "hear taken",
        HeardAnswer::Over(_) => "hear over",
        HeardAnswer::Refused(TakeRefusal::Empty { .. }) => "hear empty",
        HeardAnswer::Refused(TakeRefusal::Lost { .. }) => "hear lost",
        HeardAnswer::Refused(TakeRefusal::Closed) => "hear closed",
    }
}

/// The name of a signal.
fn signal_name(answer: Signalled) -> &'static str
    ensures { result.now ≡ signal_name answer }
{
    match answer {
        Signalled::Raised => "signal raised",
        Signalled::Merged => "signal merged",
    }
}

/// The name of a start.
fn start_name(answer: Result<Resumed, Lost>) -> &'static str
    ensures { result.now ≡ start_name answer }
{
    match answer {
        Ok(Resumed::NotStopped) => "start not stopped",
        Ok(Resumed::Cleared) => "start cleared",
        Ok(Resumed::Ready) => "start ready",
        Ok(Resumed::Held) => "start held",
        Err(_) => "start lost",
    }
}

/// The name of a poke.
fn poke_name(answer: Result<Poked, ChainRefusal>) -> &'static str
    ensures { result.now ≡ poke_name answer }
{
    match answer {
        Ok(Poked::Ran { .. }) => "poke ran",
        Ok(Poked::Left) => "poke left",
        Err(ChainRefusal::Spent) => "poke spent",
        Err(ChainRefusal::Full { .. }) => "poke full",
        Err(ChainRefusal::Lost { .. }) => "poke lost",
    }
}

/// The name of a step.
fn step_name(tried: Tried) -> &'static str
    ensures { result.now ≡ step_name tried }
{
    match tried {
        Tried::Say { answer, .. } => say_name(answer),
        Tried::Hear { answer, .. } => hear_name(answer),
        Tried::Wait { .. } => "wait",
        Tried::Wake { .. } => "wake",
        Tried::Signal { answer, .. } => signal_name(answer),
        Tried::Stop {
            was_clear: true,
            ..
        } => "stop",
        Tried::Stop { .. } => "stop again",
        Tried::Start { answer, .. } => start_name(answer),
        Tried::Tick { .. } => "tick",
        Tried::Poke { answer, .. } => poke_name(answer),
        Tried::Pass => "pass",
        Tried::Close { was_open: true, .. } => "close",
        Tried::Close { .. } => "close again",
    }
}

/// The name of a turn with no element at hand.
fn idle_name(idle: Idle) -> &'static str
    ensures { result.now ≡ idle_name idle }
{
    match idle {
        Idle::NothingReady(_) => "idle",
        Idle::Parked(_) => "parked",
        Idle::ParkLost { .. } => "park lost",
    }
}

/// The name of a turn.
pub(crate) fn turn_name(did: Did) -> &'static str
    ensures { result.now ≡ turn_name did }
{
    match did {
        Did::Idle(idle) => idle_name(idle),
        Did::Retired { .. } => "retired",
        Did::Stepped { tried, .. } => step_name(tried),
    }
}

/// Where an element went after its turn.
pub(crate) fn way_name(moved: Moved) -> &'static str
    ensures { result.now ≡ way_name moved }
{
    match moved {
        Moved::Ready(true) => "ready",
        Moved::Freed(true) => "free",
        Moved::Waits(true) | Moved::Ticketed(Waited::Waiting) => "wait queue",
        Moved::Ticketed(Waited::Moved { ready: true, .. }) => "ready",
        _ => "held",
    }
}
