//! A step on a processor: it is tried and counted there, and the bytes of a line that it heard are kept.
ghost use Rattle.std.specs.Prelude.{◌≡◌, ◌<◌, ◌≤◌, [], true, ◌++◌, length};
ghost use Rattle.thread_table.specs.Handles.{view_of, call_of};
ghost use Rattle.processor.specs.Doings.{heard_by, is_heard};
ghost use Rattle.processor.specs.Manning.{IsRunnable};
ghost use Rattle.processor.specs.Orders.{TriedAtEnds, count_of, one_more};
ghost use Rattle.processor.specs.Outcomes.{IsOutcomeOf};
ghost use Rattle.processor.specs.Points.{GateSaw, points_of};
ghost use Rattle.processor.specs.Running.{IsAtHand, Stepped};
ghost use Rattle.processor.specs.Sights.{views};

use crate::laws::steps_fit;
use crate::phases::{HearAnswer, StepCounted};
use crate::shared::Shared;
use crate::station::Parts;
use crate::step_outcome::StepOutcome;
use crate::steps::try_step;
use crate::watch::Watch;
use boot_data::HeardLines;
use boot_data::plan::Step;
use event_theory::{Element, Processor};
use std::sync::Wait;
use turn_dispatch::{Begun, count, put_on, take_off};
use turn_io::{LineRoom, QueueGate};

// Tries a step of an element at hand once, with the element on the processor, and counts the step if it is done.
pub(crate) fn run_step<R: Wait, G: Watch>(
    rt: &R,
    shared: &Shared,
    parts: &mut Parts,
    p: Processor,
    begun: &Begun,
    step: &Step,
    room: &mut LineRoom,
    gate: &mut G,
) -> StepCounted
    requires station { IsRunnable shared.now p parts.old }
    requires at_hand { IsAtHand shared.now begun.now step.now parts.old }
    requires empty { room.old.line.items ≡ [] }
    ensures step_outcome { IsOutcomeOf step.now result.step_outcome room.new.line.items }
    ensures hand { Stepped (call_of parts.old.hand) shared.now.plan p begun.now.element result.step_outcome result.counted
        (view_of parts.old.hand) (view_of parts.new.hand) }
    ensures ends { TriedAtEnds
        (views G.shown ⟦<G as QueueGate<64>>⟧.at_end ⟦<G as QueueGate<256>>⟧.at_end G.at_chain_end)
        shared.now p (one_more (count_of parts.old.hand)) result.step_outcome room.new.line.items gate.old gate.new
        parts.old parts.new }
    ensures hook { GateSaw G.observes p (points_of result.step_outcome) gate.old gate.new }
{
    steps_fit();
    let threads = &shared.threads;
    let element = begun.element;
    put_on(threads, &mut parts.hand, p, element);
    let step_outcome = try_step(rt, shared, parts, step, room, p.number(), gate);
    let counted = count(threads, &mut parts.hand, element, step_outcome.is_done());
    take_off(threads, &mut parts.hand, p);
    StepCounted {
        step_outcome,
        counted,
    }
}

// Keeps the bytes of a line that was heard. It allocates no memory.
pub(crate) fn keep(
    lines: &mut HeardLines,
    step_outcome: &StepOutcome,
    thread: Element,
    number: u64,
    line: &[u64],
)
    requires room { is_heard step_outcome.now ≡ true → length lines.old.lines < lines.old.room }
    requires few { is_heard step_outcome.now ≡ true → length line.now ≤ lines.old.longest }
    requires low { number < 64 }
    ensures effect { lines.new.lines ≡ lines.old.lines ++ heard_by step_outcome.now thread number line.now }
    ensures room { lines.new.room ≡ lines.old.room }
    ensures longest { lines.new.longest ≡ lines.old.longest }
{
    if let StepOutcome::Hear {
        answer: HearAnswer::Taken(_),
        ..
    } = step_outcome
    {
        lines.push(thread.number(), number as u8, line);
    }
}
