//! The one try of a step.
ghost use Rattle.std.specs.Prelude.{◌≡◌, [], length};
ghost use Rattle.thread_table.specs.Handles.{view_of, call_of};
ghost use Rattle.processor.specs.Orders.{TriedAtEnds, count_of};
ghost use Rattle.processor.specs.Outcomes.{IsOutcomeOf};
ghost use Rattle.processor.specs.Points.{GateSaw, points_of};
ghost use Rattle.processor.specs.Sights.{views};
ghost use Rattle.processor.specs.Stations.{ArePartsOf};
ghost use Rattle.processor.specs.Steps.{Fits, HandDid};

use crate::queue_steps::{close_step, hear_step, say_step};
use crate::shared::Shared;
use crate::station::Parts;
use crate::step_outcome::StepOutcome;
use crate::watch::Watch;
use boot_data::plan::Step;
use std::sync::Wait;
use turn_dispatch::{start, wake};
use turn_io::{LineRoom, QueueGate, poke};

// Tries a step of a thread once. The line that it says or hears goes into `room.line`.
pub(crate) fn try_step<R: Wait, G: Watch>(
    rt: &R,
    shared: &Shared,
    parts: &mut Parts,
    step: &Step,
    room: &mut LineRoom,
    p: u8,
    gate: &mut G,
) -> StepOutcome
    requires parts { ArePartsOf shared.now parts.old }
    requires fits { Fits shared.now.queues (length shared.now.chains.items) step.now }
    requires empty { room.old.line.items ≡ [] }
    ensures step_outcome { IsOutcomeOf step.now result room.new.line.items }
    ensures hand { HandDid (call_of parts.old.hand) shared.now.plan result (view_of parts.old.hand)
        (view_of parts.new.hand) }
    ensures ends { TriedAtEnds
        (views G.shown ⟦<G as QueueGate<64>>⟧.at_end ⟦<G as QueueGate<256>>⟧.at_end G.at_chain_end)
        shared.now p (count_of parts.old.hand) result room.new.line.items gate.old gate.new parts.old parts.new }
    ensures hook { GateSaw G.observes p (points_of result) gate.old gate.new }
{
    let threads = &shared.threads;
    match step {
        Step::Say { queue, text } => StepOutcome::Say {
            queue: *queue,
            answer: say_step(rt, shared, parts, *queue, text, room, p, gate),
        },
        Step::Hear { queue } => StepOutcome::Hear {
            queue: *queue,
            answer: hear_step(rt, shared, parts, *queue, room, p, gate),
        },
        Step::Wait { wait } => StepOutcome::Wait { wait: *wait },
        Step::Wake { wait } => StepOutcome::Wake {
            wait: *wait,
            woken: wake(rt, threads, &mut parts.hand, *wait),
        },
        Step::Signal { thread, signal } => StepOutcome::Signal {
            thread: *thread,
            signal: *signal,
            answer: threads.signal(&mut parts.hand, *thread, *signal),
        },
        Step::Stop { thread } => StepOutcome::Stop {
            thread: *thread,
            was_clear: threads.stop(&mut parts.hand, *thread),
        },
        Step::Start { thread } => StepOutcome::Start {
            thread: *thread,
            answer: start(rt, threads, &mut parts.hand, *thread),
        },
        Step::Tick { gauge, amount } => {
            let number = usize::from(gauge.number());
            gate.show_seat(&parts.hand, &parts.meters);
            let before = shared.meters.tick(&mut parts.meters, number, *amount);
            gate.show_seat(&parts.hand, &parts.meters);
            StepOutcome::Tick {
                gauge: *gauge,
                amount: *amount,
                before,
            }
        }
        Step::Poke { mover } => {
            let chains = shared.chains.as_slice();
            gate.show_chains(&parts.hand, &parts.chains);
            let ends = parts.chains.as_mut_slice();
            let answer = poke(rt, &shared.queues, chains, ends, *mover, p, gate);
            gate.show_chains(&parts.hand, &parts.chains);
            StepOutcome::Poke {
                mover: *mover,
                answer,
            }
        }
        Step::Pass => StepOutcome::Pass,
        Step::Close { queue } => {
            let (was_open, readers, writers) = close_step(rt, shared, parts, *queue, gate);
            StepOutcome::Close {
                queue: *queue,
                was_open,
                readers,
                writers,
            }
        }
    }
}
