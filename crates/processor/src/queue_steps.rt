//! The steps at queues: saying a line, hearing one, and shutting a queue, with those who wait at a pipe.
//!
//! The ticket is read before the try. Those who wait are woken after it: after an earlier wake those who come to wait in
//! between would stay asleep.
ghost use Rattle.std.specs.Prelude.{◌≡◌, ℕ, []};
ghost use Rattle.boot_data.specs.declared.plan.QueueIndex.TheVariants.{Small};
ghost use Rattle.thread_table.specs.Handles.{view_of, call_of};
ghost use Rattle.turn_io.specs.QueueEnds.{IsThere};
ghost use Rattle.processor.specs.declared.step_outcome.StepOutcome.TheVariants as step_outcomes;
ghost use Rattle.processor.specs.Orders.{TriedAtEnds, count_of};
ghost use Rattle.processor.specs.Points.{GateSaw, points_of};
ghost use Rattle.processor.specs.Queues.{said_line};
ghost use Rattle.processor.specs.Sights.{views};
ghost use Rattle.processor.specs.Stations.{ArePartsOf};
ghost use Rattle.processor.specs.Steps.{HandDid};
ghost use Rattle.processor.specs.Refusals.{is_shut, is_over};

use crate::lines::write_line;
use crate::phases::{HearAnswer, SayAnswer, Unheard, Unsaid};
use crate::pipes::waits_of;
use crate::shared::Shared;
use crate::station::Parts;
use crate::ticket::ticket_for;
use crate::waking::wake_for;
use crate::watch::Watch;
use boot_data::Text;
use boot_data::plan::QueueIndex;
use claim_queue::{ClaimRefusal, TakeRefusal};
use std::sync::Wait;
use turn_dispatch::Woken;
use turn_io::{LineRoom, QueueGate};

// Whether a claim was refused because the queue is shut.
fn is_shut(refusal: &ClaimRefusal) -> bool
    ensures { result ≡ is_shut refusal.now }
{
    matches!(*refusal, ClaimRefusal::Closed)
}

// Whether a taking was refused because the queue is shut and has nothing left.
fn is_over(refusal: &TakeRefusal) -> bool
    ensures { result ≡ is_over refusal.now }
{
    matches!(*refusal, TakeRefusal::Closed)
}

// One try to say a text in a queue. Its line goes into `room.line`.
pub(crate) fn say_step<R: Wait, G: Watch>(
    rt: &R,
    shared: &Shared,
    parts: &mut Parts,
    queue: QueueIndex,
    text: &Text<63>,
    room: &mut LineRoom,
    p: u8,
    gate: &mut G,
) -> SayAnswer
    requires parts { ArePartsOf shared.now parts.old }
    requires there { IsThere shared.now.queues queue }
    ensures line { room.new.line.items ≡ said_line text.now }
    ensures hand { HandDid (call_of parts.old.hand) shared.now.plan (step_outcomes.Say queue result)
        (view_of parts.old.hand) (view_of parts.new.hand) }
    ensures ends { TriedAtEnds
        (views G.shown ⟦<G as QueueGate<64>>⟧.at_end ⟦<G as QueueGate<256>>⟧.at_end G.at_chain_end)
        shared.now p (count_of parts.old.hand) (step_outcomes.Say queue result) room.new.line.items gate.old gate.new
        parts.old parts.new }
    ensures hook { GateSaw G.observes p (points_of (step_outcomes.Say queue result)) gate.old gate.new }
{
    let threads = &shared.threads;
    let (readers, writers) = waits_of(&shared.plan, queue);
    write_line(text, &mut room.line);
    let ticket = ticket_for(threads, &mut parts.hand, writers);
    gate.show_queues(&parts.hand, &parts.queues);
    let line = room.line.as_slice();
    let answer = parts.queues.say(&shared.queues, queue, line, p, gate);
    gate.show_queues(&parts.hand, &parts.queues);
    match answer {
        Ok(()) => SayAnswer::Put(wake_for(rt, threads, &mut parts.hand, readers)),
        Err(refusal) => {
            if is_shut(&refusal) {
                SayAnswer::Over
            } else {
                SayAnswer::Refused(Unsaid { refusal, ticket })
            }
        }
    }
}

// One try to hear a line of a queue. The line goes into `room.line`.
pub(crate) fn hear_step<R: Wait, G: Watch>(
    rt: &R,
    shared: &Shared,
    parts: &mut Parts,
    queue: QueueIndex,
    room: &mut LineRoom,
    p: u8,
    gate: &mut G,
) -> HearAnswer
    requires parts { ArePartsOf shared.now parts.old }
    requires there { IsThere shared.now.queues queue }
    requires empty { room.old.line.items ≡ [] }
    ensures hand { HandDid (call_of parts.old.hand) shared.now.plan (step_outcomes.Hear queue result)
        (view_of parts.old.hand) (view_of parts.new.hand) }
    ensures ends { TriedAtEnds
        (views G.shown ⟦<G as QueueGate<64>>⟧.at_end ⟦<G as QueueGate<256>>⟧.at_end G.at_chain_end)
        shared.now p (count_of parts.old.hand) (step_outcomes.Hear queue result) room.new.line.items gate.old gate.new
        parts.old parts.new }
    ensures hook { GateSaw G.observes p (points_of (step_outcomes.Hear queue result)) gate.old gate.new }
{
    let threads = &shared.threads;
    let (readers, writers) = waits_of(&shared.plan, queue);
    let ticket = ticket_for(threads, &mut parts.hand, readers);
    gate.show_queues(&parts.hand, &parts.queues);
    let answer = parts.queues.hear(&shared.queues, queue, room, p, gate);
    gate.show_queues(&parts.hand, &parts.queues);
    match answer {
        Ok(()) => HearAnswer::Taken(wake_for(rt, threads, &mut parts.hand, writers)),
        Err(refusal) => {
            if is_over(&refusal) {
                HearAnswer::Over(wake_for(rt, threads, &mut parts.hand, writers))
            } else {
                HearAnswer::Refused(Unheard { refusal, ticket })
            }
        }
    }
}

// Shuts a queue or pipe, and wakes those who wait at a pipe: first those who wait to hear. Returns whether the queue was
// open, and who was woken.
pub(crate) fn close_step<R: Wait, G: Watch>(
    rt: &R,
    shared: &Shared,
    parts: &mut Parts,
    queue: usize,
    gate: &G,
) -> (bool, Option<Woken>, Option<Woken>)
    requires parts { ArePartsOf shared.now parts.old }
    requires there { IsThere shared.now.queues (Small queue) }
    ensures hand { HandDid (call_of parts.old.hand) shared.now.plan
        (step_outcomes.Close queue result.0 result.1 result.2) (view_of parts.old.hand) (view_of parts.new.hand) }
    ensures ends { (p : ℕ) → TriedAtEnds
        (views G.shown ⟦<G as QueueGate<64>>⟧.at_end ⟦<G as QueueGate<256>>⟧.at_end G.at_chain_end)
        shared.now p (count_of parts.old.hand) (step_outcomes.Close queue result.0 result.1 result.2) [] gate.now gate.now
        parts.old parts.new }
{
    let threads = &shared.threads;
    let index = QueueIndex::Small(queue);
    let (to_hear, to_say) = waits_of(&shared.plan, index);
    gate.show_queues(&parts.hand, &parts.queues);
    let was_open = parts.queues.shut(&shared.queues, index);
    gate.show_queues(&parts.hand, &parts.queues);
    let readers = wake_for(rt, threads, &mut parts.hand, to_hear);
    let writers = wake_for(rt, threads, &mut parts.hand, to_say);
    (was_open, readers, writers)
}
