//! The turns of a processor.
ghost use Rattle.std.specs.Prelude.{◌≡◌, ◌<◌, ◌≤◌, [], true, length, IfOk, MatchResult};
ghost use Rattle.turn_dispatch.specs.Sendings.{Sent};
ghost use Rattle.thread_table.specs.Handles.{view_of, call_of};
ghost use Rattle.thread_table.specs.Rules.{has, done_at};
ghost use Rattle.processor.specs.Entries.{LogEntry, tended_of};
ghost use Rattle.processor.specs.Manning.{IsRunnable, KeepsStation};
ghost use Rattle.processor.specs.Orders.{CameInOrder, EndedInOrder, RanTurnsInOrder, InOrder, count_of, one_more};
ghost use Rattle.processor.specs.Points.{GateSaw, calls, points_of, points_out};
ghost use Rattle.processor.specs.Programs.{program};
ghost use Rattle.processor.specs.Running.{IsAtHand};
ghost use Rattle.processor.specs.Sights.{views};
ghost use Rattle.processor.specs.Turns.{AreAtRest, BegunAt, IdleAt, TendedBy, RanStep, is_last};

use crate::laws::steps_fit;
use crate::outcome::{TurnOutcome, TurnResult};
use crate::phases::Rescheduled;
use crate::programs::program_of;
use crate::running::{keep, run_step};
use crate::sending::send_on;
use crate::shared::Shared;
use crate::station::{Parts, Station};
use crate::watch::Watch;
use arrayvec::ArrayVec;
use boot_data::plan::Step;
use event_theory::{Alarm, Element, Processor};
use meters::AdvanceRefusal;
use std::sync::Wait;
use turn_dispatch::{Begun, Idle, begin, retire, tend_alarms};
use turn_io::{LineRoom, Point, QueueGate};

// Whether a step that was tried is done, and was the last of this many steps.
fn is_last(done: bool, number: u64, steps: usize) -> bool
    requires { number < 64 }
    ensures { result ≡ is_last done number steps }
{
    done && steps as u64 <= number + 1
}

// Tries the next step of an element at hand, whose program has this many steps, and moves the element on.
fn run_element<R: Wait, G: Watch>(
    rt: &R,
    shared: &Shared,
    parts: &mut Parts,
    p: Processor,
    begun: &Begun,
    step: &Step,
    steps: usize,
    room: &mut LineRoom,
    gate: &mut G,
) -> Rescheduled
    requires station { IsRunnable shared.now p parts.old }
    requires at_hand { IsAtHand shared.now begun.now step.now parts.old }
    requires all { steps ≡ length (program shared.now.plan begun.now.element) }
    requires empty { room.old.line.items ≡ [] }
    ensures station { KeepsStation shared.now p parts.old parts.new }
    ensures ran { RanStep shared.now p begun.now.element begun.now.number result room.new.line.items parts.old parts.new
        × InOrder (views G.shown ⟦<G as QueueGate<64>>⟧.at_end ⟦<G as QueueGate<256>>⟧.at_end G.at_chain_end)
        shared.now.plan p (one_more (count_of parts.old.hand)) result.tried.step_outcome room.new.line.items
        gate.old gate.new parts.old parts.new }
    ensures hook { GateSaw G.observes p (points_of result.tried.step_outcome) gate.old gate.new }
{
    let element = begun.element;
    let number = begun.number;
    let tried = run_step(rt, shared, parts, p, begun, step, room, gate);
    keep(
        &mut parts.heard,
        tried.step_outcome(),
        element,
        number,
        room.line.as_slice(),
    );
    let last = is_last(tried.step_outcome().is_done(), number, steps);
    let threads = &shared.threads;
    send_on(rt, threads, &mut parts.hand, element, tried, last)
}

// Takes an element from the ready ring, and delivers its signals.
fn begin_turn<R: Wait>(
    rt: &R,
    shared: &Shared,
    parts: &mut Parts,
    p: Processor,
) -> Result<Begun, Idle>
    requires station { IsRunnable shared.now p parts.old }
    ensures station { KeepsStation shared.now p parts.old parts.new }
    ensures begun { MatchResult result (λ begun. BegunAt begun parts.old parts.new)
        (λ idle. IdleAt idle parts.old parts.new) }
    ensures held { IfOk result (λ begun. has (view_of parts.new.hand) begun.element ≡ true) }
    ensures number { IfOk result (λ begun. begun.number ≡ done_at (view_of parts.new.hand).seen.object begun.element) }
{
    begin(rt, &shared.threads, &mut parts.hand, &mut parts.signals)
}

// Retires an element at hand.
fn retire_at<R: Wait>(
    rt: &R,
    shared: &Shared,
    parts: &mut Parts,
    p: Processor,
    element: Element,
) -> bool
    requires station { IsRunnable shared.now p parts.old }
    requires held { has (view_of parts.old.hand) element ≡ true }
    requires over { length (program shared.now.plan element) ≤ done_at (view_of parts.old.hand).seen.object element }
    ensures station { KeepsStation shared.now p parts.old parts.new }
    ensures sent { Sent (call_of parts.old.hand) 1 element result (view_of parts.old.hand) (view_of parts.new.hand) }
    ensures rest { AreAtRest parts.old parts.new }
    ensures frame { (parts.new.meters ≡ parts.old.meters) × (parts.new.signals ≡ parts.old.signals) }
{
    let threads = &shared.threads;
    retire(rt, threads, &mut parts.hand, element)
}

// An element from the ready ring has its turn, if there is one: its next step is tried, or it is retired if it has no
// step left. The line that a step says or hears goes into `room.line`.
fn dispatch<R: Wait, G: Watch>(
    rt: &R,
    shared: &Shared,
    parts: &mut Parts,
    p: Processor,
    room: &mut LineRoom,
    gate: &mut G,
) -> TurnOutcome
    requires station { IsRunnable shared.now p parts.old }
    ensures station { KeepsStation shared.now p parts.old parts.new }
    ensures came { CameInOrder
        (views G.shown ⟦<G as QueueGate<64>>⟧.at_end ⟦<G as QueueGate<256>>⟧.at_end G.at_chain_end)
        shared.now p result room.new.line.items gate.old gate.new parts.old parts.new }
    ensures hook { GateSaw G.observes p (points_out result) gate.old gate.new }
{
    steps_fit();
    room.line.clear();
    match begin_turn(rt, shared, parts, p) {
        Ok(begun) => {
            let element = begun.element;
            let number = begun.number;
            let steps = program_of(&shared.plan, element);
            if number >= steps.len() as u64 {
                let moved = retire_at(rt, shared, parts, p, element);
                return TurnOutcome::OfElement(begun, TurnResult::Retired(moved));
            }
            let step = &steps[number as usize];
            let sent = run_element(rt, shared, parts, p, &begun, step, steps.len(), room, gate);
            TurnOutcome::OfElement(begun, TurnResult::Ran(sent))
        }
        Err(idle) => TurnOutcome::Idle(idle),
    }
}

// Processor 0 tends the alarms, and no other does. The list then has the alarms that were fired.
fn tend(
    shared: &Shared,
    parts: &mut Parts,
    p: Processor,
    fired: &mut ArrayVec<Alarm, 16>,
) -> Option<Result<u32, AdvanceRefusal>>
    requires station { IsRunnable shared.now p parts.old }
    ensures station { KeepsStation shared.now p parts.old parts.new }
    ensures tended { TendedBy p (tended_of result fired.new.items) parts.old parts.new }
{
    if p.number() != 0 {
        return None;
    }
    let threads = &shared.threads;
    let advanced = tend_alarms(
        threads,
        &mut parts.hand,
        &shared.meters,
        &mut parts.meters,
        fired,
    );
    Some(advanced)
}

// One turn, with room for the alarms that are fired in it, and for a line. At its end the gate gets its result.
fn turn<R: Wait, G: Watch>(
    rt: &R,
    shared: &Shared,
    parts: &mut Parts,
    p: Processor,
    fired: &mut ArrayVec<Alarm, 16>,
    room: &mut LineRoom,
    gate: &mut G,
)
    requires station { IsRunnable shared.now p parts.old }
    ensures station { KeepsStation shared.now p parts.old parts.new }
    ensures turn { (entry : LogEntry) × EndedInOrder
        (views G.shown ⟦<G as QueueGate<64>>⟧.at_end ⟦<G as QueueGate<256>>⟧.at_end G.at_chain_end)
        (calls G.observes G.learns) shared.now p entry gate.old gate.new parts.old parts.new }
{
    let advanced = tend(shared, parts, p, fired);
    let outcome = dispatch(rt, shared, parts, p, room, gate);
    gate.turned(
        p.number(),
        advanced,
        fired.as_slice(),
        outcome,
        room.line.as_slice(),
    );
}

/// Exactly this many turns of a processor. In each turn the gate is called with the turn's number, from 0. Then
/// processor 0 tends the alarms, and the oldest element of the ready ring has its turn: one try of its next step.
/// Within a step the gate is called as `Point` says, between the atomic steps that `SawStep` names. At the end of the turn it gets the turn's result, by
/// `TurnGate::turned`. It is never called otherwise. Returns the station, with what its ends did, and what was heard and
/// signalled. `turns_add_up` says what all turns come to.
///
/// Conditions: the station is one of `shared`, and its hand serves the processor, which has no element.
pub fn run<R: Wait, G: Watch>(
    rt: &R,
    shared: &Shared,
    station: Station,
    p: Processor,
    turns: u32,
    gate: &mut G,
) -> Station
    requires station { IsRunnable shared.now p station.parts }
    ensures station { KeepsStation shared.now p station.parts result.parts }
    ensures turned { RanTurnsInOrder
        (views G.shown ⟦<G as QueueGate<64>>⟧.at_end ⟦<G as QueueGate<256>>⟧.at_end G.at_chain_end)
        (calls G.observes G.learns) shared.now p turns gate.old gate.new station.parts result.parts }
{
    let Station { mut parts } = station;
    let mut fired = ArrayVec::new();
    let mut room = LineRoom::new();
    for number in 0..turns {
        gate.between(p.number(), Point::Turn(number));
        turn(rt, shared, &mut parts, p, &mut fired, &mut room, gate);
    }
    Station { parts }
}
