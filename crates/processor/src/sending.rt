//! The queue to which an element goes after its step.
ghost use Rattle.std.specs.Prelude.{◌≡◌, true, option_copied};
ghost use Rattle.thread_table.specs.Handles.{view_of, call_of, IsHandOf, IsSameHand};
ghost use Rattle.thread_table.specs.Rules.{has};
ghost use Rattle.processor.specs.Outcomes.{sleeps_on};
ghost use Rattle.processor.specs.Running.{Goes};

use crate::phases::{HearAnswer, Moved, Rescheduled, SayAnswer, StepCounted, Ticket};
use crate::step_outcome::StepOutcome;
use crate::ticket::wait_with;
use event_theory::Element;
use std::sync::Wait;
use thread_table::{Hand, ThreadTable};
use turn_dispatch::{make_ready, retire, wait_in};

// Moves an element on after its step, by its result and by the ticket with which it is to wait, if there is one.
#[inline(always)]
fn go_on<R: Wait>(
    rt: &R,
    threads: &ThreadTable,
    hand: &mut Hand,
    element: Element,
    step_outcome: &StepOutcome,
    ticket: Option<&Ticket>,
    last: bool,
) -> Moved
    requires table { IsHandOf threads.now hand.old }
    requires held { has (view_of hand.old) element ≡ true }
    requires ticket { option_copied ticket ≡ sleeps_on step_outcome.now }
    ensures goes { Goes (call_of hand.old) step_outcome.now last element result (view_of hand.old) (view_of hand.new) }
    ensures handle { IsSameHand hand.old hand.new }
{
    if let Some(ticket) = ticket {
        return Moved::Ticketed(wait_with(rt, threads, hand, element, ticket));
    }
    if let Some(wait) = step_outcome.waits_in() {
        return Moved::Waits(wait_in(rt, threads, hand, element, wait));
    }
    if last {
        Moved::Freed(retire(rt, threads, hand, element))
    } else {
        Moved::Ready(make_ready(rt, threads, hand, element))
    }
}

// Moves an element on after a step that was tried. A refused step has a call of its own, so that no result need be
// written to memory for the ticket in it.
fn move_on<R: Wait>(
    rt: &R,
    threads: &ThreadTable,
    hand: &mut Hand,
    element: Element,
    tried: &StepCounted,
    last: bool,
) -> Moved
    requires table { IsHandOf threads.now hand.old }
    requires held { has (view_of hand.old) element ≡ true }
    ensures goes { Goes (call_of hand.old) tried.now.step_outcome last element result (view_of hand.old)
        (view_of hand.new) }
    ensures handle { IsSameHand hand.old hand.new }
{
    let step_outcome = tried.step_outcome();
    match step_outcome {
        StepOutcome::Say {
            answer: SayAnswer::Refused(unsaid),
            ..
        } => go_on(
            rt,
            threads,
            hand,
            element,
            step_outcome,
            unsaid.ticket_if_full(),
            last,
        ),
        StepOutcome::Hear {
            answer: HearAnswer::Refused(unheard),
            ..
        } => go_on(
            rt,
            threads,
            hand,
            element,
            step_outcome,
            unheard.ticket_if_empty(),
            last,
        ),
        _ => go_on(rt, threads, hand, element, step_outcome, None, last),
    }
}

// Moves an element on after its step, and returns the result of the step with it.
pub(crate) fn send_on<R: Wait>(
    rt: &R,
    threads: &ThreadTable,
    hand: &mut Hand,
    element: Element,
    tried: StepCounted,
    last: bool,
) -> Rescheduled
    requires table { IsHandOf threads.now hand.old }
    requires held { has (view_of hand.old) element ≡ true }
    ensures tried { result.tried ≡ tried }
    ensures goes { Goes (call_of hand.old) tried.step_outcome last element result.moved (view_of hand.old)
        (view_of hand.new) }
    ensures handle { IsSameHand hand.old hand.new }
{
    let moved = move_on(rt, threads, hand, element, &tried, last);
    Rescheduled { tried, moved }
}
