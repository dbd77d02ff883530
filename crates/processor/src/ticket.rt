//! Tickets of the wait queues at pipes: read before a try, and waited with after it.
ghost use Rattle.std.specs.Prelude.{◌≡◌, true};
ghost use Rattle.turn_dispatch.specs.Sendings.{WaitedAt};
ghost use Rattle.thread_table.specs.Handles.{view_of, call_of, IsHandOf, IsSameHand};
ghost use Rattle.thread_table.specs.Rules.{has};
ghost use Rattle.processor.specs.Orders.{after_ticket, count_of};
ghost use Rattle.processor.specs.Pipes.{TicketFor, IsTicketOf};

use crate::phases::Ticket;
use event_theory::{Element, WaitNumber};
use std::sync::Wait;
use thread_table::{Hand, ThreadTable};
use turn_dispatch::{Waited, wait_at};

// The ticket of a wait queue, if there is one.
pub(crate) fn ticket_for(
    threads: &ThreadTable,
    hand: &mut Hand,
    wait: Option<WaitNumber>,
) -> Option<Ticket>
    requires { IsHandOf threads.now hand.old }
    ensures handle { IsSameHand hand.old hand.new }
    ensures ticket { TicketFor wait (view_of hand.old) result (view_of hand.new) }
    ensures its { IsTicketOf wait result }
    ensures count { count_of hand.new ≡ after_ticket wait (count_of hand.old) }
{
    match wait {
        Some(wait) => {
            let number = threads.ticket(hand, wait);
            Some(Ticket { wait, number })
        }
        None => None,
    }
}

// Puts an element that the hand holds into the ticket's wait queue, if the ticket is still good.
#[inline(always)]
pub(crate) fn wait_with<R: Wait>(
    rt: &R,
    threads: &ThreadTable,
    hand: &mut Hand,
    element: Element,
    ticket: &Ticket,
) -> Waited
    requires table { IsHandOf threads.now hand.old }
    requires held { has (view_of hand.old) element ≡ true }
    ensures waited { WaitedAt (call_of hand.old) ticket.now.wait element ticket.now.number result (view_of hand.old)
        (view_of hand.new) }
    ensures handle { IsSameHand hand.old hand.new }
{
    wait_at(rt, threads, hand, element, ticket.wait, ticket.number)
}
