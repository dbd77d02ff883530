//! Elements, wait queues, processors and alarms by their numbers; tables with their only hand; hands that are split
//! off; and the message of a refusal.
ghost use Rattle.std.specs.Prelude.{◌≡◌, ◌≤◌, IfSome};
ghost use Rattle.thread_table.specs.Handles.{view_of, IsDivisible, IsHandOf, IsSameHand, AreOfOneTable};
ghost use Rattle.table_theory.specs.Sharing.{kept};

use event_theory::{Element, Processor, Signal, WaitNumber};
use meters::Alarm;
use std::alloc::Global;
use std::fmt::Display;
use std::panic::Expect;
use std::process::Abort;
use thread_table::{Hand, Place, Places, ThreadTable};

pub(crate) fn element<R: Abort>(rt: &R, number: u8) -> Element {
    Element::new(number).expect(rt, "element")
}

pub(crate) fn wait_queue<R: Abort>(rt: &R, number: u8) -> WaitNumber {
    WaitNumber::new(number).expect(rt, "wait queue")
}

pub(crate) fn processor<R: Abort>(rt: &R, number: u8) -> Processor {
    Processor::new(number).expect(rt, "processor")
}

pub(crate) fn signal<R: Abort>(rt: &R, number: u8) -> Signal {
    Signal::new(number).expect(rt, "signal")
}

/// An alarm that is due at this tick, and sends this signal to this element.
pub(crate) fn alarm_at(due: u32, element: u8, signal: u8) -> Option<Alarm> {
    Some(Alarm {
        due,
        element: Element::new(element)?,
        signal: Signal::new(signal)?,
    })
}

/// A table whose element queues begin at this position, with its only hand.
pub(crate) fn begins<R: Abort>(rt: &R, alloc: Global, first: u32) -> (ThreadTable, Hand)
    requires { first ≤ 4294967231 }
    ensures { IsHandOf result.0 result.1 }
{
    ThreadTable::new_at(alloc, first).expect(rt, "memory")
}

/// Closes the table with its only hand. These elements are in these places then.
pub(crate) fn closes<R: Abort>(
    rt: &R,
    table: ThreadTable,
    hand: Hand,
    places: &[(usize, Place)],
) -> Places
    requires { IsHandOf table hand }
{
    let Ok(closed) = table.close(hand) else {
        panic!(rt; "close")
    };
    for (element, place) in places {
        assert!(rt; closed.places.get(*element) == Some(place));
    }
    closed
}

/// A new hand with one processor of the first hand, which has to serve the processor and to have nothing on it.
pub(crate) fn part(table: &ThreadTable, hand: &mut Hand, processor: Processor) -> Option<Hand>
    requires table { IsHandOf table.now hand.old }
    requires parts { IsDivisible hand.old }
    ensures handle { IsSameHand hand.old hand.new }
    ensures part { IfSome result (λ other. AreOfOneTable hand.old other
        × ((view_of hand.new).member.share ≡ kept (view_of hand.old).member.share)) }
{
    if !hand.serves(processor) {
        return None;
    }
    if hand.on_processor(processor).is_some() {
        return None;
    }
    Some(table.split(hand, 1 << processor.number()))
}

/// How many steps of all elements were counted.
pub(crate) fn steps_of(closed: &Places) -> u64 {
    let mut steps = 0u64;
    for done in closed.pcs {
        steps = steps.wrapping_add(done);
    }
    steps
}

/// Whether these words are the message of a refusal.
pub(crate) fn is_reported<T: Copy + Display>(alloc: Global, refusal: T, words: &str) -> bool {
    format!(in alloc; "{refusal}").is_ok_and(|text| text.as_str() == words)
}
