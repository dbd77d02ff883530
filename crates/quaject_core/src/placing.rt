//! The place of each element, and its numbers.

ghost use Rattle.std.specs.Prelude.{◌≡◌, ◌==◌, ◌<◌, ◌≤◌, ℕ, List, position, length, map, IfOk};
ghost use Rattle.std.specs.List.{list_any};
ghost use Rattle.event_theory.specs.Queues.{left};
ghost use Rattle.event_theory.specs.Statuses.{element_statuses};
ghost use Rattle.quaject_core.specs.Shown.{queue};
ghost use Rattle.quaject_core.specs.ShownThreads.{thread};
ghost use Rattle.quaject_core.specs.declared.rings.TheConstants.{RINGS};
ghost use Rattle.event_theory.specs.Appearances.{is_on};
ghost use Rattle.event_theory.specs.Places.{place_by, ring_place, held_place, holder};

use crate::queueing::StoredQueue;
use crate::threading::StoredThread;
use event_theory::{Call, ElementStatus, Hold, OutOfMemory, Place, Processor, WaitNumber};
use std::alloc::Global;

/// Whether the element is on this processor.
fn is_on(element: u64, seat: Option<Hold>) -> bool
    ensures { result ≡ is_on element seat }
{
    match seat {
        Some(hold) => hold.element == element,
        None => false,
    }
}

/// The index of the processor that the element is on.
fn seat_of(processors: &[Option<Hold>; 8], element: u64) -> Option<usize>
    ensures { result ≡ position (is_on element) processors.now }
{
    processors.iter().position(|seat| is_on(element, *seat))
}

/// The processor that the element is on.
fn processor_of(processors: &[Option<Hold>; 8], element: u64) -> Option<Processor>
    ensures { result ≡ position (is_on element) processors.now }
{
    let seat = seat_of(processors, element)?;
    Some(Processor::new(seat as u8).unwrap())
}

/// The element queue in which the element is left.
fn ring_of(rings: &[StoredQueue], element: u64) -> Option<usize>
    ensures { result ≡ position (λ stored. list_any (λ item. item == element) (left (queue stored))) rings.now }
{
    rings.iter().position(|ring| ring.has_left(element))
}

/// The call that holds the element.
fn holder(held: &[Hold], element: u64) -> Option<Call>
    ensures { result ≡ holder element held.now }
{
    for hold in held {
        if hold.element == element {
            return Some(hold.call);
        }
    }
    None
}

/// The place of the elements in this element queue.
fn ring_place(ring: usize) -> Place
    requires { ring < RINGS }
    ensures { result ≡ ring_place ring }
{
    match ring {
        0 => Place::Ready,
        1 => Place::Free,
        _ => Place::Wait(WaitNumber::new((ring - 2) as u8).unwrap()),
    }
}

/// The place of an element that is on no processor and in no queue.
fn held_place(held: Option<Call>) -> Place
    ensures { result ≡ held_place held }
{
    match held {
        Some(call) => Place::Held(call),
        None => Place::Stopped,
    }
}

/// The place of the element.
#[tactic(auto, using(crate::proofs::Stored::Numbers::position_map))]
pub(crate) fn place(
    processors: &[Option<Hold>; 8],
    rings: &[StoredQueue],
    held: &[Hold],
    element: u64,
) -> Place
    requires { length rings.now ≤ RINGS }
    ensures { result ≡ place_by
        (position (is_on element) processors.now)
        (position (λ q. list_any (λ item. item == element) (left q)) (map queue rings.now))
        (holder element held.now) }
{
    if let Some(processor) = processor_of(processors, element) {
        return Place::Processor(processor);
    }
    if let Some(ring) = ring_of(rings, element) {
        return ring_place(ring);
    }
    held_place(holder(held, element))
}

/// The numbers of each element.
pub(crate) fn statuses(
    alloc: Global,
    threads: &[StoredThread],
    processors: &[Option<Hold>; 8],
    rings: &[StoredQueue],
    held: &[Hold],
) -> Result<Vec<ElementStatus>, OutOfMemory>
    requires { length rings.now ≤ RINGS }
    ensures { IfOk result (λ list. (notified : List ℕ) → list.items ≡ element_statuses (record {
      threads = map thread threads.now;
      rings = map queue rings.now;
      notified = notified;
      processors = processors.now;
      held = held.now;
    }) 0 (map thread threads.now)) }
{
    let mut statuses = Vec::new(alloc);
    for (element, thread) in threads.iter().enumerate() {
        statuses.push(ElementStatus {
            place: place(processors, rings, held, element as u64),
            done: thread.done(),
            pending: thread.pending(),
            stop: thread.is_stopping(),
        })?;
    }
    Ok(statuses)
}
