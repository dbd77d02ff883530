//! The element queues: the ready ring, the free elements, and then the wait queues.

ghost use Rattle.std.specs.Prelude.{◌≡◌, [], ◌∷◌, map, IsOk, IfOk, Ok, Err, MatchResult, vec_len};
ghost use Rattle.std.specs.List.{repeat};
ghost use Rattle.event_theory.specs.Queues.{empty_queue, full_queue, claim, raise, take_first, join_queue};
ghost use Rattle.event_theory.specs.Results.{Changes, change_at};
ghost use Rattle.quaject_core.specs.Shown.{queue};
ghost use Rattle.event_theory.specs.Rings.{taken};
ghost use Rattle.event_theory.specs.Marks.{wait_ring};
ghost use Rattle.quaject_core.specs.declared.rings.TheConstants.{RINGS, WAITS};

use crate::queueing::StoredQueue;
use event_theory::{Call, OutOfMemory, Refusal, WaitNumber};
use std::alloc::Global;

/// The ready ring.
pub(crate) const READY: usize = 0;

/// The free elements.
pub(crate) const FREE: usize = 1;

/// The first of the wait queues.
pub(crate) const FIRST_WAIT: usize = 2;

/// How many wait queues there are.
const WAITS: u8 = 16;

/// How many rings there are.
pub(crate) const RINGS: usize = 18;

/// The ring of a wait queue.
pub(crate) fn of_wait(wait: WaitNumber) -> usize
    ensures { result ≡ wait_ring wait }
{
    usize::from(wait.number()) + FIRST_WAIT
}

/// The queues in their first state: all elements are free.
pub(crate) fn new(alloc: Global, count: u8) -> Result<Vec<StoredQueue>, OutOfMemory>
    ensures count { IfOk result (λ rings. vec_len rings ≡ RINGS) }
    ensures what { IfOk result
        (λ rings. map queue rings.items ≡ empty_queue count ∷ full_queue count ∷ repeat WAITS (empty_queue count ∷ [])) }
{
    let mut rings = Vec::new(alloc);
    rings.push(StoredQueue::new(alloc, u16::from(count)))?;
    rings.push(StoredQueue::full(alloc, count)?)?;
    for _ in 0..WAITS {
        rings.push(StoredQueue::new(alloc, u16::from(count)))?;
    }
    Ok(rings)
}

/// Appends a run of one element.
pub(crate) fn claim(
    rings: &mut Vec<StoredQueue>,
    ring: usize,
    call: Call,
    items: &[u64],
) -> Result<(), Refusal>
    ensures what { Changes result (change_at ring (claim 1 call items.now) (map queue rings.old.items))
        (map queue rings.old.items) (map queue rings.new.items) }
    ensures frame { vec_len rings.new ≡ vec_len rings.old }
{
    if ring >= rings.len() {
        return Err(Refusal::UnknownName);
    }
    rings[ring].claim(1, call, items)
}

/// The refusal of a claim of one element. Claims nothing.
pub(crate) fn check_claim(
    rings: &Vec<StoredQueue>,
    ring: usize,
    call: Call,
    items: &[u64],
) -> Result<(), Refusal>
    ensures { MatchResult result (λ done. IsOk (change_at ring (claim 1 call items.now) (map queue rings.now.items)))
        (λ refusal. change_at ring (claim 1 call items.now) (map queue rings.now.items) ≡ Err refusal) }
{
    if ring >= rings.len() {
        return Err(Refusal::UnknownName);
    }
    let status = rings[ring].status();
    if items.is_empty() {
        return Err(Refusal::NoItems);
    }
    if items.len() > 1 {
        return Err(Refusal::TooLong);
    }
    if status.shut {
        return Err(Refusal::Closed);
    }
    if status.left >= u64::from(status.capacity) {
        return Err(Refusal::Full);
    }
    Ok(())
}

/// Raises the element of a run.
pub(crate) fn raise(
    rings: &mut Vec<StoredQueue>,
    ring: usize,
    call: Call,
    run: u32,
    index: u32,
) -> Result<(), Refusal>
    ensures what { Changes result (change_at ring (raise call run index) (map queue rings.old.items))
        (map queue rings.old.items) (map queue rings.new.items) }
    ensures frame { vec_len rings.new ≡ vec_len rings.old }
{
    if ring >= rings.len() {
        return Err(Refusal::UnknownName);
    }
    rings[ring].raise(call, run, index)
}

/// The element that a taking would take. Takes nothing.
pub(crate) fn first_taken(rings: &Vec<StoredQueue>, ring: usize, count: u32) -> Result<u64, Refusal>
    ensures { MatchResult result (λ element. taken ring count (map queue rings.now.items) ≡ Ok (element ∷ []))
        (λ refusal. taken ring count (map queue rings.now.items) ≡ Err refusal) }
{
    if ring >= rings.len() {
        return Err(Refusal::UnknownName);
    }
    let stored = &rings[ring];
    stored.check_take(1, count)?;
    stored.first_left().ok_or(Refusal::NotRaised)
}

/// Takes the first element.
pub(crate) fn take(rings: &mut Vec<StoredQueue>, ring: usize, count: u32) -> Result<(), Refusal>
    ensures what { Changes result (change_at ring (take_first 1 count) (map queue rings.old.items))
        (map queue rings.old.items) (map queue rings.new.items) }
    ensures frame { vec_len rings.new ≡ vec_len rings.old }
{
    if ring >= rings.len() {
        return Err(Refusal::UnknownName);
    }
    rings[ring].take(1, count)
}

/// Gives the runs of the other call to the call.
pub(crate) fn join(rings: &mut Vec<StoredQueue>, call: Call, other: Call)
    ensures frame { vec_len rings.new ≡ vec_len rings.old }
    ensures what { map queue rings.new.items ≡ map (join_queue call other) (map queue rings.old.items) }
{
    for ring in rings.iter_mut() {
        ring.join(call, other);
    }
}
