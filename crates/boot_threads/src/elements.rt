//! The thread elements of a plan, before the first turn.
ghost use Rattle.std.specs.Prelude.{◌≡◌, ◌≤◌, ◌<◌, ◌-◌, true};
ghost use Rattle.std.specs.List.{range_with_len};
ghost use Rattle.thread_table.specs.Handles.{view_of, call_of, IsHandOf, IsSameHand};
ghost use Rattle.thread_table.specs.Answers.{MoveAnswer};
ghost use Rattle.thread_table.specs.Rules.{has};
ghost use Rattle.boot_threads.specs.Elements.{ring_of, claims, Moved, TookFree, PutInto, HoldsFrom, Prepared};

use crossbeam_utils::Backoff;
use event_theory::Element;
use std::sync::Wait;
use thread_table::{Hand, MoveRefusal, ThreadTable};

// The ring into which an element is put: the ready ring, or the free ring.
#[derive(Clone, Copy)]
enum Ring {
    Ready,
    Free,
}

// Takes free elements until the hand holds this element.
fn take_free<R: Wait>(rt: &R, threads: &ThreadTable, hand: &mut Hand, element: Element)
    requires { IsHandOf threads.now hand.old }
    ensures holds { has (view_of hand.new) element ≡ true }
    ensures took { TookFree (view_of hand.old) (view_of hand.new) }
    ensures handle { IsSameHand hand.old hand.new }
{
    let backoff = Backoff::new();
    for _ in rt.forever() {
        if hand.holds(element) {
            return;
        }
        let _taken = threads.try_free(hand);
        backoff.spin();
    }
}

// One try to put an element that the hand holds into the ring.
fn try_put(
    threads: &ThreadTable,
    hand: &mut Hand,
    ring: Ring,
    element: Element,
) -> Result<(), MoveRefusal>
    requires table { IsHandOf threads.now hand.old }
    requires holds { has (view_of hand.old) element ≡ true }
    ensures trace { MoveAnswer (call_of hand.old) (view_of hand.old) (ring_of ring) element result (view_of hand.new) }
    ensures handle { IsSameHand hand.old hand.new }
{
    match ring {
        Ring::Ready => threads.try_ready(hand, element),
        Ring::Free => threads.try_retire(hand, element),
    }
}

// Puts an element that the hand holds into the ring. Retries if another hand was first.
fn put<R: Wait>(rt: &R, threads: &ThreadTable, hand: &mut Hand, ring: Ring, element: Element)
    requires table { IsHandOf threads.now hand.old }
    requires holds { has (view_of hand.old) element ≡ true }
    ensures put { PutInto (call_of hand.old) (ring_of ring) element (view_of hand.old) (view_of hand.new) }
    ensures handle { IsSameHand hand.old hand.new }
{
    let backoff = Backoff::new();
    for _ in rt.forever() {
        match try_put(threads, hand, ring, element) {
            Ok(()) => return,
            Err(_) => backoff.spin(),
        }
    }
}

// The element with this number.
fn element_of(number: u8) -> Element
    requires { number < 64 }
    ensures { result ≡ number }
{
    let Some(element) = Element::new(number) else {
        unreachable!()
    };
    element
}

// Takes free elements until the hand holds all elements.
fn take_all<R: Wait>(rt: &R, threads: &ThreadTable, hand: &mut Hand)
    requires { IsHandOf threads.now hand.old }
    ensures holds { HoldsFrom 0 (view_of hand.new) }
    ensures took { TookFree (view_of hand.old) (view_of hand.new) }
    ensures handle { IsSameHand hand.old hand.new }
{
    for number in 0..64 {
        take_free(rt, threads, hand, element_of(number));
    }
}

// Puts the elements with the numbers from `from` to below `to` into the ring, in their order.
fn put_all<R: Wait>(rt: &R, threads: &ThreadTable, hand: &mut Hand, ring: Ring, from: u8, to: u8)
    requires table { IsHandOf threads.now hand.old }
    requires most { (from ≤ to) × (to ≤ 64) }
    requires holds { HoldsFrom from (view_of hand.old) }
    ensures holds { HoldsFrom to (view_of hand.new) }
    ensures moved { Moved (claims (call_of hand.old) (ring_of ring) (range_with_len from (to - from)))
        (view_of hand.old) (view_of hand.new) }
    ensures handle { IsSameHand hand.old hand.new }
{
    for number in from..to {
        put(rt, threads, hand, ring, element_of(number));
    }
}

/// Takes all free elements. Puts the first `count` elements into the ready ring, one for each thread in script order,
/// and the others into the free ring. Each try is repeated if another hand was first. The hand holds no element
/// afterwards.
///
/// Condition: there are 64 threads at most.
pub fn prepare<R: Wait>(rt: &R, threads: &ThreadTable, hand: Hand, count: u8) -> Hand
    requires table { IsHandOf threads.now hand }
    requires most { count ≤ 64 }
    ensures prepared { Prepared (call_of hand) count (view_of hand) (view_of result) }
    ensures handle { IsSameHand hand result }
{
    let mut hand = hand;
    take_all(rt, threads, &mut hand);
    put_all(rt, threads, &mut hand, Ring::Ready, 0, count);
    put_all(rt, threads, &mut hand, Ring::Free, count, 64);
    hand
}
