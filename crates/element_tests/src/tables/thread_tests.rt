ghost use Rattle.std.specs.Thread.{IsSync};
ghost use Rattle.thread_table.specs.Handles.{IsHandOf, IsSameHand};

use crate::fixtures::{closes, part, processor, steps_of, wait_queue};
use event_theory::{Element, Processor, WaitNumber};
use std::panic::Expect;
use std::process::Abort;
use std::sync::Wait;
use std::test::*;
use std::thread;
use std::thread::Threads;
use thread_table::*;

const MOVES: u64 = 10_000;

/// Tries once to take an element from the queue of this number: the ready ring, or one of two wait queues.
fn try_take(
    table: &ThreadTable,
    hand: &mut Hand,
    queue: u64,
    waits: [WaitNumber; 2],
) -> Option<Element>
    requires { IsHandOf table.now hand.old }
    ensures { IsSameHand hand.old hand.new }
{
    let taken = match queue {
        0 => table.try_next(hand),
        1 => table.try_wake(hand, waits[0]),
        _ => table.try_wake(hand, waits[1]),
    };
    taken.ok()
}

/// Takes an element from the ready ring or from one of two wait queues, beginning with the queue of this number.
fn take_any<R: Wait>(
    rt: &R,
    table: &ThreadTable,
    hand: &mut Hand,
    from: u64,
    waits: [WaitNumber; 2],
) -> Option<Element>
    requires { IsHandOf table.now hand.old }
    ensures { IsSameHand hand.old hand.new }
{
    let mut queue = from % 3;
    for _ in rt.forever() {
        let taken = try_take(table, hand, queue, waits);
        if taken.is_some() {
            return taken;
        }
        queue = (queue + 1) % 3;
    }
    None
}

/// Tries once to put an element into the queue of this number. True if it was put, or isn't held.
fn try_put(
    table: &ThreadTable,
    hand: &mut Hand,
    element: Element,
    queue: u64,
    waits: [WaitNumber; 2],
) -> bool
    requires { IsHandOf table.now hand.old }
    ensures { IsSameHand hand.old hand.new }
{
    if !hand.holds(element) {
        return true;
    }
    let moved = match queue {
        0 => table.try_ready(hand, element),
        1 => table.try_wait(hand, element, waits[0]),
        _ => table.try_wait(hand, element, waits[1]),
    };
    moved.is_ok()
}

/// Puts an element that the hand holds into the queue of this number.
fn put_any<R: Wait>(
    rt: &R,
    table: &ThreadTable,
    hand: &mut Hand,
    element: Element,
    to: u64,
    waits: [WaitNumber; 2],
)
    requires { IsHandOf table.now hand.old }
    ensures { IsSameHand hand.old hand.new }
{
    for _ in rt.forever() {
        if try_put(table, hand, element, to % 3, waits) {
            return;
        }
    }
}

/// One step of an element on the processor. True if it was done.
fn run_on(table: &ThreadTable, hand: &mut Hand, processor: Processor, element: Element) -> bool
    requires { IsHandOf table.now hand.old }
    ensures { IsSameHand hand.old hand.new }
{
    if !hand.serves(processor) || !hand.holds(element) {
        return false;
    }
    if table.on(hand, processor, element).is_err() || !hand.serves(processor) {
        return false;
    }
    let Ok(element) = table.off(hand, processor) else {
        return false;
    };
    hand.holds(element) && table.step_done(hand, element).is_ok()
}

/// Passes elements on, with a step of each. Returns the number of steps done.
fn pass<R: Wait>(
    rt: &R,
    table: &ThreadTable,
    hand: Hand,
    processor: Processor,
    waits: [WaitNumber; 2],
) -> (Hand, u64)
    requires { IsHandOf table.now hand }
    ensures { IsHandOf table.now result.0 }
{
    let mut hand = hand;
    let mut steps = 0u64;
    for i in 0..MOVES {
        if let Some(element) = take_any(rt, table, &mut hand, i, waits) {
            if run_on(table, &mut hand, processor, element) {
                steps = steps.wrapping_add(1);
            }
            put_any(rt, table, &mut hand, element, i / 3, waits);
        }
    }
    (hand, steps)
}

fn pass_two<R: Threads + Wait + Sync>(
    rt: &R,
    table: &ThreadTable,
    one: (Hand, Processor),
    other: (Hand, Processor),
    waits: [WaitNumber; 2],
) -> ((Hand, u64), (Hand, u64))
    requires { IsHandOf table.now one.0 × IsHandOf table.now other.0 }
    ensures { IsHandOf table.now result.0.0 × IsHandOf table.now result.1.0 }
{
    thread::join(
        rt,
        move || -> (Hand, u64)
            requires { IsSync R.row × IsHandOf table.now one.0 }
            ensures { IsHandOf table.entry.now result.0 }
        { pass(rt, table, one.0, one.1, waits) },
        move || -> (Hand, u64)
            requires { IsSync R.row × IsHandOf table.now other.0 }
            ensures { IsHandOf table.entry.now result.0 }
        { pass(rt, table, other.0, other.1, waits) },
    )
}

type Four = (
    (Hand, Processor),
    (Hand, Processor),
    (Hand, Processor),
    (Hand, Processor),
);

fn pass_four<R: Threads + Wait + Sync>(
    rt: &R,
    table: &ThreadTable,
    hands: Four,
    waits: [WaitNumber; 2],
) -> (((Hand, u64), (Hand, u64)), ((Hand, u64), (Hand, u64)))
    requires one { IsHandOf table.now hands.0.0 × IsHandOf table.now hands.1.0 }
    requires other { IsHandOf table.now hands.2.0 × IsHandOf table.now hands.3.0 }
    ensures one { IsHandOf table.now result.0.0.0 × IsHandOf table.now result.0.1.0 }
    ensures other { IsHandOf table.now result.1.0.0 × IsHandOf table.now result.1.1.0 }
{
    let (a, b, c, d) = hands;
    thread::join(
        rt,
        move || -> ((Hand, u64), (Hand, u64))
            requires { IsSync R.row × IsHandOf table.now a.0 × IsHandOf table.now b.0 }
            ensures { IsHandOf table.entry.now result.0.0 × IsHandOf table.entry.now result.1.0 }
        { pass_two(rt, table, a, b, waits) },
        move || -> ((Hand, u64), (Hand, u64))
            requires { IsSync R.row × IsHandOf table.now c.0 × IsHandOf table.now d.0 }
            ensures { IsHandOf table.entry.now result.0.0 × IsHandOf table.entry.now result.1.0 }
        { pass_two(rt, table, c, d, waits) },
    )
}

/// Takes a free element, and makes it ready.
fn ready_one(table: &ThreadTable, hand: &mut Hand) -> bool
    requires { IsHandOf table.now hand.old }
    ensures { IsSameHand hand.old hand.new }
{
    let Ok(element) = table.try_free(hand) else {
        return false;
    };
    hand.holds(element) && table.try_ready(hand, element).is_ok()
}

/// Takes all free elements, and makes them ready.
fn ready_all<R: Abort>(rt: &R, table: &ThreadTable, hand: &mut Hand)
    requires { IsHandOf table.now hand.old }
    ensures { IsSameHand hand.old hand.new }
{
    for _ in 0..64u8 {
        assert!(rt; ready_one(table, hand));
    }
}

#[test]
fn four_pass_all(rt: HostRuntime) -> Result<(), Fail> {
    let (table, mut first) = ThreadTable::new(rt.alloc())?;
    let (p0, p1) = (processor(&rt, 0), processor(&rt, 1));
    let (p2, p3) = (processor(&rt, 2), processor(&rt, 3));
    let waits = [wait_queue(&rt, 0), wait_queue(&rt, 1)];
    let b = part(&table, &mut first, p1).expect(&rt, "part");
    let c = part(&table, &mut first, p2).expect(&rt, "part");
    let d = part(&table, &mut first, p3).expect(&rt, "part");
    ready_all(&rt, &table, &mut first);
    let hands = ((first, p0), (b, p1), (c, p2), (d, p3));
    let (one, other) = pass_four(&rt, &table, hands, waits);
    let ((first, i), (b, j)) = one;
    let ((c, k), (d, l)) = other;
    let mut first = first;
    table.join(&mut first, b);
    table.join(&mut first, c);
    table.join(&mut first, d);
    assert!(rt; (i, j, k, l) == (MOVES, MOVES, MOVES, MOVES));
    let closed = closes(&rt, table, first, &[]);
    assert!(rt; steps_of(&closed) == 40_000);
    for place in closed.places {
        assert!(rt; matches!(place, Place::Ready | Place::Wait(0) | Place::Wait(1)));
    }
    Ok(())
}
