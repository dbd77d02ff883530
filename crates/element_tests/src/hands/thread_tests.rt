ghost use Rattle.std.specs.Thread.{IsSync};
ghost use Rattle.thread_table.specs.Handles.{view_of, IsHandOf, IsSameHand};
ghost use Rattle.turn_dispatch.specs.Holdings.{IsFree};

use crate::fixtures::{closes, part, processor, steps_of, wait_queue};
use event_theory::{Processor, WaitNumber};
use std::panic::Expect;
use std::sync::Wait;
use std::test::*;
use std::thread;
use std::thread::Threads;
use thread_table::{Hand, Place, ThreadTable};
use turn_dispatch::*;

const TURNS: u32 = 10_000;

/// So many turns on a processor. On every third turn the element waits, with the ticket that was read before its step;
/// then all that wait are woken. Returns the number of steps counted.
fn turns<R: Wait>(
    rt: &R,
    threads: &ThreadTable,
    hand: Hand,
    p: Processor,
    wait: WaitNumber,
) -> (Hand, u64)
    requires table { IsHandOf threads.now hand }
    requires free { IsFree p (view_of hand) }
    ensures { IsHandOf threads.now result.0 }
{
    let mut hand = hand;
    let mut signals = [0; 64];
    let mut counted = 0u64;
    for t in 0..TURNS {
        let ticket = threads.ticket(&mut hand, wait);
        if let Ok(begun) = begin(rt, threads, &mut hand, &mut signals) {
            put_on(threads, &mut hand, p, begun.element);
            if let Counted::Done(_) = count(threads, &mut hand, begun.element, true) {
                counted = counted.wrapping_add(1);
            }
            let element = take_off(threads, &mut hand, p);
            if t % 3 == 0 {
                wait_at(rt, threads, &mut hand, element, wait, ticket);
            } else {
                make_ready(rt, threads, &mut hand, element);
            }
        }
        wake(rt, threads, &mut hand, wait);
    }
    (hand, counted)
}

/// Takes a free element, and makes it ready.
fn free_one<R: Wait>(rt: &R, threads: &ThreadTable, hand: &mut Hand) -> bool
    requires { IsHandOf threads.now hand.old }
    ensures { IsSameHand hand.old hand.new }
{
    match threads.try_free(hand) {
        Ok(element) => hand.holds(element) && make_ready(rt, threads, hand, element),
        Err(_) => false,
    }
}

fn turns_of_two<R: Threads + Wait + Sync>(
    rt: &R,
    threads: &ThreadTable,
    one: (Hand, Processor),
    other: (Hand, Processor),
    wait: WaitNumber,
) -> ((Hand, u64), (Hand, u64))
    requires one { IsHandOf threads.now one.0 × IsFree one.1 (view_of one.0) }
    requires other { IsHandOf threads.now other.0 × IsFree other.1 (view_of other.0) }
    ensures { IsHandOf threads.now result.0.0 × IsHandOf threads.now result.1.0 }
{
    thread::join(
        rt,
        move || -> (Hand, u64)
            requires { IsSync R.row × IsHandOf threads.now one.0 × IsFree one.1 (view_of one.0) }
            ensures { IsHandOf threads.entry.now result.0 }
        { turns(rt, threads, one.0, one.1, wait) },
        move || -> (Hand, u64)
            requires { IsSync R.row × IsHandOf threads.now other.0 × IsFree other.1 (view_of other.0) }
            ensures { IsHandOf threads.entry.now result.0 }
        { turns(rt, threads, other.0, other.1, wait) },
    )
}

#[test]
fn two_processors(rt: HostRuntime) -> Result<(), Fail> {
    let (threads, mut first) = ThreadTable::new(rt.alloc())?;
    let (p, q) = (processor(&rt, 0), processor(&rt, 1));
    let w = wait_queue(&rt, 3);
    let second = part(&threads, &mut first, q).expect(&rt, "part");
    for _ in 0..4u8 {
        assert!(rt; free_one(&rt, &threads, &mut first));
    }
    let (a, b) = (first.serves(p), first.on_processor(p).is_none());
    assert!(rt; a && b);
    let (c, d) = (second.serves(q), second.on_processor(q).is_none());
    assert!(rt; c && d);
    let (one, other) = turns_of_two(&rt, &threads, (first, p), (second, q), w);
    let (mut first, i) = one;
    let (second, j) = other;
    threads.join(&mut first, second);
    wake(&rt, &threads, &mut first, w);
    let ready = [
        (0, Place::Ready),
        (1, Place::Ready),
        (2, Place::Ready),
        (3, Place::Ready),
    ];
    let closed = closes(&rt, threads, first, &ready);
    assert!(rt; steps_of(&closed) == i.wrapping_add(j));
    Ok(())
}
