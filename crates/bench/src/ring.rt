//! The ready ring of the thread table: several processors pass elements around it.
ghost use Rattle.std.specs.Prelude.{◌≡◌, ◌+◌, ◌*◌, ◌≤◌, IfSome, IfOk, All};
ghost use Rattle.table_theory.specs.declared.shares.TheConstants.{MOST_GIVEN};
ghost use Rattle.table_theory.specs.Sharing.{kept};
ghost use Rattle.thread_table.specs.Handles.{view_of, IsDivisible, IsHandOf, IsSameHand};

use crate::fault::Fault;
use crate::measure::{Done, Measured, Watch};
use boot_threads::{Job, NotStarted, prepare, run_all};
use crossbeam_utils::Backoff;
use event_theory::{Element, Processor};
use std::alloc::Global;
use std::rt::Clock;
use std::sync::Wait;
use std::thread::Threads;
use thread_table::{Hand, ThreadTable};

/// The number of elements in the ring.
const ELEMENTS: u8 = 64;

/// The number of passes of each processor.
const PASSES: u64 = 100_000;

/// A processor that is to make passes, and the hand that serves it.
#[derive(Drop)]
struct Passer {
    hand: Hand,
    processor: Processor,
}

/// The hand of a processor that has made so many passes.
#[derive(Drop)]
struct Passed {
    hand: Hand,
    count: u64,
}

// Takes the first element of the ring.
fn take_first<R: Wait>(rt: &R, table: &ThreadTable, hand: &mut Hand) -> Element
    requires { IsHandOf table.now hand.old }
    ensures { IsSameHand hand.old hand.new }
{
    let backoff = Backoff::new();
    for _ in rt.forever() {
        if let Ok(element) = table.try_next(hand) {
            return element;
        }
        backoff.snooze();
    }
    unreachable!()
}

// Puts the element last in the ring. Returns false if the hand doesn't hold it.
fn put_last<R: Wait>(rt: &R, table: &ThreadTable, hand: &mut Hand, element: Element) -> bool
    requires { IsHandOf table.now hand.old }
    ensures { IsSameHand hand.old hand.new }
{
    let backoff = Backoff::new();
    for _ in rt.forever() {
        if !hand.holds(element) {
            return false;
        }
        if table.try_ready(hand, element).is_ok() {
            return true;
        }
        backoff.snooze();
    }
    unreachable!()
}

// Puts the element on the processor, and takes it off.
fn visit(table: &ThreadTable, hand: &mut Hand, processor: Processor, element: Element) -> bool
    requires { IsHandOf table.now hand.old }
    ensures { IsSameHand hand.old hand.new }
{
    if !hand.serves(processor) || !hand.holds(element) {
        return false;
    }
    if table.on(hand, processor, element).is_err() || !hand.serves(processor) {
        return false;
    }
    table.off(hand, processor).is_ok()
}

impl Job<ThreadTable, Passed> for Passer {
    ghost may_run = { λ table passer. IsHandOf table passer.hand };

    ghost gives = { λ table passer passed. IsHandOf table passed.hand };

    fn run<R: Wait>(self, rt: &R, table: &ThreadTable) -> Passed {
        let Passer {
            mut hand,
            processor,
        } = self;
        let mut count = 0u64;
        for _ in 0..PASSES {
            let element = take_first(rt, table, &mut hand);
            if visit(table, &mut hand, processor, element)
                && put_last(rt, table, &mut hand, element)
            {
                count = count.wrapping_add(1);
            }
        }
        Passed { hand, count }
    }
}

// A passer with one processor of the first hand's. The first hand must serve the processor, and have no element on it.
fn part(table: &ThreadTable, hand: &mut Hand, processor: Processor) -> Option<Passer>
    requires table { IsHandOf table.now hand.old }
    requires parts { IsDivisible hand.old }
    ensures handle { IsSameHand hand.old hand.new }
    ensures part { IfSome result (λ passer. IsHandOf table.now passer.hand
        × ((view_of hand.new).member.share ≡ kept (view_of hand.old).member.share)) }
{
    if !hand.serves(processor) {
        return None;
    }
    if hand.on_processor(processor).is_some() {
        return None;
    }
    let own = table.split(hand, 1 << processor.number());
    Some(Passer {
        hand: own,
        processor,
    })
}

// A passer for each of so many processors.
#[tactic(auto, using(crate::proofs::Shares::one_split))]
fn parts(
    alloc: Global,
    table: &ThreadTable,
    hand: &mut Hand,
    processors: u8,
) -> Result<Vec<Passer>, Fault>
    requires table { IsHandOf table.now hand.old }
    requires parts { 8 * MOST_GIVEN + 2 ≤ (view_of hand.old).member.share }
    ensures passers { IfOk result (λ passers. All (λ passer. IsHandOf table.now passer.hand) passers.items) }
    ensures handle { IsSameHand hand.old hand.new }
{
    let mut passers = Vec::new(alloc);
    for number in 0..processors.min(8) {
        let Some(processor) = Processor::new(number) else {
            unreachable!()
        };
        let Some(passer) = part(table, hand, processor) else {
            return Err(Fault::Miscount);
        };
        if passers.push(passer).is_err() {
            return Err(Fault::Memory);
        }
    }
    Ok(passers)
}

// The number of elements in the ring, while no other hand uses the ring.
fn count_ready(table: &ThreadTable, hand: Hand) -> u8
    requires { IsHandOf table.now hand }
{
    let mut hand = hand;
    let mut count = 0u8;
    for _ in 0..ELEMENTS {
        if table.try_next(&mut hand).is_ok() {
            count = count.saturating_add(1);
        }
    }
    count
}

// The time in which these passers make their passes, each in a thread, and the number of their passes.
fn time_passers<R: Threads + Wait + Clock + Sync>(
    rt: &R,
    alloc: Global,
    table: &ThreadTable,
    passers: Vec<Passer>,
) -> Result<Measured, Fault>
    requires { All (λ passer. IsHandOf table.now passer.hand) passers.items }
{
    let handles = Vec::with_capacity(alloc, passers.len())?;
    let backs = Vec::with_capacity(alloc, passers.len())?;
    let watch = Watch::start(rt)?;
    let backs = run_all(rt, table, passers, handles, backs);
    watch.stop(rt, sum_of(backs))
}

/// Measures passes on so many processors, 1 to 8, each in a thread, once.
pub fn measure_passes<R: Threads + Wait + Clock + Sync>(
    rt: &R,
    alloc: Global,
    processors: u8,
) -> Result<Done, Fault> {
    let wanted = PASSES.wrapping_mul(processors as u64);
    let (table, mut first) = ThreadTable::new(alloc)?;
    let passers = parts(alloc, &table, &mut first, processors)?;
    let first = prepare(rt, &table, first, ELEMENTS);
    let measured = time_passers(rt, alloc, &table, passers)?;
    if count_ready(&table, first) != ELEMENTS {
        return Err(Fault::Miscount);
    }
    measured.done(wanted, wanted)
}

// The number of passes of all processors.
fn sum_of(backs: Vec<Result<Passed, NotStarted<ThreadTable, Passer>>>) -> u64 {
    let mut sum = 0u64;
    for back in backs {
        if let Ok(Passed { hand: _, count }) = back {
            sum = sum.wrapping_add(count);
        }
    }
    sum
}
