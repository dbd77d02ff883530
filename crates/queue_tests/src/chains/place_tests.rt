//! A place is free once its note is taken, while the note still runs, and no place before.
ghost use Rattle.std.specs.Prelude.{◌≡◌, false, true};
ghost use Rattle.std.specs.Thread.{IsSync};
ghost use Rattle.claim_queue.specs.Handles as queues;
ghost use Rattle.proc_chain.specs.Handles.{turn_of, world_of, IsEndOf};

use crate::fixtures::{chain_one, close_chain, queue_with_two, turn_for};
use claim_queue::{ClaimQueue, QueueEnd};
use proc_chain::*;
use std::process::Abort;
use std::sync::Wait;
use std::test::*;
use std::thread;
use std::thread::Threads;

type Queue = ClaimQueue<1>;

type Chain = ProcChain<Waiter>;

type End = ChainEnd<Waiter>;

/// How often the first run looks for the other thread's word. The word comes after a fraction of these looks, or never.
const LOOKS: u32 = 50_000_000;

/// A quaject whose first run waits until another thread reports, through a queue, what became of the place of its note.
#[derive(Drop)]
struct Waiter {
    end: QueueEnd<1>,
    runs: u64,
    heard: bool,
}

impl Quaject for Waiter {
    type World = Queue;

    ghost made_by = { λ first waiter notes. Unit {0} };

    ghost fits = { λ queue waiter. queues.IsEndOf queue waiter.end };

    fn run(&mut self, world: &Queue, _note: u16) -> Ran {
        self.runs = self.runs.wrapping_add(1);
        if self.runs != 1 {
            return Ran::Nothing;
        }
        for _ in 0..LOOKS {
            if world.try_take(&mut self.end).is_ok() {
                self.heard = true;
                return Ran::Worked;
            }
        }
        Ran::Nothing
    }
}

/// Waits for an item.
fn wait_for<R: Wait>(rt: &R, queue: &Queue, end: &mut QueueEnd<1>)
    requires { queues.IsEndOf queue.now end.old }
    ensures { queues.IsEndOf queue.now end.new }
{
    for _ in rt.forever() {
        if queue.try_take(end).is_ok() {
            return;
        }
        thread::yield_now();
    }
}

/// Whether the note is refused as Full. It serves if it got a Turn.
fn is_full<R: Wait>(rt: &R, chain: &Chain, end: &mut End, queue: &Queue, note: u16) -> bool
    requires { IsEndOf chain.now end.old × (turn_of end.old ≡ false) × (world_of chain.now ≡ queue.now) }
    ensures { IsEndOf chain.now end.new × (turn_of end.new ≡ false) }
{
    match chain.try_chain(end, note) {
        Ok(Chained::Run(turn)) => {
            let _ran = chain.serve_all(rt, end, queue, turn);
            false
        }
        Ok(Chained::Left) => false,
        Err(refusal) => matches!(refusal, ChainRefusal::Full { .. }),
    }
}

/// Chains 31 notes.
fn fill<R: Wait>(rt: &R, chain: &Chain, end: &mut End, queue: &Queue)
    requires { IsEndOf chain.now end.old × (turn_of end.old ≡ false) × (world_of chain.now ≡ queue.now) }
    ensures { IsEndOf chain.now end.new × (turn_of end.new ≡ false) }
{
    for note in 1..32u16 {
        chain_one(rt, chain, end, queue, note);
    }
}

/// Serves two notes, and then all.
fn serve_two_and_all<R: Wait>(rt: &R, chain: &Chain, end: &mut End, queue: &Queue, turn: Turn)
    requires { IsEndOf chain.now end.old × (turn_of end.old ≡ true) × (world_of chain.now ≡ queue.now) }
    ensures { IsEndOf chain.now end.new × (turn_of end.new ≡ false) }
{
    match chain.serve(end, queue, turn, 2) {
        Served::Done { ran: _ } => {}
        Served::More { turn, ran: _ } => {
            let _ran = chain.serve_all(rt, end, queue, turn);
        }
    }
}

/// Chains the first note, fills the chain with others, says so, and serves two notes and then all. Returns the ends.
fn serve_full<R: Abort + Wait>(
    rt: &R,
    chain: &Chain,
    ends: (End, End),
    queue: &Queue,
    start: &Queue,
    starter: QueueEnd<1>,
) -> (End, End)
    requires server { IsEndOf chain.now ends.0 × (turn_of ends.0 ≡ false) }
    requires filler { IsEndOf chain.now ends.1 × (turn_of ends.1 ≡ false) }
    requires world { world_of chain.now ≡ queue.now }
    requires starter { queues.IsEndOf start.now starter }
    ensures server { IsEndOf chain.now result.0 × (turn_of result.0 ≡ false) }
    ensures filler { IsEndOf chain.now result.1 × (turn_of result.1 ≡ false) }
{
    let (mut server, mut filler) = ends;
    let mut starter = starter;
    let turn = turn_for(rt, chain, &mut server, 0);
    fill(rt, chain, &mut filler, queue);
    let _reported = start.try_put(&mut starter, &[1]);
    serve_two_and_all(rt, chain, &mut server, queue, turn);
    (server, filler)
}

/// Waits for the word to start, and chains a note as soon as there is room. It finds whether there is room for another,
/// and says that it has. Returns the end, and whether there was none.
fn chain_more<R: Wait>(
    rt: &R,
    chain: &Chain,
    end: End,
    queue: &Queue,
    start: &Queue,
    ends: (QueueEnd<1>, QueueEnd<1>),
) -> (End, bool)
    requires end { IsEndOf chain.now end × (turn_of end ≡ false) }
    requires world { world_of chain.now ≡ queue.now }
    requires teller { queues.IsEndOf queue.now ends.0 }
    requires starts { queues.IsEndOf start.now ends.1 }
    ensures { IsEndOf chain.now result.0 × (turn_of result.0 ≡ false) }
{
    let (mut teller, mut starts) = ends;
    let mut end = end;
    wait_for(rt, start, &mut starts);
    chain_one(rt, chain, &mut end, queue, 32);
    let full = is_full(rt, chain, &mut end, queue, 33);
    let reported = queue.try_put(&mut teller, &[1]).is_ok();
    (end, full && reported)
}

fn run_both<R: Threads + Abort + Wait + Sync>(
    rt: &R,
    chain: &Chain,
    queue: &Queue,
    start: &Queue,
    one: ((End, End), QueueEnd<1>),
    other: (End, (QueueEnd<1>, QueueEnd<1>)),
) -> ((End, End), (End, bool))
    requires server { IsEndOf chain.now one.0.0 × (turn_of one.0.0 ≡ false) }
    requires filler { IsEndOf chain.now one.0.1 × (turn_of one.0.1 ≡ false) }
    requires starter { queues.IsEndOf start.now one.1 }
    requires end { IsEndOf chain.now other.0 × (turn_of other.0 ≡ false) }
    requires teller { queues.IsEndOf queue.now other.1.0 }
    requires starts { queues.IsEndOf start.now other.1.1 }
    requires world { world_of chain.now ≡ queue.now }
    ensures server { IsEndOf chain.now result.0.0 × (turn_of result.0.0 ≡ false) }
    ensures filler { IsEndOf chain.now result.0.1 × (turn_of result.0.1 ≡ false) }
    ensures end { IsEndOf chain.now result.1.0 × (turn_of result.1.0 ≡ false) }
{
    let (ends, starter) = one;
    let (end, queue_ends) = other;
    thread::join(
        rt,
        move || -> (End, End)
            requires { IsSync R.row × IsEndOf chain.now ends.0 × (turn_of ends.0 ≡ false) × IsEndOf chain.now ends.1
                × (turn_of ends.1 ≡ false) × (world_of chain.now ≡ queue.now) × queues.IsEndOf start.now starter }
            ensures { IsEndOf chain.entry.now result.0 × (turn_of result.0 ≡ false) × IsEndOf chain.entry.now result.1
                × (turn_of result.1 ≡ false) }
        { serve_full(rt, chain, ends, queue, start, starter) },
        move || -> (End, bool)
            requires { IsSync R.row × IsEndOf chain.now end × (turn_of end ≡ false) × (world_of chain.now ≡ queue.now)
                × queues.IsEndOf queue.now queue_ends.0 × queues.IsEndOf start.now queue_ends.1 }
            ensures { IsEndOf chain.entry.now result.0 × (turn_of result.0 ≡ false) }
        { chain_more(rt, chain, end, queue, start, queue_ends) },
    )
}

/// The chain is closed with its three ends: 33 notes were run, and the first heard the other thread.
fn close_heard<R: Abort>(rt: &R, chain: Chain, server: End, filler: End, end: End)
    requires server { IsEndOf chain server × (turn_of server ≡ false) }
    requires filler { IsEndOf chain filler × (turn_of filler ≡ false) }
    requires end { IsEndOf chain end × (turn_of end ≡ false) }
{
    let mut server = server;
    chain.join(&mut server, filler);
    chain.join(&mut server, end);
    let closed = close_chain(rt, chain, server);
    let waiter = &closed.quaject;
    assert!(rt; (closed.taken, waiter.runs, waiter.heard) == (33, 33, true));
}

/// 32 notes fill the chain. While the first one runs, one more note finds room, and a second finds none.
#[test]
fn places_come_free_one_by_one(rt: HostRuntime) {
    let (queue, heard) = queue_with_two(&rt, rt.alloc(), 0);
    let (start, started) = queue_with_two(&rt, rt.alloc(), 0);
    let (teller, starts) = (heard.mine, started.mine);
    let waiter = Waiter {
        end: heard.other,
        runs: 0,
        heard: false,
    };
    let Ok((chain, mut server)) = Chain::new(rt.alloc(), 0, waiter, &queue) else {
        panic!(rt; "no memory")
    };
    let filler = chain.split(&mut server);
    let end = chain.split(&mut server);
    let ((server, filler), (end, full)) = run_both(
        &rt,
        &chain,
        &queue,
        &start,
        ((server, filler), started.other),
        (end, (teller, starts)),
    );
    assert!(rt; full);
    close_heard(&rt, chain, server, filler, end);
}
