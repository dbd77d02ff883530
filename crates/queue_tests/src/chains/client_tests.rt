//! A client as a kernel has it: a quaject that moves lines between two claim queues of its world.
ghost use Rattle.std.specs.Prelude.{◌≡◌, ◌%◌, ◌^◌, ◌≤◌, length, true, false};
ghost use Rattle.claim_queue.specs.Handles as queues;
ghost use Rattle.proc_chain.specs.Handles.{turn_of, world_of, IsEndOf};

use crate::fixtures::{close_queue, queue_with_two, turn_for};
use arrayvec::ArrayVec;
use claim_queue::{ClaimQueue, QueueEnd};
use proc_chain::*;
use std::alloc::Global;
use std::process::Abort;
use std::test::*;

type Queue = ClaimQueue<8>;

/// The two queues that lines are moved between.
#[derive(Drop)]
struct Pair {
    from: Queue,
    to: Queue,
}

/// Moves one line for each note. A line that finds no room is held, and goes first at the next note.
#[derive(Drop)]
struct Mover {
    source: QueueEnd<8>,
    target: QueueEnd<8>,
    held: ArrayVec<u64, 8>,
    notes: u64,
}

impl Quaject for Mover {
    type World = Pair;

    ghost made_by = { λ first mover notes. queues.IsSameEnd first.source mover.source
        × queues.IsSameEnd first.target mover.target × (mover.notes ≡ length notes % 2 ^ 64) };

    ghost fits = { λ pair mover. queues.IsEndOf pair.from mover.source × queues.IsEndOf pair.to mover.target };

    fn run(&mut self, world: &Pair, _note: u16) -> Ran {
        self.notes = self.notes.wrapping_add(1);
        if self.moves(world) {
            Ran::Worked
        } else {
            Ran::Nothing
        }
    }
}

impl Mover {
    /// Whether a line was moved.
    fn moves(&mut self, world: &Pair) -> bool
        requires { queues.IsEndOf world.now.from self.old.source × queues.IsEndOf world.now.to self.old.target }
        ensures source { queues.IsSameEnd self.old.source self.new.source }
        ensures target { queues.IsSameEnd self.old.target self.new.target }
        ensures notes { self.new.notes ≡ self.old.notes }
    {
        if self.held.is_empty() {
            let taken = world.from.try_take_line(&mut self.source, &mut self.held);
            if taken.is_err() {
                return false;
            }
        }
        let put = world.to.try_put(&mut self.target, self.held.as_slice());
        if put.is_err() {
            return false;
        }
        self.held.clear();
        true
    }
}

type Chain = ProcChain<Mover>;

type End = ChainEnd<Mover>;

/// Chains the note, and serves if it got the Turn.
fn chain_one<R: Abort>(rt: &R, chain: &Chain, end: &mut End, pair: &Pair, note: u16) -> u32
    requires { IsEndOf chain.now end.old × (turn_of end.old ≡ false) × (world_of chain.now ≡ pair.now) }
    ensures { IsEndOf chain.now end.new × (turn_of end.new ≡ false) }
{
    let turn = turn_for(rt, chain, end, note);
    match chain.serve(end, pair, turn, 8) {
        Served::Done { ran } => ran,
        Served::More {
            turn: _turn,
            ran: _,
        } => panic!(rt; "more"),
    }
}

/// The two queues, an end of each, and the mover that has the others.
fn new_mover<R: Abort>(rt: &R, alloc: Global) -> (Pair, (QueueEnd<8>, QueueEnd<8>), Mover)
    ensures ends { queues.IsEndOf result.0.from result.1.0 × queues.IsEndOf result.0.to result.1.1 }
    ensures mover { queues.IsEndOf result.0.from result.2.source × queues.IsEndOf result.0.to result.2.target }
    ensures notes { result.2.notes ≡ 0 }
{
    let (from, producing) = queue_with_two(rt, alloc, 0);
    let (to, consuming) = queue_with_two(rt, alloc, 5);
    let mover = Mover {
        source: producing.other,
        target: consuming.other,
        held: ArrayVec::new(),
        notes: 0,
    };
    (Pair { from, to }, (producing.mine, consuming.mine), mover)
}

/// Three notes are chained, each of which runs at once, and the mover is returned.
fn move_thrice<R: Abort>(rt: &R, alloc: Global, pair: &Pair, mover: Mover) -> Mover
    requires notes { mover.notes ≡ 0 }
    requires mover { queues.IsEndOf pair.now.from mover.source × queues.IsEndOf pair.now.to mover.target }
    ensures { queues.IsEndOf pair.now.from result.source × queues.IsEndOf pair.now.to result.target }
{
    let Ok((chain, mut end)) = Chain::new(alloc, 0, mover, pair) else {
        panic!(rt; "no memory")
    };
    for note in 0..3u16 {
        assert!(rt; chain_one(rt, &chain, &mut end, pair, note) == 1);
    }
    let Ok(closed) = chain.close(end) else {
        panic!(rt; "close")
    };
    assert!(rt; (closed.put, closed.taken, closed.left.len()) == (3, 3, 0));
    closed.quaject
}

/// The queues are closed with the ends that came back: one line was taken, and another is left.
fn close_both<R: Abort>(rt: &R, pair: Pair, producer: QueueEnd<8>, consumer: QueueEnd<8>)
    requires { queues.IsEndOf pair.from producer × queues.IsEndOf pair.to consumer }
{
    let Pair { from, to } = pair;
    let emptied = close_queue(rt, from, producer);
    let moved = close_queue(rt, to, consumer);
    assert!(rt; (emptied.put, emptied.taken, emptied.left.len()) == (4, 4, 0));
    assert!(rt; (moved.put, moved.taken, moved.left.as_slice()) == (4, 3, [Some(10)].as_slice()));
}

/// Two lines are put, three notes chained, and the queues closed with the ends that are returned.
#[test]
fn moved_lines(rt: HostRuntime) {
    let (pair, (mut producer, mut consumer), mover) = new_mover(&rt, rt.alloc());
    let first = pair.from.try_put(&mut producer, &[104, 105, 10]).is_ok();
    let second = pair.from.try_put(&mut producer, &[10]).is_ok();
    assert!(rt; first && second);
    let Mover {
        source,
        target,
        held: _,
        notes,
    } = move_thrice(&rt, rt.alloc(), &pair, mover);
    assert!(rt; notes == 3);
    pair.from.join(&mut producer, source);
    pair.to.join(&mut consumer, target);
    let mut line = ArrayVec::new();
    let taken = pair.to.try_take_line(&mut consumer, &mut line);
    assert!(rt; (taken, line.as_slice()) == (Ok(3), [104, 105, 10].as_slice()));
    close_both(&rt, pair, producer, consumer);
}
