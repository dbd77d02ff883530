//! Queues for the tests, with ends of each, and a tty that leaves its chain.
ghost use Rattle.std.specs.Prelude.{◌≡◌, ◌+◌, false, length, IfOk};
ghost use Rattle.claim_queue.specs.Handles as claims;
ghost use Rattle.proc_chain.specs.Handles.{turn_of, IsEndOf};
ghost use Rattle.quajects.specs.Ports.{IsEndAt};
ghost use Rattle.quajects.specs.Worlds.{AreFront, IsFresh};

use crate::fixtures::{Two, queue_with_two};
use arrayvec::ArrayVec;
use claim_queue::{ClaimQueue, QueueEnd};
use event_theory::OutOfMemory;
use proc_chain::{ChainEnd, ProcChain};
use quajects::{AnyQuaject, Queues, RawTty};
use std::alloc::Global;
use std::panic::Expect;
use std::process::Abort;

pub(crate) type Chain = ProcChain<AnyQuaject>;

/// This many small and large queues, each empty at 0, and the only end of each.
fn fresh_queues(
    alloc: Global,
    small: usize,
    large: usize,
) -> Result<(Queues, Vec<QueueEnd<64>>, Vec<QueueEnd<256>>), OutOfMemory>
    ensures small { IfOk result (λ r. (length r.1.items ≡ small) × AreFront r.0.small.items r.1.items) }
    ensures large { IfOk result (λ r. (length r.2.items ≡ large) × AreFront r.0.large.items r.2.items) }
{
    Queues::new(alloc, small, large)
}

/// The only end of a queue, and another end of it.
fn two_of<const N: usize>(queue: &ClaimQueue<N>, end: QueueEnd<N>) -> Two<N>
    requires { IsFresh queue.now end }
    ensures { claims.IsEndOf queue.now result.mine × claims.IsEndOf queue.now result.other }
{
    let mut mine = end;
    let other = queue.split(&mut mine);
    Two { mine, other }
}

/// The last of these ends, which is taken off, and another end of its queue.
fn last_two<R: Abort, const N: usize>(
    rt: &R,
    queues: &[ClaimQueue<N>],
    ends: &mut Vec<QueueEnd<N>>,
) -> Two<N>
    requires front { AreFront queues.now ends.old.items }
    ensures front { AreFront queues.now ends.new.items }
    ensures one_less { length ends.old.items ≡ length ends.new.items + 1 }
    ensures at { IsEndAt queues.now (length ends.new.items) result.mine
        × IsEndAt queues.now (length ends.new.items) result.other }
{
    let Some(end) = ends.pop() else {
        panic!(rt; "no end")
    };
    two_of(&queues[ends.len()], end)
}

/// Two small queues, and two ends of each.
#[derive(Drop)]
pub(crate) struct Pair {
    pub(crate) queues: Queues,
    pub(crate) ends: (Two<64>, Two<64>),
    ghost first: { IsEndAt queues.small.items 0 ends.0.mine × IsEndAt queues.small.items 0 ends.0.other },
    ghost second: { IsEndAt queues.small.items 1 ends.1.mine × IsEndAt queues.small.items 1 ends.1.other },
}

pub(crate) fn two_small<R: Abort>(rt: &R, alloc: Global) -> Pair {
    let Ok((queues, mut small, _large)) = fresh_queues(alloc, 2, 0) else {
        panic!(rt; "memory")
    };
    let second = last_two(rt, queues.small.as_slice(), &mut small);
    let first = last_two(rt, queues.small.as_slice(), &mut small);
    Pair {
        queues,
        ends: (first, second),
    }
}

/// Three small queues, and two ends of each.
#[derive(Drop)]
pub(crate) struct Three {
    pub(crate) queues: Queues,
    pub(crate) ends: (Two<64>, Two<64>, Two<64>),
    ghost first: { IsEndAt queues.small.items 0 ends.0.mine × IsEndAt queues.small.items 0 ends.0.other },
    ghost second: { IsEndAt queues.small.items 1 ends.1.mine × IsEndAt queues.small.items 1 ends.1.other },
    ghost third: { IsEndAt queues.small.items 2 ends.2.mine × IsEndAt queues.small.items 2 ends.2.other },
}

pub(crate) fn three_small<R: Abort>(rt: &R, alloc: Global) -> Three {
    let (first, a) = queue_with_two(rt, alloc, 0);
    let (second, b) = queue_with_two(rt, alloc, 0);
    let (third, c) = queue_with_two(rt, alloc, 0);
    let mut small = Vec::new(alloc);
    small.push(first).expect(rt, "memory");
    small.push(second).expect(rt, "memory");
    small.push(third).expect(rt, "memory");
    let large = Vec::new(alloc);
    Three {
        queues: Queues { small, large },
        ends: (a, b, c),
    }
}

/// A raw queue, a line queue and a screen queue, and two ends of each.
#[derive(Drop)]
pub(crate) struct Typing {
    pub(crate) queues: Queues,
    pub(crate) raw: Two<64>,
    pub(crate) line: Two<256>,
    pub(crate) screen: Two<256>,
    ghost raw_at: { IsEndAt queues.small.items 0 raw.mine × IsEndAt queues.small.items 0 raw.other },
    ghost line_at: { IsEndAt queues.large.items 0 line.mine × IsEndAt queues.large.items 0 line.other },
    ghost screen_at: { IsEndAt queues.large.items 1 screen.mine × IsEndAt queues.large.items 1 screen.other },
}

pub(crate) fn tty_queues<R: Abort>(rt: &R, alloc: Global) -> Typing {
    let Ok((queues, mut small, mut large)) = fresh_queues(alloc, 1, 2) else {
        panic!(rt; "memory")
    };
    let raw = last_two(rt, queues.small.as_slice(), &mut small);
    let screen = last_two(rt, queues.large.as_slice(), &mut large);
    let line = last_two(rt, queues.large.as_slice(), &mut large);
    Typing {
        queues,
        raw,
        line,
        screen,
    }
}

/// Whether `try_put` puts the items in the queue with this index.
pub(crate) fn puts_at<const N: usize>(
    queues: &[ClaimQueue<N>],
    index: usize,
    end: &mut QueueEnd<N>,
    items: &[u64],
) -> bool
    requires { IsEndAt queues.now index end.old }
    ensures { IsEndAt queues.now index end.new }
{
    queues[index].try_put(end, items).is_ok()
}

/// Whether `try_take_line` takes these items from the queue with this index.
pub(crate) fn takes_at<const N: usize>(
    queues: &[ClaimQueue<N>],
    index: usize,
    end: &mut QueueEnd<N>,
    line: &mut ArrayVec<u64, N>,
    items: &[u64],
) -> bool
    requires { IsEndAt queues.now index end.old }
    ensures { IsEndAt queues.now index end.new }
{
    line.clear();
    queues[index].try_take_line(end, line).is_ok() && line.as_slice() == items
}

/// Joins the end that the tty has of the chain.
pub(crate) fn join_tty(chain: &Chain, end: &mut ChainEnd<AnyQuaject>, tty: RawTty)
    requires { IsEndOf chain.now end.old × (turn_of end.old ≡ false) × IsEndOf chain.now tty.chain }
    ensures { IsEndOf chain.now end.new × (turn_of end.new ≡ false) }
{
    let (_raw, mine) = tty.into_parts();
    chain.join(end, mine);
}
