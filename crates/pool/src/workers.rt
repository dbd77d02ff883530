//! Two workers that share a pool, each in a thread of its own.
ghost use Rattle.std.specs.Prelude.{◌≡◌, IfOk, length};
ghost use Rattle.std.specs.Thread.{IsSync};
ghost use Rattle.batch_queue.specs.Lefts.{items_left};
ghost use Rattle.pool.specs.Buffers.{AreAll};
ghost use Rattle.pool.specs.Handles.{view_of, room_of, IsHolderOf, Holds, HoldsSame, HoldsLess, SameShare};
ghost use Rattle.pool.specs.Turns.{GaveBack, Turned, Works};

use crate::pool::{Holder, Pool};
use batch_queue::LeftItems;
use event_theory::OutOfMemory;
use std::alloc::Global;
use std::sync::Wait;
use std::thread;
use std::thread::Threads;

/// The number of buffers of the workers' pool.
const BUFFERS: usize = 8;

/// The number of turns of a worker.
const TURNS: usize = 100;

/// The most buffers that a worker acquires in a turn.
const MOST: usize = 2;

/// Releases buffers, as one batch. Retries while there is no room yet, and while another holder is first.
pub fn give_back<R: Wait>(rt: &R, pool: &Pool, holder: &mut Holder, buffers: &[u64])
    requires pool { IsHolderOf pool.now holder.old }
    requires holds { Holds holder.old buffers.now }
    ensures pool { IsHolderOf pool.now holder.new }
    ensures effect { HoldsLess buffers.now holder.old holder.new }
    ensures share { SameShare holder.old holder.new }
    ensures trace { GaveBack (room_of pool.now) buffers.now (view_of holder.old) (view_of holder.new) }
{
    for _ in rt.forever() {
        match pool.release(holder, buffers) {
            Ok(()) => return,
            Err(_) => thread::yield_now(),
        }
    }
}

/// One turn: acquires the free buffers that fit the slice, and releases them.
fn turn<R: Wait>(rt: &R, pool: &Pool, holder: &mut Holder, buffers: &mut [u64])
    requires { IsHolderOf pool.now holder.old }
    ensures pool { IsHolderOf pool.now holder.new }
    ensures effect { HoldsSame holder.old holder.new }
    ensures share { SameShare holder.old holder.new }
    ensures trace { Turned (room_of pool.now) (length buffers.old) (view_of holder.old) (view_of holder.new) }
{
    if let Ok(count) = pool.acquire(holder, buffers) {
        give_back(rt, pool, holder, &buffers[..count]);
    }
}

/// The turns of a worker.
fn work<R: Wait>(rt: &R, pool: &Pool, holder: Holder) -> Holder
    requires { IsHolderOf pool.now holder }
    ensures { Works TURNS MOST pool.now holder result }
{
    let mut holder = holder;
    for done in 0..TURNS {
        turn(rt, pool, &mut holder, &mut [0; MOST]);
    }
    holder
}

/// Two workers acquire and release buffers of one pool. When both are done, all buffers are left in the pool, each
/// once.
pub fn run_workers<R: Threads + Wait + Sync>(
    rt: &R,
    alloc: Global,
) -> Result<LeftItems, OutOfMemory>
    ensures { IfOk result (λ left. AreAll 8 (items_left left)) }
{
    let (pool, mut one) = Pool::new(alloc, BUFFERS)?;
    turn(rt, &pool, &mut one, &mut [0; BUFFERS]);
    let other = pool.split(&mut one);
    let shared = &pool;
    let back = thread::join(
        rt,
        move || -> Holder
            requires { IsSync R.row × IsHolderOf shared.now one }
            ensures { Works TURNS MOST shared.entry.now one result }
        { work(rt, shared, one) },
        move || -> Holder
            requires { IsSync R.row × IsHolderOf shared.now other }
            ensures { Works TURNS MOST shared.entry.now other result }
        { work(rt, shared, other) },
    );
    let (mut one, other) = back;
    pool.join(&mut one, other);
    match pool.close(one) {
        Ok(left) => Ok(left),
        Err(_) => unreachable!(),
    }
}
