//! The measured loops over chains: notes are chained, and run by the end that has the Turn.
ghost use Rattle.std.specs.Prelude.{◌≡◌, false, IfOk};
ghost use Rattle.std.specs.Thread.{IsSync};
ghost use Rattle.proc_chain.specs.Handles.{turn_of, world_of, IsDivisible, IsEndOf};

use crate::fault::Fault;
use crate::measure::{Measured, Watch};
use crate::notes::{Runner, note_of};
use crossbeam_utils::Backoff;
use proc_chain::{ChainEnd, ChainRefusal, Chained, ProcChain, Quaject, Ran};
use std::alloc::Global;
use std::rt::Clock;
use std::sync::Wait;
use std::thread;
use std::thread::Threads;

type Chain = ProcChain<Runner>;

type End = ChainEnd<Runner>;

/// The world of the measured quaject, which is empty.
#[derive(Drop)]
pub struct Nothing;

impl Quaject for Runner {
    type World = Nothing;

    ghost made_by = { λ first runner notes. Unit {0} };

    ghost fits = { λ world runner. Unit {0} };

    fn run(&mut self, _world: &Nothing, note: u16) -> Ran {
        self.take(note);
        Ran::Worked
    }
}

// Chains the note, with retries after Lost and Full, and serves if it got a Turn.
fn chain_one<R: Wait>(rt: &R, chain: &Chain, end: &mut End, world: &Nothing, note: u16)
    requires { IsEndOf chain.now end.old × (turn_of end.old ≡ false) × (world_of chain.now ≡ world.now) }
    ensures { IsEndOf chain.now end.new × (turn_of end.new ≡ false) }
{
    let backoff = Backoff::new();
    for _ in rt.forever() {
        match chain.try_chain(end, note) {
            Ok(Chained::Run(turn)) => {
                let _ran = chain.serve_all(rt, end, world, turn);
                return;
            }
            Ok(Chained::Left) => return,
            Err(ChainRefusal::Spent) => return,
            Err(_) => backoff.snooze(),
        }
    }
}

fn chain_all<R: Wait>(rt: &R, chain: &Chain, end: End, world: &Nothing, notes: u64) -> End
    requires { IsEndOf chain.now end × (turn_of end ≡ false) × (world_of chain.now ≡ world.now) }
    ensures { IsEndOf chain.now result × (turn_of result ≡ false) }
{
    let mut end = end;
    for number in 0..notes {
        chain_one(rt, chain, &mut end, world, note_of(number));
    }
    end
}

// The sum of the notes that were run, by a chain with no other end.
fn sum_run(chain: Chain, end: End) -> Result<u64, Fault>
    requires { IsEndOf chain end × (turn_of end ≡ false) }
{
    match chain.close(end) {
        Ok(closed) => Ok(closed.quaject.sum()),
        Err(_open) => Err(Fault::Miscount),
    }
}

fn new_chain(alloc: Global, world: &Nothing) -> Result<(Chain, End), Fault>
    ensures { IfOk result (λ made. IsEndOf made.0 made.1 × (turn_of made.1 ≡ false)
        × (world_of made.0 ≡ world.now) × IsDivisible made.1) }
{
    match Chain::new(alloc, 0, Runner::new(), world) {
        Ok(made) => Ok(made),
        Err(_refused) => Err(Fault::Memory),
    }
}

/// Chains and runs that many notes at one end.
pub fn alone<R: Wait + Clock>(rt: &R, alloc: Global, notes: u64) -> Result<Measured, Fault> {
    let world = Nothing;
    let (chain, end) = new_chain(alloc, &world)?;
    let watch = Watch::start(rt)?;
    let end = chain_all(rt, &chain, end, &world, notes);
    let measured = watch.stop(rt, 0)?;
    let sum = sum_run(chain, end)?;
    Ok(Measured {
        time: measured.time,
        sum,
    })
}

fn chain_two<R: Threads + Wait + Sync>(
    rt: &R,
    chain: &Chain,
    world: &Nothing,
    ends: (End, End),
    notes: u64,
) -> (End, End)
    requires one { IsEndOf chain.now ends.0 × (turn_of ends.0 ≡ false) }
    requires other { IsEndOf chain.now ends.1 × (turn_of ends.1 ≡ false) }
    requires world { world_of chain.now ≡ world.now }
    ensures one { IsEndOf chain.now result.0 × (turn_of result.0 ≡ false) }
    ensures other { IsEndOf chain.now result.1 × (turn_of result.1 ≡ false) }
{
    let (one, other) = ends;
    thread::join(
        rt,
        move || -> End
            requires { IsSync R.row × IsEndOf chain.now one × (turn_of one ≡ false) × (world_of chain.now ≡ world.now) }
            ensures { IsEndOf chain.entry.now result × (turn_of result ≡ false) }
        { chain_all(rt, chain, one, world, notes) },
        move || -> End
            requires { IsSync R.row × IsEndOf chain.now other × (turn_of other ≡ false)
                × (world_of chain.now ≡ world.now) }
            ensures { IsEndOf chain.entry.now result × (turn_of result ≡ false) }
        { chain_all(rt, chain, other, world, notes) },
    )
}

/// Chains that many notes in two threads, each a half of them. The threads also run the notes.
pub fn pair<R: Threads + Wait + Clock + Sync>(
    rt: &R,
    alloc: Global,
    notes: u64,
) -> Result<Measured, Fault> {
    let world = Nothing;
    let (chain, mut one) = new_chain(alloc, &world)?;
    let other = chain.split(&mut one);
    let watch = Watch::start(rt)?;
    let (one, other) = chain_two(rt, &chain, &world, (one, other), notes / 2);
    let measured = watch.stop(rt, 0)?;
    let mut one = one;
    chain.join(&mut one, other);
    let sum = sum_run(chain, one)?;
    Ok(Measured {
        time: measured.time,
        sum,
    })
}
