ghost use Rattle.std.specs.Prelude.{◌≡◌, false};
ghost use Rattle.std.specs.Thread.{IsSync};
ghost use Rattle.proc_chain.specs.Handles.{turn_of, world_of, IsEndOf};

use crate::fixtures::{chain_one, close_chain};
use proc_chain::*;
use std::sync::Wait;
use std::test::*;
use std::thread;
use std::thread::Threads;

type Chain = ProcChain<Tally>;

type End = ChainEnd<Tally>;

/// Counts the notes of four producers, the note 1,000 p + n being the one with the number n of the producer p.
#[derive(Drop)]
struct Tally {
    next: [u16; 4],
    count: u64,
    in_order: bool,
}

impl Quaject for Tally {
    type World = u16;

    ghost made_by = { λ first tally notes. Unit {0} };

    ghost fits = { λ world tally. Unit {0} };

    fn run(&mut self, _world: &u16, note: u16) -> Ran {
        self.count = self.count.wrapping_add(1);
        match self.next.get_mut((note / 1_000) as usize) {
            Some(next) if *next == note % 1_000 => {
                *next = (*next).wrapping_add(1);
                Ran::Worked
            }
            _ => {
                self.in_order = false;
                Ran::Nothing
            }
        }
    }
}

fn work<R: Wait>(rt: &R, chain: &Chain, end: End, world: &u16, producer: u16) -> End
    requires { IsEndOf chain.now end × (turn_of end ≡ false) × (world_of chain.now ≡ world.now) }
    ensures { IsEndOf chain.now result × (turn_of result ≡ false) }
{
    let mut end = end;
    for number in 0..1_000u16 {
        let note = producer.wrapping_mul(1_000).wrapping_add(number);
        chain_one(rt, chain, &mut end, world, note);
    }
    end
}

fn work_two<R: Threads + Wait + Sync>(
    rt: &R,
    chain: &Chain,
    world: &u16,
    ends: (End, End),
    producer: u16,
) -> (End, End)
    requires one { IsEndOf chain.now ends.0 × (turn_of ends.0 ≡ false) }
    requires other { IsEndOf chain.now ends.1 × (turn_of ends.1 ≡ false) }
    requires world { world_of chain.now ≡ world.now }
    ensures one { IsEndOf chain.now result.0 × (turn_of result.0 ≡ false) }
    ensures other { IsEndOf chain.now result.1 × (turn_of result.1 ≡ false) }
{
    let (one, other) = ends;
    let next = producer.wrapping_add(1);
    thread::join(
        rt,
        move || -> End
            requires { IsSync R.row × IsEndOf chain.now one × (turn_of one ≡ false) × (world_of chain.now ≡ world.now) }
            ensures { IsEndOf chain.entry.now result × (turn_of result ≡ false) }
        { work(rt, chain, one, world, producer) },
        move || -> End
            requires { IsSync R.row × IsEndOf chain.now other × (turn_of other ≡ false)
                × (world_of chain.now ≡ world.now) }
            ensures { IsEndOf chain.entry.now result × (turn_of result ≡ false) }
        { work(rt, chain, other, world, next) },
    )
}

fn work_four<R: Threads + Wait + Sync>(
    rt: &R,
    chain: &Chain,
    world: &u16,
    one: (End, End),
    other: (End, End),
) -> ((End, End), (End, End))
    requires one { IsEndOf chain.now one.0 × IsEndOf chain.now one.1 × (turn_of one.0 ≡ false)
        × (turn_of one.1 ≡ false) }
    requires other { IsEndOf chain.now other.0 × IsEndOf chain.now other.1 × (turn_of other.0 ≡ false)
        × (turn_of other.1 ≡ false) }
    requires world { world_of chain.now ≡ world.now }
    ensures one { IsEndOf chain.now result.0.0 × IsEndOf chain.now result.0.1 × (turn_of result.0.0 ≡ false)
        × (turn_of result.0.1 ≡ false) }
    ensures other { IsEndOf chain.now result.1.0 × IsEndOf chain.now result.1.1 × (turn_of result.1.0 ≡ false)
        × (turn_of result.1.1 ≡ false) }
{
    thread::join(
        rt,
        move || -> (End, End)
            requires { IsSync R.row × IsEndOf chain.now one.0 × IsEndOf chain.now one.1 × (turn_of one.0 ≡ false)
                × (turn_of one.1 ≡ false) × (world_of chain.now ≡ world.now) }
            ensures { IsEndOf chain.entry.now result.0 × IsEndOf chain.entry.now result.1
                × (turn_of result.0 ≡ false) × (turn_of result.1 ≡ false) }
        { work_two(rt, chain, world, one, 0) },
        move || -> (End, End)
            requires { IsSync R.row × IsEndOf chain.now other.0 × IsEndOf chain.now other.1
                × (turn_of other.0 ≡ false) × (turn_of other.1 ≡ false) × (world_of chain.now ≡ world.now) }
            ensures { IsEndOf chain.entry.now result.0 × IsEndOf chain.entry.now result.1
                × (turn_of result.0 ≡ false) × (turn_of result.1 ≡ false) }
        { work_two(rt, chain, world, other, 2) },
    )
}

/// Whether all notes came, and those of each producer in order.
fn all_came(tally: &Tally) -> bool {
    tally.in_order && tally.count == 4_000 && tally.next == [1_000; 4]
}

#[test]
fn four_threads(rt: HostRuntime) {
    let world = 3u16;
    let tally = Tally {
        next: [0; 4],
        count: 0,
        in_order: true,
    };
    let Ok((chain, mut a)) = Chain::new(rt.alloc(), 0, tally, &world) else {
        panic!(rt; "no memory")
    };
    let b = chain.split(&mut a);
    let c = chain.split(&mut a);
    let d = chain.split(&mut a);
    let ((a, b), (c, d)) = work_four(&rt, &chain, &world, (a, b), (c, d));
    let mut a = a;
    chain.join(&mut a, b);
    chain.join(&mut a, c);
    chain.join(&mut a, d);
    let closed = close_chain(&rt, chain, a);
    assert!(rt; (closed.put, closed.taken, closed.left.len()) == (4_000, 4_000, 0));
    assert!(rt; all_came(&closed.quaject));
}
