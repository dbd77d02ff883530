ghost use Rattle.std.specs.Prelude.{◌≡◌, length};
ghost use Rattle.std.specs.Thread.{IsSync};
ghost use Rattle.proc_chain.specs.Handles.{world_of, IsEndOf};
ghost use Rattle.claim_queue.specs.Handles.{view_of};
ghost use Rattle.quajects.specs.Ports.{IsEndAt, IsUnused};
ghost use Rattle.quajects.specs.Raws.{end_of};

use crate::fixtures::{Two, queue_with_two};
use crate::movers::fixtures::{Chain, join_tty};
use arrayvec::ArrayVec;
use claim_queue::{ClaimQueue, QueueEnd};
use quajects::*;
use std::alloc::Global;
use std::panic::Expect;
use std::process::Abort;
use std::sync::Wait;
use std::test::*;
use std::thread;
use std::thread::Threads;

/// A raw queue with its taker, another end and four devices, a line queue with a reader, and a screen queue.
#[derive(Drop)]
struct Devices {
    queues: Queues,
    raw: Two<64>,
    devices: (Two<64>, Two<64>),
    line: Two<256>,
    screen: QueueEnd<256>,
    ghost raw_at: { IsEndAt queues.small.items 0 raw.mine × IsEndAt queues.small.items 0 raw.other },
    ghost first_at: { IsEndAt queues.small.items 0 devices.0.mine × IsEndAt queues.small.items 0 devices.0.other },
    ghost second_at: { IsEndAt queues.small.items 0 devices.1.mine × IsEndAt queues.small.items 0 devices.1.other },
    ghost line_at: { IsEndAt queues.large.items 0 line.mine × IsEndAt queues.large.items 0 line.other },
    ghost screen_at: { IsEndAt queues.large.items 1 screen × IsUnused (view_of screen) },
}

fn four_devices<R: Abort>(rt: &R, alloc: Global) -> Devices {
    let (queue, mut taker) = ClaimQueue::new(alloc, 0).expect(rt, "memory");
    let mut rest = queue.split(&mut taker);
    let mut first = queue.split(&mut rest);
    let mut second = queue.split(&mut first);
    let mut third = queue.split(&mut second);
    let fourth = queue.split(&mut third);
    let (lines, line) = queue_with_two(rt, alloc, 0);
    let (screens, screen) = ClaimQueue::new(alloc, 0).expect(rt, "memory");
    let mut small = Vec::new(alloc);
    small.push(queue).expect(rt, "memory");
    let mut large = Vec::new(alloc);
    large.push(lines).expect(rt, "memory");
    large.push(screens).expect(rt, "memory");
    Devices {
        queues: Queues { small, large },
        raw: Two {
            mine: taker,
            other: rest,
        },
        devices: (
            Two {
                mine: first,
                other: second,
            },
            Two {
                mine: third,
                other: fourth,
            },
        ),
        line,
        screen,
    }
}

/// Types 32 bytes, from this one on.
fn type_bytes<R: Wait>(rt: &R, queues: &Queues, chain: &Chain, tty: RawTty, first: u8) -> RawTty
    requires fits { IsEndAt queues.now.small.items tty.index (end_of tty) }
    requires chain { IsEndOf chain.now tty.chain }
    requires world { world_of chain.now ≡ queues.now }
    ensures fits { IsEndAt queues.now.small.items result.index (end_of result) }
    ensures chain { IsEndOf chain.now result.chain }
{
    let mut tty = tty;
    for n in 0..32u8 {
        let _put = tty.interrupt(rt, queues, chain, first.wrapping_add(n));
    }
    tty
}

fn type_two<R: Threads + Wait + Sync>(
    rt: &R,
    queues: &Queues,
    chain: &Chain,
    ttys: (RawTty, RawTty),
    first: u8,
) -> (RawTty, RawTty)
    requires one { IsEndAt queues.now.small.items ttys.0.index (end_of ttys.0) × IsEndOf chain.now ttys.0.chain }
    requires other { IsEndAt queues.now.small.items ttys.1.index (end_of ttys.1) × IsEndOf chain.now ttys.1.chain }
    requires world { world_of chain.now ≡ queues.now }
    ensures one { IsEndAt queues.now.small.items result.0.index (end_of result.0) × IsEndOf chain.now result.0.chain }
    ensures other { IsEndAt queues.now.small.items result.1.index (end_of result.1)
        × IsEndOf chain.now result.1.chain }
{
    let (one, other) = ttys;
    let next = first.wrapping_add(32);
    thread::join(
        rt,
        move || -> RawTty
            requires { IsSync R.row × IsEndAt queues.now.small.items one.index (end_of one)
                × IsEndOf chain.now one.chain × (world_of chain.now ≡ queues.now) }
            ensures { IsEndAt queues.entry.now.small.items result.index (end_of result)
                × IsEndOf chain.entry.now result.chain }
        { type_bytes(rt, queues, chain, one, first) },
        move || -> RawTty
            requires { IsSync R.row × IsEndAt queues.now.small.items other.index (end_of other)
                × IsEndOf chain.now other.chain × (world_of chain.now ≡ queues.now) }
            ensures { IsEndAt queues.entry.now.small.items result.index (end_of result)
                × IsEndOf chain.entry.now result.chain }
        { type_bytes(rt, queues, chain, other, next) },
    )
}

type Four = ((RawTty, RawTty), (RawTty, RawTty));

fn type_four<R: Threads + Wait + Sync>(
    rt: &R,
    queues: &Queues,
    chain: &Chain,
    one: (RawTty, RawTty),
    other: (RawTty, RawTty),
) -> Four
    requires a { IsEndAt queues.now.small.items one.0.index (end_of one.0) × IsEndOf chain.now one.0.chain }
    requires b { IsEndAt queues.now.small.items one.1.index (end_of one.1) × IsEndOf chain.now one.1.chain }
    requires c { IsEndAt queues.now.small.items other.0.index (end_of other.0) × IsEndOf chain.now other.0.chain }
    requires d { IsEndAt queues.now.small.items other.1.index (end_of other.1) × IsEndOf chain.now other.1.chain }
    requires world { world_of chain.now ≡ queues.now }
    ensures a { IsEndAt queues.now.small.items result.0.0.index (end_of result.0.0)
        × IsEndOf chain.now result.0.0.chain }
    ensures b { IsEndAt queues.now.small.items result.0.1.index (end_of result.0.1)
        × IsEndOf chain.now result.0.1.chain }
    ensures c { IsEndAt queues.now.small.items result.1.0.index (end_of result.1.0)
        × IsEndOf chain.now result.1.0.chain }
    ensures d { IsEndAt queues.now.small.items result.1.1.index (end_of result.1.1)
        × IsEndOf chain.now result.1.1.chain }
{
    thread::join(
        rt,
        move || -> (RawTty, RawTty)
            requires { IsSync R.row × IsEndAt queues.now.small.items one.0.index (end_of one.0)
                × IsEndOf chain.now one.0.chain × IsEndAt queues.now.small.items one.1.index (end_of one.1)
                × IsEndOf chain.now one.1.chain × (world_of chain.now ≡ queues.now) }
            ensures { IsEndAt queues.entry.now.small.items result.0.index (end_of result.0)
                × IsEndOf chain.entry.now result.0.chain
                × IsEndAt queues.entry.now.small.items result.1.index (end_of result.1)
                × IsEndOf chain.entry.now result.1.chain }
        { type_two(rt, queues, chain, one, 128) },
        move || -> (RawTty, RawTty)
            requires { IsSync R.row × IsEndAt queues.now.small.items other.0.index (end_of other.0)
                × IsEndOf chain.now other.0.chain × IsEndAt queues.now.small.items other.1.index (end_of other.1)
                × IsEndOf chain.now other.1.chain × (world_of chain.now ≡ queues.now) }
            ensures { IsEndAt queues.entry.now.small.items result.0.index (end_of result.0)
                × IsEndOf chain.entry.now result.0.chain
                × IsEndAt queues.entry.now.small.items result.1.index (end_of result.1)
                × IsEndOf chain.entry.now result.1.chain }
        { type_two(rt, queues, chain, other, 192) },
    )
}

/// The bytes heard so far: for each thread the lowest number that its next byte may have, how many bytes were heard,
/// and whether each came in order.
#[derive(Drop)]
struct Hearing {
    next: [u64; 4],
    count: u64,
    in_order: bool,
}

impl Hearing {
    /// A byte is heard: the n-th of the thread t is 128 + 32 t + n.
    fn hear(&mut self, item: u64) {
        if item < 128 {
            return;
        }
        self.count = self.count.wrapping_add(1);
        let number = item % 32;
        match self.next.get_mut(((item - 128) / 32) as usize) {
            Some(next) if *next <= number => *next = number + 1,
            _ => self.in_order = false,
        }
    }
}

/// Hears what the line queue has: three lines at the most.
fn hear_lines(queues: &Queues, reader: &mut QueueEnd<256>, hearing: &mut Hearing)
    requires { IsEndAt queues.now.large.items 0 reader.old }
{
    let mut heard = ArrayVec::new();
    for _ in 0..3u8 {
        heard.clear();
        if queues.large[0].try_take_line(reader, &mut heard).is_ok() {
            for item in heard.as_slice() {
                hearing.hear(*item);
            }
        }
    }
}

/// Hears what is left in the raw queue.
fn hear_rest(queues: &Queues, device: &mut QueueEnd<64>, hearing: &mut Hearing)
    requires { IsEndAt queues.now.small.items 0 device.old }
{
    for _ in 0..64u8 {
        if let Ok(item) = queues.small[0].try_take(device) {
            hearing.hear(item);
        }
    }
}

/// Hears all bytes, in the line queue and in the raw queue.
fn heard(queues: &Queues, reader: QueueEnd<256>, rest: QueueEnd<64>) -> Hearing
    requires { IsEndAt queues.now.large.items 0 reader × IsEndAt queues.now.small.items 0 rest }
{
    let (mut reader, mut rest) = (reader, rest);
    let mut hearing = Hearing {
        next: [0; 4],
        count: 0,
        in_order: true,
    };
    hear_lines(queues, &mut reader, &mut hearing);
    hear_rest(queues, &mut rest, &mut hearing);
    hearing
}

/// How many bytes were refused at the two ttys.
fn overruns(one: &RawTty, other: &RawTty) -> u64 {
    one.overruns().wrapping_add(other.overruns())
}

#[test]
#[tactic(auto, using(quajects::proofs::Making::made_of_itself))]
fn four_threads(rt: HostRuntime) {
    let Devices {
        queues,
        raw,
        devices,
        line,
        screen,
    } = four_devices(&rt, rt.alloc());
    let (Two { mine: a, other: b }, Two { mine: c, other: d }) = devices;
    let Two {
        mine: raw,
        other: rest,
    } = raw;
    let Two {
        mine: line,
        other: reader,
    } = line;
    let cooked = CookedTty::new(0, raw, 0, line, 1, screen);
    let Ok((chain, mut end)) = Chain::new(rt.alloc(), 0, AnyQuaject::Cooked(cooked), &queues) else {
        panic!(rt; "no memory")
    };
    let first = RawTty::new(0, a, chain.split(&mut end));
    let second = RawTty::new(0, b, chain.split(&mut end));
    let third = RawTty::new(0, c, chain.split(&mut end));
    let fourth = RawTty::new(0, d, chain.split(&mut end));
    let ((first, second), (third, fourth)) = type_four(
        &rt,
        &queues,
        &chain,
        (first, second),
        (third, fourth),
    );
    let refused = overruns(&first, &second).wrapping_add(overruns(&third, &fourth));
    let hearing = heard(&queues, reader, rest);
    assert!(rt; hearing.in_order);
    assert!(rt; hearing.count.wrapping_add(refused) == 128);
    join_tty(&chain, &mut end, first);
    join_tty(&chain, &mut end, second);
    join_tty(&chain, &mut end, third);
    join_tty(&chain, &mut end, fourth);
    let Ok(home) = retire(chain, end) else {
        panic!(rt; "close")
    };
    let (_ports, came) = home.take_apart();
    assert!(rt; (came.left(), came.held()) == (0, 0));
    assert!(rt; came.notes() == came.chained() as u64);
}
