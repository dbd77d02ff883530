//! Elements, alarms, jobs and a device on real objects and threads.
ghost use Rattle.std.specs.Prelude.{◌≡◌, ◌+◌, ◌%◌, ◌^◌, false, vec_len};
ghost use Rattle.std.specs.Thread.{IsSync};
ghost use Rattle.proc_chain.specs.Handles.{turn_of, world_of, IsEndOf};
ghost use Rattle.quajects.specs.Ports.{IsEndAt, IsUnused};
ghost use Rattle.claim_queue.specs.Handles.{view_of};
ghost use Rattle.quajects.specs.Raws.{end_of};
ghost use Rattle.thread_table.specs.Handles.{IsHandOf};
ghost use Rattle.spsc_line.specs.Lines.{SameIn, SameOut};

use arrayvec::ArrayVec;
use boot_threads::*;
use claim_queue::{ClaimQueue, QueueEnd, TakeRefusal};
use event_theory::{Alarm, Element, Signal};
use meters::Meters;
use proc_chain::{ChainEnd, ProcChain};
use quajects::{AnyQuaject, CookedTty, Home, Queues, RawTty, retire};
use spsc_line::{LineIn, LineOut, finish, line};
use std::alloc::Global;
use std::panic::Expect;
use std::process::Abort;
use std::sync::{Barrier, Wait};
use std::thread;
use std::thread::Threads;
use thread_table::{Hand, NextRefusal, ThreadTable};

type Chain = ProcChain<AnyQuaject>;

/// An alarm with this tick, for this element.
fn alarm_at(due: u32, element: u8) -> Alarm {
    Alarm {
        due,
        element: Element::new(element).unwrap_or_default(),
        signal: Signal::default(),
    }
}

/// The alarms of a plan are pending once all are set: the due ones fire, in the order in which they were set.
#[test]
fn alarms_stand(rt: HostRuntime) {
    let (meters, seat) = Meters::new(rt.alloc(), 0).expect(&rt, "memory");
    let alarms = [alarm_at(0, 3), alarm_at(2, 4), alarm_at(0, 5)];
    let mut seat = set_alarms(&rt, &meters, seat, &alarms);
    let fired = meters.due(&mut seat);
    assert!(rt; fired.as_slice() == [alarm_at(0, 3), alarm_at(0, 5)].as_slice());
    let Ok(metered) = meters.close(seat) else {
        panic!(rt; "close")
    };
    assert!(rt; metered.alarms.as_slice() == [alarm_at(2, 4)].as_slice());
}

/// Takes all free elements from this number on, and returns whether they came in their order, and no other.
fn are_free_from(threads: &ThreadTable, hand: &mut Hand, first: u8) -> bool
    requires { IsHandOf threads.now hand.old }
{
    let mut in_order = true;
    for number in first..64 {
        in_order &= threads.try_free(hand).map(Element::number) == Ok(number);
    }
    in_order && threads.try_free(hand).is_err()
}

/// Takes so many ready elements, and returns whether they are the first ones, in their order.
fn are_ready_to(threads: &ThreadTable, hand: &mut Hand, end: u8) -> bool
    requires { IsHandOf threads.now hand.old }
    ensures { IsHandOf threads.now hand.new }
{
    let mut in_order = true;
    for number in 0..end {
        in_order &= threads.try_next(hand).map(Element::number) == Ok(number);
    }
    in_order
}

/// The elements of three threads are ready in their order, and the other 61 are free, in theirs.
#[test]
fn three_threads_are_ready(rt: HostRuntime) {
    let (threads, hand) = ThreadTable::new(rt.alloc()).expect(&rt, "memory");
    let mut hand = prepare(&rt, &threads, hand, 3);
    assert!(rt; are_ready_to(&threads, &mut hand, 3));
    assert!(rt; threads.try_next(&mut hand) == Err(NextRefusal::NoneReady));
    assert!(rt; are_free_from(&threads, &mut hand, 3));
}

/// A raw queue, a line queue with a reader, and a screen queue, with an end of each for a cooked tty.
#[derive(Drop)]
struct Typing {
    queues: Queues,
    raw: QueueEnd<64>,
    device: QueueEnd<64>,
    line: QueueEnd<256>,
    reader: QueueEnd<256>,
    screen: QueueEnd<256>,
    ghost raw_at: { IsEndAt queues.small.items 0 raw × IsUnused (view_of raw) },
    ghost device_at: { IsEndAt queues.small.items 0 device × IsUnused (view_of device) },
    ghost line_at: { IsEndAt queues.large.items 0 line × IsUnused (view_of line) },
    ghost reader_at: { IsEndAt queues.large.items 0 reader × IsUnused (view_of reader) },
    ghost screen_at: { IsEndAt queues.large.items 1 screen × IsUnused (view_of screen) },
}

fn tty_queues<R: Abort>(rt: &R, alloc: Global) -> Typing {
    let (raws, mut raw) = ClaimQueue::new(alloc, 0).expect(rt, "memory");
    let device = raws.split(&mut raw);
    let (lines, mut line) = ClaimQueue::new(alloc, 0).expect(rt, "memory");
    let reader = lines.split(&mut line);
    let (screens, screen) = ClaimQueue::new(alloc, 0).expect(rt, "memory");
    let mut small = Vec::new(alloc);
    small.push(raws).expect(rt, "memory");
    let mut large = Vec::new(alloc);
    large.push(lines).expect(rt, "memory");
    large.push(screens).expect(rt, "memory");
    Typing {
        queues: Queues { small, large },
        raw,
        device,
        line,
        reader,
        screen,
    }
}

/// A cooked tty in its chain, with its device, another end of the chain, and a reader of its lines.
#[derive(Drop)]
struct Cooked {
    queues: Queues,
    chain: Chain,
    end: ChainEnd<AnyQuaject>,
    tty: RawTty,
    reader: QueueEnd<256>,
    ghost over: { world_of chain ≡ queues },
    ghost tty_at: { IsEndAt queues.small.items tty.index (end_of tty) },
    ghost reader_at: { IsEndAt queues.large.items 0 reader },
}

#[tactic(auto, using(quajects::proofs::Making::made_of_itself))]
fn make_cooked<R: Abort>(rt: &R, alloc: Global) -> Cooked
    ensures end { IsEndOf result.chain result.end × (turn_of result.end ≡ false) }
    ensures tty { IsEndOf result.chain result.tty.chain }
{
    let Typing {
        queues,
        raw,
        device,
        line,
        reader,
        screen,
    } = tty_queues(rt, alloc);
    let cooked = CookedTty::new(0, raw, 0, line, 1, screen);
    let Ok((chain, mut end)) = Chain::new(alloc, 0, AnyQuaject::Cooked(cooked), &queues) else {
        panic!(rt; "no memory")
    };
    let tty = RawTty::new(0, device, chain.split(&mut end));
    Cooked {
        queues,
        chain,
        end,
        tty,
        reader,
    }
}

/// A line of the first line queue.
fn hear_first(
    queues: &Queues,
    reader: &mut QueueEnd<256>,
    heard: &mut ArrayVec<u64, 256>,
) -> Result<usize, TakeRefusal>
    requires { IsEndAt queues.now.large.items 0 reader.old }
{
    heard.clear();
    queues.large[0].try_take_line(reader, heard)
}

/// Types the bytes in one thread, and serves the device in another.
fn type_and_serve<R: Threads + Wait + Sync>(
    rt: &R,
    queues: &Queues,
    chain: &Chain,
    tty: RawTty,
    ends: (LineIn, LineOut),
    bytes: &[u8],
) -> (LineIn, (LineOut, RawTty))
    requires fits { IsEndAt queues.now.small.items tty.index (end_of tty) }
    requires chain { IsEndOf chain.now tty.chain }
    requires world { world_of chain.now ≡ queues.now }
    ensures line { SameIn ends.0 result.0 × SameOut ends.1 result.1.0 }
    ensures chain { IsEndOf chain.now result.1.1.chain × (turn_of result.1.1.chain ≡ false) }
{
    let (input, output) = ends;
    let count = bytes.len();
    thread::join(
        rt,
        move || -> LineIn
            requires { IsSync R.row }
            ensures { SameIn input result }
        { type_bytes(rt, input, bytes) },
        move || -> (LineOut, RawTty)
            requires { IsSync R.row × IsEndAt queues.now.small.items tty.index (end_of tty)
                × IsEndOf chain.now tty.chain × (world_of chain.now ≡ queues.now) }
            ensures { SameOut output result.0 × IsEndOf chain.entry.now result.1.chain
                × (turn_of result.1.chain ≡ false) }
        { serve_device(rt, queues, chain, output, tty, count) },
    )
}

/// Joins the device's end of the chain to the other.
fn join_device(chain: &Chain, end: ChainEnd<AnyQuaject>, tty: RawTty) -> ChainEnd<AnyQuaject>
    requires end { IsEndOf chain.now end × (turn_of end ≡ false) }
    requires tty { IsEndOf chain.now tty.chain }
    ensures { IsEndOf chain.now result × (turn_of result ≡ false) }
{
    let mut end = end;
    let (_device, mine) = tty.into_parts();
    chain.join(&mut end, mine);
    end
}

/// How many notes were chained, how many were run, and how many items were taken and put.
fn counts_of(home: Home) -> (u32, u64, u64, u64) {
    let (_ports, came) = home.take_apart();
    (came.chained(), came.notes(), came.taken(), came.put())
}

/// Joins the device's end of the chain to the other, and closes the chain. Returns how many notes were chained, how
/// many were run, and how many items were taken and put.
fn close_chain<R: Abort>(
    rt: &R,
    chain: Chain,
    end: ChainEnd<AnyQuaject>,
    tty: RawTty,
) -> (u32, u64, u64, u64)
    requires end { IsEndOf chain end × (turn_of end ≡ false) }
    requires tty { IsEndOf chain tty.chain }
{
    let end = join_device(&chain, end, tty);
    let Ok(home) = retire(chain, end) else {
        panic!(rt; "close")
    };
    counts_of(home)
}

/// The bytes that are typed: five of them, forty times over.
fn typed_bytes<R: Abort>(rt: &R, alloc: Global) -> Vec<u8> {
    [97, 98, 127, 99, 10].repeat(alloc, 40).expect(rt, "memory")
}

/// Asserts that the next line of the first line queue has these items.
fn assert_heard<R: Abort>(rt: &R, queues: &Queues, reader: &mut QueueEnd<256>, wanted: &[u64])
    requires { IsEndAt queues.now.large.items 0 reader.old }
{
    let mut heard = ArrayVec::new();
    assert!(rt; hear_first(queues, reader, &mut heard) == Ok(wanted.len()));
    assert!(rt; heard.as_slice() == wanted);
}

/// Two hundred bytes go over a line of 64 places, and come out cooked.
#[test]
fn typed_bytes_arrive(rt: HostRuntime) {
    let Cooked {
        queues,
        chain,
        end,
        tty,
        mut reader,
    } = make_cooked(&rt, rt.alloc());
    let ends = line(rt.alloc(), 64).expect(&rt, "memory");
    let bytes = typed_bytes(&rt, rt.alloc());
    let bytes = bytes.as_slice();
    let (input, (output, tty)) = type_and_serve(&rt, &queues, &chain, tty, ends, bytes);
    let totals = finish(input, output);
    assert!(rt; (totals.sent, totals.received, totals.left) == (200, 200, 0));
    assert!(rt; tty.overruns() == 0);
    assert!(rt; close_chain(&rt, chain, end, tty) == (200, 200, 200, 240));
    assert_heard(&rt, &queues, &mut reader, [97, 99, 10].as_slice());
}

/// A job that meets the others, and returns its number with what all share added.
#[derive(Drop)]
struct Meet(u64);

#[derive(Drop)]
struct Meeting {
    barrier: Barrier,
    add: u64,
}

impl Job<Meeting, u64> for Meet {
    ghost may_run = { λ shared job. Unit {0} };

    ghost gives = { λ shared job back. back ≡ (job.0 + shared.add) % 2 ^ 64 };

    fn run<R: Wait>(self, rt: &R, shared: &Meeting) -> u64 {
        let Meet(number) = self;
        let _leads = shared.barrier.wait(rt);
        number.wrapping_add(shared.add)
    }
}

/// Jobs with the numbers from 0 to 3.
fn four_jobs<R: Abort>(rt: &R, alloc: Global) -> Vec<Meet>
    ensures { vec_len result ≡ 4 }
{
    let mut jobs = Vec::new(alloc);
    jobs.push(Meet(0)).expect(rt, "memory");
    jobs.push(Meet(1)).expect(rt, "memory");
    jobs.push(Meet(2)).expect(rt, "memory");
    jobs.push(Meet(3)).expect(rt, "memory");
    jobs
}

/// Four jobs meet, which they can only in four threads, and their results are in their order.
#[test]
fn jobs_meet(rt: HostRuntime) {
    let shared = Meeting {
        barrier: Barrier::new(4),
        add: 10,
    };
    let jobs = four_jobs(&rt, rt.alloc());
    let handles = Vec::with_capacity(rt.alloc(), 4).expect(&rt, "memory");
    let backs = Vec::with_capacity(rt.alloc(), 4).expect(&rt, "memory");
    let backs = run_all(&rt, &shared, jobs, handles, backs);
    let mut number = 10u64;
    for back in backs {
        assert!(rt; back.ok() == Some(number));
        number = number.wrapping_add(1);
    }
    assert!(rt; number == 14);
}
