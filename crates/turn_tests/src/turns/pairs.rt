//! Two processors over one ready ring.
ghost use Rattle.std.specs.Thread.{IsSync};
ghost use Rattle.processor.specs.Manning.{IsRunnable};
ghost use Rattle.processor.specs.Rooms.{HasRoom};
ghost use Rattle.processor.specs.Stations.{ArePartsOf};

use super::partings::stand_two;
use super::*;
use std::test::*;
use std::thread;
use std::thread::Threads;

/// The turns of each processor while the other has its turns, and the turns of one alone after them.
const TURNS: u32 = 10_000;

/// Four threads say four lines each in a pipe that has room for four, and four others hear four each.
const SAYERS: &[u8] = b"synthesis 2
pipe p 0 1
thread a
say p aaaaaaaaaaaaaaa
say p aaaaaaaaaaaaaaa
say p aaaaaaaaaaaaaaa
say p aaaaaaaaaaaaaaa
thread b
say p bbbbbbbbbbbbbbb
say p bbbbbbbbbbbbbbb
say p bbbbbbbbbbbbbbb
say p bbbbbbbbbbbbbbb
thread c
say p ccccccccccccccc
say p ccccccccccccccc
say p ccccccccccccccc
say p ccccccccccccccc
thread d
say p ddddddddddddddd
say p ddddddddddddddd
say p ddddddddddddddd
say p ddddddddddddddd
thread e
hear p
hear p
hear p
hear p
thread f
hear p
hear p
hear p
hear p
thread g
hear p
hear p
hear p
hear p
thread h
hear p
hear p
hear p
hear p
";

/// The turns of both, at once.
fn run_two<R: Threads + Wait + Sync>(
    rt: &R,
    shared: &Shared,
    one: (Station, Processor),
    other: (Station, Processor),
) -> (Station, Station)
    requires { IsRunnable shared.now one.1 one.0.parts × IsRunnable shared.now other.1 other.0.parts }
    ensures parts { ArePartsOf shared.now result.0.parts × ArePartsOf shared.now result.1.parts }
    ensures room { HasRoom shared.now.plan result.0.parts }
{
    thread::join(
        rt,
        move || -> Station
            requires { IsSync R.row × IsRunnable shared.now one.1 one.0.parts }
            ensures { ArePartsOf shared.entry.now result.parts × HasRoom shared.entry.now.plan result.parts }
        { run(rt, shared, one.0, one.1, TURNS, &mut NoGate) },
        move || -> Station
            requires { IsSync R.row × IsRunnable shared.now other.1 other.0.parts }
            ensures { ArePartsOf shared.entry.now result.parts }
        { run(rt, shared, other.0, other.1, TURNS, &mut NoGate) },
    )
}

/// How often a line was heard.
fn times(heard: &HeardLines, line: &[u8]) -> usize {
    let mut times = 0usize;
    for number in 0..heard.len() {
        if heard.bytes(number) == line {
            times = times.wrapping_add(1);
        }
    }
    times
}

/// For every schedule each step is done once, and each line that was said is heard once. One of them alone does what
/// the two left.
#[test]
fn two_processors(rt: HostRuntime) {
    let plan = parse_boot(rt.alloc(), SAYERS).expect(&rt, "script");
    let (p, q) = (processor(&rt, 0), processor(&rt, 1));
    let (shared, one, other) = stand_two(&rt, rt.alloc(), plan, p, q);
    let (one, other) = run_two(&rt, &shared, (one, p), (other, q));
    let one = freed(&rt, one, p);
    let mut one = run(&rt, &shared, one, p, TURNS, &mut NoGate);
    let others = join_station(&shared, &mut one, other);
    let ended = close_all(&rt, shared, one.into_parts());
    check_states(&rt, &ended, &[at(Place::Free, 4); 8]);
    let lines = [
        b"aaaaaaaaaaaaaaa\n",
        b"bbbbbbbbbbbbbbb\n",
        b"ccccccccccccccc\n",
        b"ddddddddddddddd\n",
    ];
    for line in lines {
        let mine = times(&ended.heard, line);
        assert!(rt; mine.wrapping_add(times(&others, line)) == 4);
    }
}
