//! Processors that are held at points of their turns until others are at points of their turns.
use super::*;
use crossbeam_utils::Backoff;
use crossbeam_utils::atomic::AtomicCell;
use std::alloc::AllocError;
use turn_io::{Gate, Point};

/// How often a held processor looks whether it may go on.
const LOOKS: u32 = 10_000_000;

/// Counts in one cell how often its processor is at one point. Holds the processor at another point until another cell
/// has counted so many. It gives up after many looks, and records that. It counts the turns that have the next number
/// and are its processor's.
#[derive(Drop)]
struct Hold<'a> {
    p: u8,
    turns: u32,
    counted: Point,
    count: &'a AtomicCell<u32>,
    held: Point,
    awaited: &'a AtomicCell<u32>,
    number: u32,
    given_up: &'a AtomicCell<bool>,
}

/// Looks until so many are counted, and returns true. Returns false if it gives up.
fn may_go_on(awaited: &AtomicCell<u32>, number: u32) -> bool {
    let backoff = Backoff::new();
    for _ in 0..LOOKS {
        if number <= awaited.load() {
            return true;
        }
        backoff.snooze();
    }
    false
}

impl Gate for Hold<'_> {
    ghost observes = { λ old p point new. Unit {0} };

    fn between(&mut self, p: u8, point: Point) {
        if p == self.p && point == Point::Turn(self.turns) {
            self.turns = self.turns.wrapping_add(1);
        }
        if point == self.counted {
            self.count.fetch_add(1);
        }
        if point == self.held && !may_go_on(self.awaited, self.number) {
            self.given_up.store(true);
        }
    }
}

/// Whether these are the gates of so many processors, from 0 on, and each counted so many turns.
fn were_reported(gates: &[Plain<Hold<'_>>], processors: u8, turns: u32) -> bool {
    let mut p = 0u8;
    for Plain { gate } in gates {
        if gate.p != p || gate.turns != turns {
            return false;
        }
        p = p.wrapping_add(1);
    }
    p == processors
}

/// The gates, as a boot takes them.
fn plain<'a>(alloc: Global, gates: Vec<Hold<'a>>) -> Result<Vec<Plain<Hold<'a>>>, AllocError> {
    let mut all = Vec::new(alloc);
    for gate in gates {
        all.push(Plain { gate })?;
    }
    Ok(all)
}

/// Boots a script with a gate for each processor, and returns the answer and the output.
fn boot_held<R: Threads + Wait + Sync + Abort>(
    rt: &R,
    alloc: Global,
    script: &str,
    processors: u8,
    turns: u32,
    gates: Vec<Hold<'_>>,
) -> (Result<Ended, BootFault>, Vec<u8>) {
    let Ok(gates) = plain(alloc, gates) else {
        panic!(rt; "memory")
    };
    if processors < 1 || 8 < processors || gates.len() != processors as usize {
        panic!(rt; "gates");
    }
    let mut output = Vec::new(alloc);
    let answer = boot_with(
        rt,
        alloc,
        script.as_bytes(),
        &mut output,
        processors,
        turns,
        gates,
    );
    (answer, output)
}

/// The gates of two processors. The second is held until the first is at the first point. The first is held there until
/// the second is at the other point.
fn pair<'a>(
    alloc: Global,
    points: (Point, Point),
    one: &'a AtomicCell<u32>,
    other: &'a AtomicCell<u32>,
    given_up: &'a AtomicCell<bool>,
) -> Result<Vec<Hold<'a>>, AllocError> {
    let mut gates = Vec::with_capacity(alloc, 2)?;
    gates.push(Hold {
        p: 0,
        turns: 0,
        counted: points.0,
        count: one,
        held: points.0,
        awaited: other,
        number: 1,
        given_up,
    })?;
    gates.push(Hold {
        p: 1,
        turns: 0,
        counted: points.1,
        count: other,
        held: Point::Turn(0),
        awaited: one,
        number: 1,
        given_up,
    })?;
    Ok(gates)
}

/// Boots a script on two processors that are held at these points. Returns whether all threads have ended, and the
/// output.
fn boot_pair<R: Threads + Wait + Sync + Abort>(
    rt: &R,
    alloc: Global,
    script: &str,
    turns: u32,
    points: (Point, Point),
) -> (bool, Vec<u8>) {
    let given_up = AtomicCell::new(false);
    let one = AtomicCell::new(0);
    let other = AtomicCell::new(0);
    let Ok(gates) = pair(alloc, points, &one, &other, &given_up) else {
        panic!(rt; "memory")
    };
    let (answer, printed) = boot_held(rt, alloc, script, 2, turns, gates);
    assert!(rt; !given_up.load());
    assert!(rt; 1 <= one.load() && 1 <= other.load());
    (answer == Ok(Ended::AllEnded), printed)
}

/// Asserts the output if all threads have ended. If they have not, boots again, at most twice, since a schedule may
/// leave a thread live.
fn assert_pair<R: Threads + Wait + Sync + Abort>(
    rt: &R,
    alloc: Global,
    script: &str,
    turns: u32,
    points: (Point, Point),
    wanted: &str,
) {
    for _ in 0..3u32 {
        let (ended, printed) = boot_pair(rt, alloc, script, turns, points);
        if ended {
            assert!(rt; printed.as_slice() == wanted.as_bytes());
            return;
        }
    }
    panic!(rt; "threads are left")
}

/// One processor says while the other hears: a line is claimed, a take of the line is answered, and then the line is
/// raised.
#[test]
fn two_processors_meet_in_a_queue(rt: HostRuntime) {
    assert_pair(
        &rt,
        rt.alloc(),
        "synthesis 1\nqueue q\nthread a\nsay q x\nthread b\nhear q\n",
        1_000,
        (Point::Claimed, Point::TakeAnswered),
        "queue q put 2 taken 2 left 0\nthread a ended 1\nthread b ended 1\nheard b 0 x\\0A\nchained 0\n",
    );
}

/// The points of a step are reported within it: the other processor doesn't hear what one has claimed and not raised.
#[test]
fn a_line_that_is_claimed_is_not_heard(rt: HostRuntime) {
    let script = "synthesis 1\nqueue q\nthread a\nsay q x\nthread b\nhear q\n";
    let points = (Point::Claimed, Point::TakeAnswered);
    let (ended, printed) = boot_pair(&rt, rt.alloc(), script, 1, points);
    let wanted = b"queue q put 2 taken 0 left 2\nthread a ended 1\nthread b ready 0\nchained 0\n";
    assert!(rt; !ended);
    assert!(rt; printed.as_slice() == wanted.as_slice());
}

/// A processor that stops at any point for a thousand turns of the other doesn't change the output.
#[test]
fn a_processor_stands_still(rt: HostRuntime) {
    let points = [
        Point::Claimed,
        Point::Raised,
        Point::Chained,
        Point::TakeAnswered,
    ];
    for point in points {
        assert_pair(
            &rt,
            rt.alloc(),
            "synthesis 1\nqueue in\nqueue out\npump p in out\nthread a\nthread b\npoke p\n\
            more a\nsay in hi\npoke p\nhear out\n",
            2_000,
            (point, Point::Turn(1_000)),
            "queue in put 3 taken 3 left 0\nqueue out put 3 taken 3 left 0\n\
            pump p notes 2 taken 3 put 3 held 0\nthread a ended 3\nthread b ended 1\n\
            heard a 2 hi\\0A\nchained 0\n",
        );
    }
}

/// The gates of so many processors, each of which is held in its first turn until all have been there.
fn meeting<'a>(
    alloc: Global,
    processors: u8,
    count: &'a AtomicCell<u32>,
    given_up: &'a AtomicCell<bool>,
) -> Result<Vec<Hold<'a>>, AllocError> {
    let mut gates = Vec::new(alloc);
    for p in 0..processors {
        gates.push(Hold {
            p,
            turns: 0,
            counted: Point::Turn(0),
            count,
            held: Point::Turn(0),
            awaited: count,
            number: u32::from(processors),
            given_up,
        })?;
    }
    Ok(gates)
}

/// Asserts that so many processors meet.
fn assert_meeting<R: Threads + Wait + Sync + Abort>(rt: &R, alloc: Global, processors: u8) {
    let given_up = AtomicCell::new(false);
    let count = AtomicCell::new(0);
    let Ok(gates) = meeting(alloc, processors, &count, &given_up) else {
        panic!(rt; "memory")
    };
    let script = "synthesis 1\nthread a\npass\n";
    let (answer, printed) = boot_held(rt, alloc, script, processors, 1_000, gates);
    assert!(rt; !given_up.load());
    assert!(rt; answer == Ok(Ended::AllEnded));
    assert!(rt; printed.as_slice() == b"thread a ended 1\nchained 0\n".as_slice());
}

/// Each processor has a thread of its own.
#[test]
fn all_processors_meet(rt: HostRuntime) {
    for processors in 2..=8u8 {
        assert_meeting(&rt, rt.alloc(), processors);
    }
}

/// The gates come back, each with its turns counted.
#[test]
fn gates_come_back_with_their_turns(rt: HostRuntime) {
    for processors in 1..=8u8 {
        let given_up = AtomicCell::new(false);
        let count = AtomicCell::new(0);
        let Ok(gates) = meeting(rt.alloc(), processors, &count, &given_up) else {
            panic!(rt; "memory")
        };
        let Ok(gates) = plain(rt.alloc(), gates) else {
            panic!(rt; "memory")
        };
        if gates.len() != processors as usize {
            panic!(rt; "gates");
        }
        let mut script = b"synthesis 1\nthread a\npass\n".as_slice();
        let mut output = Vec::new(rt.alloc());
        let booted = boot_on_with(
            &rt,
            rt.alloc(),
            &mut script,
            &mut output,
            processors,
            1_000,
            gates,
        );
        let Ok(booted) = booted else {
            panic!(rt; "a fault")
        };
        assert!(rt; !given_up.load());
        assert!(rt; were_reported(booted.gates(), processors, 1_000));
        assert!(rt; booted.ended() == Ended::AllEnded);
        assert!(rt; output.as_slice() == b"thread a ended 1\nchained 0\n".as_slice());
    }
}
