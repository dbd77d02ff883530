//! A recorder of turns that a test makes up, and when turns end.

use boot_log::{Did, Entry, Log, Part, Recorder, end_of};
use event_theory::{Alarm, Element};
use processor::{TurnGate, TurnOutcome, TurnResult};
use std::io;
use std::test::Fail;
use std::time::{Clock, Duration};
use thread_table::NextRefusal;
use turn_dispatch::{Begun, Idle};

// A clock that always says this number of nanoseconds.
#[derive(Drop)]
struct Stopped(u64);

impl Clock for Stopped {
    fn monotonic(&self) -> io::Result<Duration> {
        Ok(Duration::from_nanos(self.0))
    }

    fn since_1970(&self) -> io::Result<Duration> {
        Ok(Duration::ZERO)
    }
}

// A clock that can't be read.
#[derive(Drop)]
struct Unreadable;

impl Clock for Unreadable {
    fn monotonic(&self) -> io::Result<Duration> {
        Err(io::ErrorKind::Other.into())
    }

    fn since_1970(&self) -> io::Result<Duration> {
        Err(io::ErrorKind::Other.into())
    }
}

fn nothing_ready() -> TurnOutcome {
    TurnOutcome::Idle(Idle::NothingReady(NextRefusal::NoneReady))
}

fn retired() -> TurnOutcome {
    let begun = Begun {
        element: Element::default(),
        delivered: Ok(3),
        number: 5,
    };
    TurnOutcome::OfElement(begun, TurnResult::Retired(true))
}

fn alarm_at(due: u32) -> Alarm {
    Alarm {
        due,
        ..Alarm::default()
    }
}

fn is_idle(entry: &Entry) -> bool {
    matches!(
        entry.did,
        Did::Idle(Idle::NothingReady(NextRefusal::NoneReady))
    )
}

fn retired_after(entry: &Entry) -> Option<u64> {
    match entry.did {
        Did::Retired { begun, freed: true } => Some(begun.number),
        _ => None,
    }
}

#[test]
fn a_turn_is_kept_with_its_line_and_alarms(rt: HostRuntime) -> Result<(), Fail> {
    let alarms = [alarm_at(7), alarm_at(7)];
    let mut recorder = Recorder::with_room(rt.alloc(), Stopped(1234), 0, 3, 4)?;
    recorder.turned(0, None, &alarms, nothing_ready(), &[]);
    recorder.turned(0, Some(Ok(7)), &alarms, retired(), &[104, 256 + 105]);
    let log = recorder.log();
    assert_eq!(rt; log.entries().len(), 2);
    assert_eq!(rt; log.missed(), 0);
    let (first, second) = (log.entries()[0], log.entries()[1]);
    assert!(rt; is_idle(&first));
    assert!(rt; first.tended.is_none());
    assert_eq!(rt; log.alarms(first.fired).len(), 0);
    assert_eq!(rt; first.at, 1234);
    assert_eq!(rt; retired_after(&second), Some(5));
    assert_eq!(rt; second.tended, Some(Ok(7)));
    assert_eq!(rt; log.alarms(second.fired).len(), 2);
    assert_eq!(rt; log.bytes(), b"hi".as_slice());
    assert_eq!(rt; log.fired().len(), 2);
    Ok(())
}

fn kept_and_missed(log: &Log) -> (usize, u64) {
    (log.entries().len(), log.missed())
}

#[test]
fn turns_without_room_are_counted(rt: HostRuntime) -> Result<(), Fail> {
    let mut by_turns = Recorder::with_room(rt.alloc(), Stopped(1), 0, 1, 4)?;
    let mut by_bytes = Recorder::with_room(rt.alloc(), Stopped(1), 0, 4, 1)?;
    for _ in 0..2 {
        by_turns.turned(0, None, &[], nothing_ready(), &[]);
    }
    assert_eq!(rt; kept_and_missed(by_turns.log()), (1, 1));
    for line in [[104, 105].as_slice(), &[], &[104]] {
        by_bytes.turned(0, None, &[], nothing_ready(), line);
    }
    assert_eq!(rt; kept_and_missed(by_bytes.log()), (0, 3));
    Ok(())
}

#[test]
fn a_clock_that_cannot_be_read_stays(rt: HostRuntime) -> Result<(), Fail> {
    let mut recorder = Recorder::with_room(rt.alloc(), Unreadable, 7, 2, 0)?;
    recorder.turned(0, None, &[], nothing_ready(), &[]);
    assert_eq!(rt; recorder.log().entries().len(), 1);
    assert_eq!(rt; recorder.log().entries()[0].at, 7);
    Ok(())
}

fn ended_at(at: u64) -> Entry {
    Entry {
        at,
        tended: None,
        fired: Part { start: 0, len: 0 },
        did: Did::Idle(Idle::NothingReady(NextRefusal::NoneReady)),
    }
}

#[test]
fn turns_end_with_the_last_one(rt: HostRuntime) -> Result<(), Fail> {
    assert_eq!(rt; end_of(7, &[]), 7);
    assert_eq!(rt; end_of(7, &[ended_at(9), ended_at(12)]), 12);
    Ok(())
}
