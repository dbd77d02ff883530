//! Which lines are joined: a say and a hear of a script's queue, in logs that a test makes up.

use super::{SCRIPT, idle, log_of, stepped};
use boot_data::plan::QueueIndex;
use boot_log::{Entry, HeardAnswer, Log, Part, SaidAnswer, Tried, passings_of};
use boot_script::parse_boot;
use event_theory::Element;
use processor::Moved;
use std::alloc::Global;
use std::test::*;

/// The pipe of the script, which only threads use.
const IN: QueueIndex = QueueIndex::Small(0);

/// A script whose pump and switch use all queues except the last one.
const MOVED: &[u8] =
    b"synthesis 1\nqueue a\nqueue b\nqueue c\npipe d 1 2\nqueue e\ntty t\npump p a b\nswitch s b c x d\n";

/// A script that says two lines at once into the second queue.
const SEVERAL: &[u8] = b"synthesis 1\nqueue a\nqueue b\nthread v\nsay b hi\\0Aho\nsay a hi\n";

fn turn(at: u64, tried: Tried) -> Entry {
    let line = Part { start: 0, len: 3 };
    stepped(at, Element::default(), tried, Moved::Ready(true), line)
}

fn put(at: u64, queue: QueueIndex) -> Entry {
    let answer = SaidAnswer::Put(None);
    turn(at, Tried::Say { queue, answer })
}

fn taken(at: u64, queue: QueueIndex) -> Entry {
    let answer = HeardAnswer::Taken(None);
    turn(at, Tried::Hear { queue, answer })
}

/// The log of a processor with these turns, after which one was missed.
fn front_of(alloc: Global, entries: &[Entry]) -> Result<Log, Fail> {
    let entries = Vec::from_slice(alloc, entries)?;
    let bytes = Vec::from_slice(alloc, b"hi\n")?;
    Ok(Log::new(entries, bytes, Vec::new(alloc), 1))
}

/// How many lines are joined in a boot of this script, whose turns began at 1,000 ns.
fn joined(alloc: Global, script: &[u8], logs: &[&Log]) -> Result<usize, Fail> {
    let plan = parse_boot(alloc, script)?;
    Ok(passings_of(alloc, &plan, 1000, logs)?.len())
}

/// How many lines are joined in a boot of this script if one is put into the queue, and then taken from it.
fn joined_at(alloc: Global, script: &[u8], queue: QueueIndex) -> Result<usize, Fail> {
    let turns = [put(2000, queue), taken(3000, queue)];
    let log = log_of(alloc, &turns, b"hi\n")?;
    joined(alloc, script, &[&log])
}

#[test]
fn only_threads_use_the_queue(rt: HostRuntime) -> Result<(), Fail> {
    for queue in 0..4 {
        assert_eq!(rt; joined_at(rt.alloc(), MOVED, QueueIndex::Small(queue))?, 0);
    }
    assert_eq!(rt; joined_at(rt.alloc(), MOVED, QueueIndex::Small(4))?, 1);
    // The raw queue, the line queue and the screen queue of the tty.
    assert_eq!(rt; joined_at(rt.alloc(), MOVED, QueueIndex::Small(5))?, 0);
    assert_eq!(rt; joined_at(rt.alloc(), MOVED, QueueIndex::Large(0))?, 0);
    assert_eq!(rt; joined_at(rt.alloc(), MOVED, QueueIndex::Large(1))?, 0);
    Ok(())
}

#[test]
fn each_say_is_one_line(rt: HostRuntime) -> Result<(), Fail> {
    assert_eq!(rt; joined_at(rt.alloc(), SEVERAL, QueueIndex::Small(0))?, 1);
    assert_eq!(rt; joined_at(rt.alloc(), SEVERAL, QueueIndex::Small(1))?, 0);
    Ok(())
}

#[test]
fn another_log_misses_turns(rt: HostRuntime) -> Result<(), Fail> {
    let log = log_of(rt.alloc(), &[put(2000, IN), taken(3000, IN)], b"hi\n")?;
    for (at, lines) in [(2500, 0), (3000, 0), (3001, 1)] {
        let other = front_of(rt.alloc(), &[idle(at)])?;
        assert_eq!(rt; joined(rt.alloc(), SCRIPT, &[&log, &other])?, lines);
        assert_eq!(rt; joined(rt.alloc(), SCRIPT, &[&other, &log])?, lines);
    }
    let none = front_of(rt.alloc(), &[])?;
    assert_eq!(rt; joined(rt.alloc(), SCRIPT, &[&log, &none])?, 0);
    let whole = log_of(rt.alloc(), &[], b"")?;
    assert_eq!(rt; joined(rt.alloc(), SCRIPT, &[&log, &whole])?, 1);
    Ok(())
}

#[test]
fn the_log_itself_misses_turns(rt: HostRuntime) -> Result<(), Fail> {
    let last = front_of(rt.alloc(), &[put(2000, IN), taken(3000, IN)])?;
    assert_eq!(rt; joined(rt.alloc(), SCRIPT, &[&last])?, 0);
    let longer = front_of(rt.alloc(), &[put(2000, IN), taken(3000, IN), idle(3001)])?;
    assert_eq!(rt; joined(rt.alloc(), SCRIPT, &[&longer])?, 1);
    Ok(())
}

#[test]
fn no_line_is_put_after_it_is_taken(rt: HostRuntime) -> Result<(), Fail> {
    let heard = log_of(rt.alloc(), &[taken(3000, IN)], b"hi\n")?;
    for (began, lines) in [(2500, 1), (3000, 1), (3001, 0)] {
        let said = log_of(rt.alloc(), &[idle(began), put(5000, IN)], b"hi\n")?;
        assert_eq!(rt; joined(rt.alloc(), SCRIPT, &[&said, &heard])?, lines);
    }
    Ok(())
}
