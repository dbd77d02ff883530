//! The events of turns.

use super::{NO_PART, element, idle, log_of, show, shows, stepped};
use boot_data::plan::QueueIndex;
use boot_log::{Did, Entry, HeardAnswer, Log, Part, SaidAnswer, Tried};
use claim_queue::TakeRefusal;
use event_theory::{Gauge, Signal, WaitNumber};
use processor::Moved;
use std::panic::Expect;
use std::test::*;
use thread_table::{NextRefusal, Signalled};
use turn_dispatch::{Idle, Woken};

#[test]
fn a_line_is_put(rt: HostRuntime) -> Result<(), Fail> {
    let woken = Woken { taken: 2, ready: 2 };
    let answer = SaidAnswer::Put(Some(woken));
    let queue = QueueIndex::Small(0);
    let tried = Tried::Say { queue, answer };
    let line = Part { start: 1, len: 3 };
    let entry = stepped(2500, element(&rt, 0), tried, Moved::Ready(true), line);
    let events = [
        "{\"name\":\"thread_name\",\"cat\":\"__metadata\",\"ph\":\"M\",\"pid\":1,\"tid\":1,\
         \"args\":{\"name\":\"processor 0\"}}",
        "{\"name\":\"say put\",\"cat\":\"turn\",\"ph\":\"X\",\"pid\":1,\"tid\":1,\"ts\":1.000,\"dur\":1.500,\
         \"args\":{\"processor\":0,\"thread\":\"a\",\"step\":0,\"signals\":0,\"queue\":\"in\",\
         \"line\":\"h\\\"\\\\0A\",\"woken\":\"b\",\"done\":1,\"went\":\"ready\"}}",
        "{\"name\":\"say put\",\"cat\":\"turn\",\"ph\":\"X\",\"pid\":1,\"tid\":11,\"ts\":1.000,\"dur\":1.500,\
         \"args\":{\"processor\":0,",
    ];
    assert!(rt; shows(rt.alloc(), &[entry], b"xh\"\nyy", &events)?);
    Ok(())
}

#[test]
fn idle_turns_are_one_event(rt: HostRuntime) -> Result<(), Fail> {
    let queue = QueueIndex::Large(1);
    let answer = HeardAnswer::Refused(TakeRefusal::Empty { at: 7 });
    let tried = Tried::Hear { queue, answer };
    let hear = stepped(3001, element(&rt, 1), tried, Moved::Waits(true), NO_PART);
    let entries = [
        idle(1007),
        idle(2050),
        idle(3000),
        hear,
        idle(3000),
        idle(4999),
    ];
    let events = [
        "{\"name\":\"idle\",\"cat\":\"turn\",\"ph\":\"X\",\"pid\":1,\"tid\":1,\"ts\":1.000,\"dur\":2.000,\
         \"args\":{\"processor\":0,\"turns\":3}}",
        "{\"name\":\"hear empty\",\"cat\":\"turn\",\"ph\":\"X\",\"pid\":1,\"tid\":12,\"ts\":3.000,\
         \"dur\":0.001,\"args\":{\"processor\":0,\"thread\":\"b\",\"step\":0,\"signals\":0,\
         \"queue\":\".screen\",\"place\":7,\"done\":1,\"went\":\"wait queue\"}}",
        "\"ts\":3.001,\"dur\":1.998,\"args\":{\"processor\":0,\"turns\":2}}],\"displayTimeUnit\":\"ns\"}",
    ];
    assert!(rt; shows(rt.alloc(), &entries, b"", &events)?);
    Ok(())
}

#[test]
fn alarms_and_the_clock(rt: HostRuntime) -> Result<(), Fail> {
    let alone = Entry {
        at: 1_000_000_000_000,
        tended: Some(Ok(9)),
        fired: Part { start: 0, len: 1 },
        did: Did::Idle(Idle::NothingReady(NextRefusal::Lost { seen: 1 })),
    };
    let events = [
        "{\"name\":\"idle\",\"cat\":\"turn\",\"ph\":\"X\",\"pid\":1,\"tid\":1,\"ts\":1.000,\
         \"dur\":999999999.000,\"args\":{\"processor\":0,\"clock\":9,\"alarms\":1}}",
        "\"ts\":1000000000.000,\"dur\":0.000,\"args\":{\"processor\":0,\"turns\":1}}]",
    ];
    assert!(rt; shows(rt.alloc(), &[alone, idle(5)], b"", &events)?);
    Ok(())
}

#[test]
fn other_steps(rt: HostRuntime) -> Result<(), Fail> {
    let gauge = Gauge::new(0).expect(&rt, "gauge");
    let signal = Signal::new(3).expect(&rt, "signal");
    let wait = WaitNumber::new(2).expect(&rt, "wait");
    let (first, second) = (element(&rt, 0), element(&rt, 1));
    let tick = Tried::Tick {
        gauge,
        amount: 3,
        before: 18_446_744_073_709_551_615,
    };
    let raise = Tried::Signal {
        thread: second,
        signal,
        answer: Signalled::Merged,
    };
    let close = Tried::Close {
        queue: 0,
        was_open: false,
        readers: None,
        writers: Some(Woken { taken: 3, ready: 0 }),
    };
    let entries = [
        stepped(2000, first, tick, Moved::Freed(true), NO_PART),
        stepped(3000, first, raise, Moved::Freed(false), NO_PART),
        stepped(
            4000,
            first,
            Tried::Wait { wait },
            Moved::Waits(false),
            NO_PART,
        ),
        stepped(5000, first, close, Moved::Ready(false), NO_PART),
    ];
    let events = [
        "\"gauge\":\"g\",\"amount\":3,\"before\":18446744073709551615,\"done\":1,\"went\":\"free\"}}",
        "{\"name\":\"signal merged\",\"cat\":\"turn\",",
        "\"to\":\"b\",\"signal\":3,\"done\":1,\"went\":\"held\"}}",
        "{\"name\":\"wait\",\"cat\":\"turn\",",
        "\"wait\":2,\"done\":1,\"went\":\"held\"}}",
        "{\"name\":\"close again\",\"cat\":\"turn\",",
        "\"queue\":\"in\",\"writers\":\"a b\",\"done\":1,\"went\":\"held\"}}",
    ];
    assert!(rt; shows(rt.alloc(), &entries, b"", &events)?);
    Ok(())
}

#[test]
fn turns_of_a_thread_do_not_overlap(rt: HostRuntime) -> Result<(), Fail> {
    let first = element(&rt, 0);
    let pass = |at: u64| stepped(at, first, Tried::Pass, Moved::Ready(true), NO_PART);
    let one = log_of(rt.alloc(), &[pass(2000), pass(4000), pass(1000)], b"")?;
    let other = log_of(rt.alloc(), &[idle(1500), pass(3000), pass(4000)], b"")?;
    let events = [
        "{\"name\":\"pass\",\"cat\":\"turn\",\"ph\":\"X\",\"pid\":1,\"tid\":11,\"ts\":1.000,\"dur\":1.000,\
         \"args\":{\"processor\":0,",
        "\"tid\":1,\"ts\":2.000,\"dur\":2.000,\"args\":{\"processor\":0,",
        "\"tid\":11,\"ts\":3.000,\"dur\":1.000,\"args\":{\"processor\":0,",
        "\"tid\":11,\"ts\":4.000,\"dur\":0.000,\"args\":{\"processor\":0,",
        "\"tid\":2,\"ts\":1.500,\"dur\":1.500,\"args\":{\"processor\":1,",
        "\"tid\":11,\"ts\":2.000,\"dur\":1.000,\"args\":{\"processor\":1,",
        "\"tid\":2,\"ts\":3.000,\"dur\":1.000,\"args\":{\"processor\":1,",
        "\"tid\":11,\"ts\":4.000,\"dur\":0.000,\"args\":{\"processor\":1,",
    ];
    assert!(rt; show(rt.alloc(), &[&one, &other], &events)?);
    Ok(())
}

#[test]
fn turns_are_missed(rt: HostRuntime) -> Result<(), Fail> {
    let alloc = rt.alloc();
    let entries = Vec::from_slice(alloc, &[idle(1500)])?;
    let log = Log::new(entries, Vec::new(alloc), Vec::new(alloc), 7);
    let events = [
        "{\"name\":\"turns not recorded\",\"cat\":\"turn\",\"ph\":\"i\",\"pid\":1,\"tid\":1,\"ts\":1.500,\
         \"s\":\"t\",\"args\":{\"processor\":0,\"turns\":7}}],\"displayTimeUnit\":\"ns\"}",
    ];
    assert!(rt; show(alloc, &[&log], &events)?);
    Ok(())
}
