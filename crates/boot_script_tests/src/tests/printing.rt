//! The printed text of a core, and of faults.

use super::{Counted, lines_of};
use boot_script::*;
use event_theory::{
    AlarmStatus, Call, ChainStatus, ElementStatus, Gate, Items, Place, Processor, QueueStatus,
    Status, WaitNumber,
};
use std::alloc::Global;
use std::fmt::Display;
use std::io;
use std::io::{ErrorKind, Write};

/// Whether `{}` writes a value like this.
fn reads<T: Copy + Display>(alloc: Global, value: T, wanted: &str) -> bool {
    format!(in alloc; "{value}").is_ok_and(|text| text.as_str() == wanted)
}

/// A page that takes no memory, and takes one byte a call. It fails at one call.
#[derive(Drop)]
struct Page {
    bytes: [u8; 1024],
    len: usize,
    calls: u32,
    fails_at: u32,
}

impl Write for Page {
    fn write(&mut self, buf: &[u8]) -> io::Result<usize> {
        self.calls = self.calls.saturating_add(1);
        if self.calls == self.fails_at || self.len >= self.bytes.len() {
            return Err(io::Error::from(ErrorKind::Other));
        }
        match buf {
            [] => Ok(0),
            [first, ..] => {
                self.bytes[self.len] = *first;
                self.len += 1;
                Ok(1)
            }
        }
    }

    fn flush(&mut self) -> io::Result<()> {
        Ok(())
    }
}

impl Page {
    fn new(fails_at: u32) -> Page {
        Page {
            bytes: [0; 1024],
            len: 0,
            calls: 0,
            fails_at,
        }
    }

    fn text(&self) -> &[u8] {
        self.bytes.get(..self.len).unwrap_or(&[])
    }
}

/// The written text of a status if one call fails, and whether none failed.
fn printed(status: &Status, fails_at: u32) -> (Page, bool) {
    let mut page = Page::new(fails_at);
    let all = print_status(status, &mut page).is_ok();
    (page, all)
}

fn queue_status(capacity: u16, put: u64, taken: u64, shut: bool) -> QueueStatus {
    QueueStatus {
        capacity,
        runs: put / 2,
        put,
        taken,
        left: put.saturating_sub(taken),
        raised: put / 4,
        shut,
    }
}

fn chain_status(put: u64, taken: u64, gate: Gate) -> ChainStatus {
    ChainStatus {
        put,
        taken,
        left: put.saturating_sub(taken),
        gate,
    }
}

fn element_status(place: Place, done: u32, pending: u16, stop: bool) -> ElementStatus {
    ElementStatus {
        place,
        done,
        pending,
        stop,
    }
}

const ALARMS: AlarmStatus = AlarmStatus {
    set: 3,
    fired: 2,
    cancelled: 1,
};

fn full_queues(alloc: Global) -> Option<Items<QueueStatus>> {
    let queues = [queue_status(4, 8, 1, false), queue_status(256, 0, 0, true)];
    Some(Items::new(Vec::from_slice(alloc, &queues).ok()?))
}

fn full_chains(alloc: Global) -> Option<Items<ChainStatus>> {
    let chains = [
        chain_status(1, 0, Gate::Idle),
        chain_status(2, 1, Gate::Running),
        chain_status(40, 40, Gate::More),
    ];
    Some(Items::new(Vec::from_slice(alloc, &chains).ok()?))
}

fn full_elements(alloc: Global) -> Option<Items<ElementStatus>> {
    let (processor, wait, call) = (Processor::new(3)?, WaitNumber::new(15)?, Call::new(63)?);
    let elements = [
        element_status(Place::Free, 0, 0, false),
        element_status(Place::Free, 1, 0, false),
        element_status(Place::Free, 0, 0, true),
        element_status(Place::Free, 0, 0x8001, false),
        element_status(Place::Processor(processor), 4_294_967_295, 0xABCD, true),
        element_status(Place::Ready, 0, 0, false),
        element_status(Place::Wait(wait), 0, 0x10, false),
        element_status(Place::Stopped, 2, 0x0F19, true),
        element_status(Place::Held(call), 0, 0, false),
    ];
    Some(Items::new(Vec::from_slice(alloc, &elements).ok()?))
}

/// A status with lines of each kind.
fn full_status(alloc: Global) -> Option<Status> {
    Some(Status {
        events: 18_446_744_073_709_551_615,
        queues: full_queues(alloc)?,
        chains: full_chains(alloc)?,
        elements: full_elements(alloc)?,
        gauges: [0, 7, 0, 0, 0, 0, 0, 18_446_744_073_709_551_615],
        clock: 9,
        alarms: ALARMS,
        notified: [1, 0, 0, 0, 0, 0, 0, 0, 0, 0, 0, 0, 0, 0, 0, 4_294_967_295],
    })
}

const FULL_STATUS: &[u8] = b"events 18446744073709551615
queue q0 capacity 4 runs 4 put 8 taken 1 left 7 raised 2
queue q1 capacity 256 runs 0 put 0 taken 0 left 0 raised 0 shut
chain k0 put 1 taken 0 left 1 gate idle
chain k1 put 2 taken 1 left 1 gate running
chain k2 put 40 taken 40 left 0 gate more
element e1 free done 1 pending 0000
element e2 free done 0 pending 0000 stop
element e3 free done 0 pending 8001
element e4 processor3 done 4294967295 pending abcd stop
element e5 ready done 0 pending 0000
element e6 wait15 done 0 pending 0010
element e7 stopped done 2 pending 0f19 stop
element e8 held63 done 0 pending 0000
gauge g1 7
gauge g7 18446744073709551615
clock 9
alarms set 3 fired 2 cancelled 1
notified w0 1
notified w15 4294967295
";

#[test]
fn a_write_may_fail_at_each_call(rt: HostRuntime) {
    let Some(status) = full_status(rt.alloc()) else {
        panic!(rt; "no status")
    };
    for fails_at in 1..900 {
        let (page, all) = printed(&status, fails_at);
        let count = FULL_STATUS.len().min(fails_at as usize - 1);
        assert!(rt; all == (count == FULL_STATUS.len()));
        assert!(rt; page.text() == &FULL_STATUS[..count]);
    }
}

const LONGEST_QUEUE: QueueStatus = QueueStatus {
    capacity: u16::MAX,
    runs: u64::MAX,
    put: u64::MAX,
    taken: u64::MAX,
    left: u64::MAX,
    raised: u64::MAX,
    shut: true,
};

const LONGEST_CHAIN: ChainStatus = ChainStatus {
    put: u64::MAX,
    taken: u64::MAX,
    left: u64::MAX,
    gate: Gate::Running,
};

/// As many queues as this, as many of all else as a core can have, and each number at its greatest.
fn longest_status(alloc: Global, queues: usize) -> Option<Status> {
    let place = Place::Processor(Processor::new(7)?);
    let element = element_status(place, u32::MAX, u16::MAX, true);
    Some(Status {
        events: u64::MAX,
        queues: Items::new(vec![in alloc; LONGEST_QUEUE; queues].ok()?),
        chains: Items::new(vec![in alloc; LONGEST_CHAIN; 8].ok()?),
        elements: Items::new(vec![in alloc; element; 64].ok()?),
        gauges: [u64::MAX; 8],
        clock: u32::MAX,
        alarms: AlarmStatus {
            set: u64::MAX,
            fired: u64::MAX,
            cancelled: u64::MAX,
        },
        notified: [u32::MAX; 16],
    })
}

/// The writes of the longest status with this many queues.
fn longest_printed(alloc: Global, queues: usize) -> Option<Counted> {
    let status = longest_status(alloc, queues)?;
    let mut out = Counted::new(alloc);
    print_status(&status, &mut out).ok()?;
    Some(out)
}

/// The longest status that a core can have is one write.
#[test]
fn a_status_is_one_write(rt: HostRuntime) {
    let Some(out) = longest_printed(rt.alloc(), 8) else {
        panic!(rt; "not printed")
    };
    assert!(rt; (out.writes, out.whole) == (1, 1));
    assert!(rt; lines_of(&out.bytes) == 107);
    assert!(rt; out.bytes.ends_with(b"notified w15 4294967295\n"));
}

/// The lines of the events and of this many queues.
fn longest_front(alloc: Global, queues: usize) -> io::Result<Vec<u8>> {
    let mut front = Vec::from_slice(alloc, b"events 18446744073709551615\n")?;
    let most = u64::MAX;
    for number in 0..queues {
        writeln!(
            front,
            "queue q{number} capacity 65535 runs {most} put {most} taken {most} left {most} raised {most} shut"
        )?;
    }
    Ok(front)
}

/// A status that no core has may be longer than a page. The status goes out in pieces, and none is lost.
#[test]
fn a_longer_status_is_written_whole(rt: HostRuntime) {
    let Some(out) = longest_printed(rt.alloc(), 100) else {
        panic!(rt; "not printed")
    };
    let Ok(front) = longest_front(rt.alloc(), 100) else {
        panic!(rt; "no memory")
    };
    assert!(rt; out.bytes.starts_with(&front));
    assert!(rt; lines_of(&out.bytes) == 199);
    assert!(rt; out.bytes.ends_with(b"notified w15 4294967295\n"));
}

const REFUSALS: &[(ScriptRefusal, u8, &str)] = &[
    (ScriptRefusal::NotVersion, 1, "NotVersion"),
    (ScriptRefusal::UnknownWord, 2, "UnknownWord"),
    (ScriptRefusal::BadNumber, 3, "BadNumber"),
    (ScriptRefusal::BadName, 4, "BadName"),
    (ScriptRefusal::NameTwice, 5, "NameTwice"),
    (ScriptRefusal::NameUnknown, 6, "NameUnknown"),
    (ScriptRefusal::TooMany, 7, "TooMany"),
    (ScriptRefusal::TextTooLong, 8, "TextTooLong"),
    (ScriptRefusal::NotAscii, 9, "NotAscii"),
    (ScriptRefusal::OutOfMemory, 10, "OutOfMemory"),
];

#[test]
fn refusals_have_names_and_numbers(rt: HostRuntime) {
    for (refusal, number, name) in REFUSALS {
        assert!(rt; *refusal as u8 == *number);
        assert!(rt; reads(rt.alloc(), *refusal, name));
    }
}

const FAULTS: &[(ReplayFault, &str)] = &[
    (
        ReplayFault::Script(ScriptFault {
            line: 12,
            refusal: ScriptRefusal::BadName,
        }),
        "line 12: 4 BadName",
    ),
    (ReplayFault::Memory, "no memory"),
    (ReplayFault::Read, "read fault"),
    (ReplayFault::Write, "write fault"),
];

#[test]
fn faults_have_names(rt: HostRuntime) {
    for (fault, text) in FAULTS {
        assert!(rt; reads(rt.alloc(), *fault, text));
    }
}
