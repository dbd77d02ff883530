//! Lists of events that are read. `examples` has tables of lists and faults.

use super::shows;
use boot_script::*;
use std::alloc::Global;

/// The line and the number of the first fault; (0, 0) if there is none.
fn fault_of(alloc: Global, text: &[u8]) -> (u32, u8) {
    match parse_events(alloc, text) {
        Ok(_) => (0, 0),
        Err(fault) => (fault.line, fault.refusal as u8),
    }
}

/// A line of each kind, with the last names and numbers of the third version, and its event.
const EVENTS: &[(&[u8], &str)] = &[
    (b"queue 65535", "Queue { capacity: 65535 }"),
    (b"chain", "Chain"),
    (
        b"claim c63 q7 8 18446744073709551615",
        "Claim { call: Call { number: 63 }, queue: Bytes(QueueNumber { number: 7 }), items: Items { items: [8, 18446744073709551615] } }",
    ),
    (
        b"claim c1 ready 63",
        "Claim { call: Call { number: 1 }, queue: Ready, items: Items { items: [63] } }",
    ),
    (
        b"claim c0 k7",
        "Claim { call: Call { number: 0 }, queue: Notes(ChainNumber { number: 7 }), items: Items { items: [] } }",
    ),
    (
        b"raise c1 w15 3 4294967295",
        "Raise { call: Call { number: 1 }, queue: Wait(WaitNumber { number: 15 }), run: 3, index: 4294967295 }",
    ),
    (
        b"take c0 free 1",
        "Take { call: Call { number: 0 }, queue: Free, count: 1 }",
    ),
    (
        b"on c1 p7 e63",
        "On { call: Call { number: 1 }, processor: Processor { number: 7 }, element: Element { number: 63 } }",
    ),
    (
        b"off c2 p0",
        "Off { call: Call { number: 2 }, processor: Processor { number: 0 } }",
    ),
    (
        b"stop c3 e1",
        "Stop { call: Call { number: 3 }, element: Element { number: 1 } }",
    ),
    (
        b"park c4 e2",
        "Park { call: Call { number: 4 }, element: Element { number: 2 } }",
    ),
    (
        b"start c5 e3",
        "Start { call: Call { number: 5 }, element: Element { number: 3 } }",
    ),
    (
        b"signal c6 e4 15",
        "Signal { call: Call { number: 6 }, element: Element { number: 4 }, signal: Signal { number: 15 } }",
    ),
    (
        b"deliver c7 e5",
        "Deliver { call: Call { number: 7 }, element: Element { number: 5 } }",
    ),
    (
        b"done c8 e6",
        "Done { call: Call { number: 8 }, element: Element { number: 6 } }",
    ),
    (
        b"notify c9 k7",
        "Notify { call: Call { number: 9 }, chain: ChainNumber { number: 7 } }",
    ),
    (
        b"notify c9 w15",
        "NotifyWait { call: Call { number: 9 }, wait: WaitNumber { number: 15 } }",
    ),
    (
        b"round c10 k1",
        "Round { call: Call { number: 10 }, chain: ChainNumber { number: 1 } }",
    ),
    (
        b"leave c11 k2",
        "Leave { call: Call { number: 11 }, chain: ChainNumber { number: 2 } }",
    ),
    (
        b"tick c12 g7 18446744073709551615",
        "Tick { call: Call { number: 12 }, gauge: Gauge { number: 7 }, amount: 18446744073709551615 }",
    ),
    (b"advance c13", "Advance { call: Call { number: 13 } }"),
    (
        b"set c14 4294967295 e63 14",
        "Set { call: Call { number: 14 }, due: 4294967295, element: Element { number: 63 }, signal: Signal { number: 14 } }",
    ),
    (
        b"fire c15 15",
        "Fire { call: Call { number: 15 }, slot: Slot { number: 15 } }",
    ),
    (
        b"cancel c16 0",
        "Cancel { call: Call { number: 16 }, slot: Slot { number: 0 } }",
    ),
    (
        b"join c17 c18",
        "Join { call: Call { number: 17 }, other: Call { number: 18 } }",
    ),
    (
        b"shut c19 q7",
        "Shut { call: Call { number: 19 }, queue: QueueNumber { number: 7 } }",
    ),
    (
        b"waitat c20 w15 e63 4294967295",
        "WaitAt { call: Call { number: 20 }, wait: WaitNumber { number: 15 }, element: Element { number: 63 }, ticket: 4294967295 }",
    ),
    (
        b"take c21 q0 4294967295",
        "Take { call: Call { number: 21 }, queue: Bytes(QueueNumber { number: 0 }), count: 4294967295 }",
    ),
];

/// Whether a list of the third version with this one line is read as this one event, for 64 elements.
fn is_event(alloc: Global, line: &[u8], event: &str) -> Option<bool> {
    let mut text = Vec::from_slice(alloc, b"events 3\n").ok()?;
    text.extend_from_slice(line).ok()?;
    let (elements, events) = parse_events(alloc, &text).ok()?;
    Some(match events.as_slice() {
        [(line, said)] => (elements, *line) == (64, 2) && shows(alloc, said, event),
        _ => false,
    })
}

#[test]
fn each_word_says_its_event(rt: HostRuntime) {
    for (line, event) in EVENTS {
        assert!(rt; is_event(rt.alloc(), line, event) == Some(true));
    }
}

/// If an allocation is refused, the next try is not affected. A fault of the text is reported whether there is memory
/// or not.
///
/// `tools/refused/memory tests` refuses an allocation of this test, and its word `programs` each one of the
/// built program, in lists with and without a fault.
#[test]
fn memory_may_run_out(rt: HostRuntime) {
    let faulty = b"events 1\nclaim c1 q0 1 2 3 4 5\nclaim c1 q0 1 2 3\nqueue\n";
    let sound = b"events 1\nclaim c1 q0 1 2 3 4 5\nchain\n";
    let mut read = false;
    for _ in 0..2 {
        assert!(rt; fault_of(rt.alloc(), faulty.as_slice()) == (4, 3));
        match fault_of(rt.alloc(), sound.as_slice()) {
            (0, 10) => {}
            fault => {
                assert!(rt; fault == (0, 0));
                read = true;
            }
        }
    }
    assert!(rt; read);
}

#[test]
fn versions_have_their_elements_and_laws_hold(rt: HostRuntime) {
    for (version, elements) in [(Version::One, 16), (Version::Two, 16), (Version::Three, 64)] {
        assert!(rt; version.elements() == elements);
    }
    laws::one_spelling();
    laws::read_again();
    laws::whole_text();
    laws::memory_is_no_fault();
}
