//! Boot scripts, their steps, and faults that move with the text. `examples` has tables of scripts and faults.

use super::shows;
use boot_script::*;
use std::alloc::Global;

/// The plan that the names of `DECLARED` and these lines say.
fn plan_after(alloc: Global, lines: &[u8]) -> Option<BootPlan> {
    let mut text = Vec::from_slice(alloc, DECLARED).ok()?;
    text.extend_from_slice(lines).ok()?;
    parse_boot(alloc, &text).ok()
}

/// The line and the number of the first fault; (0, 0) if there is none.
fn fault_of(alloc: Global, text: &[u8]) -> (u32, u8) {
    match parse_boot(alloc, text) {
        Ok(_) => (0, 0),
        Err(fault) => (fault.line, fault.refusal as u8),
    }
}

/// Names of each kind: the queue q, the pipe p, the ttys t and u, the pump m, the switch s, the gauge g and the threads
/// a and b.
const DECLARED: &[u8] = b"synthesis 3
queue q
pipe p 0 15
tty t
tty u
pump m q p
switch s p q x q y p
gauge g
thread a
thread b
";

/// A step of each kind after these names, and the step that is read.
const STEPS: &[(&[u8], &str)] = &[
    (b"say q hi", "Say { queue: Small(0), text: \"hi\" }"),
    (b"say p", "Say { queue: Small(1), text: \"\" }"),
    (
        b"say u.screen a\\41 \\5C ",
        "Say { queue: Large(3), text: \"aA \\ \" }",
    ),
    (b"hear t.line", "Hear { queue: Large(0) }"),
    (b"hear t.screen", "Hear { queue: Large(1) }"),
    (b"hear u.line", "Hear { queue: Large(2) }"),
    (b"hear p", "Hear { queue: Small(1) }"),
    (b"wait 15", "Wait { wait: WaitNumber { number: 15 } }"),
    (b"wake 0", "Wake { wait: WaitNumber { number: 0 } }"),
    (
        b"signal b 15",
        "Signal { thread: Element { number: 1 }, signal: Signal { number: 15 } }",
    ),
    (b"stop a", "Stop { thread: Element { number: 0 } }"),
    (b"start b", "Start { thread: Element { number: 1 } }"),
    (
        b"tick g 18446744073709551615",
        "Tick { gauge: Gauge { number: 0 }, amount: 18446744073709551615 }",
    ),
    (b"poke s", "Poke { mover: 1 }"),
    (b"pass", "Pass"),
    (b"close p", "Close { queue: 1 }"),
];

/// Whether a line is read as this step of the last thread.
fn is_step(alloc: Global, line: &[u8], step: &str) -> Option<bool> {
    let plan = plan_after(alloc, line)?;
    let wanted = format!(in alloc;
        "Items {{ items: [PlannedThread {{ name: \"a\", steps: Items {{ items: [] }} }}, PlannedThread {{ name: \"b\", steps: Items {{ items: [{step}] }} }}] }}"
    ).ok()?;
    Some(shows(alloc, &plan.threads, wanted.as_str()))
}

#[test]
fn steps_are_read(rt: HostRuntime) {
    for (line, step) in STEPS {
        assert!(rt; is_step(rt.alloc(), line, step) == Some(true));
    }
}

const MORE: &[u8] =
    b"type t ab\\7Fc\ntype u x\ntype t \\0A\nalarm 2 b 3\nqueue r\nmore a\npass\nmore b\nhear r\nmore a\npoke m\n";

const QUEUES: &str =
    "Items { items: [PlannedQueue { name: \"q\", waits: None }, PlannedQueue { name: \"p\", waits: Some(PipeWaits { readers: WaitNumber { number: 0 }, writers: WaitNumber { number: 15 } }) }, PlannedQueue { name: \"r\", waits: None }] }";

const TTYS: &str =
    "Items { items: [PlannedTty { name: \"t\", typed: \"ab\x7Fc\n\" }, PlannedTty { name: \"u\", typed: \"x\" }] }";

const MOVERS: &str =
    "Items { items: [PlannedMover { name: \"m\", mover: Pump { from: 0, to: 1 } }, PlannedMover { name: \"s\", mover: Switch { from: 1, other: 0, ways: [Way { key: 120, to: 0 }, Way { key: 121, to: 1 }] } }] }";

const GAUGES: &str = "Items { items: [\"g\"] }";

const ALARMS: &str =
    "Items { items: [Alarm { due: 2, element: Element { number: 1 }, signal: Signal { number: 3 } }] }";

const THREADS: &str =
    "Items { items: [PlannedThread { name: \"a\", steps: Items { items: [Pass, Poke { mover: 0 }] } }, PlannedThread { name: \"b\", steps: Items { items: [Hear { queue: Small(2) }] } }] }";

#[test]
fn a_plan_has_all_that_is_declared(rt: HostRuntime) {
    let Some(plan) = plan_after(rt.alloc(), MORE) else {
        panic!(rt; "no plan")
    };
    assert!(rt; shows(rt.alloc(), &plan.queues, QUEUES));
    assert!(rt; shows(rt.alloc(), &plan.ttys, TTYS));
    assert!(rt; shows(rt.alloc(), &plan.movers, MOVERS));
    assert!(rt; shows(rt.alloc(), &plan.gauges, GAUGES));
    assert!(rt; shows(rt.alloc(), &plan.alarms, ALARMS));
    assert!(rt; shows(rt.alloc(), &plan.threads, THREADS));
}

/// A script with a switch.
const SWITCH: &[u8] = b"synthesis 1
queue in
queue out
queue rest
switch s in rest x out
thread a
say in xy
say in yz
poke s
poke s
";

/// How many ends of lines a text has, and 1 more for a last line without one.
fn lines_in(text: &[u8]) -> u32 {
    let mut count: u32 = 0;
    let mut begun = false;
    for byte in text {
        begun = *byte != b'\n';
        if !begun {
            count = count.saturating_add(1);
        }
    }
    if begun {
        count.saturating_add(1)
    } else {
        count
    }
}

#[test]
fn a_front_of_a_script_is_read_or_refused_in_its_last_line(rt: HostRuntime) {
    for end in 0..SWITCH.len() {
        let front = &SWITCH[..end];
        let (line, refusal) = fault_of(rt.alloc(), front);
        let last = if front.is_empty() { 1 } else { lines_in(front) };
        assert!(rt; refusal == 0 || line == last);
    }
    assert!(rt; fault_of(rt.alloc(), SWITCH) == (0, 0));
}

/// The script with another byte at this place.
fn changed(alloc: Global, place: usize, byte: u8) -> Option<Vec<u8>> {
    let mut text = Vec::from_slice(alloc, SWITCH).ok()?;
    *text.get_mut(place)? = byte;
    Some(text)
}

#[test]
fn a_byte_that_is_not_ascii_is_reported_in_its_line(rt: HostRuntime) {
    for place in 0..SWITCH.len() {
        if SWITCH[place] != b'\n' {
            let line = lines_in(&SWITCH[..place + 1]);
            let Some(text) = changed(rt.alloc(), place, 0x80) else {
                panic!(rt; "no text")
            };
            assert!(rt; fault_of(rt.alloc(), &text) == (line, 9));
        }
    }
}

/// If an allocation is refused, a valid script is refused only as out of memory, and the fault of an invalid one is
/// still reported. `tools/refused/memory tests` refuses an allocation of this test.
#[test]
fn boot_memory_may_run_out(rt: HostRuntime) {
    let sound = SWITCH;
    let faulty = b"synthesis 1\nqueue q\nthread a\nsay q x\nhear r\n";
    let mut read = false;
    for _ in 0..2 {
        assert!(rt; fault_of(rt.alloc(), faulty.as_slice()) == (5, 6));
        match fault_of(rt.alloc(), sound) {
            (0, 10) => {}
            fault => {
                assert!(rt; fault == (0, 0));
                read = true;
            }
        }
    }
    assert!(rt; read);
}
