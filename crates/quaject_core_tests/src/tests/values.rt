//! Names, lists and refusals.

use super::*;
use std::fmt::Display;

/// The nine numbers as names: a call, a queue, a chain, a wait queue, a processor, an element, a signal, a gauge and a
/// slot.
fn named(numbers: [u8; 9]) -> [Option<u8>; 9] {
    let [
        call,
        queue,
        chain,
        wait,
        processor,
        element,
        signal,
        gauge,
        slot,
    ] = numbers;
    [
        Call::new(call).map(Call::number),
        QueueNumber::new(queue).map(QueueNumber::number),
        ChainNumber::new(chain).map(ChainNumber::number),
        WaitNumber::new(wait).map(WaitNumber::number),
        Processor::new(processor).map(Processor::number),
        Element::new(element).map(Element::number),
        Signal::new(signal).map(Signal::number),
        Gauge::new(gauge).map(Gauge::number),
        Slot::new(slot).map(Slot::number),
    ]
}

#[test]
fn names_stay_in_their_ranges(rt: HostRuntime) {
    let last = [
        Some(63),
        Some(7),
        Some(7),
        Some(15),
        Some(7),
        Some(63),
        Some(15),
        Some(7),
        Some(15),
    ];
    assert!(rt; named([63, 7, 7, 15, 7, 63, 15, 7, 15]) == last);
    assert!(rt; named([64, 8, 8, 16, 8, 64, 16, 8, 16]) == [None; 9]);
}

/// Whether a list of these items shows them, and returns them.
fn gives_back<T: Copy + PartialEq>(alloc: Global, items: &[T]) -> bool {
    let Ok(list) = items.to_vec(alloc) else {
        return false;
    };
    let list = Items::new(list);
    list.as_slice() == items && list.into_vec().as_slice() == items
}

const SHUT: QueueStatus = QueueStatus {
    capacity: 4,
    runs: 2,
    put: 3,
    taken: 0,
    left: 3,
    raised: 1,
    shut: true,
};

const STATUS: ChainStatus = ChainStatus {
    put: 2,
    taken: 1,
    left: 1,
    gate: Gate::More,
};

#[test]
fn lists_give_their_items_back(rt: HostRuntime) {
    assert!(rt; gives_back(rt.alloc(), &[3, 4]));
    assert!(rt; gives_back(rt.alloc(), &[SHUT]));
    assert!(rt; gives_back(rt.alloc(), &[STATUS]));
    assert!(rt; gives_back(rt.alloc(), &[FREE]));
}

const REFUSALS: &[(Refusal, u8, &str)] = &[
    (Refusal::UnknownName, 1, "UnknownName"),
    (Refusal::NoItems, 2, "NoItems"),
    (Refusal::TooLong, 3, "TooLong"),
    (Refusal::Full, 4, "Full"),
    (Refusal::NotOwner, 5, "NotOwner"),
    (Refusal::AlreadyRaised, 6, "AlreadyRaised"),
    (Refusal::NotRaised, 7, "NotRaised"),
    (Refusal::NotHeld, 8, "NotHeld"),
    (Refusal::ProcessorBusy, 9, "ProcessorBusy"),
    (Refusal::ProcessorEmpty, 10, "ProcessorEmpty"),
    (Refusal::NotStopped, 11, "NotStopped"),
    (Refusal::GateBusy, 12, "GateBusy"),
    (Refusal::NotRunner, 13, "NotRunner"),
    (Refusal::OutOfMemory, 14, "OutOfMemory"),
    (Refusal::Closed, 15, "Closed"),
    (Refusal::Moved, 16, "Moved"),
];

fn is_called<T: Copy + Display>(alloc: Global, refusal: T, name: &str) -> bool {
    format!(in alloc; "{refusal}").is_ok_and(|text| text.as_str() == name)
}

#[test]
fn refusals_have_names_and_numbers(rt: HostRuntime) {
    for (refusal, number, name) in REFUSALS {
        assert!(rt; *refusal as u8 == *number);
        assert!(rt; is_called(rt.alloc(), *refusal, name));
    }
    assert!(rt; is_called(rt.alloc(), OutOfMemory, "no memory"));
}
