//! The atomic events of the core.

use crate::items::Items;
use crate::names::{
    Call, ChainNumber, Element, Gauge, Processor, QueueName, QueueNumber, Signal, Slot, WaitNumber,
};

/// One atomic step of the kernel, on the core's plain data.
#[derive(Debug, Drop)]
pub enum Event {
    /// Makes a queue of this capacity, with the next number.
    Queue {
        capacity: u16,
    },
    /// Makes a chain, with the next number.
    Chain,
    /// Appends a run of the call with these items; elements then are no longer held by the call.
    Claim {
        call: Call,
        queue: QueueName,
        items: Items<u64>,
    },
    /// Raises one item of a run, by the run's number and the item's index in it; in a chain the call then owes a
    /// notify.
    Raise {
        call: Call,
        queue: QueueName,
        run: u32,
        index: u32,
    },
    /// Takes the first items that are left; elements then are held by the call.
    Take {
        call: Call,
        queue: QueueName,
        count: u32,
    },
    /// Puts an element that the call holds on a processor.
    On {
        call: Call,
        processor: Processor,
        element: Element,
    },
    /// Takes the element off a processor that the call put it on.
    Off {
        call: Call,
        processor: Processor,
    },
    /// Sets the stop bit of an element.
    Stop {
        call: Call,
        element: Element,
    },
    /// Puts an element that the call holds into its stop cell.
    Park {
        call: Call,
        element: Element,
    },
    /// Clears the stop bit of an element. If the element is in its stop cell, the call then holds it.
    Start {
        call: Call,
        element: Element,
    },
    /// Makes a signal of an element pending.
    Signal {
        call: Call,
        element: Element,
        signal: Signal,
    },
    /// Delivers the pending signals of an element that the call holds.
    Deliver {
        call: Call,
        element: Element,
    },
    /// Counts one more step of an element that the call holds or put on a processor.
    Done {
        call: Call,
        element: Element,
    },
    /// Notifies a chain that something was raised in it. If the chain's gate was Idle, the call becomes the runner.
    Notify {
        call: Call,
        chain: ChainNumber,
    },
    /// Counts one more notify of a wait queue.
    NotifyWait {
        call: Call,
        wait: WaitNumber,
    },
    /// The runner begins another round.
    Round {
        call: Call,
        chain: ChainNumber,
    },
    /// The runner leaves the chain.
    Leave {
        call: Call,
        chain: ChainNumber,
    },
    /// A gauge grows, modulo 2^64.
    Tick {
        call: Call,
        gauge: Gauge,
        amount: u64,
    },
    /// The clock grows by one.
    Advance {
        call: Call,
    },
    /// Sets an alarm in the first empty slot.
    Set {
        call: Call,
        due: u32,
        element: Element,
        signal: Signal,
    },
    /// Takes an alarm that is due out of its slot.
    Fire {
        call: Call,
        slot: Slot,
    },
    /// Takes an alarm out of its slot.
    Cancel {
        call: Call,
        slot: Slot,
    },
    /// Shuts a byte queue.
    Shut {
        call: Call,
        queue: QueueNumber,
    },
    /// Claims a place in a wait queue for an element that the call holds, if the ticket is the queue's notify count.
    WaitAt {
        call: Call,
        wait: WaitNumber,
        element: Element,
        ticket: u32,
    },
    /// All that the other call owns, holds, runs, owes or put on a processor becomes the call's.
    Join {
        call: Call,
        other: Call,
    },
}
