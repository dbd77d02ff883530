//! The numbers of a core's state.

use crate::items::Items;
use crate::names::{Call, Processor, WaitNumber};

/// The numbers of one byte queue, in items except for `runs`.
#[derive(Clone, Copy, Debug, PartialEq, Eq)]
pub struct QueueStatus {
    /// How many items may be left at once.
    pub capacity: u16,
    /// How many claims were made.
    pub runs: u64,
    /// How many items were claimed.
    pub put: u64,
    /// How many items were taken.
    pub taken: u64,
    /// How many items were claimed and not taken.
    pub left: u64,
    /// How many of those left are raised.
    pub raised: u64,
    /// Whether it was shut.
    pub shut: bool,
}

/// The gate of a chain.
#[derive(Clone, Copy, Debug, PartialEq, Eq)]
pub enum Gate {
    /// Nobody runs the notes.
    Idle,
    /// The runner has seen all notifies.
    Running,
    /// There was a notify since the runner's last round.
    More,
}

/// The numbers of one chain, in notes.
#[derive(Clone, Copy, Debug, PartialEq, Eq)]
pub struct ChainStatus {
    /// How many notes were claimed.
    pub put: u64,
    /// How many notes were taken.
    pub taken: u64,
    /// How many notes were claimed and not taken.
    pub left: u64,
    pub gate: Gate,
}

/// The place of an element.
#[derive(Clone, Copy, Debug, PartialEq, Eq)]
pub enum Place {
    /// On a processor.
    Processor(Processor),
    /// In the ready ring.
    Ready,
    /// In a wait queue.
    Wait(WaitNumber),
    /// In its own stop cell.
    Stopped,
    /// Among the free elements.
    Free,
    /// Held by a call.
    Held(Call),
}

/// The numbers of one element.
#[derive(Clone, Copy, Debug, PartialEq, Eq)]
pub struct ElementStatus {
    pub place: Place,
    /// How many steps are done.
    pub done: u32,
    /// Bit s is set if signal s is pending.
    pub pending: u16,
    /// Whether its stop bit is set.
    pub stop: bool,
}

/// How many alarms were set, fired and cancelled.
#[derive(Clone, Copy, Debug, PartialEq, Eq)]
pub struct AlarmStatus {
    pub set: u64,
    pub fired: u64,
    pub cancelled: u64,
}

/// The numbers of a core.
#[derive(Debug, Drop)]
pub struct Status {
    /// How many events were allowed since the core was made, modulo 2^64.
    pub events: u64,
    /// Each byte queue, from queue 0 on.
    pub queues: Items<QueueStatus>,
    /// Each chain, from chain 0 on.
    pub chains: Items<ChainStatus>,
    /// Each element, from element 0 on.
    pub elements: Items<ElementStatus>,
    /// Each gauge, from gauge 0 on.
    pub gauges: [u64; 8],
    pub clock: u32,
    pub alarms: AlarmStatus,
    /// How many notifies each wait queue had, modulo 2^32, from wait queue 0 on.
    pub notified: [u32; 16],
}
