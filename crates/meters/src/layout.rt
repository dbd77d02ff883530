//! The positions of the words of the meters' table: the number of ends, the gauges, the clock and the slots for alarms;
//! and the positions of the parts of an alarm in the word of its slot.

/// The word of the number of ends.
pub(crate) const ENDS: usize = 0;

/// The word of gauge 0.
pub(crate) const FIRST_GAUGE: usize = 1;

/// The number of gauges.
pub(crate) const GAUGES: usize = 8;

/// The word of the clock.
pub(crate) const CLOCK: usize = FIRST_GAUGE + GAUGES;

/// The word of slot 0.
pub(crate) const FIRST_SLOT: usize = CLOCK + 1;

/// The number of slots.
pub(crate) const SLOTS: usize = 16;

/// The number of words.
pub(crate) const WORDS: usize = FIRST_SLOT + SLOTS;

/// A tick is below this, 2^32: it has bits 0 to 31 of a slot's word.
pub(crate) const TICKS: u64 = 4_294_967_296;

/// The last tick of the clock.
pub(crate) const LAST_TICK: u64 = TICKS - 1;

/// The element's lowest bit, bit 32.
pub(crate) const ELEMENT: u64 = TICKS;

/// The signal's lowest bit, bit 40.
pub(crate) const SIGNAL: u64 = 1_099_511_627_776;

/// The element and the signal have 8 bits each: each is below this.
pub(crate) const FIELD: u64 = 256;

/// An element's number is below this.
pub(crate) const ELEMENTS: u64 = 64;

/// A signal's number is below this.
pub(crate) const SIGNALS: u64 = 16;

/// Bit 63: the slot has an alarm.
pub(crate) const STANDS: u64 = 9_223_372_036_854_775_808;
