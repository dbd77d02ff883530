//! The parts of the words of the table.
ghost use Rattle.std.specs.Prelude.{◌≡◌, ◌+◌, ◌*◌, ◌<◌, ◌%◌, MatchBool};
ghost use Rattle.std.specs.Int.{bit_at};
ghost use Rattle.std.specs.Int.Bits.{bit_or, bit_and};
ghost use Rattle.table_theory.specs.declared.positions.TheConstants.{POSITIONS};
ghost use Rattle.thread_table.specs.declared.layout.TheConstants.{NOTIFY, STOP, CELL, SIGNAL_BITS, STOP_BITS};
ghost use Rattle.thread_table.specs.Layout.{stop_bit, cell_bit};

use crate::layout::{CELL, NOTIFY, SIGNAL_BITS, STOP, STOP_BITS};

/// The word of a place with an element in it: bits 0 to 7 are the element, bits 8 to 39 one more than the position.
#[derive(Clone, Copy)]
pub(crate) struct PlaceWord {
    pub(crate) element: u8,
    pub(crate) mark: u64,
}

impl PlaceWord {
    /// The parts of the word.
    pub(crate) fn of(word: u64) -> PlaceWord
        ensures { word ≡ result.element + 256 * result.mark }
    {
        PlaceWord {
            element: (word % 256) as u8,
            mark: word / 256,
        }
    }

    /// The word of a raised place.
    pub(crate) fn word(self) -> u64
        requires { self.mark < POSITIONS }
        ensures { result ≡ self.element + 256 * self.mark }
    {
        self.element as u64 + 256 * self.mark
    }
}

/// The head word of an element queue: bits 0 to 31 are the head, bits 32 to 63 the number of notifies.
#[derive(Clone, Copy)]
pub(crate) struct HeadWord {
    pub(crate) head: u64,
    pub(crate) mark: u32,
}

impl HeadWord {
    /// The parts of the word.
    pub(crate) fn of(word: u64) -> HeadWord
        ensures { (word ≡ result.head + result.mark * NOTIFY) × (result.head < POSITIONS) }
    {
        HeadWord {
            head: word % NOTIFY,
            mark: (word / NOTIFY) as u32,
        }
    }
}

/// A state word: bits 0 to 15 are the pending signals, bit 16 is the stop bit, bit 17 the stop cell.
#[derive(Clone, Copy)]
pub(crate) struct StateWord {
    pub(crate) word: u64,
}

impl StateWord {
    /// The pending signals.
    pub(crate) fn pending(self) -> u16
        ensures { result ≡ self.word % STOP }
    {
        (self.word % STOP) as u16
    }

    /// Whether the stop bit is set.
    pub(crate) fn is_stopping(self) -> bool
        ensures { MatchBool result (bit_at self.word stop_bit ≡ 1) (bit_at self.word stop_bit ≡ 0) }
    {
        self.word / STOP % 2 == 1
    }

    /// Whether the signal is pending.
    pub(crate) fn is_pending(self, signal: u8) -> bool
        requires { signal < 16 }
        ensures { MatchBool result (bit_at self.word signal ≡ 1) (bit_at self.word signal ≡ 0) }
    {
        self.word >> signal & 1 == 1
    }

    /// Whether the element is in its stop cell.
    pub(crate) fn is_parked(self) -> bool
        ensures { MatchBool result (bit_at self.word cell_bit ≡ 1) (bit_at self.word cell_bit ≡ 0) }
    {
        self.word / CELL % 2 == 1
    }

    /// The word with the stop cell's bit set.
    pub(crate) fn parked(self) -> u64
        ensures { result ≡ bit_or self.word CELL }
    {
        self.word | CELL
    }

    /// The word with neither the stop bit nor the stop cell's.
    pub(crate) fn started(self) -> u64
        ensures { result ≡ bit_and self.word SIGNAL_BITS }
    {
        self.word & SIGNAL_BITS
    }

    /// The word without pending signals.
    pub(crate) fn delivered(self) -> u64
        ensures { result ≡ bit_and self.word STOP_BITS }
    {
        self.word & STOP_BITS
    }
}
