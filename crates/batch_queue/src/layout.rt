//! The words of a queue's table: the head and the number of ends, then the tail, then the free position, and then a
//! mark for each place of the queue. The place of a position is the position modulo the number of places, which is a
//! power of two.
//!
//! The head, the tail, the free position and the marks are 16 words apart. So no two of them are in one cache line, or
//! in a pair of lines that a processor fetches together. The words between them are never used: each stays 0.
ghost use Rattle.std.specs.Prelude.{◌≡◌, ◌%◌, ◌<◌, ◌≤◌};
ghost use Rattle.batch_queue.specs.Layout.{IsPowerOfTwo, mark_word, width};
ghost use Rattle.batch_queue.specs.declared.layout.TheConstants.{MOST_PLACES};

/// The position of the next claim, and the mark of a shut queue.
pub(crate) const HEAD: usize = 0;

/// The number of ends that exist.
pub(crate) const ENDS: usize = 1;

/// The position of the next item that is taken.
pub(crate) const TAIL: usize = 16;

/// The places of the positions before this one are given back.
pub(crate) const FREE: usize = 32;

/// The mark of the first place.
pub(crate) const FIRST_MARK: usize = 48;

/// The greatest number of places of a queue, 2^24.
pub const MOST_PLACES: usize = 16_777_216;

/// No claim ends at this position or after it, 2^62.
pub(crate) const POSITIONS: u64 = 4_611_686_018_427_387_904;

/// The mark of a shut queue in the head word: its top bit.
pub(crate) const SHUT: u64 = 9_223_372_036_854_775_808;

/// The number of words of a queue of `room` places.
pub(crate) fn width(room: usize) -> usize
    requires { room ≤ MOST_PLACES }
    ensures { result ≡ width room }
{
    room + FIRST_MARK
}

/// The place of a position.
pub(crate) fn place(room: usize, position: u64) -> usize
    requires { (0 < room) × IsPowerOfTwo room }
    ensures { result ≡ position % room }
{
    (position & (room as u64 - 1)) as usize
}

/// The word of the mark of a position.
pub(crate) fn mark_word(room: usize, position: u64) -> usize
    requires { (0 < room) × (room ≤ MOST_PLACES) × IsPowerOfTwo room }
    ensures { result ≡ mark_word room position }
{
    place(room, position) + FIRST_MARK
}
