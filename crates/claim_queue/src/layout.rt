//! The words of a queue's table: the head and the number of ends, then the tail, and then two words for each place of
//! the queue, its item and beside it its flag. The place of a position is the position modulo the number of places.
//!
//! The head, the tail and the places are in cache lines of their own, of 8 words each, as in the rings of DPDK and of
//! `crossbeam`. Producers write the head, and takers write the tail: in one line they would invalidate it for each
//! other at every step. So the words 2 to 7 and 9 to 15 are never used, and the rule says that they are 0: no step can
//! write one. The lines begin at these words only if the table's memory begins at a line, which is not guaranteed. Only
//! `split`, `join` and `close` use the number of ends, so it can be beside the head. An end that reads a flag reads the
//! item too, so they are neighbours.
ghost use Rattle.std.specs.Prelude.{◌≡◌, ◌<◌, ◌≤◌};
ghost use Rattle.claim_queue.specs.Layout.{data_word, flag_word, width};
ghost use Rattle.claim_queue.specs.declared.layout.TheConstants.{MOST_PLACES};

use table_theory::positions::POSITIONS;

/// The position of the next claim, and the mark of a shut queue.
pub(crate) const HEAD: usize = 0;

/// The number of ends that exist.
pub(crate) const ENDS: usize = 1;

/// The position of the next item that is taken.
pub(crate) const TAIL: usize = 8;

/// The first word of the places.
pub(crate) const FIRST_PLACE: usize = 16;

/// The greatest number of places of a queue.
pub(crate) const MOST_PLACES: usize = 256;

/// The mark of a shut queue in the head word: the bit above the positions.
pub(crate) const SHUT: u64 = POSITIONS;

/// The number of words of a queue of `room` places.
pub(crate) fn width(room: usize) -> usize
    requires { room ≤ MOST_PLACES }
    ensures { result ≡ width room }
{
    room + room + FIRST_PLACE
}

/// The word of the item at this position.
pub(crate) fn data_word(room: usize, position: usize) -> usize
    requires { (0 < room) × (room ≤ MOST_PLACES) }
    ensures { result ≡ data_word room position }
{
    2 * (position % room) + FIRST_PLACE
}

/// The word of the flag at this position.
pub(crate) fn flag_word(room: usize, position: usize) -> usize
    requires { (0 < room) × (room ≤ MOST_PLACES) }
    ensures { result ≡ flag_word room position }
{
    2 * (position % room) + FIRST_PLACE + 1
}
