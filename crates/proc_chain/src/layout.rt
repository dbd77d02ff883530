//! The words of a chain's table: the head and the number of ends, then the tail, then the gate, and then a word for
//! each place of the queue of notes. The place of a position is the position modulo the number of places.
//!
//! The head, the tail, the gate and the places are 8 words apart. So no two of them are in one cache line of 64 bytes,
//! wherever the block begins. Ends that chain write the head, the runner alone writes the tail, and both write the
//! gate: in one line they would invalidate it for each other at every step. So the words 2 to 7, 9 to 15 and 17 to 23
//! are not used, and are 0. Only `split`, `join` and `close` use the number of ends, so it can be beside the head.
ghost use Rattle.std.specs.Prelude.{◌≡◌};
ghost use Rattle.proc_chain.specs.Layout.{place_word};

/// The position of the next claim.
pub(crate) const HEAD: usize = 0;

/// The number of ends that exist.
pub(crate) const ENDS: usize = 1;

/// The position of the next note that is taken.
pub(crate) const TAIL: usize = 8;

/// The gate: `IDLE`, `RUNNING` or `MORE`.
pub(crate) const GATE: usize = 16;

/// The first of the places' words.
pub(crate) const FIRST_PLACE: usize = 24;

/// The number of places.
pub(crate) const PLACES: usize = 32;

/// The number of words.
pub(crate) const WORDS: usize = FIRST_PLACE + PLACES;

/// Nobody runs notes, and the quaject lies in the chain.
pub(crate) const IDLE: u64 = 0;

/// One end has the turn, and no notify came since its last round.
pub(crate) const RUNNING: u64 = 1;

/// One end has the turn, and a notify came since its last round.
pub(crate) const MORE: u64 = 2;

/// A note is below this: it has the lower 16 bits of its place's word.
pub(crate) const NOTES: u64 = 65_536;

/// A mark is below this: it has the other 48 bits.
pub(crate) const MARKS: u64 = 281_474_976_710_656;

/// The word of the place of this position.
pub(crate) fn place_word(position: usize) -> usize
    ensures { result ≡ place_word position }
{
    position % PLACES + FIRST_PLACE
}
