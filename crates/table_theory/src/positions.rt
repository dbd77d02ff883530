//! The limit of the positions of a table's queues.

/// A queue of a table hands out positions below this one, 2^32. A word's lower half holds each of them, and the bits
/// above are free for marks.
pub const POSITIONS: u64 = 4_294_967_296;
