//! A queue of a table by its positions, and the knowledge of one end of it. Only proofs use these types.
//!
//! A position is a place of the queue from its beginning on, so no position is ever used twice. The words of a table
//! have positions modulo their number of places; `laws` says how both fit together.

use std::collections::LinkedList;

/// A claimed place: its item, and how many of its two stores are done. After the second it is raised.
pub struct Cell {
    pub item: u64,
    pub stage: u64,
}

/// Places side by side, the first of which has the position `start`: a run, or what one step took.
pub struct Batch {
    pub start: u64,
    pub places: LinkedList<Cell>,
}

/// A queue by its positions: each place that was ever claimed, the first of which has the position `first`.
pub struct Positions {
    pub first: u64,
    pub room: u64,
    pub places: LinkedList<Cell>,
    pub taken: u64,
    pub shut: bool,
}

/// The knowledge of an end about one queue: the queue as it was at the end's last step, its own runs and what it took.
pub struct QueueView {
    pub queue: Positions,
    pub runs: LinkedList<Batch>,
    pub takes: LinkedList<Batch>,
}
