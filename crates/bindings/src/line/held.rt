//! The ends of a line that handles hold.
use spsc_line::{LineIn, LineOut};

/// The end of a line that pushes. `mark` is the number that the line was given.
#[derive(Drop)]
pub struct HeldIn {
    pub line: LineIn,
    pub mark: u64,
}

/// The end of a line that pops. `mark` is the number that the line was given.
#[derive(Drop)]
pub struct HeldOut {
    pub line: LineOut,
    pub mark: u64,
}
