//! The result of an element's turn.

use crate::phases::Rescheduled;
use turn_dispatch::{Begun, Idle};

/// The result of the turn of an element at hand.
#[derive(Drop)]
pub enum TurnResult {
    /// All its steps were done, and it was retired. If it wasn't, the free elements have no position left, and the hand
    /// holds it.
    Retired(bool),
    /// Its next step was tried, and it went on.
    Ran(Rescheduled),
}

/// The result of an element's turn, if one was at hand.
#[derive(Drop)]
pub enum TurnOutcome {
    Idle(Idle),
    OfElement(Begun, TurnResult),
}
