//! The contents of a handle, of any kind.
use crate::batch::held::HeldBatch;
use crate::chain::held::HeldChain;
use crate::hand::held::HeldHand;
use crate::line::held::{HeldIn, HeldOut};
use crate::queue::held::HeldQueue;
use crate::seat::held::HeldSeat;

/// An end of an object.
#[derive(Drop)]
pub enum Payload {
    Batch(HeldBatch),
    Queue(HeldQueue),
    Chain(HeldChain),
    Hand(HeldHand),
    Seat(HeldSeat),
    LineIn(HeldIn),
    LineOut(HeldOut),
}
