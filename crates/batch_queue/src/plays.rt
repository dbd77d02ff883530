//! The report of each step to its end. These types are for the proofs alone.
ghost use Rattle.std.specs.Prelude.{ℕ, List, []};
ghost use Rattle.batch_queue.specs.Steps.{finds, claims, releases_under, takes_tail, frees, shuts, parts};

use crate::rule::View;
use atomic_table::Play;
use std::marker::{Brand, PhantomData};
use table_theory::protocol::Protocol;

pub struct Finds;

impl Play<u64, View> for Finds {
    ghost then = { finds };
}

/// The items of a claim.
pub trait ClaimItems {
    ghost items: { List ℕ };
}

impl ClaimItems for Brand {
    ghost items = { [] };
}

pub struct Claims<J> {
    marker: PhantomData<J>,
}

impl<J: ClaimItems> Play<u64, View> for Claims<J> {
    ghost then = { claims J.items };
}

/// A publication or a giving back, under the client's protocol C.
pub struct Releases<C> {
    client: PhantomData<C>,
}

impl<C: Protocol> Play<u64, View> for Releases<C> {
    ghost then = { releases_under C.allows };
}

pub struct Takes;

impl Play<u64, View> for Takes {
    ghost then = { takes_tail };
}

pub struct Frees;

impl Play<u64, View> for Frees {
    ghost then = { frees };
}

/// The position at which a batch is parted, and the position at which the batch ends.
pub trait PartPosition {
    ghost position: { ℕ };

    ghost end: { ℕ };
}

impl PartPosition for Brand {
    ghost position = { 0 };

    ghost end = { 0 };
}

pub struct Parts<J> {
    marker: PhantomData<J>,
}

impl<J: PartPosition> Play<u64, View> for Parts<J> {
    ghost then = { parts J.position J.end };
}

pub struct Shuts;

impl Play<u64, View> for Shuts {
    ghost then = { shuts };
}
