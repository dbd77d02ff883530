//! The report of each step. These types are for the proofs alone.
ghost use Rattle.std.specs.Prelude.{ℕ, List, []};
ghost use Rattle.claim_queue.specs.Steps.{finds, claims, writes, takes_under, shuts};

use crate::rule::View;
use atomic_table::Play;
use std::marker::{Brand, PhantomData};
use table_theory::protocol::Protocol;

pub struct Finds;

impl Play<(), View> for Finds {
    ghost then = { finds };
}

/// The items of a claim.
pub trait ClaimItems {
    ghost items: { List ℕ };
}

impl ClaimItems for Brand {
    ghost items = { [] };
}

pub struct Claims<J> {
    marker: PhantomData<J>,
}

impl<J: ClaimItems> Play<(), View> for Claims<J> {
    ghost then = { claims J.items };
}

/// A place of a run: the run's start, and the place's index in it.
pub trait Spot {
    ghost start: { ℕ };

    ghost index: { ℕ };
}

impl Spot for Brand {
    ghost start = { 0 };

    ghost index = { 0 };
}

pub struct StoresData<J> {
    marker: PhantomData<J>,
}

impl<J: Spot> Play<(), View> for StoresData<J> {
    ghost then = { writes J.start J.index 1 };
}

pub struct StoresFlag<J> {
    marker: PhantomData<J>,
}

impl<J: Spot> Play<(), View> for StoresFlag<J> {
    ghost then = { writes J.start J.index 2 };
}

/// A taking, under the client's protocol C.
pub struct Takes<C> {
    client: PhantomData<C>,
}

impl<C: Protocol> Play<(), View> for Takes<C> {
    ghost then = { takes_under C.allows };
}

pub struct Shuts;

impl Play<(), View> for Shuts {
    ghost then = { shuts };
}
