//! The report of each step. These types are for the proofs alone.
ghost use Rattle.std.specs.Prelude.{ℕ, List};
ghost use Rattle.table_theory.specs.Ledgers.{rest_of, rest_without, newborn, newborn_with, both, emptied};
ghost use Rattle.proc_chain.specs.Own.{View, nothing_did, did_both};
ghost use Rattle.proc_chain.specs.Rules.{view_from};
ghost use Rattle.proc_chain.specs.Steps.{finds, claims, raises, spies, takes, notifies, rounds, leaves};
ghost use Rattle.proc_chain.specs.Steps.{counts_up, counts_down};

use crate::quaject::Quaject;
use crate::rule::View;
use atomic_table::{Join, Play, Split};
use std::marker::{Brand, PhantomData};
use table_theory::end_steps::Portion;

pub struct Finds;

impl<Q> Play<Q, View> for Finds {
    ghost then = { finds };
}

/// The note of a claim.
pub trait ClaimedNote {
    ghost note: { ℕ };
}

impl ClaimedNote for Brand {
    ghost note = { 0 };
}

pub struct Claims<J> {
    marker: PhantomData<J>,
}

impl<Q, J: ClaimedNote> Play<Q, View> for Claims<J> {
    ghost then = { claims J.note };
}

pub struct Raises;

impl<Q> Play<Q, View> for Raises {
    ghost then = { raises };
}

pub struct Spies;

impl<Q> Play<Q, View> for Spies {
    ghost then = { spies };
}

pub struct Takes;

impl<Q> Play<Q, View> for Takes {
    ghost then = { takes };
}

/// For an end that may get the turn: which quajects its notes make, and which quajects suit the chain.
pub trait Runner<Q> {
    ghost made: { Q → List ℕ → Type 0 };

    ghost suits: { Q → Type 0 };
}

impl<Q> Runner<Q> for Brand {
    ghost made = { λ _ _. Unit {0} };

    ghost suits = { λ _. Unit {0} };
}

pub struct Notifies<J> {
    marker: PhantomData<J>,
}

impl<Q: Quaject, J: Runner<Q>> Play<Q, View> for Notifies<J> {
    ghost then = { notifies J.made J.suits };
}

pub struct Rounds;

impl<Q> Play<Q, View> for Rounds {
    ghost then = { rounds };
}

pub struct Leaves;

impl<Q> Play<Q, View> for Leaves {
    ghost then = { leaves };
}

pub struct CountsUp;

impl<Q> Play<Q, View> for CountsUp {
    ghost then = { counts_up };
}

pub struct CountsDown;

impl<Q> Play<Q, View> for CountsDown {
    ghost then = { counts_down };
}

pub struct Gives;

impl Split<View> for Gives {
    ghost left = { rest_of };

    ghost right = { newborn nothing_did };
}

pub struct GivesShare<J> {
    marker: PhantomData<J>,
}

impl<J: Portion> Split<View> for GivesShare<J> {
    ghost left = { rest_without J.parts };

    ghost right = { newborn_with J.parts nothing_did };
}

pub struct HandsOver;

impl Split<View> for HandsOver {
    ghost left = { emptied nothing_did };

    ghost right = { λ v. v };
}

/// The view of an end that was taken in.
pub trait Spent {
    ghost view: { View };
}

impl Spent for Brand {
    ghost view = { view_from 0 };
}

pub struct Joins<J> {
    marker: PhantomData<J>,
}

impl<J: Spent> Join<View> for Joins<J> {
    ghost both = { both did_both };

    ghost spent = { J.view };
}
