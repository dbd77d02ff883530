//! The result of each step. These types are for the proofs alone.
ghost use Rattle.std.specs.Prelude.{ℕ, List, Bool, []};
ghost use Rattle.event_theory.specs.declared.event.Event.{Event};
ghost use Rattle.event_theory.specs.declared.event.Event.TheVariants as events;
ghost use Rattle.thread_table.specs.Steps.{finds, makes, stores, tries, reads_pc, counts_up, counts_down};
ghost use Rattle.thread_table.specs.Steps.{rest_of, rest_without, newborn, newborn_with, both};
ghost use Rattle.thread_table.specs.Rules.{newcomer};
ghost use Rattle.thread_table.specs.Own.{View};

use crate::rule::View;
use atomic_table::{Join, Play, Split};
use std::marker::{Brand, PhantomData};

/// The call of a step that makes no event, and the element whose number of steps it finds.
pub trait Caller {
    ghost call: { ℕ };

    ghost element: { ℕ };
}

impl Caller for Brand {
    ghost call = { 0 };

    ghost element = { 0 };
}

/// The event that a step is, and its call.
pub trait EventOf {
    ghost call: { ℕ };

    ghost event: { Event };
}

impl EventOf for Brand {
    ghost call = { 0 };

    ghost event = { events.Chain };
}

pub struct Look<J> {
    marker: PhantomData<J>,
}

impl<J: Caller> Play<(), View> for Look<J> {
    ghost then = { finds J.call };
}

pub struct Makes<J> {
    marker: PhantomData<J>,
}

impl<J: EventOf> Play<(), View> for Makes<J> {
    ghost then = { makes J.call J.event };
}

pub struct Stores<J> {
    marker: PhantomData<J>,
}

impl<J: EventOf> Play<(), View> for Stores<J> {
    ghost then = { stores J.call J.event };
}

pub struct Tries<J> {
    marker: PhantomData<J>,
}

impl<J: EventOf> Play<(), View> for Tries<J> {
    ghost then = { tries J.call J.event };
}

pub struct LoadDone<J> {
    marker: PhantomData<J>,
}

impl<J: Caller> Play<(), View> for LoadDone<J> {
    ghost then = { reads_pc J.call J.element };
}

pub struct CountUp<J> {
    marker: PhantomData<J>,
}

impl<J: Caller> Play<(), View> for CountUp<J> {
    ghost then = { counts_up J.call };
}

pub struct CountDown<J> {
    marker: PhantomData<J>,
}

impl<J: Caller> Play<(), View> for CountDown<J> {
    ghost then = { counts_down J.call };
}

/// The processors that a new hand serves.
pub trait Mask {
    ghost mask: { List Bool };
}

impl Mask for Brand {
    ghost mask = { [] };
}

pub struct Halves<J> {
    marker: PhantomData<J>,
}

impl<J: Mask> Split<View> for Halves<J> {
    ghost left = { rest_of J.mask };

    ghost right = { newborn J.mask };
}

/// The processors that a new hand serves, and the number of its parts.
pub trait MaskedPortion {
    ghost mask: { List Bool };

    ghost parts: { ℕ };
}

impl MaskedPortion for Brand {
    ghost mask = { [] };

    ghost parts = { 0 };
}

pub struct GivesShare<J> {
    marker: PhantomData<J>,
}

impl<J: MaskedPortion> Split<View> for GivesShare<J> {
    ghost left = { rest_without J.parts J.mask };

    ghost right = { newborn_with J.parts J.mask };
}

/// The view of a hand that was taken in.
pub trait Spent {
    ghost view: { View };
}

impl Spent for Brand {
    ghost view = { newcomer (record { first = 0 }) };
}

pub struct Joins<J> {
    marker: PhantomData<J>,
}

impl<J: Spent> Join<View> for Joins<J> {
    ghost both = { both };

    ghost spent = { J.view };
}
