//! The result of each step. These types are for the proofs alone.
ghost use Rattle.table_theory.specs.Ledgers.{IsValidView};
ghost use Rattle.table_theory.specs.Plays.{finds};
ghost use Rattle.meters.specs.Own.{of_meters};
ghost use Rattle.meters.specs.Steps.{ticks, advances, sets, fires, cancels};

use crate::rule::View;
use atomic_table::Play;

pub struct Finds;

impl Play<(), View> for Finds {
    ghost then = { finds (IsValidView of_meters) };
}

pub struct Ticks;

impl Play<(), View> for Ticks {
    ghost then = { ticks };
}

pub struct Advances;

impl Play<(), View> for Advances {
    ghost then = { advances };
}

pub struct Sets;

impl Play<(), View> for Sets {
    ghost then = { sets };
}

pub struct Fires;

impl Play<(), View> for Fires {
    ghost then = { fires };
}

pub struct Cancels;

impl Play<(), View> for Cancels {
    ghost then = { cancels };
}
