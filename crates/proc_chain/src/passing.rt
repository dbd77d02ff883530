//! An end that is joined hands over what it has.
//!
//! A seat that holds the slot can't be taken in. So all except the slot is first handed over to a new seat, which is
//! then taken in. Each of the two costs one load of the first word, which is in no list. The types and the clauses
//! allow no more of them: a `Rest` can't be dropped, copied or handed over again, and neither can a seat that was
//! emptied.
ghost use Rattle.std.specs.Prelude.{◌≡◌, ◌≤◌, true, false, []};
ghost use Rattle.table_theory.specs.Ledgers.{both, emptied};
ghost use Rattle.table_theory.specs.Seating.{IsSame};
ghost use Rattle.proc_chain.specs.Layout.{width};
ghost use Rattle.proc_chain.specs.Own.{nothing_did, did_both};

use crate::plays::{HandsOver, Joins, Spent};
use crate::quaject::Quaject;
use crate::rule::{ChainRule, Pact, Shape, View};
use atomic_table::{Seat, Shared};

/// All that an end had, except the slot.
pub(crate) struct Rest<Q> {
    seat: Seat<Q, View>,
}

/// The rest has all that the end had, except the slot. The end is spent, and may still hold the slot.
pub(crate) fn hand_over<Q: Quaject>(
    words: &Shared<Q, View, Shape<Pact<Q::World, Q>>, ChainRule>,
    seat: &mut Seat<Q, View>,
) -> Rest<Q>
    requires queue { (seat.old.table_id ≡ words.now.table_id) × (words.now.table_id.words ≡ width) }
    requires live { 1 ≤ seat.old.me.0.member.ends }
    ensures queue { result.seat.table_id ≡ seat.old.table_id }
    ensures spent { seat.new.me.0 ≡ emptied nothing_did seat.old.me.0 }
    ensures moved { result.seat.me ≡ (seat.old.me.0, []) }
{
    Rest {
        seat: words.split_seat::<HandsOver>(seat),
    }
}

/// The end then has all that both had.
pub(crate) fn take_in<Q: Quaject, J: Spent>(
    words: &Shared<Q, View, Shape<Pact<Q::World, Q>>, ChainRule>,
    seat: &mut Seat<Q, View>,
    other: Rest<Q>,
)
    requires queue { (seat.old.table_id ≡ words.now.table_id) × (other.seat.table_id ≡ words.now.table_id)
        × (other.seat.me.1 ≡ []) × (words.now.table_id.words ≡ width) }
    requires live { 1 ≤ seat.old.me.0.member.ends }
    requires turns { other.seat.me.0.own.runner ≡ true → seat.old.me.0.own.runner ≡ true }
    requires settled { other.seat.me.0.own.owes ≡ false }
    requires spent { J.view ≡ emptied nothing_did seat.old.me.0 }
    ensures queue { IsSame seat.old seat.new }
    ensures joined { seat.new.me ≡ (both did_both seat.old.me.0 other.seat.me.0, seat.old.me.1) }
{
    let Rest { seat: rest } = other;
    words.join_seat::<Joins<J>>(seat, rest);
}
