//! The Turn of an end, and the rights that it gives: to take a note, to run it, and to leave.
//!
//! The types keep an order. The swap that finds the gate Idle makes a `Turn`. An end that has a Turn can set it aside,
//! and take it up again only if it has run each note that it took. Taking a note spends the Turn and gives a `Taken`,
//! which has the note. Running the note spends the `Taken` and gives the Turn back. Neither can be copied or dropped.
//! So each note is run after its taking, and before the end takes the next note, begins a round or leaves.
ghost use Rattle.std.specs.Prelude.{◌≡◌, ◌<◌, ◌≤◌, ℕ, List, true, [], ◌∷◌, ◌++◌, MatchOption};
ghost use Rattle.table_theory.specs.declared.positions.TheConstants.{POSITIONS};
ghost use Rattle.table_theory.specs.Positioned.{tail_of, item_at, stage_at};
ghost use Rattle.table_theory.specs.Seating.{IsSame};
ghost use Rattle.proc_chain.specs.Rules.{suits, makes, IsValidChainView};
ghost use Rattle.proc_chain.specs.Layout.{gate_word, width};
ghost use Rattle.proc_chain.specs.declared.layout.TheConstants.{MORE};
ghost use Rattle.proc_chain.specs.Own.{queue_of};
ghost use Rattle.proc_chain.specs.Shown.{notes_of};
ghost use Rattle.proc_chain.specs.Steps.{Found, Took, Notified, GotTurn, HasLeft, Stays};
ghost use Rattle.proc_chain.specs.Turns.{Carries, IsRunner};

use crate::layout::{GATE, IDLE, MORE, RUNNING, TAIL};
use crate::plays::{Leaves, Notifies, Runner, Takes};
use crate::quaject::Quaject;
use crate::rule::{ChainRule, Pact, Shape, View};
use atomic_table::{Seat, Shared};
use std::snapshot::Snapshot;

/// The right and the duty to run the notes of a chain. It can't be dropped, only served.
pub struct Turn(());

/// A note that was taken and isn't run yet, and the end as its taking left it.
pub(crate) struct Taken<Q> {
    note: u16,
    end: Snapshot<Seat<Q, View>>,
    turn: Turn,
}

/// Sets a Turn aside: only the end itself then records that it has the Turn.
pub(crate) fn set_aside<Q: Quaject>(seat: &Seat<Q, View>, turn: Turn)
    requires { seat.now.me.0.own.runner ≡ true }
{
    let Turn(()) = turn;
}

/// Returns the Turn of an end that has it and has run each note that it took: the quaject in its hand was made by all
/// of them. So there is no Turn between a taking and the run of its note.
pub(crate) fn turn_of_runner<Q: Quaject>(
    words: &Shared<Q, View, Shape<Pact<Q::World, Q>>, ChainRule>,
    seat: &Seat<Q, View>,
) -> Turn
    requires runner { seat.now.me.0.own.runner ≡ true }
    requires ran { Carries (makes Q.made_by words.now.key.pact) (suits Q.fits words.now.key.pact)
        (notes_of (queue_of seat.now.me.0)) [] seat.now.me.1 }
{
    Turn(())
}

/// The notify. Returns the Turn if the gate was found Idle.
pub(crate) fn swap_more<Q: Quaject, J: Runner<Q>>(
    words: &Shared<Q, View, Shape<Pact<Q::World, Q>>, ChainRule>,
    seat: &mut Seat<Q, View>,
) -> Option<Turn>
    requires queue { (seat.old.table_id ≡ words.now.table_id) × (words.now.table_id.words ≡ width) }
    requires live { (1 ≤ seat.old.me.0.member.ends) × (seat.old.me.0.own.owes ≡ true) }
    requires suits { (x : Q) → suits Q.fits words.now.key.pact x → J.suits x }
    requires makes { (x : Q) (notes : List ℕ) → makes Q.made_by words.now.key.pact x notes → J.made x notes }
    ensures frame { IsSame seat.old seat.new × IsValidChainView seat.new.me.0 }
    ensures notified { MatchOption result
        ((gate : ℕ) × (seat.new.me.1 ≡ seat.old.me.1) × Notified seat.old.me.0 gate seat.new.me.0)
        (λ turn. GotTurn J.made J.suits seat.old.me seat.new.me) }
{
    if words.swap::<Notifies<J>>(seat, GATE, MORE) == IDLE {
        return Some(Turn(()));
    }
    None
}

/// The taking of one note. Only one runner takes, so a store suffices. The quaject in its hand was made by all notes
/// taken before, and not yet by this one.
pub(crate) fn store_tail<Q: Quaject>(
    words: &Shared<Q, View, Shape<Pact<Q::World, Q>>, ChainRule>,
    seat: &mut Seat<Q, View>,
    turn: Turn,
    tail: u64,
    note: u16,
) -> Taken<Q>
    requires queue { (seat.old.table_id ≡ words.now.table_id) × (words.now.table_id.words ≡ width) }
    requires runner { IsRunner (makes Q.made_by words.now.key.pact) (suits Q.fits words.now.key.pact) seat.old.me }
    requires tail { (tail ≡ tail_of (queue_of seat.old.me.0)) × (tail < POSITIONS) }
    requires raised { 2 ≤ stage_at (queue_of seat.old.me.0) (queue_of seat.old.me.0).taken }
    requires note { note ≡ item_at (queue_of seat.old.me.0) (queue_of seat.old.me.0).taken }
    ensures frame { IsSame seat.old seat.new × Stays seat.old.me seat.new.me }
    ensures took { Took seat.old.me.0 tail seat.new.me.0 }
    ensures taken { (result.note ≡ note) × (result.end.value ≡ seat.new) }
{
    words.store::<Takes>(seat, TAIL, tail + 1);
    Taken {
        note,
        end: Snapshot::of(seat),
        turn,
    }
}

/// Runs the note that was taken, on the quaject in the slot that the seat holds. The taking was the end's last step.
pub(crate) fn run_held<Q: Quaject>(
    words: &Shared<Q, View, Shape<Pact<Q::World, Q>>, ChainRule>,
    seat: &mut Seat<Q, View>,
    world: &Q::World,
    taken: Taken<Q>,
) -> Turn
    requires queue { seat.old.table_id ≡ words.now.table_id }
    requires world { words.now.key.pact.world.value ≡ world.now }
    requires held { (x : Q) × (seat.old.me.1 ≡ (0, x) ∷ []) × suits Q.fits words.now.key.pact x }
    requires taken { taken.end.value ≡ seat.old }
    ensures queue { IsSame seat.old seat.new × (seat.new.me.0 ≡ seat.old.me.0) }
    ensures ran { (notes : List ℕ)
        → Carries (makes Q.made_by words.now.key.pact) (suits Q.fits words.now.key.pact) notes [] seat.old.me.1
        → Carries (makes Q.made_by words.now.key.pact) (suits Q.fits words.now.key.pact) (notes ++ taken.note ∷ []) []
        seat.new.me.1 }
{
    let Taken { note, end: _, turn } = taken;
    let quaject = seat.slot_mut(words, 0);
    let _ran = quaject.run(world, note);
    turn
}

/// The leave. If the gate was Running, the quaject goes back into the table, and the Turn is spent.
pub(crate) fn exchange_gate<Q: Quaject>(
    words: &Shared<Q, View, Shape<Pact<Q::World, Q>>, ChainRule>,
    seat: &mut Seat<Q, View>,
    turn: Turn,
) -> Option<Turn>
    requires queue { (seat.old.table_id ≡ words.now.table_id) × (words.now.table_id.words ≡ width) }
    requires runner { IsRunner (makes Q.made_by words.now.key.pact) (suits Q.fits words.now.key.pact) seat.old.me }
    requires saw { seat.old.me.0.own.saw ≡ true }
    ensures frame { IsSame seat.old seat.new × IsValidChainView seat.new.me.0 }
    ensures left { MatchOption result ((seat.new.me.1 ≡ []) × HasLeft seat.old.me.0 seat.new.me.0)
        (λ turn. (seat.new.me.1 ≡ seat.old.me.1) × Found seat.old.me.0 gate_word MORE seat.new.me.0) }
{
    if words.compare_exchange::<Leaves>(seat, GATE, RUNNING, IDLE) == RUNNING {
        let Turn(()) = turn;
        return None;
    }
    Some(turn)
}

/// Drops a Turn whose end holds no quaject, so that nothing can be served by it. The only call is after an endless
/// loop, and is never reached.
pub(crate) fn never<Q: Quaject>(seat: &Seat<Q, View>, turn: Turn)
    requires { seat.now.me.1 ≡ [] }
{
    let Turn(()) = turn;
}
