//! Serving a Turn.
ghost use Rattle.std.specs.Prelude.{◌≡◌, ◌+◌, ◌<◌, ◌≤◌, ℕ, List, true, false, [], ◌∷◌, ◌++◌, MatchBool, MatchOption};
ghost use Rattle.table_theory.specs.Ledgers.{Step};
ghost use Rattle.table_theory.specs.Seating.{IsSame};
ghost use Rattle.proc_chain.specs.Layout.{width};
ghost use Rattle.proc_chain.specs.Rules.{suits, makes, IsValidChainView};
ghost use Rattle.proc_chain.specs.Rounds.{RanNote, FoundNone, LeftNow, RoundNow, IsDone, IsUsedUp};
ghost use Rattle.proc_chain.specs.Turns.{Carries, IsRunner, HasOrGave, MadeSince};
ghost use Rattle.proc_chain.specs.Servings.{is_more};
ghost use Rattle.proc_chain.specs.Client.{KeepGateOrBegin, LeftAfter, RanNotes, WhyServed, number_run};
ghost use Rattle.proc_chain.specs.Evidence.{ServedNow, AllServed};
ghost use Rattle.proc_chain.specs.declared.rule.GatedQueue.{GatedQueue};

use crate::ends::{ChainEnd, ProcChain};
use crate::layout::TAIL;
use crate::quaject::Quaject;
use crate::rule::{ChainRule, Pact, Shape, View};
use crate::running::{Turn, exchange_gate, never, run_held, store_tail};
use crate::steps::{load, load_place, swap_running};
use atomic_table::{Seat, Shared};
use std::sync::Wait;

/// The greatest limit of one `serve`.
const MOST_RUN: u32 = u32::MAX;

/// How a Turn was served, and how many notes were run.
pub enum Served {
    /// The end left: the first place left was not raised, the gate was found Running, and the quaject is in the chain
    /// again. The Turn is spent. Notes raised after that place are left for a later Turn.
    Done { ran: u32 },
    /// The limit was used up. The Turn is to be served again.
    More { turn: Turn, ran: u32 },
}

// Takes the first note left and runs it, if it is raised.
fn run_next<Q: Quaject>(
    words: &Shared<Q, View, Shape<Pact<Q::World, Q>>, ChainRule>,
    seat: &mut Seat<Q, View>,
    world: &Q::World,
    turn: Turn,
) -> (bool, Turn)
    requires queue { (seat.old.table_id ≡ words.now.table_id) × (words.now.table_id.words ≡ width) }
    requires world { words.now.key.pact.world.value ≡ world.now }
    requires runner { IsRunner (makes Q.made_by words.now.key.pact) (suits Q.fits words.now.key.pact) seat.old.me }
    ensures frame { IsSame seat.old seat.new × IsValidChainView seat.new.me.0 }
    ensures runner { IsRunner (makes Q.made_by words.now.key.pact) (suits Q.fits words.now.key.pact) seat.new.me }
    ensures ran { MatchBool result.0 (RanNote seat.old.me.0 seat.new.me.0) (FoundNone seat.old.me.0 seat.new.me.0) }
{
    // One load suffices: only the end with the Turn writes the tail.
    let tail = load(words, seat, TAIL);
    // One load suffices: the note and its mark are one word. If the note is raised after this load, its notify comes
    // later still, so it makes the leave fail or finds the gate Idle.
    let word = load_place(words, seat, tail);
    if word.mark != tail + 1 {
        return (false, turn);
    }
    // linearization point: the note is taken. A store suffices: only the end with the Turn writes the tail.
    let taken = store_tail(words, seat, turn, tail, word.note);
    (true, run_held(words, seat, world, taken))
}

// Leaves, if no other end has notified since the last round. Else it begins a new round.
fn leave_or_round<Q: Quaject>(
    words: &Shared<Q, View, Shape<Pact<Q::World, Q>>, ChainRule>,
    seat: &mut Seat<Q, View>,
    turn: Turn,
) -> Option<Turn>
    requires queue { (seat.old.table_id ≡ words.now.table_id) × (words.now.table_id.words ≡ width) }
    requires runner { IsRunner (makes Q.made_by words.now.key.pact) (suits Q.fits words.now.key.pact) seat.old.me }
    requires saw { seat.old.me.0.own.saw ≡ true }
    ensures frame { IsSame seat.old seat.new × IsValidChainView seat.new.me.0 }
    ensures gave { MatchOption result
        (HasOrGave (makes Q.made_by words.now.key.pact) (suits Q.fits words.now.key.pact) false seat.new.me)
        (λ turn. IsRunner (makes Q.made_by words.now.key.pact) (suits Q.fits words.now.key.pact) seat.new.me) }
    ensures left { MatchOption result (LeftNow seat.old.me.0 seat.new.me.0)
        (λ turn. RoundNow seat.old.me.0 seat.new.me.0) }
{
    // linearization point: the end leaves, if the gate is Running. A notify since the last round has set More, and then
    // the compare-and-swap fails.
    match exchange_gate(words, seat, turn) {
        Some(turn) => {
            // linearization point: a new round begins
            swap_running(words, seat);
            Some(turn)
        }
        None => None,
    }
}

// Serves until it leaves, or until notes run and failed leaves together are `limit`. Returns the Turn, if it did not
// leave, and the number of notes run.
fn serve_seat<Q: Quaject>(
    words: &Shared<Q, View, Shape<Pact<Q::World, Q>>, ChainRule>,
    seat: &mut Seat<Q, View>,
    world: &Q::World,
    turn: Turn,
    limit: u32,
) -> (Option<Turn>, u32)
    requires queue { (seat.old.table_id ≡ words.now.table_id) × (words.now.table_id.words ≡ width) }
    requires world { words.now.key.pact.world.value ≡ world.now }
    requires runner { IsRunner (makes Q.made_by words.now.key.pact) (suits Q.fits words.now.key.pact) seat.old.me }
    requires some_limit { 0 < limit }
    ensures frame { IsSame seat.old seat.new × IsValidChainView seat.new.me.0 }
    ensures gave { MatchOption result.0
        (HasOrGave (makes Q.made_by words.now.key.pact) (suits Q.fits words.now.key.pact) false seat.new.me)
        (λ turn. IsRunner (makes Q.made_by words.now.key.pact) (suits Q.fits words.now.key.pact) seat.new.me) }
    ensures made { MadeSince (makes Q.made_by words.now.key.pact) (suits Q.fits words.now.key.pact)
        seat.old.me.0 seat.new.me.0 }
    ensures served { MatchOption result.0 (IsDone seat.old.me.0 limit result.1 seat.new.me.0)
        (λ turn. IsUsedUp seat.old.me.0 limit result.1 seat.new.me.0) }
    ensures why { MatchOption result.0 (WhyServed seat.old.me.0 limit result.1 false seat.new.me.0)
        (λ turn. WhyServed seat.old.me.0 limit result.1 true seat.new.me.0) }
{
    let mut turn = turn;
    let mut ran = 0u32;
    // linearization point: a round begins. It comes before the loads of the places: a notify after this sets More, and
    // then the leave fails.
    swap_running(words, seat);
    for used in 0..limit {
        let (was_run, held) = run_next(words, seat, world, turn);
        if was_run {
            ran += 1;
            turn = held;
        } else {
            match leave_or_round(words, seat, held) {
                Some(held) => turn = held,
                None => return (None, ran),
            }
        }
    }
    (Some(turn), ran)
}

impl<Q: Quaject> ProcChain<Q> {
    ghost use Rattle.proc_chain.specs.Handles.{view_of, me_of, turn_of, world_of, pact_of, IsEndOf, IsSameEnd};

    /// Serves the end's Turn: it begins a round, by a swap of the gate to Running, and runs the notes in order. A store
    /// of the tail takes each note before it is run. At a place that isn't raised the end leaves, by a compare-and-swap
    /// of the gate from Running to Idle. If an end has notified since its last round, the leave fails, and it begins a
    /// new round. Each note run and each failed leave uses one of `limit`; if the limit is used up, the answer is
    /// `More`. With a limit of 0 it makes no step, else at most `4 * limit + 1`: one for the first round, three for each
    /// note, four for each failed leave, and three for the leave.
    ///
    /// Conditions: the Turn is the end's own, and the world is that of `new`.
    pub fn serve(&self, end: &mut ChainEnd<Q>, world: &Q::World, turn: Turn, limit: u32) -> Served
        requires ends { IsEndOf self.now end.old }
        requires turn { turn_of end.old ≡ true }
        requires world { world_of self.now ≡ world.now }
        ensures effect { RanNotes (view_of end.old) (number_run result) (view_of end.new) }
        ensures result { WhyServed (view_of end.old) limit (number_run result) (is_more result) (view_of end.new) }
        ensures owns { (view_of end.new).member ≡ (view_of end.old).member }
        ensures turn { turn_of end.new ≡ is_more result }
        ensures slot { HasOrGave (makes Q.made_by (pact_of self.now)) (suits Q.fits (pact_of self.now))
            (is_more result) (me_of end.new) }
        ensures made { MadeSince (makes Q.made_by (pact_of self.now)) (suits Q.fits (pact_of self.now))
            (view_of end.old) (view_of end.new) }
        ensures ends { IsEndOf self.now end.new }
        ensures trace { ServedNow (me_of end.old) limit result (me_of end.new) }
        ensures handle { IsSameEnd end.old end.new }
    {
        if limit == 0 {
            return Served::More { turn, ran: 0 };
        }
        match serve_seat(&self.table.shared, &mut end.seat, world, turn, limit) {
            (None, ran) => {
                end.turn = false;
                Served::Done { ran }
            }
            (Some(turn), ran) => Served::More { turn, ran },
        }
    }

    /// Serves until `Done`, and gives the number of notes run: `serve` again and again, with the greatest limit. It may
    /// go on for as long as ends chain notes.
    ///
    /// Conditions: the Turn is the end's own, and the world is that of `new`.
    pub fn serve_all<R: Wait>(
        &self,
        rt: &R,
        end: &mut ChainEnd<Q>,
        world: &Q::World,
        turn: Turn,
    ) -> u64
        requires ends { IsEndOf self.now end.old }
        requires turn { turn_of end.old ≡ true }
        requires world { world_of self.now ≡ world.now }
        ensures effect { RanNotes (view_of end.old) result (view_of end.new) }
        ensures result { (steps : List (Step GatedQueue))
            × KeepGateOrBegin steps × LeftAfter (view_of end.old) steps (view_of end.new) }
        ensures owns { (view_of end.new).member ≡ (view_of end.old).member }
        ensures turn { turn_of end.new ≡ false }
        ensures slot { HasOrGave (makes Q.made_by (pact_of self.now)) (suits Q.fits (pact_of self.now))
            false (me_of end.new) }
        ensures made { MadeSince (makes Q.made_by (pact_of self.now)) (suits Q.fits (pact_of self.now))
            (view_of end.old) (view_of end.new) }
        ensures ends { IsEndOf self.now end.new }
        ensures trace { AllServed (view_of end.old) result (view_of end.new) }
        ensures handle { IsSameEnd end.old end.new }
    {
        let mut turn = turn;
        let mut total = 0u64;
        for _ in rt.forever() {
            match self.serve(end, world, turn, MOST_RUN) {
                Served::Done { ran } => return total + ran as u64,
                Served::More { turn: next, ran } => {
                    total += ran as u64;
                    turn = next;
                }
            }
        }
        never(&end.seat, turn);
        unreachable!()
    }
}
