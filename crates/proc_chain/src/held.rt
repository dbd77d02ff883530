//! The hand of the end with the Turn: the quaject, and a Turn that the end keeps itself.
ghost use Rattle.std.specs.Prelude.{◌≡◌, true, [], ◌∷◌};
ghost use Rattle.proc_chain.specs.Rules.{suits, makes};
ghost use Rattle.proc_chain.specs.Turns.{HasOrGave, MadeSince};
ghost use Rattle.proc_chain.specs.Servings.{goes_on_after};
ghost use Rattle.proc_chain.specs.Client.{RanNotes, WhyServed, number_run_kept};
ghost use Rattle.proc_chain.specs.Evidence.{KeptNow};

use crate::ends::{ChainEnd, ProcChain};
use crate::quaject::Quaject;
use crate::running::{Turn, set_aside, turn_of_runner};
use crate::serve::Served;

/// How the Turn of an end that keeps it was served, and how many notes were run.
#[derive(Clone, Copy, Debug, PartialEq, Eq, Drop)]
pub enum ServedKept {
    /// As `Served::Done`: the end has no Turn any more.
    Done { ran: u32 },
    /// As `Served::More`: the end still has the Turn.
    More { ran: u32 },
}

impl<Q: Quaject> ProcChain<Q> {
    ghost use Rattle.proc_chain.specs.Handles.{view_of, me_of, turn_of, world_of, pact_of, IsEndOf, IsSameEnd};

    /// The end keeps its Turn, for a caller that can't hold a value that must be served, such as a program in C.
    /// `serve_kept` serves the Turn. If it is not called, notes stay in the chain, as after an end with a Turn is
    /// dropped.
    ///
    /// Condition: the Turn is the end's own.
    pub fn keep(&self, end: &ChainEnd<Q>, turn: Turn)
        requires { turn_of end.now ≡ true }
    {
        set_aside(&end.seat, turn);
    }

    /// Serves the Turn of an end that keeps it, as `serve` does.
    ///
    /// Conditions: the end has the Turn, and the world is that of `new`.
    pub fn serve_kept(&self, end: &mut ChainEnd<Q>, world: &Q::World, limit: u32) -> ServedKept
        requires ends { IsEndOf self.now end.old }
        requires turn { turn_of end.old ≡ true }
        requires world { world_of self.now ≡ world.now }
        ensures effect { RanNotes (view_of end.old) (number_run_kept result) (view_of end.new) }
        ensures result { WhyServed (view_of end.old) limit (number_run_kept result) (goes_on_after result)
            (view_of end.new) }
        ensures owns { (view_of end.new).member ≡ (view_of end.old).member }
        ensures turn { turn_of end.new ≡ goes_on_after result }
        ensures slot { HasOrGave (makes Q.made_by (pact_of self.now)) (suits Q.fits (pact_of self.now))
            (goes_on_after result) (me_of end.new) }
        ensures made { MadeSince (makes Q.made_by (pact_of self.now)) (suits Q.fits (pact_of self.now))
            (view_of end.old) (view_of end.new) }
        ensures ends { IsEndOf self.now end.new }
        ensures trace { KeptNow (me_of end.old) limit result (me_of end.new) }
        ensures handle { IsSameEnd end.old end.new }
    {
        let turn = turn_of_runner(&self.table.shared, &end.seat);
        match self.serve(end, world, turn, limit) {
            Served::Done { ran } => ServedKept::Done { ran },
            Served::More { turn, ran } => {
                set_aside(&end.seat, turn);
                ServedKept::More { ran }
            }
        }
    }
}

impl<Q: Quaject + Copy> ProcChain<Q> {
    ghost use Rattle.proc_chain.specs.Handles.{me_of, turn_of, IsEndOf, IsSameEnd};

    /// A copy of the quaject of the end with the Turn, as the notes that were run made it. It makes no step.
    ///
    /// Condition: the end has the Turn.
    pub fn quaject(&self, end: &mut ChainEnd<Q>) -> Q
        requires ends { IsEndOf self.now end.old }
        requires turn { turn_of end.old ≡ true }
        ensures result { (me_of end.old).1 ≡ (0, result) ∷ [] }
        ensures frame { (me_of end.new ≡ me_of end.old) × (turn_of end.new ≡ true) }
        ensures ends { IsEndOf self.now end.new }
        ensures handle { IsSameEnd end.old end.new }
    {
        *end.seat.slot_mut(&self.table.shared, 0)
    }
}
