//! Chaining a note.
ghost use Rattle.std.specs.Prelude.{◌≡◌, MatchResult, IfOk, IfErr, false, true};
ghost use Rattle.proc_chain.specs.Answers.{is_run};
ghost use Rattle.proc_chain.specs.Client.{ChangedNothing, WhoRuns, WhyNotChained};
ghost use Rattle.proc_chain.specs.Evidence.{ChainedNow, NotChained};
ghost use Rattle.proc_chain.specs.Notes.{SameNotes, PutNote};
ghost use Rattle.proc_chain.specs.Turns.{KeepsTaken};

use crate::ends::{ChainEnd, ProcChain};
use crate::layout::{HEAD, PLACES, TAIL};
use crate::quaject::Quaject;
use crate::running::{Turn, swap_more};
use crate::steps::{exchange_head, load, store_place};
use std::marker::Brand;
use table_theory::positions::POSITIONS;
use thiserror::Error;

/// The end that has to run a note that was chained.
pub enum Chained {
    /// The gate was Idle: the end has the Turn.
    Run(Turn),
    /// Another end, or this one, runs the note in its Turn.
    Left,
}

/// Why a note was refused. The refusals are listed in the order in which they are checked.
#[derive(Clone, Copy, Debug, PartialEq, Eq, Drop, Error)]
pub enum ChainRefusal {
    /// The note would go past the last position, 4,294,967,294. No position is used again: from then on the chain takes
    /// no notes.
    #[error("no positions left")]
    Spent,
    /// There was no room for the note: the tail that was loaded after this head was 32 or more positions before it.
    /// Both are positions.
    #[error("full at head {head}, tail {tail}")]
    Full { head: u32, tail: u32 },
    /// Another end claimed first: the compare-and-swap found this head, past the one that was loaded.
    #[error("lost, head {head}")]
    Lost { head: u32 },
}

impl<Q: Quaject> ProcChain<Q> {
    ghost use Rattle.proc_chain.specs.Handles.{view_of, turn_of, IsEndOf, KeepsTurn, IsSameEnd};

    /// One try to chain a note. It loads the head, then the tail, and claims a place by a compare-and-swap of the head.
    /// It raises the note there, and notifies by a swap of the gate to More. If that swap found the gate Idle, this end
    /// takes the quaject out, and the answer is `Run`: the end has the Turn, and must serve it. Else the end with the
    /// Turn runs the note, and that may be this end. The refusals are checked in the order in which `ChainRefusal`
    /// lists them, and change nothing. A note that is chained costs five atomic steps, and a refusal at most three.
    pub fn try_chain(&self, end: &mut ChainEnd<Q>, note: u16) -> Result<Chained, ChainRefusal>
        requires { IsEndOf self.now end.old }
        ensures effect { MatchResult result (λ r. PutNote note (view_of end.old) (view_of end.new))
            (λ e. SameNotes (view_of end.old) (view_of end.new)) }
        ensures result { IfOk result (λ r. WhoRuns (view_of end.old) note r (view_of end.new)) }
        ensures frame { IfErr result (λ e. ChangedNothing (view_of end.old) (view_of end.new)) }
        ensures owns { (view_of end.new).member ≡ (view_of end.old).member }
        ensures error { IfErr result (λ e. WhyNotChained (view_of end.old) e (view_of end.new)) }
        ensures turn { MatchResult result (λ r. is_run r ≡ true → (turn_of end.old ≡ false) × (turn_of end.new ≡ true))
            (λ e. KeepsTurn end.old end.new) }
        ensures kept { IfOk result (λ r. is_run r ≡ false → KeepsTurn end.old end.new) }
        ensures ends { IsEndOf self.now end.new }
        ensures trace { MatchResult result (λ r. ChainedNow (view_of end.old) note r (view_of end.new))
            (λ e. NotChained (view_of end.old) e (view_of end.new)) }
        ensures handle { IsSameEnd end.old end.new × KeepsTaken (view_of end.old) (view_of end.new) }
    {
        let words = &self.table.shared;
        // linearization point of Spent and Full. One load suffices: the head never falls.
        let head = load(words, &mut end.seat, HEAD);
        if head + 1 >= POSITIONS {
            return Err(ChainRefusal::Spent);
        }
        // Full is exact: the tail never falls, so when the head was loaded the tail was at most this one, and there was
        // no room. Room that is found remains while the head is unchanged.
        let tail = load(words, &mut end.seat, TAIL);
        if head + 1 > tail + PLACES as u64 {
            return Err(ChainRefusal::Full {
                head: head as u32,
                tail: tail as u32,
            });
        }
        // linearization point: the place is reserved, if the head is unchanged. No position is used again, so an equal
        // head means that no claim came in between.
        let found = exchange_head::<Q, Brand>(words, &mut end.seat, head, note);
        if found != head {
            return Err(ChainRefusal::Lost { head: found as u32 });
        }
        // linearization point: the note is raised (published). One store suffices: the note and its mark are one word,
        // and no other end writes the word until the tail has passed its position.
        store_place(words, &mut end.seat, head, note);
        // linearization point: the notify. It comes after the raise, so an end that finds More finds the note raised.
        // It is a swap, so that only one end finds the gate Idle.
        match swap_more::<Q, Brand>(words, &mut end.seat) {
            Some(turn) => {
                end.turn = true;
                Ok(Chained::Run(turn))
            }
            None => Ok(Chained::Left),
        }
    }
}
