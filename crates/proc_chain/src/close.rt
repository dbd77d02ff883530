//! Closing a chain.
ghost use Rattle.std.specs.Prelude.{◌≡◌, ◌+◌, ◌-◌, ◌<◌, ◌≤◌, false, IfOk, IfErr, MatchResult};
ghost use Rattle.std.specs.Mem.Slots.{slots_items, slots_len, IsFull};
ghost use Rattle.table_theory.specs.declared.positions.TheConstants.{POSITIONS};
ghost use Rattle.proc_chain.specs.declared.layout.TheConstants.{PLACES};
ghost use Rattle.proc_chain.specs.Layout.{width};
ghost use Rattle.proc_chain.specs.Rules.{suits, makes};
ghost use Rattle.proc_chain.specs.Client.{ChangedNothing, WhyOpen};
ghost use Rattle.proc_chain.specs.Closings.{ClosedNow, left_at, left_from};
ghost use Rattle.proc_chain.specs.Evidence.{WereOpen};

use crate::ends::{ChainEnd, ProcChain};
use crate::layout::{ENDS, HEAD, PLACES, TAIL, place_word};
use crate::quaject::Quaject;
use crate::word::PlaceWord;
use arrayvec::ArrayVec;
use atomic_table::Closed;
use std::alloc::Global;
use std::marker::Brand;
use table_theory::OpenEnds;
use table_theory::last_end::{close_by, count};

/// The contents of a closed chain: its quaject, how many notes were put (claimed) and taken, and the notes left. None
/// is left, since each end has raised each note that it claimed, and has notified.
#[derive(Drop)]
pub struct ChainClosed<Q> {
    pub quaject: Q,
    pub put: u32,
    pub taken: u32,
    pub left: ArrayVec<Option<u16>, PLACES>,
}

fn read_at<Q>(closed: &Closed<Q, Global>, position: u64) -> Option<u16>
    requires words { (slots_len closed.now.words ≡ width) × IsFull closed.now.words }
    requires range { position < POSITIONS }
    ensures { result ≡ left_at (slots_items closed.now.words) position }
{
    let word = PlaceWord::of(closed.word(place_word(position as usize)));
    if word.mark == position + 1 {
        Some(word.note)
    } else {
        None
    }
}

fn read_left<Q>(closed: &Closed<Q, Global>, tail: u64, head: u64) -> ArrayVec<Option<u16>, PLACES>
    requires words { (slots_len closed.now.words ≡ width) × IsFull closed.now.words }
    requires range { (tail ≤ head) × (head ≤ tail + PLACES) × (head < POSITIONS) }
    ensures { result.items ≡ left_from (slots_items closed.now.words) tail (head - tail) }
{
    let mut left = ArrayVec::new();
    for position in tail..head {
        left.push(read_at(closed, position));
    }
    left
}

impl<Q: Quaject> ProcChain<Q> {
    ghost use Rattle.proc_chain.specs.Handles.{view_of, turn_of, pact_of, first_of};
    ghost use Rattle.proc_chain.specs.Handles.{IsEndOf, IsOnlyEnd, KeepsTurn, IsSameEnd};

    /// Closes the chain if every other end has been joined, and returns the quaject. Else it returns the chain, the end
    /// and the number of the other ends. No note is left, since each end has raised each note that it claimed, and has
    /// notified.
    ///
    /// Condition: the end has no Turn.
    pub fn close(
        self,
        end: ChainEnd<Q>,
    ) -> Result<ChainClosed<Q>, (ProcChain<Q>, ChainEnd<Q>, OpenEnds)>
        requires ends { IsEndOf self end }
        requires turn { turn_of end ≡ false }
        ensures only { IsOnlyEnd end → MatchResult result (λ c. Unit {0}) (λ e. ⊥) }
        ensures closed { IfOk result (λ c. ClosedNow (makes Q.made_by (pact_of self)) (suits Q.fits (pact_of self))
            (view_of end) (first_of self) c.put c.taken c.left.items c.quaject) }
        ensures frame { IfErr result (λ e. ChangedNothing (view_of end) (view_of e.1)) }
        ensures owns { IfErr result (λ e. (view_of e.1).member ≡ (view_of end).member) }
        ensures error { IfErr result (λ e. WhyOpen (view_of end) e.2.others (view_of e.1)) }
        ensures ends { IfErr result (λ e. IsEndOf self e.1) }
        ensures trace { IfErr result (λ e. WereOpen (view_of end) e.2.others (view_of e.1)) }
        ensures handle { IfErr result (λ e. (e.0 ≡ self) × IsSameEnd end e.1 × KeepsTurn end e.1) }
    {
        let ChainEnd { seat, turn } = end;
        // One load suffices: if the number is 1, this is the only end, and no other end can step after the load.
        let last = match count::<_, _, _, _, Brand>(&self.table.shared, seat, ENDS) {
            Ok(last) => last,
            Err((seat, ends)) => {
                return Err((self, ChainEnd { seat, turn }, OpenEnds { others: ends - 1 }));
            }
        };
        let ProcChain { table, first } = self;
        let mut closed = close_by(table, last);
        let head = closed.word(HEAD);
        let tail = closed.word(TAIL);
        let left = read_left(&closed, tail, head);
        let quaject = closed.take(0);
        closed.free();
        Ok(ChainClosed {
            quaject,
            put: (head - first as u64) as u32,
            taken: (tail - first as u64) as u32,
            left,
        })
    }
}
