//! Closing a chain, and what comes home from it.
ghost use Rattle.std.specs.Prelude.{◌≡◌, false, IfOk, IfErr, MatchResult};
ghost use Rattle.proc_chain.specs.Closings.{WereOpen};
ghost use Rattle.proc_chain.specs.Handles.{view_of, turn_of, pact_of, first_of, IsEndOf, IsOnlyEnd, IsSameEnd};
ghost use Rattle.quajects.specs.Homes.{IsHome, CameHome, home_in};

use crate::any::{AnyQuaject, Ports};
use crate::came::Came;
use crate::ports::Port;
use proc_chain::{ChainEnd, OpenEnds, ProcChain};
use std::snapshot::Snapshot;

/// The parts that come home from a chain: the quaject's ends with the indexes of their queues, in the order of its
/// `new`, and its numbers. `chained` notes were put in the chain, `left` of them were not run. Only `retire` makes one,
/// nobody changes it, and it comes apart by one call alone.
#[derive(Drop)]
pub struct Home {
    small: [Option<Port<64>>; 6],
    large: [Option<Port<256>>; 2],
    chained: u32,
    left: usize,
    notes: u64,
    taken: u64,
    put: u64,
    held: usize,
}

impl Home {
    /// The ends with the indexes of their queues, and the numbers, which remember what came home.
    pub fn take_apart(self) -> (Ports, Came)
        ensures ports { (result.0.0 ≡ self.small) × (result.0.1 ≡ self.large) }
        ensures came { home_in result.1 ≡ self }
    {
        let home = Snapshot::of(&self);
        let Home {
            small,
            large,
            chained,
            left,
            notes,
            taken,
            put,
            held,
        } = self;
        let came = Came {
            chained,
            left,
            notes,
            taken,
            put,
            held,
            home,
        };
        ((small, large), came)
    }
}

type Chain = ProcChain<AnyQuaject>;

type End = ChainEnd<AnyQuaject>;

// The home of a quaject, with this many notes chained and this many left.
fn home_of(quaject: AnyQuaject, chained: u32, left: usize) -> Home
    ensures { IsHome quaject chained left result }
{
    let notes = quaject.notes();
    let taken = quaject.taken();
    let put = quaject.put();
    let held = quaject.held();
    let (small, large) = quaject.into_ports();
    Home {
        small,
        large,
        chained,
        left,
        notes,
        taken,
        put,
        held,
    }
}

/// Closes a chain if every other end has been joined, and returns what comes home. Otherwise it returns the chain, the
/// end, and the number of the other ends. It allocates no memory.
///
/// Conditions: the end is one of the chain, and has no Turn.
pub fn retire(chain: Chain, end: End) -> Result<Home, (Chain, End, OpenEnds)>
    requires ends { IsEndOf chain end }
    requires turn { turn_of end ≡ false }
    ensures only { IsOnlyEnd end → MatchResult result (λ home. Unit {0}) (λ e. ⊥) }
    ensures home { IfOk result (λ home. CameHome (pact_of chain) (first_of chain) (view_of end) home) }
    ensures trace { IfErr result (λ e. WereOpen (view_of end) e.2.others (view_of e.1)) }
    ensures ends { IfErr result (λ e. IsEndOf chain e.1) }
    ensures handle { IfErr result (λ e. (e.0 ≡ chain) × IsSameEnd end e.1 × (turn_of e.1 ≡ false)) }
{
    let closed = chain.close(end)?;
    Ok(home_of(closed.quaject, closed.put, closed.left.len()))
}
