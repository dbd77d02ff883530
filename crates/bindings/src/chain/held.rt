//! The end that a handle of a chain holds.
ghost use Rattle.std.specs.Prelude.{◌≡◌, true, false, MatchOption};
ghost use Rattle.std.specs.Arc.{arc_value};
ghost use Rattle.proc_chain.specs.Handles.{view_of};
ghost use Rattle.bindings.specs.Inboxes.{IsHeldEnd};

use super::inbox::Inbox;
use crate::ends::End;
use crate::share::Share;
use proc_chain::{ChainClosed, ChainEnd, ChainRefusal, Chained, ProcChain, ServedKept};
use std::alloc::Global;
use std::sync::Arc;

/// One end of a chain that other handles share. An end that runs notes keeps its Turn.
#[derive(Drop)]
pub struct HeldChain {
    pub(super) chain: Arc<ProcChain<Inbox>, Global>,
    pub(super) end: ChainEnd<Inbox>,
    pub(super) share: Share,
    ghost own: { IsHeldEnd (arc_value chain) end },
    ghost known: { share.parts ≡ (view_of end).member.share },
}

/// The outcome of putting a note.
#[derive(Clone, Copy, Drop)]
pub enum Noted {
    /// This end runs notes from now on.
    Run,
    /// The end that runs notes gets the note.
    Left,
}

/// The result of a pull by an end that runs notes.
#[derive(Clone, Copy, Drop)]
pub enum Pulled {
    /// The next note, which this end runs.
    Note(u16),
    /// No note was found, but one may have come meanwhile: the end still runs notes.
    Again,
    /// No note is left, and the end runs none from now on.
    Done,
}

impl HeldChain {
    ghost use Rattle.bindings.specs.ChainHeld.{IsNewChain, WasChained, WasPulled, Ended, has_turn};

    /// The only end of a new chain.
    pub fn new(alloc: Global, first: u32, mark: u64) -> Option<HeldChain>
        ensures { MatchOption result (Unit {0}) (IsNewChain first mark) }
    {
        let Ok((chain, end)) = ProcChain::new(alloc, first, Inbox { note: 0 }, &()) else {
            return None;
        };
        let chain = Arc::new(alloc, chain).ok()?;
        let share = Share::all(mark);
        Some(HeldChain { chain, end, share })
    }

    /// Whether the end runs notes.
    pub fn runs(&self) -> bool
        ensures { result ≡ has_turn self.now }
    {
        self.end.has_turn()
    }

    /// `ProcChain::try_chain`. The end keeps the Turn that it gets.
    pub fn try_chain(&mut self, note: u16) -> Result<Noted, ChainRefusal>
        ensures { WasChained note result self.old self.new }
    {
        match self.chain.try_chain(&mut self.end, note) {
            Ok(Chained::Run(turn)) => {
                self.chain.keep(&self.end, turn);
                Ok(Noted::Run)
            }
            Ok(Chained::Left) => Ok(Noted::Left),
            Err(refusal) => Err(refusal),
        }
    }

    /// Pulls one note, by `ProcChain::serve` with a limit of 1.
    pub fn pull(&mut self) -> Pulled
        requires { has_turn self.old ≡ true }
        ensures { WasPulled result self.old self.new }
    {
        match self.chain.serve_kept(&mut self.end, &(), 1) {
            ServedKept::Done { .. } => Pulled::Done,
            ServedKept::More { ran: 0 } => Pulled::Again,
            ServedKept::More { .. } => Pulled::Note(self.chain.quaject(&mut self.end).note),
        }
    }

    /// `ProcChain::close`, when the end has all parts. Else the end is returned.
    pub fn close(self) -> Result<ChainClosed<Inbox>, HeldChain>
        requires { has_turn self ≡ false }
        ensures { Ended result self }
    {
        if self.share.parts != u64::MAX {
            return Err(self);
        }
        let HeldChain { chain, end, share } = self;
        let chain = match Arc::try_unwrap(chain) {
            Ok(chain) => chain,
            Err(chain) => {
                return Err(HeldChain { chain, end, share });
            }
        };
        let Ok(closed) = chain.close(end) else {
            unreachable!()
        };
        Ok(closed)
    }
}

impl End for HeldChain {
    ghost use Rattle.bindings.specs.Shares.{HasTwo, HasNoTwo, IsOneMark};
    ghost use Rattle.bindings.specs.ChainHeld.{SplitBy, Joined, AreOfOneChain};

    type Wish = ();

    ghost share = { λ x. x.share };

    ghost MaySplit = { λ _ x. HasTwo x.share };

    ghost MayNotSplit = { λ _ x. HasNoTwo x.share };

    ghost SplitBy = { λ _. SplitBy };

    ghost HaveOneMark = { λ x z. IsOneMark x.share z.share };

    ghost AreOfOne = { AreOfOneChain };

    ghost Joined = { Joined };

    fn why_not_split(&self, _wish: ()) -> Option<i32> {
        self.share.why_not_split()
    }

    fn split(&mut self, _wish: ()) -> Option<HeldChain> {
        let chain = Arc::try_clone(&self.chain).ok()?;
        let end = self.chain.split(&mut self.end);
        let share = self.share.split();
        Some(HeldChain { chain, end, share })
    }

    fn may_join(&self, other: &HeldChain) -> bool {
        self.share.may_join(&other.share)
    }

    fn join(&mut self, other: HeldChain) {
        let HeldChain { end, share, .. } = other;
        self.chain.join(&mut self.end, end);
        self.share.join(share);
    }
}
