//! The raw tty (Massalin 1992).
ghost use Rattle.std.specs.Prelude.{◌≡◌, ◌+◌, ◌%◌, ◌^◌, false, [], ◌∷◌, MatchBool, if◌then◌else◌};
ghost use Rattle.table_theory.specs.Listing.{AllRaised};
ghost use Rattle.claim_queue.specs.Handles as claims;
ghost use Rattle.claim_queue.specs.Lines.{lines_taken, PutLine, SameLines};
ghost use Rattle.proc_chain.specs.Handles.{turn_of, world_of, pact_of, me_of, IsEndOf, IsSameEnd};
ghost use Rattle.quajects.specs.Anys.{MadeOf, Fits};
ghost use Rattle.proc_chain.specs.Rules.{suits, makes};
ghost use Rattle.quajects.specs.Notings.{Noted};
ghost use Rattle.quajects.specs.Ports.{IsEndAt, IsUnused};

use crate::any::AnyQuaject;
use crate::raw_watch::RawWatch;
use crate::world::Queues;
use claim_queue::QueueEnd;
use crossbeam_utils::Backoff;
use proc_chain::{ChainEnd, ChainRefusal, Chained, ProcChain};
use std::sync::Wait;

/// The note that an interrupt chains.
const TYPED: u16 = 0;

/// Puts the bytes of a device in a raw queue, each as a line of its own, and chains a note for each.
#[derive(Drop)]
pub struct RawTty {
    index: usize,
    end: QueueEnd<64>,
    chain: ChainEnd<AnyQuaject>,
    overruns: u64,
    ghost only: { lines_taken (claims.view_of end) ≡ [] },
    ghost raised: { AllRaised (claims.view_of end).own.runs },
    ghost idle: { turn_of chain ≡ false },
}

// Chains a note, retries after Lost, and serves all if it gets the Turn. A chain that is Full or Spent gets no note.
fn tell<R: Wait>(
    rt: &R,
    queues: &Queues,
    chain: &ProcChain<AnyQuaject>,
    end: &mut ChainEnd<AnyQuaject>,
    note: u16,
)
    requires end { IsEndOf chain.now end.old }
    requires idle { turn_of end.old ≡ false }
    requires world { world_of chain.now ≡ queues.now }
    ensures idle { turn_of end.new ≡ false }
    ensures noted { Noted (makes MadeOf (pact_of chain.now)) (suits Fits (pact_of chain.now))
        (me_of end.old) note (me_of end.new) }
    ensures end { IsEndOf chain.now end.new }
    ensures handle { IsSameEnd end.old end.new }
{
    let backoff = Backoff::new();
    for _ in rt.forever() {
        match chain.try_chain(end, note) {
            Ok(Chained::Run(turn)) => {
                let _ran = chain.serve_all(rt, end, queues, turn);
                return;
            }
            Ok(Chained::Left) => return,
            Err(ChainRefusal::Lost { head: _ }) => backoff.spin(),
            Err(ChainRefusal::Spent) => return,
            Err(ChainRefusal::Full { head: _, tail: _ }) => return,
        }
    }
}

impl RawTty {
    ghost use Rattle.quajects.specs.Raws.{end_of, overruns_of, PutByte};

    /// A raw tty that puts in the small queue with the index `index`, and chains at this end.
    ///
    /// Conditions: the end has claimed and taken nothing, and the chain's end has no Turn.
    pub fn new(index: usize, end: QueueEnd<64>, chain: ChainEnd<AnyQuaject>) -> RawTty
        requires unused { IsUnused (claims.view_of end) }
        requires idle { turn_of chain ≡ false }
        ensures { (result.index ≡ index) × (end_of result ≡ end) × (result.chain ≡ chain)
            × (overruns_of result ≡ 0) }
    {
        RawTty {
            index,
            end,
            chain,
            overruns: 0,
        }
    }

    /// How many bytes were refused, modulo 2^64.
    pub fn overruns(&self) -> u64
        ensures { result ≡ overruns_of self.now }
    {
        self.overruns
    }

    /// The end of the raw queue, and the end of the chain.
    pub fn into_parts(self) -> (QueueEnd<64>, ChainEnd<AnyQuaject>)
        ensures ends { (result.0 ≡ end_of self) × (result.1 ≡ self.chain) }
        ensures idle { turn_of result.1 ≡ false }
    {
        (self.end, self.chain)
    }

    /// Puts a byte in the raw queue, by `put`, and chains note 0 for it: it retries after Lost, while a chain that is
    /// Full or Spent gets no note. If it gets the Turn, it serves all. Returns true if the byte was put; a byte that
    /// was refused is counted as an overrun, and a note is chained all the same. All that it does at the queue comes
    /// before all that it does at the chain.
    ///
    /// Conditions: the index and the end fit the queues, the chain's end is one of the chain, and the queues are the
    /// chain's world.
    pub fn interrupt<R: RawWatch>(
        &mut self,
        rt: &R,
        queues: &Queues,
        chain: &ProcChain<AnyQuaject>,
        byte: u8,
    ) -> bool
        requires fits { IsEndAt queues.now.small.items self.old.index (end_of self.old) }
        requires chain { IsEndOf chain.now self.old.chain }
        requires world { world_of chain.now ≡ queues.now }
        ensures effect { MatchBool result
            (PutLine (byte ∷ []) (claims.view_of (end_of self.old)) (claims.view_of (end_of self.new)))
            (SameLines (claims.view_of (end_of self.old)) (claims.view_of (end_of self.new))) }
        ensures overruns { overruns_of self.new ≡ (if result then overruns_of self.old else
            (overruns_of self.old + 1) % 2 ^ 64) }
        ensures put { PutByte (claims.view_of (end_of self.old)) byte result
            (claims.view_of (end_of self.new)) }
        ensures noted { Noted (makes MadeOf (pact_of chain.now)) (suits Fits (pact_of chain.now))
            (me_of self.old.chain) 0 (me_of self.new.chain) }
        ensures order { R.seen_raw (end_of self.new) self.old.chain }
        ensures chain { IsEndOf chain.now self.new.chain }
        ensures fits { IsEndAt queues.now.small.items self.new.index (end_of self.new) }
        ensures handle { (self.new.index ≡ self.old.index) × claims.IsSameEnd (end_of self.old) (end_of self.new)
            × IsSameEnd self.old.chain self.new.chain }
    {
        let item = [byte as u64];
        let queue = &queues.small[self.index];
        let put = queue.put(rt, &mut self.end, &item).is_ok();
        if !put {
            self.overruns = self.overruns.wrapping_add(1);
        }
        rt.show_raw(&self.end, &self.chain);
        tell(rt, queues, chain, &mut self.chain, TYPED);
        put
    }
}
