//! The chain for C: each call is one of the library's, on the end that a handle holds. Notes are pulled: the caller
//! does what a note is for between one call and the next.
ghost use Rattle.std.specs.Prelude.{◌≡◌, ◌≤◌};
ghost use Rattle.bindings.specs.Handles.{EmptyHandle, held_by, chain_of, NoneIn, LeadsTo, HoldsThen, MadeHandle};
ghost use Rattle.bindings.specs.Handles.{FreedHandle, SplitHandle, JoinedHandle, MarksTell, Chain, IsCodeAlone};
ghost use Rattle.bindings.specs.ChainHeld.{IsNewChain, SplitBy, Joined, AreOfOneChain};
ghost use Rattle.bindings.specs.ChainCalls.{IsChainCall, ReportsNoted, IsPullCall, WasClosed};
ghost use Rattle.bindings.specs.Shares.{HasTwo, HasNoTwo, IsOneMark};

pub mod held;
mod inbox;

use crate::answer::{
    AGAIN, DONE, EMPTY_HANDLE, FULL, FULL_HANDLE, LEFT, LOST, NOT_RUNNING, NOTE, OPEN, RUN,
    RUNNING, SPENT, SynthAnswer, answer_at, answer_of, answer_with,
};
use crate::ends::{fill, free, join, split};
use crate::handle::Handle;
use crate::kind::Kind;
use crate::payload::Payload;
use held::{HeldChain, Noted, Pulled};
use loose_box::Loose;
use proc_chain::ChainRefusal;
use std::alloc::Global;

/// The totals of a closed chain: how many notes were put, and how many were run.
#[repr(C)]
#[derive(Drop)]
pub struct SynthChained {
    pub put: u32,
    pub run: u32,
}

// The code of the answer, and the positions in it.
fn answer_of_noted(answer: Result<Noted, ChainRefusal>) -> SynthAnswer
    ensures { ReportsNoted answer result }
{
    match answer {
        Ok(Noted::Run) => answer_of(RUN),
        Ok(Noted::Left) => answer_of(LEFT),
        Err(ChainRefusal::Spent) => answer_of(SPENT),
        Err(ChainRefusal::Full { head, tail }) => answer_at(FULL, head, tail),
        Err(ChainRefusal::Lost { head }) => answer_with(LOST, head),
    }
}

/// An empty chain, whose first position is `first`. Each chain has a mark of its own.
#[unsafe(no_mangle)]
pub extern "C" fn synth_raw_chain_new_marked(
    alloc: Global,
    first: u32,
    mark: u64,
    chain: &mut Handle,
) -> i32
    ensures { MadeHandle Chain (Unit {0}) (IsNewChain first mark) chain.old chain.new result }
{
    if chain.is_full() {
        return FULL_HANDLE;
    }
    let made = HeldChain::new(alloc, first, mark);
    fill(alloc, made, chain)
}

/// Frees the handle, whose end is then never joined. If it runs notes, those that are left are never run.
#[unsafe(no_mangle)]
pub extern "C" fn synth_raw_chain_free(alloc: Global, chain: &mut Handle) -> i32
    ensures { FreedHandle chain_of chain.old chain.new result }
{
    free::<HeldChain>(alloc, chain)
}

/// A second end of the chain, for another thread.
#[unsafe(no_mangle)]
pub extern "C" fn synth_raw_chain_split(
    alloc: Global,
    chain: &mut Handle,
    other: &mut Handle,
) -> i32
    ensures { SplitHandle chain_of (λ x. HasTwo x.share) (λ x. HasNoTwo x.share) SplitBy
        chain.old chain.new other.old other.new result }
{
    split::<HeldChain>(alloc, chain, (), other)
}

/// Joins two ends: the first then has all that both had, and the second handle is empty.
#[unsafe(no_mangle)]
pub extern "C" fn synth_raw_chain_join(alloc: Global, chain: &mut Handle, other: &mut Handle) -> i32
    requires { MarksTell (λ x z. IsOneMark x.share z.share) AreOfOneChain (chain_of chain.old) (chain_of other.old) }
    ensures { JoinedHandle chain_of (λ x. x.share) (λ x z. IsOneMark x.share z.share) Joined
        chain.old chain.new other.old other.new result }
{
    join::<HeldChain>(alloc, chain, other)
}

/// `ProcChain::try_chain`.
#[unsafe(no_mangle)]
pub extern "C" fn synth_raw_chain_try_chain(chain: &mut Handle, note: u16) -> SynthAnswer
    ensures empty { NoneIn chain_of chain.old chain.new (IsCodeAlone EmptyHandle result) }
    ensures chained { LeadsTo chain_of chain.old chain.new (λ x y. IsChainCall x note y result) }
{
    let Some(held) = chain.find::<HeldChain>() else {
        return answer_of(EMPTY_HANDLE);
    };
    answer_of_noted(held.try_chain(note))
}

/// The next note, for the end that runs notes.
#[unsafe(no_mangle)]
pub extern "C" fn synth_raw_chain_next(chain: &mut Handle, note: &mut u16) -> i32
    ensures empty { NoneIn chain_of chain.old chain.new ((result ≡ EmptyHandle) × (note.new ≡ note.old)) }
    ensures pulled { LeadsTo chain_of chain.old chain.new (λ x y. IsPullCall x note.old note.new y result) }
{
    let Some(held) = chain.find::<HeldChain>() else {
        return EMPTY_HANDLE;
    };
    if !held.runs() {
        return NOT_RUNNING;
    }
    match held.pull() {
        Pulled::Note(next) => {
            *note = next;
            NOTE
        }
        Pulled::Again => AGAIN,
        Pulled::Done => DONE,
    }
}

/// Closes the chain if the handle has all parts, and empties the handle.
#[unsafe(no_mangle)]
pub extern "C" fn synth_raw_chain_close(
    alloc: Global,
    chain: &mut Handle,
    closed: &mut SynthChained,
) -> i32
    ensures empty { NoneIn chain_of chain.old chain.new ((result ≡ EmptyHandle) × (closed.new ≡ closed.old)) }
    ensures closed { HoldsThen (chain_of chain.old)
        (λ x. WasClosed x (held_by chain.new) closed.old closed.new result) }
{
    let Some(held) = chain.find::<HeldChain>() else {
        return EMPTY_HANDLE;
    };
    if held.runs() {
        return RUNNING;
    }
    let (payload, room) = Loose::of(chain.take(alloc)).take_out();
    match HeldChain::unwrap(payload).close() {
        Ok(ended) => {
            let _alloc = room.free();
            *closed = SynthChained {
                put: ended.put,
                run: ended.taken,
            };
            DONE
        }
        Err(held) => {
            chain.put(Loose::fill(room, Payload::Chain(held)).into_box());
            OPEN
        }
    }
}
