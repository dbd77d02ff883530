//! A second station, for another processor: split off, and joined again.
ghost use Rattle.std.specs.List.{All};
ghost use Rattle.std.specs.Prelude.{◌≡◌, ◌<◌, ◌≤◌, ℕ, [], length, vec_capacity, true, IfOk, IfErr};
ghost use Rattle.turn_io.specs.EndLists.{AreChainEndsOf, AreSameChainEnds, IsChainDivisible};
ghost use Rattle.stations.specs.Splits as splits;
ghost use Rattle.turn_dispatch.specs.Holdings.{IsFree};
ghost use Rattle.thread_table.specs.Answers.{is_in};
ghost use Rattle.thread_table.specs.Handles.{view_of};
ghost use Rattle.table_theory.specs.Sharing.{given, kept};
ghost use Rattle.processor.specs.Accounts.{◌⊕◌, account, nothing, shares, unheard};
ghost use Rattle.processor.specs.Logs.{IsFresh};
ghost use Rattle.stations.specs.Shares.{both_shares, each_share};
ghost use Rattle.stations.specs.Partings.{AreDivisible, HaveRoom, HaveBoth, AreSplit, AreJoined};
ghost use Rattle.processor.specs.Rooms.{HasNoMoreRoom, HasRoom};
ghost use Rattle.processor.specs.Stations.{ArePartsOf, AreSameParts, IsUnused};

use crate::chain_splitting::{join_chain_ends, split_chain_ends_into};
use crate::queue_splitting::{join_queue_ends, split_queue_ends_into};
use boot_data::HeardLines;
use event_theory::OutOfMemory;
use proc_chain::{ChainEnd, ProcChain};
use processor::{Parts, Shared, Station, hears_of, longest_line};
use quajects::AnyQuaject;
use std::alloc::Global;
use turn_io::QueueEnds;

// The lists of a station, with room for all that goes in.
struct Lists {
    queues: QueueEnds,
    chains: Vec<ChainEnd<AnyQuaject>>,
    heard: HeardLines,
}

// Empty lists with room for a station's ends and its heard lines.
fn lists_for(alloc: Global, shared: &Shared) -> Result<Lists, OutOfMemory>
    ensures { IfOk result (HaveRoom shared.now) }
{
    let small = Vec::with_capacity(alloc, shared.queues.small.len())?;
    let large = Vec::with_capacity(alloc, shared.queues.large.len())?;
    let chains = Vec::with_capacity(alloc, shared.chains.len())?;
    let heard = HeardLines::with_room(alloc, hears_of(&shared.plan), longest_line(&shared.plan))?;
    Ok(Lists {
        queues: QueueEnds { small, large },
        chains,
        heard,
    })
}

// A part of each end of a list of chain ends, into one with room for them.
fn split_chain_list(
    chains: &[ProcChain<AnyQuaject>],
    ends: &mut Vec<ChainEnd<AnyQuaject>>,
    born: Vec<ChainEnd<AnyQuaject>>,
) -> Vec<ChainEnd<AnyQuaject>>
    requires ends { AreChainEndsOf chains.now ends.old.items }
    requires parts { All IsChainDivisible ends.old.items }
    requires room { (born.items ≡ []) × (length chains.now ≤ vec_capacity born) }
    ensures handle { AreSameChainEnds ends.old.items ends.new.items }
    ensures ends { AreChainEndsOf chains.now ends.new.items }
    ensures born { AreChainEndsOf chains.now result.items }
    ensures split { splits.AreChainsSplit ends.old.items ends.new.items result.items }
{
    split_chain_ends_into(chains, ends.as_mut_slice(), born)
}

// A part of each end, into lists with room for them.
fn split_parts(shared: &Shared, parts: &mut Parts, processors: u8, lists: Lists) -> Parts
    requires parts { ArePartsOf shared.now parts.old }
    requires divisible { AreDivisible parts.old }
    requires free { (p : ℕ) → p < 8 → is_in processors p ≡ true → IsFree p (view_of parts.old.hand) }
    requires room { HaveRoom shared.now lists }
    ensures handle { AreSameParts parts.old parts.new }
    ensures parts { ArePartsOf shared.now parts.new }
    ensures born { ArePartsOf shared.now result }
    ensures split { AreSplit processors parts.old parts.new result }
    ensures room { HasRoom shared.now.plan result }
    ensures result { HasNoMoreRoom shared.now.plan result }
    ensures unused { IsUnused result }
{
    let Lists {
        queues,
        chains,
        heard,
    } = lists;
    Parts {
        hand: shared.threads.split(&mut parts.hand, processors),
        queues: split_queue_ends_into(&shared.queues, &mut parts.queues, queues),
        chains: split_chain_list(shared.chains.as_slice(), &mut parts.chains, chains),
        meters: shared.meters.split(&mut parts.meters),
        heard,
        signals: [0; 64],
    }
}

// The signals of both.
fn joined(a: &[u16; 64], b: &[u16; 64]) -> [u16; 64]
    ensures { HaveBoth a.now b.now result }
{
    let mut all = *a;
    for e in 0..64 {
        all[e] |= b[e];
    }
    all
}

/// A station for other processors. Its hand serves those of the mask (bit p for processor p). It has an end of each
/// queue and chain and a seat of the meters, all split off from those of `station`. It has heard nothing and was
/// signalled nothing. It has room for just as many heard lines as the plan has hear steps, of 64 bytes each, or of
/// 256 if one hears from a large queue. `OutOfMemory` is returned only if an allocation was refused; nothing has
/// changed then.
///
/// Conditions: the station is one of `shared`; each of its ends has two parts or more of the 2^64 - 1 of its
/// object; and its hand serves the processors of the mask, with no element on any of them.
pub fn split_station(
    alloc: Global,
    shared: &Shared,
    station: &mut Station,
    processors: u8,
) -> Result<Station, OutOfMemory>
    requires parts { ArePartsOf shared.now station.old.parts }
    requires divisible { AreDivisible station.old.parts }
    requires free { (p : ℕ) → p < 8 → is_in processors p ≡ true → IsFree p (view_of station.old.parts.hand) }
    ensures handle { AreSameParts station.old.parts station.new.parts }
    ensures parts { ArePartsOf shared.now station.new.parts }
    ensures born { IfOk result (λ s. ArePartsOf shared.now s.parts) }
    ensures split { IfOk result (λ s. AreSplit processors station.old.parts station.new.parts s.parts) }
    ensures effect { IfOk result (λ s. (account station.new.parts ≡ account station.old.parts)
        × (account s.parts ≡ nothing)) }
    ensures shares { IfOk result (λ s. (shares station.new.parts ≡ each_share kept (shares station.old.parts))
        × (shares s.parts ≡ each_share given (shares station.old.parts))) }
    ensures room { IfOk result (λ s. HasRoom shared.now.plan s.parts) }
    ensures result { IfOk result (λ s. HasNoMoreRoom shared.now.plan s.parts) }
    ensures fresh { IfOk result (λ s. IsFresh s.parts) }
    ensures refused { IfErr result (λ e. station.new ≡ station.old) }
{
    let lists = lists_for(alloc, shared)?;
    let parts = split_parts(shared, &mut station.parts, processors, lists);
    Ok(Station { parts })
}

/// Joins the ends of the other station to those of `station`, which then have all that both had, and its signals.
/// Returns the lines that the other heard. It allocates no memory.
///
/// Condition: both stations are of `shared`.
pub fn join_station(shared: &Shared, station: &mut Station, other: Station) -> HeardLines
    requires parts { ArePartsOf shared.now station.old.parts }
    requires other { ArePartsOf shared.now other.parts }
    ensures handle { AreSameParts station.old.parts station.new.parts }
    ensures parts { ArePartsOf shared.now station.new.parts }
    ensures joined { AreJoined station.old.parts other.parts station.new.parts }
    ensures effect { account station.new.parts ≡ account station.old.parts ⊕ unheard (account other.parts) }
    ensures shares { shares station.new.parts ≡ both_shares (shares station.old.parts) (shares other.parts) }
    ensures heard { result ≡ other.parts.heard }
{
    let Parts {
        hand,
        queues,
        chains,
        meters,
        heard,
        signals,
    } = other.into_parts();
    let parts = &mut station.parts;
    shared.threads.join(&mut parts.hand, hand);
    join_queue_ends(&shared.queues, &mut parts.queues, queues);
    join_chain_ends(
        shared.chains.as_slice(),
        parts.chains.as_mut_slice(),
        chains,
    );
    shared.meters.join(&mut parts.meters, meters);
    parts.signals = joined(&parts.signals, &signals);
    heard
}
