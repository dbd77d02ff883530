//! Closing all that a boot shared, in the necessary order: the chains first, because their quajects have ends of the
//! queues.
ghost use Rattle.std.specs.Prelude.{◌≡◌, IfOk, length};
ghost use Rattle.boot_objects.specs.Endings.{AllClosed};
ghost use Rattle.boot_objects.specs.Rooms.{HaveRoom};
ghost use Rattle.boot_objects.specs.Wholes.{HasWholes};
ghost use Rattle.processor.specs.Stations.{ArePartsOf};

use crate::closing::homing::close_chains;
use crate::closing::queues::close_queues;
use crate::closing::tables::{close_meters, close_threads};
use boot_data::{BootPlan, HeardLines};
use claim_queue::Closed;
use event_theory::OutOfMemory;
use meters::Metered;
use processor::{Parts, Shared};
use quajects::{Came, Home, Queues};
use std::alloc::Global;
use std::snapshot::Snapshot;
use thread_table::{Place, Places};
use turn_io::QueueEnds;

/// Empty lists with room for the answers of closing all.
#[derive(Drop)]
pub struct Answers {
    pub homes: Vec<Home>,
    pub counts: Vec<Came>,
    pub small: Vec<Closed<64>>,
    pub large: Vec<Closed<256>>,
}

impl Answers {
    /// Lists with room for an answer of each of these objects and for no more. `OutOfMemory` is returned only if an
    /// allocation was refused.
    pub fn new(alloc: Global, shared: &Shared) -> Result<Answers, OutOfMemory>
        ensures { IfOk result (HaveRoom shared.now) }
    {
        let homes = Vec::with_capacity(alloc, shared.chains.len())?;
        let counts = Vec::with_capacity(alloc, shared.chains.len())?;
        let small = Vec::with_capacity(alloc, shared.queues.small.len())?;
        let large = Vec::with_capacity(alloc, shared.queues.large.len())?;
        Ok(Answers {
            homes,
            counts,
            small,
            large,
        })
    }
}

/// The final state of all objects: the numbers of each quaject, in the order of the chains; the items put, taken and
/// left of each queue; the thread elements; the meters; and the lines heard and the signals shown. The last two
/// fields are for the contract alone: the ends that closed all, as they came, and the last end of each queue. Only
/// `close_all` makes one, and nobody changes it: a report is made from what was closed.
#[derive(Drop)]
pub struct TornDown {
    counts: Vec<Came>,
    small: Vec<Closed<64>>,
    large: Vec<Closed<256>>,
    threads: Places,
    meters: Metered,
    heard: HeardLines,
    signals: [u16; 64],
    plan: BootPlan,
    last: Snapshot<Parts>,
    ends: Snapshot<QueueEnds>,
}

impl TornDown {
    /// The plan of all that was closed.
    pub fn plan(&self) -> &BootPlan
        ensures { result.now ≡ self.now.plan }
    {
        &self.plan
    }

    /// The numbers of each quaject, in the order of the chains.
    pub fn counts(&self) -> &[Came]
        ensures { result.now ≡ self.now.counts.items }
    {
        self.counts.as_slice()
    }

    /// The items put, taken and left of each small queue, in the order of the queues.
    pub fn small(&self) -> &[Closed<64>]
        ensures { result.now ≡ self.now.small.items }
    {
        self.small.as_slice()
    }

    /// The items put, taken and left of each large queue, in the order of the queues.
    pub fn large(&self) -> &[Closed<256>]
        ensures { result.now ≡ self.now.large.items }
    {
        self.large.as_slice()
    }

    /// The place of each thread element, by its number.
    pub fn places(&self) -> &[Place; 64]
        ensures { result.now ≡ self.now.threads.places }
    {
        &self.threads.places
    }

    /// The number of steps that each thread element has done, by its number.
    pub fn pcs(&self) -> &[u64; 64]
        ensures { result.now ≡ self.now.threads.pcs }
    {
        &self.threads.pcs
    }

    /// The signals that were shown to each thread element, by its number: bit s for signal s.
    pub fn signals(&self) -> &[u16; 64]
        ensures { result.now ≡ self.now.signals }
    {
        &self.signals
    }

    /// The gauges, by their numbers.
    pub fn gauges(&self) -> &[u64; 8]
        ensures { result.now ≡ self.now.meters.gauges }
    {
        &self.meters.gauges
    }

    /// The number of alarms that were set and did not fire.
    pub fn alarms_left(&self) -> usize
        ensures { result ≡ length self.now.meters.alarms.items }
    {
        self.meters.alarms.len()
    }
}

/// Closes the chains and brings their quajects home, and then closes the queues, the thread table and the meters. It
/// takes no memory: the answers go into lists that have room for them.
///
/// Conditions: the parts are those of the shared objects. No end of a chain has a Turn. No other end exists except
/// those of the quajects.
pub fn close_all(shared: Shared, parts: Parts, answers: Answers) -> TornDown
    requires parts { ArePartsOf shared parts }
    requires wholes { HasWholes shared parts }
    requires room { HaveRoom shared answers }
    ensures { AllClosed shared parts result }
{
    let last = Snapshot::of(&parts);
    let Shared {
        queues,
        chains,
        threads,
        meters,
        plan,
    } = shared;
    let Parts {
        hand,
        queues: mut ends,
        chains: chain_ends,
        meters: seat,
        heard,
        signals,
    } = parts;
    let counts = close_chains(
        &queues,
        chains,
        chain_ends,
        &mut ends,
        answers.homes,
        answers.counts,
    );
    let last_ends = Snapshot::of(&ends);
    let Queues { small, large } = queues;
    TornDown {
        counts,
        small: close_queues(small, ends.small, answers.small),
        large: close_queues(large, ends.large, answers.large),
        threads: close_threads(threads, hand),
        meters: close_meters(meters, seat),
        heard,
        signals,
        plan,
        last,
        ends: last_ends,
    }
}
