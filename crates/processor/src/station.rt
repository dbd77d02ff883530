//! The station of a processor.
ghost use Rattle.std.specs.Prelude.{◌≡◌, IfOk, IfErr};
ghost use Rattle.processor.specs.Rooms.{HasNoMoreRoom, HasRoom};
ghost use Rattle.processor.specs.Stations.{IsUnused};

use crate::programs::{hears_of, longest_line};
use crate::shared::Shared;
use boot_data::HeardLines;
use claim_queue::QueueEnd;
use event_theory::OutOfMemory;
use meters::MeterSeat;
use proc_chain::ChainEnd;
use quajects::AnyQuaject;
use std::alloc::Global;
use thread_table::Hand;
use turn_io::QueueEnds;

/// The parts of a station: its ends, the lines that its processor heard, as bytes, and the signals that it delivered:
/// bit s of the number e is set for signal s of element e.
#[derive(Drop)]
pub struct Parts {
    pub hand: Hand,
    pub queues: QueueEnds,
    pub chains: Vec<ChainEnd<AnyQuaject>>,
    pub meters: MeterSeat,
    pub heard: HeardLines,
    pub signals: [u16; 64],
}

/// The ends of one processor: a hand, an end of each queue and chain, and a seat of the meters. It has room for every
/// line that the plan's threads can hear.
#[derive(Drop)]
pub struct Station {
    pub parts: Parts,
}

impl Station {
    /// The station of a processor, which has heard nothing and was signalled nothing. It has room for just as many
    /// heard lines as the plan has hear steps, of 64 bytes each, or of 256 if one hears from a large queue. If an
    /// allocation is refused, all ends are returned.
    pub fn new(
        alloc: Global,
        shared: &Shared,
        hand: Hand,
        small: Vec<QueueEnd<64>>,
        large: Vec<QueueEnd<256>>,
        chains: Vec<ChainEnd<AnyQuaject>>,
        meters: MeterSeat,
    ) -> Result<Station, (Parts, OutOfMemory)>
        ensures ends { IfOk result (λ s. (s.parts.hand ≡ hand) × (s.parts.queues.small ≡ small)
            × (s.parts.queues.large ≡ large)
            × (s.parts.chains ≡ chains) × (s.parts.meters ≡ meters)) }
        ensures unused { IfOk result (λ s. IsUnused s.parts) }
        ensures room { IfOk result (λ s. HasRoom shared.now.plan s.parts) }
        ensures result { IfOk result (λ s. HasNoMoreRoom shared.now.plan s.parts) }
        ensures back { IfErr result (λ e. (e.0.hand ≡ hand) × (e.0.queues.small ≡ small)
            × (e.0.queues.large ≡ large)
            × (e.0.chains ≡ chains) × (e.0.meters ≡ meters) × IsUnused e.0) }
    {
        let signals = [0; 64];
        let queues = QueueEnds { small, large };
        match HeardLines::with_room(alloc, hears_of(&shared.plan), longest_line(&shared.plan)) {
            Ok(heard) => Ok(Station {
                parts: Parts {
                    hand,
                    queues,
                    chains,
                    meters,
                    heard,
                    signals,
                },
            }),
            Err(refused) => {
                let parts = Parts {
                    hand,
                    queues,
                    chains,
                    meters,
                    heard: HeardLines::new(alloc),
                    signals,
                };
                Err((parts, refused))
            }
        }
    }

    /// The station of these ends, which has heard and was signalled this. Allocates no memory.
    pub fn from_parts(parts: Parts) -> Station
        ensures { result.parts ≡ parts }
    {
        Station { parts }
    }

    /// Gives the ends away, and what was heard and signalled. Allocates no memory.
    pub fn into_parts(self) -> Parts
        ensures { result ≡ self.parts }
    {
        let Station { parts } = self;
        parts
    }
}
