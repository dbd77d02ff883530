//! The devices of ttys.
ghost use Rattle.std.specs.Prelude.{◌≡◌, ◌<◌, ◌+◌, length, IfOk};
ghost use Rattle.table_theory.specs.Sharing.{given, kept};
ghost use Rattle.proc_chain.specs.Handles.{IsDivisible};
ghost use Rattle.turn_io.specs.EndLists.{chain_end_share};
ghost use Rattle.boot_objects.specs.Devices.{ChainSplitOff, MadeDevice, MadeDevices};
ghost use Rattle.boot_objects.specs.Makings.{AreQueuesOf};
ghost use Rattle.boot_objects.specs.Stocks.{CanGive, IsIdleChainEnd, IsStock, IsChainStock, shares, chain_shares};

use crate::chains::{Chain, End};
use crate::stock::split_at;
use boot_data::BootPlan;
use claim_queue::{ClaimQueue, QueueEnd};
use event_theory::OutOfMemory;
use quajects::{Queues, RawTty};
use spsc_line::{LineIn, LineOut, line};
use std::alloc::Global;

/// How many bytes a device's line has room for.
const LINE_BYTES: usize = 64;

/// The device of a tty, the index of the tty's chain, and the two ends of the line from which the device pops typed
/// bytes.
#[derive(Drop)]
pub struct Device {
    pub chain: usize,
    pub tty: RawTty,
    pub input: LineIn,
    pub output: LineOut,
}

// One more end of the chain, split off from this one.
fn split_one(chain: &Chain, end: &mut End) -> End
    requires idle { IsIdleChainEnd chain.now end.old }
    requires parts { IsDivisible end.old }
    ensures idle { IsIdleChainEnd chain.now end.new × IsIdleChainEnd chain.now result }
    ensures left { chain_end_share end.new ≡ kept (chain_end_share end.old) }
    ensures given { chain_end_share result ≡ given (chain_end_share end.old) }
{
    chain.split(end)
}

// One more end of the chain with this index, split off from the end in the stock, which has an end of each chain.
fn split_chain_at(chains: &[Chain], stock: &mut Vec<End>, index: usize) -> End
    requires named { index < length chains.now }
    requires stock { IsChainStock chains.now stock.old.items }
    requires parts { CanGive 1 (chain_shares stock.old.items) }
    ensures { ChainSplitOff chains.now index stock.old.items stock.new.items result }
{
    split_one(&chains[index], &mut stock[index])
}

// A device that puts in the small queue with the index `raw` and chains notes in the chain with the index `chain`. Its
// line is new.
fn make_device(
    alloc: Global,
    queues: &[ClaimQueue<64>],
    chains: &[Chain],
    small: &mut Vec<QueueEnd<64>>,
    ends: &mut Vec<End>,
    raw: usize,
    chain: usize,
) -> Result<Device, OutOfMemory>
    requires named { (raw < length queues.now) × (chain < length chains.now) }
    requires stock { IsStock queues.now small.old.items × IsChainStock chains.now ends.old.items }
    requires parts { CanGive 1 (shares small.old.items) × CanGive 1 (chain_shares ends.old.items) }
    ensures { IfOk result (λ device. MadeDevice queues.now chains.now raw chain small.old.items small.new.items
        ends.old.items ends.new.items device) }
{
    let Ok((input, output)) = line(alloc, LINE_BYTES) else {
        return Err(OutOfMemory);
    };
    let end = split_at(queues, small, raw);
    let chain_end = split_chain_at(chains, ends, chain);
    Ok(Device {
        chain,
        tty: RawTty::new(raw, end, chain_end),
        input,
        output,
    })
}

/// The device of each tty of the plan, in order, over ends split off the first ends of the ttys' raw queues and chains.
/// `OutOfMemory` is returned only if an allocation was refused.
///
/// Conditions: the queues and chains are those that the plan asks for, each with its end. Each end can be split eight
/// times: a plan has two ttys at most.
pub(crate) fn make_devices(
    alloc: Global,
    queues: &Queues,
    chains: &[Chain],
    small: &mut Vec<QueueEnd<64>>,
    ends: &mut Vec<End>,
    plan: &BootPlan,
) -> Result<Vec<Device>, OutOfMemory>
    requires queues { AreQueuesOf plan.now queues.now }
    requires chains { length chains.now ≡ length plan.now.movers + length plan.now.ttys }
    requires stock { IsStock queues.now.small.items small.old.items × IsChainStock chains.now ends.old.items }
    requires parts { CanGive 8 (shares small.old.items) × CanGive 8 (chain_shares ends.old.items) }
    ensures { IfOk result (λ made. MadeDevices plan.now queues.now chains.now (length plan.now.ttys) small.old.items
        small.new.items ends.old.items ends.new.items made.items) }
{
    let first_raw = plan.queues.as_slice().len();
    let first_chain = plan.movers.as_slice().len();
    let many = plan.ttys.as_slice().len();
    let mut devices = Vec::with_capacity(alloc, many)?;
    for tty in 0..many {
        let raw = first_raw + tty;
        let chain = first_chain + tty;
        let list = queues.small.as_slice();
        devices.push_reserved(make_device(alloc, list, chains, small, ends, raw, chain)?);
    }
    Ok(devices)
}
