//! All objects of a plan, and the station of the first processor, which has an end of each.
ghost use Rattle.std.specs.Prelude.{◌≡◌, IfOk};
ghost use Rattle.processor.specs.Accounts.{account, nothing};
ghost use Rattle.processor.specs.Rooms.{HasRoom};
ghost use Rattle.processor.specs.Stations.{ArePartsOf, IsUnused};
ghost use Rattle.boot_objects.specs.Devices.{AreDevicesOf};
ghost use Rattle.boot_objects.specs.Objects.{AreQuajectsOf, BeginAtZero, HaveAll, IsFirstHand, IsFirstSeat};
ghost use Rattle.boot_objects.specs.Shares.{quajects_of};
ghost use Rattle.boot_objects.specs.Stocks.{CanGive, shares, chain_shares};

use crate::device::Device;
use crate::stocked::{Stocked, make_stocked};
use boot_data::BootPlan;
use event_theory::OutOfMemory;
use meters::Meters;
use processor::{Shared, Station};
use std::alloc::Global;
use thread_table::ThreadTable;

/// The shared objects of a kernel's processors, the station of the first processor, and the devices of the ttys.
#[derive(Drop)]
pub struct Objects {
    pub shared: Shared,
    pub station: Station,
    pub devices: Vec<Device>,
}

/// Makes all objects of a plan: the queues, each with an end in the station; the chains of its pumps, switches and
/// ttys, in that order, each with its quaject and an end in the station; a device for each tty, with a line of 64
/// places; the thread elements, all free, with their only hand in the station; and the meters, with their only seat
/// there. Each end of a queue or chain in the station can be split a thousand times. `OutOfMemory` is returned only if
/// an allocation was refused; the objects made until then are dropped, and the plan too.
pub fn make_objects(alloc: Global, plan: BootPlan) -> Result<Objects, OutOfMemory>
    ensures plan { IfOk result (λ o. o.shared.plan ≡ plan) }
    ensures parts { IfOk result (λ o. ArePartsOf o.shared o.station.parts) }
    ensures unused { IfOk result (λ o. IsUnused o.station.parts) }
    ensures room { IfOk result (λ o. HasRoom o.shared.plan o.station.parts) }
    ensures hand { IfOk result (λ o. IsFirstHand o.shared.threads o.station.parts.hand) }
    ensures seat { IfOk result (λ o. IsFirstSeat o.shared.meters o.station.parts.meters) }
    ensures begin { IfOk result (λ o. BeginAtZero o.shared.queues o.shared.chains.items) }
    ensures effect { IfOk result (λ o. account o.station.parts ≡ nothing) }
    ensures quajects { IfOk result (λ o. AreQuajectsOf o.shared.plan o.shared.queues
        (quajects_of o.shared.chains.items)) }
    ensures devices { IfOk result (λ o. AreDevicesOf o.shared.plan o.shared.queues o.shared.chains.items
        o.devices.items) }
    ensures splits { IfOk result (λ o. CanGive 1000 (shares o.station.parts.queues.small.items)
        × CanGive 1000 (shares o.station.parts.queues.large.items)
        × CanGive 1000 (chain_shares o.station.parts.chains.items)) }
    ensures whole { IfOk result (λ o. HaveAll o.shared o.station.parts o.devices.items) }
{
    // A call drops all fields of a value. Without it the proof goes through each of them at each way out, which takes
    // long.
    let Ok(stocked) = make_stocked(alloc, &plan) else {
        drop(plan);
        return Err(OutOfMemory);
    };
    let Ok((threads, hand)) = ThreadTable::new(alloc) else {
        drop(stocked);
        drop(plan);
        return Err(OutOfMemory);
    };
    let Ok((meters, seat)) = Meters::new(alloc, 0) else {
        drop(stocked);
        drop(threads);
        drop(hand);
        drop(plan);
        return Err(OutOfMemory);
    };
    let Stocked {
        queues,
        small,
        large,
        chains,
        ends,
        devices,
    } = stocked;
    let shared = Shared {
        queues,
        chains,
        threads,
        meters,
        plan,
    };
    match Station::new(alloc, &shared, hand, small, large, ends, seat) {
        Ok(station) => Ok(Objects {
            shared,
            station,
            devices,
        }),
        Err(_) => {
            drop(shared);
            drop(devices);
            Err(OutOfMemory)
        }
    }
}
