//! Consequences of the preparing of a station and of the running of a kernel's threads.
ghost use Rattle.std.specs.Prelude.{◌≡◌, ◌<◌, ◌≤◌, ◌+◌, ◌^◌, ◌++◌, ℕ, List, Some, Ok, length, map, take, drop};
ghost use Rattle.std.specs.List.{All, AllZip, AllByRecursion, slice_get};
ghost use Rattle.boot_data.specs.declared.boot_plan.BootPlan.{BootPlan};
ghost use Rattle.boot_data.specs.declared.plan.PlannedTty.{PlannedTty};
ghost use Rattle.boot_data.specs.Hearing.{Key};
ghost use Rattle.claim_queue.specs.Plain.{ClaimQueue};
ghost use Rattle.turn_dispatch.specs.Holdings.{IsFree};
ghost use Rattle.meters.specs.declared.ends.Meters.{Meters};
ghost use Rattle.meters.specs.Handles.{IsOnlySeat};
ghost use Rattle.boot_objects.specs.declared.device.Device.{Device};
ghost use Rattle.boot_objects.specs.Devices.{IsDevice, AreDevicesOf};
ghost use Rattle.boot_objects.specs.Objects.{IsFirstHand, IsFirstSeat};
ghost use Rattle.boot_objects.specs.Stocks as stocks;
ghost use Rattle.boot_objects.specs.Stocks.{CanGive};
ghost use Rattle.boot_objects.specs.DeviceEndings.{DeviceEnded};
ghost use Rattle.proc_chain.specs.declared.ends.ProcChain.{ProcChain};
ghost use Rattle.processor.specs.declared.shared.Shared.{Shared};
ghost use Rattle.processor.specs.declared.station.Parts.{Parts};
ghost use Rattle.processor.specs.Accounts.{account, nothing, shares};
ghost use Rattle.processor.specs.Stations.{IsUnused};
ghost use Rattle.stations.specs.Partings.{AllJoined};
ghost use Rattle.processor.specs.Preparing.{IsPrepared};
ghost use Rattle.quajects.specs.declared.any.AnyQuaject.{AnyQuaject};
ghost use Rattle.quajects.specs.declared.raw.RawTty.{RawTty};
ghost use Rattle.quajects.specs.declared.world.Queues.{Queues};
ghost use Rattle.quajects.specs.Raws.{end_of};
ghost use Rattle.spsc_line.specs.declared.line_in.LineIn.{LineIn};
ghost use Rattle.spsc_line.specs.declared.line_out.LineOut.{LineOut};
ghost use Rattle.spsc_line.specs.Lines.{bytes_sent, bytes_received, bytes_left};
ghost use Rattle.thread_table.specs.declared.hand.ThreadTable.{ThreadTable};
ghost use Rattle.thread_table.specs.Handles.{view_of, IsOnlyHand};
ghost use Rattle.processor.specs.Points.{calls};
ghost use Rattle.boot_threads.specs.declared.work.Work.{Work};
ghost use Rattle.boot_threads.specs.declared.work.Processed.{Processed};
ghost use Rattle.boot_threads.specs.declared.work.Worked.{Worked};
ghost use Rattle.boot_threads.specs.declared.work.Worked.TheVariants as worked;
ghost use Rattle.boot_threads.specs.Backs.{device_of, IsDeviceBack, CameTogether, back_of, parts_of};
ghost use Rattle.boot_threads.specs.Crews.{GaveBack};
ghost use Rattle.boot_threads.specs.Devices.{Served};
ghost use Rattle.boot_threads.specs.Readiness.{HasPrepared, AreServing, input_of};
ghost use Rattle.boot_threads.specs.Stationings.{CanSplit, NoneOn, ArePosted};
ghost use Rattle.boot_threads.specs.Typings.{AreTyped};
ghost use Rattle.boot_threads.specs.Works.{Back, MayWork, HasWorked};

use crate::starting::Witness;
use crate::work::{Work, Worked};
use processor::{Shared, TurnGate};

/// The first station of new objects, once it is prepared, is as the report of a boot requires. All free elements were
/// taken, and the elements freed again are no thread's. The plan's alarms were set, and nothing else was done.
pub fn first_is_prepared()
    ensures prepared { (plan : BootPlan) (table : ThreadTable) (old new : Parts) → IsFirstHand table old.hand
        → HasPrepared plan old new → account old ≡ nothing → IsUnused old → IsPrepared plan new }
    ensures spare { (plan : BootPlan) (table : ThreadTable) (old new : Parts) → IsFirstHand table old.hand
        → HasPrepared plan old new
        → AllByRecursion (λ (freed : Key). length plan.threads ≤ freed.0) (account new).hand.retired }
{}

/// The first station of new objects, once it is prepared, can be split eight times. It serves all processors, and no
/// element is on one. Parts with the shares of the prepared station have the only hand and the only seat, and the
/// shares that the first station had.
pub fn first_is_ready()
    ensures splits { (plan : BootPlan) (table : ThreadTable) (meters : Meters) (old new : Parts)
        → IsFirstHand table old.hand → IsFirstSeat meters old.meters → CanGive 1000 (stocks.shares old.queues.small.items)
        → CanGive 1000 (stocks.shares old.queues.large.items) → CanGive 1000 (stocks.chain_shares old.chains.items)
        → HasPrepared plan old new → CanSplit 8 new }
    ensures free { (plan : BootPlan) (table : ThreadTable) (old new : Parts) → IsFirstHand table old.hand
        → HasPrepared plan old new → NoneOn new × ((k : ℕ) → k < 8 → IsFree k (view_of new.hand)) }
    ensures only { (plan : BootPlan) (table : ThreadTable) (meters : Meters) (first old last : Parts)
        → IsFirstHand table first.hand → IsFirstSeat meters first.meters → HasPrepared plan first old
        → shares last ≡ shares old → IsOnlyHand last.hand × IsOnlySeat last.meters × (shares last ≡ shares first) }
{}

/// The works of the processors, followed by the works of new objects' devices, may all be done. There are as many works
/// as gates and ttys.
pub fn works_may_run<G>()
    ensures may { (shared : Shared) (turns : ℕ) (gates : List G) (old new : Parts) (devices : List Device)
        (posts works : List (Work G)) → ArePosted shared 0 turns gates old new posts
        → AreDevicesOf shared.plan shared.queues shared.chains.items devices
        → AreServing shared.plan.ttys devices posts works → All (MayWork shared) works }
    ensures posts { (shared : Shared) (turns : ℕ) (gates : List G) (old new : Parts) (posts : List (Work G))
        → ArePosted shared 0 turns gates old new posts → length posts ≡ length gates }
    ensures number { (ttys : List PlannedTty) (devices : List Device) (posts works : List (Work G))
        → AreServing ttys devices posts works → length works ≡ length posts + length ttys }
{}

/// A device of new objects that served as many bytes as were typed into its line served those bytes, in their order. It
/// put the bytes that were not refused, each run after the one before it, and took and shut nothing.
/// `spsc_line::finish` ensures of the two ends that the bytes received and the bytes left are the bytes sent.
pub fn all_is_served()
    ensures { (queues : List (ClaimQueue 64)) (chains : List (ProcChain AnyQuaject Queues)) (raw chain : ℕ)
        (device : Device) (its : ProcChain AnyQuaject Queues) (p : PlannedTty) (input : LineIn) (line : LineOut)
        (tty : RawTty) → IsDevice queues chains raw chain device → length p.typed < 2 ^ 64
        → bytes_sent input ≡ bytes_sent device.input ++ p.typed
        → Served its (length p.typed) device.output device.tty line tty
        → bytes_received line ++ bytes_left input line ≡ bytes_sent input
        → DeviceEnded p (end_of tty) (device_of line tty) }
{}

/// Conditions: the works of new objects' devices follow the others, and the bytes of each tty were typed. Then the
/// device of each tty that gave anything back served its tty, and its ends have the shares that they had. Once the
/// device's line is finished, all bytes that the plan types were served.
pub fn devices_come_back<R: Witness<Shared, Worked<G>, Work<G>>, G: TurnGate + Drop>()
    ensures { (shared : Shared) (devices : List Device) (posts works : List (Work G))
        (backs : List (Back G)) (inputs : List LineIn)
        → AreDevicesOf shared.plan shared.queues shared.chains.items devices
        → AreServing shared.plan.ttys devices posts works
        → AllZip (GaveBack R.ran R.refused (HasWorked (calls G.observes G.learns)) shared) works backs
        → AreTyped shared.plan.ttys (drop (length posts) backs) (map input_of devices) inputs
        → (t : ℕ) (p : PlannedTty) (device : Device) (input : LineIn) (back : Worked G)
        → slice_get shared.plan.ttys t ≡ Some p → slice_get devices t ≡ Some device
        → slice_get inputs t ≡ Some input → slice_get backs (length posts + t) ≡ Some (Ok back)
        → (line : LineOut) × (tty : RawTty) × (back ≡ worked.Served line tty)
        × IsDeviceBack shared t p device input line tty }
{}

/// Condition: each processor gave its station back. Then each left on the station what its log says, and its gate
/// observed each turn of the log. Once all stations are joined to what the first had kept, the result has the shares
/// that the first station had. It has done the work of all, and serves all processors; no element is on a processor.
pub fn stations_come_together<R: Witness<Shared, Worked<G>, Work<G>>, G: TurnGate + Drop>()
    ensures { (shared : Shared) (turns : ℕ) (gates : List G) (old new last : Parts) (posts works : List (Work G))
        (devices : List Device) (backs : List (Back G)) (came : List (Processed G))
        → ArePosted shared 0 turns gates old new posts → AreServing shared.plan.ttys devices posts works
        → AllZip (GaveBack R.ran R.refused (HasWorked (calls G.observes G.learns)) shared) works backs
        → take (length posts) backs ≡ map back_of came
        → AllJoined new (map parts_of came) last → NoneOn new
        → ((k : ℕ) → length gates ≤ k → k < 8 → IsFree k (view_of new.hand))
        → CameTogether R.ran (calls G.observes G.learns) shared turns gates old last came }
{}
