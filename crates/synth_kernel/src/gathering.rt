//! The results of a kernel's threads, joined.
ghost use Rattle.std.specs.Prelude.{◌≡◌, ◌≤◌, ◌+◌, ◌++◌, [], ◌∷◌, false, true, length, map, vec_capacity};
ghost use Rattle.std.specs.Prelude.{None, Ok, IfSome};
ghost use Rattle.std.specs.List.{All, AllZip, flat_map};
ghost use Rattle.processor.specs.Stations.{ArePartsOf};
ghost use Rattle.boot_threads.specs.Backs.{parts_of, gate_of};
ghost use Rattle.processor.specs.Turns.{heard_lines};
ghost use Rattle.stations.specs.Partings.{AllJoined};
ghost use Rattle.boot_report.specs.Reported.{lines_of};
ghost use Rattle.synth_kernel.specs.Gatherings.{processed_in, served_in, all_there, tty_of};
ghost use Rattle.synth_kernel.specs.Gatherings.{TotalsAre, HaveRoomFor, IsGathered};
ghost use Rattle.stations.specs.Splits.{AllThree};
ghost use Rattle.spsc_line.specs.Lines.{IsLine};

use boot_data::HeardLines;
use boot_report::Typed;
use boot_threads::{Back, Processed, Worked};
use processor::{Shared, Station};
use quajects::RawTty;
use spsc_line::{LineIn, LineOut, finish};
use stations::join_station;

/// The result of a device: the end of its line from which it popped, and its raw tty.
#[derive(Drop)]
pub(crate) struct Served {
    pub(crate) line: LineOut,
    pub(crate) tty: RawTty,
}

/// Lists for the sorted results of all threads, and for what is made from them.
#[derive(Drop)]
pub(crate) struct Lists<G> {
    pub(crate) processed: Vec<Processed<G>>,
    pub(crate) served: Vec<Served>,
    pub(crate) ttys: Vec<RawTty>,
    pub(crate) heards: Vec<HeardLines>,
    pub(crate) gates: Vec<G>,
    pub(crate) reported: Vec<Typed>,
}

/// The gathered results of all threads. All stations are joined to `station`. The lists have the lines that each
/// processor heard, the gates, the raw ttys, and the totals of each device.
#[derive(Drop)]
pub(crate) struct Gathered<G> {
    pub(crate) station: Station,
    pub(crate) heards: Vec<HeardLines>,
    pub(crate) gates: Vec<G>,
    pub(crate) ttys: Vec<RawTty>,
    pub(crate) reported: Vec<Typed>,
}

// Puts the result of a thread into its list.
fn sort_back<G: Drop>(back: Worked<G>, processed: &mut Vec<Processed<G>>, served: &mut Vec<Served>)
    requires processed { length (processed.old.items ++ processed_in (Ok back ∷ [])) ≤ vec_capacity processed.old }
    requires served { length (served.old.items ++ served_in (Ok back ∷ [])) ≤ vec_capacity served.old }
    ensures processed { processed.new.items ≡ processed.old.items ++ processed_in (Ok back ∷ []) }
    ensures served { served.new.items ≡ served.old.items ++ served_in (Ok back ∷ []) }
    ensures room { (vec_capacity processed.new ≡ vec_capacity processed.old)
        × (vec_capacity served.new ≡ vec_capacity served.old) }
{
    match back {
        Worked::Processed(one) => processed.push_reserved(one),
        Worked::Served { line, tty } => served.push_reserved(Served { line, tty }),
    }
}

// The results of the processors, and the results of the devices, each in their order. None if a thread gave nothing
// back, since it couldn't be started. It takes no memory: both lists have room.
fn sort_backs<G: Drop>(
    backs: Vec<Back<G>>,
    processed: Vec<Processed<G>>,
    served: Vec<Served>,
) -> Option<(Vec<Processed<G>>, Vec<Served>)>
    requires processed { (processed.items ≡ []) × (length (processed_in backs.items) ≤ vec_capacity processed) }
    requires served { (served.items ≡ []) × (length (served_in backs.items) ≤ vec_capacity served) }
    ensures sorted { IfSome result (λ r. (r.0.items ≡ processed_in backs.items) × (r.1.items ≡ served_in backs.items)
        × (all_there backs.items ≡ true)) }
    ensures missing { result ≡ None → all_there backs.items ≡ false }
{
    let mut processed = processed;
    let mut served = served;
    let mut all = true;
    for back in backs {
        match back {
            Ok(back) => sort_back(back, &mut processed, &mut served),
            Err(_lost) => all = false,
        }
    }
    if all { Some((processed, served)) } else { None }
}

// Joins all these stations to the first, one after the other. The lines that each heard go into `heards`, and its gate
// into `gates`, in their order. Both are empty and have room, so it takes no memory.
//
// Conditions: all stations are of `shared`.
fn join_stations<G: Drop>(
    shared: &Shared,
    first: Station,
    processed: Vec<Processed<G>>,
    heards: Vec<HeardLines>,
    gates: Vec<G>,
) -> (Station, Vec<HeardLines>, Vec<G>)
    requires first { ArePartsOf shared.now first.parts }
    requires stations { All (ArePartsOf shared.now) (map parts_of processed.items) }
    requires room { (heards.items ≡ []) × (length processed.items ≤ vec_capacity heards) }
    requires gates { (gates.items ≡ []) × (length processed.items ≤ vec_capacity gates) }
    ensures parts { ArePartsOf shared.now result.0.parts }
    ensures joined { AllJoined first.parts (map parts_of processed.items) result.0.parts }
    ensures heard { flat_map lines_of result.1.items ≡ flat_map heard_lines (map parts_of processed.items) }
    ensures gates { result.2.items ≡ map gate_of processed.items }
{
    let mut first = first;
    let mut heards = heards;
    let mut gates = gates;
    for one in processed {
        let Processed { station, gate } = one;
        heards.push_reserved(join_station(shared, &mut first, station));
        gates.push_reserved(gate);
    }
    (first, heards, gates)
}

// Ends the line of a device, and returns the device's totals.
fn finish_one(input: LineIn, served: Served) -> (RawTty, Typed)
    requires { IsLine input served.line }
    ensures tty { result.0 ≡ served.tty }
    ensures reported { TotalsAre served input result.1 }
{
    let Served { line, tty } = served;
    let totals = finish(input, line);
    let reported = Typed {
        popped: totals.received as u64,
        refused: tty.overruns(),
    };
    (tty, reported)
}

// Ends the lines of all devices. The raw ttys go into `ttys`, and the devices' totals into `reported`, in the order of
// the devices. Both lists are empty and have room, so it takes no memory.
//
// Conditions: there is an input for each device, in the order of the devices, which is the input of its line.
fn finish_all(
    inputs: Vec<LineIn>,
    served: Vec<Served>,
    ttys: Vec<RawTty>,
    reported: Vec<Typed>,
) -> (Vec<RawTty>, Vec<Typed>)
    requires lines { AllZip (λ one input. IsLine input one.line) served.items inputs.items }
    requires ttys { (ttys.items ≡ []) × (length served.items ≤ vec_capacity ttys) }
    requires reported { (reported.items ≡ []) × (length served.items ≤ vec_capacity reported) }
    ensures ttys { result.0.items ≡ map tty_of served.items }
    ensures reported { AllThree TotalsAre served.items inputs.items result.1.items }
{
    let mut ttys = ttys;
    let mut reported = reported;
    let mut inputs = inputs.into_iter();
    for one in served {
        let Some(input) = inputs.next() else {
            unreachable!()
        };
        let (tty, what) = finish_one(input, one);
        ttys.push_reserved(tty);
        reported.push_reserved(what);
    }
    (ttys, reported)
}

/// Joins the stations of the processors to the first, and ends the devices' lines, each in their order. The gates are
/// in the processors' order. None if a thread gave nothing back, since it couldn't be started. It takes no memory: all
/// lists have room.
///
/// Conditions, if each thread gave something back: the stations are of `shared`. There is an input for each device, in
/// the order of the devices, which is the input of its line.
pub(crate) fn gather<G: Drop>(
    shared: &Shared,
    first: Station,
    backs: Vec<Back<G>>,
    inputs: Vec<LineIn>,
    lists: Lists<G>,
) -> Option<Gathered<G>>
    requires first { ArePartsOf shared.now first.parts }
    requires stations { all_there backs.items ≡ true → All (ArePartsOf shared.now) (map parts_of
        (processed_in backs.items)) }
    requires lines { all_there backs.items ≡ true → AllZip (λ one input. IsLine input one.line)
        (served_in backs.items) inputs.items }
    requires room { HaveRoomFor backs.items lists }
    ensures gathered { IfSome result (IsGathered shared.now first backs.items inputs.items) }
    ensures missing { result ≡ None → all_there backs.items ≡ false }
{
    let Lists {
        processed,
        served,
        ttys,
        heards,
        gates,
        reported,
    } = lists;
    let (processed, served) = sort_backs(backs, processed, served)?;
    let (ttys, reported) = finish_all(inputs, served, ttys, reported);
    let (station, heards, gates) = join_stations(shared, first, processed, heards, gates);
    Some(Gathered {
        station,
        heards,
        gates,
        ttys,
        reported,
    })
}
