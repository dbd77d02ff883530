//! The work of a boot before its threads start: the first station is prepared, and each device gets its work.
ghost use Rattle.std.specs.Prelude.{◌≡◌, ◌+◌, ◌≤◌, [], length, map, vec_len, vec_capacity};
ghost use Rattle.processor.specs.Stations.{ArePartsOf};
ghost use Rattle.boot_threads.specs.Readiness.{HasPrepared, IsServing, AreServing, input_of};

use crate::alarms::set_alarms;
use crate::elements::prepare;
use crate::work::Work;
use boot_data::plan::PlannedTty;
use boot_objects::Device;
use processor::{Shared, Station};
use spsc_line::LineIn;
use std::sync::Wait;

/// Makes an element ready for each thread of the plan, in their order, frees the others, and sets the alarms of
/// the plan.
///
/// Condition: the station is one of `shared`.
pub fn prepare_station<R: Wait>(rt: &R, shared: &Shared, station: Station) -> Station
    requires { ArePartsOf shared.now station.parts }
    ensures prepared { HasPrepared shared.now.plan station.parts result.parts }
    ensures parts { ArePartsOf shared.now result.parts }
{
    let mut parts = station.into_parts();
    let count = shared.plan.threads.as_slice().len() as u8;
    parts.hand = prepare(rt, &shared.threads, parts.hand, count);
    let alarms = shared.plan.alarms.as_slice();
    parts.meters = set_alarms(rt, &shared.meters, parts.meters, alarms);
    Station::from_parts(parts)
}

// The work of a device, and the end of its line at which its tty's bytes are typed.
fn device_work<G>(device: Device, tty: &PlannedTty) -> (Work<G>, LineIn)
    ensures { IsServing tty.now device result.0 × (result.1 ≡ device.input) }
{
    let Device {
        chain,
        tty: raw,
        input,
        output,
    } = device;
    let count = tty.typed.as_slice().len();
    let work = Work::Serve {
        chain,
        line: output,
        tty: raw,
        count,
    };
    (work, input)
}

/// Adds the work of each device after these works: to serve its tty until it has had as many bytes as the plan types.
/// The ends of the lines at which bytes are typed go into `lines`. Both lists have room, so it takes no memory.
///
/// Conditions: there is a device for each tty, in their order, and `lines` is empty.
pub fn add_devices<G: Drop>(
    ttys: &[PlannedTty],
    devices: Vec<Device>,
    works: Vec<Work<G>>,
    lines: Vec<LineIn>,
) -> (Vec<Work<G>>, Vec<LineIn>)
    requires number { vec_len devices ≡ length ttys.now }
    requires room { vec_len works + vec_len devices ≤ vec_capacity works }
    requires lines { (lines.items ≡ []) × (vec_len devices ≤ vec_capacity lines) }
    ensures works { AreServing ttys.now devices.items works.items result.0.items }
    ensures lines { result.1.items ≡ map input_of devices.items }
{
    let mut works = works;
    let mut lines = lines;
    let mut t = 0usize;
    for device in devices {
        let (work, line) = device_work(device, &ttys[t]);
        works.push_reserved(work);
        lines.push_reserved(line);
        t += 1;
    }
    (works, lines)
}
