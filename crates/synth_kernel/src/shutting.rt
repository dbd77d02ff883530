//! The end of all objects of a boot.
ghost use Rattle.std.specs.Prelude.{length};
ghost use Rattle.boot_objects.specs.Endings.{AllClosed};
ghost use Rattle.boot_objects.specs.RawEnds.{AreRawsOf, TookRaws};
ghost use Rattle.boot_objects.specs.Rooms.{HaveRoom};
ghost use Rattle.boot_objects.specs.Wholes.{HasWholes};
ghost use Rattle.processor.specs.declared.station.Parts.{Parts};
ghost use Rattle.processor.specs.Stations.{ArePartsOf};

use boot_objects::{Answers, TornDown, close_all, join_raws};
use processor::{Shared, Station};
use quajects::RawTty;

/// Joins the ends of the devices to the ends of the last station, which has all others, and closes all objects. It
/// takes no memory.
///
/// Conditions: the station and the raw ttys are of these objects. Once the raw ttys' ends are joined, the station has
/// the whole of each object. The lists of the answers are empty and have room.
pub(crate) fn shut_down(
    shared: Shared,
    last: Station,
    ttys: Vec<RawTty>,
    answers: Answers,
) -> TornDown
    requires last { ArePartsOf shared last.parts }
    requires ttys { AreRawsOf shared ttys.items }
    requires wholes { (parts : Parts) → TookRaws (length shared.plan.queues) (length shared.plan.movers) ttys.items
        last.parts parts → HasWholes shared parts }
    requires room { HaveRoom shared answers }
    ensures { (parts : Parts) × TookRaws (length shared.plan.queues) (length shared.plan.movers) ttys.items last.parts
        parts × AllClosed shared parts result }
{
    let mut parts = last.into_parts();
    join_raws(&shared, &mut parts, ttys);
    close_all(shared, parts, answers)
}
