//! The lines heard, as the report has them.
ghost use Rattle.std.specs.Prelude.{◌≡◌, ◌≤◌, [], length, map, vec_capacity};
ghost use Rattle.std.specs.List.{AllByRecursion};
ghost use Rattle.boot_data.specs.Hearing.{IsPlace, heard_at};
ghost use Rattle.boot_report.specs.Made.{heard_line, name_of};

use crate::amounts::copy_of;
use boot_data::plan::PlannedThread;
use boot_data::{HeardLines, HeardPlace, HeardReport, Name};

// The names of the threads, in their order.
fn names_of(threads: &[PlannedThread], names: Vec<Name>) -> Vec<Name>
    requires room { (names.items ≡ []) × (length threads.now ≤ vec_capacity names) }
    ensures { result.items ≡ map name_of threads.now }
{
    let mut names = names;
    for thread in threads {
        names.push_reserved(copy_of(&thread.name));
    }
    names
}

/// The lines at these places of what the processors heard, in the order of the places, with the threads' names. It
/// takes no memory: the list of names is empty and has room.
///
/// Condition: there is a line at each place, and it is of the thread and step that the place names.
pub(crate) fn report_heard(
    threads: &[PlannedThread],
    names: Vec<Name>,
    places: Vec<HeardPlace>,
    heard: Vec<HeardLines>,
) -> HeardReport
    requires room { (names.items ≡ []) × (length threads.now ≤ vec_capacity names) }
    requires places { AllByRecursion (IsPlace heard.items) places.items }
    ensures { result ≡ map (heard_line threads.now) (map (heard_at heard.items) places.items) }
{
    HeardReport::new(names_of(threads, names), places, heard)
}
