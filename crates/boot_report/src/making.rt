//! The report of closed objects.
ghost use Rattle.std.specs.Prelude.{◌≡◌, ◌≤◌, length, map, flat_map};
ghost use Rattle.std.specs.List.{AllByRecursion};
ghost use Rattle.boot_data.specs.Hearing.{IsPlace, heard_at};
ghost use Rattle.processor.specs.Programs.{hear_count};
ghost use Rattle.boot_laws.specs.ClosedTables.{ClosedTables};
ghost use Rattle.boot_laws.specs.Lines.{Says};
ghost use Rattle.boot_report.specs.Made.{IsMade, alarm_counts};
ghost use Rattle.boot_report.specs.Reported.{IsReported, lines_of};
ghost use Rattle.boot_report.specs.Rooms.{HasRoom, HasAllRoom};
ghost use Rattle.boot_report.specs.Shown.{Shows};

use crate::heard::report_heard;
use crate::lines::Lines;
use crate::movers::{all_left, mover_lines};
use crate::queues::{gauge_lines, queue_lines};
use crate::sorting::{gather, sort_heard};
use crate::threads::thread_lines;
use crate::ttys::{Typed, lines_of_ttys};
use boot_data::{AlarmCounts, HeardLines, Report};
use boot_objects::TornDown;
use event_theory::Items;

// The numbers of alarms that were set, fired and left.
fn counts_of_alarms(set: usize, left: usize) -> AlarmCounts
    ensures { result ≡ alarm_counts set left }
{
    AlarmCounts {
        set: set as u64,
        fired: set.saturating_sub(left) as u64,
        left: left as u64,
    }
}

/// The report of a boot, in the plan's order and with the plan's names. It has the numbers of the closed objects and of
/// each tty's device, and the lines heard at the places of `lines`, in their order. It takes no memory.
///
/// Conditions: the lines have room for those of the plan. There is a line at each place, of the thread and step that
/// the place names.
pub fn make_report(
    ended: &TornDown,
    heard: Vec<HeardLines>,
    typed: &[Typed],
    lines: Lines,
) -> Report
    requires room { HasRoom ended.now.plan lines }
    requires places { AllByRecursion (IsPlace heard.items) lines.places.items }
    ensures made { IsMade ended.now (map (heard_at heard.items) lines.places.items) typed.now result }
    ensures says { (c : ClosedTables) → Shows c ended.now typed.now
        → Says ended.now.plan c (map (heard_at heard.items) lines.places.items) result }
{
    let plan = ended.plan();
    let counts = ended.counts();
    let queues = queue_lines(plan.queues.as_slice(), ended.small(), lines.queues);
    let ttys = lines_of_ttys(ended, typed, lines.ttys);
    let movers = mover_lines(plan.movers.as_slice(), counts, lines.movers);
    let gauges = gauge_lines(plan.gauges.as_slice(), ended.gauges(), lines.gauges);
    let threads = thread_lines(ended, lines.threads);
    let alarms = counts_of_alarms(plan.alarms.as_slice().len(), ended.alarms_left());
    let chained = all_left(counts);
    let heard = report_heard(plan.threads.as_slice(), lines.names, lines.places, heard);
    Report {
        queues: Items::new(queues),
        ttys: Items::new(ttys),
        movers: Items::new(movers),
        gauges: Items::new(gauges),
        alarms,
        threads: Items::new(threads),
        heard,
        chained,
    }
}

/// The report of a boot, as `make_report` makes it, with the lines that each processor heard, sorted by thread and then
/// by step. Sorting moves the places of lines, and no text. It takes no memory.
///
/// Conditions: the lines have room for those of the plan, and at most as many lines were heard as the plan has steps
/// that hear.
pub fn report_boot(
    ended: &TornDown,
    heard: Vec<HeardLines>,
    typed: &[Typed],
    lines: Lines,
) -> Report
    requires room { HasAllRoom ended.now.plan lines }
    requires few { length (flat_map lines_of heard.items) ≤ hear_count ended.now.plan }
    ensures { IsReported ended.now (flat_map lines_of heard.items) typed.now result }
{
    let mut lines = lines;
    gather(heard.as_slice(), &mut lines.places);
    sort_heard(lines.places.as_mut_slice());
    make_report(ended, heard, typed, lines)
}
