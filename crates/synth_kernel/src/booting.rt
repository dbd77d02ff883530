//! A boot, from its plan to its report.
ghost use Rattle.std.specs.Prelude.{◌≤◌, vec_len, IfOk};
ghost use Rattle.processor.specs.Points.{calls};
ghost use Rattle.synth_kernel.specs.Boots.{IsBootOf, BootWithHooks};

use crate::gathering::Gathered;
use crate::ready::get_ready;
use crate::running::{Stopped, run_threads};
use crate::shutting::shut_down;
use boot_data::{BootPlan, Report};
use boot_objects::TornDown;
use boot_report::report_boot;
use boot_threads::{Witness, Work, Worked};
use event_theory::OutOfMemory;
use processor::{Shared, TurnGate};
use std::alloc::Global;
use std::sync::Wait;

/// Boots a plan, a processor for each gate, with so many turns on each, and makes the report. Returns the gates, each
/// at its place, and the result of closing all. `OutOfMemory` is returned only if an allocation was refused or a thread
/// could not be started. All memory is taken before the first thread starts, except the memory that the start of each
/// thread takes.
///
/// Conditions: there are 1 to 8 gates.
pub(crate) fn boot_plan<R, G>(
    rt: &R,
    alloc: Global,
    plan: BootPlan,
    turns: u32,
    gates: Vec<G>,
) -> Result<(Report, Vec<G>, TornDown), OutOfMemory>
where
    R: Witness<Shared, Worked<G>, Work<G>> + Wait + Sync,
    G: TurnGate + Send + Drop,
    requires gates { (1 ≤ vec_len gates) × (vec_len gates ≤ 8) }
    ensures { IfOk result (λ r. IsBootOf (BootWithHooks R.ran R.shown (calls G.observes G.learns) turns gates.items r.1.items r.2) plan r.0) }
{
    let processors = gates.len();
    let ready = get_ready(rt, alloc, plan, turns, gates)?;
    let stopped = run_threads(rt, alloc, ready, processors)?;
    let Stopped {
        shared,
        gathered,
        answers,
        report,
    } = stopped;
    let Gathered {
        station,
        heards,
        gates,
        ttys,
        reported,
    } = gathered;
    let ended = shut_down(shared, station, ttys, answers);
    rt.show(&ended);
    let report = report_boot(&ended, heards, reported.as_slice(), report);
    Ok((report, gates, ended))
}
