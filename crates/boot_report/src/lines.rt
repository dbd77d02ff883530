//! Room for the lines of a report.
ghost use Rattle.std.specs.Prelude.{IfOk};
ghost use Rattle.boot_report.specs.Rooms.{HasAllRoom};

use boot_data::{
    BootPlan, GaugeLine, HeardPlace, MoverLine, Name, QueueLine, ThreadLine, TtyLines,
};
use event_theory::OutOfMemory;
use processor::hears_of;
use std::alloc::Global;

/// Empty lists with room for the lines of a report, for the places of the lines heard, and for the threads' names.
#[derive(Drop)]
pub struct Lines {
    pub queues: Vec<QueueLine>,
    pub ttys: Vec<TtyLines>,
    pub movers: Vec<MoverLine>,
    pub gauges: Vec<GaugeLine>,
    pub threads: Vec<ThreadLine>,
    pub places: Vec<HeardPlace>,
    pub names: Vec<Name>,
}

impl Lines {
    /// Lists with room for a line of each thing of the plan, a place of each step that hears, and a name of each
    /// thread, and for no more. `OutOfMemory` is returned only if an allocation was refused.
    pub fn new(alloc: Global, plan: &BootPlan) -> Result<Lines, OutOfMemory>
        ensures { IfOk result (HasAllRoom plan.now) }
    {
        let queues = Vec::with_capacity(alloc, plan.queues.as_slice().len())?;
        let ttys = Vec::with_capacity(alloc, plan.ttys.as_slice().len())?;
        let movers = Vec::with_capacity(alloc, plan.movers.as_slice().len())?;
        let gauges = Vec::with_capacity(alloc, plan.gauges.as_slice().len())?;
        let threads = Vec::with_capacity(alloc, plan.threads.as_slice().len())?;
        let places = Vec::with_capacity(alloc, hears_of(plan))?;
        let names = Vec::with_capacity(alloc, plan.threads.as_slice().len())?;
        Ok(Lines {
            queues,
            ttys,
            movers,
            gauges,
            threads,
            places,
            names,
        })
    }
}
