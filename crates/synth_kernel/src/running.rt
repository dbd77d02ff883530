//! The threads of a boot, from their start to the gathering of their results.
ghost use Rattle.std.specs.Prelude.{◌≡◌, IfOk};
ghost use Rattle.processor.specs.Points.{calls};
ghost use Rattle.synth_kernel.specs.Readies.{IsReadyFor};
ghost use Rattle.synth_kernel.specs.Stops.{AreListsOf, HasStopped};

use crate::gathering::{Gathered, Lists, gather};
use crate::ready::{Ready, Room};
use boot_objects::Answers;
use boot_report::Lines;
use boot_threads::{Back, Witness, Work, Worked, run_kernel};
use event_theory::OutOfMemory;
use processor::{Shared, TurnGate};
use spsc_line::LineIn;
use std::alloc::Global;
use std::sync::Wait;

/// The objects of a boot when its threads have stopped, with the gathered results of the threads, and room for the
/// answers and the report.
#[derive(Drop)]
pub(crate) struct Stopped<G> {
    pub(crate) shared: Shared,
    pub(crate) gathered: Gathered<G>,
    pub(crate) answers: Answers,
    pub(crate) report: Lines,
}

// The lists of a room: those for the results of the threads, for the inputs, and for what is gathered. The answers and
// the report follow.
fn part_room<G>(room: Room<G>) -> (Vec<Back<G>>, Vec<LineIn>, Lists<G>, Answers, Lines)
    ensures backs { result.0 ≡ room.backs }
    ensures typed { result.1 ≡ room.typed }
    ensures lists { AreListsOf room result.2 }
    ensures answers { result.3 ≡ room.answers }
    ensures report { result.4 ≡ room.report }
{
    let Room {
        backs,
        typed,
        processed,
        served,
        ttys,
        heards,
        gates,
        reported,
        answers,
        report,
    } = room;
    let lists = Lists {
        processed,
        served,
        ttys,
        heards,
        gates,
        reported,
    };
    (backs, typed, lists, answers, report)
}

/// Runs a thread for each work, types the ttys' bytes meanwhile, and gathers the results. `OutOfMemory` is returned
/// only if the allocation of the list of threads was refused, before the first starts, or a thread could not be
/// started.
///
/// Condition: all is ready for so many processors.
pub(crate) fn run_threads<R, G>(
    rt: &R,
    alloc: Global,
    ready: Ready<G>,
    processors: usize,
) -> Result<Stopped<G>, OutOfMemory>
where
    R: Witness<Shared, Worked<G>, Work<G>> + Wait + Sync,
    G: TurnGate + Send + Drop,
    requires ready { IsReadyFor processors ready }
    ensures { IfOk result (HasStopped R.ran R.refused (calls G.observes G.learns) processors ready) }
{
    let Ok(handles) = Vec::with_capacity(alloc, ready.works.len()) else {
        // A call drops all fields. Without it the proof goes through each of them here, which takes long.
        drop(ready);
        return Err(OutOfMemory);
    };
    let Ready {
        shared,
        station,
        works,
        inputs,
        room,
    } = ready;
    let (backs, typed, lists, answers, report) = part_room(room);
    let (backs, inputs) = run_kernel(
        rt, &shared, works, processors, handles, backs, inputs, typed,
    );
    let Some(gathered) = gather(&shared, station, backs, inputs, lists) else {
        drop(shared);
        drop(answers);
        drop(report);
        return Err(OutOfMemory);
    };
    Ok(Stopped {
        shared,
        gathered,
        answers,
        report,
    })
}
