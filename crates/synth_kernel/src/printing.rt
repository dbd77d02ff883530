//! The end of a boot: its report is printed, and its outcome is returned.
ghost use Rattle.std.specs.Prelude.{◌≡◌, ◌≢◌, ◌≤◌, vec_len, IfOk, IfErr};
ghost use Rattle.std.specs.Io.KnownBytes.{Keeps};
ghost use Rattle.boot_laws.specs.Saying.{live_threads};
ghost use Rattle.boot_script.specs.StreamFaults.{IsWriteFault};
ghost use Rattle.processor.specs.Points.{calls};
ghost use Rattle.synth_kernel.specs.Boots.{ended_of, BootWithHooks, HasNumbers, IsLate, IsRun};

use crate::booting::boot_plan;
use crate::outcome::{BootFault, Ended};
use boot_data::{BootPlan, Report};
use boot_objects::TornDown;
use boot_report::live_of;
use boot_script::{Sink, print_report};
use boot_threads::{Witness, Work, Worked};
use processor::{Shared, TurnGate};
use std::alloc::Global;
use std::sync::Wait;

/// The outcome of a boot whose report was printed: the gates, each at its place, with the record of its turns; the
/// result of closing all, from which the report was made; and the numbers of processors and of turns on each. Only the
/// function that boots a plan makes one.
#[derive(Drop)]
pub struct Booted<G> {
    ended: Ended,
    gates: Vec<G>,
    closed: TornDown,
    processors: u8,
    turns: u32,
}

impl<G> Booted<G> {
    /// How the boot ended.
    pub fn ended(&self) -> Ended
        ensures { result ≡ self.now.ended }
    {
        self.ended
    }

    /// The gates, each at its place.
    pub fn gates(&self) -> &[G]
        ensures { result.now ≡ self.now.gates.items }
    {
        self.gates.as_slice()
    }

    /// The result of closing all.
    pub fn closed(&self) -> &TornDown
        ensures { result.now ≡ self.now.closed }
    {
        &self.closed
    }

    /// The number of processors.
    pub fn processors(&self) -> u8
        ensures { result ≡ self.now.processors }
    {
        self.processors
    }

    /// The number of turns on each processor.
    pub fn turns(&self) -> u32
        ensures { result ≡ self.now.turns }
    {
        self.turns
    }
}

// The outcome of a boot with this report.
fn ended_by(report: &Report) -> Ended
    ensures { result ≡ ended_of (live_threads report.now) }
{
    match live_of(report) {
        0 => Ended::AllEnded,
        live => Ended::Unfinished { live },
    }
}

/// Boots a plan, a processor for each gate, with so many turns on each, and prints the report.
///
/// Conditions: there are 1 to 8 processors, and a gate for each.
pub(crate) fn boot_and_print<R, O, G>(
    rt: &R,
    alloc: Global,
    plan: BootPlan,
    writer: &mut O,
    processors: u8,
    turns: u32,
    gates: Vec<G>,
) -> Result<Booted<G>, BootFault>
where
    R: Witness<Shared, Worked<G>, Work<G>> + Wait + Sync,
    O: Sink,
    G: TurnGate + Send + Drop,
    requires number { (1 ≤ processors) × (processors ≤ 8) }
    requires gates { vec_len gates ≡ processors }
    ensures numbers { IfOk result (HasNumbers processors turns) }
    ensures ok { IfOk result (λ booted. IsRun (BootWithHooks R.ran R.shown (calls G.observes G.learns) turns gates.items booted.gates.items
        booted.closed) plan booted.ended (O.contents writer.old) (O.contents writer.new)) }
    ensures fault { IfErr result (λ fault. IsLate fault) }
    ensures unwritten { IfErr result (λ fault. fault ≢ BootFault.Write
        → Keeps (O.contents writer.old) (O.contents writer.new)) }
    ensures write { IfErr result (λ fault. fault ≡ BootFault.Write → IsWriteFault O.fails writer.new) }
{
    let (report, gates, closed) = boot_plan(rt, alloc, plan, turns, gates)?;
    match print_report(&report, writer) {
        Ok(()) => {
            let ended = ended_by(&report);
            // A call drops all fields. Without it the proof goes through each of them here, which takes long.
            drop(report);
            Ok(Booted {
                ended,
                gates,
                closed,
                processors,
                turns,
            })
        }
        Err(_) => {
            drop(report);
            drop(closed);
            Err(BootFault::Write)
        }
    }
}
