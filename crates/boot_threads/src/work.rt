//! The works of a kernel's threads: each processor has its turns, and each device serves its tty.
ghost use Rattle.std.specs.Prelude.{◌≡◌, ◌<◌, length};
ghost use Rattle.processor.specs.Points.{calls};
ghost use Rattle.boot_threads.specs.Works.{MayWork, HasWorked};

use crate::device::serve_device;
use crate::starting::{Job, NotStarted};
use event_theory::Processor;
use processor::{Shared, Station, TurnGate, run};
use quajects::RawTty;
use spsc_line::LineOut;
use std::sync::Wait;

/// The work of a thread of the kernel.
#[derive(Drop)]
pub enum Work<G> {
    /// A processor has so many turns.
    Process {
        station: Station,
        p: Processor,
        turns: u32,
        gate: G,
    },
    /// A device serves a tty, whose chain has this index, until it has had so many bytes.
    Serve {
        chain: usize,
        line: LineOut,
        tty: RawTty,
        count: usize,
    },
}

/// The result of a processor: its station, and its gate with the record of the turns.
#[derive(Drop)]
pub struct Processed<G> {
    pub station: Station,
    pub gate: G,
}

/// The result of a thread of the kernel.
#[derive(Drop)]
pub enum Worked<G> {
    Processed(Processed<G>),
    Served { line: LineOut, tty: RawTty },
}

/// The result of a thread of the kernel, or the substitute for a thread that can't be started.
pub type Back<G> = Result<Worked<G>, NotStarted<Shared, Work<G>>>;

impl<G: TurnGate + Drop> Job<Shared, Worked<G>> for Work<G> {
    ghost may_run = { MayWork };

    ghost gives = { HasWorked (calls G.observes G.learns) };

    fn run<R: Wait>(self, rt: &R, shared: &Shared) -> Worked<G> {
        match self {
            Work::Process {
                station,
                p,
                turns,
                gate,
            } => {
                let mut gate = gate;
                let station = run(rt, shared, station, p, turns, &mut gate);
                Worked::Processed(Processed { station, gate })
            }
            Work::Serve {
                chain,
                line,
                tty,
                count,
            } => {
                let (line, tty) = serve_device(
                    rt,
                    &shared.queues,
                    &shared.chains[chain],
                    line,
                    tty,
                    count,
                );
                Worked::Served { line, tty }
            }
        }
    }
}
