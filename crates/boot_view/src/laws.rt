//! What a page shows of a boot: the front of the turns of each processor.
ghost use Rattle.std.specs.Prelude.{◌<◌, ◌^◌, ℕ, List, Option};
ghost use Rattle.std.specs.List.{AllZip};
ghost use Rattle.boot_log.specs.declared.recorder.Recorder.{Recorder};
ghost use Rattle.boot_view.specs.declared.command.Command.{Command};
ghost use Rattle.boot_view.specs.Views.{HasBooted, HasFrontOf, room_for};
ghost use Rattle.processor.specs.Points.{calls};
ghost use Rattle.synth_kernel.specs.declared.printing.Booted.{Booted};

use crate::boot_timer::BootTimer;
use boot_log::{Recorder, TurnClock};
use processor::{Gate, Shared, TurnGate};
use synth_kernel::{Witness, Work, Worked};

/// The recorders of a boot of fewer than 2^64 turns on each processor have the first turns of each, in their order, and
/// the number of all later ones. There was no room for the first of those that were missed. The times are the clock's,
/// none is before `from`, and none is before an earlier one.
pub fn pages_have_fronts<R, B, C>()
where
    R: Witness<Shared, Worked<Recorder<C>>, Work<Recorder<C>>>,
    B: BootTimer<C>,
    C: TurnClock,
    ensures { (clock : B) (from : ℕ) (command : Command) (read : Option (List ℕ)) (report : List ℕ)
        (booted : Booted (Recorder C)) (came : HasBooted R.ran R.shown
        (calls ⟦<Recorder<C> as Gate>⟧.observes ⟦<Recorder<C> as TurnGate>⟧.learns) (B.made clock) (B.read_by clock)
        from command read report booted) → command.turns < 2 ^ 64
        → AllZip (HasFrontOf (C.says (B.read_by clock)) from (room_for command.turns))
        came.boot.run.booted.logs booted.gates.items }
{}
