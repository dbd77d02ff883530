//! Consequences of the turns of a boot's processors.
ghost use Rattle.std.specs.Prelude.{ℕ, List, length};
ghost use Rattle.boot_data.specs.declared.boot_plan.BootPlan.{BootPlan};
ghost use Rattle.boot_laws.specs.ClosedTables.{ClosedTables};
ghost use Rattle.boot_objects.specs.declared.closing.all.TornDown.{TornDown};
ghost use Rattle.processor.specs.Entries.{LogEntry};
ghost use Rattle.processor.specs.Points.{calls};
ghost use Rattle.synth_kernel.specs.Boots.{BootWithHooks, CameBackPlain, LogsHaveTurns};

use boot_threads::{Witness, Work, Worked};
use processor::{Shared, TurnGate};
use turn_io::NoGate;

/// There is a log for each gate, with an entry for each turn. The log says all that was left on a station that had done
/// nothing. These facts remain if the gates and the closed objects are forgotten.
pub fn turns_were_had<
    R: Witness<Shared, Worked<G>, Work<G>>,
    N: Witness<Shared, Worked<NoGate>, Work<NoGate>>,
    G: TurnGate + Drop,
>()
    ensures gates { (turns : ℕ) (gates back : List G) (ended : TornDown) (plan : BootPlan) (closed : ClosedTables)
        (logs : List (List LogEntry)) → BootWithHooks R.ran R.shown (calls G.observes G.learns) turns gates back ended plan closed logs
        → LogsHaveTurns (length gates) turns plan closed logs }
    ensures plain { (processors turns : ℕ) (back : List NoGate) (ended : TornDown) (plan : BootPlan)
        (closed : ClosedTables) (logs : List (List LogEntry))
        → CameBackPlain N.ran N.shown processors turns back ended plan closed logs
        → LogsHaveTurns processors turns plan closed logs }
{}
