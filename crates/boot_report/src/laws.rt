//! The facts that a boot establishes at its end give what its report needs besides the numbers.
ghost use Rattle.std.specs.Prelude.{◌≡◌, ◌+◌, ◌≤◌, ℕ, List, length, Some};
ghost use Rattle.std.specs.List.{slice_get};
ghost use Rattle.boot_data.specs.declared.boot_plan.BootPlan.{BootPlan};
ghost use Rattle.processor.specs.Entries.{LogEntry};
ghost use Rattle.processor.specs.Programs.{program, hear_count};
ghost use Rattle.boot_laws.specs.Agreements.{AlarmsAgree};
ghost use Rattle.boot_laws.specs.ClosedTables.{ClosedTables};
ghost use Rattle.boot_laws.specs.ClosedTables as closed;
ghost use Rattle.boot_laws.specs.Endings.{Done, WorkedTogether, ThreadsEnded};

/// A closed thread has done no more steps than its program has.
pub fn threads_fit()
    ensures { (plan : BootPlan) (logs : List (List LogEntry)) (done : Done) (c : ClosedTables) (thread : ℕ)
        (t : closed.Thread) → WorkedTogether plan logs done → ThreadsEnded done.in_all c
        → slice_get c.threads thread ≡ Some t → t.steps ≤ length (program plan thread) }
{}

/// A plan has as many alarms as were fired and are left together.
pub fn alarms_are_all()
    ensures { (plan : BootPlan) (c : ClosedTables) (logs : List (List LogEntry)) → AlarmsAgree plan c logs
        → length plan.alarms ≡ length c.fired + length c.left }
{}

/// The lines that were heard are at most as many as the steps of the plan that hear.
pub fn heard_lines_are_few()
    ensures { (plan : BootPlan) (logs : List (List LogEntry)) (done : Done) (c : ClosedTables)
        → WorkedTogether plan logs done → ThreadsEnded done.in_all c → length done.in_all.heard ≤ hear_count plan }
{}
