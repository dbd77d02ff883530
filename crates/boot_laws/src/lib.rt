//! The report of a boot, and its agreement with the plan, the closed tables and the work of the processors. Also what all
//! events of a closed thread table come to.
//!
//! The code consists of laws: functions with empty bodies, whose contracts name what is proved.
#![tactic(auto)]

ghost use Rattle.std.specs.Prelude.{◌≡◌, ◌<◌, ℕ, List, length, Some};
ghost use Rattle.std.specs.List.{slice_get};
ghost use Rattle.boot_data.specs.declared.boot_plan.BootPlan.{BootPlan};
ghost use Rattle.boot_data.specs.declared.plan.PlannedMover.{PlannedMover};
ghost use Rattle.boot_data.specs.declared.plan.QueueIndex.{QueueIndex};
ghost use Rattle.boot_data.specs.declared.report.Report.{Report};
ghost use Rattle.claim_queue.specs.declared.ends.QueueEnd.{QueueEnd};
ghost use Rattle.thread_table.specs.declared.layout.TheConstants.{ELEMENTS, PROCESSORS};
ghost use Rattle.thread_table.specs.declared.places.Place.{Place};
ghost use Rattle.thread_table.specs.Closings.{ClosedNow};
ghost use Rattle.thread_table.specs.Own.{View};
ghost use Rattle.turn_dispatch.specs.Holdings.{IsFree};
ghost use Rattle.turn_dispatch.specs.Tallies.{tally};
ghost use Rattle.turn_io.specs.Accounts.{room_of};
ghost use Rattle.quajects.specs.declared.home.Home.{Home};
ghost use Rattle.processor.specs.Entries.{LogEntry};
ghost use Rattle.boot_data.specs.Hearing.{Line};
ghost use Rattle.boot_laws.specs.Agreements.{QueueAgrees, ThreadAgrees, MoverAgrees, GaugesAgree, AlarmsAgree};
ghost use Rattle.boot_laws.specs.Boots.{Boot, BootEnded};
ghost use Rattle.boot_laws.specs.ClosedTables.{ClosedTables, queue_at};
ghost use Rattle.boot_laws.specs.ClosedTables as closed;
ghost use Rattle.boot_laws.specs.Endings.{Done, WorkedTogether, FreedSpare, QueueEnded, ThreadsEnded, MetersEnded};
ghost use Rattle.boot_laws.specs.Endings.{ChainEnded, MoverEnded};
ghost use Rattle.boot_laws.specs.Reports.{IsReport};
ghost use Rattle.boot_laws.specs.Saying.{AllEnded, IsNeverClosed, IsNeverShut, IsSaid};
ghost use Rattle.boot_laws.specs.Settlings.{Settles, IsNamed, NoneOn, place_of};

/// The hand that closed a table lists all its events, and what they come to is what the closing reports of each
/// element: its steps, its signals, and whether it is among the free. It names only processors and wait queues that
/// exist. It names no processor if the hand serves them all and has no element on one.
pub fn hands_settle()
    ensures settles { (call : ℕ) (v : View) (stands : List Place) (pcs pending : List ℕ) (stops : ℕ)
        → ClosedNow call v stands pcs pending stops → Settles (tally v.own.made) stands pcs pending }
    ensures named { (call : ℕ) (v : View) (stands : List Place) (pcs pending : List ℕ) (stops element : ℕ)
        → ClosedNow call v stands pcs pending stops → element < ELEMENTS → IsNamed (place_of stands element) }
    ensures off { (call : ℕ) (v : View) (stands : List Place) (pcs pending : List ℕ) (stops : ℕ)
        → ClosedNow call v stands pcs pending stops → ((p : ℕ) → p < PROCESSORS → IsFree p v) → NoneOn stands }
{}

/// A queue that was closed by all its ends has the lines that the processors' logs say, in their order. Cut by claim,
/// and by taking, its items are the lines of the processors and of the others, each once.
pub fn queues_agree()
    ensures { (plan : BootPlan) (logs : List (List LogEntry)) (done : Done) (index : QueueIndex)
        (others : List (QueueEnd (room_of index))) (q : closed.Queue) → WorkedTogether plan logs done
        → QueueEnded index done.by_each others q → QueueAgrees index q logs }
{}

/// Each step of a closed thread is in the logs once if its number is below the thread's number of steps done, else
/// never. In each log the thread's steps are in their order. If no thread's element was freed before the turns, it is
/// free exactly if a log retired it, with all its steps done. No element is on a processor. A signal was shown exactly
/// if the logs delivered it. A signal was shown or is pending exactly if a step or an alarm of the logs raised it.
pub fn threads_agree()
    ensures { (plan : BootPlan) (logs : List (List LogEntry)) (done : Done) (c : ClosedTables) (thread : ℕ)
        (t : closed.Thread) → WorkedTogether plan logs done → FreedSpare plan done.before
        → ThreadsEnded done.in_all c → thread < length plan.threads → slice_get c.threads thread ≡ Some t
        → ThreadAgrees plan thread t logs }
{}

/// The gauges of closed meters are the sums of the ticks of the logs. The alarms of the plan are those that the logs
/// fired and those left, each once.
pub fn meters_agree()
    ensures gauges { (plan : BootPlan) (logs : List (List LogEntry)) (done : Done) (c : ClosedTables)
        → WorkedTogether plan logs done → MetersEnded done.in_all c → GaugesAgree c.gauges logs }
    ensures alarms { (plan : BootPlan) (logs : List (List LogEntry)) (done : Done) (c : ClosedTables)
        → WorkedTogether plan logs done → MetersEnded done.in_all c → AlarmsAgree plan c logs }
{}

/// The pump or switch that came home from a closed chain is the plan's and has kept its law. It ran as many notes as
/// the logs have done pokes of it.
pub fn movers_agree()
    ensures { (plan : BootPlan) (logs : List (List LogEntry)) (done : Done) (number : ℕ) (p : PlannedMover)
        (home : Home) (m : closed.Chain) → WorkedTogether plan logs done → ChainEnded home m
        → MoverEnded number p done.in_all m → MoverAgrees number p.mover m logs }
{}

/// The facts that a boot establishes at its end make its report agree with the plan, the closed tables and the logs.
pub fn reports_agree()
    ensures { (plan : BootPlan) (logs : List (List LogEntry)) (boot : Boot) (c : ClosedTables) (heard : List Line)
        (r : Report) → BootEnded plan logs boot c heard r → IsReport plan c logs heard r }
{}

/// Conditions: no thread of an agreeing report is live, and no say to the queue reports that it is shut. Then the lines
/// that the logs said to the queue are those of the plan's steps, each once.
pub fn all_are_said()
    ensures { (plan : BootPlan) (c : ClosedTables) (logs : List (List LogEntry)) (heard : List Line) (r : Report)
        (index : QueueIndex) → IsReport plan c logs heard r → AllEnded r → IsNeverShut index logs
        → IsSaid plan index logs }
{}

/// Conditions: no thread of an agreeing report is live, and no step of the plan shuts the queue; no step shuts a large
/// queue. Then the lines that the logs said to the queue are those of the plan's steps, each once.
pub fn ended_boots_said_all()
    ensures { (plan : BootPlan) (c : ClosedTables) (logs : List (List LogEntry)) (heard : List Line) (r : Report)
        (index : QueueIndex) (q : closed.Queue) → IsReport plan c logs heard r → AllEnded r → queue_at c index ≡ Some q
        → IsNeverClosed plan index → IsSaid plan index logs }
{}
