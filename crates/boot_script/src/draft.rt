//! The plan that the lines have said so far.
//!
//! The data that decides whether a line is invalid (the names and the counts) is stored inline. After a refused
//! allocation the plan itself no longer grows, and the lines are still checked.

ghost use Rattle.std.specs.Prelude.{◌≡◌, ◌<◌, ◌≤◌, ◌+◌, ◌++◌, ◌∷◌, [], Ok, Some, true, length, nat_lt, if◌then◌else◌};
ghost use Rattle.std.specs.List.{list_all};
ghost use Rattle.boot_script.specs.Grammar.{is_printable};
ghost use Rattle.boot_script.specs.declared.version.Version.{Version};
ghost use Rattle.boot_script.specs.Plans.{first_draft, add_step, added, line_added, typed_at, change_at, with_text};
ghost use Rattle.boot_script.specs.Plans.{with_step};
ghost use Rattle.boot_script.specs.Drafts.{AddsTo, Draws};
ghost use Rattle.boot_script.specs.Plans as plans;

use crate::boot_lines::{Line, line_said};
use crate::declared_names::{Names, TtyNumber};
use crate::fault::ScriptRefusal;
use crate::unescaping::Typed;
use crate::version::Version;
use boot_data::plan::{PlannedMover, PlannedQueue, PlannedThread, PlannedTty, Step};
use boot_data::{Kind, Name, Text};
use event_theory::{Alarm, Element, Items};
use std::alloc::Global;

/// How many bytes a tty's device may type.
const MOST_TYPED: usize = 1024;

/// How many alarms a script may set.
const MOST_ALARMS: usize = 16;

/// How many steps a program may have.
const MOST_STEPS: usize = 64;

/// The plan so far, the declared names, and the current thread, whose program gets the next step.
#[derive(Drop)]
pub(crate) struct Draft {
    pub(crate) queues: Vec<PlannedQueue>,
    pub(crate) ttys: Vec<PlannedTty>,
    pub(crate) movers: Vec<PlannedMover>,
    pub(crate) gauges: Vec<Name>,
    pub(crate) alarms: Vec<Alarm>,
    pub(crate) threads: Vec<PlannedThread>,
    names: Names,
    going: Option<Element>,
    /// How many bytes each tty's device types, how many alarms are set, and how many steps each thread has.
    typed: [usize; 2],
    alarm_count: usize,
    step_counts: [usize; 64],
    /// No allocation was refused.
    pub(crate) kept: bool,
}

/// Appends to a list if nothing was lost before, and returns whether nothing is lost now.
fn keep<T: Drop>(kept: bool, list: &mut Vec<T>, item: T) -> bool
    ensures { result ≡ true → (kept ≡ true) × (list.new.items ≡ list.old.items ++ item ∷ []) }
{
    kept && list.push(item).is_ok()
}

/// Whether both are true.
fn both(first: bool, second: bool) -> bool
    ensures { result ≡ true → (first ≡ true) × (second ≡ true) }
{
    first && second
}

/// The new count if the counted thing exists, and else the old count.
fn count_if(there: bool, new: usize, old: usize) -> usize
    ensures { result ≡ (if there then new else old) }
{
    if there { new } else { old }
}

/// Types a text at a tty, for which there is room.
fn type_at(ttys: &mut Vec<PlannedTty>, tty: usize, text: &[u8])
    ensures { length (typed_at ttys.old.items tty) + length text.now ≤ 1024
        → ttys.new.items ≡ change_at (with_text text.now) ttys.old.items tty }
{
    if tty < ttys.as_slice().len() {
        ttys[tty].typed.append(text);
    }
}

/// Appends a step to a thread's program, and returns whether no allocation was refused.
fn step_at(threads: &mut Vec<PlannedThread>, thread: usize, step: Step) -> bool
    ensures { result ≡ true → threads.new.items ≡ change_at (with_step step) threads.old.items thread }
{
    if thread < threads.as_slice().len() {
        threads[thread].steps.push(step).is_ok()
    } else {
        true
    }
}

impl Draft {
    /// An empty draft.
    pub(crate) fn new(alloc: Global) -> Self
        ensures { Draws result first_draft }
    {
        Draft {
            queues: Vec::new(alloc),
            ttys: Vec::new(alloc),
            movers: Vec::new(alloc),
            gauges: Vec::new(alloc),
            alarms: Vec::new(alloc),
            threads: Vec::new(alloc),
            names: Names::new(),
            going: None,
            typed: [0; 2],
            alarm_count: 0,
            step_counts: [0; 64],
            kept: true,
        }
    }

    /// Adds a queue or pipe. TooMany if there are eight.
    fn add_queue(&mut self, version: Version, queue: PlannedQueue) -> Result<(), ScriptRefusal>
        ensures { AddsTo self.old result self.new (λ d. added version (Line.Queue queue) d) }
    {
        match self.names.add(version, Kind::Queue, &queue.name) {
            Ok(()) => {
                self.kept = keep(self.kept, &mut self.queues, queue);
                Ok(())
            }
            Err(refusal) => Err(refusal),
        }
    }

    /// Adds a tty. TooMany if there are two.
    fn add_tty(&mut self, version: Version, name: Name) -> Result<(), ScriptRefusal>
        ensures { AddsTo self.old result self.new (λ d. added version (Line.Tty name) d) }
    {
        match self.names.add(version, Kind::Tty, &name) {
            Ok(()) => {
                let typed = Text::new();
                self.kept = keep(self.kept, &mut self.ttys, PlannedTty { name, typed });
                Ok(())
            }
            Err(refusal) => Err(refusal),
        }
    }

    /// Adds a text to the bytes that a tty's device types. TextTooLong if they would be more than 1,024 bytes.
    fn add_text(&mut self, tty: TtyNumber, text: &Text<1024>) -> Result<(), ScriptRefusal>
        ensures { (version : Version)
            → AddsTo self.old result self.new (λ d. added version (Line.Types tty text.now) d) }
    {
        let at = usize::from(tty.number());
        let count = self.typed[at].saturating_add(text.as_slice().len());
        if count > MOST_TYPED {
            return Err(ScriptRefusal::TextTooLong);
        }
        let there = at < self.names.count(Kind::Tty);
        self.typed[at] = count_if(there, count, self.typed[at]);
        type_at(&mut self.ttys, at, text.as_slice());
        Ok(())
    }

    /// Adds a text, given as it is written in the script, to the bytes that a tty's device types. Else TextTooLong.
    fn add_typed(&mut self, tty: TtyNumber, text: &Typed) -> Result<(), ScriptRefusal>
        ensures { (version : Version)
            → AddsTo self.old result self.new (λ d. added version (Line.Types tty text.now) d) }
    {
        self.add_text(tty, &text.to_text())
    }

    /// Adds a pump or switch. TooMany if there are four.
    fn add_mover(&mut self, version: Version, mover: PlannedMover) -> Result<(), ScriptRefusal>
        ensures { AddsTo self.old result self.new (λ d. added version (Line.Mover mover) d) }
    {
        match self.names.add(version, Kind::Mover, &mover.name) {
            Ok(()) => {
                self.kept = keep(self.kept, &mut self.movers, mover);
                Ok(())
            }
            Err(refusal) => Err(refusal),
        }
    }

    /// Adds a gauge. TooMany if there are eight.
    fn add_gauge(&mut self, version: Version, name: Name) -> Result<(), ScriptRefusal>
        ensures { AddsTo self.old result self.new (λ d. added version (Line.Gauge name) d) }
    {
        match self.names.add(version, Kind::Gauge, &name) {
            Ok(()) => {
                self.kept = keep(self.kept, &mut self.gauges, name);
                Ok(())
            }
            Err(refusal) => Err(refusal),
        }
    }

    /// Adds an alarm. TooMany if there are sixteen.
    fn add_alarm(&mut self, alarm: Alarm) -> Result<(), ScriptRefusal>
        ensures { (version : Version) → AddsTo self.old result self.new (λ d. added version (Line.Alarm alarm) d) }
    {
        if self.alarm_count >= MOST_ALARMS {
            return Err(ScriptRefusal::TooMany);
        }
        self.alarm_count += 1;
        self.kept = keep(self.kept, &mut self.alarms, alarm);
        Ok(())
    }

    /// Adds a thread, which becomes the current one. TooMany if the version allows no more threads.
    fn add_thread(
        &mut self,
        alloc: Global,
        version: Version,
        name: Name,
    ) -> Result<(), ScriptRefusal>
        ensures { AddsTo self.old result self.new (λ d. added version (Line.Thread name) d) }
    {
        let number = self.names.count(Kind::Thread);
        match self.names.add(version, Kind::Thread, &name) {
            Ok(()) => {
                self.going = Element::new(number as u8);
                let steps = Items::new(Vec::new(alloc));
                self.kept = keep(self.kept, &mut self.threads, PlannedThread { name, steps });
                Ok(())
            }
            Err(refusal) => Err(refusal),
        }
    }

    /// Makes this thread the current one, whose program gets the next steps.
    fn go_on(&mut self, thread: Element)
        ensures { (version : Version) → AddsTo self.old (Ok tt) self.new (λ d. added version (Line.More thread) d) }
    {
        self.going = Some(thread);
    }

    /// Whether the thread with this number was declared. A thread with steps was, so the names are not counted for it.
    #[tactic(auto, using(crate::proofs::Drafts::Drawn::thread_is))]
    fn has_thread(&self, thread: usize) -> bool
        requires { thread < 64 }
        ensures { (d : plans.Draft) → Draws self.now d → result ≡ nat_lt thread (length d.plan.threads) }
    {
        self.step_counts[thread] != 0 || thread < self.names.count(Kind::Thread)
    }

    /// Adds a step to a thread's program. TooMany if the program has 64 steps.
    fn add_step(&mut self, thread: Element, step: Step) -> Result<(), ScriptRefusal>
        ensures { AddsTo self.old result self.new (λ d. add_step step (Some thread) d) }
    {
        let at = usize::from(thread.number());
        if self.step_counts[at] >= MOST_STEPS {
            return Err(ScriptRefusal::TooMany);
        }
        let there = self.has_thread(at);
        self.step_counts[at] = count_if(there, self.step_counts[at] + 1, self.step_counts[at]);
        let stepped = step_at(&mut self.threads, at, step);
        self.kept = both(stepped, self.kept);
        Ok(())
    }

    /// Adds a line that was read.
    #[tactic(auto, unfolding(crate::specs::Plans::added))]
    fn add(&mut self, alloc: Global, version: Version, line: Line) -> Result<(), ScriptRefusal>
        ensures { AddsTo self.old result self.new (λ d. added version line.entry d) }
    {
        match line {
            Line::Queue(queue) => self.add_queue(version, queue),
            Line::Tty(name) => self.add_tty(version, name),
            Line::Types { tty, text } => self.add_typed(tty, &text),
            Line::Mover(mover) => self.add_mover(version, mover),
            Line::Gauge(name) => self.add_gauge(version, name),
            Line::Alarm(alarm) => self.add_alarm(alarm),
            Line::Thread(name) => self.add_thread(alloc, version, name),
            Line::More(thread) => {
                self.go_on(thread);
                Ok(())
            }
            Line::Step(step) => match self.going {
                Some(thread) => self.add_step(thread, step),
                None => Ok(()),
            },
        }
    }

    /// Reads a line and adds it. If `seen` is true, each byte of the line is known to be printable.
    #[tactic(auto, unfolding(crate::specs::Plans::line_added))]
    pub(crate) fn add_line(
        &mut self,
        alloc: Global,
        version: Version,
        seen: bool,
        line: &[u8],
    ) -> Result<(), ScriptRefusal>
        requires { seen ≡ true → list_all is_printable line.now ≡ true }
        ensures { AddsTo self.old result self.new (λ d. line_added version line.now d) }
    {
        match line_said(version, &self.names, self.going.is_some(), seen, line) {
            Ok(said) => self.add(alloc, version, said),
            Err(refusal) => Err(refusal),
        }
    }
}
