//! What came of one turn of a processor, as plain values.

ghost use Rattle.std.specs.Prelude.{◌≡◌};
ghost use Rattle.boot_log.specs.Idling.{is_idle};
ghost use Rattle.boot_log.specs.Kept.{end_of};
ghost use Rattle.boot_log.specs.Values.{line_part};

use boot_data::plan::QueueIndex;
use claim_queue::{ClaimRefusal, TakeRefusal};
use event_theory::{Element, Gauge, Signal, WaitNumber};
use meters::AdvanceRefusal;
use proc_chain::ChainRefusal;
use processor::Moved;
use thread_table::{Lost, Signalled};
use turn_dispatch::{Begun, Counted, Idle, Resumed, Woken};
use turn_io::Poked;

/// A part of a list of a log: where it starts, and how long it is.
#[derive(Clone, Copy, Debug)]
pub struct Part {
    pub start: usize,
    pub len: usize,
}

/// The answer to a say. At a pipe whose line was put, those who waited for a line were woken.
#[derive(Clone, Copy, Debug)]
pub enum SaidAnswer {
    Put(Option<Woken>),
    /// The queue is shut.
    Over,
    Refused(ClaimRefusal),
}

/// The answer to a hear. At a pipe, unless it was refused, those who waited for room were woken.
#[derive(Clone, Copy, Debug)]
pub enum HeardAnswer {
    Taken(Option<Woken>),
    /// The queue is shut, and has nothing left.
    Over(Option<Woken>),
    Refused(TakeRefusal),
}

/// The result of the one try of a step, with the step's operands.
#[derive(Clone, Copy, Debug)]
pub enum Tried {
    Say {
        queue: QueueIndex,
        answer: SaidAnswer,
    },
    Hear {
        queue: QueueIndex,
        answer: HeardAnswer,
    },
    Wait {
        wait: WaitNumber,
    },
    Wake {
        wait: WaitNumber,
        woken: Woken,
    },
    Signal {
        thread: Element,
        signal: Signal,
        answer: Signalled,
    },
    Stop {
        thread: Element,
        was_clear: bool,
    },
    Start {
        thread: Element,
        answer: Result<Resumed, Lost>,
    },
    Tick {
        gauge: Gauge,
        amount: u64,
        before: u64,
    },
    Poke {
        mover: usize,
        answer: Result<Poked, ChainRefusal>,
    },
    Pass,
    Close {
        queue: usize,
        was_open: bool,
        readers: Option<Woken>,
        writers: Option<Woken>,
    },
}

/// The result of an element's turn, if one was at hand.
#[derive(Clone, Copy, Debug)]
pub enum Did {
    Idle(Idle),
    /// All steps were done, and the element was retired, or wasn't because the free elements have no position left.
    Retired {
        begun: Begun,
        freed: bool,
    },
    /// The next step was tried, and the element went on. The line is the one said, or the one heard.
    Stepped {
        begun: Begun,
        tried: Tried,
        counted: Counted,
        moved: Moved,
        line: Part,
    },
}

impl Did {
    /// The part of the log's bytes that is the line said or heard. It is empty if no step was tried.
    pub fn line(self) -> Part
        ensures { result ≡ line_part self }
    {
        match self {
            Did::Stepped { line, .. } => line,
            _ => Part { start: 0, len: 0 },
        }
    }
}

/// One turn. The time is in nanoseconds.
#[derive(Clone, Copy, Debug)]
pub struct Entry {
    /// What the clock said when the turn had ended.
    pub at: u64,
    /// On processor 0 the tick to which the clock was advanced, or why it wasn't; no other processor tends the alarms.
    pub tended: Option<Result<u32, AdvanceRefusal>>,
    /// The alarms that were fired.
    pub fired: Part,
    pub did: Did,
}

impl Entry {
    /// Whether the turn was idle: nothing was at hand, and no alarm was fired.
    pub fn is_idle(&self) -> bool
        ensures { result ≡ is_idle self.now }
    {
        matches!(self.did, Did::Idle(Idle::NothingReady(_))) && self.fired.len == 0
    }
}

/// When the last of these turns ended, which are in a row on their processor. The first one began at `from`.
pub fn end_of(from: u64, entries: &[Entry]) -> u64
    ensures { result ≡ end_of from entries.now }
{
    match entries {
        [.., last] => last.at,
        [] => from,
    }
}
