//! The content of a boot script: the plan of a boot.
//!
//! Queues and pipes, ttys, pumps and switches, gauges, alarms and threads are in the order of the script. They are
//! named by their place there, from 0. A kernel has two lists of queues. The small ones are the queues and pipes, in
//! that order, and then the raw queue of each tty. The large ones are each tty's line queue and screen queue, one tty
//! after the other.

ghost use Rattle.std.specs.Prelude.{◌≡◌, ◌≤◌, ◌<◌, ◌++◌, ◌∷◌, [], length, IsTrue, ◌↔◌, true, false};

use crate::fixed::{Name, Text};
use arrayvec::ArrayVec;
use event_theory::{Alarm, Element, Gauge, Items, Signal, WaitNumber};
use std::fmt;
use std::marker::Model;

/// The wait queues of a pipe.
#[derive(Clone, Copy, Debug)]
pub struct PipeWaits {
    /// The wait queue of threads that find nothing to hear.
    pub readers: WaitNumber,
    /// The wait queue of threads that find no room to say.
    pub writers: WaitNumber,
}

/// A queue, or a pipe.
#[derive(Debug, Drop)]
pub struct PlannedQueue {
    pub name: Name,
    /// The wait queues of a pipe; a plain queue has none.
    pub waits: Option<PipeWaits>,
}

/// A tty, and the text that its device types.
#[derive(Debug, Drop)]
pub struct PlannedTty {
    pub name: Name,
    pub typed: Text<1024>,
}

/// A way of a switch: its key, and the queue for the lines whose first item is the key.
#[derive(Clone, Copy, Default, Debug)]
pub struct Way {
    pub key: u8,
    /// The number of a small queue.
    pub to: usize,
}

/// The ways of a switch, four at most. Contracts see their list.
#[derive(Drop)]
pub struct Ways {
    ways: ArrayVec<Way, 4>,
}

/// A pump or a switch. Its queues are small ones.
#[derive(Debug, Drop)]
pub enum Mover {
    /// Lines go from one queue to another.
    Pump {
        from: usize,
        to: usize,
    },
    /// Lines go to queues by their first item; lines of no way go to the other queue.
    Switch {
        from: usize,
        other: usize,
        ways: Ways,
    },
}

/// A pump or a switch, with its name.
#[derive(Debug, Drop)]
pub struct PlannedMover {
    pub name: Name,
    pub mover: Mover,
}

/// A queue of a kernel, by its place in one of the two lists.
#[derive(Clone, Copy, Debug)]
pub enum QueueIndex {
    /// A queue or pipe.
    Small(usize),
    /// Twice the number of a tty for its line queue, and one more for its screen queue.
    Large(usize),
}

/// A step of a thread's program.
#[derive(Debug, Drop)]
pub enum Step {
    /// The text and 0x0A are put in the queue as one line.
    Say { queue: QueueIndex, text: Text<63> },
    /// A line is taken from the queue.
    Hear { queue: QueueIndex },
    /// The thread waits.
    Wait { wait: WaitNumber },
    /// All threads that wait there go on.
    Wake { wait: WaitNumber },
    /// The signal becomes pending at the thread.
    Signal { thread: Element, signal: Signal },
    /// The thread's stop bit is set.
    Stop { thread: Element },
    /// The thread's stop bit is cleared.
    Start { thread: Element },
    /// The gauge grows.
    Tick { gauge: Gauge, amount: u64 },
    /// A note is chained to the pump or switch.
    Poke { mover: usize },
    /// Nothing is done.
    Pass,
    /// The queue or pipe, by its number, is shut.
    Close { queue: usize },
}

/// A thread, and its program.
#[derive(Debug, Drop)]
pub struct PlannedThread {
    pub name: Name,
    pub steps: Items<Step>,
}

impl Model for Ways {
    ghost use Rattle.std.specs.Prelude.{List};
    ghost use Rattle.boot_data.specs.declared.plan.Way.{Way};

    ghost Value = { List Way };

    ghost view = { λ ways. ways.ways.items };
}

impl Ways {
    /// No way.
    pub fn new() -> Self
        ensures { result ≡ [] }
    {
        Ways {
            ways: ArrayVec::new(),
        }
    }

    /// The ways, in the order of the script.
    pub fn as_slice(&self) -> &[Way]
        ensures ways { result.now ≡ self.now }
        ensures few { length result.now ≤ 4 }
    {
        self.ways.as_slice()
    }

    /// Appends a way if there is room. Else the ways stay as they are, and the answer is false.
    pub fn push(&mut self, way: Way) -> bool
        ensures room { IsTrue result ↔ (length self.old < 4) }
        ensures pushed { result ≡ true → self.new ≡ self.old ++ way ∷ [] }
        ensures frame { result ≡ false → self.new ≡ self.old }
    {
        self.ways.try_push(way).is_ok()
    }
}

impl fmt::Debug for Ways {
    fn fmt<W: fmt::Write>(&self, f: &mut fmt::Formatter<W>) -> fmt::Result {
        write!(f, "{:?}", self.as_slice())
    }
}
