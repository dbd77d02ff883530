//! Which places of the byte queues are claimed and which of them raised, event after event.

ghost use Rattle.std.specs.Prelude.{◌≡◌};

use event_theory::{Call, Event, Items, OutOfMemory, QueueName};
use std::alloc::Global;

/// An item that was claimed: its call, its run and its index there, and whether it is raised.
#[derive(Clone, Copy)]
pub(crate) struct Seat {
    pub(crate) call: Call,
    pub(crate) run: usize,
    pub(crate) index: usize,
    pub(crate) raised: bool,
}

/// All items of one queue that were ever claimed, in claim order, and the call of each run.
#[derive(Drop)]
pub(crate) struct Tape {
    calls: Vec<Call>,
    seats: Vec<Seat>,
}

impl Tape {
    fn new(alloc: Global) -> Tape {
        Tape {
            calls: Vec::new(alloc),
            seats: Vec::new(alloc),
        }
    }

    /// Appends a run of `count` items.
    fn claim(&mut self, call: Call, count: usize) -> Result<(), OutOfMemory> {
        let run = self.calls.len();
        self.calls.push(call)?;
        for index in 0..count {
            self.seats.push(Seat {
                call,
                run,
                index,
                raised: false,
            })?;
        }
        Ok(())
    }

    /// Raises one item of a run.
    fn raise(&mut self, run: usize, index: usize) {
        for seat in &mut self.seats {
            seat.raised = seat.raised || (seat.run == run && seat.index == index);
        }
    }

    /// Gives the runs of the other call to the call.
    fn join(&mut self, call: Call, other: Call) {
        for seat in &mut self.seats {
            if seat.call == other {
                seat.call = call;
            }
        }
    }

    /// The items without the first `taken` ones.
    fn left(&self, alloc: Global, taken: u64) -> Result<Items<Seat>, OutOfMemory> {
        let taken = usize::try_from(taken).unwrap_or(usize::MAX);
        let left = self.seats.get(taken..).unwrap_or(&[]);
        Ok(Items::new(left.to_vec(alloc)?))
    }
}

/// The byte queues, by their numbers.
#[derive(Drop)]
pub(crate) struct Tapes {
    tapes: Vec<Tape>,
}

impl Tapes {
    pub(crate) fn new(alloc: Global) -> Tapes {
        Tapes {
            tapes: Vec::new(alloc),
        }
    }

    /// Follows an event that was allowed.
    pub(crate) fn follow(&mut self, alloc: Global, event: &Event) -> Result<(), OutOfMemory> {
        match event {
            Event::Queue { .. } => Ok(self.tapes.push(Tape::new(alloc))?),
            Event::Claim { call, queue, items } => {
                self.claim(*call, *queue, items.as_slice().len())
            }
            Event::Raise {
                queue,
                run,
                index,
                ..
            } => {
                self.raise(*queue, *run, *index);
                Ok(())
            }
            Event::Join { call, other } => {
                self.join(*call, *other);
                Ok(())
            }
            _ => Ok(()),
        }
    }

    fn claim(&mut self, call: Call, queue: QueueName, count: usize) -> Result<(), OutOfMemory> {
        let QueueName::Bytes(number) = queue else {
            return Ok(());
        };
        match self.tapes.get_mut(usize::from(number.number())) {
            Some(tape) => tape.claim(call, count),
            None => Ok(()),
        }
    }

    fn raise(&mut self, queue: QueueName, run: u32, index: u32) {
        if let QueueName::Bytes(number) = queue {
            if let Some(tape) = self.tapes.get_mut(usize::from(number.number())) {
                tape.raise(run as usize, index as usize);
            }
        }
    }

    fn join(&mut self, call: Call, other: Call) {
        for tape in &mut self.tapes {
            tape.join(call, other);
        }
    }

    /// The places that are left in a queue after `taken` items were taken, in claim order.
    pub(crate) fn left(
        &self,
        alloc: Global,
        queue: usize,
        taken: u64,
    ) -> Result<Items<Seat>, OutOfMemory> {
        match self.tapes.get(queue) {
            Some(tape) => tape.left(alloc, taken),
            None => Ok(Items::new(Vec::new(alloc))),
        }
    }
}
