//! The places of the threads over time, by their turns and their wakes.

use crate::columns::{LEFT, Placed, entry_of};
use crate::order::Track;
use boot_data::BootPlan;
use boot_data::plan::{PipeWaits, QueueIndex};
use boot_log::{Did, Entry, HeardAnswer, SaidAnswer, Tried};
use event_theory::{Element, OutOfMemory, WaitNumber};
use processor::Moved;
use std::alloc::Global;
use turn_dispatch::{Idle, Resumed, Waited, Woken};

/// The place of a thread.
#[derive(Clone, Copy, Debug, PartialEq, Eq)]
pub(crate) enum Place {
    /// In the ready ring.
    Ready,
    /// On a processor, by its number.
    On(usize),
    /// In a wait queue.
    Waits(WaitNumber),
    /// In its stop cell.
    Stopped,
    /// Held by a processor, for there is no position left where it should go.
    Held,
    /// All its steps are done.
    Ended,
}

/// A time that a thread was in a place: from one side of the picture to another.
#[derive(Clone, Copy, Debug)]
pub(crate) struct Span {
    pub(crate) thread: usize,
    pub(crate) place: Place,
    pub(crate) left: u32,
    pub(crate) right: u32,
}

/// Where a thread is now, and since when. A thread that was made ready by a turn that ended before its own had ended
/// goes on at once.
#[derive(Clone, Copy)]
struct Now {
    place: Place,
    since: u32,
    goes_on: bool,
}

/// The spans so far, and where each thread is now.
#[derive(Drop)]
struct Spans {
    spans: Vec<Span>,
    nows: Vec<Now>,
}

/// The wait queue to which an element went after its step.
fn waits_at(plan: &BootPlan, tried: &Tried) -> Option<WaitNumber> {
    match tried {
        Tried::Wait { wait } => Some(*wait),
        Tried::Say { queue, .. } => Some(pipe_waits(plan, *queue)?.writers),
        Tried::Hear { queue, .. } => Some(pipe_waits(plan, *queue)?.readers),
        _ => None,
    }
}

/// The wait queues of a queue, if it is a pipe.
fn pipe_waits(plan: &BootPlan, queue: QueueIndex) -> Option<PipeWaits> {
    match queue {
        QueueIndex::Small(number) => plan.queues.as_slice().get(number)?.waits,
        QueueIndex::Large(_) => None,
    }
}

/// The place of an element after its step.
fn place_after(plan: &BootPlan, tried: &Tried, moved: Moved) -> Place {
    match moved {
        Moved::Ready(true) | Moved::Ticketed(Waited::Moved { ready: true, .. }) => Place::Ready,
        Moved::Freed(true) => Place::Ended,
        Moved::Waits(true) | Moved::Ticketed(Waited::Waiting) => match waits_at(plan, tried) {
            Some(wait) => Place::Waits(wait),
            None => Place::Held,
        },
        _ => Place::Held,
    }
}

/// The elements that a step woke, up to two lists of them.
fn woken_by(tried: &Tried) -> [Option<Woken>; 2] {
    match tried {
        Tried::Say {
            answer: SaidAnswer::Put(woken),
            ..
        } => [*woken, None],
        Tried::Hear {
            answer: HeardAnswer::Taken(woken) | HeardAnswer::Over(woken),
            ..
        } => { [*woken, None] }
        Tried::Wake { woken, .. } => [Some(*woken), None],
        Tried::Close {
            readers,
            writers,
            ..
        } => [*readers, *writers],
        _ => [None, None],
    }
}

impl Spans {
    /// All threads are ready at first.
    fn new(alloc: Global, threads: usize) -> Result<Spans, OutOfMemory> {
        let first = Now {
            place: Place::Ready,
            since: LEFT,
            goes_on: false,
        };
        Ok(Spans {
            spans: Vec::new(alloc),
            nows: vec![in alloc; first; threads]?,
        })
    }

    /// The thread has been at its place up to here, and then goes to another. A place where it was for no time is left
    /// out, except for the end.
    fn goes(&mut self, thread: usize, place: Place, at: u32) -> Result<(), OutOfMemory> {
        let Some(now) = self.nows.get_mut(thread) else {
            return Ok(());
        };
        let (old, left) = (now.place, now.since);
        // by the clock the thread may have had a turn before an earlier one had ended
        let at = at.max(left);
        now.place = place;
        now.since = at;
        if left < at || old == Place::Ended {
            self.spans.push(Span {
                thread,
                place: old,
                left,
                right: at,
            })?;
        }
        Ok(())
    }

    /// The thread leaves its processor. One that was made ready meanwhile doesn't wait.
    fn leaves(&mut self, thread: usize, place: Place, at: u32) -> Result<(), OutOfMemory> {
        let mut next = place;
        if let Some(now) = self.nows.get_mut(thread) {
            if now.goes_on && is_left_by_wake(place) {
                next = Place::Ready;
            }
            now.goes_on = false;
        }
        self.goes(thread, next, at)
    }

    /// The thread is made ready.
    fn wakes(&mut self, thread: usize, at: u32) -> Result<(), OutOfMemory> {
        let Some(now) = self.nows.get_mut(thread) else {
            return Ok(());
        };
        if !is_left_by_wake(now.place) {
            now.goes_on = true;
            return Ok(());
        }
        self.goes(thread, Place::Ready, at)
    }

    /// The threads of a mask are made ready.
    fn all_wake(&mut self, mask: u64, at: u32) -> Result<(), OutOfMemory> {
        for thread in 0..64u32 {
            if mask & (1u64 << thread) != 0 {
                self.wakes(thread as usize, at)?;
            }
        }
        Ok(())
    }

    /// A thread was on a processor in this block, and then went to this place.
    fn had_turn(
        &mut self,
        thread: Element,
        placed: &Placed,
        then: Place,
    ) -> Result<(), OutOfMemory> {
        let thread = usize::from(thread.number());
        self.goes(
            thread,
            Place::On(placed.ordered.processor),
            placed.bounds.left,
        )?;
        self.leaves(thread, then, placed.bounds.right)
    }

    /// What a step did with other threads.
    fn follow_step(&mut self, tried: &Tried, at: u32) -> Result<(), OutOfMemory> {
        for woken in woken_by(tried) {
            if let Some(woken) = woken {
                self.all_wake(woken.ready, at)?;
            }
        }
        if let Tried::Start {
            thread,
            answer: Ok(Resumed::Ready),
        } = tried
        {
            self.wakes(usize::from(thread.number()), at)?;
        }
        Ok(())
    }

    /// What a turn did with the threads.
    fn follow(
        &mut self,
        plan: &BootPlan,
        entry: &Entry,
        placed: &Placed,
    ) -> Result<(), OutOfMemory> {
        let at = placed.bounds.right;
        match &entry.did {
            Did::Idle(Idle::NothingReady(_)) => Ok(()),
            Did::Idle(Idle::Parked(thread)) => {
                self.leaves(usize::from(thread.number()), Place::Stopped, at)
            }
            Did::Idle(Idle::ParkLost { element, ready, .. }) => {
                let place = if *ready { Place::Ready } else { Place::Held };
                self.leaves(usize::from(element.number()), place, at)
            }
            Did::Retired { begun, freed } => {
                let place = if *freed { Place::Ended } else { Place::Held };
                self.had_turn(begun.element, placed, place)
            }
            Did::Stepped {
                begun,
                tried,
                moved,
                ..
            } => {
                let place = place_after(plan, tried, *moved);
                self.had_turn(begun.element, placed, place)?;
                self.follow_step(tried, at)
            }
        }
    }

    /// Ends each thread's last span at this side of the picture.
    fn end(self, right: u32) -> Result<Vec<Span>, OutOfMemory> {
        let mut all = self;
        for thread in 0..all.nows.len() {
            all.goes(thread, Place::Ended, right)?;
        }
        let Spans { spans, nows: _ } = all;
        Ok(spans)
    }
}

/// Whether a thread in such a place leaves it when it is made ready.
fn is_left_by_wake(place: Place) -> bool {
    matches!(place, Place::Waits(_) | Place::Stopped)
}

/// The places of all threads over time, up to the right side of the picture.
pub(crate) fn spans_of(
    alloc: Global,
    plan: &BootPlan,
    tracks: &[Track],
    all: &[Placed],
    right: u32,
) -> Result<Vec<Span>, OutOfMemory> {
    let mut spans = Spans::new(alloc, plan.threads.as_slice().len())?;
    for placed in all {
        if let Some(entry) = entry_of(tracks, &placed.ordered) {
            spans.follow(plan, entry, placed)?;
        }
    }
    spans.end(right)
}
