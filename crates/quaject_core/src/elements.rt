//! The thread elements as the machine stores them.

ghost use Rattle.std.specs.Prelude.{◌≡◌, ◌≤◌, nat_le, vec_len};
ghost use Rattle.std.specs.List.{list_any};
ghost use Rattle.quaject_core.specs.declared.rings.TheConstants.{RINGS};

use crate::holding::HeldList;
use crate::queueing::StoredQueue;
use crate::threading::{StoredThread, new_threads};
use crate::{placing, rings, seats};
use event_theory::{
    Call, Element, ElementStatus, Hold, OutOfMemory, Processor, Refusal, Signal, WaitNumber,
};
use std::alloc::Global;

/// Each element, and its place.
#[derive(Drop)]
pub(crate) struct StoredElements {
    threads: Vec<StoredThread>,
    rings: Vec<StoredQueue>,
    notified: [u32; 16],
    processors: [Option<Hold>; 8],
    held: HeldList,
    ghost few: { vec_len rings ≤ RINGS },
    ghost all: { vec_len threads ≤ 64 },
}

impl StoredElements {
    ghost use Rattle.std.specs.Prelude.{◌<◌, length, nat_lt, ◌||◌, Some, IfOk};
    ghost use Rattle.std.specs.List.{slice_get};
    ghost use Rattle.event_theory.specs.Elements.{first_elements, join_elements, claim_element, raise_element};
    ghost use Rattle.event_theory.specs.Elements.{take_element};
    ghost use Rattle.event_theory.specs.Elements.{is_put, put_on, take_off, stop, park, start, signal, deliver, done};
    ghost use Rattle.event_theory.specs.Elements.{holds};
    ghost use Rattle.event_theory.specs.Statuses.{element_statuses};
    ghost use Rattle.event_theory.specs.Rings.{first_hold};
    ghost use Rattle.quaject_core.specs.ShownThreads.{thread};
    ghost use Rattle.quaject_core.specs.ShownElements.{elements, Does};
    ghost use Rattle.event_theory.specs.Lawful.{IsLawfulElements};
    ghost use Rattle.event_theory.specs.Results.{IsNotMemory};
    ghost use Rattle.event_theory.specs.Marks.{notify_wait, wait_at};

    /// `count` elements, all of them free.
    pub(crate) fn new(alloc: Global, count: u8) -> Result<StoredElements, OutOfMemory>
        requires { count ≤ 64 }
        ensures { IfOk result (λ stored. elements stored ≡ first_elements count) }
    {
        Ok(StoredElements {
            threads: new_threads(alloc, count)?,
            rings: rings::new(alloc, count)?,
            notified: [0; 16],
            processors: [None; 8],
            held: HeldList::new(alloc)?,
        })
    }

    /// Whether there is such an element.
    pub(crate) fn knows(&self, element: Element) -> bool
        ensures { result ≡ nat_lt element (length (elements self.now).threads) }
    {
        index_of(element) < self.threads.len()
    }

    /// The element of this number, if there is one.
    fn thread(&self, element: Element) -> Option<StoredThread>
        ensures { result ≡ slice_get self.now.threads.items element }
    {
        self.threads.get(index_of(element)).copied()
    }

    /// Whether one of the items is no element.
    fn is_strange(&self, items: &[u64]) -> bool
        ensures { result ≡ list_any (nat_le (length (elements self.now).threads)) items.now }
    {
        has_past(self.threads.len(), items)
    }

    /// The index of the call's hold of the first of the items.
    fn find_first(&self, call: Call, items: &[u64]) -> Option<usize>
        ensures { result ≡ first_hold call (slice_get items.now 0) self.now.held.holds.items }
    {
        let item = items.first()?;
        self.held.find(call, *item)
    }

    /// Appends a run of one element, which the call held, to an element queue.
    pub(crate) fn claim(&mut self, ring: usize, call: Call, items: &[u64]) -> Result<(), Refusal>
        ensures { Does result (claim_element ring call items.now) self.old self.new }
    {
        if self.is_strange(items) {
            return Err(Refusal::UnknownName);
        }
        let Some(index) = self.find_first(call, items) else {
            rings::check_claim(&self.rings, ring, call, items)?;
            return Err(Refusal::NotHeld);
        };
        rings::claim(&mut self.rings, ring, call, items)?;
        self.held.remove(index);
        Ok(())
    }

    /// Raises the element of a run.
    pub(crate) fn raise(
        &mut self,
        ring: usize,
        call: Call,
        run: u32,
        index: u32,
    ) -> Result<(), Refusal>
        ensures { Does result (raise_element ring call run index) self.old self.new }
    {
        rings::raise(&mut self.rings, ring, call, run, index)
    }

    /// Takes the first element of an element queue, which the call then holds.
    pub(crate) fn take(&mut self, ring: usize, call: Call, count: u32) -> Result<(), Refusal>
        requires { IsLawfulElements (elements self.old) }
        ensures { Does result (take_element ring call count) self.old self.new }
    {
        let element = rings::first_taken(&self.rings, ring, count)?;
        rings::take(&mut self.rings, ring, count)?;
        self.held.push(Hold { call, element });
        Ok(())
    }

    /// Puts an element that the call holds on a processor.
    pub(crate) fn put_on(
        &mut self,
        call: Call,
        processor: Processor,
        element: Element,
    ) -> Result<(), Refusal>
        ensures change { Does result (put_on call processor element) self.old self.new }
        ensures memory { IsNotMemory result }
    {
        if !self.knows(element) {
            return Err(Refusal::UnknownName);
        }
        let number = item_of(element);
        let Some(index) = self.held.find(call, number) else {
            return Err(Refusal::NotHeld);
        };
        let seat = usize::from(processor.number());
        if self.processors[seat].is_some() {
            return Err(Refusal::ProcessorBusy);
        }
        self.processors[seat] = Some(Hold {
            call,
            element: number,
        });
        self.held.remove(index);
        Ok(())
    }

    /// Takes the element off a processor that the call put it on.
    pub(crate) fn take_off(&mut self, call: Call, processor: Processor) -> Result<(), Refusal>
        requires { IsLawfulElements (elements self.old) }
        ensures change { Does result (take_off call processor) self.old self.new }
        ensures memory { IsNotMemory result }
    {
        let seat = usize::from(processor.number());
        let Some(hold) = self.processors[seat] else {
            return Err(Refusal::ProcessorEmpty);
        };
        if hold.call != call {
            return Err(Refusal::NotOwner);
        }
        self.processors[seat] = None;
        self.held.push(hold);
        Ok(())
    }

    /// Sets the stop bit of an element.
    pub(crate) fn stop(&mut self, element: Element) -> Result<(), Refusal>
        ensures change { Does result (stop element) self.old self.new }
        ensures memory { IsNotMemory result }
    {
        if !self.knows(element) {
            return Err(Refusal::UnknownName);
        }
        self.threads[index_of(element)].stop();
        Ok(())
    }

    /// Puts an element that the call holds into its stop cell.
    pub(crate) fn park(&mut self, call: Call, element: Element) -> Result<(), Refusal>
        ensures change { Does result (park call element) self.old self.new }
        ensures memory { IsNotMemory result }
    {
        let Some(thread) = self.thread(element) else {
            return Err(Refusal::UnknownName);
        };
        let Some(index) = self.held.find(call, item_of(element)) else {
            return Err(Refusal::NotHeld);
        };
        if !thread.is_stopping() {
            return Err(Refusal::NotStopped);
        }
        self.threads[index_of(element)].park();
        self.held.remove(index);
        Ok(())
    }

    /// Clears the stop bit of an element. If the element is in its stop cell, the call then holds it.
    pub(crate) fn start(&mut self, call: Call, element: Element) -> Result<(), Refusal>
        requires { IsLawfulElements (elements self.old) }
        ensures change { Does result (start call element) self.old self.new }
        ensures memory { IsNotMemory result }
    {
        let Some(thread) = self.thread(element) else {
            return Err(Refusal::UnknownName);
        };
        if !thread.is_stopping() {
            return Err(Refusal::NotStopped);
        }
        let hold = Hold {
            call,
            element: item_of(element),
        };
        self.held.push_if(thread.is_parked(), hold);
        self.threads[index_of(element)].start();
        Ok(())
    }

    /// Makes a signal of an element pending.
    pub(crate) fn signal(&mut self, element: Element, number: Signal) -> Result<(), Refusal>
        ensures change { Does result (signal element number) self.old self.new }
        ensures memory { IsNotMemory result }
    {
        if !self.knows(element) {
            return Err(Refusal::UnknownName);
        }
        self.threads[index_of(element)].signal(number);
        Ok(())
    }

    /// Delivers the pending signals of an element that the call holds.
    pub(crate) fn deliver(&mut self, call: Call, element: Element) -> Result<(), Refusal>
        ensures change { Does result (deliver call element) self.old self.new }
        ensures memory { IsNotMemory result }
    {
        if !self.knows(element) {
            return Err(Refusal::UnknownName);
        }
        if !self.held.holds(call, item_of(element)) {
            return Err(Refusal::NotHeld);
        }
        self.threads[index_of(element)].deliver();
        Ok(())
    }

    /// Whether the call holds the element or put it on a processor.
    fn may_step(&self, call: Call, element: u64) -> bool
        ensures { result ≡ (holds call element (elements self.now)
            || list_any (is_put call element) (elements self.now).processors) }
    {
        self.held.holds(call, element) || seats::is_put(&self.processors, call, element)
    }

    /// Counts one more step of an element that the call holds or put on a processor.
    pub(crate) fn done(&mut self, call: Call, element: Element) -> Result<(), Refusal>
        ensures change { Does result (done call element) self.old self.new }
        ensures memory { IsNotMemory result }
    {
        let Some(thread) = self.thread(element) else {
            return Err(Refusal::UnknownName);
        };
        if thread.done() == u32::MAX {
            return Err(Refusal::Full);
        }
        if !self.may_step(call, item_of(element)) {
            return Err(Refusal::NotHeld);
        }
        self.threads[index_of(element)].step();
        Ok(())
    }

    /// Counts one more notify of a wait queue.
    pub(crate) fn notify_wait(&mut self, wait: WaitNumber) -> Result<(), Refusal>
        ensures change { Does result (notify_wait wait) self.old self.new }
        ensures memory { IsNotMemory result }
    {
        let wait = usize::from(wait.number());
        self.notified[wait] = self.notified[wait].wrapping_add(1);
        Ok(())
    }

    /// How many notifies a wait queue had.
    fn notifies(&self, wait: WaitNumber) -> u32
        ensures { slice_get self.now.notified wait ≡ Some result }
    {
        self.notified[usize::from(wait.number())]
    }

    /// Claims a place in a wait queue for an element that the call holds, if its number of notifies is the ticket.
    pub(crate) fn wait_at(
        &mut self,
        call: Call,
        wait: WaitNumber,
        element: Element,
        ticket: u32,
    ) -> Result<(), Refusal>
        ensures { Does result (wait_at call wait element ticket) self.old self.new }
    {
        if !self.knows(element) {
            return Err(Refusal::UnknownName);
        }
        let item = item_of(element);
        let Some(index) = self.held.find(call, item) else {
            return Err(Refusal::NotHeld);
        };
        if self.notifies(wait) != ticket {
            return Err(Refusal::Moved);
        }
        rings::claim(&mut self.rings, rings::of_wait(wait), call, &[item])?;
        self.held.remove(index);
        Ok(())
    }

    /// Gives the call everything that the other call holds, put on a processor or claimed.
    pub(crate) fn join(&mut self, call: Call, other: Call)
        ensures { elements self.new ≡ join_elements call other (elements self.old) }
    {
        rings::join(&mut self.rings, call, other);
        seats::join(&mut self.processors, call, other);
        self.held.join(call, other);
    }
    /// How many notifies each wait queue had.
    pub(crate) fn notified(&self) -> [u32; 16]
        ensures { result ≡ (elements self.now).notified }
    {
        self.notified
    }

    /// The numbers of each element.
    pub(crate) fn statuses(&self, alloc: Global) -> Result<Vec<ElementStatus>, OutOfMemory>
        ensures { IfOk result
            (λ list. list.items ≡ element_statuses (elements self.now) 0 (elements self.now).threads) }
    {
        placing::statuses(
            alloc,
            self.threads.as_slice(),
            &self.processors,
            self.rings.as_slice(),
            self.held.as_slice(),
        )
    }
}

/// Whether one of the items is not below this count.
fn has_past(count: usize, items: &[u64]) -> bool
    ensures { result ≡ list_any (nat_le count) items.now }
{
    items.iter().any(|item| *item >= count as u64)
}

/// The index of an element among all elements.
fn index_of(element: Element) -> usize
    ensures { result ≡ element }
{
    usize::from(element.number())
}

/// The item that an element is in a queue.
fn item_of(element: Element) -> u64
    ensures { result ≡ element }
{
    u64::from(element.number())
}
