//! The stored data of a core, and the effect of each event on it.

use crate::chaining::StoredChain;
use crate::elements::StoredElements;
use crate::metering::StoredMeters;
use crate::queueing::StoredQueue;
use crate::rings;
use crate::rings::{FREE, READY};
use event_theory::{
    Alarm, Call, ChainNumber, ChainStatus, Event, Items, OutOfMemory, QueueName, QueueNumber,
    QueueStatus, Refusal, Status,
};
use std::alloc::Global;

/// The queues and chains by their numbers, the thread elements, the meters, and how many events were allowed.
#[derive(Drop)]
pub(crate) struct Store {
    alloc: Global,
    queues: Vec<StoredQueue>,
    chains: Vec<StoredChain>,
    elements: StoredElements,
    meters: StoredMeters,
    events: u64,
}

impl Store {
    ghost use Rattle.std.specs.Prelude.{◌≡◌, ◌≤◌, ℕ, Ok, Err, IfOk, map, false};
    ghost use Rattle.event_theory.specs.Marks.{shut};
    ghost use Rattle.event_theory.specs.Queues.{claim, raise, take_first, join_queue};
    ghost use Rattle.event_theory.specs.Chains.{claim_note, raise_note, take_note, notify, round, leave};
    ghost use Rattle.event_theory.specs.States.{first_state, make_queue, make_chain, in_queue, in_chain, set_for};
    ghost use Rattle.event_theory.specs.States.{join, effect, step, may_grow};
    ghost use Rattle.event_theory.specs.Statuses.{status_of, queue_status, chain_status};
    ghost use Rattle.event_theory.specs.declared.event.Event.TheVariants as events;
    ghost use Rattle.quaject_core.specs.Shown.{queue};
    ghost use Rattle.quaject_core.specs.ShownChains.{chain};
    ghost use Rattle.quaject_core.specs.ShownStates.{stored_state, Does};
    ghost use Rattle.event_theory.specs.Lawful.{IsLawful};
    ghost use Rattle.event_theory.specs.Results.{IsNotMemory};

    /// No queues, no chains, and `elements` free elements.
    pub(crate) fn new(alloc: Global, elements: u8) -> Result<Store, OutOfMemory>
        requires { elements ≤ 64 }
        ensures { IfOk result (λ store. stored_state store ≡ first_state elements) }
    {
        Ok(Store {
            alloc,
            queues: Vec::new(alloc),
            chains: Vec::new(alloc),
            elements: StoredElements::new(alloc, elements)?,
            meters: StoredMeters::new(alloc),
            events: 0,
        })
    }

    /// Applies one event. A refused event changes nothing.
    pub(crate) fn apply(&mut self, event: &Event) -> Result<(), Refusal>
        requires { IsLawful (stored_state self.old) }
        ensures change { Does result (step event.now) self.old self.new }
        ensures memory { may_grow event.now ≡ false → IsNotMemory result }
    {
        self.effect(event)?;
        self.events = self.events.wrapping_add(1);
        Ok(())
    }

    /// Applies one event, without counting it.
    fn effect(&mut self, event: &Event) -> Result<(), Refusal>
        requires { IsLawful (stored_state self.old) }
        ensures change { Does result (effect event.now) self.old self.new }
        ensures memory { may_grow event.now ≡ false → IsNotMemory result }
    {
        match event {
            Event::Queue { capacity } => self.make_queue(*capacity),
            Event::Chain => self.make_chain(),
            Event::Claim { call, queue, items } => self.claim(*call, *queue, items.as_slice()),
            Event::Raise {
                call,
                queue,
                run,
                index,
            } => self.raise(*call, *queue, *run, *index),
            Event::Take { call, queue, count } => self.take(*call, *queue, *count),
            Event::On {
                call,
                processor,
                element,
            } => self.elements.put_on(*call, *processor, *element),
            Event::Off { call, processor } => self.elements.take_off(*call, *processor),
            Event::Stop { element, .. } => self.elements.stop(*element),
            Event::Park { call, element } => self.elements.park(*call, *element),
            Event::Start { call, element } => self.elements.start(*call, *element),
            Event::Signal {
                element,
                signal,
                ..
            } => self.elements.signal(*element, *signal),
            Event::Deliver { call, element } => self.elements.deliver(*call, *element),
            Event::Done { call, element } => self.elements.done(*call, *element),
            Event::Notify { call, chain } => self.notify(*call, *chain),
            Event::NotifyWait { wait, .. } => self.elements.notify_wait(*wait),
            Event::Round { call, chain } => self.round(*call, *chain),
            Event::Leave { call, chain } => self.leave(*call, *chain),
            Event::Tick { gauge, amount, .. } => {
                self.meters.tick(*gauge, *amount);
                Ok(())
            }
            Event::Advance { .. } => self.meters.advance(),
            Event::Set {
                due,
                element,
                signal,
                ..
            } => self.set(Alarm {
                due: *due,
                element: *element,
                signal: *signal,
            }),
            Event::Fire { slot, .. } => self.meters.fire(*slot),
            Event::Cancel { slot, .. } => self.meters.cancel(*slot),
            Event::Shut { queue, .. } => self.shut(*queue),
            Event::WaitAt {
                call,
                wait,
                element,
                ticket,
            } => self.elements.wait_at(*call, *wait, *element, *ticket),
            Event::Join { call, other } => self.join(*call, *other),
        }
    }

    fn make_queue(&mut self, capacity: u16) -> Result<(), Refusal>
        ensures { Does result (make_queue capacity) self.old self.new }
    {
        if capacity == 0 || capacity > 256 {
            return Err(Refusal::TooLong);
        }
        if self.queues.len() >= 8 {
            return Err(Refusal::Full);
        }
        self.queues.push(StoredQueue::new(self.alloc, capacity))?;
        Ok(())
    }

    fn make_chain(&mut self) -> Result<(), Refusal>
        ensures { Does result make_chain self.old self.new }
    {
        if self.chains.len() >= 8 {
            return Err(Refusal::Full);
        }
        self.chains.push(StoredChain::new(self.alloc))?;
        Ok(())
    }

    fn claim(&mut self, call: Call, queue: QueueName, items: &[u64]) -> Result<(), Refusal>
        ensures { Does result (effect (events.Claim call queue items.now)) self.old self.new }
    {
        match queue {
            QueueName::Bytes(number) => self.claim_items(call, number, items),
            QueueName::Notes(number) => self.claim_note(call, number, items),
            QueueName::Ready => self.elements.claim(READY, call, items),
            QueueName::Free => self.elements.claim(FREE, call, items),
            QueueName::Wait(wait) => self.elements.claim(rings::of_wait(wait), call, items),
        }
    }

    fn raise(&mut self, call: Call, queue: QueueName, run: u32, index: u32) -> Result<(), Refusal>
        ensures { Does result (effect (events.Raise call queue run index)) self.old self.new }
    {
        match queue {
            QueueName::Bytes(number) => self.raise_item(call, number, run, index),
            QueueName::Notes(number) => self.raise_note(call, number, run, index),
            QueueName::Ready => self.elements.raise(READY, call, run, index),
            QueueName::Free => self.elements.raise(FREE, call, run, index),
            QueueName::Wait(wait) => self.elements.raise(rings::of_wait(wait), call, run, index),
        }
    }

    fn take(&mut self, call: Call, queue: QueueName, count: u32) -> Result<(), Refusal>
        requires { IsLawful (stored_state self.old) }
        ensures { Does result (effect (events.Take call queue count)) self.old self.new }
    {
        match queue {
            QueueName::Bytes(number) => self.take_items(number, count),
            QueueName::Notes(number) => self.take_note(call, number, count),
            QueueName::Ready => self.elements.take(READY, call, count),
            QueueName::Free => self.elements.take(FREE, call, count),
            QueueName::Wait(wait) => self.elements.take(rings::of_wait(wait), call, count),
        }
    }

    fn claim_items(&mut self, call: Call, number: QueueNumber, items: &[u64]) -> Result<(), Refusal>
        ensures { Does result (in_queue number (λ q. claim q.capacity call items.now q)) self.old self.new }
    {
        let number = usize::from(number.number());
        if number >= self.queues.len() {
            return Err(Refusal::UnknownName);
        }
        let stored = &mut self.queues[number];
        let longest = stored.capacity();
        stored.claim(longest, call, items)
    }

    fn raise_item(
        &mut self,
        call: Call,
        number: QueueNumber,
        run: u32,
        index: u32,
    ) -> Result<(), Refusal>
        ensures { Does result (in_queue number (raise call run index)) self.old self.new }
    {
        let number = usize::from(number.number());
        if number >= self.queues.len() {
            return Err(Refusal::UnknownName);
        }
        self.queues[number].raise(call, run, index)
    }

    fn take_items(&mut self, number: QueueNumber, count: u32) -> Result<(), Refusal>
        ensures { Does result (in_queue number (λ q. take_first q.capacity count q)) self.old self.new }
    {
        let number = usize::from(number.number());
        if number >= self.queues.len() {
            return Err(Refusal::UnknownName);
        }
        let stored = &mut self.queues[number];
        let longest = stored.capacity();
        stored.take(longest, count)
    }

    fn shut(&mut self, number: QueueNumber) -> Result<(), Refusal>
        ensures change { Does result (in_queue number (λ q. Ok (shut q))) self.old self.new }
        ensures memory { IsNotMemory result }
    {
        let number = usize::from(number.number());
        if number >= self.queues.len() {
            return Err(Refusal::UnknownName);
        }
        self.queues[number].shut();
        Ok(())
    }

    fn claim_note(&mut self, call: Call, number: ChainNumber, items: &[u64]) -> Result<(), Refusal>
        ensures { Does result (in_chain number (claim_note call items.now)) self.old self.new }
    {
        let number = usize::from(number.number());
        if number >= self.chains.len() {
            return Err(Refusal::UnknownName);
        }
        self.chains[number].claim(call, items)
    }

    fn raise_note(
        &mut self,
        call: Call,
        number: ChainNumber,
        run: u32,
        index: u32,
    ) -> Result<(), Refusal>
        ensures { Does result (in_chain number (raise_note call run index)) self.old self.new }
    {
        let number = usize::from(number.number());
        if number >= self.chains.len() {
            return Err(Refusal::UnknownName);
        }
        self.chains[number].raise(call, run, index)
    }

    fn take_note(&mut self, call: Call, number: ChainNumber, count: u32) -> Result<(), Refusal>
        ensures { Does result (in_chain number (take_note call count)) self.old self.new }
    {
        let number = usize::from(number.number());
        if number >= self.chains.len() {
            return Err(Refusal::UnknownName);
        }
        self.chains[number].take(call, count)
    }

    fn notify(&mut self, call: Call, number: ChainNumber) -> Result<(), Refusal>
        ensures change { Does result (in_chain number (notify call)) self.old self.new }
        ensures memory { IsNotMemory result }
    {
        let number = usize::from(number.number());
        if number >= self.chains.len() {
            return Err(Refusal::UnknownName);
        }
        self.chains[number].notify(call)
    }

    fn round(&mut self, call: Call, number: ChainNumber) -> Result<(), Refusal>
        ensures change { Does result (in_chain number (round call)) self.old self.new }
        ensures memory { IsNotMemory result }
    {
        let number = usize::from(number.number());
        if number >= self.chains.len() {
            return Err(Refusal::UnknownName);
        }
        self.chains[number].round(call)
    }

    fn leave(&mut self, call: Call, number: ChainNumber) -> Result<(), Refusal>
        ensures change { Does result (in_chain number (leave call)) self.old self.new }
        ensures memory { IsNotMemory result }
    {
        let number = usize::from(number.number());
        if number >= self.chains.len() {
            return Err(Refusal::UnknownName);
        }
        self.chains[number].leave(call)
    }

    fn set(&mut self, alarm: Alarm) -> Result<(), Refusal>
        ensures { Does result (set_for alarm) self.old self.new }
    {
        if !self.elements.knows(alarm.element) {
            return Err(Refusal::UnknownName);
        }
        self.meters.set(alarm)
    }

    fn join(&mut self, call: Call, other: Call) -> Result<(), Refusal>
        ensures { Does result (join call other) self.old self.new }
    {
        if call == other {
            return Err(Refusal::UnknownName);
        }
        join_queues(&mut self.queues, call, other);
        join_chains(&mut self.chains, call, other);
        self.elements.join(call, other);
        Ok(())
    }

    /// The numbers of the state.
    pub(crate) fn status(&self) -> Result<Status, OutOfMemory>
        ensures { IfOk result (λ status. status ≡ status_of (stored_state self.now)) }
    {
        Ok(Status {
            events: self.events,
            queues: self.queue_list()?,
            chains: self.chain_list()?,
            elements: Items::new(self.elements.statuses(self.alloc)?),
            gauges: self.meters.gauges(),
            clock: self.meters.clock(),
            alarms: self.meters.alarms(),
            notified: self.elements.notified(),
        })
    }

    fn queue_list(&self) -> Result<Items<QueueStatus>, OutOfMemory>
        ensures { IfOk result (λ list. list ≡ map queue_status (map queue self.now.queues.items)) }
    {
        let mut queues = Vec::new(self.alloc);
        for queue in &self.queues {
            queues.push(queue.status())?;
        }
        Ok(Items::new(queues))
    }

    fn chain_list(&self) -> Result<Items<ChainStatus>, OutOfMemory>
        ensures { IfOk result (λ list. list ≡ map chain_status (map chain self.now.chains.items)) }
    {
        let mut chains = Vec::new(self.alloc);
        for chain in &self.chains {
            chains.push(chain.status())?;
        }
        Ok(Items::new(chains))
    }
}

ghost use Rattle.std.specs.Prelude.{◌≡◌, map};
ghost use Rattle.event_theory.specs.Queues.{join_queue};
ghost use Rattle.event_theory.specs.Chains.{join_chain};
ghost use Rattle.quaject_core.specs.Shown.{queue};
ghost use Rattle.quaject_core.specs.ShownChains.{chain};

/// Gives the runs of the other call to the call, in each of these queues.
fn join_queues(queues: &mut [StoredQueue], call: Call, other: Call)
    ensures { map queue queues.new ≡ map (join_queue call other) (map queue queues.old) }
{
    for queue in queues {
        queue.join(call, other);
    }
}

/// Gives the call everything that the other call owns, runs or owes, in each of these chains.
fn join_chains(chains: &mut [StoredChain], call: Call, other: Call)
    ensures { map chain chains.new ≡ map (join_chain call other) (map chain chains.old) }
{
    for chain in chains {
        chain.join(call, other);
    }
}
