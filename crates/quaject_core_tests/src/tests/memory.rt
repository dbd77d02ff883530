//! Cores when an allocation is refused. `tools/refused/memory tests` refuses each allocation in turn, one in a run of a
//! test, so a second try always has memory.
ghost use Rattle.std.specs.Prelude.{◌≤◌};

use super::*;

/// A new core with this many elements. The first try may be out of memory.
fn new_core<R: Abort>(rt: &R, alloc: Global, elements: u8) -> Core
    requires { (1 ≤ elements) × (elements ≤ 64) }
{
    match Core::with_elements(alloc, elements) {
        Ok(core) => core,
        Err(OutOfMemory) => Core::with_elements(alloc, elements).expect(rt, "core"),
    }
}

/// Whether two states have the same numbers.
fn are_same(one: &Status, other: &Status) -> bool {
    one.events == other.events
        && one.clock == other.clock
        && one.queues.as_slice() == other.queues.as_slice()
        && one.chains.as_slice() == other.chains.as_slice()
        && one.elements.as_slice() == other.elements.as_slice()
        && one.gauges == other.gauges
        && one.notified == other.notified
        && one.alarms == other.alarms
}

/// The state that these events lead a new core to.
fn led_to<R: Abort>(rt: &R, alloc: Global, events: &[Event]) -> Status {
    let mut core = new_core(rt, alloc, 16);
    assert!(rt; core.run(events) == Ok(()));
    status_of(rt, &core)
}

/// Runs all events. If an allocation is refused, exactly the events before it were applied; a run of the remaining
/// events continues from there.
fn run_all<R: Abort>(rt: &R, alloc: Global, core: &mut Core, events: &[Event]) {
    let Err((index, refusal)) = core.run(events) else {
        return;
    };
    assert!(rt; refusal == Refusal::OutOfMemory);
    let led = led_to(rt, alloc, events.get(..index).unwrap_or(&[]));
    assert!(rt; are_same(&status_of(rt, core), &led));
    assert!(rt; core.run(events.get(index..).unwrap_or(&[])) == Ok(()));
}

fn on(call: Call, processor: Processor, element: Element) -> Event {
    Event::On {
        call,
        processor,
        element,
    }
}

/// The element waits if its wait queue had no notify.
fn wait(call: Call, wait: WaitNumber, element: Element) -> Event {
    Event::WaitAt {
        call,
        wait,
        element,
        ticket: 0,
    }
}

/// An alarm for tick 1.
fn set(call: Call, element: Element, signal: Signal) -> Event {
    Event::Set {
        call,
        due: 1,
        element,
        signal,
    }
}

const READY: QueueName = QueueName::Ready;

/// An element is made ready, runs, waits with a ticket, is woken, is stopped while it runs, and is started. These are
/// the events of `element.events` in the examples. After them an alarm is set for the element, and fires.
fn on_its_way<R: Abort>(rt: &R, alloc: Global) -> Vec<Event> {
    let a = Call::new(1).expect(rt, "call");
    let b = Call::new(2).expect(rt, "call");
    let c = Call::new(3).expect(rt, "call");
    let d = Call::new(4).expect(rt, "call");
    let processor = Processor::new(0).expect(rt, "processor");
    let element = Element::new(0).expect(rt, "element");
    let w = WaitNumber::new(3).expect(rt, "wait queue");
    let signal = Signal::new(3).expect(rt, "signal");
    let slot = Slot::new(0).expect(rt, "slot");
    let first = items_of(rt, alloc, &[0]);
    let second = items_of(rt, alloc, &[0]);
    let third = items_of(rt, alloc, &[0]);
    let made = vec![in alloc;
        take(a, QueueName::Free),
        claim(a, READY, first),
        raise(a, READY, 0),
        take(b, READY),
        on(b, processor, element),
        Event::Off { call: b, processor },
        wait(b, w, element),
        raise(b, QueueName::Wait(w), 0),
        Event::NotifyWait { call: c, wait: w },
        take(c, QueueName::Wait(w)),
        claim(c, READY, second),
        raise(c, READY, 1),
        take(b, READY),
        on(b, processor, element),
        Event::Stop { call: d, element },
        Event::Off { call: b, processor },
        Event::Park { call: b, element },
        Event::Start { call: d, element },
        claim(d, READY, third),
        raise(d, READY, 2),
        set(a, element, signal),
        Event::Advance { call: a },
        Event::Fire { call: a, slot },
    ];
    list_of(rt, alloc, made)
}

/// A note is claimed, raised and notified, and the call that found the gate Idle takes it and leaves.
fn a_note<R: Abort>(rt: &R, alloc: Global) -> Vec<Event> {
    let call = Call::new(1).expect(rt, "call");
    let chain = ChainNumber::new(0).expect(rt, "chain");
    let note = items_of(rt, alloc, &[7]);
    let made = vec![in alloc;
        Event::Chain,
        claim(call, QueueName::Notes(chain), note),
        raise(call, QueueName::Notes(chain), 0),
        Event::Notify { call, chain },
        Event::Round { call, chain },
        take(call, QueueName::Notes(chain)),
        Event::Leave { call, chain },
    ];
    list_of(rt, alloc, made)
}

/// An item goes through a queue, which is shut.
fn an_item<R: Abort>(rt: &R, alloc: Global) -> Vec<Event> {
    let call = Call::new(1).expect(rt, "call");
    let queue = QueueNumber::new(0).expect(rt, "queue");
    let item = items_of(rt, alloc, &[0]);
    let made = vec![in alloc;
        Event::Queue { capacity: 4 },
        claim(call, QueueName::Bytes(queue), item),
        raise(call, QueueName::Bytes(queue), 0),
        take(call, QueueName::Bytes(queue)),
        Event::Shut { call, queue },
    ];
    list_of(rt, alloc, made)
}

/// Whether this many elements are free, and a core has nothing else.
fn is_new(status: &Status, elements: usize) -> bool {
    status.events == 0
        && status.elements.as_slice().len() == elements
        && are_free(status.elements.as_slice())
        && status.queues.as_slice().is_empty()
        && status.chains.as_slice().is_empty()
}

fn assert_new<R: Abort>(rt: &R, core: &Core, elements: usize) {
    assert!(rt; is_new(&status_of(rt, core), elements));
}

/// The status of a new core that runs all of these events.
fn status_after<R: Abort>(rt: &R, alloc: Global, events: &[Event]) -> Status {
    let mut core = new_core(rt, alloc, 16);
    run_all(rt, alloc, &mut core, events);
    status_of(rt, &core)
}

/// If an allocation is refused, there is no core or no status, and the next try succeeds.
#[test]
fn new_memory_may_run_out(rt: HostRuntime) {
    let alloc = rt.alloc();
    let core = match Core::new(alloc) {
        Ok(core) => core,
        Err(OutOfMemory) => Core::new(alloc).expect(&rt, "core"),
    };
    assert_new(&rt, &core, 16);
    assert_new(&rt, &new_core(&rt, alloc, 1), 1);
    assert_new(&rt, &new_core(&rt, alloc, 64), 64);
}

const ON_ITS_WAY: ElementStatus = ElementStatus {
    place: Place::Ready,
    done: 0,
    pending: 0,
    stop: false,
};

/// If an allocation is refused, the events before it were applied, and a run of the other events continues from there.
#[test]
fn element_memory_may_run_out(rt: HostRuntime) {
    let alloc = rt.alloc();
    let status = status_after(&rt, alloc, &on_its_way(&rt, alloc));
    assert!(rt; status.events == 23 && status.clock == 1 && status.notified[3] == 1);
    assert!(rt; status.elements.as_slice().first() == Some(&ON_ITS_WAY));
    assert!(rt; status.alarms.set == 1 && status.alarms.fired == 1);
}

const SERVED: ChainStatus = ChainStatus {
    put: 1,
    taken: 1,
    left: 0,
    gate: Gate::Idle,
};

const EMPTIED: QueueStatus = QueueStatus {
    capacity: 4,
    runs: 1,
    put: 1,
    taken: 1,
    left: 0,
    raised: 0,
    shut: true,
};

#[test]
fn chain_memory_may_run_out(rt: HostRuntime) {
    let alloc = rt.alloc();
    let status = status_after(&rt, alloc, &a_note(&rt, alloc));
    assert!(rt; status.events == 7 && status.queues.as_slice().is_empty());
    assert!(rt; status.chains.as_slice() == [SERVED].as_slice());
}

#[test]
fn queue_memory_may_run_out(rt: HostRuntime) {
    let alloc = rt.alloc();
    let status = status_after(&rt, alloc, &an_item(&rt, alloc));
    assert!(rt; status.events == 5);
    assert!(rt; status.queues.as_slice() == [EMPTIED].as_slice());
}
