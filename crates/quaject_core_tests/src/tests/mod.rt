//! Tests of cases that no list of events can reach. `examples` replays the lists of events.

mod elements;
mod examples;
mod memory;
mod queues;
mod values;

use quaject_core::*;
use std::alloc::{AllocFailed, Global};
use std::panic::Expect;
use std::process::Abort;

const FREE: ElementStatus = ElementStatus {
    place: Place::Free,
    done: 0,
    pending: 0,
    stop: false,
};

fn are_free(elements: &[ElementStatus]) -> bool {
    elements.iter().all(|element| *element == FREE)
}

/// The status of a core. The first try may be out of memory.
fn status_of<R: Abort>(rt: &R, core: &Core) -> Status {
    match core.status() {
        Ok(status) => status,
        Err(OutOfMemory) => core.status().expect(rt, "status"),
    }
}

/// These items. The first try may be out of memory.
fn items_of<R: Abort>(rt: &R, alloc: Global, items: &[u64]) -> Items<u64> {
    match Vec::from_slice(alloc, items) {
        Ok(items) => Items::new(items),
        Err(_) => Items::new(Vec::from_slice(alloc, items).expect(rt, "items")),
    }
}

/// The list that was made, or else a second try at it. The first may be out of memory.
fn list_of<R: Abort, const N: usize>(
    rt: &R,
    alloc: Global,
    made: Result<Vec<Event>, AllocFailed<[Event; N]>>,
) -> Vec<Event> {
    match made {
        Ok(events) => events,
        Err(refused) => {
            let events = refused.value;
            Vec::from_array(alloc, events).expect(rt, "events")
        }
    }
}

/// Takes the oldest item of a queue.
fn take(call: Call, queue: QueueName) -> Event {
    Event::Take {
        call,
        queue,
        count: 1,
    }
}

fn claim(call: Call, queue: QueueName, items: Items<u64>) -> Event {
    Event::Claim { call, queue, items }
}

fn raise(call: Call, queue: QueueName, run: u32) -> Event {
    Event::Raise {
        call,
        queue,
        run,
        index: 0,
    }
}
