//! New cores, and elements that a core lacks.

use super::*;

/// Whether a core has this many free elements, and nothing else.
fn is_new(status: &Status, elements: usize) -> bool {
    status.events == 0
        && status.queues.as_slice().is_empty()
        && status.chains.as_slice().is_empty()
        && status.elements.as_slice().len() == elements
        && are_free(status.elements.as_slice())
        && status.gauges == [0; 8]
        && status.notified == [0; 16]
}

fn assert_new<R: Abort>(rt: &R, core: Result<Core, OutOfMemory>, elements: usize) {
    let core = core.expect(rt, "core");
    assert!(rt; is_new(&status_of(rt, &core), elements));
}

#[test]
fn a_new_core_has_free_elements_alone(rt: HostRuntime) {
    assert_new(&rt, Core::with_elements(rt.alloc(), 1), 1);
    assert_new(&rt, Core::with_elements(rt.alloc(), 16), 16);
    assert_new(&rt, Core::with_elements(rt.alloc(), 64), 64);
    assert_new(&rt, Core::new(rt.alloc()), 16);
}

/// An event of each kind that names element 4.
fn of_element_4<R: Abort>(rt: &R, alloc: Global) -> Vec<Event> {
    let call = Call::new(0).expect(rt, "call");
    let element = Element::new(4).expect(rt, "element");
    let processor = Processor::new(0).expect(rt, "processor");
    let signal = Signal::new(0).expect(rt, "signal");
    let wait = WaitNumber::new(0).expect(rt, "wait queue");
    let (queue, items) = (QueueName::Ready, items_of(rt, alloc, &[4]));
    let (due, ticket) = (1, 0);
    vec![in alloc;
        Event::Claim { call, queue, items },
        Event::On {
            call,
            processor,
            element
        },
        Event::Stop { call, element },
        Event::Park { call, element },
        Event::Start { call, element },
        Event::Signal {
            call,
            element,
            signal
        },
        Event::Deliver { call, element },
        Event::Done { call, element },
        Event::Set {
            call,
            due,
            element,
            signal
        },
        Event::WaitAt {
            call,
            wait,
            element,
            ticket
        },
    ]
    .expect(rt, "events")
}

#[test]
fn an_element_that_the_core_lacks_is_no_name(rt: HostRuntime) {
    let mut core = Core::with_elements(rt.alloc(), 4).expect(&rt, "core");
    for event in &of_element_4(&rt, rt.alloc()) {
        assert!(rt; core.apply(event) == Err(Refusal::UnknownName));
    }
    assert_new(&rt, Ok(core), 4);
}
