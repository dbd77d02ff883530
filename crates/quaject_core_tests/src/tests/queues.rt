//! Lists of events, as a whole and one by one.

use super::*;

/// A later claim is raised first, and a taking waits for the first.
fn later_claim_first<R: Abort>(rt: &R, alloc: Global) -> Vec<Event> {
    let call = Call::new(1).expect(rt, "call");
    let other = Call::new(2).expect(rt, "call");
    let queue = QueueNumber::new(0).expect(rt, "queue");
    let items = items_of(rt, alloc, &[10, 11]);
    let later = items_of(rt, alloc, &[12]);
    vec![in alloc;
        Event::Queue { capacity: 4 },
        claim(call, QueueName::Bytes(queue), items),
        claim(other, QueueName::Bytes(queue), later),
        raise(other, QueueName::Bytes(queue), 1),
        take(call, QueueName::Bytes(queue)),
        raise(call, QueueName::Bytes(queue), 0),
        take(call, QueueName::Bytes(queue)),
    ]
    .expect(rt, "events")
}

const FIRST_TAKEN: QueueStatus = QueueStatus {
    capacity: 4,
    runs: 2,
    put: 3,
    taken: 1,
    left: 2,
    raised: 1,
    shut: false,
};

fn is_first_taken(status: &Status) -> bool {
    status.events == 6 && status.queues.as_slice() == [FIRST_TAKEN].as_slice()
}

/// Whether a run ends at the fifth event, and a run of the events after it does not.
fn ends_once(core: &mut Core, events: &[Event]) -> bool {
    core.run(events) == Err((4, Refusal::NotRaised))
        && core.run(events.get(5..).unwrap_or(&[])) == Ok(())
}

#[test]
fn a_run_ends_at_the_first_refusal(rt: HostRuntime) {
    let mut core = Core::new(rt.alloc()).expect(&rt, "core");
    assert!(rt; ends_once(&mut core, &later_claim_first(&rt, rt.alloc())));
    assert!(rt; is_first_taken(&status_of(&rt, &core)));
}

/// Whether the fifth event alone is refused.
fn refuses_once(core: &mut Core, events: &[Event]) -> bool {
    for (index, event) in events.iter().enumerate() {
        let wanted = if index == 4 {
            Err(Refusal::NotRaised)
        } else {
            Ok(())
        };
        if core.apply(event) != wanted {
            return false;
        }
    }
    true
}

#[test]
fn one_event_at_a_time_is_the_same(rt: HostRuntime) {
    let mut core = Core::new(rt.alloc()).expect(&rt, "core");
    assert!(rt; refuses_once(&mut core, &later_claim_first(&rt, rt.alloc())));
    assert!(rt; is_first_taken(&status_of(&rt, &core)));
}
