//! The examples of the first pages of `thread_table` and `meters`, word for word, except that the alarm is borrowed.

use event_theory::{Element, Signal, WaitNumber};
use meters::{Alarm, Meters};
use std::test::*;
use thread_table::{MoveRefusal, Place, ThreadTable};

#[test]
fn waits_with_a_ticket(rt: HostRuntime) -> Result<(), Fail> {
    let (table, mut waiter) = ThreadTable::new(rt.alloc())?;
    let mut waker = table.split(&mut waiter, 0);
    let (Ok(element), Some(pipe)) = (table.try_free(&mut waiter), WaitNumber::new(3)) else {
        panic!(rt; "an element of a new table is free")
    };
    let ticket = table.ticket(&mut waiter, pipe);
    assert!(rt; table.wake_all(&rt, &mut waker, pipe) == 0);
    assert!(rt; waiter.holds(element));
    let moved = Err(MoveRefusal::Moved { mark: 1 });
    assert!(rt; table.try_wait_at(&mut waiter, element, pipe, ticket) == moved);
    let ticket = table.ticket(&mut waiter, pipe);
    assert!(rt; waiter.holds(element));
    assert!(rt; table.try_wait_at(&mut waiter, element, pipe, ticket) == Ok(()));
    assert!(rt; table.wake_all(&rt, &mut waker, pipe) == 1 << element.number());
    assert!(rt; waker.holds(element));
    assert!(rt; table.try_ready(&mut waker, element) == Ok(()));
    assert!(rt; table.try_next(&mut waiter) == Ok(element));
    table.join(&mut waiter, waker);
    let Ok(closed) = table.close(waiter) else {
        panic!(rt; "open hands")
    };
    assert!(rt; (closed.places[0], closed.places[1]) == (Place::Held, Place::Free));
    Ok(())
}

#[test]
fn gauge_clock_and_alarm(rt: HostRuntime) -> Result<(), Fail> {
    let (meters, mut timer) = Meters::new(rt.alloc(), 0)?;
    let mut worker = meters.split(&mut timer);
    assert!(rt; meters.tick(&mut worker, 3, 5) == 0);
    assert!(rt; meters.tick(&mut worker, 3, 2) == 5);
    let (Some(element), Some(signal)) = (Element::new(9), Signal::new(4)) else {
        panic!(rt; "numbers")
    };
    let alarm = &Alarm {
        due: 1,
        element,
        signal,
    };
    assert!(rt; meters.try_set(&mut worker, *alarm) == Ok(0));
    assert!(rt; meters.due(&mut timer).len() == 0);
    assert!(rt; meters.advance(&mut timer) == Ok(1));
    assert!(rt; meters.due(&mut timer).as_slice() == [*alarm].as_slice());
    meters.join(&mut timer, worker);
    let Ok(metered) = meters.close(timer) else {
        panic!(rt; "open ends")
    };
    assert!(rt; metered.gauges == [0, 0, 0, 7, 0, 0, 0, 0]);
    assert!(rt; (metered.clock, metered.alarms.len()) == (1, 0));
    Ok(())
}
