//! The example of the first page of `quaject_core`, word for word.

use super::*;
use std::test::*;

#[test]
fn a_place_that_is_not_raised(rt: HostRuntime) -> Result<(), Fail> {
    let mut core = Core::new(rt.alloc())?;
    let (Some(call), Some(number)) = (Call::new(1), QueueNumber::new(0)) else {
        panic!(rt; "numbers")
    };
    let queue = QueueName::Bytes(number);
    let items = Items::new([104, 10].to_vec(rt.alloc())?);
    let (raise, take) = (
        Event::Raise {
            call,
            queue,
            run: 0,
            index: 0,
        },
        Event::Take {
            call,
            queue,
            count: 1,
        },
    );
    assert!(rt; core.apply(&Event::Queue { capacity: 4 }) == Ok(()));
    assert!(rt; core.apply(&Event::Claim { call, queue, items }) == Ok(()));
    assert!(rt; core.apply(&take) == Err(Refusal::NotRaised));
    assert!(rt; core.apply(&raise) == Ok(()));
    assert!(rt; core.apply(&take) == Ok(()));
    let numbers = QueueStatus {
        capacity: 4,
        runs: 1,
        put: 2,
        taken: 1,
        left: 1,
        raised: 0,
        shut: false,
    };
    assert!(rt; core.status()?.queues.as_slice() == [numbers].as_slice());
    Ok(())
}
