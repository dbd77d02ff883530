//! The example of the first page of `batch_queue`, word for word.
use batch_queue::BatchQueue;
use std::test::*;

#[test]
fn a_batch_from_one_end_to_another(rt: HostRuntime) {
    let Ok((queue, mut sender)) = BatchQueue::new(rt.alloc(), 256) else {
        panic!(rt; "no memory")
    };
    let mut receiver = queue.split(&mut sender);
    assert!(rt; queue.try_put(&mut sender, &[10, 20, 30]) == Ok(0));
    let mut items = [0; 64];
    assert!(rt; queue.try_take(&mut receiver, &mut items) == Ok(3));
    assert!(rt; items[..3] == [10, 20, 30]);
    queue.join(&mut sender, receiver);
    let Ok(closed) = queue.close(sender) else {
        panic!(rt; "open ends")
    };
    assert!(rt; (closed.put, closed.taken, closed.left.len()) == (3, 3, 0));
}
