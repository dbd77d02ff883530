//! Shares of which the caller says the parts: a long chain of ends, and ends that one thread splits off for as long as
//! it likes while another joins them.
ghost use Rattle.std.specs.Prelude.{◌≡◌, ◌<◌, ◌≤◌};
ghost use Rattle.claim_queue.specs.Handles.{IsEndOf, share_of};

use crate::claims::scripts::{Act, does};
use crate::fixtures::close_queue;
use claim_queue::*;
use std::alloc::Global;
use std::panic::Expect;
use std::process::Abort;
use std::test::*;

/// A chain of 44 ends, each split off from the one before. The result is the last, to which all others were joined.
fn chained<R: Abort>(
    rt: &R,
    alloc: Global,
    queue: &ClaimQueue<4>,
    first: QueueEnd<4>,
) -> QueueEnd<4>
    requires queue { IsEndOf queue.now first }
    requires parts { 45 ≤ share_of first }
    ensures { IsEndOf queue.now result }
{
    let mut before = Vec::new(alloc);
    let mut last = first;
    for number in 0..44u64 {
        let next = queue.split_share(&mut last, 44 - number);
        before.push(last).expect(rt, "memory");
        last = next;
    }
    for _ in 0..44u64 {
        let Some(end) = before.pop() else {
            panic!(rt; "too few ends")
        };
        queue.join(&mut last, end);
    }
    last
}

/// The acceptor splits an end of one part off for each connection, and the reaper joins it. Then the reaper gives back
/// as many parts as came, so both have the shares that they had.
fn serve_all(
    queue: &ClaimQueue<4>,
    acceptor: &mut QueueEnd<4>,
    reaper: &mut QueueEnd<4>,
    connections: u64,
)
    requires queue { IsEndOf queue.now acceptor.old × IsEndOf queue.now reaper.old }
    requires parts { (0 < connections) × (connections < share_of acceptor.old) × (0 < share_of reaper.old) }
    ensures queue { IsEndOf queue.now acceptor.new × IsEndOf queue.now reaper.new }
    ensures acceptor { share_of acceptor.new ≡ share_of acceptor.old }
    ensures reaper { share_of reaper.new ≡ share_of reaper.old }
{
    for connection in 0..connections {
        let _ = connection;
        let end = queue.split_share(acceptor, 1);
        queue.join(reaper, end);
    }
    let back = queue.split_share(reaper, connections);
    queue.join(acceptor, back);
}

#[test]
fn splits_a_chain_of_forty_four_ends(rt: HostRuntime) {
    let (queue, end) = ClaimQueue::<4>::new(rt.alloc(), 0).expect(&rt, "memory");
    let mut end = chained(&rt, rt.alloc(), &queue, end);
    does(
        &rt,
        &queue,
        &mut end,
        &[Act::Put(&[1], Ok(0)), Act::Take(Ok(1))],
    );
    let closed = close_queue(&rt, queue, end);
    drop(closed);
}

/// An acceptor with two parts serves a thousand connections, one after the other, and can go on.
#[test]
fn accepts_and_reaps(rt: HostRuntime) {
    let (queue, mut reaper) = ClaimQueue::<4>::new(rt.alloc(), 0).expect(&rt, "memory");
    let mut acceptor = queue.split_share(&mut reaper, 2);
    for round in 0..1_000u64 {
        let _ = round;
        serve_all(&queue, &mut acceptor, &mut reaper, 1);
    }
    serve_all(&queue, &mut reaper, &mut acceptor, 100_000);
    queue.join(&mut reaper, acceptor);
    let closed = close_queue(&rt, queue, reaper);
    drop(closed);
}
