//! Queues of the rooms that the tests use, and their closes.
ghost use Rattle.std.specs.Prelude.{◌≡◌, ◌<◌, ◌≤◌};
ghost use Rattle.batch_queue.specs.Handles.{room_of, view_of, IsEndOf};
ghost use Rattle.batch_queue.specs.Layout.{IsPowerOfTwo};
ghost use Rattle.batch_queue.specs.Rules.{newcomer};

use batch_queue::{BatchEnd, BatchQueue, Closed};
use std::alloc::Global;
use std::fmt::Display;
use std::process::Abort;

/// How many places a queue has.
#[derive(Clone, Copy, Drop)]
pub(crate) enum Room {
    Of1,
    Of2,
    Of4,
    Of8,
    Of16,
    Of1024,
}

impl Room {
    pub(crate) fn places(self) -> usize
        ensures { (0 < result) × (result ≤ 16_777_216) × IsPowerOfTwo result }
    {
        match self {
            Room::Of1 => 1,
            Room::Of2 => 2,
            Room::Of4 => 4,
            Room::Of8 => 8,
            Room::Of16 => 16,
            Room::Of1024 => 1_024,
        }
    }
}

/// An empty queue with its only end.
pub(crate) fn new_queue<R: Abort>(rt: &R, alloc: Global, room: Room) -> (BatchQueue, BatchEnd)
    ensures { IsEndOf result.0 result.1 × (view_of result.1 ≡ newcomer (record { room = room_of result.0 })) }
{
    let Ok(made) = BatchQueue::new(alloc, room.places()) else {
        panic!(rt; "no memory")
    };
    made
}

/// Closes the queue with its only end.
pub(crate) fn close_queue<R: Abort>(rt: &R, queue: BatchQueue, end: BatchEnd) -> Closed
    requires { IsEndOf queue end }
{
    match queue.close(end) {
        Ok(closed) => closed,
        Err(_) => panic!(rt; "close"),
    }
}

/// Returns true if a refusal is printed in these words.
pub(crate) fn is_printed<T: Copy + Display>(alloc: Global, refusal: T, words: &str) -> bool {
    format!(in alloc; "{refusal}").is_ok_and(|text| text.as_str() == words)
}
