//! Waking those who wait at a pipe.
ghost use Rattle.std.specs.Prelude.{◌≡◌};
ghost use Rattle.thread_table.specs.Handles.{view_of, call_of, IsHandOf, IsSameHand};
ghost use Rattle.processor.specs.Pipes.{WokeFor};

use event_theory::WaitNumber;
use std::sync::Wait;
use thread_table::{Hand, ThreadTable};
use turn_dispatch::{Woken, wake};

// Wakes all who wait in a wait queue, where there is one, and returns who was woken.
pub(crate) fn wake_for<R: Wait>(
    rt: &R,
    threads: &ThreadTable,
    hand: &mut Hand,
    wait: Option<WaitNumber>,
) -> Option<Woken>
    requires { IsHandOf threads.now hand.old }
    ensures handle { IsSameHand hand.old hand.new }
    ensures woken { WokeFor (call_of hand.old) wait (view_of hand.old) result (view_of hand.new) }
{
    match wait {
        Some(wait) => Some(wake(rt, threads, hand, wait)),
        None => None,
    }
}
