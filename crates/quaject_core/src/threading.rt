//! A thread element as the machine stores it.

ghost use Rattle.std.specs.Prelude.{◌≡◌, [], ◌∷◌, map, IfOk};
ghost use Rattle.std.specs.List.{repeat};
ghost use Rattle.event_theory.specs.Elements.{new_thread};
ghost use Rattle.event_theory.specs.Numbers.{u32_max};
ghost use Rattle.quaject_core.specs.ShownThreads.{thread};

use event_theory::{OutOfMemory, Signal};
use std::alloc::Global;

/// The signals that are pending, how many steps are done, the stop bit, and whether the element is in its stop cell.
#[derive(Clone, Copy)]
pub(crate) struct StoredThread {
    pending: [bool; 16],
    done: u32,
    stop: bool,
    parked: bool,
}

impl StoredThread {
    ghost use Rattle.std.specs.Prelude.{◌+◌, ◌<◌, true, false};
    ghost use Rattle.event_theory.specs.Chains.{with_number};
    ghost use Rattle.event_theory.specs.Statuses.{bits_from};

    pub(crate) fn new() -> StoredThread
        ensures { thread result ≡ new_thread }
    {
        StoredThread {
            pending: [false; 16],
            done: 0,
            stop: false,
            parked: false,
        }
    }

    /// How many steps are done.
    pub(crate) fn done(&self) -> u32
        ensures { result ≡ (thread self.now).done }
    {
        self.done
    }

    pub(crate) fn is_stopping(&self) -> bool
        ensures { result ≡ (thread self.now).stop }
    {
        self.stop
    }

    pub(crate) fn is_parked(&self) -> bool
        ensures { result ≡ (thread self.now).parked }
    {
        self.parked
    }

    /// The number that has a bit for each signal that is pending.
    pub(crate) fn pending(&self) -> u16
        ensures { result ≡ bits_from 16 0 (thread self.now).pending }
    {
        let mut bits: u16 = 0;
        for signal in (0..16).rev() {
            bits = 2 * bits + u16::from(self.pending[signal]);
        }
        bits
    }

    pub(crate) fn stop(&mut self)
        ensures { thread self.new ≡ record (thread self.old) { stop = true } }
    {
        self.stop = true;
    }

    pub(crate) fn park(&mut self)
        ensures { thread self.new ≡ record (thread self.old) { parked = true } }
    {
        self.parked = true;
    }

    pub(crate) fn start(&mut self)
        ensures { thread self.new ≡ record (thread self.old) { stop = false; parked = false } }
    {
        self.stop = false;
        self.parked = false;
    }

    pub(crate) fn signal(&mut self, signal: Signal)
        ensures { thread self.new
            ≡ record (thread self.old) { pending = with_number true signal (thread self.old).pending } }
    {
        self.pending[usize::from(signal.number())] = true;
    }

    /// Clears all pending signals.
    pub(crate) fn deliver(&mut self)
        ensures { thread self.new ≡ record (thread self.old) { pending = λ signal. false } }
    {
        self.pending = [false; 16];
    }

    /// Counts one more step.
    pub(crate) fn step(&mut self)
        requires { (thread self.old).done < u32_max }
        ensures { thread self.new ≡ record (thread self.old) { done = (thread self.old).done + 1 } }
    {
        self.done += 1;
    }
}

/// `count` new elements, with nothing done.
pub(crate) fn new_threads(alloc: Global, count: u8) -> Result<Vec<StoredThread>, OutOfMemory>
    ensures { IfOk result (λ threads. map thread threads.items ≡ repeat count (new_thread ∷ [])) }
{
    let mut threads = Vec::new(alloc);
    for _ in 0..count {
        threads.push(StoredThread::new())?;
    }
    Ok(threads)
}
