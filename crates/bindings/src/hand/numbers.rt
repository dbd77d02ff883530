//! Elements, wait queues and signals by the numbers that C gives.
ghost use Rattle.std.specs.Prelude.{◌≡◌, ◌≤◌, ◌<◌, MatchOption};

use event_theory::{Element, Signal, WaitNumber};

/// The element of this number, or None if there is none.
pub fn element_of(number: u32) -> Option<Element>
    ensures { MatchOption result (64 ≤ number) (λ element. (element ≡ number) × (number < 64)) }
{
    if number >= 64 {
        return None;
    }
    Element::new(number as u8)
}

/// The wait queue of this number, or None if there is none.
pub fn wait_of(number: u32) -> Option<WaitNumber>
    ensures { MatchOption result (16 ≤ number) (λ wait. (wait ≡ number) × (number < 16)) }
{
    if number >= 16 {
        return None;
    }
    WaitNumber::new(number as u8)
}

/// The signal of this number, or None if there is none.
pub fn signal_of(number: u32) -> Option<Signal>
    ensures { MatchOption result (16 ≤ number) (λ signal. (signal ≡ number) × (number < 16)) }
{
    if number >= 16 {
        return None;
    }
    Signal::new(number as u8)
}
