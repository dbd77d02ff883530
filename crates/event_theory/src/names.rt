//! The names of calls, queues, chains, elements and their like: numbers within a range.

ghost use Rattle.std.specs.Prelude.{◌≡◌, ℕ, ◌<◌, ◌↔◌, IsSome, IfSome};

use std::marker::Model;

/// A call: the name of one end, hand or seat, `c0` to `c63`. Contracts see its number.
#[derive(Clone, Copy, Debug, PartialEq, Eq)]
pub struct Call {
    number: u8,
}

impl Model for Call {
    ghost Value = { ℕ };

    ghost view = { λ call. call.number };

    ghost invariant = { λ call. call.number < 64 };

    ghost inverse = { λ n. record { number = n } };
}

impl Call {
    /// The call of this number, if there is one.
    pub fn new(number: u8) -> Option<Self>
        ensures known { IsSome result ↔ (number < 64) }
        ensures value { IfSome result (λ call. call ≡ number) }
    {
        if number < 64 {
            Some(Call { number })
        } else {
            None
        }
    }

    /// The call's number.
    pub fn number(self) -> u8
        ensures value { result ≡ self }
        ensures within { result < 64 }
    {
        self.number
    }
}

/// The number of a byte queue, `q0` to `q7`. Contracts see it as a number.
#[derive(Clone, Copy, Debug, PartialEq, Eq)]
pub struct QueueNumber {
    number: u8,
}

impl Model for QueueNumber {
    ghost Value = { ℕ };

    ghost view = { λ queue. queue.number };

    ghost invariant = { λ queue. queue.number < 8 };

    ghost inverse = { λ n. record { number = n } };
}

impl QueueNumber {
    /// The queue of this number, if there can be one.
    pub fn new(number: u8) -> Option<Self>
        ensures known { IsSome result ↔ (number < 8) }
        ensures value { IfSome result (λ queue. queue ≡ number) }
    {
        if number < 8 {
            Some(QueueNumber { number })
        } else {
            None
        }
    }

    /// The queue's number.
    pub fn number(self) -> u8
        ensures value { result ≡ self }
        ensures within { result < 8 }
    {
        self.number
    }
}

/// The number of a chain, `k0` to `k7`. Contracts see it as a number.
#[derive(Clone, Copy, Debug, PartialEq, Eq)]
pub struct ChainNumber {
    number: u8,
}

impl Model for ChainNumber {
    ghost Value = { ℕ };

    ghost view = { λ chain. chain.number };

    ghost invariant = { λ chain. chain.number < 8 };

    ghost inverse = { λ n. record { number = n } };
}

impl ChainNumber {
    /// The chain of this number, if there can be one.
    pub fn new(number: u8) -> Option<Self>
        ensures known { IsSome result ↔ (number < 8) }
        ensures value { IfSome result (λ chain. chain ≡ number) }
    {
        if number < 8 {
            Some(ChainNumber { number })
        } else {
            None
        }
    }

    /// The chain's number.
    pub fn number(self) -> u8
        ensures value { result ≡ self }
        ensures within { result < 8 }
    {
        self.number
    }
}

/// The number of a wait queue, `w0` to `w15`. Contracts see it as a number.
#[derive(Clone, Copy, Debug, PartialEq, Eq)]
pub struct WaitNumber {
    number: u8,
}

impl Model for WaitNumber {
    ghost Value = { ℕ };

    ghost view = { λ wait. wait.number };

    ghost invariant = { λ wait. wait.number < 16 };

    ghost inverse = { λ n. record { number = n } };
}

impl WaitNumber {
    /// The wait queue of this number, if there is one.
    pub fn new(number: u8) -> Option<Self>
        ensures known { IsSome result ↔ (number < 16) }
        ensures value { IfSome result (λ wait. wait ≡ number) }
    {
        if number < 16 {
            Some(WaitNumber { number })
        } else {
            None
        }
    }

    /// The wait queue's number.
    pub fn number(self) -> u8
        ensures value { result ≡ self }
        ensures within { result < 16 }
    {
        self.number
    }
}

/// A processor, `p0` to `p7`. Contracts see its number.
#[derive(Clone, Copy, Debug, PartialEq, Eq)]
pub struct Processor {
    number: u8,
}

impl Model for Processor {
    ghost Value = { ℕ };

    ghost view = { λ processor. processor.number };

    ghost invariant = { λ processor. processor.number < 8 };

    ghost inverse = { λ n. record { number = n } };
}

impl Processor {
    /// The processor of this number, if there is one.
    pub fn new(number: u8) -> Option<Self>
        ensures known { IsSome result ↔ (number < 8) }
        ensures value { IfSome result (λ processor. processor ≡ number) }
    {
        if number < 8 {
            Some(Processor { number })
        } else {
            None
        }
    }

    /// The processor's number.
    pub fn number(self) -> u8
        ensures value { result ≡ self }
        ensures within { result < 8 }
    {
        self.number
    }
}

/// A thread element, `e0` to `e63`. Contracts see its number.
#[derive(Clone, Copy, Debug, Default, PartialEq, Eq)]
pub struct Element {
    number: u8,
}

impl Model for Element {
    ghost Value = { ℕ };

    ghost view = { λ element. element.number };

    ghost invariant = { λ element. element.number < 64 };

    ghost inverse = { λ n. record { number = n } };
}

impl Element {
    /// The element of this number, if there can be one.
    pub fn new(number: u8) -> Option<Self>
        ensures known { IsSome result ↔ (number < 64) }
        ensures value { IfSome result (λ element. element ≡ number) }
    {
        if number < 64 {
            Some(Element { number })
        } else {
            None
        }
    }

    /// The element's number.
    pub fn number(self) -> u8
        ensures value { result ≡ self }
        ensures within { result < 64 }
    {
        self.number
    }
}

/// A signal, 0 to 15. Contracts see its number.
#[derive(Clone, Copy, Debug, Default, PartialEq, Eq)]
pub struct Signal {
    number: u8,
}

impl Model for Signal {
    ghost Value = { ℕ };

    ghost view = { λ signal. signal.number };

    ghost invariant = { λ signal. signal.number < 16 };

    ghost inverse = { λ n. record { number = n } };
}

impl Signal {
    /// The signal of this number, if there is one.
    pub fn new(number: u8) -> Option<Self>
        ensures known { IsSome result ↔ (number < 16) }
        ensures value { IfSome result (λ signal. signal ≡ number) }
    {
        if number < 16 {
            Some(Signal { number })
        } else {
            None
        }
    }

    /// The signal's number.
    pub fn number(self) -> u8
        ensures value { result ≡ self }
        ensures within { result < 16 }
    {
        self.number
    }
}

/// A gauge, `g0` to `g7`. Contracts see its number.
#[derive(Clone, Copy, Debug, PartialEq, Eq)]
pub struct Gauge {
    number: u8,
}

impl Model for Gauge {
    ghost Value = { ℕ };

    ghost view = { λ gauge. gauge.number };

    ghost invariant = { λ gauge. gauge.number < 8 };

    ghost inverse = { λ n. record { number = n } };
}

impl Gauge {
    /// The gauge of this number, if there is one.
    pub fn new(number: u8) -> Option<Self>
        ensures known { IsSome result ↔ (number < 8) }
        ensures value { IfSome result (λ gauge. gauge ≡ number) }
    {
        if number < 8 {
            Some(Gauge { number })
        } else {
            None
        }
    }

    /// The gauge's number.
    pub fn number(self) -> u8
        ensures value { result ≡ self }
        ensures within { result < 8 }
    {
        self.number
    }
}

/// A slot of an alarm, 0 to 15. Contracts see its number.
#[derive(Clone, Copy, Debug, PartialEq, Eq)]
pub struct Slot {
    number: u8,
}

impl Model for Slot {
    ghost Value = { ℕ };

    ghost view = { λ slot. slot.number };

    ghost invariant = { λ slot. slot.number < 16 };

    ghost inverse = { λ n. record { number = n } };
}

impl Slot {
    /// The slot of this number, if there is one.
    pub fn new(number: u8) -> Option<Self>
        ensures known { IsSome result ↔ (number < 16) }
        ensures value { IfSome result (λ slot. slot ≡ number) }
    {
        if number < 16 {
            Some(Slot { number })
        } else {
            None
        }
    }

    /// The slot's number.
    pub fn number(self) -> u8
        ensures value { result ≡ self }
        ensures within { result < 16 }
    {
        self.number
    }
}

/// The name of a queue that claims, raises and takings go to.
#[derive(Clone, Copy, Debug, PartialEq, Eq)]
pub enum QueueName {
    /// A byte queue.
    Bytes(QueueNumber),
    /// The notes of a chain.
    Notes(ChainNumber),
    /// A wait queue.
    Wait(WaitNumber),
    /// The ready ring.
    Ready,
    /// The free elements.
    Free,
}
