//! The end of a line that pops.

ghost use Rattle.std.specs.Prelude.{◌≡◌, ◌%◌, ◌^◌, length};
ghost use Rattle.rtrb.specs.Ring.{received};

use rtrb::{Consumer, PopError};

/// The end of a line that pops bytes. It can move to another thread.
#[derive(Drop)]
pub struct LineOut {
    pub(crate) consumer: Consumer<u8>,
    // The bytes popped, modulo 2^64.
    pub(crate) popped: usize,
    ghost counted: { popped ≡ length (received consumer) % 2 ^ 64 },
}

impl LineOut {
    ghost use Rattle.std.specs.Prelude.{◌≡◌, ◌<◌, ◌≤◌, [], length, take, drop, IsSome, IfSome, IfNone};
    ghost use Rattle.spsc_line.specs.Lines.{known_bytes, SameOut, Receives, ReceivesAll, ReceivesNothing};

    pub(crate) fn new(consumer: Consumer<u8>) -> LineOut
        requires { received consumer ≡ [] }
        ensures { result.consumer ≡ consumer }
    {
        LineOut {
            consumer,
            popped: 0,
        }
    }

    /// Pops the oldest byte, or returns `None` if the line is empty.
    ///
    /// A refused pop changes nothing. The bytes that this end has seen come first, in their order.
    pub fn pop(&mut self) -> Option<u8>
        ensures line { SameOut self.old self.new }
        ensures some { IfSome result (λ byte. Receives byte self.old self.new) }
        ensures none { IfNone result (ReceivesNothing self.old self.new × (known_bytes self.old ≡ [])) }
        ensures succeeds { 0 < length (known_bytes self.old) → IsSome result }
    {
        match self.consumer.pop() {
            Ok(byte) => {
                self.popped = self.popped.wrapping_add(1);
                Some(byte)
            }
            Err(PopError::Empty) => None,
        }
    }

    /// Pops as many of the oldest bytes as there are, up to as many as `bytes` has room for, and returns how many.
    ///
    /// They become the first ones of `bytes`, in their order, and its others stay as they are. If `bytes` has room for
    /// more, no byte of the line was seen after them.
    pub fn pop_some(&mut self, bytes: &mut [u8]) -> usize
        ensures line { SameOut self.old self.new }
        ensures within { result ≤ length bytes.old }
        ensures received { ReceivesAll (take result bytes.new) self.old self.new }
        ensures rest { drop result bytes.new ≡ drop result bytes.old }
        ensures empty { result < length bytes.old → known_bytes self.new ≡ [] }
        ensures succeeds { result < length bytes.old → length (known_bytes self.old) ≤ result }
    {
        let count = self.consumer.pop_partial_slice(bytes);
        self.popped = self.popped.wrapping_add(count);
        count
    }
}
