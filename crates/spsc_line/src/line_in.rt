//! The end of a line that pushes.

ghost use Rattle.std.specs.Prelude.{◌≡◌, ◌+◌, ◌%◌, ◌^◌, ◌≤◌, length};
ghost use Rattle.rtrb.specs.Ring.{sent, known_free, producer_capacity};

use rtrb::{Producer, PushError};

/// The end of a line that pushes bytes. It can move to another thread.
#[derive(Drop)]
pub struct LineIn {
    pub(crate) producer: Producer<u8>,
    // The bytes pushed, modulo 2^64.
    pub(crate) pushed: usize,
    ghost counted: { pushed ≡ length (sent producer) % 2 ^ 64 },
    ghost room: { producer_capacity producer ≤ known_free producer + length (sent producer) },
}

impl LineIn {
    ghost use Rattle.std.specs.Prelude.{◌≡◌, ◌+◌, ◌<◌, ◌≤◌, [], length, take, IsOk, OnOk, OnErr, IfErr};
    ghost use Rattle.spsc_line.specs.Lines.{bytes_sent, known_room, capacity_in, SameIn, Sends, SendsAll, SendsNothing};

    pub(crate) fn new(producer: Producer<u8>) -> LineIn
        requires sent { sent producer ≡ [] }
        requires room { known_free producer ≡ producer_capacity producer }
        ensures { result.producer ≡ producer }
    {
        LineIn {
            producer,
            pushed: 0,
        }
    }

    /// Pushes one byte after all others, or returns it if no place of the line is free.
    ///
    /// A refused push changes nothing. No push is refused while fewer bytes were pushed than the line has room for.
    pub fn push(&mut self, byte: u8) -> Result<(), u8>
        ensures line { SameIn self.old self.new }
        ensures ok { OnOk result (Sends byte self.old self.new) }
        ensures back { IfErr result (λ back. back ≡ byte) }
        ensures refused { OnErr result (SendsNothing self.old self.new × (known_room self.old ≡ 0)) }
        ensures succeeds { 0 < known_room self.old → IsOk result }
        ensures first { length (bytes_sent self.old) < capacity_in self.old → IsOk result }
    {
        match self.producer.push(byte) {
            Ok(()) => {
                self.pushed = self.pushed.wrapping_add(1);
                Ok(())
            }
            Err(PushError::Full(back)) => Err(back),
        }
    }

    /// Pushes as many of the first bytes as places are free, in their order after all others, and returns how many.
    ///
    /// If not all of them are pushed, no place of the line was seen free after those that were. No byte is refused
    /// while fewer bytes were pushed than the line has room for.
    pub fn push_some(&mut self, bytes: &[u8]) -> usize
        ensures line { SameIn self.old self.new }
        ensures within { result ≤ length bytes.now }
        ensures sent { SendsAll (take result bytes.now) self.old self.new }
        ensures full { result < length bytes.now → known_room self.new ≡ 0 }
        ensures succeeds { result < length bytes.now → known_room self.old ≤ result }
        ensures first { result < length bytes.now → capacity_in self.old ≤ length (bytes_sent self.old) + result }
    {
        let (pushed, _) = self.producer.push_partial_slice(bytes);
        let count = pushed.len();
        self.pushed = self.pushed.wrapping_add(count);
        count
    }
}
