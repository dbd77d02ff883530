//! A line of bytes from one thread to another, such as a device's: a queue of one producer and one consumer (Lamport;
//! Massalin and Pu 1991).
//!
//! ```rust
//! let (mut input, mut output) = line(rt.alloc(), 2)?;
//! assert!(rt; output.pop() == None);
//! assert!(rt; input.push(1) == Ok(()));
//! assert!(rt; input.push(2) == Ok(()));
//! assert!(rt; input.push(3) == Err(3));
//! assert!(rt; output.pop() == Some(1));
//! let totals = LineTotals {
//!     sent: 2,
//!     received: 1,
//!     left: 1,
//! };
//! assert!(rt; finish(input, output) == totals);
//! ```
//!
//! Each end moves an index of its own, takes no lock and never waits for the other. A push into a full line gives the
//! byte back, and a pop of an empty one gives None. The ring under it is `rtrb`'s, and the ends count what went
//! through.
#![tactic(auto)]

ghost use Rattle.std.specs.Prelude.{◌≡◌, ◌+◌, ◌<◌, ◌≤◌, ◌%◌, ◌^◌, ◌++◌, length, IfOk};
ghost use Rattle.spsc_line.specs.Lines.{bytes_sent, bytes_received, bytes_left, capacity_in};
ghost use Rattle.spsc_line.specs.Lines.{IsLine, IsNewIn, IsNewOut};

mod line_in;
mod line_out;
mod memory;

pub use line_in::LineIn;
pub use line_out::LineOut;
pub use memory::OutOfMemory;
use rtrb::RingBuffer;
use std::alloc::Global;

/// The most bytes that a line may have room for.
pub const MOST_BYTES: usize = 65_536;

/// How many bytes went through a line.
#[derive(Clone, Copy, Debug, PartialEq, Eq)]
pub struct LineTotals {
    /// The bytes pushed, modulo 2^64.
    pub sent: usize,
    /// The bytes popped, modulo 2^64.
    pub received: usize,
    /// The bytes pushed and not popped.
    pub left: usize,
}

/// Makes a line with room for `cap` bytes, 1 to 65,536, and gives its two ends.
///
/// `OutOfMemory` is returned only if an allocation was refused.
pub fn line(alloc: Global, cap: usize) -> Result<(LineIn, LineOut), OutOfMemory>
    requires some { 0 < cap }
    requires most { cap ≤ MOST_BYTES }
    ensures pair { IfOk result (λ ends. IsLine ends.0 ends.1) }
    ensures input { IfOk result (λ ends. IsNewIn cap ends.0) }
    ensures output { IfOk result (λ ends. IsNewOut cap ends.1) }
{
    let (producer, consumer) = RingBuffer::new(alloc, cap)?;
    Ok((LineIn::new(producer), LineOut::new(consumer)))
}

/// Ends a line whose ends are in one thread again, and returns how many bytes were sent, received and left.
///
/// The bytes received, followed by the bytes left, are the bytes sent. The bytes left are freed with the line.
pub fn finish(input: LineIn, output: LineOut) -> LineTotals
    requires { IsLine input output }
    ensures whole { bytes_received output ++ bytes_left input output ≡ bytes_sent input }
    ensures sent { result.sent ≡ length (bytes_sent input) % 2 ^ 64 }
    ensures received { result.received ≡ length (bytes_received output) % 2 ^ 64 }
    ensures left { result.left ≡ length (bytes_left input output) }
    ensures counts { result.sent ≡ (result.received + result.left) % 2 ^ 64 }
    ensures within { result.left ≤ capacity_in input }
{
    let LineIn {
        mut producer,
        pushed,
    } = input;
    let LineOut {
        mut consumer,
        popped,
    } = output;
    let left = consumer.slots_beside(&mut producer);
    LineTotals {
        sent: pushed,
        received: popped,
        left,
    }
}

#[cfg(test)]
mod tests;
