//! The device of a tty.
ghost use Rattle.std.specs.Prelude.{◌≡◌, false};
ghost use Rattle.spsc_line.specs.Lines.{SameOut, Receives};
ghost use Rattle.proc_chain.specs.Handles.{turn_of, world_of, IsEndOf};
ghost use Rattle.quajects.specs.Ports.{IsEndAt};
ghost use Rattle.quajects.specs.Raws.{end_of};
ghost use Rattle.boot_threads.specs.Devices.{Served};

use proc_chain::ProcChain;
use quajects::{AnyQuaject, Queues, RawTty};
use spsc_line::LineOut;
use std::sync::Wait;
use std::thread;

// Pops a byte. Retries if the line is empty.
fn next_byte<R: Wait>(rt: &R, line: &mut LineOut) -> u8
    ensures line { SameOut line.old line.new }
    ensures received { Receives result line.old line.new }
{
    for _ in rt.forever() {
        match line.pop() {
            Some(byte) => return byte,
            None => thread::yield_now(),
        }
    }
    unreachable!()
}

/// The device of a tty: pops so many bytes from the line, with retries if it is empty. It has the raw tty interrupted
/// with each byte, in their order. Each byte is put in the raw queue as a line of its own or counted as an overrun. For
/// each byte, note 0 is chained, as `RawTty::interrupt` says.
///
/// Conditions: the raw tty's end and index fit the queues. Its chain's end is an end of the chain. The queues are the
/// chain's world.
pub fn serve_device<R: Wait>(
    rt: &R,
    queues: &Queues,
    chain: &ProcChain<AnyQuaject>,
    line: LineOut,
    tty: RawTty,
    count: usize,
) -> (LineOut, RawTty)
    requires fits { IsEndAt queues.now.small.items tty.index (end_of tty) }
    requires chain { IsEndOf chain.now tty.chain }
    requires world { world_of chain.now ≡ queues.now }
    ensures line { SameOut line result.0 }
    ensures fits { (result.1.index ≡ tty.index) × IsEndAt queues.now.small.items result.1.index (end_of result.1) }
    ensures chain { IsEndOf chain.now result.1.chain }
    ensures idle { turn_of result.1.chain ≡ false }
    ensures served { Served chain.now count line tty result.0 result.1 }
{
    let mut line = line;
    let mut tty = tty;
    for _served in 0..count {
        let byte = next_byte(rt, &mut line);
        let _put = tty.interrupt(rt, queues, chain, byte);
    }
    (line, tty)
}
