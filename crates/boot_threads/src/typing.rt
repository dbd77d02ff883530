//! Bytes that are typed into a line.
ghost use Rattle.std.specs.Prelude.{◌≡◌, ◌≤◌, ◌++◌, ◌∷◌, [], length, vec_len, vec_capacity};
ghost use Rattle.spsc_line.specs.Lines.{bytes_sent, SameIn};
ghost use Rattle.boot_threads.specs.Typings.{IsTyped, AreTyped};

use boot_data::plan::PlannedTty;
use spsc_line::LineIn;
use std::sync::Wait;
use std::thread;

// Pushes a byte. Retries if no place of the line is free.
fn push_byte<R: Wait>(rt: &R, line: &mut LineIn, byte: u8)
    ensures line { SameIn line.old line.new }
    ensures sent { bytes_sent line.new ≡ bytes_sent line.old ++ byte ∷ [] }
{
    for _ in rt.forever() {
        match line.push(byte) {
            Ok(()) => return,
            Err(_) => thread::yield_now(),
        }
    }
}

/// Pushes these bytes in their order, each with retries if no place of the line is free.
pub fn type_bytes<R: Wait>(rt: &R, line: LineIn, bytes: &[u8]) -> LineIn
    ensures line { SameIn line result }
    ensures sent { bytes_sent result ≡ bytes_sent line ++ bytes.now }
{
    let mut line = line;
    for byte in bytes {
        push_byte(rt, &mut line, *byte);
    }
    line
}

// Types the bytes of a tty into its line, if its device was started.
fn type_line<R: Wait, H, N>(rt: &R, device: &Result<H, N>, line: LineIn, tty: &PlannedTty) -> LineIn
    ensures { IsTyped device.now tty.now line result }
{
    match device {
        Ok(_) => type_bytes(rt, line, tty.typed.as_slice()),
        Err(_) => line,
    }
}

/// Types the bytes of each tty into its line, one tty after the other. Each byte is retried if no place of the line is
/// free. Nothing is typed if the tty's device was not started. The lines come back in `typed`, which is empty and has
/// room for them, so it takes no memory.
///
/// Conditions: there is a device and a line for each tty, in their order.
pub fn type_all<R: Wait, H, N>(
    rt: &R,
    ttys: &[PlannedTty],
    devices: &[Result<H, N>],
    lines: Vec<LineIn>,
    typed: Vec<LineIn>,
) -> Vec<LineIn>
    requires lines { vec_len lines ≡ length ttys.now }
    requires devices { length devices.now ≡ length ttys.now }
    requires room { (typed.items ≡ []) × (vec_len lines ≤ vec_capacity typed) }
    ensures { AreTyped ttys.now devices.now lines.items result.items }
{
    let mut typed = typed;
    let mut t = 0usize;
    for line in lines {
        typed.push_reserved(type_line(rt, &devices[t], line, &ttys[t]));
        t += 1;
    }
    typed
}
