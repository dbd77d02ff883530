//! The device line for C: each call is one of the library's, on the end that a handle holds.
ghost use Rattle.std.specs.Prelude.{◌≡◌, ◌≤◌, ◌<◌};
ghost use Rattle.bindings.specs.Handles.{EmptyHandle, line_in_of, line_out_of, NoneIn, LeadsTo, FreedHandle, MarksTell};
ghost use Rattle.bindings.specs.LineCalls.{MadeLine, IsPushCall, IsPushSomeCall, IsPopCall, IsPopSomeCall};
ghost use Rattle.bindings.specs.LineCalls.{FinishedLine, HaveOneMark, AreOfOneLine};

pub mod held;

use crate::answer::{
    BAD_NUMBER, DONE, EMPTY, EMPTY_HANDLE, FULL, FULL_HANDLE, NO_ITEMS, NO_MEMORY, OTHER_OBJECT,
    SHORT_BUFFER,
};
use crate::ends::free;
use crate::handle::Handle;
use crate::kind::Kind;
use crate::payload::Payload;
use held::{HeldIn, HeldOut};
use spsc_line::{finish, line};
use std::alloc::Global;

/// How many bytes went through a line.
#[repr(C)]
#[derive(Drop)]
pub struct SynthLineTotals {
    pub sent: usize,
    pub received: usize,
    pub left: usize,
}

/// A line with room for so many bytes, 1 to 65,536, and its two ends. Each line has a mark of its own.
#[unsafe(no_mangle)]
pub extern "C" fn synth_raw_line_new_marked(
    alloc: Global,
    room: usize,
    mark: u64,
    input: &mut Handle,
    output: &mut Handle,
) -> i32
    ensures { MadeLine room mark input.old input.new output.old output.new result }
{
    if input.is_full() {
        return FULL_HANDLE;
    }
    if output.is_full() {
        return FULL_HANDLE;
    }
    if room == 0 || room > 65_536 {
        return BAD_NUMBER;
    }
    let Ok((first, second)) = line(alloc, room) else {
        return NO_MEMORY;
    };
    let Ok(first) = Box::new(alloc, Payload::LineIn(HeldIn { line: first, mark })) else {
        return NO_MEMORY;
    };
    let Ok(second) = Box::new(alloc, Payload::LineOut(HeldOut { line: second, mark })) else {
        return NO_MEMORY;
    };
    input.put(first);
    output.put(second);
    DONE
}

/// `LineIn::push`.
#[unsafe(no_mangle)]
pub extern "C" fn synth_raw_line_push(input: &mut Handle, byte: u8) -> i32
    ensures empty { NoneIn line_in_of input.old input.new (result ≡ EmptyHandle) }
    ensures pushed { LeadsTo line_in_of input.old input.new (λ x y. IsPushCall x byte y result) }
{
    let Some(held) = input.find::<HeldIn>() else {
        return EMPTY_HANDLE;
    };
    let answer = held.line.push(byte);
    match answer {
        Ok(()) => DONE,
        Err(_) => FULL,
    }
}

/// `LineIn::push_some`. The count is 1 or more.
#[unsafe(no_mangle)]
pub extern "C" fn synth_raw_line_push_some(
    input: &mut Handle,
    bytes: &[u8],
    count: &mut usize,
) -> i32
    ensures empty { NoneIn line_in_of input.old input.new ((result ≡ EmptyHandle) × (count.new ≡ count.old)) }
    ensures pushed { LeadsTo line_in_of input.old input.new
        (λ x y. IsPushSomeCall x bytes.now count.old count.new y result) }
{
    let Some(held) = input.find::<HeldIn>() else {
        return EMPTY_HANDLE;
    };
    let given = bytes.len();
    if given == 0 {
        return NO_ITEMS;
    }
    let pushed = held.line.push_some(bytes);
    if pushed == 0 {
        return FULL;
    }
    *count = pushed;
    DONE
}

/// `LineOut::pop`.
#[unsafe(no_mangle)]
pub extern "C" fn synth_raw_line_pop(output: &mut Handle, byte: &mut u8) -> i32
    ensures empty { NoneIn line_out_of output.old output.new ((result ≡ EmptyHandle) × (byte.new ≡ byte.old)) }
    ensures popped { LeadsTo line_out_of output.old output.new (λ x y. IsPopCall x byte.old byte.new y result) }
{
    let Some(held) = output.find::<HeldOut>() else {
        return EMPTY_HANDLE;
    };
    let answer = held.line.pop();
    match answer {
        Some(popped) => {
            *byte = popped;
            DONE
        }
        None => EMPTY,
    }
}

/// `LineOut::pop_some`. The count is 1 or more.
#[unsafe(no_mangle)]
pub extern "C" fn synth_raw_line_pop_some(
    output: &mut Handle,
    bytes: &mut [u8],
    count: &mut usize,
) -> i32
    ensures empty { NoneIn line_out_of output.old output.new
        ((result ≡ EmptyHandle) × (bytes.new ≡ bytes.old) × (count.new ≡ count.old)) }
    ensures popped { LeadsTo line_out_of output.old output.new
        (λ x y. IsPopSomeCall x bytes.old bytes.new count.old count.new y result) }
{
    let Some(held) = output.find::<HeldOut>() else {
        return EMPTY_HANDLE;
    };
    let room = bytes.len();
    if room == 0 {
        return SHORT_BUFFER;
    }
    let popped = held.line.pop_some(bytes);
    if popped == 0 {
        return EMPTY;
    }
    *count = popped;
    DONE
}

/// `finish`. Both handles are then empty.
#[unsafe(no_mangle)]
pub extern "C" fn synth_raw_line_finish(
    alloc: Global,
    input: &mut Handle,
    output: &mut Handle,
    totals: &mut SynthLineTotals,
) -> i32
    requires { MarksTell HaveOneMark AreOfOneLine (line_in_of input.old) (line_out_of output.old) }
    ensures { FinishedLine input.old input.new output.old output.new totals.old totals.new result }
{
    let Some(first) = input.find::<HeldIn>() else {
        return EMPTY_HANDLE;
    };
    let Some(second) = output.find::<HeldOut>() else {
        return EMPTY_HANDLE;
    };
    if first.mark != second.mark {
        return OTHER_OBJECT;
    }
    let first = HeldIn::unwrap(Box::into_inner(input.take(alloc)));
    let second = HeldOut::unwrap(Box::into_inner(output.take(alloc)));
    let reported = finish(first.line, second.line);
    *totals = SynthLineTotals {
        sent: reported.sent,
        received: reported.received,
        left: reported.left,
    };
    DONE
}

/// Frees the end that pushes. The other goes on.
#[unsafe(no_mangle)]
pub extern "C" fn synth_raw_line_free_in(alloc: Global, input: &mut Handle) -> i32
    ensures { FreedHandle line_in_of input.old input.new result }
{
    free::<HeldIn>(alloc, input)
}

/// Frees the end that pops. The other goes on.
#[unsafe(no_mangle)]
pub extern "C" fn synth_raw_line_free_out(alloc: Global, output: &mut Handle) -> i32
    ensures { FreedHandle line_out_of output.old output.new result }
{
    free::<HeldOut>(alloc, output)
}
