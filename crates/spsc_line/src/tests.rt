//! A line in one thread, and one between two.

ghost use Rattle.spsc_line.specs.Lines.{SameIn, SameOut};

use super::*;
use std::sync::Wait;
use std::test::Fail;
use std::thread;
use std::thread::Threads;

#[test]
fn a_line_of_two(rt: HostRuntime) -> Result<(), Fail> {
    let (mut input, mut output) = line(rt.alloc(), 2)?;
    assert!(rt; output.pop() == None);
    assert!(rt; input.push(1) == Ok(()));
    assert!(rt; input.push(2) == Ok(()));
    assert!(rt; input.push(3) == Err(3));
    assert!(rt; output.pop() == Some(1));
    let totals = LineTotals {
        sent: 2,
        received: 1,
        left: 1,
    };
    assert!(rt; finish(input, output) == totals);
    Ok(())
}

/// A place whose byte was popped takes a byte again, and an end that finds nothing finds what is pushed later.
#[test]
fn places_come_back(rt: HostRuntime) -> Result<(), Fail> {
    let (mut input, mut output) = line(rt.alloc(), 1)?;
    for byte in 0..=255u8 {
        assert!(rt; output.pop() == None);
        assert!(rt; input.push(byte) == Ok(()));
        assert!(rt; input.push(byte) == Err(byte));
        assert!(rt; output.pop() == Some(byte));
    }
    let totals = LineTotals {
        sent: 256,
        received: 256,
        left: 0,
    };
    assert!(rt; finish(input, output) == totals);
    Ok(())
}

/// The longest line takes as many bytes as it may have, and no more.
#[test]
fn the_longest_line(rt: HostRuntime) -> Result<(), Fail> {
    let (mut input, output) = line(rt.alloc(), MOST_BYTES)?;
    for _ in 0..65_536 {
        assert!(rt; input.push(7) == Ok(()));
    }
    assert!(rt; input.push(8) == Err(8));
    let totals = LineTotals {
        sent: 65_536,
        received: 0,
        left: 65_536,
    };
    assert!(rt; finish(input, output) == totals);
    Ok(())
}

/// Runs of bytes go through a line of four: as many as fit, in their order, also round its end.
#[test]
fn runs_of_bytes(rt: HostRuntime) -> Result<(), Fail> {
    let (mut input, mut output) = line(rt.alloc(), 4)?;
    let mut three = [9u8; 3];
    assert!(rt; output.pop_some(&mut three) == 0);
    assert!(rt; three == [9, 9, 9]);
    assert!(rt; input.push_some(&[]) == 0);
    assert!(rt; input.push_some(&[1, 2, 3]) == 3);
    assert!(rt; input.push_some(&[4, 5, 6]) == 1);
    assert!(rt; input.push_some(&[5, 6]) == 0);
    assert!(rt; input.push(5) == Err(5));
    assert!(rt; output.pop_some(&mut []) == 0);
    assert!(rt; output.pop_some(&mut three) == 3);
    assert!(rt; three == [1, 2, 3]);
    assert!(rt; input.push_some(&[5, 6, 7, 8]) == 3);
    assert!(rt; output.pop_some(&mut three) == 3);
    assert!(rt; three == [4, 5, 6]);
    assert!(rt; output.pop_some(&mut three) == 1);
    assert!(rt; three == [7, 5, 6]);
    let totals = LineTotals {
        sent: 7,
        received: 7,
        left: 0,
    };
    assert!(rt; finish(input, output) == totals);
    Ok(())
}

/// Runs and single bytes go through the same line, and are counted together.
#[test]
fn runs_beside_single_bytes(rt: HostRuntime) -> Result<(), Fail> {
    let (mut input, mut output) = line(rt.alloc(), 8)?;
    let mut two = [0u8; 2];
    assert!(rt; input.push(1) == Ok(()));
    assert!(rt; input.push_some(&[2, 3, 4]) == 3);
    assert!(rt; output.pop() == Some(1));
    assert!(rt; output.pop_some(&mut two) == 2);
    assert!(rt; two == [2, 3]);
    let totals = LineTotals {
        sent: 4,
        received: 3,
        left: 1,
    };
    assert!(rt; finish(input, output) == totals);
    Ok(())
}

/// If an allocation is refused, there is no line, and a later try makes one.
#[test]
fn memory_may_run_out(rt: HostRuntime) {
    let mut made = false;
    for _ in 0..3 {
        match line(rt.alloc(), 4) {
            Ok((input, output)) => {
                let totals = LineTotals {
                    sent: 0,
                    received: 0,
                    left: 0,
                };
                assert!(rt; finish(input, output) == totals);
                made = true;
            }
            Err(error) => assert!(rt; error == OutOfMemory),
        }
    }
    assert!(rt; made);
}

#[test]
fn the_error_is_reported(rt: HostRuntime) -> Result<(), Fail> {
    assert!(rt; format!(in rt.alloc(); "{OutOfMemory}")?.as_str() == "no memory");
    Ok(())
}

/// The byte that is passed at an index.
fn byte_at(index: u32) -> u8 {
    (index % 251) as u8
}

/// Pushes so many bytes, and waits while there is no room.
fn push_all(rt: &impl Wait, input: LineIn, count: u32) -> LineIn
    ensures { SameIn input result }
{
    let mut input = input;
    let mut next = 0;
    for _ in rt.forever() {
        if next >= count {
            break;
        }
        match input.push(byte_at(next)) {
            Ok(()) => next += 1,
            Err(_) => thread::yield_now(),
        }
    }
    input
}

/// Pops so many bytes, waits while there is none, and returns whether all were in order.
fn pop_all(rt: &impl Wait, output: LineOut, count: u32) -> (LineOut, bool)
    ensures { SameOut output result.0 }
{
    let mut output = output;
    let mut next = 0;
    let mut ordered = true;
    for _ in rt.forever() {
        if next >= count {
            break;
        }
        match output.pop() {
            Some(byte) => {
                ordered &= byte == byte_at(next);
                next += 1;
            }
            None => thread::yield_now(),
        }
    }
    (output, ordered)
}

/// Passes so many bytes from one thread to another.
fn pass_all<R: Threads + Wait + Sync>(
    rt: &R,
    alloc: Global,
    count: u32,
) -> Result<(LineTotals, bool), OutOfMemory> {
    let (input, output) = line(alloc, 64)?;
    let (input, (output, ordered)) = thread::join(
        rt,
        move || -> LineIn
            ensures { SameIn input result }
        { push_all(rt, input, count) },
        move || -> (LineOut, bool)
            ensures { SameOut output result.0 }
        { pop_all(rt, output, count) },
    );
    Ok((finish(input, output), ordered))
}

#[test]
fn bytes_pass_in_order(rt: HostRuntime) -> Result<(), Fail> {
    let totals = LineTotals {
        sent: 100_000,
        received: 100_000,
        left: 0,
    };
    assert!(rt; pass_all(&rt, rt.alloc(), 100_000)? == (totals, true));
    Ok(())
}
