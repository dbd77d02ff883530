//! The devices of two ports, each in a thread of its own.
ghost use Rattle.std.specs.Prelude.{◌≡◌, ◌+◌, ◌≤◌, [], ◌∷◌, length, IfOk};
ghost use Rattle.std.specs.Thread.{IsSync};
ghost use Rattle.proc_chain.specs.Handles.{view_of};
ghost use Rattle.serial.specs.Notes.{notes_for};
ghost use Rattle.serial.specs.Sent.{HasSent, IsIdle, Sends};
ghost use Rattle.serial.specs.Texts.{text_of, collected};

use crate::collector::{Collector, Page, SECOND_PORT};
use event_theory::OutOfMemory;
use proc_chain::{ChainClosed, ChainEnd, Chained, ProcChain};
use std::alloc::Global;
use std::sync::Wait;
use std::thread;
use std::thread::Threads;

type Chain = ProcChain<Collector>;

type End = ChainEnd<Collector>;

/// Chains one note, and runs all notes if it got the Turn. Retries if the other port chained first, or if the chain is
/// full.
fn interrupt<R: Wait>(rt: &R, chain: &Chain, end: &mut End, note: u16)
    requires { IsIdle chain.now end.old }
    ensures chain { IsIdle chain.now end.new }
    ensures sent { HasSent (note ∷ []) (view_of end.old) (view_of end.new) }
{
    for _ in rt.forever() {
        match chain.try_chain(end, note) {
            Ok(Chained::Run(turn)) => {
                let _ran = chain.serve_all(rt, end, &(), turn);
                return;
            }
            Ok(Chained::Left) => return,
            Err(_) => thread::yield_now(),
        }
    }
}

/// The device of the port whose notes begin at `port`: chains a note for each byte.
fn send<R: Wait>(rt: &R, chain: &Chain, end: End, port: u16, bytes: &[u8]) -> End
    requires chain { IsIdle chain.now end }
    requires port { port ≤ 256 }
    ensures { Sends chain.now (notes_for port bytes.now) end result }
{
    let mut end = end;
    for byte in bytes {
        interrupt(rt, chain, &mut end, port + *byte as u16);
    }
    end
}

/// Collects the lines that two ports send. When all bytes are sent the chain is closed: no note is left. Each port's
/// page is the result of its bytes on a blank page, in their order.
///
/// A chain takes 4,294,967,295 notes. With more bytes the devices wait forever.
pub fn collect<R: Threads + Wait + Sync>(
    rt: &R,
    alloc: Global,
    first: &[u8],
    second: &[u8],
) -> Result<ChainClosed<Collector>, OutOfMemory>
    ensures chained { IfOk result (λ c. (c.put ≡ length first.now + length second.now) × (c.taken ≡ c.put)
        × (c.left.items ≡ [])) }
    ensures collected { IfOk result (λ c. (text_of c.quaject.first ≡ collected first.now)
        × (text_of c.quaject.second ≡ collected second.now)) }
{
    let collector = Collector {
        first: Page::new(),
        second: Page::new(),
    };
    let (chain, mut one) = match Chain::new(alloc, 0, collector, &()) {
        Ok(made) => made,
        Err((_, refused)) => return Err(refused),
    };
    let other = chain.split(&mut one);
    let shared = &chain;
    let back = thread::join(
        rt,
        move || -> End
            requires { IsSync R.row × IsIdle shared.now one }
            ensures { Sends shared.entry.now (notes_for 0 first.entry.now) one result }
        { send(rt, shared, one, 0, first) },
        move || -> End
            requires { IsSync R.row × IsIdle shared.now other }
            ensures { Sends shared.entry.now (notes_for 256 second.entry.now) other result }
        { send(rt, shared, other, SECOND_PORT, second) },
    );
    let (mut one, other) = back;
    chain.join(&mut one, other);
    match chain.close(one) {
        Ok(closed) => Ok(closed),
        Err(_) => unreachable!(),
    }
}
