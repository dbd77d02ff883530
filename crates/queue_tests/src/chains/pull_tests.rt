//! Notes that are pulled one by one: the caller reads each note, and does what it is for, before it pulls the next one.
ghost use Rattle.std.specs.Prelude.{◌≡◌};

use proc_chain::{Chained, ProcChain, Quaject, Ran, Served};
use std::test::*;

/// The note that was run last.
#[derive(Clone, Copy, Drop)]
struct Inbox {
    last: u16,
}

impl Quaject for Inbox {
    type World = u64;

    ghost made_by = { λ first inbox notes. Unit {0} };

    ghost fits = { λ world inbox. Unit {0} };

    fn run(&mut self, _world: &u64, note: u16) -> Ran {
        self.last = note;
        Ran::Worked
    }
}

/// Three notes of two ends are pulled by the end with the Turn, in order. It has the Turn until it finds none.
#[test]
fn notes_are_pulled_one_by_one(rt: HostRuntime) {
    let Ok((chain, mut first)) = ProcChain::new(rt.alloc(), 0, Inbox { last: 0 }, &0) else {
        panic!(rt; "no memory")
    };
    let mut second = chain.split(&mut first);
    let mut turn = match chain.try_chain(&mut first, 10) {
        Ok(Chained::Run(turn)) => turn,
        Ok(Chained::Left) | Err(_) => panic!(rt; "the gate of a new chain is open"),
    };
    match chain.try_chain(&mut second, 20) {
        Ok(Chained::Left) => {}
        Ok(Chained::Run(_turn)) => panic!(rt; "the first end has the Turn"),
        Err(_) => panic!(rt; "there is room"),
    }
    match chain.try_chain(&mut second, 30) {
        Ok(Chained::Left) => {}
        Ok(Chained::Run(_turn)) => panic!(rt; "the first end has the Turn"),
        Err(_) => panic!(rt; "there is room"),
    }
    turn = match chain.serve(&mut first, &0, turn, 1) {
        Served::More { turn, ran: 1 } => turn,
        Served::More {
            turn: _turn,
            ran: _,
        } => panic!(rt; "a note is there"),
        Served::Done { ran: _ } => panic!(rt; "the Turn is kept after a note"),
    };
    assert!(rt; chain.quaject(&mut first).last == 10);
    turn = match chain.serve(&mut first, &0, turn, 1) {
        Served::More { turn, ran: 1 } => turn,
        Served::More {
            turn: _turn,
            ran: _,
        } => panic!(rt; "a note is there"),
        Served::Done { ran: _ } => panic!(rt; "the Turn is kept after a note"),
    };
    assert!(rt; chain.quaject(&mut first).last == 20);
    turn = match chain.serve(&mut first, &0, turn, 1) {
        Served::More { turn, ran: 1 } => turn,
        Served::More {
            turn: _turn,
            ran: _,
        } => panic!(rt; "a note is there"),
        Served::Done { ran: _ } => panic!(rt; "the Turn is kept after a note"),
    };
    assert!(rt; chain.quaject(&mut first).last == 30);
    match chain.serve(&mut first, &0, turn, 2) {
        Served::Done { ran } => assert!(rt; ran == 0),
        Served::More {
            turn: _turn,
            ran: _,
        } => panic!(rt; "no note is left"),
    }
    chain.join(&mut first, second);
    let Ok(closed) = chain.close(first) else {
        panic!(rt; "open ends")
    };
    assert!(rt; (closed.put, closed.taken, closed.quaject.last) == (3, 3, 30));
}
