//! The examples of the first pages of `proc_chain` and `quajects`, word for word.
ghost use Rattle.std.specs.Prelude.{◌≡◌};

use arrayvec::ArrayVec;
use claim_queue::ClaimQueue;
use proc_chain::{Chained, ProcChain, Quaject, Ran, Served};
use quajects::{Pump, Queues};
use std::test::*;

/// Adds the numbers of its notes, each with the number of the world.
#[derive(Drop)]
struct Adder {
    sum: u64,
}

impl Quaject for Adder {
    type World = u64;

    ghost made_by = { λ first adder notes. Unit {0} };

    ghost fits = { λ world adder. Unit {0} };

    fn run(&mut self, world: &u64, note: u16) -> Ran {
        self.sum = self.sum.wrapping_add(*world).wrapping_add(u64::from(note));
        Ran::Worked
    }
}

#[test]
fn notes_left_to_the_turn(rt: HostRuntime) {
    let Ok((chain, mut first)) = ProcChain::new(rt.alloc(), 0, Adder { sum: 0 }, &1) else {
        panic!(rt; "no memory")
    };
    let mut second = chain.split(&mut first);
    let turn = match chain.try_chain(&mut first, 10) {
        Ok(Chained::Run(turn)) => turn,
        Ok(Chained::Left) | Err(_) => panic!(rt; "the gate of a new chain is open"),
    };
    assert!(rt; first.has_turn());
    match chain.try_chain(&mut second, 20) {
        Ok(Chained::Left) => {}
        Ok(Chained::Run(_turn)) => panic!(rt; "the first end has the Turn"),
        Err(_) => panic!(rt; "there is room"),
    }
    let ran = match chain.serve(&mut first, &1, turn, 8) {
        Served::Done { ran } => ran,
        Served::More {
            turn: _turn,
            ran: _,
        } => panic!(rt; "there are two notes"),
    };
    assert!(rt; ran == 2);
    chain.join(&mut first, second);
    let Ok(closed) = chain.close(first) else {
        panic!(rt; "open ends")
    };
    assert!(rt; (closed.put, closed.taken, closed.quaject.sum) == (2, 2, 32));
}

#[test]
fn a_pumped_line(rt: HostRuntime) -> Result<(), Fail> {
    let (source, mut writer) = ClaimQueue::<64>::new(rt.alloc(), 0)?;
    let (target, mut reader) = ClaimQueue::<64>::new(rt.alloc(), 0)?;
    let (taker, putter) = (source.split(&mut writer), target.split(&mut reader));
    let queues = Queues {
        small: vec![in rt.alloc(); source, target]?,
        large: Vec::new(rt.alloc()),
    };
    let mut pump = Pump::new(0, taker, 1, putter);
    assert!(rt; queues.small[0].try_put(&mut writer, &[104, 105, 10]) == Ok(0));
    assert!(rt; matches!(pump.run(&queues, 0), Ran::Worked));
    let mut line = ArrayVec::new();
    assert!(rt; queues.small[1].try_take_line(&mut reader, &mut line) == Ok(3));
    assert!(rt; line.as_slice() == [104, 105, 10].as_slice());
    assert!(rt; matches!(pump.run(&queues, 0), Ran::Nothing));
    assert!(rt; (pump.notes(), pump.taken(), pump.put(), pump.held()) == (2, 3, 3, 0));
    Ok(())
}
