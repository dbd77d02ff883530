ghost use Rattle.quajects.specs.Ports.{IsEndAt};
ghost use Rattle.quajects.specs.Pumps.{Fits};

use crate::movers::fixtures::{Pair, puts_at, takes_at, two_small};
use arrayvec::ArrayVec;
use claim_queue::QueueEnd;
use proc_chain::{Quaject, Ran};
use quajects::*;
use std::alloc::Global;
use std::process::Abort;
use std::test::*;

/// An act at a pump and its two queues.
enum Act {
    /// The items are put in its source, or in its target.
    Put(&'static [u64]),
    Fill(&'static [u64]),
    /// A line of these items is taken from its target.
    Take(&'static [u64]),
    /// A note is run, and works or not.
    Note(bool),
    /// The pump has run this many notes, has taken and put this many items, and holds this many.
    Is(u64, u64, u64, usize),
}

/// A note works exactly if there is a line.
const WITH_AND_WITHOUT_A_LINE: &[Act] = &[
    Act::Note(false),
    Act::Is(1, 0, 0, 0),
    Act::Put(&[104, 105, 10]),
    Act::Note(true),
    Act::Is(2, 3, 3, 0),
    Act::Note(false),
    Act::Is(3, 3, 3, 0),
    Act::Take(&[104, 105, 10]),
];

/// A line goes from the source to the target at its note, and the next note finds nothing.
const A_LINE: &[Act] = &[
    Act::Put(&[104, 105, 10]),
    Act::Note(true),
    Act::Is(1, 3, 3, 0),
    Act::Note(false),
    Act::Is(2, 3, 3, 0),
    Act::Take(&[104, 105, 10]),
];

/// Items that fill a small queue.
const FULL: &[u64] = &[7; 64];

/// A line that finds the target full is held, and goes first at a later note; the line after it stays in the source
/// until then.
const HELD_UNTIL_THERE_IS_ROOM: &[Act] = &[
    Act::Fill(FULL),
    Act::Put(&[104, 105, 10]),
    Act::Put(&[33, 10]),
    Act::Note(true),
    Act::Is(1, 3, 0, 3),
    Act::Note(false),
    Act::Is(2, 3, 0, 3),
    Act::Take(FULL),
    Act::Note(true),
    Act::Is(3, 3, 3, 0),
    Act::Note(true),
    Act::Is(4, 5, 5, 0),
    Act::Note(false),
    Act::Is(5, 5, 5, 0),
    Act::Take(&[104, 105, 10]),
    Act::Take(&[33, 10]),
];

fn runs(queues: &Queues, pump: &mut Pump) -> bool
    requires { Fits queues.now pump.old }
    ensures { Fits queues.now pump.new }
{
    matches!(pump.run(queues, 0), Ran::Worked)
}

/// The numbers of a pump: its notes, its items taken and put, and those that it holds.
fn numbers(pump: &Pump) -> (u64, u64, u64, usize) {
    (pump.notes(), pump.taken(), pump.put(), pump.held())
}

/// The acts of the ends of the queues and of the pump, in this order.
fn does<R: Abort>(
    rt: &R,
    queues: &Queues,
    ends: (QueueEnd<64>, QueueEnd<64>),
    pump: Pump,
    acts: &[Act],
)
    requires source { IsEndAt queues.now.small.items 0 ends.0 }
    requires target { IsEndAt queues.now.small.items 1 ends.1 }
    requires pump { Fits queues.now pump }
{
    let (mut writer, mut reader) = ends;
    let mut pump = pump;
    let small = queues.small.as_slice();
    let mut line = ArrayVec::new();
    for (at, act) in acts.iter().enumerate() {
        let as_said = match act {
            Act::Put(items) => puts_at(small, 0, &mut writer, items),
            Act::Fill(items) => puts_at(small, 1, &mut reader, items),
            Act::Take(items) => takes_at(small, 1, &mut reader, &mut line, items),
            Act::Note(works) => runs(queues, &mut pump) == *works,
            Act::Is(notes, taken, put, held) => { numbers(&pump) == (*notes, *taken, *put, *held) }
        };
        assert!(rt; as_said, "act {at}");
    }
}

/// A pump from the first of two small queues to the second does this.
fn plays<R: Abort>(rt: &R, alloc: Global, acts: &[Act]) {
    let Pair { queues, ends } = two_small(rt, alloc);
    let (from, to) = ends;
    let pump = Pump::new(0, from.mine, 1, to.mine);
    does(rt, &queues, (from.other, to.other), pump, acts);
}

#[test]
fn works_with_a_line(rt: HostRuntime) {
    plays(&rt, rt.alloc(), WITH_AND_WITHOUT_A_LINE);
}

#[test]
fn moves_a_line(rt: HostRuntime) {
    plays(&rt, rt.alloc(), A_LINE);
}

#[test]
fn held_until_there_is_room(rt: HostRuntime) {
    plays(&rt, rt.alloc(), HELD_UNTIL_THERE_IS_ROOM);
}
