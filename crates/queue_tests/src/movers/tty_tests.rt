ghost use Rattle.std.specs.Prelude.{◌≡◌};
ghost use Rattle.proc_chain.specs.Handles.{world_of, IsEndOf};
ghost use Rattle.quajects.specs.Ports.{IsEndAt};
ghost use Rattle.quajects.specs.Raws.{end_of};
ghost use Rattle.quajects.specs.Terminals.{Fits};

use crate::movers::fixtures::{Chain, Typing, join_tty, puts_at, takes_at, tty_queues};
use arrayvec::ArrayVec;
use claim_queue::QueueEnd;
use proc_chain::{Quaject, Ran};
use quajects::*;
use std::process::Abort;
use std::sync::Wait;
use std::test::*;

/// An act at a cooked tty and its queues.
enum Act {
    /// The items are typed in the raw queue.
    Type(&'static [u64]),
    /// The items are put in the line queue, or in the screen queue.
    PutLine(&'static [u64]),
    PutScreen(&'static [u64]),
    /// A line of these items is taken there.
    TakeLine(&'static [u64]),
    TakeScreen(&'static [u64]),
    /// A note is run, and works or not.
    Note(bool),
    /// The tty has taken and put this many items, and holds this many.
    Is(u64, u64, usize),
}

/// Items that fill a line queue or a screen queue.
const FULL: &[u64] = &[7; 256];

/// A full line queue, and then a full screen queue: the cooked line is held, goes to the line queue at a later note,
/// and then to the screen queue, once each. The line after it follows.
const HELD_UNTIL_THERE_IS_ROOM: &[Act] = &[
    Act::PutLine(FULL),
    Act::Type(&[120, 10]),
    Act::Type(&[121, 10]),
    Act::Note(true),
    Act::Note(false),
    Act::Is(2, 0, 2),
    Act::TakeLine(FULL),
    Act::PutScreen(FULL),
    Act::Note(true),
    Act::Note(false),
    Act::Is(2, 2, 2),
    Act::TakeScreen(FULL),
    Act::Note(true),
    Act::Is(2, 4, 0),
    Act::Note(true),
    Act::Is(4, 8, 0),
    Act::Note(false),
    Act::TakeLine(&[120, 10]),
    Act::TakeLine(&[121, 10]),
    Act::TakeScreen(&[120, 10]),
    Act::TakeScreen(&[121, 10]),
];

fn runs(queues: &Queues, tty: &mut CookedTty) -> bool
    requires { Fits queues.now tty.old }
    ensures { Fits queues.now tty.new }
{
    matches!(tty.run(queues, 0), Ran::Worked)
}

/// The acts of the ends of the queues and of the tty, in this order.
fn does<R: Abort>(
    rt: &R,
    queues: &Queues,
    ends: (QueueEnd<64>, QueueEnd<256>, QueueEnd<256>),
    tty: CookedTty,
    acts: &[Act],
)
    requires raw { IsEndAt queues.now.small.items 0 ends.0 }
    requires line { IsEndAt queues.now.large.items 0 ends.1 }
    requires screen { IsEndAt queues.now.large.items 1 ends.2 }
    requires tty { Fits queues.now tty }
{
    let (mut writer, mut reader, mut viewer) = ends;
    let mut tty = tty;
    let (small, large) = (queues.small.as_slice(), queues.large.as_slice());
    let mut line = ArrayVec::new();
    for (at, act) in acts.iter().enumerate() {
        let as_said = match act {
            Act::Type(items) => puts_at(small, 0, &mut writer, items),
            Act::PutLine(items) => puts_at(large, 0, &mut reader, items),
            Act::PutScreen(items) => puts_at(large, 1, &mut viewer, items),
            Act::TakeLine(items) => takes_at(large, 0, &mut reader, &mut line, items),
            Act::TakeScreen(items) => takes_at(large, 1, &mut viewer, &mut line, items),
            Act::Note(works) => runs(queues, &mut tty) == *works,
            Act::Is(taken, put, held) => {
                (tty.taken(), tty.put(), tty.held()) == (*taken, *put, *held)
            }
        };
        assert!(rt; as_said, "act {at}");
    }
}

#[test]
fn held_until_there_is_room(rt: HostRuntime) {
    let Typing {
        queues,
        raw,
        line,
        screen,
    } = tty_queues(&rt, rt.alloc());
    let tty = CookedTty::new(0, raw.mine, 0, line.mine, 1, screen.mine);
    let ends = (raw.other, line.other, screen.other);
    does(&rt, &queues, ends, tty, HELD_UNTIL_THERE_IS_ROOM);
}

/// Types the bytes, each of which has to be put.
fn type_all<R: Abort + Wait>(
    rt: &R,
    queues: &Queues,
    chain: &Chain,
    tty: RawTty,
    bytes: &[u8],
) -> RawTty
    requires fits { IsEndAt queues.now.small.items tty.index (end_of tty) }
    requires chain { IsEndOf chain.now tty.chain }
    requires world { world_of chain.now ≡ queues.now }
    ensures { IsEndOf chain.now result.chain }
{
    let mut tty = tty;
    for byte in bytes {
        assert!(rt; tty.interrupt(rt, queues, chain, *byte));
    }
    tty
}

/// A byte is put before the note for it is served: the fifth note finds the fifth byte, which ends the line, and the
/// line is cooked, put and shown.
#[test]
#[tactic(auto, using(quajects::proofs::Making::made_of_itself))]
fn a_byte_is_put_before_its_note_is_served(rt: HostRuntime) {
    let Typing {
        queues,
        raw,
        line,
        screen,
    } = tty_queues(&rt, rt.alloc());
    let (mut reader, mut viewer) = (line.other, screen.other);
    let cooked = CookedTty::new(0, raw.mine, 0, line.mine, 1, screen.mine);
    let Ok((chain, mut end)) = Chain::new(rt.alloc(), 0, AnyQuaject::Cooked(cooked), &queues) else {
        panic!(rt; "no memory")
    };
    let tty = RawTty::new(0, raw.other, chain.split(&mut end));
    let tty = type_all(&rt, &queues, &chain, tty, b"ab\x7Fc\n");
    let large = queues.large.as_slice();
    let mut heard = ArrayVec::new();
    assert!(rt; takes_at(large, 0, &mut reader, &mut heard, &[97, 99, 10]));
    assert!(rt; takes_at(large, 1, &mut viewer, &mut heard, &[97, 99, 10]));
    assert!(rt; tty.overruns() == 0);
    join_tty(&chain, &mut end, tty);
    let Ok(home) = retire(chain, end) else {
        panic!(rt; "close")
    };
    let ((small, large), came) = home.take_apart();
    assert!(rt; (came.chained(), came.left(), came.notes()) == (5, 0, 5));
    assert!(rt; (came.taken(), came.put(), came.held()) == (5, 6, 0));
    for (at, port) in small.iter().enumerate() {
        assert!(rt; port.is_some() == (at < 1));
    }
    let [Some(line), Some(screen)] = large else {
        panic!(rt; "a line and a screen")
    };
    assert!(rt; (line.index(), screen.index()) == (0, 1));
}
