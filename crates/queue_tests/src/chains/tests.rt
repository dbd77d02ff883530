ghost use Rattle.std.specs.Prelude.{◌≡◌, ◌%◌, ◌^◌, true, length};
ghost use Rattle.proc_chain.specs.Handles.{turn_of, world_of, IsEndOf};

use crate::fixtures::{close_chain, is_reported};
use event_theory::OutOfMemory;
use proc_chain::*;
use std::alloc::Global;
use std::process::Abort;
use std::sync::Wait;
use std::test::*;

type Chain = ProcChain<Keeper>;

type End = ChainEnd<Keeper>;

/// A quaject that keeps its first 40 notes, and counts all.
#[derive(Drop)]
struct Keeper {
    notes: [u16; 40],
    count: u64,
}

impl Quaject for Keeper {
    type World = u16;

    ghost made_by = { λ first keeper notes. keeper.count ≡ length notes % 2 ^ 64 };

    ghost fits = { λ world keeper. Unit {0} };

    fn run(&mut self, _world: &u16, note: u16) -> Ran {
        let place = self.count as usize;
        self.count = self.count.wrapping_add(1);
        match self.notes.get_mut(place) {
            Some(kept) => {
                *kept = note;
                Ran::Worked
            }
            None => Ran::Nothing,
        }
    }
}

fn empty_keeper() -> Keeper
    ensures { result.count ≡ 0 }
{
    Keeper {
        notes: [0; 40],
        count: 0,
    }
}

/// An act of an end at a chain, and the answer to it.
enum Act {
    /// It chains the note, and has the Turn.
    Run(u16),
    /// It chains the notes, which are left to the end with the Turn.
    Left(&'static [u16]),
    /// The note is refused.
    Refused(u16, ChainRefusal),
    /// It serves up to the limit, which is used up when this many notes are run.
    More { limit: u32, ran: u32 },
    /// It serves up to the limit, and its Turn is spent when this many notes are run.
    Done { limit: u32, ran: u32 },
    /// It serves all, this many notes.
    All { ran: u64 },
}

/// The end that acts.
enum By {
    A,
    B,
}

/// The acts of the ends A and B, then A's acts with all that both had, and the notes that are run, in order.
struct Script {
    first: u32,
    acts: &'static [(By, Act)],
    joined: &'static [Act],
    notes: &'static [u16],
}

/// Chains the note, with this answer: whether it got a Turn. Returns the Turn that one of the ends has, and whether the
/// answer came.
fn chains<R: Abort>(
    rt: &R,
    chain: &Chain,
    end: &mut End,
    held: Option<Turn>,
    note: u16,
    answer: Result<bool, ChainRefusal>,
) -> (Option<Turn>, bool)
    requires { IsEndOf chain.now end.old }
    ensures { IsEndOf chain.now end.new }
{
    match chain.try_chain(end, note) {
        Ok(Chained::Run(turn)) => {
            let None = held else { panic!(rt; "two Turns") };
            (Some(turn), answer == Ok(true))
        }
        Ok(Chained::Left) => (held, answer == Ok(false)),
        Err(refusal) => (held, answer == Err(refusal)),
    }
}

/// Whether all the notes are left.
fn leaves<R: Abort>(rt: &R, chain: &Chain, end: &mut End, notes: &[u16]) -> bool
    requires { IsEndOf chain.now end.old }
    ensures { IsEndOf chain.now end.new }
{
    let mut all = true;
    for note in notes {
        match chain.try_chain(end, *note) {
            Ok(Chained::Run(_turn)) => panic!(rt; "a Turn"),
            Ok(Chained::Left) => {}
            Err(_) => all = false,
        }
    }
    all
}

/// The Turn, if the end is the one that has it.
fn own<R: Abort>(rt: &R, end: &End, held: Option<Turn>) -> Turn
    ensures { turn_of end.now ≡ true }
{
    match held {
        Some(turn) if end.has_turn() => turn,
        _ => panic!(rt; "no Turn of this end"),
    }
}

/// Serves up to the limit: the Turn that is left, and whether this many notes were run.
fn serves<R: Abort>(
    rt: &R,
    chain: &Chain,
    end: &mut End,
    world: &u16,
    held: Option<Turn>,
    limit: u32,
    number: u32,
) -> (Option<Turn>, bool)
    requires { IsEndOf chain.now end.old × (world_of chain.now ≡ world.now) }
    ensures { IsEndOf chain.now end.new }
{
    let turn = own(rt, end, held);
    match chain.serve(end, world, turn, limit) {
        Served::Done { ran } => (None, ran == number),
        Served::More { turn, ran } => (Some(turn), ran == number),
    }
}

/// One act. Returns the Turn that one of the ends has, and whether the answers came.
fn does<R: Abort + Wait>(
    rt: &R,
    chain: &Chain,
    end: &mut End,
    world: &u16,
    held: Option<Turn>,
    act: &Act,
) -> (Option<Turn>, bool)
    requires { IsEndOf chain.now end.old × (world_of chain.now ≡ world.now) }
    ensures { IsEndOf chain.now end.new }
{
    match act {
        Act::Run(note) => chains(rt, chain, end, held, *note, Ok(true)),
        Act::Left(notes) => (held, leaves(rt, chain, end, notes)),
        Act::Refused(note, refusal) => chains(rt, chain, end, held, *note, Err(*refusal)),
        Act::More { limit, ran } => {
            let (turn, so_many) = serves(rt, chain, end, world, held, *limit, *ran);
            let more = turn.is_some();
            (turn, so_many && more)
        }
        Act::Done { limit, ran } => {
            let (turn, so_many) = serves(rt, chain, end, world, held, *limit, *ran);
            let done = turn.is_none();
            (turn, so_many && done)
        }
        Act::All { ran } => {
            let turn = own(rt, end, held);
            (None, chain.serve_all(rt, end, world, turn) == *ran)
        }
    }
}

/// The acts of an end that is alone. It has the Turn that is held.
fn plays_alone<R: Abort + Wait>(
    rt: &R,
    chain: &Chain,
    end: &mut End,
    world: &u16,
    held: Option<Turn>,
    acts: &[Act],
) -> Option<Turn>
    requires { IsEndOf chain.now end.old × (world_of chain.now ≡ world.now) }
    ensures { IsEndOf chain.now end.new }
{
    let mut held = held;
    for (at, act) in acts.iter().enumerate() {
        let has = end.has_turn() == held.is_some();
        let (turn, as_said) = does(rt, chain, end, world, held, act);
        held = turn;
        assert!(rt; has && as_said, "act {at} alone");
    }
    held
}

/// One act of one of the two ends.
fn does_by<R: Abort + Wait>(
    rt: &R,
    chain: &Chain,
    a: &mut End,
    b: &mut End,
    world: &u16,
    held: Option<Turn>,
    by: &By,
    act: &Act,
) -> (Option<Turn>, bool)
    requires ends { IsEndOf chain.now a.old × IsEndOf chain.now b.old }
    requires world { world_of chain.now ≡ world.now }
    ensures { IsEndOf chain.now a.new × IsEndOf chain.now b.new }
{
    match by {
        By::A => does(rt, chain, a, world, held, act),
        By::B => does(rt, chain, b, world, held, act),
    }
}

/// The acts of two ends, of which one at the most has the Turn. Returns that Turn.
fn plays_both<R: Abort + Wait>(
    rt: &R,
    chain: &Chain,
    a: &mut End,
    b: &mut End,
    world: &u16,
    acts: &[(By, Act)],
) -> Option<Turn>
    requires ends { IsEndOf chain.now a.old × IsEndOf chain.now b.old }
    requires world { world_of chain.now ≡ world.now }
    ensures { IsEndOf chain.now a.new × IsEndOf chain.now b.new }
{
    let mut held = None;
    for (at, (by, act)) in acts.iter().enumerate() {
        let (turn, as_said) = does_by(rt, chain, a, b, world, held, by, act);
        held = turn;
        let turns = (a.has_turn() || b.has_turn(), a.has_turn() && b.has_turn());
        assert!(rt; as_said && turns == (held.is_some(), false), "act {at}");
    }
    held
}

fn plays<R: Abort + Wait>(rt: &R, alloc: Global, script: &Script) {
    let world = 3u16;
    let Ok((chain, mut a)) = Chain::new(alloc, script.first, empty_keeper(), &world) else {
        panic!(rt; "no memory")
    };
    let mut b = chain.split(&mut a);
    let held = plays_both(rt, &chain, &mut a, &mut b, &world, script.acts);
    chain.join(&mut a, b);
    let held = plays_alone(rt, &chain, &mut a, &world, held, script.joined);
    closes(rt, chain, a, held, script.notes);
}

/// Whether the chain had these notes, all of which were run, in this order.
fn had(closed: &ChainClosed<Keeper>, notes: &[u16]) -> bool {
    let number = notes.len();
    let counts = (
        closed.put as usize,
        closed.taken as usize,
        closed.left.len(),
    );
    counts == (number, number, 0)
        && closed.quaject.count == number as u64
        && closed.quaject.notes.get(..number) == Some(notes)
}

/// The chain is closed when these notes were run, and no end has a Turn.
fn closes<R: Abort>(rt: &R, chain: Chain, end: End, held: Option<Turn>, notes: &[u16])
    requires { IsEndOf chain end }
{
    match held {
        None if !end.has_turn() => {}
        _ => panic!(rt; "a Turn at the end"),
    }
    let closed = close_chain(rt, chain, end);
    assert!(rt; had(&closed, notes));
}

const TWO_ENDS: Script = Script {
    first: 0,
    acts: &[
        (By::A, Act::Run(7)),
        (By::B, Act::Left(&[1])),
        (By::B, Act::Left(&[2])),
        (By::A, Act::More { limit: 1, ran: 1 }),
        (By::A, Act::Done { limit: 10, ran: 2 }),
    ],
    joined: &[],
    notes: &[7, 1, 2],
};

const FULL_CHAIN: Script = Script {
    first: 0,
    acts: &[],
    joined: &[
        Act::Run(1_000),
        Act::Left(&[
            0, 1, 2, 3, 4, 5, 6, 7, 8, 9, 10, 11, 12, 13, 14, 15, 16, 17, 18, 19, 20, 21, 22, 23,
            24, 25, 26, 27, 28, 29, 30,
        ]),
        Act::Refused(31, ChainRefusal::Full { head: 32, tail: 0 }),
        Act::Done { limit: 40, ran: 32 },
    ],
    notes: &[
        1_000, 0, 1, 2, 3, 4, 5, 6, 7, 8, 9, 10, 11, 12, 13, 14, 15, 16, 17, 18, 19, 20, 21, 22,
        23, 24, 25, 26, 27, 28, 29, 30,
    ],
};

const LAST_POSITION: Script = Script {
    first: 4_294_967_294,
    acts: &[],
    joined: &[
        Act::Run(1),
        Act::Refused(2, ChainRefusal::Spent),
        Act::More { limit: 0, ran: 0 },
        Act::All { ran: 1 },
    ],
    notes: &[1],
};

/// If the chain is both spent and full, the answer is Spent.
const SPENT_AND_FULL: Script = Script {
    first: 4_294_967_263,
    acts: &[],
    joined: &[
        Act::Run(0),
        Act::Left(&[
            1, 2, 3, 4, 5, 6, 7, 8, 9, 10, 11, 12, 13, 14, 15, 16, 17, 18, 19, 20, 21, 22, 23, 24,
            25, 26, 27, 28, 29, 30, 31,
        ]),
        Act::Refused(32, ChainRefusal::Spent),
        Act::Done { limit: 40, ran: 32 },
    ],
    notes: &[
        0, 1, 2, 3, 4, 5, 6, 7, 8, 9, 10, 11, 12, 13, 14, 15, 16, 17, 18, 19, 20, 21, 22, 23, 24,
        25, 26, 27, 28, 29, 30, 31,
    ],
};

/// The leave that finds More uses one of the limit.
const A_NOTE_AFTER_THE_FIRST_ROUND: Script = Script {
    first: 0,
    acts: &[],
    joined: &[
        Act::Run(1),
        Act::More { limit: 1, ran: 1 },
        Act::Left(&[2]),
        Act::More { limit: 1, ran: 1 },
        Act::Done { limit: 1, ran: 0 },
        Act::Run(3),
        Act::Done { limit: 2, ran: 1 },
    ],
    notes: &[1, 2, 3],
};

/// The first end takes over the Turn of the other.
const JOINED_TURN: Script = Script {
    first: 0,
    acts: &[(By::B, Act::Run(9)), (By::A, Act::Left(&[8]))],
    joined: &[Act::Done { limit: 3, ran: 2 }],
    notes: &[9, 8],
};

#[test]
fn two_ends(rt: HostRuntime) {
    plays(&rt, rt.alloc(), &TWO_ENDS);
}

#[test]
fn full_chain(rt: HostRuntime) {
    plays(&rt, rt.alloc(), &FULL_CHAIN);
}

#[test]
fn last_position(rt: HostRuntime) {
    plays(&rt, rt.alloc(), &LAST_POSITION);
}

#[test]
fn spent_and_full(rt: HostRuntime) {
    plays(&rt, rt.alloc(), &SPENT_AND_FULL);
}

#[test]
fn a_note_after_the_first_round(rt: HostRuntime) {
    plays(&rt, rt.alloc(), &A_NOTE_AFTER_THE_FIRST_ROUND);
}

#[test]
fn joined_turn(rt: HostRuntime) {
    plays(&rt, rt.alloc(), &JOINED_TURN);
}

#[test]
fn open_ends(rt: HostRuntime) {
    let Ok((chain, mut a)) = Chain::new(rt.alloc(), 5, empty_keeper(), &3) else {
        panic!(rt; "no memory")
    };
    let b = chain.split(&mut a);
    let Err((chain, mut a, open)) = chain.close(a) else {
        panic!(rt; "open")
    };
    assert!(rt; open.others == 1);
    chain.join(&mut a, b);
    closes(&rt, chain, a, None, &[]);
}

/// If all ends are joined, the chain is closed: that no other answer comes is proved, not tried.
fn split_and_joined(alloc: Global, world: &u16) -> Result<ChainClosed<Keeper>, OutOfMemory> {
    let (chain, mut a) = match Chain::new(alloc, 7, empty_keeper(), world) {
        Ok(made) => made,
        Err((_keeper, error)) => return Err(error),
    };
    let b = chain.split(&mut a);
    let c = chain.split(&mut a);
    chain.join(&mut a, b);
    chain.join(&mut a, c);
    match chain.close(a) {
        Ok(closed) => Ok(closed),
        Err(_) => unreachable!(),
    }
}

#[test]
fn joined_ends_close(rt: HostRuntime) {
    let Ok(closed) = split_and_joined(rt.alloc(), &3) else {
        panic!(rt; "no memory")
    };
    assert!(rt; (closed.put, closed.taken, closed.left.len()) == (0, 0, 0));
}

const ONE_NOTE: [Act; 2] = [Act::Run(1), Act::Done { limit: 2, ran: 1 }];

/// If an allocation is refused, the quaject is returned, and a later try makes a chain of it.
#[test]
fn memory_may_run_out(rt: HostRuntime) {
    let world = 3u16;
    let mut made = false;
    for _ in 0..4 {
        match Chain::new(rt.alloc(), 0, empty_keeper(), &world) {
            Ok((chain, mut end)) => {
                let held = plays_alone(&rt, &chain, &mut end, &world, None, &ONE_NOTE);
                closes(&rt, chain, end, held, &[1]);
                made = true;
            }
            Err((keeper, error)) => assert!(rt; (keeper.count, error) == (0, OutOfMemory)),
        }
    }
    assert!(rt; made);
}

const REFUSAL_MESSAGES: &[(ChainRefusal, &str)] = &[
    (ChainRefusal::Spent, "no positions left"),
    (
        ChainRefusal::Full { head: 40, tail: 8 },
        "full at head 40, tail 8",
    ),
    (ChainRefusal::Lost { head: 41 }, "lost, head 41"),
];

/// Each refusal is reported in its words, with its numbers.
#[test]
fn refusals_are_reported(rt: HostRuntime) {
    for (refusal, words) in REFUSAL_MESSAGES {
        assert!(rt; is_reported(rt.alloc(), *refusal, words));
    }
    let open = OpenEnds { others: 3 };
    assert!(rt; is_reported(rt.alloc(), open, "3 other ends are not joined"));
}
