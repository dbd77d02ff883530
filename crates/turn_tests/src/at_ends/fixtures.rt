//! Queues with an end of each, a pump over two of them, and a gate that keeps the points at which it is called.
ghost use Rattle.std.specs.Prelude.{◌≡◌, ◌<◌, ◌≤◌, length, true, IfOk};
ghost use Rattle.std.specs.List.{All};
ghost use Rattle.claim_queue.specs.Handles.{IsEndOf as IsQueueEndOf, view_of};
ghost use Rattle.proc_chain.specs.Handles.{IsEndOf, turn_of};
ghost use Rattle.quajects.specs.Ports.{IsEndAt, IsUnused};
ghost use Rattle.turn_io.specs.EndLists.{IsIdle, chain_table, chain_end_table};
ghost use Rattle.turn_io.specs.EndLists.{AreEndsOf, AreChainEndsOf, AreChainsOver, IsDivisible, IsChainDivisible};
ghost use Rattle.turn_io.specs.QueueEnds.{AreQueueEndsOf, IsThere};
ghost use Rattle.stations.specs.Splits.{AreQueuesDivisible, HaveRoomFor};

use boot_data::plan::QueueIndex;
use claim_queue::{ClaimQueue, ClaimRefusal, Closed, QueueEnd, TakeRefusal};
use event_theory::OutOfMemory;
use proc_chain::{ChainEnd, ChainRefusal, Chained, ProcChain, Turn};
use quajects::{AnyQuaject, Pump, Queues};
use std::alloc::Global;
use std::panic::Expect;
use std::process::Abort;
use std::sync::Wait;
use turn_io::{Gate, LineRoom, NoGate, Point, Poked, QueueEnds, poke};

pub(crate) type Chain = ProcChain<AnyQuaject>;

pub(crate) type End = ChainEnd<AnyQuaject>;

/// Two queues of one size, with an end of each.
#[derive(Drop)]
struct TwoOfASize<const N: usize> {
    queues: Vec<ClaimQueue<N>>,
    ends: Vec<QueueEnd<N>>,
    ghost fit: { AreEndsOf queues.items ends.items },
    ghost two: { length queues.items ≡ 2 },
    ghost parts: { All IsDivisible ends.items },
}

fn two_of_a_size<R: Abort, const N: usize>(rt: &R, alloc: Global) -> TwoOfASize<N>
    requires { (1 ≤ N) × (N ≤ 256) }
{
    let (first, a) = ClaimQueue::new(alloc, 0).expect(rt, "memory");
    let (second, b) = ClaimQueue::new(alloc, 0).expect(rt, "memory");
    let mut queues = Vec::new(alloc);
    queues.push(first).expect(rt, "memory");
    queues.push(second).expect(rt, "memory");
    let mut ends = Vec::new(alloc);
    ends.push(a).expect(rt, "memory");
    ends.push(b).expect(rt, "memory");
    TwoOfASize { queues, ends }
}

/// Two small queues and two large ones, with an end of each.
#[derive(Drop)]
pub(crate) struct TwoQueues {
    pub(crate) world: Queues,
    pub(crate) ends: QueueEnds,
    ghost fit: { AreQueueEndsOf world ends },
    ghost two: { (length world.small.items ≡ 2) × (length world.large.items ≡ 2) },
    ghost parts: { AreQueuesDivisible ends },
}

pub(crate) fn two_queues<R: Abort>(rt: &R, alloc: Global) -> TwoQueues {
    let small = two_of_a_size::<_, 64>(rt, alloc);
    let large = two_of_a_size::<_, 256>(rt, alloc);
    TwoQueues {
        world: Queues {
            small: small.queues,
            large: large.queues,
        },
        ends: QueueEnds {
            small: small.ends,
            large: large.ends,
        },
    }
}

/// Empty lists, with room for an end of each queue.
pub(crate) fn room_for<R: Abort>(rt: &R, alloc: Global, world: &Queues) -> QueueEnds
    ensures { HaveRoomFor world.now result }
{
    QueueEnds {
        small: Vec::with_capacity(alloc, world.small.len()).expect(rt, "memory"),
        large: Vec::with_capacity(alloc, world.large.len()).expect(rt, "memory"),
    }
}

/// A pump from the first of two small queues to the second, with an end of each queue and two of its chain.
#[derive(Drop)]
pub(crate) struct Pumped {
    pub(crate) world: Queues,
    pub(crate) ends: QueueEnds,
    pub(crate) chains: Vec<Chain>,
    pub(crate) chain_ends: Vec<End>,
    pub(crate) other: End,
    ghost fit: { AreQueueEndsOf world ends },
    ghost two: { length world.small.items ≡ 2 },
    ghost ends_divide: { All IsDivisible ends.small.items },
    ghost chains_fit: { AreChainEndsOf chains.items chain_ends.items },
    ghost one: { length chains.items ≡ 1 },
    ghost over: { AreChainsOver world chains.items },
    ghost parts: { All IsChainDivisible chain_ends.items },
    ghost other_fits: { All (λ chain. chain_end_table other ≡ chain_table chain) chains.items },
    ghost other_idle: { IsIdle other },
}

/// Two small queues with an end of each, and the ends of a pump from the first to the second.
#[derive(Drop)]
struct Piped {
    queues: Vec<ClaimQueue<64>>,
    ends: Vec<QueueEnd<64>>,
    source: QueueEnd<64>,
    target: QueueEnd<64>,
    ghost fit: { AreEndsOf queues.items ends.items },
    ghost two: { length queues.items ≡ 2 },
    ghost ends_divide: { All IsDivisible ends.items },
    ghost source_at: { IsEndAt queues.items 0 source × IsUnused (view_of source) },
    ghost target_at: { IsEndAt queues.items 1 target × IsUnused (view_of target) },
}

fn make_pipe(alloc: Global) -> Result<Piped, OutOfMemory> {
    let (first, mut source) = ClaimQueue::new(alloc, 0)?;
    let a = first.split(&mut source);
    let (second, mut target) = ClaimQueue::new(alloc, 0)?;
    let b = second.split(&mut target);
    let mut queues = Vec::new(alloc);
    queues.push(first)?;
    queues.push(second)?;
    let mut ends = Vec::new(alloc);
    ends.push(a)?;
    ends.push(b)?;
    Ok(Piped {
        queues,
        ends,
        source,
        target,
    })
}

/// The chain of a pump in a list, with two ends of it.
#[tactic(auto, using(quajects::proofs::Making::made_of_itself))]
fn chain_pump(
    alloc: Global,
    world: &Queues,
    source: QueueEnd<64>,
    target: QueueEnd<64>,
) -> Result<(Vec<Chain>, Vec<End>, End), OutOfMemory>
    requires source { IsEndAt world.now.small.items 0 source × IsUnused (view_of source) }
    requires target { IsEndAt world.now.small.items 1 target × IsUnused (view_of target) }
    ensures fit { IfOk result (λ r. AreChainEndsOf r.0.items r.1.items × (length r.0.items ≡ 1)) }
    ensures over { IfOk result (λ r. AreChainsOver world.now r.0.items) }
    ensures parts { IfOk result (λ r. All IsChainDivisible r.1.items) }
    ensures other { IfOk result (λ r. All (λ chain. chain_end_table r.2 ≡ chain_table chain) r.0.items × IsIdle r.2) }
{
    let pump = AnyQuaject::Pump(Pump::new(0, source, 1, target));
    let Ok((chain, mut end)) = Chain::new(alloc, 0, pump, world) else {
        return Err(OutOfMemory);
    };
    let other = chain.split(&mut end);
    let mut chains = Vec::new(alloc);
    chains.push(chain)?;
    let mut ends = Vec::new(alloc);
    ends.push(end)?;
    Ok((chains, ends, other))
}

pub(crate) fn make_pump(alloc: Global) -> Result<Pumped, OutOfMemory> {
    let Piped {
        queues,
        ends,
        source,
        target,
    } = make_pipe(alloc)?;
    let world = Queues {
        small: queues,
        large: Vec::new(alloc),
    };
    let ends = QueueEnds {
        small: ends,
        large: Vec::new(alloc),
    };
    let (chains, chain_ends, other) = chain_pump(alloc, &world, source, target)?;
    Ok(Pumped {
        world,
        ends,
        chains,
        chain_ends,
        other,
    })
}

/// The queue is closed with its only end.
pub(crate) fn close_queue<R: Abort>(rt: &R, queue: ClaimQueue<64>, end: QueueEnd<64>) -> Closed<64>
    requires { IsQueueEndOf queue end }
{
    match queue.close(end) {
        Ok(closed) => closed,
        Err(_) => panic!(rt; "close"),
    }
}

/// Chains the note at an end that gets the Turn for it.
pub(crate) fn turn_for<R: Abort>(rt: &R, chain: &Chain, end: &mut End, note: u16) -> Turn
    requires { IsEndOf chain.now end.old }
    ensures { IsEndOf chain.now end.new × (turn_of end.new ≡ true) }
{
    match chain.try_chain(end, note) {
        Ok(Chained::Run(turn)) => turn,
        Ok(Chained::Left) => panic!(rt; "left"),
        Err(_) => panic!(rt; "refused"),
    }
}

/// A gate that keeps the points at which it is called, in their order, while there is memory.
#[derive(Drop)]
pub(crate) struct Recorder {
    pub(crate) points: Vec<(u8, Point)>,
}

impl Recorder {
    pub(crate) fn new(alloc: Global) -> Recorder {
        Recorder {
            points: Vec::new(alloc),
        }
    }
}

impl Gate for Recorder {
    ghost observes = { λ old p point new. Unit {0} };

    fn between(&mut self, p: u8, point: Point) {
        let _short = self.points.push((p, point));
    }
}

/// Puts the items in the queue with this index, on this processor with this gate.
pub(crate) fn puts_by<G: Gate>(
    world: &Queues,
    ends: &mut QueueEnds,
    queue: QueueIndex,
    items: &[u64],
    p: u8,
    gate: &mut G,
) -> Result<(), ClaimRefusal>
    requires { AreQueueEndsOf world.now ends.old × IsThere world.now queue }
    ensures { AreQueueEndsOf world.now ends.new }
{
    ends.say(world, queue, items, p, gate)
}

/// Puts the items in the queue with this index.
pub(crate) fn puts(
    world: &Queues,
    ends: &mut QueueEnds,
    queue: QueueIndex,
    items: &[u64],
) -> Result<(), ClaimRefusal>
    requires { AreQueueEndsOf world.now ends.old × IsThere world.now queue }
    ensures { AreQueueEndsOf world.now ends.new }
{
    puts_by(world, ends, queue, items, 0, &mut NoGate)
}

/// Takes a line from the queue with this index, on this processor with this gate: the answer, and whether it has these
/// items.
pub(crate) fn takes_by<G: Gate>(
    world: &Queues,
    ends: &mut QueueEnds,
    queue: QueueIndex,
    items: &[u64],
    p: u8,
    gate: &mut G,
) -> (Result<(), TakeRefusal>, bool)
    requires { AreQueueEndsOf world.now ends.old × IsThere world.now queue }
    ensures { AreQueueEndsOf world.now ends.new }
{
    let mut room = LineRoom::new();
    let taken = ends.hear(world, queue, &mut room, p, gate);
    (taken, room.line.as_slice() == items)
}

/// Whether a line of these items is taken from the queue with this index.
pub(crate) fn takes(world: &Queues, ends: &mut QueueEnds, queue: QueueIndex, items: &[u64]) -> bool
    requires { AreQueueEndsOf world.now ends.old × IsThere world.now queue }
    ensures { AreQueueEndsOf world.now ends.new }
{
    takes_by(world, ends, queue, items, 0, &mut NoGate) == (Ok(()), true)
}

/// Shuts the queue with this index, and returns whether it was open.
pub(crate) fn shuts_it(world: &Queues, ends: &mut QueueEnds, queue: QueueIndex) -> bool
    requires { AreQueueEndsOf world.now ends.old × IsThere world.now queue }
    ensures { AreQueueEndsOf world.now ends.new }
{
    ends.shut(world, queue)
}

/// Pokes the only chain, on this processor with this gate.
pub(crate) fn pokes_by<R: Wait, G: Gate>(
    rt: &R,
    world: &Queues,
    chains: &[Chain],
    ends: &mut Vec<End>,
    p: u8,
    gate: &mut G,
) -> Result<Poked, ChainRefusal>
    requires ends { AreChainEndsOf chains.now ends.old.items × (length chains.now ≡ 1) }
    requires world { AreChainsOver world.now chains.now }
    ensures { AreChainEndsOf chains.now ends.new.items }
{
    poke(rt, world, chains, ends, 0, p, gate)
}

/// Pokes the only chain.
pub(crate) fn pokes_it<R: Wait>(
    rt: &R,
    world: &Queues,
    chains: &[Chain],
    ends: &mut Vec<End>,
) -> Result<Poked, ChainRefusal>
    requires ends { AreChainEndsOf chains.now ends.old.items × (length chains.now ≡ 1) }
    requires world { AreChainsOver world.now chains.now }
    ensures { AreChainEndsOf chains.now ends.new.items }
{
    poke(rt, world, chains, ends, 0, 0, &mut NoGate)
}

/// The answers at a point: whether 64 more items are put, whether a line is taken then, and how long it is.
pub(crate) type Seen = (
    Point,
    Result<(), ClaimRefusal>,
    Result<(), TakeRefusal>,
    usize,
);

/// As many items as a small queue has places.
pub(crate) const SIXTY_FOUR: &[u64] = &[7; 64];

/// A gate that tries at each point, at other ends of a small queue, to put as many items as it has places and then to
/// take a line. It keeps the answers, which show how far a step is when the gate is called.
#[derive(Drop)]
pub(crate) struct Watcher<'a> {
    pub(crate) world: &'a Queues,
    pub(crate) ends: QueueEnds,
    pub(crate) small: usize,
    pub(crate) seen: Vec<Seen>,
    ghost fit: { AreQueueEndsOf world.now ends },
    ghost known: { small < length world.now.small.items },
}

impl<'a> Gate for Watcher<'a> {
    ghost observes = { λ old p point new. Unit {0} };

    fn between(&mut self, _p: u8, point: Point) {
        let queue = QueueIndex::Small(self.small);
        let put = puts(self.world, &mut self.ends, queue, SIXTY_FOUR);
        let mut room = LineRoom::new();
        let ends = &mut self.ends;
        let taken = ends.hear(self.world, queue, &mut room, 0, &mut NoGate);
        let _short = self.seen.push((point, put, taken, room.line.len()));
    }
}

/// A gate that pokes the first of the chains at other ends, and keeps the answers.
#[derive(Drop)]
pub(crate) struct Poker<'a, R: Wait> {
    pub(crate) rt: &'a R,
    pub(crate) world: &'a Queues,
    pub(crate) chains: &'a [Chain],
    pub(crate) ends: Vec<End>,
    pub(crate) poked: Vec<Result<Poked, ChainRefusal>>,
    ghost fit: { AreChainEndsOf chains.now ends.items },
    ghost one: { length chains.now ≡ 1 },
    ghost over: { AreChainsOver world.now chains.now },
}

impl<'a, R: Wait> Gate for Poker<'a, R> {
    ghost observes = { λ old p point new. Unit {0} };

    fn between(&mut self, _p: u8, _point: Point) {
        let poked = pokes_it(self.rt, self.world, self.chains, &mut self.ends);
        let _short = self.poked.push(poked);
    }
}
