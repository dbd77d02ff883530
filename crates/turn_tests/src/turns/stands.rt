//! The objects that the processors of a plan share, and a first station, over queues and chains that a test makes.
ghost use Rattle.std.specs.Prelude.{◌≡◌, ◌≤◌, [], length, IfOk};
ghost use Rattle.std.specs.List.{All};
ghost use Rattle.thread_table.specs.Handles.{view_of, IsHandOf, IsSameHand, IsDivisible as IsHandDivisible};
ghost use Rattle.meters.specs.Handles.{IsSeatOf, IsSameSeat, IsDivisible as IsSeatDivisible};
ghost use Rattle.turn_dispatch.specs.Holdings.{IsFree};
ghost use Rattle.turn_io.specs.EndLists.{AreEndsOf, AreChainEndsOf, AreChainsOver, IsDivisible};
ghost use Rattle.processor.specs.Manning.{IsRunnable};
ghost use Rattle.processor.specs.Programs.{hear_count, longest_line};
ghost use Rattle.processor.specs.Stations.{ArePartsOf};

use super::*;
use meters::Alarm;
use proc_chain::{ChainEnd, ProcChain};
use quajects::AnyQuaject;
use turn_dispatch::make_ready;
use turn_io::QueueEnds;

/// Takes this many free elements, and makes each ready.
fn ready_first<R: Wait>(rt: &R, threads: &ThreadTable, hand: &mut Hand, count: usize)
    requires { IsHandOf threads.now hand.old }
    ensures { IsSameHand hand.old hand.new }
{
    for _ in 0..count {
        if let Ok(element) = threads.try_free(hand) {
            if hand.holds(element) {
                make_ready(rt, threads, hand, element);
            }
        }
    }
}

/// Sets these alarms, in their order.
fn set_all(meters: &Meters, seat: &mut MeterSeat, alarms: &[Alarm])
    requires { IsSeatOf meters.now seat.old }
    ensures { IsSameSeat seat.old seat.new }
{
    for alarm in alarms {
        let _set = meters.try_set(seat, *alarm);
    }
}

/// The hand serves the processor, which has no element.
pub(super) fn must_be_free<R: Abort>(rt: &R, hand: &Hand, p: Processor)
    ensures { IsFree p (view_of hand.now) }
{
    if !hand.serves(p) {
        panic!(rt; "not served");
    }
    if hand.on_processor(p).is_some() {
        panic!(rt; "busy");
    }
}

/// Small queues and chains, with an end of each.
#[derive(Drop)]
pub(super) struct Ways {
    pub(super) queues: Queues,
    pub(super) small: Vec<QueueEnd<64>>,
    pub(super) large: Vec<QueueEnd<256>>,
    pub(super) chains: Vec<ProcChain<AnyQuaject>>,
    pub(super) ends: Vec<ChainEnd<AnyQuaject>>,
    ghost small_fit: { AreEndsOf queues.small.items small.items },
    ghost large_fit: { AreEndsOf queues.large.items large.items },
    ghost no_large: { length queues.large.items ≡ 0 },
    ghost chains_fit: { AreChainEndsOf chains.items ends.items },
    ghost over: { AreChainsOver queues chains.items },
}

/// This many queues of 64 places at 0, and the only end of each.
fn fresh_queues(
    alloc: Global,
    count: usize,
) -> Result<(Queues, Vec<QueueEnd<64>>, Vec<QueueEnd<256>>), OutOfMemory>
    ensures none { IfOk result (λ r. length r.0.large.items ≡ 0) }
    ensures small { IfOk result (λ r. AreEndsOf r.0.small.items r.1.items × All IsDivisible r.1.items) }
    ensures large { IfOk result (λ r. AreEndsOf r.0.large.items r.2.items × All IsDivisible r.2.items) }
{
    let (queues, small, large) = Queues::new(alloc, count, 0)?;
    Ok((queues, small, large))
}

/// This many queues of 64 places at 0, the only end of each, and no chain.
pub(super) fn make_queues(alloc: Global, count: usize) -> Result<Ways, OutOfMemory>
    ensures small { IfOk result (λ w. All IsDivisible w.small.items) }
    ensures large { IfOk result (λ w. All IsDivisible w.large.items) }
    ensures no_chain { IfOk result (λ w. w.ends.items ≡ []) }
{
    let (queues, small, large) = fresh_queues(alloc, count)?;
    Ok(Ways {
        queues,
        small,
        large,
        chains: Vec::new(alloc),
        ends: Vec::new(alloc),
    })
}

/// The plan has this many queues, this many pumps and switches, and no tty.
fn must_have<R: Abort>(rt: &R, plan: &BootPlan, queues: usize, movers: usize)
    ensures { (length plan.now.queues ≡ queues) × (length plan.now.ttys ≡ 0) × (length plan.now.movers ≡ movers) }
{
    if plan.queues.as_slice().len() != queues {
        panic!(rt; "queues");
    }
    if !plan.ttys.as_slice().is_empty() {
        panic!(rt; "a tty");
    }
    if plan.movers.as_slice().len() != movers {
        panic!(rt; "pumps and switches");
    }
}

/// The ends of a processor: a hand, an end of each queue and chain, and a seat.
#[derive(Drop)]
struct Ends {
    hand: Hand,
    small: Vec<QueueEnd<64>>,
    large: Vec<QueueEnd<256>>,
    chains: Vec<ChainEnd<AnyQuaject>>,
    seat: MeterSeat,
}

/// The station of a processor, which has heard nothing. If memory is refused, all ends are returned, and the call is
/// retried once.
fn station_of(alloc: Global, shared: &Shared, ends: Ends) -> Result<Station, OutOfMemory>
    ensures hand { IfOk result (λ s. s.parts.hand ≡ ends.hand) }
    ensures small { IfOk result (λ s. s.parts.queues.small ≡ ends.small) }
    ensures large { IfOk result (λ s. s.parts.queues.large ≡ ends.large) }
    ensures chains { IfOk result (λ s. s.parts.chains ≡ ends.chains) }
    ensures seat { IfOk result (λ s. s.parts.meters ≡ ends.seat) }
    ensures heard { IfOk result (λ s. s.parts.heard.lines ≡ []) }
    ensures room { IfOk result (λ s. hear_count shared.now.plan ≤ s.parts.heard.room) }
    ensures longest { IfOk result (λ s. longest_line shared.now.plan ≤ s.parts.heard.longest) }
{
    let Ends {
        hand,
        small,
        large,
        chains,
        seat,
    } = ends;
    let refused = match Station::new(alloc, shared, hand, small, large, chains, seat) {
        Ok(station) => return Ok(station),
        Err((parts, _error)) => parts,
    };
    let Parts {
        hand,
        queues: QueueEnds { small, large },
        chains,
        meters: seat,
        heard: _,
        signals: _,
    } = refused;
    match Station::new(alloc, shared, hand, small, large, chains, seat) {
        Ok(station) => Ok(station),
        Err((_parts, error)) => Err(error),
    }
}

/// A thread table and meters, with the only end of each.
#[derive(Drop)]
struct Tables {
    threads: ThreadTable,
    hand: Hand,
    meters: Meters,
    seat: MeterSeat,
    ghost hand_fits: { IsHandOf threads hand },
    ghost hand_divides: { IsHandDivisible hand },
    ghost seat_fits: { IsSeatOf meters seat },
    ghost seat_divides: { IsSeatDivisible seat },
}

/// The tables of a plan with nothing done: the element queues begin at this position, and the clock at this tick.
fn make_tables(alloc: Global, begin: (u32, u32)) -> Result<Tables, OutOfMemory>
    requires { begin.0 ≤ 4294967231 }
{
    let (threads, hand) = ThreadTable::new_at(alloc, begin.0)?;
    let (meters, seat) = Meters::new(alloc, begin.1)?;
    Ok(Tables {
        threads,
        hand,
        meters,
        seat,
    })
}

/// The objects that the processors of a plan without ttys share, over these queues and chains, with the element queues
/// at this position and the clock at this tick; and a first station, with nothing done.
pub(super) fn first_station<R: Abort>(
    rt: &R,
    alloc: Global,
    plan: BootPlan,
    begin: (u32, u32),
    ways: Ways,
) -> Result<(Shared, Station), OutOfMemory>
    requires low { begin.0 ≤ 4294967231 }
    ensures parts { IfOk result (λ r. ArePartsOf r.0 r.1.parts) }
    ensures chains { IfOk result (λ r. r.0.chains ≡ ways.chains) }
    ensures small { IfOk result (λ r. r.1.parts.queues.small ≡ ways.small) }
    ensures large { IfOk result (λ r. r.1.parts.queues.large ≡ ways.large) }
    ensures chain_ends { IfOk result (λ r. r.1.parts.chains ≡ ways.ends) }
    ensures hand { IfOk result (λ r. IsHandDivisible r.1.parts.hand) }
    ensures seat { IfOk result (λ r. IsSeatDivisible r.1.parts.meters) }
    ensures heard { IfOk result (λ r. r.1.parts.heard.lines ≡ []) }
    ensures room { IfOk result (λ r. hear_count r.0.plan ≤ r.1.parts.heard.room) }
    ensures longest { IfOk result (λ r. longest_line r.0.plan ≤ r.1.parts.heard.longest) }
{
    must_have(rt, &plan, ways.queues.small.len(), ways.chains.len());
    let Tables {
        threads,
        hand,
        meters,
        seat,
    } = make_tables(alloc, begin)?;
    let Ways {
        queues,
        small,
        large,
        chains,
        ends: chain_ends,
    } = ways;
    let shared = Shared {
        queues,
        chains,
        threads,
        meters,
        plan,
    };
    let ends = Ends {
        hand,
        small,
        large,
        chains: chain_ends,
        seat,
    };
    let station = station_of(alloc, &shared, ends)?;
    Ok((shared, station))
}

/// A station that has heard nothing, for this processor, once an element is ready for each thread of the plan, and the
/// alarms are set.
#[tactic(auto, using(processor::proofs::Rooming::room_new))]
pub(super) fn readied<R: Abort + Wait>(
    rt: &R,
    shared: &Shared,
    station: Station,
    p: Processor,
) -> Station
    requires parts { ArePartsOf shared.now station.parts }
    requires heard { station.parts.heard.lines ≡ [] }
    requires room { hear_count shared.now.plan ≤ station.parts.heard.room }
    requires longest { longest_line shared.now.plan ≤ station.parts.heard.longest }
    ensures { IsRunnable shared.now p result.parts }
{
    let mut parts = station.into_parts();
    let count = shared.plan.threads.as_slice().len();
    ready_first(rt, &shared.threads, &mut parts.hand, count);
    must_be_free(rt, &parts.hand, p);
    set_all(
        &shared.meters,
        &mut parts.meters,
        shared.plan.alarms.as_slice(),
    );
    Station::from_parts(parts)
}

/// The objects that the processors of a plan without ttys, pumps and switches share, and the station of this one.
pub(super) fn stand<R: Abort + Wait>(
    rt: &R,
    alloc: Global,
    plan: BootPlan,
    p: Processor,
) -> Result<(Shared, Station), OutOfMemory>
    ensures { IfOk result (λ r. IsRunnable r.0 p r.1.parts) }
{
    let ways = make_queues(alloc, plan.queues.as_slice().len())?;
    let (shared, station) = first_station(rt, alloc, plan, (0, 0), ways)?;
    let station = readied(rt, &shared, station, p);
    Ok((shared, station))
}
