//! The calls of a gate, and what others find at each call.
ghost use Rattle.std.specs.Prelude.{◌≡◌};
ghost use Rattle.thread_table.specs.Handles.{IsHandOf};
ghost use Rattle.meters.specs.Handles.{IsSeatOf};
ghost use Rattle.processor.specs.Manning.{IsRunnable};

use super::partings::stand_two;
use super::*;
use event_theory::Element;
use meters::{AdvanceRefusal, Alarm};
use processor::{TurnGate, TurnOutcome};
use std::test::*;
use thread_table::NextRefusal;
use turn_dispatch::make_ready;
use turn_io::{Gate, Point};

/// A gate that keeps the points at which it is called, in their order, while there is memory.
#[derive(Drop)]
struct Recorder {
    points: Vec<(u8, Point)>,
}

impl Gate for Recorder {
    ghost observes = { λ old p point new. Unit {0} };

    fn between(&mut self, p: u8, point: Point) {
        let _short = self.points.push((p, point));
    }
}

impl TurnGate for Recorder {
    fn turned(
        &mut self,
        _p: u8,
        _advanced: Option<Result<u32, AdvanceRefusal>>,
        _fired: &[Alarm],
        _outcome: TurnOutcome,
        _line: &[u64],
    ) {}
}

/// The gate is called for each turn, with its number, between the parts of a say, and after the try of a hear. It is
/// also called for a turn with no thread at hand.
#[test]
fn turns_are_reported(rt: HostRuntime) {
    let plan = parse_boot(rt.alloc(), SAID).expect(&rt, "script");
    let p = processor(&rt, 5);
    let Ok((shared, station)) = stand(&rt, rt.alloc(), plan, p) else {
        panic!(rt; "memory")
    };
    let mut gate = Recorder {
        points: Vec::new(rt.alloc()),
    };
    let station = run(&rt, &shared, station, p, 3, &mut gate);
    let points = [
        (5, Point::Turn(0)),
        (5, Point::Claimed),
        (5, Point::Raised),
        (5, Point::Turn(1)),
        (5, Point::TakeAnswered),
        (5, Point::Turn(2)),
    ];
    assert!(rt; gate.points.as_slice() == points.as_slice());
    let ended = close_all(&rt, shared, station.into_parts());
    check_states(&rt, &ended, &[at(Place::Free, 2)]);
}

/// The hand of a station whose other parts aren't used any more.
fn hand_of(station: Station) -> Hand
    ensures { result ≡ station.parts.hand }
{
    station.into_parts().hand
}

/// The seat of a station whose other parts aren't used any more.
fn seat_of(station: Station) -> MeterSeat
    ensures { result ≡ station.parts.meters }
{
    station.into_parts().meters
}

/// A gate that takes the first ready element at each point, with another hand, and makes it ready again. It keeps the
/// answers, while there is memory.
#[derive(Drop)]
struct Taker<'r, 's, R: Wait> {
    rt: &'r R,
    threads: &'s ThreadTable,
    hand: Hand,
    taken: Vec<(Point, Result<Element, NextRefusal>)>,
    ghost fits: { IsHandOf threads.now hand },
}

impl<'r, 's, R: Wait> Gate for Taker<'r, 's, R> {
    ghost observes = { λ old p point new. Unit {0} };

    fn between(&mut self, _p: u8, point: Point) {
        let taken = self.threads.try_next(&mut self.hand);
        if let Ok(element) = taken {
            if self.hand.holds(element) {
                make_ready(self.rt, self.threads, &mut self.hand, element);
            }
        }
        let _short = self.taken.push((point, taken));
    }
}

impl<'r, 's, R: Wait> TurnGate for Taker<'r, 's, R> {
    fn turned(
        &mut self,
        _p: u8,
        _advanced: Option<Result<u32, AdvanceRefusal>>,
        _fired: &[Alarm],
        _outcome: TurnOutcome,
        _line: &[u64],
    ) {}
}

/// What a taker finds with this hand, at each point of three turns of the processor. Neither the objects nor the
/// station are used any more.
fn take_in_turns<R: Wait>(
    rt: &R,
    alloc: Global,
    shared: Shared,
    station: Station,
    p: Processor,
    hand: Hand,
) -> Vec<(Point, Result<Element, NextRefusal>)>
    requires station { IsRunnable shared p station.parts }
    requires hand { IsHandOf shared.threads hand }
{
    let mut gate = Taker {
        rt,
        threads: &shared.threads,
        hand,
        taken: Vec::new(alloc),
    };
    let _station = run(rt, &shared, station, p, 3, &mut gate);
    gate.taken
}

/// What a taker finds in three turns over this plan.
fn take_over<R: Abort + Wait>(
    rt: &R,
    alloc: Global,
    plan: BootPlan,
) -> Vec<(Point, Result<Element, NextRefusal>)> {
    let (p, q) = (processor(rt, 5), processor(rt, 1));
    let (shared, one, other) = stand_two(rt, alloc, plan, p, q);
    take_in_turns(rt, alloc, shared, one, p, hand_of(other))
}

/// What is at hand at each point: the turn's element before the turn, and none within its step.
fn are_as_in_said(taken: &[(Point, Result<Element, NextRefusal>)]) -> bool {
    let wanted = [
        (Point::Turn(0), Ok(Element::default())),
        (Point::Claimed, Err(NextRefusal::NoneReady)),
        (Point::Raised, Err(NextRefusal::NoneReady)),
        (Point::Turn(1), Ok(Element::default())),
        (Point::TakeAnswered, Err(NextRefusal::NoneReady)),
        (Point::Turn(2), Err(NextRefusal::NoneReady)),
    ];
    taken == wanted.as_slice()
}

/// When the gate is called for a turn, the turn's element is still in the ready ring. The element of the turn before is
/// there again; within a step it is not.
#[test]
fn turns_are_reported_before_the_taking(rt: HostRuntime) {
    let plan = parse_boot(rt.alloc(), SAID).expect(&rt, "script");
    let taken = take_over(&rt, rt.alloc(), plan);
    assert!(rt; are_as_in_said(taken.as_slice()));
}

/// A gate that cancels the alarm with the turn's number in each turn, at another seat, and keeps the answers.
#[derive(Drop)]
struct Canceller<'s> {
    meters: &'s Meters,
    seat: MeterSeat,
    alarms: &'s [Alarm],
    cancelled: Vec<bool>,
    ghost fits: { IsSeatOf meters.now seat },
}

impl<'s> Gate for Canceller<'s> {
    ghost observes = { λ old p point new. Unit {0} };

    fn between(&mut self, _p: u8, point: Point) {
        let Point::Turn(number) = point else {
            return;
        };
        let slot = number as usize;
        let Some(alarm) = self.alarms.get(slot) else {
            return;
        };
        if slot < 16 {
            let cancelled = self.meters.cancel(&mut self.seat, slot, *alarm);
            let _short = self.cancelled.push(cancelled);
        }
    }
}

impl<'s> TurnGate for Canceller<'s> {
    fn turned(
        &mut self,
        _p: u8,
        _advanced: Option<Result<u32, AdvanceRefusal>>,
        _fired: &[Alarm],
        _outcome: TurnOutcome,
        _line: &[u64],
    ) {}
}

const TWO_ALARMS: &[u8] = b"synthesis 2
thread a
alarm 1 a 3
alarm 2 a 4
pass
pass
pass
";

/// The mask of the signals that a station delivered to the first element. Its other parts aren't used any more.
fn mask_of(station: Station) -> u16 {
    let (_station, _heard, mask) = reported(station, 0);
    mask
}

/// Which alarms a canceller cancels at this seat in three turns of the processor, and the mask of the signals that were
/// delivered to the first element. Neither the objects nor the station are used any more.
fn cancel_in_turns<R: Wait>(
    rt: &R,
    alloc: Global,
    shared: Shared,
    station: Station,
    p: Processor,
    seat: MeterSeat,
) -> (Vec<bool>, u16)
    requires station { IsRunnable shared p station.parts }
    requires seat { IsSeatOf shared.meters seat }
{
    let mut gate = Canceller {
        meters: &shared.meters,
        seat,
        alarms: shared.plan.alarms.as_slice(),
        cancelled: Vec::new(alloc),
    };
    let station = run(rt, &shared, station, p, 3, &mut gate);
    (gate.cancelled, mask_of(station))
}

/// Which alarms a canceller cancels in three turns over this plan, and the mask of the signals of the first element.
fn cancel_over<R: Abort + Wait>(rt: &R, alloc: Global, plan: BootPlan) -> (Vec<bool>, u16) {
    let (p, q) = (processor(rt, 0), processor(rt, 1));
    let (shared, one, other) = stand_two(rt, alloc, plan, p, q);
    cancel_in_turns(rt, alloc, shared, one, p, seat_of(other))
}

/// When the gate is called for a turn, the alarms of its tick haven't fired: each can still be cancelled, and then
/// doesn't.
#[test]
fn turns_are_reported_before_the_alarms(rt: HostRuntime) {
    let plan = parse_boot(rt.alloc(), TWO_ALARMS).expect(&rt, "script");
    let (cancelled, mask) = cancel_over(&rt, rt.alloc(), plan);
    assert!(rt; cancelled.as_slice() == [true, true].as_slice());
    assert!(rt; mask == 0);
}
