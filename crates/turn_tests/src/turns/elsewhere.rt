//! The acts of another processor at a point of this one's turn.
ghost use Rattle.std.specs.Prelude.{◌≡◌};
ghost use Rattle.boot_data.specs.declared.plan.QueueIndex.TheVariants.{Small};
ghost use Rattle.thread_table.specs.Handles.{IsHandOf};
ghost use Rattle.turn_io.specs.QueueEnds.{AreQueueEndsOf, IsThere};
ghost use Rattle.processor.specs.Manning.{IsRunnable};
ghost use Rattle.processor.specs.Stations.{ArePartsOf};

use super::partings::stand_two;
use super::*;
use boot_data::plan::QueueIndex;
use event_theory::{Alarm, WaitNumber};
use meters::AdvanceRefusal;
use processor::{TurnGate, TurnOutcome};
use std::test::*;
use turn_dispatch::wake;
use turn_io::{Gate, Point, QueueEnds};

/// A gate that acts after each try of a hear: it says a line in the first queue, or shuts it, and wakes those who wait
/// to hear.
#[derive(Drop)]
struct Sayer<'r, 's, R: Wait> {
    rt: &'r R,
    shared: &'s Shared,
    ends: QueueEnds,
    hand: Hand,
    wait: WaitNumber,
    shuts: bool,
    ghost fit: { AreQueueEndsOf shared.now.queues ends },
    ghost known: { IsThere shared.now.queues (Small 0) },
    ghost hand_fits: { IsHandOf shared.now.threads hand },
}

/// The line that is said. Its first item is above 255.
const LINE: &[u64] = &[0x17A, 0x0A];

/// Says the line in the first queue, or shuts it.
#[tactic(auto, using(crate::proofs::Ends::still_ends))]
fn say_or_shut(queues: &Queues, ends: &mut QueueEnds, shuts: bool)
    requires ends { AreQueueEndsOf queues.now ends.old }
    requires known { IsThere queues.now (Small 0) }
    ensures { AreQueueEndsOf queues.now ends.new }
{
    let first = QueueIndex::Small(0);
    if shuts {
        let _open = ends.shut(queues, first);
    } else {
        let _said = ends.say(queues, first, LINE, 0, &mut NoGate);
    }
}

impl<'r, 's, R: Wait> Gate for Sayer<'r, 's, R> {
    ghost observes = { λ old p point new. new.shared.now ≡ old.shared.now };

    fn between(&mut self, _p: u8, point: Point) {
        if point != Point::TakeAnswered {
            return;
        }
        say_or_shut(&self.shared.queues, &mut self.ends, self.shuts);
        let _woken = wake(self.rt, &self.shared.threads, &mut self.hand, self.wait);
    }
}

impl<'r, 's, R: Wait> TurnGate for Sayer<'r, 's, R> {
    fn turned(
        &mut self,
        _p: u8,
        _advanced: Option<Result<u32, AdvanceRefusal>>,
        _fired: &[Alarm],
        _outcome: TurnOutcome,
        _line: &[u64],
    ) {}
}

/// Makes sure that a queue exists.
fn must_have_a_queue<R: Abort>(rt: &R, shared: &Shared)
    ensures { IsThere shared.now.queues (Small 0) }
{
    if shared.queues.small.as_slice().is_empty() {
        panic!(rt; "no queue");
    }
}

/// This many turns of the one station's processor, while the other station's ends say or shut. Returns both stations.
fn run_beside<R: Abort + Wait>(
    rt: &R,
    shared: &Shared,
    one: (Station, Processor),
    other: Station,
    turns: u32,
    shuts: bool,
) -> (Station, Station)
    requires station { IsRunnable shared.now one.1 one.0.parts }
    requires parts { ArePartsOf shared.now other.parts }
    ensures { ArePartsOf shared.now result.0.parts × ArePartsOf shared.now result.1.parts }
{
    must_have_a_queue(rt, shared);
    let Some(wait) = WaitNumber::new(2) else {
        panic!(rt; "wait queue")
    };
    let Parts {
        hand,
        queues: ends,
        chains,
        meters,
        heard,
        signals,
    } = other.into_parts();
    let mut gate = Sayer {
        rt,
        shared,
        ends,
        hand,
        wait,
        shuts,
    };
    let station = run(rt, shared, one.0, one.1, turns, &mut gate);
    let Sayer {
        rt: _,
        shared: _,
        ends,
        hand,
        wait: _,
        shuts: _,
    } = gate;
    let parts = Parts {
        hand,
        queues: ends,
        chains,
        meters,
        heard,
        signals,
    };
    (station, Station::from_parts(parts))
}

const HEARS: &[u8] = b"synthesis 2
pipe p 2 3
thread a
hear p
";

/// The objects after this many turns of processor 0.
fn heard_beside<R: Abort + Wait>(rt: &R, alloc: Global, turns: u32, shuts: bool) -> AtEnd {
    let plan = parse_boot(alloc, HEARS).expect(rt, "script");
    let (p, q) = (processor(rt, 0), processor(rt, 1));
    let (shared, one, other) = stand_two(rt, alloc, plan, p, q);
    let (mut one, other) = run_beside(rt, &shared, (one, p), other, turns, shuts);
    let _lines = join_station(&shared, &mut one, other);
    close_all(rt, shared, one.into_parts())
}

/// A line that is said after a hear's try, and before its element waits, wakes nobody. But the ticket is then out of
/// date, so the element is ready again, and hears the line in its next turn. The low 8 bits of each item of the line
/// are kept.
#[test]
fn said_before_the_wait(rt: HostRuntime) {
    let once = heard_beside(&rt, rt.alloc(), 1, false);
    check_states(&rt, &once, &[ready(0)]);
    assert!(rt; once.heard.len() == 0);
    let twice = heard_beside(&rt, rt.alloc(), 2, false);
    check_states(&rt, &twice, &[ended(1)]);
    check_lines(&rt, &twice.heard, &[(0, 0, b"z\n")]);
}

/// The pipe is shut after a hear's try: the element hears nothing in its next turn, and its step is done.
#[test]
fn shut_before_the_wait(rt: HostRuntime) {
    let once = heard_beside(&rt, rt.alloc(), 1, true);
    check_states(&rt, &once, &[ready(0)]);
    let twice = heard_beside(&rt, rt.alloc(), 2, true);
    check_states(&rt, &twice, &[ended(1)]);
    assert!(rt; twice.heard.len() == 0);
}
