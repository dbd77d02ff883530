//! A gate that keeps the result of each turn.

ghost use Rattle.std.specs.Prelude.{◌≡◌, IfOk};
ghost use Rattle.boot_log.specs.Growing.{Grows};
ghost use Rattle.boot_log.specs.Kept.{nothing_kept};

use crate::clock::TurnClock;
use crate::log::{ALARMS, Log};
use event_theory::{Alarm, OutOfMemory};
use meters::AdvanceRefusal;
use processor::{Gate, Point, TurnGate, TurnOutcome};
use std::alloc::Global;

/// A gate that keeps the result of each turn of a processor, with the time of a clock at its end. It takes no memory
/// after it is made.
#[derive(Drop)]
pub struct Recorder<C> {
    clock: C,
    last: u64,
    log: Log,
}

impl<C: TurnClock> Recorder<C> {
    /// A recorder that has kept nothing, with room for so many turns, and bytes of their lines, and for `ALARMS`
    /// alarms. The clock has said `from` last, and no turn's time is before it.
    /// `OutOfMemory` is returned only if an allocation was refused.
    pub fn with_room(
        alloc: Global,
        clock: C,
        from: u64,
        turns: usize,
        bytes: usize,
    ) -> Result<Self, OutOfMemory>
    where
        C: Drop,
        ensures log { IfOk result (λ recorder. recorder.log
            ≡ nothing_kept (record { turns = turns; bytes = bytes; alarms = ALARMS })) }
        ensures clock { IfOk result (λ recorder. (recorder.clock ≡ clock) × (recorder.last ≡ from)) }
    {
        let log = Log::with_room(alloc, turns, bytes)?;
        Ok(Recorder {
            clock,
            last: from,
            log,
        })
    }

    /// What was kept.
    pub fn log(&self) -> &Log
        ensures { result.now ≡ self.now.log }
    {
        &self.log
    }
}

impl<C: TurnClock> Gate for Recorder<C> {
    // Nothing is kept between the parts of a turn.
    ghost observes = { λ old p point new. new ≡ old };

    fn between(&mut self, _p: u8, _point: Point) {}
}

impl<C: TurnClock> TurnGate for Recorder<C> {
    // The log grew by the turn, and the time is the clock's.
    ghost learns = { λ old p turn new. (new.clock ≡ old.clock)
        × Grows (C.says old.clock) turn old.last new.last old.log new.log };

    fn turned(
        &mut self,
        _p: u8,
        advanced: Option<Result<u32, AdvanceRefusal>>,
        fired: &[Alarm],
        outcome: TurnOutcome,
        line: &[u64],
    ) {
        let alarms = if advanced.is_some() { fired } else { &[] };
        if self.log.keeps(line.len(), alarms.len()) {
            self.last = self.clock.time(self.last);
            self.log.keep(self.last, advanced, alarms, &outcome, line);
        } else {
            self.log.miss();
        }
    }
}
