//! A gate that gets the result of each turn at its end.
ghost use Rattle.std.specs.Prelude.{◌≡◌, ℕ};
ghost use Rattle.processor.specs.Entries.{LogEntry, entry_of};

use crate::outcome::TurnOutcome;
use event_theory::Alarm;
use meters::AdvanceRefusal;
use turn_io::{Gate, NoGate, Point};

/// A gate that gets the result of each turn at its end: the turn's entry in the log of its processor, as values that the
/// gate may keep. A gate that keeps nothing has an empty body, and stays as it was.
pub trait TurnGate: Gate {
    // The first gate got this entry of the log of this processor, and became the second.
    ghost learns: { Self → ℕ → LogEntry → Self → Type 0 } = { λ old p entry new. new ≡ old };

    /// A turn of processor `p` has ended with this result. On processor 0 `advanced` is the tick to which the clock was
    /// advanced, or why it was not, and `fired` has the alarms that were fired. The other processors tend no alarms:
    /// there `advanced` is None, and `fired` means nothing. The line is the one that the turn's step was to say, or
    /// heard; it is empty if the step did neither.
    fn turned(
        &mut self,
        p: u8,
        advanced: Option<Result<u32, AdvanceRefusal>>,
        fired: &[Alarm],
        outcome: TurnOutcome,
        line: &[u64],
    )
        ensures { learns self.old p (entry_of advanced fired.now outcome line.now) self.new };
}

impl TurnGate for NoGate {
    fn turned(
        &mut self,
        _p: u8,
        _advanced: Option<Result<u32, AdvanceRefusal>>,
        _fired: &[Alarm],
        _outcome: TurnOutcome,
        _line: &[u64],
    ) {}
}

/// A gate that gets the points of each turn and not its result. So a type that implements `Gate` alone is enough for a
/// processor: `Plain { gate }`.
#[derive(Drop)]
pub struct Plain<G> {
    pub gate: G,
}

impl<G: Gate> Gate for Plain<G> {
    ghost observes = { λ old p point new. G.observes old.gate p point new.gate };

    fn between(&mut self, p: u8, point: Point) {
        self.gate.between(p, point);
    }
}

impl<G: Gate> TurnGate for Plain<G> {
    fn turned(
        &mut self,
        _p: u8,
        _advanced: Option<Result<u32, AdvanceRefusal>>,
        _fired: &[Alarm],
        _outcome: TurnOutcome,
        _line: &[u64],
    ) {}
}
