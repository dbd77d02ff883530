//! A gate: what a processor calls between the parts of a turn, so that a test can hold or watch it there.
ghost use Rattle.std.specs.Prelude.{ℕ};
ghost use Rattle.turn_io.specs.declared.gate.Point.{Point};

/// The point of its turn that a processor has reached.
#[derive(Clone, Copy, Debug, PartialEq, Eq, Drop)]
pub enum Point {
    /// The turn with this number, from 0, begins.
    Turn(u32),
    /// A say has claimed its line, and has raised none of it.
    Claimed,
    /// A say has raised all of its line.
    Raised,
    /// A hear's try to take a line was answered.
    TakeAnswered,
    /// A poke's try to chain a note was answered, and no Turn is served yet.
    Chained,
}

/// A gate is called between the parts of a turn, with the number of the processor.
pub trait Gate {
    // The first gate was called at this point of this processor, and became the second.
    ghost observes: { Self → ℕ → Point → Self → Type 0 };

    fn between(&mut self, p: u8, point: Point)
        ensures { observes self.old p point self.new };
}

/// The gate that does nothing.
#[derive(Drop)]
pub struct NoGate;

impl Gate for NoGate {
    ghost observes = { λ old p point new. Unit {0} };

    fn between(&mut self, _p: u8, _point: Point) {}
}
