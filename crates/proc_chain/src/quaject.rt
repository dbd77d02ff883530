//! The quaject that a chain runs.
ghost use Rattle.std.specs.Prelude.{◌≡◌, ℕ, List, [], ◌∷◌, ◌++◌};

/// The answer of a run.
#[derive(Clone, Copy, Debug, PartialEq, Eq, Drop)]
pub enum Ran {
    /// The run did some work.
    Worked,
    /// There was nothing to do.
    Nothing,
}

/// A collection of procedures and data that one runner at a time works on, note by note (Massalin 1992).
pub trait Quaject {
    /// The data that its runs work on and that the quaject does not own.
    type World;

    // Runs of these notes, in order, made the second quaject of the first.
    ghost made_by: { Self → Self → List ℕ → Type 0 };

    // The quaject fits this world.
    ghost fits: { Self.World → Self → Type 0 };

    /// Runs one note.
    fn run(&mut self, world: &Self::World, note: u16) -> Ran
        requires { fits world.now self.old }
        ensures fits { fits world.now self.new }
        ensures made { (first : Self) (notes : List ℕ)
            → made_by first self.old notes → made_by first self.new (notes ++ note ∷ []) };
}
