//! How much of its object an end has, and which object that is.
ghost use Rattle.std.specs.Prelude.{◌≡◌, ◌⊎◌, MatchBool, MatchOption};

use crate::answer::NO_SHARE;
use table_theory::shares::MOST_GIVEN;

/// `parts` of the u64::MAX parts of an object. `mark` is the number that the object was given.
#[derive(Clone, Copy, Drop)]
pub struct Share {
    pub parts: u64,
    pub mark: u64,
}

impl Share {
    ghost use Rattle.bindings.specs.Shares.{AllOf, IsOneMark, Fit, Exceed, HasTwo, HasNoTwo, WasDivided, WasJoined};

    /// All of the object with this mark.
    pub fn all(mark: u64) -> Share
        ensures { AllOf mark result }
    {
        Share {
            parts: u64::MAX,
            mark,
        }
    }

    /// The reason why no part can be given away, as a code.
    pub fn why_not_split(&self) -> Option<i32>
        ensures { MatchOption result (HasTwo self.now) (λ code. HasNoTwo self.now code) }
    {
        if self.parts >= 2 {
            None
        } else {
            Some(NO_SHARE)
        }
    }

    /// Whether the marks are the same, and the parts together no more than one object has.
    pub fn may_join(&self, other: &Share) -> bool
        ensures { MatchBool result (IsOneMark self.now other.now × Fit self.now other.now)
            ((IsOneMark self.now other.now → ⊥) ⊎ Exceed self.now other.now) }
    {
        self.mark == other.mark && other.parts <= u64::MAX - self.parts
    }

    /// Gives parts away.
    pub fn split(&mut self) -> Share
        requires { HasTwo self.old }
        ensures { WasDivided self.old self.new result }
    {
        let parts = (self.parts / 2).min(MOST_GIVEN);
        self.parts -= parts;
        Share {
            parts,
            mark: self.mark,
        }
    }

    /// Takes in the parts of another share.
    pub fn join(&mut self, other: Share)
        requires { Fit self.old other }
        ensures { WasJoined self.old self.new other }
    {
        self.parts += other.parts;
    }
}
