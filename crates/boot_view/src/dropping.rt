//! The drop of a value, by a call that a contract can name.
//!
//! `gone` is known of a value only from a call of `let_go`, which takes the value. A contract that says `gone` of it
//! therefore states that it was let go, and not kept or forgotten.

ghost use Rattle.std.specs.Prelude.{⊤};

/// Lets values of a type go. Everything does.
pub trait Dropper<T> {
    // This value was let go.
    ghost gone: { T → Type 0 };

    /// Drops the value.
    fn let_go(&self, value: T)
        ensures { gone value };
}

impl<R, T: Drop> Dropper<T> for R {
    ghost gone = { λ value. ⊤ };

    fn let_go(&self, value: T) {
        drop(value);
    }
}
