//! A client's protocol for the ends of a queue: a condition on each end, by the lines that it put and took.
//!
//! A queue that is made under a protocol keeps it at every step of every end, so what the protocol says of a line when
//! it is put can be used by the end that takes it.
ghost use Rattle.std.specs.Prelude.{ℕ, List, [], ◌∷◌, ◌++◌, ⊤};
ghost use Rattle.table_theory.specs.Protocols.{Placed};

/// The condition on each end of a queue, with its laws. `allows first puts takes` is said of the queue's first position,
/// of the lines that the end put, and of the lines that it took, each list in the order of its steps.
///
/// A put has to meet the condition. The laws say that nothing else of an end has to be asked: an end may begin, take
/// whatever line is there, and take in another end.
pub trait Protocol {
    ghost allows: { ℕ → List Placed → List Placed → Type 0 };

    ghost begins: { (first : ℕ) → allows first [] [] };

    ghost takes: { (first : ℕ) (puts taken : List Placed) (line : Placed) → allows first puts taken
        → allows first puts (taken ++ line ∷ []) };

    ghost joins: { (first : ℕ) (puts taken more_puts more_taken : List Placed) → allows first puts taken
        → allows first more_puts more_taken → allows first (puts ++ more_puts) (taken ++ more_taken) };
}

/// The protocol that allows every put.
pub struct Free;

impl Protocol for Free {
    ghost allows = { λ first puts taken. ⊤ };

    ghost begins = { λ first. tt };

    ghost takes = { λ first puts taken line h. tt };

    ghost joins = { λ first puts taken more_puts more_taken h k. tt };
}
