//! The quaject that the chain for C runs: it keeps the note, and its caller does what the note is for.
use proc_chain::{Quaject, Ran};

/// The note that was pulled last.
#[derive(Clone, Copy, Drop)]
pub struct Inbox {
    pub note: u16,
}

impl Quaject for Inbox {
    type World = ();

    ghost use Rattle.bindings.specs.Inboxes.{HasLast, FitsAny};

    ghost made_by = { HasLast };

    ghost fits = { FitsAny };

    fn run(&mut self, _world: &(), note: u16) -> Ran {
        self.note = note;
        Ran::Worked
    }
}
