//! Which call holds which element.

ghost use Rattle.std.specs.Prelude.{◌≡◌, ◌+◌, ◌<◌, ◌≤◌, ◌++◌, [], ◌∷◌, position, map, remove, Option, Some, None};
ghost use Rattle.std.specs.Prelude.{vec_len, vec_capacity, length, true, IfOk, if◌then◌else◌};
ghost use Rattle.std.specs.List.{list_any};
ghost use Rattle.event_theory.specs.Elements.{is_hold, join_hold};

use crate::queueing::renamed;
use event_theory::{Call, Hold, OutOfMemory};
use std::alloc::Global;

/// Each hold, in the order in which they began. It has room for 64, one for each element that there may be.
#[derive(Drop)]
pub(crate) struct HeldList {
    holds: Vec<Hold>,
    ghost roomy: { 64 ≤ vec_capacity holds },
}

impl HeldList {
    /// No hold.
    pub(crate) fn new(alloc: Global) -> Result<HeldList, OutOfMemory>
        ensures { IfOk result (λ list. list.holds.items ≡ []) }
    {
        Ok(HeldList {
            holds: Vec::with_capacity(alloc, 64)?,
        })
    }

    /// Each hold, in the order in which they began.
    pub(crate) fn as_slice(&self) -> &[Hold]
        ensures { result.now ≡ self.now.holds.items }
    {
        self.holds.as_slice()
    }

    /// The index of the call's hold of the element.
    pub(crate) fn find(&self, call: Call, element: u64) -> Option<usize>
        ensures { result ≡ position (is_hold call element) self.now.holds.items }
    {
        self.holds
            .iter()
            .position(|hold| hold.call == call && hold.element == element)
    }

    /// Whether the call holds the element.
    pub(crate) fn holds(&self, call: Call, element: u64) -> bool
        ensures { result ≡ list_any (is_hold call element) self.now.holds.items }
    {
        self.holds
            .iter()
            .any(|hold| hold.call == call && hold.element == element)
    }

    /// Adds a hold.
    pub(crate) fn push(&mut self, hold: Hold)
        requires { length self.old.holds.items < 64 }
        ensures { self.new.holds.items ≡ self.old.holds.items ++ hold ∷ [] }
    {
        self.holds.push_reserved(hold);
    }

    /// Adds a hold, if there is one.
    pub(crate) fn push_if(&mut self, is_there: bool, hold: Hold)
        requires { is_there ≡ true → length self.old.holds.items < 64 }
        ensures { self.new.holds.items ≡ self.old.holds.items ++ (if is_there then hold ∷ [] else []) }
    {
        if is_there {
            self.push(hold);
        }
    }

    /// Removes the hold at this place.
    pub(crate) fn remove(&mut self, index: usize)
        requires { index < vec_len self.old.holds }
        ensures { self.new.holds.items ≡ remove self.old.holds.items index }
    {
        let _hold = self.holds.remove(index);
    }

    /// Gives the call everything that the other call holds.
    pub(crate) fn join(&mut self, call: Call, other: Call)
        ensures { self.new.holds.items ≡ map (join_hold call other) self.old.holds.items }
    {
        for hold in self.holds.iter_mut() {
            hold.call = renamed(call, other, hold.call);
        }
    }
}
