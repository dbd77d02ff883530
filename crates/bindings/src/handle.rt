//! The handle that C holds.
ghost use Rattle.std.specs.Prelude.{◌≡◌, MatchOption, None, Some};
ghost use Rattle.bindings.specs.Hiding.{is_some};

use crate::hidden::Hidden;
use crate::kind::Kind;
use crate::payload::Payload;
use loose_box::Loose;
use std::alloc::Global;
use std::mem;

/// C makes a handle of zeros, which is empty. A handle holds an end of any kind. A call for another kind of end finds
/// none, and leaves the handle as it is.
#[repr(C)]
pub struct Handle {
    hidden: Hidden,
    full: bool,
    ghost agrees: { full ≡ is_some hidden.value },
}

impl Handle {
    ghost use Rattle.std.specs.Prelude.{true};
    ghost use Rattle.std.specs.Borrow.{sem};
    ghost use Rattle.bindings.specs.Handles.{held_by, end_in};
    ghost use Rattle.bindings.specs.Lending.{LendsHandle, LendsEnd};

    /// Whether the handle holds an end.
    pub fn is_full(&self) -> bool
        ensures { result ≡ is_some (held_by self.now) }
    {
        self.full
    }

    /// Takes out what the handle holds, and leaves it empty.
    ///
    /// Condition: the handle is full.
    pub fn take(&mut self, alloc: Global) -> Box<Payload, Global>
        requires { is_some (held_by self.old) ≡ true }
        ensures taken { held_by self.old ≡ Some result.value }
        ensures emptied { held_by self.new ≡ None }
    {
        let hidden = mem::replace(&mut self.hidden, Hidden::none());
        self.full = false;
        hidden.into_loose(alloc).into_box()
    }

    /// Condition: the handle is empty.
    pub fn put(&mut self, held: Box<Payload, Global>)
        requires { held_by self.old ≡ None }
        ensures { held_by self.new ≡ Some held.value }
    {
        let empty = mem::replace(&mut self.hidden, Hidden::of(Loose::of(held)));
        empty.let_go();
        self.full = true;
    }

    // The contents, in place.
    fn as_mut(&mut self) -> &mut Payload
        requires { is_some (held_by self.old) ≡ true }
        ensures* writes_back { sem 𝓛 (LendsHandle self.entry result) }
        ensures value { held_by self.old ≡ Some result.now }
    {
        self.hidden.as_mut()
    }

    /// The end of this kind that the handle holds, in place.
    pub fn find<K: Kind>(&mut self) -> Option<&mut K>
        ensures* writes_back { sem 𝓛 (LendsEnd K.row K.wrap self.entry result) }
        ensures value { MatchOption result (end_in K.found self.old ≡ None)
            (λ r. held_by self.old ≡ Some (K.wrap r.now)) }
    {
        if !self.full {
            return None;
        }
        match K::find(self.as_mut()) {
            Some(held) => Some(held),
            None => None,
        }
    }
}

fn crosses<T: Send>() {}

/// A handle may go to another thread: this is proved of its type.
pub fn handles_cross() {
    crosses::<Handle>();
}
