//! A box as a pointer whose type says nothing of the value there, so that it can cross to C.
ghost use Rattle.std.specs.Prelude.{◌≡◌, true, Option as Maybe, None, Some};
ghost use Rattle.bindings.specs.Hiding.{is_some};
ghost use Rattle.bindings.specs.declared.payload.Payload.{Payload as PayloadValue};

use crate::payload::Payload;
use loose_box::Loose;
use std::alloc::Global;
use std::marker::Model;
use std::ptr::null_mut;

/// The pointer owns the box that it leads to, or leads nowhere. Only a pointer that leads nowhere can be let go, so no
/// box is forgotten.
#[repr(C)]
pub struct Hidden {
    at: *mut u8,
    pub ghost value: { Maybe PayloadValue },
}

impl Model for Hidden {
    ghost use Rattle.bindings.specs.Hiding.{hides};
    ghost use Rattle.bindings.specs.contracts.payload.Payload.{the_row};

    ghost also_owns = { λ h. hides the_row h.at h.value };
}

unsafe impl Send for Hidden {}

impl Hidden {
    ghost use Rattle.std.specs.Borrow.{sem};
    ghost use Rattle.bindings.specs.Lending.{LendsHidden};

    /// The value that the pointer leads to, in place.
    pub fn as_mut(&mut self) -> &mut Payload
        requires { is_some self.old.value ≡ true }
        ensures* writes_back { sem 𝓛 (LendsHidden self.entry result) }
        ensures value { self.old.value ≡ Some result.now }
    {
        unsafe { &mut *(self.at as *mut Payload) }
    }

    /// A pointer that leads nowhere.
    pub fn none() -> Hidden
        ensures { result.value ≡ None }
    {
        Hidden { at: null_mut() }
    }

    /// Hides a box.
    pub fn of(loose: Loose<Payload, Global>) -> Hidden
        ensures { result.value ≡ Some loose.value }
    {
        let Loose { at, alloc: _alloc } = loose;
        Hidden { at: at as *mut u8 }
    }

    /// Returns the box.
    pub fn into_loose(self, alloc: Global) -> Loose<Payload, Global>
        requires { is_some self.value ≡ true }
        ensures { self.value ≡ Some result.value }
    {
        let Hidden { at } = self;
        Loose {
            at: at as *mut Payload,
            alloc,
        }
    }

    /// Lets go of a pointer that leads nowhere.
    pub fn let_go(self)
        requires { self.value ≡ None }
    {
        let Hidden { at: _ } = self;
    }
}
