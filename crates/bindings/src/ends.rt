//! Making, freeing, splitting and joining the ends that handles hold, whatever their kind.
ghost use Rattle.std.specs.Prelude.{◌≡◌, ℤ, MatchBool, MatchOption};
ghost use Rattle.bindings.specs.Handles.{None, held_by, end_in, HoldsSome, Filled, FreedHandle, SplitHandle};
ghost use Rattle.bindings.specs.Handles.{JoinedHandle, MarksTell, MayJoin, MayNotJoin, Fit, Share as ShareValue};

use crate::answer::{DONE, EMPTY_HANDLE, FULL_HANDLE, NO_MEMORY, OTHER_OBJECT};
use crate::handle::Handle;
use crate::kind::Kind;
use crate::payload::Payload;
use loose_box::{Loose, Vacant};
use std::alloc::Global;

/// An end of an object that other handles share. It can be split, and joined with another end of its object.
pub trait End: Kind {
    /// The data that a new end gets besides its parts.
    type Wish: Copy + Drop;

    ghost share: { Self → ShareValue };

    ghost MaySplit: { Self.Wish → Self → Type 0 };

    ghost MayNotSplit: { Self.Wish → Self → ℤ → Type 0 };

    ghost SplitBy: { Self.Wish → Self → Self → Self → Type 0 };

    ghost HaveOneMark: { Self → Self → Type 0 };

    ghost AreOfOne: { Self → Self → Type 0 };

    ghost Joined: { Self → Self → Self → Type 0 };

    /// The reason why there can be no such new end, as a code.
    fn why_not_split(&self, wish: Self::Wish) -> Option<i32>
        ensures { MatchOption result (MaySplit wish self.now) (λ code. MayNotSplit wish self.now code) };

    /// A new end of the object. None when no more handles can be counted.
    fn split(&mut self, wish: Self::Wish) -> Option<Self>
        requires { MaySplit wish self.old }
        ensures { MatchOption result (self.new ≡ self.old) (SplitBy wish self.old self.new) };

    /// Whether, by their marks and parts, both can be ends of one object.
    fn may_join(&self, other: &Self) -> bool
        ensures { MatchBool result (MayJoin share HaveOneMark self.now other.now)
            (MayNotJoin share HaveOneMark self.now other.now) };

    /// Takes in another end of the object.
    fn join(&mut self, other: Self)
        requires one { AreOfOne self.old other }
        requires parts { Fit (share self.old) (share other) }
        ensures { Joined self.old self.new other };
}

/// Puts a new end into an empty handle. If there is no end, or no memory for its box, the code is `NO_MEMORY`.
pub fn fill<K: Kind>(alloc: Global, made: Option<K>, handle: &mut Handle) -> i32
    requires { held_by handle.old ≡ None }
    ensures { Filled K.wrap made handle.old handle.new result }
{
    let Some(made) = made else {
        return NO_MEMORY;
    };
    let Ok(made) = Box::new(alloc, made.wrap()) else {
        return NO_MEMORY;
    };
    handle.put(made);
    DONE
}

/// Frees the handle, whose end is then never joined.
pub fn free<K: Kind>(alloc: Global, handle: &mut Handle) -> i32
    ensures { FreedHandle (end_in K.found) handle.old handle.new result }
{
    if handle.find::<K>().is_none() {
        return EMPTY_HANDLE;
    }
    let _held = handle.take(alloc);
    DONE
}

// A new end in a box of its own. Nothing changes if out of memory, or if no more handles can be counted.
fn split_boxed<E: End>(alloc: Global, held: &mut E, wish: E::Wish) -> Option<Box<Payload, Global>>
    requires { E.MaySplit wish held.old }
    ensures { MatchOption result (held.new ≡ held.old)
        (λ b. HoldsSome (E.found b.value) (E.SplitBy wish held.old held.new)) }
{
    let Ok(room) = Vacant::take(alloc) else {
        return None;
    };
    match held.split(wish) {
        Some(born) => Some(Loose::fill(room, born.wrap()).into_box()),
        None => {
            let _alloc = room.free();
            None
        }
    }
}

/// Puts a new end of the object into the other handle, for another thread.
pub fn split<E: End>(alloc: Global, handle: &mut Handle, wish: E::Wish, other: &mut Handle) -> i32
    ensures { SplitHandle (end_in E.found) (E.MaySplit wish) (E.MayNotSplit wish) (E.SplitBy wish)
        handle.old handle.new other.old other.new result }
{
    let Some(held) = handle.find::<E>() else {
        return EMPTY_HANDLE;
    };
    if other.is_full() {
        return FULL_HANDLE;
    }
    if let Some(code) = held.why_not_split(wish) {
        return code;
    }
    match split_boxed(alloc, held, wish) {
        Some(made) => {
            other.put(made);
            DONE
        }
        None => NO_MEMORY,
    }
}

/// Joins two ends: the first then has all that both had, and the second handle is empty.
pub fn join<E: End>(alloc: Global, handle: &mut Handle, other: &mut Handle) -> i32
    requires { MarksTell E.HaveOneMark E.AreOfOne (end_in E.found handle.old) (end_in E.found other.old) }
    ensures { JoinedHandle (end_in E.found) E.share E.HaveOneMark E.Joined
        handle.old handle.new other.old other.new result }
{
    let Some(held) = handle.find::<E>() else {
        return EMPTY_HANDLE;
    };
    let Some(joined) = other.find::<E>() else {
        return EMPTY_HANDLE;
    };
    if !held.may_join(joined) {
        return OTHER_OBJECT;
    }
    held.join(E::unwrap(Box::into_inner(other.take(alloc))));
    DONE
}
