//! Walks along the marks, and the free position, which a walk moves on.
ghost use Rattle.std.specs.Prelude.{◌≡◌, ◌≢◌, ◌+◌, ◌<◌, ◌≤◌, IsFalse, IsTrue, MatchBool};
ghost use Rattle.table_theory.specs.Seating.{IsSame};
ghost use Rattle.batch_queue.specs.declared.layout.TheConstants.{FIRST_MARK, POSITIONS};
ghost use Rattle.batch_queue.specs.Layout.{free_word, mark_word};
ghost use Rattle.batch_queue.specs.Moments.{AtSomeMoment, BeforeChanges, ChangedByOthers, IsGivenBackTo};
ghost use Rattle.batch_queue.specs.Object.{Grows};
ghost use Rattle.batch_queue.specs.Rules.{InvHeldOf};
ghost use Rattle.batch_queue.specs.Steps.{IsSeated, Stays, Found, HasBack};
ghost use Rattle.batch_queue.specs.Walks.{Followed, Helped, HelpedBy, LeadsOn, LookedFree, Passed, Starts, StoppedAt};
ghost use Rattle.batch_queue.specs.Walks.{StoppedUp};

use crate::layout::{FREE, mark_word};
use crate::rule::View;
use crate::steps::{Words, exchange_free, load};
use atomic_table::Seat;
use table_theory::protocol::Protocol;

/// The parity of the mark of a batch that is published.
pub(crate) const PUBLISHED: u64 = 0;

/// The parity of the mark of a taking whose places are given back.
pub(crate) const GIVEN_BACK: u64 = 1;

pub(crate) fn load_mark<C: Protocol>(
    words: &Words<C>,
    seat: &mut Seat<u64, View>,
    room: usize,
    position: u64,
) -> u64
    requires queue { IsSeated room words.now.table_id seat.old }
    ensures queue { IsSame seat.old seat.new × Stays seat.old.me.0 seat.new.me.0 }
    ensures slots { seat.new.me.1 ≡ seat.old.me.1 }
    ensures found { Found seat.old.me.0 (mark_word room position) result seat.new.me.0 }
{
    load(words, seat, mark_word(room, position))
}

/// Returns true if the mark of this position leads on, to its half.
pub(crate) fn leads_on(parity: u64, position: u64, mark: u64) -> bool
    ensures { MatchBool result (LeadsOn parity position mark) (LeadsOn parity position mark → ⊥) }
{
    mark % 2 == parity && position < mark / 2
}

/// Follows marks of this parity from `from` on, no further than to `most`. Returns the position to which they lead.
///
/// Condition: by what the end has found, all positions from `base` to `from` are published, or all are given back.
pub(crate) fn walk<C: Protocol>(
    words: &Words<C>,
    seat: &mut Seat<u64, View>,
    room: usize,
    base: u64,
    from: u64,
    most: u64,
    parity: u64,
) -> u64
    requires queue { IsSeated room words.now.table_id seat.old }
    requires ruled { ∥ InvHeldOf seat.old.me.0 ∥₁ }
    requires parity { parity ≤ 1 }
    requires from { (base ≤ from) × (from ≤ most) × Starts parity seat.old.me.0 base }
    requires passed { Passed parity seat.old.me.0 base from }
    ensures queue { IsSame seat.old seat.new × Stays seat.old.me.0 seat.new.me.0 }
    ensures slots { seat.new.me.1 ≡ seat.old.me.1 }
    ensures grows { Grows seat.old.me.0.seen.object seat.new.me.0.seen.object }
    ensures passed { Passed parity seat.new.me.0 base result }
    ensures starts { Starts parity seat.new.me.0 base }
    ensures on { (from ≤ result) × (result ≤ most) }
    ensures stopped { parity ≡ 1 → most ≡ base + room → result < most
        → StoppedAt base result seat.old.me.0 seat.new.me.0 }
    ensures stopped_up { parity ≡ 0 → result < most → StoppedUp base result most seat.old.me.0 seat.new.me.0 }
    ensures trace { Followed parity most room from result seat.old.me.0 seat.new.me.0 }
{
    let mut at = from;
    while at < most {
        // One load suffices: what a mark shows stays true, as phases only rise. It is the mark of `at`, unless the tail
        // (or the free position) has passed `base`.
        let mark = load_mark(words, seat, room, at);
        if !leads_on(parity, at, mark) || mark / 2 > most {
            return at;
        }
        at = mark / 2;
    }
    at
}

/// The result of a look at the free position: how far places are given back.
#[derive(Clone, Copy, Drop)]
pub(crate) struct FreeLook {
    /// The places of the positions before this one are given back.
    pub(crate) free: u64,
    /// Another end moved the free position during the look.
    pub(crate) moved: bool,
}

pub(crate) fn load_free<C: Protocol>(words: &Words<C>, seat: &mut Seat<u64, View>) -> u64
    requires queue { (seat.old.table_id ≡ words.now.table_id) × (FIRST_MARK ≤ words.now.table_id.words) }
    requires live { 1 ≤ seat.old.me.0.member.ends }
    ensures queue { IsSame seat.old seat.new × Stays seat.old.me.0 seat.new.me.0 }
    ensures slots { seat.new.me.1 ≡ seat.old.me.1 }
    ensures found { Found seat.old.me.0 free_word result seat.new.me.0 }
    ensures free { (result ≡ seat.new.me.0.seen.object.freed) × (result < POSITIONS) }
{
    load(words, seat, FREE)
}

// Moves the free position from `free` to `to`, if `to` is further on. Returns the free position that was found.
fn move_free<C: Protocol>(words: &Words<C>, seat: &mut Seat<u64, View>, free: u64, to: u64) -> u64
    requires queue { (seat.old.table_id ≡ words.now.table_id) × (FIRST_MARK ≤ words.now.table_id.words) }
    requires live { 1 ≤ seat.old.me.0.member.ends }
    requires back { HasBack seat.old.me.0 free to × (free ≤ to) × (free ≤ seat.old.me.0.seen.object.freed) }
    ensures queue { IsSame seat.old seat.new × Stays seat.old.me.0 seat.new.me.0 }
    ensures slots { seat.new.me.1 ≡ seat.old.me.1 }
    ensures grows { Grows seat.old.me.0.seen.object seat.new.me.0.seen.object }
    ensures hit { result ≡ free → (seat.old.me.0.seen.object.freed ≡ free)
        × (to ≤ seat.new.me.0.seen.object.freed) × (to < POSITIONS) }
    ensures miss { result ≢ free → (free < result) × (result ≡ seat.new.me.0.seen.object.freed) × (result < POSITIONS) }
    ensures passed { result ≢ free → BeforeChanges seat.old.me.0 seat.new.me.0 (λ o. (free < o.freed)
        × (o.freed ≡ result)) }
    ensures trace { Helped free to result seat.old.me.0 seat.new.me.0 }
{
    if to == free {
        // Nothing more is given back. If this load finds `free` again, the free position was unchanged during the walk.
        return load_free(words, seat);
    }
    // linearization point: the free position moves on, if it is unchanged
    exchange_free(words, seat, free, to)
}

/// Moves the free position on over places that are given back.
fn help<C: Protocol>(
    words: &Words<C>,
    seat: &mut Seat<u64, View>,
    room: usize,
    free: u64,
) -> FreeLook
    requires queue { IsSeated room words.now.table_id seat.old }
    requires ruled { ∥ InvHeldOf seat.old.me.0 ∥₁ }
    requires free { (free ≡ seat.old.me.0.seen.object.freed) × (free < POSITIONS) }
    requires started { HasBack seat.old.me.0 free free }
    ensures queue { IsSame seat.old seat.new × Stays seat.old.me.0 seat.new.me.0 }
    ensures slots { seat.new.me.1 ≡ seat.old.me.1 }
    ensures grows { Grows seat.old.me.0.seen.object seat.new.me.0.seen.object }
    ensures free { (result.free ≤ seat.new.me.0.seen.object.freed) × (result.free < POSITIONS) }
    ensures result { IsFalse result.moved → result.free < free + room → AtSomeMoment seat.old.me.0 seat.new.me.0
        (λ o. Grows seat.old.me.0.seen.object o × IsGivenBackTo o result.free) }
    ensures passed { IsTrue result.moved → BeforeChanges seat.old.me.0 seat.new.me.0 (λ o. (free < o.freed)
        × (o.freed ≡ result.free)) }
    ensures trace { HelpedBy room free result.free result.moved seat.old.me.0 seat.new.me.0 }
{
    let to = walk(
        words,
        seat,
        room,
        free,
        free,
        free + room as u64,
        GIVEN_BACK,
    );
    let found = move_free(words, seat, free, to);
    if found == free {
        return FreeLook {
            free: to,
            moved: false,
        };
    }
    FreeLook {
        free: found,
        moved: true,
    }
}

/// Loads the free position. If there is not enough room for a claim up to `new`, moves it on over places that are given
/// back.
pub(crate) fn look_free<C: Protocol>(
    words: &Words<C>,
    seat: &mut Seat<u64, View>,
    room: usize,
    new: u64,
) -> FreeLook
    requires queue { IsSeated room words.now.table_id seat.old }
    ensures queue { IsSame seat.old seat.new × Stays seat.old.me.0 seat.new.me.0 }
    ensures slots { seat.new.me.1 ≡ seat.old.me.1 }
    ensures grows { Grows seat.old.me.0.seen.object seat.new.me.0.seen.object }
    ensures free { (result.free ≤ seat.new.me.0.seen.object.freed) × (result.free < POSITIONS) }
    ensures result { IsFalse result.moved → result.free + room < new
        → new ≤ seat.old.me.0.seen.object.freed + room + room → AtSomeMoment seat.old.me.0 seat.new.me.0
        (λ o. Grows seat.old.me.0.seen.object o × IsGivenBackTo o result.free) }
    ensures passed { IsTrue result.moved → ChangedByOthers seat.old.me.0 seat.new.me.0 (λ o later.
        (o.freed < later.freed) × (later.freed ≡ result.free)) }
    ensures trace { LookedFree room new result.free result.moved seat.old.me.0 seat.new.me.0 }
{
    // One load suffices: the free position never falls, so the room that it shows is really there.
    let free = load_free(words, seat);
    if new <= free + room as u64 {
        return FreeLook { free, moved: false };
    }
    help(words, seat, room, free)
}
