//! The atomic steps. No signature has a const parameter, since a call of such a function could not choose ghost
//! members.
ghost use Rattle.std.specs.Prelude.{◌≡◌, ◌≢◌, ◌+◌, ◌-◌, ◌<◌, ◌≤◌, ℕ, false, [], ◌∷◌, ◌++◌, length};
ghost use Rattle.table_theory.specs.declared.positions.TheConstants.{POSITIONS};
ghost use Rattle.table_theory.specs.Positioned.{fresh, tail_of, item_at, stage_at};
ghost use Rattle.table_theory.specs.Protocols.{IsKept, placed_lines};
ghost use Rattle.table_theory.specs.Seating.{IsSame};
ghost use Rattle.claim_queue.specs.Layout.{head_word, tail_word, data_word, flag_word};
ghost use Rattle.claim_queue.specs.declared.layout.TheConstants.{FIRST_PLACE, MOST_PLACES, SHUT};
ghost use Rattle.claim_queue.specs.Rules.{Rule, KeepsTo};
ghost use Rattle.claim_queue.specs.Steps.{IsSeated, IsNear, HasPlace, Stays, Found, Claimed, WroteAt, Took, Shut};
ghost use Rattle.claim_queue.specs.Takings.{HasRaised};

use crate::layout::{HEAD, SHUT, TAIL, data_word, flag_word};
use crate::plays::{ClaimItems, Claims, Finds, Shuts, Spot, StoresData, StoresFlag, Takes};
use crate::rule::{ClaimRule, Shape, View};
use atomic_table::{Seat, Shared};
use table_theory::protocol::Protocol;

pub(crate) type Words<C> = Shared<(), View, Shape, ClaimRule<C>>;

fn load<C: Protocol>(words: &Words<C>, seat: &mut Seat<(), View>, word: usize) -> u64
    requires queue { (seat.old.table_id ≡ words.now.table_id) × (word < words.now.table_id.words) }
    requires live { 1 ≤ seat.old.me.0.member.ends }
    ensures queue { IsSame seat.old seat.new × Stays seat.old.me seat.new.me }
    ensures found { Found seat.old.me.0 word result seat.new.me.0 }
{
    words.load::<Finds>(seat, word)
}

pub(crate) fn load_head<C: Protocol>(words: &Words<C>, seat: &mut Seat<(), View>) -> u64
    requires queue { (seat.old.table_id ≡ words.now.table_id) × (FIRST_PLACE ≤ words.now.table_id.words) }
    requires live { 1 ≤ seat.old.me.0.member.ends }
    ensures queue { IsSame seat.old seat.new × Stays seat.old.me seat.new.me }
    ensures found { Found seat.old.me.0 head_word result seat.new.me.0 }
    ensures is_open { result < SHUT → seat.new.me.0.seen.object.shut ≡ false }
{
    load(words, seat, HEAD)
}

pub(crate) fn load_tail<C: Protocol>(words: &Words<C>, seat: &mut Seat<(), View>) -> u64
    requires queue { (seat.old.table_id ≡ words.now.table_id) × (FIRST_PLACE ≤ words.now.table_id.words) }
    requires live { 1 ≤ seat.old.me.0.member.ends }
    ensures queue { IsSame seat.old seat.new × Stays seat.old.me seat.new.me }
    ensures found { Found seat.old.me.0 tail_word result seat.new.me.0 }
    ensures tail { (result ≡ tail_of seat.new.me.0.seen.object) × (result < POSITIONS) }
{
    load(words, seat, TAIL)
}

pub(crate) fn exchange_head<C: Protocol, J: ClaimItems>(
    words: &Words<C>,
    seat: &mut Seat<(), View>,
    head: u64,
    new: u64,
    items: &[u64],
) -> u64
    requires queue { (seat.old.table_id ≡ words.now.table_id) × (FIRST_PLACE ≤ words.now.table_id.words) }
    requires live { 1 ≤ seat.old.me.0.member.ends }
    requires items { (items.now ≡ J.items) × (0 < length items.now) }
    requires room { head + length items.now ≤ tail_of seat.old.me.0.seen.object + seat.old.me.0.first.room }
    requires new { (new ≡ head + length items.now) × (new < POSITIONS) }
    requires protocol { C.allows seat.old.me.0.first.first
        (placed_lines seat.old.me.0.own.runs ++ (head, J.items) ∷ []) (placed_lines seat.old.me.0.own.takes) }
    ensures queue { IsSame seat.old seat.new × Stays seat.old.me seat.new.me }
    ensures hit { result ≡ head → Claimed seat.old.me.0 head J.items seat.new.me.0 }
    ensures miss { result ≢ head → Found seat.old.me.0 head_word result seat.new.me.0 }
{
    let _ = items;
    words.compare_exchange::<Claims<J>>(seat, HEAD, head, new)
}

// Stores the item of the place `index` of the end's run that begins at `start`.
pub(crate) fn store_data<C: Protocol, J: Spot>(
    words: &Words<C>,
    seat: &mut Seat<(), View>,
    room: usize,
    start: u64,
    index: usize,
    item: u64,
)
    requires queue { IsSeated room words.now.table_id seat.old }
    requires spot { (J.start ≡ start) × (J.index ≡ index) × (start < POSITIONS) × (index < MOST_PLACES) }
    requires mine { HasPlace seat.old.me.0 J.start J.index (fresh item) }
    ensures queue { IsSame seat.old seat.new × Stays seat.old.me seat.new.me }
    ensures wrote { WroteAt J.start J.index 1 (data_word room (start + index)) seat.old.me.0 seat.new.me.0 }
{
    words.store::<StoresData<J>>(seat, data_word(room, start as usize + index), item);
}

pub(crate) fn store_flag<C: Protocol, J: Spot>(
    words: &Words<C>,
    seat: &mut Seat<(), View>,
    room: usize,
    start: u64,
    index: usize,
)
    requires queue { IsSeated room words.now.table_id seat.old }
    requires spot { (J.start ≡ start) × (J.index ≡ index) × (start < POSITIONS) × (index < MOST_PLACES) }
    requires mine { (item : ℕ) × HasPlace seat.old.me.0 J.start J.index (record { item = item; stage = 1 }) }
    ensures queue { IsSame seat.old seat.new × Stays seat.old.me seat.new.me }
    ensures wrote { WroteAt J.start J.index 2 (flag_word room (start + index)) seat.old.me.0 seat.new.me.0 }
{
    let word = flag_word(room, start as usize + index);
    words.store::<StoresFlag<J>>(seat, word, start + index as u64 + 1);
}

pub(crate) fn load_flag<C: Protocol>(
    words: &Words<C>,
    seat: &mut Seat<(), View>,
    room: usize,
    position: u64,
) -> u64
    requires queue { IsSeated room words.now.table_id seat.old }
    requires near { IsNear seat.old.me.0 room position }
    ensures queue { IsSame seat.old seat.new × Stays seat.old.me seat.new.me }
    ensures found { Found seat.old.me.0 (flag_word room position) result seat.new.me.0 }
    ensures raised { result ≡ position + 1
        → 2 ≤ stage_at seat.new.me.0.seen.object (position - seat.new.me.0.seen.object.first) }
    ensures low { result ≢ position + 1 → tail_of seat.new.me.0.seen.object ≤ position
        → stage_at seat.new.me.0.seen.object (position - seat.new.me.0.seen.object.first) < 2 }
    ensures not_mine { result ≢ position + 1 → tail_of seat.new.me.0.seen.object ≤ position
        → HasRaised seat.new.me.0.own.runs position → ⊥ }
{
    load(words, seat, flag_word(room, position as usize))
}

pub(crate) fn load_data<C: Protocol>(
    words: &Words<C>,
    seat: &mut Seat<(), View>,
    room: usize,
    position: u64,
) -> u64
    requires queue { IsSeated room words.now.table_id seat.old }
    requires near { IsNear seat.old.me.0 room position }
    requires raised { 2 ≤ stage_at seat.old.me.0.seen.object (position - seat.old.me.0.seen.object.first) }
    ensures queue { IsSame seat.old seat.new × Stays seat.old.me seat.new.me }
    ensures found { Found seat.old.me.0 (data_word room position) result seat.new.me.0 }
    ensures item { tail_of seat.new.me.0.seen.object ≤ position
        → result ≡ item_at seat.new.me.0.seen.object (position - seat.new.me.0.seen.object.first) }
{
    load(words, seat, data_word(room, position as usize))
}

pub(crate) fn exchange_tail<C: Protocol>(
    words: &Words<C>,
    seat: &mut Seat<(), View>,
    tail: u64,
    new: u64,
) -> u64
    requires queue { (seat.old.table_id ≡ words.now.table_id) × (FIRST_PLACE ≤ words.now.table_id.words) }
    requires live { 1 ≤ seat.old.me.0.member.ends }
    requires new { (tail < new) × (seat.old.me.0.seen.object.first ≤ tail) }
    requires raised { (i : ℕ) → i < new - tail
        → 2 ≤ stage_at seat.old.me.0.seen.object (tail - seat.old.me.0.seen.object.first + i) }
    ensures queue { IsSame seat.old seat.new × Stays seat.old.me seat.new.me }
    ensures hit { result ≡ tail → Took seat.old.me.0 tail (new - tail) seat.new.me.0 }
    ensures miss { result ≢ tail → Found seat.old.me.0 tail_word result seat.new.me.0 × (result < POSITIONS) }
    ensures kept { IsKept Rule (KeepsTo C.allows) seat.new.me.0 }
{
    words.compare_exchange::<Takes<C>>(seat, TAIL, tail, new)
}

pub(crate) fn or_head<C: Protocol>(words: &Words<C>, seat: &mut Seat<(), View>) -> u64
    requires queue { (seat.old.table_id ≡ words.now.table_id) × (FIRST_PLACE ≤ words.now.table_id.words) }
    requires live { 1 ≤ seat.old.me.0.member.ends }
    ensures queue { IsSame seat.old seat.new × Stays seat.old.me seat.new.me }
    ensures shut { Shut seat.old.me.0 result seat.new.me.0 }
{
    words.fetch_or::<Shuts>(seat, HEAD, SHUT)
}
