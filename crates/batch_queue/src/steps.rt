//! The atomic steps: the loads, the compare-and-swaps, the fetch-or, and the store that publishes a run or gives a
//! taking back.
ghost use Rattle.std.specs.Prelude.{◌≡◌, ◌≢◌, ◌+◌, ◌/◌, ◌<◌, ◌≤◌, ℕ, List, [], ◌∷◌, ◌++◌, length};
ghost use Rattle.table_theory.specs.Protocols.{IsKept, placed_lines};
ghost use Rattle.table_theory.specs.Seating.{IsSame};
ghost use Rattle.batch_queue.specs.declared.layout.TheConstants.{FIRST_MARK, POSITIONS};
ghost use Rattle.batch_queue.specs.Layout.{head_word, tail_word, free_word, mark_word};
ghost use Rattle.batch_queue.specs.Rules.{Rule, KeepsTo};
ghost use Rattle.batch_queue.specs.Slots.{slots_of};
ghost use Rattle.batch_queue.specs.Steps.{IsSeated, Stays, Found, Claimed, Released, HoldsRange, IsClaim};
ghost use Rattle.batch_queue.specs.Steps.{HasStop, HasBack, Took, Freed, Parted, Shut};
ghost use Rattle.batch_queue.specs.Object.{IsWithin};

use crate::layout::{FREE, HEAD, SHUT, TAIL, mark_word};
use crate::plays::{ClaimItems, Claims, Finds, Frees, PartPosition, Parts, Releases, Shuts, Takes};
use crate::rule::{BatchRule, Shape, View};
use atomic_table::{Seat, Shared};
use table_theory::protocol::Protocol;

pub(crate) type Words<C> = Shared<u64, View, Shape, BatchRule<C>>;

pub(crate) fn load<C: Protocol>(words: &Words<C>, seat: &mut Seat<u64, View>, word: usize) -> u64
    requires queue { (seat.old.table_id ≡ words.now.table_id) × (word < words.now.table_id.words) }
    requires live { 1 ≤ seat.old.me.0.member.ends }
    ensures queue { IsSame seat.old seat.new × Stays seat.old.me.0 seat.new.me.0 }
    ensures slots { seat.new.me.1 ≡ seat.old.me.1 }
    ensures found { Found seat.old.me.0 word result seat.new.me.0 }
{
    words.load::<Finds>(seat, word)
}

/// Claims the positions from the head on for the items, and takes their slots.
pub(crate) fn exchange_head<C: Protocol, J: ClaimItems>(
    words: &Words<C>,
    seat: &mut Seat<u64, View>,
    head: u64,
    new: u64,
    items: &[u64],
) -> u64
    requires queue { (seat.old.table_id ≡ words.now.table_id) × (FIRST_MARK ≤ words.now.table_id.words) }
    requires live { 1 ≤ seat.old.me.0.member.ends }
    requires bare { (seat.old.me.1 ≡ []) × (seat.old.me.0.own.held.count ≡ 0) }
    requires items { (items.now ≡ J.items) × (0 < length items.now) }
    requires new { (new ≡ head + length items.now) × (new < POSITIONS) }
    requires room { new ≤ seat.old.me.0.seen.object.freed + seat.old.me.0.first.room }
    requires protocol { C.allows 0 (placed_lines seat.old.me.0.own.runs ++ (head, J.items) ∷ [])
        (placed_lines seat.old.me.0.own.takes) }
    ensures queue { IsSame seat.old seat.new × Stays seat.old.me.0 seat.new.me.0 }
    ensures hit { result ≡ head → Claimed seat.old.me.0 head J.items seat.new.me }
    ensures miss { result ≢ head → (seat.new.me.1 ≡ seat.old.me.1)
        × Found seat.old.me.0 head_word result seat.new.me.0 }
{
    let _ = items;
    words.compare_exchange::<Claims<J>>(seat, HEAD, head, new)
}

/// Publishes the items of the end's run, and gives their slots back to the table: by one store.
pub(crate) fn publish<C: Protocol>(
    words: &Words<C>,
    seat: &mut Seat<u64, View>,
    room: usize,
    start: u64,
    items: &[u64],
)
    requires queue { IsSeated room words.now.table_id seat.old }
    requires mine { HoldsRange 0 start (length items.now) seat.old.me.0 }
    requires written { seat.old.me.1 ≡ slots_of room start items.now }
    requires claim { IsClaim start items.now seat.old.me.0 }
    ensures queue { IsSame seat.old seat.new × Stays seat.old.me.0 seat.new.me.0 }
    ensures published { Released seat.old.me.0 (mark_word room start) start (start + length items.now) 0 seat.new.me }
{
    let end = start + items.len() as u64;
    words.store::<Releases<C>>(seat, mark_word(room, start), 2 * end);
}

/// Takes the positions from the tail up to `new`, and their slots: all of them were found published, and at `new` a
/// batch ends or was parted.
pub(crate) fn exchange_tail<C: Protocol>(
    words: &Words<C>,
    seat: &mut Seat<u64, View>,
    tail: u64,
    new: u64,
) -> u64
    requires queue { (seat.old.table_id ≡ words.now.table_id) × (FIRST_MARK ≤ words.now.table_id.words) }
    requires live { 1 ≤ seat.old.me.0.member.ends }
    requires bare { (seat.old.me.1 ≡ []) × (seat.old.me.0.own.held.count ≡ 0) }
    requires up { HasStop seat.old.me.0 tail new × (tail < new) }
    ensures queue { IsSame seat.old seat.new × Stays seat.old.me.0 seat.new.me.0 }
    ensures hit { result ≡ tail → Took seat.old.me.0 tail new seat.new.me }
    ensures miss { result ≢ tail → (seat.new.me.1 ≡ seat.old.me.1)
        × Found seat.old.me.0 tail_word result seat.new.me.0 }
{
    words.compare_exchange::<Takes>(seat, TAIL, tail, new)
}

/// Parts the batch that ends at `end`, at this position, if the mark is still the mark that was found. That mark says
/// nothing of the position. After the step a taking may end there, and another may begin.
pub(crate) fn exchange_mark<C: Protocol, J: PartPosition>(
    words: &Words<C>,
    seat: &mut Seat<u64, View>,
    room: usize,
    position: u64,
    mark: u64,
    end: u64,
) -> u64
    requires queue { IsSeated room words.now.table_id seat.old }
    requires position { (J.position ≡ position) × (J.end ≡ end) }
    requires within { IsWithin seat.old.me.0.seen.object position end }
    requires idle { mark / 2 ≤ position }
    requires near { (end ≤ position + room) × (end < POSITIONS) }
    ensures queue { IsSame seat.old seat.new × Stays seat.old.me.0 seat.new.me.0 }
    ensures slots { seat.new.me.1 ≡ seat.old.me.1 }
    ensures hit { result ≡ mark → Parted seat.old.me.0 (mark_word room position) mark position end
        seat.new.me.0 }
    ensures miss { result ≢ mark → Found seat.old.me.0 (mark_word room position) result seat.new.me.0 }
{
    let word = mark_word(room, position);
    words.compare_exchange::<Parts<J>>(seat, word, mark, 2 * end)
}

/// Gives the places of the end's taking back, with whatever is in their slots: by one store.
pub(crate) fn give_back<C: Protocol>(
    words: &Words<C>,
    seat: &mut Seat<u64, View>,
    room: usize,
    start: u64,
    count: usize,
)
    requires queue { IsSeated room words.now.table_id seat.old }
    requires mine { HoldsRange 2 start count seat.old.me.0 }
    requires slots { (values : List ℕ) × (seat.old.me.1 ≡ slots_of room start values) × (length values ≡ count) }
    ensures queue { IsSame seat.old seat.new × Stays seat.old.me.0 seat.new.me.0 }
    ensures given { Released seat.old.me.0 (mark_word room start) start (start + count) 2 seat.new.me }
    ensures kept { IsKept Rule (KeepsTo C.allows) seat.new.me.0 }
{
    let end = start + count as u64;
    words.store::<Releases<C>>(seat, mark_word(room, start), 2 * end + 1);
}

/// Moves the window on over places that were found given back.
pub(crate) fn exchange_free<C: Protocol>(
    words: &Words<C>,
    seat: &mut Seat<u64, View>,
    free: u64,
    new: u64,
) -> u64
    requires queue { (seat.old.table_id ≡ words.now.table_id) × (FIRST_MARK ≤ words.now.table_id.words) }
    requires live { 1 ≤ seat.old.me.0.member.ends }
    requires back { HasBack seat.old.me.0 free new × (free < new) }
    ensures queue { IsSame seat.old seat.new × Stays seat.old.me.0 seat.new.me.0 }
    ensures slots { seat.new.me.1 ≡ seat.old.me.1 }
    ensures hit { result ≡ free → Freed seat.old.me.0 free new seat.new.me.0 }
    ensures miss { result ≢ free → Found seat.old.me.0 free_word result seat.new.me.0 }
{
    words.compare_exchange::<Frees>(seat, FREE, free, new)
}

pub(crate) fn or_head<C: Protocol>(words: &Words<C>, seat: &mut Seat<u64, View>) -> u64
    requires queue { (seat.old.table_id ≡ words.now.table_id) × (FIRST_MARK ≤ words.now.table_id.words) }
    requires live { 1 ≤ seat.old.me.0.member.ends }
    ensures queue { IsSame seat.old seat.new × Stays seat.old.me.0 seat.new.me.0 }
    ensures slots { seat.new.me.1 ≡ seat.old.me.1 }
    ensures shut { Shut seat.old.me.0 result seat.new.me.0 }
{
    words.fetch_or::<Shuts>(seat, HEAD, SHUT)
}
