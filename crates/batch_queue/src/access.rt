//! Plain reads and writes of the slots that an end holds. Each access turns to the next slot, so after all accesses the
//! slots are in their order again.
ghost use Rattle.std.specs.Prelude.{◌≡◌, ◌+◌, ◌<◌, ◌≤◌, ◌++◌, ◌∷◌, ℕ, List, length, map, drop};
ghost use Rattle.atomic_table.specs.Table.{rest};
ghost use Rattle.table_theory.specs.Seating.{IsSame};
ghost use Rattle.batch_queue.specs.Slots.{slots_of, value_of};
ghost use Rattle.batch_queue.specs.Steps.{IsSeated};
ghost use Rattle.batch_queue.specs.declared.layout.TheConstants.{POSITIONS};

use crate::layout::place;
use crate::rule::View;
use crate::steps::Words;
use atomic_table::Seat;
use table_theory::protocol::Protocol;

/// Writes these items into the slots that the end holds, which are those of the positions from `start` on.
pub(crate) fn write_items<C: Protocol>(
    words: &Words<C>,
    seat: &mut Seat<u64, View>,
    room: usize,
    start: u64,
    items: &[u64],
)
    requires queue { IsSeated room words.now.table_id seat.old }
    requires held { (values : List ℕ) × (length values ≡ length items.now)
        × (seat.old.me.1 ≡ slots_of room start values) }
    requires bounded { start + length items.now < POSITIONS }
    ensures effect { seat.new.me.1 ≡ slots_of room start items.now }
    ensures frame { seat.new.me.0 ≡ seat.old.me.0 }
    ensures handle { IsSame seat.old seat.new }
{
    for i in 0..items.len() {
        let slot = place(room, start + i as u64);
        let _ = words.exchange(seat, slot, items[i]);
        seat.turn();
    }
}

// The value of the first slot that the end holds.
fn peek_item<C: Protocol>(words: &Words<C>, seat: &mut Seat<u64, View>, slot: usize) -> u64
    requires queue { seat.old.table_id ≡ words.now.table_id }
    requires front { (value : ℕ) × (seat.old.me.1 ≡ (slot, value) ∷ rest seat.old.me.1) }
    ensures result { seat.old.me.1 ≡ (slot, result) ∷ rest seat.old.me.1 }
    ensures frame { seat.new.me ≡ seat.old.me }
    ensures handle { IsSame seat.old seat.new }
{
    *seat.slot_mut(words, slot)
}

/// Reads the slots that the end holds, which are those of the positions from `start` on, into the first of `items`.
pub(crate) fn read_items<C: Protocol>(
    words: &Words<C>,
    seat: &mut Seat<u64, View>,
    room: usize,
    start: u64,
    count: usize,
    items: &mut [u64],
)
    requires queue { IsSeated room words.now.table_id seat.old }
    requires held { (values : List ℕ) × (length values ≡ count) × (seat.old.me.1 ≡ slots_of room start values) }
    requires bounded { (start + count < POSITIONS) × (count ≤ length items.old) }
    ensures effect { items.new ≡ map value_of seat.old.me.1 ++ drop count items.old }
    ensures held { (values : List ℕ) × (length values ≡ count) × (seat.new.me.1 ≡ slots_of room start values) }
    ensures frame { seat.new.me.0 ≡ seat.old.me.0 }
    ensures handle { IsSame seat.old seat.new }
{
    for i in 0..count {
        let slot = place(room, start + i as u64);
        let item = peek_item(words, seat, slot);
        seat.turn();
        items[i] = item;
    }
}
