//! The look at the number of ends before a close, whatever the table is.
//!
//! An end that found no other is a `Last`, which can only close the table: it can't be let go, copied or made
//! elsewhere. So a close that succeeds makes one look at the table, and none after it. No look comes before it: an
//! end that isn't alone is returned with this one look in its list. No other load of the number of ends could show
//! sooner that the end is alone.
ghost use Rattle.std.specs.Prelude.{◌≡◌, ◌≢◌, ◌<◌, ℕ, IfOk, IfErr};
ghost use Rattle.std.specs.Mem.Slots.{slots_items, slots_len, IsFull};
ghost use mathlib.Core.Option.{none};
ghost use Rattle.atomic_table.specs.Table.{Final, Seen, step, Allows};
ghost use Rattle.table_theory.specs.Plays.{counts};
ghost use Rattle.table_theory.specs.Seating.{IsSame};

use atomic_table::{Closed, Play, Seat, Shared, Table, TableRule};
use std::alloc::Allocator;
use std::marker::{Brand, PhantomData};

/// The number of ends if there is no other.
const ALONE: u64 = 1;

/// The rule of a table that counts its ends in one of its words. S is what a slot holds, V what an end knows, and Key
/// what the table is made with.
pub trait CountRule<S, V, Key>: TableRule<S, V, Key> {
    // The views of the end whose seat has this number, by its look: the one before, the number of ends, the one after.
    ghost tallied: { ℕ → V → ℕ → V → Type 0 };
}

/// The number of the seat that looks.
pub trait Caller {
    ghost call: { ℕ };
}

impl Caller for Brand {
    ghost call = { 0 };
}

/// The number of ends is found.
struct Counts<Key, P, J> {
    key: PhantomData<Key>,
    rule: PhantomData<P>,
    caller: PhantomData<J>,
}

impl<S, V, Key, P: CountRule<S, V, Key>, J: Caller> Play<S, V> for Counts<Key, P, J> {
    ghost then = { counts (P.tallied J.call) };
}

/// An end that found no other.
pub struct Last<S, V> {
    seat: Seat<S, V>,
}

/// Looks at the number of ends, as the rule allows it. If there are others, returns the end, with the number of all.
pub fn count<S, V, Key, P: CountRule<S, V, Key>, J: Caller>(
    words: &Shared<S, V, Key, P>,
    seat: Seat<S, V>,
    word: usize,
) -> Result<Last<S, V>, (Seat<S, V>, u64)>
    requires table { (seat.table_id ≡ words.now.table_id) × (word < words.now.table_id.words) }
    requires call { J.call ≡ seat.id }
    requires allowed { Allows (P.holds words.now.key) words.now.table_id.slots seat.id seat.me word (λ n. n)
        (counts (P.tallied seat.id) (step words.now.table_id.slots word 0 0 none) seat.me) }
    ensures alone { IfOk result (λ last. IsSame seat last.seat × P.tallied seat.id seat.me.0 1 last.seat.me.0) }
    ensures frame { IfErr result (λ e. (e.1 ≢ 1) × IsSame seat e.0 × (e.0.me.1 ≡ seat.me.1)
        × P.tallied seat.id seat.me.0 e.1 e.0.me.0) }
{
    let mut seat = seat;
    let ends = words.load::<Counts<Key, P, J>>(&mut seat, word);
    if ends == ALONE {
        return Ok(Last { seat });
    }
    Err((seat, ends))
}

/// Closes the table by its last end.
pub fn close_by<S, V, Key, P: CountRule<S, V, Key>, A: Allocator>(
    table: Table<S, V, Key, P, A>,
    last: Last<S, V>,
) -> Closed<S, A>
    requires { last.seat.table_id ≡ table.shared.table_id }
    ensures counts { (slots_len result.words ≡ table.shared.table_id.words)
        × (slots_len result.slots ≡ table.shared.table_id.slots) }
    ensures values { IsFull result.words × IsFull result.slots
        × Final (Seen (P.holds table.shared.key) last.seat.id last.seat.me.0)
        (slots_items result.words) (slots_items result.slots) }
{
    let Last { seat } = last;
    table.close_with(seat)
}
