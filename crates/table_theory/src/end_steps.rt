//! The steps that make, split, join and count the ends of a table, whatever the table is.
ghost use Rattle.std.specs.Prelude.{◌≡◌, ℕ, ◌+◌, ◌%◌, ◌^◌, ◌-◌, ◌<◌, []};
ghost use mathlib.Core.Option.{Option, none, some};
ghost use Rattle.atomic_table.specs.Table.{step, Allows, Splits, Joins};
ghost use Rattle.table_theory.specs.declared.views.EndState.{EndState};
ghost use Rattle.table_theory.specs.Ledgers.{CountedUp, CountedDown, both, emptied};
ghost use Rattle.table_theory.specs.Ledgers.{rest_of, rest_without, newborn, newborn_with};
ghost use Rattle.table_theory.specs.Plays.{counts_up, counts_down, the_view};
ghost use Rattle.table_theory.specs.Seating.{IsSame};

use crate::views::EndState;
use atomic_table::{Join, Play, Seat, Shared, Split, TableRule};
use std::marker::{Brand, PhantomData};

/// The rule of a table whose ends are split and joined. S is what a slot holds, K what an end did, O the object, and
/// Key what the table is made with.
pub trait EndsRule<S, K, O, Key>: TableRule<S, EndState<K, O>, Key> {
    // The condition on an end that has counted one more or one less.
    ghost suits: { EndState K O → Type 0 };

    // The record of an end that did nothing.
    ghost nothing: { K };

    // The record of what two ends did.
    ghost plus: { K → K → K };

    // The view of some end.
    ghost some_view: { EndState K O };
}

/// One end more is counted.
struct CountsUp<Key, P> {
    key: PhantomData<Key>,
    rule: PhantomData<P>,
}

impl<S, K, O, Key, P: EndsRule<S, K, O, Key>> Play<S, EndState<K, O>> for CountsUp<Key, P> {
    ghost then = { counts_up P.suits };
}

/// One end less is counted.
struct CountsDown<Key, P> {
    key: PhantomData<Key>,
    rule: PhantomData<P>,
}

impl<S, K, O, Key, P: EndsRule<S, K, O, Key>> Play<S, EndState<K, O>> for CountsDown<Key, P> {
    ghost then = { counts_down P.suits };
}

/// A part of an end's share goes to a new end.
struct Gives<S, Key, P> {
    slot: PhantomData<S>,
    key: PhantomData<Key>,
    rule: PhantomData<P>,
}

impl<S, K, O, Key, P: EndsRule<S, K, O, Key>> Split<EndState<K, O>> for Gives<S, Key, P> {
    ghost left = { rest_of };

    ghost right = { newborn P.nothing };
}

/// The number of parts that an end gives to a new end.
pub trait Portion {
    ghost parts: { ℕ };
}

impl Portion for Brand {
    ghost parts = { 0 };
}

/// So many parts of an end's share go to a new end.
struct GivesShare<S, Key, P, J> {
    slot: PhantomData<S>,
    key: PhantomData<Key>,
    rule: PhantomData<P>,
    portion: PhantomData<J>,
}

impl<S, K, O, Key, P: EndsRule<S, K, O, Key>, J: Portion> Split<EndState<K, O>>
    for GivesShare<S, Key, P, J> {
    ghost left = { rest_without J.parts };

    ghost right = { newborn_with J.parts P.nothing };
}

/// The view of an end that was taken in.
pub trait Spent<V> {
    ghost view: { Option V };
}

impl<V> Spent<V> for Brand {
    ghost view = { none };
}

/// An end takes in another.
struct Joined<S, Key, P, J> {
    slot: PhantomData<S>,
    key: PhantomData<Key>,
    rule: PhantomData<P>,
    spent: PhantomData<J>,
}

impl<S, K, O, Key, P: EndsRule<S, K, O, Key>, J: Spent<EndState<K, O>>> Join<EndState<K, O>>
    for Joined<S, Key, P, J> {
    ghost both = { both P.plus };

    ghost spent = { the_view J.view P.some_view };
}

/// Counts one end more, as the rule allows it.
pub fn count_up<S, K, O, Key, P: EndsRule<S, K, O, Key>>(
    words: &Shared<S, EndState<K, O>, Key, P>,
    seat: &mut Seat<S, EndState<K, O>>,
    word: usize,
) -> u64
    requires table { (seat.old.table_id ≡ words.now.table_id) × (word < words.now.table_id.words) }
    requires allowed { Allows (P.holds words.now.key) words.now.table_id.slots seat.old.id seat.old.me word
        (λ n. (n + 1) % 2 ^ 64) (counts_up P.suits (step words.now.table_id.slots word 1 0 none) seat.old.me) }
    ensures seat { IsSame seat.old seat.new × (seat.new.me.1 ≡ seat.old.me.1) }
    ensures suits { P.suits seat.new.me.0 }
    ensures counted { CountedUp word seat.old.me.0 seat.new.me.0 }
{
    words.fetch_add::<CountsUp<Key, P>>(seat, word, 1)
}

/// Counts one end less, as the rule allows it.
pub fn count_down<S, K, O, Key, P: EndsRule<S, K, O, Key>>(
    words: &Shared<S, EndState<K, O>, Key, P>,
    seat: &mut Seat<S, EndState<K, O>>,
    word: usize,
) -> u64
    requires table { (seat.old.table_id ≡ words.now.table_id) × (word < words.now.table_id.words) }
    requires allowed { Allows (P.holds words.now.key) words.now.table_id.slots seat.old.id seat.old.me word
        (λ n. (n + (2 ^ 64 - 1)) % 2 ^ 64)
        (counts_down P.suits (step words.now.table_id.slots word 1 0 none) seat.old.me) }
    ensures seat { IsSame seat.old seat.new × (seat.new.me.1 ≡ seat.old.me.1) }
    ensures suits { P.suits seat.new.me.0 }
    ensures counted { CountedDown word seat.old.me.0 seat.new.me.0 }
{
    words.fetch_sub::<CountsDown<Key, P>>(seat, word, 1)
}

/// A new end gets a part of the end's share, and has seen what the end has seen. The first word is loaded once, and the
/// value found there is not used.
pub fn split_off<S, K, O, Key, P: EndsRule<S, K, O, Key>>(
    words: &Shared<S, EndState<K, O>, Key, P>,
    seat: &mut Seat<S, EndState<K, O>>,
) -> Seat<S, EndState<K, O>>
    requires table { (seat.old.table_id ≡ words.now.table_id) × (0 < words.now.table_id.words) }
    requires allowed { Splits (P.holds words.now.key) seat.old.id seat.old.me.0 (rest_of seat.old.me.0)
        (newborn P.nothing seat.old.me.0) }
    ensures seat { IsSame seat.old seat.new × (result.table_id ≡ seat.old.table_id) }
    ensures split { (seat.new.me ≡ (rest_of seat.old.me.0, seat.old.me.1))
        × (result.me ≡ (newborn P.nothing seat.old.me.0, [])) }
{
    words.split_seat::<Gives<S, Key, P>>(seat)
}

/// A new end gets `share` parts of the end's share, and has seen what the end has seen. The first word is loaded once,
/// and the value found there is not used. The number is used in proofs alone.
pub fn split_share_off<S, K, O, Key, P: EndsRule<S, K, O, Key>, J: Portion>(
    words: &Shared<S, EndState<K, O>, Key, P>,
    seat: &mut Seat<S, EndState<K, O>>,
    share: u64,
) -> Seat<S, EndState<K, O>>
    requires table { (seat.old.table_id ≡ words.now.table_id) × (0 < words.now.table_id.words) }
    requires portion { J.parts ≡ share }
    requires allowed { Splits (P.holds words.now.key) seat.old.id seat.old.me.0 (rest_without share seat.old.me.0)
        (newborn_with share P.nothing seat.old.me.0) }
    ensures seat { IsSame seat.old seat.new × (result.table_id ≡ seat.old.table_id) }
    ensures split { (seat.new.me ≡ (rest_without share seat.old.me.0, seat.old.me.1))
        × (result.me ≡ (newborn_with share P.nothing seat.old.me.0, [])) }
{
    let _ = share;
    words.split_seat::<GivesShare<S, Key, P, J>>(seat)
}

/// The end gets all that the other end has. The first word is loaded once, and the value found there is not used.
pub fn take_in<S, K, O, Key, P: EndsRule<S, K, O, Key>, J: Spent<EndState<K, O>>>(
    words: &Shared<S, EndState<K, O>, Key, P>,
    seat: &mut Seat<S, EndState<K, O>>,
    other: Seat<S, EndState<K, O>>,
)
    requires table { (seat.old.table_id ≡ words.now.table_id) × (other.table_id ≡ words.now.table_id)
        × (other.me.1 ≡ []) × (0 < words.now.table_id.words) }
    requires spent { J.view ≡ some (emptied P.nothing seat.old.me.0) }
    requires allowed { Joins (P.holds words.now.key) seat.old.id seat.old.me.0 other.id other.me.0
        (both P.plus seat.old.me.0 other.me.0) (emptied P.nothing seat.old.me.0) }
    ensures seat { IsSame seat.old seat.new }
    ensures joined { seat.new.me ≡ (both P.plus seat.old.me.0 other.me.0, seat.old.me.1) }
{
    words.join_seat::<Joined<S, Key, P, J>>(seat, other);
}
