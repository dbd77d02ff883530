//! The atomic steps. No signature has a const parameter, since a call of such a function could not pick ghost members.
ghost use Rattle.std.specs.Prelude.{◌≡◌, ◌≢◌, ◌+◌, ◌<◌, ◌≤◌, ℕ, false, [], length};
ghost use Rattle.std.specs.Prelude.{slice_index_or};
ghost use mathlib.Core.Option.{some};
ghost use lib.ListN.{get_elem?};
ghost use Rattle.table_theory.specs.declared.positions.TheConstants.{POSITIONS};
ghost use Rattle.table_theory.specs.declared.queues.Batch.{Batch};
ghost use Rattle.table_theory.specs.Ledgers.{CountedUp, CountedDown};
ghost use Rattle.table_theory.specs.Ledgers.{rest_of, rest_without, newborn, newborn_with};
ghost use Rattle.table_theory.specs.Sharing.{IsPortion};
ghost use Rattle.table_theory.specs.Listing.{number_of};
ghost use Rattle.table_theory.specs.Positioned.{blank, tail_of};
ghost use Rattle.table_theory.specs.Seating.{IsSame};
ghost use Rattle.proc_chain.specs.Rules.{suits, makes};
ghost use Rattle.proc_chain.specs.Layout.{head_word, tail_word, ends_word, place_word, raised_word};
ghost use Rattle.proc_chain.specs.Layout.{mark_of, width};
ghost use Rattle.proc_chain.specs.declared.layout.TheConstants.{NOTES};
ghost use Rattle.proc_chain.specs.Own.{nothing_did, queue_of};
ghost use Rattle.proc_chain.specs.Steps.{Found, FoundNotRaised, Claimed, Raised, BegunRound};
ghost use Rattle.proc_chain.specs.Steps.{Meets, Stays};
ghost use Rattle.proc_chain.specs.Turns.{IsRunner};

use crate::layout::{ENDS, GATE, HEAD, RUNNING, place_word};
use crate::plays::{
    ClaimedNote, Claims, CountsDown, CountsUp, Finds, Gives, GivesShare, Raises, Rounds, Spies,
};
use crate::quaject::Quaject;
use crate::rule::{ChainRule, Pact, Shape, View};
use crate::word::PlaceWord;
use atomic_table::{Seat, Shared};
use table_theory::end_steps::Portion;

pub(crate) fn load<Q: Quaject>(
    words: &Shared<Q, View, Shape<Pact<Q::World, Q>>, ChainRule>,
    seat: &mut Seat<Q, View>,
    word: usize,
) -> u64
    requires queue { (seat.old.table_id ≡ words.now.table_id) × (word < words.now.table_id.words) }
    requires live { 1 ≤ seat.old.me.0.member.ends }
    ensures frame { IsSame seat.old seat.new × Stays seat.old.me seat.new.me }
    ensures found { Found seat.old.me.0 word result seat.new.me.0 }
    ensures bounded { (word ≡ head_word → result < POSITIONS) × (word ≡ tail_word → result < POSITIONS) }
{
    words.load::<Finds>(seat, word)
}

/// The claim of one place.
pub(crate) fn exchange_head<Q: Quaject, J: ClaimedNote>(
    words: &Shared<Q, View, Shape<Pact<Q::World, Q>>, ChainRule>,
    seat: &mut Seat<Q, View>,
    head: u64,
    note: u16,
) -> u64
    requires queue { (seat.old.table_id ≡ words.now.table_id) × (words.now.table_id.words ≡ width) }
    requires live { 1 ≤ seat.old.me.0.member.ends }
    requires note { J.note ≡ note }
    requires room { head + 1 ≤ tail_of (queue_of seat.old.me.0) + (queue_of seat.old.me.0).room }
    requires bounded { head + 1 < POSITIONS }
    ensures frame { IsSame seat.old seat.new × Stays seat.old.me seat.new.me }
    ensures hit { result ≡ head → Claimed seat.old.me.0 head J.note seat.new.me.0 }
    ensures miss { result ≢ head → Found seat.old.me.0 head_word result seat.new.me.0 }
{
    let _ = note;
    words.compare_exchange::<Claims<J>>(seat, HEAD, head, head + 1)
}

/// The raise of the end's run that begins at `start`.
pub(crate) fn store_place<Q: Quaject>(
    words: &Shared<Q, View, Shape<Pact<Q::World, Q>>, ChainRule>,
    seat: &mut Seat<Q, View>,
    start: u64,
    note: u16,
)
    requires queue { (seat.old.table_id ≡ words.now.table_id) × (words.now.table_id.words ≡ width) }
    requires live { 1 ≤ seat.old.me.0.member.ends }
    requires bounded { start < POSITIONS }
    requires mine { (e : Batch)
        × (get_elem? seat.old.me.0.own.runs (number_of start seat.old.me.0.own.runs) ≡ some e)
        × (e.start ≡ start) × (0 < length e.places) × ((slice_index_or e.places 0 blank).stage < 2)
        × ((slice_index_or e.places 0 blank).item ≡ note) }
    ensures frame { IsSame seat.old seat.new × Stays seat.old.me seat.new.me }
    ensures raised { (e : Batch) → get_elem? seat.old.me.0.own.runs (number_of start seat.old.me.0.own.runs) ≡ some e
        → Raised seat.old.me.0 start note e seat.new.me.0 }
{
    let word = PlaceWord::raised(start, note).bits();
    words.store::<Raises>(seat, place_word(start as usize), word);
}

/// The runner's look at the place of the tail.
pub(crate) fn load_place<Q: Quaject>(
    words: &Shared<Q, View, Shape<Pact<Q::World, Q>>, ChainRule>,
    seat: &mut Seat<Q, View>,
    tail: u64,
) -> PlaceWord
    requires queue { (seat.old.table_id ≡ words.now.table_id) × (words.now.table_id.words ≡ width) }
    requires runner { IsRunner (makes Q.made_by words.now.key.pact) (suits Q.fits words.now.key.pact) seat.old.me }
    requires tail { (tail ≡ tail_of (queue_of seat.old.me.0)) × (tail < POSITIONS) }
    ensures frame { IsSame seat.old seat.new × Stays seat.old.me seat.new.me }
    ensures note { result.note < NOTES }
    ensures up { result.mark ≡ tail + 1
        → Found seat.old.me.0 (place_word tail) (raised_word tail result.note) seat.new.me.0 }
    ensures low { result.mark ≢ tail + 1 → (word : ℕ) × (mark_of word ≡ result.mark)
        × FoundNotRaised seat.old.me.0 (place_word tail) word seat.new.me.0 }
{
    PlaceWord::of(words.load::<Spies>(seat, place_word(tail as usize)))
}

/// The begin of a round.
pub(crate) fn swap_running<Q: Quaject>(
    words: &Shared<Q, View, Shape<Pact<Q::World, Q>>, ChainRule>,
    seat: &mut Seat<Q, View>,
) -> u64
    requires queue { (seat.old.table_id ≡ words.now.table_id) × (words.now.table_id.words ≡ width) }
    requires runner { IsRunner (makes Q.made_by words.now.key.pact) (suits Q.fits words.now.key.pact) seat.old.me }
    ensures frame { IsSame seat.old seat.new × Stays seat.old.me seat.new.me }
    ensures rounded { BegunRound seat.old.me.0 result seat.new.me.0 }
{
    words.swap::<Rounds>(seat, GATE, RUNNING)
}

pub(crate) fn count_up<Q: Quaject>(
    words: &Shared<Q, View, Shape<Pact<Q::World, Q>>, ChainRule>,
    seat: &mut Seat<Q, View>,
) -> u64
    requires queue { (seat.old.table_id ≡ words.now.table_id) × (words.now.table_id.words ≡ width) }
    requires parts { seat.old.me.0.member.ends + 1 ≤ seat.old.me.0.member.share }
    ensures frame { IsSame seat.old seat.new × Stays seat.old.me seat.new.me }
    ensures counted { CountedUp ends_word seat.old.me.0 seat.new.me.0
        × Meets seat.old.me.0 seat.new.me.0.seen.object }
{
    words.fetch_add::<CountsUp>(seat, ENDS, 1)
}

pub(crate) fn count_down<Q: Quaject>(
    words: &Shared<Q, View, Shape<Pact<Q::World, Q>>, ChainRule>,
    seat: &mut Seat<Q, View>,
) -> u64
    requires queue { (seat.old.table_id ≡ words.now.table_id) × (words.now.table_id.words ≡ width) }
    requires live { 2 ≤ seat.old.me.0.member.ends }
    ensures frame { IsSame seat.old seat.new × Stays seat.old.me seat.new.me }
    ensures counted { CountedDown ends_word seat.old.me.0 seat.new.me.0
        × Meets seat.old.me.0 seat.new.me.0.seen.object × (seat.old.me.0.own.doubled ≡ false) }
{
    words.fetch_sub::<CountsDown>(seat, ENDS, 1)
}

pub(crate) fn split_off<Q: Quaject>(
    words: &Shared<Q, View, Shape<Pact<Q::World, Q>>, ChainRule>,
    seat: &mut Seat<Q, View>,
) -> Seat<Q, View>
    requires queue { (seat.old.table_id ≡ words.now.table_id) × (words.now.table_id.words ≡ width) }
    requires live { seat.old.me.0.member.ends ≡ 2 }
    ensures queue { IsSame seat.old seat.new × (result.table_id ≡ seat.old.table_id) }
    ensures split { (seat.new.me ≡ (rest_of seat.old.me.0, seat.old.me.1))
        × (result.me ≡ (newborn nothing_did seat.old.me.0, [])) }
{
    words.split_seat::<Gives>(seat)
}

// The new end gets `share` parts.
pub(crate) fn split_share_off<Q: Quaject, J: Portion>(
    words: &Shared<Q, View, Shape<Pact<Q::World, Q>>, ChainRule>,
    seat: &mut Seat<Q, View>,
    share: u64,
) -> Seat<Q, View>
    requires queue { (seat.old.table_id ≡ words.now.table_id) × (words.now.table_id.words ≡ width) }
    requires live { seat.old.me.0.member.ends ≡ 2 }
    requires portion { (J.parts ≡ share) × IsPortion share seat.old.me.0.member.share }
    ensures queue { IsSame seat.old seat.new × (result.table_id ≡ seat.old.table_id) }
    ensures split { (seat.new.me ≡ (rest_without share seat.old.me.0, seat.old.me.1))
        × (result.me ≡ (newborn_with share nothing_did seat.old.me.0, [])) }
{
    let _ = share;
    words.split_seat::<GivesShare<J>>(seat)
}
