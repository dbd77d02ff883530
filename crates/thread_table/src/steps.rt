//! The atomic steps. One function of each kind serves all element queues, processors and elements.
ghost use Rattle.std.specs.Prelude.{◌≡◌, ◌≢◌, ◌+◌, ◌*◌, ◌%◌, ◌<◌, ◌≤◌, ◌/◌, ℕ, true, false, [], length};
ghost use Rattle.std.specs.Prelude.{Some, None};
ghost use Rattle.std.specs.Int.{bit_at};
ghost use Rattle.std.specs.Int.Bits.{bit_or, bit_and};
ghost use Rattle.table_theory.specs.Seating.{IsSame};
ghost use Rattle.thread_table.specs.Schedules.{elements_after, ring_at, element_at};
ghost use Rattle.table_theory.specs.declared.positions.TheConstants.{POSITIONS};
ghost use Rattle.thread_table.specs.declared.layout.TheConstants.{WORDS, PROCESSORS, ELEMENTS, RINGS, WAITS, NOTIFY};
ghost use Rattle.thread_table.specs.declared.layout.TheConstants.{CELL, SIGNAL_BITS, STOP_BITS};
ghost use Rattle.thread_table.specs.Layout.{state_word, head_word, tail_word, place_word, wait_ring, stop_bit};
ghost use Rattle.thread_table.specs.Layout.{processor_word, done_word, half_word, most_done};
ghost use Rattle.thread_table.specs.Shown.{head_shown, tail_shown};
ghost use Rattle.thread_table.specs.Rules.{HasStood, IsActive, MayStep, has, serves, running};
ghost use Rattle.thread_table.specs.Views.{count_of, HasClaimed};
ghost use Rattle.thread_table.specs.Entries.{claim_event, take_event};
ghost use Rattle.thread_table.specs.Answers.{raise_event, is_in};
ghost use Rattle.thread_table.specs.Sets.{marks};
ghost use Rattle.thread_table.specs.Steps.{Found, HandDid, IsTurn, ReadPc, CountedUp, CountedDown};
ghost use Rattle.thread_table.specs.Steps.{rest_of, rest_without, newborn, newborn_with, both, emptied};
ghost use Rattle.table_theory.specs.Sharing.{IsPortion};
ghost use Rattle.event_theory.specs.declared.event.Event.TheVariants as events;
ghost use Rattle.thread_table.specs.Reads.{Peeked, StateIs};

use crate::layout::{
    ENDS, NOTIFY, STOP, done_word, head_word, place_word, processor_word, state_word, tail_word,
    wait_ring,
};
use crate::plays::{
    Caller, CountDown, CountUp, EventOf, GivesShare, Halves, Joins, LoadDone, Look, Makes, Mask,
    MaskedPortion, Spent, Stores, Tries,
};
use crate::rule::{Shape, ThreadRule, View};
use atomic_table::{Seat, Shared};
use std::marker::Brand;

pub(crate) type Words = Shared<(), View, Shape, ThreadRule>;

fn load<J: Caller>(words: &Words, seat: &mut Seat<(), View>, word: usize) -> u64
    requires queue { (seat.old.table_id ≡ words.now.table_id) × (word < words.now.table_id.words) }
    requires live { IsActive seat.old.me.0 }
    requires call { J.call ≡ seat.old.id }
    ensures { IsSame seat.old seat.new × (seat.new.me.1 ≡ seat.old.me.1)
        × Found seat.old.me.0 word result seat.new.me.0 × ∥ HasStood seat.new.id seat.new.me.0 ∥₁ }
{
    words.load::<Look<J>>(seat, word)
}

pub(crate) fn load_head(words: &Words, seat: &mut Seat<(), View>, ring: usize) -> u64
    requires queue { (seat.old.table_id ≡ words.now.table_id) × (words.now.table_id.words ≡ WORDS) × (ring < RINGS) }
    requires live { IsActive seat.old.me.0 }
    ensures queue { IsSame seat.old seat.new × (seat.new.me.1 ≡ seat.old.me.1) }
    ensures stands { ∥ HasStood seat.new.id seat.new.me.0 ∥₁ }
    ensures found { Found seat.old.me.0 (head_word ring) result seat.new.me.0 }
    ensures head { result ≡ head_shown seat.old.me.0.own.first (elements_after seat.new.me.0.seen.object) ring }
{
    load::<Brand>(words, seat, head_word(ring))
}

pub(crate) fn load_tail(words: &Words, seat: &mut Seat<(), View>, ring: usize) -> u64
    requires queue { (seat.old.table_id ≡ words.now.table_id) × (words.now.table_id.words ≡ WORDS) × (ring < RINGS) }
    requires live { IsActive seat.old.me.0 }
    ensures queue { IsSame seat.old seat.new × (seat.new.me.1 ≡ seat.old.me.1) }
    ensures stands { ∥ HasStood seat.new.id seat.new.me.0 ∥₁ }
    ensures found { Found seat.old.me.0 (tail_word ring) result seat.new.me.0 }
    ensures tail { result ≡ tail_shown seat.old.me.0.own.first (elements_after seat.new.me.0.seen.object) ring }
    ensures bounded { result < POSITIONS }
{
    load::<Brand>(words, seat, tail_word(ring))
}

// Loads the place at the tail that the hand has seen; the tail may be past this place by now.
pub(crate) fn load_place(
    words: &Words,
    seat: &mut Seat<(), View>,
    ring: usize,
    position: u64,
) -> u64
    requires queue { (seat.old.table_id ≡ words.now.table_id) × (words.now.table_id.words ≡ WORDS) × (ring < RINGS) }
    requires live { IsActive seat.old.me.0 }
    requires tail { position ≡ tail_shown seat.old.me.0.own.first (elements_after seat.old.me.0.seen.object) ring }
    ensures queue { IsSame seat.old seat.new × (seat.new.me.1 ≡ seat.old.me.1) }
    ensures stands { ∥ HasStood seat.new.id seat.new.me.0 ∥₁ }
    ensures found { Found seat.old.me.0 (place_word ring position) result seat.new.me.0 }
    ensures place { Peeked seat.old.me.0 ring result seat.new.me.0 }
{
    load::<Brand>(words, seat, place_word(ring, position))
}

pub(crate) fn exchange_head<J: EventOf>(
    words: &Words,
    seat: &mut Seat<(), View>,
    ring: usize,
    element: u8,
    head: u64,
) -> u64
    requires queue { (seat.old.table_id ≡ words.now.table_id) × (words.now.table_id.words ≡ WORDS) × (ring < RINGS) }
    requires mine { IsActive seat.old.me.0 × (seat.old.me.0.own.claimed ≡ None) }
    requires event { (J.call ≡ seat.old.id) × (J.event ≡ claim_event seat.old.id ring element) }
    requires held { (element < ELEMENTS) × (has seat.old.me.0 element ≡ true) }
    requires room { head % NOTIFY + 1 < POSITIONS }
    ensures queue { IsSame seat.old seat.new × (seat.new.me.1 ≡ seat.old.me.1) }
    ensures stands { ∥ HasStood seat.new.id seat.new.me.0 ∥₁ }
    ensures hit { result ≡ head → HandDid J.call seat.old.me.0 (head_word ring) head J.event seat.new.me.0 }
    ensures miss { result ≢ head → Found seat.old.me.0 (head_word ring) result seat.new.me.0
        × (result ≡ head_shown seat.old.me.0.own.first (elements_after seat.new.me.0.seen.object) ring) }
{
    let _ = element;
    // the lower half of the word stays below 2^32, so adding 1 leaves the number of notifies
    words.compare_exchange::<Tries<J>>(seat, head_word(ring), head, head + 1)
}

pub(crate) fn exchange_head_at<J: EventOf>(
    words: &Words,
    seat: &mut Seat<(), View>,
    wait: u8,
    element: u8,
    ticket: u32,
    head: u64,
) -> u64
    requires queue { (seat.old.table_id ≡ words.now.table_id) × (words.now.table_id.words ≡ WORDS) × (wait < WAITS) }
    requires mine { IsActive seat.old.me.0 × (seat.old.me.0.own.claimed ≡ None) }
    requires event { (J.call ≡ seat.old.id) × (J.event ≡ events.WaitAt seat.old.id wait element ticket) }
    requires held { (element < ELEMENTS) × (has seat.old.me.0 element ≡ true) }
    requires room { head % NOTIFY + 1 < POSITIONS }
    requires ticket { head / NOTIFY ≡ ticket }
    ensures queue { IsSame seat.old seat.new × (seat.new.me.1 ≡ seat.old.me.1) }
    ensures stands { ∥ HasStood seat.new.id seat.new.me.0 ∥₁ }
    ensures hit { result ≡ head → HandDid J.call seat.old.me.0 (head_word (wait_ring wait)) head J.event seat.new.me.0 }
    ensures miss { result ≢ head → Found seat.old.me.0 (head_word (wait_ring wait)) result seat.new.me.0
        × (result ≡ head_shown seat.old.me.0.own.first (elements_after seat.new.me.0.seen.object) (wait_ring wait)) }
{
    let _ = (element, ticket);
    // the lower half of the word stays below 2^32, so adding 1 leaves the number of notifies
    words.compare_exchange::<Tries<J>>(seat, head_word(wait_ring(wait)), head, head + 1)
}

// Raises the place that the hand has claimed.
pub(crate) fn store_place<J: EventOf>(
    words: &Words,
    seat: &mut Seat<(), View>,
    ring: usize,
    position: u64,
    element: u8,
    new: u64,
)
    requires queue { (seat.old.table_id ≡ words.now.table_id) × (words.now.table_id.words ≡ WORDS) × (ring < RINGS) }
    requires mine { IsActive seat.old.me.0 }
    requires event { (J.call ≡ seat.old.id) × (J.event ≡ raise_event seat.old.id seat.old.me.0 ring position) }
    requires claimed { HasClaimed seat.old.me.0 ring position element × (new ≡ element + 256 * (position + 1)) }
    ensures queue { IsSame seat.old seat.new × (seat.new.me.1 ≡ seat.old.me.1) }
    ensures stands { ∥ HasStood seat.new.id seat.new.me.0 ∥₁ }
    ensures effect { (found : ℕ) × HandDid J.call seat.old.me.0 (place_word ring position) found J.event seat.new.me.0 }
{
    let _ = element;
    // a store suffices: no other hand writes a place between its claim and its raise
    words.store::<Stores<J>>(seat, place_word(ring, position), new);
}

// Takes the place at this tail, which was raised when the hand last looked.
pub(crate) fn exchange_tail<J: EventOf>(
    words: &Words,
    seat: &mut Seat<(), View>,
    ring: usize,
    tail: u64,
) -> u64
    requires queue { (seat.old.table_id ≡ words.now.table_id) × (words.now.table_id.words ≡ WORDS) × (ring < RINGS) }
    requires mine { IsActive seat.old.me.0 × (seat.old.me.0.own.claimed ≡ None) }
    requires event { (J.call ≡ seat.old.id) × (J.event ≡ take_event seat.old.id ring) }
    requires raised { (run : ℕ) × (tail ≡ seat.old.me.0.own.first + run)
        × ((ring_at (elements_after seat.old.me.0.seen.object) ring).raised run 0 ≡ true) }
    requires bounded { tail < POSITIONS }
    ensures queue { IsSame seat.old seat.new × (seat.new.me.1 ≡ seat.old.me.1) }
    ensures stands { ∥ HasStood seat.new.id seat.new.me.0 ∥₁ }
    ensures hit { result ≡ tail → HandDid J.call seat.old.me.0 (tail_word ring) tail J.event seat.new.me.0 }
    ensures miss { result ≢ tail → Found seat.old.me.0 (tail_word ring) result seat.new.me.0
        × (result ≡ tail_shown seat.old.me.0.own.first (elements_after seat.new.me.0.seen.object) ring) }
{
    words.compare_exchange::<Tries<J>>(seat, tail_word(ring), tail, tail + 1)
}

pub(crate) fn add_notify<J: EventOf>(words: &Words, seat: &mut Seat<(), View>, wait: u8) -> u64
    requires queue { (seat.old.table_id ≡ words.now.table_id) × (words.now.table_id.words ≡ WORDS) × (wait < WAITS) }
    requires mine { IsActive seat.old.me.0 × (seat.old.me.0.own.claimed ≡ None) }
    requires event { (J.call ≡ seat.old.id) × (J.event ≡ events.NotifyWait seat.old.id wait) }
    ensures queue { IsSame seat.old seat.new × (seat.new.me.1 ≡ seat.old.me.1) }
    ensures stands { ∥ HasStood seat.new.id seat.new.me.0 ∥₁ }
    ensures effect { HandDid J.call seat.old.me.0 (head_word (wait_ring wait)) result J.event seat.new.me.0 }
{
    // the addition changes only the upper half of the word, which wraps at 2^32, and leaves the head
    words.fetch_add::<Makes<J>>(seat, head_word(wait_ring(wait)), NOTIFY)
}

pub(crate) fn swap_on<J: EventOf>(
    words: &Words,
    seat: &mut Seat<(), View>,
    processor: u8,
    element: u8,
)
    requires queue { (seat.old.table_id ≡ words.now.table_id) × (words.now.table_id.words ≡ WORDS) }
    requires mine { IsActive seat.old.me.0 × (seat.old.me.0.own.claimed ≡ None) }
    requires event { (J.call ≡ seat.old.id) × (J.event ≡ events.On seat.old.id processor element) }
    requires held { (element < ELEMENTS) × (has seat.old.me.0 element ≡ true) }
    requires empty { (processor < PROCESSORS) × (serves seat.old.me.0 processor ≡ true)
        × (running seat.old.me.0 processor ≡ None) }
    ensures queue { IsSame seat.old seat.new × (seat.new.me.1 ≡ seat.old.me.1) }
    ensures stands { ∥ HasStood seat.new.id seat.new.me.0 ∥₁ }
    ensures effect { (found : ℕ) × HandDid J.call seat.old.me.0 (processor_word processor) found J.event seat.new.me.0 }
{
    // no comparison is needed: only the hand that serves the processor writes its word, which is 0
    words.swap::<Makes<J>>(seat, processor_word(processor), element as u64 + 1);
}

pub(crate) fn swap_off<J: EventOf>(
    words: &Words,
    seat: &mut Seat<(), View>,
    processor: u8,
    element: u8,
)
    requires queue { (seat.old.table_id ≡ words.now.table_id) × (words.now.table_id.words ≡ WORDS) }
    requires mine { IsActive seat.old.me.0 × (seat.old.me.0.own.claimed ≡ None) }
    requires event { (J.call ≡ seat.old.id) × (J.event ≡ events.Off seat.old.id processor) }
    requires there { (processor < PROCESSORS) × (serves seat.old.me.0 processor ≡ true)
        × (running seat.old.me.0 processor ≡ Some element) }
    ensures queue { IsSame seat.old seat.new × (seat.new.me.1 ≡ seat.old.me.1) }
    ensures stands { ∥ HasStood seat.new.id seat.new.me.0 ∥₁ }
    ensures effect { (found : ℕ) × HandDid J.call seat.old.me.0 (processor_word processor) found J.event seat.new.me.0 }
{
    let _ = element;
    // no comparison is needed: only the hand that serves the processor writes its word
    words.swap::<Makes<J>>(seat, processor_word(processor), 0);
}

pub(crate) fn load_state(words: &Words, seat: &mut Seat<(), View>, element: u8) -> u64
    requires queue { (seat.old.table_id ≡ words.now.table_id) × (words.now.table_id.words ≡ WORDS)
        × (element < ELEMENTS) }
    requires live { IsActive seat.old.me.0 }
    ensures queue { IsSame seat.old seat.new × (seat.new.me.1 ≡ seat.old.me.1) }
    ensures stands { ∥ HasStood seat.new.id seat.new.me.0 ∥₁ }
    ensures found { Found seat.old.me.0 (state_word element) result seat.new.me.0 }
    ensures state { StateIs element result seat.new.me.0 }
{
    load::<Brand>(words, seat, state_word(element))
}

pub(crate) fn or_stop<J: EventOf>(words: &Words, seat: &mut Seat<(), View>, element: u8) -> u64
    requires queue { (seat.old.table_id ≡ words.now.table_id) × (words.now.table_id.words ≡ WORDS)
        × (element < ELEMENTS) }
    requires mine { IsActive seat.old.me.0 × (seat.old.me.0.own.claimed ≡ None) }
    requires event { (J.call ≡ seat.old.id) × (J.event ≡ events.Stop seat.old.id element) }
    ensures queue { IsSame seat.old seat.new × (seat.new.me.1 ≡ seat.old.me.1) }
    ensures stands { ∥ HasStood seat.new.id seat.new.me.0 ∥₁ }
    ensures effect { HandDid J.call seat.old.me.0 (state_word element) result J.event seat.new.me.0 }
{
    words.fetch_or::<Makes<J>>(seat, state_word(element), STOP)
}

pub(crate) fn or_signal<J: EventOf>(
    words: &Words,
    seat: &mut Seat<(), View>,
    element: u8,
    signal: u8,
) -> u64
    requires queue { (seat.old.table_id ≡ words.now.table_id) × (words.now.table_id.words ≡ WORDS)
        × (element < ELEMENTS) }
    requires mine { IsActive seat.old.me.0 × (seat.old.me.0.own.claimed ≡ None) }
    requires event { (J.call ≡ seat.old.id) × (J.event ≡ events.Signal seat.old.id element signal) × (signal < 16) }
    ensures queue { IsSame seat.old seat.new × (seat.new.me.1 ≡ seat.old.me.1) }
    ensures stands { ∥ HasStood seat.new.id seat.new.me.0 ∥₁ }
    ensures effect { HandDid J.call seat.old.me.0 (state_word element) result J.event seat.new.me.0 }
{
    words.fetch_or::<Makes<J>>(seat, state_word(element), 1 << signal)
}

// A park, a start or a delivery, if the state word is still the one that was loaded.
pub(crate) fn exchange_state<J: EventOf>(
    words: &Words,
    seat: &mut Seat<(), View>,
    element: u8,
    old: u64,
    new: u64,
) -> u64
    requires queue { (seat.old.table_id ≡ words.now.table_id) × (words.now.table_id.words ≡ WORDS)
        × (element < ELEMENTS) }
    requires mine { IsActive seat.old.me.0 × (seat.old.me.0.own.claimed ≡ None) }
    requires call { J.call ≡ seat.old.id }
    requires turn { IsTurn J.event seat.old.id element seat.old.me.0 old new }
    ensures queue { IsSame seat.old seat.new × (seat.new.me.1 ≡ seat.old.me.1) }
    ensures stands { ∥ HasStood seat.new.id seat.new.me.0 ∥₁ }
    ensures hit { result ≡ old → HandDid J.call seat.old.me.0 (state_word element) old J.event seat.new.me.0 }
    ensures miss { result ≢ old → Found seat.old.me.0 (state_word element) result seat.new.me.0
        × StateIs element result seat.new.me.0 }
{
    words.compare_exchange::<Tries<J>>(seat, state_word(element), old, new)
}

// The number of steps done of an element that the hand holds or has on a processor.
pub(crate) fn load_done<J: Caller>(words: &Words, seat: &mut Seat<(), View>, element: u8) -> u64
    requires queue { (seat.old.table_id ≡ words.now.table_id) × (words.now.table_id.words ≡ WORDS)
        × (element < ELEMENTS) }
    requires mine { IsActive seat.old.me.0 × MayStep seat.old.me.0 element × (J.element ≡ element) }
    requires call { J.call ≡ seat.old.id }
    ensures queue { IsSame seat.old seat.new × (seat.new.me.1 ≡ seat.old.me.1) }
    ensures stands { ∥ HasStood seat.new.id seat.new.me.0 ∥₁ }
    ensures counted { ReadPc J.element seat.old.me.0 result seat.new.me.0 }
    ensures bounded { result < half_word }
{
    words.load::<LoadDone<J>>(seat, done_word(element))
}

pub(crate) fn store_done<J: EventOf>(
    words: &Words,
    seat: &mut Seat<(), View>,
    element: u8,
    done: u64,
)
    requires queue { (seat.old.table_id ≡ words.now.table_id) × (words.now.table_id.words ≡ WORDS)
        × (element < ELEMENTS) }
    requires mine { IsActive seat.old.me.0 × (seat.old.me.0.own.claimed ≡ None) }
    requires event { (J.call ≡ seat.old.id) × (J.event ≡ events.Done seat.old.id element) }
    requires counted { (seat.old.me.0.own.counted ≡ Some (count_of element done)) × (done < most_done) }
    ensures queue { IsSame seat.old seat.new × (seat.new.me.1 ≡ seat.old.me.1) }
    ensures stands { ∥ HasStood seat.new.id seat.new.me.0 ∥₁ }
    ensures effect { (found : ℕ) × HandDid J.call seat.old.me.0 (done_word element) found J.event seat.new.me.0 }
{
    // a store suffices: no other hand may count a step of this element
    words.store::<Stores<J>>(seat, done_word(element), done + 1);
}

pub(crate) fn count_up<J: Caller>(words: &Words, seat: &mut Seat<(), View>) -> u64
    requires queue { (seat.old.table_id ≡ words.now.table_id) × (words.now.table_id.words ≡ WORDS) }
    requires call { J.call ≡ seat.old.id }
    requires live { IsActive seat.old.me.0 }
    requires parts { seat.old.me.0.member.ends + 1 ≤ seat.old.me.0.member.share }
    ensures queue { IsSame seat.old seat.new × (seat.new.me.1 ≡ seat.old.me.1) }
    ensures stands { ∥ HasStood seat.new.id seat.new.me.0 ∥₁ }
    ensures counted { CountedUp seat.old.me.0 result seat.new.me.0 }
{
    words.fetch_add::<CountUp<J>>(seat, ENDS, 1)
}

pub(crate) fn count_down<J: Caller>(words: &Words, seat: &mut Seat<(), View>) -> u64
    requires queue { (seat.old.table_id ≡ words.now.table_id) × (words.now.table_id.words ≡ WORDS) }
    requires call { J.call ≡ seat.old.id }
    requires live { (2 ≤ seat.old.me.0.member.ends) × (seat.old.me.0.own.fresh ≡ false) }
    ensures queue { IsSame seat.old seat.new × (seat.new.me.1 ≡ seat.old.me.1) }
    ensures stands { ∥ HasStood seat.new.id seat.new.me.0 ∥₁ }
    ensures counted { CountedDown seat.old.me.0 result seat.new.me.0 }
{
    words.fetch_sub::<CountDown<J>>(seat, ENDS, 1)
}

// The new hand serves the processors of the mask, which this hand serves and which are empty.
pub(crate) fn split_off<J: Mask>(
    words: &Words,
    seat: &mut Seat<(), View>,
    processors: u8,
) -> Seat<(), View>
    requires queue { (seat.old.table_id ≡ words.now.table_id) × (words.now.table_id.words ≡ WORDS) }
    requires live { seat.old.me.0.member.ends ≡ 2 }
    requires stands { ∥ HasStood seat.old.id seat.old.me.0 ∥₁ }
    requires mask { (J.mask ≡ marks PROCESSORS processors) × ((p : ℕ) → p < PROCESSORS → is_in processors p ≡ true
        → (serves seat.old.me.0 p ≡ true) × (running seat.old.me.0 p ≡ None)) }
    ensures queue { IsSame seat.old seat.new × (result.table_id ≡ seat.old.table_id) }
    ensures stands { ∥ HasStood seat.new.id seat.new.me.0 ∥₁ × ∥ HasStood result.id result.me.0 ∥₁ }
    ensures split { (seat.new.me ≡ (rest_of J.mask seat.old.me.0, seat.old.me.1))
        × (result.me ≡ (newborn J.mask seat.old.me.0, [])) }
{
    let _ = processors;
    words.split_seat::<Halves<J>>(seat)
}

// The new hand serves the processors of the mask, as in `split_off`, and gets `share` parts.
pub(crate) fn split_share_off<J: MaskedPortion>(
    words: &Words,
    seat: &mut Seat<(), View>,
    processors: u8,
    share: u64,
) -> Seat<(), View>
    requires queue { (seat.old.table_id ≡ words.now.table_id) × (words.now.table_id.words ≡ WORDS) }
    requires live { seat.old.me.0.member.ends ≡ 2 }
    requires stands { ∥ HasStood seat.old.id seat.old.me.0 ∥₁ }
    requires mask { (J.mask ≡ marks PROCESSORS processors) × ((p : ℕ) → p < PROCESSORS → is_in processors p ≡ true
        → (serves seat.old.me.0 p ≡ true) × (running seat.old.me.0 p ≡ None)) }
    requires portion { (J.parts ≡ share) × IsPortion share seat.old.me.0.member.share }
    ensures queue { IsSame seat.old seat.new × (result.table_id ≡ seat.old.table_id) }
    ensures stands { ∥ HasStood seat.new.id seat.new.me.0 ∥₁ × ∥ HasStood result.id result.me.0 ∥₁ }
    ensures split { (seat.new.me ≡ (rest_without share J.mask seat.old.me.0, seat.old.me.1))
        × (result.me ≡ (newborn_with share J.mask seat.old.me.0, [])) }
{
    let _ = (processors, share);
    words.split_seat::<GivesShare<J>>(seat)
}

pub(crate) fn take_in<J: Spent>(words: &Words, seat: &mut Seat<(), View>, other: Seat<(), View>)
    requires queue { (seat.old.table_id ≡ words.now.table_id) × (other.table_id ≡ words.now.table_id)
        × (other.me.1 ≡ []) × (words.now.table_id.words ≡ WORDS) }
    requires live { IsActive seat.old.me.0 × IsActive other.me.0 }
    requires none { (seat.old.me.0.own.claimed ≡ None) × (other.me.0.own.claimed ≡ None) }
    requires spent { J.view ≡ emptied seat.old.me.0 }
    ensures queue { IsSame seat.old seat.new }
    ensures joined { seat.new.me ≡ (both seat.old.me.0 other.me.0, seat.old.me.1) }
{
    words.join_seat::<Joins<J>>(seat, other);
}
