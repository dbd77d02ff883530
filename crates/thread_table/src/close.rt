//! Closing a table.
ghost use Rattle.std.specs.Prelude.{◌≡◌, ℕ, ◌%◌, ◌<◌, slice_index_or, IfOk, IfErr, MatchResult};
ghost use Rattle.std.specs.Int.{bit_at};
ghost use Rattle.std.specs.Mem.Slots.{slots_items, slots_len, IsFull};
ghost use Rattle.thread_table.specs.declared.layout.TheConstants.{WORDS, ELEMENTS, STOP};
ghost use Rattle.thread_table.specs.Layout.{state_word, done_word, stop_bit};
ghost use Rattle.thread_table.specs.declared.places.Place.TheVariants as places;
ghost use Rattle.thread_table.specs.Client.{ListsAll, MadeNothing, ReportsElements, OnlySteps};
ghost use Rattle.table_theory.specs.Moments.{WhyNotClosed};
ghost use Rattle.thread_table.specs.Closings.{ClosedNow, PlaceOf, word_at};
ghost use Rattle.thread_table.specs.Evidence.{WereOpen};
ghost use Rattle.thread_table.specs.Keeping.{Keeps};
ghost use Rattle.thread_table.specs.Handles.{view_of, call_of, IsHandOf, IsOnlyHand, IsSameHand};

use crate::hand::{Hand, ThreadTable};
use crate::layout::{ENDS, done_word, state_word};
use crate::places::{Place, place_of};
use crate::words::StateWord;
use atomic_table::Closed;
use std::alloc::Global;
use std::marker::Brand;
use table_theory::OpenEnds;
use table_theory::last_end::{close_by, count};

/// The contents of a table at its end, each list by the number of the element.
#[derive(Drop)]
pub struct Places {
    /// The place of each element.
    pub places: [Place; 64],
    /// How many steps each element has done.
    pub pcs: [u64; 64],
    /// The pending signals of each element, bit s for signal s.
    pub pending: [u16; 64],
    /// The elements whose stop bit is set, bit e for element e.
    pub stops: u64,
}

// The state word of an element.
fn state_of(closed: &Closed<(), Global>, element: u8) -> StateWord
    requires { (slots_len closed.now.words ≡ WORDS) × IsFull closed.now.words × (element < ELEMENTS) }
    ensures { result.word ≡ word_at (slots_items closed.now.words) (state_word element) }
{
    StateWord {
        word: closed.word(state_word(element)),
    }
}

fn read_places(closed: &Closed<(), Global>) -> [Place; 64]
    requires { (slots_len closed.now.words ≡ WORDS) × IsFull closed.now.words }
    ensures { (x : ℕ) → x < ELEMENTS → PlaceOf x (slots_items closed.now.words) (slice_index_or result x places.Held) }
{
    let mut places = [Place::Held; 64];
    for element in 0..64u8 {
        places[usize::from(element)] = place_of(closed, element);
    }
    places
}

fn read_pcs(closed: &Closed<(), Global>) -> [u64; 64]
    requires { (slots_len closed.now.words ≡ WORDS) × IsFull closed.now.words }
    ensures { (x : ℕ) → x < ELEMENTS
        → slice_index_or result x 0 ≡ word_at (slots_items closed.now.words) (done_word x) }
{
    let mut pcs = [0; 64];
    for element in 0..64u8 {
        pcs[usize::from(element)] = closed.word(done_word(element));
    }
    pcs
}

fn read_pending(closed: &Closed<(), Global>) -> [u16; 64]
    requires { (slots_len closed.now.words ≡ WORDS) × IsFull closed.now.words }
    ensures { (x : ℕ) → x < ELEMENTS
        → slice_index_or result x 0 ≡ word_at (slots_items closed.now.words) (state_word x) % STOP }
{
    let mut pending = [0; 64];
    for element in 0..64u8 {
        pending[usize::from(element)] = state_of(closed, element).pending();
    }
    pending
}

fn read_stops(closed: &Closed<(), Global>) -> u64
    requires { (slots_len closed.now.words ≡ WORDS) × IsFull closed.now.words }
    ensures { (x : ℕ) → x < ELEMENTS
        → bit_at result x ≡ bit_at (word_at (slots_items closed.now.words) (state_word x)) stop_bit }
{
    let mut stops = 0u64;
    for element in 0..64u8 {
        if state_of(closed, element).is_stopping() {
            stops |= 1 << element;
        }
    }
    stops
}

impl ThreadTable {
    /// Closes the table if every other hand has been joined. It returns the place of each element, how many steps it
    /// has done, and its signals and stop bit. Else it returns the table, the hand, and the number of the other hands.
    /// It allocates no memory.
    ///
    /// The hand that closes the table lists every event of the table except the joins, each once.
    pub fn close(self, hand: Hand) -> Result<Places, (ThreadTable, Hand, OpenEnds)>
        requires { IsHandOf self hand }
        ensures effect { MatchResult result (λ c. ListsAll (view_of hand))
            (λ e. MadeNothing (view_of hand) (view_of e.1)) }
        ensures result { IfOk result
            (λ c. ReportsElements (call_of hand) (view_of hand) c.places c.pcs c.pending c.stops) }
        ensures frame { IfErr result (λ e. Keeps (view_of hand) (view_of e.1)) }
        ensures owns { IfOk result (λ c. IsOnlyHand hand) }
        ensures error { IfErr result (λ e. WhyNotClosed e.2.others (view_of hand) (view_of e.1)) }
        ensures steps { IfErr result (λ e. OnlySteps 1 (view_of hand) (view_of e.1)) }
        ensures only { IsOnlyHand hand → MatchResult result (λ c. Unit {0}) (λ e. ⊥) }
        ensures closed { IfOk result
            (λ c. ClosedNow (call_of hand) (view_of hand) c.places c.pcs c.pending c.stops) }
        ensures trace { IfErr result (λ e. WereOpen (view_of hand) e.2.others (view_of e.1)) }
        ensures handle { IfErr result (λ e. (e.0 ≡ self) × IsSameHand hand e.1) }
    {
        let Hand {
            seat,
            held,
            served,
            running,
        } = hand;
        // linearization point: the number of hands is loaded; one load suffices, since it is 1 exactly if this hand has
        // the whole, and then no other hand makes a step
        let last = match count::<_, _, _, _, Brand>(&self.table.shared, seat, ENDS) {
            Ok(last) => last,
            Err((seat, ends)) => {
                let hand = Hand {
                    seat,
                    held,
                    served,
                    running,
                };
                return Err((self, hand, OpenEnds { others: ends - 1 }));
            }
        };
        let ThreadTable { table, first: _ } = self;
        let closed = close_by(table, last);
        let all = Places {
            places: read_places(&closed),
            pcs: read_pcs(&closed),
            pending: read_pending(&closed),
            stops: read_stops(&closed),
        };
        closed.free();
        Ok(all)
    }
}
