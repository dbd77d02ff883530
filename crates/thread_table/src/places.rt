//! The places of the elements when a table is closed.
ghost use Rattle.std.specs.Prelude.{◌≡◌, ◌<◌, ◌≤◌, ◌==◌, None, MatchBool};
ghost use Rattle.std.specs.Int.{bit_at};
ghost use Rattle.std.specs.Mem.Slots.{slots_items, slots_len, IsFull};
ghost use Rattle.thread_table.specs.declared.layout.TheConstants.{WORDS, ELEMENTS, RINGS};
ghost use Rattle.thread_table.specs.Layout.{state_word, cell_bit};
ghost use Rattle.thread_table.specs.Closings.{ProcessorOf, IsIn, RingOf, PlaceOf, place_by, word_at};

use crate::layout::{head_word, place_word, processor_word, state_word, tail_word};
use crate::words::{HeadWord, StateWord};
use atomic_table::Closed;
use std::alloc::Global;

/// The place of an element.
#[derive(Clone, Copy, Debug, PartialEq, Eq)]
pub enum Place {
    /// On this processor.
    Processor(u8),
    /// In the ready ring.
    Ready,
    /// In this wait queue.
    Wait(u8),
    /// In its stop cell.
    Stopped,
    /// Among the free elements.
    Free,
    /// In the hand that closed the table.
    Held,
}

// The processor that the element is on.
fn processor_of(closed: &Closed<(), Global>, element: u8) -> Option<u8>
    requires { (slots_len closed.now.words ≡ WORDS) × IsFull closed.now.words × (element < ELEMENTS) }
    ensures { ProcessorOf element (slots_items closed.now.words) result }
{
    for p in 0..8u8 {
        if closed.word(processor_word(p)) == element as u64 + 1 {
            return Some(p);
        }
    }
    None
}

// Whether the element is in a place of this element queue.
fn is_in_ring(closed: &Closed<(), Global>, element: u8, ring: usize) -> bool
    requires { (slots_len closed.now.words ≡ WORDS) × IsFull closed.now.words × (element < ELEMENTS) × (ring < RINGS) }
    ensures { MatchBool result (IsIn element (slots_items closed.now.words) ring)
        (IsIn element (slots_items closed.now.words) ring → ⊥) }
{
    let head = HeadWord::of(closed.word(head_word(ring))).head;
    let tail = closed.word(tail_word(ring));
    for position in tail..head {
        if closed.word(place_word(ring, position)) % 256 == element as u64 {
            return true;
        }
    }
    false
}

// The element queue that the element is in.
fn ring_of(closed: &Closed<(), Global>, element: u8) -> Option<u8>
    requires { (slots_len closed.now.words ≡ WORDS) × IsFull closed.now.words × (element < ELEMENTS) }
    ensures { RingOf element (slots_items closed.now.words) result }
{
    for ring in 0..18u8 {
        if is_in_ring(closed, element, ring as usize) {
            return Some(ring);
        }
    }
    None
}

/// The place of the element, by the words.
pub(crate) fn place_of(closed: &Closed<(), Global>, element: u8) -> Place
    requires { (slots_len closed.now.words ≡ WORDS) × IsFull closed.now.words × (element < ELEMENTS) }
    ensures { PlaceOf element (slots_items closed.now.words) result }
{
    if let Some(p) = processor_of(closed, element) {
        return Place::Processor(p);
    }
    match ring_of(closed, element) {
        Some(0) => Place::Ready,
        Some(1) => Place::Free,
        Some(ring) => Place::Wait(ring - 2),
        None => cell_or_hand(closed, element),
    }
}

// The place of an element that is on no processor and in no element queue.
fn cell_or_hand(closed: &Closed<(), Global>, element: u8) -> Place
    requires { (slots_len closed.now.words ≡ WORDS) × IsFull closed.now.words × (element < ELEMENTS) }
    ensures { result
        ≡ place_by None None (bit_at (word_at (slots_items closed.now.words) (state_word element)) cell_bit == 1) }
{
    let state = StateWord {
        word: closed.word(state_word(element)),
    };
    if state.is_parked() {
        Place::Stopped
    } else {
        Place::Held
    }
}
