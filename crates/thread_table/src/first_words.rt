//! The words of a new table.
ghost use Rattle.std.specs.Prelude.{◌≡◌, ◌≤◌, length};
ghost use Rattle.thread_table.specs.declared.layout.TheConstants.{WORDS, ELEMENTS, RINGS};
ghost use Rattle.thread_table.specs.Layout.{last_first};
ghost use Rattle.thread_table.specs.Laid.{RingsLaid, ItemsLaid};

use crate::layout::{FREE, RINGS, head_word, place_word, tail_word};
use crate::words::PlaceWord;

// The head and the tail of each element queue. The free elements' head is 64 positions after their tail.
pub(crate) fn lay_rings(words: &mut [u64], first: u32)
    requires { (length words.old ≡ WORDS) × (first ≤ last_first) }
    ensures { RingsLaid first ELEMENTS RINGS words.old words.new }
{
    for ring in 0..RINGS {
        words[head_word(ring)] = first as u64;
        words[tail_word(ring)] = first as u64;
    }
    words[head_word(FREE)] = first as u64 + 64;
}

// The places of the free elements, all of them raised.
pub(crate) fn lay_free(words: &mut [u64], first: u32)
    requires { (length words.old ≡ WORDS) × (first ≤ last_first) }
    ensures { ItemsLaid first ELEMENTS words.old words.new }
{
    for element in 0..64u8 {
        let position = first as u64 + element as u64;
        let place = PlaceWord {
            element,
            mark: position + 1,
        };
        words[place_word(FREE, position)] = place.word();
    }
}
