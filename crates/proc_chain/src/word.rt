//! The word of a place.
ghost use Rattle.std.specs.Prelude.{◌≡◌, ◌+◌, ◌*◌, ◌<◌};
ghost use Rattle.table_theory.specs.declared.positions.TheConstants.{POSITIONS};
ghost use Rattle.proc_chain.specs.declared.layout.TheConstants.{MARKS, NOTES};
ghost use Rattle.proc_chain.specs.Layout.{mark_of, note_of};

use crate::layout::NOTES;

/// The note in bits 0 to 15, and in bits 16 to 47 its position and 1 more. A place that was never raised has the
/// word 0.
#[derive(Clone, Copy, Drop)]
pub(crate) struct PlaceWord {
    pub(crate) mark: u64,
    pub(crate) note: u16,
    ghost bounded: { mark < MARKS },
}

impl PlaceWord {
    /// The word of the place of this position after the note is raised there.
    pub(crate) fn raised(position: u64, note: u16) -> PlaceWord
        requires { position < POSITIONS }
        ensures { (result.mark ≡ position + 1) × (result.note ≡ note) }
    {
        PlaceWord {
            mark: position + 1,
            note,
        }
    }

    pub(crate) fn of(word: u64) -> PlaceWord
        ensures { (result.mark ≡ mark_of word) × (result.note ≡ note_of word) }
    {
        PlaceWord {
            mark: word / NOTES,
            note: (word % NOTES) as u16,
        }
    }

    pub(crate) fn bits(self) -> u64
        ensures { result ≡ self.mark * NOTES + self.note }
    {
        self.mark * NOTES + self.note as u64
    }
}
