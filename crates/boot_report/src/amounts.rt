//! The numbers of closed objects, each by its place, and 0 if there is none at the place.
ghost use Rattle.std.specs.Prelude.{◌≡◌, slice_index_or};
ghost use Rattle.boot_report.specs.Amounts.{counts_at, numbers_at};

use boot_data::{ItemCounts, Name, Text};
use claim_queue::Closed;
use quajects::Came;

/// A copy of a name.
pub(crate) fn copy_of(name: &Name) -> Name
    ensures { result ≡ name.now }
{
    let mut copy = Text::new();
    copy.append(name.as_slice());
    copy
}

/// The numbers of items put, taken and left of the closed queue with this number.
pub(crate) fn counts_in<const N: usize>(closed: &[Closed<N>], number: usize) -> ItemCounts
    ensures { result ≡ counts_at closed.now number }
{
    match closed.get(number) {
        Some(closed) => ItemCounts {
            put: u64::from(closed.put),
            taken: u64::from(closed.taken),
            left: closed.left.len() as u64,
        },
        None => ItemCounts {
            put: 0,
            taken: 0,
            left: 0,
        },
    }
}

/// The numbers that a line has of a quaject: the notes run, and the items taken, put and held.
#[derive(Clone, Copy, Debug, PartialEq, Eq)]
pub struct Numbers {
    pub(crate) notes: u64,
    pub(crate) taken: u64,
    pub(crate) put: u64,
    pub(crate) held: usize,
}

/// The numbers of the quaject of this chain.
pub(crate) fn numbers_in(counts: &[Came], chain: usize) -> Numbers
    ensures { result ≡ numbers_at counts.now chain }
{
    match counts.get(chain) {
        Some(came) => Numbers {
            notes: came.notes(),
            taken: came.taken(),
            put: came.put(),
            held: came.held(),
        },
        None => Numbers {
            notes: 0,
            taken: 0,
            put: 0,
            held: 0,
        },
    }
}

/// The number at this place.
pub(crate) fn number_in(numbers: &[u64], place: usize) -> u64
    ensures { result ≡ slice_index_or numbers.now place 0 }
{
    numbers.get(place).copied().unwrap_or(0)
}
