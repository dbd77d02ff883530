//! What a hand keeps, each in eight bytes: sets of small numbers, with a bit for each number, and the elements on the
//! processors, with a byte for each processor. Contracts see them as lists.
ghost use Rattle.std.specs.Prelude.{◌≡◌, ◌<◌, ◌≤◌, [], ◌∷◌, false, None, slice_index_or, slice_set, length};
ghost use Rattle.std.specs.List.{repeat};
ghost use Rattle.thread_table.specs.declared.layout.TheConstants.{PROCESSORS};
ghost use Rattle.thread_table.specs.Sets.{marks, element_in};
ghost use Rattle.thread_table.specs.Steps.{parted, either, either_on};

use event_theory::Element;
use std::marker::Model;

/// A set of numbers below `N`, which is at most 64. Bit i is set if i is in the set. Contracts see a list of `N` marks:
/// mark i is whether i is in the set.
#[derive(Drop)]
pub struct BitSet<const N: usize> {
    bits: u64,
}

impl<const N: usize> Model for BitSet<N> {
    ghost use Rattle.std.specs.Prelude.{List, Bool, ◌≤◌};
    ghost use Rattle.thread_table.specs.Sets.{marks};

    ghost Value = { List Bool };

    ghost view = { λ set. marks N set.bits };

    ghost invariant = { λ set. N ≤ 64 };
}

impl<const N: usize> BitSet<N> {
    /// The set of the numbers below `N` whose bits are set in the mask.
    pub(crate) fn from_bits(mask: u64) -> BitSet<N>
        requires { N ≤ 64 }
        ensures { result ≡ marks N mask }
    {
        BitSet { bits: mask }
    }

    /// Whether the number is in the set.
    pub(crate) fn contains(&self, number: u8) -> bool
        requires { number < N }
        ensures { result ≡ slice_index_or self.now number false }
    {
        self.bits >> number & 1 == 1
    }

    /// Puts the number into the set if `is`, else takes it out.
    pub(crate) fn set(&mut self, number: u8, is: bool)
        requires { number < N }
        ensures { self.new ≡ slice_set self.old number is }
    {
        if is {
            self.bits |= 1 << number;
        } else {
            self.bits &= !(1 << number);
        }
    }

    /// The numbers that are in either set.
    pub(crate) fn union(&self, other: &BitSet<N>) -> BitSet<N>
        ensures union { result ≡ either self.now other.now }
        ensures long { (length self.now ≡ N) × (length other.now ≡ N) }
    {
        BitSet {
            bits: self.bits | other.bits,
        }
    }

    /// The numbers that are in this set and not in the other.
    pub(crate) fn difference(&self, other: &BitSet<N>) -> BitSet<N>
        ensures { result ≡ parted self.now other.now }
    {
        BitSet {
            bits: self.bits & !other.bits,
        }
    }
}

// The byte of a processor without an element. Each byte from this one on is of none.
const NO_ELEMENT: u8 = 64;

/// The element on each processor, if there is one. Contracts see a list with an entry for each processor.
#[derive(Drop)]
pub struct ProcessorMap {
    bytes: [u8; 8],
}

impl Model for ProcessorMap {
    ghost use Rattle.std.specs.Prelude.{List, Option, ℕ};
    ghost use Rattle.thread_table.specs.Sets.{elements_in};

    ghost Value = { List (Option ℕ) };

    ghost view = { λ map. elements_in map.bytes };
}

impl ProcessorMap {
    /// The map with no element on any processor.
    pub(crate) fn new() -> ProcessorMap
        ensures { result ≡ repeat PROCESSORS (None ∷ []) }
    {
        ProcessorMap {
            bytes: [NO_ELEMENT; 8],
        }
    }

    /// The element on the processor, if there is one.
    pub(crate) fn get(&self, processor: u8) -> Option<Element>
        requires { processor < PROCESSORS }
        ensures { result ≡ slice_index_or self.now processor None }
    {
        Element::new(self.bytes[usize::from(processor)])
    }

    /// Puts the element on the processor in place of what was there, or leaves none there.
    pub(crate) fn set(&mut self, processor: u8, element: Option<Element>)
        requires { processor < PROCESSORS }
        ensures { self.new ≡ slice_set self.old processor element }
    {
        self.bytes[usize::from(processor)] = byte_of(element);
    }

    /// The element on each processor, and where there is none, the other map's.
    pub(crate) fn or(&self, other: &ProcessorMap) -> ProcessorMap
        ensures or { result ≡ either_on self.now other.now }
        ensures long { (length self.now ≡ PROCESSORS) × (length other.now ≡ PROCESSORS) }
    {
        let mut bytes = self.bytes;
        for p in 0..8 {
            if bytes[p] >= NO_ELEMENT {
                bytes[p] = other.bytes[p];
            }
        }
        ProcessorMap { bytes }
    }
}

fn byte_of(element: Option<Element>) -> u8
    ensures { element_in result ≡ element }
{
    match element {
        Some(element) => element.number(),
        None => NO_ELEMENT,
    }
}
