//! The lines that are put and taken.
ghost use Rattle.std.specs.Prelude.{◌≡◌, ◌≤◌, length};

use arrayvec::ArrayVec;

/// The most items that a measured line has.
pub const LONGEST: usize = 64;

/// The item that ends a line.
const END: u64 = 10;

/// A line of `length` items, of which the last alone is its end.
pub fn line_of(length: usize) -> ArrayVec<u64, 64> {
    let mut items = ArrayVec::new();
    for i in 1..length.min(LONGEST) {
        let _full = items.try_push(1_000 + i as u64);
    }
    let _full = items.try_push(END);
    items
}

/// The sum of the items modulo 2^64.
pub fn sum_of(items: &[u64]) -> u64 {
    let mut sum = 0u64;
    for item in items {
        sum = sum.wrapping_add(*item);
    }
    sum
}
