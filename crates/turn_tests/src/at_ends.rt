//! The tests of `turn_io`.

mod fixtures;
mod tests;
