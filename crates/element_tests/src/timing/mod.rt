//! The tests of `meters`.

mod scripts;
mod tests;
mod thread_tests;
