//! The tests of `turn_dispatch`.

mod scripts;
mod tests;
mod thread_tests;
