//! The tests of `thread_table`.

mod scripts;
mod tests;
mod thread_tests;
