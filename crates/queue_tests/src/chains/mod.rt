//! The tests of `proc_chain`.

mod client_tests;
mod place_tests;
mod pull_tests;
mod tests;
mod thread_tests;
