//! The tests of `claim_queue`.

mod look_tests;
mod pause_tests;
mod scripts;
mod share_tests;
mod tests;
mod thread_tests;
