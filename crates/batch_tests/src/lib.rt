//! The tests of `batch_queue`, in a crate of their own: beside the library they would prove it once more.
#![tactic(auto)]

#[cfg(test)]
mod examples;
#[cfg(test)]
mod fixtures;
#[cfg(test)]
mod rows;
#[cfg(test)]
mod scripts;
#[cfg(test)]
mod tests;
#[cfg(test)]
mod thread_tests;
