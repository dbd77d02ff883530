//! The tests of `claim_queue`, `proc_chain` and `quajects`, in a crate of their own: in the crate of a library they would
//! prove it once more, and each crate of tests links all its dependencies.
#![tactic(auto)]

#[cfg(test)]
mod chains;
#[cfg(test)]
mod claims;
#[cfg(test)]
mod examples;
#[cfg(test)]
mod fixtures;
#[cfg(test)]
mod movers;
