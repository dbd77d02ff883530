//! The tests of `thread_table`, `meters` and `turn_dispatch`, in a crate of their own: beside a library they would
//! prove it once more, and each crate of tests links all that it depends on.
#![tactic(auto)]

#[cfg(test)]
mod examples;
#[cfg(test)]
mod fixtures;
#[cfg(test)]
mod hands;
#[cfg(test)]
mod tables;
#[cfg(test)]
mod timing;
