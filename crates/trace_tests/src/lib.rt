//! The tests of `boot_log` and `trace_events`. They are a crate of their own, since with them each of the two would be
//! proved again.
#![tactic(auto)]

#[cfg(test)]
mod tests;
