//! The tests of `quaject_core`. They are a crate of their own, since `quaject_core` would be proved again with them.
#![tactic(auto)]

#[cfg(test)]
mod tests;
