//! The tests of `svg`. They are a crate of their own, since `svg` would be proved again with them.
#![tactic(auto)]

#[cfg(test)]
mod tests;
