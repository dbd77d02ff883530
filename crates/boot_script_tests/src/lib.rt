//! The tests of `boot_script`. They are a crate of their own, since `boot_script` would be proved again with them.
#![tactic(auto)]

#[cfg(test)]
mod tests;
