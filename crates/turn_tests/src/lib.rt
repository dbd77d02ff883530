//! The tests of `turn_io`, `processor`, `stations` and `boot_objects`, in a crate of their own: steps at ends, turns of
//! stations, and what the tables close with. In the crate of a library they would prove it once more.
#![tactic(auto)]

#[cfg(test)]
mod at_ends;
#[cfg(test)]
mod closes;
#[cfg(test)]
mod pumps;
#[cfg(test)]
mod turns;
