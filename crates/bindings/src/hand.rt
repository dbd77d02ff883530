//! Thread elements for C: each call is one of the library's, by the hand that a handle holds.

mod ends;
pub mod held;
mod moves;
mod numbers;
mod places;
mod placing;
mod processors;
mod states;
mod takings;
