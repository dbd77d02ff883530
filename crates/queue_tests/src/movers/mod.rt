//! The tests of `quajects`. The program's own boots show what pumps, switches and ttys do for a script's pokes and
//! typed bytes.

mod fixtures;
mod pump_tests;
mod tests;
mod thread_tests;
mod tty_tests;
