//! The tables for C.
#![tactic(auto)]

mod answer;
mod batch;
mod chain;
mod ends;
mod hand;
mod handle;
mod hidden;
mod kind;
mod line;
mod payload;
mod queue;
mod seat;
mod share;
