//! The picture of a boot: its processors' turns, where its threads were, and the lines that passed between them.
//!
//! A picture has a lane for each processor, with a box for each turn, and one box for idle turns in a row. It has a
//! lane for each thread, which shows the thread's places over time. The turns are in the order of the clock over all
//! processors, or at their times.
//!
//! It is proved that each turn of a log is in one block, and that only idle turns share a block. Each block that is
//! shown has one box in the lane of its processor. The title of the box begins with the number of the block's first
//! turn, its processor, and when this turn ended. All blocks are shown unless there are more than 2,000. If the turns
//! of each log are in the order of the clock, as a recorder's are, the blocks are too, and no block that is left out
//! comes before one that is shown.
//!
//! Each box is at least 2 wide and inside of the picture, and what is drawn upon it is text. Below the boxes there is
//! no other box: only the white ground, texts and thin lines. If the places are by the time, a box lies between the ends
//! of the turn before it and of its last turn, on one scale. Otherwise each box begins to the right of the one before it
//! in the order, and no two boxes of a lane overlap. Not proved are the colours, the lanes of the threads, the arrows,
//! the marks and all other words. Which say an arrow comes from is defined in `boot_log`.
#![tactic(auto)]

mod arrows;
mod blocks;
mod columns;
mod frame;
mod labels;
mod lanes;
mod legend;
mod marks;
mod naming;
mod order;
mod phrase;
mod picture;
mod spans;
mod steps;
mod thread_lanes;
mod titles;
mod wording;

pub use picture::{Boot, picture_of};
