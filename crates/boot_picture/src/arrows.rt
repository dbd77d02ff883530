//! The arrows of the lines that passed from a thread that said them to one that heard them.

use crate::columns::{Bounds, Placed};
use boot_data::BootPlan;
use boot_log::{LineTurn, Log, passings_of};
use event_theory::OutOfMemory;
use std::alloc::Global;

/// An arrow: from the turn of the thread that said a line to the turn of the thread that heard it. The places are the
/// middles of the turns' blocks.
#[derive(Clone, Copy, Debug)]
pub(crate) struct Arrow {
    pub(crate) said_by: usize,
    pub(crate) said_at: u32,
    pub(crate) heard_by: usize,
    pub(crate) heard_at: u32,
}

/// The middle of the block of a turn, if the block is shown.
fn middle_of(all: &[Placed], turn: &LineTurn) -> Option<u32> {
    for placed in all {
        let ordered = placed.ordered;
        if ordered.processor == turn.processor && ordered.block.first == turn.turn {
            let Bounds { left, right } = placed.bounds;
            return Some(left.saturating_add(right.saturating_sub(left) / 2));
        }
    }
    None
}

/// The arrows of all lines that passed between turns that are shown. `boot_log` defines which line passed from where.
pub(crate) fn arrows_of(
    alloc: Global,
    plan: &BootPlan,
    logs: &[&Log],
    all: &[Placed],
) -> Result<Vec<Arrow>, OutOfMemory> {
    let passings = passings_of(alloc, plan, 0, logs)?;
    let mut arrows = Vec::new(alloc);
    for passing in &passings {
        if let (Some(said_at), Some(heard_at)) = (
            middle_of(all, &passing.said),
            middle_of(all, &passing.heard),
        ) {
            arrows.push(Arrow {
                said_by: usize::from(passing.said.thread.number()),
                said_at,
                heard_by: usize::from(passing.heard.thread.number()),
                heard_at,
            })?;
        }
    }
    Ok(arrows)
}
