//! A chain in a row: its gate, and how many notes are left in it.

use crate::columns::GATE;
use event_theory::{ChainStatus, Gate, Items, OutOfMemory};
use svg::words::text_of;
use svg::{Anchor, Canvas, Colour};

/// A gate's colour.
fn colour(gate: Gate) -> Colour {
    match gate {
        Gate::Idle => Colour::White,
        Gate::Running => Colour::Green,
        Gate::More => Colour::Yellow,
    }
}

/// A gate's word.
fn word(gate: Gate) -> &'static [u8] {
    match gate {
        Gate::Idle => b"Idle",
        Gate::Running => b"Running",
        Gate::More => b"More",
    }
}

/// Draws a gate: a box with its word.
pub(crate) fn add_gate(canvas: &mut Canvas, gate: Gate, x: u32, y: u32) -> Result<(), OutOfMemory> {
    canvas.cell(x, y, GATE, colour(gate))?;
    let text = text_of(canvas.alloc(), word(gate))?;
    canvas.label(x.saturating_add(GATE / 2), y, Anchor::Middle, text)
}

/// Draws a chain: its gate, and how many notes are left.
pub(crate) fn add_chain(
    canvas: &mut Canvas,
    chain: &ChainStatus,
    x: u32,
    y: u32,
) -> Result<(), OutOfMemory> {
    add_gate(canvas, chain.gate, x, y)?;
    let left = chain.left;
    let text = format!(in canvas.alloc(); "{left} left")?;
    let text = Items::new(text.into_bytes());
    canvas.label(x.saturating_add(GATE + 6), y, Anchor::Start, text)
}
