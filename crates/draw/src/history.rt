//! The states that a list of events passes through, one after each event.

ghost use Rattle.std.specs.Prelude.{◌≡◌, ◌≤◌, IfOk, OnOk};
ghost use Rattle.quaject_core.specs.ShownCores.{state};
ghost use Rattle.event_theory.specs.States.{first_state};
ghost use Rattle.draw.specs.Histories.{RowShows, IsHistory, IsNext, kept};

use crate::places::{Seat, Tapes};
use boot_script::Replayed;
use event_theory::{Event, Items, OutOfMemory, Refusal, Status};
use quaject_core::Core;
use std::alloc::Global;

/// How many rows a picture has at most, not counting the row of a refused event.
pub(crate) const MOST_ROWS: usize = 200;

/// An event that was allowed, by its line, and the state that it led to.
#[derive(Drop)]
pub(crate) struct Row {
    pub(crate) line: u32,
    /// The state after the event.
    pub(crate) status: Status,
    /// For each queue the places that are left in it.
    pub(crate) places: Items<Items<Seat>>,
}

/// The last rows of a list of events, how many were allowed in all, and how it ends.
#[derive(Drop)]
pub(crate) struct History {
    pub(crate) rows: Vec<Row>,
    pub(crate) allowed: usize,
    pub(crate) replayed: Replayed,
}

/// The places that are left in each queue.
fn places_of(
    alloc: Global,
    tapes: &Tapes,
    status: &Status,
) -> Result<Items<Items<Seat>>, OutOfMemory> {
    let mut places = Vec::new(alloc);
    for (number, queue) in status.queues.as_slice().iter().enumerate() {
        places.push(tapes.left(alloc, number, queue.taken)?)?;
    }
    Ok(Items::new(places))
}

/// The row of a state.
fn row_of(alloc: Global, line: u32, core: &Core, tapes: &Tapes) -> Result<Row, OutOfMemory>
    ensures { IfOk result (λ row. RowShows row line (state core.now)) }
{
    let status = core.status()?;
    let places = places_of(alloc, tapes, &status)?;
    Ok(Row {
        line,
        status,
        places,
    })
}

/// Appends a row; if there are as many as a picture may have, the first one is removed.
fn keep(rows: &mut Vec<Row>, row: Row) -> Result<(), OutOfMemory>
    ensures { OnOk result (rows.new.items ≡ kept rows.old.items row) }
{
    if rows.len() >= MOST_ROWS {
        let _ = rows.remove(0);
    }
    Ok(rows.push(row)?)
}

/// Applies an event. If the event is refused, the answer is how its list ends.
fn apply_next(core: &mut Core, line: u32, event: &Event) -> Result<Option<Replayed>, OutOfMemory>
    ensures { IfOk result (λ end. IsNext end line event.now (state core.old) (state core.new)) }
{
    match core.apply(event) {
        Ok(()) => Ok(None),
        Err(Refusal::OutOfMemory) => Err(OutOfMemory),
        Err(refusal) => Ok(Some(Replayed::Refused { line, refusal })),
    }
}

/// Runs events on a fresh core, up to the first that is refused, and keeps the last rows.
pub(crate) fn replay_rows(
    alloc: Global,
    elements: u8,
    events: &[(u32, Event)],
) -> Result<History, OutOfMemory>
    requires some { 1 ≤ elements }
    requires within { elements ≤ 64 }
    ensures { IfOk result (λ past. IsHistory past events.now (first_state elements)) }
{
    let mut core = Core::with_elements(alloc, elements)?;
    let mut tapes = Tapes::new(alloc);
    let mut rows = Vec::new(alloc);
    let mut allowed = 0;
    for (line, event) in events {
        match apply_next(&mut core, *line, event)? {
            None => {}
            Some(replayed) => {
                return Ok(History {
                    rows,
                    allowed,
                    replayed,
                });
            }
        }
        tapes.follow(alloc, event)?;
        keep(&mut rows, row_of(alloc, *line, &core, &tapes)?)?;
        allowed += 1;
    }
    Ok(History {
        rows,
        allowed,
        replayed: Replayed::AllAllowed,
    })
}
