//! Which element is on which processor, and who put it there.

ghost use Rattle.std.specs.Prelude.{◌≡◌, map, option_map};
ghost use Rattle.std.specs.List.{list_any};
ghost use Rattle.event_theory.specs.Elements.{is_put, join_hold};

use crate::queueing::renamed;
use event_theory::{Call, Hold};

/// Whether the call put the element on one of the processors.
pub(crate) fn is_put(processors: &[Option<Hold>; 8], call: Call, element: u64) -> bool
    ensures { result ≡ list_any (is_put call element) processors.now }
{
    processors.iter().any(|seat| match seat {
        Some(hold) => hold.call == call && hold.element == element,
        None => false,
    })
}

/// Gives the call everything that the other call put on a processor.
pub(crate) fn join(processors: &mut [Option<Hold>; 8], call: Call, other: Call)
    ensures { processors.new ≡ map (option_map (join_hold call other)) processors.old }
{
    for seat in processors.iter_mut() {
        *seat = join_seat(*seat, call, other);
    }
}

/// The seat after the join of another call to the first.
fn join_seat(seat: Option<Hold>, call: Call, other: Call) -> Option<Hold>
    ensures { result ≡ option_map (join_hold call other) seat }
{
    seat.map(|hold| Hold {
        call: renamed(call, other, hold.call),
        element: hold.element,
    })
}
