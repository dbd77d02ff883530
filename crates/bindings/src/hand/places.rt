//! The state of a table when it was closed, as C has it.
ghost use Rattle.std.specs.Prelude.{◌≡◌, map};
ghost use Rattle.bindings.specs.HandCalls.{c_place, ReportsPlaces};

use thread_table::{Place, Places};

/// The place of an element: on the processor `number` (0), in the ready ring (1), free (2), in the wait queue `number`
/// (3), in its stop cell (4), or in the hand that closed the table (5). If `kind` needs no number, `number` is 0.
#[repr(C)]
#[derive(Clone, Copy)]
pub struct SynthPlace {
    pub kind: u32,
    pub number: u32,
}

/// The state of a table when it was closed, each list by the number of the element: its place, its steps done, and its
/// pending signals, bit s for signal s. `stops` has bit e if the stop bit of element e is set.
#[repr(C)]
#[derive(Drop)]
pub struct SynthPlaces {
    pub place: [SynthPlace; 64],
    pub pc: [u64; 64],
    pub pending: [u16; 64],
    pub stops: u64,
}

fn place_for_c(place: Place) -> SynthPlace
    ensures { result ≡ c_place place }
{
    let (kind, number) = match place {
        Place::Processor(p) => (0, p),
        Place::Ready => (1, 0),
        Place::Free => (2, 0),
        Place::Wait(wait) => (3, wait),
        Place::Stopped => (4, 0),
        Place::Held => (5, 0),
    };
    SynthPlace {
        kind,
        number: u32::from(number),
    }
}

fn places_for_c(places: &[Place; 64]) -> [SynthPlace; 64]
    ensures { result ≡ map c_place places.now }
{
    let mut reported = [SynthPlace { kind: 0, number: 0 }; 64];
    for i in 0..64 {
        reported[i] = place_for_c(places[i]);
    }
    reported
}

/// The report of the library's `close`.
pub fn answer_of_places(places: &Places) -> SynthPlaces
    ensures { ReportsPlaces places.now result }
{
    SynthPlaces {
        place: places_for_c(&places.places),
        pc: places.pcs,
        pending: places.pending,
        stops: places.stops,
    }
}
