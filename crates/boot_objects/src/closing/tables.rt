//! Closing the thread table and the meters, each by its only end.
ghost use Rattle.std.specs.Prelude.{◌≡◌, ◌<◌, ℕ, false};
ghost use Rattle.boot_objects.specs.Placings.{NoneHeld};
ghost use Rattle.meters.specs.Closings as metering;
ghost use Rattle.meters.specs.Handles as seats;
ghost use Rattle.thread_table.specs.Closings.{ClosedNow};
ghost use Rattle.thread_table.specs.Handles.{view_of, call_of, IsHandOf, IsOnlyHand};
ghost use Rattle.thread_table.specs.Rules.{has};

use meters::{MeterSeat, Metered, Meters};
use thread_table::{Hand, Places, ThreadTable};

/// Closes the thread table by its only hand. Returns the place of each element, the number of its steps done, its
/// signals and its stop bit. It takes no memory. If the hand holds no element, no element is held.
///
/// Conditions: the hand is one of the table, and has the whole of it, so that no other hand exists.
pub fn close_threads(threads: ThreadTable, hand: Hand) -> Places
    requires hand { IsHandOf threads hand }
    requires whole { IsOnlyHand hand }
    ensures closed { ClosedNow (call_of hand) (view_of hand) result.places result.pcs result.pending result.stops }
    ensures put { ((e : ℕ) → e < 64 → has (view_of hand) e ≡ false) → NoneHeld result.places }
{
    match threads.close(hand) {
        Ok(places) => places,
        Err(_) => unreachable!(),
    }
}

/// Closes the meters by their only end, and returns the gauges, the clock and the alarms that remain. It takes no
/// memory.
///
/// Conditions: the seat is one of the meters, and has the whole of them, so that no other seat exists.
pub fn close_meters(meters: Meters, seat: MeterSeat) -> Metered
    requires seat { seats.IsSeatOf meters seat }
    requires whole { seats.IsOnlySeat seat }
    ensures { metering.ClosedNow (seats.first_of meters) (seats.view_of seat) result.gauges result.clock
        result.alarms.items }
{
    match meters.close(seat) {
        Ok(metered) => metered,
        Err(_) => unreachable!(),
    }
}
