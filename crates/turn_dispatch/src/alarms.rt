//! The clock and the alarms.
ghost use Rattle.std.specs.Prelude.{◌≡◌};
ghost use Rattle.meters.specs.Handles.{IsSeatOf, IsSameSeat};
ghost use Rattle.meters.specs.Handles as seats;
ghost use Rattle.thread_table.specs.Handles.{view_of, call_of, IsHandOf, IsSameHand};
ghost use Rattle.turn_dispatch.specs.Holdings.{OnlyAdds};
ghost use Rattle.turn_dispatch.specs.Tallies.{signals_for};
ghost use Rattle.turn_dispatch.specs.Tendings.{DidTend, Fires, RaisedAll};

use arrayvec::ArrayVec;
use meters::{AdvanceRefusal, Alarm, MeterSeat, Meters};
use thread_table::{Hand, ThreadTable};

// Raises the signal of each alarm at its element.
fn raise_signals(threads: &ThreadTable, hand: &mut Hand, alarms: &[Alarm])
    requires table { IsHandOf threads.now hand.old }
    ensures raised { RaisedAll (call_of hand.old) alarms.now (view_of hand.old) (view_of hand.new) }
    ensures handle { IsSameHand hand.old hand.new }
{
    for alarm in alarms {
        threads.signal(hand, alarm.element, alarm.signal);
    }
}

/// Makes one try to advance the clock by one tick and fires the alarms that are due then. It raises the signal of each
/// of them at its element, in their order. Returns the tick to which the clock was advanced, or the refusal; the list
/// then has the alarms that were fired, and nothing else.
pub fn tend_alarms(
    threads: &ThreadTable,
    hand: &mut Hand,
    meters: &Meters,
    seat: &mut MeterSeat,
    fired: &mut ArrayVec<Alarm, 16>,
) -> Result<u32, AdvanceRefusal>
    requires table { IsHandOf threads.now hand.old }
    requires meters { IsSeatOf meters.now seat.old }
    ensures owns { DidTend result fired.new.items (seats.view_of seat.old) (seats.view_of seat.new) }
    ensures only { OnlyAdds (signals_for fired.new.items) (view_of hand.old) (view_of hand.new) }
    ensures fired { Fires result fired.new.items (seats.view_of seat.old) (seats.view_of seat.new) }
    ensures raised { RaisedAll (call_of hand.old) fired.new.items (view_of hand.old) (view_of hand.new) }
    ensures handle { IsSameHand hand.old hand.new × IsSameSeat seat.old seat.new }
{
    let advanced = meters.advance(seat);
    meters.take_due(seat, fired);
    raise_signals(threads, hand, fired.as_slice());
    advanced
}
