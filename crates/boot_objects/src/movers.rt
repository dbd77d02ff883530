//! The pumps and switches of a plan.
ghost use Rattle.std.specs.Prelude.{◌≡◌, ◌<◌, ◌≤◌, [], length, map};
ghost use Rattle.std.specs.List.{All, slice_get};
ghost use Rattle.boot_data.specs.declared.plan.Mover.TheVariants as planned;
ghost use Rattle.boot_objects.specs.Makings.{IsThere, AreWays, GaveWay, GaveWays, MadeMover};
ghost use Rattle.boot_objects.specs.Stocks.{CanGive, IsStock, shares};

use crate::stock::split_at;
use boot_data::plan::{Mover, Way};
use claim_queue::QueueEnd;
use quajects::{AnyQuaject, GivenWay, Pump, Queues, Switch};

// A pump over ends of its queues.
fn make_pump(queues: &Queues, small: &mut Vec<QueueEnd<64>>, from: usize, to: usize) -> AnyQuaject
    requires there { IsThere (length queues.now.small.items) (planned.Pump from to) }
    requires stock { IsStock queues.now.small.items small.old.items }
    requires parts { CanGive 2 (shares small.old.items) }
    ensures { MadeMover queues.now (planned.Pump from to) small.old.items small.new.items result }
{
    let source = split_at(queues.small.as_slice(), small, from);
    let target = split_at(queues.small.as_slice(), small, to);
    AnyQuaject::Pump(Pump::new(from, source, to, target))
}

// A way with an end of its queue, if there is a way with this number.
fn give_way(queues: &Queues, small: &mut Vec<QueueEnd<64>>, ways: &[Way], number: usize) -> GivenWay
    requires there { AreWays (length queues.now.small.items) ways.now }
    requires stock { IsStock queues.now.small.items small.old.items }
    requires parts { CanGive 1 (shares small.old.items) }
    ensures { GaveWay queues.now (slice_get ways.now number) small.old.items small.new.items result }
{
    if number < ways.len() {
        let Way { key, to } = ways[number];
        Some((key, to, split_at(queues.small.as_slice(), small, to)))
    } else {
        None
    }
}

// The ways of a switch, four at most, each with an end of its queue.
fn give_ways(queues: &Queues, small: &mut Vec<QueueEnd<64>>, ways: &[Way]) -> [GivenWay; 4]
    requires there { AreWays (length queues.now.small.items) ways.now }
    requires stock { IsStock queues.now.small.items small.old.items }
    requires parts { CanGive 4 (shares small.old.items) }
    ensures { GaveWays queues.now ways.now small.old.items small.new.items result }
{
    let first = give_way(queues, small, ways, 0);
    let second = give_way(queues, small, ways, 1);
    let third = give_way(queues, small, ways, 2);
    let fourth = give_way(queues, small, ways, 3);
    [first, second, third, fourth]
}

// A switch over ends of its queues.
fn make_switch(
    queues: &Queues,
    small: &mut Vec<QueueEnd<64>>,
    from: usize,
    other: usize,
    ways: &[Way],
) -> AnyQuaject
    requires there { IsThere (length queues.now.small.items) (planned.Switch from other ways.now) }
    requires few { length ways.now ≤ 4 }
    requires stock { IsStock queues.now.small.items small.old.items }
    requires parts { CanGive 6 (shares small.old.items) }
    ensures { MadeMover queues.now (planned.Switch from other ways.now) small.old.items small.new.items result }
{
    let source = split_at(queues.small.as_slice(), small, from);
    let rest = split_at(queues.small.as_slice(), small, other);
    let given = give_ways(queues, small, ways);
    AnyQuaject::Switch(Switch::new(from, source, other, rest, given))
}

/// The pump or switch of a plan, over ends that are split off the first ends of its queues.
///
/// Conditions: the queues that the pump or switch names exist. No two of its ways have the same key. The ends can be
/// split six times.
pub(crate) fn make_mover(
    queues: &Queues,
    small: &mut Vec<QueueEnd<64>>,
    mover: &Mover,
) -> AnyQuaject
    requires there { IsThere (length queues.now.small.items) mover.now }
    requires stock { IsStock queues.now.small.items small.old.items }
    requires parts { CanGive 6 (shares small.old.items) }
    ensures { MadeMover queues.now mover.now small.old.items small.new.items result }
{
    match mover {
        Mover::Pump { from, to } => make_pump(queues, small, *from, *to),
        Mover::Switch { from, other, ways } => {
            make_switch(queues, small, *from, *other, ways.as_slice())
        }
    }
}
