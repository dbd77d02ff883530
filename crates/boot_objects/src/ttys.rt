//! The cooked ttys of a plan.
ghost use Rattle.std.specs.Prelude.{◌<◌, length};
ghost use Rattle.boot_data.specs.QueueLists.{screen_queue};
ghost use Rattle.boot_objects.specs.Makings.{MadeQuaject};
ghost use Rattle.boot_objects.specs.Planned.{IsTty};
ghost use Rattle.boot_objects.specs.Stocks.{CanGive, IsStock, shares};

use crate::stock::split_at;
use claim_queue::QueueEnd;
use quajects::{AnyQuaject, CookedTty, Queues};

/// The cooked tty of the tty with this number, over ends that are split off the first ends of its queues. The index of
/// the tty's raw queue is `raw`.
///
/// Conditions: the tty's queues exist, and the ends can be split twice.
pub(crate) fn make_tty(
    queues: &Queues,
    small: &mut Vec<QueueEnd<64>>,
    large: &mut Vec<QueueEnd<256>>,
    raw: usize,
    tty: usize,
) -> AnyQuaject
    requires raw { raw < length queues.now.small.items }
    requires large { screen_queue tty < length queues.now.large.items }
    requires stock { IsStock queues.now.small.items small.old.items × IsStock queues.now.large.items large.old.items }
    requires parts { CanGive 2 (shares small.old.items) × CanGive 2 (shares large.old.items) }
    ensures { MadeQuaject queues.now (IsTty raw tty) 1 2 small.old.items small.new.items large.old.items large.new.items
        result }
{
    let raw_end = split_at(queues.small.as_slice(), small, raw);
    let line = tty * 2;
    let line_end = split_at(queues.large.as_slice(), large, line);
    let screen_end = split_at(queues.large.as_slice(), large, line + 1);
    AnyQuaject::Cooked(CookedTty::new(raw, raw_end, line, line_end, line + 1, screen_end))
}
