//! The ends of all queues, small and large, of one owner.
ghost use Rattle.std.specs.Prelude.{◌≡◌, ◌≤◌, [], length};
ghost use Rattle.turn_io.specs.Gates.{HookSawSay};
ghost use Rattle.turn_io.specs.Points.{HearPoint, OnEither, SayPoints};
ghost use Rattle.turn_io.specs.QueueEnds.{AreQueueEndsOf, AreSameQueueEnds, IsThere, SaidAt, HeardAt, ShutAt};
ghost use Rattle.turn_io.specs.declared.gate.Point.TheVariants.{TakeAnswered};

use crate::end_gates::QueueGate;
use crate::hearing::hear;
use crate::items::item_at;
use crate::saying::say;
use arrayvec::ArrayVec;
use boot_data::plan::QueueIndex;
use claim_queue::{ClaimRefusal, QueueEnd, TakeRefusal};
use quajects::Queues;

/// An end of each small queue and of each large one, in the order of the queues.
#[derive(Drop)]
pub struct QueueEnds {
    pub small: Vec<QueueEnd<64>>,
    pub large: Vec<QueueEnd<256>>,
}

/// The lists that the tries of an owner use again, so that no try fills new lists with zeros: one for the line that is
/// said or heard, and one for a line that is taken from a queue of 64 places.
#[derive(Drop)]
pub struct LineRoom {
    pub line: ArrayVec<u64, 256>,
    short: ArrayVec<u64, 64>,
}

impl LineRoom {
    /// Room for a line, which is empty.
    pub fn new() -> LineRoom
        ensures { result.line.items ≡ [] }
    {
        LineRoom {
            line: ArrayVec::new(),
            short: ArrayVec::new(),
        }
    }
}

// Copies a line of a small queue.
fn copy(line: &[u64], text: &mut ArrayVec<u64, 256>)
    requires empty { text.old.items ≡ [] }
    requires short { length line.now ≤ 64 }
    ensures { text.new.items ≡ line.now }
{
    if !line.is_empty() {
        let _ = text.try_extend_from_slice(line);
    }
}

impl QueueEnds {
    /// One try to put a line in the queue with this index, as `say` makes it.
    ///
    /// Conditions: the ends are those of the queues, and the index is that of a queue.
    pub fn say<G: QueueGate<64> + QueueGate<256>>(
        &mut self,
        queues: &Queues,
        queue: QueueIndex,
        line: &[u64],
        p: u8,
        gate: &mut G,
    ) -> Result<(), ClaimRefusal>
        requires ends { AreQueueEndsOf queues.now self.old }
        requires there { IsThere queues.now queue }
        ensures handle { AreSameQueueEnds self.old self.new }
        ensures said { SaidAt queue line.now result self.old self.new }
        ensures hook { HookSawSay G.observes p result gate.old gate.new }
        ensures points { OnEither queue
            (SayPoints ⟦<G as QueueGate<64>>⟧.at_end p line.now result gate.old gate.new)
            (SayPoints ⟦<G as QueueGate<256>>⟧.at_end p line.now result gate.old gate.new) self.old self.new }
    {
        match queue {
            QueueIndex::Small(at) => {
                let end = item_at(self.small.as_mut_slice(), at);
                say(&queues.small[at], end, line, p, gate)
            }
            QueueIndex::Large(at) => {
                let end = item_at(self.large.as_mut_slice(), at);
                say(&queues.large[at], end, line, p, gate)
            }
        }
    }

    /// One try to take a line from the queue with this index, as `hear` makes it. The line goes into `room.line`, which
    /// stays empty if the try is refused.
    ///
    /// Conditions: the ends are those of the queues, the index is that of a queue, and `room.line` is empty.
    pub fn hear<G: QueueGate<64> + QueueGate<256>>(
        &mut self,
        queues: &Queues,
        queue: QueueIndex,
        room: &mut LineRoom,
        p: u8,
        gate: &mut G,
    ) -> Result<(), TakeRefusal>
        requires ends { AreQueueEndsOf queues.now self.old }
        requires there { IsThere queues.now queue }
        requires empty { room.old.line.items ≡ [] }
        ensures handle { AreSameQueueEnds self.old self.new }
        ensures heard { HeardAt queue room.new.line.items result self.old self.new }
        ensures hook { G.observes gate.old p TakeAnswered gate.new }
        ensures points { OnEither queue (HearPoint ⟦<G as QueueGate<64>>⟧.at_end p gate.old gate.new)
            (HearPoint ⟦<G as QueueGate<256>>⟧.at_end p gate.old gate.new) self.old self.new }
    {
        match queue {
            QueueIndex::Small(at) => {
                let end = item_at(self.small.as_mut_slice(), at);
                room.short.clear();
                let answer = hear(&queues.small[at], end, &mut room.short, p, gate);
                copy(room.short.as_slice(), &mut room.line);
                answer
            }
            QueueIndex::Large(at) => {
                let end = item_at(self.large.as_mut_slice(), at);
                hear(&queues.large[at], end, &mut room.line, p, gate)
            }
        }
    }

    /// Shuts the queue with this index for claims, for good; items that were put can still be taken. Returns true if the
    /// queue was open, which is returned to one end only.
    ///
    /// Conditions: the ends are those of the queues, and the index is that of a queue.
    pub fn shut(&mut self, queues: &Queues, queue: QueueIndex) -> bool
        requires ends { AreQueueEndsOf queues.now self.old }
        requires there { IsThere queues.now queue }
        ensures handle { AreSameQueueEnds self.old self.new }
        ensures shut { ShutAt queue result self.old self.new }
    {
        match queue {
            QueueIndex::Small(at) => queues.small[at].shut(item_at(self.small.as_mut_slice(), at)),
            QueueIndex::Large(at) => queues.large[at].shut(item_at(self.large.as_mut_slice(), at)),
        }
    }
}
