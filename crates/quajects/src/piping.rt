//! The pump (Massalin 1992).
ghost use Rattle.std.specs.Prelude.{◌≡◌, ℕ, List, [], ◌++◌, ◌∷◌, length};
ghost use Rattle.claim_queue.specs.Handles.{view_of};
ghost use Rattle.claim_queue.specs.Lines.{lines_put, lines_taken};
ghost use Rattle.quajects.specs.Lines.{held_line, counted};
ghost use Rattle.quajects.specs.Ports.{IsEndAt, IsUnused, post_of};
ghost use Rattle.quajects.specs.Tries.{Refilled, Flushed};

use crate::ports::{Intake, Outlet, Port};
use crate::world::Queues;
use arrayvec::ArrayVec;
use claim_queue::{ClaimQueue, QueueEnd};
use proc_chain::{Quaject, Ran};

/// Puts what it takes from one queue in another, line by line. A line that its target refuses is held, and goes first
/// at the next note.
#[derive(Drop)]
pub struct Pump {
    source: Intake<64>,
    target: Outlet<64>,
    held: ArrayVec<u64, 64>,
    notes: u64,
    ghost law: { lines_taken (view_of source.end) ≡ lines_put (view_of target.end) ++ held_line held.items },
}

impl Pump {
    ghost use Rattle.quajects.specs.Pumps.{source_of, target_of, source_port, target_port, held_of, notes_of, IsNew};
    ghost use Rattle.quajects.specs.Pumps.{Fits};
    ghost use Rattle.quajects.specs.declared.world.Queues.{Queues};

    /// A pump from the small queue with the index `from` to that with the index `to`.
    ///
    /// Condition: the ends have claimed and taken nothing.
    pub fn new(from: usize, source: QueueEnd<64>, to: usize, target: QueueEnd<64>) -> Pump
        requires source { IsUnused (view_of source) }
        requires target { IsUnused (view_of target) }
        ensures new { IsNew from source to target result }
        ensures fits { (world : Queues) → IsEndAt world.small.items from source → IsEndAt world.small.items to target
            → Fits world result }
    {
        Pump {
            source: Intake::new(from, source),
            target: Outlet::new(to, target),
            held: ArrayVec::new(),
            notes: 0,
        }
    }

    /// How many notes were run, modulo 2^64.
    pub fn notes(&self) -> u64
        ensures { result ≡ notes_of self.now }
    {
        self.notes
    }

    /// How many items were taken, modulo 2^64.
    pub fn taken(&self) -> u64
        ensures { result ≡ counted (lines_taken (view_of (source_of self.now))) }
    {
        self.source.taken
    }

    /// How many items were put, modulo 2^64.
    pub fn put(&self) -> u64
        ensures { result ≡ counted (lines_put (view_of (target_of self.now))) }
    {
        self.target.put
    }

    /// How many items are held.
    pub fn held(&self) -> usize
        ensures { result ≡ length (held_of self.now) }
    {
        self.held.len()
    }

    /// The ends, in the order of `new`.
    pub fn into_ends(self) -> (QueueEnd<64>, QueueEnd<64>)
        ensures { (result.0 ≡ source_of self) × (result.1 ≡ target_of self) }
    {
        (self.source.into_end(), self.target.into_end())
    }

    // The ends with their indexes, in the order of `new`.
    pub(crate) fn into_ports(self) -> (Port<64>, Port<64>)
        ensures { (result.0 ≡ source_port self) × (result.1 ≡ target_port self) }
    {
        (self.source.into_port(), self.target.into_port())
    }

    // With nothing held, one try to take a line.
    fn refill(&mut self, queues: &[ClaimQueue<64>]) -> bool
        requires { IsEndAt queues.now self.old.source.index self.old.source.end }
        ensures rest { (self.new.target ≡ self.old.target) × (self.new.notes ≡ self.old.notes) }
        ensures at { IsEndAt queues.now self.new.source.index self.new.source.end }
        ensures handle { post_of self.new.source.index self.new.source.end
            ≡ post_of self.old.source.index self.old.source.end }
        ensures tried { Refilled 64 (view_of self.old.source.end) self.old.held.items
            result self.new.held.items (view_of self.new.source.end) }
    {
        self.held.is_empty() && self.source.try_line(queues, &mut self.held)
    }

    // One try to put what is held.
    fn flush(&mut self, queues: &[ClaimQueue<64>]) -> bool
        requires { IsEndAt queues.now self.old.target.index self.old.target.end }
        ensures rest { (self.new.source ≡ self.old.source) × (self.new.notes ≡ self.old.notes) }
        ensures at { IsEndAt queues.now self.new.target.index self.new.target.end }
        ensures handle { post_of self.new.target.index self.new.target.end
            ≡ post_of self.old.target.index self.old.target.end }
        ensures tried { Flushed 64 (view_of self.old.target.end) self.old.held.items
            result self.new.held.items (view_of self.new.target.end) }
    {
        if self.held.is_empty() || !self.target.try_line(queues, self.held.as_slice()) {
            return false;
        }
        self.held.clear();
        true
    }
}

impl Quaject for Pump {
    ghost use Rattle.quajects.specs.Pumps.{MadeOf, Fits, RanPump};

    type World = Queues;

    ghost made_by = { MadeOf };

    ghost fits = { Fits };

    /// If nothing is held it takes a line from its source; then it puts what is held in its target. Each try is made
    /// once. Returns `Worked` if a line was taken or put.
    fn run(&mut self, world: &Queues, _note: u16) -> Ran
        requires { Fits world.now self.old }
        ensures fits { Fits world.now self.new }
        ensures made { (first : Pump) (notes : List ℕ)
            → MadeOf first self.old notes → MadeOf first self.new (notes ++ _note ∷ []) }
        ensures ran { RanPump self.old self.new result }
    {
        self.notes = self.notes.wrapping_add(1);
        let took = self.refill(world.small.as_slice());
        let put = self.flush(world.small.as_slice());
        if took || put {
            Ran::Worked
        } else {
            Ran::Nothing
        }
    }
}
