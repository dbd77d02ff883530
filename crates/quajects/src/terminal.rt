//! The cooked tty (Massalin 1992).
ghost use Rattle.std.specs.Prelude.{◌≡◌, ◌≢◌, ℕ, true, List, [], ◌++◌, ◌∷◌, map, length, if◌then◌else◌};
ghost use Rattle.claim_queue.specs.Handles.{view_of};
ghost use Rattle.claim_queue.specs.Lines.{lines_put, lines_taken};
ghost use Rattle.quajects.specs.Cooked.{cooked};
ghost use Rattle.quajects.specs.Lines.{held_line, counted};
ghost use Rattle.quajects.specs.Ports.{IsEndAt, IsUnused, post_of};
ghost use Rattle.quajects.specs.Cooks.{CookedRaw, TriedLine, TriedScreen};

use crate::cooking::cooked_line;
use crate::ports::{Intake, Outlet, Port};
use crate::world::Queues;
use arrayvec::ArrayVec;
use claim_queue::{ClaimQueue, QueueEnd};
use proc_chain::{Quaject, Ran};

/// Cooks the lines of a raw queue, and puts each in a line queue and then in a screen queue, by one claim each. A line
/// that is not in both is held, and goes on at the next note; no other line is taken before that.
#[derive(Drop)]
pub struct CookedTty {
    raw: Intake<64>,
    line: Outlet<256>,
    screen: Outlet<256>,
    held: ArrayVec<u64, 65>,
    in_line: bool,
    notes: u64,
    ghost lines: { map cooked (lines_taken (view_of raw.end)) ≡ lines_put (view_of line.end)
        ++ (if in_line then [] else held_line held.items) },
    ghost screens: { map cooked (lines_taken (view_of raw.end)) ≡ lines_put (view_of screen.end)
        ++ held_line held.items },
    ghost full: { in_line ≡ true → held.items ≢ [] },
}

impl CookedTty {
    ghost use Rattle.quajects.specs.Terminals.{raw_of, line_of, screen_of, held_of, notes_of, IsNew};
    ghost use Rattle.quajects.specs.Terminals.{raw_port, line_port, screen_port, Fits};
    ghost use Rattle.quajects.specs.declared.world.Queues.{Queues};

    /// A cooked tty over the small queue with the index `raw`, and the large ones with the indexes `line` and
    /// `screen`. It holds nothing.
    ///
    /// Condition: the ends have claimed and taken nothing.
    pub fn new(
        raw: usize,
        raw_end: QueueEnd<64>,
        line: usize,
        line_end: QueueEnd<256>,
        screen: usize,
        screen_end: QueueEnd<256>,
    ) -> CookedTty
        requires raw { IsUnused (view_of raw_end) }
        requires line { IsUnused (view_of line_end) }
        requires screen { IsUnused (view_of screen_end) }
        ensures new { IsNew raw raw_end line line_end screen screen_end result }
        ensures fits { (world : Queues) → IsEndAt world.small.items raw raw_end
            → IsEndAt world.large.items line line_end → IsEndAt world.large.items screen screen_end
            → Fits world result }
    {
        CookedTty {
            raw: Intake::new(raw, raw_end),
            line: Outlet::new(line, line_end),
            screen: Outlet::new(screen, screen_end),
            held: ArrayVec::new(),
            in_line: false,
            notes: 0,
        }
    }

    /// How many notes were run, modulo 2^64.
    pub fn notes(&self) -> u64
        ensures { result ≡ notes_of self.now }
    {
        self.notes
    }

    /// How many items were taken, modulo 2^64.
    pub fn taken(&self) -> u64
        ensures { result ≡ counted (lines_taken (view_of (raw_of self.now))) }
    {
        self.raw.taken
    }

    /// How many items were put in both queues, modulo 2^64.
    pub fn put(&self) -> u64
        ensures { result ≡ counted (lines_put (view_of (line_of self.now)) ++ lines_put (view_of (screen_of
            self.now))) }
    {
        self.line.put.wrapping_add(self.screen.put)
    }

    /// How many items are held.
    pub fn held(&self) -> usize
        ensures { result ≡ length (held_of self.now) }
    {
        self.held.len()
    }

    /// The ends, in the order of `new`.
    pub fn into_ends(self) -> (QueueEnd<64>, QueueEnd<256>, QueueEnd<256>)
        ensures { (result.0 ≡ raw_of self) × (result.1 ≡ line_of self) × (result.2 ≡ screen_of self) }
    {
        (
            self.raw.into_end(),
            self.line.into_end(),
            self.screen.into_end(),
        )
    }

    // The ends with their indexes, in the order of `new`.
    pub(crate) fn into_ports(self) -> (Port<64>, Port<256>, Port<256>)
        ensures { (result.0 ≡ raw_port self) × (result.1 ≡ line_port self) × (result.2 ≡ screen_port self) }
    {
        (
            self.raw.into_port(),
            self.line.into_port(),
            self.screen.into_port(),
        )
    }

    // With nothing held, one try to take a raw line, which is cooked and held.
    fn refill(&mut self, queues: &[ClaimQueue<64>]) -> bool
        requires { IsEndAt queues.now self.old.raw.index self.old.raw.end }
        ensures rest { (self.new.line ≡ self.old.line) × (self.new.screen ≡ self.old.screen)
            × (self.new.notes ≡ self.old.notes) × (self.new.in_line ≡ self.old.in_line) }
        ensures at { IsEndAt queues.now self.new.raw.index self.new.raw.end }
        ensures handle { post_of self.new.raw.index self.new.raw.end
            ≡ post_of self.old.raw.index self.old.raw.end }
        ensures tried { CookedRaw (view_of self.old.raw.end) self.old.held.items result
            self.new.held.items (view_of self.new.raw.end) }
    {
        if !self.held.is_empty() {
            return false;
        }
        let mut raw = ArrayVec::new();
        if !self.raw.try_line(queues, &mut raw) {
            return false;
        }
        self.held = cooked_line(raw.as_slice());
        true
    }

    // One try to put what is held in the line queue, if it isn't there yet.
    fn flush_line(&mut self, queues: &[ClaimQueue<256>]) -> bool
        requires { IsEndAt queues.now self.old.line.index self.old.line.end }
        ensures rest { (self.new.raw ≡ self.old.raw) × (self.new.screen ≡ self.old.screen)
            × (self.new.notes ≡ self.old.notes) × (self.new.held ≡ self.old.held) }
        ensures at { IsEndAt queues.now self.new.line.index self.new.line.end }
        ensures handle { post_of self.new.line.index self.new.line.end
            ≡ post_of self.old.line.index self.old.line.end }
        ensures tried { TriedLine (view_of self.old.line.end) self.old.held.items
            self.old.in_line result self.new.in_line (view_of self.new.line.end) }
    {
        if self.held.is_empty() || self.in_line {
            return false;
        }
        if !self.line.try_line(queues, self.held.as_slice()) {
            return false;
        }
        self.in_line = true;
        true
    }

    // One try to put what is in the line queue in the screen queue.
    fn flush_screen(&mut self, queues: &[ClaimQueue<256>]) -> bool
        requires { IsEndAt queues.now self.old.screen.index self.old.screen.end }
        ensures rest { (self.new.raw ≡ self.old.raw) × (self.new.line ≡ self.old.line)
            × (self.new.notes ≡ self.old.notes) }
        ensures at { IsEndAt queues.now self.new.screen.index self.new.screen.end }
        ensures handle { post_of self.new.screen.index self.new.screen.end
            ≡ post_of self.old.screen.index self.old.screen.end }
        ensures tried { TriedScreen (view_of self.old.screen.end) self.old.held.items
            self.old.in_line result self.new.held.items self.new.in_line (view_of self.new.screen.end) }
    {
        if !self.in_line || !self.screen.try_line(queues, self.held.as_slice()) {
            return false;
        }
        self.held.clear();
        self.in_line = false;
        true
    }
}

impl Quaject for CookedTty {
    ghost use Rattle.quajects.specs.Terminals.{MadeOf, Fits, RanCooked};

    type World = Queues;

    ghost made_by = { MadeOf };

    ghost fits = { Fits };

    /// If nothing is held it takes a raw line, and holds the cooked one; then it puts what is held in the line queue,
    /// and once that is done in the screen queue. Each try is made once. Returns `Worked` if a line was taken or put.
    fn run(&mut self, world: &Queues, _note: u16) -> Ran
        requires { Fits world.now self.old }
        ensures fits { Fits world.now self.new }
        ensures made { (first : CookedTty) (notes : List ℕ)
            → MadeOf first self.old notes → MadeOf first self.new (notes ++ _note ∷ []) }
        ensures ran { RanCooked self.old self.new result }
    {
        self.notes = self.notes.wrapping_add(1);
        let took = self.refill(world.small.as_slice());
        let line = self.flush_line(world.large.as_slice());
        let screen = self.flush_screen(world.large.as_slice());
        if took || line || screen {
            Ran::Worked
        } else {
            Ran::Nothing
        }
    }
}
