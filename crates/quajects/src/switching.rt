//! The switch (Massalin 1992).
ghost use Rattle.std.specs.Prelude.{◌≡◌, ◌≢◌, ◌<◌, ℕ, List, [], ◌++◌, ◌∷◌, length, Option, Some, MatchOption};
ghost use Rattle.std.specs.Prelude.{slice_index, map, if◌then◌else◌};
ghost use Rattle.std.specs.List.{slice_get, All, AllZip};
ghost use Rattle.claim_queue.specs.Handles.{view_of};
ghost use Rattle.claim_queue.specs.Lines.{lines_put, lines_taken};
ghost use Rattle.quajects.specs.Lines.{held_line, counted};
ghost use Rattle.quajects.specs.Ports.{IsEndAt, IsUnused, post_of};
ghost use Rattle.quajects.specs.Tries.{Refilled, Flushed};
ghost use Rattle.quajects.specs.Routes.{RoutesEach, RoutesRest, KeysDiffer, WaysFit, IsNoKey, TriedWay, Switched};
ghost use Rattle.quajects.specs.Routes.{key_of, end_of, port_of, way_post, puts_of, given_key};
ghost use Rattle.quajects.specs.Routes.{IsGivenUnused, IsGivenFit, IsGiven};
ghost use Rattle.quajects.specs.declared.ways.Way.{Way};

use crate::ports::{Intake, Outlet, Port};
use crate::ways::Way;
use crate::world::Queues;
use arrayvec::ArrayVec;
use claim_queue::{ClaimQueue, QueueEnd};
use proc_chain::{Quaject, Ran};

/// Puts each line that it takes in the target that its first item chooses. A line that its target refuses is held, and
/// goes first at the next note: none overtakes it.
#[derive(Drop)]
pub struct Switch {
    source: Intake<64>,
    other: Outlet<64>,
    ways: [Option<Way>; 4],
    held: ArrayVec<u64, 64>,
    notes: u64,
    ghost four: { length ways ≡ 4 },
    ghost apart: { KeysDiffer (map key_of ways) },
    ghost each: { RoutesEach ways (lines_taken (view_of source.end)) held.items },
    ghost rest: { RoutesRest ways (lines_taken (view_of source.end)) held.items (lines_put (view_of other.end)) },
}

/// A way as it is given: the first item of its lines, the index of its queue, and an end of that queue.
pub type GivenWay = Option<(u8, usize, QueueEnd<64>)>;

// The way that is given.
fn way_from(given: GivenWay) -> Option<Way>
    requires { IsGivenUnused given }
    ensures { IsGiven given result }
{
    match given {
        Some((key, index, end)) => Some(Way {
            key,
            outlet: Outlet::new(index, end),
        }),
        None => None,
    }
}

// The ways that are given.
fn ways_from(given: [GivenWay; 4]) -> [Option<Way>; 4]
    requires { All IsGivenUnused given }
    ensures given { AllZip IsGiven given result }
    ensures four { length result ≡ 4 }
{
    let [a, b, c, d] = given;
    [way_from(a), way_from(b), way_from(c), way_from(d)]
}

// The end of a way.
fn end_of(way: Option<Way>) -> Option<QueueEnd<64>>
    ensures { result ≡ end_of way }
{
    match way {
        Some(way) => Some(way.outlet.into_end()),
        None => None,
    }
}

// The end of a way, with its index.
fn port_of(way: Option<Way>) -> Option<Port<64>>
    ensures { result ≡ port_of way }
{
    match way {
        Some(way) => Some(way.outlet.into_port()),
        None => None,
    }
}

// How many items were put at a way, modulo 2^64.
fn put_at(way: &Option<Way>) -> u64
    ensures { result ≡ counted (puts_of way.now) }
{
    match way {
        Some(way) => way.outlet.put,
        None => 0,
    }
}

impl Switch {
    ghost use Rattle.quajects.specs.Switches.{source_of, other_of, held_of, notes_of, way_ends, all_puts, IsNew};
    ghost use Rattle.quajects.specs.Switches.{source_port, other_port, way_ports, Fits};
    ghost use Rattle.quajects.specs.declared.world.Queues.{Queues};

    /// A switch from the small queue with the index `from`. A line goes to the way whose key is its first item. If
    /// there is no such way, it goes to the queue with the index `to`. The switch holds nothing. Any queue may be the
    /// target of several ways, and also the source.
    ///
    /// Conditions: no two keys are the same, and the ends have claimed and taken nothing.
    pub fn new(
        from: usize,
        source: QueueEnd<64>,
        to: usize,
        other: QueueEnd<64>,
        ways: [GivenWay; 4],
    ) -> Switch
        requires source { IsUnused (view_of source) }
        requires other { IsUnused (view_of other) }
        requires ways { All IsGivenUnused ways }
        requires keys { KeysDiffer (map given_key ways) }
        ensures new { IsNew from source to other ways result }
        ensures fits { (world : Queues) → IsEndAt world.small.items from source → IsEndAt world.small.items to other
            → All (IsGivenFit world.small.items) ways → Fits world result }
    {
        Switch {
            source: Intake::new(from, source),
            other: Outlet::new(to, other),
            ways: ways_from(ways),
            held: ArrayVec::new(),
            notes: 0,
        }
    }

    /// How many notes were run, modulo 2^64.
    pub fn notes(&self) -> u64
        ensures { result ≡ notes_of self.now }
    {
        self.notes
    }

    /// How many items were taken, modulo 2^64.
    pub fn taken(&self) -> u64
        ensures { result ≡ counted (lines_taken (view_of (source_of self.now))) }
    {
        self.source.taken
    }

    /// How many items were put at all targets, modulo 2^64.
    pub fn put(&self) -> u64
        ensures { result ≡ counted (all_puts self.now) }
    {
        let mut total = self.other.put;
        for way in &self.ways {
            total = total.wrapping_add(put_at(way));
        }
        total
    }

    /// How many items are held.
    pub fn held(&self) -> usize
        ensures { result ≡ length (held_of self.now) }
    {
        self.held.len()
    }

    /// The ends, in the order of `new`, and None for a way that doesn't exist.
    pub fn into_ends(self) -> [Option<QueueEnd<64>>; 6]
        ensures { result ≡ Some (source_of self) ∷ Some (other_of self) ∷ way_ends self }
    {
        let [a, b, c, d] = self.ways;
        [
            Some(self.source.into_end()),
            Some(self.other.into_end()),
            end_of(a),
            end_of(b),
            end_of(c),
            end_of(d),
        ]
    }

    // The ends with their indexes, in the order of `new`, and None for a way that doesn't exist.
    pub(crate) fn into_ports(self) -> [Option<Port<64>>; 6]
        ensures { result ≡ Some (source_port self) ∷ Some (other_port self) ∷ way_ports self }
    {
        let [a, b, c, d] = self.ways;
        [
            Some(self.source.into_port()),
            Some(self.other.into_port()),
            port_of(a),
            port_of(b),
            port_of(c),
            port_of(d),
        ]
    }

    // With nothing held, one try to take a line.
    fn refill(&mut self, queues: &[ClaimQueue<64>]) -> bool
        requires { IsEndAt queues.now self.old.source.index self.old.source.end }
        ensures rest { (self.new.other ≡ self.old.other) × (self.new.ways ≡ self.old.ways)
            × (self.new.notes ≡ self.old.notes) }
        ensures at { IsEndAt queues.now self.new.source.index self.new.source.end }
        ensures handle { post_of self.new.source.index self.new.source.end
            ≡ post_of self.old.source.index self.old.source.end }
        ensures tried { Refilled 64 (view_of self.old.source.end) self.old.held.items
            result self.new.held.items (view_of self.new.source.end) }
    {
        self.held.is_empty() && self.source.try_line(queues, &mut self.held)
    }

    // The number of the way that the item chooses.
    fn way_of(&self, item: u64) -> Option<usize>
        ensures { MatchOption result
            (IsNoKey self.now.ways item)
            (λ i. (i < 4) × ((way : Way) × (slice_get self.now.ways i ≡ Some (Some way)) × (item ≡ way.key))) }
    {
        for i in 0..4usize {
            if let Some(way) = &self.ways[i] {
                if way.key as u64 == item {
                    return Some(i);
                }
            }
        }
        None
    }

    // One try to put what is held in a way's target.
    fn flush_way(&mut self, i: usize, queues: &[ClaimQueue<64>]) -> bool
        requires below { i < 4 }
        requires held { self.old.held.items ≢ [] }
        requires chosen { (way : Way) × (slice_get self.old.ways i ≡ Some (Some way))
            × (slice_index self.old.held.items 0 ≡ way.key) }
        requires fit { WaysFit queues.now self.old.ways }
        ensures rest { (self.new.source ≡ self.old.source) × (self.new.other ≡ self.old.other)
            × (self.new.notes ≡ self.old.notes) }
        ensures fit { WaysFit queues.now self.new.ways }
        ensures posts { (map way_post self.new.ways ≡ map way_post self.old.ways)
            × (map key_of self.new.ways ≡ map key_of self.old.ways) }
        ensures tried { TriedWay self.old.ways self.old.held.items result self.new.ways }
        ensures held { self.new.held.items ≡ (if result then [] else self.old.held.items) }
    {
        let Some(way) = &mut self.ways[i] else {
            return false;
        };
        if !way.outlet.try_line(queues, self.held.as_slice()) {
            return false;
        }
        self.held.clear();
        true
    }

    // One try to put what is held in the other target.
    fn flush_other(&mut self, queues: &[ClaimQueue<64>]) -> bool
        requires at { IsEndAt queues.now self.old.other.index self.old.other.end }
        requires held { self.old.held.items ≢ [] }
        requires none { IsNoKey self.old.ways (slice_index self.old.held.items 0) }
        ensures rest { (self.new.source ≡ self.old.source) × (self.new.ways ≡ self.old.ways)
            × (self.new.notes ≡ self.old.notes) }
        ensures at { IsEndAt queues.now self.new.other.index self.new.other.end }
        ensures handle { post_of self.new.other.index self.new.other.end
            ≡ post_of self.old.other.index self.old.other.end }
        ensures tried { Flushed 64 (view_of self.old.other.end) self.old.held.items
            result self.new.held.items (view_of self.new.other.end) }
    {
        if !self.other.try_line(queues, self.held.as_slice()) {
            return false;
        }
        self.held.clear();
        true
    }

    // One try to put what is held in the target that its first item chooses.
    fn flush(&mut self, queues: &[ClaimQueue<64>]) -> bool
        requires at { IsEndAt queues.now self.old.other.index self.old.other.end }
        requires fit { WaysFit queues.now self.old.ways }
        ensures rest { (self.new.source ≡ self.old.source) × (self.new.notes ≡ self.old.notes) }
        ensures at { IsEndAt queues.now self.new.other.index self.new.other.end }
        ensures handle { post_of self.new.other.index self.new.other.end
            ≡ post_of self.old.other.index self.old.other.end }
        ensures fit { WaysFit queues.now self.new.ways }
        ensures posts { (map way_post self.new.ways ≡ map way_post self.old.ways)
            × (map key_of self.new.ways ≡ map key_of self.old.ways) }
        ensures tried { Switched self.old.ways self.old.other self.old.held.items result self.new.held.items
            self.new.ways self.new.other }
    {
        if self.held.is_empty() {
            return false;
        }
        let first = self.held.as_slice()[0];
        match self.way_of(first) {
            Some(i) => self.flush_way(i, queues),
            None => self.flush_other(queues),
        }
    }
}

impl Quaject for Switch {
    ghost use Rattle.quajects.specs.Switches.{MadeOf, Fits, RanSwitch};

    type World = Queues;

    ghost made_by = { MadeOf };

    ghost fits = { Fits };

    /// If nothing is held it takes a line from its source; then it puts what is held in the target that its first item
    /// chooses. Each try is made once. Returns `Worked` if a line was taken or put.
    fn run(&mut self, world: &Queues, _note: u16) -> Ran
        requires { Fits world.now self.old }
        ensures fits { Fits world.now self.new }
        ensures made { (first : Switch) (notes : List ℕ)
            → MadeOf first self.old notes → MadeOf first self.new (notes ++ _note ∷ []) }
        ensures ran { RanSwitch self.old self.new result }
    {
        self.notes = self.notes.wrapping_add(1);
        let took = self.refill(world.small.as_slice());
        let put = self.flush(world.small.as_slice());
        if took || put {
            Ran::Worked
        } else {
            Ran::Nothing
        }
    }
}
