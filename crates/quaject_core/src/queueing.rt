//! A queue as the machine stores it.

ghost use Rattle.std.specs.Prelude.{◌≡◌, ◌==◌, ◌+◌, ◌≤◌, ◌++◌, length, map, count_by, vec_len, vec_capacity};
ghost use Rattle.std.specs.List.{list_all, list_any};
ghost use Rattle.quaject_core.specs.Layout.{Laid, Laid-prop, queue_at, fresh, flag_of};
ghost use Rattle.event_theory.specs.Lawful.{IsLawfulQueue};
ghost use Rattle.event_theory.specs.Queues.{renamed};
ghost use Rattle.quaject_core.specs.Joined.{renamed_span};

use event_theory::{Call, OutOfMemory, QueueStatus, Refusal};
use std::alloc::Global;

/// The place of a run: its call, the position of its first item, and the number of its items.
#[derive(Clone, Copy)]
pub(crate) struct Span {
    call: Call,
    start: usize,
    count: usize,
}

/// A claimed item and its flag.
#[derive(Clone, Copy)]
pub(crate) struct StoredItem {
    item: u64,
    raised: bool,
}

/// All places that were ever claimed, side by side, and the place of each run among them.
#[derive(Drop)]
pub(crate) struct StoredQueue {
    capacity: u16,
    runs: Vec<Span>,
    places: Vec<StoredItem>,
    taken: usize,
    shut: bool,
    ghost laid_out: { Laid 0 runs.items (length places.items) } by { Laid-prop 0 runs.items (length places.items) },
    ghost lawful: { IsLawfulQueue (queue_at capacity runs.items places.items taken shut) },
}

impl StoredQueue {
    ghost use Rattle.std.specs.Prelude.{◌≡◌, ◌==◌, ◌+◌, ◌≤◌, length, drop, vec_len, IfOk};
    ghost use Rattle.std.specs.List.{slice_get, list_any};
    ghost use Rattle.event_theory.specs.Queues.{left, empty_queue, full_queue, claim, raise, take_first, after_take};
    ghost use Rattle.event_theory.specs.Queues.{first_are_raised, join_queue};
    ghost use Rattle.quaject_core.specs.Owners.{first_call, AreBegun};
    ghost use Rattle.event_theory.specs.Statuses.{queue_status};
    ghost use Rattle.event_theory.specs.Results.{Changes};
    ghost use Rattle.quaject_core.specs.Allowed.{allowed};
    ghost use Rattle.quaject_core.specs.Shown.{queue};
    ghost use Rattle.event_theory.specs.Marks.{shut};

    /// An empty queue. Takes no memory.
    pub(crate) fn new(alloc: Global, capacity: u16) -> StoredQueue
        ensures { queue result ≡ empty_queue capacity }
    {
        StoredQueue {
            capacity,
            runs: Vec::new(alloc),
            places: Vec::new(alloc),
            taken: 0,
            shut: false,
        }
    }

    /// A queue of the items below `count`, each a raised run of the first call, with no room for more.
    pub(crate) fn full(alloc: Global, count: u8) -> Result<StoredQueue, OutOfMemory>
        ensures { IfOk result (λ stored. queue stored ≡ full_queue count) }
    {
        let call = Call::new(0).unwrap();
        let mut runs = Vec::new(alloc);
        let mut places = Vec::new(alloc);
        for number in 0..count {
            runs.push(Span {
                call,
                start: usize::from(number),
                count: 1,
            })?;
            places.push(StoredItem {
                item: u64::from(number),
                raised: true,
            })?;
        }
        Ok(StoredQueue {
            capacity: u16::from(count),
            runs,
            places,
            taken: 0,
            shut: false,
        })
    }

    pub(crate) fn capacity(&self) -> u16
        ensures { result ≡ (queue self.now).capacity }
    {
        self.capacity
    }

    /// How many items are left.
    #[tactic(auto, using(crate::proofs::Stored::Layout::left_stored, crate::proofs::Stored::Layout::taken_stored))]
    fn left(&self) -> usize
        ensures left { result ≡ length (left (queue self.now)) }
        ensures rest { self.now.taken + result ≡ vec_len self.now.places }
    {
        self.places.len() - self.taken
    }

    /// Appends a run of at most `longest` items.
    pub(crate) fn claim(&mut self, longest: u16, call: Call, items: &[u64]) -> Result<(), Refusal>
        ensures { Changes result (claim longest call items.now (queue self.old)) (queue self.old) (queue self.new) }
    {
        if items.is_empty() {
            return Err(Refusal::NoItems);
        }
        if items.len() > usize::from(longest) {
            return Err(Refusal::TooLong);
        }
        if self.shut {
            return Err(Refusal::Closed);
        }
        if self.left() + items.len() > usize::from(self.capacity) {
            return Err(Refusal::Full);
        }
        self.runs.reserve(1)?;
        self.places.reserve(items.len())?;
        let start = self.places.len();
        append(&mut self.places, items);
        self.runs.push_reserved(Span {
            call,
            start,
            count: items.len(),
        });
        Ok(())
    }

    /// The place of the run with this number.
    fn span(&self, run: u32) -> Option<Span>
        ensures { result ≡ slice_get self.now.runs.items run }
    {
        self.runs.get(run as usize).copied()
    }

    /// Raises one item of a run.
    pub(crate) fn raise(&mut self, call: Call, run: u32, index: u32) -> Result<(), Refusal>
        ensures { Changes result (raise call run index (queue self.old)) (queue self.old) (queue self.new) }
    {
        let Some(span) = self.span(run) else {
            return Err(Refusal::UnknownName);
        };
        let index = index as usize;
        if index >= span.count {
            return Err(Refusal::UnknownName);
        }
        if span.call != call {
            return Err(Refusal::NotOwner);
        }
        let place = span.start + index;
        if self.places[place].raised {
            return Err(Refusal::AlreadyRaised);
        }
        self.places[place].raised = true;
        Ok(())
    }

    /// Whether at least `count` items are left, and the first `count` of them are raised.
    #[tactic(auto, using(crate::proofs::Stored::Layout::first_stored))]
    pub(crate) fn first_are_raised(&self, count: usize) -> bool
        ensures { result ≡ first_are_raised count (queue self.now) }
    {
        count <= self.left() && all_raised(&self.rest()[..count])
    }

    /// The refusal of a taking of the first `count` items that are left. Takes nothing.
    pub(crate) fn check_take(&self, longest: u16, count: u32) -> Result<(), Refusal>
        ensures { take_first longest count (queue self.now) ≡ allowed result (after_take count (queue self.now)) }
    {
        if count == 0 {
            return Err(Refusal::NoItems);
        }
        if count > u32::from(longest) {
            return Err(Refusal::TooLong);
        }
        if !self.first_are_raised(count as usize) {
            return Err(Refusal::NotRaised);
        }
        Ok(())
    }

    /// Takes the first `count` items that are left, at most `longest`.
    pub(crate) fn take(&mut self, longest: u16, count: u32) -> Result<(), Refusal>
        ensures { Changes result (take_first longest count (queue self.old)) (queue self.old) (queue self.new) }
    {
        self.check_take(longest, count)?;
        self.taken += count as usize;
        Ok(())
    }

    /// Shuts the queue: all later claims are refused.
    pub(crate) fn shut(&mut self)
        ensures { queue self.new ≡ shut (queue self.old) }
    {
        self.shut = true;
    }

    /// Gives the runs of the other call to the call.
    pub(crate) fn join(&mut self, call: Call, other: Call)
        ensures { queue self.new ≡ join_queue call other (queue self.old) }
    {
        rename(&mut self.runs, call, other);
    }

    /// The first item that is left.
    pub(crate) fn first_left(&self) -> Option<u64>
        ensures { result ≡ slice_get (left (queue self.now)) 0 }
    {
        let place = self.places.get(self.taken)?;
        Some(place.item)
    }

    /// How many runs start no later than the first item that is left.
    fn begun(&self) -> usize
        ensures known { result ≤ length self.now.runs.items }
        ensures parted { AreBegun self.now.taken self.now.runs.items result }
    {
        let taken = self.taken;
        self.runs.partition_point(|run| run.start <= taken)
    }

    /// The call whose run has the first item that is left.
    pub(crate) fn first_call(&self) -> Option<Call>
        ensures { result ≡ first_call (queue self.now) }
    {
        if self.left() == 0 {
            return None;
        }
        Some(self.runs[self.begun() - 1].call)
    }

    /// The places that are left.
    #[tactic(auto, using(crate::proofs::Stored::Layout::taken_stored))]
    fn rest(&self) -> &[StoredItem]
        ensures { result.now ≡ drop self.now.taken self.now.places.items }
    {
        &self.places[self.taken..]
    }

    /// Whether the item is left.
    pub(crate) fn has_left(&self, item: u64) -> bool
        ensures { result ≡ list_any (λ other. other == item) (left (queue self.now)) }
    {
        has_item(self.rest(), item)
    }

    /// The queue's numbers.
    #[tactic(auto, using(crate::proofs::Stored::Layout::raised_stored, crate::proofs::Stored::Layout::length_queue))]
    pub(crate) fn status(&self) -> QueueStatus
        ensures { result ≡ queue_status (queue self.now) }
    {
        let left = self.left();
        QueueStatus {
            capacity: self.capacity,
            runs: self.runs.len() as u64,
            put: self.places.len() as u64,
            taken: self.taken as u64,
            left: left as u64,
            raised: count_raised(self.rest()) as u64,
            shut: self.shut,
        }
    }
}

/// Whether one of the places has the item.
fn has_item(places: &[StoredItem], item: u64) -> bool
    ensures { result ≡ list_any (λ place. place.item == item) places.now }
{
    places.iter().any(|place| place.item == item)
}

fn all_raised(places: &[StoredItem]) -> bool
    ensures { result ≡ list_all flag_of places.now }
{
    places.iter().all(|place| place.raised)
}

fn count_raised(places: &[StoredItem]) -> usize
    ensures { result ≡ count_by flag_of places.now }
{
    places.iter().filter(|place| place.raised).count()
}

/// Gives the runs of the other call to the call.
fn rename(runs: &mut Vec<Span>, call: Call, other: Call)
    ensures { runs.new.items ≡ map (renamed_span call other) runs.old.items }
{
    for run in runs.iter_mut() {
        run.call = renamed(call, other, run.call);
    }
}

/// A call's name after the join of another to the first.
pub(crate) fn renamed(call: Call, other: Call, name: Call) -> Call
    ensures { result ≡ renamed call other name }
{
    if name == other { call } else { name }
}

/// Appends places for these items, none of them raised.
fn append(places: &mut Vec<StoredItem>, items: &[u64])
    requires { vec_len places.old + length items.now ≤ vec_capacity places.old }
    ensures { places.new.items ≡ places.old.items ++ map fresh items.now }
{
    for item in items {
        places.push_reserved(StoredItem {
            item: *item,
            raised: false,
        });
    }
}
