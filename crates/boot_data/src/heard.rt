//! Lines that threads heard: for each processor its lines, one after the other in one store of bytes. A report has the
//! order of all lines. Sorting or reporting lines moves their places, and no text.

ghost use Rattle.std.specs.Prelude.{◌≡◌, ◌<◌, ◌≤◌, ◌*◌, ◌++◌, ◌∷◌, [], length, map, vec_capacity, IfOk, IfSome};
ghost use Rattle.std.specs.List.{AllByRecursion, slice_get};
ghost use Rattle.boot_data.specs.Hearing.{bytes_of, nothing_heard, IsPlace, heard_at, named_line};

use crate::fixed::Name;
use crate::fixed_list::FixedList;
use event_theory::OutOfMemory;
use std::alloc::Global;
use std::marker::Model;

/// The place of a line in its store, with its thread and step.
#[derive(Clone, Copy)]
struct Mark {
    thread: u8,
    step: u8,
    begin: usize,
    end: usize,
}

/// The lines that one processor heard, in the order in which it heard them. There is room for a number of lines, and of
/// bytes for each. The room is allocated when the value is made, and never grows. Contracts see the lines, how many
/// there is room for, and how long the longest may be.
#[derive(Drop)]
pub struct HeardLines {
    marks: FixedList<Mark>,
    bytes: FixedList<u8>,
    room: usize,
    longest: usize,
}

/// The place of a heard line: its processor, its number among that processor's lines, and its thread and step.
#[derive(Clone, Copy)]
pub struct HeardPlace {
    pub thread: u8,
    pub step: u8,
    pub processor: usize,
    pub number: usize,
}

/// The lines that all processors heard, in their own order, with the threads' names. Contracts see the named lines.
#[derive(Drop)]
pub struct HeardReport {
    names: Vec<Name>,
    places: Vec<HeardPlace>,
    processors: Vec<HeardLines>,
}

impl Model for HeardLines {
    ghost use Rattle.std.specs.Prelude.{map, vec_capacity, length, ◌≡◌, ◌≤◌, ◌*◌};
    ghost use Rattle.std.specs.List.{AllByRecursion};
    ghost use Rattle.boot_data.specs.Hearing.{Heard};
    ghost use Rattle.boot_data.specs.Stores.{line_in, IsWithin};

    ghost Value = { Heard };

    ghost view = { λ h. record { lines = map (line_in h.bytes.list.items) h.marks.list.items; room = h.room; longest = h.longest } };

    ghost invariant = { λ h. (vec_capacity h.marks.list ≡ h.room) × (vec_capacity h.bytes.list ≡ h.longest * h.room)
        × (length h.marks.list.items ≤ h.room) × (length h.bytes.list.items ≤ h.longest * length h.marks.list.items)
        × AllByRecursion (IsWithin (length h.bytes.list.items)) h.marks.list.items };
}

impl HeardLines {
    /// No lines, and room for none. Takes no memory.
    pub fn new(alloc: Global) -> Self
        ensures { result ≡ nothing_heard }
    {
        HeardLines {
            marks: FixedList::new(alloc),
            bytes: FixedList::new(alloc),
            room: 0,
            longest: 0,
        }
    }

    /// No lines, and room for `lines` of them, each of up to `longest` bytes. None of this room is written before a
    /// line is written. `OutOfMemory` is returned only if an allocation was refused.
    pub fn with_room(alloc: Global, lines: usize, longest: usize) -> Result<Self, OutOfMemory>
        requires lines { lines ≤ 65536 }
        requires longest { longest ≤ 256 }
        ensures { IfOk result (λ h. (h.lines ≡ []) × (h.room ≡ lines) × (h.longest ≡ longest)) }
    {
        let marks = FixedList::with_room(alloc, lines)?;
        let bytes = FixedList::with_room(alloc, longest * lines)?;
        Ok(HeardLines {
            marks,
            bytes,
            room: lines,
            longest,
        })
    }

    /// How many lines there are.
    pub fn len(&self) -> usize
        ensures { result ≡ length self.now.lines }
    {
        self.marks.len()
    }

    /// Appends a line that a thread heard in the step with this number: the low 8 bits of each item. Takes no memory.
    ///
    /// Conditions: there is room for one more line, and it is not longer than the longest may be.
    pub fn push(&mut self, thread: u8, step: u8, items: &[u64])
        requires room { length self.old.lines < self.old.room }
        requires few { length items.now ≤ self.old.longest }
        ensures lines { self.new.lines ≡ self.old.lines ++ ((thread, step), bytes_of items.now) ∷ [] }
        ensures room { self.new.room ≡ self.old.room }
        ensures longest { self.new.longest ≡ self.old.longest }
    {
        let begin = self.bytes.len();
        for item in items {
            self.bytes.push((*item % 256) as u8);
        }
        self.marks.push(Mark {
            thread,
            step,
            begin,
            end: self.bytes.len(),
        });
    }

    /// The thread of the line with this number, and the number of its step.
    pub fn key(&self, number: usize) -> (u8, u8)
        requires { number < length self.now.lines }
        ensures { IfSome (slice_get self.now.lines number) (λ line. line.0 ≡ (result.0, result.1)) }
    {
        let mark = self.marks.as_slice()[number];
        (mark.thread, mark.step)
    }

    /// The bytes of the line with this number.
    pub fn bytes(&self, number: usize) -> &[u8]
        requires { number < length self.now.lines }
        ensures { IfSome (slice_get self.now.lines number) (λ line. result.now ≡ line.1) }
    {
        let mark = self.marks.as_slice()[number];
        &self.bytes.as_slice()[mark.begin..mark.end]
    }
}

impl Model for HeardReport {
    ghost use Rattle.std.specs.Prelude.{List, map};
    ghost use Rattle.std.specs.List.{AllByRecursion};
    ghost use Rattle.boot_data.specs.Hearing.{NamedLine, IsPlace, heard_at, named_line};

    ghost Value = { List NamedLine };

    ghost view = { λ r. map (named_line r.names.items) (map (heard_at r.processors.items) r.places.items) };

    ghost invariant = { λ r. AllByRecursion (IsPlace r.processors.items) r.places.items };
}

impl HeardReport {
    /// The lines at these places, in the order of the places, among the lines that the processors heard. `names` has
    /// the names of the threads, in their order. Takes no memory.
    ///
    /// Condition: there is a line at each place, and it has the thread and the step of the place.
    pub fn new(names: Vec<Name>, places: Vec<HeardPlace>, processors: Vec<HeardLines>) -> Self
        requires { AllByRecursion (IsPlace processors.items) places.items }
        ensures { result ≡ map (named_line names.items) (map (heard_at processors.items) places.items) }
    {
        HeardReport {
            names,
            places,
            processors,
        }
    }

    /// How many lines there are.
    pub fn len(&self) -> usize
        ensures { result ≡ length self.now }
    {
        self.places.len()
    }

    /// The bytes of the name of the thread of the line with this number; none if the thread has no name.
    pub fn thread(&self, number: usize) -> &[u8]
        requires { number < length self.now }
        ensures { IfSome (slice_get self.now number) (λ line. result.now ≡ line.thread) }
    {
        let place = self.places[number];
        match self.names.get(usize::from(place.thread)) {
            Some(name) => name.as_slice(),
            None => &[],
        }
    }

    /// The number of the step of the line with this number.
    pub fn step(&self, number: usize) -> u8
        requires { number < length self.now }
        ensures { IfSome (slice_get self.now number) (λ line. result ≡ line.step) }
    {
        self.places[number].step
    }

    /// The bytes of the line with this number.
    pub fn bytes(&self, number: usize) -> &[u8]
        requires { number < length self.now }
        ensures { IfSome (slice_get self.now number) (λ line. result.now ≡ line.bytes) }
    {
        let place = self.places[number];
        self.processors[place.processor].bytes(place.number)
    }
}
