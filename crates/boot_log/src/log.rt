//! What is kept of a processor's turns, in memory that is allocated before the first turn.

ghost use Rattle.std.specs.Prelude.{◌≡◌, ◌&&◌, length, true, nat_eq, vec_capacity, IfOk};
ghost use Rattle.processor.specs.Entries.{entry_of, tended_of};
ghost use Rattle.boot_log.specs.Growing.{has_room, with_miss, with_turn};
ghost use Rattle.boot_log.specs.Kept.{nothing_kept, part_of};
ghost use Rattle.boot_log.specs.Values.{fired_of};

use crate::entry::{Entry, Part};
use crate::parts::{append_alarms, append_line, part_of};
use crate::values::did_of;
use event_theory::{Alarm, OutOfMemory};
use meters::AdvanceRefusal;
use processor::TurnOutcome;
use std::alloc::Global;
use std::marker::Model;

/// How many fired alarms a log has room for: all that a boot may have, each of which fires once at most.
pub const ALARMS: usize = 16;

/// What is kept of a processor's turns: an entry for each, the bytes of their lines, and the alarms that they fired. If
/// there was no room for a turn, it was missed, and so were all later ones. Contracts see the lists, the number of
/// turns that were missed, and the room.
#[derive(Drop)]
pub struct Log {
    entries: Vec<Entry>,
    bytes: Vec<u8>,
    fired: Vec<Alarm>,
    missed: u64,
}

impl Model for Log {
    ghost use Rattle.std.specs.Prelude.{◌≤◌, length, vec_capacity};
    ghost use Rattle.boot_log.specs.Kept.{Kept};

    ghost Value = { Kept };

    ghost view = { λ log. record {
      entries = log.entries.items;
      bytes = log.bytes.items;
      fired = log.fired.items;
      missed = log.missed;
      room = record {
        turns = vec_capacity log.entries;
        bytes = vec_capacity log.bytes;
        alarms = vec_capacity log.fired;
      };
    } };

    ghost invariant = { λ log. (length log.entries.items ≤ vec_capacity log.entries)
        × (length log.bytes.items ≤ vec_capacity log.bytes) × (length log.fired.items ≤ vec_capacity log.fired) };
}

impl Log {
    /// Nothing is kept, and there is room for so many turns, and bytes of their lines, and for `ALARMS` alarms.
    /// `OutOfMemory` is returned only if an allocation was refused.
    pub fn with_room(alloc: Global, turns: usize, bytes: usize) -> Result<Self, OutOfMemory>
        ensures { IfOk result (λ log. log ≡ nothing_kept (record { turns = turns; bytes = bytes; alarms = ALARMS })) }
    {
        Ok(Log {
            entries: Vec::with_capacity(alloc, turns)?,
            bytes: Vec::with_capacity(alloc, bytes)?,
            fired: Vec::with_capacity(alloc, ALARMS)?,
            missed: 0,
        })
    }

    /// A log of these entries, with the bytes of their lines and the alarms that they fired, and with this number of
    /// missed turns. Its room is that of the lists.
    pub fn new(entries: Vec<Entry>, bytes: Vec<u8>, fired: Vec<Alarm>, missed: u64) -> Self
        ensures { result ≡ (record {
          entries = entries.items;
          bytes = bytes.items;
          fired = fired.items;
          missed = missed;
          room = record {
            turns = vec_capacity entries;
            bytes = vec_capacity bytes;
            alarms = vec_capacity fired;
          };
        }) }
    {
        Log {
            entries,
            bytes,
            fired,
            missed,
        }
    }

    /// The entries of the turns, in their order.
    pub fn entries(&self) -> &[Entry]
        ensures { result.now ≡ self.now.entries }
    {
        self.entries.as_slice()
    }

    /// The bytes of the lines of all turns.
    pub fn bytes(&self) -> &[u8]
        ensures { result.now ≡ self.now.bytes }
    {
        self.bytes.as_slice()
    }

    /// The alarms that all turns fired.
    pub fn fired(&self) -> &[Alarm]
        ensures { result.now ≡ self.now.fired }
    {
        self.fired.as_slice()
    }

    /// The bytes of a line, by the part that its entry names. A part past the end of all bytes is cut there.
    pub fn line(&self, part: Part) -> &[u8]
        ensures { result.now ≡ part_of self.now.bytes part }
    {
        part_of(self.bytes.as_slice(), part)
    }

    /// The alarms that a turn fired, by the part that its entry names. A part past the end of all alarms is cut there.
    pub fn alarms(&self, part: Part) -> &[Alarm]
        ensures { result.now ≡ part_of self.now.fired part }
    {
        part_of(self.fired.as_slice(), part)
    }

    /// How many turns were missed because there was no room. All of them came after those that are kept. The number
    /// stays at 2^64 - 1.
    pub fn missed(&self) -> u64
        ensures { result ≡ self.now.missed }
    {
        self.missed
    }

    // Whether a turn is kept that has a line of so many bytes and fired so many alarms.
    pub(crate) fn keeps(&self, bytes: usize, alarms: usize) -> bool
        ensures { result ≡ nat_eq self.now.missed 0 && has_room bytes alarms self.now }
    {
        let is_front = self.missed == 0;
        is_front
            && self.entries.len() < self.entries.capacity()
            && bytes <= self.bytes.capacity() - self.bytes.len()
            && alarms <= self.fired.capacity() - self.fired.len()
    }

    // Appends the entry of a turn, with its line and the alarms that it fired. Takes no memory.
    pub(crate) fn keep(
        &mut self,
        time: u64,
        advanced: Option<Result<u32, AdvanceRefusal>>,
        fired: &[Alarm],
        outcome: &TurnOutcome,
        line: &[u64],
    )
        requires room { has_room (length line.now) (length fired.now) self.old ≡ true }
        requires fired { fired.now ≡ fired_of (tended_of advanced fired.now) }
        ensures { self.new ≡ with_turn time (entry_of advanced fired.now outcome.now line.now) self.old }
    {
        let line = append_line(&mut self.bytes, line);
        let fired = append_alarms(&mut self.fired, fired);
        self.entries.push_reserved(Entry {
            at: time,
            tended: advanced,
            fired,
            did: did_of(outcome, line),
        });
    }

    // Counts a turn that is missed.
    pub(crate) fn miss(&mut self)
        ensures { self.new ≡ with_miss self.old }
    {
        let missed = &mut self.missed;
        *missed = missed.saturating_add(1);
    }
}
