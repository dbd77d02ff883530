//! The gauges, the clock and the alarms as the machine stores them.

use event_theory::{Alarm, AlarmStatus, Gauge, Refusal, Slot};
use std::alloc::Global;

/// The gauges, the clock, the alarm in each slot, and all alarms that were set, fired and cancelled.
#[derive(Drop)]
pub(crate) struct StoredMeters {
    gauges: [u64; 8],
    clock: u32,
    slots: [Option<Alarm>; 16],
    set: Vec<Alarm>,
    fired: Vec<Alarm>,
    cancelled: Vec<Alarm>,
}

impl StoredMeters {
    ghost use Rattle.std.specs.Prelude.{◌≡◌, Ok, position};
    ghost use Rattle.event_theory.specs.Meters.{first_meters, tick, advance};
    ghost use Rattle.event_theory.specs.Meters.{is_empty, set_alarm, standing, fire, cancel};
    ghost use Rattle.quaject_core.specs.ShownMeters.{meters, Does, alarm_status};
    ghost use Rattle.event_theory.specs.Results.{IsNotMemory};

    /// All gauges and the clock at 0, and no alarm. Takes no memory.
    pub(crate) fn new(alloc: Global) -> StoredMeters
        ensures { meters result ≡ first_meters }
    {
        StoredMeters {
            gauges: [0; 8],
            clock: 0,
            slots: [None; 16],
            set: Vec::new(alloc),
            fired: Vec::new(alloc),
            cancelled: Vec::new(alloc),
        }
    }

    /// Adds to a gauge, modulo 2^64.
    pub(crate) fn tick(&mut self, gauge: Gauge, amount: u64)
        ensures { tick gauge amount (meters self.old) ≡ Ok (meters self.new) }
    {
        let index = usize::from(gauge.number());
        self.gauges[index] = self.gauges[index].wrapping_add(amount);
    }

    /// Moves the clock on by one tick.
    pub(crate) fn advance(&mut self) -> Result<(), Refusal>
        ensures change { Does result advance self.old self.new }
        ensures memory { IsNotMemory result }
    {
        if self.clock == u32::MAX {
            return Err(Refusal::Full);
        }
        self.clock += 1;
        Ok(())
    }

    /// The first slot with no alarm.
    fn empty_slot(&self) -> Option<usize>
        ensures { result ≡ position is_empty self.now.slots }
    {
        self.slots.iter().position(|slot| slot.is_none())
    }

    /// Sets an alarm in the first slot that is empty.
    pub(crate) fn set(&mut self, alarm: Alarm) -> Result<(), Refusal>
        ensures { Does result (set_alarm alarm) self.old self.new }
    {
        let Some(slot) = self.empty_slot() else {
            return Err(Refusal::Full);
        };
        self.set.reserve(1)?;
        let standing = alarm;
        self.slots[slot] = Some(standing);
        self.set.push_reserved(alarm);
        Ok(())
    }

    /// The alarm in a slot.
    fn standing(&self, slot: Slot) -> Result<Alarm, Refusal>
        ensures { result ≡ standing slot (meters self.now) }
    {
        self.slots[usize::from(slot.number())].ok_or(Refusal::UnknownName)
    }

    /// Takes out an alarm that is due.
    pub(crate) fn fire(&mut self, slot: Slot) -> Result<(), Refusal>
        ensures { Does result (fire slot) self.old self.new }
    {
        let alarm = self.standing(slot)?;
        if self.clock < alarm.due {
            return Err(Refusal::NotRaised);
        }
        self.fired.reserve(1)?;
        self.slots[usize::from(slot.number())] = None;
        self.fired.push_reserved(alarm);
        Ok(())
    }

    /// Takes out an alarm before it fires.
    pub(crate) fn cancel(&mut self, slot: Slot) -> Result<(), Refusal>
        ensures { Does result (cancel slot) self.old self.new }
    {
        let alarm = self.standing(slot)?;
        self.cancelled.reserve(1)?;
        self.slots[usize::from(slot.number())] = None;
        self.cancelled.push_reserved(alarm);
        Ok(())
    }

    /// Each gauge, from gauge 0 on.
    pub(crate) fn gauges(&self) -> [u64; 8]
        ensures { result ≡ (meters self.now).gauges }
    {
        self.gauges
    }

    /// The clock.
    pub(crate) fn clock(&self) -> u32
        ensures { result ≡ (meters self.now).clock }
    {
        self.clock
    }

    /// How many alarms were set, fired and cancelled.
    pub(crate) fn alarms(&self) -> AlarmStatus
        ensures { result ≡ alarm_status (meters self.now) }
    {
        AlarmStatus {
            set: self.set.len() as u64,
            fired: self.fired.len() as u64,
            cancelled: self.cancelled.len() as u64,
        }
    }
}
