//! The word of a slot.
ghost use Rattle.std.specs.Prelude.{◌≡◌, ◌%◌, ◌==◌, Some, Option, IfSome};
ghost use Rattle.meters.specs.Layout.{word_of};
ghost use Rattle.meters.specs.Words.{Fits, IsInRange};
ghost use Rattle.event_theory.specs.declared.alarm.Alarm.{Alarm};
ghost use Rattle.meters.specs.declared.layout.TheConstants.{TICKS};

use crate::layout::{ELEMENT, FIELD, SIGNAL, STANDS, TICKS};
use event_theory::{Alarm, Element, Signal};

/// The content of a slot: 0, or an alarm with its tick in bits 0 to 31, its element in bits 32 to 39, its signal in
/// bits 40 to 47, and bit 63 set.
#[derive(Clone, Copy, Debug, PartialEq, Eq)]
pub struct AlarmWord {
    bits: u64,
}

impl AlarmWord {
    /// The word of a slot with this alarm.
    pub fn of(alarm: Alarm) -> AlarmWord
        ensures bits { result.bits ≡ word_of (Some alarm) }
        ensures range { IsInRange alarm }
    {
        let element = u64::from(alarm.element.number());
        let signal = u64::from(alarm.signal.number());
        AlarmWord {
            bits: STANDS + signal * SIGNAL + element * ELEMENT + u64::from(alarm.due),
        }
    }

    /// The word with these bits.
    pub fn from_bits(bits: u64) -> AlarmWord
        ensures { result.bits ≡ bits }
    {
        AlarmWord { bits }
    }

    /// The bits of the word.
    pub fn bits(self) -> u64
        ensures { result ≡ self.bits }
    {
        self.bits
    }

    /// Whether the word is that of an empty slot.
    pub fn is_empty(self) -> bool
        ensures { result ≡ (self.bits == 0) }
    {
        self.bits == 0
    }

    /// The tick at which the alarm is due.
    pub fn due(self) -> u32
        ensures { result ≡ self.bits % TICKS }
    {
        (self.bits % TICKS) as u32
    }

    /// The alarm of which the word was made. None if the word is 0, or if it is the word of no alarm.
    pub fn alarm(self) -> Option<Alarm>
        ensures stands { (slot : Option Alarm) → Fits slot → self.bits ≡ word_of slot → result ≡ slot }
        ensures made { IfSome result (λ alarm. self.bits ≡ word_of (Some alarm)) }
    {
        if self.bits < STANDS {
            return None;
        }
        let alarm = Alarm {
            due: self.due(),
            element: Element::new((self.bits / ELEMENT % FIELD) as u8)?,
            signal: Signal::new((self.bits / SIGNAL % FIELD) as u8)?,
        };
        if AlarmWord::of(alarm).bits() == self.bits {
            Some(alarm)
        } else {
            None
        }
    }
}
