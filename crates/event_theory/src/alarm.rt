//! An alarm.

use crate::names::{Element, Signal};

/// The tick at which the alarm is due, and the signal that the alarm is for.
#[derive(Clone, Copy, Debug, Default, PartialEq, Eq)]
pub struct Alarm {
    pub due: u32,
    pub element: Element,
    pub signal: Signal,
}
