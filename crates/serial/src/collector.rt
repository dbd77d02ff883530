//! The quaject that the ports share.
ghost use Rattle.std.specs.Prelude.{◌≡◌};
ghost use Rattle.serial.specs.Made.{IsMadeBy};
ghost use Rattle.serial.specs.Texts.{blank, text_of, react};

use arrayvec::ArrayVec;
use proc_chain::{Quaject, Ran};
use std::mem;

/// The first number of the second port's notes.
pub const SECOND_PORT: u16 = 256;

/// The byte that ends a line.
const END: u8 = 10;

/// A line without its end.
pub type Line = ArrayVec<u8, 64>;

/// The lines that a port has ended, and the one that it has begun.
#[derive(Drop)]
pub struct Page {
    pub lines: ArrayVec<Line, 16>,
    pub begun: Line,
}

impl Page {
    /// A page with nothing on it.
    pub fn new() -> Page
        ensures { text_of result ≡ blank }
    {
        Page {
            lines: ArrayVec::new(),
            begun: ArrayVec::new(),
        }
    }

    /// Adds one byte: 10 ends the line. A byte or an end of a line without room is dropped.
    fn react(&mut self, byte: u8)
        ensures { text_of self.new ≡ react (text_of self.old) byte }
    {
        if byte != END {
            let _full = self.begun.try_push(byte);
        } else if !self.lines.is_full() {
            self.lines
                .push(mem::replace(&mut self.begun, ArrayVec::new()));
        }
    }
}

/// A page for each of two ports. A note is a byte, plus 256 if the second port has sent it.
#[derive(Drop)]
pub struct Collector {
    pub first: Page,
    pub second: Page,
}

impl Quaject for Collector {
    type World = ();

    ghost made_by = { λ first collector notes. IsMadeBy collector notes };

    ghost fits = { λ world collector. Unit {0} };

    fn run(&mut self, _world: &(), note: u16) -> Ran {
        let byte = (note % SECOND_PORT) as u8;
        if note < SECOND_PORT {
            self.first.react(byte);
        } else {
            self.second.react(byte);
        }
        Ran::Worked
    }
}
