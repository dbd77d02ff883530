//! The parts of a picture: boxes, bars, marks and words, each at its place.
//!
//! Places count in pixels from the picture's left upper corner, to the right and down.

ghost use Rattle.std.specs.Prelude.{◌≡◌, Some};
ghost use Rattle.svg.specs.Colours.{colour_code, anchor_code};

use event_theory::Items;
use std::fmt;

/// A colour. Readers who see fewer colours can also distinguish the colours of states (Okabe and Ito, 2008).
#[derive(Clone, Copy)]
pub enum Colour {
    Ink,
    Dim,
    Faint,
    White,
    Grey,
    Orange,
    Sky,
    Green,
    Yellow,
    Pink,
    Red,
    Blue,
    Vermilion,
}

impl fmt::Display for Colour {
    ghost use Rattle.svg.specs.Colours.{colour_code};

    ghost output = { λ colour. Some (colour_code colour) };

    fn fmt<W: fmt::Write>(&self, f: &mut fmt::Formatter<W>) -> fmt::Result {
        f.write_str(match self {
            Colour::Ink => "#222222",
            Colour::Dim => "#767676",
            Colour::Faint => "#e4e4e4",
            Colour::White => "#ffffff",
            Colour::Grey => "#cccccc",
            Colour::Orange => "#f0b040",
            Colour::Sky => "#7cc6f0",
            Colour::Green => "#40b890",
            Colour::Yellow => "#f4e85c",
            Colour::Pink => "#dc9cbc",
            Colour::Red => "#c03a00",
            Colour::Blue => "#5c9ad8",
            Colour::Vermilion => "#e48858",
        })
    }
}

/// The point of a text: its start, or its middle.
#[derive(Clone, Copy)]
pub enum Anchor {
    Start,
    Middle,
}

impl fmt::Display for Anchor {
    ghost use Rattle.svg.specs.Colours.{anchor_code};

    ghost output = { λ anchor. Some (anchor_code anchor) };

    fn fmt<W: fmt::Write>(&self, f: &mut fmt::Formatter<W>) -> fmt::Result {
        f.write_str(match self {
            Anchor::Start => "start",
            Anchor::Middle => "middle",
        })
    }
}

/// A part of a picture.
#[derive(Drop)]
pub enum Shape {
    /// A box with a border.
    Cell {
        x: u32,
        y: u32,
        width: u32,
        height: u32,
        fill: Colour,
    },
    /// A bar without a border.
    Bar {
        x: u32,
        y: u32,
        width: u32,
        height: u32,
        fill: Colour,
    },
    /// A small triangle with its upper side here, which points down.
    Down {
        x: u32,
        y: u32,
    },
    /// A small triangle with its lower side here, which points up.
    Up {
        x: u32,
        y: u32,
    },
    /// A line between two points.
    Line {
        x1: u32,
        y1: u32,
        x2: u32,
        y2: u32,
        ink: Colour,
    },
    /// A box with a border, and a title that is shown when one points at the box.
    Titled {
        x: u32,
        y: u32,
        width: u32,
        height: u32,
        fill: Colour,
        title: Items<u8>,
    },
    /// A line of text, with its base line here.
    Words {
        x: u32,
        y: u32,
        anchor: Anchor,
        ink: Colour,
        text: Items<u8>,
    },
}

/// A picture: its size, its title, and its parts, later ones upon earlier ones.
#[derive(Drop)]
pub struct Picture {
    pub width: u32,
    pub height: u32,
    pub title: Items<u8>,
    pub shapes: Items<Shape>,
}
