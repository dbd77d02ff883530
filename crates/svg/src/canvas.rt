//! The drawn parts of a picture, each at its place.

ghost use Rattle.std.specs.Prelude.{◌≡◌, [], List, OnOk};
ghost use Rattle.svg.specs.declared.shapes.Shape.{Shape};
ghost use Rattle.svg.specs.declared.shapes.Shape.TheVariants.{Cell, Bar, Down, Up, Line, Titled, Words};
ghost use Rattle.svg.specs.declared.shapes.Colour.TheVariants.{Ink};
ghost use Rattle.svg.specs.declared.shapes.Anchor.TheVariants.{Start};
ghost use Rattle.svg.specs.Canvases.{IsDrawn, box_height, base_line};

use crate::shapes::{Anchor, Colour, Shape};
use crate::words::text_of;
use event_theory::{Items, OutOfMemory};
use std::alloc::Global;
use std::marker::Model;

/// How high a box is, in pixels.
pub const BOX: u32 = 18;

/// How far below the upper side of a box the base line of its letters is.
const LETTERS: u32 = 13;

/// The parts that are drawn, later ones upon earlier ones, and the memory for more. Contracts see the list of parts.
///
/// Places and sizes are in pixels. Each call draws one part, or returns `OutOfMemory` and has drawn nothing.
#[derive(Drop)]
pub struct Canvas {
    alloc: Global,
    shapes: Vec<Shape>,
}

impl Model for Canvas {
    ghost Value = { List Shape };

    ghost view = { λ canvas. canvas.shapes.items };
}

impl Canvas {
    /// A canvas on which nothing is drawn. Takes no memory.
    pub fn new(alloc: Global) -> Canvas
        ensures { result ≡ [] }
    {
        Canvas {
            alloc,
            shapes: Vec::new(alloc),
        }
    }

    /// The memory from which the parts are taken, for the texts of more parts.
    pub fn alloc(&self) -> Global {
        self.alloc
    }

    /// All parts, in the order in which they were drawn. Takes no memory.
    pub fn into_shapes(self) -> Items<Shape>
        ensures { result ≡ self }
    {
        let Canvas { alloc: _, shapes } = self;
        Items::new(shapes)
    }

    fn add(&mut self, shape: Shape) -> Result<(), OutOfMemory>
        ensures { IsDrawn self.old shape result self.new }
    {
        Ok(self.shapes.push(shape)?)
    }

    /// Draws a box with a border, as high as `BOX`, with its left upper corner here.
    pub fn cell(&mut self, x: u32, y: u32, width: u32, fill: Colour) -> Result<(), OutOfMemory>
        ensures { IsDrawn self.old (Cell x y width box_height fill) result self.new }
    {
        self.add(Shape::Cell {
            x,
            y,
            width,
            height: BOX,
            fill,
        })
    }

    /// Draws a bar, which is a box without a border, with its left upper corner here.
    pub fn bar(
        &mut self,
        x: u32,
        y: u32,
        width: u32,
        height: u32,
        fill: Colour,
    ) -> Result<(), OutOfMemory>
        ensures { IsDrawn self.old (Bar x y width height fill) result self.new }
    {
        self.add(Shape::Bar {
            x,
            y,
            width,
            height,
            fill,
        })
    }

    /// Draws a box with a border, with its left upper corner here. A viewer shows the title when one points at the box.
    pub fn titled_box(
        &mut self,
        x: u32,
        y: u32,
        width: u32,
        height: u32,
        fill: Colour,
        title: Items<u8>,
    ) -> Result<(), OutOfMemory>
        ensures { IsDrawn self.old (Titled x y width height fill title) result self.new }
    {
        self.add(Shape::Titled {
            x,
            y,
            width,
            height,
            fill,
            title,
        })
    }

    /// Draws a line from the point (x1, y1) to the point (x2, y2).
    pub fn line(
        &mut self,
        x1: u32,
        y1: u32,
        x2: u32,
        y2: u32,
        ink: Colour,
    ) -> Result<(), OutOfMemory>
        ensures { IsDrawn self.old (Line x1 y1 x2 y2 ink) result self.new }
    {
        self.add(Shape::Line {
            x1,
            y1,
            x2,
            y2,
            ink,
        })
    }

    /// Draws a mark that points down, with its upper side here.
    pub fn down(&mut self, x: u32, y: u32) -> Result<(), OutOfMemory>
        ensures { IsDrawn self.old (Down x y) result self.new }
    {
        self.add(Shape::Down { x, y })
    }

    /// Draws a mark that points up, with its lower side here.
    pub fn up(&mut self, x: u32, y: u32) -> Result<(), OutOfMemory>
        ensures { IsDrawn self.old (Up x y) result self.new }
    {
        self.add(Shape::Up { x, y })
    }

    /// Draws a text with its base line here.
    pub fn text(
        &mut self,
        x: u32,
        y: u32,
        anchor: Anchor,
        ink: Colour,
        text: Items<u8>,
    ) -> Result<(), OutOfMemory>
        ensures { IsDrawn self.old (Words x y anchor ink text) result self.new }
    {
        self.add(Shape::Words {
            x,
            y,
            anchor,
            ink,
            text,
        })
    }

    /// Draws the text of a box with its upper side here.
    pub fn label(
        &mut self,
        x: u32,
        y: u32,
        anchor: Anchor,
        text: Items<u8>,
    ) -> Result<(), OutOfMemory>
        ensures { IsDrawn self.old (Words x (base_line y) anchor Ink text) result self.new }
    {
        self.text(x, y.saturating_add(LETTERS), anchor, Colour::Ink, text)
    }

    /// Draws words as high as the words of a box with its upper side here.
    pub fn words(&mut self, x: u32, y: u32, words: &[u8]) -> Result<(), OutOfMemory>
        ensures { IsDrawn self.old (Words x (base_line y) Start Ink words.now) result self.new }
    {
        let text = text_of(self.alloc, words)?;
        self.label(x, y, Anchor::Start, text)
    }
}
