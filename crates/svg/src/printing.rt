//! The text of a picture: SVG, a part a line.

ghost use Rattle.std.specs.Prelude.{◌≡◌, [], ◌∷◌, OnOk, codes};
ghost use Rattle.std.specs.Io.KnownBytes.{Appends};
ghost use Rattle.std.specs.List.{flat_map};
ghost use Rattle.svg.specs.Colours.{colour_code, anchor_code};
ghost use Rattle.svg.specs.Forests.{escaped_byte, escaped, attribute_text, element_text, forest_text, Nothing};
ghost use Rattle.svg.specs.Pictures.{numeric, worded, box_attributes, bordered_attributes, line_attributes};
ghost use Rattle.svg.specs.Pictures.{words_attributes, path_from, shape_tree, shapes_forest, picture_attributes};
ghost use Rattle.svg.specs.Pictures.{picture_text};

use crate::shapes::{Anchor, Colour, Picture, Shape};
use std::io;
use std::io::Write;

/// A byte of a text.
fn print_byte<W: Write>(byte: u8, out: &mut W) -> io::Result<()>
    ensures { OnOk result (Appends (W.contents out.old) (W.contents out.new) (escaped_byte byte)) }
{
    match byte {
        b'&' => write!(out, "&amp;"),
        b'<' => write!(out, "&lt;"),
        b'>' => write!(out, "&gt;"),
        b'"' => write!(out, "&quot;"),
        b' '..=b'~' => out.write_all(&[byte]),
        _ => write!(out, "?"),
    }
}

/// A text; bytes with a meaning of their own are escaped.
fn print_text<W: Write>(text: &[u8], out: &mut W) -> io::Result<()>
    ensures { OnOk result (Appends (W.contents out.old) (W.contents out.new) (escaped text.now)) }
{
    for byte in text {
        print_byte(*byte, out)?;
    }
    Ok(())
}

/// An attribute that is a number.
#[tactic(auto, unfolding(crate::specs::Forests::attribute_text))]
fn print_number<W: Write>(name: &'static str, value: u32, out: &mut W) -> io::Result<()>
    ensures { OnOk result (Appends (W.contents out.old) (W.contents out.new)
        (attribute_text (numeric name.now value))) }
{
    write!(out, " {name}=\"{value}\"")
}

/// A colour as an attribute.
#[tactic(auto, unfolding(crate::specs::Forests::attribute_text))]
fn print_colour<W: Write>(name: &'static str, colour: Colour, out: &mut W) -> io::Result<()>
    ensures { OnOk result (Appends (W.contents out.old) (W.contents out.new)
        (attribute_text (worded name.now (colour_code colour)))) }
{
    write!(out, " {name}=\"{colour}\"")
}

/// An anchor as an attribute.
#[tactic(auto, unfolding(crate::specs::Forests::attribute_text))]
fn print_anchor<W: Write>(name: &'static str, anchor: Anchor, out: &mut W) -> io::Result<()>
    ensures { OnOk result (Appends (W.contents out.old) (W.contents out.new)
        (attribute_text (worded name.now (anchor_code anchor)))) }
{
    write!(out, " {name}=\"{anchor}\"")
}

/// An attribute that is a word with no byte to be escaped.
#[tactic(auto, unfolding(crate::specs::Forests::attribute_text))]
fn print_word<W: Write>(name: &'static str, word: &'static str, out: &mut W) -> io::Result<()>
    requires { escaped word.now ≡ word.now }
    ensures { OnOk result (Appends (W.contents out.old) (W.contents out.new)
        (attribute_text (worded name.now word.now))) }
{
    write!(out, " {name}=\"{word}\"")
}

/// The attributes of a box.
fn print_box<W: Write>(
    x: u32,
    y: u32,
    width: u32,
    height: u32,
    fill: Colour,
    out: &mut W,
) -> io::Result<()>
    ensures { OnOk result (Appends (W.contents out.old) (W.contents out.new)
        (flat_map attribute_text (box_attributes x y width height fill))) }
{
    print_number("x", x, out)?;
    print_number("y", y, out)?;
    print_number("width", width, out)?;
    print_number("height", height, out)?;
    print_colour("fill", fill, out)
}

/// The attributes of a box with a border.
fn print_bordered<W: Write>(
    x: u32,
    y: u32,
    width: u32,
    height: u32,
    fill: Colour,
    out: &mut W,
) -> io::Result<()>
    ensures { OnOk result (Appends (W.contents out.old) (W.contents out.new)
        (flat_map attribute_text (bordered_attributes x y width height fill))) }
{
    print_colour("stroke", Colour::Ink, out)?;
    print_box(x, y, width, height, fill, out)
}

/// A box with a border.
#[tactic(auto, unfolding(crate::specs::Forests::element_text))]
fn print_cell<W: Write>(
    x: u32,
    y: u32,
    width: u32,
    height: u32,
    fill: Colour,
    out: &mut W,
) -> io::Result<()>
    ensures { OnOk result (Appends (W.contents out.old) (W.contents out.new)
        (element_text (codes "rect") (bordered_attributes x y width height fill) [])) }
{
    write!(out, "<rect")?;
    print_bordered(x, y, width, height, fill, out)?;
    writeln!(out, "></rect>")
}

/// A bar.
#[tactic(auto, unfolding(crate::specs::Forests::element_text))]
fn print_bar<W: Write>(
    x: u32,
    y: u32,
    width: u32,
    height: u32,
    fill: Colour,
    out: &mut W,
) -> io::Result<()>
    ensures { OnOk result (Appends (W.contents out.old) (W.contents out.new)
        (element_text (codes "rect") (box_attributes x y width height fill) [])) }
{
    write!(out, "<rect")?;
    print_box(x, y, width, height, fill, out)?;
    writeln!(out, "></rect>")
}

/// The path of a mark that points down.
#[tactic(auto, unfolding(crate::specs::Forests::attribute_text))]
fn print_path_down<W: Write>(x: u32, y: u32, out: &mut W) -> io::Result<()>
    ensures { OnOk result (Appends (W.contents out.old) (W.contents out.new)
        (attribute_text (path_from x y (codes "h8l-4 5z")))) }
{
    write!(out, " d=\"M{x} {y}h8l-4 5z\"")
}

/// The path of a mark that points up.
#[tactic(auto, unfolding(crate::specs::Forests::attribute_text))]
fn print_path_up<W: Write>(x: u32, y: u32, out: &mut W) -> io::Result<()>
    ensures { OnOk result (Appends (W.contents out.old) (W.contents out.new)
        (attribute_text (path_from x y (codes "h8l-4-5z")))) }
{
    write!(out, " d=\"M{x} {y}h8l-4-5z\"")
}

/// A mark that points down.
#[tactic(auto, unfolding(crate::specs::Forests::element_text))]
fn print_down<W: Write>(x: u32, y: u32, out: &mut W) -> io::Result<()>
    ensures { OnOk result (Appends (W.contents out.old) (W.contents out.new)
        (element_text (codes "path") (path_from x y (codes "h8l-4 5z") ∷ []) [])) }
{
    write!(out, "<path")?;
    print_path_down(x, y, out)?;
    writeln!(out, "></path>")
}

/// A mark that points up.
#[tactic(auto, unfolding(crate::specs::Forests::element_text))]
fn print_up<W: Write>(x: u32, y: u32, out: &mut W) -> io::Result<()>
    ensures { OnOk result (Appends (W.contents out.old) (W.contents out.new)
        (element_text (codes "path") (path_from x y (codes "h8l-4-5z") ∷ []) [])) }
{
    write!(out, "<path")?;
    print_path_up(x, y, out)?;
    writeln!(out, "></path>")
}

/// A line between two points.
#[tactic(auto, unfolding(crate::specs::Forests::element_text))]
fn print_line<W: Write>(
    x1: u32,
    y1: u32,
    x2: u32,
    y2: u32,
    ink: Colour,
    out: &mut W,
) -> io::Result<()>
    ensures { OnOk result (Appends (W.contents out.old) (W.contents out.new)
        (element_text (codes "line") (line_attributes x1 y1 x2 y2 ink) [])) }
{
    write!(out, "<line")?;
    print_number("x1", x1, out)?;
    print_number("y1", y1, out)?;
    print_number("x2", x2, out)?;
    print_number("y2", y2, out)?;
    print_colour("stroke", ink, out)?;
    writeln!(out, "></line>")
}

/// The title of a picture or of a box.
#[tactic(auto, unfolding(crate::specs::Forests::element_text))]
fn print_title<W: Write>(title: &[u8], out: &mut W) -> io::Result<()>
    ensures { OnOk result (Appends (W.contents out.old) (W.contents out.new)
        (element_text (codes "title") [] (escaped title.now))) }
{
    write!(out, "<title>")?;
    print_text(title, out)?;
    writeln!(out, "</title>")
}

/// A box with a border and a title.
#[tactic(auto, unfolding(crate::specs::Forests::element_text))]
fn print_titled<W: Write>(
    x: u32,
    y: u32,
    width: u32,
    height: u32,
    fill: Colour,
    title: &[u8],
    out: &mut W,
) -> io::Result<()>
    ensures { OnOk result (Appends (W.contents out.old) (W.contents out.new)
        (element_text (codes "rect") (bordered_attributes x y width height fill)
        (element_text (codes "title") [] (escaped title.now)))) }
{
    write!(out, "<rect")?;
    print_bordered(x, y, width, height, fill, out)?;
    write!(out, ">")?;
    print_title(title, out)?;
    writeln!(out, "</rect>")
}

/// A line of text.
#[tactic(auto, unfolding(crate::specs::Forests::element_text))]
fn print_words<W: Write>(
    x: u32,
    y: u32,
    anchor: Anchor,
    ink: Colour,
    text: &[u8],
    out: &mut W,
) -> io::Result<()>
    ensures { OnOk result (Appends (W.contents out.old) (W.contents out.new)
        (element_text (codes "text") (words_attributes x y anchor ink) (escaped text.now))) }
{
    write!(out, "<text")?;
    print_number("x", x, out)?;
    print_number("y", y, out)?;
    print_anchor("text-anchor", anchor, out)?;
    print_colour("fill", ink, out)?;
    write!(out, ">")?;
    print_text(text, out)?;
    writeln!(out, "</text>")
}

/// A part of a picture, on a line.
fn print_shape<W: Write>(shape: &Shape, out: &mut W) -> io::Result<()>
    ensures { OnOk result (Appends (W.contents out.old) (W.contents out.new)
        (forest_text (shape_tree shape.now Nothing))) }
{
    match shape {
        Shape::Cell {
            x,
            y,
            width,
            height,
            fill,
        } => print_cell(*x, *y, *width, *height, *fill, out),
        Shape::Bar {
            x,
            y,
            width,
            height,
            fill,
        } => print_bar(*x, *y, *width, *height, *fill, out),
        Shape::Down { x, y } => print_down(*x, *y, out),
        Shape::Up { x, y } => print_up(*x, *y, out),
        Shape::Line {
            x1,
            y1,
            x2,
            y2,
            ink,
        } => print_line(*x1, *y1, *x2, *y2, *ink, out),
        Shape::Titled {
            x,
            y,
            width,
            height,
            fill,
            title,
        } => print_titled(*x, *y, *width, *height, *fill, title.as_slice(), out),
        Shape::Words {
            x,
            y,
            anchor,
            ink,
            text,
        } => print_words(*x, *y, *anchor, *ink, text.as_slice(), out),
    }
}

/// The parts of a picture.
#[tactic(auto, using(crate::proofs::Trees::shapes_more))]
fn print_shapes<W: Write>(shapes: &[Shape], out: &mut W) -> io::Result<()>
    ensures { OnOk result (Appends (W.contents out.old) (W.contents out.new) (forest_text (shapes_forest shapes.now))) }
{
    for shape in shapes {
        print_shape(shape, out)?;
    }
    Ok(())
}

/// The attributes of a whole picture.
fn print_size<W: Write>(width: u32, height: u32, out: &mut W) -> io::Result<()>
    ensures { OnOk result (Appends (W.contents out.old) (W.contents out.new)
        (flat_map attribute_text (picture_attributes width height))) }
{
    print_word("xmlns", "http://www.w3.org/2000/svg", out)?;
    print_number("width", width, out)?;
    print_number("height", height, out)?;
    print_word("font-family", "monospace", out)?;
    print_number("font-size", 12, out)
}

/// Prints a picture: the text of its tree, in which each tag is closed and each text escaped.
#[tactic(auto, unfolding(crate::specs::Pictures::picture_text, crate::specs::Forests::element_text))]
pub fn print_picture<W: Write>(picture: &Picture, out: &mut W) -> io::Result<()>
    ensures { OnOk result (Appends (W.contents out.old) (W.contents out.new) (picture_text picture.now)) }
{
    write!(out, "<svg")?;
    print_size(picture.width, picture.height, out)?;
    write!(out, ">")?;
    print_title(picture.title.as_slice(), out)?;
    print_shapes(picture.shapes.as_slice(), out)?;
    writeln!(out, "</svg>")
}
