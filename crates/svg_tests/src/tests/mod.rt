//! Tests of pictures: the text of each part, texts made of lines and numbers, and a writer that fails.

use std::alloc::Global;
use std::io;
use std::io::{ErrorKind, Write};
use std::panic::Expect;
use std::process::Abort;
use svg::words::*;
use svg::*;

mod examples;

/// The text of a picture before its lines.
const HEAD: &[u8] =
    b"<svg xmlns=\"http://www.w3.org/2000/svg\" width=\"70\" height=\"8\" font-family=\"monospace\" font-size=\"12\">\
<title>a&lt;b</title>
";

/// The text of a picture with these parts.
fn text_with<R: Abort>(rt: &R, alloc: Global, canvas: Canvas) -> Vec<u8> {
    let picture = Picture {
        width: 70,
        height: 8,
        title: text_of(alloc, b"a<b").expect(rt, "title"),
        shapes: canvas.into_shapes(),
    };
    let mut text = Vec::new(alloc);
    print_picture(&picture, &mut text).expect(rt, "text");
    text
}

/// The lines inside the text of a whole picture.
fn lines_inside(text: &[u8]) -> Option<&[u8]> {
    text.strip_prefix(HEAD)?.strip_suffix(b"</svg>\n")
}

/// Whether a picture with these parts has these lines.
fn shows<R: Abort>(rt: &R, alloc: Global, canvas: Canvas, lines: &[u8]) -> bool {
    lines_inside(&text_with(rt, alloc, canvas)) == Some(lines)
}

#[test]
fn nothing_is_drawn(rt: HostRuntime) {
    assert!(rt; shows(&rt, rt.alloc(), Canvas::new(rt.alloc()), b""));
}

const BOX_AND_BAR: &[u8] =
    b"<rect stroke=\"#222222\" x=\"1\" y=\"2\" width=\"3\" height=\"18\" fill=\"#5c9ad8\"></rect>
<rect x=\"4\" y=\"5\" width=\"6\" height=\"7\" fill=\"#e48858\"></rect>
";

#[test]
fn boxes_and_bars(rt: HostRuntime) {
    let mut canvas = Canvas::new(rt.alloc());
    canvas.cell(1, 2, 3, Colour::Blue).expect(&rt, "box");
    canvas.bar(4, 5, 6, 7, Colour::Vermilion).expect(&rt, "bar");
    assert!(rt; shows(&rt, rt.alloc(), canvas, BOX_AND_BAR));
}

const LINE_AND_MARKS: &[u8] =
    b"<line x1=\"9\" y1=\"8\" x2=\"0\" y2=\"4294967295\" stroke=\"#767676\"></line>
<path d=\"M1 2h8l-4 5z\"></path>
<path d=\"M3 4h8l-4-5z\"></path>
";

#[test]
fn lines_and_marks(rt: HostRuntime) {
    let mut canvas = Canvas::new(rt.alloc());
    canvas
        .line(9, 8, 0, 4_294_967_295, Colour::Dim)
        .expect(&rt, "line");
    canvas.down(1, 2).expect(&rt, "mark");
    canvas.up(3, 4).expect(&rt, "mark");
    assert!(rt; shows(&rt, rt.alloc(), canvas, LINE_AND_MARKS));
}

const TITLED: &[u8] =
    b"<rect stroke=\"#222222\" x=\"1\" y=\"2\" width=\"3\" height=\"4\" fill=\"#ffffff\">\
<title>&quot;a&quot; &amp; ?&lt;/rect&gt;</title>
</rect>
";

#[test]
fn a_title_is_escaped(rt: HostRuntime) {
    let mut canvas = Canvas::new(rt.alloc());
    let title = text_of(rt.alloc(), b"\"a\" & \x07</rect>").expect(&rt, "title");
    canvas
        .titled_box(1, 2, 3, 4, Colour::White, title)
        .expect(&rt, "box");
    assert!(rt; shows(&rt, rt.alloc(), canvas, TITLED));
}

const TEXTS: &[u8] = b"<text x=\"1\" y=\"2\" text-anchor=\"middle\" fill=\"#c03a00\">q12</text>
<text x=\"3\" y=\"17\" text-anchor=\"start\" fill=\"#222222\">a long..</text>
<text x=\"5\" y=\"4294967295\" text-anchor=\"start\" fill=\"#222222\">low</text>
";

#[test]
fn texts(rt: HostRuntime) {
    let mut canvas = Canvas::new(rt.alloc());
    let number = numbered(rt.alloc(), "q", 12).expect(&rt, "number");
    canvas
        .text(1, 2, Anchor::Middle, Colour::Red, number)
        .expect(&rt, "text");
    let front = front_of(rt.alloc(), b"a long line", 6).expect(&rt, "front");
    canvas
        .label(3, 4, Anchor::Start, front)
        .expect(&rt, "label");
    canvas.words(5, 4_294_967_290, b"low").expect(&rt, "words");
    assert!(rt; shows(&rt, rt.alloc(), canvas, TEXTS));
}

const SCRIPT: &[u8] = b"events 1\n#no\n# a # b\n\n# c\nlast";

/// Lines of the script by their numbers.
const LINES: &[(u32, &[u8])] = &[(1, b"events 1"), (4, b""), (6, b"last"), (7, b""), (0, b"")];

#[test]
fn lines_of_scripts(rt: HostRuntime) {
    for (number, line) in LINES {
        assert!(rt; line_at(SCRIPT, *number) == *line);
    }
}

#[test]
fn fronts_and_comments(rt: HostRuntime) {
    assert!(rt; first_comment(SCRIPT) == b"a # b".as_slice());
    assert!(rt; first_comment(b"events 1\n#\n") == b"".as_slice());
    let front = front_of(rt.alloc(), b"six by", 6).expect(&rt, "front");
    assert!(rt; front.as_slice() == b"six by".as_slice());
}

/// A writer that takes one byte a call, and fails after this many.
#[derive(Drop)]
struct Full {
    left: u32,
}

impl Write for Full {
    fn write(&mut self, buf: &[u8]) -> io::Result<usize> {
        if self.left == 0 {
            return Err(io::Error::from(ErrorKind::Other));
        }
        self.left = self.left.saturating_sub(1);
        Ok(buf.len().min(1))
    }

    fn flush(&mut self) -> io::Result<()> {
        Ok(())
    }
}

/// A picture with a part of each kind.
fn full_picture<R: Abort>(rt: &R, alloc: Global) -> Picture {
    let mut canvas = Canvas::new(alloc);
    canvas.cell(1, 2, 3, Colour::Green).expect(rt, "box");
    let title = text_of(alloc, b"t").expect(rt, "title");
    canvas
        .titled_box(1, 2, 3, 4, Colour::Pink, title)
        .expect(rt, "titled box");
    canvas.line(1, 2, 3, 4, Colour::Ink).expect(rt, "line");
    canvas.words(5, 6, b"w").expect(rt, "words");
    Picture {
        width: 1,
        height: 2,
        title: text_of(alloc, b"").expect(rt, "title"),
        shapes: canvas.into_shapes(),
    }
}

/// Whether a writer of this many bytes takes all of a picture.
fn fits(picture: &Picture, left: u32) -> bool {
    print_picture(picture, &mut Full { left }).is_ok()
}

#[test]
fn a_writer_fails(rt: HostRuntime) {
    let picture = full_picture(&rt, rt.alloc());
    let mut text = Vec::new(rt.alloc());
    assert!(rt; print_picture(&picture, &mut text).is_ok());
    let length = u32::try_from(text.len()).unwrap_or(0);
    for left in 0..length {
        assert!(rt; !fits(&picture, left));
    }
    assert!(rt; fits(&picture, length));
}
