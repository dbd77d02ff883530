//! The example of the first page of `svg`, word for word.

use std::test::*;
use svg::words::text_of;
use svg::*;

#[test]
fn one_box(rt: HostRuntime) -> Result<(), Fail> {
    let mut canvas = Canvas::new(rt.alloc());
    canvas.cell(10, 20, 16, Colour::Sky)?;
    canvas.words(30, 20, b"published")?;
    let title = text_of(rt.alloc(), b"one box")?;
    let picture = Picture {
        width: 120,
        height: 50,
        title,
        shapes: canvas.into_shapes(),
    };
    let mut text = Vec::new(rt.alloc());
    assert!(rt; print_picture(&picture, &mut text).is_ok());
    assert!(rt; text.ends_with(b">published</text>\n</svg>\n"));
    Ok(())
}
