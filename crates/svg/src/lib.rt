//! Pictures as SVG: boxes, bars, lines, marks and texts, each at its place, and the text of a picture.
//!
//! ```rust
//! let mut canvas = Canvas::new(rt.alloc());
//! canvas.cell(10, 20, 16, Colour::Sky)?;
//! canvas.words(30, 20, b"published")?;
//! let title = text_of(rt.alloc(), b"one box")?;
//! let picture = Picture {
//!     width: 120,
//!     height: 50,
//!     title,
//!     shapes: canvas.into_shapes(),
//! };
//! let mut text = Vec::new(rt.alloc());
//! assert!(rt; print_picture(&picture, &mut text).is_ok());
//! assert!(rt; text.ends_with(b">published</text>\n</svg>\n"));
//! ```
//!
//! The text of a picture is that of its tree: each tag is closed, and each text is escaped.
#![tactic(auto)]

mod canvas;
mod printing;
mod shapes;
pub mod words;

pub use canvas::{BOX, Canvas};
pub use printing::print_picture;
pub use shapes::{Anchor, Colour, Picture, Shape};
