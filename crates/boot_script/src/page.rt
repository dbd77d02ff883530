//! A page of text on the stack, so that the printed text goes out in few writes, each of whole lines.

ghost use Rattle.std.specs.Prelude.{◌≡◌, ℕ, List, [], ◌≤◌, Some, take};

use std::io;
use std::io::Write;
use std::marker::Model;

/// How many bytes a page has room for. The longest status of a core is shorter.
const ROOM: usize = 8192;

/// A text that takes no memory, and takes no more bytes when it is full. Contracts see its bytes.
#[derive(Drop)]
pub(crate) struct Page {
    bytes: [u8; ROOM],
    filled: usize,
}

impl Model for Page {
    ghost Value = { List ℕ };

    ghost view = { λ page. take page.filled page.bytes };

    ghost invariant = { λ page. page.filled ≤ 8192 };
}

impl Page {
    /// An empty page.
    pub(crate) fn new() -> Page
        ensures { result ≡ [] }
    {
        Page {
            bytes: [0; ROOM],
            filled: 0,
        }
    }

    /// All text of the page.
    pub(crate) fn text(&self) -> &[u8]
        ensures { result.now ≡ self.now }
    {
        &self.bytes[..self.filled]
    }
}

impl Write for Page {
    ghost contents = { λ page. Some page };

    fn write(&mut self, bytes: &[u8]) -> io::Result<usize> {
        let start = self.filled;
        let count = bytes.len().min(ROOM - start);
        self.bytes[start..start + count].copy_from_slice(&bytes[..count]);
        self.filled = start + count;
        Ok(count)
    }

    fn flush(&mut self) -> io::Result<()> {
        Ok(())
    }
}
