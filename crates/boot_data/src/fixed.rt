//! Texts of a bounded length, which lie in the value itself and take no memory.

ghost use Rattle.std.specs.Prelude.{◌≡◌, ◌≤◌, ◌<◌, ◌+◌, ◌++◌, ◌∷◌, [], length, IsTrue, ◌↔◌, true, false};

use arrayvec::ArrayVec;
use std::fmt;
use std::marker::Model;

/// A text of at most N bytes. Contracts see its bytes.
#[derive(Drop)]
pub struct Text<const N: usize> {
    bytes: ArrayVec<u8, N>,
}

/// A name, of at most 8 bytes. In a plan that was read each is 1 to 8 bytes of a to z and 0 to 9, the first a letter.
pub type Name = Text<8>;

impl<const N: usize> Model for Text<N> {
    ghost use Rattle.std.specs.Prelude.{ℕ, List};

    ghost Value = { List ℕ };

    ghost view = { λ text. text.bytes.items };
}

impl<const N: usize> Text<N> {
    /// The empty text.
    pub fn new() -> Self
        ensures { result ≡ [] }
    {
        Text {
            bytes: ArrayVec::new(),
        }
    }

    /// A copy of these bytes.
    pub fn of(bytes: &[u8]) -> Self
        requires { length bytes.now ≤ N }
        ensures { result ≡ bytes.now }
    {
        let mut text = Text::new();
        text.append(bytes);
        text
    }

    /// The bytes.
    pub fn as_slice(&self) -> &[u8]
        ensures bytes { result.now ≡ self.now }
        ensures few { length result.now ≤ N }
    {
        self.bytes.as_slice()
    }

    /// Appends bytes if there is room for all of them. Else the text stays as it is, and the answer is false.
    pub fn append(&mut self, bytes: &[u8]) -> bool
        ensures room { IsTrue result ↔ (length self.old + length bytes.now ≤ N) }
        ensures appended { result ≡ true → self.new ≡ self.old ++ bytes.now }
        ensures frame { result ≡ false → self.new ≡ self.old }
    {
        self.bytes.try_extend_from_slice(bytes).is_ok()
    }

    /// Appends a byte if there is room. Else the text stays as it is, and the answer is false.
    pub fn push(&mut self, byte: u8) -> bool
        ensures room { IsTrue result ↔ (length self.old < N) }
        ensures pushed { result ≡ true → self.new ≡ self.old ++ byte ∷ [] }
        ensures frame { result ≡ false → self.new ≡ self.old }
    {
        self.bytes.try_push(byte).is_ok()
    }
}

impl<const N: usize> Default for Text<N> {
    ghost is_default = { λ text. text ≡ [] };

    fn default() -> Self {
        Text::new()
    }
}

/// The bytes between quotes, each as the character of its number.
impl<const N: usize> fmt::Debug for Text<N> {
    fn fmt<W: fmt::Write>(&self, f: &mut fmt::Formatter<W>) -> fmt::Result {
        write!(f, "\"")?;
        for byte in self.as_slice() {
            write!(f, "{}", char::from(*byte))?;
        }
        write!(f, "\"")
    }
}
