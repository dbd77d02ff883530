//! A text that is made word by word.

use event_theory::{Items, OutOfMemory};
use std::alloc::Global;

/// A text, and the memory for more of it.
#[derive(Drop)]
pub(crate) struct Phrase {
    alloc: Global,
    text: Vec<u8>,
}

impl Phrase {
    /// The empty text.
    pub(crate) fn new(alloc: Global) -> Phrase {
        Phrase {
            alloc,
            text: Vec::new(alloc),
        }
    }

    /// Appends bytes.
    pub(crate) fn bytes(&mut self, bytes: &[u8]) -> Result<(), OutOfMemory> {
        Ok(self.text.extend_from_slice(bytes)?)
    }

    /// Appends words.
    pub(crate) fn words(&mut self, words: &str) -> Result<(), OutOfMemory> {
        self.bytes(words.as_bytes())
    }

    /// Appends a number in decimal.
    pub(crate) fn number(&mut self, number: u64) -> Result<(), OutOfMemory> {
        let text = format!(in self.alloc; "{number}")?;
        self.words(text.as_str())
    }

    /// Appends words and a number after them.
    pub(crate) fn numbered(&mut self, words: &str, number: u64) -> Result<(), OutOfMemory> {
        self.words(words)?;
        self.number(number)
    }

    /// The text.
    pub(crate) fn end(self) -> Items<u8> {
        let Phrase { alloc: _, text } = self;
        Items::new(text)
    }
}
