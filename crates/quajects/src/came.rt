//! The numbers of a quaject that came home.
ghost use Rattle.std.specs.Prelude.{◌≡◌};

use crate::home::Home;
use std::snapshot::Snapshot;

/// The numbers of a quaject that came home: this many notes were put in its chain, `left` of them were not run; it ran
/// this many notes, took and put this many items, and holds this many. For contracts it remembers what came home. It is
/// made only when a `Home` comes apart, and nobody changes it or makes a second of it.
#[derive(Drop)]
pub struct Came {
    pub(crate) chained: u32,
    pub(crate) left: usize,
    pub(crate) notes: u64,
    pub(crate) taken: u64,
    pub(crate) put: u64,
    pub(crate) held: usize,
    pub(crate) home: Snapshot<Home>,
    ghost chained_is: { chained ≡ home.value.chained },
    ghost left_is: { left ≡ home.value.left },
    ghost notes_is: { notes ≡ home.value.notes },
    ghost taken_is: { taken ≡ home.value.taken },
    ghost put_is: { put ≡ home.value.put },
    ghost held_is: { held ≡ home.value.held },
}

impl Came {
    /// How many notes were put in its chain.
    pub fn chained(&self) -> u32
        ensures { result ≡ self.now.chained }
    {
        self.chained
    }

    /// How many of them were not run.
    pub fn left(&self) -> usize
        ensures { result ≡ self.now.left }
    {
        self.left
    }

    /// How many notes it ran.
    pub fn notes(&self) -> u64
        ensures { result ≡ self.now.notes }
    {
        self.notes
    }

    /// How many items it took.
    pub fn taken(&self) -> u64
        ensures { result ≡ self.now.taken }
    {
        self.taken
    }

    /// How many items it put.
    pub fn put(&self) -> u64
        ensures { result ≡ self.now.put }
    {
        self.put
    }

    /// How many items it holds.
    pub fn held(&self) -> usize
        ensures { result ≡ self.now.held }
    {
        self.held
    }
}
