//! The data that every end of any object has: the steps that it made, and its place among the other ends.
use std::collections::LinkedList;
use thiserror::Error;

/// One step of an end: the number of the word, the value found there (by a store too), and the object as the step found
/// it and as it left it. Only proofs use it.
pub struct Entry<O> {
    pub word: u64,
    pub found: u64,
    pub then: O,
    pub next: O,
}

/// Ends that were made and not joined, and their number.
#[derive(Clone, Copy, Debug, PartialEq, Eq, Drop, Error)]
#[error("{others} other ends are not joined")]
pub struct OpenEnds {
    pub others: u64,
}

/// An object at one moment, and how many ends it has then. Only proofs use it.
pub struct AbsState<O> {
    pub ends: u64,
    pub object: O,
}

/// An end among the ends of its object: how many of the counted ends it is, its share, and how often it was split and
/// took in another end. Each time that an end is split off or taken in, the first word is loaded once. No list has this
/// load: `unlisted` counts these loads. Only proofs use it.
pub struct Part {
    pub ends: u64,
    pub share: u64,
    pub splits: u64,
    pub joins: u64,
    pub unlisted: u64,
}

/// The knowledge of an end: the object as it was made, what the end did, the object as its last step left it, its part
/// among the ends, its own steps, and all ends' steps up to its last one. Between taking in another end and the next
/// step, `joined` has the steps that were seen by the one of both that saw less, and `joined_first` is the object as it
/// was made, as the other end had it. Only proofs use it.
pub struct EndState<K, O> {
    pub first: O,
    pub own: K,
    pub seen: AbsState<O>,
    pub member: Part,
    pub steps: LinkedList<Entry<AbsState<O>>>,
    pub course: LinkedList<Entry<AbsState<O>>>,
    pub joined: LinkedList<Entry<AbsState<O>>>,
    pub joined_first: O,
}
