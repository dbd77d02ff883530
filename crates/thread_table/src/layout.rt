//! The positions of the words of the table, how many words there are of each kind, and the marks in them.
//!
//! The first word has the number of hands. After it come a word of each processor, two words of each element (its state
//! word and its steps done), and the element queues, called rings here: a head word, a tail word and the places of
//! each. A ring is the ready ring, the free elements' ring, or a wait queue's.
//!
//! A cache line holds eight words, and a write to one word of a line takes the line from all who use another. So words
//! that different processors write often are eight words apart: the number of hands, the word of each processor, the
//! two words of each element, and each ring's head word, tail word and first place. The words between them are never
//! used, and the rule says that they are 0. A line begins at one of the words only if the table's memory begins at a
//! line, which nothing promises. An element's two words are side by side, since the processor that the element is on
//! writes both. The places of a ring are side by side: a line for each of them gains nothing that can be measured.
ghost use Rattle.std.specs.Prelude.{◌≡◌, ◌+◌, ◌<◌};
ghost use Rattle.thread_table.specs.declared.layout.TheConstants.{WORDS, PROCESSORS, ELEMENTS, RINGS, PLACES, WAITS};
ghost use Rattle.thread_table.specs.Layout.{wait_ring, processor_word, state_word, done_word, head_word};
ghost use Rattle.thread_table.specs.Layout.{tail_word, place_word};

/// The words of a table.
pub const WORDS: usize = 2024;

/// The processors.
pub const PROCESSORS: usize = 8;

/// The thread elements.
pub const ELEMENTS: usize = 64;

/// The rings.
pub const RINGS: usize = 18;

/// The places of a ring.
pub const PLACES: u64 = 64;

/// The wait queues.
pub const WAITS: usize = 16;

/// The index of the word with the number of hands.
pub const ENDS: usize = 0;

/// The ready ring's number.
pub const READY: usize = 0;

/// The number of the free elements' ring.
pub const FREE: usize = 1;

/// One notify in a wait queue's head word.
pub const NOTIFY: u64 = 4_294_967_296;

/// The stop bit of a state word.
pub const STOP: u64 = 65_536;

/// The stop cell's bit of a state word.
pub const CELL: u64 = 131_072;

/// The pending signals of a state word.
pub const SIGNAL_BITS: u64 = 65_535;

/// The stop bit and the stop cell's of a state word.
pub const STOP_BITS: u64 = 196_608;

/// The number of a wait queue's ring.
pub(crate) fn wait_ring(wait: u8) -> usize
    requires { wait < WAITS }
    ensures { (result ≡ wait_ring wait) × (result < RINGS) }
{
    wait as usize + 2
}

/// The index of a processor's word.
pub(crate) fn processor_word(processor: u8) -> usize
    requires { processor < PROCESSORS }
    ensures { (result ≡ processor_word processor) × (result < WORDS) }
{
    8 * processor as usize + 8
}

/// The index of an element's state word.
pub(crate) fn state_word(element: u8) -> usize
    requires { element < ELEMENTS }
    ensures { (result ≡ state_word element) × (result < WORDS) }
{
    8 * element as usize + 72
}

/// The index of the word with an element's steps done, which is the word after its state word.
pub(crate) fn done_word(element: u8) -> usize
    requires { element < ELEMENTS }
    ensures { (result ≡ done_word element) × (result < WORDS) }
{
    8 * element as usize + 73
}

/// The index of a ring's head word.
pub(crate) fn head_word(ring: usize) -> usize
    requires { ring < RINGS }
    ensures { (result ≡ head_word ring) × (result < WORDS) }
{
    80 * ring + 584
}

/// The index of a ring's tail word.
pub(crate) fn tail_word(ring: usize) -> usize
    requires { ring < RINGS }
    ensures { (result ≡ tail_word ring) × (result < WORDS) }
{
    80 * ring + 592
}

/// The index of the place word of a position of a ring.
pub(crate) fn place_word(ring: usize, position: u64) -> usize
    requires { ring < RINGS }
    ensures { (result ≡ place_word ring position) × (result < WORDS) }
{
    80 * ring + 600 + (position % PLACES) as usize
}
