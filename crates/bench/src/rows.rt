//! The rows that the program prints, by the words that name them.
use crate::batch::Room;
use crate::figures::{Figure, Task, Unit};
use crate::notes::Notes;
use crate::queues::{Course, Structure};
use crate::scripts::Script;

/// Rows that are printed together: for each number a row of each figure.
pub struct Rows {
    /// The word that names the rows.
    pub word: &'static str,
    pub numbers: &'static [u8],
    pub figures: &'static [Figure],
}

/// The lengths of the measured lines.
const LENGTHS: [u8; 3] = [1, 16, 64];

/// The numbers of processors of measured boots.
const PROCESSORS: [u8; 4] = [1, 2, 4, 8];

/// The sizes of the measured lists of events, in KiB.
const SIZES: [u8; 4] = [1, 4, 16, 64];

/// All rows, in the order in which they are printed.
#[rattlefmt::skip]
static ROWS: [Rows; 11] = [
    Rows { word: "alone", numbers: &LENGTHS, figures: &[
        Figure { name: "alone ClaimQueue", task: Task::Lines(Course::Alone, Structure::ClaimQueue), unit: Unit::Each("item") },
        Figure { name: "alone BatchQueue", unit: Unit::Each("item"),
            task: Task::Lines(Course::Alone, Structure::BatchQueue(Room::Of256)) },
        Figure { name: "alone BatchQueue(4096)", unit: Unit::Each("item"),
            task: Task::Lines(Course::Alone, Structure::BatchQueue(Room::Of4096)) },
        Figure { name: "alone ArrayQueue", task: Task::Lines(Course::Alone, Structure::ArrayQueue), unit: Unit::Each("item") },
    ] },
    Rows { word: "pairs", numbers: &LENGTHS, figures: &[
        Figure { name: "pair ClaimQueue", task: Task::Lines(Course::Pair, Structure::ClaimQueue), unit: Unit::Each("item") },
        Figure { name: "pair BatchQueue", unit: Unit::Each("item"),
            task: Task::Lines(Course::Pair, Structure::BatchQueue(Room::Of256)) },
        Figure { name: "pair BatchQueue(4096)", unit: Unit::Each("item"),
            task: Task::Lines(Course::Pair, Structure::BatchQueue(Room::Of4096)) },
        Figure { name: "pair ArrayQueue", task: Task::Lines(Course::Pair, Structure::ArrayQueue), unit: Unit::Each("item") },
    ] },
    Rows { word: "fours", numbers: &LENGTHS, figures: &[
        Figure { name: "four ClaimQueue", task: Task::Lines(Course::Four, Structure::ClaimQueue), unit: Unit::Each("item") },
        Figure { name: "four BatchQueue", unit: Unit::Each("item"),
            task: Task::Lines(Course::Four, Structure::BatchQueue(Room::Of256)) },
        Figure { name: "four BatchQueue(4096)", unit: Unit::Each("item"),
            task: Task::Lines(Course::Four, Structure::BatchQueue(Room::Of4096)) },
        Figure { name: "four ArrayQueue", task: Task::Lines(Course::Four, Structure::ArrayQueue), unit: Unit::Each("item") },
    ] },
    Rows { word: "chains", numbers: &[1], figures: &[
        Figure { name: "note ProcChain", task: Task::Notes(Notes::ChainAlone), unit: Unit::Rate("notes") },
        Figure { name: "note ArrayQueue", task: Task::Notes(Notes::ArrayAlone), unit: Unit::Rate("notes") },
    ] },
    Rows { word: "chains", numbers: &[2], figures: &[
        Figure { name: "note ProcChain", task: Task::Notes(Notes::ChainPair), unit: Unit::Rate("notes") },
    ] },
    Rows { word: "chains", numbers: &[3], figures: &[
        Figure { name: "note ArrayQueue", task: Task::Notes(Notes::ArrayThree), unit: Unit::Rate("notes") },
    ] },
    Rows { word: "rings", numbers: &[1, 2, 3, 4, 5, 6, 7, 8], figures: &[
        Figure { name: "ring ThreadTable", task: Task::Passes, unit: Unit::Each("pass") },
    ] },
    Rows { word: "boots", numbers: &PROCESSORS, figures: &[
        Figure { name: "setup pass", task: Task::Setup(Script::Pass), unit: Unit::Each("boot") },
        Figure { name: "boot pass", task: Task::Turns(Script::Pass), unit: Unit::Rate("turns") },
    ] },
    Rows { word: "boots", numbers: &PROCESSORS, figures: &[
        Figure { name: "setup talk", task: Task::Setup(Script::Talk), unit: Unit::Each("boot") },
        Figure { name: "boot talk", task: Task::Turns(Script::Talk), unit: Unit::Rate("lines") },
    ] },
    Rows { word: "boots", numbers: &PROCESSORS, figures: &[
        Figure { name: "setup listen", task: Task::Setup(Script::Listen), unit: Unit::Each("boot") },
        Figure { name: "boot listen", task: Task::Turns(Script::Listen), unit: Unit::Rate("turns") },
    ] },
    Rows { word: "replays", numbers: &SIZES, figures: &[
        Figure { name: "replay KiB", task: Task::Replay, unit: Unit::Rate("events") },
    ] },
];

/// All rows, in the order in which they are printed.
pub fn all_rows() -> &'static [Rows] {
    &ROWS
}
