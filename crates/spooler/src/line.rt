//! A line of text, as the queue has it.
ghost use Rattle.std.specs.Prelude.{◌≡◌, [], ◌∷◌, ◌++◌, ◌<◌, IfSome, IsSome, false, length, nat_eq};
ghost use Rattle.std.specs.List.{list_any};
ghost use Rattle.spooler.specs.Wholes.{IsWhole};

use arrayvec::ArrayVec;

/// The byte that ends a line.
const END: u8 = b'\n';

/// The items of a line, up to and with its end: at most 64, which is the queue's room.
#[derive(PartialEq, Eq, PartialOrd, Ord, Drop)]
pub struct Line {
    pub items: ArrayVec<u64, 64>,
    ghost whole: { IsWhole items.items },
}

impl Line {
    /// The line with this text, followed by an end of a line. None if the text has more than 63 bytes, or an end of a
    /// line.
    pub fn of(text: &[u8]) -> Option<Line>
        ensures text { IfSome result (λ line. line.items.items ≡ text.now ++ 10 ∷ []) }
        ensures given { length text.now < 64 → list_any (λ byte. nat_eq byte 10) text.now ≡ false → IsSome result }
    {
        if text.len() >= 64 || text.contains(&END) {
            return None;
        }
        let mut items = ArrayVec::new();
        for byte in text {
            items.push(*byte as u64);
        }
        items.push(END as u64);
        Some(Line { items })
    }
}
