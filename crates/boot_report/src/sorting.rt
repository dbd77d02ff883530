//! Gathering the places of all lines heard, and sorting them.
ghost use Rattle.std.specs.Prelude.{◌≡◌, ◌<◌, ◌≤◌, ◌+◌, ◌++◌, List, [], map, flat_map, IsPermutation, length};
ghost use Rattle.std.specs.Prelude.{vec_len, vec_capacity, IfSome};
ghost use Rattle.std.specs.List.{AllByRecursion, slice_get};
ghost use Rattle.boot_data.specs.Hearing.{Heard, IsPlace, heard_at};
ghost use Rattle.boot_report.specs.Made.{numbered};
ghost use Rattle.boot_report.specs.Reported.{lines_of, place_of};
ghost use Rattle.boot_laws.specs.Reports.{Ascend};

use boot_data::{HeardLines, HeardPlace};

// The place of the line with this number among the lines that this processor heard.
fn place_in(processor: usize, number: usize, heard: &HeardLines) -> HeardPlace
    requires { number < length heard.now.lines }
    ensures { IfSome (slice_get heard.now.lines number) (λ line. result ≡ place_of processor number line) }
{
    let (thread, step) = heard.key(number);
    HeardPlace {
        thread,
        step,
        processor,
        number,
    }
}

// Appends the place of each line that this processor heard.
fn append(places: &mut Vec<HeardPlace>, processor: usize, heard: &HeardLines)
    requires room { vec_len places.old + length heard.now.lines ≤ vec_capacity places.old }
    ensures items { places.new.items ≡ places.old.items ++ numbered (place_of processor) 0 heard.now.lines }
    ensures len { vec_len places.new ≡ vec_len places.old + length heard.now.lines }
    ensures room { vec_capacity places.new ≡ vec_capacity places.old }
{
    for number in 0..heard.len() {
        places.push_reserved(place_in(processor, number, heard));
    }
}

/// Puts the places of all lines that each processor heard in one list, processor by processor. The list is empty and
/// has room for all, so it takes no memory.
pub(crate) fn gather(heard: &[HeardLines], places: &mut Vec<HeardPlace>)
    requires room { (places.old.items ≡ []) × (length (flat_map lines_of heard.now) ≤ vec_capacity places.old) }
    ensures places { AllByRecursion (IsPlace heard.now) places.new.items }
    ensures lines { map (heard_at heard.now) places.new.items ≡ flat_map lines_of heard.now }
{
    for (processor, lines) in heard.iter().enumerate() {
        append(places, processor, lines);
    }
}

/// Sorts the places of the lines heard by thread, and then by step. It takes no memory.
pub fn sort_heard(places: &mut [HeardPlace])
    ensures all { IsPermutation places.old places.new }
    ensures ascend { (processors : List Heard) → Ascend (map (heard_at processors) places.new) }
{
    places.sort_unstable_by_key(|place| (place.thread, place.step));
}
