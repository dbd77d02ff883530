//! Parts of a list: how one is appended, and how one is read.
ghost use Rattle.std.specs.Prelude.{◌≡◌, ◌≤◌, ◌+◌, ◌++◌, length, vec_capacity};
ghost use Rattle.boot_data.specs.Hearing.{bytes_of};
ghost use Rattle.boot_log.specs.Kept.{part_of, part_after};

use crate::entry::Part;
use event_theory::Alarm;

// The items of a part.
pub(crate) fn part_of<T>(items: &[T], part: Part) -> &[T]
    ensures { result.now ≡ part_of items.now part }
{
    let rest = &items[part.start.min(items.len())..];
    &rest[..part.len.min(rest.len())]
}

// Appends a line, the low 8 bits of each item, and returns its part.
pub(crate) fn append_line(bytes: &mut Vec<u8>, line: &[u64]) -> Part
    requires { length bytes.old.items + length line.now ≤ vec_capacity bytes.old }
    ensures bytes { bytes.new.items ≡ bytes.old.items ++ bytes_of line.now }
    ensures room { vec_capacity bytes.new ≡ vec_capacity bytes.old }
    ensures part { result ≡ part_after bytes.old.items line.now }
{
    let start = bytes.len();
    for item in line {
        bytes.push_reserved((*item % 256) as u8);
    }
    Part {
        start,
        len: line.len(),
    }
}

// Appends alarms, and returns their part.
pub(crate) fn append_alarms(fired: &mut Vec<Alarm>, alarms: &[Alarm]) -> Part
    requires { length fired.old.items + length alarms.now ≤ vec_capacity fired.old }
    ensures fired { fired.new.items ≡ fired.old.items ++ alarms.now }
    ensures room { vec_capacity fired.new ≡ vec_capacity fired.old }
    ensures part { result ≡ part_after fired.old.items alarms.now }
{
    let start = fired.len();
    for alarm in alarms {
        fired.push_reserved(*alarm);
    }
    Part {
        start,
        len: alarms.len(),
    }
}
