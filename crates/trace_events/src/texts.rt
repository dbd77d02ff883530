//! Bytes as texts: printable ASCII except `\` is itself, each other byte is `\` and two digits, as in a report.

ghost use Rattle.std.specs.Prelude.{◌≡◌, [], ◌∷◌, ◌++◌, ◌<◌, IfOk, OnOk, string_bytes};
ghost use Rattle.boot_script.specs.Reports.{heard_text, stands_for_itself, upper_digit, written_byte};
ghost use Rattle.trace_events.specs.Names.{queue_text, side_text};

use crate::names::{queue_name, tty_name};
use boot_data::BootPlan;
use boot_data::plan::QueueIndex;
use event_theory::OutOfMemory;
use std::alloc::Global;

/// The digit of a number below 16.
fn upper_digit_of(nibble: u8) -> u8
    requires { nibble < 16 }
    ensures { result ≡ upper_digit nibble }
{
    if nibble < 10 {
        b'0' + nibble
    } else {
        b'A' + (nibble - 10)
    }
}

/// Whether a byte is written as itself.
fn is_plain(byte: u8) -> bool
    ensures { result ≡ stands_for_itself byte }
{
    32 <= byte && byte <= 126 && byte != b'\\'
}

/// Adds an ASCII byte to a text.
fn add_ascii(text: &mut String, byte: u8) -> Result<(), OutOfMemory>
    requires { byte < 128 }
    ensures { OnOk result (string_bytes text.new ≡ string_bytes text.old ++ byte ∷ []) }
{
    Ok(text.push(char::from(byte))?)
}

/// Adds a byte to a text, as it is written.
#[tactic(auto, unfolding(boot_script::specs::Reports::written_byte))]
fn add_byte(text: &mut String, byte: u8) -> Result<(), OutOfMemory>
    ensures { OnOk result (string_bytes text.new ≡ string_bytes text.old ++ written_byte byte) }
{
    if is_plain(byte) {
        return add_ascii(text, byte);
    }
    add_ascii(text, b'\\')?;
    add_ascii(text, upper_digit_of(byte / 16))?;
    add_ascii(text, upper_digit_of(byte % 16))
}

/// Bytes as a text.
pub(crate) fn text_of(alloc: Global, bytes: &[u8]) -> Result<String, OutOfMemory>
    ensures { IfOk result (λ text. string_bytes text ≡ heard_text bytes.now) }
{
    let mut text = String::new(alloc);
    for byte in bytes {
        add_byte(&mut text, *byte)?;
    }
    Ok(text)
}

/// Which of a tty's queues it is.
fn side_of(queue: usize) -> &'static str
    ensures { result.now ≡ side_text queue }
{
    if queue % 2 == 0 { ".line" } else { ".screen" }
}

/// The text of a queue.
pub(crate) fn text_of_queue(
    alloc: Global,
    plan: &BootPlan,
    queue: QueueIndex,
) -> Result<String, OutOfMemory>
    ensures { IfOk result (λ text. string_bytes text ≡ queue_text plan.now queue) }
{
    match queue {
        QueueIndex::Small(queue) => text_of(alloc, queue_name(plan, queue)),
        QueueIndex::Large(queue) => {
            let mut text = text_of(alloc, tty_name(plan, queue / 2))?;
            text.push_str(side_of(queue))?;
            Ok(text)
        }
    }
}
