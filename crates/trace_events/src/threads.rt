//! The names of threads as one text.

ghost use Rattle.std.specs.Prelude.{◌≡◌, [], ◌∷◌, ◌++◌, ◌<◌, IfOk, OnOk, if◌then◌else◌, string_bytes};
ghost use Rattle.turn_dispatch.specs.Wakings.{IsMember};
ghost use Rattle.trace_events.specs.Names.{threads_text};

use crate::names::thread_name;
use crate::texts::text_of;
use boot_data::BootPlan;
use event_theory::{Element, OutOfMemory};
use std::alloc::Global;

/// The thread of this number, if it is in a mask.
fn member(mask: u64, number: u8) -> Option<Element>
    requires { number < 64 }
    ensures { IsMember mask number result }
{
    if mask >> number & 1 == 1 {
        Element::new(number)
    } else {
        None
    }
}

/// Adds a name to a text, after a space if it is not the first.
fn add_name(text: &mut String, is_first: bool, name: &str) -> Result<(), OutOfMemory>
    ensures { OnOk result (string_bytes text.new
        ≡ string_bytes text.old ++ (if is_first then name.now else 32 ∷ name.now)) }
{
    if !is_first {
        text.push(' ')?;
    }
    Ok(text.push_str(name)?)
}

/// The names of the threads of a mask, with a space between two.
pub(crate) fn text_of_threads(
    alloc: Global,
    plan: &BootPlan,
    mask: u64,
) -> Result<String, OutOfMemory>
    ensures { IfOk result (λ text. string_bytes text ≡ threads_text plan.now mask) }
{
    let mut text = String::new(alloc);
    let mut is_first = true;
    for number in 0..64u8 {
        if let Some(thread) = member(mask, number) {
            let name = text_of(alloc, thread_name(plan, thread))?;
            add_name(&mut text, is_first, name.as_str())?;
            is_first = false;
        }
    }
    Ok(text)
}
