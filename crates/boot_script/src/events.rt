//! Lists of events as text: a line that names the version, and then an event a line.
//!
//! Empty lines and comments, which begin with `#`, say nothing. The first invalid line decides the fault. Out of memory
//! is returned only if no line is invalid.

ghost use Rattle.std.specs.Prelude.{◌≡◌, ◌≤◌, IfOk, length};
ghost use Rattle.boot_script.specs.Words.{lines_of};
ghost use Rattle.boot_script.specs.Scripts.{events_from, text_events};
ghost use Rattle.boot_script.specs.Answers.{Says};

use crate::event_lines::line_said;
use crate::fault::{ScriptFault, ScriptRefusal};
use crate::opening::{is_silent, opening};
use crate::text::first_line;
use crate::version::{Script, Version};
use event_theory::Event;
use std::alloc::Global;

/// The events of the lines from line 2 on. After a refused allocation the lines are still checked.
fn events_said(
    alloc: Global,
    version: Version,
    text: &[u8],
) -> Result<Vec<(u32, Event)>, ScriptFault>
    requires { length text.now ≤ 65536 }
    ensures { Says (λ events. events.items) result (events_from version 2 (lines_of text.now)) }
{
    let mut events = Vec::new(alloc);
    let mut kept = true;
    let mut rest = text;
    let mut line_number: u32 = 2;
    while !rest.is_empty() {
        let (line, after) = first_line(rest);
        if !is_silent(line) {
            match line_said(alloc, version, line) {
                Ok(event) => kept = kept && events.push((line_number, event)).is_ok(),
                Err(ScriptRefusal::OutOfMemory) => kept = false,
                Err(refusal) => {
                    return Err(ScriptFault {
                        line: line_number,
                        refusal,
                    });
                }
            }
        }
        line_number += 1;
        rest = after;
    }
    if kept {
        Ok(events)
    } else {
        Err(ScriptFault::NO_MEMORY)
    }
}

/// How many thread elements the version of the text has, and its events, each with the number of its line.
///
/// The fault is the first of the text: the first invalid line, or line 0 with `TooMany` if the text has more than
/// 65,536 bytes. A refused allocation is returned only if the text has no fault, as line 0 with `OutOfMemory`.
#[tactic(auto, unfolding(crate::specs::Scripts::text_events))]
pub fn parse_events(alloc: Global, text: &[u8]) -> Result<(u8, Vec<(u32, Event)>), ScriptFault>
    ensures said { Says (λ script. (script.0, script.1.items)) result (text_events text.now) }
    ensures some { IfOk result (λ script. 1 ≤ script.0) }
    ensures within { IfOk result (λ script. script.0 ≤ 64) }
{
    let (version, rest) = opening(Script::Events, text)?;
    let events = events_said(alloc, version, rest)?;
    Ok((version.elements(), events))
}
