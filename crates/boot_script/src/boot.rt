//! Boot scripts: a line that names the version, and then declarations and the steps of threads, one a line.
//!
//! Empty lines and comments, which begin with `#`, say nothing. The first invalid line decides the fault. Out of memory
//! is returned only if no line is invalid.

ghost use Rattle.std.specs.Prelude.{◌≡◌, ◌≤◌, length};
ghost use Rattle.boot_script.specs.Words.{lines_of};
ghost use Rattle.boot_script.specs.Plans.{first_draft, plan_from, plan_only, text_plan};
ghost use Rattle.boot_script.specs.Answers.{Says};
ghost use Rattle.boot_data.specs.BootPlans.{plan_of};
ghost use Rattle.boot_script.specs.Drafts.{kept_plan};
ghost use Rattle.boot_data.specs.PlanLimits.{IsPlan};

use crate::draft::Draft;
use crate::fault::{ScriptFault, ScriptRefusal};
use crate::opening::{is_silent, opening};
use crate::text::seen_line;
use crate::version::{Script, Version};
use boot_data::BootPlan;
use event_theory::Items;
use std::alloc::Global;

/// The plan that was kept.
fn plan_kept(draft: Draft) -> BootPlan
    requires { IsPlan (kept_plan draft) }
    ensures { plan_of result ≡ kept_plan draft }
{
    BootPlan {
        queues: Items::new(draft.queues),
        ttys: Items::new(draft.ttys),
        movers: Items::new(draft.movers),
        gauges: Items::new(draft.gauges),
        alarms: Items::new(draft.alarms),
        threads: Items::new(draft.threads),
    }
}

/// The plan that the lines from line 2 on say. After a refused allocation the lines are still checked.
fn plan_said(alloc: Global, version: Version, text: &[u8]) -> Result<BootPlan, ScriptFault>
    requires { length text.now ≤ 65536 }
    ensures { Says plan_of result (plan_only (plan_from version 2 (lines_of text.now) first_draft)) }
{
    let mut draft = Draft::new(alloc);
    let mut rest = text;
    let mut line_number: u32 = 2;
    while !rest.is_empty() {
        let (line, after, seen) = seen_line(rest);
        if !is_silent(line) {
            match draft.add_line(alloc, version, seen, line) {
                Ok(()) => {}
                Err(refusal) => {
                    return Err(ScriptFault {
                        line: line_number,
                        refusal,
                    });
                }
            }
        }
        line_number += 1;
        rest = after;
    }
    if draft.kept {
        Ok(plan_kept(draft))
    } else {
        Err(ScriptFault::NO_MEMORY)
    }
}

/// The plan that a boot script says.
///
/// The fault is the first of the text: the first invalid line, or line 0 with `TooMany` if the text has more than
/// 65,536 bytes. A refused allocation is returned only if the text has no fault, as line 0 with `OutOfMemory`.
#[tactic(auto, unfolding(crate::specs::Plans::text_plan))]
pub fn parse_boot(alloc: Global, text: &[u8]) -> Result<BootPlan, ScriptFault>
    ensures { Says plan_of result (text_plan text.now) }
{
    let (version, rest) = opening(Script::Boot, text)?;
    plan_said(alloc, version, rest)
}
