//! The threads of a kernel, from their start to their end.
ghost use Rattle.std.specs.Prelude.{◌≡◌, ◌+◌, ◌≤◌, [], All, drop, length, vec_len, vec_capacity};
ghost use Rattle.std.specs.List.{AllZip};
ghost use Rattle.processor.specs.Points.{calls};
ghost use Rattle.boot_threads.specs.Crews.{StartReports, GaveBack};
ghost use Rattle.boot_threads.specs.Typings.{AreTyped};
ghost use Rattle.boot_threads.specs.Works.{MayWork, HasWorked};

use crate::crew::{join_all, start_all};
use crate::starting::{Started, Witness};
use crate::typing::type_all;
use crate::work::{Back, Work, Worked};
use processor::{Shared, TurnGate};
use spsc_line::LineIn;
use std::sync::Wait;
use std::thread;
use std::thread::Scope;

type Handles<G> = Vec<Started<Shared, Worked<G>, Work<G>>>;

// Starts all threads, and then types into the lines.
fn start_and_type<'s, E, R, G>(
    rt: &'s R,
    scope: &'s Scope<'s, E>,
    shared: &'s Shared,
    works: Vec<Work<G>>,
    processors: usize,
    handles: Handles<G>,
    lines: Vec<LineIn>,
    typed: Vec<LineIn>,
) -> (Handles<G>, Vec<LineIn>)
where
    R: Witness<Shared, Worked<G>, Work<G>> + Wait + Sync,
    G: TurnGate + Send + Drop + 's,
    requires may { All (MayWork shared.now) works.items }
    requires number { vec_len works ≡ processors + length shared.now.plan.ttys }
    requires lines { vec_len lines ≡ length shared.now.plan.ttys }
    requires handles { (handles.items ≡ []) × (vec_len works ≤ vec_capacity handles) }
    requires room { (typed.items ≡ []) × (vec_len lines ≤ vec_capacity typed) }
    ensures reported { AllZip (StartReports R.refused shared.now) works.items result.0.items }
    ensures typed { AreTyped shared.now.plan.ttys (drop processors result.0.items) lines.items result.1.items }
{
    let handles = start_all(rt, scope, shared, works, handles);
    let (_, devices) = handles.as_slice().split_at(processors);
    let typed = type_all(rt, shared.plan.ttys.as_slice(), devices, lines, typed);
    (handles, typed)
}

/// Starts a thread for each work, types each tty's bytes into its line while the threads run, and joins all. Returns
/// the results, in the order of the works, and the lines. If a thread can't be started, its substitute is returned and
/// the others go on. Nothing is typed for a device that was not started. It takes no memory: all lists have room.
///
/// Conditions: the works of so many processors are first, followed by those of the devices, one for each tty in plan
/// order. The lines are the other ends of the devices' lines. Each work may be done.
pub fn run_kernel<R, G>(
    rt: &R,
    shared: &Shared,
    works: Vec<Work<G>>,
    processors: usize,
    handles: Handles<G>,
    backs: Vec<Back<G>>,
    lines: Vec<LineIn>,
    typed: Vec<LineIn>,
) -> (Vec<Back<G>>, Vec<LineIn>)
where
    R: Witness<Shared, Worked<G>, Work<G>> + Wait + Sync,
    G: TurnGate + Send + Drop,
    requires may { All (MayWork shared.now) works.items }
    requires number { vec_len works ≡ processors + length shared.now.plan.ttys }
    requires lines { vec_len lines ≡ length shared.now.plan.ttys }
    requires handles { (handles.items ≡ []) × (vec_len works ≤ vec_capacity handles) }
    requires backs { (backs.items ≡ []) × (vec_len works ≤ vec_capacity backs) }
    requires room { (typed.items ≡ []) × (vec_len lines ≤ vec_capacity typed) }
    ensures worked { AllZip (GaveBack R.ran R.refused (HasWorked (calls G.observes G.learns)) shared.now) works.items
        result.0.items }
    ensures typed { AreTyped shared.now.plan.ttys (drop processors result.0.items) lines.items result.1.items }
{
    let (handles, typed) = thread::scope(
        thread::scope_env(),
        rt,
        move |scope| -> (Handles<G>, Vec<LineIn>)
            requires { (handles.items ≡ []) × (vec_len works ≤ vec_capacity handles)
                × All (MayWork shared.now) works.items
                × (vec_len works ≡ processors + length shared.now.plan.ttys)
                × (vec_len lines ≡ length shared.now.plan.ttys)
                × (typed.items ≡ []) × (vec_len lines ≤ vec_capacity typed) }
            ensures { AllZip (StartReports R.refused shared.entry.now) works.items result.0.items
                × AreTyped shared.entry.now.plan.ttys (drop processors result.0.items) lines.items result.1.items }
        { start_and_type(rt, scope, shared, works, processors, handles, lines, typed) },
    );
    (join_all(rt, handles, backs), typed)
}
