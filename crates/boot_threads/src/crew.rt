//! Threads that are started together, and joined in the order in which they were started.
ghost use Rattle.std.specs.Prelude.{◌≡◌, ◌≤◌, [], All, vec_len, vec_capacity};
ghost use Rattle.std.specs.List.{AllZip};
ghost use Rattle.boot_threads.specs.Crews.{StartReports, WasJoined, GaveBack};

use crate::starting::{Job, NotStarted, Started, Witness, start_one};
use std::sync::Wait;
use std::thread;
use std::thread::Scope;

/// Starts a thread for each job, in the order of the jobs, even if another thread can't be started. It takes no memory:
/// the list has room for all handles.
pub fn start_all<'s, E, R, S, B, J>(
    rt: &'s R,
    scope: &'s Scope<'s, E>,
    shared: &'s S,
    jobs: Vec<J>,
    handles: Vec<Started<S, B, J>>,
) -> Vec<Started<S, B, J>>
where
    R: Witness<S, B, J> + Wait + Sync,
    S: Sync,
    B: Send + Drop + 's,
    J: Job<S, B> + Send + Drop + 's,
    requires handles { (handles.items ≡ []) × (vec_len jobs ≤ vec_capacity handles) }
    requires may { All (J.may_run shared.now) jobs.items }
    ensures { AllZip (StartReports R.refused shared.now) jobs.items result.items }
{
    let mut handles = handles;
    for job in jobs {
        handles.push_reserved(start_one(rt, scope, shared, job));
    }
    handles
}

// The result of a thread, or the substitute for a thread that was not started.
fn join_one<R: Witness<S, B, J>, S, B: Drop, J: Job<S, B>>(
    rt: &R,
    handle: Started<S, B, J>,
) -> Result<B, NotStarted<S, J>>
    ensures { WasJoined R.ran J.gives handle result }
{
    match handle {
        Ok(handle) => Ok(rt.join(handle)),
        Err(lost) => Err(lost),
    }
}

/// Joins these threads, in their order, and returns the result of each, or the substitute for a thread that was not
/// started. It takes no memory: the list has room for all results.
pub fn join_all<R: Witness<S, B, J>, S, B: Drop, J: Job<S, B>>(
    rt: &R,
    handles: Vec<Started<S, B, J>>,
    backs: Vec<Result<B, NotStarted<S, J>>>,
) -> Vec<Result<B, NotStarted<S, J>>>
    requires { (backs.items ≡ []) × (vec_len handles ≤ vec_capacity backs) }
    ensures { AllZip (WasJoined R.ran J.gives) handles.items result.items }
{
    let mut backs = backs;
    for handle in handles {
        backs.push_reserved(join_one(rt, handle));
    }
    backs
}

/// Starts a thread for each job, joins all, and returns the results in the order of the jobs. A thread that can't be
/// started has a substitute instead of a result. It takes no memory: both lists have room for all.
pub fn run_all<R, S, B, J>(
    rt: &R,
    shared: &S,
    jobs: Vec<J>,
    handles: Vec<Started<S, B, J>>,
    backs: Vec<Result<B, NotStarted<S, J>>>,
) -> Vec<Result<B, NotStarted<S, J>>>
where
    R: Witness<S, B, J> + Wait + Sync,
    S: Sync,
    B: Send + Drop,
    J: Job<S, B> + Send + Drop,
    requires handles { (handles.items ≡ []) × (vec_len jobs ≤ vec_capacity handles) }
    requires backs { (backs.items ≡ []) × (vec_len jobs ≤ vec_capacity backs) }
    requires may { All (J.may_run shared.now) jobs.items }
    ensures { AllZip (GaveBack R.ran R.refused J.gives shared.now) jobs.items result.items }
{
    let handles = thread::scope(
        thread::scope_env(),
        rt,
        move |scope| -> Vec<Started<S, B, J>>
            requires { (handles.items ≡ []) × (vec_len jobs ≤ vec_capacity handles)
                × All (J.may_run shared.now) jobs.items }
            ensures { AllZip (StartReports R.refused shared.entry.now) jobs.items result.items }
        { start_all(rt, scope, shared, jobs, handles) },
    );
    join_all(rt, handles, backs)
}
