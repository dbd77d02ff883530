//! A thread for a job, and the substitute for a thread that can't be started.
ghost use Rattle.std.specs.Prelude.{◌≡◌};
ghost use Rattle.boot_objects.specs.declared.closing.all.TornDown.{TornDown};
ghost use Rattle.boot_threads.specs.Crews.{StartReports};
ghost use Rattle.boot_threads.specs.declared.starting.JobPromise.{JobPromise};

use boot_objects::TornDown;
use std::snapshot::Snapshot;
use std::sync::Wait;
use std::thread::{Promise, PromisedHandle, Scope, SpawnError, Threads};

/// The work of a thread on the data that all threads share, and its result.
pub trait Job<S, B>: Sized {
    ghost may_run: { S → Self → Type 0 };

    ghost gives: { S → Self → B → Type 0 };

    /// Does the job.
    fn run<R: Wait>(self, rt: &R, shared: &S) -> B
        requires { may_run shared.now self }
        ensures { gives shared.now self result };
}

/// The input of the thread of a job: the data that all share, and the job.
#[derive(Drop)]
pub struct JobPromise<S, J> {
    shared: Snapshot<S>,
    job: Snapshot<J>,
}

impl<S, B, J: Job<S, B>> Promise<B> for JobPromise<S, J> {
    ghost kept_by = { λ reported back. J.gives reported.shared.value reported.job.value back };
}

/// Joins threads of jobs of one kind, and is informed of those that could not be started. Every handle for threads is a
/// witness.
///
/// `ran`, `refused` and `shown` are for contracts alone. Code that is generic over a witness knows of them only what a
/// call on the witness ensured. A contract that says of a value that a thread gave it back therefore says that this
/// thread was joined.
pub trait Witness<S, B, J>: Threads {
    // A thread that had made this promise was joined, and gave this back.
    ghost ran: { JobPromise S J → B → Type 0 };

    // A thread that was to make this promise could not be started.
    ghost refused: { JobPromise S J → Type 0 };

    // This result of closing a boot was shown to the witness.
    ghost shown: { TornDown → Type 0 };

    /// Joins a thread.
    fn join(&self, handle: PromisedHandle<B, JobPromise<S, J>>) -> B
    where
        J: Job<S, B>,
        ensures kept { J.gives handle.promise.shared.value handle.promise.job.value result }
        ensures ran { ran handle.promise result };

    /// Gives up a thread that could not be started. The closure that the thread was to run came back instead.
    fn give_up<F>(&self, promise: &JobPromise<S, J>, lost: SpawnError<F>)
    where
        J: Job<S, B>,
        F: FnOnce() -> B + Drop,
        requires { (back : B) → F.post lost.value back → J.gives promise.now.shared.value promise.now.job.value back }
        ensures { refused promise.now };

    /// Shows the closed objects to the witness, and changes nothing.
    fn show(&self, closed: &TornDown)
        ensures { shown closed.now };
}

impl<R: Threads, S, B, J> Witness<S, B, J> for R {
    ghost ran = { λ promise back. Unit {0} };

    ghost refused = { λ promise. Unit {0} };

    ghost shown = { λ closed. Unit {0} };

    fn join(&self, handle: PromisedHandle<B, JobPromise<S, J>>) -> B
    where
        J: Job<S, B>,
        ensures kept { J.gives handle.promise.shared.value handle.promise.job.value result }
        ensures ran { Unit {0} }
    {
        handle.join(self)
    }

    fn give_up<F>(&self, promise: &JobPromise<S, J>, lost: SpawnError<F>)
    where
        J: Job<S, B>,
        F: FnOnce() -> B + Drop,
        requires { (back : B) → F.post lost.value back → J.gives promise.now.shared.value promise.now.job.value back }
        ensures { Unit {0} }
    {
        let _ = (promise, lost);
    }

    fn show(&self, _closed: &TornDown)
        ensures { Unit {0} }
    {}
}

/// The substitute for the thread of a job that can't be started, with the input of that thread. Only `start_one` makes
/// one, and it can't be copied: so a thread's result is never missing.
#[derive(Drop)]
pub struct NotStarted<S, J> {
    reported: JobPromise<S, J>,
}

/// The thread of a job, until it is joined, or the substitute for a thread that can't be started.
pub type Started<S, B, J> = Result<PromisedHandle<B, JobPromise<S, J>>, NotStarted<S, J>>;

// The input of the thread of this job.
fn promise_of<S, J>(shared: &S, job: &J) -> JobPromise<S, J>
    ensures { (result.shared.value ≡ shared.now) × (result.job.value ≡ job.now) }
{
    JobPromise {
        shared: Snapshot::of(shared),
        job: Snapshot::of(job),
    }
}

/// Starts a thread for a job.
pub(crate) fn start_one<'s, E, R, S, B, J>(
    rt: &'s R,
    scope: &'s Scope<'s, E>,
    shared: &'s S,
    job: J,
) -> Started<S, B, J>
where
    R: Witness<S, B, J> + Wait + Sync,
    S: Sync,
    B: Send + Drop + 's,
    J: Job<S, B> + Send + Drop + 's,
    requires { J.may_run shared.now job }
    ensures { StartReports R.refused shared.now job result }
{
    let reported = promise_of(shared, &job);
    let promise = promise_of(shared, &job);
    match scope.spawn_with(promise, move || job.run(rt, shared)) {
        Ok(handle) => Ok(handle),
        Err(lost) => {
            rt.give_up(&reported, lost);
            Err(NotStarted { reported })
        }
    }
}
