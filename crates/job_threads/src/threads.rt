//! Jobs done side by side by threads, or in turn by one.
ghost use Rattle.std.specs.List.{AllByRecursion, AllZip};
ghost use Rattle.std.specs.Prelude.{◌≡◌, ◌≤◌, ◌+◌, ◌++◌, List, length, map, vec_len, vec_capacity, IfOk, IfErr};
ghost use Rattle.job_threads.specs.{Threads.{IsUnstarted}, inner.Handles.{job_of}};

use crate::fault::JobFault;
use std::alloc::{AllocError, Global};
use std::snapshot::Snapshot;
use std::sync::Wait;
use std::thread;
use std::thread::{Promise, PromisedHandle, Scope, Threads};

/// What a thread does. A job that is let go is not done.
pub trait Job: Drop {
    /// What it gives.
    type Answer;

    /// What it takes.
    ghost can_work: { Self → Type 0 };

    /// What has to hold of the answer.
    ghost keeps: { Self → Self.Answer → Type 0 };

    /// Does it.
    fn work(self) -> Self::Answer
        requires { can_work self }
        ensures { keeps self result };
}

/// A thread's promise: its answer is one of its job.
#[derive(Drop)]
pub(crate) struct JobPromise<J> {
    job: Snapshot<J>,
}

impl<J: Job> Promise<J::Answer> for JobPromise<J> {
    ghost kept_by = { λ promise answer. J.keeps promise.job.value answer };
}

/// Does the first job on the thread that calls, and each other by a thread of its own; it waits for
/// them all. All memory is asked for before a thread is started. If one can't be started,
/// whatever the cause, it, those after it and the first are let go.
pub fn work_all<J: Job + Send, R: Threads + Wait + Sync>(
    rt: &R,
    alloc: Global,
    jobs: Vec<J>,
) -> Result<Vec<J::Answer>, JobFault>
where
    J::Answer: Send + Drop,
    requires { AllByRecursion J.can_work jobs.items }
    ensures answers { IfOk result (λ answers. AllZip J.keeps jobs.items answers.items) }
    ensures fault { IfErr result (IsUnstarted (length jobs.items)) }
{
    let room = Vec::with_capacity(alloc, jobs.len())?;
    thread::scope(
        thread::scope_env(),
        rt,
        move |scope| -> Result<Vec<J::Answer>, JobFault>
            requires can { AllByRecursion J.can_work jobs.items }
            requires room { (vec_len room ≡ 0) × (length jobs.items ≤ vec_capacity room) }
            ensures answers { IfOk result (λ answers. AllZip J.keeps jobs.items answers.items) }
            ensures fault { IfErr result (IsUnstarted (length jobs.items)) }
        { work_in(scope, rt, alloc, jobs, room) },
    )
}

/// Does the jobs on the thread that calls, one after the other. All memory is asked for before the
/// first is done.
pub fn work_in_turn<J: Job>(alloc: Global, jobs: Vec<J>) -> Result<Vec<J::Answer>, AllocError>
where
    J::Answer: Drop,
    requires { AllByRecursion J.can_work jobs.items }
    ensures { IfOk result (λ answers. AllZip J.keeps jobs.items answers.items) }
{
    let mut answers = Vec::with_capacity(alloc, jobs.len())?;
    for job in jobs {
        answers.push_reserved(job.work());
    }
    Ok(answers)
}

// The first job, with a thread in a scope for each other.
fn work_in<'s, E: 's, J: Job + Send + 's, R: Threads>(
    scope: &Scope<'s, E>,
    rt: &R,
    alloc: Global,
    mut jobs: Vec<J>,
    mut answers: Vec<J::Answer>,
) -> Result<Vec<J::Answer>, JobFault>
where
    J::Answer: Send + Drop + 's,
    requires can { AllByRecursion J.can_work jobs.items }
    requires room { (vec_len answers ≡ 0) × (length jobs.items ≤ vec_capacity answers) }
    ensures answers { IfOk result (λ answers. AllZip J.keeps jobs.items answers.items) }
    ensures fault { IfErr result (IsUnstarted (length jobs.items)) }
{
    if jobs.is_empty() {
        return Ok(answers);
    }
    let first = jobs.remove(0);
    let handles = start_all(scope, alloc, jobs)?;
    answers.push_reserved(first.work());
    Ok(join_all(rt, handles, answers))
}

// A thread for each job.
fn start_all<'s, E: 's, J: Job + Send + 's>(
    scope: &Scope<'s, E>,
    alloc: Global,
    jobs: Vec<J>,
) -> Result<Vec<PromisedHandle<J::Answer, JobPromise<J>>>, JobFault>
where
    J::Answer: Send + Drop + 's,
    requires { AllByRecursion J.can_work jobs.items }
    ensures started { IfOk result (λ handles. map job_of handles.items ≡ jobs.items) }
    ensures fault { IfErr result (IsUnstarted (length jobs.items + 1)) }
{
    let mut handles = Vec::with_capacity(alloc, jobs.len())?;
    for job in jobs {
        let promise = JobPromise {
            job: Snapshot::of(&job),
        };
        let Ok(handle) = scope.spawn_with(
            promise,
            move || -> J::Answer
                requires { J.can_work job }
                ensures { J.keeps job result }
            { job.work() },
        ) else {
            return Err(JobFault::Spawn);
        };
        handles.push_reserved(handle);
    }
    Ok(handles)
}

// The answers so far, and what each thread gives, in order.
fn join_all<J: Job, R: Threads>(
    rt: &R,
    handles: Vec<PromisedHandle<J::Answer, JobPromise<J>>>,
    mut answers: Vec<J::Answer>,
) -> Vec<J::Answer>
where
    J::Answer: Drop,
    requires room { vec_len answers + vec_len handles ≤ vec_capacity answers }
    ensures { (done : List J) → AllZip J.keeps done answers.items →
        AllZip J.keeps (done ++ map job_of handles.items) result.items }
{
    for handle in handles {
        answers.push_reserved(handle.join(rt));
    }
    answers
}
