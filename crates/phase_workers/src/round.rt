//! The workers of a phase, each but the first on a thread of its own, unless threads save no time;
//! and what they leave.
ghost use Rattle.std.specs.List.{AllByRecursion, AllZip};
ghost use Rattle.std.specs.Prelude.{◌≡◌, ◌≤◌, length, map, vec_len, vec_capacity, IfOk, IfErr, OnOk};
ghost use Rattle.job_threads.specs.Threads.{IsUnstarted};
ghost use Rattle.phase_workers.specs.Tasks.{task, tasks, CanBeDone, HasDoneTask, HasMetFault, IsFirstFault, IsReceiptFor};
ghost use Rattle.phase_workers.specs.Working.{IsPermitOf, ArePermitsOf};
ghost use Rattle.phase_workers.specs.inner.Answers.{done_by_all, receipt_in};

use crate::meeting::is_for_one_thread;
use crate::worker::{Gate, Post, perform_task};
use auction_rows::MOST_WORKERS;
use job_threads::{Job, JobFault, work_all, work_in_turn};
use phase_permits::{Kind, Permit, PermitFault, Receipt};
use shard_boxes::{Boxes, PhaseName};
use std::alloc::{AllocError, Global};
use std::sync::Wait;
use std::thread::Threads;
use std::vec::IntoIter;
use worker_journals::Script;

/// A phase, as its workers are told of it.
#[derive(Drop)]
pub struct Round<'a, G> {
    /// A script for each worker.
    pub scripts: &'a [Script],
    /// The index from which on each script is gone on with.
    pub first: u64,
    pub phase: u64,
    /// What is told of each request, before and after it.
    pub gate: &'a G,
}

/// What a worker gives at the end of a phase: the receipt of its permit, and the fault that stopped
/// it, if any.
#[derive(Drop)]
pub(crate) struct WorkerAnswer<T> {
    receipt: T,
    done: Result<(), PermitFault>,
}

/// A worker's task in a phase, with all that it takes to do it. Let go, its permit is spent.
pub(crate) struct WorkerTask<'a, N: PhaseName, K: Kind, R, G> {
    rt: &'a R,
    post: Post<'a, N, G>,
    permit: Permit<N, K>,
    script: &'a Script,
    first: usize,
}

impl<'a, N: PhaseName, K: Kind, R, G> Drop for WorkerTask<'a, N, K, R, G> {
    fn drop(self) {
        let Self {
            rt: _,
            post: _,
            permit,
            script: _,
            first: _,
        } = self;
        drop(permit.finish());
    }
}

impl<'a, N: PhaseName, K: Kind, R: Wait, G: Gate> Job for WorkerTask<'a, N, K, R, G> {
    type Answer = WorkerAnswer<Receipt<N, K>>;

    ghost can_work = { λ own.
        CanBeDone N.initial own.post.boxes.now (task own.permit own.script.now own.first)
        × IsPermitOf own.post.phase own.post.worker own.permit };

    ghost keeps = { λ own answer. OnOk answer.done (HasDoneTask K.IS_JOINED
        (task own.permit own.script.now own.first) answer.receipt)
        × IfErr answer.done (HasMetFault K.IS_JOINED N.initial
        (task own.permit own.script.now own.first) answer.receipt) };

    fn work(self) -> WorkerAnswer<Receipt<N, K>> {
        let WorkerTask {
            rt,
            post,
            mut permit,
            script,
            first,
        } = self;
        let done = perform_task(rt, &post, &mut permit, script, first);
        WorkerAnswer {
            receipt: permit.finish(),
            done,
        }
    }
}

/// Does the first worker's task of a round, and each other's by a thread of its own, or all in turn
/// if threads would save no time and the gate needs none, and gives their receipts in order, with
/// the fault of the least worker that met one. If a thread can't be started, or no memory is left
/// for tasks, threads or answers, there are no receipts; all threads have ended, and all permits are
/// spent.
pub fn serve_all<N, K, R, G>(
    rt: &R,
    alloc: Global,
    boxes: &Boxes<N>,
    permits: Vec<Permit<N, K>>,
    round: Round<'_, G>,
) -> Result<(Vec<Receipt<N, K>>, Result<(), PermitFault>), JobFault>
where
    N: PhaseName + Send + Sync,
    K: Kind + Send,
    R: Threads + Wait + Sync,
    G: Gate + Sync,
    requires workers { vec_len permits ≡ length round.scripts.now }
    requires few { length round.scripts.now ≤ MOST_WORKERS }
    requires can { AllByRecursion (CanBeDone N.initial boxes.now)
        (tasks permits.items round.scripts.now round.first) }
    requires of { ArePermitsOf round.phase 0 permits.items }
    ensures receipts { IfOk result (λ served. AllZip IsReceiptFor
        (tasks permits.items round.entry.scripts.now round.entry.first) served.0.items) }
    ensures done { IfOk result (λ served. OnOk served.1 (AllZip (HasDoneTask K.IS_JOINED)
        (tasks permits.items round.entry.scripts.now round.entry.first) served.0.items)) }
    ensures stopped { IfOk result (λ served. IfErr served.1 (IsFirstFault K.IS_JOINED N.initial
        (tasks permits.items round.entry.scripts.now round.entry.first) served.0.items)) }
    ensures fault { IfErr result (IsUnstarted (length round.entry.scripts.now)) }
{
    let in_turn = !round.gate.needs_threads()
        && is_for_one_thread(&permits, &round, boxes.shards());
    let own_tasks = own_tasks(rt, alloc, boxes, permits, round)?;
    let room = Vec::with_capacity(alloc, own_tasks.len())?;
    let answers = answers_of(rt, alloc, own_tasks, in_turn)?;
    Ok(receipts_of(answers, room))
}

// What jobs give that are done in turn, or else side by side.
fn answers_of<J: Job + Send, R: Threads + Wait + Sync>(
    rt: &R,
    alloc: Global,
    jobs: Vec<J>,
    in_turn: bool,
) -> Result<Vec<J::Answer>, JobFault>
where
    J::Answer: Send + Drop,
    requires { AllByRecursion J.can_work jobs.items }
    ensures answers { IfOk result (λ answers. AllZip J.keeps jobs.items answers.items) }
    ensures fault { IfErr result (IsUnstarted (length jobs.items)) }
{
    if in_turn {
        return Ok(work_in_turn(alloc, jobs)?);
    }
    work_all(rt, alloc, jobs)
}

// The task of each worker.
fn own_tasks<'a, N: PhaseName, K: Kind, R, G>(
    rt: &'a R,
    alloc: Global,
    boxes: &'a Boxes<N>,
    permits: Vec<Permit<N, K>>,
    round: Round<'a, G>,
) -> Result<Vec<WorkerTask<'a, N, K, R, G>>, AllocError>
    requires workers { vec_len permits ≡ length round.scripts.now }
    requires few { length round.scripts.now ≤ MOST_WORKERS }
    requires can { AllByRecursion (CanBeDone N.initial boxes.now)
        (tasks permits.items round.scripts.now round.first) }
    requires of { ArePermitsOf round.phase 0 permits.items }
    ensures can { IfOk result (λ made. AllByRecursion (λ own.
        CanBeDone N.initial own.post.boxes.now (task own.permit own.script.now own.first)
        × IsPermitOf own.post.phase own.post.worker own.permit) made.items) }
    ensures tasks { IfOk result (λ made.
        map (λ own. task own.permit own.script.now own.first) made.items
        ≡ tasks permits.items round.entry.scripts.now round.entry.first) }
{
    let mut permits = permits.into_iter();
    let Ok(mut made) = Vec::with_capacity(alloc, round.scripts.len()) else {
        spend_all(permits);
        return Err(AllocError);
    };
    while let Some(permit) = permits.next() {
        let worker = made.len();
        made.push_reserved(WorkerTask {
            rt,
            post: Post {
                boxes,
                gate: round.gate,
                phase: round.phase,
                worker: worker as u32,
            },
            permit,
            script: &round.scripts[worker],
            first: round.first as usize,
        });
    }
    permits.destroy_empty();
    Ok(made)
}

// Spends the permits that are left.
fn spend_all<N: PhaseName, K: Kind>(mut permits: IntoIter<Permit<N, K>>) {
    while let Some(permit) = permits.next() {
        drop(permit.finish());
    }
    permits.destroy_empty();
}

// The receipts, in order, and the first fault, if any.
fn receipts_of<T: Drop>(
    answers: Vec<WorkerAnswer<T>>,
    mut receipts: Vec<T>,
) -> (Vec<T>, Result<(), PermitFault>)
    requires empty { vec_len receipts ≡ 0 }
    requires room { vec_len answers ≤ vec_capacity receipts }
    ensures receipts { result.0.items ≡ map receipt_in answers.items }
    ensures done { result.1 ≡ done_by_all answers.items }
{
    let mut done = Ok(());
    for answer in answers {
        let WorkerAnswer { receipt, done: own } = answer;
        receipts.push_reserved(receipt);
        done = done.and(own);
    }
    (receipts, done)
}
