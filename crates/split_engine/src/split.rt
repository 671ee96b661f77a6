//! A worker's part of a split phase.
ghost use Rattle.std.specs.List.{zip, list_all, AllByRecursion};
ghost use Rattle.std.specs.Prelude.{◌≡◌, ℕ, ◌+◌, ◌*◌, ◌<◌, ◌≤◌, ◌++◌, ◌∷◌, [], List, true, length, IfOk, OnOk};
ghost use Rattle.split_engine.specs.Rules.{most_acts};
ghost use Rattle.split_engine.specs.Serial.{IsWithin, acts_at, decision, reply};
ghost use Rattle.split_engine.specs.Splitting.{after_slice_acts};
ghost use Rattle.split_engine.specs.inner.Assignments.{assignment, CanDo, HasDone};
ghost use Rattle.split_engine.specs.inner.Phases.{is_hot, is_taken, HasPerformedOnSlices, IsUnused};

use crate::application::Application;
use crate::entry::Entry;
use crate::few::{Few, MOST_KEYS};
use crate::hints::Hints;
use crate::looks::looks_at;
use crate::slices::Slices;
use crate::state::Cursor;
use job_threads::Job;
use std::alloc::{AllocError, Global};

/// What a split phase is to do.
#[derive(Clone, Copy)]
pub(crate) struct SplitPlan<'a> {
    /// Of each key, whether it is hot.
    pub(crate) hot: &'a [bool],
    /// How many requests of its script each worker is given.
    pub(crate) quota: usize,
}

/// A split phase, as its workers are told of it.
#[derive(Drop)]
pub(crate) struct SplitPhase<'a, A: Application> {
    /// The table as the phase opened: nobody changes it.
    pub(crate) table: &'a [A::Record],
    pub(crate) plan: SplitPlan<'a>,
}

/// A worker's own data in a split phase.
#[derive(Drop)]
pub(crate) struct SplitData<A: Application> {
    pub(crate) cursor: Cursor<A::Request>,
    pub(crate) journal: Vec<Entry<A::Request, A::Reply>>,
    pub(crate) slices: Slices<A>,
}

/// What a worker begins a split phase with, over so many records: no slice is kept.
pub(crate) fn begin<A: Application>(
    alloc: Global,
    size: usize,
    cursor: Cursor<A::Request>,
    hints: Hints,
) -> Result<SplitData<A>, AllocError>
    ensures unused { IfOk result (λ own. IsUnused A.rules size own.journal.items own.slices) }
    ensures cursor { IfOk result (λ own. own.cursor ≡ cursor) }
{
    let journal = Vec::with_capacity(alloc, hints.commits)?;
    let slices = Slices::new(alloc, size, hints.guesses, hints.slices)?;
    Ok(SplitData {
        cursor,
        journal,
        slices,
    })
}

// Does acts on the slices of keys, in their order.
fn act_all<A: Application>(
    slices: &mut Slices<A>,
    keys: &Few<u32>,
    acts: &Few<A::Act>,
) -> Result<(), AllocError>
    requires within { AllByRecursion (λ key. key < length slices.old) keys.now }
    requires fits { (n : ℕ) × (n + MOST_KEYS ≤ most_acts)
        × AllByRecursion (A.slice_fits n) slices.old }
    requires small { AllByRecursion A.is_small acts.now }
    requires splits { AllByRecursion (λ x. A.rules.is_splittable x ≡ true) acts.now }
    ensures few { length acts.now ≤ MOST_KEYS }
    ensures slices { OnOk result (slices.new
        ≡ after_slice_acts A.rules slices.old (zip keys.now acts.now)) }
{
    for place in 0..keys.len().min(acts.len()) {
        slices.act(keys.at(place), acts.at(place))?;
    }
    Ok(())
}

// Performs a request on slices: it sees the table as the phase opened.
fn perform<A: Application>(
    table: &[A::Record],
    slices: &mut Slices<A>,
    request: &A::Request,
) -> Result<A::Reply, AllocError>
    requires splits { A.rules.splits request.now ≡ true }
    requires within { IsWithin A.rules (length table.now) request.now }
    requires len { length slices.old ≡ length table.now }
    requires fits { (n : ℕ) × (n + MOST_KEYS ≤ most_acts)
        × AllByRecursion (A.slice_fits n) slices.old }
    ensures reply { IfOk result (λ answer. answer ≡ reply A.rules table.now request.now) }
    ensures few { length (decision A.rules table.now request.now).acts ≤ MOST_KEYS }
    ensures small { AllByRecursion A.is_small (decision A.rules table.now request.now).acts }
    ensures slices { OnOk result (slices.new
        ≡ after_slice_acts A.rules slices.old (acts_at A.rules table.now request.now)) }
{
    let keys = A::keys(request);
    let looks = looks_at::<A>(table, &keys);
    let decision = A::decide(request, &looks);
    act_all::<A>(slices, &keys, &decision.acts)?;
    Ok(decision.reply)
}

// Whether all of some keys are hot.
fn are_hot(hot: &[bool], keys: &Few<u32>) -> bool
    requires within { AllByRecursion (λ key. key < length hot.now) keys.now }
    ensures { result ≡ list_all (is_hot hot.now) keys.now }
{
    for key in keys.iter() {
        if !hot[key as usize] {
            return false;
        }
    }
    true
}

// Whether a request is performed in a split phase in which these keys are hot.
fn is_taken<A: Application>(hot: &[bool], request: &A::Request) -> bool
    requires within { IsWithin A.rules (length hot.now) request.now }
    ensures { result ≡ is_taken A.rules hot.now request.now }
{
    let keys = A::keys(request);
    A::splits(request) && are_hot(hot, &keys)
}

// Performs a request of a worker's script, or puts it off.
fn perform_or_put_off<A: Application>(
    phase: &SplitPhase<'_, A>,
    own: &mut SplitData<A>,
    worker: u32,
    index: u32,
    request: &A::Request,
) -> Result<(), AllocError>
    requires within { IsWithin A.rules (length phase.now.table.now) request.now }
    requires hot { length phase.now.plan.hot.now ≡ length phase.now.table.now }
    requires len { length own.old.slices ≡ length phase.now.table.now }
    requires fits { (n : ℕ) × (n + MOST_KEYS ≤ most_acts)
        × AllByRecursion (A.slice_fits n) own.old.slices }
    ensures few { OnOk result (length own.new.journal.items ≤ length own.old.journal.items + 1) }
    ensures next { own.new.cursor.next ≡ own.old.cursor.next }
    ensures done { OnOk result ((before all : List (ℕ × A.Request)) →
        HasPerformedOnSlices A.rules A.is_small phase.now.plan.hot.now phase.now.table.now worker
        all own.old.journal.items own.old.slices before own.old.cursor.stash.items →
        HasPerformedOnSlices A.rules A.is_small phase.now.plan.hot.now phase.now.table.now worker
        (all ++ (index, request.now) ∷ [])
        own.new.journal.items own.new.slices before own.new.cursor.stash.items) }
{
    if is_taken::<A>(phase.plan.hot, request) {
        let reply = perform::<A>(phase.table, &mut own.slices, request)?;
        own.journal.push(Entry {
            worker,
            index,
            request: *request,
            reply,
        })?;
        return Ok(());
    }
    own.cursor.stash.push((index, *request))?;
    Ok(())
}

/// Performs what the quota gives of a worker's script: what slices do not allow is put off.
pub(crate) fn perform_quota<A: Application>(
    phase: &SplitPhase<'_, A>,
    worker: u32,
    script: &[A::Request],
    start: SplitData<A>,
) -> Result<SplitData<A>, AllocError>
    requires { CanDo A.rules
        (assignment phase.now.table.now phase.now.plan.hot.now worker script.now
        phase.now.plan.quota start.cursor)
        start.journal.items start.slices }
    ensures { IfOk result (λ own. HasDone A.rules A.is_small
        (assignment phase.now.table.now phase.now.plan.hot.now worker script.now
        phase.now.plan.quota start.cursor)
        own.cursor own.journal.items own.slices) }
{
    let mut own = start;
    let from = own.cursor.next;
    let end = script.len().min(from.saturating_add(phase.plan.quota));
    for index in from..end {
        perform_or_put_off::<A>(phase, &mut own, worker, index as u32, &script[index])?;
    }
    own.cursor.next = end;
    Ok(own)
}

/// A worker's part of a split phase, for a thread.
#[derive(Drop)]
pub(crate) struct SplitTask<'a, A: Application> {
    pub(crate) phase: SplitPhase<'a, A>,
    pub(crate) worker: u32,
    pub(crate) script: &'a [A::Request],
    pub(crate) start: SplitData<A>,
}

impl<'a, A: Application> Job for SplitTask<'a, A> {
    ghost use Rattle.std.specs.Prelude.{IfOk};
    ghost use Rattle.split_engine.specs.inner.Assignments.{assignment, CanDo, HasDone};

    type Answer = Result<SplitData<A>, AllocError>;

    ghost can_work = { λ task. CanDo A.rules
        (assignment task.phase.table.now task.phase.plan.hot.now task.worker task.script.now
        task.phase.plan.quota task.start.cursor)
        task.start.journal.items task.start.slices };

    ghost keeps = { λ task answer. IfOk answer (λ own. HasDone A.rules A.is_small
        (assignment task.phase.table.now task.phase.plan.hot.now task.worker task.script.now
        task.phase.plan.quota task.start.cursor)
        own.cursor own.journal.items own.slices) };

    fn work(self) -> Result<SplitData<A>, AllocError> {
        let SplitTask {
            phase,
            worker,
            script,
            start,
        } = self;
        perform_quota::<A>(&phase, worker, script, start)
    }
}
