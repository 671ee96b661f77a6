//! Split phases: the workers' parts, each on a thread, and what they leave taken in.
ghost use Rattle.std.specs.List.{AllByRecursion, AllZip};
ghost use Rattle.std.specs.Prelude.{◌≡◌, ℕ, ◌+◌, ◌*◌, ◌<◌, ◌≤◌, ◌++◌, ◌∷◌, [], List, length, map, IfOk, IfErr};
ghost use Rattle.split_engine.specs.Faults.{IsRunFault};
ghost use Rattle.split_engine.specs.Rules.{most_acts, most_before, index_end};
ghost use Rattle.split_engine.specs.{Serving.{lists, total, IsScript}, Splitting.{merged_all}};
ghost use Rattle.split_engine.specs.inner.Assignments.{Assignment, assignment, assignments, all_left, CanDo, HasDone, HasClosed};
ghost use Rattle.split_engine.specs.inner.Phases.{HaveServed, StandsSo, HasGoneOn};
ghost use Rattle.split_engine.specs.declared.entry.Entry.{Entry as Commit};

use crate::application::{Application, Threaded};
use crate::fault::RunFault;
use crate::few::MOST_KEYS;
use crate::hints::{Hints, room_after};
use crate::split::{SplitData, SplitPhase, SplitPlan, SplitTask, begin};
use crate::state::{Cursor, MOST_COMMITS, Outcome, RunState};
use job_threads::work_all;
use std::alloc::{AllocError, Global};
use std::sync::Wait;
use std::thread::Threads;

// Each worker's task.
fn tasks<'a, A: Application>(
    alloc: Global,
    phase: SplitPhase<'a, A>,
    scripts: &'a [Vec<A::Request>],
    cursors: Vec<Cursor<A::Request>>,
    hints: Vec<Hints>,
) -> Result<Vec<SplitTask<'a, A>>, AllocError>
    requires few { length scripts.now < index_end }
    requires quota { MOST_KEYS * phase.plan.quota < most_acts }
    requires hot { length phase.plan.hot.now ≡ length phase.table.now }
    requires scripts { AllByRecursion (IsScript A.rules (length phase.table.now))
        (lists scripts.now) }
    requires served { (history : List (Commit A.Request A.Reply))
        × HaveServed A.rules (length phase.table.now) 0 (lists scripts.now) cursors.items history }
    ensures can { IfOk result (λ made. AllByRecursion (λ task. CanDo A.rules
        (assignment task.phase.table.now task.phase.plan.hot.now task.worker task.script.now
        task.phase.plan.quota task.start.cursor)
        task.start.journal.items task.start.slices) made.items) }
    ensures len { IfOk result (λ made. length made.items ≡ length scripts.now) }
    ensures tasks { IfOk result (λ made. map (λ task.
        assignment task.phase.table.now task.phase.plan.hot.now task.worker task.script.now
        task.phase.plan.quota task.start.cursor) made.items
        ≡ assignments phase.entry.table.now phase.entry.plan.hot.now phase.entry.plan.quota 0
        (lists scripts.now) cursors.items) }
{
    let mut made = Vec::with_capacity(alloc, scripts.len())?;
    let mut hints = hints.into_iter();
    for ((worker, script), cursor) in scripts.iter().enumerate().zip(cursors) {
        made.push(SplitTask {
            phase: SplitPhase {
                table: phase.table,
                plan: phase.plan,
            },
            worker: worker as u32,
            script,
            start: begin::<A>(
                alloc,
                phase.table.len(),
                cursor,
                hints.next().unwrap_or(Hints::none(alloc)),
            )?,
        })?;
    }
    Ok(made)
}

// Takes in what a worker did: merges its slices.
fn take_in<A: Application>(state: RunState<A>, own: SplitData<A>) -> Result<RunState<A>, AllocError>
    requires done { (given : Assignment A.Record A.Request)
        × (length given.table ≡ length state.so_far.table.items)
        × HasDone A.rules A.is_small given own.cursor own.journal.items own.slices }
    requires room { length state.so_far.history + length own.journal.items ≤ MOST_COMMITS }
    requires fits { (n : ℕ) × (n < most_before)
        × AllByRecursion (A.fits (n + MOST_KEYS * length state.so_far.history))
        state.so_far.table.items }
    ensures table { IfOk result (λ new.
        new.so_far.table.items ≡ merged_all A.rules state.so_far.table.items own.slices) }
    ensures history { IfOk result (λ new.
        new.so_far.history ≡ state.so_far.history ++ own.journal.items) }
    ensures cursors { IfOk result (λ new.
        new.cursors.items ≡ state.cursors.items ++ own.cursor ∷ []) }
    ensures fits { (n : ℕ) →
        AllByRecursion (A.fits (n + MOST_KEYS * length state.so_far.history))
        state.so_far.table.items →
        IfOk result (λ new. AllByRecursion (A.fits (n + MOST_KEYS * length new.so_far.history))
        new.so_far.table.items) }
{
    let RunState {
        so_far,
        mut cursors,
        mut hints,
    } = state;
    let Outcome {
        mut history,
        mut table,
    } = so_far;
    let SplitData {
        cursor,
        journal,
        slices,
    } = own;
    let commits = room_after(journal.len());
    let kept = room_after(slices.count());
    let guesses = slices.merge_into(&mut table);
    hints.push(Hints {
        guesses,
        commits,
        slices: kept,
    })?;
    history.add(journal)?;
    cursors.push(cursor)?;
    Ok(RunState {
        so_far: Outcome { history, table },
        cursors,
        hints,
    })
}

// Takes in what all workers did.
fn take_in_all<A: Application>(
    alloc: Global,
    so_far: Outcome<A>,
    answers: Vec<Result<SplitData<A>, AllocError>>,
) -> Result<RunState<A>, AllocError>
    requires fits { (n : ℕ) × (n < most_before)
        × AllByRecursion (A.fits (n + MOST_KEYS * length so_far.history)) so_far.table.items }
    requires done { (given : List (Assignment A.Record A.Request))
        × (length so_far.history + all_left given ≤ MOST_COMMITS)
        × AllByRecursion (λ a. a.cursor.next ≤ length a.script) given
        × AllByRecursion (λ a. a.table ≡ so_far.table.items) given
        × AllZip (λ a answer. IfOk answer (λ own.
        HasDone A.rules A.is_small a own.cursor own.journal.items own.slices))
        given answers.items }
    ensures { (given : List (Assignment A.Record A.Request)) →
        AllByRecursion (λ a. a.cursor.next ≤ length a.script) given →
        AllByRecursion (λ a. a.table ≡ so_far.table.items) given →
        AllZip (λ a answer. IfOk answer (λ own.
        HasDone A.rules A.is_small a own.cursor own.journal.items own.slices))
        given answers.items →
        IfOk result (λ state. HasClosed A.rules A.is_small A.fits given
        so_far.table.items so_far.history
        state.so_far.table.items state.so_far.history state.cursors.items) }
{
    let cursors = Vec::with_capacity(alloc, answers.len())?;
    let mut state = RunState {
        so_far,
        cursors,
        hints: Vec::new(alloc),
    };
    for answer in answers {
        state = take_in::<A>(state, answer?)?;
    }
    Ok(state)
}

/// Performs a split phase: each worker's part on a thread of its own, but the first worker's.
pub(crate) fn split_phase<A: Threaded, R: Threads + Wait + Sync>(
    rt: &R,
    alloc: Global,
    scripts: &[Vec<A::Request>],
    plan: SplitPlan<'_>,
    state: RunState<A>,
) -> Result<RunState<A>, RunFault>
    requires few { length scripts.now < index_end }
    requires quota { MOST_KEYS * plan.quota < most_acts }
    requires hot { length plan.hot.now ≡ length state.so_far.table.items }
    requires total { total (lists scripts.now) ≤ MOST_COMMITS }
    requires state { StandsSo A.rules A.fits (lists scripts.now)
        state.so_far.table.items state.so_far.history state.cursors.items }
    ensures fault { IfErr result (IsRunFault (length scripts.now)) }
    ensures state { IfOk result (λ new. HasGoneOn A.rules A.fits (lists scripts.now)
        state.so_far.table.items state.so_far.history state.cursors.items
        new.so_far.table.items new.so_far.history new.cursors.items) }
{
    let RunState {
        so_far,
        cursors,
        hints,
    } = state;
    let phase = SplitPhase {
        table: &so_far.table,
        plan,
    };
    let tasks = tasks::<A>(alloc, phase, scripts, cursors, hints)?;
    let answers = work_all(rt, alloc, tasks)?;
    Ok(take_in_all::<A>(alloc, so_far, answers)?)
}
