//! The course of a run: its phases, one after the other.
ghost use Rattle.std.specs.Prelude.{◌≡◌, ◌⊎◌, ◌↔◌, ℕ, ◌<◌, ◌++◌, ◌∷◌, true, false, List, [], length, IfOk, OnOk, IfErr, OnErr, IsTrue};
ghost use Rattle.run_laws.specs.Phases.{is_split};
ghost use Rattle.auction_rows.specs.{Book.{Book}, Choosing.{choose}};
ghost use Rattle.auction_rows.specs.declared.limits.Policy.{Policy as Rule};
ghost use Rattle.auction_rows.specs.declared.values.Opening.{Opening as Numbers};
ghost use Rattle.auction_rows.specs.declared.rows.Row.{Row as Stored};
ghost use Rattle.auction_rows.specs.History.{rows_of as stored_rows};
ghost use Rattle.worker_journals.specs.Merged.{merged};
ghost use Rattle.phase_boards.specs.Boards.{book_of, CanShow};
ghost use Rattle.run_phases.specs.Beginning.{BeginsWith, CannotBegin, CanShowRun, HasShards, HasQuotas};
ghost use Rattle.run_phases.specs.Boards.{HasShownAfter};
ghost use Rattle.run_phases.specs.{Outcomes.{HasShownFirstAfter, IsOutcome}, Phases.{IsMet}};
ghost use Rattle.run_phases.specs.inner.Plans.{waiting_in, AreAsked, IsNoneLeft, IsPlanOf, IsSomeLeft};
ghost use Rattle.run_phases.specs.inner.Running.{CanPerformNext, HasPerformedNext, IsRunning};

use crate::faults::RunFault;
use crate::phase::{Running, Workload, perform_phase};
use crate::plan::PhasePlan;
use auction_rows::{MOST_OF_A_WORKER, Object, Policy};
use hot_choice::choose_hot_after;
use indexmap::IndexSet;
use phase_boards::{Board, last_rows};
use phase_floor::Joined;
use phase_permits::Stash;
use phase_workers::Gate;
use std::alloc::{AllocError, Global};
use std::sync::Wait;
use std::thread::Threads;
use worker_journals::{History, Script, SharedScripts};

// Scripts have fewer phases.
const MOST_PHASES: u64 = 2 * MOST_OF_A_WORKER + 3;

/// What a run answers.
#[derive(Drop)]
pub struct Outcome {
    /// All commits, phase by phase, those of a phase by number and then worker.
    pub history: History,
    /// What was hot in each phase, the hottest first: nothing in a joined one.
    pub hot: Vec<IndexSet<Object>>,
    /// The auction after the last phase.
    pub state: Joined,
}

/// Performs the scripts in joined and split phases by turns, from a state with which a run of them
/// begins. A board is given the rows of each phase once it has closed; one that errs ends the run
/// with `Memory`. A fault gives no part of a history.
#[inline(always)]
pub fn run_from<R: Threads + Wait + Sync, G: Gate + Sync, B: Board>(
    rt: &R,
    alloc: Global,
    state: Joined,
    work: Workload<'_, G>,
    board: &mut B,
) -> Result<Outcome, RunFault>
    requires begins { ¬ CannotBegin state work.policy work.scripts.now }
    requires board { B.can_be_watched →
        CanShowRun B.has board.old state work.policy work.scripts.now }
    requires shards { HasShards work.policy }
    requires quotas { HasQuotas work.policy }
    ensures outcome { IfOk result (λ outcome. (book : Book) →
        BeginsWith state book work.entry.policy work.entry.scripts.now →
        IsOutcome state.opening book work.entry.policy work.entry.scripts.now outcome) }
    ensures board { IfOk result (λ outcome. (rows : Book) (before : List (List Stored)) →
        BeginsWith state (book_of rows before) work.entry.policy work.entry.scripts.now →
        B.has board.old state.opening rows before →
        HasShownAfter B.has state.opening rows before (length outcome.hot.items)
        outcome.history.entries board.new) }
    ensures board_after_fault { IfErr result (λ fault. (rows : Book) (before : List (List Stored)) →
        BeginsWith state (book_of rows before) work.entry.policy work.entry.scripts.now →
        B.has board.old state.opening rows before →
        HasShownFirstAfter B.has B.has_refused state.opening rows before work.entry.policy
        work.entry.scripts.now board.new fault) }
    ensures limit { IfOk result (λ outcome. outcome.state.limit ≡ state.limit) }
    ensures fault { IfErr result (IsMet work.entry.scripts.now) }
{
    let mut running = begin(alloc, state, work.scripts)?;
    for _phase in 0..MOST_PHASES {
        let plan = PhasePlan::new(&work, running.state.phase());
        if !is_left(work.scripts, &running.stashes, plan.round.first) {
            let Running {
                state,
                history,
                hot,
                stashes: _,
            } = running;
            return Ok(Outcome {
                history,
                hot,
                state,
            });
        }
        running = next_phase(rt, alloc, running, plan)?;
        show_phase(rt, alloc, board, &running.history)?;
    }
    unreachable!()
}

// A run before its first phase.
#[inline(always)]
fn begin(alloc: Global, state: Joined, scripts: &SharedScripts) -> Result<Running, AllocError>
    ensures running { IfOk result (λ running. (rows : Book) (policy : Rule) →
        BeginsWith state rows policy scripts.now →
        IsRunning state.opening rows policy scripts.now 0 running) }
    ensures asked { IfOk result (λ running. AreAsked scripts.now running.stashes.items) }
    ensures limit { IfOk result (λ running. running.state.limit ≡ state.limit) }
{
    Ok(Running {
        state,
        history: History::new(alloc),
        hot: Vec::new(alloc),
        stashes: no_stashes(alloc, scripts.as_slice().len())?,
    })
}

// So many stashes in which nothing waits.
fn no_stashes(alloc: Global, workers: usize) -> Result<Vec<Stash>, AllocError>
    ensures len { IfOk result (λ stashes. length stashes.items ≡ workers) }
    ensures empty { IfOk result (λ stashes. (worker : ℕ) → waiting_in stashes.items worker ≡ []) }
{
    let mut stashes = Vec::with_capacity(alloc, workers)?;
    for _worker in 0..workers {
        stashes.push(Stash::with_room(alloc, 0)?)?;
    }
    Ok(stashes)
}

// Whether a worker has a request or a stash left.
fn is_left(scripts: &SharedScripts, stashes: &[Stash], first: u64) -> bool
    requires { length stashes.now ≡ length scripts.now }
    ensures some { IsTrue result → IsSomeLeft scripts.now stashes.now first }
    ensures none { ¬ IsTrue result → IsNoneLeft scripts.now stashes.now first }
{
    is_left_of(scripts.as_slice(), stashes, first)
}

// The same of scripts that are lent.
fn is_left_of(scripts: &[Script], stashes: &[Stash], first: u64) -> bool
    requires { length stashes.now ≡ length scripts.now }
    ensures some { IsTrue result → IsSomeLeft scripts.now stashes.now first }
    ensures none { ¬ IsTrue result → IsNoneLeft scripts.now stashes.now first }
{
    for worker in 0..scripts.len() {
        if has_left(&scripts[worker], &stashes[worker], first) {
            return true;
        }
    }
    false
}

// Whether this worker has a request or a stash left.
fn has_left(script: &Script, stash: &Stash, first: u64) -> bool
    ensures { IsTrue result ↔ ((first < length script.now) ⊎ (0 < length stash.now.requests)) }
{
    script.len() as u64 > first || !stash.is_empty()
}

// One phase more, and its hot set.
#[inline(always)]
fn next_phase<R: Threads + Wait + Sync, G: Gate + Sync>(
    rt: &R,
    alloc: Global,
    running: Running,
    plan: PhasePlan<'_, G>,
) -> Result<Running, RunFault>
    requires plan { IsPlanOf plan running.state.phase }
    requires can { CanPerformNext plan.policy plan.round.scripts.now running }
    ensures performed { IfOk result (HasPerformedNext plan.entry.policy
        plan.entry.round.scripts.now running) }
    ensures fault { IfErr result (IsMet plan.entry.round.scripts.now) }
{
    let hot_now = next_hot(alloc, &running, plan.policy)?;
    let mut next = perform_phase(rt, alloc, running, &hot_now, plan)?;
    next.hot.push(hot_now)?;
    Ok(next)
}

// Gives a board the rows of the last phase.
fn show_phase<R: Wait, B: Board>(
    rt: &R,
    alloc: Global,
    board: &mut B,
    history: &History,
) -> Result<(), AllocError>
    requires { B.can_be_watched → CanShow B.has board.old (stored_rows (merged history.now.last)) }
    ensures shown { OnOk result (
        (opening : Numbers) (rows : Book) (phases : List (List Stored)) →
        B.has board.old opening rows phases →
        B.has board.new opening rows (phases ++ stored_rows (merged history.now.last) ∷ [])) }
    ensures refused { OnErr result (
        (opening : Numbers) (rows : Book) (phases : List (List Stored)) →
        B.has board.old opening rows phases →
        B.has board.new opening rows phases ⊎ B.has_refused board.new opening rows phases) }
{
    if !board.is_watched() {
        return Ok(());
    }
    let rows = last_rows(alloc, history)?;
    board.publish(rt, rows)
}

// The objects that are hot in the next phase.
fn next_hot(
    alloc: Global,
    running: &Running,
    policy: Policy,
) -> Result<IndexSet<Object>, AllocError>
    ensures joined { is_split running.now.state.phase ≡ false → IfOk result (λ hot. hot.keys ≡ []) }
    ensures split { is_split running.now.state.phase ≡ true → IfOk result (λ hot. hot.keys
        ≡ choose (merged running.now.history.last) policy.threshold policy.hot_max) }
{
    if running.state.phase() % 2 == 0 {
        return Ok(IndexSet::new(alloc));
    }
    choose_hot_after(alloc, &running.history, policy.threshold, policy.hot_max)
}
