//! Runs of workers' scripts: joined and split phases in turn.
ghost use Rattle.std.specs.List.{AllByRecursion};
ghost use Rattle.std.specs.Prelude.{◌≡◌, ◌↔◌, ℕ, ◌+◌, ◌*◌, ◌<◌, ◌≤◌, List, length, IfOk, IfErr, IsTrue};
ghost use Rattle.split_engine.specs.{Faults.{IsRunFault}, Rules.{most_before, index_end}};
ghost use Rattle.split_engine.specs.Serving.{lists, total, AreScripts, IsOutcome};
ghost use Rattle.split_engine.specs.inner.Phases.{IsRunState, StandsSo, HasEnded, HasGoneOn, AreFresh, AllFinished};

use crate::application::{Application, Threaded};
use crate::fault::RunFault;
use crate::few::MOST_KEYS;
use crate::history::History;
use crate::joined::joined_phase;
use crate::phases::split_phase;
use crate::phasing::Phasing;
use crate::split::SplitPlan;
use crate::state::{Cursor, MOST_COMMITS, Outcome, RunState};
use std::alloc::{AllocError, Global};
use std::sync::Wait;
use std::thread::Threads;

/// How a run is divided into phases, and which keys are hot.
#[derive(Clone, Copy, PartialEq, Eq, Debug)]
pub struct Policy {
    /// How many requests of its script each worker is given in a joined phase, after those that
    /// were put off.
    pub joined_quota: usize,
    /// How many it is given in a split phase.
    pub split_quota: usize,
    /// How many times a joined and a split phase follow each other, before a last joined phase
    /// performs what is left.
    pub rounds: usize,
    /// How often splittable requests of a joined phase have to name a key for it to be hot in the
    /// split phase after it.
    pub threshold: u32,
}

// So many workers' cursors, each at the beginning of its script.
fn new_cursors<Q: Drop>(alloc: Global, workers: usize) -> Result<Vec<Cursor<Q>>, AllocError>
    ensures { IfOk result (λ cursors. (length cursors.items ≡ workers) × AreFresh cursors.items) }
{
    let mut cursors = Vec::with_capacity(alloc, workers)?;
    for _worker in 0..workers {
        cursors.push(Cursor {
            next: 0,
            stash: Vec::new(alloc),
        })?;
    }
    Ok(cursors)
}

// Whether all requests of all scripts are performed.
fn is_finished<Q>(scripts: &[Vec<Q>], cursors: &[Cursor<Q>]) -> bool
    requires len { length cursors.now ≡ length scripts.now }
    ensures { IsTrue result ↔ AllFinished (lists scripts.now) cursors.now }
{
    for (worker, script) in scripts.iter().enumerate() {
        let cursor = &cursors[worker];
        if cursor.next != script.len() {
            return false;
        }
        if !cursor.stash.is_empty() {
            return false;
        }
    }
    true
}

// Performs a joined and a split phase.
fn perform_round<A: Threaded, R: Threads + Wait + Sync>(
    rt: &R,
    alloc: Global,
    scripts: &[Vec<A::Request>],
    phasing: &mut Phasing,
    state: RunState<A>,
) -> Result<RunState<A>, RunFault>
    requires few { length scripts.now < index_end }
    requires total { total (lists scripts.now) ≤ MOST_COMMITS }
    requires hot { length phasing.old.hot.items ≡ length state.so_far.table.items }
    requires state { StandsSo A.rules A.fits (lists scripts.now)
        state.so_far.table.items state.so_far.history state.cursors.items }
    ensures hot { length phasing.new.hot.items ≡ length phasing.old.hot.items }
    ensures fault { IfErr result (IsRunFault (length scripts.now)) }
    ensures state { IfOk result (λ new. HasGoneOn A.rules A.fits (lists scripts.now)
        state.so_far.table.items state.so_far.history state.cursors.items
        new.so_far.table.items new.so_far.history new.cursors.items) }
{
    let mut state = state;
    joined_phase::<A>(scripts, phasing.policy.joined_quota, &mut state)?;
    phasing.choose::<A>(state.so_far.history.last())?;
    let plan = SplitPlan {
        hot: &phasing.hot,
        quota: phasing.policy.split_quota.min(MOST_COMMITS),
    };
    split_phase::<A, R>(rt, alloc, scripts, plan, state)
}

// What the run gives, once all scripts are performed.
fn finish<A: Application>(scripts: &[Vec<A::Request>], state: RunState<A>) -> Outcome<A>
    requires { AllFinished (lists scripts.now) state.cursors.items }
    ensures { (n : ℕ) (opened : List A.Record) →
        IsRunState A.rules A.fits n opened (lists scripts.now)
        state.so_far.table.items state.so_far.history state.cursors.items →
        HasEnded A.rules A.fits n opened (lists scripts.now) result.history result.table.items }
{
    let RunState {
        so_far,
        cursors: _,
        hints: _,
    } = state;
    so_far
}

/// Performs a script for each worker over a table, in joined and split phases in turn. The history
/// has each request of each script once, replays on one thread, and leaves the table.
///
/// `check_scripts` is the test of `scripts`. `fits`: each record is one that fewer than 2^31 acts
/// can make. A run may go on from the table that another has left, if both together are that short:
/// each commit is at most `MOST_KEYS` acts.
pub fn run<A: Threaded, R: Threads + Wait + Sync>(
    rt: &R,
    alloc: Global,
    table: Vec<A::Record>,
    scripts: &[Vec<A::Request>],
    policy: Policy,
) -> Result<Outcome<A>, RunFault>
    requires scripts { AreScripts A.rules (length table.items) (lists scripts.now) }
    requires fits { (n : ℕ) × (n < most_before) × AllByRecursion (A.fits n) table.items }
    ensures outcome { IfOk result (λ outcome. IsOutcome A.rules table.items (lists scripts.now)
        outcome.history outcome.table.items) }
    ensures fits { (n : ℕ) → n < most_before → AllByRecursion (A.fits n) table.items →
        IfOk result (λ outcome.
        AllByRecursion (A.fits (n + MOST_KEYS * length outcome.history)) outcome.table.items) }
    ensures count { IfOk result (λ outcome.
        length outcome.history ≡ total (lists scripts.now)) }
    ensures len { IfOk result (λ outcome. length outcome.table.items ≡ length table.items) }
    ensures fault { IfErr result (IsRunFault (length scripts.now)) }
{
    let mut phasing = Phasing::new(alloc, table.len(), policy)?;
    let cursors = new_cursors::<A::Request>(alloc, scripts.len())?;
    let mut state = RunState {
        so_far: Outcome {
            history: History::new(alloc),
            table,
        },
        cursors,
        hints: Vec::new(alloc),
    };
    for _round in 0..policy.rounds {
        if is_finished(scripts, &state.cursors) {
            return Ok(finish::<A>(scripts, state));
        }
        state = perform_round::<A, R>(rt, alloc, scripts, &mut phasing, state)?;
    }
    joined_phase::<A>(scripts, usize::MAX, &mut state)?;
    Ok(finish::<A>(scripts, state))
}
