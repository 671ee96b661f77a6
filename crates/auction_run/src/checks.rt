//! What is checked before a run begins, and why a run that goes on stops.
ghost use Rattle.std.specs.Prelude.{◌≡◌, ◌↔◌, ◌<◌, ◌≤◌, ℕ, length, slice_index, IsTrue, OnOk};
ghost use Rattle.item_shards.specs.{OpeningBooks.{rows_of_book}, OpeningRows.{rows_by}};
ghost use Rattle.run_laws.specs.Serving.{script_of};
ghost use Rattle.run_phases.specs.Beginning.{HaveWorkers, HasShards, HasQuotas, AreShort};
ghost use Rattle.auction_run.specs.Checks.{IsFirstToFail};
ghost use Rattle.auction_run.specs.GoingOn.{AreShortOn, HasScripts, IsCheckedOn, IsShortOn};

use crate::scripts::Scripts;
use auction_rows::{MOST_HOT, MOST_OF_A_WORKER, MOST_SHARDS, MOST_WORKERS, Policy, Row};
use item_shards::OpeningBook;
use phase_floor::Joined;
use run_phases::RunFault;
use std::alloc::AllocError;

/// Why a run that goes on from a state gives no outcome.
#[derive(Drop)]
pub enum Stopped {
    /// It did not begin: one of the first four faults was found. The state is given back as it was.
    Refused(Joined, RunFault),
    /// A phase met this fault. The state is gone.
    Failed(RunFault),
}

impl From<AllocError> for Stopped {
    ghost use Rattle.std.specs.Prelude.{◌≡◌};
    ghost use Rattle.run_phases.specs.declared.faults.RunFault.TheVariants.{Memory};
    ghost use Rattle.auction_run.specs.declared.checks.Stopped.TheVariants.{Failed};

    ghost from_gives = { λ _ stopped. stopped ≡ Failed Memory };

    fn from(_refused: AllocError) -> Stopped {
        Stopped::Failed(RunFault::Memory)
    }
}

impl From<RunFault> for Stopped {
    ghost use Rattle.std.specs.Prelude.{◌≡◌};
    ghost use Rattle.auction_run.specs.declared.checks.Stopped.TheVariants.{Failed};

    ghost from_gives = { λ fault stopped. stopped ≡ Failed fault };

    fn from(fault: RunFault) -> Stopped {
        Stopped::Failed(fault)
    }
}

/// Checks what a run is handed: the fault is that of the first that doesn't hold.
pub(crate) fn check<S: Scripts>(
    book: &OpeningBook,
    scripts: &S,
    policy: Policy,
) -> Result<(), RunFault>
    ensures { IsFirstToFail result (HaveWorkers (rows_of_book book.now) (S.asked scripts.now))
        (HasShards policy) (HasQuotas policy)
        (AreShort (rows_of_book book.now) (S.asked scripts.now)) }
{
    if !have_workers(book.rows(), scripts) {
        return Err(RunFault::Workers);
    }
    if !has_shards(policy) {
        return Err(RunFault::Shards);
    }
    if !has_quotas(policy) {
        return Err(RunFault::Quota);
    }
    if !are_short(book, scripts) {
        return Err(RunFault::TooLong);
    }
    Ok(())
}

/// Checks what a run that goes on from a state is handed: the fault is that of the first that
/// doesn't hold.
pub(crate) fn check_on<S: Scripts>(
    state: &Joined,
    scripts: &S,
    policy: Policy,
) -> Result<(), RunFault>
    ensures checked { IsCheckedOn result state.now policy (S.asked scripts.now) }
    ensures few { OnOk result (length (S.asked scripts.now) ≤ MOST_WORKERS) }
{
    if !has_scripts(state, scripts) {
        return Err(RunFault::Workers);
    }
    if policy.shards != state.shards() {
        return Err(RunFault::Shards);
    }
    if !has_quotas(policy) {
        return Err(RunFault::Quota);
    }
    if !are_short_on(state, scripts) {
        return Err(RunFault::TooLong);
    }
    Ok(())
}

// Whether there is a script for each worker of a state.
fn has_scripts<S: Scripts>(state: &Joined, scripts: &S) -> bool
    ensures are { IsTrue result ↔ HasScripts state.now (S.asked scripts.now) }
    ensures few { IsTrue result → length (S.asked scripts.now) ≤ MOST_WORKERS }
{
    scripts.workers() == state.workers() as usize
}

// Whether no script has more than 1,000,000 requests, and none with its worker's rows more than the
// state's limit.
fn are_short_on<S: Scripts>(state: &Joined, scripts: &S) -> bool
    requires { HasScripts state.now (S.asked scripts.now) }
    ensures { IsTrue result ↔ AreShortOn state.now (S.asked scripts.now) }
{
    for worker in 0..scripts.workers() {
        if !is_short_on(state, scripts, worker) {
            return false;
        }
    }
    true
}

// Whether a worker's script has no more than 1,000,000 requests, and with its rows no more than the
// state's limit.
fn is_short_on<S: Scripts>(state: &Joined, scripts: &S, worker: usize) -> bool
    requires { worker < length state.now.counters }
    ensures { IsTrue result ↔ IsShortOn state.now worker (script_of (S.asked scripts.now) worker) }
{
    let stored = u64::from(state.stored_by(worker));
    let asked = scripts.requests_of(worker) as u64;
    asked <= MOST_OF_A_WORKER && stored + asked <= state.limit()
}

// Whether there are 1 to 16 scripts, and each row is of a worker that has one.
fn have_workers<S: Scripts>(rows: &[Row], scripts: &S) -> bool
    ensures { IsTrue result ↔ HaveWorkers rows.now (S.asked scripts.now) }
{
    let workers = scripts.workers();
    if workers == 0 || workers > MOST_WORKERS {
        return false;
    }
    rows.iter().all(|row| (row.worker() as usize) < workers)
}

// Whether there are 1 to 64 shards.
fn has_shards(policy: Policy) -> bool
    ensures { IsTrue result ↔ HasShards policy }
{
    policy.shards > 0 && policy.shards as usize <= MOST_SHARDS
}

// Whether neither quota is 0, nor is the threshold, and at most 64 objects may be hot.
fn has_quotas(policy: Policy) -> bool
    ensures { IsTrue result ↔ HasQuotas policy }
{
    policy.joined_quota > 0
        && policy.split_quota > 0
        && policy.threshold > 0
        && policy.hot_max as usize <= MOST_HOT
}

// Whether no worker's rows and script have more than 1,000,000 together.
fn are_short<S: Scripts>(book: &OpeningBook, scripts: &S) -> bool
    requires { length (S.asked scripts.now) ≤ MOST_WORKERS }
    ensures { IsTrue result ↔ AreShort (rows_of_book book.now) (S.asked scripts.now) }
{
    let counts = rows_by_each(book.rows());
    for worker in 0..scripts.workers() {
        if scripts.requests_of(worker) > MOST_OF_A_WORKER as usize - counts[worker] {
            return false;
        }
    }
    true
}

// How many rows are of each worker below 16.
fn rows_by_each(rows: &[Row]) -> [usize; MOST_WORKERS]
    ensures { (worker : ℕ) → worker < MOST_WORKERS →
        slice_index result worker ≡ rows_by rows.now worker }
{
    let mut counts = [0; MOST_WORKERS];
    for row in rows {
        let worker = row.worker() as usize;
        if worker < MOST_WORKERS {
            counts[worker] += 1;
        }
    }
    counts
}
