//! Joined phases: requests are performed on the table itself, worker after worker.
ghost use Rattle.std.specs.List.{zip, AllByRecursion};
ghost use Rattle.std.specs.Prelude.{◌≡◌, ◌++◌, ◌∷◌, [], ℕ, suc, ◌+◌, ◌*◌, ◌<◌, ◌≤◌, List, length, OnOk};
ghost use Rattle.split_engine.specs.Rules.{most_acts, most_before, index_end};
ghost use Rattle.split_engine.specs.Serial.{IsWithin, after_act, after_acts, next, reply};
ghost use Rattle.split_engine.specs.{Serving.{lists, total, IsScript}, inner.Commits.{commit}};
ghost use Rattle.split_engine.specs.inner.Phases.{HasPerformed, HasServed, HasStashed, HasTurned, StandsSo, HasGoneOn, AllFinished};
ghost use Rattle.split_engine.specs.declared.entry.Entry.{Entry as Commit};

use crate::application::Application;
use crate::entry::Entry;
use crate::few::{Few, MOST_KEYS};
use crate::looks::looks_at;
use crate::state::{Cursor, MOST_COMMITS, Outcome, RunState};
use std::alloc::AllocError;

// Does an act on the record at a key.
fn act_on<A: Application>(table: &mut Vec<A::Record>, key: u32, act: A::Act)
    requires within { key < length table.old.items }
    requires fits { (n : ℕ) × (n < most_acts) × AllByRecursion (A.fits n) table.old.items }
    requires small { A.is_small act }
    ensures table { table.new.items ≡ after_act A.rules table.old.items key act }
    ensures fits { (n : ℕ) → AllByRecursion (A.fits n) table.old.items →
        AllByRecursion (A.fits (suc n)) table.new.items }
{
    A::apply(&mut table[key as usize], act);
}

// Does acts on the records at keys, in their order.
fn act_all<A: Application>(table: &mut Vec<A::Record>, keys: &Few<u32>, acts: &Few<A::Act>)
    requires within { AllByRecursion (λ key. key < length table.old.items) keys.now }
    requires fits { (n : ℕ) × (n + MOST_KEYS ≤ most_acts)
        × AllByRecursion (A.fits n) table.old.items }
    requires small { AllByRecursion A.is_small acts.now }
    ensures table { table.new.items
        ≡ after_acts A.rules table.old.items (zip keys.now acts.now) }
    ensures fits { (n : ℕ) → AllByRecursion (A.fits n) table.old.items →
        AllByRecursion (A.fits (n + MOST_KEYS)) table.new.items }
{
    for place in 0..keys.len().min(acts.len()) {
        act_on::<A>(table, keys.at(place), acts.at(place));
    }
}

/// Performs a request on a table, as one thread does that performs one request after the other.
pub fn perform<A: Application>(table: &mut Vec<A::Record>, request: &A::Request) -> A::Reply
    requires within { IsWithin A.rules (length table.old.items) request.now }
    requires fits { (n : ℕ) × (n + MOST_KEYS ≤ most_acts)
        × AllByRecursion (A.fits n) table.old.items }
    ensures reply { result ≡ reply A.rules table.old.items request.now }
    ensures table { table.new.items ≡ next A.rules table.old.items request.now }
    ensures fits { (n : ℕ) → AllByRecursion (A.fits n) table.old.items →
        AllByRecursion (A.fits (n + MOST_KEYS)) table.new.items }
{
    let keys = A::keys(request);
    let looks = looks_at::<A>(table, &keys);
    let decision = A::decide(request, &looks);
    act_all::<A>(table, &keys, &decision.acts);
    decision.reply
}

// Performs a request of a worker's script: one more commit in the history.
fn perform_call<A: Application>(
    so_far: &mut Outcome<A>,
    worker: u32,
    call: &(u32, A::Request),
) -> Result<(), AllocError>
    requires within { IsWithin A.rules (length so_far.old.table.items) call.now.1 }
    requires fits { (n : ℕ) × (n + MOST_KEYS ≤ most_acts)
        × AllByRecursion (A.fits n) so_far.old.table.items }
    ensures history { OnOk result (so_far.new.history ≡ so_far.old.history
        ++ commit worker call.now (reply A.rules so_far.old.table.items call.now.1) ∷ []) }
    ensures table { so_far.new.table.items ≡ next A.rules so_far.old.table.items call.now.1 }
    ensures fits { (n : ℕ) → AllByRecursion (A.fits n) so_far.old.table.items →
        AllByRecursion (A.fits (n + MOST_KEYS)) so_far.new.table.items }
{
    let (index, request) = *call;
    let reply = perform::<A>(&mut so_far.table, &request);
    so_far.history.push(Entry {
        worker,
        index,
        request,
        reply,
    })?;
    Ok(())
}

// Performs requests of a worker's script, in their order: more commits in the history.
fn perform_all<A: Application>(
    so_far: &mut Outcome<A>,
    worker: u32,
    calls: &[(u32, A::Request)],
) -> Result<(), AllocError>
    requires within { AllByRecursion (λ call.
        IsWithin A.rules (length so_far.old.table.items) call.1) calls.now }
    requires fits { (n : ℕ) × (n + MOST_KEYS * length calls.now < most_acts)
        × AllByRecursion (A.fits n) so_far.old.table.items }
    ensures performed { OnOk result ((more : List (Commit A.Request A.Reply))
        × (so_far.new.history ≡ so_far.old.history ++ more)
        × HasPerformed A.rules worker calls.now
        so_far.old.table.items so_far.new.table.items more) }
    ensures same { length so_far.new.table.items ≡ length so_far.old.table.items }
    ensures fits { (n : ℕ) → AllByRecursion (A.fits n) so_far.old.table.items →
        OnOk result
        (AllByRecursion (A.fits (n + MOST_KEYS * length calls.now)) so_far.new.table.items) }
{
    for call in calls {
        perform_call::<A>(so_far, worker, call)?;
    }
    Ok(())
}

// Puts so many more requests of a script into the stash.
fn stash_quota<A: Application>(
    script: &[A::Request],
    quota: usize,
    cursor: &mut Cursor<A::Request>,
) -> Result<(), AllocError>
    requires short { length script.now < index_end }
    requires next { cursor.old.next ≤ length script.now }
    ensures stashed { OnOk result (HasStashed script.now cursor.old cursor.new) }
    ensures ends { OnOk result (most_acts ≤ quota → cursor.new.next ≡ length script.now) }
{
    let from = cursor.next;
    let end = script.len().min(from.saturating_add(quota));
    for index in from..end {
        cursor.stash.push((index as u32, script[index]))?;
    }
    cursor.next = end;
    Ok(())
}

// A worker's turn in a joined phase: what was put off, then what the quota gives of its script.
fn take_turn<A: Application>(
    so_far: &mut Outcome<A>,
    worker: u32,
    script: &[A::Request],
    quota: usize,
    cursor: &mut Cursor<A::Request>,
) -> Result<(), AllocError>
    requires script { IsScript A.rules (length so_far.old.table.items) script.now }
    requires served { HasServed A.rules (length so_far.old.table.items) worker script.now
        cursor.old so_far.old.history }
    requires fits { (n : ℕ) × (n < most_before)
        × AllByRecursion (A.fits (n + MOST_KEYS * length so_far.old.history))
        so_far.old.table.items }
    requires room { length so_far.old.history + length cursor.old.stash.items
        + length script.now ≤ MOST_COMMITS + cursor.old.next }
    ensures turned { OnOk result (HasTurned A.rules A.fits worker script.now
        so_far.old.table.items so_far.old.history
        so_far.new.table.items so_far.new.history cursor.new) }
    ensures ends { OnOk result (most_acts ≤ quota →
        (cursor.new.next ≡ length script.now) × (cursor.new.stash.items ≡ [])) }
{
    stash_quota::<A>(script, quota, cursor)?;
    perform_all::<A>(so_far, worker, &cursor.stash)?;
    cursor.stash.clear();
    Ok(())
}

// How many requests the workers' turns perform.
fn count_calls<Q>(scripts: &[Vec<Q>], quota: usize, cursors: &[Cursor<Q>]) -> usize {
    let mut count: usize = 0;
    for (script, cursor) in scripts.iter().zip(cursors) {
        let left = script.len().saturating_sub(cursor.next).min(quota);
        count = count
            .saturating_add(cursor.stash.len())
            .saturating_add(left);
    }
    count
}

/// Performs a joined phase: each worker's turn.
pub(crate) fn joined_phase<A: Application>(
    scripts: &[Vec<A::Request>],
    quota: usize,
    state: &mut RunState<A>,
) -> Result<(), AllocError>
    requires few { length scripts.now < index_end }
    requires total { total (lists scripts.now) ≤ MOST_COMMITS }
    requires state { StandsSo A.rules A.fits (lists scripts.now)
        state.old.so_far.table.items state.old.so_far.history state.old.cursors.items }
    ensures ends { OnOk result (most_acts ≤ quota →
        AllFinished (lists scripts.now) state.new.cursors.items) }
    ensures state { OnOk result (HasGoneOn A.rules A.fits (lists scripts.now)
        state.old.so_far.table.items state.old.so_far.history state.old.cursors.items
        state.new.so_far.table.items state.new.so_far.history state.new.cursors.items) }
{
    let calls = count_calls(scripts, quota, &state.cursors);
    state.so_far.history.open(calls)?;
    for (worker, script) in scripts.iter().enumerate() {
        take_turn::<A>(
            &mut state.so_far,
            worker as u32,
            script,
            quota,
            &mut state.cursors[worker],
        )?;
    }
    Ok(())
}
