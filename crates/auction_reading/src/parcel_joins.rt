//! Parcels of a text, joined in their order: the requests of each worker by a thread of its own.
ghost use Rattle.std.specs.Prelude.{ℕ, ◌≡◌, ◌<◌, ◌≤◌, ◌+◌, ◌^◌, ◌++◌, drop, length, take, List, IfOk, OnOk};
ghost use Rattle.std.specs.Thread.{IsSync};
ghost use Rattle.record_reading.specs.Reading.{HasNoInputFault};
ghost use Rattle.record_reading.specs.declared.inputs.TheConstants.{MOST_RECORDS};
ghost use Rattle.auction_reading.specs.inner.Parcels.{AreParcels, all_requests_of, but_requests, read_with_all, requests_of, scripts_with};
ghost use Rattle.auction_reading.specs.inner.Said.{HasRead, read_by};

use crate::joins::join_rows;
use crate::parcels::{LEAST_OF_A_THREAD, Parcel};
use crate::plain_text::Progress;
use record_reading::ReadFault;
use std::alloc::AllocError;
use std::thread::{Threads, join_mut};
use worker_journals::Script;

// Puts what a parcel asks of a worker at the end of its script.
fn add_requests(parcel: &Parcel, worker: usize, script: &mut Script) -> Result<(), AllocError>
    ensures { OnOk result (script.new ≡ script.old ++ requests_of worker parcel.now) }
{
    match parcel.progress.input.scripts.get(worker) {
        Some(requests) => script.append(requests),
        None => Ok(()),
    }
}

// Puts what parcels ask of a worker at the end of its script.
fn join_script(parcels: &[Parcel], worker: usize, script: &mut Script) -> Result<(), AllocError>
    ensures { OnOk result (script.new ≡ script.old ++ all_requests_of worker parcels.now) }
{
    for parcel in parcels {
        add_requests(parcel, worker, script)?;
    }
    Ok(())
}

// Puts what parcels ask of the workers from one on at the end of their scripts, one after the
// other.
fn join_in_turn(parcels: &[Parcel], first: usize, scripts: &mut [Script]) -> Result<(), AllocError>
    requires { first + length scripts.old < 2 ^ 64 }
    ensures { OnOk result (scripts.new ≡ scripts_with first scripts.old parcels.now) }
{
    let mut worker = first;
    for script in scripts.iter_mut() {
        join_script(parcels, worker, script)?;
        worker += 1;
    }
    Ok(())
}

// Does the same, each script but the last in a thread of its own.
#[cycle(joining)]
fn join_from<R: Threads + Sync>(
    rt: &R,
    parcels: &[Parcel],
    worker: usize,
    scripts: &mut [Script],
) -> Result<(), AllocError>
    requires { worker + length scripts.old < 2 ^ 64 }
    ensures { OnOk result (scripts.new ≡ scripts_with worker scripts.old parcels.now) }
{
    if scripts.len() < 2 {
        return join_in_turn(parcels, worker, scripts);
    }
    let next = worker + 1;
    let (first, rest) = scripts.split_at_mut(1);
    let mut one = || -> Result<(), AllocError>
        requires { worker + length first.now < 2 ^ 64 }
        ensures { OnOk result (first.exit.now
            ≡ scripts_with worker first.entry.now parcels.entry.now) }
    { join_in_turn(parcels, worker, first) };
    let mut others = || -> Result<(), AllocError>
        requires { IsSync R.row × (next + length rest.now < 2 ^ 64) }
        ensures { OnOk result (rest.exit.now
            ≡ scripts_with next rest.entry.now parcels.entry.now) }
    { join_from(rt, parcels, next, rest) };
    let (joined, all) = join_mut(rt, &mut one, &mut others);
    joined?;
    all?;
    Ok(())
}

// Puts what parcels of so many bytes ask of each worker at the end of its script, by threads if
// that is much.
fn join_requests<R: Threads + Sync>(
    rt: &R,
    parcels: &[Parcel],
    bytes: usize,
    scripts: &mut [Script],
) -> Result<(), AllocError>
    ensures { OnOk result (scripts.new ≡ scripts_with 0 scripts.old parcels.now) }
{
    if bytes / LEAST_OF_A_THREAD < scripts.len() {
        return join_in_turn(parcels, 0, scripts);
    }
    join_from(rt, parcels, 0, scripts)
}

// Adds what was read of parcels, but for their requests, as far as each begins where the one before
// it was read to. Returns how many parcels that are, and the place in the text up to which all was
// read then.
fn join_all_rows(progress: &mut Progress, parcels: &[Parcel]) -> Result<(usize, usize), ReadFault>
    requires { progress.old.count ≤ MOST_RECORDS }
    ensures many { IfOk result (λ p. p.0 ≤ length parcels.now) }
    ensures joins { IfOk result (λ p. read_by progress.new ≡ but_requests (read_by progress.old)
        (read_with_all (read_by progress.old) (take p.0 parcels.now))) }
    ensures within { IfOk result (λ p. (text : List ℕ) → AreParcels text parcels.now →
        p.1 ≤ length text) }
    ensures reads { IfOk result (λ p. (text : List ℕ) → AreParcels text parcels.now →
        HasRead (read_by progress.old) text
        (read_with_all (read_by progress.old) (take p.0 parcels.now)) (drop p.1 text)) }
    ensures fails { HasNoInputFault result }
{
    let mut many = 0;
    let mut at = 0;
    for parcel in parcels {
        let end = parcel.end_after(progress, at)?;
        let Some(to) = end else {
            return Ok((many, at));
        };
        join_rows(progress, &parcel.progress)?;
        many += 1;
        at = to;
    }
    Ok((many, at))
}

/// Adds what was read of the parcels of a text, as far as each begins where the one before it was
/// read to, and returns the place in the text up to which that is. How far that is, no clause says:
/// what is left is read by `csv`.
pub(crate) fn join_parcels<R: Threads + Sync>(
    rt: &R,
    progress: &mut Progress,
    parcels: &[Parcel],
) -> Result<usize, ReadFault>
    requires { progress.old.count ≤ MOST_RECORDS }
    ensures within { IfOk result (λ at. (text : List ℕ) → AreParcels text parcels.now →
        at ≤ length text) }
    ensures reads { IfOk result (λ at. (text : List ℕ) → AreParcels text parcels.now →
        HasRead (read_by progress.old) text (read_by progress.new) (drop at text)) }
    ensures fails { HasNoInputFault result }
{
    let (many, at) = join_all_rows(progress, parcels)?;
    let Ok(()) = join_requests(rt, &parcels[..many], at, &mut progress.input.scripts) else {
        return Err(ReadFault::Memory);
    };
    Ok(at)
}
