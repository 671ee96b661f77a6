//! The choice of the objects that the next split phase splits.
ghost use Rattle.std.specs.List.{IsDistinct};
ghost use Rattle.std.specs.Prelude.{◌≡◌, ℕ, suc, ◌+◌, ◌<◌, List, Some, IfOk, OnOk, map, slice_index, take, unwrap_or};
ghost use Rattle.indexmap.specs.IndexMap.{get, IsUnique, Updates};
ghost use Rattle.auction_rows.specs.{Choosing.{choose}, Requests.{same_object}};
ghost use Rattle.auction_rows.specs.declared.rows.Entry.{Entry as Committed};
ghost use Rattle.worker_journals.specs.Merged.{merged};
ghost use Rattle.hot_choice.specs.inner.Ranking.{HasHeats, IsRanking, bucket_of, in_bucket};
ghost use Rattle.hot_choice.specs.inner.Runs.{AreWritten, objects_of};

use crate::runs::{Run, objects_written, objects_written_last};
use auction_rows::{Entry, Object, shard_of};
use indexmap::{IndexMap, IndexSet};
use std::alloc::{AllocError, Global};
use std::cmp::Reverse;
use worker_journals::History;

// How many buckets objects are counted by.
const BUCKETS: usize = 256;

/// Chooses the objects that at least `threshold` accepted splittable stores of these entries write,
/// and at least one: those with most first, equally hot ones in the order of objects, and at most
/// `hot_max` of them. Here only tests call it: a run chooses by its history (`choose_hot_after`).
pub fn choose_hot(
    alloc: Global,
    entries: &[Entry],
    threshold: u32,
    hot_max: u32,
) -> Result<IndexSet<Object>, AllocError>
    ensures { IfOk result (λ hot. hot.keys ≡ choose entries.now threshold hot_max) }
{
    let runs = objects_written(alloc, entries)?;
    hottest(alloc, &runs, threshold, hot_max)
}

/// Chooses by the entries of a history's last phase, of which none is made whole.
pub fn choose_hot_after(
    alloc: Global,
    history: &History,
    threshold: u32,
    hot_max: u32,
) -> Result<IndexSet<Object>, AllocError>
    ensures { IfOk result (λ hot. hot.keys ≡ choose (merged history.now.last) threshold hot_max) }
{
    if hot_max == 0 {
        return Ok(IndexSet::new(alloc));
    }
    let runs = objects_written_last(alloc, history)?;
    hottest(alloc, &runs, threshold, hot_max)
}

/// An object with its heat, in the order in which objects are chosen: a hotter one first, and of
/// equally hot ones the first in the order of objects.
#[derive(PartialEq, Eq, PartialOrd, Ord, Drop)]
struct Candidate {
    heat: Reverse<u64>,
    object: Object,
}

/// The hottest of the objects that some entries write.
fn hottest(
    alloc: Global,
    runs: &[Run],
    threshold: u32,
    hot_max: u32,
) -> Result<IndexSet<Object>, AllocError>
    ensures { IfOk result (λ hot. (entries : List Committed) →
        AreWritten entries (objects_of runs.now) →
        hot.keys ≡ choose entries threshold hot_max) }
{
    let heats = heats(alloc, runs, threshold)?;
    let candidates = candidates(alloc, &heats, threshold)?;
    first_of(alloc, &candidates, hot_max)
}

/// The objects that may be hot enough, each with its heat. One whose bucket has too few objects is
/// not hot enough, and is not put into the table: that saves its hash.
fn heats(alloc: Global, runs: &[Run], threshold: u32) -> Result<IndexMap<Object, u64>, AllocError>
    ensures { IfOk result (λ heats. HasHeats (objects_of runs.now) threshold heats.entries) }
{
    let counts = count_by_bucket(runs)?;
    let mut heats = IndexMap::new(alloc);
    for run in runs {
        if counts[bucket_of(run.object)] >= threshold as u64 {
            count(&mut heats, *run)?;
        }
    }
    Ok(heats)
}

/// How many of the objects of these runs are in each bucket.
fn count_by_bucket(runs: &[Run]) -> Result<[u64; BUCKETS], AllocError>
    ensures { IfOk result (λ counts. (bucket : ℕ) → bucket < BUCKETS →
        slice_index counts bucket ≡ in_bucket (objects_of runs.now) bucket) }
{
    let mut counts = [0; BUCKETS];
    for run in runs {
        let bucket = bucket_of(run.object);
        let sum = run.add_to(counts[bucket])?;
        counts[bucket] = sum;
    }
    Ok(counts)
}

/// The bucket of an object: many objects share one.
fn bucket_of(object: Object) -> usize
    ensures bucket { result ≡ bucket_of object }
    ensures within { result < BUCKETS }
{
    shard_of(object, BUCKETS as u32) as usize
}

/// Adds a run to the heat of its object.
fn count(heats: &mut IndexMap<Object, u64>, run: Run) -> Result<(), AllocError>
    ensures counted { OnOk result (Updates ⟦<Object as PartialEq>⟧.eq heats.old heats.new
        run.object
        (Some (unwrap_or (get ⟦<Object as PartialEq>⟧.eq heats.old run.object) 0 + suc run.more))) }
    ensures once { OnOk result (IsUnique ⟦<Object as PartialEq>⟧.eq heats.new) }
{
    let heat = heats.entry(run.object)?.or_insert(0);
    let sum = run.add_to(*heat)?;
    *heat = sum;
    Ok(())
}

/// Those that are hot enough, in the order in which they are chosen.
fn candidates(
    alloc: Global,
    heats: &IndexMap<Object, u64>,
    threshold: u32,
) -> Result<Vec<Candidate>, AllocError>
    ensures { IfOk result (λ found. IsRanking heats.now.entries threshold found.items) }
{
    let mut candidates = Vec::new(alloc);
    for (object, heat) in heats {
        if *heat >= threshold as u64 {
            candidates.push(Candidate {
                heat: Reverse(*heat),
                object: *object,
            })?;
        }
    }
    candidates.sort_unstable();
    Ok(candidates)
}

/// The objects of the first candidates.
fn first_of(
    alloc: Global,
    candidates: &[Candidate],
    hot_max: u32,
) -> Result<IndexSet<Object>, AllocError>
    requires { IsDistinct same_object (map (λ c. c.object) candidates.now) }
    ensures { IfOk result (λ hot. hot.keys ≡ map (λ c. c.object) (take hot_max candidates.now)) }
{
    let mut hot = IndexSet::new(alloc);
    let count = candidates.len().min(hot_max as usize);
    for candidate in &candidates[..count] {
        hot.insert(candidate.object)?;
    }
    Ok(hot)
}
