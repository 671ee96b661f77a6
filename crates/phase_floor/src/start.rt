//! How a phase of either kind begins: how many requests it may perform, what its workers start it
//! with, and the permits that are made of that.
ghost use Rattle.std.specs.List.{AllByRecursion, IsDistinct};
ghost use Rattle.std.specs.Prelude.{◌≡◌, ◌+◌, ◌<◌, [], length, IsTrue, ◌↔◌, ◌≤◌, ℕ, map, vec_len, IfOk, slice_index, vec_capacity, IfErr};
ghost use Rattle.auction_rows.specs.Requests.{same_object};
ghost use Rattle.shard_boxes.specs.Keys.{AreNewKeys};
ghost use Rattle.worker_slices.specs.Slicing.{hot_objects, IsStocked};
ghost use Rattle.phase_permits.specs.Kinds.{IsEmptyIf};
ghost use Rattle.phase_floor.specs.Begins.{IsTooLong, empty_stash, asked_in_all, CanBegin, OpensPhase};
ghost use Rattle.phase_floor.specs.Floors.{stash_at, AreBegun};
ghost use Rattle.phase_floor.specs.inner.Kits.{AreKits, CanBeGiven, HaveStashRoom};

use crate::floor::Floor;
use crate::joined::Joined;
use crate::memory::Memory;
use auction_rows::{Facts, MOST_WORKERS, Object};
use auction_shards::Shards;
use phase_permits::{Counters, Kind, Permit, Slices, Stash, WorkerStart};
use shard_boxes::{Boxes, Key, MOST_COMMITS, PhaseName, Spare};
use std::alloc::{AllocError, Global};
use std::marker::PhantomData;
use std::sync::Wait;
use worker_journals::Journal;

// Whether these are more than a limit together.
pub(crate) fn is_over(limit: u64, commits: u32, waiting: usize, quota: u32) -> bool
    ensures { IsTrue result ↔ (limit < commits + waiting + quota) }
{
    waiting as u64 > limit || commits as u64 + quota as u64 > limit - waiting as u64
}

// Whether some worker has committed and shall perform more requests than a limit. Past the stashes
// nothing waits.
pub(crate) fn is_too_long(
    limit: u64,
    counters: &[Counters],
    stashes: &[Stash],
    quotas: &[u32],
) -> bool
    requires quotas { length quotas.now ≡ length counters.now }
    ensures { IsTrue result ↔ IsTooLong limit counters.now stashes.now quotas.now }
{
    for w in 0..counters.len() {
        let waiting = stashes.get(w).map_or(0, Stash::len);
        if is_over(limit, counters[w].commits, waiting, quotas[w]) {
            return true;
        }
    }
    false
}

/// What is fixed of each hot object: of an item its facts and how many are left.
pub(crate) type Stocks = Vec<(Object, Option<(Facts, u32)>)>;

/// A worker's journal and slices as a phase begins.
#[derive(Drop)]
pub(crate) struct Kit {
    pub(crate) journal: Journal,
    pub(crate) slices: Slices,
}

// A kit for each worker, with room for what waits and for the quota.
pub(crate) fn new_kits(
    memory: &mut Memory,
    phase: u64,
    stocks: &Stocks,
    stashes: &[Stash],
    quotas: &[u32],
) -> Result<Vec<Kit>, AllocError>
    requires stashes { length stashes.now ≡ length quotas.now }
    requires few { length quotas.now ≤ MOST_WORKERS }
    requires fit { (w : ℕ) → w < length quotas.now →
        length (stash_at stashes.now w).requests + slice_index quotas.now w ≤ MOST_COMMITS }
    requires distinct { IsDistinct same_object (hot_objects stocks.now.items) }
    requires stocked { AllByRecursion IsStocked stocks.now.items }
    ensures len { IfOk result (λ kits. vec_len kits ≡ length quotas.now) }
    ensures each { IfOk result (λ kits. AreKits phase stocks.now.items stashes.now quotas.now
        (length quotas.now) kits.items) }
{
    let mut kits = Vec::with_capacity(memory.alloc, quotas.len())?;
    for w in 0..quotas.len() {
        let room = stashes[w].len() + quotas[w] as usize;
        let journal = memory.journal(phase, w as u32, room)?;
        let slices = memory.slices(stocks)?;
        kits.push_reserved(Kit { journal, slices });
    }
    Ok(kits)
}

// An empty stash for each worker, with room for its quota, in the memory of these.
pub(crate) fn new_stashes(
    alloc: Global,
    quotas: &[u32],
    mut spent: Vec<Stash>,
) -> Result<Vec<Stash>, AllocError>
    requires few { length quotas.now ≤ MOST_WORKERS }
    ensures { IfOk result (λ stashes. stashes.items ≡ map empty_stash quotas.now) }
{
    let mut stashes = Vec::with_capacity(alloc, quotas.len())?;
    for quota in quotas {
        stashes.push(new_stash(alloc, *quota as usize, spent.pop())?)?;
    }
    Ok(stashes)
}

// An empty stash with room for so many requests, in the memory of another if there is one.
fn new_stash(alloc: Global, room: usize, spent: Option<Stash>) -> Result<Stash, AllocError>
    ensures empty { IfOk result (λ stash. stash.requests ≡ []) }
    ensures fresh { IfOk result (λ stash. stash.done ≡ []) }
    ensures room { IfOk result (λ stash. stash.room ≡ room) }
{
    match spent {
        Some(spent) => spent.emptied(room),
        None => Stash::with_room(alloc, room),
    }
}

impl Joined {
    // Begins a phase of either kind. All memory is asked for before anything is moved; if it is
    // refused, the state and the stashes come back unchanged.
    pub(crate) fn begin<N: PhaseName, K: Kind, R: Wait>(
        self,
        rt: &R,
        alloc: Global,
        stocks: Stocks,
        quotas: &[u32],
        stashes: Vec<Stash>,
    ) -> Result<(Floor<N, K>, Vec<Permit<N, K>>), (Joined, Vec<Stash>)>
        requires can { CanBegin N.initial N.workers self quotas.now }
        requires stashes { vec_len stashes ≡ N.workers }
        requires cold { IsEmptyIf K.IS_JOINED stocks.items }
        requires given { CanBeGiven self stocks.items stashes.items quotas.now }
        ensures begun { IfOk result (λ begun.
            OpensPhase self quotas.now stashes.items begun.0 begun.1.items) }
        ensures stocks { IfOk result (λ begun. begun.0.stocks ≡ stocks.items) }
        ensures refused { IfErr result (λ refused. (refused.0 ≡ self) × (refused.1 ≡ stashes)) }
    {
        let Ok(permits) = Vec::with_capacity(alloc, quotas.len()) else {
            return Err((self, stashes));
        };
        let mut memory = self.memory;
        let Ok(kits) = new_kits(&mut memory, self.phase, &stocks, &stashes, quotas) else {
            permits.destroy_empty();
            let state = Joined { memory, ..self };
            return Err((state, stashes));
        };
        let shards = self.shards.into_vec();
        match Boxes::open(rt, alloc, shards, quotas.len() as u32, self.spare) {
            Ok((boxes, keys)) => {
                let floor = Floor {
                    opening: self.opening,
                    limit: self.limit,
                    phase: self.phase,
                    counters: self.counters,
                    stocks,
                    boxes,
                    memory,
                    kind: PhantomData,
                };
                let permits = floor.give(permits, keys, kits, stashes, quotas);
                Ok((floor, permits))
            }
            Err((shards, _)) => {
                permits.destroy_empty();
                let state = Joined {
                    shards: Shards::from_vec(shards),
                    spare: Spare::none(alloc),
                    memory,
                    ..self
                };
                Err((state, stashes))
            }
        }
    }
}

impl<N: PhaseName, K: Kind> Floor<N, K> {
    // A permit for each worker, by the keys.
    fn give(
        &self,
        mut permits: Vec<Permit<N, K>>,
        keys: Vec<Key<N>>,
        kits: Vec<Kit>,
        stashes: Vec<Stash>,
        quotas: &[u32],
    ) -> Vec<Permit<N, K>>
        requires empty { vec_len permits ≡ 0 }
        requires room { N.workers ≤ vec_capacity permits }
        requires keys { AreNewKeys self.now.boxes N.workers keys.items }
        requires lens { (vec_len kits ≡ N.workers) × (vec_len stashes ≡ N.workers)
            × (length quotas.now ≡ N.workers) }
        requires kits { AreKits self.now.phase self.now.stocks stashes.items quotas.now N.workers
            kits.items }
        requires fits { (w : ℕ) → w < N.workers →
            asked_in_all self.now.counters stashes.items quotas.now w ≤ self.now.limit }
        requires rooms { HaveStashRoom self.now.stocks stashes.items quotas.now }
        ensures { AreBegun self.now quotas.now stashes.items result.items }
    {
        let mut w = 0;
        let mut kits = kits.into_iter();
        let mut stashes = stashes.into_iter();
        for key in keys {
            let Some(Kit { journal, slices }) = kits.next() else {
                unreachable!();
            };
            let Some(stash) = stashes.next() else {
                unreachable!();
            };
            let counters = self.counters[w];
            permits.push_reserved(Permit::from_start(WorkerStart {
                key,
                opening: self.opening,
                counters,
                journal,
                stash,
                slices,
                quota: quotas[w],
                clock: 0,
            }));
            w += 1;
        }
        permits
    }
}
