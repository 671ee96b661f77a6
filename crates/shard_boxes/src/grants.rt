//! The keys' grants of each box: they are dealt as a phase opens, and become one as it ends, by
//! which the shard is taken, and by which the box can open for another phase. All memory is asked
//! for before the first shard lies in its box.
ghost use Rattle.std.specs.Prelude.{◌≡◌, ◌+◌, ◌-◌, ◌<◌, ◌≤◌, ◌^◌, ℕ, length, map, slice_index_or, vec_len, vec_capacity, IfOk, IfErr, ◌∷◌, false};
ghost use Rattle.std.specs.List.{AllByRecursion};
ghost use Rattle.shard_boxes.specs.Closed.{AreClosed, AreSpent};
ghost use Rattle.shard_boxes.specs.{Helds.{taken_at}, Keys.{IsNewKey, AreNewKeys, KeyState, lines_at, holds_at}};
ghost use Rattle.shard_boxes.specs.{Passes.{GrantState}, States.{state_of, AreInitial, state_at}};
ghost use Rattle.shard_boxes.specs.inner.Grants.{AreSpare, AreNewGrants, AreFree, clock_at, own_at, IsTaken};

use crate::boxes::{Boxes, PhaseName};
use crate::key::Key;
use crate::shard_box::{Grant, ShardBox};
use crate::spare::Spare;
use auction_rows::{MOST_SHARDS, MOST_WORKERS};
use item_shards::Shard;
use std::alloc::{AllocError, Global};
use std::marker::PhantomData;
use std::sync::Wait;

impl<N: PhaseName> Boxes<N> {
    /// A box for each of 1 to 64 shards, and a key for each of 1 to 16 workers. The shards are
    /// numbered from 0, each of as many as there are, at clock 0. Without memory they come back as
    /// they were. No other call asks for memory.
    pub fn new<R: Wait>(
        rt: &R,
        alloc: Global,
        shards: Vec<Shard>,
        workers: u32,
    ) -> Result<(Boxes<N>, Vec<Key<N>>), (Vec<Shard>, AllocError)>
        requires opening { map state_of shards.items ≡ N.initial }
        requires few { (0 < length N.initial) × (length N.initial ≤ MOST_SHARDS) }
        requires opened { AreInitial N.initial }
        requires workers { workers ≡ N.workers }
        requires some { (0 < N.workers) × (N.workers ≤ MOST_WORKERS) }
        ensures boxes { IfOk result (λ r. length r.0 ≡ length N.initial) }
        ensures keys { IfOk result (λ r. AreNewKeys r.0 N.workers r.1.items) }
        ensures err { IfErr result (λ e. e.0 ≡ shards) }
    {
        Boxes::open(rt, alloc, shards, workers, Spare::none(alloc))
    }

    /// As `new`, in the boxes of a phase before if they are as many as the shards.
    pub fn open<R: Wait>(
        rt: &R,
        alloc: Global,
        shards: Vec<Shard>,
        workers: u32,
        spare: Spare,
    ) -> Result<(Boxes<N>, Vec<Key<N>>), (Vec<Shard>, AllocError)>
        requires opening { map state_of shards.items ≡ N.initial }
        requires few { (0 < length N.initial) × (length N.initial ≤ MOST_SHARDS) }
        requires opened { AreInitial N.initial }
        requires workers { workers ≡ N.workers }
        requires some { (0 < N.workers) × (N.workers ≤ MOST_WORKERS) }
        ensures boxes { IfOk result (λ r. length r.0 ≡ length N.initial) }
        ensures keys { IfOk result (λ r. AreNewKeys r.0 N.workers r.1.items) }
        ensures err { IfErr result (λ e. e.0 ≡ shards) }
    {
        let count = shards.len();
        let Ok((boxes, grants)) = spare.boxes(alloc, count) else {
            return Err((shards, AllocError));
        };
        let Ok(rooms) = make_rooms(alloc, count, workers) else {
            return Err((shards, AllocError));
        };
        let Ok(keys) = Vec::with_capacity(alloc, workers as usize) else {
            return Err((shards, AllocError));
        };
        let Ok(closed_shards) = Vec::with_capacity(alloc, count) else {
            return Err((shards, AllocError));
        };
        let grants = open_all::<N, R>(rt, &boxes, grants, shards);
        let keys = deal_all(&boxes, grants, rooms, keys);
        Ok((
            Boxes {
                boxes,
                closed_shards,
                of: PhantomData,
            },
            keys,
        ))
    }
}

// For each worker the room for its grants.
fn make_rooms(alloc: Global, count: usize, workers: u32) -> Result<Vec<Vec<Grant>>, AllocError>
    ensures len { IfOk result (λ v. vec_len v ≡ workers) }
    ensures each { IfOk result (λ v. (w : ℕ) (d : _) → w < workers →
        (vec_len (slice_index_or v.items w d) ≡ 0)
        × (count ≤ vec_capacity (slice_index_or v.items w d))) }
{
    let mut rooms = Vec::new(alloc);
    for _ in 0..workers {
        rooms.push(Vec::with_capacity(alloc, count)?)?;
    }
    Ok(rooms)
}

// Puts each shard into its box.
fn open_all<N: PhaseName, R: Wait>(
    rt: &R,
    boxes: &[ShardBox],
    mut grants: Vec<Grant>,
    shards: Vec<Shard>,
) -> Vec<Grant>
    requires opening { map state_of shards.items ≡ N.initial }
    requires opened { AreInitial N.initial }
    requires boxes { length boxes.now ≡ length N.initial }
    requires spare { AreSpare boxes.now grants.items }
    ensures { AreNewGrants N.initial N.workers boxes.now 0 N.workers result.items }
{
    let mut s = 0;
    for shard in shards {
        boxes[s].open::<N, R>(rt, &mut grants[s], shard);
        s += 1;
    }
    grants
}

// Deals the grants of all boxes out, into a key for each worker.
fn deal_all<N: PhaseName>(
    boxes: &[ShardBox],
    mut grants: Vec<Grant>,
    rooms: Vec<Vec<Grant>>,
    mut keys: Vec<Key<N>>,
) -> Vec<Key<N>>
    requires few { (0 < length N.initial) × (length N.initial ≤ MOST_SHARDS) }
    requires boxes { length boxes.now ≡ length N.initial }
    requires grants { AreNewGrants N.initial N.workers boxes.now 0 N.workers grants.items }
    requires workers { N.workers < 2 ^ 32 }
    requires rooms { vec_len rooms ≡ N.workers }
    requires each { (w : ℕ) (d : _) → w < N.workers →
        (vec_len (slice_index_or rooms.items w d) ≡ 0)
        × (length N.initial ≤ vec_capacity (slice_index_or rooms.items w d)) }
    requires keys { (vec_len keys ≡ 0) × (N.workers ≤ vec_capacity keys) }
    ensures { AreNewKeys boxes.now N.workers result.items }
{
    let mut worker = 0;
    for room in rooms {
        keys.push_reserved(deal(boxes, &mut grants, room, worker));
        worker += 1;
    }
    keys
}

// The key of the first worker for whom the grants speak.
fn deal<N: PhaseName>(
    boxes: &[ShardBox],
    grants: &mut Vec<Grant>,
    mut room: Vec<Grant>,
    worker: u32,
) -> Key<N>
    requires few { (0 < length N.initial) × (length N.initial ≤ MOST_SHARDS) }
    requires worker { worker < N.workers }
    requires boxes { length boxes.now ≡ length N.initial }
    requires grants { AreNewGrants N.initial N.workers boxes.now worker (N.workers - worker)
        grants.old.items }
    requires room { (vec_len room ≡ 0) × (length N.initial ≤ vec_capacity room) }
    ensures grants { AreNewGrants N.initial N.workers boxes.now (worker + 1)
        (N.workers - (worker + 1)) grants.new.items }
    ensures key { IsNewKey boxes.now worker result }
{
    for s in 0..boxes.len() {
        room.push_reserved(boxes[s].deal(&mut grants[s]));
    }
    Key {
        worker,
        grants: room,
        of: PhantomData,
    }
}

impl<N: PhaseName> Boxes<N> {
    /// Ends the phase, and gives the shards, in order. It takes the keys of all workers, none of
    /// which holds a shard, and no memory.
    pub fn close<R: Wait>(self, rt: &R, keys: Vec<Key<N>>) -> Vec<Shard>
        requires { AreSpent self N.workers keys.items }
        ensures { AreClosed N.initial N.workers keys.items (map state_of result.items) }
    {
        let (shards, _) = self.close_kept(rt, keys);
        shards
    }

    /// As `close`, and gives the empty boxes too, in which another phase can open.
    pub fn close_kept<R: Wait>(self, rt: &R, keys: Vec<Key<N>>) -> (Vec<Shard>, Spare)
        requires { AreSpent self N.workers keys.items }
        ensures closed { AreClosed N.initial N.workers keys.items (map state_of result.0.items) }
        ensures spare { result.1 ≡ length N.initial }
    {
        let Boxes {
            boxes,
            closed_shards,
            of: _,
        } = self;
        let grants = collect_all(&boxes, keys);
        let (shards, grants) = take_all::<N, R>(rt, &boxes, grants, closed_shards);
        (shards, Spare { boxes, grants })
    }
}

// The grants of all keys, as one grant for each box.
fn collect_all<N: PhaseName>(boxes: &[ShardBox], mut keys: Vec<Key<N>>) -> Vec<Grant>
    requires workers { 0 < N.workers }
    requires boxes { length boxes.now ≡ length N.initial }
    requires spent { AreSpent boxes.now N.workers keys.items }
    ensures free { AreFree N.initial N.workers boxes.now 0 result.items }
    ensures own { (s : ℕ) (d : GrantState) → s < length result.items →
        own_at result.items s d ≡ map (λ (k : KeyState). lines_at k s) keys.items }
    ensures seen { (s : ℕ) (d : GrantState) → s < length result.items →
        AllByRecursion (λ key. (taken_at N.initial key s).clock ≤ clock_at result.items s d)
        keys.items }
{
    let Some(last) = keys.pop() else {
        unreachable!()
    };
    let mut grants = last.grants();
    while let Some(key) = keys.pop() {
        grants = collect(boxes, key, grants);
    }
    grants
}

// The grants of a key with those of the workers that follow its own.
fn collect<N: PhaseName>(boxes: &[ShardBox], key: Key<N>, others: Vec<Grant>) -> Vec<Grant>
    requires boxes { length boxes.now ≡ length N.initial }
    requires of { key.boxes ≡ boxes.now }
    requires free { (s : ℕ) → holds_at key s ≡ false }
    requires others { AreFree N.initial N.workers boxes.now (key.worker + 1) others.items }
    ensures free { AreFree N.initial N.workers boxes.now key.worker result.items }
    ensures own { (s : ℕ) (d : GrantState) → s < length result.items →
        own_at result.items s d ≡ lines_at key s ∷ own_at others.items s d }
    ensures seen { (s : ℕ) (d : GrantState) → s < length result.items →
        ((taken_at N.initial key s).clock ≤ clock_at result.items s d)
        × (clock_at others.items s d ≤ clock_at result.items s d) }
{
    let mut grants = key.grants();
    let mut s = 0;
    for other in others {
        boxes[s].collect(&mut grants[s], other);
        s += 1;
    }
    grants
}

// Takes each shard out of its box, which then can open again.
fn take_all<N: PhaseName, R: Wait>(
    rt: &R,
    boxes: &[ShardBox],
    mut grants: Vec<Grant>,
    mut closed_shards: Vec<Shard>,
) -> (Vec<Shard>, Vec<Grant>)
    requires opened { AreInitial N.initial }
    requires boxes { length boxes.now ≡ length N.initial }
    requires free { AreFree N.initial N.workers boxes.now 0 grants.items }
    requires own { (s : ℕ) (d : GrantState) → s < length grants.items →
        length (own_at grants.items s d) ≡ N.workers }
    requires closed_shards { (vec_len closed_shards ≡ 0)
        × (length N.initial ≤ vec_capacity closed_shards) }
    ensures len { length result.0.items ≡ length N.initial }
    ensures each { (s : ℕ) (d : GrantState) → s < length N.initial →
        IsTaken N.initial N.workers (own_at grants.items s d) (clock_at grants.items s d) s
        (state_at (map state_of result.0.items) s) }
    ensures spare { AreSpare boxes.now result.1.items }
{
    for s in 0..boxes.len() {
        let shard = boxes[s].take_last(rt, &mut grants[s]);
        closed_shards.push_reserved(shard);
    }
    (closed_shards, grants)
}
