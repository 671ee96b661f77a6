//! A list of one item, a view that waits, four new shards, and their boxes with the key of one
//! worker or of two.
ghost use Rattle.std.specs.Prelude.{◌≡◌, ◌∷◌, [], length, map, IfOk};
ghost use Rattle.shard_boxes.specs.{Keys.{IsNewKey}, States.{state_of}};
ghost use Rattle.phase_transactions.specs.Workers.{IsUnused};
ghost use Rattle.phase_tests.specs.NewShards.{AreFourNew, BeginsWith};

use auction_rows::Request;
use item_shards::Shard;
use phase_permits::Stash;
use shard_boxes::{Boxes, Key, PhaseName};
use std::alloc::{AllocError, Global};
use std::process::Abort;
use std::sync::Wait;
use test_values::{OPENING, both, only};
use worker_journals::Journal;

/// A list of this one item.
pub(crate) fn list_of<T>(rt: &impl Abort, alloc: Global, item: T) -> Vec<T>
    ensures { result.items ≡ item ∷ [] }
{
    let mut items = Vec::with_capacity(alloc, 1).expect(rt, "memory");
    items.push_reserved(item);
    items
}

/// A stash in which a view of this user waits, with this index.
pub(crate) fn waiting(alloc: Global, index: u32, user: u32) -> Result<Stash, AllocError>
    ensures { IfOk result (λ stash. length stash.requests ≡ 1) }
{
    let mut stash = Stash::with_room(alloc, 1)?;
    stash.push(index, Request::ViewUser { user });
    Ok(stash)
}

/// Four new shards.
pub(crate) fn four(alloc: Global) -> Result<Vec<Shard>, AllocError>
    ensures { IfOk result (λ shards. AreFourNew (map state_of shards.items)) }
{
    let mut shards = Vec::new(alloc);
    for number in 0..4u32 {
        shards.push(Shard::new(alloc, number, 4, OPENING)?)?;
    }
    Ok(shards)
}

/// The boxes of these shards, and the key of their one worker.
pub(crate) fn boxes_of_one<N: PhaseName, R: Wait>(
    rt: &R,
    alloc: Global,
    shards: Vec<Shard>,
) -> Result<(Boxes<N>, Key<N>), AllocError>
    requires { BeginsWith N.initial N.workers 1 shards.items }
    ensures boxes { IfOk result (λ made. made.1.boxes ≡ made.0) }
    ensures worker { IfOk result (λ made. made.1.worker ≡ 0) }
    ensures unused { IfOk result (λ made. IsUnused made.1) }
{
    let Ok((boxes, keys)) = Boxes::<N>::new(rt, alloc, shards, 1) else {
        return Err(AllocError);
    };
    let key = only(keys);
    Ok((boxes, key))
}

/// The boxes of these shards, and the keys of their two workers.
pub(crate) fn boxes_of_two<N: PhaseName, R: Wait>(
    rt: &R,
    alloc: Global,
    shards: Vec<Shard>,
) -> Result<(Boxes<N>, Key<N>, Key<N>), AllocError>
    requires { BeginsWith N.initial N.workers 2 shards.items }
    ensures first { IfOk result (λ made. IsNewKey made.0 0 made.1) }
    ensures second { IfOk result (λ made. IsNewKey made.0 1 made.2) }
{
    let Ok((boxes, keys)) = Boxes::<N>::new(rt, alloc, shards, 2) else {
        return Err(AllocError);
    };
    let (first, second) = both(keys);
    Ok((boxes, first, second))
}

/// Adds the numbers of a journal's commits.
pub(crate) fn push_numbers(rt: &impl Abort, numbers: &mut Vec<u64>, journal: &Journal) {
    for entry in journal.entries() {
        numbers.push(entry.number()).expect(rt, "memory");
    }
}
