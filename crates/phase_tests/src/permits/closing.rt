//! How a phase ends in which one worker has performed by hand, or two.
ghost use Rattle.std.specs.Prelude.{◌≡◌, ◌≤◌, ◌∷◌, [], map, slice_get, vec_capacity, IfSome};
ghost use Rattle.auction_rows.specs.declared.requests.Object.TheVariants.{Item};
ghost use Rattle.item_shards.specs.ShardContents.{LiesIn};
ghost use Rattle.shard_boxes.specs.{Closed.{AreClosed}, States.{state_of}};
ghost use Rattle.phase_transactions.specs.Workers.{IsIdle};
ghost use Rattle.phase_tests.specs.Permits.{IsOnlyKey};

use auction_rows::Facts;
use item_shards::Shard;
use shard_boxes::{Boxes, Key, PhaseName};
use std::alloc::{AllocError, Global};
use std::process::Abort;
use std::sync::Wait;
use test_values::FIRST;

/// Ends the phase of one worker: its shards. It takes no memory but this room for the key.
pub(crate) fn close_one<N: PhaseName, R: Wait>(
    rt: &R,
    boxes: Boxes<N>,
    key: Key<N>,
    mut room: Vec<Key<N>>,
) -> Vec<Shard>
    requires key { IsOnlyKey N.workers boxes key }
    requires empty { room.items ≡ [] }
    requires room { 1 ≤ vec_capacity room }
    ensures { AreClosed N.initial N.workers (key ∷ []) (map state_of result.items) }
{
    room.push_reserved(key);
    boxes.close(rt, room)
}

/// Ends the phase of two workers.
pub(crate) fn close_two<N: PhaseName, R: Wait>(
    rt: &R,
    alloc: Global,
    boxes: Boxes<N>,
    first: Key<N>,
    second: Key<N>,
) -> Result<Vec<Shard>, AllocError>
    requires two { 2 ≡ N.workers }
    requires of { (first.boxes ≡ boxes) × (second.boxes ≡ boxes) }
    requires workers { (first.worker ≡ 0) × (second.worker ≡ 1) }
    requires idle { IsIdle first × IsIdle second }
{
    let keys = vec![in alloc; first, second]?;
    Ok(boxes.close(rt, keys))
}

/// Asserts that these are four shards with these clocks.
pub(crate) fn assert_clocks(rt: &impl Abort, shards: &[Shard], clocks: [u64; 4]) {
    let [first, second, third, fourth] = shards else {
        panic!(rt; "not four shards");
    };
    let found = [first.clock(), second.clock(), third.clock(), fourth.clock()];
    assert_eq!(rt; found, clocks);
}

/// What is fixed of the first item, where the first shard has it.
pub(crate) fn first_facts(shards: &[Shard]) -> Option<Facts>
    requires { IfSome (slice_get shards.now 0) (λ shard.
        LiesIn shard (Item (record { worker = 0; serial = 0 }))) }
{
    shards.first()?.facts(FIRST)
}
