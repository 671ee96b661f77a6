//! Of `shard_boxes`: a caller that takes a shard, acts on it, and puts it back with a line that it
//! makes itself.
ghost use Rattle.std.specs.Prelude.{◌≡◌, ◌<◌, ◌≤◌, slice_get, IfSome};
ghost use Rattle.auction_rows.specs.declared.requests.Object.TheVariants.{Category};
ghost use Rattle.item_shards.specs.CommitNumbers.{last_number};
ghost use Rattle.item_shards.specs.ShardContents.{clock, opening, LiesIn};
ghost use Rattle.shard_boxes.specs.{Lines.{after_line, seen_line}, States.{state_of}};
ghost use Rattle.phase_tests.specs.NewShards.{BeginsWith};

use crate::permits::closing::{assert_clocks, close_one};
use crate::testing::{boxes_of_one, four};
use auction_rows::{ItemEntry, ItemShown, Reply};
use item_shards::{Act, LAST_NUMBER, Look, Shard};
use shard_boxes::{Line, PhaseName};
use std::alloc::{AllocError, Global};
use std::marker::Brand;
use std::process::Abort;
use std::sync::Wait;
use test_values::{FIRST, ten_of};

const LISTED: ItemEntry = ItemEntry { time: 1, id: FIRST };

// Lists an item in the first category and looks at that, at this number: the line of both acts.
fn list(shard: &mut Shard, number: u64) -> Line
    requires later { clock shard.old < number }
    requires within { number ≤ last_number }
    requires here { LiesIn shard.old (Category 0) }
    requires known { 0 < (opening shard.old).categories }
    ensures before { result.before ≡ clock shard.old }
    ensures number { result.number ≡ number }
    ensures after { let taken = state_of shard.old in
        state_of shard.new ≡ after_line taken (seen_line taken result) }
{
    let before = shard.clock();
    let acts = [Act::ListItem(0, LISTED), Act::Look(Look::Category(0))];
    let [first, second] = &acts;
    shard.act(first);
    shard.act(second);
    shard.set_clock(number);
    Line {
        number,
        before,
        index: 0,
        acts,
    }
}

// Asserts that the first shard shows the item that was listed.
fn assert_listed(rt: &impl Abort, shards: &[Shard])
    requires { IfSome (slice_get shards.now 0) (λ shard. LiesIn shard (Category 0)) }
{
    let Some(shard) = shards.first() else {
        panic!(rt; "no shard");
    };
    let listed = Reply::CategorySeen(ten_of(&[ItemShown { time: 1, id: FIRST }]));
    assert_eq!(rt; shard.view_category(0), listed);
}

// One shard of four is taken, and has the line as it is put.
fn put_by_hand<N: PhaseName, R: Wait + Abort>(
    rt: &R,
    alloc: Global,
    shards: Vec<Shard>,
) -> Result<(), AllocError>
    requires { BeginsWith N.initial N.workers 1 shards.items }
{
    let room = Vec::with_capacity(alloc, 1)?;
    let (boxes, mut key) = boxes_of_one::<N, R>(rt, alloc, shards)?;
    assert_eq!(rt; [boxes.shards(), key.shards()], [4, 4]);
    let mut held = boxes.take(rt, &mut key, 0);
    let clock = held.shard().clock();
    assert!(rt; clock < LAST_NUMBER);
    let line = list(held.shard_mut(), clock + 1);
    assert_eq!(rt; [line.before, line.number], [0, 1]);
    assert_eq!(rt; held.shard().clock(), 1);
    boxes.put(rt, &mut key, held, Some(line));
    let shards = close_one(rt, boxes, key, room);
    assert_listed(rt, &shards);
    assert_clocks(rt, &shards, [1, 0, 0, 0]);
    Ok(())
}

#[test]
fn a_caller_makes_the_line_of_its_acts(rt: HostRuntime) {
    let shards = four(rt.alloc()).expect(&rt, "memory");
    let done = put_by_hand::<Brand, HostRuntime>(&rt, rt.alloc(), shards);
    done.expect(&rt, "memory");
}
