//! Numbers of commits, what one shard says of an item, and its clock. What views show stands in
//! tests/worked.
ghost use Rattle.auction_rows.specs.declared.requests.Object.TheVariants.{Item};
ghost use Rattle.item_shards.specs.ShardContents.{LiesIn};

use auction_rows::Facts;
use item_shards::{Act, LAST_NUMBER, Shard, next_number};
use test_values::{FIRST, OPENING, vases};

#[test]
fn numbers_end(rt: HostRuntime) {
    let numbers = [
        next_number(LAST_NUMBER, 0),
        next_number(0, u64::MAX),
        next_number(LAST_NUMBER - 1, 3),
        next_number(0, 0),
    ];
    assert_eq!(rt; numbers, [None, None, Some(LAST_NUMBER), Some(1)]);
}

// The facts of the first item and how many are left, where it is stored.
fn first_in(shard: &Shard) -> (Option<Facts>, Option<u32>)
    requires { LiesIn shard.now (Item (record { worker = 0; serial = 0 })) }
{
    (shard.facts(FIRST), shard.left_of(FIRST))
}

#[test]
fn a_shard_knows_an_item_once_it_is_added(rt: HostRuntime) {
    let mut shard = Shard::new(rt.alloc(), 0, 1, OPENING).expect(&rt, "memory");
    shard.prepare_item(FIRST).expect(&rt, "memory");
    assert_eq!(rt; first_in(&shard), (None, None));
    shard.act(&Act::AddItem(FIRST, vases(10, 1)));
    assert_eq!(rt; first_in(&shard), (Some(vases(10, 1)), Some(1)));
}

#[test]
fn a_clock_is_set_and_reset(rt: HostRuntime) {
    let mut shard = Shard::new(rt.alloc(), 0, 1, OPENING).expect(&rt, "memory");
    assert!(rt; shard.clock() < 7);
    shard.set_clock(7);
    assert_eq!(rt; shard.clock(), 7);
    shard.reset_clock();
    assert_eq!(rt; shard.clock(), 0);
}
