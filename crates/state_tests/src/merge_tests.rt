//! What a shard shows of objects, before and after slices are merged into it.
ghost use Rattle.std.specs.Prelude.{◌≡◌, negsuc};
ghost use Rattle.item_shards.specs.ShardContents.{shard_count, shard_number};

use auction_rows::{
    BidEntry, BidId, BidShown, ItemEntry, ItemId, ItemShown, Refusal, Reply, Stars, Ten,
};
use item_shards::{Act, CategorySlice, ItemSlice, Shard, UserSlice};
use split_records::Splittable;
use test_values::{FIRST, NO_ITEM, NO_USER, OPENING, UNRATED, item_seen, ten_of, vases};

// The item, its bids, a user and a category, as a shard shows them in which all objects lie.
fn views(shard: &Shard, user: u32, category: u32) -> [Reply; 4]
    requires one { shard_count shard.now ≡ 1 }
    requires first { shard_number shard.now ≡ 0 }
{
    [
        shard.view_item(FIRST),
        shard.view_bids(FIRST),
        shard.view_user(user),
        shard.view_category(category),
    ]
}

const NO_CATEGORY: Reply = Reply::Refused(Refusal::NoSuchCategory);

#[test]
fn a_new_shard_shows_what_there_is(rt: HostRuntime) {
    let shard = Shard::new(rt.alloc(), 0, 1, OPENING).expect(&rt, "memory");
    let none = Reply::CategorySeen(Ten::new());
    assert_eq!(rt; views(&shard, 9, 1), [NO_ITEM, NO_ITEM, UNRATED, none]);
    let unknown = [NO_ITEM, NO_ITEM, NO_USER, NO_CATEGORY];
    assert_eq!(rt; views(&shard, 10, 2), unknown);
}

// A bid of 50 at 7 by the user of its number.
fn bid(serial: u32) -> BidEntry {
    BidEntry {
        amount: 50,
        time: 7,
        id: BidId { worker: 0, serial },
        bidder: serial,
    }
}

// The slice of two bids.
fn two_bids() -> ItemSlice
    ensures { result.bids ≡ 2 }
{
    let mut slice = ItemSlice::identity();
    slice.apply(bid(1));
    slice.apply(bid(2));
    slice
}

// The slice of two comments.
fn two_comments() -> UserSlice
    ensures rating { result.rating ≡ negsuc 1 }
    ensures count { result.comments ≡ 2 }
{
    let mut slice = UserSlice::identity();
    slice.apply(Stars { value: -5 });
    slice.apply(Stars { value: 3 });
    slice
}

// An item of worker 0, with the time of its number.
fn item(serial: u32) -> ItemEntry {
    ItemEntry {
        time: u64::from(serial),
        id: ItemId { worker: 0, serial },
    }
}

// The slice of two items.
fn two_items() -> CategorySlice {
    let mut slice = CategorySlice::identity();
    slice.apply(item(0));
    slice.apply(item(1));
    slice
}

// What a bid shows as.
fn bid_shown(serial: u32) -> BidShown {
    BidShown {
        amount: 50,
        time: 7,
        bidder: serial,
        id: BidId { worker: 0, serial },
    }
}

// What an item shows as.
fn item_shown(serial: u32) -> ItemShown {
    ItemShown {
        time: u64::from(serial),
        id: ItemId { worker: 0, serial },
    }
}

// Of two equal bids the one with the greater number wins. Views show the last item first.
#[test]
fn a_shard_shows_the_slices_merged_into_it(rt: HostRuntime) {
    let facts = vases(10, 1);
    let mut shard = Shard::new(rt.alloc(), 0, 1, OPENING).expect(&rt, "memory");
    shard.merge_user(3, two_comments());
    shard.merge_category(1, two_items());
    shard.prepare_item(FIRST).expect(&rt, "memory");
    shard.merge_item(FIRST, two_bids());
    shard.act(&Act::AddItem(FIRST, facts));
    let seen = item_seen(&facts, Some((50, 2)), 2, 1);
    let rated = Reply::UserSeen {
        rating: -2,
        comments: 2,
    };
    let bids = Reply::BidsSeen(ten_of(&[bid_shown(2), bid_shown(1)]));
    let items = Reply::CategorySeen(ten_of(&[item_shown(1), item_shown(0)]));
    let wanted = [seen, bids, rated, items];
    assert_eq!(rt; views(&shard, 3, 1), wanted);
}
