//! The slices of items, users and categories: what a worker keeps of an object while it is split,
//! and what a shard keeps of each object. A slice merges into a record at a cost that does not grow
//! with the operations applied to it (Doppel: Narula et al., OSDI 2014).
ghost use Rattle.std.specs.{Bool.{OnTrue}, Int.{w64}, Prelude.{◌+◌, ◌<◌, ◌^◌, ◌+ℤ◌, FitsSigned}};
ghost use Rattle.item_shards.specs.Slices.{IsOnlyCounted, IsOutbid};

use auction_rows::{BidEntry, ItemEntry, MOST_SHOWN, Stars};
use split_records::{AddRec, MaxRec, OPutRec, Splittable};
use top_records::TopRec;

/// What bids on an item come to: the greatest amount, the greatest bid, how many they are, and the
/// ten greatest.
#[derive(Drop)]
pub struct ItemSlice {
    pub highest: MaxRec,
    pub bidder: OPutRec<BidEntry>,
    pub bids: AddRec<u64>,
    pub top: TopRec<BidEntry, MOST_SHOWN>,
}

impl ItemSlice {
    // Whether the amount of a bid tells that it is neither the greatest nor one of the ten
    // greatest, as of most bids on a busy item: then entries are not compared, and none is copied.
    #[inline(always)]
    fn only_counts(&self, bid: &BidEntry) -> bool
        ensures { OnTrue result (IsOnlyCounted self.now bid.now) }
    {
        if is_outbid(bid, self.top.least()) {
            return is_outbid(bid, self.bidder.value());
        }
        false
    }
}

// Whether a bid is of a lesser amount than another, if there is one.
#[inline(always)]
fn is_outbid(bid: &BidEntry, by: Option<BidEntry>) -> bool
    ensures { OnTrue result (IsOutbid bid.now by) }
{
    match by {
        Some(other) => bid.amount < other.amount,
        None => false,
    }
}

/// What comments about a user come to: the sum of their stars, and how many they are.
#[derive(Drop)]
pub struct UserSlice {
    pub rating: AddRec<i64>,
    pub comments: AddRec<u64>,
}

/// What the items of a category come to: the ten latest.
#[derive(Drop)]
pub struct CategorySlice {
    pub top: TopRec<ItemEntry, MOST_SHOWN>,
}

/// A slice of an object.
#[derive(Drop)]
pub enum Slice {
    Item(ItemSlice),
    User(UserSlice),
    Category(CategorySlice),
}

impl Splittable for ItemSlice {
    ghost use Rattle.item_shards.specs.SliceLaws.{item_laws, item_values};
    ghost use Rattle.item_shards.specs.Slices.{IsItemSlice, no_bids, with_bid, with_bids, item_slice};

    type Op = BidEntry;

    ghost ties_are_equal = { Unit {0} };

    ghost is_record = { IsItemSlice };

    ghost empty = { no_bids };

    ghost applied = { with_bid };

    ghost merged = { with_bids };

    ghost can_apply = { λ slice _. slice.bids + 1 < 2 ^ 64 };

    ghost can_merge = { λ slice other. slice.bids + other.bids < 2 ^ 64 };

    ghost value_of = { item_slice };

    ghost laws = { λ _. item_laws };

    ghost values = { λ _. item_values };

    fn identity() -> Self {
        ItemSlice {
            highest: MaxRec::identity(),
            bidder: OPutRec::identity(),
            bids: AddRec::<u64>::identity(),
            top: TopRec::identity(),
        }
    }

    #[inline(always)]
    fn apply(&mut self, bid: BidEntry) {
        self.highest.apply(bid.amount);
        self.bids.apply(1);
        if self.only_counts(&bid) {
            return;
        }
        self.bidder.apply(bid);
        self.top.apply(bid);
    }

    fn merge(&mut self, other: Self) {
        let ItemSlice {
            highest,
            bidder,
            bids,
            top,
        } = other;
        self.highest.merge(highest);
        self.bidder.merge(bidder);
        self.bids.merge(bids);
        self.top.merge(top);
    }
}

impl Splittable for UserSlice {
    ghost use Rattle.item_shards.specs.SliceLaws.{user_laws, user_values};
    ghost use Rattle.item_shards.specs.Slices.{no_comments, with_comment, with_comments, user_slice};

    type Op = Stars;

    ghost ties_are_equal = { Unit {0} };

    ghost is_record = { λ _. Unit {0} };

    ghost empty = { no_comments };

    ghost applied = { with_comment };

    ghost merged = { with_comments };

    ghost can_apply = { λ slice stars. FitsSigned w64 (slice.rating +ℤ stars.value)
        × (slice.comments + 1 < 2 ^ 64) };

    ghost can_merge = { λ slice other. FitsSigned w64 (slice.rating +ℤ other.rating)
        × (slice.comments + other.comments < 2 ^ 64) };

    ghost value_of = { user_slice };

    ghost laws = { λ _. user_laws };

    ghost values = { λ _. user_values };

    fn identity() -> Self {
        UserSlice {
            rating: AddRec::<i64>::identity(),
            comments: AddRec::<u64>::identity(),
        }
    }

    fn apply(&mut self, stars: Stars) {
        self.rating.apply(stars.value());
        self.comments.apply(1);
    }

    fn merge(&mut self, other: Self) {
        let UserSlice { rating, comments } = other;
        self.rating.merge(rating);
        self.comments.merge(comments);
    }
}

impl Splittable for CategorySlice {
    ghost use Rattle.item_shards.specs.SliceLaws.{category_laws, category_values};
    ghost use Rattle.item_shards.specs.Slices.{IsCategorySlice, no_items, with_item, with_items, category_slice};

    type Op = ItemEntry;

    ghost ties_are_equal = { Unit {0} };

    ghost is_record = { IsCategorySlice };

    ghost empty = { no_items };

    ghost applied = { with_item };

    ghost merged = { with_items };

    ghost can_apply = { λ _ _. Unit {0} };

    ghost can_merge = { λ _ _. Unit {0} };

    ghost value_of = { category_slice };

    ghost laws = { λ _. category_laws };

    ghost values = { λ _. category_values };

    fn identity() -> Self {
        CategorySlice {
            top: TopRec::identity(),
        }
    }

    fn apply(&mut self, item: ItemEntry) {
        self.top.apply(item);
    }

    fn merge(&mut self, other: Self) {
        let CategorySlice { top } = other;
        self.top.merge(top);
    }
}
