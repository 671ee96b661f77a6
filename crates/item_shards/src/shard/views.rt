//! What a shard shows of its objects.
ghost use Rattle.std.specs.Prelude.{◌≡◌, ◌≤◌, length, map};
ghost use Rattle.auction_rows.specs.Replies.{bid_shown, item_shown};

use crate::shard::Shard;
use auction_rows::{
    BidEntry, BidShown, ItemEntry, ItemId, ItemShown, ItemView, MOST_SHOWN, Refusal, Reply, Ten,
};

impl Shard {
    ghost use Rattle.std.specs.Prelude.{ℕ};
    ghost use Rattle.auction_rows.specs.{ItemViews.{item_told}, Replies.{reply}};
    ghost use Rattle.auction_rows.specs.declared.requests.Object.TheVariants.{Item, User, Category};
    ghost use Rattle.auction_rows.specs.declared.requests.Request.TheVariants.{ViewItem, ViewBids, ViewCategory, ViewUser};
    ghost use Rattle.item_shards.specs.ShardContents.{contents, opening, LiesIn, ForEachBook};
    ghost use Rattle.item_shards.specs.Views.{item_view, bids_view, category_reply, user_reply};

    /// The item with its greatest bid, the number of its bids and what is left; NoSuchItem if it is
    /// not stored.
    pub fn view_item(&self, item: ItemId) -> Reply
        requires here { LiesIn self.now (Item item) }
        ensures contents { result ≡ item_view (contents self.now (Item item)) }
        ensures book { ForEachBook self.now (Item item) (λ book.
            (worker : ℕ) → result ≡ reply (opening self.now) book worker (ViewItem item)) }
    {
        match self.item_seen(item) {
            Some(seen) => seen.to_reply(),
            None => Reply::Refused(Refusal::NoSuchItem),
        }
    }

    /// What `view_item` shows of the item: None if it is not stored.
    #[inline(always)]
    pub fn item_seen(&self, item: ItemId) -> Option<ItemView>
        requires here { LiesIn self.now (Item item) }
        ensures { item_told result ≡ item_view (contents self.now (Item item)) }
    {
        let record = self.record(item)?;
        let facts = record.facts.as_ref()?;
        Some(ItemView {
            seller: facts.seller,
            category: facts.category,
            name: facts.name,
            left: facts.quantity.value().saturating_sub(record.bought),
            start: facts.start,
            closes: facts.closes,
            bids: record.bids.bids.value(),
            highest: record.bids.highest.value(),
            bidder: record.bids.bidder.value().map(|bid| bid.bidder),
        })
    }

    /// The ten greatest bids on the item, the greatest first; NoSuchItem if it is not stored.
    pub fn view_bids(&self, item: ItemId) -> Reply
        requires here { LiesIn self.now (Item item) }
        ensures contents { result ≡ bids_view (contents self.now (Item item)) }
        ensures book { ForEachBook self.now (Item item) (λ book.
            (worker : ℕ) → result ≡ reply (opening self.now) book worker (ViewBids item)) }
    {
        match self.record(item) {
            Some(record) if record.facts.is_some() => {
                Reply::BidsSeen(shown_bids(record.bids.top.entries()))
            }
            _ => Reply::Refused(Refusal::NoSuchItem),
        }
    }

    /// The ten latest items of the category, the latest first; NoSuchCategory if there is none.
    pub fn view_category(&self, category: u32) -> Reply
        requires here { LiesIn self.now (Category category) }
        ensures contents { result
            ≡ category_reply (opening self.now) category (contents self.now (Category category)) }
        ensures book { ForEachBook self.now (Category category) (λ book.
            (worker : ℕ) → result ≡ reply (opening self.now) book worker (ViewCategory category)) }
    {
        if category >= self.parts.opening.categories {
            return Reply::Refused(Refusal::NoSuchCategory);
        }
        Reply::CategorySeen(shown_items(self.category_record(category).top.entries()))
    }

    /// The user's rating and number of comments; NoSuchUser if there is none.
    pub fn view_user(&self, user: u32) -> Reply
        requires here { LiesIn self.now (User user) }
        ensures contents { result
            ≡ user_reply (opening self.now) user (contents self.now (User user)) }
        ensures book { ForEachBook self.now (User user) (λ book.
            (worker : ℕ) → result ≡ reply (opening self.now) book worker (ViewUser user)) }
    {
        if user >= self.parts.opening.users {
            return Reply::Refused(Refusal::NoSuchUser);
        }
        let record = self.user_record(user);
        Reply::UserSeen {
            rating: record.rating.value(),
            comments: record.comments.value(),
        }
    }
}

fn shown_bids(entries: &[BidEntry]) -> Ten<BidShown>
    requires { length entries.now ≤ MOST_SHOWN }
    ensures { result ≡ map bid_shown entries.now }
{
    let mut shown = Ten::new();
    for bid in entries {
        shown.push(BidShown {
            amount: bid.amount,
            time: bid.time,
            bidder: bid.bidder,
            id: bid.id,
        });
    }
    shown
}

fn shown_items(entries: &[ItemEntry]) -> Ten<ItemShown>
    requires { length entries.now ≤ MOST_SHOWN }
    ensures { result ≡ map item_shown entries.now }
{
    let mut shown = Ten::new();
    for item in entries {
        shown.push(ItemShown {
            time: item.time,
            id: item.id,
        });
    }
    shown
}
