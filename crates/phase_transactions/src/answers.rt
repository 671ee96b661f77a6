//! What a store is answered, by what it sees of the item that it needs, and what a view shows.
ghost use Rattle.std.specs.Prelude.{◌≡◌, ℕ, None, Some, MatchOption};
ghost use Rattle.auction_rows.specs.{ItemViews.{item_told}, Requests.{item_of}};
ghost use Rattle.auction_rows.specs.StoreReplies.{reply_of};
ghost use Rattle.auction_rows.specs.declared.replies.Reply.TheVariants.{Refused};
ghost use Rattle.auction_rows.specs.declared.requests.Request.TheVariants.{ViewItem};
ghost use Rattle.auction_rows.specs.declared.requests.ItemId.{ItemId as ItemIdValue};
ghost use Rattle.auction_rows.specs.declared.requests.Object.{Object as ObjectValue};
ghost use Rattle.item_shards.specs.Looking.{IsTrueOf};
ghost use Rattle.item_shards.specs.ShardContents.{contents};
ghost use Rattle.item_shards.specs.declared.shard.acts.Look.TheVariants as look;
ghost use Rattle.worker_slices.specs.{Homes.{IsHomeOf, shard_at}, Slicing.{stocks_of, stock_of}};
ghost use Rattle.worker_slices.specs.declared.counters.Counters.{Counters as CountersValue};
ghost use Rattle.phase_transactions.specs.Txns.{IsReplyTo};
ghost use Rattle.phase_transactions.specs.inner.Begun.{CanView, FirstHas, IsRefusedBy, look_for};
ghost use Rattle.phase_transactions.specs.inner.Asking.{store_request, view_request};
ghost use Rattle.phase_transactions.specs.inner.{Deeds.{shown_with}, Homes.{HasHomes}, Viewing.{IsShownBy}};

use crate::asked::{Stored, Viewed};
use crate::taken::{Taken, refusal_in};
use crate::worker::Worker;
use auction_rows::{
    BuyId, CommentId, Facts, ItemId, ItemView, Refusal, Reply, Request, StoreReply,
};
use item_shards::{Shard, refusal_with};
use shard_boxes::{Held, PhaseName};
use worker_slices::{Home, Homes};

impl<N: PhaseName> Worker<N> {
    /// The first reason for which its item refuses a store: by what is fixed of it if it is hot,
    /// else by what its shard has.
    #[inline(always)]
    pub(crate) fn refusal(
        &self,
        taken: &Taken<N>,
        request: &Request,
        homes: &Homes,
    ) -> Option<Refusal>
        requires homes { HasHomes self.now request.now homes.now }
        requires there { (item : ItemIdValue) → (t : ℕ) → item_of request.now ≡ Some item →
            shard_at homes.now.item ≡ Some t → FirstHas taken.now item }
        ensures { IsRefusedBy self.now request.now homes.now taken.now result }
    {
        match homes.item {
            Home::Shard(_) => refusal_in(taken, request),
            _ => refusal_with(&self.fixed(homes.item), request),
        }
    }

    /// What is fixed of an item with this home, where that is hot.
    #[inline(always)]
    pub(crate) fn fixed(&self, home: Home) -> Option<(Facts, u32)>
        ensures { (object : ObjectValue) → (shards : ℕ) →
            IsHomeOf self.now.slices shards object home → shard_at home ≡ None →
            result ≡ stock_of (stocks_of self.now.slices) object }
    {
        match home {
            Home::Slice(place) => self.slices.stock_at(place),
            Home::Nowhere | Home::Shard(_) => None,
        }
    }

    /// The reply to a store that is no bid, if it is accepted: the worker's next id of the kind.
    #[inline(always)]
    pub(crate) fn due(&self, stored: &Stored<'_>) -> StoreReply
        ensures { IsReplyTo self.now.counters self.now.journal.worker
            (store_request stored.now) (reply_of result) }
    {
        let worker = self.worker;
        match stored {
            Stored::Item(..) => StoreReply::ItemStored(self.next_item()),
            Stored::Comment(..) => StoreReply::CommentStored(CommentId {
                worker,
                serial: self.counters.comments,
            }),
            Stored::Buy(..) => StoreReply::Bought(BuyId {
                worker,
                serial: self.counters.buys,
            }),
        }
    }
}

/// The reply to a store: the reason to refuse it, or else the one that is due.
#[inline(always)]
pub(crate) fn reply_unless(refused: Option<Refusal>, due: StoreReply) -> StoreReply
    ensures { MatchOption refused (result ≡ due) (λ reason. reply_of result ≡ Refused reason) }
{
    match refused {
        Some(reason) => StoreReply::Refused(reason),
        None => due,
    }
}

/// What the one shard that the view of an item takes shows of it: None if it is not stored.
#[inline(always)]
pub(crate) fn item_on<N: PhaseName>(held: &Held<N>, item: ItemId) -> Option<ItemView>
    requires { CanView held.now.shard (ViewItem item) }
    ensures { IsShownBy held.now.shard (ViewItem item) (look.Item item) (item_told result) }
{
    held.shard().item_seen(item)
}

/// What a shard in which its object lies replies to a view.
#[inline(always)]
pub(crate) fn view_on(shard: &Shard, viewed: Viewed) -> Reply
    requires { CanView shard.now (view_request viewed) }
    ensures answers { (counters : CountersValue) → (worker : ℕ) →
        IsReplyTo counters worker (view_request viewed) result }
    ensures shown { IsTrueOf (contents shard.now)
        (shown_with None result (look_for (view_request viewed))) }
{
    match viewed {
        Viewed::Item(item) => shard.view_item(item),
        Viewed::Bids(item) => shard.view_bids(item),
        Viewed::Category(category) => shard.view_category(category),
        Viewed::User(user) => shard.view_user(user),
    }
}
