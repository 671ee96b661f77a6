//! What is asked of a worker.
ghost use Rattle.std.specs.Prelude.{◌≡◌, Some};
ghost use Rattle.phase_transactions.specs.inner.Asking.{asked_request, view_request};
ghost use Rattle.phase_transactions.specs.inner.Begun.{look_for, viewed};
ghost use Rattle.request_scripts.specs.Scripts.{request_of};

use auction_rows::{Facts, ItemId, Object, Quantity, Request, Stars};
use item_shards::Look;
use worker_journals::BidRequest;

/// A request of the quota, with its index in the script.
#[derive(Clone, Copy)]
pub(crate) struct Call<'a> {
    pub(crate) request: &'a Request,
    pub(crate) index: u32,
}

/// A store on hot objects alone.
#[derive(Clone, Copy)]
pub enum HotStore {
    /// A bid on a hot item.
    Bid(BidRequest),
    /// A comment about a hot user, on the occasion of a hot item.
    Comment {
        author: u32,
        about: u32,
        item: ItemId,
        stars: Stars,
    },
}

/// What a store that is no bid asks for.
#[derive(Clone, Copy)]
pub(crate) enum Stored<'a> {
    /// An item with these facts, at this time.
    Item(&'a Facts, u64),
    /// That an author rates a user, on the occasion of an item.
    Comment(u32, u32, ItemId, Stars),
    /// That a buyer gets so many of an item, at this time.
    Buy(u32, ItemId, Quantity, u64),
}

/// What a view asks for.
#[derive(Clone, Copy)]
pub(crate) enum Viewed {
    Item(ItemId),
    Bids(ItemId),
    Category(u32),
    User(u32),
}

/// What a request asks for.
pub(crate) enum Asked<'a> {
    Bid(BidRequest),
    Store(Stored<'a>),
    View(Viewed),
}

/// A bid as a request.
#[inline(always)]
pub(crate) fn bid_request(bid: &BidRequest) -> Request
    ensures { result ≡ request_of bid.now }
{
    Request::StoreBid {
        bidder: bid.bidder,
        item: bid.item,
        amount: bid.amount,
        time: bid.time,
    }
}

impl<'a> Asked<'a> {
    /// What a request asks for.
    #[inline(always)]
    pub(crate) fn of(request: &'a Request) -> Asked<'a>
        ensures { asked_request result ≡ request.now }
    {
        match request {
            Request::StoreBid {
                bidder,
                item,
                amount,
                time,
            } => Asked::Bid(BidRequest {
                bidder: *bidder,
                item: *item,
                amount: *amount,
                time: *time,
            }),
            Request::StoreItem { facts, time } => Asked::Store(Stored::Item(facts, *time)),
            Request::StoreComment {
                author,
                about,
                item,
                stars,
            } => Asked::Store(Stored::Comment(*author, *about, *item, *stars)),
            Request::BuyNow {
                buyer,
                item,
                quantity,
                time,
            } => Asked::Store(Stored::Buy(*buyer, *item, *quantity, *time)),
            Request::ViewItem { item } => Asked::View(Viewed::Item(*item)),
            Request::ViewBids { item } => Asked::View(Viewed::Bids(*item)),
            Request::ViewCategory { category } => Asked::View(Viewed::Category(*category)),
            Request::ViewUser { user } => Asked::View(Viewed::User(*user)),
        }
    }
}

impl Viewed {
    /// The object that the view shows.
    #[inline(always)]
    pub(crate) fn object(self) -> Object
        ensures { viewed (view_request self) ≡ Some result }
    {
        match self {
            Viewed::Item(item) => Object::Item(item),
            Viewed::Bids(item) => Object::Item(item),
            Viewed::Category(category) => Object::Category(category),
            Viewed::User(user) => Object::User(user),
        }
    }

    /// What the view looks at.
    #[inline(always)]
    pub(crate) fn look(self) -> Look
        ensures { result ≡ look_for (view_request self) }
    {
        match self {
            Viewed::Item(item) => Look::Item(item),
            Viewed::Bids(item) => Look::Bids(item),
            Viewed::Category(category) => Look::Category(category),
            Viewed::User(user) => Look::User(user),
        }
    }
}
