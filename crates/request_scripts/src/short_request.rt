//! A request in 32 bytes, with the facts of the item that it stores in a list beside it.
ghost use Rattle.std.specs.Prelude.{◌≡◌, ◌++◌, length, vec_len, vec_capacity, List};
ghost use Rattle.auction_rows.specs.declared.requests.Facts.{Facts as FactsKept};
ghost use Rattle.request_scripts.specs.ShortRequests.{HasListRoom, SaysRequest, facts_in};

use crate::side_index::{SideIndex, keep_one};
use auction_rows::{Facts, ItemId, Quantity, Request, Stars};

// Half a cache line: a request of a script.
const _: () = prove!(size_of::<ShortRequest>() == 32);

/// A request, by its fields in order; the facts of an item that it stores lie at a place in a list.
#[derive(Clone, Copy)]
pub enum ShortRequest {
    /// Stores an item, with the facts at this place, at a time.
    StoreItem(SideIndex, u64),
    /// Stores the bid of a user on an item: its amount, and its time.
    StoreBid(u32, ItemId, u64, u64),
    /// Stores the comment of a user about another one and an item, with stars.
    StoreComment(u32, u32, ItemId, Stars),
    /// Lets a user buy so many of an item, at a time.
    BuyNow(u32, ItemId, Quantity, u64),
    /// Views an item.
    ViewItem(ItemId),
    /// Views the bids on an item.
    ViewBids(ItemId),
    /// Views a category.
    ViewCategory(u32),
    /// Views a user.
    ViewUser(u32),
}

impl ShortRequest {
    ghost use Rattle.request_scripts.specs.ShortRequests.{HasRequest, request_from};
    ghost use Rattle.request_scripts.specs.inner.Shifting.{CanShift, shifted};

    /// The same request, of which the facts lie after so many others.
    #[inline(always)]
    pub(crate) fn after(self, before: usize) -> ShortRequest
        requires { (all : List FactsKept) × HasRequest all self × CanShift all before }
        ensures { result ≡ shifted before self }
    {
        match self {
            ShortRequest::StoreItem(facts, time) => {
                ShortRequest::StoreItem(SideIndex::of(before + facts.get()), time)
            }
            other => other,
        }
    }

    /// The request, made whole, with the facts that are kept beside it.
    #[inline(always)]
    pub fn whole(self, all: &[Facts]) -> Request
        requires { HasRequest all.now self }
        ensures { result ≡ request_from all.now self }
    {
        match self {
            ShortRequest::StoreItem(facts, time) => Request::StoreItem {
                facts: all[facts.get()],
                time,
            },
            ShortRequest::StoreBid(bidder, item, amount, time) => Request::StoreBid {
                bidder,
                item,
                amount,
                time,
            },
            ShortRequest::StoreComment(author, about, item, stars) => Request::StoreComment {
                author,
                about,
                item,
                stars,
            },
            ShortRequest::BuyNow(buyer, item, quantity, time) => Request::BuyNow {
                buyer,
                item,
                quantity,
                time,
            },
            ShortRequest::ViewItem(item) => Request::ViewItem { item },
            ShortRequest::ViewBids(item) => Request::ViewBids { item },
            ShortRequest::ViewCategory(category) => Request::ViewCategory { category },
            ShortRequest::ViewUser(user) => Request::ViewUser { user },
        }
    }
}

/// How many facts a request stores: 1 of an item, or none.
#[inline(always)]
pub(crate) fn facts_stored(request: &Request) -> usize
    ensures { result ≡ length (facts_in request.now) }
{
    match request {
        Request::StoreItem { .. } => 1,
        _ => 0,
    }
}

/// A request, with the facts that it stores at the end of the facts. It takes no memory.
#[inline(always)]
pub fn keep_request(all: &mut Vec<Facts>, request: &Request) -> ShortRequest
    requires { HasListRoom (length (facts_in request.now))
        (vec_len all.old) (vec_capacity all.old) }
    ensures kept { all.new.items ≡ all.old.items ++ facts_in request.now }
    ensures capacity { vec_capacity all.new ≡ vec_capacity all.old }
    ensures says { SaysRequest all.new.items result request.now }
{
    match *request {
        Request::StoreItem { facts, time } => ShortRequest::StoreItem(keep_one(all, facts), time),
        Request::StoreBid {
            bidder,
            item,
            amount,
            time,
        } => ShortRequest::StoreBid(bidder, item, amount, time),
        Request::StoreComment {
            author,
            about,
            item,
            stars,
        } => ShortRequest::StoreComment(author, about, item, stars),
        Request::BuyNow {
            buyer,
            item,
            quantity,
            time,
        } => ShortRequest::BuyNow(buyer, item, quantity, time),
        Request::ViewItem { item } => ShortRequest::ViewItem(item),
        Request::ViewBids { item } => ShortRequest::ViewBids(item),
        Request::ViewCategory { category } => ShortRequest::ViewCategory(category),
        Request::ViewUser { user } => ShortRequest::ViewUser(user),
    }
}
