//! The objects that a request touches and writes, where an object lies, and when a request is
//! refused.
ghost use Rattle.std.specs.Prelude.{◌≡◌, ◌<◌, ℕ};
ghost use Rattle.auction_rows.specs.Refusals.{number_refusal, item_refusal};
ghost use Rattle.auction_rows.specs.Requests.{touches, writes, is_view, is_splittable, shard_of, item_of};
ghost use Rattle.auction_rows.specs.declared.requests.ItemId.{ItemId as ItemIdValue};
ghost use Rattle.auction_rows.specs.declared.requests.Request.TheVariants.{StoreBid};

use crate::replies::Refusal;
use crate::requests::{Facts, ItemId, Object, Request};
use crate::values::Opening;

/// The objects that a request touches: for a comment its item and then the user it is about, for
/// any other request one object.
pub fn touches(request: Request) -> [Option<Object>; 2]
    ensures { result ≡ touches request }
{
    match request {
        Request::StoreItem { facts, .. } => [Some(Object::Category(facts.category)), None],
        Request::StoreComment { about, item, .. } => {
            [Some(Object::Item(item)), Some(Object::User(about))]
        }
        Request::StoreBid { item, .. }
        | Request::BuyNow { item, .. }
        | Request::ViewItem { item }
        | Request::ViewBids { item } => [Some(Object::Item(item)), None],
        Request::ViewCategory { category } => [Some(Object::Category(category)), None],
        Request::ViewUser { user } => [Some(Object::User(user)), None],
    }
}

/// The object that a request writes where it is not refused; a view writes none.
pub fn writes(request: Request) -> Option<Object>
    ensures { result ≡ writes request }
{
    match request {
        Request::StoreItem { facts, .. } => Some(Object::Category(facts.category)),
        Request::StoreBid { item, .. } | Request::BuyNow { item, .. } => Some(Object::Item(item)),
        Request::StoreComment { about, .. } => Some(Object::User(about)),
        _ => None,
    }
}

/// Whether a request only looks.
pub fn is_view(request: Request) -> bool
    ensures { result ≡ is_view request }
{
    writes(request).is_none()
}

/// Whether a request is a store that can be applied to a worker's own slice of what it writes, in
/// any order: a new item, a bid or a comment. Every other request is stashable: a view, and a
/// purchase, which has to know what is left.
pub fn is_splittable(request: Request) -> bool
    ensures { result ≡ is_splittable request }
{
    matches!(
        request,
        Request::StoreItem { .. } | Request::StoreBid { .. } | Request::StoreComment { .. }
    )
}

/// The shard that an object lies in, of so many: items go by the sum of the parts of their ids,
/// users and categories by their numbers.
#[inline(always)]
pub fn shard_of(object: Object, shards: u32) -> u32
    requires { 0 < shards }
    ensures shard { result ≡ shard_of object shards }
    ensures within { result < shards }
{
    let number = match object {
        Object::Item(item) => item.worker as u64 + item.serial as u64,
        Object::User(user) => user as u64,
        Object::Category(category) => category as u64,
    };
    (number % shards as u64) as u32
}

/// The item that has to be stored for a request, where it names one.
#[inline(always)]
pub fn item_of(request: Request) -> Option<ItemId>
    ensures { result ≡ item_of request }
{
    match request {
        Request::StoreBid { item, .. }
        | Request::StoreComment { item, .. }
        | Request::BuyNow { item, .. }
        | Request::ViewItem { item }
        | Request::ViewBids { item } => Some(item),
        _ => None,
    }
}

/// The first reason that the opening gives to refuse a request: a user or a category that it names
/// is none of the opening's.
#[inline(always)]
pub fn number_refusal(opening: Opening, request: Request) -> Option<Refusal>
    ensures { result ≡ number_refusal opening request }
{
    match request {
        Request::StoreItem { facts, .. } if opening.users <= facts.seller => {
            Some(Refusal::NoSuchUser)
        }
        Request::StoreItem { facts, .. } if opening.categories <= facts.category => {
            Some(Refusal::NoSuchCategory)
        }
        Request::StoreBid { bidder, .. } => bidder_refusal(opening, bidder),
        Request::StoreComment { author, about, .. }
            if opening.users <= author || opening.users <= about => { Some(Refusal::NoSuchUser) }
        Request::BuyNow { buyer, .. } if opening.users <= buyer => Some(Refusal::NoSuchUser),
        Request::ViewCategory { category } if opening.categories <= category => {
            Some(Refusal::NoSuchCategory)
        }
        Request::ViewUser { user } if opening.users <= user => Some(Refusal::NoSuchUser),
        _ => None,
    }
}

/// The reason that the opening gives to refuse a bid, if it gives one: the bidder is none of its
/// users.
#[inline(always)]
pub fn bidder_refusal(opening: Opening, bidder: u32) -> Option<Refusal>
    ensures { (item : ItemIdValue) → (amount : ℕ) → (time : ℕ) →
        result ≡ number_refusal opening (StoreBid bidder item amount time) }
{
    if opening.users <= bidder {
        return Some(Refusal::NoSuchUser);
    }
    None
}

/// The first reason that the item of a request gives to refuse it, by what is stored of that item
/// and by how many of it are left (which is not looked at where nothing is stored).
#[inline(always)]
pub fn item_refusal(request: Request, stored: Option<Facts>, left: u32) -> Option<Refusal>
    ensures { result ≡ item_refusal request stored left }
{
    match request {
        Request::StoreItem { .. } | Request::ViewCategory { .. } | Request::ViewUser { .. } => None,
        Request::StoreBid { amount, time, .. } => bid_refusal(amount, time, stored, left),
        Request::BuyNow { quantity, time, .. } => match stored {
            None => Some(Refusal::NoSuchItem),
            Some(facts) if facts.closes <= time => Some(Refusal::Closed),
            Some(_) if left < quantity.value() => Some(Refusal::NotEnough),
            Some(_) => None,
        },
        Request::StoreComment { .. } | Request::ViewItem { .. } | Request::ViewBids { .. } => {
            if stored.is_none() {
                Some(Refusal::NoSuchItem)
            } else {
                None
            }
        }
    }
}

/// The first reason that its item gives to refuse a bid of this amount, by what is stored of that
/// item and by how many of it are left (which is not looked at where nothing is stored).
#[inline(always)]
pub fn bid_refusal(amount: u64, time: u64, stored: Option<Facts>, left: u32) -> Option<Refusal>
    ensures { (bidder : ℕ) → (item : ItemIdValue) →
        result ≡ item_refusal (StoreBid bidder item amount time) stored left }
{
    match stored {
        None => Some(Refusal::NoSuchItem),
        Some(facts) if amount < facts.start => Some(Refusal::BelowStart),
        Some(facts) if facts.closes <= time => Some(Refusal::Closed),
        Some(_) if left == 0 => Some(Refusal::SoldOut),
        Some(_) => None,
    }
}
