//! An auction, the vases that are put up in it, and requests for them.
ghost use Rattle.std.specs.Prelude.{◌≡◌, ◌≤◌, ◌∷◌, []};
ghost use Rattle.auction_rows.specs.declared.requests.Request.TheVariants.{StoreItem, StoreBid, StoreComment, BuyNow};

use auction_rows::{Facts, ItemId, MOST_QUANTITY, Name, Opening, Quantity, Request, Stars};

/// Ten users and two categories.
pub const OPENING: Opening = Opening {
    users: 10,
    categories: 2,
};

/// The first item that worker 0 stores.
pub const FIRST: ItemId = ItemId {
    worker: 0,
    serial: 0,
};

/// A view of it.
pub const VIEW: Request = Request::ViewItem { item: FIRST };

/// A view of the bids on it.
pub const VIEW_OF_BIDS: Request = Request::ViewBids { item: FIRST };

/// A view of a user.
pub const LOOK: Request = Request::ViewUser { user: 0 };

/// So many vases, put up by user 0 in category 0 from this amount on, until time 100.
pub fn vases(start: u64, quantity: u64) -> Facts
    requires { (1 ≤ quantity) × (quantity ≤ MOST_QUANTITY) }
    ensures seller { (result.seller ≡ 0) × (result.category ≡ 0) }
    ensures name { result.name ≡ 0x56 ∷ 0x61 ∷ 0x73 ∷ 0x65 ∷ [] }
    ensures quantity { result.quantity ≡ quantity }
    ensures price { (result.start ≡ start) × (result.closes ≡ 100) }
{
    Facts {
        seller: 0,
        category: 0,
        name: Name::new(b"Vase").unwrap(),
        start,
        closes: 100,
        quantity: Quantity::new(quantity).unwrap(),
    }
}

/// A store of an item, at time 1.
pub fn put_up(facts: Facts) -> Request
    ensures { result ≡ StoreItem facts 1 }
{
    Request::StoreItem { facts, time: 1 }
}

/// A bid on the first item.
pub fn bid(bidder: u32, amount: u64, time: u64) -> Request
    ensures { result ≡ StoreBid bidder FIRST amount time }
{
    Request::StoreBid {
        bidder,
        item: FIRST,
        amount,
        time,
    }
}

/// A comment of a user about another, on the first item.
pub fn comment(author: u32, about: u32, stars: Stars) -> Request
    ensures { result ≡ StoreComment author about FIRST stars }
{
    Request::StoreComment {
        author,
        about,
        item: FIRST,
        stars,
    }
}

/// A purchase of so many of the first item.
pub fn purchase(buyer: u32, quantity: u64, time: u64) -> Request
    requires { (1 ≤ quantity) × (quantity ≤ MOST_QUANTITY) }
    ensures { result ≡ BuyNow buyer FIRST quantity time }
{
    Request::BuyNow {
        buyer,
        item: FIRST,
        quantity: Quantity::new(quantity).unwrap(),
        time,
    }
}
