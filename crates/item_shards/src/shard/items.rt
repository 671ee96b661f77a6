//! The items of a shard: room for one, what is known of it, why it refuses a request, its bids,
//! purchases and merged slices.
ghost use Rattle.std.specs.Prelude.{◌≡◌, ◌+◌, ◌<◌, ◌^◌, IfSome, OnOk, OnErr};
ghost use Rattle.auction_rows.specs.declared.requests.ItemId.{ItemId as ItemIdValue};
ghost use Rattle.indexmap.specs.IndexMap.{IsUnchanged};
ghost use Rattle.item_shards.specs.Answering.{bid_request, refusal_with, stock_needed, HasItemOf};

use crate::shard::Shard;
use crate::shard::records::ItemRecord;
use crate::shard::slices::ItemSlice;
use auction_rows::{
    BidEntry, Facts, ItemId, Quantity, Refusal, Request, bid_refusal, item_of, item_refusal,
};
use indexmap::IndexMap;
use std::alloc::AllocError;

/// The first reason for which an item refuses a request, by its facts and how many are left, if it
/// is stored.
#[inline(always)]
pub fn refusal_with(stock: &Option<(Facts, u32)>, request: &Request) -> Option<Refusal>
    ensures { result ≡ refusal_with stock.now request.now }
{
    match *stock {
        Some((facts, left)) => item_refusal(*request, Some(facts), left),
        None => item_refusal(*request, None, 0),
    }
}

// The first reason for which an item refuses a bid, as `refusal_with` gives it.
#[inline(always)]
fn bid_refusal_with(stock: &Option<(Facts, u32)>, bid: BidEntry) -> Option<Refusal>
    ensures { (item : ItemIdValue) → result ≡ refusal_with stock.now (bid_request item bid) }
{
    match *stock {
        Some((facts, left)) => bid_refusal(bid.amount, bid.time, Some(facts), left),
        None => bid_refusal(bid.amount, bid.time, None, 0),
    }
}

// For how many items a shard asks for room with its first one.
const FIRST_ITEMS: usize = 1024;

// Where no room is left, room for three times as many items more: all are copied then. If it is
// refused, room is asked for item by item.
fn expect_items(items: &mut IndexMap<ItemId, ItemRecord>)
    ensures { IsUnchanged items.old items.new }
{
    if items.len() == items.capacity() {
        let _ = items.reserve(FIRST_ITEMS.max(items.len().saturating_mul(3)));
    }
}

impl Shard {
    ghost use Rattle.auction_rows.specs.Book.{facts_of};
    ghost use Rattle.auction_rows.specs.declared.requests.Object.TheVariants.{Item};
    ghost use Rattle.item_shards.specs.Contents.{with_facts, bid_on, bid_unless, bought_of, bids_merged};
    ghost use Rattle.item_shards.specs.ShardContents.{contents, kept, clock, rooms, with_room, LiesIn, HasItemRoom, HasBecome, HasChanged, IsSameShard, ForEachBook, KeepsBooks};
    ghost use Rattle.item_shards.specs.Slices.{item_slice, IsOfBoth};
    ghost use Rattle.item_shards.specs.Values.{quantity_left, left_in, stock, stock_in, HasInStock};

    /// Makes room for an item, which no other call shows. This is the only growth after `new`.
    /// Without memory nothing has changed.
    pub fn prepare_item(&mut self, item: ItemId) -> Result<(), AllocError>
        requires here { LiesIn self.old (Item item) }
        ensures granted { OnOk result (rooms self.new ≡ with_room item (rooms self.old)) }
        ensures refused { OnErr result (rooms self.new ≡ rooms self.old) }
        ensures contents { contents self.new ≡ contents self.old }
        ensures clock { clock self.new ≡ clock self.old }
        ensures same { IsSameShard self.old self.new }
        ensures books { KeepsBooks self.old self.new }
    {
        if self.parts.items.contains_key(&item) {
            return Ok(());
        }
        let parts = &mut *self.parts;
        let place = parts.items.len();
        expect_items(&mut parts.items);
        match parts.items.insert(item, ItemRecord::blank()) {
            Ok(_) => {
                parts.hints.note(item, parts.shards, place);
                Ok(())
            }
            Err(_) => Err(AllocError),
        }
    }

    /// The facts of an item, if it is stored. A stored item has room.
    pub fn facts(&self, item: ItemId) -> Option<Facts>
        requires here { LiesIn self.now (Item item) }
        ensures contents { result ≡ (contents self.now (Item item)).facts }
        ensures book { ForEachBook self.now (Item item) (λ book. result ≡ facts_of book item) }
        ensures room { IfSome result (λ _. HasItemRoom self.now item) }
    {
        match self.record(item) {
            Some(record) => record.facts,
            None => None,
        }
    }

    /// How many of an item are left, if it is stored.
    pub fn left_of(&self, item: ItemId) -> Option<u32>
        requires here { LiesIn self.now (Item item) }
        ensures contents { result ≡ quantity_left (contents self.now (Item item)) }
        ensures book { ForEachBook self.now (Item item) (λ book. result ≡ left_in book item) }
    {
        match self.record(item) {
            Some(record) => record.left(),
            None => None,
        }
    }

    /// The facts of an item and how many are left, if it is stored: by one look-up.
    #[inline(always)]
    pub fn stock(&self, item: ItemId) -> Option<(Facts, u32)>
        requires here { LiesIn self.now (Item item) }
        ensures contents { result ≡ stock (contents self.now (Item item)) }
        ensures book { ForEachBook self.now (Item item) (λ book. result ≡ stock_in book item) }
    {
        match self.record(item) {
            Some(record) => record.stock(),
            None => None,
        }
    }

    /// The first reason for which its item refuses a request: None if the request needs no item.
    #[inline(always)]
    pub fn refusal(&self, request: &Request) -> Option<Refusal>
        requires here { HasItemOf self.now request.now }
        ensures { result ≡ refusal_with (stock_needed (contents self.now) request.now) request.now }
    {
        match item_of(*request) {
            Some(item) => refusal_with(&self.stock(item), request),
            None => None,
        }
    }

    /// Bids on an item by one look-up, unless the item refuses the bid: then it gives the first
    /// reason.
    #[inline(always)]
    pub fn try_bid(&mut self, item: ItemId, bid: BidEntry) -> Option<Refusal>
        requires here { LiesIn self.old (Item item) }
        requires count { (contents self.old (Item item)).bids.bids + 1 < 2 ^ 64 }
        ensures by { result
            ≡ refusal_with (stock (contents self.old (Item item))) (bid_request item bid) }
        ensures after { HasBecome self.old self.new
            (bid_unless result item bid (contents self.old)) (clock self.old) }
    {
        let Some((place, record)) = self.find(item) else {
            return Some(Refusal::NoSuchItem);
        };
        if let Some(reason) = bid_refusal_with(&record.stock(), bid) {
            return Some(reason);
        }
        if let Some(found) = self.parts.items.get_index_mut(place) {
            found.bid(bid);
        }
        None
    }

    /// Merges a slice into the record of an item, which has room. It takes no memory.
    pub fn merge_item(&mut self, item: ItemId, slice: ItemSlice)
        requires here { LiesIn self.old (Item item) }
        requires room { HasItemRoom self.old item }
        requires count { (contents self.old (Item item)).bids.bids + slice.bids < 2 ^ 64 }
        ensures merged { HasChanged self.old self.new (Item item) (bids_merged slice) }
        ensures bids { IsOfBoth item_slice
            (contents self.old (Item item)).bids slice (contents self.new (Item item)).bids }
    {
        let place = self.place_of(item);
        if let Some(record) = self.parts.items.get_index_mut(place) {
            record.merge(slice);
        }
    }

    pub(crate) fn add_item(&mut self, item: ItemId, facts: Facts)
        requires here { LiesIn self.old (Item item) }
        requires room { HasItemRoom self.old item }
        ensures { HasChanged self.old self.new (Item item) (with_facts facts) }
    {
        let place = self.place_of(item);
        if let Some(record) = self.parts.items.get_index_mut(place) {
            record.store(facts);
        }
    }

    // Bids on an item, by code of its own: so an act is short enough to stand where it is done.
    #[inline(never)]
    pub(crate) fn bid(&mut self, item: ItemId, bid: BidEntry)
        requires here { LiesIn self.old (Item item) }
        requires room { HasItemRoom self.old item }
        requires count { (kept self.old (Item item)).bids.bids + 1 < 2 ^ 64 }
        ensures { HasChanged self.old self.new (Item item) (bid_on bid) }
    {
        let place = self.place_of(item);
        if let Some(record) = self.parts.items.get_index_mut(place) {
            record.bid(bid);
        }
    }

    #[inline(never)]
    pub(crate) fn buy(&mut self, item: ItemId, quantity: Quantity)
        requires here { LiesIn self.old (Item item) }
        requires room { HasItemRoom self.old item }
        requires left { HasInStock (kept self.old (Item item)) quantity }
        ensures { HasChanged self.old self.new (Item item) (bought_of quantity) }
    {
        let place = self.place_of(item);
        if let Some(record) = self.parts.items.get_index_mut(place) {
            record.buy(quantity);
        }
    }
}
