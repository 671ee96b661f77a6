//! The record of an item, and where the records of a shard's items lie.
ghost use Rattle.std.specs.Prelude.{◌≡◌, ◌+◌, ◌<◌, ◌≤◌, ◌^◌, option_map, Some, IfSome};

use crate::shard::Shard;
use crate::shard::slices::ItemSlice;
use auction_rows::{BidEntry, Facts, ItemId, MOST_QUANTITY, MOST_WORKERS, Quantity};
use split_records::Splittable;
use std::alloc::{AllocError, Global};

/// What a shard keeps of an item: its facts once it is stored, how many are bought, and its bids.
#[derive(Drop)]
pub struct ItemRecord {
    pub(crate) facts: Option<Facts>,
    pub(crate) bought: u32,
    pub(crate) bids: ItemSlice,
}

impl ItemRecord {
    ghost use Rattle.item_shards.specs.Contents.{with_facts, bid_on, bought_of, bids_merged};
    ghost use Rattle.item_shards.specs.Records.{record_value};
    ghost use Rattle.item_shards.specs.Values.{blank, quantity_left, stock, HasInStock};

    pub(crate) fn blank() -> ItemRecord
        ensures { record_value result ≡ blank }
    {
        ItemRecord {
            facts: None,
            bought: 0,
            bids: ItemSlice::identity(),
        }
    }

    pub(crate) fn store(&mut self, facts: Facts)
        ensures { record_value self.new ≡ with_facts facts (record_value self.old) }
    {
        if self.facts.is_none() {
            self.facts = Some(facts);
        }
    }

    #[inline(always)]
    pub(crate) fn bid(&mut self, bid: BidEntry)
        requires { self.old.bids.bids + 1 < 2 ^ 64 }
        ensures { record_value self.new ≡ bid_on bid (record_value self.old) }
    {
        self.bids.apply(bid);
    }

    pub(crate) fn buy(&mut self, quantity: Quantity)
        requires { HasInStock (record_value self.old) quantity }
        ensures { record_value self.new ≡ bought_of quantity (record_value self.old) }
    {
        if let Some(facts) = self.facts {
            quantity_fits(facts.quantity);
            self.bought += quantity.value();
        }
    }

    pub(crate) fn merge(&mut self, slice: ItemSlice)
        requires { self.old.bids.bids + slice.bids < 2 ^ 64 }
        ensures { record_value self.new ≡ bids_merged slice (record_value self.old) }
    {
        self.bids.merge(slice);
    }

    /// How many are left, if the item is stored.
    pub(crate) fn left(&self) -> Option<u32>
        ensures { result ≡ quantity_left (record_value self.now) }
    {
        match self.facts {
            Some(facts) => Some(facts.quantity.value().saturating_sub(self.bought)),
            None => None,
        }
    }

    /// The facts and how many are left, if the item is stored.
    #[inline(always)]
    pub(crate) fn stock(&self) -> Option<(Facts, u32)>
        ensures { result ≡ stock (record_value self.now) }
    {
        match self.facts {
            Some(facts) => Some((facts, facts.quantity.value().saturating_sub(self.bought))),
            None => None,
        }
    }
}

// A quantity is at most 1,000,000: its type keeps this, and says it here, so that sums of purchases
// fit.
#[inline(always)]
fn quantity_fits(quantity: Quantity)
    ensures { quantity ≤ MOST_QUANTITY }
{
    quantity.value();
}

/// The place of each worker's items in the map of items, by an item's serial over the number of
/// shards: a look-up there needs no hash. A place is a guess: whoever asks looks at the id that is
/// there, and a place may be missing.
#[derive(Drop)]
pub(crate) struct ItemHints {
    by_worker: Vec<Vec<u32>>,
}

impl ItemHints {
    /// Places of which none is noted.
    pub(crate) fn new(alloc: Global) -> Result<ItemHints, AllocError> {
        let mut by_worker = Vec::with_capacity(alloc, MOST_WORKERS)?;
        for _worker in 0..MOST_WORKERS {
            by_worker.push(Vec::new(alloc))?;
        }
        Ok(ItemHints { by_worker })
    }

    /// The place that was noted for an item of one shard of so many.
    #[inline(always)]
    fn noted(&self, item: ItemId, shards: u32) -> Option<usize>
        requires { 0 < shards }
    {
        let places = self.by_worker.get(item.worker as usize)?;
        let place = places.get((item.serial / shards) as usize)?;
        Some(*place as usize)
    }

    /// Notes the place of an item of one shard of so many, if its worker's items before it are
    /// noted and memory is left.
    pub(crate) fn note(&mut self, item: ItemId, shards: u32, place: usize)
        requires { 0 < shards }
    {
        let worker = item.worker as usize;
        let Ok(place) = u32::try_from(place) else {
            return;
        };
        if worker < self.by_worker.len() {
            let places = &mut self.by_worker[worker];
            if places.len() == (item.serial / shards) as usize {
                let _noted = places.push(place);
            }
        }
    }
}

impl Shard {
    ghost use Rattle.item_shards.specs.ShardContents.{record_in, HasItemRoom, IsPlaceOf};

    // The place that is noted for an item, and its record, if the item lies there.
    #[inline(always)]
    fn find_noted(&self, item: ItemId) -> Option<(usize, &ItemRecord)>
        ensures record { IfSome result (λ found. record_in self.now item ≡ Some found.1.now) }
        ensures place { IfSome result (λ found. IsPlaceOf self.now.parts.value.items item found.0) }
    {
        let place = self.parts.hints.noted(item, self.parts.shards)?;
        let (id, record) = self.parts.items.get_index(place)?;
        if *id == item {
            Some((place, record))
        } else {
            None
        }
    }

    /// The place of an item, and its record, if there is room for it.
    #[inline(always)]
    pub(crate) fn find(&self, item: ItemId) -> Option<(usize, &ItemRecord)>
        ensures record { option_map (λ found. found.1.now) result ≡ record_in self.now item }
        ensures place { IfSome result (λ found. IsPlaceOf self.now.parts.value.items item found.0) }
    {
        if let Some(found) = self.find_noted(item) {
            return Some(found);
        }
        let (place, _, record) = self.parts.items.get_full(&item)?;
        Some((place, record))
    }

    /// The record of an item, if there is room for it.
    #[inline(always)]
    pub(crate) fn record(&self, item: ItemId) -> Option<&ItemRecord>
        ensures { option_map (λ found. found.now) result ≡ record_in self.now item }
    {
        let (_, record) = self.find(item)?;
        Some(record)
    }

    /// The place of an item in the map of items.
    #[inline(always)]
    pub(crate) fn place_of(&self, item: ItemId) -> usize
        requires room { HasItemRoom self.now item }
        ensures { IsPlaceOf self.now.parts.value.items item result }
    {
        match self.find(item) {
            Some((place, _)) => place,
            None => unreachable!(),
        }
    }
}
