//! Where a worker finds the objects of a request.
ghost use Rattle.std.specs.List.{AllByRecursion};
ghost use Rattle.std.specs.Prelude.{◌≡◌, ◌<◌, ℕ, None, Some, false, List, length};
ghost use Rattle.auction_rows.specs.Footprint.{is_hot};
ghost use Rattle.auction_rows.specs.declared.requests.Object.{Object as ObjectValue};
ghost use Rattle.worker_slices.specs.{Homes.{IsHomeOf, shard_at}, Slicing.{hot_objects}};
ghost use Rattle.worker_slices.specs.declared.slices.Hot.{Hot};
ghost use Rattle.worker_slices.specs.declared.homes.Home.TheVariants as home;
ghost use Rattle.phase_transactions.specs.inner.Asking.{homes_viewed, item_alone, store_request, view_request};
ghost use Rattle.phase_transactions.specs.inner.Begun.{MayBegin, MayBeginOn};
ghost use Rattle.phase_transactions.specs.inner.Takens.{footprint_of};
ghost use Rattle.request_scripts.specs.Scripts.{request_of};

use crate::asked::{Stored, Viewed};
use crate::worker::Worker;
use auction_rows::{Object, shard_of};
use shard_boxes::PhaseName;
use worker_journals::BidRequest;
use worker_slices::{Home, Homes};

impl<N: PhaseName> Worker<N> {
    ghost use Rattle.auction_rows.specs.Refusals.{number_refusal};
    ghost use Rattle.phase_transactions.specs.Txns.{is_put_off};

    /// Where the objects are of a store that is no bid: the shards among them are its footprint.
    /// What it buys is not hot, since it is not put off, nor is the item that it stores.
    #[inline(always)]
    pub(crate) fn homes(&self, stored: &Stored<'_>) -> Homes
        requires allowed { number_refusal self.now.opening (store_request stored.now) ≡ None }
        requires goes { is_put_off (hot_objects self.now.slices)
            (store_request stored.now) ≡ false }
        ensures may { MayBegin (length N.initial) self.now (store_request stored.now) result }
        ensures known { AllByRecursion (λ s. s < length N.initial) (footprint_of result) }
    {
        match *stored {
            Stored::Item(facts, _) => Homes {
                item: Home::Shard(self.shard(Object::Item(self.next_item()))),
                other: self.home(Object::Category(facts.category)),
            },
            Stored::Comment(_, about, item, _) => Homes {
                item: self.home(Object::Item(item)),
                other: self.home(Object::User(about)),
            },
            Stored::Buy(_, item, _, _) => Homes {
                item: Home::Shard(self.shard(Object::Item(item))),
                other: Home::Nowhere,
            },
        }
    }

    /// Where the item of a bid is: if it lies in a shard, that is its footprint.
    #[inline(always)]
    pub(crate) fn bid_home(&self, bid: &BidRequest) -> Home
        requires { number_refusal self.now.opening (request_of bid.now) ≡ None }
        ensures may { MayBegin (length N.initial) self.now
            (request_of bid.now) (item_alone result) }
        ensures known { (s : ℕ) → shard_at result ≡ Some s → s < length N.initial }
    {
        self.home(Object::Item(bid.item))
    }

    /// The shard of what a view shows, which is not hot, since the view is not put off: that is its
    /// footprint.
    #[inline(always)]
    pub(crate) fn shard_viewed(&self, viewed: Viewed) -> u32
        requires allowed { number_refusal self.now.opening (view_request viewed) ≡ None }
        requires goes { is_put_off (hot_objects self.now.slices) (view_request viewed) ≡ false }
        ensures may { MayBeginOn (length N.initial) self.now
            (view_request viewed) (homes_viewed viewed result) result }
        ensures known { result < length N.initial }
    {
        self.shard(viewed.object())
    }

    // Where an object is that may be hot.
    #[inline(always)]
    fn home(&self, object: Object) -> Home
        ensures at { IsHomeOf self.now.slices (length N.initial) object result }
        ensures known { (s : ℕ) → shard_at result ≡ Some s → s < length N.initial }
    {
        match self.slices.place_of(object) {
            Some(place) => Home::Slice(place),
            None => Home::Shard(self.shard(object)),
        }
    }

    // The shard of an object that is not hot.
    #[inline(always)]
    fn shard(&self, object: Object) -> u32
        ensures home { (hots : List (ObjectValue × Hot)) →
            is_hot (hot_objects hots) object ≡ false →
            IsHomeOf hots (length N.initial) object (home.Shard result) }
        ensures known { result < length N.initial }
    {
        shard_of(object, self.shards)
    }
}
