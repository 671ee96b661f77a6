//! A worker's slices of the objects that are split.
ghost use Rattle.std.specs.{Bool.{OnTrue}, List.{IsDistinct, AllByRecursion}};
ghost use Rattle.std.specs.Prelude.{◌≡◌, ◌+◌, ◌-◌, ◌↔◌, ◌++◌, ◌∷◌, [], IfOk, IfSome, IsNone, List, ℕ, length, take, is_some};
ghost use Rattle.auction_rows.specs.Requests.{same_object};
ghost use Rattle.auction_rows.specs.declared.requests.Object.{Object as ObjectValue};
ghost use Rattle.item_shards.specs.declared.shard.slices.Slice.{Slice as SliceValue};
ghost use Rattle.worker_slices.specs.Guessing.{AreGuessed};
ghost use Rattle.worker_slices.specs.Slicing.{hot_objects, slices_of, stocks_of, stock_of, slices_in, with_slice_changed, slices_after_acts, IsAt, IsStocked, HasAtMost, HaveAtMost, slice_with_bid, slice_with_comment, slice_with_item, slice_of};
ghost use Rattle.worker_slices.specs.declared.slices.Hot.{Hot as HotValue};

use crate::guesses::Guesses;
use crate::homes::{Home, Homes};
use auction_rows::{BidEntry, Facts, ItemEntry, Object, Request, Stars, StoreReply};
use indexmap::IndexMap;
use item_shards::{CategorySlice, ItemSlice, Slice, UserSlice};
use shard_boxes::MOST_COMMITS;
use split_records::Splittable;
use std::alloc::{AllocError, Global};
use std::marker::Model;

/// An operation on the slices of one kind of objects.
pub(crate) trait Operation: Copy {
    /// A slice after it, where that is of its kind.
    ghost applied: { Self → SliceValue → SliceValue };

    /// Applies it, where the slice is of its kind.
    fn apply_to(self, slice: &mut Slice)
        requires { HasAtMost MOST_COMMITS slice.old }
        ensures { slice.new ≡ applied self slice.old };
}

impl Operation for BidEntry {
    ghost applied = { slice_with_bid };

    #[inline(always)]
    fn apply_to(self, slice: &mut Slice) {
        if let Slice::Item(bids) = slice {
            bids.apply(self);
        }
    }
}

impl Operation for Stars {
    ghost applied = { slice_with_comment };

    fn apply_to(self, slice: &mut Slice) {
        if let Slice::User(comments) = slice {
            comments.apply(self);
        }
    }
}

impl Operation for ItemEntry {
    ghost applied = { slice_with_item };

    fn apply_to(self, slice: &mut Slice) {
        if let Slice::Category(items) = slice {
            items.apply(self);
        }
    }
}

/// What a worker holds of a hot object: of an item its facts and how many are left, which are fixed
/// while it is split, and the slice.
#[derive(Drop)]
pub struct Hot {
    pub stock: Option<(Facts, u32)>,
    pub slice: Slice,
}

impl Hot {
    ghost use Rattle.item_shards.specs.Values.{blank};

    // Of an object to which nothing is applied.
    fn new(object: Object, stock: Option<(Facts, u32)>) -> Hot
        ensures { result ≡ record { stock = stock; slice = slice_of object blank } }
    {
        let slice = match object {
            Object::Item(_) => Slice::Item(ItemSlice::identity()),
            Object::User(_) => Slice::User(UserSlice::identity()),
            Object::Category(_) => Slice::Category(CategorySlice::identity()),
        };
        Hot { stock, slice }
    }
}

/// A worker's slices of the hot objects of a split phase, in the order handed in. Contracts see the
/// list of the objects with what is held of each.
pub struct Slices {
    hot: IndexMap<Object, Hot>,
    // Where an object may be: a guess, which is checked at its place.
    guesses: Guesses,
}

// Not derived: a derived drop is made and proved anew in each crate that lets one go.
impl Drop for Slices {
    fn drop(self) {
        let Self { hot, guesses: _ } = self;
        drop(hot);
    }
}

impl Model for Slices {
    ghost Value = { List (ObjectValue × HotValue) };

    ghost view = { λ s. s.hot.entries };

    ghost invariant = { λ s. AllByRecursion IsStocked (stocks_of s.hot.entries)
        × AreGuessed s.guesses.places (hot_objects s.hot.entries) };
}

impl Slices {
    ghost use Rattle.auction_rows.specs.{Footprint.{is_hot}, Replies.{row_of}};
    ghost use Rattle.auction_rows.specs.{Requests.{same_object}, StoreReplies.{reply_of}};
    ghost use Rattle.item_shards.specs.Writing.{writes_if};
    ghost use Rattle.worker_slices.specs.{Counting.{IsOwn}, Homes.{IsHomeOf, IsWrittenAt}};

    /// No slice: nothing is hot. It takes no memory.
    pub fn none(alloc: Global) -> Slices
        ensures { result ≡ [] }
    {
        Slices {
            hot: IndexMap::new(alloc),
            guesses: Guesses::none(),
        }
    }

    /// An identity slice of each of these objects, none of which is named twice; an item comes with
    /// its facts and how many are left.
    pub fn new(alloc: Global, hot: &[(Object, Option<(Facts, u32)>)]) -> Result<Slices, AllocError>
        requires distinct { IsDistinct same_object (hot_objects hot.now) }
        requires stocked { AllByRecursion IsStocked hot.now }
        ensures { IfOk result (λ slices. slices ≡ slices_of hot.now []) }
    {
        filled(IndexMap::with_capacity(alloc, hot.len())?, hot)
    }

    /// As `new`, in the memory of slices that were taken out.
    pub fn renewed(
        self,
        alloc: Global,
        hot: &[(Object, Option<(Facts, u32)>)],
    ) -> Result<Slices, AllocError>
        requires distinct { IsDistinct same_object (hot_objects hot.now) }
        requires stocked { AllByRecursion IsStocked hot.now }
        ensures { IfOk result (λ slices. slices ≡ slices_of hot.now []) }
    {
        let Slices {
            hot: table,
            guesses: _,
        } = self;
        if table.is_empty() {
            return filled(table, hot);
        }
        Slices::new(alloc, hot)
    }

    /// Takes out the last object with its slice: None exactly where none is left.
    pub fn pop(&mut self) -> Option<(Object, Slice)>
        ensures last { IfSome result (λ pair.
            slices_in self.old ≡ slices_in self.new ++ pair ∷ []) }
        ensures rest { self.new ≡ take (length self.old - 1) self.old }
        ensures none { IsNone result ↔ (self.old ≡ []) }
    {
        let (object, hot) = self.hot.pop()?;
        Some((object, hot.slice))
    }

    /// The place of an object: None exactly where it is not hot.
    #[inline(always)]
    pub fn place_of(&self, object: Object) -> Option<usize>
        ensures hot { is_some result ≡ is_hot (hot_objects self.now) object }
        ensures at { IfSome result (λ place. IsAt self.now place object) }
        ensures stocked { AllByRecursion IsStocked (stocks_of self.now) }
    {
        if self.hot.is_empty() {
            return None;
        }
        let Some(guess) = self.guesses.of(object) else {
            return None;
        };
        if self.is_at(guess, object) {
            return Some(guess);
        }
        self.hot.get_index_of(&object)
    }

    // Whether an object stands at a place.
    #[inline(always)]
    fn is_at(&self, place: usize, object: Object) -> bool
        ensures { OnTrue result (IsAt self.now place object) }
    {
        match self.hot.get_index(place) {
            Some((there, _)) => *there == object,
            None => false,
        }
    }

    /// What is fixed of the object at a place: of an item its facts, and how many are left.
    #[inline(always)]
    pub fn stock_at(&self, place: usize) -> Option<(Facts, u32)>
        ensures { (object : ObjectValue) → IsAt self.now place object →
            result ≡ stock_of (stocks_of self.now) object }
    {
        match self.hot.get_index(place) {
            Some((_, hot)) => hot.stock,
            None => None,
        }
    }

    // Applies an operation to the slice at a home, where there is one of the operation's kind.
    #[inline(always)]
    fn apply_at<O: Operation>(&mut self, home: Home, operation: O)
        requires { HaveAtMost MOST_COMMITS self.old }
        ensures { (object : ObjectValue) → (shards : ℕ) → IsHomeOf self.old shards object home →
            self.new ≡ with_slice_changed object (O.applied operation) self.old }
    {
        let Home::Slice(place) = home else {
            return;
        };
        let Some(hot) = self.hot.get_index_mut(place) else {
            return;
        };
        operation.apply_to(&mut hot.slice);
    }

    /// Applies what an accepted store writes to the slice of its object, where that is hot.
    #[inline(always)]
    pub fn store(&mut self, request: &Request, reply: StoreReply, homes: &Homes)
        requires few { HaveAtMost MOST_COMMITS self.old }
        requires home { IsWrittenAt self.old request.now homes.now }
        ensures written { (worker : ℕ) → IsOwn worker (reply_of reply) →
            self.new
            ≡ slices_after_acts self.old (writes_if (row_of worker request.now (reply_of reply))) }
        ensures few { (n : ℕ) → HaveAtMost n self.old → HaveAtMost (n + 1) self.new }
    {
        match *request {
            Request::StoreItem { time, .. } => {
                if let StoreReply::ItemStored(id) = reply {
                    self.apply_at(homes.other, ItemEntry { time, id });
                }
            }
            Request::StoreBid {
                bidder,
                amount,
                time,
                ..
            } => {
                if let StoreReply::BidStored(id) = reply {
                    self.apply_at(
                        homes.item,
                        BidEntry {
                            amount,
                            time,
                            id,
                            bidder,
                        },
                    );
                }
            }
            Request::StoreComment { stars, .. } => {
                if let StoreReply::CommentStored(_) = reply {
                    self.apply_at(homes.other, stars);
                }
            }
            _ => {}
        }
    }
}

// An identity slice of each of these objects, in an empty table.
fn filled(
    table: IndexMap<Object, Hot>,
    hot: &[(Object, Option<(Facts, u32)>)],
) -> Result<Slices, AllocError>
    requires empty { table.entries ≡ [] }
    requires distinct { IsDistinct same_object (hot_objects hot.now) }
    requires stocked { AllByRecursion IsStocked hot.now }
    ensures { IfOk result (λ slices. slices ≡ slices_of hot.now []) }
{
    let mut slices = table;
    let mut guesses = Guesses::none();
    for (object, stock) in hot {
        guesses.note(*object, slices.len());
        match slices.insert(*object, Hot::new(*object, *stock)) {
            Ok(_) => {}
            Err(_) => return Err(AllocError),
        }
    }
    Ok(Slices {
        hot: slices,
        guesses,
    })
}
