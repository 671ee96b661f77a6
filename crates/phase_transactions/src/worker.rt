//! A worker in a phase, and what it has committed.
ghost use Rattle.std.specs.Prelude.{◌≡◌, ◌<◌, ◌≤◌, false, true, [], length, slice_get, Some, IfNone, IfSome};
ghost use Rattle.auction_rows.specs.{Footprint.{is_hot}, StoreReplies.{reply_of}};
ghost use Rattle.auction_rows.specs.declared.requests.Object.TheVariants.{Item};
ghost use Rattle.worker_slices.specs.{Counting.{IsOwn}, Homes.{IsWrittenAt}};
ghost use Rattle.worker_slices.specs.Slicing.{hot_objects, HaveAtMost};
ghost use Rattle.phase_transactions.specs.{Txns.{is_put_off}, WorkerFields.{state_in, AreLawful}};
ghost use Rattle.phase_transactions.specs.Workers.{WorkerState, CanStart, new_worker, next_bid, next_item, last_reply, with_try, after_putting_off, with_first_unstashed, with_entry, after_commit};

use crate::asked::Call;
use crate::deeds::Store;
use auction_rows::{BidId, ItemId, MOST_TRIES, Object, Opening, Reply, Request};
use shard_boxes::{Key, MOST_COMMITS, PhaseName};
use std::marker::Model;
use worker_journals::{Answer, Journal, ReplyForm};
use worker_slices::{Counters, Slices, Stash};

/// What a worker has in a phase: its right to take shards, and what no other worker touches.
#[derive(Drop)]
pub struct Worker<N: PhaseName> {
    // Its number.
    pub(crate) worker: u32,
    // How many shards the phase has.
    pub(crate) shards: u32,
    pub(crate) key: Key<N>,
    pub(crate) opening: Opening,
    pub(crate) counters: Counters,
    pub(crate) journal: Journal,
    pub(crate) stash: Stash,
    pub(crate) slices: Slices,
    pub(crate) left: u32,
    pub(crate) tries: u32,
    pub(crate) clock: u64,
    // The counters and the clock with which it began: only proofs read them.
    pub(crate) begun: (Counters, u64),
}

/// What a worker starts a phase with.
pub struct WorkerStart<N: PhaseName> {
    pub key: Key<N>,
    pub opening: Opening,
    pub counters: Counters,
    pub journal: Journal,
    pub stash: Stash,
    pub slices: Slices,
    pub quota: u32,
    pub clock: u64,
}

impl<N: PhaseName> Model for Worker<N> {
    ghost Value = { WorkerState };

    ghost view = { state_in };

    ghost invariant = { λ w. AreLawful (length N.initial) w };
}

impl<N: PhaseName> Worker<N> {
    /// A worker with what it starts a phase with. It takes no memory.
    pub fn new(start: WorkerStart<N>) -> Worker<N>
        requires { CanStart (new_worker start.key start.opening start.counters start.journal
            start.stash start.slices start.quota start.clock) }
        ensures { result ≡ new_worker start.key start.opening start.counters start.journal
            start.stash start.slices start.quota start.clock }
    {
        let WorkerStart {
            key,
            opening,
            counters,
            journal,
            stash,
            slices,
            quota,
            clock,
        } = start;
        Worker {
            worker: journal.worker(),
            shards: key.shards(),
            key,
            opening,
            counters,
            journal,
            stash,
            slices,
            left: quota,
            tries: 0,
            clock,
            begun: (counters, clock),
        }
    }

    /// How many requests of the quota are left: one that is put off counts as used.
    #[inline]
    pub fn left(&self) -> u32
        ensures { result ≡ self.now.left }
    {
        self.left
    }

    /// How often it tried.
    #[inline]
    pub fn tries(&self) -> u32
        ensures { result ≡ self.now.tries }
    {
        self.tries
    }

    /// How many requests wait.
    #[inline]
    pub fn stashed(&self) -> usize
        ensures { result ≡ length self.now.stash.requests }
    {
        self.stash.len()
    }

    /// The waiting request at a place, with its index: the first has waited longest.
    #[inline]
    pub fn stashed_at(&self, place: usize) -> Option<(u32, Request)>
        ensures { result ≡ slice_get self.now.stash.requests place }
    {
        self.stash.get(place)
    }

    /// Counts a try.
    #[inline(always)]
    pub fn count_try(&mut self)
        requires few { self.old.tries < MOST_TRIES }
        ensures { self.new ≡ with_try self.old }
    {
        self.tries += 1;
    }

    /// The id of its next item, which is never hot.
    #[inline(always)]
    pub(crate) fn next_item(&self) -> ItemId
        ensures next { result ≡ next_item self.now }
        ensures cold { is_hot (hot_objects self.now.slices) (Item result) ≡ false }
    {
        ItemId {
            worker: self.worker,
            serial: self.counters.items,
        }
    }

    /// The id of its next bid.
    #[inline(always)]
    pub(crate) fn next_bid(&self) -> BidId
        ensures { result ≡ next_bid self.now }
    {
        BidId {
            worker: self.worker,
            serial: self.counters.bids,
        }
    }

    /// Whether an object is one of those that the slices are of.
    #[inline(always)]
    pub fn is_hot(&self, object: Object) -> bool
        ensures { result ≡ is_hot (hot_objects self.now.slices) object }
    {
        self.slices.place_of(object).is_some()
    }

    /// Whether a request waits: it can't be split, and touches a hot object.
    #[inline(always)]
    pub fn is_put_off(&self, request: &Request) -> bool
        ensures { result ≡ is_put_off (hot_objects self.now.slices) request.now }
    {
        match *request {
            Request::BuyNow { item, .. }
            | Request::ViewItem { item }
            | Request::ViewBids { item } => self.is_hot(Object::Item(item)),
            Request::ViewCategory { category } => self.is_hot(Object::Category(category)),
            Request::ViewUser { user } => self.is_hot(Object::User(user)),
            _ => false,
        }
    }

    /// Puts off a request of the quota: no number is used. It takes no memory.
    pub fn put_off(&mut self, index: u32, request: &Request)
        requires put_off { is_put_off (hot_objects self.old.slices) request.now ≡ true }
        requires left { 0 < self.old.left }
        ensures { self.new ≡ after_putting_off self.old index request.now }
    {
        self.left -= 1;
        self.stash.push(index, *request);
    }

    /// Takes the first stashed request into the quota, if there is one. It takes no memory.
    pub fn unstash(&mut self) -> Option<(u32, Request)>
        requires joined { self.old.slices ≡ [] }
        ensures first { result ≡ slice_get self.old.stash.requests 0 }
        ensures none { IfNone result (self.new ≡ self.old) }
        ensures called { IfSome result (λ _. self.new ≡ with_first_unstashed self.old) }
        ensures some { IfSome result (λ _. 0 < length self.old.stash.requests) }
    {
        let first = self.stash.get(0)?;
        self.stash.forget_first();
        self.left += 1;
        Some(first)
    }

    /// Puts the request that was last taken out of the stash back in front of it.
    pub fn restash(&mut self)
        requires joined { self.old.slices ≡ [] }
        requires called { 0 < length self.old.stash.done }
        requires left { 0 < self.old.left }
        ensures some { 0 < length self.new.stash.requests }
        ensures before { self.old ≡ with_first_unstashed self.new }
    {
        self.left -= 1;
        self.stash.recall();
    }

    /// Commits a request of the quota, but for its slices. It takes no memory.
    #[inline(always)]
    pub(crate) fn add_entry(&mut self, number: u64, call: Call<'_>, reply: &Answer<'_>)
        requires left { 0 < self.old.left }
        requires after { self.old.clock < number }
        ensures entry { self.new ≡ with_entry self.old number call.entry.index
            call.entry.request.now reply.now }
        ensures few { HaveAtMost self.old.counters.commits self.new.slices }
    {
        let Call { request, index } = call;
        self.left -= 1;
        self.counters.count(reply);
        self.journal.push_answer(number, index, request, reply);
        self.clock = number;
    }

    /// Commits a store of the quota, and applies it to the slice of what it writes.
    #[inline(always)]
    pub(crate) fn add_store(&mut self, number: u64, store: &Store<'_>)
        requires left { 0 < self.old.left }
        requires after { self.old.clock < number }
        requires home { IsWrittenAt self.old.slices store.now.call.request.now store.now.homes.now }
        requires own { IsOwn self.old.journal.worker (reply_of store.now.reply) }
        ensures { self.new ≡ after_commit self.old number store.now.call.index
            store.now.call.request.now (reply_of store.now.reply) }
    {
        let answer = Answer {
            form: ReplyForm::Store(store.reply),
        };
        self.add_entry(number, store.call, &answer);
        let request = store.call.request;
        self.slices.store(request, store.reply, store.homes);
    }

    /// The reply of its last commit in this phase.
    pub fn last_reply(&self) -> Reply
        requires { 0 < length self.now.journal.entries }
        ensures { last_reply self.now.journal.entries ≡ Some result }
    {
        let last = self.journal.entry(self.journal.len() - 1);
        last.reply()
    }

    /// Its journal, slices, stash, key and counters.
    pub fn parts(self) -> (Journal, Slices, Stash, Key<N>, Counters)
        ensures journal { result.0 ≡ self.journal }
        ensures slices { result.1 ≡ self.slices }
        ensures stash { result.2 ≡ self.stash }
        ensures key { result.3 ≡ self.key }
        ensures counters { result.4 ≡ self.counters }
        ensures room { length self.journal.entries ≤ self.journal.room }
        ensures limit { self.counters.commits ≤ MOST_COMMITS }
        ensures few { HaveAtMost MOST_COMMITS self.slices }
    {
        let Worker {
            key,
            counters,
            journal,
            stash,
            slices,
            ..
        } = self;
        (journal, slices, stash, key, counters)
    }
}
