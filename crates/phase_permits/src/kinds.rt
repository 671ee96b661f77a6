//! The two kinds of phases, and what a worker may do in each.
ghost use Rattle.std.specs.Prelude.{◌≡◌, ◌≤◌, ◌<◌, ◌↔◌, [], Bool, false, true, length, Ok, IsNone, IfNone, IfSome, IfOk, IfErr};
ghost use Rattle.item_shards.specs.CommitNumbers.{last_number};

use crate::done::Done;
use crate::permit::Permit;
use auction_rows::{ItemId, MOST_TRIES, Opening, Reply, Request, Stars};
use phase_transactions::{HotStore, PermitFault, WorkerStart};
use shard_boxes::{Boxes, Key, PhaseName};
use std::sync::Wait;
use worker_journals::{BidRequest, Journal};
use worker_slices::{Counters, Slices, Stash};

/// The kind of a phase.
pub trait Kind {
    /// Whether it is a joined one, in which nothing is hot.
    ghost IS_JOINED: { Bool };

    /// Whether it is a joined one, in which nothing is hot.
    const IS_JOINED: bool;
}

/// That of joined phases.
pub struct JoinedPhase;

/// That of split phases.
pub struct SplitPhase;

impl Kind for JoinedPhase {
    ghost IS_JOINED = { true };

    const IS_JOINED: bool = true;
}

impl Kind for SplitPhase {
    ghost IS_JOINED = { false };

    const IS_JOINED: bool = false;
}

impl<N: PhaseName> Permit<N, JoinedPhase> {
    ghost use Rattle.phase_transactions.specs.Performing.{HasCommitted, HasFailed, HaveOpening};
    ghost use Rattle.phase_permits.specs.Dealing.{HasFailedFirst, HasPerformedFirst};
    ghost use Rattle.phase_transactions.specs.Workers.{CanStart, new_worker, with_try};
    ghost use Rattle.phase_permits.specs.Replying.{IsModelReply, IsModelReplyToFirst};

    /// A permit to perform so many requests. It takes no memory.
    pub fn new(
        key: Key<N>,
        opening: Opening,
        counters: Counters,
        journal: Journal,
        stash: Stash,
        quota: u32,
        clock: u64,
    ) -> Permit<N, JoinedPhase>
        requires { CanStart (new_worker key opening counters journal stash [] quota clock) }
        ensures { result ≡ new_worker key opening counters journal stash [] quota clock }
    {
        let slices = Slices::none(stash.alloc());
        Permit::from_start(WorkerStart {
            key,
            opening,
            counters,
            journal,
            stash,
            slices,
            quota,
            clock,
        })
    }

    /// Performs a request of the quota and commits it with its reply. After a fault nothing has
    /// changed but `tries` and what the key has seen of its shards. Only a new item takes memory.
    pub fn perform<R: Wait>(
        &mut self,
        rt: &R,
        boxes: &Boxes<N>,
        request: &Request,
        index: u32,
    ) -> Result<Reply, PermitFault>
        requires of { self.old.key.boxes ≡ boxes.now }
        requires opening { HaveOpening N.initial self.old.opening }
        requires left { 0 < self.old.left }
        requires tries { self.old.tries < MOST_TRIES }
        ensures committed { IfOk result (λ reply.
            HasCommitted N.initial (with_try self.old) self.new request.now index reply) }
        ensures reply { IfOk result (IsModelReply N.initial self.old self.new request.now) }
        ensures failed { IfErr result
            (HasFailed N.initial (with_try self.old) self.new request.now) }
    {
        self.commit(rt, boxes, request, index)?;
        Ok(self.worker.last_reply())
    }

    /// Performs the first stashed request, which uses none of the quota: None exactly where there
    /// is none. After a fault it is still the first, and nothing has changed but `tries` and what
    /// the key has seen of the request's shards. It takes memory only for a new item.
    pub fn perform_stashed<R: Wait>(
        &mut self,
        rt: &R,
        boxes: &Boxes<N>,
    ) -> Result<Option<Reply>, PermitFault>
        requires of { self.old.key.boxes ≡ boxes.now }
        requires opening { HaveOpening N.initial self.old.opening }
        requires tries { self.old.tries < MOST_TRIES }
        ensures none { IfOk result (λ answer. IfNone answer (self.old.stash.requests ≡ [])) }
        ensures unchanged { IfOk result (λ answer. IfNone answer (self.new ≡ with_try self.old)) }
        ensures performed { IfOk result (λ answer. IfSome answer
            (HasPerformedFirst N.initial (with_try self.old) self.new)) }
        ensures reply { IfOk result (λ answer. IfSome answer
            (IsModelReplyToFirst N.initial self.old self.new)) }
        ensures failed { IfErr result (HasFailedFirst N.initial (with_try self.old) self.new) }
    {
        if self.commit_stashed(rt, boxes)? {
            Ok(Some(self.worker.last_reply()))
        } else {
            Ok(None)
        }
    }
}

impl<N: PhaseName> Permit<N, SplitPhase> {
    ghost use Rattle.auction_rows.specs.declared.requests.Object.TheVariants.{Item, User};
    ghost use Rattle.auction_rows.specs.declared.requests.Request.TheVariants.{StoreBid, StoreComment};
    ghost use Rattle.phase_transactions.specs.Performing.{hot_request, HasCommitted, HasFailed, HaveOpening};
    ghost use Rattle.phase_permits.specs.Dealing.{IsUntouched, HasDealtWith};
    ghost use Rattle.phase_transactions.specs.Txns.{is_put_off};
    ghost use Rattle.phase_transactions.specs.Workers.{CanStart, new_worker, with_try};
    ghost use Rattle.phase_permits.specs.Kinds.{IsHot};
    ghost use Rattle.phase_permits.specs.declared.done.Done.TheVariants.{Stashed};
    ghost use Rattle.worker_slices.specs.{Homes.{IsHotStore}, Slicing.{hot_objects}};
    ghost use Rattle.phase_permits.specs.Replying.{IfCommitted, IsModelReply};

    /// A permit to perform so many requests. It takes no memory.
    pub fn new(
        key: Key<N>,
        opening: Opening,
        counters: Counters,
        journal: Journal,
        stash: Stash,
        slices: Slices,
        quota: u32,
        clock: u64,
    ) -> Permit<N, SplitPhase>
        requires { CanStart (new_worker key opening counters journal stash slices quota clock) }
        ensures { result ≡ new_worker key opening counters journal stash slices quota clock }
    {
        Permit::from_start(WorkerStart {
            key,
            opening,
            counters,
            journal,
            stash,
            slices,
            quota,
            clock,
        })
    }

    /// A bid on a hot item: None exactly where the worker's clock is at the end of numbers, and
    /// then nothing has changed. It takes no shard and no memory.
    pub fn bid_hot(
        &mut self,
        bidder: u32,
        item: ItemId,
        amount: u64,
        time: u64,
        index: u32,
    ) -> Option<Reply>
        requires hot { IsHot self.old (Item item) }
        requires left { 0 < self.old.left }
        ensures none { IsNone result ↔ (last_number ≤ self.old.clock) }
        ensures unchanged { IfNone result (self.new ≡ self.old) }
        ensures committed { IfSome result (λ reply.
            HasCommitted N.initial self.old self.new
            (StoreBid bidder item amount time) index reply) }
        ensures reply { IfSome result (IsModelReply N.initial self.old self.new
            (StoreBid bidder item amount time)) }
        ensures key { self.new.key ≡ self.old.key }
    {
        let bid = BidRequest {
            bidder,
            item,
            amount,
            time,
        };
        self.perform_hot(HotStore::Bid(bid), index)
    }

    /// A comment about a hot user on the occasion of a hot item: None exactly where the worker's
    /// clock is at the end of numbers, and then nothing has changed. It takes no shard, no memory.
    pub fn comment_hot(
        &mut self,
        author: u32,
        about: u32,
        item: ItemId,
        stars: Stars,
        index: u32,
    ) -> Option<Reply>
        requires item { IsHot self.old (Item item) }
        requires user { IsHot self.old (User about) }
        requires left { 0 < self.old.left }
        ensures none { IsNone result ↔ (last_number ≤ self.old.clock) }
        ensures unchanged { IfNone result (self.new ≡ self.old) }
        ensures committed { IfSome result (λ reply.
            HasCommitted N.initial self.old self.new
            (StoreComment author about item stars) index reply) }
        ensures reply { IfSome result (IsModelReply N.initial self.old self.new
            (StoreComment author about item stars)) }
        ensures key { self.new.key ≡ self.old.key }
    {
        let comment = HotStore::Comment {
            author,
            about,
            item,
            stars,
        };
        self.perform_hot(comment, index)
    }

    // A store on hot objects alone.
    fn perform_hot(&mut self, store: HotStore, index: u32) -> Option<Reply>
        requires hot { IsHotStore self.old.slices (hot_request store) }
        requires left { 0 < self.old.left }
        ensures none { IsNone result ↔ (last_number ≤ self.old.clock) }
        ensures unchanged { IfNone result (self.new ≡ self.old) }
        ensures committed { IfSome result
            (HasCommitted N.initial self.old self.new (hot_request store) index) }
        ensures reply { IfSome result (IsModelReply N.initial self.old self.new
            (hot_request store)) }
        ensures key { self.new.key ≡ self.old.key }
    {
        self.worker.perform_hot(store, index)?;
        Some(self.worker.last_reply())
    }

    /// Performs a request of the quota. It is put off where it can't be split and touches a hot
    /// object: then it uses no number. Else it is committed, at 1 + the greatest of the worker's
    /// clock and those of the shards that it takes, which are those of its objects that are not
    /// hot. After a fault all but the tries and what the key has seen is as before.
    pub fn perform<R: Wait>(
        &mut self,
        rt: &R,
        boxes: &Boxes<N>,
        request: &Request,
        index: u32,
    ) -> Result<Done, PermitFault>
        requires of { self.old.key.boxes ≡ boxes.now }
        requires opening { HaveOpening N.initial self.old.opening }
        requires left { 0 < self.old.left }
        requires tries { self.old.tries < MOST_TRIES }
        ensures dealt { IfOk result
            (HasDealtWith N.initial (with_try self.old) self.new request.now index) }
        ensures reply { IfOk result (λ done. IfCommitted done
            (IsModelReply N.initial self.old self.new request.now)) }
        ensures stashed { (result ≡ Ok Stashed)
            ↔ (is_put_off (hot_objects self.old.slices) request.now ≡ true) }
        ensures failed { IfErr result
            (HasFailed N.initial (with_try self.old) self.new request.now) }
        ensures untouched { IsUntouched (length N.initial) self.old self.new request.now }
    {
        if self.commit(rt, boxes, request, index)? {
            Ok(Done::Committed(self.worker.last_reply()))
        } else {
            Ok(Done::Stashed)
        }
    }
}
