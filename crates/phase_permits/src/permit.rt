//! A worker's right to perform in a phase, and what it leaves.
ghost use Rattle.std.specs.Prelude.{◌≡◌, ◌≤◌, ◌<◌, ◌↔◌, [], length, true, false, slice_get, Ok, Some, IfOk, IfErr};
ghost use Rattle.phase_permits.specs.Kinds.{IsEmptyIf};
ghost use Rattle.phase_transactions.specs.Workers.{CanStart, IsExplained, new_worker, with_try};

use crate::kinds::{JoinedPhase, Kind, SplitPhase};
use auction_rows::{MOST_TRIES, Object, Request};
use phase_transactions::{PermitFault, Worker, WorkerStart};
use shard_boxes::{Boxes, Key, MOST_COMMITS, PhaseName};
use std::marker::{Model, PhantomData};
use std::sync::Wait;
use worker_journals::{BidRequest, Journal};
use worker_slices::{Counters, Slices, Stash};

/// A worker's right to perform in a phase. It must be spent by `finish`.
pub struct Permit<N: PhaseName, K: Kind> {
    pub(crate) worker: Worker<N>,
    kind: PhantomData<K>,
}

/// A worker's right to perform in a joined phase.
pub type JoinedPermit<N> = Permit<N, JoinedPhase>;

/// A worker's right to perform in a split phase.
pub type SplitPermit<N> = Permit<N, SplitPhase>;

impl<N: PhaseName, K: Kind> Model for Permit<N, K> {
    ghost use Rattle.std.specs.Prelude.{length};
    ghost use Rattle.phase_transactions.specs.Workers.{WorkerState};
    ghost use Rattle.phase_permits.specs.inner.Permits.{IsPermit};

    ghost Value = { WorkerState };

    ghost view = { λ p. p.worker };

    ghost invariant = { λ p. IsPermit K.IS_JOINED (length N.initial) p.worker };
}

/// What a finished permit leaves: its journal, its slices, its stash, its key and its counters.
pub struct Receipt<N: PhaseName, K: Kind> {
    worker: Worker<N>,
    kind: PhantomData<K>,
}

// Not derived: a derived drop is made and proved anew in each crate that lets one go.
impl<N: PhaseName, K: Kind> Drop for Receipt<N, K> {
    fn drop(self) {
        let Self { worker, kind: _ } = self;
        drop(worker);
    }
}

/// What a finished joined permit leaves.
pub type JoinedReceipt<N> = Receipt<N, JoinedPhase>;

/// What a finished split permit leaves.
pub type SplitReceipt<N> = Receipt<N, SplitPhase>;

impl<N: PhaseName, K: Kind> Model for Receipt<N, K> {
    ghost use Rattle.std.specs.Prelude.{length};
    ghost use Rattle.phase_transactions.specs.Workers.{WorkerState};
    ghost use Rattle.phase_permits.specs.inner.Permits.{IsPermit};

    ghost Value = { WorkerState };

    ghost view = { λ p. p.worker };

    ghost invariant = { λ p. IsPermit K.IS_JOINED (length N.initial) p.worker };
}

impl<N: PhaseName, K: Kind> Permit<N, K> {
    ghost use Rattle.auction_rows.specs.Footprint.{is_hot};
    ghost use Rattle.phase_permits.specs.Dealing.{HasDealt, HasFailedFirst, HasPerformedFirstSome, IsUntouched};
    ghost use Rattle.phase_transactions.specs.Performing.{HasFailed, HaveOpening};
    ghost use Rattle.phase_transactions.specs.Txns.{is_put_off};
    ghost use Rattle.request_scripts.specs.Scripts.{request_of};
    ghost use Rattle.worker_slices.specs.Slicing.{hot_objects};

    /// A permit with what its worker starts a phase with. It takes no memory.
    pub fn from_start(start: WorkerStart<N>) -> Permit<N, K>
        requires kind { IsEmptyIf K.IS_JOINED start.slices }
        requires can { CanStart (new_worker start.key start.opening start.counters start.journal
            start.stash start.slices start.quota start.clock) }
        ensures { result ≡ new_worker start.key start.opening start.counters start.journal
            start.stash start.slices start.quota start.clock }
    {
        Permit {
            worker: Worker::new(start),
            kind: PhantomData,
        }
    }

    /// Performs a request of the quota, as `perform` does, without its reply: false if put off.
    #[inline(always)]
    pub fn commit<R: Wait>(
        &mut self,
        rt: &R,
        boxes: &Boxes<N>,
        request: &Request,
        index: u32,
    ) -> Result<bool, PermitFault>
        requires of { self.old.key.boxes ≡ boxes.now }
        requires opening { HaveOpening N.initial self.old.opening }
        requires left { 0 < self.old.left }
        requires tries { self.old.tries < MOST_TRIES }
        ensures dealt { IfOk result
            (HasDealt N.initial (with_try self.old) self.new request.now index) }
        ensures stashed { (result ≡ Ok false)
            ↔ (is_put_off (hot_objects self.old.slices) request.now ≡ true) }
        ensures joined { K.IS_JOINED ≡ true → IfOk result (λ committed. committed ≡ true) }
        ensures failed { IfErr result
            (HasFailed N.initial (with_try self.old) self.new request.now) }
        ensures untouched { IsUntouched (length N.initial) self.old self.new request.now }
    {
        self.worker.count_try();
        if self.worker.is_put_off(request) {
            self.worker.put_off(index, request);
            return Ok(false);
        }
        self.worker.transact(rt, boxes, request, index)?;
        Ok(true)
    }

    /// Performs a bid of the quota, as `commit` does.
    #[inline(always)]
    pub fn commit_bid<R: Wait>(
        &mut self,
        rt: &R,
        boxes: &Boxes<N>,
        bid: &BidRequest,
        index: u32,
    ) -> Result<bool, PermitFault>
        requires of { self.old.key.boxes ≡ boxes.now }
        requires opening { HaveOpening N.initial self.old.opening }
        requires left { 0 < self.old.left }
        requires tries { self.old.tries < MOST_TRIES }
        ensures dealt { IfOk result
            (HasDealt N.initial (with_try self.old) self.new (request_of bid.now) index) }
        ensures committed { IfOk result (λ committed. committed ≡ true) }
        ensures failed { IfErr result
            (HasFailed N.initial (with_try self.old) self.new (request_of bid.now)) }
        ensures untouched { IsUntouched (length N.initial) self.old self.new
            (request_of bid.now) }
    {
        self.worker.count_try();
        self.worker.transact_bid(rt, boxes, bid, index)?;
        Ok(true)
    }

    /// Performs the first stashed request of a joined phase, as `perform_stashed` does: false
    /// exactly where there is none. Its reply is left in the journal.
    pub fn commit_stashed<R: Wait>(&mut self, rt: &R, boxes: &Boxes<N>) -> Result<bool, PermitFault>
        requires joined { K.IS_JOINED ≡ true }
        requires of { self.old.key.boxes ≡ boxes.now }
        requires opening { HaveOpening N.initial self.old.opening }
        requires tries { self.old.tries < MOST_TRIES }
        ensures none { IfOk result (λ some. some ≡ false → self.old.stash.requests ≡ []) }
        ensures unchanged { IfOk result (λ some. some ≡ false → self.new ≡ with_try self.old) }
        ensures performed { IfOk result (λ some. some ≡ true →
            HasPerformedFirstSome N.initial (with_try self.old) self.new) }
        ensures failed { IfErr result (HasFailedFirst N.initial (with_try self.old) self.new) }
    {
        let Some((index, request)) = self.worker.unstash() else {
            self.worker.count_try();
            return Ok(false);
        };
        match self.commit(rt, boxes, &request, index) {
            Ok(_) => Ok(true),
            Err(fault) => {
                self.worker.restash();
                Err(fault)
            }
        }
    }

    /// How many requests of the quota are left: one that is put off counts as used.
    pub fn left(&self) -> u32
        ensures { result ≡ self.now.left }
    {
        self.worker.left()
    }

    /// How many requests were put off: in a joined phase those of the last split one that are still
    /// to be performed.
    pub fn stashed(&self) -> usize
        ensures { result ≡ length self.now.stash.requests }
    {
        self.worker.stashed()
    }

    /// The first of these, with its index.
    pub fn first_stashed(&self) -> Option<(u32, Request)>
        ensures { result ≡ slice_get self.now.stash.requests 0 }
    {
        self.worker.stashed_at(0)
    }

    /// The request at a place among those put off, with its index.
    pub fn stashed_at(&self, place: usize) -> Option<(u32, Request)>
        ensures { result ≡ slice_get self.now.stash.requests place }
    {
        self.worker.stashed_at(place)
    }

    /// How many calls of `perform`, `commit`, `perform_stashed` and `commit_stashed` were made.
    pub fn tries(&self) -> u32
        ensures { result ≡ self.now.tries }
    {
        self.worker.tries()
    }

    /// Whether an object is one of those that the slices are of: none is in a joined phase.
    pub fn is_hot(&self, object: Object) -> bool
        ensures slices { result ≡ is_hot (hot_objects self.now.slices) object }
        ensures joined { K.IS_JOINED ≡ true → result ≡ false }
    {
        self.worker.is_hot(object)
    }

    /// Spends the permit.
    pub fn finish(self) -> Receipt<N, K>
        ensures { result ≡ self }
    {
        let Permit { worker, kind } = self;
        Receipt { worker, kind }
    }
}

impl<N: PhaseName, K: Kind> Receipt<N, K> {
    ghost use Rattle.worker_slices.specs.Slicing.{HaveAtMost};

    /// The journal, the slices, the stash, the key and the counters, which are explained by its
    /// transactions. There is no slice in a joined phase.
    pub fn parts(self) -> (Journal, Slices, Stash, Key<N>, Counters)
        ensures journal { result.0 ≡ self.journal }
        ensures slices { result.1 ≡ self.slices }
        ensures stash { result.2 ≡ self.stash }
        ensures key { result.3 ≡ self.key }
        ensures counters { result.4 ≡ self.counters }
        ensures explained { IsExplained (length N.initial) self }
        ensures room { length self.journal.entries ≤ self.journal.room }
        ensures limit { self.counters.commits ≤ MOST_COMMITS }
        ensures few { HaveAtMost MOST_COMMITS self.slices }
        ensures kind { IsEmptyIf K.IS_JOINED self.slices }
    {
        let Receipt { worker, kind: _ } = self;
        worker.parts()
    }
}
