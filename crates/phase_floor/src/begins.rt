//! How a joined phase begins, and how a split one does.
ghost use Rattle.std.specs.Prelude.{◌≡◌, IfOk, IfErr, ◌↔◌, IsTrue, vec_len};
ghost use Rattle.phase_floor.specs.Begins.{CanBegin, HasRefusedJoined, HasRefusedSplit, OpensJoined, OpensSplit};

use crate::floor::{BeginFault, JoinedFloor, SplitFloor};
use crate::joined::Joined;
use crate::start::{Stocks, is_too_long, new_stashes};
use auction_rows::{Facts, Object};
use indexmap::IndexSet;
use phase_permits::{JoinedPermit, SplitPermit, Stash};
use shard_boxes::PhaseName;
use std::alloc::{AllocError, Global};
use std::sync::Wait;

impl Joined {
    ghost use Rattle.std.specs.List.{AllByRecursion};
    ghost use Rattle.closing_laws.specs.Phases.{IsReadFrom};
    ghost use Rattle.worker_slices.specs.Slicing.{hot_objects, IsStocked};
    ghost use Rattle.phase_floor.specs.States.{DoesExist, DoAllExist, states_of};

    /// Begins a joined phase: a permit for each worker to perform what waits in its stash and its
    /// quota. The phase is of this state's shards and workers, and its number is below 2^64 - 1. If
    /// it does not begin, the state and the stashes come back unchanged: `TooLong` if some worker's
    /// commits, stash and quota are more than the state's limit together, `Memory` if none is left.
    pub fn begin_joined<N: PhaseName, R: Wait>(
        self,
        rt: &R,
        alloc: Global,
        quotas: &[u32],
        stashes: Vec<Stash>,
    ) -> Result<(JoinedFloor<N>, Vec<JoinedPermit<N>>), (Joined, Vec<Stash>, BeginFault)>
        requires can { CanBegin N.initial N.workers self quotas.now }
        requires stashes { vec_len stashes ≡ N.workers }
        ensures begun { IfOk result (λ begun.
            OpensJoined self quotas.now stashes.items begun.0 begun.1.items) }
        ensures refused { IfErr result (λ refused.
            HasRefusedJoined self stashes quotas.now refused.0 refused.1 refused.2) }
    {
        if is_too_long(self.limit, &self.counters, &stashes, quotas) {
            return Err((self, stashes, BeginFault::TooLong));
        }
        match self.begin(rt, alloc, Vec::new(alloc), quotas, stashes) {
            Ok(begun) => Ok(begun),
            Err((state, stashes)) => Err((state, stashes, BeginFault::Memory)),
        }
    }

    /// Begins a split phase: a permit for each worker to perform its quota, with a slice of each
    /// hot object. The phase is of this state's shards and workers, and its number is below 2^64 -
    /// 1. If it does not begin, the state comes back unchanged: `UnknownHot` if a hot object does
    /// not exist, then `TooLong` if some worker's commits and quota are more than the state's limit
    /// together, then `Memory` if none is left.
    pub fn begin_split<N: PhaseName, R: Wait>(
        self,
        rt: &R,
        alloc: Global,
        quotas: &[u32],
        hot: &IndexSet<Object>,
    ) -> Result<(SplitFloor<N>, Vec<SplitPermit<N>>), (Joined, BeginFault)>
        requires can { CanBegin N.initial N.workers self quotas.now }
        ensures begun { IfOk result (λ begun.
            OpensSplit self quotas.now hot.now.keys begun.0 begun.1.items) }
        ensures refused { IfErr result (λ refused.
            HasRefusedSplit self quotas.now hot.now.keys refused.0 refused.1) }
    {
        self.begin_split_in(rt, alloc, quotas, hot, Vec::new(alloc))
    }

    /// As `begin_split`, in the memory of stashes that are needed no more.
    pub fn begin_split_in<N: PhaseName, R: Wait>(
        self,
        rt: &R,
        alloc: Global,
        quotas: &[u32],
        hot: &IndexSet<Object>,
        spent: Vec<Stash>,
    ) -> Result<(SplitFloor<N>, Vec<SplitPermit<N>>), (Joined, BeginFault)>
        requires can { CanBegin N.initial N.workers self quotas.now }
        ensures begun { IfOk result (λ begun.
            OpensSplit self quotas.now hot.now.keys begun.0 begun.1.items) }
        ensures refused { IfErr result (λ refused.
            HasRefusedSplit self quotas.now hot.now.keys refused.0 refused.1) }
    {
        let objects = hot.as_slice();
        if !self.do_exist(objects) {
            return Err((self, BeginFault::UnknownHot));
        }
        if is_too_long(self.limit, &self.counters, &[], quotas) {
            return Err((self, BeginFault::TooLong));
        }
        let Ok(stocks) = self.stocks_of(alloc, objects) else {
            return Err((self, BeginFault::Memory));
        };
        let Ok(stashes) = new_stashes(alloc, quotas, spent) else {
            return Err((self, BeginFault::Memory));
        };
        match self.begin(rt, alloc, stocks, quotas, stashes) {
            Ok(begun) => Ok(begun),
            Err((state, _)) => Err((state, BeginFault::Memory)),
        }
    }

    // Whether an object is one of the auction.
    fn does_exist(&self, object: Object) -> bool
        ensures { IsTrue result ↔ DoesExist self.now.opening (states_of self.now) object }
    {
        match object {
            Object::Item(item) => self.shard(object).stock(item).is_some(),
            Object::User(user) => user < self.opening.users,
            Object::Category(category) => category < self.opening.categories,
        }
    }

    // Whether all objects are of the auction.
    fn do_exist(&self, objects: &[Object]) -> bool
        ensures { IsTrue result ↔ DoAllExist self.now.opening (states_of self.now) objects.now }
    {
        for object in objects {
            if !self.does_exist(*object) {
                return false;
            }
        }
        true
    }

    // What is fixed of an object while it is hot.
    fn stock_of(&self, object: Object) -> Option<(Facts, u32)>
        ensures read { IsReadFrom (states_of self.now) (object, result) }
        ensures stocked { DoesExist self.now.opening (states_of self.now) object →
            IsStocked (object, result) }
    {
        match object {
            Object::Item(item) => self.shard(object).stock(item),
            _ => None,
        }
    }

    // What is fixed of each object while it is hot: of an item its facts and how many are left.
    fn stocks_of(&self, alloc: Global, objects: &[Object]) -> Result<Stocks, AllocError>
        requires exist { DoAllExist self.now.opening (states_of self.now) objects.now }
        ensures objects { IfOk result (λ stocks. hot_objects stocks.items ≡ objects.now) }
        ensures stocked { IfOk result (λ stocks. AllByRecursion IsStocked stocks.items) }
        ensures read { IfOk result (λ stocks.
            AllByRecursion (IsReadFrom (states_of self.now)) stocks.items) }
    {
        let mut stocks = Vec::with_capacity(alloc, objects.len())?;
        for object in objects {
            stocks.push((*object, self.stock_of(*object)))?;
        }
        Ok(stocks)
    }
}
