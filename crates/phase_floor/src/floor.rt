//! A phase that is open, and why a phase does not begin or close.
ghost use Rattle.std.specs.Prelude.{◌≡◌};
ghost use Rattle.phase_transactions.specs.Performing.{HaveOpening};

use crate::memory::Memory;
use crate::start::Stocks;
use auction_rows::Opening;
use phase_permits::{Counters, JoinedPhase, Kind, SplitPhase};
use shard_boxes::{Boxes, PhaseName};
use std::alloc::AllocError;
use std::marker::{Model, PhantomData};
use thiserror::Error;

/// Why a phase did not begin: the first that holds, in this order.
#[derive(Clone, Copy, Debug, PartialEq, Eq, Drop, Error)]
pub enum BeginFault {
    /// A hot object does not exist.
    #[error("no such hot object")]
    UnknownHot,
    /// What a worker has committed, what waits in its stash and its quota are more than it may
    /// commit: 1,000,000 requests, unless the auction is a lasting one.
    #[error("more requests than a worker may commit")]
    TooLong,
    /// No memory was left.
    #[error("no memory")]
    Memory,
}

/// Why a phase did not close: then the run is over.
#[derive(Clone, Copy, Debug, PartialEq, Eq, Drop, Error)]
pub enum FloorFault {
    /// No memory was left.
    #[error("no memory")]
    Memory,
}

impl From<AllocError> for FloorFault {
    ghost use Rattle.phase_floor.specs.declared.floor.FloorFault.TheVariants.{Memory};

    ghost from_gives = { λ _ fault. fault ≡ Memory };

    fn from(_refused: AllocError) -> FloorFault {
        FloorFault::Memory
    }
}

/// A phase that is open. It ends by `close`.
#[derive(Drop)]
pub struct Floor<N: PhaseName, K: Kind> {
    pub(crate) opening: Opening,
    pub(crate) limit: u64,
    pub(crate) phase: u64,
    pub(crate) counters: Vec<Counters>,
    pub(crate) stocks: Stocks,
    pub(crate) boxes: Boxes<N>,
    pub(crate) memory: Memory,
    pub(crate) kind: PhantomData<K>,
}

/// A joined phase that is open.
pub type JoinedFloor<N> = Floor<N, JoinedPhase>;

/// A split phase that is open.
pub type SplitFloor<N> = Floor<N, SplitPhase>;

impl<N: PhaseName, K: Kind> Model for Floor<N, K> {
    ghost use Rattle.phase_permits.specs.Kinds.{IsEmptyIf};
    ghost use Rattle.phase_floor.specs.Floors.{FloorState, IsOpen};

    ghost Value = { FloorState };

    ghost view = { λ f. record {
      opening = f.opening;
      limit = f.limit;
      phase = f.phase;
      counters = f.counters.items;
      stocks = f.stocks.items;
      boxes = f.boxes;
    } };

    ghost invariant = { λ f. IsEmptyIf K.IS_JOINED f.stocks.items
        × IsOpen N.initial N.workers (record {
          opening = f.opening;
          limit = f.limit;
          phase = f.phase;
          counters = f.counters.items;
          stocks = f.stocks.items;
          boxes = f.boxes;
        }) };
}

impl<N: PhaseName, K: Kind> Floor<N, K> {
    /// The boxes to which the permits' keys are. Their shards are of the phase's auction.
    pub fn boxes(&self) -> &Boxes<N>
        ensures boxes { result.now ≡ self.now.boxes }
        ensures opening { HaveOpening N.initial self.now.opening }
    {
        &self.boxes
    }
}
