//! A shard out of its box, and what it allows.
ghost use Rattle.std.specs.{Borrow.{Lends, sem}, Prelude.{◌≡◌, ◌<◌, ◌≤◌, ℕ, length}};
ghost use Rattle.item_shards.specs.contracts.shard.Shard.{the_row as shard_row};
ghost use Rattle.shard_boxes.specs.contracts.held.Held.{the_row};

use crate::boxes::PhaseName;
use item_shards::Shard;
use std::marker::{Model, PhantomData};

/// A shard that was taken out of its box. It must be put back by `Boxes::put`, `put_acts` or
/// `put_bid`: it can't be dropped.
pub struct Held<N: PhaseName> {
    number: u32,
    shard: Shard,
    of: PhantomData<N>,
}

impl<N: PhaseName> Model for Held<N> {
    ghost use Rattle.std.specs.Prelude.{◌<◌, length};
    ghost use Rattle.shard_boxes.specs.Helds.{HeldState, held_code};

    ghost Value = { HeldState };

    ghost coded = { held_code };

    ghost view = { λ h. record { number = h.number; shard = h.shard } };

    ghost invariant = { λ h. h.number < length N.initial };
}

impl<N: PhaseName> Held<N> {
    #[inline(always)]
    pub(crate) fn new(number: u32, shard: Shard) -> Held<N>
        requires { number < length N.initial }
        ensures number { result.number ≡ number }
        ensures shard { result.shard ≡ shard }
    {
        Held {
            number,
            shard,
            of: PhantomData,
        }
    }

    // The shard with its number.
    #[inline(always)]
    pub(crate) fn open(self) -> (u32, Shard)
        ensures known { self.number < length N.initial }
        ensures number { result.0 ≡ self.number }
        ensures shard { result.1 ≡ self.shard }
    {
        let Held {
            number,
            shard,
            of: _,
        } = self;
        (number, shard)
    }

    /// The number of the shard.
    #[inline(always)]
    pub fn number(&self) -> u32
        ensures { result ≡ self.now.number }
    {
        self.number
    }

    /// The shard.
    #[inline(always)]
    pub fn shard(&self) -> &Shard
        ensures { result.now ≡ self.now.shard }
    {
        &self.shard
    }

    /// The shard, to change it as its own methods do.
    #[inline(always)]
    pub fn shard_mut(&mut self) -> &mut Shard
        ensures* lends { sem 𝓛 (Lends (the_row N.row N.PhaseName) shard_row self.entry result
            (λ w. record self.old { shard = w })) }
        ensures value { result.now ≡ self.old.shard }
    {
        &mut self.shard
    }
}
