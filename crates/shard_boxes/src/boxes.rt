//! The name of a phase and its boxes, and how a worker takes a shard and puts it back.
ghost use Rattle.std.specs.Prelude.{◌≡◌, ◌<◌, length, true, option_map};
ghost use Rattle.item_shards.specs.Acting.{CanDo};
ghost use Rattle.shard_boxes.specs.Helds.{taken_at, CanBid, IsHeldFor, IsPutWith, MayGoBack};
ghost use Rattle.shard_boxes.specs.Keys.{taking, putting, lines_at, seen_at, holds_at, HoldsNoneFrom};
ghost use Rattle.shard_boxes.specs.Lines.{bid_refusal_on, line_of, line_of_bid, lines_of, seen_line, StartsWith, IsShardHistory};
ghost use Rattle.shard_boxes.specs.States.{state_of};

use crate::held::Held;
use crate::key::Key;
use crate::line::{ItemBid, Line, Numbered};
use crate::shard_box::ShardBox;
use auction_rows::Refusal;
use item_shards::{Act, Shard};
use std::marker::{Brand, Model, PhantomData};
use std::sync::Wait;

/// Names what the shards of a phase show as it opens, and the number of its workers. Who runs a
/// phase is generic in the name, and is called with `Brand`.
pub trait PhaseName {
    ghost use Rattle.std.specs.Prelude.{ℕ, List};
    ghost use Rattle.shard_boxes.specs.States.{ShardState};

    /// What the shards show with which the phase opens.
    ghost initial: { List ShardState };

    /// The number of keys.
    ghost workers: { ℕ };
}

impl PhaseName for Brand {
    ghost use Rattle.std.specs.Prelude.{[]};

    ghost initial = { [] };

    ghost workers = { 0 };
}

/// The boxes of one phase, one for each of its 1 to 64 shards. They are shared by reference, and no
/// lock is taken.
#[derive(Drop)]
pub struct Boxes<N: PhaseName> {
    pub(crate) boxes: Vec<ShardBox>,
    // What closing gives: empty until then, with room for all shards, so that it takes no memory.
    pub(crate) closed_shards: Vec<Shard>,
    pub(crate) of: PhantomData<N>,
}

impl<N: PhaseName> Model for Boxes<N> {
    ghost use Rattle.std.specs.Prelude.{◌≡◌, ◌<◌, ◌≤◌, List, length, vec_len, vec_capacity};
    ghost use Rattle.auction_rows.specs.declared.limits.TheConstants.{MOST_SHARDS};
    ghost use Rattle.shard_boxes.specs.{Keys.{BoxId}, States.{AreInitial}};

    ghost Value = { List BoxId };

    ghost view = { λ b. b.boxes.items };

    ghost invariant = { λ b. (vec_len b.boxes ≡ length N.initial)
        × (length N.initial ≤ MOST_SHARDS) × (0 < N.workers)
        × (vec_len b.closed_shards ≡ 0) × (length N.initial ≤ vec_capacity b.closed_shards)
        × (0 < length N.initial) × AreInitial N.initial };
}

impl<N: PhaseName> Boxes<N> {
    /// How many shards there are, 1 to 64.
    #[inline(always)]
    pub fn shards(&self) -> u32
        ensures count { result ≡ length N.initial }
        ensures some { 0 < length N.initial }
    {
        self.boxes.len() as u32
    }

    /// Takes a shard: it tries until the shard is in its box. A key that holds shards takes only
    /// greater ones: then workers don't wait for one another in a ring. It takes no memory.
    #[inline(always)]
    pub fn take<R: Wait>(&self, rt: &R, key: &mut Key<N>, s: u32) -> Held<N>
        requires of { key.old.boxes ≡ self.now }
        requires known { s < length N.initial }
        requires rising { HoldsNoneFrom key.old s }
        ensures seats { length key.old.seats ≡ length N.initial }
        ensures key { key.new ≡ taking key.old s (seen_at key.new s) }
        ensures holds { holds_at key.new s ≡ true }
        ensures number { result.number ≡ s }
        ensures history { IsShardHistory N.initial N.workers s (seen_at key.new s)
            (state_of result.shard) }
        ensures later { StartsWith (seen_at key.new s) (seen_at key.old s) }
        ensures own { lines_of key.old.worker (seen_at key.new s) ≡ lines_at key.old s }
    {
        let shard = key.take(rt, &self.boxes[s as usize], s as usize);
        Held::new(s, shard)
    }

    /// Puts a shard back: as it was taken, or after a line that the caller made. It takes no
    /// memory.
    #[inline(always)]
    pub fn put<R: Wait>(&self, rt: &R, key: &mut Key<N>, held: Held<N>, line: Option<Line>)
        requires of { key.old.boxes ≡ self.now }
        requires holder { holds_at key.old held.number ≡ true }
        requires may { MayGoBack (taken_at N.initial key.old held.number) (state_of held.shard)
            line }
        ensures { key.new ≡ putting key.old held.number
            (option_map (seen_line (taken_at N.initial key.old held.number)) line) }
    {
        let shard_box = &self.boxes[held.number() as usize];
        key.put_made::<Brand, R>(rt, shard_box, held, line);
    }

    /// Does two acts on a shard that is as it was taken, one after the other, and puts it back
    /// after their line. The number is after the shard's clock, and at most `LAST_NUMBER`. It takes
    /// no memory.
    #[inline(always)]
    pub fn put_acts<R: Wait>(
        &self,
        rt: &R,
        key: &mut Key<N>,
        held: Held<N>,
        at: Numbered,
        acts: &[Act; 2],
    )
        requires of { key.old.boxes ≡ self.now }
        requires held { IsHeldFor N.initial key.old held at.number }
        requires can { CanDo held.shard acts.now }
        ensures { IsPutWith N.initial key.old key.new held
            (line_of at.number at.index acts.now held.shard) }
    {
        let shard_box = &self.boxes[held.number() as usize];
        key.put_acts::<Brand, R>(rt, shard_box, held, at, acts);
    }

    /// Bids on an item of a shard that is as it was taken, by one look-up, and puts the shard back
    /// after a look at the item and, unless the item refuses it, the bid. Gives the first reason
    /// for a refusal. The number is after the shard's clock, and at most `LAST_NUMBER`. It takes
    /// no memory.
    #[inline(always)]
    pub fn put_bid<R: Wait>(
        &self,
        rt: &R,
        key: &mut Key<N>,
        held: Held<N>,
        at: Numbered,
        bid: ItemBid,
    ) -> Option<Refusal>
        requires of { key.old.boxes ≡ self.now }
        requires held { IsHeldFor N.initial key.old held at.number }
        requires can { CanBid held.shard bid }
        ensures by { result ≡ bid_refusal_on held.shard bid }
        ensures put { IsPutWith N.initial key.old key.new held
            (line_of_bid at.number at.index bid held.shard) }
    {
        let shard_box = &self.boxes[held.number() as usize];
        key.put_bid::<Brand, R>(rt, shard_box, held, at, bid)
    }
}
