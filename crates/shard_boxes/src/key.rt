//! A worker's right to take the shards of a phase.
ghost use Rattle.std.specs.Prelude.{◌≡◌, ◌<◌, ◌∷◌, [], ℕ, Some, option_map, true, false, length};
ghost use Rattle.item_shards.specs.Acting.{CanDo};
ghost use Rattle.shard_boxes.specs.Helds.{taken_at, CanBid, IsHeldFor, IsPutWith, MayGoBack};
ghost use Rattle.shard_boxes.specs.inner.Passing.{MayPut};
ghost use Rattle.shard_boxes.specs.Keys.{taking, putting, lines_at, seen_at, holds_at};
ghost use Rattle.shard_boxes.specs.Lines.{bid_refusal_on, line_of, line_of_bid, lines_of, seen_line, StartsWith, IsShardHistory};
ghost use Rattle.shard_boxes.specs.{Passes.{GrantState}, States.{state_of, AreInitial}};
ghost use Rattle.shard_boxes.specs.inner.Grants.{IsBoxAt, AreFree, clock_at, own_at};

use crate::boxes::PhaseName;
use crate::held::Held;
use crate::line::{ItemBid, Line, LineName, Numbered};
use crate::shard_box::{Grant, ShardBox};
use auction_rows::Refusal;
use item_shards::{Act, Shard};
use std::marker::{Model, PhantomData};
use std::sync::Wait;

/// A worker's right to take the shards of a phase. Contracts see of each shard whether the key
/// holds it, the lines that were put by it, and the list of all workers' lines that it has seen.
pub struct Key<N: PhaseName> {
    pub(crate) worker: u32,
    pub(crate) grants: Vec<Grant>,
    pub(crate) of: PhantomData<N>,
}

// Not derived: a derived drop is made and proved anew in each crate that lets one go.
impl<N: PhaseName> Drop for Key<N> {
    fn drop(self) {
        let Self {
            worker: _,
            grants,
            of: _,
        } = self;
        drop(grants);
    }
}

impl<N: PhaseName> Model for Key<N> {
    ghost use Rattle.std.specs.Prelude.{◌≡◌, ◌<◌, ◌≤◌, length, vec_len};
    ghost use Rattle.auction_rows.specs.declared.limits.TheConstants.{MOST_SHARDS};
    ghost use Rattle.shard_boxes.specs.{Keys.{KeyState}, Seats.{key_of, AreFor}};

    ghost Value = { KeyState };

    ghost view = { λ k. key_of k.worker k.grants.items };

    ghost invariant = { λ k. (k.worker < N.workers) × (vec_len k.grants ≡ length N.initial)
        × AreFor N.initial N.workers k.grants.items k.worker
        × (0 < length N.initial) × (length N.initial ≤ MOST_SHARDS) };
}

impl<N: PhaseName> Key<N> {
    /// The worker whose key it is.
    #[inline(always)]
    pub fn worker(&self) -> u32
        ensures value { result ≡ self.now.worker }
        ensures known { self.now.worker < N.workers }
        ensures seats { length self.now.seats ≡ length N.initial }
    {
        self.worker
    }

    /// How many shards there are, 1 to 64.
    #[inline(always)]
    pub fn shards(&self) -> u32
        ensures count { result ≡ length N.initial }
        ensures some { 0 < length N.initial }
    {
        self.grants.len() as u32
    }

    // Tries until the shard is in the box.
    #[inline(always)]
    pub(crate) fn take<R: Wait>(&mut self, rt: &R, shard_box: &ShardBox, s: usize) -> Shard
        requires known { s < length N.initial }
        requires opened { AreInitial N.initial }
        requires place { IsBoxAt self.old.boxes s shard_box.now }
        ensures seats { length self.old.seats ≡ length N.initial }
        ensures key { self.new ≡ taking self.old s (seen_at self.new s) }
        ensures holds { holds_at self.new s ≡ true }
        ensures history { IsShardHistory N.initial N.workers s (seen_at self.new s)
            (state_of result) }
        ensures later { StartsWith (seen_at self.new s) (seen_at self.old s) }
        ensures own { lines_of self.old.worker (seen_at self.new s) ≡ lines_at self.old s }
    {
        let grant = &mut self.grants[s];
        shard_box.take(rt, grant)
    }

    // Does two acts on a shard, and puts it back after their line.
    #[inline(always)]
    pub(crate) fn put_acts<L: LineName, R: Wait>(
        &mut self,
        rt: &R,
        shard_box: &ShardBox,
        held: Held<N>,
        at: Numbered,
        acts: &[Act; 2],
    )
        requires place { IsBoxAt self.old.boxes held.number shard_box.now }
        requires held { IsHeldFor N.initial self.old held at.number }
        requires can { CanDo held.shard acts.now }
        requires named { L.line ≡ Some (line_of at.number at.index acts.now held.shard) }
        ensures { IsPutWith N.initial self.old self.new held
            (line_of at.number at.index acts.now held.shard) }
    {
        let (number, mut shard) = held.open();
        shard.apply_acts(at.number, acts);
        self.put::<L, R>(rt, shard_box, number, shard);
    }

    // Bids on a shard, unless the item refuses the bid, and puts it back after the line of that.
    #[inline(always)]
    pub(crate) fn put_bid<L: LineName, R: Wait>(
        &mut self,
        rt: &R,
        shard_box: &ShardBox,
        held: Held<N>,
        at: Numbered,
        bid: ItemBid,
    ) -> Option<Refusal>
        requires place { IsBoxAt self.old.boxes held.number shard_box.now }
        requires held { IsHeldFor N.initial self.old held at.number }
        requires can { CanBid held.shard bid }
        requires named { L.line ≡ Some (line_of_bid at.number at.index bid held.shard) }
        ensures by { result ≡ bid_refusal_on held.shard bid }
        ensures put { IsPutWith N.initial self.old self.new held
            (line_of_bid at.number at.index bid held.shard) }
    {
        let (number, mut shard) = held.open();
        let refused = shard.try_bid(bid.item, bid.entry);
        shard.set_clock(at.number);
        self.put::<L, R>(rt, shard_box, number, shard);
        refused
    }

    // Puts a shard back, as it was taken or after the line that the caller made.
    #[inline(always)]
    pub(crate) fn put_made<L: LineName, R: Wait>(
        &mut self,
        rt: &R,
        shard_box: &ShardBox,
        held: Held<N>,
        made: Option<Line>,
    )
        requires place { IsBoxAt self.old.boxes held.number shard_box.now }
        requires holder { holds_at self.old held.number ≡ true }
        requires may { MayGoBack (taken_at N.initial self.old held.number) (state_of held.shard)
            made }
        requires named { L.line ≡ option_map
            (seen_line (taken_at N.initial self.old held.number)) made }
        ensures { self.new ≡ putting self.old held.number
            (option_map (seen_line (taken_at N.initial self.old held.number)) made) }
    {
        // At run time a line has no use.
        drop(made);
        let (number, shard) = held.open();
        self.put::<L, R>(rt, shard_box, number, shard);
    }

    // Puts a shard back, after the line that `L` names, if there is one.
    #[inline(always)]
    fn put<L: LineName, R: Wait>(&mut self, rt: &R, shard_box: &ShardBox, number: u32, shard: Shard)
        requires known { number < length N.initial }
        requires place { IsBoxAt self.old.boxes number shard_box.now }
        requires holds { holds_at self.old number ≡ true }
        requires may { MayPut (taken_at N.initial self.old number) (state_of shard) L.line }
        ensures { self.new ≡ putting self.old number L.line }
    {
        let grant = &mut self.grants[number as usize];
        shard_box.put::<L, R>(rt, grant, shard);
    }

    // The grants, one for each box.
    pub(crate) fn grants(self) -> Vec<Grant>
        requires { (s : ℕ) → holds_at self s ≡ false }
        ensures free { AreFree N.initial N.workers self.boxes self.worker result.items }
        ensures own { (s : ℕ) (d : GrantState) → s < length result.items →
            own_at result.items s d ≡ lines_at self s ∷ [] }
        ensures seen { (s : ℕ) (d : GrantState) → s < length result.items →
            clock_at result.items s d ≡ (taken_at N.initial self s).clock }
    {
        let Key {
            worker: _,
            grants,
            of: _,
        } = self;
        grants
    }
}
