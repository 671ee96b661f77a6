//! The shards, and what they show.
ghost use Rattle.std.specs.Prelude.{◌≡◌, ◌<◌, ◌≤◌, [], ℕ, IfOk, IfSome, is_some, length, map};
ghost use Rattle.shard_boxes.specs.States.{state_of};
ghost use Rattle.auction_shards.specs.{Making.{AreBlank}, Shards.{AreOfOne}};

use auction_rows::{MOST_SHARDS, Object, Opening, Reply, Request, shard_of};
use item_shards::Shard;
use std::alloc::{AllocError, Global};
use std::marker::Model;

/// The 1 to 64 shards of one auction, numbered from 0. Contracts see the list of them.
#[derive(Drop)]
pub struct Shards {
    pub(crate) shards: Vec<Shard>,
}

impl Model for Shards {
    ghost use Rattle.std.specs.{Coded.{codes}, Prelude.{List, map}};
    ghost use Rattle.item_shards.specs.contracts.shard.Shard as shard;
    ghost use Rattle.item_shards.specs.declared.shard.Shard.{Shard as ShardValue};
    ghost use Rattle.shard_boxes.specs.States.{state_of};
    ghost use Rattle.auction_shards.specs.Shards.{AreOfOne};

    ghost Value = { List ShardValue };

    ghost coded = { Prim.hlevel (codes, shard.the_row.coded) };

    ghost view = { λ s. s.shards.items };

    ghost invariant = { λ s. AreOfOne (map state_of s.shards.items) };
}

impl Shards {
    /// So many shards, 1 to 64, in which nothing is stored. It fails only for want of memory.
    pub fn new(alloc: Global, opening: Opening, count: u32) -> Result<Shards, AllocError>
        requires { (0 < count) × (count ≤ MOST_SHARDS) }
        ensures count { IfOk result (λ shards. length shards ≡ count) }
        ensures blank { IfOk result (λ shards.
            AreBlank opening count count (map state_of shards)) }
    {
        let mut shards = Vec::with_capacity(alloc, count as usize)?;
        for number in 0..count {
            shards.push(Shard::new(alloc, number, count, opening)?)?;
        }
        Ok(Shards { shards })
    }

    /// The shards of one auction that are in a list.
    pub fn from_vec(shards: Vec<Shard>) -> Shards
        requires { AreOfOne (map state_of shards.items) }
        ensures { result ≡ shards.items }
    {
        Shards { shards }
    }

    /// The list of the shards.
    pub fn into_vec(self) -> Vec<Shard>
        ensures { result.items ≡ self }
    {
        self.shards
    }

    /// How many shards there are.
    pub fn count(&self) -> u32
        ensures { result ≡ length self.now }
    {
        self.shards.len() as u32
    }
}

impl Shards {
    ghost use Rattle.auction_rows.specs.{Book.{Book}, Replies.{reply}, Requests.{is_view}};
    ghost use Rattle.item_shards.specs.ShardContents.{LiesIn, ShardStandsFor, contents, opening};
    ghost use Rattle.auction_shards.specs.Shards.{ShardsStandFor, opening_in, value_on};

    /// The shard in which an object lies.
    pub fn of(&self, object: Object) -> &Shard
        ensures here { LiesIn result.now object }
        ensures opening { opening result.now ≡ opening_in (map state_of self.now) }
        ensures value { contents result.now object ≡ value_on (map state_of self.now) object }
        ensures books { (book : Book) → ShardsStandFor (map state_of self.now) book [] →
            ShardStandsFor result.now book [] }
    {
        &self.shards[shard_of(object, self.shards.len() as u32) as usize]
    }

    /// The reply to a view: None exactly if the request is none. It takes no memory.
    pub fn view(&self, request: &Request) -> Option<Reply>
        ensures none { is_some result ≡ is_view request.now }
        ensures book { IfSome result (λ seen. (book : Book) (worker : ℕ) →
            ShardsStandFor (map state_of self.now) book [] →
            seen ≡ reply (opening_in (map state_of self.now)) book worker request.now) }
    {
        match *request {
            Request::ViewItem { item } => Some(self.of(Object::Item(item)).view_item(item)),
            Request::ViewBids { item } => Some(self.of(Object::Item(item)).view_bids(item)),
            Request::ViewCategory { category } => {
                Some(self.of(Object::Category(category)).view_category(category))
            }
            Request::ViewUser { user } => Some(self.of(Object::User(user)).view_user(user)),
            _ => None,
        }
    }
}
