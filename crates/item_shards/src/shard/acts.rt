//! What a transaction does and looks at on a shard, the acts that write a row, and rows written on
//! a shard that holds every object.
ghost use Rattle.std.specs.Prelude.{◌≡◌, ◌<◌, ◌≤◌, OnOk, OnErr};
ghost use Rattle.item_shards.specs.{CommitNumbers.{last_number}, Looking.{IsEvent}};
ghost use Rattle.item_shards.specs.Writing.{writes_of, first_act, second_act};

use crate::shard::Shard;
use auction_rows::{BidEntry, Facts, ItemEntry, ItemId, Object, Quantity, Row, Stars};
use std::alloc::AllocError;

/// What a transaction looks at on a shard. Each look but the one at nothing names its object; what
/// it shows is what the shard has, so a look carries no value.
#[derive(Clone, Copy)]
pub enum Look {
    Nothing,
    /// An item's facts, if it is stored.
    Facts(ItemId),
    /// An item's facts and how many of it are left, if it is stored.
    Left(ItemId),
    /// The view of an item.
    Item(ItemId),
    /// The view of an item's bids.
    Bids(ItemId),
    /// The view of a category.
    Category(u32),
    /// The view of a user.
    User(u32),
}

/// What a transaction does on a shard.
#[derive(Drop)]
pub enum Act {
    /// Stores an item. The facts of one that is stored already stay.
    AddItem(ItemId, Facts),
    /// Lists an item in a category.
    ListItem(u32, ItemEntry),
    /// Bids on an item.
    Bid(ItemId, BidEntry),
    /// Gives stars to a user.
    Comment(u32, Stars),
    /// Buys so many of an item.
    Buy(ItemId, Quantity),
    /// Looks at something, and changes nothing.
    Look(Look),
}

impl Look {
    ghost use Rattle.item_shards.specs.{Contents.{Contents, target}, Looking.{shown_in}};
    ghost use Rattle.item_shards.specs.Events as event;

    // The object that it looks at, if there is one.
    fn object(self) -> Option<Object>
        ensures { (contents : Contents) → result ≡ target (event.Look (shown_in contents self)) }
    {
        match self {
            Look::Nothing => None,
            Look::Facts(item) => Some(Object::Item(item)),
            Look::Left(item) => Some(Object::Item(item)),
            Look::Item(item) => Some(Object::Item(item)),
            Look::Bids(item) => Some(Object::Item(item)),
            Look::Category(category) => Some(Object::Category(category)),
            Look::User(user) => Some(Object::User(user)),
        }
    }
}

impl Act {
    ghost use Rattle.item_shards.specs.{Contents.{Contents, target}, Looking.{event_at}};

    /// The object that it is about: none of a look at nothing.
    pub fn object(&self) -> Option<Object>
        ensures { (contents : Contents) → result ≡ target (event_at contents self.now) }
    {
        match self {
            Act::AddItem(item, _) => Some(Object::Item(*item)),
            Act::ListItem(category, _) => Some(Object::Category(*category)),
            Act::Bid(item, _) => Some(Object::Item(*item)),
            Act::Comment(user, _) => Some(Object::User(*user)),
            Act::Buy(item, _) => Some(Object::Item(*item)),
            Act::Look(look) => look.object(),
        }
    }
}

/// The two acts that write a row, one after the other: where one is enough, the second looks at
/// nothing.
pub fn writes_of(row: &Row) -> (Act, Act)
    ensures first { IsEvent result.0 (first_act (writes_of row.now)) }
    ensures second { IsEvent result.1 (second_act (writes_of row.now)) }
{
    match *row {
        Row::Item(row) => {
            let entry = ItemEntry {
                time: row.time,
                id: row.id,
            };
            (
                Act::AddItem(row.id, row.facts),
                Act::ListItem(row.facts.category, entry),
            )
        }
        Row::Bid(row) => {
            let entry = BidEntry {
                amount: row.amount,
                time: row.time,
                id: row.id,
                bidder: row.bidder,
            };
            (Act::Bid(row.item, entry), Act::Look(Look::Nothing))
        }
        Row::Comment(row) => (Act::Comment(row.about, row.stars), Act::Look(Look::Nothing)),
        Row::Buy(row) => (Act::Buy(row.item, row.quantity), Act::Look(Look::Nothing)),
    }
}

impl Shard {
    ghost use Rattle.item_shards.specs.{Acting.{CanAct, CanDo}, Contents.{after_act, after_acts}};
    ghost use Rattle.item_shards.specs.Looking.{event_at, events_of};
    ghost use Rattle.item_shards.specs.ShardContents.{contents, clock, HasBecome};

    /// Does one act, by one look-up. It takes no memory, and leaves the clock.
    #[inline(always)]
    pub fn act(&mut self, act: &Act)
        requires { CanAct self.old act.now }
        ensures { HasBecome self.old self.new
            (after_act (contents self.old) (event_at (contents self.old) act.now))
            (clock self.old) }
    {
        match act {
            Act::AddItem(item, facts) => self.add_item(*item, *facts),
            Act::ListItem(category, entry) => self.list_item(*category, *entry),
            Act::Bid(item, bid) => self.bid(*item, *bid),
            Act::Comment(user, stars) => self.comment(*user, *stars),
            Act::Buy(item, quantity) => self.buy(*item, *quantity),
            Act::Look(_) => {}
        }
    }

    /// Does the acts of a commit, one after the other, and sets the clock to its number. It takes
    /// no memory.
    #[inline(always)]
    pub fn apply_acts(&mut self, number: u64, acts: &[Act; 2])
        requires later { clock self.old < number }
        requires within { number ≤ last_number }
        requires can { CanDo self.old acts.now }
        ensures { HasBecome self.old self.new
            (after_acts (contents self.old) (events_of (contents self.old) acts.now)) number }
    {
        let [first, second] = acts;
        self.act(first);
        self.act(second);
        self.set_clock(number);
    }
}

impl Shard {
    ghost use Rattle.auction_rows.specs.{History.{commit_of}, declared.requests.Object.{Object}};
    ghost use Rattle.item_shards.specs.{Acting.{CanWrite, HasRoomFor}, Contents.{after_acts}};
    ghost use Rattle.item_shards.specs.ShardContents.{contents, rooms, shard_count, shard_number, LiesIn, IsSameShard};

    // Does the acts that write a row. Without memory the shard shows what it showed.
    pub(crate) fn write(&mut self, row: &Row) -> Result<(), AllocError>
        requires has_all { (object : Object) → LiesIn self.old object }
        requires can { CanWrite self.old row.now }
        ensures written { OnOk result (
            contents self.new ≡ after_acts (contents self.old) (writes_of row.now)) }
        ensures refused { OnErr result (contents self.new ≡ contents self.old) }
        ensures same { IsSameShard self.old self.new }
    {
        self.prepare_row(row)?;
        let (first, second) = writes_of(row);
        self.act(&first);
        self.act(&second);
        Ok(())
    }

    // Makes room for the item that a row stores, if it stores one.
    fn prepare_row(&mut self, row: &Row) -> Result<(), AllocError>
        requires { (object : Object) → LiesIn self.old object }
        ensures room { OnOk result (HasRoomFor
            (shard_number self.old) (shard_count self.old) (rooms self.new) (commit_of row.now)) }
        ensures contents { contents self.new ≡ contents self.old }
        ensures same { IsSameShard self.old self.new }
    {
        match *row {
            Row::Item(row) => self.prepare_item(row.id),
            _ => Ok(()),
        }
    }
}
