//! How a row is written: by acts, each on the shard where its object lies.
ghost use Rattle.std.specs.Prelude.{◌≡◌, ◌∷◌, [], OnErr, OnOk, map};
ghost use Rattle.auction_rows.specs.History.{commit_of};
ghost use Rattle.auction_rows.specs.declared.replies.Reply.TheVariants.{ItemStored};
ghost use Rattle.auction_rows.specs.declared.requests.ItemId.{ItemId};
ghost use Rattle.item_shards.specs.{Events.{Event}, Looking.{IsEvent}, Writing.{writes_of}};
ghost use Rattle.shard_boxes.specs.States.{state_of};
ghost use Rattle.auction_shards.specs.{Shards.{AreOfOne}, Writing.{CanWriteOn, HaveDone}};
ghost use Rattle.auction_shards.specs.inner.Acting.{CanActIn, HasRoomIn};

use crate::shards::Shards;
use auction_rows::{Object, Row, shard_of};
use item_shards::{Act, Shard, writes_of};
use std::alloc::AllocError;

impl Shards {
    /// Writes a row. Only an item takes memory: if that is refused, the shards show what they
    /// showed.
    pub fn write(&mut self, row: &Row) -> Result<(), AllocError>
        requires { CanWriteOn (map state_of self.old) row.now }
        ensures done { OnOk result
            (HaveDone (map state_of self.old) (map state_of self.new) (writes_of row.now)) }
        ensures same { OnErr result (map state_of self.new ≡ map state_of self.old) }
    {
        write_row(&mut self.shards, row)?;
        Ok(())
    }
}

// Does the acts that write a row, each on the shard where its object lies.
fn write_row(shards: &mut Vec<Shard>, row: &Row) -> Result<(), AllocError>
    requires shards { AreOfOne (map state_of shards.old.items) }
    requires can { CanWriteOn (map state_of shards.old.items) row.now }
    ensures done { OnOk result
        (HaveDone (map state_of shards.old.items) (map state_of shards.new.items)
        (writes_of row.now)) }
    ensures same { OnErr result
        (map state_of shards.new.items ≡ map state_of shards.old.items) }
{
    make_room(shards, row)?;
    let (first, second) = writes_of(row);
    act(shards, &first);
    act(shards, &second);
    Ok(())
}

// Makes room for the item that a row stores, if it stores one, in the shard where it will lie.
fn make_room(shards: &mut Vec<Shard>, row: &Row) -> Result<(), AllocError>
    requires { AreOfOne (map state_of shards.old.items) }
    ensures same { map state_of shards.new.items ≡ map state_of shards.old.items }
    ensures room { OnOk result ((id : ItemId) →
        (commit_of row.now).reply ≡ ItemStored id → HasRoomIn shards.new.items id) }
{
    let Row::Item(row) = *row else {
        return Ok(());
    };
    let place = shard_of(Object::Item(row.id), shards.len() as u32) as usize;
    shards[place].prepare_item(row.id)
}

// Does an act on the shard where its object lies, if it has one.
fn act(shards: &mut Vec<Shard>, act: &Act)
    requires shards { AreOfOne (map state_of shards.old.items) }
    requires can { CanActIn shards.old.items act.now }
    ensures { (event : Event) → IsEvent act.now event →
        HaveDone (map state_of shards.old.items) (map state_of shards.new.items) (event ∷ []) }
{
    if let Some(object) = act.object() {
        let place = shard_of(object, shards.len() as u32) as usize;
        shards[place].act(act);
    }
}
