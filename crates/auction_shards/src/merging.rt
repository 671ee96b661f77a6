//! How slices are merged, and how clocks are set to 0.
ghost use Rattle.std.specs.Prelude.{◌≡◌, map};
ghost use Rattle.item_shards.specs.ShardContents.{LiesIn, contents, opening};
ghost use Rattle.shard_boxes.specs.States.{state_of};
ghost use Rattle.auction_shards.specs.Merging.{CanMerge, CanMergeInto, after_merge, with_slice};
ghost use Rattle.auction_shards.specs.Shards.{IsKnown, at_start, opening_in};

use crate::shards::Shards;
use auction_rows::{Object, shard_of};
use item_shards::{Shard, Slice};

impl Shards {
    /// Merges a slice of an object into the shard in which it lies.
    pub fn merge(&mut self, object: Object, slice: Slice)
        requires known { IsKnown (opening_in (map state_of self.old)) object }
        requires can { CanMerge (map state_of self.old) (object, slice) }
        ensures { map state_of self.new ≡ after_merge (map state_of self.old) (object, slice) }
    {
        let place = shard_of(object, self.shards.len() as u32) as usize;
        merge_into(&mut self.shards[place], object, slice);
    }

    /// Sets all clocks to 0, as a phase closes: numbers are those of one phase.
    pub fn reset_clocks(&mut self)
        ensures { map state_of self.new ≡ map at_start (map state_of self.old) }
    {
        reset_all(&mut self.shards);
    }
}

// Merges a slice of an object into its shard.
fn merge_into(shard: &mut Shard, object: Object, slice: Slice)
    requires lies { LiesIn shard.old object }
    requires known { IsKnown (opening shard.old) object }
    requires can { CanMergeInto (contents shard.old object) (object, slice) }
    ensures { state_of shard.new ≡ with_slice (state_of shard.old) (object, slice) }
{
    match (object, slice) {
        (Object::Item(item), Slice::Item(slice)) => shard.merge_item(item, slice),
        (Object::User(user), Slice::User(slice)) => shard.merge_user(user, slice),
        (Object::Category(category), Slice::Category(slice)) => {
            shard.merge_category(category, slice)
        }
        _ => unreachable!(),
    }
}

// Sets the clock of each shard to 0.
fn reset_all(shards: &mut Vec<Shard>)
    ensures { map state_of shards.new.items ≡ map at_start (map state_of shards.old.items) }
{
    for s in 0..shards.len() {
        shards[s].reset_clock();
    }
}
