//! The users and categories of a shard: comments about users, items listed in categories, merged
//! slices.
ghost use Rattle.std.specs.{Int.{w64}, Prelude.{◌≡◌, ◌+◌, ◌<◌, ◌^◌, ◌+ℤ◌, FitsSigned}};

use crate::shard::Shard;
use crate::shard::slices::{CategorySlice, UserSlice};
use auction_rows::{ItemEntry, Stars};
use split_records::Splittable;

impl Shard {
    ghost use Rattle.auction_rows.specs.declared.requests.Object.TheVariants.{User, Category};
    ghost use Rattle.item_shards.specs.Contents.{comment_about, comments_merged, item_listed, items_merged};
    ghost use Rattle.item_shards.specs.ShardContents.{contents, kept, opening, LiesIn, HasChanged};
    ghost use Rattle.item_shards.specs.Slices.{user_slice, category_slice, IsOfBoth};

    /// What is kept of a user.
    pub(crate) fn user_record(&self, user: u32) -> &UserSlice
        requires here { LiesIn self.now (User user) }
        requires known { user < (opening self.now).users }
        ensures { result.now ≡ (contents self.now (User user)).comments }
    {
        &self.parts.users[(user / self.parts.shards) as usize]
    }

    /// What is kept of a category.
    pub(crate) fn category_record(&self, category: u32) -> &CategorySlice
        requires here { LiesIn self.now (Category category) }
        requires known { category < (opening self.now).categories }
        ensures { result.now ≡ (contents self.now (Category category)).items }
    {
        &self.parts.categories[(category / self.parts.shards) as usize]
    }

    /// Merges a slice into the record of a user. It takes no memory.
    pub fn merge_user(&mut self, user: u32, slice: UserSlice)
        requires here { LiesIn self.old (User user) }
        requires known { user < (opening self.old).users }
        requires rating { FitsSigned w64
            ((contents self.old (User user)).comments.rating +ℤ slice.rating) }
        requires count { (contents self.old (User user)).comments.comments + slice.comments
            < 2 ^ 64 }
        ensures merged { HasChanged self.old self.new (User user) (comments_merged slice) }
        ensures comments { IsOfBoth user_slice
            (contents self.old (User user)).comments slice
            (contents self.new (User user)).comments }
    {
        let place = (user / self.parts.shards) as usize;
        self.parts.users[place].merge(slice);
    }

    /// Merges a slice into the record of a category. It takes no memory.
    pub fn merge_category(&mut self, category: u32, slice: CategorySlice)
        requires here { LiesIn self.old (Category category) }
        requires known { category < (opening self.old).categories }
        ensures merged { HasChanged self.old self.new (Category category) (items_merged slice) }
        ensures items { IsOfBoth category_slice
            (contents self.old (Category category)).items slice
            (contents self.new (Category category)).items }
    {
        let place = (category / self.parts.shards) as usize;
        self.parts.categories[place].merge(slice);
    }

    pub(crate) fn comment(&mut self, user: u32, stars: Stars)
        requires here { LiesIn self.old (User user) }
        requires known { user < (opening self.old).users }
        requires rating { FitsSigned w64
            ((kept self.old (User user)).comments.rating +ℤ stars.value) }
        requires count { (kept self.old (User user)).comments.comments + 1 < 2 ^ 64 }
        ensures { HasChanged self.old self.new (User user) (comment_about stars) }
    {
        let place = (user / self.parts.shards) as usize;
        self.parts.users[place].apply(stars);
    }

    pub(crate) fn list_item(&mut self, category: u32, item: ItemEntry)
        requires here { LiesIn self.old (Category category) }
        requires known { category < (opening self.old).categories }
        ensures { HasChanged self.old self.new (Category category) (item_listed item) }
    {
        let place = (category / self.parts.shards) as usize;
        self.parts.categories[place].apply(item);
    }
}
