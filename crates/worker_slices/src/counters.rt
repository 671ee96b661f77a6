//! How much a worker has stored and committed.
ghost use Rattle.std.specs.Prelude.{◌≡◌, ◌<◌};
ghost use Rattle.auction_rows.specs.StoreReplies.{reply_of};
ghost use Rattle.worker_slices.specs.Counting.{AreCounted, counters_after};

use auction_rows::StoreReply;
use shard_boxes::MOST_COMMITS;
use worker_journals::{Answer, ReplyForm};

/// How many items, bids, comments and purchases a worker has had accepted over the whole run, and
/// how many requests it has committed: each at most `MOST_COMMITS`.
#[derive(Clone, Copy, PartialEq, Eq, Debug, Default)]
pub struct Counters {
    pub items: u32,
    pub bids: u32,
    pub comments: u32,
    pub buys: u32,
    pub commits: u32,
}

impl Counters {
    /// Counts a commit with this reply.
    #[inline(always)]
    pub fn count(&mut self, reply: &Answer<'_>)
        requires counted { AreCounted self.old }
        requires limit { self.old.commits < MOST_COMMITS }
        ensures { self.new ≡ counters_after self.old reply.now }
    {
        match reply.form {
            ReplyForm::Store(reply) => self.count_store(reply),
            ReplyForm::Item(_) => self.commits += 1,
            ReplyForm::Whole(reply) => match StoreReply::of(reply) {
                Some(reply) => self.count_store(reply),
                None => self.commits += 1,
            },
        }
    }

    #[inline(always)]
    fn count_store(&mut self, reply: StoreReply)
        requires counted { AreCounted self.old }
        requires limit { self.old.commits < MOST_COMMITS }
        ensures { self.new ≡ counters_after self.old (reply_of reply) }
    {
        self.commits += 1;
        match reply {
            StoreReply::ItemStored(_) => self.items += 1,
            StoreReply::BidStored(_) => self.bids += 1,
            StoreReply::CommentStored(_) => self.comments += 1,
            StoreReply::Bought(_) => self.buys += 1,
            StoreReply::Refused(_) => {}
        }
    }
}
