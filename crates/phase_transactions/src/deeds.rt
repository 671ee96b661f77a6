//! What a store does on the shards that it takes.
ghost use Rattle.std.specs.Prelude.{◌≡◌, ℕ, Option};
ghost use Rattle.auction_rows.specs.StoreReplies.{reply_of};
ghost use Rattle.auction_rows.specs.declared.requests.Facts.{Facts as FactsValue};
ghost use Rattle.phase_transactions.specs.inner.Begun.{AreGoodFor, AreOwedBy, HaveFootprint};
ghost use Rattle.phase_transactions.specs.inner.{Asking.{store_request}, Deeds.{acts_dealt}};

use crate::asked::{Call, Stored};
use auction_rows::{ItemEntry, StoreReply};
use item_shards::{Act, Look};
use worker_journals::Answer;
use worker_slices::{Home, Homes};

/// A store whose reply is known, with the homes of its objects.
#[derive(Drop)]
pub(crate) struct Store<'a> {
    pub(crate) call: Call<'a>,
    pub(crate) homes: &'a Homes,
    pub(crate) reply: StoreReply,
}

/// A view of the quota whose reply is known, with what it looks at.
#[derive(Drop)]
pub(crate) struct View<'a> {
    pub(crate) call: Call<'a>,
    pub(crate) look: Look,
    pub(crate) answer: Answer<'a>,
}

/// Two acts, each where its object has its home.
#[derive(Drop)]
pub(crate) struct Deeds {
    pub(crate) first: Act,
    pub(crate) second: Act,
    pub(crate) home: Home,
    pub(crate) other: Home,
}

impl Deeds {
    /// The acts of a store with this reply that is no bid, whatever it saw of its item.
    #[inline]
    pub(crate) fn of(stored: &Stored<'_>, reply: StoreReply, homes: &Homes) -> Deeds
        ensures owed { (seen : Option (FactsValue × ℕ)) →
            AreOwedBy (store_request stored.now) (reply_of reply) seen homes.now result }
        ensures good { (seen : Option (FactsValue × ℕ)) →
            AreGoodFor (store_request stored.now) (reply_of reply) seen homes.now result }
        ensures footprint { HaveFootprint (store_request stored.now) homes.now result }
    {
        let mut deeds = Deeds {
            first: Act::Look(Look::Nothing),
            second: Act::Look(Look::Nothing),
            home: homes.item,
            other: homes.other,
        };
        match *stored {
            Stored::Item(facts, time) => {
                if let StoreReply::ItemStored(id) = reply {
                    let category = facts.category;
                    deeds.first = Act::AddItem(id, *facts);
                    deeds.second = Act::ListItem(category, ItemEntry { time, id });
                }
            }
            Stored::Comment(_, about, item, stars) => {
                deeds.first = Act::Look(Look::Facts(item));
                if let StoreReply::CommentStored(_) = reply {
                    deeds.second = Act::Comment(about, stars);
                }
            }
            Stored::Buy(_, item, quantity, _) => {
                deeds.first = Act::Look(Look::Left(item));
                // Both acts are on the item.
                deeds.other = homes.item;
                if let StoreReply::Bought(_) = reply {
                    deeds.second = Act::Buy(item, quantity);
                }
            }
        }
        deeds
    }

    /// The two acts as they are dealt: both to one shard, or one to each of two.
    #[inline(always)]
    pub(crate) fn dealt(self) -> (Act, Act)
        ensures { result ≡ acts_dealt self }
    {
        let Deeds {
            mut first,
            mut second,
            home,
            other,
        } = self;
        if other.shard().is_none() {
            second = Act::Look(Look::Nothing);
        }
        if home.shard().is_none() {
            first = second;
            second = Act::Look(Look::Nothing);
        }
        (first, second)
    }
}
