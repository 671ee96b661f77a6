//! What a journal keeps of each commit in its place: all that is small. The rest lies in side
//! lists.
ghost use Rattle.std.specs.Prelude.{ℕ, ◌≡◌, false, None};
ghost use Rattle.auction_rows.specs.{Choosing.{written_by}, History.{commit}};
ghost use Rattle.auction_rows.specs.declared.requests.Request.{Request};
ghost use Rattle.auction_rows.specs.StoreReplies.{is_refusal, store_reply};
ghost use Rattle.worker_journals.specs.{Shown.{ShownLists}, inner.Sides.{reply_from}};

use auction_rows::{BidId, BuyId, CommentId, ItemId, Object, Refusal, Request, StoreReply};
use request_scripts::SideIndex;

// Three words.
const _: () = prove!(size_of::<Head>() == 24);

/// What is small of a commit, but for its request, and for its phase and worker, which are the
/// journal's.
#[derive(Clone, Copy)]
pub(crate) struct Head {
    pub(crate) number: u64,
    pub(crate) index: u32,
    pub(crate) reply: ShortReply,
}

/// A reply; what a view shows lies at a place among what views of its kind show, with a length if
/// it is a list.
#[derive(Clone, Copy)]
pub(crate) enum ShortReply {
    ItemStored(ItemId),
    BidStored(BidId),
    CommentStored(CommentId),
    Bought(BuyId),
    ItemSeen(SideIndex),
    BidsSeen(u8, SideIndex),
    CategorySeen(u8, SideIndex),
    UserSeen(SideIndex),
    Refused(Refusal),
}

impl ShortReply {
    ghost use Rattle.auction_rows.specs.StoreReplies.{reply_of};
    ghost use Rattle.worker_journals.specs.inner.Sides.{SaysReply};

    /// A reply that shows nothing.
    #[inline(always)]
    pub(crate) fn of_store(reply: StoreReply) -> ShortReply
        ensures { (lists : ShownLists) → SaysReply lists result (reply_of reply) }
    {
        match reply {
            StoreReply::ItemStored(id) => ShortReply::ItemStored(id),
            StoreReply::BidStored(id) => ShortReply::BidStored(id),
            StoreReply::CommentStored(id) => ShortReply::CommentStored(id),
            StoreReply::Bought(id) => ShortReply::Bought(id),
            StoreReply::Refused(reason) => ShortReply::Refused(reason),
        }
    }

    /// The reply, if it shows nothing.
    pub(crate) fn as_store_reply(self) -> Option<StoreReply>
        ensures { (lists : ShownLists) → result ≡ store_reply (reply_from lists self) }
    {
        match self {
            ShortReply::ItemStored(id) => Some(StoreReply::ItemStored(id)),
            ShortReply::BidStored(id) => Some(StoreReply::BidStored(id)),
            ShortReply::CommentStored(id) => Some(StoreReply::CommentStored(id)),
            ShortReply::Bought(id) => Some(StoreReply::Bought(id)),
            ShortReply::Refused(reason) => Some(StoreReply::Refused(reason)),
            _ => None,
        }
    }

    /// Whether the reply is a refusal.
    pub(crate) fn is_refusal(self) -> bool
        ensures { (lists : ShownLists) → result ≡ is_refusal (reply_from lists self) }
    {
        matches!(self, ShortReply::Refused(_))
    }

    /// Whether the reply answers a splittable store: with another one no entry writes an object.
    #[inline(always)]
    pub(crate) fn answers_splittable(self) -> bool
        ensures { result ≡ false → (lists : ShownLists) (worker : ℕ) (request : Request) →
            written_by (commit worker request (reply_from lists self)) ≡ None }
    {
        matches!(
            self,
            ShortReply::ItemStored(_) | ShortReply::BidStored(_) | ShortReply::CommentStored(_)
        )
    }

    /// The object that a request of a worker writes, to which this is the reply, if it is an
    /// accepted splittable store.
    #[inline(always)]
    pub(crate) fn object_written(self, worker: u32, request: &Request) -> Option<Object>
        ensures { (lists : ShownLists) →
            result ≡ written_by (commit worker request.now (reply_from lists self)) }
    {
        match (request, self) {
            (Request::StoreItem { facts, .. }, ShortReply::ItemStored(id)) if id.worker == worker =>
                { Some(Object::Category(facts.category)) }
            (Request::StoreBid { item, .. }, ShortReply::BidStored(id)) if id.worker == worker => {
                Some(Object::Item(*item))
            }
            (Request::StoreComment { about, .. }, ShortReply::CommentStored(id))
                if id.worker == worker => { Some(Object::User(*about)) }
            _ => None,
        }
    }
}

/// What the view of a user shows.
#[derive(Clone, Copy)]
pub(crate) struct UserSeen {
    pub(crate) rating: i64,
    pub(crate) comments: u64,
}
