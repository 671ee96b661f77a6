//! Replies, and how they are printed.
ghost use Rattle.std.specs.Prelude.{◌≡◌, option_map};
ghost use Rattle.auction_rows.specs.declared.replies.Reply.TheVariants.{BidStored, Bought, CommentStored, ItemSeen};

use auction_rows::{BidId, BuyId, CommentId, Facts, Refusal, Reply};

/// That an item is not stored.
pub const NO_ITEM: Reply = Reply::Refused(Refusal::NoSuchItem);

/// That there is no such user.
pub const NO_USER: Reply = Reply::Refused(Refusal::NoSuchUser);

/// The view of a user about whom there is no comment.
pub const UNRATED: Reply = Reply::UserSeen {
    rating: 0,
    comments: 0,
};

/// The reply to a bid that is stored with this id.
pub fn bid_stored(worker: u32, serial: u32) -> Reply
    ensures { result ≡ BidStored (record { worker = worker; serial = serial }) }
{
    Reply::BidStored(BidId { worker, serial })
}

/// The reply to a comment that is stored with this id.
pub fn comment_stored(worker: u32, serial: u32) -> Reply
    ensures { result ≡ CommentStored (record { worker = worker; serial = serial }) }
{
    Reply::CommentStored(CommentId { worker, serial })
}

/// The reply to a purchase that is stored with this id.
pub fn bought(worker: u32, serial: u32) -> Reply
    ensures { result ≡ Bought (record { worker = worker; serial = serial }) }
{
    Reply::Bought(BuyId { worker, serial })
}

/// The view of an item of which so many are left, with so many bids, the greatest of which is this
/// amount of this bidder.
pub fn item_seen(facts: &Facts, greatest: Option<(u64, u32)>, bids: u64, left: u32) -> Reply
    ensures { let highest = option_map (λ bid. bid.0) greatest in
        let bidder = option_map (λ bid. bid.1) greatest in
        let f = facts.now in
        result ≡ ItemSeen f.seller f.category f.name f.start f.closes highest bidder bids left }
{
    let (highest, bidder) = greatest.unzip();
    Reply::ItemSeen {
        seller: facts.seller,
        category: facts.category,
        name: facts.name,
        start: facts.start,
        closes: facts.closes,
        highest,
        bidder,
        bids,
        left,
    }
}

/// Prints what a view shows after so many phases, if it was answered.
pub fn print_view<R: Print>(rt: &R, phases: u64, reply: Option<Reply>) {
    if let Some(reply) = reply {
        let _ = println!(rt; "view after {phases} phases: {reply:?}");
    }
}
