//! The texts of replies, and their lines.
ghost use Rattle.std.specs.List.{flat_map};
ghost use Rattle.std.specs.Prelude.{◌≡◌, ◌↔◌, ◌+◌, ◌≤◌, ◌++◌, [], IsTrue, OnOk, codes, length};
ghost use Rattle.auction_rows.specs.{ItemViews.{item_reply}, Refusals.{refusal_text}};
ghost use Rattle.auction_rows.specs.StoreReplies.{reply_of};
ghost use Rattle.auction_text.specs.Replies.{bid_text, facts_text, history_line, item_text, place_text, reply_line, reply_text, score_text, state_text};

use auction_rows::{
    BidShown, ItemShown, ItemView, MOST_OF_A_REFUSAL, Refusal, Reply, StoreReply, Ten,
};
use byte_texts::{Block, Numeral, push_text};
use std::alloc::AllocError;
use std::marker::Model;
use worker_journals::EntryRef;

// The bytes that each part of a reply or of its line takes at most, with 20 for each number.
const MOST_OF_A_STORE_REPLY: usize = 49;

const MOST_OF_FACTS: usize = 121;

const MOST_OF_A_STATE: usize = 109;

const MOST_OF_A_BID: usize = 105;

const MOST_OF_AN_ITEM: usize = 63;

const MOST_OF_ITEMS: usize = 6 + 10 * MOST_OF_AN_ITEM;

const MOST_OF_A_SCORE: usize = 58;

const MOST_OF_A_PLACE: usize = 83;

/// No reply takes more: the longest shows ten bids.
pub const MOST_OF_A_REPLY: usize = 4 + 10 * MOST_OF_A_BID;

/// No line of a reply, or of an entry in a history, takes more.
pub const MOST_OF_A_LINE: usize = 1200;

/// So many bytes are put together before they are written.
pub const ROOM: usize = 4096;

/// A part of a text of replies, of at most `N` bytes, put together in place from its front.
/// Contracts see it.
#[derive(Drop)]
pub struct ReplyBlock<const N: usize> {
    text: Block<N>,
    // The index, and the serials of items, bids and comments that were added last: mostly the next
    // ones follow.
    index: Numeral,
    item: Numeral,
    bid: Numeral,
    comment: Numeral,
}

/// A block of lines that are written.
pub type TextBlock = ReplyBlock<ROOM>;

impl<const N: usize> Model for ReplyBlock<N> {
    ghost use Rattle.std.specs.Prelude.{ℕ, List};

    ghost Value = { List ℕ };

    ghost view = { λ b. b.text };
}

impl<const N: usize> ReplyBlock<N> {
    /// An empty one.
    pub fn new() -> ReplyBlock<N>
        ensures { result ≡ [] }
    {
        ReplyBlock {
            text: Block::new(),
            index: Numeral::zero(),
            item: Numeral::zero(),
            bid: Numeral::zero(),
            comment: Numeral::zero(),
        }
    }

    /// How many bytes it has.
    #[inline(always)]
    pub(crate) fn len(&self) -> usize
        ensures { result ≡ length self.now }
    {
        self.text.len()
    }

    /// Its bytes.
    #[inline(always)]
    pub fn bytes(&self) -> &[u8]
        ensures { result.now ≡ self.now }
    {
        self.text.bytes()
    }

    /// Makes it empty.
    #[inline(always)]
    pub(crate) fn clear(&mut self)
        ensures { self.new ≡ [] }
    {
        self.text.clear();
    }
}

fn text_of_refusal(refusal: Refusal) -> &'static [u8]
    ensures text { result.now ≡ refusal_text refusal }
    ensures short { length result.now ≤ MOST_OF_A_REFUSAL }
{
    refusal.text().as_bytes()
}

fn put_facts<const N: usize>(
    block: &mut Block<N>,
    seller: u32,
    category: u32,
    start: u64,
    closes: u64,
)
    requires { MOST_OF_FACTS + length block.old ≤ N }
    ensures text { block.new ≡ block.old ++ facts_text seller category start closes }
    ensures length { length block.new ≤ MOST_OF_FACTS + length block.old }
{
    block.push_labelled(b"viewitem seller=", u64::from(seller));
    block.push_labelled(b" category=", u64::from(category));
    block.push_labelled(b" start=", start);
    block.push_labelled(b" closes=", closes);
}

fn put_state<const N: usize>(
    block: &mut Block<N>,
    highest: Option<u64>,
    bidder: Option<u32>,
    bids: u64,
    left: u32,
)
    requires { MOST_OF_A_STATE + length block.old ≤ N }
    ensures text { block.new ≡ block.old ++ state_text highest bidder bids left }
    ensures length { length block.new ≤ MOST_OF_A_STATE + length block.old }
{
    block.push_optional(b" highest=", highest);
    block.push_optional(b" bidder=", bidder.map(u64::from));
    block.push_labelled(b" bids=", bids);
    block.push_labelled(b" left=", u64::from(left));
}

fn put_bid<const N: usize>(block: &mut Block<N>, bid: BidShown)
    requires { MOST_OF_A_BID + length block.old ≤ N }
    ensures text { block.new ≡ block.old ++ bid_text bid }
    ensures length { length block.new ≤ MOST_OF_A_BID + length block.old }
{
    block.push_labelled(b" ", bid.amount);
    block.push_labelled(b":", bid.time);
    block.push_labelled(b":", u64::from(bid.bidder));
    block.push_id(b":", bid.id.worker, bid.id.serial);
}

fn put_bids<const N: usize>(block: &mut Block<N>, bids: &Ten<BidShown>)
    requires { MOST_OF_A_REPLY + length block.old ≤ N }
    ensures text { block.new ≡ block.old ++ (codes "bids" ++ flat_map bid_text bids.now) }
    ensures length { length block.new ≤ MOST_OF_A_REPLY + length block.old }
{
    block.push(b"bids");
    for place in 0..bids.len() {
        put_bid(block, bids.get(place).unwrap());
    }
}

fn put_item<const N: usize>(block: &mut Block<N>, item: ItemShown)
    requires { MOST_OF_AN_ITEM + length block.old ≤ N }
    ensures text { block.new ≡ block.old ++ item_text item }
    ensures length { length block.new ≤ MOST_OF_AN_ITEM + length block.old }
{
    block.push_labelled(b" ", item.time);
    block.push_id(b":", item.id.worker, item.id.serial);
}

fn put_items<const N: usize>(block: &mut Block<N>, items: &Ten<ItemShown>)
    requires { MOST_OF_ITEMS + length block.old ≤ N }
    ensures text { block.new ≡ block.old ++ (codes "latest" ++ flat_map item_text items.now) }
    ensures length { length block.new ≤ MOST_OF_ITEMS + length block.old }
{
    block.push(b"latest");
    for place in 0..items.len() {
        put_item(block, items.get(place).unwrap());
    }
}

fn put_score<const N: usize>(block: &mut Block<N>, rating: i64, comments: u64)
    requires { MOST_OF_A_SCORE + length block.old ≤ N }
    ensures text { block.new ≡ block.old ++ score_text rating comments }
    ensures length { length block.new ≤ MOST_OF_A_SCORE + length block.old }
{
    block.push_signed(b" rating=", rating);
    block.push_labelled(b" comments=", comments);
}

#[inline(always)]
fn put_store_reply<const N: usize>(block: &mut ReplyBlock<N>, reply: StoreReply)
    requires { MOST_OF_A_STORE_REPLY + length block.old ≤ N }
    ensures text { block.new ≡ block.old ++ reply_text (reply_of reply) }
    ensures length { length block.new ≤ MOST_OF_A_STORE_REPLY + length block.old }
{
    match reply {
        StoreReply::ItemStored(id) => {
            block
                .text
                .push_counted_id(b"item ", id.worker, id.serial, &mut block.item)
        }
        StoreReply::BidStored(id) => {
            block
                .text
                .push_counted_id(b"bid ", id.worker, id.serial, &mut block.bid)
        }
        StoreReply::CommentStored(id) => {
            block
                .text
                .push_counted_id(b"comment ", id.worker, id.serial, &mut block.comment)
        }
        StoreReply::Bought(id) => block.text.push_id(b"buynow ", id.worker, id.serial),
        StoreReply::Refused(refusal) => block.text.push(text_of_refusal(refusal)),
    }
}

// Adds the text of the view of an item.
fn put_item_seen<const N: usize>(block: &mut ReplyBlock<N>, seen: &ItemView)
    requires { MOST_OF_A_REPLY + length block.old ≤ N }
    ensures text { block.new ≡ block.old ++ reply_text (item_reply seen.now) }
    ensures length { length block.new ≤ MOST_OF_A_REPLY + length block.old }
{
    let text = &mut block.text;
    put_facts(text, seen.seller, seen.category, seen.start, seen.closes);
    put_state(text, seen.highest, seen.bidder, seen.bids, seen.left);
    text.push(b" name=");
    text.push(seen.name.bytes());
}

// Adds the text of a reply.
fn put_reply<const N: usize>(block: &mut ReplyBlock<N>, reply: &Reply)
    requires { MOST_OF_A_REPLY + length block.old ≤ N }
    ensures text { block.new ≡ block.old ++ reply_text reply.now }
    ensures length { length block.new ≤ MOST_OF_A_REPLY + length block.old }
{
    match reply {
        Reply::ItemStored(id) => put_store_reply(block, StoreReply::ItemStored(*id)),
        Reply::BidStored(id) => put_store_reply(block, StoreReply::BidStored(*id)),
        Reply::CommentStored(id) => put_store_reply(block, StoreReply::CommentStored(*id)),
        Reply::Bought(id) => put_store_reply(block, StoreReply::Bought(*id)),
        Reply::Refused(reason) => put_store_reply(block, StoreReply::Refused(*reason)),
        Reply::ItemSeen {
            seller,
            category,
            name,
            start,
            closes,
            highest,
            bidder,
            bids,
            left,
        } => {
            put_facts(&mut block.text, *seller, *category, *start, *closes);
            put_state(&mut block.text, *highest, *bidder, *bids, *left);
            block.text.push(b" name=");
            block.text.push(name.bytes());
        }
        Reply::BidsSeen(bids) => put_bids(&mut block.text, bids),
        Reply::CategorySeen(items) => put_items(&mut block.text, items),
        Reply::UserSeen { rating, comments } => {
            block.text.push(b"user");
            put_score(&mut block.text, *rating, *comments);
        }
    }
}

/// Makes a block the text of a reply, whatever it was.
pub(crate) fn set_reply(block: &mut ReplyBlock<MOST_OF_A_REPLY>, reply: &Reply)
    ensures { block.new ≡ reply_text reply.now }
{
    block.clear();
    put_reply(block, reply);
}

// Makes a block the text of the reply to a store, whatever it was.
fn set_store_reply(block: &mut ReplyBlock<MOST_OF_A_REPLY>, reply: StoreReply)
    ensures { block.new ≡ reply_text (reply_of reply) }
{
    block.clear();
    put_store_reply(block, reply);
}

// Whether a text is that of a block.
fn is_text_of(block: &ReplyBlock<MOST_OF_A_REPLY>, text: &[u8]) -> bool
    ensures { IsTrue result ↔ (text.now ≡ block.now) }
{
    block.bytes() == text
}

/// Room for the text of a reply, to compare other texts with. Making one anew takes longer than
/// writing most replies, so it is kept from reply to reply.
#[derive(Drop)]
pub struct ReplyText {
    block: ReplyBlock<MOST_OF_A_REPLY>,
}

impl ReplyText {
    /// Room with no text.
    pub fn new() -> ReplyText {
        ReplyText {
            block: ReplyBlock::new(),
        }
    }

    /// Whether a text is that of a reply.
    pub fn is_of(&mut self, reply: &Reply, text: &[u8]) -> bool
        ensures { IsTrue result ↔ (text.now ≡ reply_text reply.now) }
    {
        set_reply(&mut self.block, reply);
        is_text_of(&self.block, text)
    }

    /// Whether a text is that of the reply to a store.
    pub fn is_of_store(&mut self, reply: StoreReply, text: &[u8]) -> bool
        ensures { IsTrue result ↔ (text.now ≡ reply_text (reply_of reply)) }
    {
        set_store_reply(&mut self.block, reply);
        is_text_of(&self.block, text)
    }
}

/// Adds the text of a reply.
pub fn push_reply(text: &mut Vec<u8>, reply: &Reply) -> Result<(), AllocError>
    ensures { OnOk result (text.new.items ≡ text.old.items ++ reply_text reply.now) }
{
    let mut block = ReplyBlock::new();
    set_reply(&mut block, reply);
    push_text(text, block.bytes())
}

// Adds the text of an entry's reply to a view, which is made whole if it shows no item.
#[inline(never)]
fn put_view<const N: usize>(block: &mut ReplyBlock<N>, entry: &EntryRef<'_>)
    requires { MOST_OF_A_REPLY + length block.old ≤ N }
    ensures text { block.new ≡ block.old ++ reply_text entry.now.reply }
    ensures length { length block.new ≤ MOST_OF_A_REPLY + length block.old }
{
    match entry.item_seen() {
        Some(seen) => put_item_seen(block, seen),
        None => put_reply(block, &entry.reply()),
    }
}

// Adds the text of an entry's reply.
#[inline(always)]
fn put_reply_of<const N: usize>(block: &mut ReplyBlock<N>, entry: &EntryRef<'_>)
    requires { MOST_OF_A_REPLY + length block.old ≤ N }
    ensures text { block.new ≡ block.old ++ reply_text entry.now.reply }
    ensures length { length block.new ≤ MOST_OF_A_REPLY + length block.old }
{
    match entry.store_reply() {
        Some(reply) => put_store_reply(block, reply),
        None => put_view(block, entry),
    }
}

/// Adds the line of an entry among the replies, with this index.
#[inline(always)]
pub(crate) fn put_reply_line<const N: usize>(
    block: &mut ReplyBlock<N>,
    entry: &EntryRef<'_>,
    index: u64,
)
    requires { MOST_OF_A_LINE + length block.old ≤ N }
    ensures { block.new ≡ block.old ++ reply_line (record entry.now { index = index }) }
{
    block.text.push_number(u64::from(entry.worker()));
    block.text.push(b",");
    block.text.push_counted(index, &mut block.index);
    block.text.push(b",");
    put_reply_of(block, entry);
    block.text.push(b"\n");
}

// Adds the place of an entry in a history, with this phase and index.
fn put_place<const N: usize>(block: &mut Block<N>, entry: &EntryRef<'_>, phase: u64, index: u64)
    requires { MOST_OF_A_PLACE + length block.old ≤ N }
    ensures text { block.new
        ≡ block.old ++ place_text (record entry.now { phase = phase; index = index }) }
    ensures length { length block.new ≤ MOST_OF_A_PLACE + length block.old }
{
    block.push_number(phase);
    block.push_labelled(b" ", entry.number());
    block.push_labelled(b" ", u64::from(entry.worker()));
    block.push_labelled(b" ", index);
}

/// Adds the line of an entry in a history, with this phase and index.
pub(crate) fn put_history_line<const N: usize>(
    block: &mut ReplyBlock<N>,
    entry: &EntryRef<'_>,
    phase: u64,
    index: u64,
)
    requires { MOST_OF_A_LINE + length block.old ≤ N }
    ensures { block.new
        ≡ block.old ++ history_line (record entry.now { phase = phase; index = index }) }
{
    put_place(&mut block.text, entry, phase, index);
    block.text.push(b" ");
    put_reply_of(block, entry);
    block.text.push(b"\n");
}
