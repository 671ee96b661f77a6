//! What a journal keeps beside its heads.
ghost use Rattle.std.specs.Prelude.{◌≡◌, ◌+◌, ◌<◌, ◌≤◌, length, take, drop, option_map, option_to_list, IfOk};
ghost use Rattle.worker_journals.specs.Shown.{shown_in};

use crate::entries::{Answer, ReplyForm};
use crate::heads::{ShortReply, UserSeen};
use crate::lately::{LATELY, Lately, keep_all_shown, keep_shown};
use auction_rows::{BidShown, ItemShown, ItemView, MOST_SHOWN, Reply, Ten};
use request_scripts::{SideIndex, emptied, keep_one};
use std::alloc::{AllocError, Global};
use std::marker::Model;
use std::mem::replace;

/// What the views of a journal show, with room for that of `left` commits more. What was shown
/// lately is not kept twice.
#[derive(Drop)]
pub(crate) struct Sides {
    items: Vec<ItemView>,
    users: Vec<UserSeen>,
    bids: Vec<BidShown>,
    latest: Vec<ItemShown>,
    left: usize,
    lately: Lately,
}

impl Model for Sides {
    ghost use Rattle.std.specs.Prelude.{◌*◌, vec_len, vec_capacity};
    ghost use Rattle.auction_rows.specs.declared.limits.TheConstants.{MOST_SHOWN};
    ghost use Rattle.request_scripts.specs.ShortRequests.{HasListRoom};
    ghost use Rattle.worker_journals.specs.inner.Sides.{SideLists};

    ghost Value = { SideLists };

    ghost view = { λ s. record {
      lists = record {
        items = s.items.items;
        users = s.users.items;
        bids = s.bids.items;
        latest = s.latest.items;
      };
      left = s.left;
    } };

    ghost invariant = { λ s. HasListRoom s.left (vec_len s.items) (vec_capacity s.items)
        × HasListRoom s.left (vec_len s.users) (vec_capacity s.users)
        × HasListRoom (MOST_SHOWN * s.left) (vec_len s.bids) (vec_capacity s.bids)
        × HasListRoom (MOST_SHOWN * s.left) (vec_len s.latest) (vec_capacity s.latest) };
}

impl Sides {
    ghost use Rattle.auction_rows.specs.ItemViews.{item_reply};
    ghost use Rattle.worker_journals.specs.inner.Sides.{HasKept, HasReply, SaysReply, no_sides, reply_from};

    /// Empty lists without room.
    pub(crate) fn none(alloc: Global) -> Sides
        ensures { result ≡ no_sides 0 }
    {
        Sides {
            items: Vec::new(alloc),
            users: Vec::new(alloc),
            bids: Vec::new(alloc),
            latest: Vec::new(alloc),
            left: 0,
            lately: [SideIndex::of(0); LATELY],
        }
    }

    /// Where the lists have their memory.
    pub(crate) fn allocator(&self) -> Global {
        *self.items.allocator()
    }

    /// These lists, emptied, with room for those of so many commits.
    pub(crate) fn emptied(self, room: usize) -> Result<Sides, AllocError>
        ensures { IfOk result (λ sides. sides ≡ no_sides room) }
    {
        let Sides {
            items,
            users,
            bids,
            latest,
            left: _,
            lately,
        } = self;
        // Past 64 bits there is no such room.
        let shown = room.saturating_mul(MOST_SHOWN);
        Ok(Sides {
            items: emptied(items, room)?,
            users: emptied(users, room)?,
            bids: emptied(bids, shown)?,
            latest: emptied(latest, shown)?,
            left: room,
            lately,
        })
    }

    /// For how many commits more there is room.
    pub(crate) fn left(&self) -> usize
        ensures { result ≡ self.now.left }
    {
        self.left
    }

    /// Gives back the memory that is not filled: there is no more room then. Of a list that is
    /// empty the memory is given to the caller.
    pub(crate) fn close(&mut self) -> Sides
        ensures { self.new ≡ record self.old { left = 0 } }
    {
        self.left = 0;
        Sides {
            items: close_list(&mut self.items),
            users: close_list(&mut self.users),
            bids: close_list(&mut self.bids),
            latest: close_list(&mut self.latest),
            left: 0,
            lately: self.lately,
        }
    }

    /// Keeps what a reply shows, and gives what is small of it, with the place of the rest. It takes
    /// no memory.
    #[inline(always)]
    pub(crate) fn keep(&mut self, reply: &Answer<'_>) -> ShortReply
        requires { 0 < self.old.left }
        ensures kept { HasKept self.old reply.now self.new }
        ensures reply { SaysReply self.new.lists result reply.now }
    {
        match reply.form {
            ReplyForm::Store(store) => {
                self.left -= 1;
                ShortReply::of_store(store)
            }
            ReplyForm::Item(seen) => self.keep_item(seen),
            ReplyForm::Whole(whole) => self.keep_reply(whole),
        }
    }

    // As `keep`, of the view of an item, which shows this.
    #[inline(always)]
    fn keep_item(&mut self, seen: &ItemView) -> ShortReply
        requires { 0 < self.old.left }
        ensures kept { HasKept self.old (item_reply seen.now) self.new }
        ensures reply { SaysReply self.new.lists result (item_reply seen.now) }
    {
        self.left -= 1;
        ShortReply::ItemSeen(keep_shown(&mut self.items, &mut self.lately, seen))
    }

    // As `keep`, of a whole reply.
    fn keep_reply(&mut self, reply: &Reply) -> ShortReply
        requires { 0 < self.old.left }
        ensures kept { HasKept self.old reply.now self.new }
        ensures reply { SaysReply self.new.lists result reply.now }
    {
        if let Some(seen) = item_seen(reply) {
            return self.keep_item(&seen);
        }
        self.left -= 1;
        match reply {
            Reply::ItemStored(id) => ShortReply::ItemStored(*id),
            Reply::BidStored(id) => ShortReply::BidStored(*id),
            Reply::CommentStored(id) => ShortReply::CommentStored(*id),
            Reply::Bought(id) => ShortReply::Bought(*id),
            Reply::ItemSeen { .. } => unreachable!(),
            Reply::BidsSeen(shown) => {
                let place = keep_all_shown(&mut self.bids, &mut self.lately, shown);
                ShortReply::BidsSeen(shown.len() as u8, place)
            }
            Reply::CategorySeen(shown) => {
                let place = keep_all_shown(&mut self.latest, &mut self.lately, shown);
                ShortReply::CategorySeen(shown.len() as u8, place)
            }
            Reply::UserSeen { rating, comments } => {
                let seen = UserSeen {
                    rating: *rating,
                    comments: *comments,
                };
                ShortReply::UserSeen(keep_one(&mut self.users, seen))
            }
            Reply::Refused(reason) => ShortReply::Refused(*reason),
        }
    }

    /// The reply of a head of this journal.
    pub(crate) fn reply(&self, short: ShortReply) -> Reply
        requires { HasReply self.now.lists short }
        ensures { result ≡ reply_from self.now.lists short }
    {
        match short {
            ShortReply::ItemStored(id) => Reply::ItemStored(id),
            ShortReply::BidStored(id) => Reply::BidStored(id),
            ShortReply::CommentStored(id) => Reply::CommentStored(id),
            ShortReply::Bought(id) => Reply::Bought(id),
            ShortReply::ItemSeen(place) => self.items[place.get()].to_reply(),
            ShortReply::BidsSeen(count, place) => Reply::BidsSeen(part_of(
                &self.bids, place, count,
            )),
            ShortReply::CategorySeen(count, place) => {
                Reply::CategorySeen(part_of(&self.latest, place, count))
            }
            ShortReply::UserSeen(place) => {
                let seen = self.users[place.get()];
                Reply::UserSeen {
                    rating: seen.rating,
                    comments: seen.comments,
                }
            }
            ShortReply::Refused(reason) => Reply::Refused(reason),
        }
    }

    /// What a head of this journal shows of an item, if it is of a view of one.
    #[inline(always)]
    pub(crate) fn item_seen(&self, short: ShortReply) -> Option<&ItemView>
        requires { HasReply self.now.lists short }
        ensures { option_to_list (option_map (λ seen. seen.now) result)
            ≡ (shown_in (reply_from self.now.lists short)).items }
    {
        match short {
            ShortReply::ItemSeen(place) => Some(&self.items[place.get()]),
            _ => None,
        }
    }
}

// Gives back the memory that a list does not fill, and if it is empty all to the caller.
fn close_list<T: Copy>(list: &mut Vec<T>) -> Vec<T>
    ensures { list.new.items ≡ list.old.items }
{
    let none = Vec::new(*list.allocator());
    if list.is_empty() {
        return replace(list, none);
    }
    list.shrink_to_fit();
    none
}

// The values of a list from a place on, as a view shows them.
fn part_of<T: Copy>(list: &[T], place: SideIndex, count: u8) -> Ten<T>
    requires few { count ≤ MOST_SHOWN }
    requires within { place + count ≤ length list.now }
    ensures { result ≡ take count (drop place list.now) }
{
    let start = place.get();
    let mut shown = Ten::new();
    for value in &list[start..start + count as usize] {
        shown.push(*value);
    }
    shown
}

// What the view of an item shows: None of another reply.
fn item_seen(reply: &Reply) -> Option<ItemView>
    ensures { option_to_list result ≡ (shown_in reply.now).items }
{
    if let Reply::ItemSeen {
        seller,
        category,
        name,
        start,
        closes,
        highest,
        bidder,
        bids,
        left,
    } = *reply
    {
        return Some(ItemView {
            seller,
            category,
            name,
            left,
            start,
            closes,
            bids,
            highest,
            bidder,
        });
    }
    None
}
