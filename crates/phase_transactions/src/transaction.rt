//! What a worker does with a request that is not put off: what it finds, and how it answers.
ghost use Rattle.std.specs.List.{AllByRecursion};
ghost use Rattle.std.specs.Prelude.{◌≡◌, ◌<◌, ◌≤◌, ◌↔◌, suc, None, Some, IsNone, IfNone, IfSome, IfOk, IfErr, false, true, length};
ghost use Rattle.auction_rows.specs.{Refusals.{number_refusal}, Requests.{is_view}};
ghost use Rattle.auction_rows.specs.StoreReplies.{reply_of};
ghost use Rattle.item_shards.specs.CommitNumbers.{last_number};
ghost use Rattle.phase_transactions.specs.declared.fault.PermitFault.TheVariants.{NumberFull};
ghost use Rattle.phase_transactions.specs.inner.Asking.{store_request, view_request};

use crate::answers::{item_on, reply_unless, view_on};
use crate::asked::{Asked, Call, HotStore, Stored, Viewed, bid_request};
use crate::deeds::{Deeds, Store, View};
use crate::fault::PermitFault;
use crate::taken::{
    Begun, BegunOne, Taken, make_room, number_on, number_with, put_all, put_back, take_all,
    take_one,
};
use crate::worker::Worker;
use auction_rows::{BidEntry, Refusal, Request, StoreReply, bidder_refusal, number_refusal};
use item_shards::{Act, Look, next_number, refusal_with};
use shard_boxes::{Boxes, ItemBid, Numbered, PhaseName};
use std::alloc::AllocError;
use std::sync::Wait;
use worker_journals::{Answer, BidRequest, ReplyForm};
use worker_slices::{Home, Homes};

impl<N: PhaseName> Worker<N> {
    ghost use Rattle.auction_rows.specs.declared.requests.Request.{Request as RequestValue};
    ghost use Rattle.shard_boxes.specs.Keys.{KeyState};
    ghost use Rattle.worker_slices.specs.{Homes.{IsHotStore, shard_at}, Slicing.{hot_objects}};
    ghost use Rattle.worker_slices.specs.declared.homes.Homes.{Homes as HomesValue};
    ghost use Rattle.phase_transactions.specs.Performing.{hot_request, CanTransact, HasFailed, HasPerformed, HasStoredSome, HaveOpening, StoresItem};
    ghost use Rattle.phase_transactions.specs.Txns.{is_put_off, IsReplyTo};
    ghost use Rattle.phase_transactions.specs.inner.Begun.{step_of, begun_of, states_in, CanView, HasBegun, HasBegunSome, HasCommittedBegun, HasCommittedBegunSome, HasFirst, HasRoomFor, IsAnsweredBy, MayBegin, MayBeginOn};
    ghost use Rattle.phase_transactions.specs.inner.Storing.{HasStoredOrIsFull};
    ghost use Rattle.phase_transactions.specs.inner.Takens.{footprint_of, IsReady};
    ghost use Rattle.phase_transactions.specs.inner.Viewing.{IsShownBy};
    ghost use Rattle.request_scripts.specs.Scripts.{request_of};

    /// Performs a request of the quota that is not put off. After a fault nothing has changed but
    /// what the key has seen of the shards of its footprint.
    pub fn transact<R: Wait>(
        &mut self,
        rt: &R,
        boxes: &Boxes<N>,
        request: &Request,
        index: u32,
    ) -> Result<(), PermitFault>
        requires { CanTransact N.initial boxes.now self.old request.now }
        ensures { HasPerformed N.initial self.old self.new request.now index result }
    {
        let call = Call { request, index };
        match Asked::of(request) {
            Asked::Bid(bid) => self.transact_bid(rt, boxes, &bid, index),
            Asked::Store(stored) => self.store(rt, boxes, call, &stored),
            Asked::View(viewed) => self.show(rt, boxes, call, viewed),
        }
    }

    /// Performs a bid of the quota, as `transact` does. If its item lies in a shard, it is found
    /// there once.
    #[inline(always)]
    pub fn transact_bid<R: Wait>(
        &mut self,
        rt: &R,
        boxes: &Boxes<N>,
        bid: &BidRequest,
        index: u32,
    ) -> Result<(), PermitFault>
        requires { CanTransact N.initial boxes.now self.old (request_of bid.now) }
        ensures { HasPerformed N.initial self.old self.new (request_of bid.now) index result }
    {
        if let Some(reason) = bidder_refusal(self.opening, bid.bidder) {
            let request = &bid_request(bid);
            return self.refuse(Call { request, index }, reason);
        }
        let id = self.next_bid();
        let home = self.bid_home(bid);
        let Some(shard) = home.shard() else {
            let homes = &Homes {
                item: home,
                other: Home::Nowhere,
            };
            let request = &bid_request(bid);
            return self.store_hot(Call { request, index }, homes, StoreReply::BidStored(id));
        };

        let one = self.begin_one(rt, boxes, shard)?;
        let BegunOne { held, number } = one;
        let entry = BidEntry {
            amount: bid.amount,
            time: bid.time,
            id,
            bidder: bid.bidder,
        };
        let at = Numbered { number, index };
        let item = bid.item;
        let refused = boxes.put_bid(rt, &mut self.key, held, at, ItemBid { item, entry });
        // The item is in a shard, so no slice is written.
        let answer = Answer {
            form: ReplyForm::Store(reply_unless(refused, StoreReply::BidStored(id))),
        };
        let request = &bid_request(bid);
        self.add_entry(number, Call { request, index }, &answer);
        Ok(())
    }

    // Performs a store that is no bid.
    fn store<R: Wait>(
        &mut self,
        rt: &R,
        boxes: &Boxes<N>,
        call: Call<'_>,
        stored: &Stored<'_>,
    ) -> Result<(), PermitFault>
        requires asks { call.request.now ≡ store_request stored.now }
        requires can { CanTransact N.initial boxes.now self.old call.request.now }
        ensures { HasPerformed N.initial self.old self.new
            call.entry.request.now call.entry.index result }
    {
        // A store that the opening refuses takes no shard, nor does one on hot objects alone.
        let request = call.request;
        if let Some(reason) = number_refusal(self.opening, *request) {
            return self.refuse(call, reason);
        }
        let homes = self.homes(stored);
        if let (None, None) = (homes.item.shard(), homes.other.shard()) {
            let due = self.due(stored);
            return self.store_hot(call, &homes, due);
        }

        // The shards are taken in ascending order, each once, before anything is read.
        let mut begun = self.begin(rt, boxes, &homes)?;
        if self.prepare(&mut begun, request).is_err() {
            let Begun { taken, number: _ } = begun;
            put_back(rt, boxes, &mut self.key, taken);
            return Err(PermitFault::Memory);
        }

        let refused = self.refusal(&begun.taken, request, &homes);
        let reply = reply_unless(refused, self.due(stored));
        let store = Store {
            call,
            homes: &homes,
            reply,
        };
        self.put_store(rt, boxes, begun, &store, stored);
        Ok(())
    }

    // Takes the shards of a footprint, with the number after all clocks, or puts them back.
    #[inline(always)]
    fn begin<R: Wait>(
        &mut self,
        rt: &R,
        boxes: &Boxes<N>,
        homes: &Homes,
    ) -> Result<Begun<N>, PermitFault>
        requires ready { IsReady boxes.now self.old.key }
        requires known { AllByRecursion (λ s. s < length N.initial) (footprint_of homes.now) }
        ensures worker { self.new ≡ record self.old { key = self.new.key } }
        ensures begun { IfOk result (λ begun. (request : RequestValue) →
            MayBegin (length N.initial) self.old request homes.now → HasBegun
            (step_of N.initial N.workers boxes.now self.old.key homes.now)
            self.new request begun) }
        ensures full { IfErr result (λ fault. (request : RequestValue) →
            MayBegin (length N.initial) self.old request homes.now →
            HasFailed N.initial self.old self.new request fault) }
    {
        let taken = take_all(rt, boxes, &mut self.key, homes);
        match number_on(&taken, self.clock) {
            Some(number) => Ok(Begun { taken, number }),
            None => {
                put_back(rt, boxes, &mut self.key, taken);
                Err(PermitFault::NumberFull)
            }
        }
    }

    // Takes one shard, with the number after both clocks, or puts it back.
    #[inline(always)]
    fn begin_one<R: Wait>(
        &mut self,
        rt: &R,
        boxes: &Boxes<N>,
        shard: u32,
    ) -> Result<BegunOne<N>, PermitFault>
        requires ready { IsReady boxes.now self.old.key }
        requires known { shard < length N.initial }
        ensures worker { self.new ≡ record self.old { key = self.new.key } }
        ensures begun { IfOk result (λ one. (request : RequestValue) → (homes : HomesValue) →
            MayBeginOn (length N.initial) self.old request homes shard → HasBegun
            (step_of N.initial N.workers boxes.now self.old.key homes)
            self.new request (begun_of one)) }
        ensures full { IfErr result (λ fault. (request : RequestValue) → (homes : HomesValue) →
            MayBeginOn (length N.initial) self.old request homes shard →
            HasFailed N.initial self.old self.new request fault) }
    {
        let held = take_one(rt, boxes, &mut self.key, shard);
        match number_with(&held, self.clock) {
            Some(number) => Ok(BegunOne { held, number }),
            None => {
                put_back(rt, boxes, &mut self.key, Taken::One(held));
                Err(PermitFault::NumberFull)
            }
        }
    }

    // Makes room for the item that a request stores, on the shard in which it will lie.
    #[inline(always)]
    fn prepare(&self, begun: &mut Begun<N>, request: &Request) -> Result<(), AllocError>
        requires begun { HasFirst self.now request.now begun.old.taken }
        ensures number { begun.new.number ≡ begun.old.number }
        ensures same { states_in begun.new.taken ≡ states_in begun.old.taken }
        ensures room { IfOk result (λ _. HasRoomFor self.now request.now begun.new.taken) }
        ensures refused { IfErr result (λ _. StoresItem request.now) }
    {
        match request {
            Request::StoreItem { .. } => make_room(&mut begun.taken, self.next_item()),
            _ => Ok(()),
        }
    }

    // Does a store's acts on the shards that were taken, puts these back, and commits it.
    #[inline]
    fn put_store<R: Wait>(
        &mut self,
        rt: &R,
        boxes: &Boxes<N>,
        begun: Begun<N>,
        store: &Store<'_>,
        stored: &Stored<'_>,
    )
        requires asks { store.now.call.request.now ≡ store_request stored.now }
        requires opened { HaveOpening N.initial self.old.opening }
        requires begun { (key : KeyState) × HasBegun
            (step_of N.initial N.workers boxes.now key store.now.homes.now)
            self.old store.now.call.request.now begun }
        requires room { HasRoomFor self.old store.now.call.request.now begun.taken }
        requires answered { IsAnsweredBy self.old store.now.call.request.now
            store.now.homes.now begun.taken (reply_of store.now.reply) }
        requires left { 0 < self.old.left }
        ensures { HasCommittedBegun N.initial N.workers boxes.now store.now.homes.now
            self.old self.new store.now.call.request.now store.now.call.index
            (reply_of store.now.reply) begun }
    {
        let Begun { taken, number } = begun;
        let deeds = Deeds::of(stored, store.reply, store.homes);
        let acts = deeds.dealt();
        let index = store.call.index;
        let at = Numbered { number, index };
        put_all(rt, boxes, &mut self.key, taken, at, acts);
        self.add_store(number, store);
    }

    /// Commits a request that the opening refuses. It takes no shard and no memory.
    #[inline(always)]
    pub(crate) fn refuse(&mut self, call: Call<'_>, reason: Refusal) -> Result<(), PermitFault>
        requires refused { number_refusal self.old.opening call.request.now ≡ Some reason }
        requires goes { is_put_off (hot_objects self.old.slices) call.request.now ≡ false }
        requires left { 0 < self.old.left }
        ensures { HasStoredOrIsFull self.old self.new
            call.entry.request.now call.entry.index result }
    {
        let number = number_after(self.clock)?;
        let answer = Answer {
            form: ReplyForm::Store(StoreReply::Refused(reason)),
        };
        self.add_entry(number, call, &answer);
        Ok(())
    }

    /// Performs a store on objects with these homes, of which none is in a shard, that the opening
    /// does not refuse: with this reply, if its item accepts it. It takes no shard and no memory.
    #[inline(always)]
    pub(crate) fn store_hot(
        &mut self,
        call: Call<'_>,
        homes: &Homes,
        due: StoreReply,
    ) -> Result<(), PermitFault>
        requires may { MayBegin (length N.initial) self.old call.request.now homes.now }
        requires store { is_view call.request.now ≡ false }
        requires hot { shard_at homes.now.item ≡ None }
        requires due { IsReplyTo self.old.counters self.old.journal.worker
            call.request.now (reply_of due) }
        requires left { 0 < self.old.left }
        ensures { HasStoredOrIsFull self.old self.new
            call.entry.request.now call.entry.index result }
    {
        let number = number_after(self.clock)?;
        let refused = refusal_with(&self.fixed(homes.item), call.request);
        let reply = reply_unless(refused, due);
        let store = Store { call, homes, reply };
        self.add_store(number, &store);
        Ok(())
    }

    /// Performs a store on hot objects alone: None exactly where the clock is at the end of
    /// numbers, and then nothing has changed. It takes no shard and no memory.
    pub fn perform_hot(&mut self, store: HotStore, index: u32) -> Option<()>
        requires hot { IsHotStore self.old.slices (hot_request store) }
        requires left { 0 < self.old.left }
        ensures none { IsNone result ↔ (last_number ≤ self.old.clock) }
        ensures unchanged { IfNone result (self.new ≡ self.old) }
        ensures stored { IfSome result (λ done.
            HasStoredSome self.old self.new (hot_request store) index) }
    {
        match store {
            HotStore::Bid(bid) => {
                let request = &bid_request(&bid);
                self.bid_hot(Call { request, index }, &bid).ok()
            }
            HotStore::Comment {
                author,
                about,
                item,
                stars,
            } => {
                let request = &Request::StoreComment {
                    author,
                    about,
                    item,
                    stars,
                };
                let stored = Stored::Comment(author, about, item, stars);
                self.comment_hot(Call { request, index }, &stored).ok()
            }
        }
    }

    // Performs a bid on a hot item.
    #[inline(always)]
    fn bid_hot(&mut self, call: Call<'_>, bid: &BidRequest) -> Result<(), PermitFault>
        requires asks { call.request.now ≡ request_of bid.now }
        requires hot { IsHotStore self.old.slices call.request.now }
        requires left { 0 < self.old.left }
        ensures { HasStoredOrIsFull self.old self.new
            call.entry.request.now call.entry.index result }
    {
        if let Some(reason) = bidder_refusal(self.opening, bid.bidder) {
            return self.refuse(call, reason);
        }
        let home = self.bid_home(bid);
        let homes = &Homes {
            item: home,
            other: Home::Nowhere,
        };
        self.store_hot(call, homes, StoreReply::BidStored(self.next_bid()))
    }

    // Performs a comment about a hot user, on the occasion of a hot item.
    #[inline(always)]
    fn comment_hot(&mut self, call: Call<'_>, stored: &Stored<'_>) -> Result<(), PermitFault>
        requires asks { call.request.now ≡ store_request stored.now }
        requires hot { IsHotStore self.old.slices call.request.now }
        requires left { 0 < self.old.left }
        ensures { HasStoredOrIsFull self.old self.new
            call.entry.request.now call.entry.index result }
    {
        if let Some(reason) = number_refusal(self.opening, *call.request) {
            return self.refuse(call, reason);
        }
        let homes = self.homes(stored);
        let due = self.due(stored);
        self.store_hot(call, &homes, due)
    }

    // Performs a view. Not inlined: other requests need none of its room on the stack.
    #[inline(never)]
    fn show<R: Wait>(
        &mut self,
        rt: &R,
        boxes: &Boxes<N>,
        call: Call<'_>,
        viewed: Viewed,
    ) -> Result<(), PermitFault>
        requires view { call.request.now ≡ view_request viewed }
        requires can { CanTransact N.initial boxes.now self.old call.request.now }
        ensures { HasPerformed N.initial self.old self.new
            call.entry.request.now call.entry.index result }
    {
        let request = call.request;
        if let Some(reason) = number_refusal(self.opening, *request) {
            return self.refuse(call, reason);
        }
        let shard = self.shard_viewed(viewed);
        let one = self.begin_one(rt, boxes, shard)?;
        if let Viewed::Item(item) = viewed {
            let seen = item_on(&one.held, item);
            let view = View {
                call,
                look: Look::Item(item),
                answer: Answer::of_item(&seen),
            };
            self.put_view(rt, boxes, one, &view);
            return Ok(());
        }
        self.show_whole(rt, boxes, one, call, viewed);
        Ok(())
    }

    // Shows what a view asks for on the shard that it took, by a whole reply. Not inlined: the view
    // of an item needs no room for one on the stack.
    #[inline(never)]
    fn show_whole<R: Wait>(
        &mut self,
        rt: &R,
        boxes: &Boxes<N>,
        one: BegunOne<N>,
        call: Call<'_>,
        viewed: Viewed,
    )
        requires view { call.request.now ≡ view_request viewed }
        requires can { CanView one.held.shard call.request.now }
        requires begun { (key : KeyState) × HasBegunSome N.initial N.workers boxes.now key
            self.old call.request.now (begun_of one) }
        requires left { 0 < self.old.left }
        ensures { HasCommittedBegunSome N.initial N.workers boxes.now
            self.old self.new call.entry.request.now call.entry.index (begun_of one) }
    {
        let reply = view_on(one.held.shard(), viewed);
        let view = View {
            call,
            look: viewed.look(),
            answer: Answer::of(&reply),
        };
        self.put_view(rt, boxes, one, &view);
    }

    // Puts the shard of a view back with its line, and commits it.
    #[inline(always)]
    fn put_view<R: Wait>(&mut self, rt: &R, boxes: &Boxes<N>, one: BegunOne<N>, view: &View<'_>)
        requires view { is_view view.now.call.request.now ≡ true }
        requires begun { (key : KeyState) × HasBegunSome N.initial N.workers boxes.now key
            self.old view.now.call.request.now (begun_of one) }
        requires shown { IsShownBy one.held.shard
            view.now.call.request.now view.now.look view.now.answer }
        requires left { 0 < self.old.left }
        ensures { HasCommittedBegunSome N.initial N.workers boxes.now
            self.old self.new view.now.call.request.now view.now.call.index (begun_of one) }
    {
        let BegunOne { held, number } = one;
        let acts = [Act::Look(view.look), Act::Look(Look::Nothing)];
        let index = view.call.index;
        let at = Numbered { number, index };
        boxes.put_acts(rt, &mut self.key, held, at, &acts);
        self.add_entry(number, view.call, &view.answer);
    }
}

// The number after a worker's clock, if there is one.
#[inline(always)]
fn number_after(own: u64) -> Result<u64, PermitFault>
    ensures number { IfOk result (λ number. number ≡ suc own) }
    ensures within { IfOk result (λ number. number ≤ last_number) }
    ensures fault { IfErr result (λ fault. fault ≡ NumberFull) }
    ensures full { IfErr result (λ _. last_number ≤ own) }
{
    next_number(own, 0).ok_or(PermitFault::NumberFull)
}
