//! The shards that a transaction takes, its number, and how they go back with their lines.
ghost use Rattle.std.specs.List.{AllByRecursion};
ghost use Rattle.std.specs.Prelude.{◌≡◌, ◌<◌, ◌≤◌, suc, max, [], ◌∷◌, length, Some, IfNone, IfSome, IfOk};
ghost use Rattle.auction_rows.specs.Requests.{item_of};
ghost use Rattle.auction_rows.specs.declared.requests.ItemId.{ItemId as ItemIdValue};
ghost use Rattle.item_shards.specs.{Answering.{refusal_with}, CommitNumbers.{last_number}};
ghost use Rattle.phase_transactions.specs.Putting.{HasPutAll};
ghost use Rattle.phase_transactions.specs.inner.Begun.{states_in, FirstHas, FirstHasRoom};
ghost use Rattle.phase_transactions.specs.inner.Deeds.{stock_taken};
ghost use Rattle.phase_transactions.specs.inner.HeldShards.{two_acts};
ghost use Rattle.phase_transactions.specs.inner.Takens.{footprint_of, is_one_of, greatest_held, held_in, numbers_of, dealt, line_among, HasTakenAll, AreHeldAll, AreBack, CanBeDoneOnAll, IsReady};

use auction_rows::{ItemId, Refusal, Request};
use item_shards::{Act, Look, next_number, refusal_with};
use shard_boxes::{Boxes, Held, Key, Numbered, PhaseName};
use std::alloc::AllocError;
use std::sync::Wait;
use worker_slices::Homes;

/// The shards of a transaction, each once. They must be put back.
pub(crate) enum Taken<N: PhaseName> {
    /// None is needed.
    Nothing,
    /// One, in which all lies that is needed.
    One(Held<N>),
    /// That of an item, and another one, that of a user or a category.
    Two(Held<N>, Held<N>),
}

/// A transaction that has taken its shards, with its number.
pub(crate) struct Begun<N: PhaseName> {
    pub(crate) taken: Taken<N>,
    pub(crate) number: u64,
}

/// A transaction that has taken one shard, with its number.
pub(crate) struct BegunOne<N: PhaseName> {
    pub(crate) held: Held<N>,
    pub(crate) number: u64,
}

/// Takes one shard.
#[inline(always)]
pub(crate) fn take_one<N: PhaseName, R: Wait>(
    rt: &R,
    boxes: &Boxes<N>,
    key: &mut Key<N>,
    shard: u32,
) -> Held<N>
    requires ready { IsReady boxes.now key.old }
    requires known { shard < length N.initial }
    ensures { HasTakenAll N.initial N.workers key.old key.new (shard ∷ []) (result ∷ []) }
{
    boxes.take(rt, key, shard)
}

/// Takes the shards of a footprint, in ascending order, each once.
#[inline(always)]
pub(crate) fn take_all<N: PhaseName, R: Wait>(
    rt: &R,
    boxes: &Boxes<N>,
    key: &mut Key<N>,
    homes: &Homes,
) -> Taken<N>
    requires ready { IsReady boxes.now key.old }
    requires known { AllByRecursion (λ s. s < length N.initial) (footprint_of homes.now) }
    ensures { HasTakenAll N.initial N.workers key.old key.new
        (footprint_of homes.now) (held_in result) }
{
    match (homes.item.shard(), homes.other.shard()) {
        (None, None) => Taken::Nothing,
        (Some(item), None) => Taken::One(take_one(rt, boxes, key, item)),
        (None, Some(other)) => Taken::One(take_one(rt, boxes, key, other)),
        (Some(item), Some(other)) if item < other => {
            let on_item = boxes.take(rt, key, item);
            let on_other = boxes.take(rt, key, other);
            Taken::Two(on_item, on_other)
        }
        (Some(item), Some(other)) if other < item => {
            let on_other = boxes.take(rt, key, other);
            let on_item = boxes.take(rt, key, item);
            Taken::Two(on_item, on_other)
        }
        (Some(both), Some(_same)) => Taken::One(take_one(rt, boxes, key, both)),
    }
}

/// The number after a worker's clock and those of the shards, if there is one.
#[inline(always)]
pub(crate) fn number_on<N: PhaseName>(taken: &Taken<N>, own: u64) -> Option<u64>
    ensures number { IfSome result (λ number.
        number ≡ suc (max own (greatest_held (held_in taken.now)))) }
    ensures within { IfSome result (λ number. number ≤ last_number) }
    ensures full { IfNone result (last_number ≤ max own (greatest_held (held_in taken.now))) }
{
    match taken {
        Taken::Nothing => next_number(own, 0),
        Taken::One(one) => number_with(one, own),
        Taken::Two(item, other) => {
            next_number(own.max(other.shard().clock()), item.shard().clock())
        }
    }
}

/// The number after a worker's clock and that of one shard, if there is one.
#[inline(always)]
pub(crate) fn number_with<N: PhaseName>(held: &Held<N>, own: u64) -> Option<u64>
    ensures number { IfSome result (λ number.
        number ≡ suc (max own (greatest_held (held.now ∷ [])))) }
    ensures within { IfSome result (λ number. number ≤ last_number) }
    ensures full { IfNone result (last_number ≤ max own (greatest_held (held.now ∷ []))) }
{
    next_number(own, held.shard().clock())
}

/// The first reason for which its item, which lies in the first of the shards, refuses a request.
#[inline(always)]
pub(crate) fn refusal_in<N: PhaseName>(taken: &Taken<N>, request: &Request) -> Option<Refusal>
    requires { (item : ItemIdValue) → item_of request.now ≡ Some item → FirstHas taken.now item }
    ensures { result ≡ refusal_with (stock_taken taken.now request.now) request.now }
{
    match taken {
        Taken::Nothing => refusal_with(&None, request),
        Taken::One(one) => one.shard().refusal(request),
        Taken::Two(one, _) => one.shard().refusal(request),
    }
}

/// Makes room for an item on the first of the shards, which shows nothing of it.
pub(crate) fn make_room<N: PhaseName>(taken: &mut Taken<N>, item: ItemId) -> Result<(), AllocError>
    requires { FirstHas taken.old item }
    ensures same { states_in taken.new ≡ states_in taken.old }
    ensures room { IfOk result (λ _. FirstHasRoom taken.new item) }
{
    match taken {
        Taken::Nothing => Ok(()),
        Taken::One(one) => one.shard_mut().prepare_item(item),
        Taken::Two(one, _) => one.shard_mut().prepare_item(item),
    }
}

/// Puts the shards back as they were taken.
pub(crate) fn put_back<N: PhaseName, R: Wait>(
    rt: &R,
    boxes: &Boxes<N>,
    key: &mut Key<N>,
    taken: Taken<N>,
)
    requires { AreHeldAll N.initial N.workers boxes.now key.old (held_in taken) }
    ensures { AreBack key.old key.new }
{
    match taken {
        Taken::Nothing => {}
        Taken::One(one) => boxes.put(rt, key, one, None),
        Taken::Two(item, other) => {
            boxes.put(rt, key, item, None);
            boxes.put(rt, key, other, None);
        }
    }
}

/// Does two acts on the one shard, or one on each of two, and puts them back with their lines.
#[inline(always)]
pub(crate) fn put_all<N: PhaseName, R: Wait>(
    rt: &R,
    boxes: &Boxes<N>,
    key: &mut Key<N>,
    taken: Taken<N>,
    at: Numbered,
    acts: (Act, Act),
)
    requires held { AreHeldAll N.initial N.workers boxes.now key.old (held_in taken) }
    requires within { at.number ≤ last_number }
    requires can { CanBeDoneOnAll at.number (held_in taken) (dealt taken (two_acts acts)) }
    ensures { HasPutAll N.initial key.old key.new (is_one_of (numbers_of (held_in taken)))
        (line_among at.number at.index (held_in taken) (dealt taken (two_acts acts))) }
{
    let (first, second) = acts;
    match taken {
        Taken::Nothing => {}
        Taken::One(one) => boxes.put_acts(rt, key, one, at, &[first, second]),
        Taken::Two(item, other) => {
            boxes.put_acts(rt, key, item, at, &[first, Act::Look(Look::Nothing)]);
            boxes.put_acts(rt, key, other, at, &[second, Act::Look(Look::Nothing)]);
        }
    }
}
