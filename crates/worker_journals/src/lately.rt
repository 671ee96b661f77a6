//! What views show: what was shown lately is not kept twice.
ghost use Rattle.std.specs.Prelude.{◌≡◌, ◌<◌, ◌≤◌, ◌+◌, ◌++◌, ◌∷◌, ◌⊎◌, [], true, Some, length, take, drop, slice_get, vec_len, vec_capacity};
ghost use Rattle.auction_rows.specs.declared.limits.TheConstants.{MOST_SHOWN};
ghost use Rattle.request_scripts.specs.ShortRequests.{HasListRoom};

use auction_rows::{BidShown, ItemShown, ItemView, MOST_SHOWN, Ten};
use request_scripts::{SideIndex, keep_one};

/// So many places are remembered.
pub(crate) const LATELY: usize = 16;

/// Where values lie that views showed lately, by their hashes. A place is a guess: what a list has
/// there is compared with what is shown.
pub(crate) type Lately = [SideIndex; LATELY];

/// A value that views show.
pub(crate) trait Shown: Copy {
    /// By which the place is remembered.
    fn hash(&self) -> u32;

    /// Whether another one is the same.
    fn is_same(&self, other: &Self) -> bool
        ensures { result ≡ true → self.now ≡ other.now };
}

impl Shown for ItemView {
    #[inline(always)]
    fn hash(&self) -> u32 {
        self.seller
    }

    #[inline(always)]
    fn is_same(&self, other: &ItemView) -> bool {
        self.bids == other.bids
            && self.left == other.left
            && self.seller == other.seller
            && self.category == other.category
            && self.start == other.start
            && self.closes == other.closes
            && self.highest == other.highest
            && self.bidder == other.bidder
            && self.name.bytes() == other.name.bytes()
    }
}

impl Shown for BidShown {
    #[inline(always)]
    fn hash(&self) -> u32 {
        self.id.serial
    }

    #[inline(always)]
    fn is_same(&self, other: &BidShown) -> bool {
        self.id.worker == other.id.worker
            && self.id.serial == other.id.serial
            && self.amount == other.amount
            && self.time == other.time
            && self.bidder == other.bidder
    }
}

impl Shown for ItemShown {
    #[inline(always)]
    fn hash(&self) -> u32 {
        self.id.serial
    }

    #[inline(always)]
    fn is_same(&self, other: &ItemShown) -> bool {
        self.id.worker == other.id.worker
            && self.id.serial == other.id.serial
            && self.time == other.time
    }
}

/// Gives the place in a list of a value that a view shows: where it was shown lately, or the end,
/// where it is put. It takes no memory.
#[inline(always)]
pub(crate) fn keep_shown<T: Shown>(list: &mut Vec<T>, lately: &mut Lately, value: &T) -> SideIndex
    requires { HasListRoom 1 (vec_len list.old) (vec_capacity list.old) }
    ensures there { slice_get list.new.items result ≡ Some value.now }
    ensures kept { (list.new.items ≡ list.old.items)
        ⊎ (list.new.items ≡ list.old.items ++ value.now ∷ []) }
    ensures capacity { vec_capacity list.new ≡ vec_capacity list.old }
{
    let bucket = value.hash() as usize % LATELY;
    let guess = lately[bucket];
    if lies_at(list, guess.get(), value) {
        return guess;
    }
    let place = keep_one(list, *value);
    lately[bucket] = place;
    place
}

// Whether a value lies at a place of a list.
#[inline(always)]
fn lies_at<T: Shown>(list: &[T], place: usize, value: &T) -> bool
    ensures { result ≡ true → slice_get list.now place ≡ Some value.now }
{
    place < list.len() && list[place].is_same(value)
}

/// As `keep_shown`, of all values that a view shows: gives the place of the first.
pub(crate) fn keep_all_shown<T: Shown>(
    list: &mut Vec<T>,
    lately: &mut Lately,
    shown: &Ten<T>,
) -> SideIndex
    requires { HasListRoom MOST_SHOWN (vec_len list.old) (vec_capacity list.old) }
    ensures within { result + length shown.now ≤ length list.new.items }
    ensures there { take (length shown.now) (drop result list.new.items) ≡ shown.now }
    ensures kept { (list.new.items ≡ list.old.items)
        ⊎ (list.new.items ≡ list.old.items ++ shown.now) }
    ensures capacity { vec_capacity list.new ≡ vec_capacity list.old }
{
    let hash = match shown.get(0) {
        Some(first) => first.hash(),
        None => 0,
    };
    let bucket = hash as usize % LATELY;
    let guess = lately[bucket];
    if all_lie_at(list, guess.get(), shown) {
        return guess;
    }
    let place = keep_all(list, shown);
    lately[bucket] = place;
    place
}

// Whether the values that a view shows lie in a list from a place on.
fn all_lie_at<T: Shown>(list: &[T], start: usize, shown: &Ten<T>) -> bool
    ensures within { result ≡ true → start + length shown.now ≤ length list.now }
    ensures there { result ≡ true → take (length shown.now) (drop start list.now) ≡ shown.now }
{
    let count = shown.len();
    if start > list.len() || list.len() - start < count {
        return false;
    }
    for place in 0..count {
        if !list[start + place].is_same(&shown.get(place).unwrap()) {
            return false;
        }
    }
    true
}

// Puts the values that a view shows at the end of a list, and gives the place of the first. It
// takes no memory.
fn keep_all<T: Copy>(list: &mut Vec<T>, shown: &Ten<T>) -> SideIndex
    requires { HasListRoom MOST_SHOWN (vec_len list.old) (vec_capacity list.old) }
    ensures place { result ≡ vec_len list.old }
    ensures kept { list.new.items ≡ list.old.items ++ shown.now }
    ensures capacity { vec_capacity list.new ≡ vec_capacity list.old }
{
    let start = SideIndex::of(list.len());
    for place in 0..shown.len() {
        list.push_reserved(shown.get(place).unwrap());
    }
    start
}
