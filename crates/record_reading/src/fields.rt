//! The kinds of records, and what one field of a record says.
ghost use Rattle.std.specs.{Char.{is_ascii_digit}, List.{list_all, position}};
ghost use Rattle.std.specs.Prelude.{◌≡◌, ◌≤◌, ◌<◌, ◌^◌, true, false, length, IfSome, MatchOption};
ghost use Rattle.std.specs.Str.Parse.{digits_value};
ghost use Rattle.record_reading.specs.Fields.{is_point, item_id, name, number, quantity, stars};
ghost use Rattle.record_reading.specs.Kinds.{has_count, kind_of, request, row, store_of, view_of};

use auction_rows::{ItemId, Name, Quantity, Stars};

/// What a request asks for.
#[derive(Clone, Copy)]
pub enum RequestKind {
    /// That an item be put up.
    Item,
    /// That a bid be made on an item.
    Bid,
    /// That a comment be made about a user.
    Comment,
    /// That some of an item be bought at once.
    BuyNow,
    /// To see an item.
    ViewItem,
    /// To see the greatest bids on an item.
    ViewBids,
    /// To see the latest items of a category.
    ViewCategory,
    /// To see a user's rating.
    ViewUser,
}

/// What a record is: a request of a kind, or a row that such a request would add.
#[derive(Clone, Copy)]
pub struct Kind {
    /// Whether it is a row.
    pub is_row: bool,
    /// The kind of the request.
    pub request: RequestKind,
}

impl Kind {
    fn request(kind: RequestKind) -> Kind
        ensures { result ≡ request kind }
    {
        Kind {
            is_row: false,
            request: kind,
        }
    }

    fn row(kind: RequestKind) -> Kind
        ensures { result ≡ row kind }
    {
        Kind {
            is_row: true,
            request: kind,
        }
    }
}

// The kind of store that a word names.
fn store_named(word: &[u8]) -> Option<RequestKind>
    ensures { result ≡ store_of word.now }
{
    if word == b"item".as_slice() {
        Some(RequestKind::Item)
    } else if word == b"bid".as_slice() {
        Some(RequestKind::Bid)
    } else if word == b"comment".as_slice() {
        Some(RequestKind::Comment)
    } else if word == b"buynow".as_slice() {
        Some(RequestKind::BuyNow)
    } else {
        None
    }
}

// The kind of view that a word names.
fn view_named(word: &[u8]) -> Option<RequestKind>
    ensures { result ≡ view_of word.now }
{
    if word == b"viewitem".as_slice() {
        Some(RequestKind::ViewItem)
    } else if word == b"viewbids".as_slice() {
        Some(RequestKind::ViewBids)
    } else if word == b"viewcategory".as_slice() {
        Some(RequestKind::ViewCategory)
    } else if word == b"viewuser".as_slice() {
        Some(RequestKind::ViewUser)
    } else {
        None
    }
}

/// The kind that a record's second field names. A row's is the word of its store after a plus.
pub(crate) fn kind_named(word: &[u8]) -> Option<Kind>
    ensures { result ≡ kind_of word.now }
{
    if let [b'+', stored @ ..] = word {
        return Some(Kind::row(store_named(stored)?));
    }
    match store_named(word) {
        Some(kind) => Some(Kind::request(kind)),
        None => Some(Kind::request(view_named(word)?)),
    }
}

/// Whether a record of a request's kind may have so many fields.
pub(crate) fn has_count(kind: RequestKind, count: usize) -> bool
    ensures { result ≡ has_count kind count }
{
    match kind {
        RequestKind::Item => count == 8 || count == 9,
        RequestKind::Bid => count == 6,
        RequestKind::Comment => count == 6,
        RequestKind::BuyNow => count == 6,
        RequestKind::ViewItem => count == 3,
        RequestKind::ViewBids => count == 3,
        RequestKind::ViewCategory => count == 3,
        RequestKind::ViewUser => count == 3,
    }
}

/// A number of so many digits fits in 64 bits.
pub(crate) const SURE_DIGITS: usize = 19;

// The number that a few digits write; none where a byte is no digit.
#[tactic(auto, using(crate::proofs::NumberLemmas::next_digit, crate::proofs::NumberLemmas::digits_more))]
fn short_number(bytes: &[u8]) -> Option<u64>
    requires { length bytes.now ≤ 19 }
    ensures { MatchOption result (list_all is_ascii_digit bytes.now ≡ false) (λ n.
        (list_all is_ascii_digit bytes.now ≡ true) × (n ≡ digits_value 10 bytes.now)) }
{
    let mut value = 0;
    for byte in bytes {
        if !byte.is_ascii_digit() {
            return None;
        }
        value = value * 10 + u64::from(*byte - b'0');
    }
    Some(value)
}

// The number that digits write; none where it doesn't fit or a byte is no digit.
#[cold]
#[inline(never)]
#[tactic(auto, using(crate::proofs::NumberLemmas::next_digit, crate::proofs::NumberLemmas::digits_more))]
fn long_number(bytes: &[u8]) -> Option<u64>
    ensures { MatchOption result
        (list_all is_ascii_digit bytes.now ≡ true → 2 ^ 64 ≤ digits_value 10 bytes.now)
        (λ n. (list_all is_ascii_digit bytes.now ≡ true) × (n ≡ digits_value 10 bytes.now)) }
{
    let mut value = 0u64;
    for byte in bytes {
        if !byte.is_ascii_digit() {
            return None;
        }
        value = value.checked_mul(10)?.checked_add(u64::from(*byte - b'0'))?;
    }
    Some(value)
}

/// A number of 64 bits, with no sign and no leading zero.
pub fn read_u64(field: &[u8]) -> Option<u64>
    ensures { result ≡ number 64 field.now }
{
    match field {
        [b'0'] => Some(0),
        [] | [b'0', ..] => None,
        _ if field.len() <= SURE_DIGITS => short_number(field),
        _ => long_number(field),
    }
}

/// A number of 32 bits, with no sign and no leading zero.
pub(crate) fn read_u32(field: &[u8]) -> Option<u32>
    ensures { result ≡ number 32 field.now }
{
    let value = read_u64(field)?;
    if value <= u64::from(u32::MAX) {
        Some(value as u32)
    } else {
        None
    }
}

/// A number from 1 to 1,000,000, with no sign and no leading zero.
pub(crate) fn read_quantity(field: &[u8]) -> Option<Quantity>
    ensures { result ≡ quantity field.now }
{
    Quantity::new(read_u64(field)?)
}

/// Stars: `0` to `5`, or a minus and then `1` to `5`.
pub(crate) fn read_stars(field: &[u8]) -> Option<Stars>
    ensures { result ≡ stars field.now }
{
    match field {
        [digit @ b'0'..=b'5'] => Stars::new(i64::from(*digit - b'0')),
        [b'-', digit @ b'1'..=b'5'] => Stars::new(-i64::from(*digit - b'0')),
        _ => None,
    }
}

/// A name: 1 to 32 bytes, each from 0x20 to 0x7E.
pub(crate) fn read_name(field: &[u8]) -> Option<Name>
    ensures { result ≡ name field.now }
{
    Name::new(field)
}

// The place of the first point.
fn first_point(field: &[u8]) -> Option<usize>
    ensures place { result ≡ position is_point field.now }
    ensures within { IfSome result (λ i. i < length field.now) }
{
    field.iter().position(|byte| *byte == b'.')
}

/// An item's id: its worker, a point and its serial, as `0.0` or `15.999`.
pub(crate) fn read_item_id(field: &[u8]) -> Option<ItemId>
    ensures { result ≡ item_id field.now }
{
    let point = first_point(field)?;
    let worker = read_u32(&field[..point])?;
    let serial = read_u32(&field[point + 1..])?;
    Some(ItemId { worker, serial })
}
