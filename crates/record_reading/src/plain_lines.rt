//! Lines of plain fields, of which an item's name may be in quotes, read where they lie.
ghost use Rattle.std.specs.Prelude.{ℕ, ◌≡◌, ◌+◌, ◌-◌, ◌<◌, drop, false, true, get_or, length, take, IfSome};
ghost use Rattle.record_reading.specs.{Kinds.{plus}, Lines.{EndsLine, IsLine, IsWhole}};
ghost use Rattle.record_reading.specs.inner.PlainLines.{HasLineTo, IsEndOfItem, IsRequestAt, IsRestOf};
ghost use Rattle.record_reading.specs.declared.fields.RequestKind.TheVariants as kind;

use crate::fields::{read_name, read_quantity, read_stars};
use crate::plain_fields::{
    begins, field_to_comma, item_to_comma, last_field, last_item, last_number, last_u32,
    next_field, number_to, u32_to,
};
use crate::record::Record;
use auction_rows::{Facts, Quantity, Request};

// The bid whose fields are from a place on, if a line feed alone ends the line.
#[inline(always)]
fn bid(text: &[u8], at: usize) -> Option<(Request, usize)>
    requires ends { EndsLine text.now }
    requires within { at < length text.now }
    ensures asks { IfSome result (λ p. IsRestOf kind.Bid text.now at p.0 p.1) }
    ensures alone { IfSome result (λ p. IsRestOf kind.Bid (take p.1 text.now) at p.0 p.1) }
    ensures line { IfSome result (λ p. HasLineTo text.now at p.1) }
{
    let (bidder, at_item) = u32_to(text, at, b',')?;
    let (item, at_amount) = item_to_comma(text, at_item)?;
    let (amount, at_time) = number_to(text, at_amount, b',')?;
    let (time, next) = number_to(text, at_time, b'\n')?;
    let request = Request::StoreBid {
        bidder,
        item,
        amount,
        time,
    };
    Some((request, next))
}

// The bid whose fields are from a place on, whatever ends the line. To allow for other ends in
// `bid` costs every bid a little, and one function that is generic over them costs a row more.
#[inline(never)]
fn any_bid(text: &[u8], at: usize) -> Option<(Request, usize)>
    requires ends { EndsLine text.now }
    requires within { at < length text.now }
    ensures { IfSome result (λ p. IsRestOf kind.Bid text.now at p.0 p.1) }
{
    let (bidder, at_item) = u32_to(text, at, b',')?;
    let (item, at_amount) = item_to_comma(text, at_item)?;
    let (amount, at_time) = number_to(text, at_amount, b',')?;
    let (time, next) = last_number(text, at_time)?;
    let request = Request::StoreBid {
        bidder,
        item,
        amount,
        time,
    };
    Some((request, next))
}

// The time and the quantity that end an item's line: one is put up if the line does not say how
// many.
fn put_up(text: &[u8], at: usize) -> Option<(u64, Quantity, usize)>
    requires ends { EndsLine text.now }
    requires within { at < length text.now }
    ensures { IfSome result (λ p. IsEndOfItem text.now at p.0 p.1 p.2) }
{
    if let Some((time, next)) = last_number(text, at) {
        return Some((time, Quantity::new(1).unwrap(), next));
    }
    let (time, at_quantity) = number_to(text, at, b',')?;
    let (field, next) = last_field(text, at_quantity)?;
    Some((time, read_quantity(field)?, next))
}

// The item whose fields are from a place on, to the end of the line.
#[inline(never)]
fn item(text: &[u8], at: usize) -> Option<(Request, usize)>
    requires ends { EndsLine text.now }
    requires within { at < length text.now }
    ensures { IfSome result (λ p. IsRestOf kind.Item text.now at p.0 p.1) }
{
    let (seller, at_category) = u32_to(text, at, b',')?;
    let (category, at_name) = u32_to(text, at_category, b',')?;
    let (field, at_start) = next_field(text, at_name)?;
    let name = read_name(field)?;
    let (start, at_closes) = number_to(text, at_start, b',')?;
    let (closes, at_time) = number_to(text, at_closes, b',')?;
    let (time, quantity, next) = put_up(text, at_time)?;
    let facts = Facts {
        seller,
        category,
        name,
        start,
        closes,
        quantity,
    };
    Some((Request::StoreItem { facts, time }, next))
}

// The comment whose fields are from a place on, to the end of the line.
#[inline(never)]
fn comment(text: &[u8], at: usize) -> Option<(Request, usize)>
    requires ends { EndsLine text.now }
    requires within { at < length text.now }
    ensures { IfSome result (λ p. IsRestOf kind.Comment text.now at p.0 p.1) }
{
    let (author, at_about) = u32_to(text, at, b',')?;
    let (about, at_item) = u32_to(text, at_about, b',')?;
    let (item, at_stars) = item_to_comma(text, at_item)?;
    let (field, next) = last_field(text, at_stars)?;
    let stars = read_stars(field)?;
    let request = Request::StoreComment {
        author,
        about,
        item,
        stars,
    };
    Some((request, next))
}

// The purchase whose fields are from a place on, to the end of the line.
#[inline(never)]
fn purchase(text: &[u8], at: usize) -> Option<(Request, usize)>
    requires ends { EndsLine text.now }
    requires within { at < length text.now }
    ensures { IfSome result (λ p. IsRestOf kind.BuyNow text.now at p.0 p.1) }
{
    let (buyer, at_item) = u32_to(text, at, b',')?;
    let (item, at_quantity) = item_to_comma(text, at_item)?;
    let (field, at_time) = field_to_comma(text, at_quantity)?;
    let quantity = read_quantity(field)?;
    let (time, next) = last_number(text, at_time)?;
    let request = Request::BuyNow {
        buyer,
        item,
        quantity,
        time,
    };
    Some((request, next))
}

// The view that a text goes on with, to the end of the line. Inlined, as are `store_at` and
// `line_at`: each call would copy the request, with room for an item's facts.
#[inline(always)]
fn view_at(text: &[u8], at: usize) -> Option<(Request, usize)>
    requires ends { EndsLine text.now }
    requires within { at < length text.now }
    ensures { IfSome result (λ p. IsRequestAt false text.now at p.0 p.1) }
{
    if begins(text, at, b"viewitem,") {
        let (item, next) = last_item(text, at + 9)?;
        return Some((Request::ViewItem { item }, next));
    }
    if begins(text, at, b"viewbids,") {
        let (item, next) = last_item(text, at + 9)?;
        return Some((Request::ViewBids { item }, next));
    }
    if begins(text, at, b"viewcategory,") {
        let (category, next) = last_u32(text, at + 13)?;
        return Some((Request::ViewCategory { category }, next));
    }
    if begins(text, at, b"viewuser,") {
        let (user, next) = last_u32(text, at + 9)?;
        return Some((Request::ViewUser { user }, next));
    }
    None
}

// The store that a text goes on with, to the end of the line.
#[inline(always)]
fn store_at(text: &[u8], at: usize) -> Option<(Request, usize)>
    requires ends { EndsLine text.now }
    requires within { at < length text.now }
    ensures asks { IfSome result (λ p. IsRequestAt false text.now at p.0 p.1) }
    ensures adds { IfSome result (λ p. (before : ℕ) → before + 1 ≡ at →
        get_or text.now before 0 ≡ plus → IsRequestAt true text.now before p.0 p.1) }
{
    if begins(text, at, b"item,") {
        return item(text, at + 5);
    }
    if begins(text, at, b"comment,") {
        return comment(text, at + 8);
    }
    if begins(text, at, b"buynow,") {
        return purchase(text, at + 7);
    }
    if begins(text, at, b"bid,") {
        return any_bid(text, at + 4);
    }
    None
}

/// What the line from a place on says, if it is a plain line of a bid, and the place after it. It
/// says so whatever is behind it.
#[inline(always)]
pub fn bid_at(text: &[u8], at: usize) -> Option<(Record, usize)>
    requires ends { EndsLine text.now }
    requires within { at < length text.now }
    ensures says { IfSome result (λ p. IsLine text.now at p.0 p.1) }
    ensures alone { IfSome result (λ p. IsLine (take p.1 text.now) at p.0 p.1) }
    ensures whole { IfSome result (λ p. IsWhole (take (p.1 - at) (drop at text.now))) }
    ensures request { IfSome result (λ p. p.0.is_row ≡ false) }
{
    let (worker, at_word) = u32_to(text, at, b',')?;
    if !begins(text, at_word, b"bid,") {
        return None;
    }
    let (request, next) = bid(text, at_word + 4)?;
    let said = Record {
        is_row: false,
        worker,
        request,
    };
    Some((said, next))
}

// The request that a text goes on with or, after a plus, the row, to the end of the line; and which
// of the two it is.
#[inline(always)]
fn asked_at(text: &[u8], at: usize) -> Option<(bool, Request, usize)>
    requires ends { EndsLine text.now }
    requires within { at < length text.now }
    ensures { IfSome result (λ p. IsRequestAt p.0 text.now at p.1 p.2) }
{
    if text[at] == b'+' {
        let (request, next) = store_at(text, at + 1)?;
        return Some((true, request, next));
    }
    if text[at] == b'v' {
        let (request, next) = view_at(text, at)?;
        return Some((false, request, next));
    }
    let (request, next) = store_at(text, at)?;
    Some((false, request, next))
}

/// What the line from a place on says, if it is plain, and the place after it.
#[inline(always)]
pub fn line_at(text: &[u8], at: usize) -> Option<(Record, usize)>
    requires ends { EndsLine text.now }
    requires within { at < length text.now }
    ensures { IfSome result (λ p. IsLine text.now at p.0 p.1) }
{
    let (worker, at_word) = u32_to(text, at, b',')?;
    let (is_row, request, next) = asked_at(text, at_word)?;
    let said = Record {
        is_row,
        worker,
        request,
    };
    Some((said, next))
}
