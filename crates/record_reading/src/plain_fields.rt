//! Fields of a text, plain or in quotes, read where they lie.
ghost use Rattle.std.specs.Prelude.{◌≡◌, ◌<◌, ◌≤◌, ◌-◌, true, drop, length, take, IfSome};
ghost use Rattle.record_reading.specs.Lines.{EndsLine, has_no_feed};
ghost use Rattle.record_reading.specs.inner.PlainLines.{HasWordAt, IsFieldTo, IsItemTo, IsLastField, IsLastItem, IsLastNumber, IsNumberTo, comma, is_plain};
ghost use Rattle.record_reading.specs.inner.QuotedFields.{HasNextField, IsQuotedTo, has_no_quote};

use crate::fields::SURE_DIGITS;
use auction_rows::ItemId;

// The value of a digit, and more than 9 of another byte: as wide as the number that it is added to.
#[inline(always)]
fn digit_value(byte: u8) -> u64
    ensures from_zero { 48 ≤ byte → result ≡ byte - 48 }
    ensures below_zero { byte < 48 → 9 < result }
{
    u64::from(byte).wrapping_sub(u64::from(b'0'))
}

/// The number that digits write from a place on, up to a stop, and the place after the stop.
#[inline(always)]
pub(crate) fn number_to(text: &[u8], from: usize, stop: u8) -> Option<(u64, usize)>
    requires ends { EndsLine text.now }
    requires within { from < length text.now }
    ensures { IfSome result (λ p. IsNumberTo text.now from stop 64 p.0 p.1) }
{
    let first = digit_value(text[from]);
    if first > 9 {
        return None;
    }
    if text[from + 1] == stop {
        return Some((first, from + 2));
    }
    if first == 0 {
        return None;
    }
    let mut value = first;
    let mut count = 1;
    loop {
        let digit = digit_value(text[from + count]);
        if digit > 9 {
            break;
        }
        value = value.wrapping_mul(10).wrapping_add(digit);
        count += 1;
    }
    if text[from + count] != stop || count > SURE_DIGITS {
        return None;
    }
    Some((value, from + count + 1))
}

/// The number of at most 32 bits that a field writes up to a stop, and the place after the stop.
#[inline(always)]
pub(crate) fn u32_to(text: &[u8], from: usize, stop: u8) -> Option<(u32, usize)>
    requires ends { EndsLine text.now }
    requires within { from < length text.now }
    ensures { IfSome result (λ p. IsNumberTo text.now from stop 32 p.0 p.1) }
{
    let (value, next) = number_to(text, from, stop)?;
    if value > u64::from(u32::MAX) {
        return None;
    }
    Some((value as u32, next))
}

/// The item that a field before a comma names, and the place after the comma.
#[inline(always)]
pub(crate) fn item_to_comma(text: &[u8], from: usize) -> Option<(ItemId, usize)>
    requires ends { EndsLine text.now }
    requires within { from < length text.now }
    ensures { IfSome result (λ p. IsItemTo text.now from comma p.0 p.1) }
{
    let (worker, at) = u32_to(text, from, b'.')?;
    let (serial, next) = u32_to(text, at, b',')?;
    Some((ItemId { worker, serial }, next))
}

// The number that digits write from a place on, up to a carriage return and a line feed, and the
// place after them.
#[inline(never)]
fn number_to_return(text: &[u8], from: usize) -> Option<(u64, usize)>
    requires ends { EndsLine text.now }
    requires within { from < length text.now }
    ensures { IfSome result (λ p. IsLastNumber text.now from 64 p.0 p.1) }
{
    let (value, at) = number_to(text, from, b'\r')?;
    if text[at] != b'\n' {
        return None;
    }
    Some((value, at + 1))
}

/// The number that a line's last field writes, and the place after the line.
#[inline(always)]
pub(crate) fn last_number(text: &[u8], from: usize) -> Option<(u64, usize)>
    requires ends { EndsLine text.now }
    requires within { from < length text.now }
    ensures { IfSome result (λ p. IsLastNumber text.now from 64 p.0 p.1) }
{
    match number_to(text, from, b'\n') {
        Some(read) => Some(read),
        None => number_to_return(text, from),
    }
}

/// The number of at most 32 bits that a line's last field writes, and the place after the line.
#[inline(always)]
pub(crate) fn last_u32(text: &[u8], from: usize) -> Option<(u32, usize)>
    requires ends { EndsLine text.now }
    requires within { from < length text.now }
    ensures { IfSome result (λ p. IsLastNumber text.now from 32 p.0 p.1) }
{
    let (value, next) = last_number(text, from)?;
    if value > u64::from(u32::MAX) {
        return None;
    }
    Some((value as u32, next))
}

/// The item that a line's last field names, and the place after the line.
#[inline(always)]
pub(crate) fn last_item(text: &[u8], from: usize) -> Option<(ItemId, usize)>
    requires ends { EndsLine text.now }
    requires within { from < length text.now }
    ensures { IfSome result (λ p. IsLastItem text.now from p.0 p.1) }
{
    let (worker, at) = u32_to(text, from, b'.')?;
    let (serial, next) = last_u32(text, at)?;
    Some((ItemId { worker, serial }, next))
}

// The place of the first comma, quote or end of a line, from a place on.
fn field_end(text: &[u8], from: usize) -> usize
    requires ends { EndsLine text.now }
    requires within { from < length text.now }
    ensures after { from ≤ result }
    ensures within { result < length text.now }
    ensures plain { is_plain (take (result - from) (drop from text.now)) ≡ true }
{
    let mut at = from;
    loop {
        let byte = text[at];
        if byte == b',' || byte == b'\n' || byte == b'\r' || byte == b'"' {
            break;
        }
        at += 1;
    }
    at
}

/// The field from a place on, up to a comma, and the place after the comma; none if a quote is
/// before it.
pub(crate) fn field_to_comma(text: &[u8], from: usize) -> Option<(&[u8], usize)>
    requires ends { EndsLine text.now }
    requires within { from < length text.now }
    ensures { IfSome result (λ p.
        IsFieldTo text.now from comma p.1 p.0.now × (is_plain p.0.now ≡ true)) }
{
    let at = field_end(text, from);
    if text[at] != b',' {
        return None;
    }
    Some((&text[from..at], at + 1))
}

// The place of the first quote or line feed, from a place on.
fn quote_or_feed(text: &[u8], from: usize) -> usize
    requires ends { EndsLine text.now }
    requires within { from < length text.now }
    ensures after { from ≤ result }
    ensures within { result < length text.now }
    ensures unquoted { has_no_quote (take (result - from) (drop from text.now)) ≡ true }
{
    let mut at = from;
    loop {
        let byte = text[at];
        if byte == b'\n' || byte == b'"' {
            break;
        }
        at += 1;
    }
    at
}

// The field in quotes from a place on, up to a comma, and the place after the comma; none if a
// quote or a line feed is in it.
fn quoted_to_comma(text: &[u8], from: usize) -> Option<(&[u8], usize)>
    requires ends { EndsLine text.now }
    requires within { from < length text.now }
    ensures { IfSome result (λ p. IsQuotedTo text.now from p.0.now p.1) }
{
    if text[from] != b'"' {
        return None;
    }
    let at = quote_or_feed(text, from + 1);
    if text[at] != b'"' || text[at + 1] != b',' {
        return None;
    }
    Some((&text[from + 1..at], at + 2))
}

/// The field from a place on, plain or in quotes, up to a comma, and the place after the comma;
/// none if a quote is in it.
pub(crate) fn next_field(text: &[u8], from: usize) -> Option<(&[u8], usize)>
    requires ends { EndsLine text.now }
    requires within { from < length text.now }
    ensures { IfSome result (λ p. HasNextField text.now from p.0.now p.1) }
{
    match quoted_to_comma(text, from) {
        Some(read) => Some(read),
        None => field_to_comma(text, from),
    }
}

/// A line's last field, from a place on, and the place after the line; none if a quote is before
/// its end.
pub(crate) fn last_field(text: &[u8], from: usize) -> Option<(&[u8], usize)>
    requires ends { EndsLine text.now }
    requires within { from < length text.now }
    ensures { IfSome result (λ p.
        IsLastField text.now from p.1 p.0.now × (is_plain p.0.now ≡ true)) }
{
    let at = field_end(text, from);
    if text[at] == b'\n' {
        return Some((&text[from..at], at + 1));
    }
    if text[at] != b'\r' || text[at + 1] != b'\n' {
        return None;
    }
    Some((&text[from..at], at + 2))
}

/// Whether a text goes on with a word.
#[inline(always)]
pub(crate) fn begins(text: &[u8], at: usize, word: &[u8]) -> bool
    requires ends { EndsLine text.now }
    requires within { at < length text.now }
    requires word { has_no_feed word.now ≡ true }
    ensures { result ≡ true → HasWordAt text.now at word.now }
{
    let mut place = at;
    for byte in word {
        if text[place] != *byte {
            return false;
        }
        place += 1;
    }
    true
}
