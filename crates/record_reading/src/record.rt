//! Records: the fields of the next one, as `csv` reads them, and what they say: a worker's request,
//! or a row, or the first fault.
ghost use Rattle.std.specs.Prelude.{◌≡◌, ◌==◌, ◌∷◌, [], true, IfOk, if◌then◌else◌, ◌<◌};
ghost use Rattle.csv.specs.{Reading.{ReadRecord}, Records.{fields_of}};
ghost use Rattle.record_reading.specs.Lines.{line_feed};
ghost use Rattle.record_reading.specs.Reading.{HasNoInputFault, IsInputFault, IsPlain};
ghost use Rattle.record_reading.specs.Records.{field, item_at, kind_in, name_at, number_at, put_up, quantity_at, read_record, request_of, stars_at, worker_of};

use crate::fields::{
    Kind, RequestKind, has_count, kind_named, read_item_id, read_name, read_quantity, read_stars,
    read_u32, read_u64,
};
use crate::inputs::{Cause, ReadFault};
use auction_rows::{Facts, ItemId, Name, Quantity, Request, Stars};
use csv::{ByteRecord, ErrorKind, Reader};
use std::io::Read;

// Why a record could not be read.
fn fault_of(error: csv::Error) -> ReadFault
    ensures { IsInputFault result → ⊥ }
{
    match error.into_kind() {
        ErrorKind::OutOfMemory => ReadFault::Memory,
        _ => ReadFault::Read,
    }
}

/// Reads the fields of the next record, and returns whether there was one.
pub fn read_next<R: Read>(
    records: &mut Reader<R>,
    fields: &mut ByteRecord,
) -> Result<bool, ReadFault>
    ensures reads { IfOk result (λ found. IsPlain records.old →
        ReadRecord R.remaining records.old records.new found (fields_of fields.new)) }
    ensures plain { IfOk result (λ found.
        IsPlain records.old → found ≡ true → IsPlain records.new) }
    ensures fails { HasNoInputFault result }
{
    match records.read_byte_record(fields) {
        Ok(found) => Ok(found),
        Err(error) => Err(fault_of(error)),
    }
}

/// What the rest of an input is read after: the end of a line, so that no byte order mark is taken
/// off within the input.
pub fn front_of(count: u64) -> &'static [u8]
    ensures { result.now ≡ (if count == 0 then [] else (line_feed ∷ [])) }
{
    if count == 0 { b"" } else { b"\n" }
}

/// What a record without a fault says: a worker's request, or a row that its request would add.
#[derive(Clone, Copy)]
pub struct Record {
    /// Whether it is a row.
    pub is_row: bool,
    /// The worker that its first field names.
    pub worker: u32,
    /// The request, or the one that would add the row.
    pub request: Request,
}

// The field at a place, empty past the last.
fn field_of(fields: &ByteRecord, place: usize) -> &[u8]
    ensures { result.now ≡ field (fields_of fields.now) place }
{
    fields.get(place).unwrap_or(&[])
}

/// The worker that a record's first field names, if it is one of so many.
pub fn worker_of(fields: &ByteRecord, workers: u32) -> Option<u32>
    ensures { result ≡ worker_of workers (fields_of fields.now) }
{
    let worker = read_u32(field_of(fields, 0))?;
    if worker < workers { Some(worker) } else { None }
}

fn u32_at(fields: &ByteRecord, place: usize) -> Result<u32, Cause>
    ensures { result ≡ number_at 32 (fields_of fields.now) place }
{
    read_u32(field_of(fields, place)).ok_or(Cause::Number)
}

fn u64_at(fields: &ByteRecord, place: usize) -> Result<u64, Cause>
    ensures { result ≡ number_at 64 (fields_of fields.now) place }
{
    read_u64(field_of(fields, place)).ok_or(Cause::Number)
}

fn item_at(fields: &ByteRecord, place: usize) -> Result<ItemId, Cause>
    ensures { result ≡ item_at (fields_of fields.now) place }
{
    read_item_id(field_of(fields, place)).ok_or(Cause::Item)
}

fn name_at(fields: &ByteRecord, place: usize) -> Result<Name, Cause>
    ensures { result ≡ name_at (fields_of fields.now) place }
{
    read_name(field_of(fields, place)).ok_or(Cause::Name)
}

fn quantity_at(fields: &ByteRecord, place: usize) -> Result<Quantity, Cause>
    ensures { result ≡ quantity_at (fields_of fields.now) place }
{
    read_quantity(field_of(fields, place)).ok_or(Cause::Quantity)
}

fn stars_at(fields: &ByteRecord, place: usize) -> Result<Stars, Cause>
    ensures { result ≡ stars_at (fields_of fields.now) place }
{
    read_stars(field_of(fields, place)).ok_or(Cause::Stars)
}

// How many of an item are put up: one where the record doesn't say.
fn put_up(fields: &ByteRecord) -> Result<Quantity, Cause>
    ensures { result ≡ put_up (fields_of fields.now) }
{
    if fields.len() == 9 {
        quantity_at(fields, 8)
    } else {
        Ok(Quantity::new(1).unwrap())
    }
}

// Apart from the others, which write fewer fields: their requests can stay in registers.
#[inline(never)]
fn store_item(fields: &ByteRecord) -> Result<Request, Cause>
    ensures { result ≡ request_of RequestKind.Item (fields_of fields.now) }
{
    let seller = u32_at(fields, 2)?;
    let category = u32_at(fields, 3)?;
    let name = name_at(fields, 4)?;
    let start = u64_at(fields, 5)?;
    let closes = u64_at(fields, 6)?;
    let time = u64_at(fields, 7)?;
    let quantity = put_up(fields)?;
    let facts = Facts {
        seller,
        category,
        name,
        start,
        closes,
        quantity,
    };
    Ok(Request::StoreItem { facts, time })
}

fn store_bid(fields: &ByteRecord) -> Result<Request, Cause>
    ensures { result ≡ request_of RequestKind.Bid (fields_of fields.now) }
{
    let bidder = u32_at(fields, 2)?;
    let item = item_at(fields, 3)?;
    let amount = u64_at(fields, 4)?;
    let time = u64_at(fields, 5)?;
    Ok(Request::StoreBid {
        bidder,
        item,
        amount,
        time,
    })
}

fn store_comment(fields: &ByteRecord) -> Result<Request, Cause>
    ensures { result ≡ request_of RequestKind.Comment (fields_of fields.now) }
{
    let author = u32_at(fields, 2)?;
    let about = u32_at(fields, 3)?;
    let item = item_at(fields, 4)?;
    let stars = stars_at(fields, 5)?;
    Ok(Request::StoreComment {
        author,
        about,
        item,
        stars,
    })
}

fn buy_now(fields: &ByteRecord) -> Result<Request, Cause>
    ensures { result ≡ request_of RequestKind.BuyNow (fields_of fields.now) }
{
    let buyer = u32_at(fields, 2)?;
    let item = item_at(fields, 3)?;
    let quantity = quantity_at(fields, 4)?;
    let time = u64_at(fields, 5)?;
    Ok(Request::BuyNow {
        buyer,
        item,
        quantity,
        time,
    })
}

fn view_item(fields: &ByteRecord) -> Result<Request, Cause>
    ensures { result ≡ request_of RequestKind.ViewItem (fields_of fields.now) }
{
    let item = item_at(fields, 2)?;
    Ok(Request::ViewItem { item })
}

fn view_bids(fields: &ByteRecord) -> Result<Request, Cause>
    ensures { result ≡ request_of RequestKind.ViewBids (fields_of fields.now) }
{
    let item = item_at(fields, 2)?;
    Ok(Request::ViewBids { item })
}

fn view_category(fields: &ByteRecord) -> Result<Request, Cause>
    ensures { result ≡ request_of RequestKind.ViewCategory (fields_of fields.now) }
{
    let category = u32_at(fields, 2)?;
    Ok(Request::ViewCategory { category })
}

fn view_user(fields: &ByteRecord) -> Result<Request, Cause>
    ensures { result ≡ request_of RequestKind.ViewUser (fields_of fields.now) }
{
    let user = u32_at(fields, 2)?;
    Ok(Request::ViewUser { user })
}

fn request_of(kind: RequestKind, fields: &ByteRecord) -> Result<Request, Cause>
    ensures { result ≡ request_of kind (fields_of fields.now) }
{
    match kind {
        RequestKind::Item => store_item(fields),
        RequestKind::Bid => store_bid(fields),
        RequestKind::Comment => store_comment(fields),
        RequestKind::BuyNow => buy_now(fields),
        RequestKind::ViewItem => view_item(fields),
        RequestKind::ViewBids => view_bids(fields),
        RequestKind::ViewCategory => view_category(fields),
        RequestKind::ViewUser => view_user(fields),
    }
}

fn kind_in(fields: &ByteRecord) -> Result<Kind, Cause>
    ensures { result ≡ kind_in (fields_of fields.now) }
{
    if fields.len() < 2 {
        return Err(Cause::Fields);
    }
    kind_named(field_of(fields, 1)).ok_or(Cause::Kind)
}

/// What the record with the number `place` says, or its first fault. `begun` tells whether a
/// request stands before it: a row is late then.
pub fn read_record(
    fields: &ByteRecord,
    workers: u32,
    place: u64,
    begun: bool,
) -> Result<Record, ReadFault>
    ensures value { result ≡ read_record workers place begun (fields_of fields.now) }
    ensures worker { IfOk result (λ said. said.worker < workers) }
{
    let Some(worker) = read_u32(field_of(fields, 0)) else {
        return Err(ReadFault::Line(place, Cause::Number));
    };
    if worker >= workers {
        return Err(ReadFault::Worker(place));
    }
    let kind = match kind_in(fields) {
        Ok(kind) => kind,
        Err(cause) => return Err(ReadFault::Line(place, cause)),
    };
    if kind.is_row && begun {
        return Err(ReadFault::Line(place, Cause::Late));
    }
    if !has_count(kind.request, fields.len()) {
        return Err(ReadFault::Line(place, Cause::Fields));
    }
    match request_of(kind.request, fields) {
        Ok(request) => Ok(Record {
            is_row: kind.is_row,
            worker,
            request,
        }),
        Err(cause) => Err(ReadFault::Line(place, cause)),
    }
}
