//! What one line says. It is a text of its own: whatever quotes are open at its end, the next line
//! is no part of it. A quote that is open there takes the line feed into its field, which no field
//! may have, so such a line has a fault.
ghost use Rattle.std.specs.Io.Chain.{chain_remaining};
ghost use Rattle.std.specs.Prelude.{ℕ, ◌≡◌, ◌+◌, ◌<◌, ◌≤◌, List, Some, true, length, take, IfOk, IfSome, MatchOption};
ghost use Rattle.csv.specs.Reading.{default_config, records};
ghost use Rattle.record_reading.specs.Lines.{IsLine, IsWhole, has_no_feed};
ghost use Rattle.record_reading.specs.Reading.{HasNoInputFault};
ghost use Rattle.record_reading.specs.declared.buffers.TheConstants.{ROOM_TO_READ};
ghost use Rattle.live_reading.specs.LiveLines.{first_worker, line_says, one_says, records_say};
ghost use Rattle.live_reading.specs.inner.Lines.{HasLeft, IsOneOf};

use csv::{ByteRecord, Reader, ReaderBuilder};
use memchr::memchr;
use record_reading::{
    Cause, ReadFault, Record, front_of, line_at, read_next, read_record, worker_of,
};
use std::alloc::Global;
use std::io::{Chain, Read};

/// The fault of a line.
#[derive(Clone, Copy, Debug, PartialEq, Eq, Drop)]
pub struct LineFault {
    /// The worker that its first field names, if it is one of the input's.
    pub worker: Option<u32>,
    /// What is wrong.
    pub fault: ReadFault,
}

/// What a line says that is not blank.
#[derive(Clone, Copy)]
pub enum Said {
    /// A record without a fault.
    Record(Record),
    /// A fault.
    Fault(LineFault),
}

// A reader of the records of a line. It comes after the end of a line, so no byte order mark is
// taken off.
fn line_reader<'a>(alloc: Global, line: &'a [u8]) -> Reader<Chain<&'static [u8], &'a [u8]>>
    ensures { HasLeft (chain_remaining (λ front. Some front.now) (λ rest. Some rest.now)) result
        (records default_config line.now) }
{
    ReaderBuilder::new()
        .has_headers(false)
        .flexible(true)
        .from_reader(alloc, front_of(1).chain(line))
}

// The worker named by the first record that a reader gives, if it is one of so many. The caller
// drops the reader, here and in `said_in`: one place to drop it is proved sooner.
fn worker_in<R: Read>(
    records: &mut Reader<R>,
    fields: &mut ByteRecord,
    workers: u32,
) -> Result<Option<u32>, ReadFault>
    ensures value { IfOk result (λ worker. (rows : List (List (List ℕ))) →
        HasLeft R.remaining records.old rows → worker ≡ first_worker workers rows) }
    ensures fails { HasNoInputFault result }
{
    if !read_next(records, fields)? {
        return Ok(None);
    }
    Ok(worker_of(fields, workers))
}

/// The worker that a text's first record names, if it is one of so many.
pub(crate) fn first_worker(
    alloc: Global,
    text: &[u8],
    workers: u32,
) -> Result<Option<u32>, ReadFault>
    ensures value { IfOk result (λ worker.
        worker ≡ first_worker workers (records default_config text.now)) }
    ensures fails { HasNoInputFault result }
{
    let mut records = line_reader(alloc, text);
    let mut fields = ByteRecord::new(alloc);
    worker_in(&mut records, &mut fields, workers)
}

// What a line says that is one record, and names this worker.
fn said_by(worker: Option<u32>, said: Result<Record, ReadFault>) -> Said
    ensures { result ≡ one_says worker said }
{
    match said {
        Ok(one) => Said::Record(one),
        Err(fault) => Said::Fault(LineFault { worker, fault }),
    }
}

// What a line says whose records a reader gives: nothing if it is blank.
fn said_in<R: Read>(
    records: &mut Reader<R>,
    fields: &mut ByteRecord,
    workers: u32,
    place: u64,
    begun: bool,
) -> Result<Option<Said>, ReadFault>
    ensures value { IfOk result (λ said. (rows : List (List (List ℕ))) →
        HasLeft R.remaining records.old rows → said ≡ records_say workers place begun rows) }
    ensures worker { IfOk result (λ said. IsOneOf workers said) }
    ensures fails { HasNoInputFault result }
{
    if !read_next(records, fields)? {
        return Ok(None);
    }
    let worker = worker_of(fields, workers);
    let said = read_record(fields, workers, place, begun);
    if read_next(records, fields)? {
        let fault = ReadFault::Line(place, Cause::Fields);
        return Ok(Some(said_by(worker, Err(fault))));
    }
    Ok(Some(said_by(worker, said)))
}

/// What a line says, as `csv` reads it: nothing if it is blank.
#[inline(never)]
pub(crate) fn said_of(
    alloc: Global,
    line: &[u8],
    workers: u32,
    place: u64,
    begun: bool,
) -> Result<Option<Said>, ReadFault>
    ensures value { IfOk result (λ said.
        said ≡ records_say workers place begun (records default_config line.now)) }
    ensures worker { IfOk result (λ said. IsOneOf workers said) }
    ensures fails { HasNoInputFault result }
{
    let mut records = line_reader(alloc, line);
    let mut fields = ByteRecord::new(alloc);
    said_in(&mut records, &mut fields, workers, place, begun)
}

// What a line says that begins with this plain line, if it is this to its end and its record has no
// fault.
#[inline(always)]
fn whole_record(
    first: Option<(Record, usize)>,
    line: &[u8],
    workers: u32,
    begun: bool,
) -> Option<Record>
    requires whole { IsWhole line.now }
    requires room { length line.now ≤ ROOM_TO_READ }
    requires first { IfSome first (λ p. IsLine line.now 0 p.0 p.1) }
    ensures says { IfSome result (λ one. (place : ℕ) →
        line_says workers place begun line.now ≡ Some (Said.Record one)) }
    ensures worker { IfSome result (λ one. one.worker < workers) }
{
    let Some((one, next)) = first else {
        return None;
    };
    if next < line.len() || one.worker >= workers {
        return None;
    }
    if one.is_row && begun {
        return None;
    }
    Some(one)
}

/// What a line says, if it is plain and its record has no fault.
#[inline(always)]
pub(crate) fn plain_record(line: &[u8], workers: u32, begun: bool) -> Option<Record>
    requires whole { IsWhole line.now }
    requires room { length line.now ≤ ROOM_TO_READ }
    ensures says { IfSome result (λ one. (place : ℕ) →
        line_says workers place begun line.now ≡ Some (Said.Record one)) }
    ensures worker { IfSome result (λ one. one.worker < workers) }
{
    whole_record(line_at(line, 0), line, workers, begun)
}

/// How long the first line of a text is, with its line feed; none if it has no line feed.
#[inline(always)]
pub(crate) fn line_len(text: &[u8]) -> Option<usize>
    ensures len { MatchOption result (has_no_feed text.now ≡ true)
        (λ len. IsWhole (take len text.now)) }
    ensures within { IfSome result (λ len. len ≤ length text.now) }
    ensures some { IfSome result (λ len. 0 < len) }
{
    match memchr(b'\n', text) {
        Some(place) => Some(place + 1),
        None => None,
    }
}
