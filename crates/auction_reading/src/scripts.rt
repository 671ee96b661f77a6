//! The rows and scripts of a whole input.
ghost use Rattle.std.specs.Prelude.{◌<◌, vec_len, IfErr, OnOk, ℕ, ◌≡◌, ◌≤◌, ◌++◌, true, length, map, IfOk, List, IfSome};
ghost use Rattle.csv.specs.Reading.{strip_bom};
ghost use Rattle.auction_reading.specs.Scripts.{asked_by, input_of};
ghost use Rattle.auction_reading.specs.inner.Progress.{IsAtStart, IsReadUpTo, unmarked};
ghost use Rattle.record_reading.specs.{Asking.{asked_of}, Reading.{IsInputFault, IsPlain}};
ghost use Rattle.record_reading.specs.declared.inputs.TheConstants.{MOST_RECORDS};

use crate::buffered_lines::{Alone, LineReading, read_lines};
use crate::plain_text::{Progress, add};
use auction_rows::{Opened, Request};
use csv::{ByteRecord, Reader, ReaderBuilder};
use record_reading::{
    CompactInput, MOST_RECORDS, ROOM_TO_READ, ReadFault, front_of, read_next, read_record,
};
use std::alloc::{AllocError, Global};
use std::io::Read;
use worker_journals::Script;

/// What an input asks for: the rows that the auction is opened with, and each worker's script.
#[derive(Drop)]
pub struct Input {
    /// The rows, in their order.
    pub rows: Vec<Opened>,
    /// The script of each worker, by the worker's number.
    pub scripts: Vec<Vec<Request>>,
}

// Reads the records that a reader of the rest of an input has, and adds each.
fn read_all<R: Read>(
    records: &mut Reader<R>,
    fields: &mut ByteRecord,
    workers: u32,
    progress: &mut Progress,
) -> Result<(), ReadFault>
    requires plain { IsPlain records.old }
    requires count { vec_len progress.old.input.scripts ≡ workers }
    requires room { progress.old.count ≤ MOST_RECORDS }
    ensures input { OnOk result ((bytes left : List ℕ) → IsAtStart R.remaining left records.old →
        unmarked progress.old.count left ≡ strip_bom left →
        IsReadUpTo workers bytes progress.old left →
        input_of workers bytes ≡ Ok (asked_of progress.new.input)) }
    ensures count { OnOk result (vec_len progress.new.input.scripts ≡ workers) }
    ensures fault { IfErr result (λ fault. IsInputFault fault →
        (bytes left : List ℕ) → IsAtStart R.remaining left records.old →
        unmarked progress.old.count left ≡ strip_bom left →
        IsReadUpTo workers bytes progress.old left →
        input_of workers bytes ≡ Err fault) }
{
    while progress.count < MOST_RECORDS {
        if !read_next(records, fields)? {
            return Ok(());
        }
        let place = progress.count + 1;
        let said = read_record(fields, workers, place as u64, progress.begun)?;
        add(progress, &said)?;
    }
    if read_next(records, fields)? {
        return Err(ReadFault::Long);
    }
    Ok(())
}

// Reads as `csv` does the rest of an input, which a reader gives. The reader of records is let go
// at one place, by which this is proved sooner.
#[inline(never)]
fn read_rest<R: Read + Drop>(
    alloc: Global,
    reader: R,
    workers: u32,
    progress: &mut Progress,
) -> Result<(), ReadFault>
    requires count { vec_len progress.old.input.scripts ≡ workers }
    requires room { progress.old.count ≤ MOST_RECORDS }
    ensures input { OnOk result (IfSome (R.remaining reader) (λ left. (bytes : List ℕ) →
        unmarked progress.old.count left ≡ strip_bom left →
        IsReadUpTo workers bytes progress.old left →
        input_of workers bytes ≡ Ok (asked_of progress.new.input))) }
    ensures count { OnOk result (vec_len progress.new.input.scripts ≡ workers) }
    ensures fault { IfErr result (λ fault. IsInputFault fault →
        IfSome (R.remaining reader) (λ left. (bytes : List ℕ) →
        unmarked progress.old.count left ≡ strip_bom left →
        IsReadUpTo workers bytes progress.old left →
        input_of workers bytes ≡ Err fault)) }
{
    let mut records = ReaderBuilder::new()
        .has_headers(false)
        .flexible(true)
        .from_reader(alloc, reader);
    let mut fields = ByteRecord::new(alloc);
    read_all(&mut records, &mut fields, workers, progress)
}

// Reads as `csv` does the rest of an input: what a buffer holds, and then what a reader gives.
fn hand_over<R: Read + Drop>(
    alloc: Global,
    held: &[u8],
    reader: R,
    workers: u32,
    progress: &mut Progress,
) -> Result<(), ReadFault>
    requires count { vec_len progress.old.input.scripts ≡ workers }
    requires room { progress.old.count ≤ MOST_RECORDS }
    ensures input { OnOk result (IfSome (R.remaining reader) (λ left. (bytes : List ℕ) →
        IsReadUpTo workers bytes progress.old (held.now ++ left) →
        input_of workers bytes ≡ Ok (asked_of progress.new.input))) }
    ensures count { OnOk result (vec_len progress.new.input.scripts ≡ workers) }
    ensures fault { IfErr result (λ fault. IsInputFault fault →
        IfSome (R.remaining reader) (λ left. (bytes : List ℕ) →
        IsReadUpTo workers bytes progress.old (held.now ++ left) →
        input_of workers bytes ≡ Err fault)) }
{
    let front = front_of(progress.count as u64);
    let rest = front.chain(held).chain(reader);
    read_rest(alloc, rest, workers, progress)
}

/// Reads to its end what a reader gives, through a buffer: plain lines where they lie, and as `csv`
/// does from the first line on that is not plain or has a fault.
pub(crate) fn read_input<L: LineReading, R: Read + Drop>(
    lines: &mut L,
    buffer: &mut [u8],
    alloc: Global,
    reader: R,
    workers: u32,
) -> Result<CompactInput, ReadFault>
    requires can { L.can_read }
    requires some { 0 < length buffer.old }
    ensures input { IfOk result (λ input. IfSome (R.remaining reader) (λ bytes.
        input_of workers bytes ≡ Ok (asked_of input))) }
    ensures count { IfOk result (λ input. vec_len input.scripts ≡ workers) }
    ensures fault { IfErr result (λ fault. IsInputFault fault →
        IfSome (R.remaining reader) (λ bytes. input_of workers bytes ≡ Err fault)) }
{
    let input = CompactInput::new(alloc, workers)?;
    let mut progress = Progress {
        input,
        count: 0,
        begun: false,
    };
    let mut reader = reader;
    let held = read_lines(lines, &mut progress, buffer, &mut reader)?;
    if held == 0 {
        return Ok(progress.input);
    }
    hand_over(alloc, &buffer[..held], reader, workers, &mut progress)?;
    Ok(progress.input)
}

// The requests of each script, in the scripts' order. Each script is let go once it is copied.
fn lists_of(alloc: Global, scripts: Vec<Script>) -> Result<Vec<Vec<Request>>, AllocError>
    ensures same { IfOk result (λ lists.
        map (λ requests. requests.items) lists.items ≡ scripts.items) }
    ensures count { IfOk result (λ lists. vec_len lists ≡ vec_len scripts) }
{
    let mut lists = Vec::with_capacity(alloc, scripts.len())?;
    for script in scripts {
        lists.push(script.to_requests(alloc)?)?;
    }
    Ok(lists)
}

/// Reads to its end what a reader gives: rows to open with, and after them the scripts of so many
/// workers, whose requests may stand among one another.
///
/// The input is read as `csv` reads it, with no headers and nothing trimmed. The first record with
/// a fault ends the reading, and so do a row after a request and a record past `MOST_RECORDS`: no
/// scripts are given then. `Read` comes of a read that failed and `Memory` of memory that was
/// refused; either may come before the fault of a later record is found.
pub fn read_scripts<R: Read + Drop>(
    alloc: Global,
    reader: R,
    workers: u32,
) -> Result<Input, ReadFault>
    ensures input { IfOk result (λ input. IfSome (R.remaining reader) (λ bytes.
        input_of workers bytes ≡ Ok (asked_by input))) }
    ensures count { IfOk result (λ input. vec_len input.scripts ≡ workers) }
    ensures fault { IfErr result (λ fault. IsInputFault fault →
        IfSome (R.remaining reader) (λ bytes. input_of workers bytes ≡ Err fault)) }
{
    let CompactInput { rows, scripts } = read_compact_scripts(alloc, reader, workers)?;
    let Ok(scripts) = lists_of(alloc, scripts) else {
        return Err(ReadFault::Memory);
    };
    Ok(Input { rows, scripts })
}

/// Reads an input as `read_scripts` does, into scripts that are compact, as a run performs them.
pub fn read_compact_scripts<R: Read + Drop>(
    alloc: Global,
    reader: R,
    workers: u32,
) -> Result<CompactInput, ReadFault>
    ensures input { IfOk result (λ input. IfSome (R.remaining reader) (λ bytes.
        input_of workers bytes ≡ Ok (asked_of input))) }
    ensures count { IfOk result (λ input. vec_len input.scripts ≡ workers) }
    ensures fault { IfErr result (λ fault. IsInputFault fault →
        IfSome (R.remaining reader) (λ bytes. input_of workers bytes ≡ Err fault)) }
{
    let mut lines = Alone;
    let mut buffer = [0u8; ROOM_TO_READ];
    read_input(&mut lines, &mut buffer, alloc, reader, workers)
}
